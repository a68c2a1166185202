//! Builds the fragments of a section, merging adjacent ones if
//! possible.

ghost use Rattle.std.specs.Prelude.{◌≡◌, IfOk, OnOk};
ghost use Rattle.std.specs.List.{AllByRecursion};
ghost use Rattle.object65.specs.Objects.{FragmentFits};
ghost use Rattle.object65.specs.declared.object.Fragment.TheVariants.{Fill, Literal};
ghost use Rattle.emit65.specs.Internal.Drafts.{all_of, with_new_fragment, fragment_of, fragments_of, MergerFits, with_fragment};

use super::keys::{Numbers, numbered, origin_of};
use crate::entries::{SectionEntry, sum_of};
use base65::ListVec;
use object65::Fragment;
use std::alloc::{AllocError, Global};
use std::mem;

/// The fragments of a section so far.
#[derive(Drop)]
pub struct FragmentMerger {
    pub done: ListVec<Fragment>,
    /// The last fragment, into which the next one may be merged.
    pub last: Option<Fragment>,
}

/// Adds a fragment after the last one.
fn push_fragment(merger: &mut FragmentMerger, fragment: Fragment) -> Result<(), AllocError>
    ensures { OnOk result (merger.new ≡ with_new_fragment merger.old fragment) }
{
    if let Some(last) = mem::replace(&mut merger.last, Some(fragment)) {
        merger.done.push(last)?;
    }
    Ok(())
}

/// Adds bytes. Merges them into the last fragment if that has bytes.
fn add_bytes(merger: &mut FragmentMerger, bytes: ListVec<u8>) -> Result<(), AllocError>
    ensures { OnOk result (merger.new ≡ with_fragment merger.old (Literal bytes)) }
{
    if bytes.len() == 0 {
        return Ok(());
    }
    if let Some(Fragment::Literal(literal)) = &mut merger.last {
        return literal.extend_from_slice(bytes.as_slice());
    }
    push_fragment(merger, Fragment::Literal(bytes))
}

/// Adds `count` bytes of the linker's fill value. Merges them into the
/// last fragment if that is of such bytes.
fn add_fill(merger: &mut FragmentMerger, count: u32) -> Result<(), AllocError>
    ensures added { OnOk result (merger.new ≡ with_fragment merger.old (Fill count)) }
    ensures fits { OnOk result (MergerFits merger.old → MergerFits merger.new) }
{
    if count == 0 {
        return Ok(());
    }
    if let Some(Fragment::Fill(before)) = &merger.last {
        merger.last = Some(Fragment::Fill(sum_of(*before, count)?));
        return Ok(());
    }
    push_fragment(merger, Fragment::Fill(count))
}

/// Adds the fragment of an entry, if it has one.
fn add_entry(
    numbers: &Numbers,
    merger: &mut FragmentMerger,
    entry: SectionEntry,
) -> Result<(), AllocError>
    ensures added { OnOk result (merger.new ≡
        with_fragment merger.old (fragment_of numbers.now entry)) }
    ensures fits { OnOk result (MergerFits merger.old → MergerFits merger.new) }
{
    match entry {
        SectionEntry::Bytes { segment: _, bytes } => add_bytes(merger, bytes),
        SectionEntry::Reserve { segment: _, count } => add_fill(merger, count),
        SectionEntry::Value {
            width,
            segment: _,
            pos,
            form,
        } => {
            let origin = origin_of(numbers, pos)?;
            let form = numbered(numbers, form)?;
            push_fragment(
                merger,
                Fragment::Value {
                    width,
                    origin,
                    form,
                },
            )
        }
        SectionEntry::DeclarationEntry(_) | SectionEntry::FixupEntry(_) => Ok(()),
    }
}

/// Returns all fragments.
fn all_of(merger: FragmentMerger) -> Result<ListVec<Fragment>, AllocError>
    ensures { IfOk result (λ fragments. fragments ≡ all_of merger) }
{
    let FragmentMerger { done, last } = merger;
    let mut fragments = done;
    if let Some(last) = last {
        fragments.push(last)?;
    }
    Ok(fragments)
}

/// Builds the fragments of a section from its entries.
pub fn fragments_of(
    alloc: Global,
    numbers: &Numbers,
    entries: ListVec<SectionEntry>,
) -> Result<ListVec<Fragment>, AllocError>
    ensures fragments { IfOk result (λ fs. fs ≡ fragments_of numbers.now entries) }
    ensures fits { IfOk result (AllByRecursion FragmentFits) }
{
    let mut merger = FragmentMerger {
        done: ListVec::new(alloc),
        last: None,
    };
    for entry in entries.into_vec() {
        add_entry(numbers, &mut merger, entry)?;
    }
    all_of(merger)
}
