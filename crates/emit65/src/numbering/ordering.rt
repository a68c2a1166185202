//! The files of an object, in the order in which it first uses them.

ghost use Rattle.std.specs.Prelude.{◌≡◌, ◌∷◌, [], map, string_bytes, true, IfOk, OnOk};
ghost use Rattle.std.specs.List.{AllByRecursion, flat_map};
ghost use Rattle.std.specs.Str.{is_utf8};
ghost use Rattle.semantics65.specs.Numbering.{name_of, distinct_keys};
ghost use Rattle.emit65.specs.Internal.Drafts.{assert_keys, draft_keys, export_keys, HasLast, files_in_order, value_keys};

use super::drafts::{EntriesBySection, SectionDraft};
use crate::entries::{LocatedDeclaration, SectionEntry, SourcePos};
use base65::ListVec;
use indexmap::IndexSet;
use semantics65::Declaration;
use std::alloc::{AllocError, Global};

/// Files in the order in which the object first uses them, by their indices in the table
/// of all files.
#[derive(Drop)]
pub struct FileOrder {
    pub files: IndexSet<u32>,
    /// The file that was added last.
    pub last: Option<u32>,
}

/// Adds the file of a location. Mostly it is the file that was added last, which needs no
/// lookup.
fn add_file(order: &mut FileOrder, pos: SourcePos) -> Result<(), AllocError>
    requires { HasLast order.old }
    ensures named { OnOk result (order.new.files.keys ≡ distinct_keys order.old.files.keys
        (pos.file ∷ [])) }
    ensures last { OnOk result (HasLast order.new) }
{
    if order.last == Some(pos.file) {
        return Ok(());
    }
    order.files.insert(pos.file)?;
    order.last = Some(pos.file);
    Ok(())
}

/// Adds the files of a section's values.
fn add_value_files(order: &mut FileOrder, entries: &[SectionEntry]) -> Result<(), AllocError>
    requires { HasLast order.old }
    ensures named { OnOk result (order.new.files.keys ≡ distinct_keys order.old.files.keys
        (flat_map value_keys entries.now)) }
    ensures last { OnOk result (HasLast order.new) }
{
    for entry in entries {
        if let SectionEntry::Value { pos, .. } = entry {
            add_file(order, *pos)?;
        }
    }
    Ok(())
}

/// Adds the files of the values in sections.
fn add_draft_files(order: &mut FileOrder, drafts: &[SectionDraft]) -> Result<(), AllocError>
    requires { HasLast order.old }
    ensures named { OnOk result (order.new.files.keys ≡ distinct_keys order.old.files.keys
        (flat_map draft_keys drafts.now)) }
    ensures last { OnOk result (HasLast order.new) }
{
    for draft in drafts {
        add_value_files(order, draft.entries.as_slice())?;
    }
    Ok(())
}

/// Adds the files of exports.
fn add_export_files(
    order: &mut FileOrder,
    declarations: &[LocatedDeclaration],
) -> Result<(), AllocError>
    requires { HasLast order.old }
    ensures named { OnOk result (order.new.files.keys ≡ distinct_keys order.old.files.keys
        (flat_map export_keys declarations.now)) }
    ensures last { OnOk result (HasLast order.new) }
{
    for located in declarations {
        if let Declaration::ExportedSymbol { .. } = &located.said {
            add_file(order, located.pos)?;
        }
    }
    Ok(())
}

/// Adds the files of assertions.
fn add_assert_files(
    order: &mut FileOrder,
    declarations: &[LocatedDeclaration],
) -> Result<(), AllocError>
    requires { HasLast order.old }
    ensures named { OnOk result (order.new.files.keys ≡ distinct_keys order.old.files.keys
        (flat_map assert_keys declarations.now)) }
    ensures last { OnOk result (HasLast order.new) }
{
    for located in declarations {
        if let Declaration::LinkAssertion { .. } = &located.said {
            add_file(order, located.pos)?;
        }
    }
    Ok(())
}

/// Returns the files that an object uses: those of its values, then of its exports, then
/// of its assertions.
pub fn files_in_order(
    alloc: Global,
    by_section: &EntriesBySection,
) -> Result<IndexSet<u32>, AllocError>
    ensures { IfOk result (λ s.
        s.keys ≡ files_in_order by_section.now.drafts.items by_section.now.declarations) }
{
    let mut order = FileOrder {
        files: IndexSet::new(alloc),
        last: None,
    };
    add_draft_files(&mut order, by_section.drafts.as_slice())?;
    add_export_files(&mut order, by_section.declarations.as_slice())?;
    add_assert_files(&mut order, by_section.declarations.as_slice())?;
    let FileOrder { files, last: _ } = order;
    Ok(files)
}

/// Returns the name of a file by its index in the table; an empty name if there is none.
fn file_name(alloc: Global, table: &[String], index: u32) -> Result<ListVec<u8>, AllocError>
    ensures name { IfOk result (λ name. name ≡ name_of (map string_bytes table.now) index) }
    ensures text { IfOk result (λ name. is_utf8 name ≡ true) }
{
    match table.get(index as usize) {
        Some(name) => ListVec::copy_of(alloc, name.as_str().as_bytes()),
        None => Ok(ListVec::new(alloc)),
    }
}

/// Returns the names of files by their indices in the table.
pub fn file_names(
    alloc: Global,
    table: &[String],
    indices: &[u32],
) -> Result<ListVec<ListVec<u8>>, AllocError>
    ensures names { IfOk result (λ names.
        names ≡ map (name_of (map string_bytes table.now)) indices.now) }
    ensures texts { IfOk result (AllByRecursion (λ name. is_utf8 name ≡ true)) }
{
    let mut names = ListVec::new(alloc);
    for index in indices {
        names.push(file_name(alloc, table, *index)?)?;
    }
    Ok(names)
}
