//! The exports and imports of the object in a member's bytes.

ghost use Rattle.std.specs.Prelude.{◌≡◌, Ok, IfOk, map, true, ◌≤◌, length, IfErr, OnOk};
ghost use Rattle.base65.specs.Outcome.{Refines};
ghost use Rattle.object65.specs.Objects.{is_well_formed_object};
ghost use Rattle.library65.specs.Fault.{is_memory};
ghost use Rattle.library65.specs.Libraries.{has_index_names, are_same, member_contents, contents_from};
ghost use Rattle.library65.specs.Spelling.{HasValidSymbols};
ghost use Rattle.object65.specs.Record.{is_version};
ghost use Rattle.object65.specs.Items.{with_item};
ghost use Rattle.object65.specs.Scanning.{State, object_from};
ghost use Rattle.library65.specs.Internal.Contents.{ReadsContents};

use crate::index::is_file_name;
use crate::{Entry, LibraryFault};
use arrayvec::ArrayVec;
use base65::{ListVec, Seed};
use object65::{Export, Item, Object, ObjectFault, Record, Scan, decode_head, decode_record};
use std::alloc::Global;

/// The exports and imports of an object, in its order.
#[derive(Drop)]
pub struct Contents {
    pub exports: ListVec<ListVec<u8>>,
    pub imports: ListVec<ListVec<u8>>,
}

/// Returns the exports and imports of a member with this name and these bytes. The buffer holds one
/// record at a time.
#[tactic(auto, unfolding(crate::specs::Libraries::member_contents, crate::specs::Libraries::contents_in, object65::specs::Reading::object_at))]
pub fn check_member(
    alloc: Global,
    buffers: &mut ReadBuffers,
    name: &[u8],
    bytes: &[u8],
) -> Result<Contents, LibraryFault>
    ensures checked { Refines is_memory (λ c. c) result (member_contents name.now bytes.now) }
    ensures symbols { IfOk result HasValidSymbols }
{
    if !is_file_name(name) {
        return Err(LibraryFault::BadMemberName);
    }
    let (version, first) = decode_head(bytes, 0)?;
    let (contents, end) = read_records(alloc, buffers, bytes, version, first as usize)?;
    if end < bytes.len() {
        return Err(LibraryFault::NotAnObject);
    }
    Ok(contents)
}

/// Returns whether these are the same names in the same order.
pub fn are_same(names: &[ListVec<u8>], others: &[ListVec<u8>]) -> bool
    ensures { result ≡ are_same names.now others.now }
{
    if names.len() != others.len() {
        return false;
    }
    for i in 0..names.len() {
        if names[i].as_slice() != others[i].as_slice() {
            return false;
        }
    }
    true
}

/// Returns whether an entry has the names that the object exports and imports.
pub fn has_entry_names(entry: &Entry, contents: &Contents) -> bool
    ensures { result ≡ has_index_names entry.now contents.now }
{
    are_same(entry.exports.as_slice(), contents.exports.as_slice())
        && are_same(entry.imports.as_slice(), contents.imports.as_slice())
}

/// Buffers for reading members one after another.
#[derive(Drop)]
pub struct ReadBuffers {
    /// The record that is being read.
    pub record: Record,
    /// The seed of the hash tables of names.
    pub seed: Seed,
}

impl ReadBuffers {
    /// Returns empty buffers. The hash tables of names will have this seed.
    pub fn of(seed: Seed) -> Self {
        ReadBuffers {
            record: Record {
                kind: 0,
                body: ArrayVec::new(),
            },
            seed,
        }
    }
}

/// Adds the item's name if it is an import or an export.
fn add_item(contents: &mut Contents, item: Item) -> Result<(), ObjectFault>
    ensures added { (s : State) → contents.old ≡ contents_from (object_from s) →
        OnOk result (contents.new ≡ contents_from (object_from (with_item s item))) }
    ensures memory { IfErr result (λ e. e ≡ ObjectFault.OutOfMemory) }
{
    match item {
        Item::Import(name) => contents.imports.push(name)?,
        Item::Export {
            name,
            form: _form,
            ..
        } => contents.exports.push(name)?,
        Item::File(_name) => {}
        Item::Section { name: _name, .. } => {}
        Item::Part {
            fragment: _fragment,
            ..
        } => {}
        Item::Assert {
            text: _text,
            form: _form,
            ..
        } => {}
        Item::End => {}
    }
    Ok(())
}

/// Reads the records of an object of this version one by one up to the END. Returns their exports and
/// imports, and the offset after the END.
fn read_records(
    alloc: Global,
    buffers: &mut ReadBuffers,
    bytes: &[u8],
    version: u8,
    at: usize,
) -> Result<(Contents, usize), ObjectFault>
    requires version { is_version version ≡ true }
    requires within { at ≤ length bytes.now }
    ensures read { ReadsContents bytes.now version at result }
    ensures within { IfOk result (λ x. x.1 ≤ length bytes.now) }
    ensures symbols { IfOk result (λ x. HasValidSymbols x.0) }
{
    let mut scan = Scan::seeded(alloc, buffers.seed, version);
    let mut contents = Contents {
        exports: ListVec::new(alloc),
        imports: ListVec::new(alloc),
    };
    let mut next = at;
    'records: loop {
        next = decode_record(&mut buffers.record, version, bytes, next)?;
        let item = scan.take(&buffers.record)?;
        add_item(&mut contents, item)?;
        if scan.is_ended() {
            return Ok((contents, next));
        }
    }
}
