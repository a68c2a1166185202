//! Feeds the members of a library that are needed.

ghost use Rattle.std.specs.Prelude.{◌≡◌, ◌+◌, ◌≤◌, List, IfErr, IfOk, IfSome, false, true, ◌∷◌, [], option_map, slice_get};
ghost use Rattle.std.specs.List.{AllByRecursion};
ghost use Rattle.base65.specs.Outcome.{Refines};
ghost use Rattle.object65.specs.Reading.{file_limit};
ghost use Rattle.link65.specs.Programs.{Module};
ghost use Rattle.link65.specs.Representation.{RepresentsModules, is_open};
ghost use Rattle.ld65.specs.Internal.AddedModules.{AreNeededIndices, AddsLibrary, AddsMembers, NamedStoreFrame, AddModulesFrame};
ghost use Rattle.ld65.specs.Linkage.{as_library, index_in, member_module};
ghost use Rattle.ld65.specs.Faults.{is_failure, is_memory, is_system_error};
ghost use Rattle.ld65.specs.Naming.{IsIndexFailure, IsLibraryFailure, IsMemberFailure, NamesFailure};

use crate::fault::LinkCommandFault;
use crate::linking::{ObjectInput, add_object};
use base65::{ListVec, Store, join};
use library65::{Entry, Index, read_index, select};
use link65::Linker;
use object65::RecordReader;
use std::alloc::{AllocError, Global};

/// An input: its index among the inputs, and its name.
#[derive(Clone, Copy)]
pub struct NamedInput<'a> {
    pub input_index: usize,
    pub name: &'a str,
}

/// Reads the index of a library.
fn read_library_index<S: Store>(
    alloc: Global,
    store: &mut S,
    input: &NamedInput<'_>,
) -> Result<Index, LinkCommandFault>
    ensures read { IfSome (S.files store.old) (λ m.
        Refines is_system_error (λ x. x.entries) result
        (as_library input.now.input_index (index_in m input.now.name.now))) }
    ensures within { IfOk result (λ x.
        AllByRecursion (λ e. e.place + e.size ≤ file_limit) x.entries) }
    ensures frame { NamedStoreFrame S.files S.failures S.last_failure
        (λ b. NamesFailure (IsIndexFailure
        (S.files store.old) b input.now.input_index input.now.name.now))
        store.old store.new result }
{
    match read_index(alloc, store, input.name) {
        Ok(index) => Ok(index),
        Err(fault) => Err(LinkCommandFault::Library(input.input_index, fault)),
    }
}

/// Returns the indices of the members that the script and the modules fed so far need.
fn needed_indices(
    alloc: Global,
    linker: &Linker,
    index: &Index,
) -> Result<Vec<usize>, LinkCommandFault>
    ensures chosen { IfOk result (λ entry_indices.
        AreNeededIndices index.now.entries entry_indices.items linker.now) }
    ensures memory { (modules : List Module) → RepresentsModules linker.now modules →
        IfErr result (λ e. is_memory e ≡ true) }
    ensures cause { IfErr result (λ e. is_failure e ≡ false) }
{
    let wanted = linker.open_names()?;
    let defined = linker.defined_names()?;
    match select(alloc, index, &wanted, &defined) {
        Ok(entry_indices) => Ok(entry_indices),
        Err(_) => Err(LinkCommandFault::OutOfMemory),
    }
}

/// A member of a library: the library's file, and the member's entry in its index.
#[derive(Clone, Copy)]
struct LibraryMember<'a> {
    library: &'a str,
    entry: &'a Entry,
}

/// Returns the name of a member's module.
fn module_name(alloc: Global, member: &LibraryMember<'_>) -> Result<ListVec<u8>, AllocError>
    ensures { IfOk result (λ name.
        name ≡ member_module member.now.library.now member.now.entry.now.name) }
{
    join(
        alloc,
        &[
            member.library.as_bytes(),
            b"(",
            member.entry.name.as_slice(),
            b")",
        ],
    )
}

/// Feeds a member of a library, record by record from the library's file.
fn add_member<S: Store>(
    alloc: Global,
    store: &mut S,
    linker: &mut Linker,
    reader: &mut RecordReader,
    member: &LibraryMember<'_>,
) -> Result<(), LinkCommandFault>
    requires opened { is_open linker.old ≡ false }
    requires within { member.now.entry.now.place + member.now.entry.now.size ≤ file_limit }
    ensures added { AddsMembers (S.files store.old) member.now.library.now
        (member.now.entry.now ∷ []) linker.old linker.new result }
    ensures frame { AddModulesFrame S.files S.failures S.last_failure
        (λ _ b. NamesFailure (IsMemberFailure b member.now.library.now member.now.entry.now))
        store.old store.new linker.old linker.new result }
{
    let name = module_name(alloc, member)?;
    let object = ObjectInput {
        file: member.library,
        begin: member.entry.place,
        end: member.entry.place + member.entry.size as u64,
        name: name.as_slice(),
        entry: Some(member.entry),
    };
    match add_object(store, linker, reader, &object) {
        Ok(()) => Ok(()),
        Err(fault) => Err(LinkCommandFault::of_member(name, fault)),
    }
}

fn entry_at(entries: &[Entry], index: usize) -> Option<&Entry>
    ensures { option_map (λ e. e.now) result ≡ slice_get entries.now index }
{
    entries.get(index)
}

/// Feeds the members of a library that the script and the modules fed so far need. Of the library only its index and
/// these members are read, and never more than a record at once.
pub fn add_library<S: Store>(
    alloc: Global,
    store: &mut S,
    linker: &mut Linker,
    input: &NamedInput<'_>,
) -> Result<(), LinkCommandFault>
    requires { is_open linker.old ≡ false }
    ensures added { AddsLibrary (S.files store.old) input.now.input_index input.now.name.now
        linker.old linker.new result }
    ensures frame { AddModulesFrame S.files S.failures S.last_failure
        (λ before b. NamesFailure (IsLibraryFailure (S.files store.old) linker.old.script before b
        input.now.input_index input.now.name.now))
        store.old store.new linker.old linker.new result }
{
    let index = read_library_index(alloc, store, input)?;
    let entry_indices = needed_indices(alloc, linker, &index)?;
    let library = input.name;
    let entries = index.entries.as_slice();
    let mut reader = RecordReader::new();
    for entry_index in entry_indices.as_slice() {
        if let Some(entry) = entry_at(entries, *entry_index) {
            let member = LibraryMember { library, entry };
            add_member(alloc, store, linker, &mut reader, &member)?;
        }
    }
    Ok(())
}
