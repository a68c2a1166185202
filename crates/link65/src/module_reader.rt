//! The open module: its records, and its entry in a library's index.

ghost use Rattle.std.specs.Prelude.{length, ◌≡◌, IfOk, map, ◌+◌, drop, Ok, OnErr, OnOk, IfErr, true};
ghost use Rattle.std.specs.Option.{option_map};
ghost use Rattle.library65.specs.Libraries.{are_same};
ghost use Rattle.link65.specs.Internal.Fields.{are_listed, ClosesModule, GrowsProgram};
ghost use Rattle.link65.specs.Representation.{indexed_names, values_in, names_in};
ghost use Rattle.object65.specs.Record.{raw_record, is_version};
ghost use Rattle.object65.specs.Scanning.{outline_of, start};
ghost use Rattle.link65.specs.Faults.{is_memory, HasExpectedError, is_end_fault, is_record_fault};
ghost use Rattle.link65.specs.CodeInvariants.{NamesResolve, partial_program_in};

use crate::building::{ProgramBuilder, add_item, end_module};
use crate::fault::LinkFault;
use crate::name_checks::DefinedNames;
use crate::parts::ModuleExport;
use base65::ListVec;
use library65::{Entry, are_same};
use object65::format::VALUE;
use object65::{ObjectFault, Record, Scan};
use std::alloc::{AllocError, Global};
use std::mem;

/// The names that an index lists for a member: its exports and its imports, in the member's order.
#[derive(Drop)]
pub struct IndexedNames {
    pub exports: ListVec<ListVec<u8>>,
    pub imports: ListVec<ListVec<u8>>,
}

fn copy_names(alloc: Global, names: &[ListVec<u8>]) -> Result<ListVec<ListVec<u8>>, AllocError>
    ensures { IfOk result (λ all. all ≡ names.now) }
{
    let mut all = ListVec::new(alloc);
    for name in names {
        all.push(ListVec::copy_of(alloc, name.as_slice())?)?;
    }
    Ok(all)
}

/// Returns a copy of the names of an entry, if there is one.
fn indexed_names(alloc: Global, entry: Option<&Entry>) -> Result<Option<IndexedNames>, AllocError>
    ensures { IfOk result (λ l. l ≡ option_map (λ e. indexed_names e.now) entry.entry) }
{
    match entry {
        None => Ok(None),
        Some(entry) => Ok(Some(IndexedNames {
            exports: copy_names(alloc, entry.exports.as_slice())?,
            imports: copy_names(alloc, entry.imports.as_slice())?,
        })),
    }
}

fn same_exports(names: &[ListVec<u8>], exports: &[ModuleExport]) -> bool
    ensures { result ≡ are_same names.now (map (λ e. e.name) exports.now) }
{
    if names.len() != exports.len() {
        return false;
    }
    for i in 0..names.len() {
        if names[i].as_slice() != exports[i].name.as_slice() {
            return false;
        }
    }
    true
}

/// Returns whether the names are those listed; true if the module has no entry.
fn are_listed(
    listed: &Option<IndexedNames>,
    exports: &[ModuleExport],
    imports: &[ListVec<u8>],
) -> bool
    ensures { result ≡ are_listed listed.now (map (λ e. e.name) exports.now) imports.now }
{
    match listed {
        None => true,
        Some(names) => {
            same_exports(names.exports.as_slice(), exports)
                && are_same(names.imports.as_slice(), imports)
        }
    }
}

/// An open module: its name, and the state of reading its records.
#[derive(Drop)]
pub struct OpenModule {
    pub name: ListVec<u8>,
    pub scan: Scan,
    /// The index of its first export among all exports.
    pub first_export: usize,
    /// The names that a library's index lists for it, if it is a member of one.
    pub listed: Option<IndexedNames>,
}

/// Opens a module of this name, of an object of this version. A library's member has its index entry.
pub fn open_module(
    program_builder: &ProgramBuilder,
    name: &[u8],
    version: u8,
    entry: Option<&Entry>,
) -> Result<OpenModule, LinkFault>
    requires { is_version version ≡ true }
    ensures opened { IfOk result (λ o.
        o ≡ record {
          name = name.now;
          scan = outline_of
              (start version);
          first_export = length program_builder.now.exports;
          listed = option_map
              (λ e. indexed_names e.now) entry.entry;
        }) }
    ensures memory { IfErr result (λ e. is_memory e ≡ true) }
{
    let alloc = program_builder.alloc;
    let seed = *program_builder.names.hasher();
    Ok(OpenModule {
        name: ListVec::copy_of(alloc, name)?,
        scan: Scan::seeded(alloc, seed, version),
        first_export: program_builder.exports.len(),
        listed: indexed_names(alloc, entry)?,
    })
}

/// Adds a record of the open module, and counts its values. An error leaves the count unchanged.
pub fn add_record(
    program_builder: &mut ProgramBuilder,
    opened: &mut OpenModule,
    pending: &mut usize,
    next: &Record,
) -> Result<(), LinkFault>
    requires { NamesResolve program_builder.old }
    ensures accepted { GrowsProgram (raw_record next.now) (partial_program_in program_builder.old)
        (partial_program_in program_builder.new) opened.old.scan opened.new.scan result }
    ensures kept { opened.new ≡ record opened.old { scan = opened.new.scan } }
    ensures counted { OnOk result (pending.new ≡ pending.old + values_in (raw_record next.now)) }
    ensures uncounted { OnErr result (pending.new ≡ pending.old) }
    ensures named { OnOk result (NamesResolve program_builder.new) }
    ensures faults { HasExpectedError is_record_fault result }
{
    let Some(count) = pending.checked_add(usize::from(next.kind == VALUE)) else {
        return Err(LinkFault::OutOfMemory);
    };
    let item = opened.scan.take(next)?;
    add_item(program_builder, item)?;
    *pending = count;
    Ok(())
}

/// Returns the exports from an index on; none if there are fewer.
fn exports_from_index(exports: &[ModuleExport], first: usize) -> &[ModuleExport]
    ensures { result.now ≡ drop first exports.now }
{
    match exports.get(first..) {
        Some(rest) => rest,
        None => &[],
    }
}

/// Ends the open module.
pub fn close_module(
    program_builder: &mut ProgramBuilder,
    provided: &mut DefinedNames,
    opened: &mut OpenModule,
) -> Result<(), LinkFault>
    requires { NamesResolve program_builder.old }
    ensures ended { ClosesModule (partial_program_in program_builder.old)
        (partial_program_in program_builder.new) (names_in provided.old)
        (names_in provided.new) opened.old result }
    ensures named { OnOk result (NamesResolve program_builder.new) }
    ensures faults { HasExpectedError is_end_fault result }
{
    if !opened.scan.is_ended() {
        return Err(LinkFault::from(ObjectFault::CutShort));
    }
    let exports = exports_from_index(program_builder.exports.as_slice(), opened.first_export);
    let imports = program_builder.imports.as_slice();
    if !are_listed(&opened.listed, exports, imports) {
        return Err(LinkFault::IndexDisagrees);
    }
    match provided.add_exports(exports) {
        Ok(()) => {
            let name = mem::replace(&mut opened.name, ListVec::new(program_builder.alloc));
            end_module(program_builder, name)
        }
        Err(e) => Err(e),
    }
}
