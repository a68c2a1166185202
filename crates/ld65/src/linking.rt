//! Links the inputs of a command line.

ghost use Rattle.std.specs.Prelude.{◌≡◌, ◌≤◌, [], List, ℕ, OnOk, Option, true, false, IfErr, IfOk, IfSome, IsErrOf, Ok, map};
ghost use Rattle.base65.specs.Store.{PropagatesIoErrors, FailsAtLastCount, FailedWithin};
ghost use Rattle.object65.specs.declared.fault.ObjectFault.TheVariants.{FileError};
ghost use Rattle.object65.specs.Scanning.{start};
ghost use Rattle.library65.specs.declared.index.Entry as index;
ghost use Rattle.link65.specs.declared.fault.LinkFault.TheVariants.{Malformed};
ghost use Rattle.link65.specs.Programs.{Module};
ghost use Rattle.link65.specs.Representation.{RepresentsModules, RepresentsWithOpenModule, ConfigFrame, is_open};
ghost use Rattle.ld65.specs.Internal.AddedModules.{AddsObject, AddsRecords, input_of, AddsFile, AddsInput, AddsInputs, NamedStoreFrame, AddModulesFrame};
ghost use Rattle.std.specs.FinMap.{get};
ghost use Rattle.base65.specs.Outcome.{Refines, RefinesProp};
ghost use Rattle.object65.specs.Record.{is_system_error as is_object_system_error};
ghost use Rattle.object65.specs.Reading.{StoreFrame, in_file};
ghost use Rattle.ld65.specs.Linkage.{is_library, IsScriptedLink, IsCommandLink};
ghost use Rattle.ld65.specs.Faults.{is_failure, is_system_error};
ghost use Rattle.ld65.specs.Naming.{IsInputFailure, IsInputListFailure, IsCommandFailure, IsObjectFailure, IsScriptFailure, NamesFailure};
ghost use Rattle.cli65.specs.Line.{link_view};
ghost use Rattle.ld65.specs.Internal.Texts.{script_text};

use crate::fault::LinkCommandFault;
use crate::members::{NamedInput, add_library};
use base65::{ListVec, Store, read_full, read_prefix};
use cli65::LinkArgs;
use library65::Entry;
use link65::{LinkFault, Linked, Linker};
use object65::format::END;
use object65::{ObjectFault, RecordReader, check_end, read_head};
use script65::{Script, read_script};
use std::alloc::Global;

/// An object to feed: its offset in a file, the name of its module, and its entry in a library's
/// index, if it is a member of one.
#[derive(Clone, Copy)]
pub struct ObjectInput<'a> {
    pub file: &'a str,
    pub begin: u64,
    /// The offset at which it ends at the latest.
    pub end: u64,
    pub name: &'a [u8],
    pub entry: Option<&'a Entry>,
}

/// Feeds the records of the open module, after its head up to its END. Returns the offset after the
/// END. The head has the version and the offset of the first record.
fn add_records<S: Store>(
    store: &mut S,
    linker: &mut Linker,
    reader: &mut RecordReader,
    object: &ObjectInput<'_>,
    head: (u8, u64),
) -> Result<u64, LinkFault>
    requires opened { is_open linker.old ≡ true }
    requires fresh { reader.old.ahead ≡ [] }
    ensures added { AddsRecords (S.files store.old)
        (input_of object.now) head linker.old linker.new result }
    ensures opened { is_open linker.new ≡ true }
    ensures keeps { ConfigFrame linker.old linker.new }
    ensures files { S.files store.new ≡ S.files store.old }
    ensures frame { (modules : List Module) (called : List ℕ) (entry : Option index.Entry) →
        RepresentsWithOpenModule linker.old modules called entry (start head.0) →
        StoreFrame S.files S.failures S.last_failure (Malformed FileError) object.now.file.now
        store.old store.new result }
    ensures within { (modules : List Module) (called : List ℕ) (entry : Option index.Entry) →
        RepresentsWithOpenModule linker.old modules called entry (start head.0) →
        IsErrOf result (Malformed FileError) → head.1 ≤ object.now.end →
        FailedWithin (S.last_failure store.new) object.now.file.now head.1 object.now.end }
    ensures bound { IfOk result (λ end. (head.1 ≤ end) × (end ≤ object.now.end)) }
{
    let (version, first) = head;
    let mut next = first;
    'records: loop {
        next = reader.read(store, object.file, version, next, object.end)?;
        let record = reader.record();
        linker.record(record)?;
        if record.kind == END {
            return Ok(next);
        }
    }
}

/// Feeds an object as a module. No module may be open.
pub fn add_object<S: Store>(
    store: &mut S,
    linker: &mut Linker,
    reader: &mut RecordReader,
    object: &ObjectInput<'_>,
) -> Result<(), LinkFault>
    requires { is_open linker.old ≡ false }
    ensures added { AddsObject (S.files store.old)
        (input_of object.now) linker.old linker.new result }
    ensures opened { OnOk result (is_open linker.new ≡ false) }
    ensures keeps { ConfigFrame linker.old linker.new }
    ensures files { S.files store.new ≡ S.files store.old }
    ensures frame { (modules : List Module) → RepresentsModules linker.old modules →
        StoreFrame S.files S.failures S.last_failure (Malformed FileError) object.now.file.now
        store.old store.new result }
    ensures within { (modules : List Module) → RepresentsModules linker.old modules →
        IsErrOf result (Malformed FileError) → object.now.begin ≤ object.now.end →
        FailedWithin (S.last_failure store.new) object.now.file.now object.now.begin
        object.now.end }
{
    let head = read_head(store, object.file, object.begin, object.end)?;
    linker.begin_module(object.name, head.0, object.entry)?;
    reader.forget();
    let end = add_records(store, linker, reader, object, head)?;
    check_end(store, object.file, end, object.end)?;
    linker.end_module()
}

/// The bytes with which a library begins.
const MAGIC: [u8; 4] = [0x52, 0x36, 0x35, 0x6c];

/// Returns whether a file begins as a library.
fn is_library<S: Store>(store: &mut S, name: &str) -> Result<bool, ObjectFault>
    ensures read { IfSome (S.files store.old) (λ m.
        Refines is_object_system_error (λ b. b) result
        (in_file (get m name.now) (λ bytes. Ok (is_library bytes)))) }
    ensures frame { StoreFrame S.files S.failures S.last_failure FileError name.now store.old
        store.new result }
    ensures within { IsErrOf result FileError →
        FailedWithin (S.last_failure store.new) name.now 0 4 }
{
    let mut first_bytes = [0u8; 4];
    let n = read_full(store, name, 0, &mut first_bytes)?;
    Ok(first_bytes[..n] == MAGIC[..])
}

/// Feeds a file that is an object, as a module of the file's name.
fn add_file<S: Store>(
    store: &mut S,
    linker: &mut Linker,
    reader: &mut RecordReader,
    input: &NamedInput<'_>,
) -> Result<(), LinkCommandFault>
    requires { is_open linker.old ≡ false }
    ensures added { AddsFile (S.files store.old) input.now.input_index input.now.name.now linker.old
        linker.new result }
    ensures frame { AddModulesFrame S.files S.failures S.last_failure
        (λ _ b. NamesFailure (IsObjectFailure b input.now.input_index input.now.name.now))
        store.old store.new linker.old linker.new result }
{
    let object = ObjectInput {
        file: input.name,
        begin: 0,
        end: u64::MAX,
        name: input.name.as_bytes(),
        entry: None,
    };
    match add_object(store, linker, reader, &object) {
        Ok(()) => Ok(()),
        Err(fault) => Err(LinkCommandFault::of_input(input.input_index, fault)),
    }
}

/// Feeds an input: an object, or the members of a library that are needed.
fn add_input<S: Store>(
    alloc: Global,
    store: &mut S,
    linker: &mut Linker,
    reader: &mut RecordReader,
    input: &NamedInput<'_>,
) -> Result<(), LinkCommandFault>
    requires { is_open linker.old ≡ false }
    ensures added { AddsInput
        (S.files store.old) input.now.input_index input.now.name.now linker.old
        linker.new result }
    ensures frame { AddModulesFrame S.files S.failures S.last_failure
        (λ before b. NamesFailure (IsInputFailure (S.files store.old) linker.old.script before b
        input.now.input_index input.now.name.now))
        store.old store.new linker.old linker.new result }
{
    match is_library(store, input.name) {
        Ok(true) => add_library(alloc, store, linker, input),
        Ok(false) => add_file(store, linker, reader, input),
        Err(fault) => Err(LinkCommandFault::Object(input.input_index, fault)),
    }
}

/// Feeds inputs, in order. The first fault is that of the first input that has one.
fn add_inputs<S: Store>(
    alloc: Global,
    store: &mut S,
    linker: &mut Linker,
    inputs: &[&str],
) -> Result<(), LinkCommandFault>
    requires { is_open linker.old ≡ false }
    ensures added { AddsInputs (S.files store.old)
        (map (λ s. s.now) inputs.now) linker.old linker.new result }
    ensures frame { AddModulesFrame S.files S.failures S.last_failure
        (λ first b. NamesFailure (IsInputListFailure (S.files store.old) linker.old.script first b
        (map (λ s. s.now) inputs.now)))
        store.old store.new linker.old linker.new result }
{
    let mut reader = RecordReader::new();
    for (input_index, name) in inputs.iter().enumerate() {
        add_input(
            alloc,
            store,
            linker,
            &mut reader,
            &NamedInput { input_index, name },
        )?;
    }
    Ok(())
}

/// The largest size of a script, in bytes.
const SCRIPT_LIMIT: usize = 1_048_576;

/// Links the inputs of a command line by a script.
fn link_inputs<S: Store>(
    alloc: Global,
    store: &mut S,
    line: &LinkArgs<'_>,
    script: Script,
) -> Result<Linked, LinkCommandFault>
    ensures linked { IfSome (S.files store.old) (λ m.
        RefinesProp is_system_error (IsScriptedLink m (link_view line.now) script) result) }
    ensures frame { NamedStoreFrame S.files S.failures S.last_failure
        (λ b. NamesFailure (IsInputListFailure (S.files store.old) script [] b
        (link_view line.now).inputs))
        store.old store.new result }
{
    let output = line.output.unwrap_or("a.out");
    let mut linker = Linker::seeded(alloc, store.seed(), script, output)?;
    add_inputs(alloc, store, &mut linker, line.inputs.as_slice())?;
    Ok(linker.finish()?)
}

/// Reads the bytes of a script, at most one more than the size limit.
fn read_text<S: Store>(
    alloc: Global,
    store: &mut S,
    name: &str,
) -> Result<ListVec<u8>, LinkCommandFault>
    ensures read { IfSome (S.files store.old) (λ m.
        RefinesProp is_system_error (λ r. r ≡ script_text m name.now) result) }
    ensures frame { NamedStoreFrame S.files S.failures S.last_failure
        (λ b. NamesFailure (IsScriptFailure b name.now)) store.old store.new result }
    ensures at_last_count { FailsAtLastCount is_system_error (S.failures store.old) result }
{
    Ok(ListVec::from_vec(read_prefix(alloc, store, name, SCRIPT_LIMIT + 1)?))
}

/// Links the script and the inputs of a command line. Returns the files of areas, the warnings and
/// the map; writes no file. First the script is read, then the inputs in order, and then they are
/// linked; the first error in this order is returned. Of a library only the members are linked that
/// are needed at its position.
pub fn link_files<S: Store>(
    alloc: Global,
    store: &mut S,
    line: &LinkArgs<'_>,
) -> Result<Linked, LinkCommandFault>
    ensures linked { IfSome (S.files store.old) (λ m.
        RefinesProp is_system_error (IsCommandLink m (link_view line.now)) result) }
    ensures files { S.files store.new ≡ S.files store.old }
    ensures count { PropagatesIoErrors is_failure (S.failures store.old)
        (S.failures store.new) result }
    ensures named { IfErr result
        (NamesFailure (IsCommandFailure (S.files store.old) (S.last_failure store.new)
        (link_view line.now))) }
    ensures at_last_count { FailsAtLastCount is_system_error (S.failures store.old) result }
{
    let text = read_text(alloc, store, line.script)?;
    let script = read_script(alloc, text.as_slice())?;
    link_inputs(alloc, store, line, script)
}
