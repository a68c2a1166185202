//! The outcome of the librarian's command lines.

ghost use Rattle.std.specs.Prelude.{◌≡◌, IfOk, IfSome, map};
ghost use Rattle.cli65.specs.Line.{archive, archive_view};
ghost use Rattle.tools65.specs.Archives.{archive_outcome, archived_outcome, library_file, output_of};
ghost use Rattle.tools65.specs.Internal.ComputedOutcomes.{ComputesOutcome, ComputeFrame};

use ar65::{ArchiveFault, ArchiveResult, MemberFile, archive, error_message};
use base65::{ListVec, OutputFile, PathString, Store};
use cli65::ArchiveArgs;
use output65::{Outcome, Status};
use std::alloc::{AllocError, Global};

/// Returns the library's file.
fn library_file(
    alloc: Global,
    name: &str,
    bytes: ListVec<u8>,
) -> Result<ListVec<OutputFile>, AllocError>
    ensures { IfOk result (λ outputs. outputs ≡ library_file name.now bytes) }
{
    let mut outputs = ListVec::new(alloc);
    let name = PathString::copy_of(alloc, name)?;
    outputs.push(OutputFile { name, bytes })?;
    Ok(outputs)
}

/// Returns the files of members.
fn member_outputs(
    alloc: Global,
    files: ListVec<MemberFile>,
) -> Result<ListVec<OutputFile>, AllocError>
    ensures { IfOk result (λ outputs. outputs ≡ map output_of files) }
{
    let mut outputs = ListVec::new(alloc);
    for file in files.into_vec() {
        let MemberFile { name, bytes } = file;
        outputs.push(OutputFile { name, bytes })?;
    }
    Ok(outputs)
}

/// Returns the outcome of a command line without an error: it writes the library, prints names, or
/// writes members.
fn archived_outcome(
    alloc: Global,
    line: &ArchiveArgs<'_>,
    archived: ArchiveResult,
) -> Result<Outcome, AllocError>
    ensures { IfOk result (λ outcome. outcome ≡ archived_outcome (archive_view line.now) archived) }
{
    let mut out = ListVec::new(alloc);
    let mut outputs = ListVec::new(alloc);
    match archived {
        ArchiveResult::Library(bytes) => outputs = library_file(alloc, line.library, bytes)?,
        ArchiveResult::Names(text) => out = text,
        ArchiveResult::Members(files) => outputs = member_outputs(alloc, files)?,
    }
    Ok(Outcome {
        out,
        err: ListVec::new(alloc),
        outputs,
        status: Status::Success,
    })
}

/// Returns the outcome of a command line: its result, or its error.
fn archive_outcome(
    alloc: Global,
    line: &ArchiveArgs<'_>,
    archived: Result<ArchiveResult, ArchiveFault>,
) -> Result<Outcome, AllocError>
    ensures { IfOk result (λ outcome. outcome ≡ archive_outcome (archive_view line.now) archived) }
{
    match archived {
        Ok(archived) => archived_outcome(alloc, line, archived),
        Err(fault) => Ok(Outcome {
            out: ListVec::new(alloc),
            err: error_message(alloc, line, &fault)?,
            outputs: ListVec::new(alloc),
            status: Status::Failure,
        }),
    }
}

/// Returns the outcome of a command line of the librarian. Writes nothing.
pub fn compute_archive<S: Store>(
    alloc: Global,
    line: &ArchiveArgs<'_>,
    store: &mut S,
) -> Result<Outcome, AllocError>
    ensures computed { IfSome (S.files store.old) (λ m.
        IfOk result (ComputesOutcome (archive (archive_view line.now)) m
        (S.last_failure store.new) (S.failures store.old) (S.failures store.new))) }
    ensures frame { ComputeFrame S.files S.failures store.old store.new result }
{
    let archived = archive(alloc, store, line);
    archive_outcome(alloc, line, archived)
}
