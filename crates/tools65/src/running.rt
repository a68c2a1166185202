//! Runs a command.

ghost use Rattle.std.specs.Prelude.{◌≡◌, ◌≤◌, IfOk, IfSome, false, map};
ghost use Rattle.base65.specs.Store.{HasFailed, NoneFailed};
ghost use Rattle.cli65.specs.Line.{line_of, view};
ghost use Rattle.cli65.specs.Messages.{file_memory_message};
ghost use Rattle.output65.specs.RunEffects.{HaveSameWriters, ForStreamsOverWriters, stream_states};
ghost use Rattle.tools65.specs.Command.{RunsCommand, IsOutcomeOfCommand, RunHasOutcome, command_memory_message};
ghost use Rattle.tools65.specs.Failures.{CommandRunFails, ArgsRunFails};
ghost use Rattle.tools65.specs.ObjectFits.{RunObjectFits, ArgsObjectFits};
ghost use Rattle.tools65.specs.Internal.ComputedOutcomes.{ComputesOutcome, ComputeFrame};
ghost use Rattle.tools65.specs.OneProgram.{CommandLinksWholeProgram, ArgsLinkWholeProgram};

use crate::archiving::compute_archive;
use crate::assembling::outcome::compute_assembly;
use crate::linking::compute_link;
use base65::Store;
use cli65::{Line, fault_message, read_line};
use output65::{Outcome, Status, Stream, commit_outcome, print, print_out_of_memory};
use std::alloc::{AllocError, Global};
use std::convert::AsStr;
use std::io::Write;

/// Returns the name in the message *out of memory* while a command line runs.
fn memory_name<'a>(line: &'a Line<'_>) -> &'a str
    ensures { file_memory_message result.now ≡ command_memory_message (view line.now) }
{
    match line {
        Line::Assemble(line) => line.source,
        Line::Link(_) => "ld65",
        Line::Archive(line) => line.library,
    }
}

/// Reads the files that a line names, and computes its outcome. Prints and writes nothing.
fn compute<S: Store>(alloc: Global, line: &Line<'_>, store: &mut S) -> Result<Outcome, AllocError>
    ensures computed { IfSome (S.files store.old) (λ m.
        IfOk result (ComputesOutcome (view line.now) m
        (S.last_failure store.new) (S.failures store.old) (S.failures store.new))) }
    ensures frame { ComputeFrame S.files S.failures store.old store.new result }
{
    match line {
        Line::Assemble(line) => compute_assembly(alloc, line, store),
        Line::Link(line) => compute_link(alloc, line, store),
        Line::Archive(line) => compute_archive(alloc, line, store),
    }
}

/// Runs the command line `line`, printing to `out` and `err`, and returns the status. Everything is computed first; then the
/// texts are printed, and then the files are written. After an error no file is written, and after a stream has failed
/// nothing is written to it.
pub fn run_line_with_streams<S: Store, W: Write, E: Write>(
    alloc: Global,
    line: &Line<'_>,
    store: &mut S,
    out: &mut Stream<'_, W>,
    err: &mut Stream<'_, E>,
) -> Status
    requires out { out.old.has_failed ≡ false }
    requires err { err.old.has_failed ≡ false }
    ensures same { HaveSameWriters out.old out.new err.old err.new }
    ensures done { IfSome (S.files store.old) (λ m.
        NoneFailed (S.failures store.old) (S.failures store.new) →
        RunHasOutcome (IsOutcomeOfCommand (view line.now))
        (command_memory_message (view line.now)) m
        (S.files store.new)
        (stream_states W.contents E.contents out.old out.new err.old err.new) result) }
    ensures fits { IfSome (S.files store.old) (λ m.
        NoneFailed (S.failures store.old) (S.failures store.new) →
        RunObjectFits (view line.now) m (S.files store.new)
        (stream_states W.contents E.contents out.old out.new err.old err.new) result) }
    ensures failed { IfSome (S.files store.old) (λ m.
        HasFailed (S.failures store.old) (S.failures store.new) →
        CommandRunFails (view line.now) m (S.files store.new) (S.last_failure store.new)
        (stream_states W.contents E.contents out.old out.new err.old err.new) result) }
    ensures one_program { IfSome (S.files store.old) (λ m.
        NoneFailed (S.failures store.old) (S.failures store.new) →
        CommandLinksWholeProgram (view line.now) m (S.files store.new)
        (stream_states W.contents E.contents out.old out.new err.old err.new) result) }
    ensures later { S.failures store.old ≤ S.failures store.new }
    ensures status { HasFailed (S.failures store.old) (S.failures store.new) →
        result ≡ Status.Failure }
{
    match compute(alloc, line, store) {
        Ok(outcome) => commit_outcome(&outcome, store, out, err, memory_name(line)),
        Err(_) => {
            print_out_of_memory(err, memory_name(line));
            Status::Failure
        }
    }
}

/// Runs the command line `line`, printing to `out` and `err`, and returns the status.
pub fn run_line<S: Store, W: Write, E: Write>(
    alloc: Global,
    line: &Line<'_>,
    store: &mut S,
    out: &mut W,
    err: &mut E,
) -> Status
    ensures done { IfSome (S.files store.old) (λ m.
        NoneFailed (S.failures store.old) (S.failures store.new) →
        ForStreamsOverWriters (W.contents out.old) (W.contents out.new) (E.contents err.old)
        (E.contents err.new)
        (λ io. RunHasOutcome (IsOutcomeOfCommand (view line.now))
        (command_memory_message (view line.now)) m (S.files store.new) io result)) }
    ensures fits { IfSome (S.files store.old) (λ m.
        NoneFailed (S.failures store.old) (S.failures store.new) →
        ForStreamsOverWriters (W.contents out.old) (W.contents out.new) (E.contents err.old)
        (E.contents err.new)
        (λ io. RunObjectFits (view line.now) m (S.files store.new) io result)) }
    ensures failed { IfSome (S.files store.old) (λ m.
        HasFailed (S.failures store.old) (S.failures store.new) →
        ForStreamsOverWriters (W.contents out.old) (W.contents out.new) (E.contents err.old)
        (E.contents err.new)
        (λ io. CommandRunFails (view line.now) m (S.files store.new)
        (S.last_failure store.new) io result)) }
    ensures one_program { IfSome (S.files store.old) (λ m.
        NoneFailed (S.failures store.old) (S.failures store.new) →
        ForStreamsOverWriters (W.contents out.old) (W.contents out.new) (E.contents err.old)
        (E.contents err.new)
        (λ io. CommandLinksWholeProgram (view line.now) m (S.files store.new) io result)) }
    ensures later { S.failures store.old ≤ S.failures store.new }
    ensures status { HasFailed (S.failures store.old) (S.failures store.new) →
        result ≡ Status.Failure }
{
    run_line_with_streams(
        alloc,
        line,
        store,
        &mut Stream::over(out),
        &mut Stream::over(err),
    )
}

/// Runs the command line `args`, whose first argument is the program's name, printing to `out` and `err`, and returns the
/// status.
pub fn run_with_streams<A: AsStr, S: Store, W: Write, E: Write>(
    alloc: Global,
    args: &[A],
    store: &mut S,
    out: &mut Stream<'_, W>,
    err: &mut Stream<'_, E>,
) -> Status
    requires out { out.old.has_failed ≡ false }
    requires err { err.old.has_failed ≡ false }
    ensures same { HaveSameWriters out.old out.new err.old err.new }
    ensures done { IfSome (S.files store.old) (λ m.
        NoneFailed (S.failures store.old) (S.failures store.new) →
        RunsCommand (map A.text args.now) m (S.files store.new)
        (stream_states W.contents E.contents out.old out.new err.old err.new) result) }
    ensures fits { IfSome (S.files store.old) (λ m.
        NoneFailed (S.failures store.old) (S.failures store.new) →
        ArgsObjectFits (map A.text args.now) m (S.files store.new)
        (stream_states W.contents E.contents out.old out.new err.old err.new) result) }
    ensures failed { IfSome (S.files store.old) (λ m.
        HasFailed (S.failures store.old) (S.failures store.new) →
        ArgsRunFails (S.failures store.old) (map A.text args.now) m (S.files store.new)
        (S.last_failure store.new)
        (stream_states W.contents E.contents out.old out.new err.old err.new) result) }
    ensures one_program { IfSome (S.files store.old) (λ m.
        NoneFailed (S.failures store.old) (S.failures store.new) →
        ArgsLinkWholeProgram (line_of (map A.text args.now)) m (S.files store.new)
        (stream_states W.contents E.contents out.old out.new err.old err.new) result) }
    ensures later { S.failures store.old ≤ S.failures store.new }
    ensures status { HasFailed (S.failures store.old) (S.failures store.new) →
        result ≡ Status.Failure }
{
    match read_line(alloc, args) {
        Ok(line) => run_line_with_streams(alloc, &line, store, out, err),
        Err(fault) => {
            print(err, fault_message(fault));
            Status::Failure
        }
    }
}

/// Runs the command line `args`, whose first argument is the program's name, printing to `out` and `err`, and returns the
/// status.
pub fn run<A: AsStr, S: Store, W: Write, E: Write>(
    alloc: Global,
    args: &[A],
    store: &mut S,
    out: &mut W,
    err: &mut E,
) -> Status
    ensures done { IfSome (S.files store.old) (λ m.
        NoneFailed (S.failures store.old) (S.failures store.new) →
        ForStreamsOverWriters (W.contents out.old) (W.contents out.new) (E.contents err.old)
        (E.contents err.new)
        (λ io. RunsCommand (map A.text args.now) m (S.files store.new) io result)) }
    ensures fits { IfSome (S.files store.old) (λ m.
        NoneFailed (S.failures store.old) (S.failures store.new) →
        ForStreamsOverWriters (W.contents out.old) (W.contents out.new) (E.contents err.old)
        (E.contents err.new)
        (λ io. ArgsObjectFits (map A.text args.now) m (S.files store.new) io result)) }
    ensures failed { IfSome (S.files store.old) (λ m.
        HasFailed (S.failures store.old) (S.failures store.new) →
        ForStreamsOverWriters (W.contents out.old) (W.contents out.new) (E.contents err.old)
        (E.contents err.new)
        (λ io. ArgsRunFails (S.failures store.old) (map A.text args.now) m (S.files store.new)
        (S.last_failure store.new) io result)) }
    ensures one_program { IfSome (S.files store.old) (λ m.
        NoneFailed (S.failures store.old) (S.failures store.new) →
        ForStreamsOverWriters (W.contents out.old) (W.contents out.new) (E.contents err.old)
        (E.contents err.new)
        (λ io. ArgsLinkWholeProgram (line_of (map A.text args.now)) m
        (S.files store.new) io result)) }
    ensures later { S.failures store.old ≤ S.failures store.new }
    ensures status { HasFailed (S.failures store.old) (S.failures store.new) →
        result ≡ Status.Failure }
{
    run_with_streams(
        alloc,
        args,
        store,
        &mut Stream::over(out),
        &mut Stream::over(err),
    )
}
