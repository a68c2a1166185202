//! Commits an outcome: prints its texts, and writes its files.

ghost use Rattle.std.specs.Prelude.{◌≡◌, ◌<◌, ◌≤◌, ◌⊎◌, [], slice_get, IfSome, Some, false, not};
ghost use Rattle.base65.specs.Store.{NoneFailed};
ghost use Rattle.output65.specs.RunEffects.{HaveSameWriters, PrintsText, PrintsBothTexts, CommitsOutcome, HasMemoryFailure, stream_states, has_accepted_both};
ghost use Rattle.cli65.specs.Messages.{file_memory_message};
ghost use Rattle.base65.specs.declared.output.OutputFile.{OutputFile};
ghost use Rattle.output65.specs.WriteFailures.{HasWriteFailure, file_error_line};

use crate::outcome::{Outcome, Status};
use crate::printing::{print, print_all};
use crate::stream::Stream;
use crate::writing::{WriteError, write_outputs};
use base65::{OutputFile, Store, StoreFault};
use std::io::Write;

/// Prints a text to each of two streams; to the second only if the first accepted all of its own. Returns
/// whether both accepted all.
fn print_both<W: Write, E: Write>(
    out: &mut Stream<'_, W>,
    text: &[u8],
    err: &mut Stream<'_, E>,
    error_text: &[u8],
) -> bool
    requires out { out.old.has_failed ≡ false }
    requires err { err.old.has_failed ≡ false }
    ensures same { HaveSameWriters out.old out.new err.old err.new }
    ensures printed { PrintsBothTexts
        (stream_states W.contents E.contents out.old out.new err.old err.new) text.now
        error_text.now }
    ensures accepted { result ≡
        has_accepted_both (stream_states W.contents E.contents out.old out.new err.old err.new) }
{
    if !print(out, text) {
        return false;
    }
    print(err, error_text)
}

/// Prints that memory ran out, after a name. Returns whether the stream accepted all of it.
pub fn print_out_of_memory<E: Write>(err: &mut Stream<'_, E>, name: &str) -> bool
    requires { err.old.has_failed ≡ false }
    ensures same { err.new.writer.ghost_name ≡ err.old.writer.ghost_name }
    ensures printed { PrintsText (E.contents err.old.writer.now) (E.contents err.new.writer.now)
        (file_memory_message name.now) (not err.new.has_failed) }
    ensures accepted { result ≡ not err.new.has_failed }
{
    print_all(err, &[name.as_bytes(), b": Error: out of memory\n"])
}

/// Prints why an output isn't written: out of memory, or the error of its file. Returns whether the stream
/// accepted all of it.
fn print_write_error<E: Write>(
    err: &mut Stream<'_, E>,
    outputs: &[OutputFile],
    write_error: WriteError,
    memory_name: &str,
) -> bool
    requires { err.old.has_failed ≡ false }
    ensures same { err.new.writer.ghost_name ≡ err.old.writer.ghost_name }
    ensures memory { write_error.fault ≡ StoreFault.OutOfMemory →
        PrintsText (E.contents err.old.writer.now) (E.contents err.new.writer.now)
        (file_memory_message memory_name.now) (not err.new.has_failed) }
    ensures failed { (file : OutputFile) → write_error.fault ≡ StoreFault.FileError →
        slice_get outputs.now write_error.index ≡ Some file →
        PrintsText (E.contents err.old.writer.now) (E.contents err.new.writer.now)
        (file_error_line file.name) (not err.new.has_failed) }
{
    let suffix: &[u8] = match write_error.fault {
        StoreFault::OutOfMemory => return print_out_of_memory(err, memory_name),
        StoreFault::FileNotFound => b": Error: file not found\n",
        StoreFault::FileError => b": Error: file error\n",
    };
    match outputs.get(write_error.index) {
        Some(output) => print_all(err, &[output.name.as_str().as_bytes(), suffix]),
        None => false,
    }
}

/// Prints the texts of an outcome, standard output's first, and then writes its files in order. If a stream
/// doesn't accept all of its text, nothing more is printed and nothing is written. If a file can't be
/// written, no later one is, and the cause is printed; out of memory is printed after the given name. In both
/// cases the status is failure.
pub fn commit_outcome<S: Store, W: Write, E: Write>(
    outcome: &Outcome,
    store: &mut S,
    out: &mut Stream<'_, W>,
    err: &mut Stream<'_, E>,
    memory_name: &str,
) -> Status
    requires out { out.old.has_failed ≡ false }
    requires err { err.old.has_failed ≡ false }
    ensures same { HaveSameWriters out.old out.new err.old err.new }
    ensures done { IfSome (S.files store.old) (λ m.
        NoneFailed (S.failures store.old) (S.failures store.new) →
        CommitsOutcome outcome.now m (S.files store.new)
        (stream_states W.contents E.contents out.old out.new err.old err.new) result
        ⊎ HasMemoryFailure outcome.now (file_memory_message memory_name.now) m (S.files store.new)
        (stream_states W.contents E.contents out.old out.new err.old err.new) result) }
    ensures plain { outcome.now.outputs ≡ [] → IfSome (S.files store.old) (λ m.
        CommitsOutcome outcome.now m (S.files store.new)
        (stream_states W.contents E.contents out.old out.new err.old err.new) result) }
    ensures untouched { outcome.now.outputs ≡ [] →
        S.last_failure store.new ≡ S.last_failure store.old }
    ensures failed { IfSome (S.files store.old) (λ m. S.failures store.old < S.failures store.new →
        HasWriteFailure outcome.now m (S.files store.new) (S.last_failure store.new)
        (stream_states W.contents E.contents out.old out.new err.old err.new) result) }
    ensures later { S.failures store.old ≤ S.failures store.new }
    ensures status { S.failures store.old < S.failures store.new → result ≡ Status.Failure }
    ensures failing { outcome.now.status ≡ Status.Failure → result ≡ Status.Failure }
{
    if !print_both(out, outcome.out.as_slice(), err, outcome.err.as_slice()) {
        return Status::Failure;
    }
    match write_outputs(store, outcome.outputs.as_slice()) {
        Ok(()) => outcome.status,
        Err(write_error) => {
            print_write_error(err, outcome.outputs.as_slice(), write_error, memory_name);
            Status::Failure
        }
    }
}
