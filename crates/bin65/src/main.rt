//! bin65: ca65, ld65 and ar65 of the cc65 suite, as one program.
#![tactic(auto)]

use std::io::ErrorKind;
use std::process::ExitCode;
use std::{env, io};
use tools65::{DiskStore, Seed, Status, Stream, print, run_with_streams};

/// Runs the program's words as a command. It fails where memory runs out before they are there, or where some word isn't
/// text.
fn run_args(rt: &HostRuntime) -> io::Result<Status> {
    let mut arguments = Vec::new(rt.alloc());
    for argument in env::args(rt)? {
        arguments.push(argument)?;
    }
    // Without random bytes the seed is that of no number.
    let seed = Seed::random(rt).unwrap_or_default();
    let mut store = DiskStore::new(rt.alloc(), rt.clone()?).with_seed(seed);
    let mut out = rt.stdout();
    let mut err = rt.stderr();
    Ok(run_with_streams(
        rt.alloc(),
        arguments.as_slice(),
        &mut store,
        &mut Stream::over(&mut out),
        &mut Stream::over(&mut err),
    ))
}

/// Returns the message if no command could be run.
fn error_message(error: &io::Error) -> &'static [u8] {
    match error.kind() {
        ErrorKind::OutOfMemory => b"bin65: Error: out of memory\n",
        _ => b"bin65: Error: bad arguments\n",
    }
}

fn main(rt: HostRuntime) -> ExitCode {
    match run_args(&rt) {
        Ok(Status::Success) => ExitCode::SUCCESS,
        Ok(Status::Failure) => ExitCode::FAILURE,
        Err(error) => {
            print(&mut Stream::over(&mut rt.stderr()), error_message(&error));
            ExitCode::FAILURE
        }
    }
}
