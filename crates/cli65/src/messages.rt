//! Formats the messages that are printed.

ghost use Rattle.std.specs.Prelude.{◌≡◌, ◌<◌, IfOk, Some};
ghost use Rattle.cli65.specs.Messages.{file_message, line_message, arguments_error_message};

use crate::fault::LineFault;
use base65::{ListVec, join};
use itoa::Buffer;
use std::alloc::{AllocError, Global};

/// Formats the message `name: Error: text`.
pub fn file_message(alloc: Global, name: &[u8], text: &[u8]) -> Result<ListVec<u8>, AllocError>
    ensures { IfOk result (λ message. message ≡ file_message name.now text.now) }
{
    join(alloc, &[name, b": Error: ", text, b"\n"])
}

/// Formats the message `name:line: Error: text`.
pub fn line_message(
    alloc: Global,
    name: &[u8],
    line: usize,
    text: &[u8],
) -> Result<ListVec<u8>, AllocError>
    ensures { IfOk result (λ message. message ≡ line_message name.now line text.now) }
{
    let mut buffer = Buffer::new();
    let number = buffer.format(line);
    join(
        alloc,
        &[name, b":", number.as_bytes(), b": Error: ", text, b"\n"],
    )
}

/// Returns the message of an error of a command line.
pub fn fault_message(fault: LineFault) -> &'static [u8]
    ensures { result.now ≡ arguments_error_message fault }
{
    match fault {
        LineFault::OutOfMemory => b"bin65: Error: out of memory\n",
        LineFault::BadArguments => b"bin65: Error: bad arguments\n",
    }
}
