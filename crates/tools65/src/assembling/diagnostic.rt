//! The message for a source that has no object.

ghost use Rattle.std.specs.Prelude.{◌≡◌, IfOk};
ghost use Rattle.asm65.specs.Assembly.{located_fault};
ghost use Rattle.tools65.specs.Assembling.{asm_message};

use asm65::Diagnostic;
use base65::ListVec;
use cli65::{file_message, line_message};
use std::alloc::{AllocError, Global};

/// Returns the message of a diagnostic.
pub fn asm_message(
    alloc: Global,
    source: &str,
    located: &Diagnostic,
) -> Result<ListVec<u8>, AllocError>
    ensures { IfOk result (λ message.
        message ≡ asm_message source.now (located_fault located.now)) }
{
    let mut text = ListVec::new(alloc);
    text.extend_from_slice(located.fault.message_text().as_bytes())?;
    text.extend_from_slice(located.fault.name())?;
    if located.line == 0 {
        return file_message(alloc, source.as_bytes(), text.as_slice());
    }
    line_message(
        alloc,
        located.file_name().as_bytes(),
        located.line as usize,
        text.as_slice(),
    )
}
