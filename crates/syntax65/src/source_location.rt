//! Source locations.

ghost use Rattle.std.specs.Prelude.{◌≡◌, IfOk};

use base65::PathString;
use std::alloc::{AllocError, Global};

/// The maximum size in bytes of a source, and of a file of which `.incbin` reads a part.
pub const MAX_FILE: u64 = 16_777_216;

/// A source location: the file, and the number of the line that was read last; line 0 before the
/// first line.
#[derive(Drop)]
pub struct SourceLocation {
    pub file: PathString,
    pub line: u32,
}

impl SourceLocation {
    /// Copies the location.
    pub fn copy(&self, alloc: Global) -> Result<SourceLocation, AllocError>
        ensures { IfOk result (λ location. location ≡ self.now) }
    {
        Ok(SourceLocation {
            file: PathString::copy_of(alloc, self.file.as_str())?,
            line: self.line,
        })
    }
}
