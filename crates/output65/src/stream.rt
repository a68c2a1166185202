//! A stream over a writer.

ghost use Rattle.std.specs.Prelude.{◌≡◌, ◌<◌, ◌≤◌, length, false, IfOk};
ghost use Rattle.std.specs.Io.KnownBytes.{WriteAppends};
ghost use Rattle.output65.specs.Stream.{is_write_failure};

use std::io;
use std::io::Write;

/// A stream over a writer. It has failed if its writer returned an error, or accepted nothing of a text that isn't empty.
/// Nothing more is written to a stream that has failed.
#[derive(Drop)]
pub struct Stream<'a, W> {
    writer: &'a mut W,
    has_failed: bool,
}

impl<'a, W: Write> Stream<'a, W> {
    /// Creates a stream that hasn't failed.
    pub fn over(writer: &'a mut W) -> Stream<'a, W>
        ensures same { result.writer.ghost_name ≡ writer.entry.ghost_name }
        ensures holds { result.writer.now ≡ writer.old }
        ensures fresh { result.has_failed ≡ false }
    {
        Stream {
            writer,
            has_failed: false,
        }
    }

    /// Returns whether the stream has failed.
    pub fn has_failed(&self) -> bool
        ensures { result ≡ self.now.has_failed }
    {
        self.has_failed
    }

    /// Writes a text, which isn't empty, by one call of the writer, and returns the writer's result.
    pub fn write(&mut self, text: &[u8]) -> io::Result<usize>
        requires asked { self.old.has_failed ≡ false }
        requires some { 0 < length text.now }
        ensures same { self.new.writer.ghost_name ≡ self.old.writer.ghost_name }
        ensures bound { IfOk result (λ n. n ≤ length text.now) }
        ensures bytes { WriteAppends (W.contents self.old.writer.now)
            (W.contents self.new.writer.now) result text.now }
        ensures refused { self.new.has_failed ≡ is_write_failure result }
    {
        let result = self.writer.write(text);
        self.has_failed = match &result {
            Ok(n) => *n == 0,
            Err(_) => true,
        };
        result
    }
}
