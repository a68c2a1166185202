//! Prints texts to a stream.

ghost use Rattle.std.specs.Prelude.{◌≡◌, false, map, not};
ghost use Rattle.output65.specs.RunEffects.{PrintsText};
ghost use Rattle.cli65.specs.Messages.{concat_texts};

use crate::stream::Stream;
use std::io::Write;

/// Prints a text, and returns whether the stream accepted all of it. If it didn't, it accepted only a first part, and
/// has failed.
pub fn print<W: Write>(stream: &mut Stream<'_, W>, text: &[u8]) -> bool
    requires { stream.old.has_failed ≡ false }
    ensures same { stream.new.writer.ghost_name ≡ stream.old.writer.ghost_name }
    ensures printed { PrintsText (W.contents stream.old.writer.now)
        (W.contents stream.new.writer.now) text.now result }
    ensures refused { result ≡ not stream.new.has_failed }
{
    let mut rest = text;
    'printing: while !rest.is_empty() {
        match stream.write(rest) {
            Ok(0) => return false,
            Ok(n) => rest = &rest[n..],
            Err(_) => return false,
        }
    }
    true
}

/// Prints texts one after the other, as one text. Returns whether the stream accepted all of them.
pub fn print_all<W: Write>(stream: &mut Stream<'_, W>, parts: &[&[u8]]) -> bool
    requires { stream.old.has_failed ≡ false }
    ensures same { stream.new.writer.ghost_name ≡ stream.old.writer.ghost_name }
    ensures printed { PrintsText (W.contents stream.old.writer.now)
        (W.contents stream.new.writer.now) (concat_texts (map (λ p. p.now) parts.now)) result }
    ensures refused { result ≡ not stream.new.has_failed }
{
    for part in parts {
        if !print(stream, part) {
            return false;
        }
    }
    true
}
