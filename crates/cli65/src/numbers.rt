//! Parses numbers as in sources.

ghost use Rattle.std.specs.Prelude.{◌≡◌};
ghost use Rattle.cli65.specs.Defining.{number_in};

use base65::digits;

/// Parses a number: `$` and hex digits, `%` and binary digits, decimal digits, or hex digits and `h` with a
/// decimal digit first. Returns nothing for other text, and for values of 2 ^ 32 or more.
#[tactic(auto, unfolding(crate::specs::Defining::number_in))]
pub fn number_in(text: &[u8]) -> Option<u32>
    ensures { result ≡ number_in text.now }
{
    let last = text.len().checked_sub(1)?;
    match text[0] {
        b'$' => digits(16, &text[1..]),
        b'%' => digits(2, &text[1..]),
        b'0'..=b'9' if text[last] == b'h' => digits(16, &text[..last]),
        b'0'..=b'9' => digits(10, text),
        _ => None,
    }
}
