//! Words in upper or lower case.

ghost use Rattle.std.specs.Prelude.{◌≡◌};
ghost use Rattle.std.specs.Str.{str_eq_ignore_ascii_case};

/// Returns whether bytes spell a word, in upper or lower case.
pub fn spells_keyword(text: &[u8], keyword: &[u8]) -> bool
    ensures { result ≡ str_eq_ignore_ascii_case text.now keyword.now }
{
    text.eq_ignore_ascii_case(keyword)
}
