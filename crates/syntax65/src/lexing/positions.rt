//! Reads the token at a position: its class, punctuation and numbers.

ghost use Rattle.std.specs.Prelude.{◌≡◌, ◌==◌, ◌≤◌, length, ◌∷◌, [], ◌<◌, ◌+◌, IfSome, ◌↔◌, Bool, None, IsTrue};
ghost use Rattle.base65.specs.Digit.{IsRadix, digits};
ghost use Rattle.syntax65.specs.Forms.{class_of, is_identifier_byte, is_blank, is_no_quote, spelling, BeginsWithClass, IsFound, IsSizeLetter, HasNoColonOrEqual, TokenMatchesAt, number_of, plain_number_of};
ghost use Rattle.syntax65.specs.declared.lexing.tokens.TokenKind.TheVariants.{SizePrefix};
ghost use Rattle.std.specs.List.{prefix_len};
ghost use Rattle.syntax65.specs.Internal.Positions.{AreDigitsAhead, IsPlainNumber, IsTokenAt, IsLongPunctuatorAt, BeginsNumber, BeginsWithPrefix, BeginsPunctuator};
ghost use Rattle.syntax65.specs.Tokens.{IsEnd};
ghost use Rattle.syntax65.specs.declared.lexing.positions.Class.TheVariants.{Letter, Apostrophe, Quote, Colon, Blank};

use super::tokens::{AddressSize, LexFault, Punctuation, TokenKind};
use base65::digits;

/// The class of a token's first byte.
#[derive(Clone, Copy)]
pub enum Class {
    Letter,
    Digit,
    Radix,
    At,
    Dot,
    Apostrophe,
    Quote,
    Colon,
    Semicolon,
    Blank,
    Other,
}

/// Returns the class of a byte.
#[inline(always)]
pub fn class_of(b: u8) -> Class
    ensures { result ≡ class_of b }
{
    // Most bytes of a source are lower-case letters.
    if b.is_ascii_lowercase() {
        return Class::Letter;
    }
    match b {
        b'a'..=b'z' | b'A'..=b'Z' | b'_' => Class::Letter,
        b'0'..=b'9' => Class::Digit,
        b'$' | b'%' => Class::Radix,
        b'@' => Class::At,
        b'.' => Class::Dot,
        b'\'' => Class::Apostrophe,
        b'"' => Class::Quote,
        b':' => Class::Colon,
        b';' => Class::Semicolon,
        b' ' | b'\t' => Class::Blank,
        _ => Class::Other,
    }
}

/// For each byte, whether it is a letter, a digit or `_`.
const IDENTIFIER_BYTES: [bool; 256] = [
    false, false, false, false, false, false, false, false, false, false, false, false, false,
    false, false, false, false, false, false, false, false, false, false, false, false, false,
    false, false, false, false, false, false, false, false, false, false, false, false, false,
    false, false, false, false, false, false, false, false, false, true, true, true, true, true,
    true, true, true, true, true, false, false, false, false, false, false, false, true, true,
    true, true, true, true, true, true, true, true, true, true, true, true, true, true, true, true,
    true, true, true, true, true, true, true, true, false, false, false, false, true, false, true,
    true, true, true, true, true, true, true, true, true, true, true, true, true, true, true, true,
    true, true, true, true, true, true, true, true, true, false, false, false, false, false, false,
    false, false, false, false, false, false, false, false, false, false, false, false, false,
    false, false, false, false, false, false, false, false, false, false, false, false, false,
    false, false, false, false, false, false, false, false, false, false, false, false, false,
    false, false, false, false, false, false, false, false, false, false, false, false, false,
    false, false, false, false, false, false, false, false, false, false, false, false, false,
    false, false, false, false, false, false, false, false, false, false, false, false, false,
    false, false, false, false, false, false, false, false, false, false, false, false, false,
    false, false, false, false, false, false, false, false, false, false, false, false, false,
    false, false, false, false, false, false, false, false, false, false, false, false, false,
    false, false, false, false, false, false, false, false, false, false,
];

/// Returns whether the byte can continue a name or number.
#[inline(always)]
pub fn is_identifier_byte(b: u8) -> bool
    ensures { result ≡ is_identifier_byte b }
{
    IDENTIFIER_BYTES[usize::from(b)]
}

/// Returns whether the byte separates tokens.
#[inline]
pub fn is_blank(b: u8) -> bool
    ensures { result ≡ is_blank b }
{
    b == b' ' || b == b'\t'
}

/// Returns the number of leading letters, digits and `_`.
pub fn identifier_len(bytes: &[u8]) -> usize
    ensures count { result ≡ prefix_len is_identifier_byte bytes.now }
    ensures within { result ≤ length bytes.now }
{
    bytes.iter().take_while(|b| is_identifier_byte(**b)).count()
}

/// Returns the number of leading occurrences of this byte.
pub fn run_len(byte: u8, bytes: &[u8]) -> usize
    ensures count { result ≡ prefix_len (λ b. b == byte) bytes.now }
    ensures within { result ≤ length bytes.now }
{
    bytes.iter().take_while(|b| **b == byte).count()
}

/// Returns the number of leading blanks and tabs.
pub fn blank_len(bytes: &[u8]) -> usize
    ensures count { result ≡ prefix_len is_blank bytes.now }
    ensures within { result ≤ length bytes.now }
{
    bytes.iter().take_while(|b| is_blank(**b)).count()
}

/// Returns the number of leading bytes that aren't `"`.
pub fn len_before_quote(bytes: &[u8]) -> usize
    ensures count { result ≡ prefix_len is_no_quote bytes.now }
    ensures within { result ≤ length bytes.now }
{
    bytes.iter().take_while(|b| **b != b'"').count()
}

/// Returns the punctuation of these two bytes.
pub fn punctuator_of_two(first: u8, second: u8) -> Option<Punctuation>
    ensures { IsFound (λ punctuator. spelling punctuator ≡ first ∷ second ∷ []) result }
{
    match (first, second) {
        (b':', b':') => Some(Punctuation::Scope),
        (b':', b'=') => Some(Punctuation::Define),
        (b'<', b'>') => Some(Punctuation::NotEqual),
        (b'<', b'=') => Some(Punctuation::LessOrEqual),
        (b'>', b'=') => Some(Punctuation::GreaterOrEqual),
        (b'<', b'<') => Some(Punctuation::ShiftLeft),
        (b'>', b'>') => Some(Punctuation::ShiftRight),
        (b'&', b'&') => Some(Punctuation::AndAnd),
        (b'|', b'|') => Some(Punctuation::OrOr),
        _ => None,
    }
}

/// Returns the punctuation of this byte.
#[inline(always)]
pub fn punctuator_of_one(byte: u8) -> Option<Punctuation>
    ensures { IsFound (λ punctuator. spelling punctuator ≡ byte ∷ []) result }
{
    Some(match byte {
        b':' => Punctuation::Colon,
        b'+' => Punctuation::Plus,
        b'-' => Punctuation::Minus,
        b'*' => Punctuation::Star,
        b'/' => Punctuation::Slash,
        b'&' => Punctuation::Ampersand,
        b'|' => Punctuation::Bar,
        b'^' => Punctuation::Caret,
        b'~' => Punctuation::Tilde,
        b'<' => Punctuation::Less,
        b'>' => Punctuation::Greater,
        b'=' => Punctuation::Equal,
        b'!' => Punctuation::Exclamation,
        b'(' => Punctuation::OpenParenthesis,
        b')' => Punctuation::CloseParenthesis,
        b'#' => Punctuation::Hash,
        b',' => Punctuation::Comma,
        b'{' => Punctuation::OpenBrace,
        b'}' => Punctuation::CloseBrace,
        _ => return None,
    })
}

/// Returns the value of a number's text, if it is one.
pub fn number_of(text: &[u8]) -> Option<u32>
    ensures { result ≡ number_of text.now }
{
    match *text.first()? {
        b'$' => digits(16, &text[1..]),
        b'%' => digits(2, &text[1..]),
        _ => plain_number(text),
    }
}

/// Returns the value and length of a leading number whose digits end it, without `h`.
pub fn plain_digits(here: &[u8]) -> Option<(u32, usize)>
    ensures { IfSome result (λ r. IsPlainNumber here.now r.0 r.1) }
{
    match *here.first()? {
        b'$' => with_prefix_len(digits_ahead(16, &here[1..])?),
        b'%' => with_prefix_len(digits_ahead(2, &here[1..])?),
        _ => digits_ahead(10, here),
    }
}

/// Returns the value, and the length with the prefix before the digits.
fn with_prefix_len(digits: (u32, usize)) -> Option<(u32, usize)>
    ensures { IfSome result (λ r. (r.0 ≡ digits.0) × (r.1 ≡ 1 + digits.1)) }
{
    Some((digits.0, digits.1.checked_add(1)?))
}

/// Returns the value and count of the leading digits, if at least one and no letter, digit or `_`
/// follows.
fn digits_ahead(radix: u32, bytes: &[u8]) -> Option<(u32, usize)>
    requires { IsRadix radix }
    ensures { IfSome result (λ r. AreDigitsAhead radix bytes.now r.0 r.1) }
{
    let mut number = 0u32;
    let mut len = 0;
    'digits: while len < bytes.len() {
        let byte = bytes[len];
        let Some(digit) = char::from(byte).to_digit(radix) else {
            if len == 0 || is_identifier_byte(byte) {
                return None;
            }
            return Some((number, len));
        };
        number = number.checked_mul(radix)?.checked_add(digit)?;
        len += 1;
    }
    if len == 0 { None } else { Some((number, len)) }
}

/// Returns the value of hex digits and `h`, or of decimal digits.
fn plain_number(text: &[u8]) -> Option<u32>
    requires { 0 < length text.now }
    ensures { result ≡ plain_number_of text.now }
{
    let last = text.len() - 1;
    if text[last] == b'h' {
        digits(16, &text[..last])
    } else {
        digits(10, text)
    }
}

/// The maximum length of a name in bytes, without its `@` or `.`.
pub const MAX_NAME: usize = 200;

/// Returns the kind and length of the first token; `first` says whether it is the first of its
/// line.
#[inline(always)]
pub fn token_at(first: bool, here: &[u8]) -> Result<(TokenKind, usize), LexFault>
    requires no_end { IsEnd here.now → ⊥ }
    requires no_blank { BeginsWithClass Blank here.now → ⊥ }
    ensures { IsTokenAt first here.now result }
{
    match class_of(here[0]) {
        Class::Letter => prefix_or_identifier_at(first, here),
        Class::At => by_value(name_at(TokenKind::CheapName, here)),
        Class::Dot => by_value(name_at(TokenKind::Directive, here)),
        Class::Digit | Class::Radix => by_value(number_at(here)),
        Class::Apostrophe => by_value(character_at(here)),
        Class::Quote => by_value(string_at(here)),
        Class::Colon => by_value(colon_at(here)),
        Class::Semicolon | Class::Blank | Class::Other => punctuator_at(here),
    }
}

/// Copies a result part by part. Without the copy, the results of the calls in `token_at` that
/// aren't inlined would be in memory and not in registers.
#[inline(always)]
fn by_value(read: Result<(TokenKind, usize), LexFault>) -> Result<(TokenKind, usize), LexFault>
    ensures { result ≡ read }
{
    match read {
        Ok((kind, len)) => Ok((kind, len)),
        Err(fault) => Err(fault),
    }
}

/// Reads a size prefix or an identifier.
#[inline(always)]
fn prefix_or_identifier_at(first: bool, here: &[u8]) -> Result<(TokenKind, usize), LexFault>
    requires { BeginsWithClass Letter here.now }
    ensures { IsTokenAt first here.now result }
{
    match size_prefix_at(first, here) {
        Some(size) => Ok((TokenKind::SizePrefix(size), 2)),
        None => identifier_at(first, here),
    }
}

#[inline(always)]
fn size_prefix_at(first: bool, here: &[u8]) -> Option<AddressSize>
    ensures { IsFound (λ size. TokenMatchesAt first (SizePrefix size) 2 here.now) result }
{
    if first || here.len() < 2 {
        return None;
    }
    if here[1] == b':' && is_not_colon_or_equal(&here[2..]) {
        size_of(here[0])
    } else {
        None
    }
}

fn is_not_colon_or_equal(following: &[u8]) -> bool
    ensures { IsTrue result ↔ HasNoColonOrEqual following.now }
{
    match following.first() {
        None => true,
        Some(byte) => *byte != b':' && *byte != b'=',
    }
}

fn size_of(letter: u8) -> Option<AddressSize>
    ensures { IsFound (λ size. IsSizeLetter size letter) result }
{
    match letter {
        b'z' | b'Z' => Some(AddressSize::ZeroPage),
        b'a' | b'A' => Some(AddressSize::Absolute),
        _ => None,
    }
}

#[inline(always)]
fn identifier_at(first: bool, here: &[u8]) -> Result<(TokenKind, usize), LexFault>
    requires letter { BeginsWithClass Letter here.now }
    requires no_prefix { IsFound (λ size. TokenMatchesAt first (SizePrefix size) 2 here.now) None }
    ensures { IsTokenAt first here.now result }
{
    let len = 1 + identifier_len(&here[1..]);
    if len <= MAX_NAME {
        Ok((TokenKind::Identifier, len))
    } else {
        Err(LexFault::NameTooLong)
    }
}

/// Reads a cheap local name or a directive.
fn name_at(kind: TokenKind, here: &[u8]) -> Result<(TokenKind, usize), LexFault>
    requires { BeginsWithPrefix kind here.now }
    ensures { (first : Bool) → IsTokenAt first here.now result }
{
    let name = &here[1..];
    if !begins_name(name) {
        return Err(LexFault::BadCharacter);
    }
    let len = identifier_len(name);
    if len <= MAX_NAME {
        Ok((kind, 1 + len))
    } else {
        Err(LexFault::NameTooLong)
    }
}

fn begins_name(bytes: &[u8]) -> bool
    ensures { IsTrue result ↔ BeginsWithClass Letter bytes.now }
{
    match bytes.first() {
        None => false,
        Some(byte) => class_of(*byte) == Class::Letter,
    }
}

fn number_at(here: &[u8]) -> Result<(TokenKind, usize), LexFault>
    requires { BeginsNumber here.now }
    ensures { (first : Bool) → IsTokenAt first here.now result }
{
    match plain_digits(here) {
        Some((value, len)) => Ok((TokenKind::Number(value), len)),
        None => spelled_number_at(here),
    }
}

/// Reads a number whose value depends on where it ends.
fn spelled_number_at(here: &[u8]) -> Result<(TokenKind, usize), LexFault>
    requires { BeginsNumber here.now }
    ensures { (first : Bool) → IsTokenAt first here.now result }
{
    let len = 1 + identifier_len(&here[1..]);
    match number_of(&here[..len]) {
        Some(value) => Ok((TokenKind::Number(value), len)),
        None => Err(LexFault::BadNumber),
    }
}

fn character_at(here: &[u8]) -> Result<(TokenKind, usize), LexFault>
    requires { BeginsWithClass Apostrophe here.now }
    ensures { (first : Bool) → IsTokenAt first here.now result }
{
    if here.len() > 2 && here[2] == b'\'' {
        Ok((TokenKind::Character(here[1]), 3))
    } else {
        Err(LexFault::BadCharacter)
    }
}

fn string_at(here: &[u8]) -> Result<(TokenKind, usize), LexFault>
    requires { BeginsWithClass Quote here.now }
    ensures { (first : Bool) → IsTokenAt first here.now result }
{
    let rest = &here[1..];
    let len = len_before_quote(rest);
    if len < rest.len() {
        Ok((TokenKind::StringLiteral, len + 2))
    } else {
        Err(LexFault::StringNotClosed)
    }
}

/// Reads an unnamed reference or punctuation.
fn colon_at(here: &[u8]) -> Result<(TokenKind, usize), LexFault>
    requires { BeginsWithClass Colon here.now }
    ensures { (first : Bool) → IsTokenAt first here.now result }
{
    if here.len() > 1 && (here[1] == b'+' || here[1] == b'-') {
        Ok((TokenKind::Unnamed, 2 + run_len(here[1], &here[2..])))
    } else {
        punctuator_at(here)
    }
}

#[inline(always)]
fn punctuator_at(here: &[u8]) -> Result<(TokenKind, usize), LexFault>
    requires { BeginsPunctuator here.now }
    ensures { (first : Bool) → IsTokenAt first here.now result }
{
    if let Some(punctuator) = long_punctuator_at(here) {
        return Ok((TokenKind::Symbol(punctuator), 2));
    }
    match punctuator_of_one(here[0]) {
        Some(punctuator) => Ok((TokenKind::Symbol(punctuator), 1)),
        None => Err(LexFault::BadCharacter),
    }
}

/// Returns the punctuation of the first two bytes.
fn long_punctuator_at(here: &[u8]) -> Option<Punctuation>
    ensures { IsLongPunctuatorAt here.now result }
{
    if here.len() > 1 {
        punctuator_of_two(here[0], here[1])
    } else {
        None
    }
}
