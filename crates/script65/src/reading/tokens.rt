//! Splits a script into tokens.

ghost use Rattle.std.specs.Prelude.{◌≡◌, ◌≢◌, ◌≤◌, ◌<◌, ◌+◌, ◌==◌, false, length};
ghost use Rattle.std.specs.List.{prefix_len, list_any, take_while};
ghost use Rattle.std.specs.Char.{is_ascii_digit, is_ascii_hexdigit};
ghost use Rattle.script65.specs.Tokens.{leading_token, gap, hex_after, is_letter, is_string_byte, is_identifier_byte, punctuator, string_after, the_end, token, token_bytes};
ghost use Rattle.script65.specs.Scripts.{line_at};

use base65::{digits, is_utf8};
use std::marker::Model;

/// Bytes of a script, which contracts see as a list.
#[derive(Drop)]
pub struct Bytes<'a> {
    bytes: &'a [u8],
}

impl<'a> Model for Bytes<'a> {
    ghost use Rattle.std.specs.Prelude.{List, ℕ};
    ghost use Rattle.std.specs.Coded.{coded_list, coded_ℕ};

    ghost Value = { List ℕ };

    ghost coded = { coded_list coded_ℕ };

    ghost view = { λ b. b.bytes.now };
}

impl<'a> Bytes<'a> {
    pub fn of(bytes: &'a [u8]) -> Self
        ensures { result ≡ bytes.now }
    {
        Bytes { bytes }
    }

    pub fn as_slice(&self) -> &'a [u8]
        ensures { result.now ≡ self.now }
    {
        self.bytes
    }
}

/// A token: an identifier; a number, with its value if that is below 2 ^ 32; a string, with its
/// text; `%O`; or a punctuator. The end of the script and a byte that begins no token are tokens, too.
#[derive(Drop)]
pub enum Lexeme<'a> {
    Identifier(Bytes<'a>),
    Number(Option<u32>),
    StringLiteral(Bytes<'a>),
    Output,
    Colon,
    Semicolon,
    Comma,
    Equals,
    Plus,
    Minus,
    Open,
    Close,
    End,
    Bad,
}

/// A token, the offset of its first byte, and the offset after its last.
#[derive(Drop)]
pub struct Token<'a> {
    pub lexeme: Lexeme<'a>,
    pub at: usize,
    pub following: usize,
}

fn is_letter(b: u8) -> bool
    ensures { result ≡ is_letter b }
{
    b.is_ascii_alphabetic() || b == b'_'
}

fn identifier_len(bytes: &[u8]) -> usize
    ensures count { result ≡ prefix_len is_identifier_byte bytes.now }
    ensures within { result ≤ length bytes.now }
{
    bytes
        .iter()
        .take_while(|b| is_letter(**b) || b.is_ascii_digit())
        .count()
}

fn string_len(bytes: &[u8]) -> usize
    ensures count { result ≡ prefix_len is_string_byte bytes.now }
    ensures within { result ≤ length bytes.now }
{
    bytes
        .iter()
        .take_while(|b| !(**b == b'"' || **b == b'\n'))
        .count()
}

fn decimal_len(bytes: &[u8]) -> usize
    ensures count { result ≡ prefix_len is_ascii_digit bytes.now }
    ensures within { result ≤ length bytes.now }
{
    bytes.iter().take_while(|b| b.is_ascii_digit()).count()
}

fn hex_len(bytes: &[u8]) -> usize
    ensures count { result ≡ prefix_len is_ascii_hexdigit bytes.now }
    ensures within { result ≤ length bytes.now }
{
    bytes.iter().take_while(|b| b.is_ascii_hexdigit()).count()
}

// Returns the length of the blanks and comments at the front.
fn gap_len(bytes: &[u8]) -> usize
    ensures count { result ≡ gap false bytes.now }
    ensures within { result ≤ length bytes.now }
{
    let mut comment = false;
    for (i, b) in bytes.iter().enumerate() {
        if comment {
            comment = *b != b'\n';
        } else if *b == b'#' {
            comment = true;
        } else if !matches!(*b, b' ' | b'\t' | b'\r' | b'\n') {
            return i;
        }
    }
    bytes.len()
}

fn has_percent(bytes: &[u8]) -> bool
    ensures { result ≡ list_any (λ b. b == 37) bytes.now }
{
    bytes.iter().any(|b| *b == b'%')
}

// Reads a string after its opening `"`. Returns the token and its length in bytes.
fn string(rest: &[u8]) -> (Lexeme<'_>, usize)
    ensures value { result ≡ string_after (take_while is_string_byte rest.now) rest.now }
    ensures within { result.1 ≤ 1 + length rest.now }
    ensures some { 0 < result.1 }
{
    let (inside, following) = rest.split_at(string_len(rest));
    match following {
        [b'"', ..] if is_utf8(inside) && !has_percent(inside) => {
            (Lexeme::StringLiteral(Bytes::of(inside)), 2 + inside.len())
        }
        _ => (Lexeme::Bad, 1),
    }
}

// Reads a number after its `$`. Returns the token and its length in bytes.
fn hex(rest: &[u8]) -> (Lexeme<'_>, usize)
    ensures value { result ≡ hex_after (take_while is_ascii_hexdigit rest.now) }
    ensures within { result.1 ≤ 1 + length rest.now }
    ensures some { 0 < result.1 }
{
    match hex_len(rest) {
        0 => (Lexeme::Bad, 1),
        len => (Lexeme::Number(digits(16, &rest[..len])), 1 + len),
    }
}

// Returns the token of a single byte, or `Bad`.
fn punctuator(b: u8) -> Lexeme<'static>
    ensures { result ≡ punctuator b }
{
    match b {
        b':' => Lexeme::Colon,
        b';' => Lexeme::Semicolon,
        b',' => Lexeme::Comma,
        b'=' => Lexeme::Equals,
        b'+' => Lexeme::Plus,
        b'-' => Lexeme::Minus,
        b'{' => Lexeme::Open,
        b'}' => Lexeme::Close,
        _ => Lexeme::Bad,
    }
}

// Returns the token at the front, and its length in bytes.
fn leading_token(here: &[u8]) -> (Lexeme<'_>, usize)
    ensures value { result ≡ leading_token here.now }
    ensures within { result.1 ≤ length here.now }
    ensures some { result.0 ≢ the_end → 0 < result.1 }
{
    let [first, rest @ ..] = here else {
        return (Lexeme::End, 0);
    };
    if is_letter(*first) {
        let len = 1 + identifier_len(rest);
        return (Lexeme::Identifier(Bytes::of(&here[..len])), len);
    }
    if first.is_ascii_digit() {
        let len = 1 + decimal_len(rest);
        return (Lexeme::Number(digits(10, &here[..len])), len);
    }
    match *first {
        b'$' => hex(rest),
        b'"' => string(rest),
        b'%' => match rest {
            [b'O', ..] => (Lexeme::Output, 2),
            _ => (Lexeme::Bad, 1),
        },
        other => (punctuator(other), 1),
    }
}

/// Returns the token at an offset, or the next one after it.
#[tactic(auto, unfolding(crate::specs::Tokens::token))]
pub fn token_at(bytes: &[u8], offset: usize) -> Token<'_>
    requires { offset ≤ length bytes.now }
    ensures value { result ≡ token bytes.now offset }
    ensures within { result.following ≤ length bytes.now }
    ensures order { result.at ≤ result.following }
    ensures some { result.lexeme ≢ the_end → offset < result.following }
{
    let at = offset + gap_len(&bytes[offset..]);
    let (lexeme, len) = leading_token(&bytes[at..]);
    Token {
        lexeme,
        at,
        following: at + len,
    }
}

/// Returns the bytes of the token at an offset, or of the next one after it.
#[tactic(auto, using(crate::proofs::LeadingTokens::none_after))]
pub fn token_text(bytes: &[u8], offset: usize) -> &[u8]
    ensures { result.now ≡ token_bytes bytes.now (token bytes.now offset) }
{
    if offset > bytes.len() {
        return &[];
    }
    let token = token_at(bytes, offset);
    &bytes[token.at..token.following]
}

/// Returns the line of an offset. The first line is 1.
pub fn line_of(bytes: &[u8], at: usize) -> usize
    ensures { result ≡ line_at bytes.now at }
{
    let prefix = bytes.get(..at).unwrap_or(bytes);
    1 + prefix.iter().filter(|b| **b == b'\n').count()
}
