//! Classifies single tokens of a line.

ghost use Rattle.std.specs.Prelude.{◌≡◌, false, option_map};
ghost use Rattle.syntax65.specs.Tokens.{lexeme_of, lexemes};
ghost use Rattle.std.specs.List.{list_all};
ghost use Rattle.ast65.specs.Parsing.{is_definition, string_contents, is_close, is_colon, is_comma, name_of, quoted_in, is_spelled_as, is_identifier_named, string_of, ok_or_not_understood, identifier_in, identifier_of, IsDirective, RefinesParse, ParsesAs, is_identifier, is_letter, size_after, size_keyword};
ghost use Rattle.ast65.specs.declared.reading.keywords.Directive.TheVariants as directive;
ghost use Rattle.syntax65.specs.Forms.{is_identifier_byte};

use crate::fault::AsmFault;
use crate::language::Statement;
use base65::ListVec;
use std::alloc::Global;
use syntax65::{AddressSize, Identifier, MAX_NAME, Punctuation, Token, TokenKind, is_reserved};

pub fn is_comma(token: &Token<'_>) -> bool
    ensures { result ≡ is_comma (lexeme_of token.now) }
{
    matches!(token.kind, TokenKind::Symbol(Punctuation::Comma))
}

pub fn is_colon(token: &Token<'_>) -> bool
    ensures { result ≡ is_colon (lexeme_of token.now) }
{
    matches!(token.kind, TokenKind::Symbol(Punctuation::Colon))
}

/// Returns whether a token is `)`.
pub fn is_close(token: &Token<'_>) -> bool
    ensures { result ≡ is_close (lexeme_of token.now) }
{
    matches!(token.kind, TokenKind::Symbol(Punctuation::CloseParenthesis))
}

/// Returns whether a token is `=` or `:=`.
pub fn is_definition(token: &Token<'_>) -> bool
    ensures { result ≡ is_definition (lexeme_of token.now) }
{
    matches!(
        token.kind,
        TokenKind::Symbol(Punctuation::Equal | Punctuation::Define)
    )
}

/// Returns the bytes between the quotes of a string.
fn string_contents(quoted: &[u8]) -> &[u8]
    ensures { result.now ≡ string_contents quoted.now }
{
    if quoted.len() < 2 {
        b""
    } else {
        &quoted[1..quoted.len() - 1]
    }
}

/// Returns the bytes of a string.
pub fn quoted_in<'a>(token: &Token<'a>) -> Option<&'a [u8]>
    ensures { option_map (λ s. s.now) result ≡ quoted_in (lexeme_of token.now) }
{
    match token.kind {
        TokenKind::StringLiteral => Some(string_contents(token.text)),
        _ => None,
    }
}

/// Returns the bytes of an identifier.
pub fn identifier_in<'a>(token: &Token<'a>) -> Option<&'a [u8]>
    ensures { option_map (λ s. s.now) result ≡ identifier_in (lexeme_of token.now) }
{
    match token.kind {
        TokenKind::Identifier => Some(token.text),
        _ => None,
    }
}

/// Returns the bytes of a string, if it is the only token.
pub fn string_of<'a>(tokens: &[Token<'a>]) -> Option<&'a [u8]>
    ensures { option_map (λ s. s.now) result ≡ string_of (lexemes tokens.now) }
{
    match tokens {
        [token] => quoted_in(token),
        _ => None,
    }
}

/// Returns the bytes of an identifier, if it is the only token.
pub fn identifier_of<'a>(tokens: &[Token<'a>]) -> Option<&'a [u8]>
    ensures { option_map (λ s. s.now) result ≡ identifier_of (lexemes tokens.now) }
{
    match tokens {
        [token] => identifier_in(token),
        _ => None,
    }
}

/// Returns whether an identifier, if there is one, is this name in upper or lower case.
pub fn has_spelling(ident: Option<&[u8]>, name: &[u8]) -> bool
    ensures { result ≡ is_spelled_as (option_map (λ s. s.now) ident.entry) name.now }
{
    match ident {
        Some(ident) => ident.eq_ignore_ascii_case(name),
        None => false,
    }
}

/// Returns whether a token is this identifier, in upper or lower case.
pub fn is_identifier_named(token: &Token<'_>, name: &[u8]) -> bool
    ensures { result ≡ is_identifier_named (lexeme_of token.now) name.now }
{
    has_spelling(identifier_in(token), name)
}

/// Returns the bytes, or an error if there are none.
pub fn ok_or_not_understood(found: Option<&[u8]>) -> Result<&[u8], AsmFault>
    ensures { ParsesAs (λ s. s.now) result
        (λ r. r ≡ ok_or_not_understood (option_map (λ s. s.now) found.entry)) }
{
    match found {
        Some(text) => Ok(text),
        None => Err(AsmFault::NotUnderstood),
    }
}

/// Parses a plain name.
pub fn name_of<'a>(tokens: &[Token<'a>]) -> Result<&'a [u8], AsmFault>
    ensures { ParsesAs (λ s. s.now) result (λ r. r ≡ name_of (lexemes tokens.now)) }
{
    let name = ok_or_not_understood(identifier_of(tokens))?;
    if is_reserved(name) {
        return Err(AsmFault::NotUnderstood);
    }
    Ok(name)
}

fn size_keyword(ident: &[u8]) -> Result<AddressSize, AsmFault>
    ensures { result ≡ size_keyword ident.now }
{
    if ident == b"zeropage".as_slice() {
        Ok(AddressSize::ZeroPage)
    } else if ident == b"absolute".as_slice() {
        Ok(AddressSize::Absolute)
    } else {
        Err(AsmFault::NotUnderstood)
    }
}

/// Parses nothing, `: zeropage` or `: absolute`.
fn size_after(tokens: &[Token<'_>]) -> Result<Option<AddressSize>, AsmFault>
    ensures { RefinesParse result (λ r. r ≡ size_after (lexemes tokens.now)) }
{
    let Some((colon, following)) = tokens.split_first() else {
        return Ok(None);
    };
    if !is_colon(colon) {
        return Err(AsmFault::NotUnderstood);
    }
    let ident = ok_or_not_understood(identifier_of(following))?;
    Ok(Some(size_keyword(ident)?))
}

fn is_letter(byte: u8) -> bool
    ensures { result ≡ is_letter byte }
{
    byte.is_ascii_alphabetic() || byte == b'_'
}

fn is_letter_or_digit(byte: u8) -> bool
    ensures { result ≡ is_identifier_byte byte }
{
    is_letter(byte) || byte.is_ascii_digit()
}

fn are_letters_or_digits(bytes: &[u8]) -> bool
    ensures { result ≡ list_all is_identifier_byte bytes.now }
{
    bytes.iter().all(|byte| is_letter_or_digit(*byte))
}

/// Returns whether the bytes are those of an identifier.
fn is_identifier(bytes: &[u8]) -> bool
    ensures { result ≡ is_identifier bytes.now }
{
    let [first, following @ ..] = bytes else {
        return false;
    };
    is_letter(*first) && are_letters_or_digits(following) && bytes.len() <= MAX_NAME
}

/// Parses `.segment`.
pub fn segment(alloc: Global, tokens: &[Token<'_>]) -> Result<Statement, AsmFault>
    ensures { RefinesParse result (IsDirective directive.Segment (lexemes tokens.now)) }
{
    let Some((first, following)) = tokens.split_first() else {
        return Err(AsmFault::NotUnderstood);
    };
    let name = ok_or_not_understood(quoted_in(first))?;
    let size = size_after(following)?;
    if !is_identifier(name) {
        return Err(AsmFault::NotUnderstood);
    }
    let name = ListVec::copy_of(alloc, name)?;
    Ok(Statement::Segment { name, size })
}

/// Parses `.scope`.
pub fn scope(alloc: Global, tokens: &[Token<'_>]) -> Result<Statement, AsmFault>
    ensures { RefinesParse result (IsDirective directive.Scope (lexemes tokens.now)) }
{
    if tokens.is_empty() {
        return Ok(Statement::OpenScope(None));
    }
    let name = Identifier::copy_of(alloc, name_of(tokens)?)?;
    Ok(Statement::OpenScope(Some(name)))
}

/// Parses `.proc`.
pub fn proc(alloc: Global, tokens: &[Token<'_>]) -> Result<Statement, AsmFault>
    ensures { RefinesParse result (IsDirective directive.Proc (lexemes tokens.now)) }
{
    let name = Identifier::copy_of(alloc, name_of(tokens)?)?;
    Ok(Statement::OpenProc(name))
}
