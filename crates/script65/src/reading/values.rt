//! Evaluates tokens as values of attributes, and sums.

ghost use Rattle.std.specs.Prelude.{◌≡◌, ◌≤◌, IfOk, is_some, not, unwrap_or};
ghost use Rattle.std.specs.List.{list_any};
ghost use Rattle.script65.specs.declared.reading.entries.ParsedTerm.{ParsedTerm};
ghost use Rattle.script65.specs.AreaSums.{sum_of};
ghost use Rattle.script65.specs.Entries.{in_range, last_term_offset, parsed_term, sum_of_terms, value_of};

use crate::fault::Fault;
use crate::reading::entries::{ParsedTerm, Value};
use crate::reading::keyword_tables::{ValueKind, find_keyword, keywords};
use crate::reading::tokens::{Bytes, Lexeme};
use crate::sums::difference;

// Returns a number if it is in the range from `low` to `high`.
fn in_range(low: u32, high: u32, number: Option<u32>) -> Result<u32, Fault>
    ensures value { result ≡ in_range low high number }
    ensures high { IfOk result (λ n. n ≤ high) }
{
    match number {
        Some(n) if low <= n && n <= high => Ok(n),
        _ => Err(Fault::OutOfRange),
    }
}

/// Returns the value of a token for an attribute of this kind, which isn't a sum.
pub fn value_of<'a>(value_kind: ValueKind, lexeme: Lexeme<'a>) -> Result<Value<'a>, Fault>
    ensures { result ≡ value_of value_kind lexeme.entry }
{
    match (value_kind, lexeme) {
        (ValueKind::Number(low, high), Lexeme::Number(n)) => {
            Ok(Value::Number(in_range(low, high, n)?))
        }
        (ValueKind::Byte, Lexeme::Number(n)) => Ok(Value::Byte(in_range(0, 255, n)? as u8)),
        (ValueKind::Area, Lexeme::Identifier(identifier)) => Ok(Value::Area(identifier)),
        (ValueKind::File, Lexeme::StringLiteral(text)) => Ok(Value::File(text)),
        (ValueKind::File, Lexeme::Output) => Ok(Value::Output),
        (ValueKind::OneOf(keyword_set), Lexeme::Identifier(identifier)) => match find_keyword(
            keywords(keyword_set),
            identifier.as_slice(),
        ) {
            Some((_, keyword_value)) => Ok(Value::Keyword(keyword_value)),
            None => Err(Fault::SyntaxError),
        },
        _ => Err(Fault::SyntaxError),
    }
}

/// Returns a token as a term of a sum.
pub fn term_of<'a>(minus: bool, at: usize, lexeme: Lexeme<'a>) -> Result<ParsedTerm<'a>, Fault>
    ensures { result ≡ parsed_term minus at lexeme.entry }
{
    let (number, name) = match lexeme {
        Lexeme::Number(n) => (Some(in_range(0, u32::MAX, n)?), Bytes::of(b"")),
        Lexeme::Identifier(identifier) => (None, identifier),
        _ => return Err(Fault::SyntaxError),
    };
    Ok(ParsedTerm {
        minus,
        number,
        name,
        at,
    })
}

fn has_name(parsed_terms: &[ParsedTerm]) -> bool
    ensures { result ≡ list_any (λ (p : ParsedTerm). not (is_some p.number)) parsed_terms.now }
{
    parsed_terms.iter().any(|p| p.number.is_none())
}

// Returns the sum of terms if all of them are numbers.
fn number_of(parsed_terms: &[ParsedTerm]) -> Option<u32>
    ensures { result ≡ sum_of (λ (p : ParsedTerm). p.minus)
        (λ (p : ParsedTerm). unwrap_or p.number 0) parsed_terms.now }
{
    let mut added = 0u128;
    let mut subtracted = 0u128;
    for part in parsed_terms {
        let number = u128::from(part.number.unwrap_or(0));
        if part.minus {
            subtracted += number;
        } else {
            added += number;
        }
    }
    difference(added, subtracted)
}

/// Returns the value of a sum if it is in range. The value is unknown if a term is a name.
pub fn sum_of_terms(parsed_terms: &[ParsedTerm]) -> Option<Value<'static>>
    ensures { result ≡ sum_of_terms parsed_terms.now }
{
    if has_name(parsed_terms) {
        return Some(Value::Sum);
    }
    match number_of(parsed_terms) {
        Some(number) => Some(Value::Number(number)),
        None => None,
    }
}

/// Returns the offset of the last term of a sum.
pub fn last_term_offset(parsed_terms: &[ParsedTerm]) -> usize
    ensures { result ≡ last_term_offset parsed_terms.now }
{
    parsed_terms.last().map_or(0, |part| part.at)
}
