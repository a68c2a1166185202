//! Parses the constants that a command line defines.

ghost use Rattle.std.specs.Prelude.{◌≡◌, ◌==◌, ◌<◌, length, IfSome, map};
ghost use Rattle.std.specs.List.{list_all, position};
ghost use Rattle.syntax65.specs.Forms.{is_identifier_byte};
ghost use Rattle.base65.specs.Outcome.{Refines, try_map};
ghost use Rattle.cli65.specs.Defining.{has_identifier_start, define_of, define_view, is_constant_name, checked_name};
ghost use Rattle.cli65.specs.LineFaults.{is_system_error};

use crate::fault::LineFault;
use crate::line::Define;
use crate::numbers::number_in;
use base65::ListVec;
use std::alloc::Global;
use syntax65::{MAX_NAME, is_reserved};

/// Parses definitions of constants, in order. Returns the first
/// error.
pub fn defines<'a>(alloc: Global, texts: &[&'a str]) -> Result<ListVec<Define<'a>>, LineFault>
    ensures { Refines is_system_error (λ ds. map define_view ds) result
        (try_map define_of (map (λ t. t.now) texts.now)) }
{
    let mut done = ListVec::new(alloc);
    for text in texts {
        let one = define(text)?;
        done.push(one)?;
    }
    Ok(done)
}

/// Parses `NAME[=NUMBER]`. Without a number, the value is 0.
#[tactic(auto, unfolding(crate::specs::Defining::define_of))]
fn define<'a>(text: &'a str) -> Result<Define<'a>, LineFault>
    ensures { Refines is_system_error define_view result (define_of text.entry.now) }
{
    let bytes = text.as_bytes();
    match equal_sign_offset(bytes) {
        None => {
            check_name(bytes)?;
            Ok(Define {
                name: bytes,
                value: 0,
            })
        }
        Some(offset) => {
            let name = bytes.split_at(offset).0;
            check_name(name)?;
            match number_in(bytes.split_at(offset + 1).1) {
                Some(value) => Ok(Define { name, value }),
                None => Err(LineFault::BadArguments),
            }
        }
    }
}

/// Returns the offset of the first `=`.
fn equal_sign_offset(bytes: &[u8]) -> Option<usize>
    ensures offset { result ≡ position (λ b. b == 61) bytes.now }
    ensures bound { IfSome result (λ i. i < length bytes.now) }
{
    bytes.iter().position(|b| *b == b'=')
}

/// Rejects a text that isn't the name of a constant.
fn check_name(name: &[u8]) -> Result<(), LineFault>
    ensures { Refines is_system_error (λ _. name.now) result (checked_name name.now) }
{
    if !is_constant_name(name) {
        return Err(LineFault::BadArguments);
    }
    Ok(())
}

/// Returns whether the bytes are an identifier of at most
/// `MAX_NAME` bytes that isn't reserved.
#[tactic(auto, unfolding(crate::specs::Defining::is_constant_name))]
fn is_constant_name(name: &[u8]) -> bool
    ensures { result ≡ is_constant_name name.now }
{
    has_identifier_start(name)
        && are_identifier_bytes(name)
        && name.len() <= MAX_NAME
        && !is_reserved(name)
}

/// Returns whether the first byte is a letter or `_`.
fn has_identifier_start(name: &[u8]) -> bool
    ensures { result ≡ has_identifier_start name.now }
{
    match name.first() {
        Some(b) => is_identifier_byte(*b) && !b.is_ascii_digit(),
        None => false,
    }
}

fn are_identifier_bytes(name: &[u8]) -> bool
    ensures { result ≡ list_all is_identifier_byte name.now }
{
    name.iter().all(|b| is_identifier_byte(*b))
}

/// Returns whether the byte is a letter, a digit or `_`.
fn is_identifier_byte(b: u8) -> bool
    ensures { result ≡ is_identifier_byte b }
{
    matches!(b, b'a'..=b'z' | b'A'..=b'Z' | b'_' | b'0'..=b'9')
}
