//! Reads the entries of a script token by token, by a state that decides which tokens may come
//! next.

ghost use Rattle.std.specs.Prelude.{◌≡◌, false};
ghost use Rattle.script65.specs.Tokens.{identifier};
ghost use Rattle.base65.specs.Outcome.{RefinesProp};
ghost use Rattle.script65.specs.SyntaxErrors.{add_term, attribute_or_end, attribute_value, comma_or_next, entry_name, token_move, sign_or_end};
ghost use Rattle.script65.specs.Entries.{has_name};
ghost use Rattle.script65.specs.Faults.{is_system_error};
ghost use Rattle.script65.specs.Scripts.{HasEntries};
ghost use Rattle.script65.specs.Internal.Reading.{RefinesMoveOrEnd, RefinesMove, IsFresh};
ghost use Rattle.script65.specs.Entries.{Entries};

use crate::fault::{Fault, FaultAt};
use crate::reading::entries::{AttributeValue, ConfigEntry, Entries, ParsedTerm};
use crate::reading::keyword_tables::{BLOCKS, Block, ValueKind, attributes, find_keyword};
use crate::reading::tokens::{Bytes, Lexeme, token_at};
use crate::reading::values::{last_term_offset, sum_of_terms, term_of, value_of};
use base65::ListVec;
use std::alloc::Global;

/// The state of the reader, with the entry that isn't closed yet.
#[derive(Drop)]
pub enum ParseState<'a> {
    BetweenBlocks,
    AfterBlockKeyword(Block),
    BetweenEntries(Block),
    AfterName(Block, ConfigEntry<'a>),
    BetweenAttributes(Block, ConfigEntry<'a>),
    /// After the name of an attribute, with the kind of its value.
    AfterKeyword(Block, ConfigEntry<'a>, (Bytes<'a>, ValueKind)),
    /// After its `=`.
    BeforeValue(Block, ConfigEntry<'a>, (Bytes<'a>, ValueKind)),
    /// Before a term of an attribute's sum; true if the term has a `-`.
    BeforeTerm(Block, ConfigEntry<'a>, Bytes<'a>, ListVec<ParsedTerm<'a>>, bool),
    AfterTerm(Block, ConfigEntry<'a>, Bytes<'a>, ListVec<ParsedTerm<'a>>),
    AfterValue(Block, ConfigEntry<'a>),
}

// Reads the name of an attribute, or the `;` of the entry.
fn attribute_or_end<'a>(
    entries: &mut Entries<'a>,
    block: Block,
    entry: ConfigEntry<'a>,
    lexeme: Lexeme<'a>,
    at: usize,
) -> Result<ParseState<'a>, FaultAt>
    requires { has_name entry.name block entries.old ≡ false }
    ensures { RefinesMove entries.new result
        (attribute_or_end entries.old block entry.entry lexeme.entry at) }
{
    match lexeme {
        Lexeme::Identifier(identifier) => match find_keyword(
            attributes(block),
            identifier.as_slice(),
        ) {
            None => Err(FaultAt::new(Fault::UnknownAttribute, at)),
            Some((identifier, _)) if entry.has_attribute(identifier) => Err(FaultAt::new(
                Fault::AttributeTwice,
                at,
            )),
            Some((identifier, value_kind)) => {
                let identifier = Bytes::of(identifier.as_bytes());
                Ok(ParseState::AfterKeyword(block, entry, (identifier, value_kind)))
            }
        },
        Lexeme::Semicolon => match entry.entry_fault(block) {
            Some(fault) => Err(FaultAt::new(fault, at)),
            None => {
                entries.push(block, entry)?;
                Ok(ParseState::BetweenEntries(block))
            }
        },
        _ => Err(FaultAt::new(Fault::SyntaxError, at)),
    }
}

// Reads the `,` after a value, or an attribute.
fn comma_or_next<'a>(
    entries: &mut Entries<'a>,
    block: Block,
    entry: ConfigEntry<'a>,
    lexeme: Lexeme<'a>,
    at: usize,
) -> Result<ParseState<'a>, FaultAt>
    requires { has_name entry.name block entries.old ≡ false }
    ensures { RefinesMove entries.new result
        (comma_or_next entries.old block entry.entry lexeme.entry at) }
{
    match lexeme {
        Lexeme::Comma => Ok(ParseState::BetweenAttributes(block, entry)),
        lexeme => attribute_or_end(entries, block, entry, lexeme, at),
    }
}

// Adds a term to a sum that has others.
fn add_term<'a>(
    block: Block,
    entry: ConfigEntry<'a>,
    identifier: Bytes<'a>,
    mut parsed_terms: ListVec<ParsedTerm<'a>>,
    part: Result<ParsedTerm<'a>, Fault>,
    at: usize,
) -> Result<ParseState<'a>, FaultAt>
    ensures { (es : Entries) →
        RefinesMove es result
        (add_term es block entry.entry identifier.entry parsed_terms.entry at part.entry) }
{
    match part {
        Ok(part) => {
            parsed_terms.push(part)?;
            Ok(ParseState::AfterTerm(block, entry, identifier, parsed_terms))
        }
        Err(fault) => Err(FaultAt::new(fault, at)),
    }
}

// Reads the value of an attribute, or the first term of its sum.
fn attribute_value<'a>(
    alloc: Global,
    block: Block,
    mut entry: ConfigEntry<'a>,
    row: (Bytes<'a>, ValueKind),
    lexeme: Lexeme<'a>,
    at: usize,
) -> Result<ParseState<'a>, FaultAt>
    ensures { (es : Entries) →
        RefinesMove es result
        (attribute_value es block entry.entry row.entry.0 row.entry.1 lexeme.entry at) }
{
    let (identifier, value_kind) = row;
    let parsed_terms = ListVec::new(alloc);
    if let ValueKind::Sum = value_kind {
        return add_term(
            block,
            entry,
            identifier,
            parsed_terms,
            term_of(false, at, lexeme),
            at,
        );
    }
    match value_of(value_kind, lexeme) {
        Ok(value) => {
            entry.assignments.push(AttributeValue {
                identifier,
                value,
                parsed_terms,
            })?;
            Ok(ParseState::AfterValue(block, entry))
        }
        Err(fault) => Err(FaultAt::new(fault, at)),
    }
}

// Reads `+` or `-`, or ends the sum.
fn sign_or_end<'a>(
    entries: &mut Entries<'a>,
    block: Block,
    mut entry: ConfigEntry<'a>,
    sum: (Bytes<'a>, ListVec<ParsedTerm<'a>>),
    lexeme: Lexeme<'a>,
    at: usize,
) -> Result<ParseState<'a>, FaultAt>
    requires { has_name entry.name block entries.old ≡ false }
    ensures { RefinesMove entries.new result
        (sign_or_end entries.old block entry.entry sum.entry.0 sum.entry.1 lexeme.entry at) }
{
    let (identifier, parsed_terms) = sum;
    match lexeme {
        Lexeme::Plus => Ok(ParseState::BeforeTerm(block, entry, identifier, parsed_terms, false)),
        Lexeme::Minus => Ok(ParseState::BeforeTerm(block, entry, identifier, parsed_terms, true)),
        lexeme => match sum_of_terms(parsed_terms.as_slice()) {
            Some(value) => {
                entry.assignments.push(AttributeValue {
                    identifier,
                    value,
                    parsed_terms,
                })?;
                comma_or_next(entries, block, entry, lexeme, at)
            }
            None => Err(FaultAt::new(Fault::OutOfRange, last_term_offset(parsed_terms.as_slice()))),
        },
    }
}

// Begins an entry. Its name must be new in blocks of this kind.
fn entry_name<'a>(
    alloc: Global,
    entries: &Entries<'a>,
    block: Block,
    name: Bytes<'a>,
    at: usize,
) -> Result<ParseState<'a>, FaultAt>
    ensures { RefinesMove entries.now result
        (entry_name entries.now block (identifier name.entry) at) }
{
    if entries.has(block, name.as_slice()) {
        return Err(FaultAt::new(Fault::NameTwice, at));
    }
    let assignments = ListVec::new(alloc);
    Ok(ParseState::AfterName(
        block,
        ConfigEntry {
            name,
            at,
            assignments,
        },
    ))
}

// Returns the state after a token, or `None` if the script ends.
fn step<'a>(
    alloc: Global,
    entries: &mut Entries<'a>,
    state: ParseState<'a>,
    lexeme: Lexeme<'a>,
    at: usize,
) -> Result<Option<ParseState<'a>>, FaultAt>
    requires { IsFresh entries.old state }
    ensures { RefinesMoveOrEnd entries.new result
        (token_move entries.old state.entry lexeme.entry at) }
{
    let next = match state {
        ParseState::BetweenBlocks => match lexeme {
            Lexeme::Identifier(identifier) => match find_keyword(&BLOCKS, identifier.as_slice()) {
                Some((_, block)) => ParseState::AfterBlockKeyword(block),
                None => return Err(FaultAt::new(Fault::SyntaxError, at)),
            },
            Lexeme::End => return Ok(None),
            _ => return Err(FaultAt::new(Fault::SyntaxError, at)),
        },
        ParseState::AfterBlockKeyword(block) => match lexeme {
            Lexeme::Open => ParseState::BetweenEntries(block),
            _ => return Err(FaultAt::new(Fault::SyntaxError, at)),
        },
        ParseState::BetweenEntries(block) => match lexeme {
            Lexeme::Identifier(name) => entry_name(alloc, entries, block, name, at)?,
            Lexeme::Close => ParseState::BetweenBlocks,
            _ => return Err(FaultAt::new(Fault::SyntaxError, at)),
        },
        ParseState::AfterName(block, entry) => match lexeme {
            Lexeme::Colon => ParseState::BetweenAttributes(block, entry),
            _ => return Err(FaultAt::new(Fault::SyntaxError, at)),
        },
        ParseState::BetweenAttributes(block, entry) => {
            attribute_or_end(entries, block, entry, lexeme, at)?
        }
        ParseState::AfterKeyword(block, entry, row) => match lexeme {
            Lexeme::Equals => ParseState::BeforeValue(block, entry, row),
            lexeme => attribute_value(alloc, block, entry, row, lexeme, at)?,
        },
        ParseState::BeforeValue(block, entry, row) => {
            attribute_value(alloc, block, entry, row, lexeme, at)?
        }
        ParseState::BeforeTerm(block, entry, identifier, parsed_terms, minus) => {
            add_term(
                block,
                entry,
                identifier,
                parsed_terms,
                term_of(minus, at, lexeme),
                at,
            )?
        }
        ParseState::AfterTerm(block, entry, identifier, parsed_terms) => {
            sign_or_end(
                entries,
                block,
                entry,
                (identifier, parsed_terms),
                lexeme,
                at,
            )?
        }
        ParseState::AfterValue(block, entry) => comma_or_next(entries, block, entry, lexeme, at)?,
    };
    Ok(Some(next))
}

/// Reads the entries of a text, or returns the first error of its tokens. Names in sums and
/// areas of rows are checked later.
pub fn read_entries(alloc: Global, bytes: &[u8]) -> Result<Entries<'_>, FaultAt>
    ensures { RefinesProp is_system_error (HasEntries bytes.now) result }
{
    let mut entries = Entries::new(alloc);
    if bytes.len() > 1_048_576 {
        return Err(FaultAt::new(Fault::TooLong, 0));
    }
    let mut state = ParseState::BetweenBlocks;
    let mut at = 0;
    'tokens: loop {
        let token = token_at(bytes, at);
        let Some(next) = step(alloc, &mut entries, state, token.lexeme, token.at)? else {
            return Ok(entries);
        };
        state = next;
        at = token.following;
    }
}
