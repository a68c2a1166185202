//! Laws about the definitions. Each law is the contract of a function that does nothing.

ghost use Rattle.syntax65.specs.Laws.{ParseIsUnique, LexingIsUnique, NextTokenExists, ParseExists, LexingExists};

/// Lexing is deterministic: a line has at most one result, a list of tokens or an error.
pub fn lexing_is_unique()
    ensures { LexingIsUnique }
{}

/// Lexing is total: each line has tokens or a first error, never out of memory.
pub fn lexing_exists()
    ensures { LexingExists }
{}

/// The rest of a line has a next token, is at its end, or has an error there.
pub fn next_token_exists()
    ensures { NextTokenExists }
{}

/// Parsing is deterministic: tokens have at most one result, an expression with its number of
/// tokens or an error.
pub fn parse_is_unique()
    ensures { ParseIsUnique }
{}

/// Parsing is total: any tokens begin with an expression or have a first error, never out of
/// memory.
pub fn parse_exists()
    ensures { ParseExists }
{}
