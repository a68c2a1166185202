//! Splits lines into tokens: a whole line, one token at a time, or the first two tokens only.

ghost use Rattle.std.specs.Prelude.{◌≡◌, ◌≤◌, ◌↔◌, ◌++◌, ◌∷◌, [], IsTrue, ◌<◌, IfOk, IfSome, MatchResult, length, List, true, Ok, Err};
ghost use Rattle.syntax65.specs.declared.lexing.tokens.LexFault.TheVariants.{LineTooLong};
ghost use Rattle.syntax65.specs.Faults.{is_lex_system_error};
ghost use Rattle.base65.specs.Relations.{RefinesRel};
ghost use Rattle.syntax65.specs.Tokens.{ReadsRest, without_leading_blanks, lexeme_of, lexemes, IsEnd, IsRead, IsTokenSplit, IsNextToken, Lexeme, AreFirstTokens, HasNoTokens, stored_lexemes};

use super::positions::{blank_len, token_at};
use super::tokens::{LexFault, Token, TokenKind};
use std::alloc::{AllocError, Global};

/// The maximum length of a line in bytes.
pub const MAX_LINE: usize = 4096;

/// The number of tokens up to which a line needs no allocation. Most lines have fewer.
const FEW_TOKENS: usize = 8;

/// Storage for a few tokens, and how many it contains.
#[derive(Drop)]
pub struct FewTokens<'a> {
    pub tokens: [Token<'a>; FEW_TOKENS],
    pub count: usize,
}

/// The tokens of a line. A few are stored inline, more of them on the heap.
#[derive(Drop)]
pub struct LineTokens<'a> {
    pub few: FewTokens<'a>,
    pub many: Option<Vec<Token<'a>>>,
}

impl<'a> LineTokens<'a> {
    /// Returns an empty list of tokens.
    #[inline(always)]
    pub fn new() -> Self
        ensures { HasNoTokens result }
    {
        let blank = Token {
            kind: TokenKind::Identifier,
            text: b"",
        };
        LineTokens {
            few: FewTokens {
                tokens: [blank; FEW_TOKENS],
                count: 0,
            },
            many: None,
        }
    }

    #[inline(always)]
    pub fn as_slice(&self) -> &[Token<'a>]
        requires { self.now.few.count ≤ 8 }
        ensures { lexemes result.now ≡ stored_lexemes self.now }
    {
        match &self.many {
            Some(many) => many.as_slice(),
            None => &self.few.tokens[..self.few.count],
        }
    }

    /// Replaces the tokens by those of a line.
    ///
    /// # Errors
    ///
    /// Those of `line_tokens`.
    #[inline(always)]
    pub fn read(&mut self, alloc: Global, line: &'a [u8]) -> Result<(), LexFault>
        requires { HasNoTokens self.old }
        ensures tokens { RefinesRel is_lex_system_error (λ _. stored_lexemes self.new) result
            (IsRead line.now) }
        ensures within { self.new.few.count ≤ 8 }
    {
        let mut lexer = Lexer::new(line)?;
        'line: loop {
            match lexer.next()? {
                Some(token) => {
                    if self.few.count >= FEW_TOKENS {
                        let few = self.few.tokens;
                        self.many = Some(read_many(alloc, few, token, lexer)?);
                        return Ok(());
                    }
                    self.few.tokens[self.few.count] = token;
                    self.few.count += 1;
                }
                None => return Ok(()),
            }
        }
    }
}

/// Collects the few tokens, one more token, and the tokens of the rest of the line.
#[inline(never)]
fn read_many<'a>(
    alloc: Global,
    few: [Token<'a>; FEW_TOKENS],
    token: Token<'a>,
    lexer: Lexer<'a>,
) -> Result<Vec<Token<'a>>, LexFault>
    ensures { ReadsRest lexer.entry (lexemes few.entry ++ lexeme_of token.entry ∷ [])
        result (λ many. lexemes many.items) }
{
    let mut many = Vec::with_capacity(alloc, lexer.rest.len() / 2 + 10)?;
    many.extend_from_slice(&few)?;
    many.push(token)?;
    read_rest(lexer, &mut many)?;
    Ok(many)
}

/// Appends the tokens of the rest of a line.
#[inline(always)]
fn read_rest<'a>(mut lexer: Lexer<'a>, tokens: &mut Vec<Token<'a>>) -> Result<(), LexFault>
    ensures { ReadsRest lexer.entry (lexemes tokens.old.items) result
        (λ _. lexemes tokens.new.items) }
{
    'line: loop {
        match lexer.next()? {
            Some(token) => tokens.push(token)?,
            None => return Ok(()),
        }
    }
}

/// Splits a line into tokens that borrow from it.
///
/// # Errors
///
/// `LineTooLong`, or the error at the first byte that begins no token.
pub fn line_tokens(alloc: Global, line: &[u8]) -> Result<Vec<Token<'_>>, LexFault>
    ensures { RefinesRel is_lex_system_error (λ tokens. lexemes tokens.items) result
        (IsRead line.now) }
{
    let lexer = Lexer::new(line)?;
    // A token and its separator take at least two bytes, except in lists of punctuation.
    let mut tokens = Vec::with_capacity(alloc, line.len() / 2 + 1)?;
    read_rest(lexer, &mut tokens)?;
    Ok(tokens)
}

/// Returns the bytes after leading blanks.
pub fn skip_blanks(line: &[u8]) -> &[u8]
    ensures { result.now ≡ without_leading_blanks line.now }
{
    let (_, here) = line.split_at(blank_len(line));
    here
}

/// Returns whether the line ends here or a comment begins.
pub fn is_end(here: &[u8]) -> bool
    ensures { IsTrue result ↔ IsEnd here.now }
{
    match here.first() {
        None => true,
        Some(first) => *first == b';',
    }
}

/// The rest of a line that is split token by token.
#[derive(Clone, Copy)]
pub struct Lexer<'a> {
    pub rest: &'a [u8],
    /// Whether no token has been read.
    pub first: bool,
}

impl<'a> Lexer<'a> {
    /// Begins with a line.
    ///
    /// # Errors
    ///
    /// `LineTooLong`.
    pub fn new(line: &'a [u8]) -> Result<Self, LexFault>
        ensures { MatchResult result
            (λ lexer. (length line.now ≤ 4096) × (lexer.rest.now ≡ line.now) × (lexer.first ≡ true))
            (λ fault. (fault ≡ LineTooLong) × (4096 < length line.now)) }
    {
        if line.len() > MAX_LINE {
            return Err(LexFault::LineTooLong);
        }
        Ok(Lexer {
            rest: line,
            first: true,
        })
    }

    /// Returns the next token, or `None` at the end of the line.
    ///
    /// # Errors
    ///
    /// The error at a byte that begins no token.
    #[inline(always)]
    pub fn next(&mut self) -> Result<Option<Token<'a>>, LexFault>
        ensures next { IsNextToken self.old.first self.old.rest.now result self.new.first
            self.new.rest.now }
        ensures cut { IfOk result (λ t.
            IfSome t (λ t. IsTokenSplit self.old.rest.now t.text.now self.new.rest.now)) }
        ensures less { IfOk result (λ t.
            IfSome t (λ _. length self.new.rest.now < length self.old.rest.now)) }
    {
        let here = skip_blanks(self.rest);
        if is_end(here) {
            return Ok(None);
        }
        let (kind, len) = token_at(self.first, here)?;
        let (text, following) = here.split_at(len);
        self.first = false;
        self.rest = following;
        Ok(Some(Token { kind, text }))
    }
}

/// The first two tokens of a line, if it has them.
#[derive(Clone, Copy)]
pub struct FirstTokens<'a> {
    pub first: Option<Token<'a>>,
    pub second: Option<Token<'a>>,
}

impl<'a> FirstTokens<'a> {
    /// Adds the next token of the line.
    fn add(&mut self, token: Token<'a>)
        ensures { (ts : List Lexeme) → AreFirstTokens ts self.old →
            AreFirstTokens (ts ++ lexeme_of token.entry ∷ []) self.new }
    {
        if self.first.is_none() {
            self.first = Some(token);
        } else if self.second.is_none() {
            self.second = Some(token);
        }
    }
}

/// Returns the first two tokens of a line. Reads the whole line, as `line_tokens` does, but stores
/// no other token.
///
/// # Errors
///
/// `LineTooLong`, or the error at the first byte that begins no token.
pub fn first_tokens(line: &[u8]) -> Result<FirstTokens<'_>, LexFault>
    ensures { MatchResult result
        (λ found. (ts : List Lexeme) × IsRead line.now (Ok ts) × AreFirstTokens ts found)
        (λ fault. IsRead line.now (Err fault)) }
{
    let mut lexer = Lexer::new(line)?;
    let mut found = FirstTokens {
        first: None,
        second: None,
    };
    'line: loop {
        match lexer.next()? {
            Some(token) => found.add(token),
            None => return Ok(found),
        }
    }
}
