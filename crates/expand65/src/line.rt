//! Lines stored as tokens.

ghost use Rattle.std.specs.Prelude.{◌≡◌, ◌≤◌, ◌++◌, [], false, length, slice_get, option_map, take, IsTrue, IfErr, IfOk, IfSome, List, OnOk, Result};
ghost use Rattle.base65.specs.Relations.{RefinesRel};
ghost use Rattle.syntax65.specs.Tokens.{IsRead, Lexeme, lexeme_of, lexemes};
ghost use Rattle.syntax65.specs.declared.lexing.tokens.LexFault.{LexFault};
ghost use Rattle.syntax65.specs.Faults.{is_failure, is_system_error};
ghost use Rattle.expand65.specs.LineStart.{first_directive, label_len};
ghost use Rattle.expand65.specs.Replay.{rest_after_token, split_lexemes, text_of, tokens_in, SplitsLabel, IsColonIn, IsPlain};
ghost use Rattle.expand65.specs.Lines.{file_line_tokens};

use crate::line_start::{Directive, directive_in, is_mislabelled, label_len};
use base65::ListVec;
use std::alloc::{AllocError, Global};
use syntax65::{ExpandFault, Lexer, Punctuation, Token, TokenKind};

/// A stored token: its kind, the number of blanks before it, and its length in bytes.
#[derive(Clone, Copy)]
pub struct StoredToken {
    pub kind: TokenKind,
    pub blanks: u32,
    pub len: u32,
}

/// A line as tokens, with its bytes up to the end of the last token.
#[derive(Drop)]
pub struct StoredLine {
    pub spans: ListVec<StoredToken>,
    pub bytes: ListVec<u8>,
}

impl StoredToken {
    /// Returns a token of length `len` after `blanks` blanks.
    #[inline(always)]
    fn new(kind: TokenKind, blanks: usize, len: usize) -> Result<StoredToken, AllocError>
        ensures { IfOk result (λ w. (w.kind ≡ kind) × (w.blanks ≡ blanks) × (w.len ≡ len)) }
    {
        let (Ok(blanks), Ok(len)) = (u32::try_from(blanks), u32::try_from(len)) else {
            return Err(AllocError);
        };
        Ok(StoredToken { kind, blanks, len })
    }

    /// Splits the token off the start of the bytes. Returns it and the rest.
    #[inline(always)]
    fn token<'a>(&self, bytes: &'a [u8]) -> (Token<'a>, &'a [u8])
        ensures token { lexeme_of result.0 ≡ text_of self.now bytes.now }
        ensures following { result.1.now ≡ rest_after_token self.now bytes.now }
    {
        let (_, here) = bytes.split_at((self.blanks as usize).min(bytes.len()));
        let (text, following) = here.split_at((self.len as usize).min(here.len()));
        let kind = self.kind;
        (Token { kind, text }, following)
    }
}

impl StoredLine {
    /// Returns a line of these tokens.
    #[inline(always)]
    pub fn copy_of(alloc: Global, tokens: &[Token<'_>]) -> Result<StoredLine, AllocError>
        ensures { IfOk result (λ line. tokens_in line ≡ lexemes tokens.now) }
    {
        let mut spans = Vec::with_capacity(alloc, tokens.len())?;
        // A token has some four bytes.
        let mut bytes = Vec::with_capacity(alloc, tokens.len().saturating_mul(4))?;
        for token in tokens {
            spans.push(StoredToken::new(token.kind, 0, token.text.len())?)?;
            bytes.extend_from_slice(token.text)?;
        }
        Ok(StoredLine {
            spans: ListVec::from_vec(spans),
            bytes: ListVec::from_vec(bytes),
        })
    }

    /// Splits a line of a file into tokens.
    #[inline(always)]
    pub fn read(alloc: Global, bytes: &[u8]) -> Result<StoredLine, ExpandFault>
        ensures tokens { RefinesRel is_system_error tokens_in result
            (λ r. (q : Result (List Lexeme) LexFault) × IsRead bytes.now q ×
            (r ≡ file_line_tokens q)) }
        ensures no_failure { IfErr result (λ e. is_failure e ≡ false) }
    {
        // This capacity suffices for most lines. Lines of macros are kept, so it isn't larger.
        let mut spans = Vec::with_capacity(alloc, (bytes.len() / 2 + 1).min(8))?;
        let len = read_spans(bytes, &mut spans)?;
        let (pending, _) = bytes.split_at(len);
        let kept = Vec::from_slice(alloc, pending)?;
        Ok(StoredLine {
            spans: ListVec::from_vec(spans),
            bytes: ListVec::from_vec(kept),
        })
    }

    /// Appends the line's tokens.
    pub fn append_to<'a>(&'a self, tokens: &mut Vec<Token<'a>>) -> Result<(), AllocError>
        ensures { OnOk result (lexemes tokens.new.items ≡
            lexemes tokens.old.items ++ tokens_in self.now) }
    {
        let mut rest = self.bytes.as_slice();
        for span in self.spans.as_slice() {
            let (token, following) = span.token(rest);
            tokens.push(token)?;
            rest = following;
        }
        Ok(())
    }

    /// Stores the line's tokens at the start of `buffer`, if they fit. Returns their number.
    #[inline(always)]
    pub fn store_tokens<'a>(&'a self, buffer: &mut [Token<'a>]) -> Option<usize>
        ensures within { IfSome result (λ n. n ≤ length buffer.new) }
        ensures tokens { IfSome result (λ n. lexemes (take n buffer.new) ≡ tokens_in self.now) }
    {
        if self.spans.len() > buffer.len() {
            return None;
        }
        let mut count = 0;
        let mut left = self.bytes.as_slice();
        for span in self.spans.as_slice() {
            let (token, following) = span.token(left);
            buffer[count] = token;
            count += 1;
            left = following;
        }
        Some(count)
    }

    /// Returns the first token.
    pub fn first(&self) -> Option<Token<'_>>
        ensures { option_map lexeme_of result ≡ slice_get (tokens_in self.now) 0 }
    {
        let span = self.spans.as_slice().first()?;
        let (token, _) = span.token(self.bytes.as_slice());
        Some(token)
    }

    /// Returns the preprocessor directive at the start.
    pub fn directive(&self) -> Option<Directive>
        ensures { result ≡ first_directive (tokens_in self.now) }
    {
        let span = self.spans.as_slice().first()?;
        // Most lines begin with no directive, so their bytes aren't read.
        if !matches!(span.kind, TokenKind::Directive) {
            return None;
        }
        let (token, _) = span.token(self.bytes.as_slice());
        directive_in(&token)
    }

    /// Returns whether the token at an index is a colon.
    fn is_colon_at(&self, at: usize) -> bool
        ensures { IsColonIn (slice_get self.now.spans at) result }
    {
        match self.spans.as_slice().get(at) {
            Some(span) => matches!(span.kind, TokenKind::Symbol(Punctuation::Colon)),
            None => false,
        }
    }

    /// Returns whether neither of the first two tokens is a colon, so that the line has no label.
    fn is_unlabelled(&self) -> bool
        ensures { IsTrue result → label_len (tokens_in self.now) ≡ 0 }
    {
        let first = self.is_colon_at(0);
        if first {
            return false;
        }
        let second = self.is_colon_at(1);
        !second
    }

    /// Returns whether the line has no label and no preprocessor directive.
    pub fn is_plain(&self) -> bool
        ensures { IsTrue result → IsPlain (tokens_in self.now) }
    {
        self.is_unlabelled() && self.directive().is_none()
    }

    /// Splits the line into its label and the rest, if it has a label.
    pub fn split_label(
        &self,
        alloc: Global,
    ) -> Result<Option<(StoredLine, StoredLine)>, ExpandFault>
        ensures parts { SplitsLabel (tokens_in self.now) result }
        ensures no_failure { IfErr result (λ e. is_failure e ≡ false) }
    {
        if self.is_unlabelled() {
            return Ok(None);
        }
        let tokens = self.tokens(alloc)?;
        let tokens = tokens.as_slice();
        let len = label_len(tokens);
        if len == 0 {
            return Ok(None);
        }
        if is_mislabelled(tokens) {
            return Err(ExpandFault::NotUnderstood);
        }
        let (label, rest) = tokens.split_at(len);
        let label = StoredLine::copy_of(alloc, label)?;
        let rest = StoredLine::copy_of(alloc, rest)?;
        Ok(Some((label, rest)))
    }

    /// Returns the line's tokens.
    pub fn tokens(&self, alloc: Global) -> Result<Vec<Token<'_>>, AllocError>
        ensures { IfOk result (λ tokens. lexemes tokens.items ≡ tokens_in self.now) }
    {
        let mut tokens = Vec::with_capacity(alloc, self.spans.len())?;
        self.append_to(&mut tokens)?;
        Ok(tokens)
    }
}

/// Reads the tokens of a line of a file. Returns the offset of the last one's end.
#[inline(always)]
fn read_spans(bytes: &[u8], spans: &mut Vec<StoredToken>) -> Result<usize, ExpandFault>
    requires { spans.old.items ≡ [] }
    ensures tokens { RefinesRel is_system_error (λ n.
        split_lexemes spans.new.items (take n bytes.now)) result
        (λ r. (q : Result (List Lexeme) LexFault) × IsRead bytes.now q × (r ≡ file_line_tokens q)) }
    ensures within { IfOk result (λ n. n ≤ length bytes.now) }
    ensures no_failure { IfErr result (λ e. is_failure e ≡ false) }
{
    let mut lexer = Lexer::new(bytes)?;
    'tokens: loop {
        let left = lexer.rest.len();
        match lexer.next()? {
            Some(token) => {
                let len = token.text.len();
                let blanks = left - lexer.rest.len() - len;
                // A line has at most 4,096 bytes, so both fit.
                spans.push(StoredToken {
                    kind: token.kind,
                    blanks: blanks as u32,
                    len: len as u32,
                })?;
            }
            None => return Ok(bytes.len() - left),
        }
    }
}
