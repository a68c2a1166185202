//! Skips lines of files, or reads them without copying.

ghost use Rattle.std.specs.Prelude.{◌≡◌, ◌<◌, ◌≤◌, ◌-◌, List, IfSome, IsTrue, false, Ok, Some};
ghost use Rattle.syntax65.specs.Tokens.{AreFirstTokens, Lexeme, lexeme_of, HasNoTokens, stored_lexemes};
ghost use Rattle.base65.specs.Store.{Files};
ghost use Rattle.std.specs.Option.{option_map, option_map_or};
ghost use Rattle.expand65.specs.LineStart.{is_colon};
ghost use Rattle.expand65.specs.Representation.{PreservesInnermost, is_call, is_file, remaining_in, remaining_of, IsSourceAt, IsStackPositioned};
ghost use Rattle.syntax65.specs.declared.source_location.SourceLocation.{SourceLocation};
ghost use Rattle.expand65.specs.Lines.{IsFileAt, location_at, remaining_file_lines, without_return, ReadsNextLine};
ghost use Rattle.expand65.specs.Replay.{IsPlainLine, SkipsPlainLine, SkipsPlainLines, IsPlain, IsBufferedLine, IsFirstLine, IsFirstBufferedLine, IsNextLine, ReadsFileLine};

use crate::file::{OpenFile, line_len};
use crate::input::LineSource;
use crate::input_stack::InputStack;
use crate::line_start::{directive_in, is_colon};
use std::alloc::Global;
use syntax65::{FirstTokens, LineTokens, Token, first_tokens};

/// Returns whether a token exists and is a colon.
fn is_colon_token(token: Option<Token<'_>>) -> bool
    ensures { result ≡ option_map_or is_colon (option_map lexeme_of token.entry) false }
{
    matches!(token, Some(token) if is_colon(&token))
}

/// Returns whether a line that begins with these tokens has no label and no preprocessor directive.
fn is_plain_start(pending: FirstTokens<'_>) -> bool
    ensures { (ts : List Lexeme) → AreFirstTokens ts pending.entry → IsTrue result → IsPlain ts }
{
    if is_colon_token(pending.first) || is_colon_token(pending.second) {
        return false;
    }
    match pending.first {
        Some(first) => directive_in(&first).is_none(),
        None => true,
    }
}

/// Returns whether a line has valid tokens, but no label and no preprocessor directive.
fn is_plain_line(line: &[u8]) -> bool
    ensures { IsTrue result → IsPlainLine line.now }
{
    match first_tokens(line) {
        Ok(pending) => is_plain_start(pending),
        Err(_) => false,
    }
}

/// Removes the CR at the end of a line.
pub fn trimmed(line: &[u8]) -> &[u8]
    ensures { result.now ≡ without_return line.now }
{
    if line.last() == Some(&b'\r') {
        let (pending, _) = line.split_at(line.len() - 1);
        return pending;
    }
    line
}

/// Returns the length of the first line, if its end is there and it is plain.
fn plain_len(bytes: &[u8]) -> Option<usize>
    ensures { IfSome result (λ n. (ts : List Lexeme) × IsFirstLine bytes.now n ts × IsPlain ts) }
{
    let len = line_len(bytes);
    if len >= bytes.len() {
        return None;
    }
    let (line, _) = bytes.split_at(len);
    is_plain_line(trimmed(line)).then_some(len)
}

/// A buffered line: where the next one begins, and its number.
#[derive(Clone, Copy)]
pub struct Peeked {
    pub following: usize,
    pub number: u32,
}

/// Splits the first line into tokens, if its end is there. Returns its length.
#[inline(always)]
fn peek<'a>(alloc: Global, bytes: &'a [u8], tokens: &mut LineTokens<'a>) -> Option<usize>
    requires { HasNoTokens tokens.old }
    ensures front { IfSome result (λ n. IsFirstLine bytes.now n (stored_lexemes tokens.new)) }
    ensures within { tokens.new.few.count ≤ 8 }
{
    let len = line_len(bytes);
    if len >= bytes.len() {
        return None;
    }
    let (pending, _) = bytes.split_at(len);
    match tokens.read(alloc, trimmed(pending)) {
        Ok(()) => Some(len),
        Err(_) => None,
    }
}

impl OpenFile {
    /// Returns the next line if it is buffered whole and plain.
    fn peek_plain(&self) -> Option<Peeked>
        ensures { IfSome result (λ p. (ts : List Lexeme) ×
            IsFirstBufferedLine self.now p ts × IsPlain ts) }
    {
        if self.at >= self.buffer.len() {
            return None;
        }
        let number = self.line.checked_add(1)?;
        let (_, rest) = self.buffer.split_at(self.at);
        let following = self.at + plain_len(rest)? + 1;
        Some(Peeked { following, number })
    }

    /// Returns the next line and its tokens, if it is buffered whole.
    #[inline(always)]
    fn peek<'a>(&'a self, alloc: Global, tokens: &mut LineTokens<'a>) -> Option<Peeked>
        requires { HasNoTokens tokens.old }
        ensures lookahead { IfSome result (λ p.
            IsFirstBufferedLine self.now p (stored_lexemes tokens.new)) }
        ensures within { tokens.new.few.count ≤ 8 }
    {
        if self.at >= self.buffer.len() {
            return None;
        }
        let number = self.line.checked_add(1)?;
        let (_, rest) = self.buffer.split_at(self.at);
        let following = self.at + peek(alloc, rest, tokens)? + 1;
        Some(Peeked { following, number })
    }

    /// Reads the line that `peek` returned.
    #[inline(always)]
    fn consume_peeked(&mut self, line: Peeked)
        ensures next_line { (m : Files) (ts : List Lexeme) → IsFirstBufferedLine self.old line ts →
            ReadsFileLine (remaining_file_lines m self.old) line.number ts
            (remaining_file_lines m self.new) }
        ensures at { (m : Files) (ts : List Lexeme) (p : SourceLocation) →
            IsFirstBufferedLine self.old line ts →
            IsFileAt m self.old p → IsFileAt m self.new (location_at p line.number) }
    {
        self.at = line.following;
        self.line = line.number;
    }
}

impl LineSource {
    /// Returns the next line if it comes from a file, is buffered whole and is plain.
    fn peek_plain(&self) -> Option<Peeked>
        ensures { IfSome result (λ p. (ts : List Lexeme) ×
            IsBufferedLine self.now p ts × IsPlain ts) }
    {
        match self {
            LineSource::File(file) => file.peek_plain(),
            LineSource::Call(_) | LineSource::Repeat(_, _, _) => None,
        }
    }

    /// Returns the next line and its tokens, if it comes from a file and is buffered whole.
    #[inline(always)]
    fn peek<'a>(&'a self, alloc: Global, tokens: &mut LineTokens<'a>) -> Option<Peeked>
        requires { HasNoTokens tokens.old }
        ensures lookahead { IfSome result (λ p.
            IsBufferedLine self.now p (stored_lexemes tokens.new)) }
        ensures within { tokens.new.few.count ≤ 8 }
    {
        match self {
            LineSource::File(file) => file.peek(alloc, tokens),
            LineSource::Call(_) | LineSource::Repeat(_, _, _) => None,
        }
    }

    /// Reads the line that `peek` returned.
    #[inline(always)]
    fn consume_peeked(&mut self, line: Peeked)
        ensures next_line { (m : Files) (ts : List Lexeme) → IsBufferedLine self.old line ts →
            ReadsFileLine (remaining_in m self.old) line.number ts (remaining_in m self.new) }
        ensures at { (m : Files) (ts : List Lexeme) (p : SourceLocation) →
            IsBufferedLine self.old line ts →
            IsSourceAt m self.old p → IsSourceAt m self.new (location_at p line.number) }
        ensures kind { is_file self.new ≡ is_file self.old }
        ensures call { is_call self.new ≡ is_call self.old }
    {
        if let LineSource::File(file) = self {
            file.consume_peeked(line);
        }
    }
}

impl InputStack {
    /// Returns the next line and its tokens, if it comes from a file, is buffered whole and is
    /// within the line budget.
    #[inline(always)]
    pub fn peek<'a>(&'a self, alloc: Global, tokens: &mut LineTokens<'a>) -> Option<Peeked>
        requires { HasNoTokens tokens.old }
        ensures lookahead { IfSome result (λ p. IsNextLine self.now p (stored_lexemes tokens.new)) }
        ensures within { tokens.new.few.count ≤ 8 }
    {
        if self.budget == 0 {
            return None;
        }
        self.top.source.peek(alloc, tokens)
    }

    /// Reads the line that `peek` returned.
    #[inline(always)]
    pub fn consume_peeked(&mut self, line: Peeked)
        ensures next_line { (m : Files) (ts : List Lexeme) → IsNextLine self.old line ts →
            ReadsNextLine (remaining_of m self.old) (Ok (Some ts, remaining_of m self.new)) }
        ensures current_location { self.new.location ≡ location_at self.old.location line.number }
        ensures remaining_budget { self.new.budget ≡ self.old.budget - 1 }
        ensures innermost { PreservesInnermost self.old self.new }
        ensures stack_position { (m : Files) (ts : List Lexeme) → IsNextLine self.old line ts →
            IsStackPositioned m self.old → IsStackPositioned m self.new }
    {
        self.top.source.consume_peeked(line);
        self.budget = self.budget.saturating_sub(1);
        self.location.line = line.number;
    }

    /// Skips the next line if it comes from a file, is buffered whole and is plain. Returns whether
    /// it did.
    fn skip_plain_line(&mut self) -> bool
        ensures skipped { (m : Files) → IsTrue result →
            SkipsPlainLine (remaining_of m self.old) (remaining_of m self.new) }
        ensures budget { IsTrue result → self.new.budget < self.old.budget }
        ensures innermost { PreservesInnermost self.old self.new }
        ensures none { result ≡ false → self.new ≡ self.old }
        ensures stack_position { (m : Files) → IsStackPositioned m self.old → IsStackPositioned m self.new }
    {
        if self.budget == 0 {
            return false;
        }
        let Some(line) = self.top.source.peek_plain() else {
            return false;
        };
        self.consume_peeked(line);
        true
    }

    /// Skips plain lines of a file, as far as they are buffered.
    pub fn skip_plain_lines(&mut self)
        ensures skipped { (m : Files) →
            SkipsPlainLines (remaining_of m self.old) (remaining_of m self.new) }
        ensures remaining_budget { self.new.budget ≤ self.old.budget }
        ensures innermost { PreservesInnermost self.old self.new }
        ensures stack_position { (m : Files) → IsStackPositioned m self.old → IsStackPositioned m self.new }
    {
        'lines: loop {
            if !self.skip_plain_line() {
                return;
            }
        }
    }
}
