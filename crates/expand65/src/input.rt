//! Sources of lines: files, macro calls and repeats.

ghost use Rattle.std.specs.Prelude.{◌≡◌, ◌↔◌, ◌<◌, ◌+◌, drop, length, true, false, [], ◌∷◌, Ok, IsTrue, IfErr, IfOk, IfSome, OnOk, Result};
ghost use Rattle.std.specs.List.{prefix_len};
ghost use Rattle.base65.specs.Store.{Files};
ghost use Rattle.syntax65.specs.Faults.{is_failure, is_system_error};
ghost use Rattle.expand65.specs.Representation.{HasNextLine, IsFile, IsReady, ReadsStoredLine, is_call, is_file, remaining_in, location_after_next, next_location, remaining_iterations, IsSourceAt, IsLineOf};
ghost use Rattle.expand65.specs.Replay.{tokens_in, remaining_replay, substitution_of};
ghost use Rattle.syntax65.specs.declared.source_location.SourceLocation.{SourceLocation};
ghost use Rattle.expand65.specs.Lines.{is_within_line, remaining_file_lines, location_at, IsFileAt, IsReadingAt, ReadFrame, number_token};

use crate::file::{OpenFile, line_len};
use crate::line::StoredLine;
use crate::macro_replay::Replay;
use crate::skipping::trimmed;
use base65::{ListVec, Store};
use std::alloc::{AllocError, Global};
use syntax65::{ExpandFault, Token, TokenKind};

/// A source of lines.
#[derive(Drop)]
pub enum LineSource {
    File(OpenFile),
    Call(Replay),
    /// A body, with the number of the next iteration and the number of all iterations.
    Repeat(Replay, u32, u32),
}

/// The kind of line that comes next.
#[derive(Clone, Copy)]
pub enum NextLine {
    AtEnd,
    /// A line of a file, with its number.
    Numbered(u32),
    /// A line of a body.
    Replayed,
}

impl NextLine {
    /// Returns whether no line comes next.
    pub fn is_end(self) -> bool
        ensures { IsTrue result ↔ (self ≡ NextLine.AtEnd) }
    {
        matches!(self, NextLine::AtEnd)
    }
}

/// Returns a number as a line of one token.
pub fn number_line(alloc: Global, number: u32) -> Result<StoredLine, AllocError>
    ensures { IfOk result (λ line. tokens_in line ≡ number_token number ∷ []) }
{
    let text = format!(in alloc; "{number}")?;
    let token = Token {
        kind: TokenKind::Number(number),
        text: text.as_bytes(),
    };
    StoredLine::copy_of(alloc, &[token])
}

impl OpenFile {
    /// Returns the number of the file's next line, if it has one.
    fn begin_line<S: Store>(&mut self, store: &mut S) -> Result<NextLine, ExpandFault>
        ensures next_item { IfSome (S.files store.old) (λ m.
            IfOk result (λ n. HasNextLine (remaining_file_lines m self.new) n)) }
        ensures same { IfSome (S.files store.old) (λ m.
            OnOk result (remaining_file_lines m self.new ≡ remaining_file_lines m self.old)) }
        ensures more { IfOk result (λ n. (n ≡ NextLine.AtEnd →
            ⊥) → self.new.at < length self.new.buffer.items) }
        ensures system_errors { IfErr result (λ e. is_system_error e ≡ true) }
        ensures location_after { (p : SourceLocation) → p.line ≡ self.old.line → IfOk result (λ n.
            (n ≡ NextLine.AtEnd → ⊥) → location_after_next n p ≡ location_at p (p.line + 1)) }
        ensures line { self.new.line ≡ self.old.line }
        ensures at { IfSome (S.files store.old) (λ m. (p : SourceLocation) → IsFileAt m self.old p →
            OnOk result (IsFileAt m self.new p)) }
        ensures last_failure { IfSome (S.files store.old) (λ m. (p : SourceLocation) →
            IsFileAt m self.old p →
            IfErr result (λ e. is_failure e ≡ true → IsReadingAt m (S.last_failure store.new) p)) }
        ensures frame { ReadFrame S.files S.failures store.old store.new result }
    {
        if !self.has_more(store)? {
            return Ok(NextLine::AtEnd);
        }
        match self.line.checked_add(1) {
            Some(number) => Ok(NextLine::Numbered(number)),
            None => Err(ExpandFault::OutOfMemory),
        }
    }

    /// Reads the next line, which is the first `len` buffered bytes.
    #[inline(always)]
    fn read_buffered_line(&mut self, alloc: Global, len: usize) -> Result<StoredLine, ExpandFault>
        requires end { len ≡ prefix_len is_within_line (drop self.old.at self.old.buffer.items) }
        requires within { len < length (drop self.old.at self.old.buffer.items) }
        ensures next_line { (m : Files) →
            ReadsStoredLine (remaining_file_lines m self.old) result
            (remaining_file_lines m self.new) }
        ensures at { (m : Files) (p : SourceLocation) → IsFileAt m self.old p →
            OnOk result (IsFileAt m self.new (location_at p (p.line + 1))) }
        ensures no_failure { IfErr result (λ e. is_failure e ≡ false) }
    {
        let (_, rest) = self.buffer.split_at(self.at);
        let (bytes, _) = rest.split_at(len);
        let line = StoredLine::read(alloc, trimmed(bytes))?;
        let Some(number) = self.line.checked_add(1) else {
            return Err(ExpandFault::OutOfMemory);
        };
        self.line = number;
        self.at += len + 1;
        Ok(line)
    }

    /// Reads the next line, whose start is buffered.
    fn read_stored_line<S: Store>(
        &mut self,
        alloc: Global,
        store: &mut S,
    ) -> Result<StoredLine, ExpandFault>
        requires { self.old.at < length self.old.buffer.items }
        ensures next_line { IfSome (S.files store.old) (λ m.
            ReadsStoredLine (remaining_file_lines m self.old) result
            (remaining_file_lines m self.new)) }
        ensures at { IfSome (S.files store.old) (λ m. (p : SourceLocation) → IsFileAt m self.old p →
            OnOk result (IsFileAt m self.new (location_at p (p.line + 1)))) }
        ensures last_failure { IfSome (S.files store.old) (λ m. (p : SourceLocation) →
            IsFileAt m self.old p →
            IfErr result (λ e. is_failure e ≡ true → IsReadingAt m (S.last_failure store.new)
            (location_at p (p.line + 1)))) }
        ensures frame { ReadFrame S.files S.failures store.old store.new result }
    {
        let (_, rest) = self.buffer.split_at(self.at);
        let len = line_len(rest);
        if len < rest.len() {
            return self.read_buffered_line(alloc, len);
        }
        let bytes = self.next_line(alloc, store)?;
        let line = StoredLine::read(alloc, bytes.as_slice())?;
        self.spare = bytes.into_vec();
        let Some(number) = self.line.checked_add(1) else {
            return Err(ExpandFault::OutOfMemory);
        };
        self.line = number;
        Ok(line)
    }
}

impl Replay {
    /// Returns whether the body has another line.
    fn has_line(&self) -> bool
        ensures more { IsTrue result → self.now.at < length self.now.body.value.lines }
        ensures none { result ≡ false → remaining_replay self.now ≡ [] }
    {
        self.at < self.body.lines.len()
    }

    /// Returns the kind of the body's next line.
    fn next_line(&self) -> NextLine
        ensures next_item { HasNextLine (remaining_replay self.now) result }
        ensures ready { (result ≡ NextLine.AtEnd → ⊥) →
            self.now.at < length self.now.body.value.lines }
        ensures replayed { (result ≡ NextLine.AtEnd → ⊥) → result ≡ NextLine.Replayed }
    {
        if self.has_line() {
            NextLine::Replayed
        } else {
            NextLine::AtEnd
        }
    }

    /// Reads the next line.
    fn read_stored_line(&mut self, alloc: Global) -> Result<StoredLine, ExpandFault>
        requires { self.old.at < length self.old.body.value.lines }
        ensures next_line { ReadsStoredLine (remaining_replay self.old) result
            (remaining_replay self.new) }
        ensures body { self.new.body ≡ self.old.body }
        ensures same { substitution_of self.new ≡ substitution_of self.old }
        ensures no_failure { IfErr result (λ e. is_failure e ≡ false) }
    {
        let line = self.substitute_tokens(alloc, &self.body.lines.as_slice()[self.at])?;
        self.at += 1;
        Ok(line)
    }
}

/// Begins the next iteration of a repeat if the current one has ended. Returns whether a line
/// remains.
fn begin_iteration(
    alloc: Global,
    replay: &mut Replay,
    next: &mut u32,
    count: u32,
) -> Result<NextLine, ExpandFault>
    ensures same { OnOk result (remaining_iterations replay.new next.new count ≡
        remaining_iterations replay.old next.old count) }
    ensures next_item { IfOk result (λ n.
        HasNextLine (remaining_iterations replay.new next.new count) n) }
    ensures ready { IfOk result (λ n. (n ≡ NextLine.AtEnd →
        ⊥) → replay.new.at < length replay.new.body.value.lines) }
    ensures replayed { IfOk result (λ n. (n ≡ NextLine.AtEnd → ⊥) → n ≡ NextLine.Replayed) }
    ensures no_failure { IfErr result (λ e. is_failure e ≡ false) }
    ensures system_errors { IfErr result (λ e. is_system_error e ≡ true) }
{
    if replay.has_line() {
        return Ok(NextLine::Replayed);
    }
    if replay.body.lines.len() == 0 {
        return Ok(NextLine::AtEnd);
    }
    if *next >= count {
        return Ok(NextLine::AtEnd);
    }
    let number = number_line(alloc, *next)?;
    let mut arguments = ListVec::new(alloc);
    arguments.push(number)?;
    replay.arguments = arguments;
    replay.at = 0;
    *next += 1;
    Ok(NextLine::Replayed)
}

impl LineSource {
    /// Returns whether it is a macro call.
    pub fn is_call(&self) -> bool
        ensures { result ≡ is_call self.now }
    {
        matches!(self, LineSource::Call(_))
    }

    /// Returns the kind of the next line, and buffers its start.
    pub fn begin_line<S: Store>(
        &mut self,
        alloc: Global,
        store: &mut S,
    ) -> Result<NextLine, ExpandFault>
        ensures next_item { IfSome (S.files store.old) (λ m.
            IfOk result (λ n. HasNextLine (remaining_in m self.new) n)) }
        ensures same { IfSome (S.files store.old) (λ m.
            OnOk result (remaining_in m self.new ≡ remaining_in m self.old)) }
        ensures ready { IfOk result (λ n. (n ≡ NextLine.AtEnd → ⊥) → IsReady self.new) }
        ensures call { is_call self.new ≡ is_call self.old }
        ensures file { IfErr result (λ e. is_failure e ≡ true → IsFile self.old) }
        ensures system_errors { IfErr result (λ e. is_system_error e ≡ true) }
        ensures kind { is_file self.new ≡ is_file self.old }
        ensures location_after { (p : SourceLocation) → IsLineOf self.old p → IfOk result (λ n.
            (n ≡ NextLine.AtEnd → ⊥) → location_after_next n p ≡ next_location self.new p) }
        ensures at { IfSome (S.files store.old) (λ m. (p : SourceLocation) →
            IsSourceAt m self.old p →
            OnOk result (IsSourceAt m self.new p)) }
        ensures last_failure { IfSome (S.files store.old) (λ m. (p : SourceLocation) →
            IsSourceAt m self.old p →
            IfErr result (λ e. is_failure e ≡ true → IsReadingAt m (S.last_failure store.new) p)) }
        ensures frame { ReadFrame S.files S.failures store.old store.new result }
    {
        match self {
            LineSource::File(file) => file.begin_line(store),
            LineSource::Call(replay) => Ok(replay.next_line()),
            LineSource::Repeat(replay, next, count) => begin_iteration(alloc, replay, next, *count),
        }
    }

    /// Reads the next line.
    pub fn read_stored_line<S: Store>(
        &mut self,
        alloc: Global,
        store: &mut S,
    ) -> Result<StoredLine, ExpandFault>
        requires { IsReady self.old }
        ensures next_line { IfSome (S.files store.old) (λ m.
            ReadsStoredLine (remaining_in m self.old) result (remaining_in m self.new)) }
        ensures call { is_call self.new ≡ is_call self.old }
        ensures file { IfErr result (λ e. is_failure e ≡ true → IsFile self.old) }
        ensures kind { is_file self.new ≡ is_file self.old }
        ensures at { IfSome (S.files store.old) (λ m. (p : SourceLocation) →
            IsSourceAt m self.old p →
            OnOk result (IsSourceAt m self.new (next_location self.old p))) }
        ensures last_failure { IfSome (S.files store.old) (λ m. (p : SourceLocation) →
            IsSourceAt m self.old p →
            IfErr result (λ e. is_failure e ≡ true → IsReadingAt m (S.last_failure store.new)
            (next_location self.old p))) }
        ensures frame { ReadFrame S.files S.failures store.old store.new result }
    {
        match self {
            LineSource::File(file) => file.read_stored_line(alloc, store),
            LineSource::Call(replay) => replay.read_stored_line(alloc),
            LineSource::Repeat(replay, _, _) => replay.read_stored_line(alloc),
        }
    }
}
