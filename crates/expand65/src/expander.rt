//! Returns the statements of a source one by one.

ghost use Rattle.std.specs.Prelude.{◌≡◌, ◌≤◌, IfSome, length, ◌<◌, ◌+◌, ◌*◌, true, false, take, drop, Err, IfOk, IsErrOf, List, OnErr, OnOk, ℕ};
ghost use Rattle.syntax65.specs.Tokens.{lexemes, Lexeme, HasNoTokens, stored_lexemes};
ghost use Rattle.expand65.specs.Failures.{NeedsNoExpansion, YieldsStatements, IsPeekedLine, line_statements, HasFailureBetweenStatements, HasFailureWhileReading};
ghost use Rattle.expand65.specs.Representation.{RefinesNext, RefinesNextStatement, IsPositioned, RepresentsFirstState, RepresentsState, is_end, step_of, measure_of, location_of, state_in, RefinesLineOutcome, size_of, state_of, outcome_of_line, weight_of, IsStackPositioned, IsStackPositionedIfKnown, remaining_of, end_mark_of};
ghost use Rattle.base65.specs.Store.{FailsAtLastCount, Files, FailedAt, PropagatesIoError};
ghost use Rattle.syntax65.specs.Faults.{is_system_error};
ghost use Rattle.expand65.specs.Expansion.{initial_input, first_state_in, IsStep};
ghost use Rattle.expand65.specs.State.{State};
ghost use Rattle.expand65.specs.Lines.{ReadFrame, location_at, bytes_of};

use crate::conditions::Conditions;
use crate::file::OpenFile;
use crate::includes::file_exists;
use crate::input::LineSource;
use crate::input_stack::{Input, InputStack};
use crate::knows::Knows;
use crate::line::StoredLine;
use crate::line_start::{ConditionKind, first_directive, label_len};
use crate::preprocessor::{LineOutcome, Preprocessor};
use crate::skipping::Peeked;
use base65::{ListVec, PathString, Store};
use indexmap::IndexMap;
use std::alloc::{AllocError, Global};
use std::mem;
use syntax65::{ExpandFault, LineTokens, SourceLocation, Token};

/// The maximum number of lines that are read, skipped, collected and replayed, all together.
const MAX_LINES: u32 = 1_048_576;

/// Options of the preprocessor.
#[derive(Drop)]
pub struct Options {
    /// The folders in which an included file is searched, after the folder of the including file.
    pub include: ListVec<PathString>,
}

/// A statement of a source.
#[derive(Drop)]
pub enum Statement {
    /// A label with its colon. The rest of its line is the next statement.
    Label(StoredLine),
    /// Any other statement. It has no label.
    Plain(StoredLine),
}

/// What the expander reads before the next line.
#[derive(Drop)]
pub enum PendingLine {
    Nothing,
    /// The rest of a line, after its label.
    Rest(StoredLine),
    /// The rest of an `.elseif` line whose condition is evaluated next.
    Branch(StoredLine),
    /// The end, even if lines remain.
    End,
}

impl PendingLine {
    fn is_end(&self) -> bool
        ensures { result ≡ is_end self.now }
    {
        matches!(self, PendingLine::End)
    }
}

/// The state of the expansion of a source.
#[derive(Drop)]
pub struct Expander {
    pub processor: Preprocessor,
    pub pending: PendingLine,
    pub failed: bool,
}

impl Expander {
    /// Opens a source, whose lines are then expanded: macros, repeats, conditions and included
    /// files.
    ///
    /// # Errors
    /// The source doesn't exist or has more than 16,777,216 bytes; a failure of the store; out of
    /// memory.
    pub fn open<S: Store>(
        alloc: Global,
        store: &mut S,
        file: &str,
        options: &Options,
    ) -> Result<Expander, ExpandFault>
        ensures opened { IfSome (S.files store.old) (λ m.
            RepresentsFirstState m result (first_state_in m file.now options.now.include)) }
        ensures files { S.files store.new ≡ S.files store.old }
        ensures size { IfOk result (λ e. measure_of e ≤ 3145729) }
        ensures count { PropagatesIoError ExpandFault.FileError (S.failures store.old)
            (S.failures store.new) result }
        ensures last_failure { IsErrOf result ExpandFault.FileError →
            FailedAt (S.last_failure store.new) file.now 16777216 }
        ensures at_last_count { FailsAtLastCount is_system_error (S.failures store.old) result }
        ensures positioned { IfSome (S.files store.old) (λ m. IfOk result (IsPositioned m)) }
    {
        if !file_exists(store, file)? {
            return Err(ExpandFault::FileNotFound);
        }
        let folders = copy_of(alloc, options.include.as_slice())?;
        let stack = initial_input_stack(alloc, file)?;
        Ok(Expander {
            processor: Preprocessor {
                alloc,
                stack,
                macros: IndexMap::with_hasher(alloc, store.seed()),
                conditions: Conditions::new(alloc),
                expansions: 0,
                folders,
            },
            pending: PendingLine::Nothing,
            failed: false,
        })
    }

    /// Returns the next statement, or `None` at the end. After an error every call returns
    /// `FailedBefore`.
    ///
    /// # Errors
    /// The first error up to the next statement, at the location that `place` then returns; a
    /// failure of the store; out of memory.
    pub fn next<S: Store, K: Knows>(
        &mut self,
        store: &mut S,
        knows: &K,
    ) -> Result<Option<Statement>, ExpandFault>
        ensures next { IfSome (S.files store.old) (λ m.
            RefinesNextStatement m (K.meaning knows.now) self.old result self.new) }
        ensures positioned { IfSome (S.files store.old) (λ m.
            IsPositioned m self.old → OnOk result (IsPositioned m self.new)) }
        // If the store fails, the location is that of the line read last.
        ensures stopped { IfSome (S.files store.old) (λ m.
            HasFailureBetweenStatements m (S.last_failure store.new)
            (K.meaning knows.now) self.old result self.new) }
        ensures failed { OnErr result (self.new.failed ≡ true) }
        ensures before { self.old.failed ≡ true → result ≡ Err ExpandFault.FailedBefore }
        // Expansion terminates.
        ensures size { IfOk result (λ o.
            IfSome o (λ _. measure_of self.new < measure_of self.old)) }
        ensures files { S.files store.new ≡ S.files store.old }
        ensures count { PropagatesIoError ExpandFault.FileError (S.failures store.old)
            (S.failures store.new) result }
    {
        if self.failed {
            return Err(ExpandFault::FailedBefore);
        }
        let result = self.advance(store, knows);
        self.failed = result.is_err();
        if matches!(result, Err(ExpandFault::FileError)) {
            self.processor.stack.restore_location_if_unread();
        }
        result
    }

    /// Returns the next line and its tokens, if it comes from a file and is buffered whole.
    #[inline(always)]
    pub fn peek<'a>(&'a self, tokens: &mut LineTokens<'a>) -> Option<Peeked>
        requires { HasNoTokens tokens.old }
        ensures lookahead { IfSome result (λ p.
            IsPeekedLine self.now p (stored_lexemes tokens.new)) }
        ensures within { tokens.new.few.count ≤ 8 }
    {
        if self.failed || !matches!(self.pending, PendingLine::Nothing) {
            return None;
        }
        self.processor.stack.peek(self.processor.alloc, tokens)
    }

    /// Returns the number of tokens of the label of a line that needs no expansion (0 if it has
    /// none). The rest is then empty or a statement. Returns `None` if the rest begins with a
    /// preprocessor directive or calls a macro.
    #[inline(always)]
    pub fn unexpanded_label_len(&self, tokens: &[Token<'_>]) -> Option<usize>
        ensures statements { IfSome result (λ n.
            NeedsNoExpansion n self.now.processor (lexemes tokens.now)) }
        ensures within { IfSome result (λ n. n ≤ length tokens.now) }
    {
        let len = label_len(tokens);
        let (_, rest) = tokens.split_at(len);
        if first_directive(rest).is_some() {
            return None;
        }
        match rest.split_first() {
            Some((first, _)) if self.processor.is_macro(first) => None,
            _ => Some(len),
        }
    }

    /// Reads the line that `peek` returned.
    #[inline(always)]
    pub fn consume_peeked(&mut self, line: Peeked)
        ensures statements { (n : ℕ) (ts : List Lexeme) → IsPeekedLine self.old line ts →
            NeedsNoExpansion n self.old.processor ts →
            YieldsStatements self.old (line_statements (take n ts) (drop n ts)) self.new }
        ensures current_location { location_of self.new ≡
            location_at (location_of self.old) line.number }
        ensures less { (ts : List Lexeme) → IsPeekedLine self.old line ts →
            measure_of self.new < measure_of self.old }
        ensures positioned { (m : Files) (ts : List Lexeme) → IsPeekedLine self.old line ts →
            IsPositioned m self.old → IsPositioned m self.new }
    {
        self.processor.stack.consume_peeked(line);
    }

    /// Returns the innermost open file and the number of its line read last, 0 before the first.
    /// After a statement this is the location of the statement, and after an error that of the
    /// error.
    pub fn place(&self) -> (&str, u32)
        ensures current_location { (result.0.now ≡ (location_of self.now).file) ×
            (result.1 ≡ (location_of self.now).line) }
        ensures stack_position { (m : Files) (s : State) →
            RepresentsState m self.now s → (result.0.now ≡ s.left.place.file) ×
            (result.1 ≡ s.left.place.line) }
    {
        let location = &self.processor.stack.location;
        (location.file.as_str(), location.line)
    }

    /// Returns the same location, with the file's name as it is and no copy of it.
    pub fn into_place(self) -> SourceLocation
        ensures { result ≡ location_of self }
    {
        let processor = self.processor;
        let stack = processor.stack;
        stack.location
    }

    /// Expands up to the next statement or the end.
    #[inline(always)]
    fn advance<S: Store, K: Knows>(
        &mut self,
        store: &mut S,
        knows: &K,
    ) -> Result<Option<Statement>, ExpandFault>
        ensures next_item { IfSome (S.files store.old) (λ m.
            RefinesNext m (K.meaning knows.now) (state_in m self.old) result
            (state_in m self.new)) }
        ensures stack_position { IsStackPositionedIfKnown (S.files store.old) self.old.processor.stack →
            OnOk result (IsStackPositionedIfKnown (S.files store.old) self.new.processor.stack) }
        ensures stopped { IsStackPositionedIfKnown (S.files store.old) self.old.processor.stack →
            IfSome (S.files store.old) (λ m.
            HasFailureWhileReading m (S.last_failure store.new) (K.meaning knows.now)
            (state_in m self.old) result
            (end_mark_of self.new.processor.stack.top) (location_of self.new)) }
        ensures size { IfOk result (λ o.
            IfSome o (λ _. measure_of self.new < measure_of self.old)) }
        ensures frame { ReadFrame S.files S.failures store.old store.new result }
    {
        'steps: loop {
            if self.pending.is_end() {
                return Ok(None);
            }
            let line_outcome = self.line_outcome(store, knows)?;
            if let Some(statement) = self.apply_outcome(line_outcome) {
                return Ok(Some(statement));
            }
        }
    }

    /// Processes the pending line or the next one.
    #[inline(always)]
    fn line_outcome<S: Store, K: Knows>(
        &mut self,
        store: &mut S,
        knows: &K,
    ) -> Result<LineOutcome, ExpandFault>
        requires { is_end self.old.pending ≡ false }
        ensures outcome { IfSome (S.files store.old) (λ m.
            RefinesLineOutcome result (state_of m self.new.processor)
            (IsStep m (K.meaning knows.now) (state_in m self.old))) }
        ensures stack_position { IsStackPositionedIfKnown (S.files store.old) self.old.processor.stack →
            OnOk result (IsStackPositionedIfKnown (S.files store.old) self.new.processor.stack) }
        ensures stopped { IsStackPositionedIfKnown (S.files store.old) self.old.processor.stack →
            IfSome (S.files store.old) (λ m.
            HasFailureWhileReading m (S.last_failure store.new) (K.meaning knows.now)
            (state_in m self.old) result
            (end_mark_of self.new.processor.stack.top) (location_of self.new)) }
        ensures size { IfOk result (λ t. size_of self.new.processor + weight_of t <
            measure_of self.old) }
        ensures front { OnErr result (self.new.pending ≡ PendingLine.Nothing) }
        ensures frame { ReadFrame S.files S.failures store.old store.new result }
    {
        match mem::replace(&mut self.pending, PendingLine::Nothing) {
            PendingLine::Nothing => self.processor.execute_next(store, knows),
            PendingLine::Rest(line) => self.processor.execute_line(store, knows, line),
            PendingLine::Branch(line) => {
                let tokens = line.tokens(self.processor.alloc)?;
                self.processor
                    .begin_if(store, knows, ConditionKind::True, tokens.as_slice())
            }
            PendingLine::End => unreachable!(),
        }
    }

    /// Stores the pending line of an outcome. Returns its statement, if any.
    #[inline(always)]
    fn apply_outcome(&mut self, line_outcome: LineOutcome) -> Option<Statement>
        ensures pending { (m : Files) →
            outcome_of_line (state_of m self.old.processor) line_outcome ≡
            step_of (state_in m self.new) result }
        ensures processor { self.new.processor ≡ self.old.processor }
        ensures size { measure_of self.new ≡ size_of self.old.processor + weight_of line_outcome }
    {
        let (pending, statement) = match line_outcome {
            LineOutcome::Continue => (PendingLine::Nothing, None),
            LineOutcome::Yield(line) => (PendingLine::Nothing, Some(Statement::Plain(line))),
            LineOutcome::LabelAndRest(label, rest) => (
                PendingLine::Rest(rest),
                Some(Statement::Label(label)),
            ),
            LineOutcome::DecideElseIf(line) => (PendingLine::Branch(line), None),
            LineOutcome::EndOfInput => (PendingLine::End, None),
        };
        self.pending = pending;
        statement
    }
}

/// Returns the input stack before the first line of a source.
fn initial_input_stack(alloc: Global, file: &str) -> Result<InputStack, AllocError>
    ensures lines { IfOk result (λ r. (m : Files) →
        length (bytes_of m file.now) ≤ 16777216 → remaining_of m r ≡ initial_input file.now
        (bytes_of m file.now)) }
    ensures stack_position { (m : Files) → IfOk result (IsStackPositioned m) }
    ensures size { IfOk result (λ r. 3 * r.budget + length r.outer.items ≤ 3145728) }
{
    let top = Input {
        source: LineSource::File(OpenFile::new(alloc, PathString::copy_of(alloc, file)?)),
        conditions: 0,
        return_location: None,
    };
    let location = SourceLocation {
        file: PathString::copy_of(alloc, file)?,
        line: 0,
    };
    Ok(InputStack {
        top,
        outer: Vec::new(alloc),
        budget: MAX_LINES,
        location,
    })
}

/// Copies strings.
fn copy_of(alloc: Global, texts: &[PathString]) -> Result<ListVec<PathString>, AllocError>
    ensures { IfOk result (λ copy. copy ≡ texts.now) }
{
    let mut copy = ListVec::new(alloc);
    for text in texts {
        copy.push(PathString::copy_of(alloc, text.as_str())?)?;
    }
    Ok(copy)
}
