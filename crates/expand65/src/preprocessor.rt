//! Executes the lines of a source: directives, macro calls and statements.

ghost use Rattle.std.specs.Prelude.{Option, ◌≡◌, ◌≤◌, ◌<◌, ◌+◌, [], true, false, length, IfErr, IfOk, IfSome, Ok, OnOk};
ghost use Rattle.base65.specs.Store.{Files};
ghost use Rattle.syntax65.specs.Tokens.{lexemes};
ghost use Rattle.expand65.specs.State.{else_line, endif_result, if_line, and_then_step, EnvironmentView};
ghost use Rattle.expand65.specs.Failures.{StepFails, StepFailsAt};
ghost use Rattle.syntax65.specs.Faults.{is_failure};
ghost use Rattle.expand65.specs.Representation.{IsStackPositionedIfKnown, remaining_in, remaining_of, PreservesPositions, HasLineOutcome, HasLineOutcomeForAllFiles, HasFailureLocationIfKnown, RefinesLineOutcome, size_of, has_no_operands, state_of, weight_of};
ghost use Rattle.expand65.specs.LineStart.{first_directive, is_mislabelled, string_of, ok_or_not_understood};
ghost use Rattle.expand65.specs.Expansion.{StepReaches, line_step, end_mark_step, unless_mislabelled, directive_step, include_file, file_step, IsStep, last_condition};
ghost use Rattle.expand65.specs.Replay.{tokens_in};
ghost use Rattle.expand65.specs.Lines.{bytes_of, ReadFrame};
ghost use Rattle.expand65.specs.Macros.{file_of};

use crate::blocks::{BlockEnd, BlockKind};
use crate::conditions::{Conditions, evaluate_condition};
use crate::file::OpenFile;
use crate::includes::find_file;
use crate::input::LineSource;
use crate::input_stack::{Input, InputStack};
use crate::knows::Knows;
use crate::line::StoredLine;
use crate::line_start::{ConditionKind, Directive, after_first, string_of};
use crate::macro_replay::Body;
use base65::{ListVec, PathString, Seed, Store};
use indexmap::IndexMap;
use std::alloc::Global;
use std::rc::Rc;
use syntax65::{ExpandFault, SourceLocation, Token};

/// The outcome of processing a line or the end of an input.
#[derive(Drop)]
pub enum LineOutcome {
    /// Continue with the next line.
    Continue,
    Yield(StoredLine),
    /// A label and the rest of its line.
    LabelAndRest(StoredLine, StoredLine),
    /// The rest of an `.elseif` line whose condition is evaluated next.
    DecideElseIf(StoredLine),
    /// No line remains.
    EndOfInput,
}

/// The state of the preprocessor: input stack, macros and open conditions.
#[derive(Drop)]
pub struct Preprocessor {
    pub alloc: Global,
    pub stack: InputStack,
    pub macros: IndexMap<Vec<u8>, Rc<Body>, Seed>,
    pub conditions: Conditions,
    /// The number of macro calls.
    pub expansions: u64,
    /// The folders in which included files are searched.
    pub folders: ListVec<PathString>,
}

impl Preprocessor {
    /// Executes an `.if`, `.ifdef` and the like, or an `.elseif` after a false condition.
    pub fn begin_if<S: Store, K: Knows>(
        &mut self,
        store: &mut S,
        knows: &K,
        test: ConditionKind,
        tokens: &[Token<'_>],
    ) -> Result<LineOutcome, ExpandFault>
        ensures outcome { HasLineOutcome (S.files store.old) self.old self.new result (λ m s.
            StepReaches m (if_line (K.meaning knows.now) s test (lexemes tokens.now))) }
        ensures keeps { PreservesPositions (S.files store.old) self.old self.new result }
        ensures frame { ReadFrame S.files S.failures store.old store.new result }
        ensures stopped { HasFailureLocationIfKnown
            (S.files store.old) self.old self.new result (λ m s.
            StepFails m (S.last_failure store.new)
            (if_line (K.meaning knows.now) s test (lexemes tokens.now))) }
    {
        if evaluate_condition(self.alloc, knows, test, tokens)? {
            self.conditions.push(false)?;
            return Ok(LineOutcome::Continue);
        }
        let skipped = self
            .stack
            .read_block(self.alloc, store, BlockKind::Skipped)?;
        let end = skipped.end;
        match end {
            BlockEnd::End => Ok(LineOutcome::Continue),
            BlockEnd::Else => {
                self.conditions.push(true)?;
                Ok(LineOutcome::Continue)
            }
            BlockEnd::ElseIf(line) => Ok(LineOutcome::DecideElseIf(line)),
        }
    }

    /// Executes the `.endif` of an open condition.
    pub fn end_if(&mut self) -> Result<LineOutcome, ExpandFault>
        ensures outcome { HasLineOutcomeForAllFiles self.old self.new result
            (λ s. endif_result s (last_condition s)) }
        ensures keeps { (files : Option Files) → PreservesPositions files self.old self.new result }
        ensures no_failure { IfErr result (λ e. is_failure e ≡ false) }
    {
        match self.conditions.pop_above(self.stack.top.conditions) {
            None => Err(ExpandFault::NotOpened),
            Some(_) => Ok(LineOutcome::Continue),
        }
    }

    /// Skips from an `.elseif` or `.else` after a true condition to its `.endif`.
    pub fn skip_remaining_branches<S: Store>(
        &mut self,
        store: &mut S,
    ) -> Result<LineOutcome, ExpandFault>
        ensures outcome { HasLineOutcome (S.files store.old) self.old self.new result (λ m s.
            StepReaches m (else_line s (last_condition s))) }
        ensures keeps { PreservesPositions (S.files store.old) self.old self.new result }
        ensures frame { ReadFrame S.files S.failures store.old store.new result }
        ensures stopped { HasFailureLocationIfKnown
            (S.files store.old) self.old self.new result (λ m s.
            StepFails m (S.last_failure store.new) (else_line s (last_condition s))) }
    {
        match self.conditions.pop_above(self.stack.top.conditions) {
            None => Err(ExpandFault::NotOpened),
            Some(true) => Err(ExpandFault::NotOpened),
            Some(false) => {
                self.stack
                    .read_block(self.alloc, store, BlockKind::RemainingBranches)?;
                Ok(LineOutcome::Continue)
            }
        }
    }

    /// Executes `.include`, given the rest of its line.
    fn include<S: Store>(
        &mut self,
        store: &mut S,
        tokens: &[Token<'_>],
    ) -> Result<LineOutcome, ExpandFault>
        ensures outcome { HasLineOutcome (S.files store.old) self.old self.new result (λ m s.
            StepReaches m
            (and_then_step s (ok_or_not_understood (string_of (lexemes tokens.now)))
            (include_file s))) }
        ensures keeps { PreservesPositions (S.files store.old) self.old self.new result }
        ensures frame { ReadFrame S.files S.failures store.old store.new result }
        ensures stopped { HasFailureLocationIfKnown
            (S.files store.old) self.old self.new result (λ m s.
            StepFails m (S.last_failure store.new)
            (and_then_step s (ok_or_not_understood (string_of (lexemes tokens.now)))
            (include_file s))) }
    {
        let Some(name) = string_of(tokens) else {
            return Err(ExpandFault::NotUnderstood);
        };
        let includer = self.stack.location.file.as_str();
        let file = find_file(self.alloc, store, includer, self.folders.as_slice(), name)?;
        self.enter_file(file)
    }

    /// Pushes an existing file onto the input stack.
    fn enter_file(&mut self, file: PathString) -> Result<LineOutcome, ExpandFault>
        ensures outcome { (m : Files) →
            length (bytes_of m file) ≤ 16777216 → RefinesLineOutcome result (state_of m self.new)
            (λ r. r ≡ file_step (state_of m self.old) (file_of m file)) }
        ensures keeps { (files : Option Files) → PreservesPositions files self.old self.new result }
        ensures no_failure { IfErr result (λ e. is_failure e ≡ false) }
    {
        let location = SourceLocation {
            file: PathString::copy_of(self.alloc, file.as_str())?,
            line: 0,
        };
        let return_location = self.stack.location.copy(self.alloc)?;
        self.stack.push_input(Input {
            source: LineSource::File(OpenFile::new(self.alloc, file)),
            conditions: self.conditions.len(),
            return_location: Some(return_location),
        })?;
        self.stack.location = location;
        Ok(LineOutcome::Continue)
    }

    /// Executes a directive that takes no operands.
    fn execute_bare<S: Store>(
        &mut self,
        store: &mut S,
        directive: Directive,
        tokens: &[Token<'_>],
    ) -> Result<LineOutcome, ExpandFault>
        requires { has_no_operands directive ≡ true }
        ensures outcome { IfSome (S.files store.old) (λ m.
            (k : EnvironmentView) → RefinesLineOutcome result (state_of m self.new)
            (StepReaches m (directive_step k (state_of m self.old) directive
            (lexemes tokens.now)))) }
        ensures keeps { PreservesPositions (S.files store.old) self.old self.new result }
        ensures frame { ReadFrame S.files S.failures store.old store.new result }
        ensures stopped { (k : EnvironmentView) →
            HasFailureLocationIfKnown (S.files store.old) self.old self.new result
            (λ m s. StepFails m (S.last_failure store.new)
            (directive_step k s directive (lexemes tokens.now))) }
    {
        if !tokens.is_empty() {
            return Err(ExpandFault::NotUnderstood);
        }
        match directive {
            Directive::Else => self.skip_remaining_branches(store),
            Directive::EndIf => self.end_if(),
            Directive::ExitMacro => self.exit_macro(),
            Directive::EndMacro | Directive::EndRepeat => Err(ExpandFault::NotOpened),
            Directive::End => Ok(LineOutcome::EndOfInput),
            _ => unreachable!(),
        }
    }

    /// Executes a directive, given the rest of its line.
    fn execute_with_operands<S: Store, K: Knows>(
        &mut self,
        store: &mut S,
        knows: &K,
        directive: Directive,
        tokens: &[Token<'_>],
    ) -> Result<LineOutcome, ExpandFault>
        ensures outcome { HasLineOutcome (S.files store.old) self.old self.new result (λ m s.
            StepReaches m (directive_step (K.meaning knows.now) s directive (lexemes tokens.now))) }
        ensures keeps { PreservesPositions (S.files store.old) self.old self.new result }
        ensures frame { ReadFrame S.files S.failures store.old store.new result }
        ensures stopped { HasFailureLocationIfKnown
            (S.files store.old) self.old self.new result (λ m s.
            StepFails m (S.last_failure store.new)
            (directive_step (K.meaning knows.now) s directive (lexemes tokens.now))) }
    {
        match directive {
            Directive::Macro => self.begin_macro(store, tokens),
            Directive::Local => self.add_locals(tokens),
            Directive::Repeat => self.begin_repeat(store, knows, tokens),
            Directive::If(test) => self.begin_if(store, knows, test, tokens),
            Directive::ElseIf => self.skip_remaining_branches(store),
            Directive::Include => self.include(store, tokens),
            Directive::Error => {
                let Some(text) = string_of(tokens) else {
                    return Err(ExpandFault::NotUnderstood);
                };
                let text = Vec::from_slice(self.alloc, text)?;
                Err(ExpandFault::Error(ListVec::from_vec(text)))
            }
            Directive::Else | Directive::EndIf => self.execute_bare(store, directive, tokens),
            Directive::EndMacro | Directive::EndRepeat => self.execute_bare(
                store, directive, tokens,
            ),
            Directive::ExitMacro | Directive::End => self.execute_bare(store, directive, tokens),
        }
    }

    /// Executes a line without a label.
    #[inline(always)]
    pub fn execute_line<S: Store, K: Knows>(
        &mut self,
        store: &mut S,
        knows: &K,
        line: StoredLine,
    ) -> Result<LineOutcome, ExpandFault>
        ensures outcome { HasLineOutcome (S.files store.old) self.old self.new result (λ m s.
            StepReaches m
            (line_step (K.meaning knows.now) s (tokens_in line)
            (first_directive (tokens_in line)))) }
        ensures keeps { PreservesPositions (S.files store.old) self.old self.new result }
        ensures frame { ReadFrame S.files S.failures store.old store.new result }
        ensures stopped { HasFailureLocationIfKnown
            (S.files store.old) self.old self.new result (λ m s.
            StepFails m (S.last_failure store.new)
            (line_step (K.meaning knows.now) s (tokens_in line)
            (first_directive (tokens_in line)))) }
    {
        match line.directive() {
            Some(directive) => {
                let tokens = line.tokens(self.alloc)?;
                self.execute_with_operands(store, knows, directive, after_first(tokens.as_slice()))
            }
            None => self.execute_plain_line(line),
        }
    }

    /// Executes a line that may begin with a label.
    #[inline(always)]
    fn execute_labelled_line<S: Store, K: Knows>(
        &mut self,
        store: &mut S,
        knows: &K,
        line: StoredLine,
    ) -> Result<LineOutcome, ExpandFault>
        ensures outcome { HasLineOutcome (S.files store.old) self.old self.new result (λ m s.
            StepReaches m
            (unless_mislabelled (K.meaning knows.now) s (tokens_in line)
            (is_mislabelled (tokens_in line)))) }
        ensures stack_position { IsStackPositionedIfKnown (S.files store.old) self.old.stack →
            OnOk result (IsStackPositionedIfKnown (S.files store.old) self.new.stack) }
        ensures size { IfOk result (λ t. size_of self.new + weight_of t ≤ size_of self.old + 3) }
        ensures frame { ReadFrame S.files S.failures store.old store.new result }
        ensures stopped { HasFailureLocationIfKnown
            (S.files store.old) self.old self.new result (λ m s.
            StepFails m (S.last_failure store.new)
            (unless_mislabelled (K.meaning knows.now) s (tokens_in line)
            (is_mislabelled (tokens_in line)))) }
    {
        match line.split_label(self.alloc)? {
            Some((label, rest)) => Ok(LineOutcome::LabelAndRest(label, rest)),
            None => self.execute_line(store, knows, line),
        }
    }

    /// Ends the innermost input.
    fn end_input(&mut self) -> Result<LineOutcome, ExpandFault>
        ensures outcome { (m : Files) →
            remaining_in m self.old.stack.top.source ≡ [] →
            RefinesLineOutcome result (state_of m self.new)
            (λ r. r ≡ end_mark_step (state_of m self.old) (remaining_of m self.old.stack).items) }
        ensures stack_position { (files : Option Files) → IsStackPositionedIfKnown files self.old.stack →
            OnOk result (IsStackPositionedIfKnown files self.new.stack) }
        ensures size { IfOk result (λ t. size_of self.new + weight_of t < size_of self.old + 1) }
        ensures no_failure { IfErr result (λ e. is_failure e ≡ false) }
    {
        if self.stack.close_input(self.conditions.len())? {
            Ok(LineOutcome::Continue)
        } else {
            Ok(LineOutcome::EndOfInput)
        }
    }

    /// Executes the next line, or ends the innermost input.
    #[inline(always)]
    pub fn execute_next<S: Store, K: Knows>(
        &mut self,
        store: &mut S,
        knows: &K,
    ) -> Result<LineOutcome, ExpandFault>
        ensures outcome { HasLineOutcome (S.files store.old) self.old self.new result (λ m s.
            IsStep m (K.meaning knows.now) s) }
        ensures stack_position { IsStackPositionedIfKnown (S.files store.old) self.old.stack →
            OnOk result (IsStackPositionedIfKnown (S.files store.old) self.new.stack) }
        ensures size { IfOk result (λ t. size_of self.new + weight_of t < size_of self.old + 1) }
        ensures frame { ReadFrame S.files S.failures store.old store.new result }
        ensures stopped { HasFailureLocationIfKnown
            (S.files store.old) self.old self.new result (λ m s.
            StepFailsAt m (S.last_failure store.new) (K.meaning knows.now) s) }
    {
        match self.stack.next_line(self.alloc, store)? {
            None => self.end_input(),
            Some(line) => self.execute_labelled_line(store, knows, line),
        }
    }
}
