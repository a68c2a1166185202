//! The stack of open files, macro calls and repeats.

ghost use Rattle.std.specs.Prelude.{◌≡◌, ◌<◌, ◌≤◌, ◌+◌, if◌then◌else◌, length, IfErr, IfNone, IfOk, IfSome, IsTrue, OnOk, [], false, option_map};
ghost use Rattle.base65.specs.Store.{Files};
ghost use Rattle.syntax65.specs.Faults.{is_failure, is_system_error};
ghost use Rattle.expand65.specs.Representation.{PreservesInnermost, FailsAtLine, HasFailureLocation, last_read_location, AreInputsAt, HasReturnLocation, IsSourceAt, IsStackPositioned, IsStackPositionedIfKnown, open_inputs, RefinesLocated, remaining_in, remaining_of, end_mark_of, location_after_next, outer_items};
ghost use Rattle.expand65.specs.Replay.{tokens_in};
ghost use Rattle.expand65.specs.Lines.{without_end_mark, with_lines, ReadsNextLine, ReadFrame, after_innermost_macro, restored_location};
ghost use Rattle.expand65.specs.Blocks.{ReadsBlockLine};

use crate::input::{LineSource, NextLine};
use crate::line::StoredLine;
use base65::Store;
use std::alloc::Global;
use std::mem;
use syntax65::{ExpandFault, SourceLocation};

/// The maximum number of files, macro calls and repeats open inside the source.
const MAX_NESTING: usize = 256;

/// An open file, macro call or repeat. At its end this many conditions must be open, and after an
/// included file the location is restored.
#[derive(Drop)]
pub struct Input {
    pub source: LineSource,
    pub conditions: usize,
    pub return_location: Option<SourceLocation>,
}

/// The open inputs (the innermost separately), the line budget, and the location of the line read
/// last.
#[derive(Drop)]
pub struct InputStack {
    pub top: Input,
    pub outer: Vec<Input>,
    pub budget: u32,
    pub location: SourceLocation,
}

/// The end of a macro call: how many conditions stay open, and whether any input remains.
#[derive(Clone, Copy)]
pub struct MacroEnd {
    pub conditions: usize,
    pub more: bool,
}

/// Moves the location to a line of its file.
fn update_location(location: &mut SourceLocation, next: NextLine)
    ensures { location.new ≡ location_after_next next location.old }
{
    if let NextLine::Numbered(line) = next {
        location.line = line;
    }
}

impl InputStack {
    /// Reads the next line, or returns `None` at the end of the innermost input.
    #[inline(always)]
    pub fn next_line<S: Store>(
        &mut self,
        alloc: Global,
        store: &mut S,
    ) -> Result<Option<StoredLine>, ExpandFault>
        ensures read { IfSome (S.files store.old) (λ m.
            RefinesLocated (λ l.
            (option_map tokens_in l, remaining_of m self.new)) self.new.location result
            (ReadsNextLine (remaining_of m self.old))) }
        ensures at_end { IfSome (S.files store.old) (λ m.
            IfOk result (λ l. IfNone l (remaining_in m self.new.top.source ≡ []))) }
        ensures remaining_budget { IfOk result (λ l. IfSome l (λ _. self.new.budget < self.old.budget)) }
        ensures less { OnOk result (self.new.budget ≤ self.old.budget) }
        ensures innermost { PreservesInnermost self.old self.new }
        ensures stack_position { IsStackPositionedIfKnown (S.files store.old) self.old →
            OnOk result (IsStackPositionedIfKnown (S.files store.old) self.new) }
        ensures frame { ReadFrame S.files S.failures store.old store.new result }
        ensures stopped { IsStackPositionedIfKnown (S.files store.old) self.old →
            IfSome (S.files store.old) (λ m.
            HasFailureLocation (FailsAtLine m (S.last_failure store.new) (remaining_of m self.old))
            self.old self.new result) }
    {
        let next = self.top.source.begin_line(alloc, store)?;
        if next.is_end() {
            return Ok(None);
        }
        update_location(&mut self.location, next);
        if self.budget == 0 {
            return Err(ExpandFault::TooManyLines);
        }
        self.budget -= 1;
        let line = self.top.source.read_stored_line(alloc, store)?;
        Ok(Some(line))
    }

    /// Reads the next line of a block, which must be closed in the input that opened it.
    pub fn read_block_line<S: Store>(
        &mut self,
        alloc: Global,
        store: &mut S,
    ) -> Result<StoredLine, ExpandFault>
        ensures read { IfSome (S.files store.old) (λ m.
            RefinesLocated (λ l. (tokens_in l, remaining_of m self.new)) self.new.location result
            (ReadsBlockLine (remaining_of m self.old))) }
        ensures remaining_budget { OnOk result (self.new.budget < self.old.budget) }
        ensures innermost { PreservesInnermost self.old self.new }
        ensures stack_position { IsStackPositionedIfKnown (S.files store.old) self.old →
            OnOk result (IsStackPositionedIfKnown (S.files store.old) self.new) }
        ensures frame { ReadFrame S.files S.failures store.old store.new result }
        ensures stopped { IsStackPositionedIfKnown (S.files store.old) self.old →
            IfSome (S.files store.old) (λ m.
            HasFailureLocation (FailsAtLine m (S.last_failure store.new) (remaining_of m self.old))
            self.old self.new result) }
    {
        match self.next_line(alloc, store)? {
            Some(line) => Ok(line),
            None => Err(ExpandFault::NotClosed),
        }
    }

    /// Pushes an input.
    pub fn push_input(&mut self, input: Input) -> Result<(), ExpandFault>
        ensures entered { (m : Files) →
            RefinesLocated (λ _. remaining_of m self.new) self.new.location result
            (λ r. r ≡ with_lines (remaining_in m input.source) (end_mark_of input)
            (remaining_of m self.old)) }
        ensures remaining_budget { self.new.budget ≡ self.old.budget }
        ensures outer { OnOk result (length self.new.outer.items ≡
            length self.old.outer.items + 1) }
        ensures current_location { self.new.location ≡ self.old.location }
        ensures stack_position { (m : Files) (p : SourceLocation) → IsSourceAt m input.source p →
            HasReturnLocation input.source input.return_location →
            restored_location p input.return_location ≡ self.old.location →
            IsStackPositioned m self.old → OnOk result (AreInputsAt m (open_inputs self.new) p) }
        ensures no_failure { IfErr result (λ e. is_failure e ≡ false) }
    {
        if self.outer.len() >= MAX_NESTING {
            return Err(ExpandFault::Nested);
        }
        let outer = mem::replace(&mut self.top, input);
        self.outer.push(outer)?;
        Ok(())
    }

    /// Pops the innermost input, unless it is the source, and keeps the location to restore.
    /// Returns whether any input remains.
    fn pop_input(&mut self, return_location: &mut Option<SourceLocation>) -> bool
        ensures closed { (m : Files) →
            (if result then (remaining_of m self.new).items else []) ≡
            outer_items m self.old.outer.items }
        ensures back { (p : SourceLocation) →
            restored_location p return_location.new ≡
            restored_location (restored_location p return_location.old)
            self.old.top.return_location }
        ensures location { self.new.location ≡ self.old.location }
        ensures stack_position { (m : Files) (p : SourceLocation) →
            AreInputsAt m (open_inputs self.old) (restored_location p return_location.old) →
            AreInputsAt m (open_inputs self.new) (restored_location p return_location.new) }
        ensures budget { self.new.budget ≡ self.old.budget }
        ensures outer { IsTrue result → length self.new.outer.items < length self.old.outer.items }
        ensures fewer { length self.new.outer.items ≤ length self.old.outer.items }
    {
        match self.outer.pop() {
            None => {
                replace_if_some(return_location, self.top.return_location.take());
                false
            }
            Some(outer) => {
                let inner = mem::replace(&mut self.top, outer);
                replace_if_some(return_location, inner.return_location);
                true
            }
        }
    }

    /// Closes the innermost input, at whose end `conditions` conditions must be open. Returns
    /// whether any input remains.
    pub fn close_input(&mut self, conditions: usize) -> Result<bool, ExpandFault>
        ensures closed { (m : Files) →
            remaining_in m self.old.top.source ≡ [] → RefinesLocated
            (λ more. ((if more then (remaining_of m self.new).items else []), self.new.location))
            self.new.location result (λ r.
            r ≡ without_end_mark conditions self.old.location (remaining_of m self.old).items) }
        ensures stack_position { (m : Files) → IsStackPositioned m self.old →
            OnOk result (IsStackPositioned m self.new) }
        ensures remaining_budget { self.new.budget ≡ self.old.budget }
        ensures outer { IfOk result (λ more. IsTrue more →
            length self.new.outer.items < length self.old.outer.items) }
        ensures fewer { OnOk result (length self.new.outer.items ≤ length self.old.outer.items) }
        ensures no_failure { IfErr result (λ e. is_system_error e ≡ false) }
    {
        if self.top.conditions != conditions {
            return Err(ExpandFault::NotClosed);
        }
        let mut return_location = None;
        let more = self.pop_input(&mut return_location);
        self.restore_location(return_location);
        Ok(more)
    }

    /// Closes the innermost macro call and all inputs opened in it.
    pub fn close_macro_call(&mut self) -> Option<MacroEnd>
        ensures closed { (m : Files) →
            after_innermost_macro (remaining_of m self.old).items self.old.location ≡ option_map
            (λ e. (
              e.conditions,
              (if e.more then (remaining_of m self.new).items else []),
              self.new.location,
            )) result }
        ensures none { IfNone result (self.new.location ≡ self.old.location) }
        ensures stack_position { (m : Files) → IsStackPositioned m self.old →
            IfSome result (λ _. IsStackPositioned m self.new) }
        ensures remaining_budget { self.new.budget ≡ self.old.budget }
        ensures fewer { length self.new.outer.items ≤ length self.old.outer.items }
    {
        let mut return_location = None;
        'inputs: loop {
            let is_call = self.top.source.is_call();
            let conditions = self.top.conditions;
            let more = self.pop_input(&mut return_location);
            if is_call {
                self.restore_location(return_location);
                return Some(MacroEnd { conditions, more });
            }
            if !more {
                return None;
            }
        }
    }

    /// Restores the location of the line that included the file.
    fn restore_location(&mut self, return_location: Option<SourceLocation>)
        ensures location { self.new.location ≡ restored_location self.old.location return_location }
        ensures top { self.new.top ≡ self.old.top }
        ensures outer { self.new.outer ≡ self.old.outer }
        ensures budget { self.new.budget ≡ self.old.budget }
    {
        if let Some(location) = return_location {
            self.location = location;
        }
    }
}

impl InputStack {
    /// Restores the location of the including line if no line of the included file was read.
    pub fn restore_location_if_unread(&mut self)
        ensures current_location { self.new.location ≡
            last_read_location self.old.location self.old.top.return_location }
    {
        if self.location.line == 0 {
            let return_location = self.top.return_location.take();
            self.restore_location(return_location);
        }
    }
}

/// Keeps the later of two locations to restore.
fn replace_if_some(return_location: &mut Option<SourceLocation>, next: Option<SourceLocation>)
    ensures { (p : SourceLocation) →
        restored_location p return_location.new ≡
        restored_location (restored_location p return_location.old) next }
{
    if next.is_some() {
        *return_location = next;
    }
}
