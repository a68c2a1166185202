//! Executes `.repeat`, `.local` and `.exitmacro`.

ghost use Rattle.std.specs.Prelude.{Option, ◌≡◌, false, map, IfErr, ℕ, Ok, Result};
ghost use Rattle.std.specs.List.{list_any};
ghost use Rattle.base65.specs.Outcome.{Refines};
ghost use Rattle.syntax65.specs.Tokens.{lexemes};
ghost use Rattle.syntax65.specs.Faults.{is_failure, is_system_error};
ghost use Rattle.expand65.specs.LineStart.{ok_or_not_understood};
ghost use Rattle.expand65.specs.Macros.{exit_macro, is_generated_name, local_line, new_names, repeat_line, iterations_step, repeat_header, iterations_of, variable_of};
ghost use Rattle.base65.specs.Store.{Files};
ghost use Rattle.expand65.specs.Representation.{PreservesPositions, HasLineOutcome, HasLineOutcomeForAllFiles, HasFailureLocationIfKnown};
ghost use Rattle.syntax65.specs.Expressions.{IsParsed};
ghost use Rattle.base65.specs.Relations.{RefinesRel};
ghost use Rattle.syntax65.specs.Trees.{Tree};
ghost use Rattle.syntax65.specs.declared.expressions.operators.ExprFault.{ExprFault};
ghost use Rattle.expand65.specs.Failures.{StepFails};
ghost use Rattle.expand65.specs.Expansion.{StepReaches};
ghost use Rattle.expand65.specs.Lines.{ReadFrame};

use crate::blocks::BlockKind;
use crate::input::LineSource;
use crate::input_stack::Input;
use crate::knows::Knows;
use crate::macro_replay::{Body, Replay};
use crate::macros::{is_comma_at, name_at, names_of};
use crate::preprocessor::{LineOutcome, Preprocessor};
use base65::{ListVec, Store};
use indexmap::{IndexMap, IndexSet};
use std::alloc::Global;
use std::rc::Rc;
use syntax65::{ExpandFault, Expr, Token, read_expr};

/// Returns whether a name is the replacement of a local name.
fn is_generated_name(name: &[u8]) -> bool
    ensures { result ≡ is_generated_name name.now }
{
    name.iter().any(|b| *b == b'?')
}

/// Returns whether one of the names is the replacement of a local name.
fn has_generated_name(names: &[&[u8]]) -> bool
    ensures { result ≡ list_any is_generated_name (map (λ s. s.now) names.now) }
{
    for name in names {
        if is_generated_name(name) {
            return true;
        }
    }
    false
}

/// Parses names separated by commas, none of which is the replacement of a local name.
fn new_names<'a>(alloc: Global, tokens: &[Token<'a>]) -> Result<Vec<&'a [u8]>, ExpandFault>
    ensures names { Refines is_system_error (λ v. map (λ s. s.now) v.items) result
        (ok_or_not_understood (new_names (lexemes tokens.now))) }
    ensures no_failure { IfErr result (λ e. is_failure e ≡ false) }
{
    let Some(names) = names_of(alloc, tokens)? else {
        return Err(ExpandFault::NotUnderstood);
    };
    if has_generated_name(names.as_slice()) {
        return Err(ExpandFault::NotUnderstood);
    }
    Ok(names)
}

impl Preprocessor {
    /// Executes `.local`, given the rest of its line.
    pub fn add_locals(&mut self, tokens: &[Token<'_>]) -> Result<LineOutcome, ExpandFault>
        ensures outcome { HasLineOutcomeForAllFiles self.old self.new result
            (λ s. local_line s (lexemes tokens.now)) }
        ensures keeps { (files : Option Files) → PreservesPositions files self.old self.new result }
        ensures no_failure { IfErr result (λ e. is_failure e ≡ false) }
    {
        if !self.stack.top.source.is_call() {
            return Err(ExpandFault::NotUnderstood);
        }
        let names = new_names(self.alloc, tokens)?;
        self.stack
            .top
            .source
            .add_locals(self.alloc, names.as_slice())?;
        Ok(LineOutcome::Continue)
    }

    /// Leaves the innermost macro call.
    pub fn exit_macro(&mut self) -> Result<LineOutcome, ExpandFault>
        ensures outcome { HasLineOutcomeForAllFiles self.old self.new result exit_macro }
        ensures keeps { (files : Option Files) → PreservesPositions files self.old self.new result }
        ensures no_failure { IfErr result (λ e. is_failure e ≡ false) }
    {
        let Some(end) = self.stack.close_macro_call() else {
            return Err(ExpandFault::NotOpened);
        };
        self.conditions.truncate(end.conditions);
        if end.more {
            Ok(LineOutcome::Continue)
        } else {
            Ok(LineOutcome::EndOfInput)
        }
    }
}

/// The maximum number of iterations of a repeat.
const MAX_ITERATIONS: i64 = 65_536;

/// The number of iterations, and the variable if there is one.
#[derive(Drop)]
pub struct Header {
    pub count: Expr,
    pub variable: IndexSet<Vec<u8>>,
}

/// Parses an optional variable: nothing, or a comma and a name.
fn variable_of(alloc: Global, tokens: &[Token<'_>]) -> Result<IndexSet<Vec<u8>>, ExpandFault>
    ensures variable { Refines is_system_error (λ s. map (λ k. k.items) s.keys) result
        (ok_or_not_understood (variable_of (lexemes tokens.now))) }
    ensures no_failure { IfErr result (λ e. is_failure e ≡ false) }
{
    if tokens.is_empty() {
        return Ok(IndexSet::new(alloc));
    }
    if tokens.len() != 2 || !is_comma_at(tokens, 0) {
        return Err(ExpandFault::NotUnderstood);
    }
    let Some(name) = name_at(tokens, 1) else {
        return Err(ExpandFault::NotUnderstood);
    };
    let mut names = IndexSet::new(alloc);
    names.insert(Vec::from_slice(alloc, name)?)?;
    Ok(names)
}

/// Parses the expression of a count and the optional variable.
fn header_of(alloc: Global, tokens: &[Token<'_>]) -> Result<Header, ExpandFault>
    ensures header { RefinesRel is_system_error (λ h. (h.count, map (λ k. k.items) h.variable.keys))
        result (λ r. (q : Result (Tree × ℕ) ExprFault) × IsParsed (lexemes tokens.now) q ×
        (r ≡ repeat_header (lexemes tokens.now) q)) }
    ensures no_failure { IfErr result (λ e. is_failure e ≡ false) }
{
    let (count, len) = read_expr(alloc, tokens)?;
    let (_, following) = tokens.split_at(len);
    let variable = variable_of(alloc, following)?;
    Ok(Header { count, variable })
}

fn iterations_of(value: Option<i64>) -> Result<u32, ExpandFault>
    ensures { result ≡ iterations_of value }
{
    match value {
        None => Err(ExpandFault::NotConstant),
        Some(count) if count < 0 || count > MAX_ITERATIONS => Err(ExpandFault::CountOutOfRange),
        Some(count) => Ok(count as u32),
    }
}

/// Evaluates the expression of a count.
fn evaluate_iterations<K: Knows>(knows: &K, count: Expr) -> Result<u32, ExpandFault>
    ensures value { Refines is_system_error (λ n. n) result
        (iterations_of ((K.meaning knows.now).value count)) }
    ensures no_failure { IfErr result (λ e. is_failure e ≡ false) }
{
    iterations_of(knows.value(&count)?)
}

impl Preprocessor {
    /// Executes `.repeat`, given the rest of its line.
    pub fn begin_repeat<S: Store, K: Knows>(
        &mut self,
        store: &mut S,
        knows: &K,
        tokens: &[Token<'_>],
    ) -> Result<LineOutcome, ExpandFault>
        ensures outcome { HasLineOutcome (S.files store.old) self.old self.new result (λ m s.
            StepReaches m (repeat_line (K.meaning knows.now) s (lexemes tokens.now))) }
        ensures keeps { PreservesPositions (S.files store.old) self.old self.new result }
        ensures frame { ReadFrame S.files S.failures store.old store.new result }
        ensures stopped { HasFailureLocationIfKnown
            (S.files store.old) self.old self.new result (λ m s.
            StepFails m (S.last_failure store.new)
            (repeat_line (K.meaning knows.now) s (lexemes tokens.now))) }
    {
        let Header { count, variable } = header_of(self.alloc, tokens)?;
        let count = evaluate_iterations(knows, count)?;
        self.repeat(store, count, variable)
    }

    /// Repeats the lines that follow.
    fn repeat<S: Store>(
        &mut self,
        store: &mut S,
        count: u32,
        variable: IndexSet<Vec<u8>>,
    ) -> Result<LineOutcome, ExpandFault>
        ensures outcome { HasLineOutcome (S.files store.old) self.old self.new result (λ m s.
            StepReaches m (iterations_step s count (map (λ k. k.items) variable.keys))) }
        ensures keeps { PreservesPositions (S.files store.old) self.old self.new result }
        ensures frame { ReadFrame S.files S.failures store.old store.new result }
        ensures stopped { HasFailureLocationIfKnown
            (S.files store.old) self.old self.new result (λ m s.
            StepFails m (S.last_failure store.new)
            (iterations_step s count (map (λ k. k.items) variable.keys))) }
    {
        let block = self.stack.read_block(self.alloc, store, BlockKind::Repeat)?;
        let lines = block.lines;
        let at = lines.len();
        let body = Body {
            params: variable,
            lines,
        };
        let body = Rc::new(self.alloc, body)?;
        let arguments = ListVec::new(self.alloc);
        let locals = IndexMap::with_hasher(self.alloc, *self.macros.hasher());
        let replay = Replay {
            body,
            at,
            arguments,
            count: None,
            locals,
            number: 0,
        };
        self.stack.push_input(Input {
            source: LineSource::Repeat(replay, 0, count),
            conditions: self.conditions.len(),
            return_location: None,
        })?;
        Ok(LineOutcome::Continue)
    }
}
