//! Macros: definitions, calls and arguments.

ghost use Rattle.std.specs.Prelude.{Option, ◌≡◌, ◌<◌, ◌≤◌, ◌+◌, ◌^◌, IfOk, IsSome, IsTrue, length, map, option_map, false, is_some, IfErr, Ok, Some};
ghost use Rattle.syntax65.specs.Tokens.{lexeme_of, lexemes};
ghost use Rattle.expand65.specs.Macros.{arguments_of, braces_after, closes_last, is_braced, arguments_within, without_braces, macro_line, call_result, distinct_of, header_of, macro_at, macro_of, plain_line_result, params_of, is_comma_at, name_at, argument_len};
ghost use Rattle.expand65.specs.LineStart.{names_of, ok_or_not_understood};
ghost use Rattle.expand65.specs.Replay.{tokens_in, definition_of};
ghost use Rattle.base65.specs.Outcome.{Refines};
ghost use Rattle.syntax65.specs.Faults.{is_failure, is_system_error};
ghost use Rattle.expand65.specs.Failures.{StepFails};
ghost use Rattle.expand65.specs.Expansion.{StepReaches};
ghost use Rattle.base65.specs.Store.{Files};
ghost use Rattle.expand65.specs.Representation.{PreservesPositions, HasLineOutcome, HasLineOutcomeForAllFiles, HasFailureLocationIfKnown, macros_of};
ghost use Rattle.expand65.specs.Lines.{ReadFrame};

use crate::blocks::BlockKind;
use crate::input::{LineSource, number_line};
use crate::input_stack::Input;
use crate::line::StoredLine;
use crate::line_start::{after_first, closes_brace, is_comma, name_in, opens_brace};
use crate::macro_replay::{Body, Replay};
use crate::preprocessor::{LineOutcome, Preprocessor};
use base65::{ListVec, Store};
use indexmap::{IndexMap, IndexSet};
use std::alloc::{AllocError, Global};
use std::rc::Rc;
use syntax65::{ExpandFault, Token, TokenKind};

/// Returns the name at an index, if the token is one.
pub fn name_at<'a>(tokens: &[Token<'a>], at: usize) -> Option<&'a [u8]>
    ensures name { option_map (λ s. s.now) result ≡ name_at (lexemes tokens.now) at }
    ensures in_bounds { IsSome result → at < length tokens.now }
{
    name_in(tokens.get(at)?)
}

/// Returns whether the token at an index is a comma.
pub fn is_comma_at(tokens: &[Token<'_>], at: usize) -> bool
    ensures comma { result ≡ is_comma_at (lexemes tokens.now) at }
    ensures in_bounds { IsTrue result → at < length tokens.now }
{
    matches!(tokens.get(at), Some(token) if is_comma(token))
}

/// Parses one or more names separated by commas.
pub fn names_of<'a>(
    alloc: Global,
    tokens: &[Token<'a>],
) -> Result<Option<Vec<&'a [u8]>>, AllocError>
    ensures { IfOk result
        (λ names. option_map (λ v. map (λ s. s.now) v.items) names ≡ names_of
        (lexemes tokens.now)) }
{
    let mut names = Vec::new(alloc);
    let mut at = 0;
    'names: loop {
        let name = match name_at(tokens, at) {
            Some(name) => name,
            None => return Ok(None),
        };
        names.push(name)?;
        if at + 1 == tokens.len() {
            return Ok(Some(names));
        }
        if !is_comma_at(tokens, at + 1) {
            return Ok(None);
        }
        at += 2;
    }
}

/// Returns the number of open braces after a token.
fn braces_after(depth: usize, token: &Token<'_>) -> usize
    requires { depth < 2 ^ 62 }
    ensures { result ≡ braces_after depth (lexeme_of token.now) }
{
    if opens_brace(token) {
        depth + 1
    } else if closes_brace(token) {
        depth.saturating_sub(1)
    } else {
        depth
    }
}

/// Returns the number of tokens before the first comma outside braces.
fn argument_len(tokens: &[Token<'_>]) -> usize
    ensures count { result ≡ argument_len 0 (lexemes tokens.now) }
    ensures within { result ≤ length tokens.now }
{
    let mut depth = 0;
    for (index, token) in tokens.iter().enumerate() {
        if is_comma(token) && depth == 0 {
            return index;
        }
        depth = braces_after(depth, token);
    }
    tokens.len()
}

/// Returns whether the last token closes the brace that was opened before the first.
fn closes_last(tokens: &[Token<'_>]) -> bool
    ensures { result ≡ closes_last 0 (lexemes tokens.now) }
{
    let mut depth = 0;
    for (index, token) in tokens.iter().enumerate() {
        if closes_brace(token) && depth == 0 {
            return index + 1 == tokens.len();
        }
        depth = braces_after(depth, token);
    }
    false
}

/// Returns whether one pair of braces encloses all tokens.
fn is_braced(tokens: &[Token<'_>]) -> bool
    ensures { result ≡ is_braced (lexemes tokens.now) }
{
    matches!(tokens, [first, following @ ..] if opens_brace(first) && closes_last(following))
}

/// Removes the pair of braces around an argument.
fn strip_braces<'a, 'b>(tokens: &'b [Token<'a>]) -> &'b [Token<'a>]
    ensures { lexemes result.now ≡ without_braces (lexemes tokens.now) }
{
    match tokens {
        [_, inner @ .., _] if is_braced(tokens) => inner,
        _ => tokens,
    }
}

/// Splits tokens at the commas outside braces.
fn split_arguments(alloc: Global, tokens: &[Token<'_>]) -> Result<ListVec<StoredLine>, AllocError>
    ensures { IfOk result (λ lines.
        map tokens_in lines ≡ map without_braces (arguments_within 0 (lexemes tokens.now))) }
{
    let mut lines = ListVec::new(alloc);
    let mut at = 0;
    'parts: loop {
        let (_, rest) = tokens.split_at(at);
        let len = argument_len(rest);
        let (part, following) = rest.split_at(len);
        let line = StoredLine::copy_of(alloc, strip_braces(part))?;
        lines.push(line)?;
        if following.is_empty() {
            return Ok(lines);
        }
        at += len + 1;
    }
}

/// Parses the arguments after a macro's name.
pub fn arguments_of(alloc: Global, tokens: &[Token<'_>]) -> Result<ListVec<StoredLine>, AllocError>
    ensures { IfOk result (λ lines. map tokens_in lines ≡ arguments_of (lexemes tokens.now)) }
{
    if tokens.is_empty() {
        return Ok(ListVec::new(alloc));
    }
    split_arguments(alloc, tokens)
}

/// The name and parameters of a macro.
#[derive(Drop)]
pub struct Header {
    pub name: Vec<u8>,
    pub params: IndexSet<Vec<u8>>,
}

/// Collects names that must be distinct.
fn distinct_names(alloc: Global, names: &[&[u8]]) -> Result<IndexSet<Vec<u8>>, ExpandFault>
    ensures set { Refines is_system_error (λ s. map (λ k. k.items) s.keys) result
        (ok_or_not_understood (distinct_of (map (λ s. s.now) names.now))) }
    ensures no_failure { IfErr result (λ e. is_failure e ≡ false) }
{
    let mut set = IndexSet::new(alloc);
    for name in names {
        let is_new = set.insert(Vec::from_slice(alloc, name)?)?;
        if !is_new {
            return Err(ExpandFault::NotUnderstood);
        }
    }
    Ok(set)
}

/// Parses parameters: nothing, or names separated by commas.
fn params_of(alloc: Global, tokens: &[Token<'_>]) -> Result<IndexSet<Vec<u8>>, ExpandFault>
    ensures params { Refines is_system_error (λ s. map (λ k. k.items) s.keys) result
        (ok_or_not_understood (params_of (lexemes tokens.now))) }
    ensures no_failure { IfErr result (λ e. is_failure e ≡ false) }
{
    if tokens.is_empty() {
        return Ok(IndexSet::new(alloc));
    }
    match names_of(alloc, tokens)? {
        Some(names) => distinct_names(alloc, names.as_slice()),
        None => Err(ExpandFault::NotUnderstood),
    }
}

/// Parses the name and parameters of a macro.
fn header_of(alloc: Global, tokens: &[Token<'_>]) -> Result<Header, ExpandFault>
    ensures header { Refines is_system_error (λ h.
        (h.name.items, map (λ k. k.items) h.params.keys)) result
        (ok_or_not_understood (header_of (lexemes tokens.now))) }
    ensures no_failure { IfErr result (λ e. is_failure e ≡ false) }
{
    let Some((first, following)) = tokens.split_first() else {
        return Err(ExpandFault::NotUnderstood);
    };
    let Some(name) = name_in(first) else {
        return Err(ExpandFault::NotUnderstood);
    };
    let params = params_of(alloc, following)?;
    let name = Vec::from_slice(alloc, name)?;
    Ok(Header { name, params })
}

impl Preprocessor {
    /// Executes `.macro`, given the rest of its line.
    pub fn begin_macro<S: Store>(
        &mut self,
        store: &mut S,
        tokens: &[Token<'_>],
    ) -> Result<LineOutcome, ExpandFault>
        ensures outcome { HasLineOutcome (S.files store.old) self.old self.new result (λ m s.
            StepReaches m (macro_line s (lexemes tokens.now))) }
        ensures keeps { PreservesPositions (S.files store.old) self.old self.new result }
        ensures frame { ReadFrame S.files S.failures store.old store.new result }
        ensures stopped { HasFailureLocationIfKnown
            (S.files store.old) self.old self.new result (λ m s.
            StepFails m (S.last_failure store.new) (macro_line s (lexemes tokens.now))) }
    {
        let Header { name, params } = header_of(self.alloc, tokens)?;
        if self.has_macro(name.as_slice()) {
            return Err(ExpandFault::MacroTwice);
        }
        let block = self.stack.read_block(self.alloc, store, BlockKind::Macro)?;
        let lines = block.lines;
        let body = Rc::new(self.alloc, Body { params, lines })?;
        self.macros.insert(name, body)?;
        Ok(LineOutcome::Continue)
    }

    /// Returns whether a macro has this name.
    fn has_macro(&self, name: &[u8]) -> bool
        ensures { result ≡ is_some (macro_of (macros_of self.now) name.now) }
    {
        self.macros.get(name).is_some()
    }

    /// Returns whether a token is the name of a macro.
    #[inline(always)]
    pub fn is_macro(&self, token: &Token<'_>) -> bool
        ensures { result ≡ is_some (macro_at (macros_of self.now) (lexeme_of token.now)) }
    {
        // Most sources define no macro, and then no name is looked up.
        !self.macros.is_empty()
            && matches!(token.kind, TokenKind::Identifier)
            && self.has_macro(token.text)
    }

    /// Returns the macro that a token names.
    fn macro_at(&self, token: &Token<'_>) -> Result<Option<Rc<Body>>, AllocError>
        ensures { IfOk result (λ found. macro_at (macros_of self.now) (lexeme_of token.now) ≡
            option_map (λ b. definition_of b.value) found) }
    {
        // Most sources define no macro, and then no name is looked up.
        if self.macros.is_empty() {
            return Ok(None);
        }
        match token.kind {
            TokenKind::Identifier => match self.macros.get(token.text) {
                Some(body) => Ok(Some(body.clone()?)),
                None => Ok(None),
            },
            _ => Ok(None),
        }
    }

    /// Calls a macro, given the tokens after its name.
    fn call(&mut self, body: Rc<Body>, tokens: &[Token<'_>]) -> Result<LineOutcome, ExpandFault>
        ensures outcome { HasLineOutcomeForAllFiles self.old self.new result (λ s.
            call_result s (definition_of body.value) (arguments_of (lexemes tokens.now))) }
        ensures keeps { (files : Option Files) → PreservesPositions files self.old self.new result }
        ensures no_failure { IfErr result (λ e. is_failure e ≡ false) }
    {
        let arguments = arguments_of(self.alloc, tokens)?;
        if arguments.len() > body.params.len() {
            return Err(ExpandFault::TooManyArguments);
        }
        self.replay(body, arguments)
    }

    /// Begins to replay the macro's lines with these arguments.
    fn replay(
        &mut self,
        body: Rc<Body>,
        arguments: ListVec<StoredLine>,
    ) -> Result<LineOutcome, ExpandFault>
        requires { length arguments ≤ length body.value.params.keys }
        ensures outcome { HasLineOutcomeForAllFiles self.old self.new result (λ s.
            call_result s (definition_of body.value) (map tokens_in arguments)) }
        ensures keeps { (files : Option Files) → PreservesPositions files self.old self.new result }
        ensures no_failure { IfErr result (λ e. is_failure e ≡ false) }
    {
        let Some(number) = self.expansions.checked_add(1) else {
            return Err(ExpandFault::OutOfMemory);
        };
        let Ok(count) = u32::try_from(arguments.len()) else {
            return Err(ExpandFault::OutOfMemory);
        };
        let count = number_line(self.alloc, count)?;
        let replay = Replay {
            body,
            at: 0,
            arguments,
            count: Some(count),
            locals: IndexMap::with_hasher(self.alloc, *self.macros.hasher()),
            number,
        };
        self.stack.push_input(Input {
            source: LineSource::Call(replay),
            conditions: self.conditions.len(),
            return_location: None,
        })?;
        self.expansions = number;
        Ok(LineOutcome::Continue)
    }

    /// Processes a line without preprocessor directive: an empty line, a macro call or a statement.
    pub fn execute_plain_line(&mut self, line: StoredLine) -> Result<LineOutcome, ExpandFault>
        ensures outcome { HasLineOutcomeForAllFiles self.old self.new result
            (λ s. plain_line_result s (tokens_in line)) }
        ensures keeps { (files : Option Files) → PreservesPositions files self.old self.new result }
        ensures no_failure { IfErr result (λ e. is_failure e ≡ false) }
    {
        let Some(first) = line.first() else {
            return Ok(LineOutcome::Continue);
        };
        match self.macro_at(&first)? {
            Some(body) => {
                let tokens = line.tokens(self.alloc)?;
                self.call(body, after_first(tokens.as_slice()))
            }
            None => Ok(LineOutcome::Yield(line)),
        }
    }
}
