//! Replays the bodies of macros and repeats with parameters and local names replaced.

ghost use Rattle.std.specs.Prelude.{◌≡◌, ◌++◌, ◌∷◌, [], List, true, map, IfOk, OnOk, position, false, IfErr, unwrap_or, Some};
ghost use Rattle.base65.specs.Store.{Files};
ghost use Rattle.expand65.specs.Representation.{is_call, remaining_in};
ghost use Rattle.expand65.specs.Replay.{tokens_in, substitution_of, replacement_tokens};
ghost use Rattle.expand65.specs.Lines.{Item, InputEnd, with_local_names, end_mark, local_name_token, with_locals, argument_at, name_replacement, directive_replacement, substituted_line, replacement_for, body_line_tokens};
ghost use Rattle.std.specs.Map.{lookup};
ghost use Rattle.std.specs.Str.{bytes_eq};
ghost use Rattle.base65.specs.Outcome.{Refines};
ghost use Rattle.syntax65.specs.Tokens.{lexeme_of, lexemes};
ghost use Rattle.syntax65.specs.Faults.{is_failure, is_system_error};

use crate::input::LineSource;
use crate::line::StoredLine;
use base65::{ListVec, Seed};
use indexmap::{IndexMap, IndexSet};
use std::alloc::{AllocError, Global};
use std::rc::Rc;
use syntax65::{ExpandFault, Token, TokenKind};

/// Returns the replacement of a local name in a macro call.
fn local_name_line(alloc: Global, number: u64, name: &[u8]) -> Result<StoredLine, AllocError>
    ensures { IfOk result (λ line. tokens_in line ≡ local_name_token number name.now ∷ []) }
{
    let digits = format!(in alloc; "{number}")?;
    let mut text = Vec::from_slice(alloc, name)?;
    text.push(b'?')?;
    text.extend_from_slice(digits.as_bytes())?;
    let token = Token {
        kind: TokenKind::Identifier,
        text: text.as_slice(),
    };
    StoredLine::copy_of(alloc, &[token])
}

impl Replay {
    /// Adds a local name to the macro call.
    fn add_local(&mut self, alloc: Global, name: &[u8]) -> Result<(), AllocError>
        ensures added { OnOk result
            (substitution_of self.new ≡ with_locals (name.now ∷ []) (substitution_of self.old)) }
        ensures body { self.new.body ≡ self.old.body }
        ensures at { self.new.at ≡ self.old.at }
    {
        let line = local_name_line(alloc, self.number, name)?;
        let name = Vec::from_slice(alloc, name)?;
        self.locals.insert(name, line)?;
        Ok(())
    }

    /// Adds local names to the macro call.
    fn add_locals(&mut self, alloc: Global, names: &[&[u8]]) -> Result<(), AllocError>
        ensures added { OnOk result
            (substitution_of self.new ≡ with_locals (map (λ s. s.now) names.now)
            (substitution_of self.old)) }
        ensures body { self.new.body ≡ self.old.body }
        ensures at { self.new.at ≡ self.old.at }
    {
        for name in names {
            self.add_local(alloc, name)?;
        }
        Ok(())
    }
}

impl LineSource {
    /// Adds local names to a macro call.
    pub fn add_locals(&mut self, alloc: Global, names: &[&[u8]]) -> Result<(), AllocError>
        requires { is_call self.old ≡ true }
        ensures added { (m : Files) (k : InputEnd) (is : List Item) →
            OnOk result (remaining_in m self.new ++ end_mark k ∷ is ≡
            with_local_names (map (λ s. s.now) names.now)
            (remaining_in m self.old ++ end_mark k ∷ is)) }
        ensures call { is_call self.new ≡ is_call self.old }
    {
        match self {
            LineSource::Call(replay) => replay.add_locals(alloc, names),
            _ => Ok(()),
        }
    }
}

/// The maximum number of tokens of a line after replacement.
const MAX_TOKENS: usize = 4096;

/// The lines of a macro or repeat, and the names that are replaced in them.
#[derive(Drop)]
pub struct Body {
    pub params: IndexSet<Vec<u8>>,
    pub lines: ListVec<StoredLine>,
}

/// A body that is being replayed.
#[derive(Drop)]
pub struct Replay {
    pub body: Rc<Body>,
    /// The number of lines replayed.
    pub at: usize,
    pub arguments: ListVec<StoredLine>,
    /// The replacement of `.paramcount`.
    pub count: Option<StoredLine>,
    pub locals: IndexMap<Vec<u8>, StoredLine, Seed>,
    pub number: u64,
}

/// The replacement of a token.
pub enum Replacement<'a> {
    Itself,
    Nothing,
    Tokens(&'a StoredLine),
}

impl Replay {
    /// Returns the argument of the parameter at an index.
    fn argument_at(&self, index: usize) -> Replacement<'_>
        ensures { replacement_tokens result ≡
            argument_at (substitution_of self.now).arguments (Some index) }
    {
        match self.arguments.as_slice().get(index) {
            Some(line) => Replacement::Tokens(line),
            None => Replacement::Nothing,
        }
    }

    /// Returns the argument of a parameter, if the name is one.
    fn argument(&self, name: &[u8]) -> Replacement<'_>
        ensures { replacement_tokens result ≡ argument_at (substitution_of self.now).arguments
            (position (bytes_eq name.now) (substitution_of self.now).params) }
    {
        match self.body.params.get_index_of(name) {
            Some(index) => self.argument_at(index),
            None => Replacement::Itself,
        }
    }

    /// Returns the replacement of a local name.
    fn local_replacement(&self, name: &[u8]) -> Replacement<'_>
        ensures { replacement_tokens result ≡
            lookup (bytes_eq name.now) (substitution_of self.now).locals }
    {
        match self.locals.get(name) {
            Some(line) => Replacement::Tokens(line),
            None => Replacement::Itself,
        }
    }

    fn name_replacement(&self, name: &[u8]) -> Replacement<'_>
        ensures { replacement_tokens result ≡ name_replacement (substitution_of self.now) name.now }
    {
        match self.argument(name) {
            Replacement::Itself => self.local_replacement(name),
            other => other,
        }
    }

    fn directive_replacement(&self, text: &[u8]) -> Replacement<'_>
        ensures { replacement_tokens result ≡
            directive_replacement (substitution_of self.now) text.now }
    {
        match &self.count {
            Some(line) if text.eq_ignore_ascii_case(b".paramcount") => Replacement::Tokens(line),
            _ => Replacement::Itself,
        }
    }

    fn replacement_for(&self, token: &Token<'_>) -> Replacement<'_>
        ensures { replacement_tokens result ≡ replacement_for (substitution_of self.now)
            (lexeme_of token.now) }
    {
        match token.kind {
            TokenKind::Identifier => self.name_replacement(token.text),
            TokenKind::Directive => self.directive_replacement(token.text),
            _ => Replacement::Itself,
        }
    }

    /// Appends the replacement of a token.
    fn append_replacement<'a>(
        &'a self,
        token: Token<'a>,
        out: &mut Vec<Token<'a>>,
    ) -> Result<(), AllocError>
        ensures { OnOk result
            (lexemes out.new.items ≡ lexemes out.old.items ++ unwrap_or
            (replacement_for (substitution_of self.now) (lexeme_of token.entry))
            (lexeme_of token.entry ∷ [])) }
    {
        match self.replacement_for(&token) {
            Replacement::Itself => Ok(out.push(token)?),
            Replacement::Nothing => Ok(()),
            Replacement::Tokens(line) => line.append_to(out),
        }
    }

    /// Replaces the tokens of a line.
    pub fn substitute_tokens(
        &self,
        alloc: Global,
        line: &StoredLine,
    ) -> Result<StoredLine, ExpandFault>
        ensures value { Refines is_system_error tokens_in result
            (body_line_tokens (substituted_line (substitution_of self.now) (tokens_in line.now))) }
        ensures no_failure { IfErr result (λ e. is_failure e ≡ false) }
    {
        let tokens = line.tokens(alloc)?;
        let mut out = Vec::with_capacity(alloc, tokens.len())?;
        for token in tokens.as_slice() {
            self.append_replacement(*token, &mut out)?;
            if out.len() > MAX_TOKENS {
                return Err(ExpandFault::LineTooLong);
            }
        }
        Ok(StoredLine::copy_of(alloc, out.as_slice())?)
    }
}
