//! Evaluates conditions and the expressions in directives.

ghost use Rattle.std.specs.Prelude.{◌≡◌, ◌∷◌, option_map, [], false, length, IfErr, IfNone, List, OnOk, ℕ, Result};
ghost use Rattle.syntax65.specs.Expressions.{IsParsed};
ghost use Rattle.base65.specs.Outcome.{Refines};
ghost use Rattle.base65.specs.Relations.{RefinesRel};
ghost use Rattle.syntax65.specs.Tokens.{lexemes};
ghost use Rattle.syntax65.specs.Trees.{Tree};
ghost use Rattle.syntax65.specs.declared.expressions.operators.ExprFault.{ExprFault};
ghost use Rattle.expand65.specs.LineStart.{first_satisfies, opens_parenthesis};
ghost use Rattle.expand65.specs.State.{IsCondition, defined_tree, without_last_condition, complete_expression};
ghost use Rattle.syntax65.specs.Faults.{is_failure, is_system_error};
ghost use Rattle.expand65.specs.Macros.{outermost};

use crate::knows::Knows;
use crate::line_start::{ConditionKind, opens_parenthesis};
use std::alloc::{AllocError, Global};
use std::marker::Model;
use syntax65::{ExpandFault, Expr, ExprKind, Name, Token, read_expr};

/// Parses tokens that are one expression.
pub fn parse_expression(alloc: Global, tokens: &[Token<'_>]) -> Result<Expr, ExpandFault>
    ensures value { RefinesRel is_system_error (λ x. x) result
        (λ r. (q : Result (Tree × ℕ) ExprFault) × IsParsed (lexemes tokens.now) q ×
        (r ≡ complete_expression (length (lexemes tokens.now)) q)) }
    ensures no_failure { IfErr result (λ e. is_failure e ≡ false) }
{
    let (value, count) = read_expr(alloc, tokens)?;
    if count != tokens.len() {
        return Err(ExpandFault::NotUnderstood);
    }
    Ok(value)
}

/// Returns whether the value of an expression isn't 0. The tokens must be one expression.
fn is_nonzero<K: Knows>(alloc: Global, knows: &K, tokens: &[Token<'_>]) -> Result<bool, ExpandFault>
    ensures value { RefinesRel is_system_error (λ b. b) result
        (IsCondition (K.meaning knows.now) ConditionKind.True (lexemes tokens.now)) }
    ensures no_failure { IfErr result (λ e. is_failure e ≡ false) }
{
    let value = parse_expression(alloc, tokens)?;
    match knows.value(&value)? {
        None => Err(ExpandFault::NotConstant),
        Some(value) => Ok(value != 0),
    }
}

/// Returns whether the first token is an opening parenthesis.
fn begins_parenthesis(tokens: &[Token<'_>]) -> bool
    ensures { result ≡ first_satisfies opens_parenthesis (lexemes tokens.now) }
{
    matches!(tokens, [first, ..] if opens_parenthesis(first))
}

/// Returns whether a name is that of a label or constant. Any other expression is an error.
fn is_name_defined<K: Knows>(alloc: Global, knows: &K, expr: &Expr) -> Result<bool, ExpandFault>
    ensures value { Refines is_system_error (λ b. b) result
        (defined_tree (K.meaning knows.now) expr.now) }
    ensures no_failure { IfErr result (λ e. is_failure e ≡ false) }
{
    match expr.kind() {
        ExprKind::Plain(name) => Ok(knows.defined(&Name::of(alloc, name.as_slice())?)),
        ExprKind::Scoped(name) => Ok(knows.defined(name)),
        _ => Err(ExpandFault::NotUnderstood),
    }
}

/// Returns whether a name is that of a label or constant. The tokens must be one name.
fn is_defined<K: Knows>(alloc: Global, knows: &K, tokens: &[Token<'_>]) -> Result<bool, ExpandFault>
    ensures value { RefinesRel is_system_error (λ b. b) result
        (IsCondition (K.meaning knows.now) ConditionKind.Defined (lexemes tokens.now)) }
    ensures no_failure { IfErr result (λ e. is_failure e ≡ false) }
{
    let name = parse_expression(alloc, tokens)?;
    if begins_parenthesis(tokens) {
        return Err(ExpandFault::NotUnderstood);
    }
    is_name_defined(alloc, knows, &name)
}

/// Evaluates a condition.
pub fn evaluate_condition<K: Knows>(
    alloc: Global,
    knows: &K,
    test: ConditionKind,
    tokens: &[Token<'_>],
) -> Result<bool, ExpandFault>
    ensures value { RefinesRel is_system_error (λ b. b) result
        (IsCondition (K.meaning knows.now) test (lexemes tokens.now)) }
    ensures no_failure { IfErr result (λ e. is_failure e ≡ false) }
{
    match test {
        ConditionKind::True => is_nonzero(alloc, knows, tokens),
        ConditionKind::Defined => is_defined(alloc, knows, tokens),
        ConditionKind::NotDefined => Ok(!is_defined(alloc, knows, tokens)?),
        ConditionKind::Blank => Ok(tokens.is_empty()),
        ConditionKind::NotBlank => Ok(!tokens.is_empty()),
    }
}

/// For each open condition, whether an `.else` added it. The contract view lists the innermost
/// first.
#[derive(Drop)]
pub struct Conditions {
    flags: Vec<bool>,
}

impl Model for Conditions {
    ghost use Rattle.std.specs.Prelude.{List, Bool, reverse};

    ghost Value = { List Bool };

    ghost view = { λ c. reverse c.flags.items };
}

impl Conditions {
    pub fn new(alloc: Global) -> Self
        ensures { result ≡ [] }
    {
        Conditions {
            flags: Vec::new(alloc),
        }
    }

    pub fn len(&self) -> usize
        ensures { result ≡ length self.now }
    {
        self.flags.len()
    }

    pub fn push(&mut self, flag: bool) -> Result<(), AllocError>
        ensures { OnOk result (self.new ≡ flag ∷ self.old) }
    {
        Ok(self.flags.push(flag)?)
    }

    /// Removes and returns the innermost condition, if more than `bound` are open.
    pub fn pop_above(&mut self, bound: usize) -> Option<bool>
        ensures pops { without_last_condition self.old bound ≡
            option_map (λ b. (b, self.new)) result }
        ensures same { IfNone result (self.new ≡ self.old) }
    {
        if self.flags.len() <= bound {
            return None;
        }
        self.flags.pop()
    }

    /// Keeps only the `count` outermost conditions.
    pub fn truncate(&mut self, count: usize)
        ensures { self.new ≡ outermost count self.old }
    {
        self.flags.truncate(count);
    }
}
