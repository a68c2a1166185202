//! Parses expressions, and names joined by `::`.

ghost use Rattle.std.specs.Prelude.{◌<◌, ◌≤◌, length, IfOk, ◌≡◌};
ghost use Rattle.syntax65.specs.Expressions.{AreNames, IsLevel, IsParsed, operand_start_at, leaf_of};
ghost use Rattle.syntax65.specs.Tokens.{lexemes};
ghost use Rattle.syntax65.specs.Faults.{is_expr_system_error};
ghost use Rattle.base65.specs.Relations.{RefinesRel};
ghost use Rattle.syntax65.specs.declared.expressions.operators.OperandStart.TheVariants as opening;

use super::operators::{
    ExprFault, OperandStart, closes_at, is_name, is_negation, is_scope, operand_start_at,
    operator_at, text_at,
};
use super::trees::{Expr, ExprKind, Identifier, Name, Operands};
use crate::{ListVec, Op1, Token};
use std::alloc::{AllocError, Global};

/// Parses names joined by `::`, from a token on. Returns them and the index after them.
pub fn read_parts(
    alloc: Global,
    tokens: &[Token<'_>],
    at: usize,
) -> Result<(ListVec<ListVec<u8>>, usize), ExprFault>
    requires { at ≤ length tokens.now }
    ensures parts { RefinesRel is_expr_system_error (λ r. r) result
        (AreNames (lexemes tokens.now) at) }
    ensures further { IfOk result (λ r. at < r.1) }
    ensures in_bounds { IfOk result (λ r. r.1 ≤ length tokens.now) }
{
    let mut parts = ListVec::new(alloc);
    let mut end = at;
    'parts: loop {
        if !is_name(tokens, end) {
            return Err(ExprFault::OperandExpected);
        }
        let part = Vec::from_slice(alloc, text_at(tokens, end))?;
        parts.push(ListVec::from_vec(part))?;
        if !is_scope(tokens, end + 1) {
            return Ok((parts, end + 1));
        }
        end += 2;
    }
}

/// The greatest nesting depth of parentheses, prefix operators and negations together.
pub const MAX_DEPTH: u8 = 64;

/// Parses the expression at the start of `tokens`. Returns it and its number of tokens.
///
/// # Errors
///
/// The error of the first token at which no expression can continue.
pub fn read_expr(alloc: Global, tokens: &[Token<'_>]) -> Result<(Expr, usize), ExprFault>
    ensures read { RefinesRel is_expr_system_error (λ r. r) result (IsParsed (lexemes tokens.now)) }
    ensures further { IfOk result (λ r. 0 < r.1) }
    ensures bound { IfOk result (λ r. r.1 ≤ length tokens.now) }
{
    read_whole(alloc, tokens, 0, MAX_DEPTH)
}

/// Parses a phrase of the last level, from a token on. Returns it and the index after it.
#[cycle(expr)]
fn read_whole(
    alloc: Global,
    tokens: &[Token<'_>],
    at: usize,
    depth_left: u8,
) -> Result<(Expr, usize), ExprFault>
    ensures phrase { RefinesRel is_expr_system_error (λ r. r) result
        (IsLevel (lexemes tokens.now) depth_left 6 at) }
    ensures further { IfOk result (λ r. at < r.1) }
    ensures in_bounds { IfOk result (λ r. r.1 ≤ length tokens.now) }
{
    if is_negation(tokens, at) {
        read_negated(alloc, tokens, at, depth_left)
    } else {
        read_level(alloc, tokens, at, 5, depth_left)
    }
}

#[cycle(expr)]
fn read_negated(
    alloc: Global,
    tokens: &[Token<'_>],
    at: usize,
    depth_left: u8,
) -> Result<(Expr, usize), ExprFault>
    requires in_bounds { at < length tokens.now }
    requires negation { operand_start_at (lexemes tokens.now) at ≡ opening.Negation }
    ensures phrase { RefinesRel is_expr_system_error (λ r. r) result
        (IsLevel (lexemes tokens.now) depth_left 6 at) }
    ensures further { IfOk result (λ r. at < r.1) }
    ensures in_bounds { IfOk result (λ r. r.1 ≤ length tokens.now) }
{
    if depth_left == 0 {
        return Err(ExprFault::TooDeep);
    }
    let (operand, end) = read_whole(alloc, tokens, at + 1, depth_left - 1)?;
    Ok((
        Expr::new(ExprKind::Prefix(Op1::Not, Box::new(alloc, operand)?)),
        end,
    ))
}

/// Parses a phrase of a level, from a token on. Returns it and the index after it.
#[cycle(expr)]
fn read_level(
    alloc: Global,
    tokens: &[Token<'_>],
    at: usize,
    level: u8,
    depth_left: u8,
) -> Result<(Expr, usize), ExprFault>
    requires { level ≤ 5 }
    ensures phrase { RefinesRel is_expr_system_error (λ r. r) result
        (IsLevel (lexemes tokens.now) depth_left level at) }
    ensures further { IfOk result (λ r. at < r.1) }
    ensures in_bounds { IfOk result (λ r. r.1 ≤ length tokens.now) }
{
    let (mut left, mut end) = read_operand(alloc, tokens, at, depth_left)?;
    // No operator of this level or a tighter one follows the phrase, so the phrase read so far is
    // the left operand of the next operator.
    'operators: while let Some((op, own)) = operator_at(tokens, level, end) {
        let (right, next) = read_level(alloc, tokens, end + 1, own - 1, depth_left)?;
        let operands = Operands { left, right };
        left = Expr::new(ExprKind::Binary(op, Box::new(alloc, operands)?));
        end = next;
    }
    Ok((left, end))
}

#[cycle(expr)]
fn read_operand(
    alloc: Global,
    tokens: &[Token<'_>],
    at: usize,
    depth_left: u8,
) -> Result<(Expr, usize), ExprFault>
    ensures phrase { RefinesRel is_expr_system_error (λ r. r) result
        (IsLevel (lexemes tokens.now) depth_left 0 at) }
    ensures further { IfOk result (λ r. at < r.1) }
    ensures in_bounds { IfOk result (λ r. r.1 ≤ length tokens.now) }
{
    let start = operand_start_at(tokens, at);
    if let Some(leaf) = leaf_of(alloc, start, text_at(tokens, at))? {
        return Ok((leaf, at + 1));
    }
    match start {
        OperandStart::Name => read_name(alloc, tokens, at, depth_left),
        OperandStart::Scope => read_global(alloc, tokens, at, depth_left),
        OperandStart::Prefix(op) => read_prefixed(alloc, tokens, at, depth_left, op),
        OperandStart::Parenthesis => read_enclosed(alloc, tokens, at, depth_left),
        _ => Err(ExprFault::OperandExpected),
    }
}

/// Returns the operand that consists of one token.
fn leaf_of(alloc: Global, start: OperandStart, text: &[u8]) -> Result<Option<Expr>, AllocError>
    ensures { IfOk result (λ leaf. leaf ≡ leaf_of start text.now) }
{
    let kind = match start {
        OperandStart::Number(value) => ExprKind::Number(value),
        OperandStart::Here => ExprKind::Here,
        OperandStart::Cheap => ExprKind::Cheap(Identifier::copy_of(alloc, text)?),
        OperandStart::Forward(count) => ExprKind::Forward(count),
        OperandStart::Backward(count) => ExprKind::Backward(count),
        _ => return Ok(None),
    };
    Ok(Some(Expr::new(kind)))
}

fn read_name(
    alloc: Global,
    tokens: &[Token<'_>],
    at: usize,
    depth_left: u8,
) -> Result<(Expr, usize), ExprFault>
    requires in_bounds { at < length tokens.now }
    requires name { operand_start_at (lexemes tokens.now) at ≡ opening.Name }
    ensures phrase { RefinesRel is_expr_system_error (λ r. r) result
        (IsLevel (lexemes tokens.now) depth_left 0 at) }
    ensures further { IfOk result (λ r. at < r.1) }
    ensures in_bounds { IfOk result (λ r. r.1 ≤ length tokens.now) }
{
    if !is_scope(tokens, at + 1) {
        let name = Identifier::copy_of(alloc, text_at(tokens, at))?;
        return Ok((Expr::new(ExprKind::Plain(name)), at + 1));
    }
    let (parts, end) = read_parts(alloc, tokens, at)?;
    let name = Name {
        is_global: false,
        parts,
    };
    Ok((Expr::new(ExprKind::Scoped(name)), end))
}

fn read_global(
    alloc: Global,
    tokens: &[Token<'_>],
    at: usize,
    depth_left: u8,
) -> Result<(Expr, usize), ExprFault>
    requires in_bounds { at < length tokens.now }
    requires scope { operand_start_at (lexemes tokens.now) at ≡ opening.Scope }
    ensures phrase { RefinesRel is_expr_system_error (λ r. r) result
        (IsLevel (lexemes tokens.now) depth_left 0 at) }
    ensures further { IfOk result (λ r. at < r.1) }
    ensures in_bounds { IfOk result (λ r. r.1 ≤ length tokens.now) }
{
    let (parts, end) = read_parts(alloc, tokens, at + 1)?;
    let name = Name {
        is_global: true,
        parts,
    };
    Ok((Expr::new(ExprKind::Scoped(name)), end))
}

#[cycle(expr)]
fn read_prefixed(
    alloc: Global,
    tokens: &[Token<'_>],
    at: usize,
    depth_left: u8,
    op: Op1,
) -> Result<(Expr, usize), ExprFault>
    requires in_bounds { at < length tokens.now }
    requires prefix { operand_start_at (lexemes tokens.now) at ≡ opening.Prefix op }
    ensures phrase { RefinesRel is_expr_system_error (λ r. r) result
        (IsLevel (lexemes tokens.now) depth_left 0 at) }
    ensures further { IfOk result (λ r. at < r.1) }
    ensures in_bounds { IfOk result (λ r. r.1 ≤ length tokens.now) }
{
    if depth_left == 0 {
        return Err(ExprFault::TooDeep);
    }
    let (operand, end) = read_operand(alloc, tokens, at + 1, depth_left - 1)?;
    Ok((
        Expr::new(ExprKind::Prefix(op, Box::new(alloc, operand)?)),
        end,
    ))
}

#[cycle(expr)]
fn read_enclosed(
    alloc: Global,
    tokens: &[Token<'_>],
    at: usize,
    depth_left: u8,
) -> Result<(Expr, usize), ExprFault>
    requires in_bounds { at < length tokens.now }
    requires open { operand_start_at (lexemes tokens.now) at ≡ opening.Parenthesis }
    ensures phrase { RefinesRel is_expr_system_error (λ r. r) result
        (IsLevel (lexemes tokens.now) depth_left 0 at) }
    ensures further { IfOk result (λ r. at < r.1) }
    ensures in_bounds { IfOk result (λ r. r.1 ≤ length tokens.now) }
{
    if depth_left == 0 {
        return Err(ExprFault::TooDeep);
    }
    let (inner, end) = read_whole(alloc, tokens, at + 1, depth_left - 1)?;
    if closes_at(tokens, end) {
        Ok((inner, end + 1))
    } else {
        Err(ExprFault::ParenthesisExpected)
    }
}
