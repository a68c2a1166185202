//! Parses expressions and operands.

ghost use Rattle.std.specs.Prelude.{◌≡◌, ◌<◌, ◌≤◌, ◌∷◌, [], false, length, not, option_map, IfOk, IfSome, IsTrue, None, Ok, Some};
ghost use Rattle.std.specs.List.{prefix_len};
ghost use Rattle.syntax65.specs.Expressions.{IsParsed, binary_at, operand_start_of};
ghost use Rattle.syntax65.specs.Faults.{is_expr_system_error};
ghost use Rattle.base65.specs.Relations.{RefinesRel};
ghost use Rattle.syntax65.specs.Tokens.{lexeme_of, lexemes};
ghost use Rattle.syntax65.specs.Trees.{number};
ghost use Rattle.syntax65.specs.declared.expressions.operators.OperandStart.TheVariants.{Number};
ghost use Rattle.ast65.specs.Parsing.{is_comma, elements_after_comma, list_elements, quoted_in, IsExpression, IsExpressionAndRest, IsOneOrTwo, RefinesParse, closing_of, index_of, indirect_by, IsExpressionOperand, IsOperand, IsPlainOperand, ParsesAs};
ghost use Rattle.ast65.specs.declared.language.Operand.TheVariants.{Address};

use super::tokens::{has_spelling, identifier_of, is_close, is_comma, is_identifier_named};
use crate::fault::AsmFault;
use crate::language::{Index, Operand, OptionalExpr};
use std::alloc::Global;
use syntax65::{AddressSize, Expr, ExprFault, ExprKind, Punctuation, Token, TokenKind, read_expr};

/// Returns the value of a number.
pub fn number_in(token: &Token<'_>) -> Option<u32>
    ensures number { IfSome result (λ v.
        operand_start_of token.now.kind token.now.text.now ≡ Number v) }
    ensures text { IfSome result (λ _. quoted_in (lexeme_of token.now) ≡ None) }
    ensures comma { IfSome result (λ _. is_comma (lexeme_of token.now) ≡ false) }
{
    match token.kind {
        TokenKind::Number(value) => Some(value),
        _ => None,
    }
}

/// Returns whether an expression ends here: at the end, or before `,` or `)`.
fn end_expression(tokens: &[Token<'_>]) -> bool
    ensures { IsTrue result → binary_at (lexemes tokens.now) 0 ≡ None }
{
    match tokens.split_first() {
        Some((first, _)) => is_comma(first) || is_close(first),
        None => true,
    }
}

/// Returns the value of a number at the start that is a whole expression.
#[inline(always)]
fn single_number(tokens: &[Token<'_>]) -> Option<u32>
    ensures read { IfSome result (λ v. IsParsed (lexemes tokens.now) (Ok (number v, 1))) }
    ensures some { IfSome result (λ _. 0 < length tokens.now) }
{
    let Some((first, following)) = tokens.split_first() else {
        return None;
    };
    if end_expression(following) {
        number_in(first)
    } else {
        None
    }
}

/// Parses the expression at the start. Returns it and its number of tokens. Most expressions are
/// one number, which takes a fast path.
fn parse_expression(alloc: Global, tokens: &[Token<'_>]) -> Result<(Expr, usize), ExprFault>
    ensures read { RefinesRel is_expr_system_error (λ r. r) result (IsParsed (lexemes tokens.now)) }
    ensures bound { IfOk result (λ r. r.1 ≤ length tokens.now) }
{
    match single_number(tokens) {
        Some(value) => Ok((Expr::new(ExprKind::Number(value)), 1)),
        None => read_expr(alloc, tokens),
    }
}

/// Parses an expression that consists of all tokens.
pub fn expression(alloc: Global, tokens: &[Token<'_>]) -> Result<Expr, AsmFault>
    ensures { RefinesParse result (IsExpression (lexemes tokens.now)) }
{
    let (value, count) = parse_expression(alloc, tokens)?;
    if count == tokens.len() {
        Ok(value)
    } else {
        Err(AsmFault::NotUnderstood)
    }
}

/// Returns the number of tokens before the first comma.
fn len_before_comma(tokens: &[Token<'_>]) -> usize
    ensures { result ≡ prefix_len (λ t. not (is_comma (lexeme_of t))) tokens.now }
{
    tokens.iter().take_while(|token| !is_comma(token)).count()
}

/// Returns the tokens before the first comma, and those after it, if there is one.
pub fn split_at_comma<'a, 'b>(tokens: &'b [Token<'a>]) -> (&'b [Token<'a>], Option<&'b [Token<'a>]>)
    ensures parts { list_elements (lexemes tokens.now) ≡ lexemes result.0.now ∷ elements_after_comma
        (option_map (λ rest. lexemes rest.now) result.1) }
    ensures shorter { IfSome result.1 (λ rest. length rest.now < length tokens.now) }
{
    let len = len_before_comma(tokens);
    if len < tokens.len() {
        (&tokens[..len], Some(&tokens[len + 1..]))
    } else {
        (tokens, None)
    }
}

/// Parses an expression at the start. Returns it and the rest.
pub fn split_expression<'a, 'b>(
    alloc: Global,
    tokens: &'b [Token<'a>],
) -> Result<(Expr, &'b [Token<'a>]), AsmFault>
    ensures { ParsesAs (λ x. (x.0, lexemes x.1.now)) result
        (IsExpressionAndRest (lexemes tokens.now)) }
{
    let (value, count) = parse_expression(alloc, tokens)?;
    Ok((value, &tokens[count..]))
}

/// Parses an expression and an optional second one.
fn two_expressions(
    alloc: Global,
    first: &[Token<'_>],
    second: &[Token<'_>],
) -> Result<(Expr, OptionalExpr), AsmFault>
    ensures { RefinesParse result (IsOneOrTwo (lexemes first.now ∷ lexemes second.now ∷ [])) }
{
    let first = expression(alloc, first)?;
    let second = expression(alloc, second)?;
    Ok((first, OptionalExpr::some(alloc, second)?))
}

/// Parses one expression, or two separated by a comma.
pub fn one_or_two(alloc: Global, tokens: &[Token<'_>]) -> Result<(Expr, OptionalExpr), AsmFault>
    ensures { RefinesParse result (IsOneOrTwo (list_elements (lexemes tokens.now))) }
{
    let (first, following) = split_at_comma(tokens);
    let Some(following) = following else {
        return Ok((expression(alloc, first)?, OptionalExpr::none()));
    };
    let (second, following) = split_at_comma(following);
    match following {
        None => two_expressions(alloc, first, second),
        Some(_) => Err(AsmFault::NotUnderstood),
    }
}

/// Parses nothing, or a comma and an index register.
fn index_of(tokens: &[Token<'_>]) -> Result<Option<Index>, AsmFault>
    ensures { result ≡ index_of (lexemes tokens.now) }
{
    match tokens {
        [] => Ok(None),
        [comma, register] if is_comma(comma) && is_identifier_named(register, b"x") => Ok(Some(
            Index::X,
        )),
        [comma, register] if is_comma(comma) && is_identifier_named(register, b"y") => Ok(Some(
            Index::Y,
        )),
        _ => Err(AsmFault::NotUnderstood),
    }
}

/// Parses `e`, `e,x` or `e,y`.
fn address(
    alloc: Global,
    prefix: Option<AddressSize>,
    tokens: &[Token<'_>],
) -> Result<Operand, AsmFault>
    ensures { RefinesParse result (IsExpressionOperand index_of (Address prefix)
        (lexemes tokens.now)) }
{
    let (value, following) = split_expression(alloc, tokens)?;
    let index = index_of(following)?;
    Ok(Operand::Address {
        prefix,
        value,
        index,
    })
}

/// Parses the end of an indirect operand, after `(` and an expression: `)`, `,x)` or `),y`.
fn closing_of(tokens: &[Token<'_>]) -> Result<Option<Index>, AsmFault>
    ensures { result ≡ closing_of (lexemes tokens.now) }
{
    match tokens {
        [end] if is_close(end) => Ok(None),
        [first, second, third] => {
            if is_comma(first) && is_identifier_named(second, b"x") && is_close(third) {
                Ok(Some(Index::X))
            } else if is_close(first) && is_comma(second) && is_identifier_named(third, b"y") {
                Ok(Some(Index::Y))
            } else {
                Err(AsmFault::NotUnderstood)
            }
        }
        _ => Err(AsmFault::NotUnderstood),
    }
}

fn indirect_by(value: Expr, index: Option<Index>) -> Operand
    ensures { result ≡ indirect_by value index }
{
    match index {
        None => Operand::Indirect(value),
        Some(Index::X) => Operand::IndirectX(value),
        Some(Index::Y) => Operand::IndirectY(value),
    }
}

/// Parses an indirect operand, after its `(`.
fn indirect(alloc: Global, tokens: &[Token<'_>]) -> Result<Operand, AsmFault>
    ensures { RefinesParse result (IsExpressionOperand closing_of indirect_by
        (lexemes tokens.now)) }
{
    let (value, following) = split_expression(alloc, tokens)?;
    let index = closing_of(following)?;
    Ok(indirect_by(value, index))
}

/// Parses `a`, or an address without a prefix.
#[tactic(auto, unfolding(crate::specs::Parsing::IsPlainOperand))]
fn plain_operand(alloc: Global, tokens: &[Token<'_>]) -> Result<Operand, AsmFault>
    ensures { RefinesParse result (IsPlainOperand (lexemes tokens.now)) }
{
    if has_spelling(identifier_of(tokens), b"a") {
        Ok(Operand::Accumulator)
    } else {
        address(alloc, None, tokens)
    }
}

/// Parses the operand of an instruction.
#[inline(always)]
pub fn operand(alloc: Global, tokens: &[Token<'_>]) -> Result<Operand, AsmFault>
    ensures { RefinesParse result (IsOperand (lexemes tokens.now)) }
{
    let Some((first, following)) = tokens.split_first() else {
        return Ok(Operand::Absent);
    };
    match first.kind {
        TokenKind::Symbol(Punctuation::Hash) => Ok(Operand::Immediate(expression(
            alloc, following,
        )?)),
        TokenKind::Symbol(Punctuation::OpenParenthesis) => indirect(alloc, following),
        TokenKind::SizePrefix(size) => address(alloc, Some(size), following),
        _ => plain_operand(alloc, tokens),
    }
}
