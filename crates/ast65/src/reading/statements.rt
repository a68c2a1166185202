//! Parses labels and statements; dispatches on directives.

ghost use Rattle.std.specs.Prelude.{◌≡◌, ◌∷◌, false, Ok, option_map, IfSome, Result, Some};
ghost use Rattle.syntax65.specs.Tokens.{lexeme_of, lexemes};
ghost use Rattle.ast65.specs.Parsing.{label_with_colon, label_of, named_label, RefinesParse, IsConstant, IsInstruction, IsNamedStatement, IsStatement, ParsesAs};
ghost use Rattle.syntax65.specs.Mnemonics.{mnemonic_of};
ghost use Rattle.syntax65.specs.declared.lexing.tokens.TokenKind.TheVariants as token;
ghost use Rattle.ast65.specs.declared.fault.AsmFault.{AsmFault};
ghost use Rattle.ast65.specs.declared.language.Statement.{Statement};

use super::directives::{
    asciiz, assertion, bare, incbin, list, message, name_list, processor, sized,
};
use super::keywords::{Directive, directive_of};
use super::operands::{expression, operand};
use super::tokens::{is_colon, is_definition, proc, scope, segment};
use crate::fault::AsmFault;
use crate::language::Statement;
use base65::ListVec;
use std::alloc::Global;
use syntax65::{Identifier, Mnemonic, Token, TokenKind, is_reserved, mnemonic};

/// Returns the label that a token before `:` is, if it is one.
fn named_label(alloc: Global, token: &Token<'_>) -> Result<Option<Statement>, AsmFault>
    ensures { RefinesParse result (λ r.
        r ≡ Ok (named_label (lexeme_of token.now).0 (lexeme_of token.now).1)) }
{
    match token.kind {
        TokenKind::Identifier => {
            if is_reserved(token.text) {
                Ok(None)
            } else {
                Ok(Some(Statement::Label(Identifier::copy_of(alloc, token.text)?)))
            }
        }
        TokenKind::CheapName => Ok(Some(Statement::CheapLabel(Identifier::copy_of(
            alloc, token.text,
        )?))),
        _ => Ok(None),
    }
}

/// Splits off a label that consists of a token and `:`.
fn label_with_colon<'a, 'b>(
    alloc: Global,
    token: &Token<'a>,
    following: &'b [Token<'a>],
) -> Result<Option<(Statement, &'b [Token<'a>])>, AsmFault>
    ensures { ParsesAs (λ label. option_map (λ x. (x.0, lexemes x.1.now)) label) result (λ r.
        r ≡ Ok (label_with_colon (lexeme_of token.now) (lexemes following.now))) }
{
    let Some((colon, rest)) = following.split_first() else {
        return Ok(None);
    };
    if !is_colon(colon) {
        return Ok(None);
    }
    match named_label(alloc, token)? {
        Some(label) => Ok(Some((label, rest))),
        None => Ok(None),
    }
}

/// Splits the label off the start, if there is one. Returns it and the rest.
pub fn label<'a, 'b>(
    alloc: Global,
    tokens: &'b [Token<'a>],
) -> Result<(Option<Statement>, &'b [Token<'a>]), AsmFault>
    ensures { ParsesAs (λ x. (x.0, lexemes x.1.now)) result (λ r. r ≡
        Ok (label_of (lexemes tokens.now))) }
{
    let Some((first, following)) = tokens.split_first() else {
        return Ok((None, tokens));
    };
    if is_colon(first) {
        return Ok((Some(Statement::UnnamedLabel), following));
    }
    match label_with_colon(alloc, first, following)? {
        Some((label, following)) => Ok((Some(label), following)),
        None => Ok((None, tokens)),
    }
}

/// Parses the statement of a directive from the tokens after it.
fn directive_statement(
    alloc: Global,
    keyword: &[u8],
    tokens: &[Token<'_>],
) -> Result<Statement, AsmFault>
    ensures { RefinesParse result
        (IsStatement ((token.Directive, keyword.now) ∷ lexemes tokens.now)) }
{
    let Some(directive) = directive_of(keyword) else {
        return Err(AsmFault::NotUnderstood);
    };
    match directive {
        Directive::List(elements, width) => list(alloc, elements, width, tokens),
        Directive::Asciiz => asciiz(alloc, tokens),
        Directive::Sized(which) => sized(alloc, which, tokens),
        Directive::Incbin => incbin(alloc, tokens),
        Directive::Segment => segment(alloc, tokens),
        Directive::Bare(which) => bare(alloc, which, tokens),
        Directive::Scope => scope(alloc, tokens),
        Directive::Proc => proc(alloc, tokens),
        Directive::Names(which) => name_list(alloc, which, tokens),
        Directive::Assert => assertion(alloc, tokens),
        Directive::Message(which) => message(alloc, which, tokens),
        Directive::SetProcessor => processor(tokens),
    }
}

/// Parses `name = e` from the tokens after `=` or `:=`.
fn constant(alloc: Global, name: &[u8], tokens: &[Token<'_>]) -> Result<Statement, AsmFault>
    ensures { RefinesParse result (IsConstant name.now (lexemes tokens.now)) }
{
    if is_reserved(name) {
        return Err(AsmFault::NotUnderstood);
    }
    let value = expression(alloc, tokens)?;
    let name = Identifier::copy_of(alloc, name)?;
    Ok(Statement::Constant { name, value })
}

/// Parses an instruction from its name and the tokens of its operand.
fn instruction(alloc: Global, name: &[u8], tokens: &[Token<'_>]) -> Result<Statement, AsmFault>
    ensures { RefinesParse result (IsInstruction (mnemonic_of name.now) (lexemes tokens.now)) }
{
    let Some(mnemonic) = mnemonic(name) else {
        return Err(AsmFault::NotUnderstood);
    };
    let operand = operand(alloc, tokens)?;
    Ok(Statement::Instruction { mnemonic, operand })
}

/// Splits an instruction into its mnemonic and the tokens of its operand. Returns `None` for any
/// other statement.
#[inline(always)]
pub fn split_instruction<'a, 'b>(tokens: &'a [Token<'b>]) -> Option<(Mnemonic, &'a [Token<'b>])>
    ensures { IfSome result (λ x. (r : Result Statement AsmFault) →
        IsInstruction (Some x.0) (lexemes x.1.now) r → IsStatement (lexemes tokens.now) r) }
{
    let (first, following) = tokens.split_first()?;
    if !matches!(first.kind, TokenKind::Identifier) {
        return None;
    }
    if let Some((next, _)) = following.split_first() {
        if is_definition(next) {
            return None;
        }
    }
    let mnemonic = mnemonic(first.text)?;
    Some((mnemonic, following))
}

/// Parses a statement that begins with an identifier.
fn named(alloc: Global, name: &[u8], tokens: &[Token<'_>]) -> Result<Statement, AsmFault>
    ensures { RefinesParse result (IsNamedStatement name.now (lexemes tokens.now)) }
{
    match tokens.split_first() {
        Some((first, following)) => {
            if is_definition(first) {
                constant(alloc, name, following)
            } else {
                instruction(alloc, name, tokens)
            }
        }
        None => instruction(alloc, name, tokens),
    }
}

/// Parses a statement without its label.
///
/// # Errors
///
/// `NotUnderstood` for tokens that are no statement.
#[inline(never)]
pub fn statement(alloc: Global, tokens: &[Token<'_>]) -> Result<Statement, AsmFault>
    ensures { RefinesParse result (IsStatement (lexemes tokens.now)) }
{
    let Some((first, following)) = tokens.split_first() else {
        return Err(AsmFault::NotUnderstood);
    };
    match first.kind {
        TokenKind::Identifier => named(alloc, first.text, following),
        TokenKind::Directive => directive_statement(alloc, first.text, following),
        _ => Err(AsmFault::NotUnderstood),
    }
}
