//! Classifies the tokens of expressions; errors of expressions.

ghost use Rattle.std.specs.Prelude.{◌≡◌, ◌≢◌, ◌<◌, ◌≤◌, ◌↔◌, length, slice_get, IfSome, IsSome, IsTrue, MatchOption, Some};
ghost use Rattle.syntax65.specs.declared.expressions.operators.ExprFault.TheVariants.{OutOfMemory};
ghost use Rattle.std.specs.Option.{option_map};
ghost use Rattle.syntax65.specs.Expressions.{operand_start_at, binary_at, text_at, closes_at, HasNoOperator, is_register, is_reserved, unnamed_start, start_of_punctuator, start_of_keyword, operand_start_of, binary_of_punctuator, binary_of_keyword, binary_of, level_of};
ghost use Rattle.syntax65.specs.Tokens.{lexeme_of, lexemes};

use crate::spelling::spells_keyword;
use crate::{Op1, Op2, Punctuation, Token, TokenKind, mnemonic};
use std::alloc::{AllocError, AllocFailed};
use std::fmt;

/// An error of an expression.
#[derive(Clone, Copy, Debug, PartialEq, Eq)]
pub enum ExprFault {
    OutOfMemory = 1,
    OperandExpected = 6,
    ParenthesisExpected = 7,
    TooDeep = 8,
}

impl ExprFault {
    ghost use Rattle.syntax65.specs.Faults.{expr_fault_message};

    /// Returns the text of the message.
    pub fn message_text(self) -> &'static str
        ensures { result.now ≡ expr_fault_message self }
    {
        match self {
            ExprFault::OutOfMemory => "out of memory",
            ExprFault::OperandExpected => "operand expected",
            ExprFault::ParenthesisExpected => "parenthesis expected",
            ExprFault::TooDeep => "nested too deep",
        }
    }
}

impl fmt::Display for ExprFault {
    ghost use Rattle.std.specs.Prelude.{Some};
    ghost use Rattle.syntax65.specs.Faults.{expr_fault_message};

    ghost output = { λ e. Some (expr_fault_message e) };

    fn fmt<W: fmt::Write>(&self, f: &mut fmt::Formatter<W>) -> fmt::Result {
        f.write_str(self.message_text())
    }
}

impl std::error::Error for ExprFault {}

impl From<AllocError> for ExprFault {
    ghost from_gives = { λ _ e. e ≡ OutOfMemory };

    fn from(_e: AllocError) -> ExprFault {
        ExprFault::OutOfMemory
    }
}

impl<T: Drop> From<AllocFailed<T>> for ExprFault {
    ghost from_gives = { λ _ e. e ≡ OutOfMemory };

    fn from(_e: AllocFailed<T>) -> ExprFault {
        ExprFault::OutOfMemory
    }
}

fn token_at<'a>(tokens: &[Token<'a>], at: usize) -> Option<Token<'a>>
    ensures value { option_map lexeme_of result ≡ slice_get (lexemes tokens.now) at }
    ensures in_bounds { IsSome result → at < length tokens.now }
{
    tokens.get(at).copied()
}

/// Returns how the token at an index can begin an operand.
pub fn operand_start_at(tokens: &[Token<'_>], at: usize) -> OperandStart
    ensures value { result ≡ operand_start_at (lexemes tokens.now) at }
    ensures in_bounds { result ≢ OperandStart.Nothing → at < length tokens.now }
{
    match token_at(tokens, at) {
        Some(token) => operand_start_of(token.kind, token.text),
        None => OperandStart::Nothing,
    }
}

/// Returns whether the token at an index is a name.
pub fn is_name(tokens: &[Token<'_>], at: usize) -> bool
    ensures value { IsTrue result ↔ (operand_start_at (lexemes tokens.now) at ≡ OperandStart.Name) }
    ensures in_bounds { IsTrue result → at < length tokens.now }
{
    matches!(operand_start_at(tokens, at), OperandStart::Name)
}

/// Returns whether the token at an index is `::`.
pub fn is_scope(tokens: &[Token<'_>], at: usize) -> bool
    ensures value { IsTrue result ↔ (operand_start_at (lexemes tokens.now) at ≡
        OperandStart.Scope) }
    ensures in_bounds { IsTrue result → at < length tokens.now }
{
    match token_at(tokens, at) {
        Some(token) => matches!(token.kind, TokenKind::Symbol(Punctuation::Scope)),
        None => false,
    }
}

/// Returns whether the token at an index is `!`.
pub fn is_negation(tokens: &[Token<'_>], at: usize) -> bool
    ensures value { IsTrue result ↔ (operand_start_at (lexemes tokens.now) at ≡
        OperandStart.Negation) }
    ensures in_bounds { IsTrue result → at < length tokens.now }
{
    match token_at(tokens, at) {
        Some(
            Token {
                kind: TokenKind::Symbol(punctuator),
                ..
            },
        ) => matches!(punctuator, Punctuation::Exclamation),
        Some(
            Token {
                kind: TokenKind::Directive,
                text,
            },
        ) => matches!(start_of_keyword(text), OperandStart::Negation),
        _ => false,
    }
}

/// Returns the bytes of the token at an index, or none after the last token.
pub fn text_at<'a>(tokens: &[Token<'a>], at: usize) -> &'a [u8]
    ensures { result.now ≡ text_at (lexemes tokens.now) at }
{
    match token_at(tokens, at) {
        Some(token) => token.text,
        None => b"",
    }
}

/// Returns the operator at an index and its level, if that is at most `level`.
pub fn operator_at(tokens: &[Token<'_>], level: u8, at: usize) -> Option<(Op2, u8)>
    ensures value { MatchOption result (HasNoOperator (lexemes tokens.now) level at)
        (λ x. (binary_at (lexemes tokens.now) at ≡ Some x.0) ×
        ((level_of x.0 ≡ x.1) × (x.1 ≤ level))) }
    ensures some { IfSome result (λ x. 0 < x.1) }
    ensures in_bounds { IsSome result → at < length tokens.now }
{
    let op = binary_at(tokens, at)?;
    let operator_level = level_of(op);
    if operator_level <= level {
        Some((op, operator_level))
    } else {
        None
    }
}

fn binary_at(tokens: &[Token<'_>], at: usize) -> Option<Op2>
    ensures value { result ≡ binary_at (lexemes tokens.now) at }
    ensures in_bounds { IsSome result → at < length tokens.now }
{
    let token = token_at(tokens, at)?;
    binary_of(token.kind, token.text)
}

/// Returns whether the token at an index is `)`.
pub fn closes_at(tokens: &[Token<'_>], at: usize) -> bool
    ensures value { result ≡ closes_at (lexemes tokens.now) at }
    ensures in_bounds { IsTrue result → at < length tokens.now }
{
    match token_at(tokens, at) {
        Some(token) => matches!(token.kind, TokenKind::Symbol(Punctuation::CloseParenthesis)),
        None => false,
    }
}

/// How a token can begin an operand, or why it can't.
#[derive(Clone, Copy)]
pub enum OperandStart {
    Number(u32),
    Here,
    Cheap,
    Forward(usize),
    Backward(usize),
    Name,
    Scope,
    Prefix(Op1),
    Parenthesis,
    Negation,
    Nothing,
}

/// Returns whether an identifier is the name of a mnemonic or a register, and so no symbol.
pub fn is_reserved(text: &[u8]) -> bool
    ensures { result ≡ is_reserved text.now }
{
    is_register(text) || mnemonic(text).is_some()
}

fn is_register(text: &[u8]) -> bool
    ensures { result ≡ is_register text.now }
{
    spells_keyword(text, b"a") || spells_keyword(text, b"x") || spells_keyword(text, b"y")
}

/// Returns how a token can begin an operand.
pub fn operand_start_of(kind: TokenKind, text: &[u8]) -> OperandStart
    ensures { result ≡ operand_start_of kind text.now }
{
    match kind {
        TokenKind::Identifier => {
            if is_reserved(text) {
                OperandStart::Nothing
            } else {
                OperandStart::Name
            }
        }
        TokenKind::CheapName => OperandStart::Cheap,
        TokenKind::Directive => start_of_keyword(text),
        TokenKind::Number(value) => OperandStart::Number(value),
        TokenKind::Character(byte) => OperandStart::Number(u32::from(byte)),
        TokenKind::Unnamed => unnamed_reference(text),
        TokenKind::Symbol(punctuator) => start_of_punctuator(punctuator),
        TokenKind::StringLiteral | TokenKind::SizePrefix(_) => OperandStart::Nothing,
    }
}

fn unnamed_reference(text: &[u8]) -> OperandStart
    ensures { result ≡ unnamed_start text.now }
{
    let count = text.len().saturating_sub(1);
    if count > 0 && text[1] == b'+' {
        OperandStart::Forward(count)
    } else {
        OperandStart::Backward(count)
    }
}

fn start_of_punctuator(punctuator: Punctuation) -> OperandStart
    ensures { result ≡ start_of_punctuator punctuator }
{
    match punctuator {
        Punctuation::Star => OperandStart::Here,
        Punctuation::Scope => OperandStart::Scope,
        Punctuation::OpenParenthesis => OperandStart::Parenthesis,
        Punctuation::Exclamation => OperandStart::Negation,
        Punctuation::Plus => OperandStart::Prefix(Op1::Plus),
        Punctuation::Minus => OperandStart::Prefix(Op1::Negate),
        Punctuation::Tilde => OperandStart::Prefix(Op1::BitNot),
        Punctuation::Less => OperandStart::Prefix(Op1::LowByte),
        Punctuation::Greater => OperandStart::Prefix(Op1::HighByte),
        Punctuation::Caret => OperandStart::Prefix(Op1::BankByte),
        _ => OperandStart::Nothing,
    }
}

fn start_of_keyword(text: &[u8]) -> OperandStart
    ensures { result ≡ start_of_keyword text.now }
{
    if spells_keyword(text, b".bitnot") {
        OperandStart::Prefix(Op1::BitNot)
    } else if spells_keyword(text, b".lobyte") {
        OperandStart::Prefix(Op1::LowByte)
    } else if spells_keyword(text, b".hibyte") {
        OperandStart::Prefix(Op1::HighByte)
    } else if spells_keyword(text, b".bankbyte") {
        OperandStart::Prefix(Op1::BankByte)
    } else if spells_keyword(text, b".not") {
        OperandStart::Negation
    } else {
        OperandStart::Nothing
    }
}

/// Returns the binary operator that a token is.
pub fn binary_of(kind: TokenKind, text: &[u8]) -> Option<Op2>
    ensures { result ≡ binary_of kind text.now }
{
    match kind {
        TokenKind::Symbol(punctuator) => binary_of_punctuator(punctuator),
        TokenKind::Directive => binary_of_keyword(text),
        _ => None,
    }
}

fn binary_of_punctuator(punctuator: Punctuation) -> Option<Op2>
    ensures { result ≡ binary_of_punctuator punctuator }
{
    Some(match punctuator {
        Punctuation::Star => Op2::Multiply,
        Punctuation::Slash => Op2::Divide,
        Punctuation::Ampersand => Op2::BitAnd,
        Punctuation::Caret => Op2::BitXor,
        Punctuation::ShiftLeft => Op2::ShiftLeft,
        Punctuation::ShiftRight => Op2::ShiftRight,
        Punctuation::Plus => Op2::Add,
        Punctuation::Minus => Op2::Subtract,
        Punctuation::Bar => Op2::BitOr,
        Punctuation::Equal => Op2::Equal,
        Punctuation::NotEqual => Op2::NotEqual,
        Punctuation::Less => Op2::Less,
        Punctuation::Greater => Op2::Greater,
        Punctuation::LessOrEqual => Op2::LessOrEqual,
        Punctuation::GreaterOrEqual => Op2::GreaterOrEqual,
        Punctuation::AndAnd => Op2::And,
        Punctuation::OrOr => Op2::Or,
        _ => return None,
    })
}

fn binary_of_keyword(text: &[u8]) -> Option<Op2>
    ensures { result ≡ binary_of_keyword text.now }
{
    if spells_keyword(text, b".mod") {
        Some(Op2::Modulo)
    } else if spells_keyword(text, b".bitand") {
        Some(Op2::BitAnd)
    } else if spells_keyword(text, b".bitxor") {
        Some(Op2::BitXor)
    } else if spells_keyword(text, b".shl") {
        Some(Op2::ShiftLeft)
    } else if spells_keyword(text, b".shr") {
        Some(Op2::ShiftRight)
    } else if spells_keyword(text, b".bitor") {
        Some(Op2::BitOr)
    } else if spells_keyword(text, b".and") {
        Some(Op2::And)
    } else if spells_keyword(text, b".xor") {
        Some(Op2::Xor)
    } else if spells_keyword(text, b".or") {
        Some(Op2::Or)
    } else {
        None
    }
}

/// Returns the level of an operator. The tightest binary operators have level 1, and prefix
/// operators level 0.
pub fn level_of(op: Op2) -> u8
    ensures { result ≡ level_of op }
{
    match op {
        Op2::Multiply | Op2::Divide | Op2::Modulo => 1,
        Op2::BitAnd | Op2::BitXor | Op2::ShiftLeft | Op2::ShiftRight => 1,
        Op2::Add | Op2::Subtract | Op2::BitOr => 2,
        Op2::Equal | Op2::NotEqual | Op2::Less | Op2::Greater => 3,
        Op2::LessOrEqual | Op2::GreaterOrEqual => 3,
        Op2::And | Op2::Xor => 4,
        Op2::Or => 5,
    }
}
