//! Recognises labels and preprocessor directives at the start of lines.

ghost use Rattle.std.specs.Prelude.{◌≡◌, None, false, ◌≤◌, drop, length, option_map};
ghost use Rattle.expand65.specs.LineStart.{keyword_directive, block_keywords, condition_keywords, directive_of, macro_keywords, closes_brace, directive_in, first_directive, is_colon, is_comma, is_label_name, is_mislabelled, label_len, line_directive, may_follow_label, name_in, opens_brace, opens_parenthesis, quoted_in, string_of};
ghost use Rattle.syntax65.specs.Tokens.{lexeme_of, lexemes};

use syntax65::{Punctuation, Token, TokenKind, is_reserved};

/// The kinds of conditions.
#[derive(Clone, Copy)]
pub enum ConditionKind {
    /// `.if`
    True,
    /// `.ifdef`
    Defined,
    /// `.ifndef`
    NotDefined,
    /// `.ifblank`
    Blank,
    /// `.ifnblank`
    NotBlank,
}

/// A preprocessor directive.
#[derive(Clone, Copy)]
pub enum Directive {
    Macro,
    EndMacro,
    ExitMacro,
    Local,
    Repeat,
    EndRepeat,
    If(ConditionKind),
    ElseIf,
    Else,
    EndIf,
    Include,
    Error,
    End,
}

fn condition_keyword(keyword: &[u8]) -> Option<Directive>
    ensures { result ≡ keyword_directive condition_keywords keyword.now }
{
    if keyword.eq_ignore_ascii_case(b".if") {
        Some(Directive::If(ConditionKind::True))
    } else if keyword.eq_ignore_ascii_case(b".ifdef") {
        Some(Directive::If(ConditionKind::Defined))
    } else if keyword.eq_ignore_ascii_case(b".ifndef") {
        Some(Directive::If(ConditionKind::NotDefined))
    } else if keyword.eq_ignore_ascii_case(b".ifblank") {
        Some(Directive::If(ConditionKind::Blank))
    } else if keyword.eq_ignore_ascii_case(b".ifnblank") {
        Some(Directive::If(ConditionKind::NotBlank))
    } else if keyword.eq_ignore_ascii_case(b".elseif") {
        Some(Directive::ElseIf)
    } else if keyword.eq_ignore_ascii_case(b".else") {
        Some(Directive::Else)
    } else if keyword.eq_ignore_ascii_case(b".endif") {
        Some(Directive::EndIf)
    } else {
        None
    }
}

fn macro_keyword(keyword: &[u8]) -> Option<Directive>
    ensures { result ≡ keyword_directive macro_keywords keyword.now }
{
    if keyword.eq_ignore_ascii_case(b".macro") || keyword.eq_ignore_ascii_case(b".mac") {
        Some(Directive::Macro)
    } else if keyword.eq_ignore_ascii_case(b".endmacro")
        || keyword.eq_ignore_ascii_case(b".endmac")
    {
        Some(Directive::EndMacro)
    } else if keyword.eq_ignore_ascii_case(b".exitmacro")
        || keyword.eq_ignore_ascii_case(b".exitmac")
    {
        Some(Directive::ExitMacro)
    } else if keyword.eq_ignore_ascii_case(b".local") {
        Some(Directive::Local)
    } else {
        None
    }
}

fn block_keyword(keyword: &[u8]) -> Option<Directive>
    ensures { result ≡ keyword_directive block_keywords keyword.now }
{
    if keyword.eq_ignore_ascii_case(b".repeat") {
        Some(Directive::Repeat)
    } else if keyword.eq_ignore_ascii_case(b".endrepeat")
        || keyword.eq_ignore_ascii_case(b".endrep")
    {
        Some(Directive::EndRepeat)
    } else if keyword.eq_ignore_ascii_case(b".include") {
        Some(Directive::Include)
    } else if keyword.eq_ignore_ascii_case(b".error") {
        Some(Directive::Error)
    } else if keyword.eq_ignore_ascii_case(b".end") {
        Some(Directive::End)
    } else {
        None
    }
}

/// Returns the preprocessor directive with this name.
pub fn directive_of(keyword: &[u8]) -> Option<Directive>
    ensures { result ≡ directive_of keyword.now }
{
    // Most words of a source are other directives, such as `.byte`.
    if let [_, letter, ..] = keyword {
        match letter.to_ascii_lowercase() {
            b'e' | b'i' | b'l' | b'm' | b'r' => {}
            _ => return None,
        }
    }
    condition_keyword(keyword)
        .or_else(|| macro_keyword(keyword))
        .or_else(|| block_keyword(keyword))
}

pub fn is_colon(token: &Token<'_>) -> bool
    ensures { result ≡ is_colon (lexeme_of token.now) }
{
    matches!(token.kind, TokenKind::Symbol(Punctuation::Colon))
}

pub fn is_comma(token: &Token<'_>) -> bool
    ensures { result ≡ is_comma (lexeme_of token.now) }
{
    matches!(token.kind, TokenKind::Symbol(Punctuation::Comma))
}

/// Returns whether a token is `{`.
pub fn opens_brace(token: &Token<'_>) -> bool
    ensures { result ≡ opens_brace (lexeme_of token.now) }
{
    matches!(token.kind, TokenKind::Symbol(Punctuation::OpenBrace))
}

/// Returns whether a token is `}`.
pub fn closes_brace(token: &Token<'_>) -> bool
    ensures { result ≡ closes_brace (lexeme_of token.now) }
{
    matches!(token.kind, TokenKind::Symbol(Punctuation::CloseBrace))
}

/// Returns whether a token is `(`.
pub fn opens_parenthesis(token: &Token<'_>) -> bool
    ensures { result ≡ opens_parenthesis (lexeme_of token.now) }
{
    matches!(token.kind, TokenKind::Symbol(Punctuation::OpenParenthesis))
}

/// Returns the bytes of an identifier that is neither a mnemonic nor a register.
pub fn name_in<'a>(token: &Token<'a>) -> Option<&'a [u8]>
    ensures { option_map (λ s. s.now) result ≡ name_in (lexeme_of token.now) }
{
    match token.kind {
        TokenKind::Identifier if !is_reserved(token.text) => Some(token.text),
        _ => None,
    }
}

/// Returns the bytes between the quotes of a string.
fn quoted_in<'a>(token: &Token<'a>) -> Option<&'a [u8]>
    ensures { option_map (λ s. s.now) result ≡ quoted_in (lexeme_of token.now) }
{
    match token.kind {
        TokenKind::StringLiteral if token.text.len() < 2 => Some(b""),
        TokenKind::StringLiteral => Some(&token.text[1..token.text.len() - 1]),
        _ => None,
    }
}

/// Returns the bytes of a string, if it is the only token.
pub fn string_of<'a>(tokens: &[Token<'a>]) -> Option<&'a [u8]>
    ensures { option_map (λ s. s.now) result ≡ string_of (lexemes tokens.now) }
{
    match tokens {
        [token] => quoted_in(token),
        _ => None,
    }
}

/// Returns whether a token is a name or a cheap local name.
pub fn is_label_name(token: &Token<'_>) -> bool
    ensures { result ≡ is_label_name (lexeme_of token.now) }
{
    match token.kind {
        TokenKind::Identifier => !is_reserved(token.text),
        TokenKind::CheapName => true,
        _ => false,
    }
}

/// Returns the number of tokens of the label at the start, with its colon; 0 if there is none.
#[inline(always)]
pub fn label_len(tokens: &[Token<'_>]) -> usize
    ensures count { result ≡ label_len (lexemes tokens.now) }
    ensures within { result ≤ length tokens.now }
{
    match tokens {
        [first, ..] if is_colon(first) => 1,
        [first, second, ..] if is_colon(second) && is_label_name(first) => 2,
        _ => 0,
    }
}

/// Returns the preprocessor directive that a token is.
#[inline(always)]
pub fn directive_in(token: &Token<'_>) -> Option<Directive>
    ensures { result ≡ directive_in (lexeme_of token.now) }
{
    match token.kind {
        TokenKind::Directive => directive_of(token.text),
        _ => None,
    }
}

/// Returns the preprocessor directive at the start.
#[inline(always)]
pub fn first_directive(tokens: &[Token<'_>]) -> Option<Directive>
    ensures { result ≡ first_directive (lexemes tokens.now) }
{
    directive_in(tokens.first()?)
}

/// Returns whether a label may precede this directive, or another statement.
fn may_follow_label(directive: Option<Directive>) -> bool
    ensures { result ≡ may_follow_label directive }
{
    match directive {
        None | Some(Directive::Repeat | Directive::If(_)) => true,
        Some(Directive::Include | Directive::Error | Directive::End) => true,
        Some(_) => false,
    }
}

/// Returns the preprocessor directive of a line, after its label if it has one.
pub fn line_directive(tokens: &[Token<'_>]) -> Option<Directive>
    ensures { result ≡ line_directive (lexemes tokens.now) }
{
    first_directive(&tokens[label_len(tokens)..])
}

/// Returns whether a label precedes a directive that must not have one.
pub fn is_mislabelled(tokens: &[Token<'_>]) -> bool
    ensures { result ≡ is_mislabelled (lexemes tokens.now) }
{
    label_len(tokens) > 0 && !may_follow_label(line_directive(tokens))
}

/// Returns the tokens after the first.
pub fn after_first<'a, 'b>(tokens: &'b [Token<'a>]) -> &'b [Token<'a>]
    ensures { lexemes result.now ≡ drop 1 (lexemes tokens.now) }
{
    match tokens {
        [] => tokens,
        [_, following @ ..] => following,
    }
}
