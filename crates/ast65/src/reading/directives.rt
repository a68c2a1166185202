//! Parses the operands of directives: lists, sizes and messages.

ghost use Rattle.std.specs.Prelude.{◌≡◌, ◌<◌, ◌∷◌, [], false, length, map, option_map, take, IfOk, IfSome, None, Ok};
ghost use Rattle.syntax65.specs.Tokens.{lexemes};
ghost use Rattle.ast65.specs.Items.{literal_item};
ghost use Rattle.ast65.specs.declared.reading.keywords.ElementKind.{ElementKind};
ghost use Rattle.ast65.specs.Parsing.{elements_after_comma, list_elements, string_of, MapsEach, IsDirective, IsItem, IsName, IsRange, RefinesParse, action_keyword, bare_statement, assertion_text};
ghost use Rattle.ast65.specs.declared.reading.keywords.Directive.TheVariants as directive;
ghost use Rattle.ast65.specs.declared.language.Statement.TheVariants.{Segment};

use super::keywords::{BareDirective, ElementKind, Message, NameListDirective, SizedDirective};
use super::operands::{expression, number_in, one_or_two, split_at_comma};
use super::tokens::{identifier_of, is_comma, name_of, ok_or_not_understood, string_of};
use crate::fault::AsmFault;
use crate::language::{Item, Items, ItemsKind, OptionalExpr, Statement};
use base65::{Action, ListVec, Width};
use std::alloc::{AllocError, Global};
use syntax65::Token;

/// Parses an element of a list.
fn item(alloc: Global, elements: ElementKind, tokens: &[Token<'_>]) -> Result<Item, AsmFault>
    ensures { RefinesParse result (IsItem elements (lexemes tokens.now)) }
{
    match elements {
        ElementKind::Values => Ok(Item::Value(expression(alloc, tokens)?)),
        ElementKind::ValuesAndTexts => match string_of(tokens) {
            Some(text) => Ok(Item::StringLiteral(ListVec::copy_of(alloc, text)?)),
            None => Ok(Item::Value(expression(alloc, tokens)?)),
        },
    }
}

/// Returns an empty list with capacity for the elements of `count` tokens, which have commas
/// between them.
fn empty_list<T: Drop>(alloc: Global, count: usize) -> Result<ListVec<T>, AllocError>
    ensures { IfOk result (λ elements. elements ≡ []) }
{
    Ok(ListVec::from_vec(Vec::with_capacity(alloc, count / 2 + 1)?))
}

/// Returns the number before the first comma, if it is the only token there, and the tokens after
/// the comma, if there is one.
#[inline(always)]
fn first_number<'a, 'b>(tokens: &'b [Token<'a>]) -> Option<(u32, Option<&'b [Token<'a>]>)>
    ensures parts { IfSome result (λ x. list_elements (lexemes tokens.now) ≡
        lexemes (take 1 tokens.now)
        ∷ elements_after_comma (option_map (λ rest. lexemes rest.now) x.1)) }
    ensures item { IfSome result (λ x. (elements : ElementKind) →
        IsItem elements (lexemes (take 1 tokens.now)) (Ok (literal_item x.0))) }
    ensures shorter { IfSome result (λ x.
        IfSome x.1 (λ rest. length rest.now < length tokens.now)) }
{
    let (first, following) = tokens.split_first()?;
    let number = number_in(first)?;
    match following.split_first() {
        None => Some((number, None)),
        Some((comma, rest)) => {
            if is_comma(comma) {
                Some((number, Some(rest)))
            } else {
                None
            }
        }
    }
}

/// Parses a list that consists of numbers separated by commas.
fn numbers(alloc: Global, tokens: &[Token<'_>]) -> Result<Option<ListVec<u32>>, AllocError>
    ensures { IfOk result (λ numbers. IfSome numbers (λ ns. (elements : ElementKind) →
        MapsEach (IsItem elements) (list_elements (lexemes tokens.now))
        (Ok (map literal_item ns)))) }
{
    let mut numbers = empty_list(alloc, tokens.len())?;
    let mut rest = Some(tokens);
    'parts: while let Some(left) = rest {
        let Some((number, following)) = first_number(left) else {
            return Ok(None);
        };
        numbers.push(number)?;
        rest = following;
    }
    Ok(Some(numbers))
}

/// Parses a list of any elements.
fn mixed(
    alloc: Global,
    elements: ElementKind,
    tokens: &[Token<'_>],
) -> Result<ListVec<Item>, AsmFault>
    ensures { RefinesParse result
        (MapsEach (IsItem elements) (list_elements (lexemes tokens.now))) }
{
    let mut items = empty_list(alloc, tokens.len())?;
    let mut rest = Some(tokens);
    'parts: while let Some(left) = rest {
        let (part, following) = split_at_comma(left);
        items.push(item(alloc, elements, part)?)?;
        rest = following;
    }
    Ok(items)
}

/// Parses elements separated by commas.
pub fn items(alloc: Global, elements: ElementKind, tokens: &[Token<'_>]) -> Result<Items, AsmFault>
    ensures { RefinesParse result
        (MapsEach (IsItem elements) (list_elements (lexemes tokens.now))) }
{
    if let Some(numbers) = numbers(alloc, tokens)? {
        return Ok(Items::new(ItemsKind::Numbers(numbers)));
    }
    let items = mixed(alloc, elements, tokens)?;
    Ok(Items::new(ItemsKind::Mixed(items)))
}

/// Parses `.byte` and similar directives.
pub fn list(
    alloc: Global,
    elements: ElementKind,
    width: Width,
    tokens: &[Token<'_>],
) -> Result<Statement, AsmFault>
    ensures { RefinesParse result (IsDirective (directive.List elements width)
        (lexemes tokens.now)) }
{
    let items = items(alloc, elements, tokens)?;
    Ok(Statement::Values { width, items })
}

/// Parses `.asciiz`: a string, followed by a byte 0.
pub fn asciiz(alloc: Global, tokens: &[Token<'_>]) -> Result<Statement, AsmFault>
    ensures { RefinesParse result (IsDirective directive.Asciiz (lexemes tokens.now)) }
{
    let text = ok_or_not_understood(string_of(tokens))?;
    let mut bytes = ListVec::new(alloc);
    bytes.extend_from_slice(text)?;
    bytes.push(0)?;
    let mut items = ListVec::new(alloc);
    items.push(Item::StringLiteral(bytes))?;
    Ok(Statement::Values {
        width: Width::Byte,
        items: Items::new(ItemsKind::Mixed(items)),
    })
}

/// Parses names separated by commas.
fn names(alloc: Global, tokens: &[Token<'_>]) -> Result<ListVec<ListVec<u8>>, AsmFault>
    ensures { RefinesParse result (MapsEach IsName (list_elements (lexemes tokens.now))) }
{
    let mut names = ListVec::new(alloc);
    let mut rest = Some(tokens);
    'parts: while let Some(left) = rest {
        let (part, following) = split_at_comma(left);
        names.push(ListVec::copy_of(alloc, name_of(part)?)?)?;
        rest = following;
    }
    Ok(names)
}

/// Parses `.import` and similar directives.
pub fn name_list(
    alloc: Global,
    which: NameListDirective,
    tokens: &[Token<'_>],
) -> Result<Statement, AsmFault>
    ensures { RefinesParse result (IsDirective (directive.Names which) (lexemes tokens.now)) }
{
    let names = names(alloc, tokens)?;
    Ok(match which {
        NameListDirective::Import(size) => Statement::Import { size, names },
        NameListDirective::Export => Statement::Export(names),
        NameListDirective::Global(size) => Statement::Global { size, names },
        NameListDirective::ForceImport => Statement::ForceImport(names),
    })
}

/// An optional start and an optional length.
type StartAndLength = (OptionalExpr, OptionalExpr);

/// Parses the operands after the name of a file.
fn range(alloc: Global, following: Option<&[Token<'_>]>) -> Result<StartAndLength, AsmFault>
    ensures { RefinesParse result
        (IsRange (elements_after_comma (option_map (λ rest. lexemes rest.now) following.entry))) }
{
    let Some(following) = following else {
        return Ok((OptionalExpr::none(), OptionalExpr::none()));
    };
    let (start, len) = one_or_two(alloc, following)?;
    Ok((OptionalExpr::some(alloc, start)?, len))
}

/// Parses `.incbin`.
pub fn incbin(alloc: Global, tokens: &[Token<'_>]) -> Result<Statement, AsmFault>
    ensures { RefinesParse result (IsDirective directive.Incbin (lexemes tokens.now)) }
{
    let (name, following) = split_at_comma(tokens);
    let name = ok_or_not_understood(string_of(name))?;
    let (start, len) = range(alloc, following)?;
    let name = ListVec::copy_of(alloc, name)?;
    Ok(Statement::IncbinPath { name, start, len })
}

/// Parses `n[,v]`.
pub fn sized(
    alloc: Global,
    which: SizedDirective,
    tokens: &[Token<'_>],
) -> Result<Statement, AsmFault>
    ensures { RefinesParse result (IsDirective (directive.Sized which) (lexemes tokens.now)) }
{
    let (sized, value) = one_or_two(alloc, tokens)?;
    Ok(match which {
        SizedDirective::Reserve => Statement::Reserve {
            count: sized,
            value,
        },
        SizedDirective::Align => Statement::Align {
            alignment: sized,
            value,
        },
    })
}

/// The maximum length of an assertion's text in bytes.
const MAX_TEXT: usize = 255;

fn action_keyword(keyword: &[u8]) -> Result<Action, AsmFault>
    ensures { result ≡ action_keyword keyword.now }
{
    if keyword == b"warning".as_slice() {
        Ok(Action::Warning)
    } else if keyword == b"error".as_slice() {
        Ok(Action::Error)
    } else {
        Err(AsmFault::NotUnderstood)
    }
}

/// Parses the text of an assertion that has one.
fn explicit_text(alloc: Global, tokens: &[Token<'_>]) -> Result<ListVec<u8>, AsmFault>
    ensures { RefinesParse result (λ r. r ≡ assertion_text (lexemes tokens.now ∷ [])) }
{
    let text = ok_or_not_understood(string_of(tokens))?;
    if text.len() > MAX_TEXT {
        return Err(AsmFault::NotUnderstood);
    }
    Ok(ListVec::copy_of(alloc, text)?)
}

/// Returns the text of an assertion: the given or the default one.
fn assertion_text(alloc: Global, rest: Option<&[Token<'_>]>) -> Result<ListVec<u8>, AsmFault>
    ensures { RefinesParse result (λ r.
        r ≡ assertion_text (elements_after_comma
        (option_map (λ rest. lexemes rest.now) rest.entry))) }
{
    let Some(rest) = rest else {
        return Ok(ListVec::copy_of(alloc, b"assertion failed")?);
    };
    let (part, following) = split_at_comma(rest);
    match following {
        Some(_) => Err(AsmFault::NotUnderstood),
        None => explicit_text(alloc, part),
    }
}

/// Parses `.assert`.
pub fn assertion(alloc: Global, tokens: &[Token<'_>]) -> Result<Statement, AsmFault>
    ensures { RefinesParse result (IsDirective directive.Assert (lexemes tokens.now)) }
{
    let (value, following) = split_at_comma(tokens);
    let Some(following) = following else {
        return Err(AsmFault::NotUnderstood);
    };
    let (action, rest) = split_at_comma(following);
    let value = expression(alloc, value)?;
    let action = action_keyword(ok_or_not_understood(identifier_of(action))?)?;
    let text = assertion_text(alloc, rest)?;
    Ok(Statement::Assert {
        value,
        action,
        text,
    })
}

fn standard_segment(alloc: Global, name: &[u8]) -> Result<Statement, AsmFault>
    ensures { RefinesParse result (λ r. r ≡ Ok (Segment name.now None)) }
{
    Ok(Statement::Segment {
        name: ListVec::copy_of(alloc, name)?,
        size: None,
    })
}

fn bare_statement(alloc: Global, which: BareDirective) -> Result<Statement, AsmFault>
    ensures { RefinesParse result (λ r. r ≡ Ok (bare_statement which)) }
{
    match which {
        BareDirective::PushSegment => Ok(Statement::PushSegment),
        BareDirective::PopSegment => Ok(Statement::PopSegment),
        BareDirective::EndScope => Ok(Statement::CloseScope),
        BareDirective::EndProc => Ok(Statement::CloseProc),
        BareDirective::Processor => Ok(Statement::Nothing),
        BareDirective::Code => standard_segment(alloc, b"CODE"),
        BareDirective::Rodata => standard_segment(alloc, b"RODATA"),
        BareDirective::Data => standard_segment(alloc, b"DATA"),
        BareDirective::Bss => standard_segment(alloc, b"BSS"),
        BareDirective::ZeroPage => standard_segment(alloc, b"ZEROPAGE"),
    }
}

/// Returns a statement without operands.
pub fn bare(
    alloc: Global,
    which: BareDirective,
    tokens: &[Token<'_>],
) -> Result<Statement, AsmFault>
    ensures { RefinesParse result (IsDirective (directive.Bare which) (lexemes tokens.now)) }
{
    if tokens.is_empty() {
        bare_statement(alloc, which)
    } else {
        Err(AsmFault::NotUnderstood)
    }
}

/// Parses `.out` and `.warning`.
pub fn message(alloc: Global, which: Message, tokens: &[Token<'_>]) -> Result<Statement, AsmFault>
    ensures { RefinesParse result (IsDirective (directive.Message which) (lexemes tokens.now)) }
{
    let text = ListVec::copy_of(alloc, ok_or_not_understood(string_of(tokens))?)?;
    Ok(match which {
        Message::Out => Statement::Out(text),
        Message::Warning => Statement::Warning(text),
    })
}

/// Parses `.setcpu`.
pub fn processor(tokens: &[Token<'_>]) -> Result<Statement, AsmFault>
    ensures { RefinesParse result (IsDirective directive.SetProcessor (lexemes tokens.now)) }
{
    if ok_or_not_understood(string_of(tokens))? == b"6502".as_slice() {
        Ok(Statement::Nothing)
    } else {
        Err(AsmFault::NotUnderstood)
    }
}
