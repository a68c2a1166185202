//! Numbers and addresses of expressions by the definitions so far. Only these matter at a line: no
//! other form decides an address size.

ghost use Rattle.std.specs.Prelude.{◌≡◌, IfOk, IfSome, IsErrAnd, None, Ok, OnErr, false, true};
ghost use Rattle.ast65.specs.Faults.{is_out_of_memory};
ghost use Rattle.semantics65.specs.Norms.{defined_form, norm_of};
ghost use Rattle.semantics65.specs.Symbols.{binding_of};
ghost use Rattle.semantics65.specs.declared.contexts.Context.{Context};
ghost use Rattle.syntax65.specs.Trees.{Tree};
ghost use Rattle.symbols65.specs.Resolving.{IsBlockedAt, IsEntryOf, binding_in, plain_form, plain_result};
ghost use Rattle.symbols65.specs.Views.{table_of};

use super::attempt::address;
use super::bindings::{Binding, binding_at};
use super::search::{is_visited, record, run_search};
use crate::table::{FormCache, SearchEntry, Symbols};
use ast65::AsmFault;
use indexmap::IndexMap;
use object65::{Node, Norm};
use semantics65::Context;
use std::alloc::AllocError;
use std::mem;
use syntax65::{Expr, ExprKind};

/// Returns a form if it is a number or an address.
pub fn plain_form(form: &Norm) -> Option<Norm>
    ensures { result ≡ plain_form form.now }
{
    match form.node() {
        Node::NumberNode(value) => Some(Norm::new(Node::NumberNode(*value))),
        Node::SectionOffset(section, offset) => Some(Norm::new(Node::SectionOffset(
            *section, *offset,
        ))),
        _ => None,
    }
}

/// Returns the number or address of the constant at an index, or `Some(None)` if it has neither.
/// Returns `None` if no entry of a search decides this.
fn cached_plain_form(symbols: &Symbols, index: usize) -> Option<Option<Norm>>
    ensures { IfSome result (λ f. f ≡ plain_result (defined_form (table_of symbols.now) index)) }
{
    match symbols.searched.get(&index) {
        Some(SearchEntry::KnownForm(form)) => Some(plain_form(form)),
        Some(SearchEntry::NoForm(count)) if *count == symbols.definition_count() => Some(None),
        _ => None,
    }
}

/// Returns the blocker of the constant at an index, if one is evident.
fn blocker_of(symbols: &Symbols, index: usize) -> Option<usize>
    ensures { IfSome result (λ r. IsBlockedAt (table_of symbols.now) index r) }
{
    symbols.definition(index)?.blocker
}

/// Returns whether a search has found that the blocker of the constant at an index has no number
/// and no address, so that the constant has none.
fn is_blocked(symbols: &Symbols, index: usize) -> bool
    ensures { result ≡ true → plain_result (defined_form (table_of symbols.now) index) ≡ None }
{
    let Some(blocker) = blocker_of(symbols, index) else {
        return false;
    };
    match cached_plain_form(symbols, blocker) {
        Some(form) => form.is_none(),
        None => false,
    }
}

/// Finds the number or address of an expression by the definitions so far, if it has one.
pub fn find_plain_form(
    symbols: &Symbols,
    context: Context,
    value: &Expr,
) -> Result<Option<Norm>, AllocError>
    ensures { IfOk result (λ f.
        f ≡ plain_result (norm_of (table_of symbols.now) context value.now)) }
{
    let mut known: FormCache = IndexMap::new(symbols.alloc);
    match run_search(symbols, &mut known, context, value) {
        Ok(form) => Ok(plain_form(&form)),
        Err(fault) if fault.is_memory() => Err(AllocError),
        Err(_) => Ok(None),
    }
}

/// Returns the entry of a constant after a search by `count` definitions, or an error if memory ran
/// out.
fn search_entry_of(found: Result<Norm, AsmFault>, count: usize) -> Result<SearchEntry, AllocError>
    ensures entry { IfOk result (IsEntryOf count found) }
    ensures memory { OnErr result (IsErrAnd found (λ e. is_out_of_memory e ≡ true)) }
{
    match found {
        Ok(form) => Ok(SearchEntry::KnownForm(form)),
        Err(fault) if fault.is_memory() => Err(AllocError),
        Err(_) => Ok(SearchEntry::NoForm(count)),
    }
}

/// Searches for the form of the constant at an index, and stores the results in the symbol table.
fn search_constant(symbols: &mut Symbols, index: usize) -> Result<(), AllocError>
    ensures { table_of symbols.new ≡ table_of symbols.old }
{
    let mut known = mem::replace(&mut symbols.searched, IndexMap::new(symbols.alloc));
    let Some(definition) = symbols.definition(index) else {
        return Ok(());
    };
    let Some(value) = &definition.value else {
        return Ok(());
    };
    let found = run_search(symbols, &mut known, definition.context, value);
    let entry = search_entry_of(found, symbols.definition_count())?;
    record(&mut known, index, entry)?;
    symbols.searched = known;
    Ok(())
}

/// Returns the index of the constant that an operand means, if it has no final form and no entry of
/// a search.
fn unsearched(symbols: &Symbols, context: Context, operand: &Expr) -> Option<usize> {
    let Binding::Defined(index) = binding_at(symbols, context, operand)? else {
        return None;
    };
    let definition = symbols.definition(index)?;
    let is_open = definition.value.is_some() && definition.form.is_none();
    if is_open && !is_visited(&symbols.searched, index, symbols.definition_count()) {
        Some(index)
    } else {
        None
    }
}

/// Searches for the form of the constant at an index, after that of its blocker. A blocked constant
/// isn't searched for, since its form can be large.
fn search_unless_blocked(symbols: &mut Symbols, index: usize) -> Result<(), AllocError>
    ensures { table_of symbols.new ≡ table_of symbols.old }
{
    if let Some(blocker) = blocker_of(symbols, index) {
        if !is_visited(&symbols.searched, blocker, symbols.definition_count()) {
            search_constant(symbols, blocker)?;
        }
    }
    if is_blocked(symbols, index) {
        Ok(())
    } else {
        search_constant(symbols, index)
    }
}

/// Searches for the forms of the constants in an expression, and stores them in the symbol table,
/// so that each is searched for once.
pub fn search_constants(
    symbols: &mut Symbols,
    context: Context,
    value: &Expr,
) -> Result<(), AllocError>
    ensures { table_of symbols.new ≡ table_of symbols.old }
{
    match value.kind() {
        ExprKind::Number(_) | ExprKind::Here => Ok(()),
        ExprKind::Prefix(_, part) => search_constants(symbols, context, part),
        ExprKind::Binary(_, operands) => {
            search_constants(symbols, context, &operands.left)?;
            search_constants(symbols, context, &operands.right)
        }
        ExprKind::Plain(_)
        | ExprKind::Scoped(_)
        | ExprKind::Cheap(_)
        | ExprKind::Forward(_)
        | ExprKind::Backward(_) => {
            let Some(index) = unsearched(symbols, context, value) else {
                return Ok(());
            };
            search_unless_blocked(symbols, index)
        }
    }
}

/// Returns the number or address of a meaning, if it has one.
pub fn plain_form_of_binding(
    symbols: &Symbols,
    meaning: Binding,
) -> Result<Option<Norm>, AllocError>
    ensures { IfOk result (λ f. (s : Context) (e : Tree) →
        binding_of (table_of symbols.now) s e ≡ Ok (binding_in meaning) →
        f ≡ plain_result (norm_of (table_of symbols.now) s e)) }
{
    let Binding::Defined(index) = meaning else {
        return Ok(None);
    };
    let Some(definition) = symbols.definition(index) else {
        return Ok(None);
    };
    match (&definition.value, &definition.form) {
        (None, _) => Ok(Some(address(definition.context))),
        (Some(_), Some(form)) => Ok(plain_form(form)),
        (Some(value), None) => match cached_plain_form(symbols, index) {
            Some(form) => Ok(form),
            None => {
                if is_blocked(symbols, index) {
                    return Ok(None);
                }
                find_plain_form(symbols, definition.context, value)
            }
        },
    }
}
