//! Lookup of scopes, and of names in them; and the text of a name.

ghost use Rattle.std.specs.Prelude.{◌≡◌, ◌++◌, IfOk, None, OnOk, Some, take, false, ℕ, suc, List, position};
ghost use Rattle.std.specs.Str.{bytes_eq};
ghost use Rattle.semantics65.specs.Symbols.{qualified_name, display_name, enclosing, first_found, nested_scope, scope_from, scope_in, scopes_from, definition_index, named};
ghost use Rattle.symbols65.specs.Views.{table_of, interned_names_of};

use crate::table::Symbols;
use base65::ListVec;
use semantics65::GLOBAL_SCOPE;
use std::alloc::{AllocError, Global};

/// The separator between two parts of a name.
const BETWEEN: &[u8] = b"::";

/// Appends the parts of a name, separated by `::`.
fn append_name(text: &mut ListVec<u8>, parts: &[ListVec<u8>]) -> Result<(), AllocError>
    ensures { OnOk result (text.new ≡ text.old ++ qualified_name parts.now) }
{
    let Some((first, following)) = parts.split_first() else {
        return Ok(());
    };
    text.extend_from_slice(first.as_slice())?;
    for part in following {
        text.extend_from_slice(BETWEEN)?;
        text.extend_from_slice(part.as_slice())?;
    }
    Ok(())
}

/// Returns the text of a name: its parts, separated by `::`, after another `::` if it is global.
pub fn name_text(
    alloc: Global,
    is_global: bool,
    parts: &[ListVec<u8>],
) -> Result<ListVec<u8>, AllocError>
    ensures { IfOk result (λ text. text ≡ display_name is_global parts.now) }
{
    let mut text = ListVec::new(alloc);
    if is_global {
        text.extend_from_slice(BETWEEN)?;
    }
    append_name(&mut text, parts)?;
    Ok(text)
}

/// The number of the global scope.
const GLOBAL: usize = GLOBAL_SCOPE as usize;

/// Returns the index of the definition of an interned name in a scope, if it has one. Unless `is_inner`,
/// only the global scope defines it.
fn defined_in(symbols: &Symbols, scope: usize, name_id: usize, is_inner: bool) -> Option<usize>
    requires { is_inner ≡ false → (inner : ℕ) (n : List ℕ) →
        position (bytes_eq n) (interned_names_of symbols.now) ≡ Some name_id →
        definition_index (table_of symbols.now) (named (suc inner) n) ≡ None }
    ensures { (n : List ℕ) → position (bytes_eq n) (interned_names_of symbols.now) ≡ Some name_id →
        result ≡ definition_index (table_of symbols.now) (named scope n) }
{
    if !is_inner && scope != GLOBAL {
        return None;
    }
    symbols.defined_in(scope, name_id)
}

/// Returns the index of the definition of a name in the innermost scope that defines it, from a scope
/// outward, if one does.
pub fn defined_outward(symbols: &Symbols, scope: usize, name: &[u8]) -> Option<usize>
    ensures { result ≡ first_found (λ s. definition_index (table_of symbols.now) (named s name.now))
        (scopes_from (table_of symbols.now).scopes scope) }
{
    let name_id = symbols.name_id(name)?;
    let is_inner = symbols.is_inner(name_id);
    let mut scope = scope;
    // A scope is nested in scopes that were opened before it, so their number is at most its own.
    let mut left = scope;
    loop {
        if let Some(index) = defined_in(symbols, scope, name_id, is_inner) {
            return Some(index);
        }
        if scope == GLOBAL || left == 0 {
            return None;
        }
        left -= 1;
        scope = symbols.enclosing(scope);
    }
}

/// Returns the scope of this name that was opened directly in another scope, if it is one of the first
/// `opened` scopes.
fn scope_in(symbols: &Symbols, opened: usize, within: usize, name: &[u8]) -> Option<usize>
    ensures { result ≡ scope_in (take opened (table_of symbols.now).scopes) within name.now }
{
    match symbols.scope_in(within, name) {
        Some(scope) if scope <= opened => Some(scope),
        _ => None,
    }
}

/// Returns the scope in which a scope was opened; the global scope if it isn't one of the first `opened`
/// scopes.
fn enclosing(symbols: &Symbols, opened: usize, scope: usize) -> usize
    ensures { result ≡ enclosing (take opened (table_of symbols.now).scopes) scope }
{
    if scope <= opened {
        symbols.enclosing(scope)
    } else {
        GLOBAL
    }
}

/// Searches a scope, and then the enclosing ones, for a scope with this name among the first `opened`
/// scopes. Returns the first one.
fn scope_outward(symbols: &Symbols, opened: usize, scope: usize, name: &[u8]) -> Option<usize>
    ensures { result ≡ first_found (λ s.
        scope_in (take opened (table_of symbols.now).scopes) s name.now)
        (scopes_from (take opened (table_of symbols.now).scopes) scope) }
{
    let mut scope = scope;
    let mut left = scope;
    loop {
        if let Some(inner) = scope_in(symbols, opened, scope, name) {
            return Some(inner);
        }
        if scope == GLOBAL || left == 0 {
            return None;
        }
        left -= 1;
        scope = enclosing(symbols, opened, scope);
    }
}

/// Returns the scope at the end of a path of names from a scope, if there is one among the first `opened`
/// scopes.
fn inner_scope(
    symbols: &Symbols,
    opened: usize,
    scope: usize,
    names: &[ListVec<u8>],
) -> Option<usize>
    ensures { result ≡ nested_scope
        (take opened (table_of symbols.now).scopes) names.now (Some scope) }
{
    let mut scope = scope;
    for name in names {
        scope = scope_in(symbols, opened, scope, name.as_slice())?;
    }
    Some(scope)
}

/// Returns the scope that a name with `::` specifies by the parts before its last, `names`, if it is one of
/// the first `opened` scopes.
pub fn scope_of(
    symbols: &Symbols,
    opened: usize,
    scope: usize,
    is_global: bool,
    names: &[ListVec<u8>],
) -> Option<usize>
    ensures { result ≡ scope_from
        (take opened (table_of symbols.now).scopes) scope is_global names.now }
{
    if is_global {
        return inner_scope(symbols, opened, GLOBAL, names);
    }
    let (first, names) = names.split_first()?;
    let outer = scope_outward(symbols, opened, scope, first.as_slice())?;
    inner_scope(symbols, opened, outer, names)
}
