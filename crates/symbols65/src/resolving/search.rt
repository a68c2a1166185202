//! Searches for the form of an expression. The form of each constant is found once.

ghost use Rattle.std.specs.Prelude.{◌≡◌, OnOk, is_some, nat_eq};
ghost use Rattle.base65.specs.Outcome.{Refines, RefinesProp};
ghost use Rattle.indexmap.specs.IndexMap.{get};
ghost use Rattle.ast65.specs.Faults.{is_out_of_memory};
ghost use Rattle.semantics65.specs.Norms.{defined_form, norm_of};
ghost use Rattle.symbols65.specs.Resolving.{FindsForm};
ghost use Rattle.symbols65.specs.Tables.{IsFormCache, IsUnmarked, KeepsSearches, entry_at};
ghost use Rattle.symbols65.specs.Views.{IsRecorded, table_of};

use super::attempt::{AttemptError, address, try_last};
use crate::table::{FormCache, SearchEntry, Symbols};
use ast65::AsmFault;
use indexmap::IndexMap;
use object65::Norm;
use semantics65::Context;
use std::alloc::AllocError;
use syntax65::Expr;

/// Creates the cache of a symbol table to which nothing is added any more.
pub fn empty_cache(symbols: &Symbols) -> FormCache
    ensures { IsFormCache (table_of symbols.now) result }
{
    IndexMap::new(symbols.alloc)
}

/// Records the entry of the constant at an index.
pub fn record(known: &mut FormCache, index: usize, entry: SearchEntry) -> Result<(), AllocError>
    ensures { OnOk result (IsRecorded known.old known.new index entry) }
{
    match known.insert(index, entry) {
        Ok(_) => Ok(()),
        Err(_) => Err(AllocError),
    }
}

/// Returns whether a search by `count` definitions has met the constant at an index.
pub fn is_visited(known: &FormCache, index: usize, count: usize) -> bool
    ensures { result ≡ is_some (entry_at count (get nat_eq known.now index)) }
{
    let entry = known.get(&index);
    match entry {
        Some(SearchEntry::KnownForm(_)) => true,
        Some(SearchEntry::NoForm(at)) => *at == count,
        None => false,
    }
}

/// Searches for the normal form of an expression. It uses the entries of earlier searches, and adds
/// one for each constant that it needs. If an earlier one found that a constant has no form, the
/// error may be another than the first.
pub fn run_search(
    symbols: &Symbols,
    known: &mut FormCache,
    context: Context,
    value: &Expr,
) -> Result<Norm, AsmFault>
    requires { KeepsSearches (table_of symbols.now) (get nat_eq known.old) }
    ensures form { FindsForm result (norm_of (table_of symbols.now) context value.now) }
    ensures first { IsUnmarked (table_of symbols.now) known.old →
        Refines is_out_of_memory (λ f. f) result
        (norm_of (table_of symbols.now) context value.now) }
    ensures entries { RefinesProp is_out_of_memory
        (λ r. KeepsSearches (table_of symbols.now) (get nat_eq known.new)) result }
    ensures unmarked { OnOk result (IsUnmarked (table_of symbols.now) known.old →
        IsUnmarked (table_of symbols.now) known.new) }
{
    let count = symbols.definition_count();
    let mut pending_constants: Vec<usize> = Vec::new(symbols.alloc);
    'find: loop {
        let attempt = try_last(symbols, known, context, value, &pending_constants);
        match attempt {
            Ok(form) => match pending_constants.pop() {
                None => return Ok(form),
                Some(last) => record(known, last, SearchEntry::KnownForm(form))?,
            },
            Err(AttemptError::Fault(fault)) => return Err(fault),
            Err(AttemptError::Needs(index)) => {
                // A constant that is needed while its own form is pending is circular.
                if is_visited(known, index, count) {
                    return Err(AsmFault::Circular);
                }
                record(known, index, SearchEntry::NoForm(count))?;
                pending_constants.push(index)?;
            }
        }
    }
}

/// Returns the normal form of an expression after the last line. The forms of constants that it
/// finds are kept.
pub fn norm(
    symbols: &Symbols,
    known: &mut FormCache,
    context: Context,
    value: &Expr,
) -> Result<Norm, AsmFault>
    requires { IsFormCache (table_of symbols.now) known.old }
    ensures form { Refines is_out_of_memory (λ f. f) result
        (norm_of (table_of symbols.now) context value.now) }
    ensures table { OnOk result (IsFormCache (table_of symbols.now) known.new) }
{
    run_search(symbols, known, context, value)
}

/// Returns the normal form of the definition at an index.
pub fn defined_norm(
    symbols: &Symbols,
    known: &mut FormCache,
    index: usize,
) -> Result<Norm, AsmFault>
    requires { IsFormCache (table_of symbols.now) known.old }
    ensures form { Refines is_out_of_memory (λ f. f) result
        (defined_form (table_of symbols.now) index) }
    ensures table { OnOk result (IsFormCache (table_of symbols.now) known.new) }
{
    match symbols.definition(index) {
        None => Err(AsmFault::NoSuchLabel),
        Some(definition) => match &definition.value {
            None => Ok(address(definition.context)),
            Some(value) => norm(symbols, known, definition.context, value),
        },
    }
}
