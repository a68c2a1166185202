//! Resolves the names in sums.

ghost use Rattle.std.specs.Prelude.{◌≡◌, ◌≢◌, ◌++◌, ℕ, List, MatchOption, codes};
ghost use Rattle.base65.specs.Outcome.{Refines};
ghost use Rattle.script65.specs.Faults.{is_system_error};
ghost use Rattle.script65.specs.Internal.Tables.{owner_index_by_ending};
ghost use Rattle.script65.specs.Scripts.{area_operand, export_operand, row_operand, is_start_first, operand_for, sum_for, sums_of};

use crate::fault::{Fault, FaultAt};
use crate::reading::entries::{ConfigEntry, Entries, ParsedTerm, Table};
use crate::reading::keyword_tables::SymbolType;
use crate::script::{AreaAttribute, Operand, RowAttribute, Term};
use base65::ListVec;
use std::alloc::Global;

// Returns the value of the symbol with this name, if the script exports it.
fn export_operand(symbols: &Table, name: &[u8]) -> Option<Operand>
    ensures { result ≡ export_operand symbols.now name.now }
{
    let entry = symbols.get(symbols.index_of(name)?)?;
    let value = entry.number_or(0, "value");
    match entry.role() {
        Some(SymbolType::Export) => Some(Operand::Number(value)),
        _ => None,
    }
}

// Returns the part of a name between `__` and an ending.
fn name_before_ending<'a>(name: &'a [u8], ending: &[u8]) -> Option<&'a [u8]>
    ensures { MatchOption result ((n : List ℕ) → name.now ≢ codes "__" ++ (n ++ ending.now))
        (λ n. name.now ≡ codes "__" ++ (n.now ++ ending.now)) }
{
    name.strip_prefix(b"__")?.strip_suffix(ending)
}

// Returns the index of the entry N for which the name is `__N` and this ending.
fn owner_index(table: &Table, name: &[u8], ending: &[u8]) -> Option<usize>
    ensures { result ≡ owner_index_by_ending table.now name.now ending.now }
{
    table.index_of(name_before_ending(name, ending)?)
}

fn area_operand(areas: &Table, name: &[u8], part: AreaAttribute) -> Option<Operand>
    ensures { result ≡ area_operand areas.now name.now part }
{
    let index = owner_index(areas, name, part.ending())?;
    Some(Operand::Area(index, part))
}

fn row_operand(rows: &Table, name: &[u8], part: RowAttribute) -> Option<Operand>
    ensures { result ≡ row_operand rows.now name.now part }
{
    let index = owner_index(rows, name, part.ending())?;
    Some(Operand::Row(index, part))
}

// Resolves a term: a number, or the name of an export, of a part of an area or of a part of a row.
fn operand_for(entries: &Entries, number: Option<u32>, name: &[u8]) -> Result<Operand, Fault>
    ensures { result ≡ operand_for entries.now number name.now }
{
    if let Some(number) = number {
        return Ok(Operand::Number(number));
    }
    let start = area_operand(&entries.areas, name, AreaAttribute::Start);
    let size = area_operand(&entries.areas, name, AreaAttribute::Size);
    let last = area_operand(&entries.areas, name, AreaAttribute::Last);
    let load = row_operand(&entries.rows, name, RowAttribute::Load);
    let run = row_operand(&entries.rows, name, RowAttribute::Run);
    let row_size = row_operand(&entries.rows, name, RowAttribute::Size);
    let export = export_operand(&entries.symbols, name);
    match (export, start.or(size.or(last)), load.or(run.or(row_size))) {
        (None, None, None) => Err(Fault::NoSuchName),
        (Some(operand), None, None) => Ok(operand),
        (None, Some(operand), None) => Ok(operand),
        (None, None, Some(operand)) => Ok(operand),
        _ => Err(Fault::AmbiguousName),
    }
}

// Resolves the terms of an area's sum, or returns the first error of a name.
fn sum_for(
    alloc: Global,
    entries: &Entries,
    identifier: &str,
    entry: &ConfigEntry,
) -> Result<ListVec<Term>, FaultAt>
    ensures { Refines is_system_error (λ x. x) result
        (sum_for entries.now identifier.now entry.now) }
{
    let mut terms = ListVec::new(alloc);
    for part in entry.terms_for(identifier) {
        match operand_for(entries, part.number, part.name.as_slice()) {
            Ok(operand) => terms.push(Term {
                minus: part.minus,
                operand,
            })?,
            Err(fault) => return Err(FaultAt::new(fault, part.at)),
        }
    }
    Ok(terms)
}

// Returns whether `start` comes before `size` in the text.
fn is_start_first(entry: &ConfigEntry) -> bool
    ensures { result ≡ is_start_first entry.now }
{
    for assignment in entry.assignments.as_slice() {
        let identifier = assignment.identifier.as_slice();
        if "start".as_bytes() == identifier {
            return true;
        }
        if "size".as_bytes() == identifier {
            return false;
        }
    }
    true
}

/// Resolves the sums of an area's start and size, or returns the first error of a name in them, in
/// the order of the text.
pub fn sums_of(
    alloc: Global,
    entries: &Entries,
    entry: &ConfigEntry,
) -> Result<(ListVec<Term>, ListVec<Term>), FaultAt>
    ensures { Refines is_system_error (λ x. x) result (sums_of entries.now entry.now) }
{
    if is_start_first(entry) {
        let start = sum_for(alloc, entries, "start", entry)?;
        let size = sum_for(alloc, entries, "size", entry)?;
        Ok((start, size))
    } else {
        let size = sum_for(alloc, entries, "size", entry)?;
        let start = sum_for(alloc, entries, "start", entry)?;
        Ok((start, size))
    }
}
