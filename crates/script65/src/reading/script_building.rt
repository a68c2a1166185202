//! Makes a script from the entries that were read.

ghost use Rattle.std.specs.Prelude.{◌≡◌, IfOk, map};
ghost use Rattle.base65.specs.Outcome.{Refines, try_map};
ghost use Rattle.script65.specs.Faults.{is_system_error};
ghost use Rattle.script65.specs.Scripts.{area_for, area_from, file_of, row_from, row_start, script_from, symbol_from};

use crate::fault::{Fault, FaultAt};
use crate::reading::entries::{ConfigEntry, Entries, Table, Value};
use crate::reading::keyword_tables::SymbolType;
use crate::reading::naming::sums_of;
use crate::script::{AreaOutput, MemoryArea, RowStart, Script, SegmentRow, Symbol, SymbolKind};
use base65::ListVec;
use std::alloc::{AllocError, Global};

// Returns the output file of an area.
fn file_of(alloc: Global, entry: &ConfigEntry) -> Result<AreaOutput, AllocError>
    ensures { IfOk result (λ f. f ≡ file_of entry.now) }
{
    match entry.value_for("file") {
        Some(Value::File(name)) => Ok(AreaOutput::Named(ListVec::copy_of(alloc, name.as_slice())?)),
        _ => Ok(AreaOutput::Output),
    }
}

fn area_from(alloc: Global, entries: &Entries, entry: &ConfigEntry) -> Result<MemoryArea, FaultAt>
    ensures { Refines is_system_error (λ x. x) result (area_from entries.now entry.now) }
{
    let (start, size) = sums_of(alloc, entries, entry)?;
    Ok(MemoryArea {
        name: ListVec::copy_of(alloc, entry.name.as_slice())?,
        start,
        size,
        read_only: entry.access().is_read_only(),
        file: file_of(alloc, entry)?,
        fill: entry.flag_for("fill"),
        fill_value: entry.fill_or(0),
        define: entry.flag_for("define"),
    })
}

fn symbol_from(alloc: Global, entry: &ConfigEntry) -> Result<Symbol, AllocError>
    ensures { IfOk result (λ s. s ≡ symbol_from entry.now) }
{
    let name = ListVec::copy_of(alloc, entry.name.as_slice())?;
    let value = entry.number_or(0, "value");
    let kind = match entry.role() {
        Some(SymbolType::Export) => SymbolKind::Export(value),
        Some(SymbolType::Weak) => SymbolKind::Weak(value),
        _ => SymbolKind::Import,
    };
    Ok(Symbol { name, kind })
}

// Returns the index of an attribute's area, or `other` if it isn't given.
fn area_for(
    entries: &Entries,
    identifier: &str,
    other: Option<usize>,
    entry: &ConfigEntry,
) -> Result<usize, FaultAt>
    ensures { result ≡ area_for entries.now identifier.now other entry.now }
{
    let index = match entry.area_for(identifier) {
        Some(name) => entries.areas.index_of(name),
        None => other,
    };
    index.ok_or(FaultAt::new(Fault::NoSuchArea, entry.at))
}

// Returns where a row starts, by its attributes `start` and `offset`.
fn row_start(start: Option<u32>, offset: Option<u32>) -> RowStart
    ensures { result ≡ row_start start offset }
{
    match (start, offset) {
        (Some(start), _) => RowStart::Start(start),
        (None, Some(offset)) => RowStart::Offset(offset),
        (None, None) => RowStart::Aligned,
    }
}

fn row_from(alloc: Global, entries: &Entries, entry: &ConfigEntry) -> Result<SegmentRow, FaultAt>
    ensures { Refines is_system_error (λ x. x) result (row_from entries.now entry.now) }
{
    let load = area_for(entries, "load", None, entry)?;
    let run = area_for(entries, "run", Some(load), entry)?;
    let start = entry.number_for("start");
    let offset = entry.number_for("offset");
    let both = start.is_some() && offset.is_some();
    if both || (!entry.access().is_written() && load != run) {
        return Err(FaultAt::new(Fault::Excluded, entry.at));
    }
    let fill = match entries.areas.get(load) {
        Some(area) => area.fill_or(0),
        None => 0,
    };
    Ok(SegmentRow {
        name: ListVec::copy_of(alloc, entry.name.as_slice())?,
        load,
        run,
        access: entry.access(),
        align: entry.number_or(1, "align"),
        align_load: entry.number_or(1, "align_load"),
        begin: row_start(start, offset),
        fill_value: entry.fill_or(fill),
        define: entry.flag_for("define"),
        optional: entry.flag_for("optional"),
    })
}

// Makes all areas, or returns the first error of a name in a sum.
fn areas_from(alloc: Global, entries: &Entries) -> Result<ListVec<MemoryArea>, FaultAt>
    ensures { Refines is_system_error (λ x. x) result
        (try_map (area_from entries.now) entries.now.areas) }
{
    let mut areas = ListVec::new(alloc);
    'areas: while let Some(entry) = entries.areas.get(areas.len()) {
        areas.push(area_from(alloc, entries, entry)?)?;
    }
    Ok(areas)
}

// Makes all rows, or returns the first error of a row.
fn rows_from(alloc: Global, entries: &Entries) -> Result<ListVec<SegmentRow>, FaultAt>
    ensures { Refines is_system_error (λ x. x) result
        (try_map (row_from entries.now) entries.now.rows) }
{
    let mut rows = ListVec::new(alloc);
    'rows: while let Some(entry) = entries.rows.get(rows.len()) {
        rows.push(row_from(alloc, entries, entry)?)?;
    }
    Ok(rows)
}

// Makes all symbols.
fn symbols_from(alloc: Global, table: &Table) -> Result<ListVec<Symbol>, AllocError>
    ensures { IfOk result (λ symbols. symbols ≡ map symbol_from table.now) }
{
    let mut symbols = ListVec::new(alloc);
    'symbols: while let Some(entry) = table.get(symbols.len()) {
        symbols.push(symbol_from(alloc, entry)?)?;
    }
    Ok(symbols)
}

/// Makes the script, or returns the first error of a name in a sum or of a row.
pub fn build_script(alloc: Global, entries: &Entries) -> Result<Script, FaultAt>
    ensures { Refines is_system_error (λ x. x) result (script_from entries.now) }
{
    let areas = areas_from(alloc, entries)?;
    let rows = rows_from(alloc, entries)?;
    Ok(Script {
        areas,
        rows,
        symbols: symbols_from(alloc, &entries.symbols)?,
    })
}
