//! The names that a script defines.

ghost use Rattle.std.specs.Prelude.{◌≡◌, ◌++◌, IfOk, OnOk, map};
ghost use Rattle.std.specs.Int.{w64, cast_signed};
ghost use Rattle.script65.specs.AreaSums.{attribute_name};
ghost use Rattle.link65.specs.Names.{areas_definitions, attribute_symbol, rows_definitions, script_definitions, symbol_exports, weak_symbols, area_names, row_names, script_names};
ghost use Rattle.std.specs.List.{flat_map};

use crate::parts::ScriptSymbol;
use base65::{ListVec, join};
use script65::{
    AreaPlacement, MemoryArea, Placement, RowPlacement, Script, SegmentRow, Symbol, SymbolKind,
};
use std::alloc::{AllocError, Global};

/// Returns the name `__NAME_PART__`.
fn attribute_name(alloc: Global, name: &[u8], part: &[u8]) -> Result<ListVec<u8>, AllocError>
    ensures { IfOk result (λ text. text ≡ attribute_name name.now part.now) }
{
    join(alloc, &[b"__", name, b"_", part, b"__"])
}

/// Returns the symbol `__NAME_WORD__` of an area or of a row, with its value.
fn attribute_symbol(
    alloc: Global,
    name: &[u8],
    word: &[u8],
    number: u64,
) -> Result<ScriptSymbol, AllocError>
    ensures { IfOk result (λ d. d ≡ attribute_symbol name.now word.now number) }
{
    Ok(ScriptSymbol {
        name: attribute_name(alloc, name, word)?,
        value: number.cast_signed(),
    })
}

/// Returns the symbol with this name and value.
fn symbol_of(alloc: Global, name: &[u8], number: u32) -> Result<ScriptSymbol, AllocError>
    ensures { IfOk result (λ d. d ≡ record { name = name.now; value = cast_signed w64 number }) }
{
    Ok(ScriptSymbol {
        name: ListVec::copy_of(alloc, name)?,
        value: u64::from(number).cast_signed(),
    })
}

/// Adds the definitions of areas.
fn add_areas(
    alloc: Global,
    definitions: &mut ListVec<ScriptSymbol>,
    areas: &[MemoryArea],
    placements: &[AreaPlacement],
) -> Result<(), AllocError>
    ensures { OnOk result (definitions.new ≡
        definitions.old ++ areas_definitions areas.now placements.now) }
{
    for (area, placement) in areas.iter().zip(placements) {
        if area.define {
            let name = area.name.as_slice();
            definitions.push(attribute_symbol(alloc, name, b"START", placement.start)?)?;
            definitions.push(attribute_symbol(alloc, name, b"SIZE", placement.size)?)?;
            definitions.push(attribute_symbol(alloc, name, b"LAST", placement.last)?)?;
        }
    }
    Ok(())
}

/// Adds the definitions of rows.
fn add_rows(
    alloc: Global,
    definitions: &mut ListVec<ScriptSymbol>,
    rows: &[SegmentRow],
    placements: &[RowPlacement],
) -> Result<(), AllocError>
    ensures { OnOk result (definitions.new ≡
        definitions.old ++ rows_definitions rows.now placements.now) }
{
    for (row, placement) in rows.iter().zip(placements) {
        if row.define {
            let name = row.name.as_slice();
            definitions.push(attribute_symbol(alloc, name, b"LOAD", placement.load)?)?;
            definitions.push(attribute_symbol(alloc, name, b"RUN", placement.run)?)?;
            definitions.push(attribute_symbol(alloc, name, b"SIZE", placement.size)?)?;
        }
    }
    Ok(())
}

/// Adds the symbols that the script exports.
fn add_exports(
    alloc: Global,
    definitions: &mut ListVec<ScriptSymbol>,
    symbols: &[Symbol],
) -> Result<(), AllocError>
    ensures { OnOk result (definitions.new ≡ definitions.old ++ symbol_exports symbols.now) }
{
    for symbol in symbols {
        if let SymbolKind::Export(number) = symbol.kind {
            definitions.push(symbol_of(alloc, symbol.name.as_slice(), number)?)?;
        }
    }
    Ok(())
}

/// Returns the weak symbols of the script, which it defines if nothing else does.
pub fn weak_symbols(alloc: Global, symbols: &[Symbol]) -> Result<ListVec<ScriptSymbol>, AllocError>
    ensures { IfOk result (λ ds. ds ≡ weak_symbols symbols.now) }
{
    let mut definitions = ListVec::new(alloc);
    for symbol in symbols {
        if let SymbolKind::Weak(number) = symbol.kind {
            definitions.push(symbol_of(alloc, symbol.name.as_slice(), number)?)?;
        }
    }
    Ok(definitions)
}

/// Returns the definitions of a script, in the map's order.
pub fn definitions_of(
    alloc: Global,
    script: &Script,
    placement: &Placement,
) -> Result<ListVec<ScriptSymbol>, AllocError>
    ensures { IfOk result (λ ds. ds ≡ script_definitions script.now placement.now) }
{
    let mut definitions = ListVec::new(alloc);
    add_areas(
        alloc,
        &mut definitions,
        script.areas.as_slice(),
        placement.areas.as_slice(),
    )?;
    add_rows(
        alloc,
        &mut definitions,
        script.rows.as_slice(),
        placement.rows.as_slice(),
    )?;
    add_exports(alloc, &mut definitions, script.symbols.as_slice())?;
    Ok(definitions)
}

/// Adds the names that areas define.
fn add_names_of_areas(
    alloc: Global,
    names: &mut ListVec<ListVec<u8>>,
    areas: &[MemoryArea],
) -> Result<(), AllocError>
    ensures { OnOk result (names.new ≡ names.old ++ flat_map area_names areas.now) }
{
    for area in areas {
        if area.define {
            let name = area.name.as_slice();
            names.push(attribute_name(alloc, name, b"START")?)?;
            names.push(attribute_name(alloc, name, b"SIZE")?)?;
            names.push(attribute_name(alloc, name, b"LAST")?)?;
        }
    }
    Ok(())
}

/// Adds the names that rows define.
fn add_names_of_rows(
    alloc: Global,
    names: &mut ListVec<ListVec<u8>>,
    rows: &[SegmentRow],
) -> Result<(), AllocError>
    ensures { OnOk result (names.new ≡ names.old ++ flat_map row_names rows.now) }
{
    for row in rows {
        if row.define {
            let name = row.name.as_slice();
            names.push(attribute_name(alloc, name, b"LOAD")?)?;
            names.push(attribute_name(alloc, name, b"RUN")?)?;
            names.push(attribute_name(alloc, name, b"SIZE")?)?;
        }
    }
    Ok(())
}

/// Returns the names that a script defines: of areas, of rows, and of the symbols that it exports.
pub fn script_names(alloc: Global, script: &Script) -> Result<ListVec<ListVec<u8>>, AllocError>
    ensures { IfOk result (λ names. names ≡ script_names script.now) }
{
    let mut names = ListVec::new(alloc);
    add_names_of_areas(alloc, &mut names, script.areas.as_slice())?;
    add_names_of_rows(alloc, &mut names, script.rows.as_slice())?;
    for symbol in script.symbols.as_slice() {
        if let SymbolKind::Export(_) = symbol.kind {
            names.push(ListVec::copy_of(alloc, symbol.name.as_slice())?)?;
        }
    }
    Ok(names)
}
