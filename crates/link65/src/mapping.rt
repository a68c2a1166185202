//! The text of the map.

ghost use Rattle.std.specs.Prelude.{◌≡◌, ◌≤◌, ◌%◌, ◌++◌, IfOk, OnOk};
ghost use Rattle.std.specs.List.{flat_map};
ghost use Rattle.link65.specs.Placed.{symbol_lines_from, map_from_lines, value_line, HasCorrectProviders};
ghost use Rattle.link65.specs.Programs.{flat_zip};
ghost use Rattle.link65.specs.Texts.{address_text, definition_line, hex_digit, hex_digits, member_lines, row_line, row_lines, section_line, symbol_line, weak_line};

use crate::parts::{LinkedModule, ModuleExport, ScriptSymbol, SectionPosition};
use crate::resolving::DefinedSymbols;
use arrayvec::ArrayVec;
use base65::{ListVec, append_all, join};
use script65::{Placement, RowPlacement, Script, SegmentRow};
use std::alloc::{AllocError, Global};

const DIGITS: [u8; 16] = *b"0123456789ABCDEF";

fn hex_digit(number: u64) -> u8
    ensures { result ≡ hex_digit (number % 16) }
{
    DIGITS[(number % 16) as usize]
}

/// Returns the last `count` hex digits of a number.
fn hex_digits(count: u32, number: u64) -> ArrayVec<u8, 16>
    requires { count ≤ 16 }
    ensures { result.items ≡ hex_digits count number }
{
    let mut digits = ArrayVec::new();
    let mut remaining = count;
    'digits: while remaining > 0 {
        remaining -= 1;
        digits.push(hex_digit(number >> (4 * remaining)));
    }
    digits
}

/// Returns the last hex digits of a number: eight, or
/// nine if it isn't below 2 ^ 32.
fn address_text(number: u64) -> ArrayVec<u8, 16>
    ensures { result.items ≡ address_text number }
{
    let count = if number < 4_294_967_296 { 8 } else { 9 };
    hex_digits(count, number)
}

/// Appends the line `  segment offset size`.
fn add_section_line(text: &mut ListVec<u8>, section: &SectionPosition) -> Result<(), AllocError>
    ensures { OnOk result (text.new ≡ text.old ++ section_line section.now) }
{
    let offset = address_text(section.offset);
    let size = address_text(section.size);
    append_all(
        text,
        &[
            b"  ",
            section.segment.as_slice(),
            b" ",
            offset.as_slice(),
            b" ",
            size.as_slice(),
            b"\n",
        ],
    )
}

/// Appends a module's name and its section lines.
fn add_member_lines(text: &mut ListVec<u8>, member: &LinkedModule) -> Result<(), AllocError>
    ensures { OnOk result (text.new ≡ text.old ++ member_lines member.now) }
{
    append_all(text, &[member.name.as_slice(), b"\n"])?;
    for section in member.sections.as_slice() {
        add_section_line(text, section)?;
    }
    Ok(())
}

/// Returns the lines of modules and their sections.
fn members_text(alloc: Global, members: &[LinkedModule]) -> Result<ListVec<u8>, AllocError>
    ensures { IfOk result (λ text. text ≡ flat_map member_lines members.now) }
{
    let mut text = ListVec::new(alloc);
    for member in members {
        add_member_lines(&mut text, member)?;
    }
    Ok(text)
}

/// Appends the line `name run load size`.
fn add_row_line(
    text: &mut ListVec<u8>,
    row: &SegmentRow,
    placement: RowPlacement,
) -> Result<(), AllocError>
    ensures { OnOk result (text.new ≡ text.old ++ row_line row.now placement) }
{
    let run = address_text(placement.run);
    let load = address_text(placement.load);
    let size = address_text(placement.size);
    append_all(
        text,
        &[
            row.name.as_slice(),
            b" ",
            run.as_slice(),
            b" ",
            load.as_slice(),
            b" ",
            size.as_slice(),
            b"\n",
        ],
    )
}

/// Returns the lines of rows and their placements.
fn rows_text(
    alloc: Global,
    rows: &[SegmentRow],
    placements: &[RowPlacement],
) -> Result<ListVec<u8>, AllocError>
    ensures { IfOk result (λ text. text ≡ row_lines rows.now placements.now) }
{
    let mut text = ListVec::new(alloc);
    for (row, placement) in rows.iter().zip(placements) {
        add_row_line(&mut text, row, *placement)?;
    }
    Ok(text)
}

/// Appends `name value`, the value as 16 hex digits.
fn add_symbol_line(text: &mut ListVec<u8>, name: &[u8], bits: u64) -> Result<(), AllocError>
    ensures { OnOk result (text.new ≡ text.old ++ symbol_line name.now bits) }
{
    let digits = hex_digits(16, bits);
    append_all(text, &[name, b" ", digits.as_slice(), b"\n"])
}

fn add_definition_line(text: &mut ListVec<u8>, definition: &ScriptSymbol) -> Result<(), AllocError>
    ensures { OnOk result (text.new ≡ text.old ++ definition_line definition.now) }
{
    let bits = definition.value.cast_unsigned();
    add_symbol_line(text, definition.name.as_slice(), bits)
}

fn definition_lines(alloc: Global, definitions: &[ScriptSymbol]) -> Result<ListVec<u8>, AllocError>
    ensures { IfOk result (λ text. text ≡ flat_map definition_line definitions.now) }
{
    let mut text = ListVec::new(alloc);
    for definition in definitions {
        add_definition_line(&mut text, definition)?;
    }
    Ok(text)
}

fn export_lines(
    alloc: Global,
    exports: &[ModuleExport],
    values: &[i64],
) -> Result<ListVec<u8>, AllocError>
    ensures { IfOk result (λ text. text ≡ flat_zip value_line exports.now values.now) }
{
    let mut text = ListVec::new(alloc);
    for (export, value) in exports.iter().zip(values) {
        add_symbol_line(&mut text, export.name.as_slice(), value.cast_unsigned())?;
    }
    Ok(text)
}

/// Returns the lines of the weak names that nothing
/// else defines.
fn weak_lines(alloc: Global, names: &DefinedSymbols<'_>) -> Result<ListVec<u8>, AllocError>
    requires { HasCorrectProviders names.now }
    ensures { IfOk result (λ text.
        text ≡ flat_map (weak_line names.now.script_symbols.now names.now.exports.now)
        names.now.weak.now) }
{
    let mut text = ListVec::new(alloc);
    for weak in names.weak {
        if !names.defined.contains_key(weak.name.as_slice()) {
            add_definition_line(&mut text, weak)?;
        }
    }
    Ok(text)
}

/// Returns the lines of all symbols, given the values
/// of exports.
pub fn symbols_text(
    alloc: Global,
    names: &DefinedSymbols<'_>,
    values: &[i64],
) -> Result<ListVec<u8>, AllocError>
    requires { HasCorrectProviders names.now }
    ensures { IfOk result (λ text.
        text ≡ symbol_lines_from names.now.script_symbols.now names.now.weak.now
        names.now.exports.now values.now) }
{
    let script_lines = definition_lines(alloc, names.script_symbols)?;
    let exports = export_lines(alloc, names.exports, values)?;
    let weak = weak_lines(alloc, names)?;
    join(
        alloc,
        &[script_lines.as_slice(), exports.as_slice(), weak.as_slice()],
    )
}

/// Returns the text of the map, given the lines of
/// its symbols.
pub fn map_text(
    alloc: Global,
    script: &Script,
    placement: &Placement,
    members: &[LinkedModule],
    symbols: &[u8],
) -> Result<ListVec<u8>, AllocError>
    ensures { IfOk result (λ text.
        text ≡ map_from_lines members.now script.now.rows placement.now.rows symbols.now) }
{
    let modules = members_text(alloc, members)?;
    let rows = rows_text(alloc, script.rows.as_slice(), placement.rows.as_slice())?;
    join(
        alloc,
        &[
            b"MODULES\n",
            modules.as_slice(),
            b"SEGMENTS\n",
            rows.as_slice(),
            b"SYMBOLS\n",
            symbols,
        ],
    )
}
