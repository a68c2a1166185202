//! The parts of whole scripts.

use super::ROM;
use script65::{
    AreaAttribute, AreaOutput, MemoryArea, Operand, RowAttribute, RowStart, Script, SegmentRow,
    SegmentType, Symbol, SymbolKind, Term, read_script,
};
use std::test::Fail;

/// Returns whether the only term of a sum is this number.
fn is_number(terms: &[Term], number: u32) -> bool {
    match terms {
        [term] => !term.minus && matches!(term.operand, Operand::Number(n) if n == number),
        _ => false,
    }
}

/// Returns whether an area begins and is as long as these numbers say.
fn spans(area: &MemoryArea, start: u32, size: u32) -> bool {
    is_number(area.start.as_slice(), start) && is_number(area.size.as_slice(), size)
}

/// Returns whether an area has 16 bytes and is for the output, with the defaults of all other
/// attributes.
fn is_plain_area(area: &MemoryArea) -> bool {
    area.name.as_slice() == b"ROM".as_slice()
        && spans(area, 0x8000, 0x10)
        && area.fill_value == 0
        && !(area.read_only || area.fill || area.define)
        && matches!(area.file, AreaOutput::Output)
}

/// A row of that area with nothing but its access.
fn is_plain_row(row: &SegmentRow) -> bool {
    (row.load, row.run, row.align, row.align_load) == (0, 0, 1, 1)
        && (row.access, row.begin) == (SegmentType::ReadOnly, RowStart::Aligned)
        && row.fill_value == 0
        && !row.define
}

/// Returns whether the script is the one of an area with two rows, of which the second is optional.
fn is_rom(script: &Script) -> bool {
    match (script.areas.as_slice(), script.rows.as_slice()) {
        ([area], [code, data]) => {
            is_plain_area(area)
                && is_plain_row(code)
                && is_plain_row(data)
                && code.name.as_slice() == b"CODE".as_slice()
                && !code.optional
                && data.optional
                && script.symbols.len() == 0
        }
        _ => false,
    }
}

#[test]
fn defaults(rt: HostRuntime) -> Result<(), Fail> {
    let script = read_script(rt.alloc(), ROM.as_bytes())?;
    assert!(rt; is_rom(&script));
    Ok(())
}

/// Every attribute, in any case and order, with and without `=` and `,`.
const WHOLE: &str = "# areas and rows\r
symbols { e: addrsize = Absolute type = Export, value $10; w: value = 7, TYPE weak; }\r
Segments {
  DATA: run = RAM, load = ROM align = 4 Align_Load = $100 type = RW offset 2 # here
    define = YES;
  BSS: optional = no, type bss, load RAM, fillval = 3, start = $210;
  ZP: type = Zp, load = RAM;
}
MEMORY { ROM: SIZE $10 START $8000 Type ro, file \"rom.bin\", FILL = yes, fillval = $ff, define = yes; }
SYMBOLS { i: type = import addrsize zp; }
memory { RAM: start = 512, size = 256, type = rw, file = \"\", fill no, define No; OUT: start 0 size 0 file %O; }
";

fn are_areas(areas: &[MemoryArea]) -> bool {
    match areas {
        [rom, ram, out] => {
            spans(rom, 0x8000, 0x10)
                && rom.fill_value == 0xff
                && rom.read_only
                && rom.fill
                && rom.define
                && is_named(&rom.file, b"rom.bin")
                && spans(ram, 512, 256)
                && is_named(&ram.file, b"")
                && matches!(out.file, AreaOutput::Output)
        }
        _ => false,
    }
}

fn is_named(file: &AreaOutput, wanted: &[u8]) -> bool {
    match file {
        AreaOutput::Named(name) => name.as_slice() == wanted,
        AreaOutput::Output => false,
    }
}

fn are_symbols(symbols: &[Symbol]) -> bool {
    match symbols {
        [e, w, i] => {
            e.kind == SymbolKind::Export(0x10)
                && w.kind == SymbolKind::Weak(7)
                && i.kind == SymbolKind::Import
                && i.name.as_slice() == b"i".as_slice()
        }
        _ => false,
    }
}

/// The first row's fill value is its load area's.
fn are_rows(rows: &[SegmentRow]) -> bool {
    match rows {
        [data, bss, zp] => {
            (data.load, data.run, data.align, data.align_load) == (0, 1, 4, 0x100)
                && (data.access, data.begin) == (SegmentType::ReadWrite, RowStart::Offset(2))
                && (data.fill_value, data.define, data.optional) == (0xff, true, false)
                && (bss.load, bss.run, bss.fill_value) == (1, 1, 3)
                && (bss.access, bss.begin) == (SegmentType::Bss, RowStart::Start(0x210))
                && zp.access == SegmentType::ZeroPage
        }
        _ => false,
    }
}

#[test]
fn whole_scripts(rt: HostRuntime) -> Result<(), Fail> {
    let script = read_script(rt.alloc(), WHOLE.as_bytes())?;
    assert!(rt; are_areas(script.areas.as_slice()));
    assert!(rt; are_symbols(script.symbols.as_slice()));
    assert!(rt; are_rows(script.rows.as_slice()));
    Ok(())
}

/// Sums in which each term is of another kind.
const SUMS: &str =
    "MEMORY { A: start = 5 - e, size = $20; B: size = e + __A_LAST__ - __S_RUN__ start __A_START__; } SEGMENTS { S: load = A; } SYMBOLS { e: type = export, value = 3; }";

/// Returns whether the terms are 5 and, taken from it, the export's 3.
fn is_difference(terms: &[Term]) -> bool {
    match terms {
        [five, three] => {
            !five.minus
                && three.minus
                && matches!(five.operand, Operand::Number(5))
                && matches!(three.operand, Operand::Number(3))
        }
        _ => false,
    }
}

/// Returns whether the terms are the export's 3, the end of the first area, and, taken from these, where the first row runs.
fn has_names(terms: &[Term]) -> bool {
    match terms {
        [three, last, run] => {
            !(three.minus || last.minus)
                && run.minus
                && matches!(three.operand, Operand::Number(3))
                && matches!(last.operand, Operand::Area(0, AreaAttribute::Last))
                && matches!(run.operand, Operand::Row(0, RowAttribute::Run))
        }
        _ => false,
    }
}

#[test]
fn sums(rt: HostRuntime) -> Result<(), Fail> {
    let script = read_script(rt.alloc(), SUMS.as_bytes())?;
    match script.areas.as_slice() {
        [a, b] => {
            assert!(rt; is_difference(a.start.as_slice()));
            assert!(rt; has_names(b.size.as_slice()));
        }
        _ => assert!(rt; false),
    }
    Ok(())
}
