//! Where rows are placed, and why they can't be.

use super::{ROM, place_text};
use script65::{AreaPlacement, RowPlacement};
use std::alloc::Global;
use std::test::Fail;

fn row(load: u64, run: u64, size: u64) -> RowPlacement {
    RowPlacement { load, run, size }
}

/// Returns whether a script refuses to place segments with this text.
fn refuses(alloc: Global, text: &str, sizes: &[(&str, u64)], wanted: &str) -> Result<bool, Fail> {
    match place_text(alloc, text, sizes)? {
        Ok(_) => Ok(false),
        Err(e) => Ok(e.to_string(alloc)?.as_str() == wanted),
    }
}

/// Returns whether a script places rows and ends areas here.
fn places(
    alloc: Global,
    text: &str,
    sizes: &[(&str, u64)],
    rows: &[RowPlacement],
    areas: &[AreaPlacement],
) -> Result<bool, Fail> {
    match place_text(alloc, text, sizes)? {
        Ok(it) => Ok(it.rows.as_slice() == rows && it.areas.as_slice() == areas),
        Err(_) => Ok(false),
    }
}

#[test]
fn one_segment(rt: HostRuntime) -> Result<(), Fail> {
    let rows = [row(0x8000, 0x8000, 3), row(0x8003, 0x8003, 0)];
    let rom = AreaPlacement {
        start: 0x8000,
        size: 0x10,
        last: 0x8003,
    };
    assert!(rt; places(rt.alloc(), ROM, &[("CODE", 3)], &rows, &[rom])?);
    Ok(())
}

const MOVED: &str =
    "MEMORY { RAM: start = $0200, size = $100, file = \"\"; ROM: start = $8000, size = $10; } SEGMENTS { CODE: load = ROM, type = ro; DATA: load = ROM, run = RAM, define = yes; }";

#[test]
fn load_and_run(rt: HostRuntime) -> Result<(), Fail> {
    let rows = [row(0x8000, 0x8000, 2), row(0x8002, 0x0200, 2)];
    let ram = AreaPlacement {
        start: 0x0200,
        size: 0x100,
        last: 0x0202,
    };
    let rom = AreaPlacement {
        start: 0x8000,
        size: 0x10,
        last: 0x8004,
    };
    let sizes = [("DATA", 2), ("CODE", 2)];
    assert!(rt; places(rt.alloc(), MOVED, &sizes, &rows, &[ram, rom])?);
    Ok(())
}

const BEGINS: &str =
    "MEMORY { A: start = $100, size = $100; B: start = $205, size = $100; } SEGMENTS { N: load = A, align = 16, start = $1F1; O: load = A, offset = $F8; P: load = B, align = 8; Q: load = B, run = A, align_load = 16, align = 4; R: load = B, align = 256; }";

#[test]
fn where_rows_begin(rt: HostRuntime) -> Result<(), Fail> {
    let rows = [
        row(0x1f1, 0x1f1, 1),
        row(0x1f8, 0x1f8, 1),
        row(0x208, 0x208, 1),
        row(0x210, 0x1fc, 1),
        row(0x211, 0x211, 0),
    ];
    let sizes = [("N", 1), ("O", 1), ("P", 1), ("Q", 1)];
    let a = AreaPlacement {
        start: 0x100,
        size: 0x100,
        last: 0x1fd,
    };
    let b = AreaPlacement {
        start: 0x205,
        size: 0x100,
        last: 0x211,
    };
    assert!(rt; places(rt.alloc(), BEGINS, &sizes, &rows, &[a, b])?);
    Ok(())
}

const BEHIND: &str =
    "MEMORY { ZP: start = $10, size = $20; RAM: start = __ZP_LAST__, size = TOP - __ZP_LAST__; } SEGMENTS { Z: load = ZP, type = zp; B: load = RAM, type = bss; } SYMBOLS { TOP: type = export, value = $40; }";

const AHEAD: &str =
    "MEMORY { RAM: start = __ZP_LAST__, size = 1; ZP: start = $10, size = $20; } SEGMENTS { Z: load = ZP, type = zp; }";

/// An area after the contents of another one, up to an address that the script exports.
#[test]
fn areas_by_sums(rt: HostRuntime) -> Result<(), Fail> {
    let rows = [row(0x10, 0x10, 3), row(0x13, 0x13, 1)];
    let zp = AreaPlacement {
        start: 0x10,
        size: 0x20,
        last: 0x13,
    };
    let ram = AreaPlacement {
        start: 0x13,
        size: 0x2d,
        last: 0x14,
    };
    assert!(rt; places(rt.alloc(), BEHIND, &[("Z", 3), ("B", 1)], &rows, &[zp, ram])?);
    assert!(rt;
        refuses(
            rt.alloc(),
            BEHIND,
            &[("Z", 49)],
            "overflow of ZP by 17 bytes"
        )?
    );
    let small = "MEMORY { A: start = 9, size = e - 4; } SYMBOLS { e: type = export, value = 3; }";
    assert!(rt; refuses(rt.alloc(), small, &[], "area value out of range: A")?);
    assert!(rt;
        refuses(
            rt.alloc(),
            AHEAD,
            &[("Z", 3)],
            "name not yet placed: __ZP_LAST__"
        )?
    );
    Ok(())
}

/// Errors that no object causes, and rows that can't be placed.
#[test]
fn refusals(rt: HostRuntime) -> Result<(), Fail> {
    let sizes = [("CODE", u64::MAX)];
    let wanted = "overflow of ROM by 18446744073709551599 bytes";
    assert!(rt; refuses(rt.alloc(), ROM, &sizes, wanted)?);
    let sizes = [("CODE", 17), ("X", 0), ("Y", 0)];
    assert!(rt; refuses(rt.alloc(), ROM, &sizes, "segment has no row: X")?);
    Ok(())
}
