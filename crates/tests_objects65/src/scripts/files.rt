//! Files of areas, by what rows hold.

use super::placed;
use base65::{ListVec, OutputFile};
use link65::files_of;
use script65::{Placement, Script, SegmentRow, read_script};
use std::alloc::{AllocError, Global};
use std::test::Fail;

/// The bytes of rows that hold their names, where they are written.
fn names_of(alloc: Global, rows: &[SegmentRow]) -> Result<Vec<ListVec<u8>>, AllocError> {
    let mut all = Vec::new(alloc);
    for row in rows {
        let mut bytes = ListVec::new(alloc);
        if row.access.is_written() {
            bytes.extend_from_slice(row.name.as_slice())?;
        }
        all.push(bytes)?;
    }
    Ok(all)
}

const TEXT: &[u8] =
    b"MEMORY { ROM: start = $8000, size = $10, fillval = $FF; } SEGMENTS { CODE: load = ROM, type = ro; BSS: load = ROM, type = bss; DATA: load = ROM; }";

/// Returns whether there is one file with this name and these bytes.
fn is_file(files: &[OutputFile], name: &str, bytes: &[u8]) -> bool {
    match files {
        [file] => file.name.as_str() == name && file.bytes.as_slice() == bytes,
        _ => false,
    }
}

/// Returns whether rows that hold their names, placed so, make one file with these bytes.
fn make(
    alloc: Global,
    script: &Script,
    placement: &Placement,
    bytes: &[u8],
) -> Result<bool, AllocError> {
    let contents = names_of(alloc, script.rows.as_slice())?;
    let files = files_of(alloc, "a.out", script, contents, placement)?;
    Ok(is_file(files.as_slice(), "a.out", bytes))
}

/// A row without bytes leaves a gap, and the rows after it don't move.
#[test]
fn a_gap_has_the_fill(rt: HostRuntime) -> Result<(), Fail> {
    let script = read_script(rt.alloc(), TEXT)?;
    let placement = placed(rt.alloc(), &script, &[("CODE", 4), ("BSS", 2), ("DATA", 4)])??;
    assert!(rt; make(rt.alloc(), &script, &placement, b"CODE\xff\xffDATA")?);
    Ok(())
}

const ONE_ROW: &[u8] = b"MEMORY { ROM: start = $8000, size = $10; } SEGMENTS { CODE: load = ROM; }";

/// A file may be one row.
#[test]
fn one_row_is_a_file(rt: HostRuntime) -> Result<(), Fail> {
    let script = read_script(rt.alloc(), ONE_ROW)?;
    let placement = placed(rt.alloc(), &script, &[("CODE", 4)])??;
    assert!(rt; make(rt.alloc(), &script, &placement, b"CODE")?);
    Ok(())
}

const LATER_ROW: &[u8] =
    b"MEMORY { ROM: start = $8000, size = $10; } SEGMENTS { CODE: load = ROM, start = $8002; }";

/// One row that begins after the start of its area has the fill value before it.
#[test]
fn one_row_after_the_start(rt: HostRuntime) -> Result<(), Fail> {
    let script = read_script(rt.alloc(), LATER_ROW)?;
    let placement = placed(rt.alloc(), &script, &[("CODE", 4)])??;
    assert!(rt; make(rt.alloc(), &script, &placement, b"\0\0CODE")?);
    Ok(())
}
