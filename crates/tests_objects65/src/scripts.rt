//! Whole scripts, their faults, and where rows are placed.

mod faults;
mod files;
mod places;
mod scripts;

use base65::ListVec;
use script65::{PlaceFault, Placement, Script, SegmentNeed, place, read_script};
use std::alloc::{AllocError, Global};
use std::test::Fail;

/// An area of 16 bytes, with a row for code and one for data that no module need have.
const ROM: &str =
    "MEMORY { ROM: start = $8000, size = $10; } SEGMENTS { CODE: load = ROM, type = ro; DATA: load = ROM, type = ro, optional = yes; }";

/// The fault of a text, by number, and its line.
fn fault_of(alloc: Global, text: &str) -> Option<(u8, usize)> {
    match read_script(alloc, text.as_bytes()) {
        Ok(_) => None,
        Err(e) => Some((e.fault as u8, e.line)),
    }
}

/// Where segments of these sizes are placed by a script, or why they can't be.
fn placed(
    alloc: Global,
    script: &Script,
    sizes: &[(&str, u64)],
) -> Result<Result<Placement, PlaceFault>, AllocError> {
    let mut needs = Vec::new(alloc);
    for (name, size) in sizes {
        needs.push(SegmentNeed {
            name: ListVec::copy_of(alloc, name.as_bytes())?,
            size: *size,
            align: 1,
        })?;
    }
    Ok(place(alloc, script, needs.as_slice()))
}

/// The same by a script's text.
fn place_text(
    alloc: Global,
    text: &str,
    sizes: &[(&str, u64)],
) -> Result<Result<Placement, PlaceFault>, Fail> {
    let script = read_script(alloc, text.as_bytes())?;
    Ok(placed(alloc, &script, sizes)?)
}
