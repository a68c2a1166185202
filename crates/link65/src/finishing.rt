//! The results of a placed program except its files: the bytes of its rows, warnings, and the map.

ghost use Rattle.std.specs.Prelude.{◌≡◌, ◌++◌, IfOk, OnOk, Some, map};
ghost use Rattle.std.specs.List.{flat_map};
ghost use Rattle.base65.specs.Outcome.{Refines, RefinesProp};
ghost use Rattle.link65.specs.Files.{written_row_bytes};
ghost use Rattle.link65.specs.Links.{check_each, fixups_by_row, fixups_of, check_result};
ghost use Rattle.link65.specs.CodeInvariants.{piece_cells, piece_fixups};
ghost use Rattle.link65.specs.Faults.{is_memory};
ghost use Rattle.link65.specs.Placed.{AllFound, IsReady, bytes_in, cell_in, check_in, exports_in, linkage_in, segments_in, HasMatchingNames, IsCheckedLink, program_in, values_in};
ghost use Rattle.link65.specs.Programs.{segment_of};

use crate::fault::LinkFault;
use crate::mapping::{map_text, symbols_text};
use crate::parts::{SegmentContent, SegmentPiece, ValueFixup};
use crate::resolving::DefinedSymbols;
use crate::texts::warnings_of;
use crate::values::{PlacedProgram, check_assertions, content_of, datum_value, export_values};
use base65::ListVec;
use object65::put;
use script65::{Placement, Script, SegmentRow};
use std::alloc::{AllocError, Global};

/// Appends the bytes of a piece. Rejects a piece whose value is missing or doesn't fit.
fn add_piece(
    alloc: Global,
    program: &PlacedProgram<'_>,
    fill: u8,
    piece: &SegmentPiece,
    bytes: &mut Vec<u8>,
) -> Result<(), LinkFault>
    requires { AllFound program.now.states.now }
    ensures checked { Refines is_memory (λ u. u) result
        (check_each (check_in program.now) (piece_fixups piece.now)) }
    ensures bytes { OnOk result (bytes.new.items ≡
        bytes.old.items ++ flat_map (cell_in program.now fill) (piece_cells piece.now)) }
{
    match piece {
        SegmentPiece::Known(known) => Ok(bytes.extend_from_slice(known.as_slice())?),
        SegmentPiece::Filled(count) => match bytes.len().checked_add(*count as usize) {
            Some(len) => Ok(bytes.resize(len, fill)?),
            None => Err(LinkFault::OutOfMemory),
        },
        SegmentPiece::Deferred(fixup) => {
            let value = datum_value(alloc, program, fixup)?;
            Ok(bytes.extend_from_slice(put(fixup.width, value).as_slice())?)
        }
    }
}

/// Rejects the first piece whose value is missing or doesn't fit.
fn check_pieces(
    alloc: Global,
    program: &PlacedProgram<'_>,
    pieces: &[SegmentPiece],
) -> Result<(), LinkFault>
    requires { AllFound program.now.states.now }
    ensures { Refines is_memory (λ u. u) result
        (check_each (check_in program.now) (flat_map piece_fixups pieces.now)) }
{
    for piece in pieces {
        if let SegmentPiece::Deferred(fixup) = piece {
            datum_value(alloc, program, fixup)?;
        }
    }
    Ok(())
}

/// Returns the bytes of a row, none if it isn't written; or the first error of its values.
fn bytes_of_row(
    alloc: Global,
    program: &PlacedProgram<'_>,
    row: &SegmentRow,
) -> Result<ListVec<u8>, LinkFault>
    requires { IsReady program.now }
    ensures checked { Refines is_memory (λ _. tt) result
        (check_each (check_in program.now)
        (fixups_of (segment_of (segments_in program.now) row.now.name))) }
    ensures bytes { IfOk result (λ bytes.
        bytes ≡ written_row_bytes (bytes_in program.now) row.now) }
{
    let Some(content) = content_of(program, row.name.as_slice()) else {
        return Ok(ListVec::new(alloc));
    };
    let pieces = content.pieces.as_slice();
    if !row.access.is_written() {
        check_pieces(alloc, program, pieces)?;
        return Ok(ListVec::new(alloc));
    }
    let mut bytes = Vec::with_capacity(alloc, content.size as usize)?;
    for piece in pieces {
        add_piece(alloc, program, row.fill_value, piece, &mut bytes)?;
    }
    Ok(ListVec::from_vec(bytes))
}

/// Returns the bytes of each row, none of one that isn't written. Rejects the first value that is missing or
/// doesn't fit, in the order of rows, modules and fragments, whether its row is written or not.
fn rows_of(
    alloc: Global,
    program: &PlacedProgram<'_>,
    rows: &[SegmentRow],
) -> Result<Vec<ListVec<u8>>, LinkFault>
    requires { IsReady program.now }
    ensures checked { Refines is_memory (λ _. tt) result
        (check_each (check_in program.now) (fixups_by_row rows.now (segments_in program.now))) }
    ensures bytes { IfOk result (λ all.
        all.items ≡ map (written_row_bytes (bytes_in program.now)) rows.now) }
{
    let mut all = Vec::with_capacity(alloc, rows.len())?;
    for row in rows {
        all.push(bytes_of_row(alloc, program, row)?)?;
    }
    Ok(all)
}

/// The results of a placed program except its files.
#[derive(Drop)]
pub struct CheckedLink {
    /// The bytes of each row that is written.
    pub rows: Vec<ListVec<u8>>,
    /// The warnings.
    pub warnings: ListVec<u8>,
    /// The map's text.
    pub map: ListVec<u8>,
}

/// The results of checking data, exports and assertions, in this order.
#[derive(Drop)]
pub struct CheckResults {
    /// The bytes of each row that is written.
    pub rows: Vec<ListVec<u8>>,
    /// The values of exports.
    pub values: Vec<i64>,
    /// The warnings of assertions.
    pub assertions: ListVec<u8>,
}

/// Checks data, exports and assertions.
fn check_all(
    alloc: Global,
    script: &Script,
    program: &PlacedProgram<'_>,
) -> Result<CheckResults, LinkFault>
    requires { IsReady program.now }
    ensures checked { Refines is_memory (λ x. x.assertions) result
        (check_result script.now (program_in program.now) (linkage_in program.now)
        (exports_in program.now)) }
    ensures values { IfOk result (λ x. x.values.items ≡ values_in program.now) }
    ensures rows { IfOk result (λ x.
        x.rows.items ≡ map (written_row_bytes (bytes_in program.now)) script.now.rows) }
{
    let rows = rows_of(alloc, program, script.rows.as_slice())?;
    let values = export_values(alloc, program)?;
    let assertions = check_assertions(alloc, program, program.asserts)?;
    Ok(CheckResults {
        rows,
        values,
        assertions,
    })
}

/// Computes the results of a placed program except its files, or the first error.
pub fn check_and_emit(
    alloc: Global,
    script: &Script,
    placement: &Placement,
    names: &DefinedSymbols<'_>,
    program: &PlacedProgram<'_>,
) -> Result<CheckedLink, LinkFault>
    requires { HasMatchingNames script.now placement.now names.now program.now }
    ensures { RefinesProp is_memory (IsCheckedLink script.now (program_in program.now) placement.now
        (linkage_in program.now) (exports_in program.now)) result }
{
    let checked = check_all(alloc, script, program)?;
    let mut warnings = warnings_of(alloc, program, script.rows.as_slice())?;
    warnings.extend_from_slice(checked.assertions.as_slice())?;
    let symbols = symbols_text(alloc, names, checked.values.as_slice())?;
    let members = program.members;
    let map = map_text(alloc, script, placement, members, symbols.as_slice())?;
    Ok(CheckedLink {
        rows: checked.rows,
        warnings,
        map,
    })
}
