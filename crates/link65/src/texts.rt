//! The messages of the linker: texts of errors, and warnings of rows.

ghost use Rattle.std.specs.Prelude.{◌≡◌, IfOk};
ghost use Rattle.link65.specs.Texts.{location_name, absence_warning, alignment_message, alignment_warning, data_warning, is_data, row_warnings, segment_warning, warnings_of_rows};
ghost use Rattle.link65.specs.Faults.{fault_text, comma_separated};
ghost use Rattle.std.specs.List.{list_any};
ghost use Rattle.link65.specs.CodeInvariants.{piece_cells, segment_from};
ghost use Rattle.link65.specs.Placed.{IsReady, segments_in};
ghost use Rattle.link65.specs.Programs.{segment_of};

use crate::fault::{LinkFault, ModuleLocation};
use crate::parts::{SegmentContent, SegmentPiece};
use crate::values::{PlacedProgram, content_of};
use base65::{ListVec, join};
use itoa::Buffer;
use script65::SegmentRow;
use std::alloc::{AllocError, Global};

/// Returns names separated by commas and blanks.
fn listed(alloc: Global, names: &[ListVec<u8>]) -> Result<ListVec<u8>, AllocError>
    ensures { IfOk result (λ text. text ≡ comma_separated names.now) }
{
    let mut text = ListVec::new(alloc);
    let mut separator: &[u8] = b"";
    for name in names {
        text.extend_from_slice(separator)?;
        text.extend_from_slice(name.as_slice())?;
        separator = b", ";
    }
    Ok(text)
}

/// Returns a location's module, and its file if it has one: `module` or `module:file`.
pub fn location_name(alloc: Global, location: &ModuleLocation) -> Result<ListVec<u8>, AllocError>
    ensures { IfOk result (λ text. text ≡ location_name location.now) }
{
    let module = location.module_name.as_slice();
    match &location.file {
        Some(file) => join(alloc, &[module, b":", file.as_slice()]),
        None => join(alloc, &[module]),
    }
}

/// Returns the text of an error as it is printed, with names and texts as in the files.
pub fn fault_text(alloc: Global, fault: &LinkFault) -> Result<ListVec<u8>, AllocError>
    ensures { IfOk result (λ text. text ≡ fault_text fault.now) }
{
    match fault {
        LinkFault::DuplicateExport(name) => join(alloc, &[b"duplicate export: ", name.as_slice()]),
        LinkFault::Unresolved(names) => {
            let names = listed(alloc, names.as_slice())?;
            join(alloc, &[b"unresolved: ", names.as_slice()])
        }
        LinkFault::Assertion(_, text) => ListVec::copy_of(alloc, text.as_slice()),
        fault => ListVec::copy_of(alloc, fault.to_string(alloc)?.as_bytes()),
    }
}

/// Returns the line `ld65: Warning: segment name message`.
fn segment_warning(alloc: Global, name: &[u8], message: &[u8]) -> Result<ListVec<u8>, AllocError>
    ensures { IfOk result (λ text. text ≡ segment_warning name.now message.now) }
{
    join(alloc, &[b"ld65: Warning: segment ", name, message, b"\n"])
}

/// Returns the warning of a row whose segment no module has; empty if the row is optional.
fn absence_warning(alloc: Global, row: &SegmentRow) -> Result<ListVec<u8>, AllocError>
    ensures { IfOk result (λ text. text ≡ absence_warning row.now) }
{
    if row.optional {
        return Ok(ListVec::new(alloc));
    }
    segment_warning(alloc, row.name.as_slice(), b" does not exist")
}

fn alignment_message(alloc: Global, align: u32) -> Result<ListVec<u8>, AllocError>
    ensures { IfOk result (λ text. text ≡ alignment_message align) }
{
    let mut buffer = Buffer::new();
    let number = buffer.format(align);
    join(alloc, &[b" needs alignment ", number.as_bytes()])
}

/// Returns a warning if a row's alignment is no multiple of its segment's; else empty.
fn alignment_warning(
    alloc: Global,
    row: &SegmentRow,
    content: &SegmentContent,
) -> Result<ListVec<u8>, AllocError>
    ensures { IfOk result (λ text. text ≡ alignment_warning row.now (segment_from content.now)) }
{
    if row.align.checked_rem(content.align).unwrap_or(row.align) == 0 {
        return Ok(ListVec::new(alloc));
    }
    segment_warning(
        alloc,
        row.name.as_slice(),
        alignment_message(alloc, content.align)?.as_slice(),
    )
}

/// Returns whether a piece is data and not just bytes of the fill value.
fn is_data(piece: &SegmentPiece) -> bool
    ensures { result ≡ list_any is_data (piece_cells piece.now) }
{
    match piece {
        SegmentPiece::Known(bytes) => bytes.len() != 0,
        SegmentPiece::Filled(_) => false,
        SegmentPiece::Deferred(_) => true,
    }
}

/// Returns whether a segment has data and not just bytes of the fill value.
fn has_data(content: &SegmentContent) -> bool
    ensures { result ≡ list_any is_data (segment_from content.now).cells }
{
    for piece in content.pieces.as_slice() {
        if is_data(piece) {
            return true;
        }
    }
    false
}

/// Returns a warning if a row has data but is in no file; else empty.
fn data_warning(
    alloc: Global,
    row: &SegmentRow,
    content: &SegmentContent,
) -> Result<ListVec<u8>, AllocError>
    ensures { IfOk result (λ text. text ≡ data_warning row.now (segment_from content.now)) }
{
    if row.access.is_written() || !has_data(content) {
        return Ok(ListVec::new(alloc));
    }
    segment_warning(
        alloc,
        row.name.as_slice(),
        b" holds data that is not written",
    )
}

/// Returns the warnings of a row of a placed program.
fn warnings_of_row(
    alloc: Global,
    program: &PlacedProgram<'_>,
    row: &SegmentRow,
) -> Result<ListVec<u8>, AllocError>
    requires { IsReady program.now }
    ensures { IfOk result (λ text.
        text ≡ row_warnings row.now (segment_of (segments_in program.now) row.now.name)) }
{
    match content_of(program, row.name.as_slice()) {
        None => absence_warning(alloc, row),
        Some(content) => {
            let mut text = alignment_warning(alloc, row, content)?;
            text.extend_from_slice(data_warning(alloc, row, content)?.as_slice())?;
            Ok(text)
        }
    }
}

/// Returns the warnings of rows, in order.
pub fn warnings_of(
    alloc: Global,
    program: &PlacedProgram<'_>,
    rows: &[SegmentRow],
) -> Result<ListVec<u8>, AllocError>
    requires { IsReady program.now }
    ensures { IfOk result (λ text. text ≡ warnings_of_rows rows.now (segments_in program.now)) }
{
    let mut text = ListVec::new(alloc);
    for row in rows {
        let warnings = warnings_of_row(alloc, program, row)?;
        text.extend_from_slice(warnings.as_slice())?;
    }
    Ok(text)
}
