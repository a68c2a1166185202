//! Emits values at once if their forms are final and have no error, or defers them.

ghost use Rattle.std.specs.Prelude.{◌≡◌, IfOk, IfSome, List, map, Ok, OnOk, Some, ℕ};
ghost use Rattle.semantics65.specs.Contents.{file_bytes, value_part};
ghost use Rattle.ast65.specs.Items.{literal_item};
ghost use Rattle.semantics65.specs.Views.{location_of_ref};
ghost use Rattle.symbols65.specs.Evaluations.{HasFinal};
ghost use Rattle.symbols65.specs.Views.{table_of};
ghost use Rattle.asm65.specs.Internal.AssemblerState.{AreEncodedNumbers, AppendsPart, operand_part, ChangesOnlySections, DefersPiece, EmitsIfResolved, purpose_of};
ghost use Rattle.object65.specs.Objects.{is_file_name};
ghost use Rattle.emit65.specs.SectionContents.{piece_of};
ghost use Rattle.semantics65.specs.Module.{expression_value};
ghost use Rattle.base65.specs.declared.action.Action.{Action};
ghost use Rattle.syntax65.specs.Trees.{Tree};

use super::PieceContext;
use crate::assembler::Assembler;
use ast65::Item;
use base65::ListVec;
use emit65::{FixupKind, Sections};
use object65::format::FILE_NAME_LIMIT;
use object65::{Norm, Width, fits, put};
use semantics65::{EncodingChoice, LocationRef};
use std::alloc::{AllocError, Global};
use symbols65::constants::literal_of;
use symbols65::operand_form;
use syntax65::{Expr, ExprKind};

/// Returns the bytes of numbers, in order, if each is in range.
pub fn bytes_of(
    alloc: Global,
    width: Width,
    numbers: &[u32],
) -> Result<Option<ListVec<u8>>, AllocError>
    ensures { IfOk result (λ o. IfSome o (AreEncodedNumbers width numbers.now)) }
{
    let mut bytes = ListVec::from_vec(Vec::with_capacity(alloc, numbers.len())?);
    for number in numbers {
        let number = i64::from(*number);
        if !fits(width, number) {
            return Ok(None);
        }
        match put(width, number).as_slice() {
            [byte] => bytes.push(*byte)?,
            all => bytes.extend_from_slice(all)?,
        }
    }
    Ok(Some(bytes))
}

/// Returns numbers as elements of a list.
pub fn items_of(alloc: Global, numbers: &[u32]) -> Result<ListVec<Item>, AllocError>
    ensures { IfOk result (λ items. items ≡ map literal_item numbers.now) }
{
    let mut items = ListVec::new(alloc);
    for number in numbers {
        items.push(Item::Value(Expr::new(ExprKind::Number(*number))))?;
    }
    Ok(items)
}

/// Emits the stored value of a form into the section of a segment, if it has no error. Returns
/// whether it did.
pub fn emit_form(
    sections: &mut Sections,
    segment: u32,
    width: Width,
    at: LocationRef<'_>,
    form: Norm,
) -> Result<bool, AllocError>
    ensures { IfOk result (AppendsPart sections.old sections.new segment
        (value_part width (location_of_ref at.entry) form)) }
{
    match literal_of(&form) {
        Some(value) if fits(width, value) => {
            sections.append(segment, &put(width, value))?;
            Ok(true)
        }
        None if is_file_name(at.file) => {
            sections.value(segment, width, at, form)?;
            Ok(true)
        }
        _ => Ok(false),
    }
}

/// Emits the stored form of an operand, if it has no error. Returns whether it did.
fn emit_operand_form(
    alloc: Global,
    sections: &mut Sections,
    site: PieceContext<'_>,
    width: Width,
    form: Norm,
) -> Result<bool, AllocError>
    ensures { IfOk result (AppendsPart sections.old sections.new site.entry.context.segment
        (operand_part width site.entry.context
        (location_of_ref site.entry.at) form)) }
{
    match operand_form(alloc, width, site.context, form) {
        Ok(form) => emit_form(sections, site.context.segment, width, site.at, form),
        Err(fault) if fault.is_memory() => Err(AllocError),
        // A fault is reported after the last line.
        Err(_) => Ok(false),
    }
}

/// Returns `count` bytes of a file from the offset of the encoding; none if there is no file.
pub fn file_bytes(bytes: &Option<ListVec<u8>>, encoding: EncodingChoice, count: u32) -> &[u8]
    ensures { result.now ≡ file_bytes count bytes.now encoding }
{
    match (bytes, encoding) {
        (Some(bytes), EncodingChoice::FileOffset(start)) => {
            let bytes = bytes.as_slice();
            let (_, rest) = bytes.split_at(bytes.len().min(start as usize));
            let (part, _) = rest.split_at(rest.len().min(count as usize));
            part
        }
        _ => b"",
    }
}

/// Returns whether an object can hold the name of a file.
pub fn is_file_name(name: &str) -> bool
    ensures { result ≡ is_file_name name.now }
{
    name.len() <= FILE_NAME_LIMIT
}

/// Defers a piece of a statement.
#[inline(never)]
pub fn defer(
    assembler: &mut Assembler,
    site: PieceContext<'_>,
    piece: FixupKind,
) -> Result<(), AllocError>
    ensures deferred { OnOk result (DefersPiece
        (location_of_ref site.entry.at) site.entry.context
        (piece_of piece) assembler.old assembler.new) }
    ensures tables { ChangesOnlySections assembler.old assembler.new }
{
    assembler.sections.defer(site.at, site.context, piece)
}

/// The use of a value: it is stored as an element of a list or as an operand, or it is asserted.
#[derive(Clone, Copy)]
pub enum ValueUse {
    Datum(Width),
    Operand(Width),
    Assertion,
}

/// Emits a value if its form is final and has no error. Returns whether it did. If it didn't, the caller defers the value, so
/// a fixup is built only if it is needed.
#[inline(always)]
pub fn emit_value(
    assembler: &mut Assembler,
    site: PieceContext<'_>,
    form: Option<Norm>,
    value_use: ValueUse,
) -> Result<bool, AllocError>
    ensures emitted { (e : Tree) (action : Action) (text : List ℕ) →
        HasFinal (table_of assembler.old.symbols) site.entry.context (Some e) form →
        IfOk result (EmitsIfResolved (location_of_ref site.entry.at) site.entry.context
        (expression_value (purpose_of value_use action text) e) assembler.old assembler.new) }
    ensures tables { ChangesOnlySections assembler.old assembler.new }
{
    let Some(form) = form else {
        return Ok(false);
    };
    let segment = site.context.segment;
    let alloc = assembler.symbols.alloc;
    let sections = &mut assembler.sections;
    match value_use {
        ValueUse::Datum(width) => emit_form(sections, segment, width, site.at, form),
        ValueUse::Operand(width) => emit_operand_form(alloc, sections, site, width, form),
        // An assertion that holds emits nothing.
        ValueUse::Assertion => match literal_of(&form) {
            Some(value) => Ok(value != 0),
            None => Ok(false),
        },
    }
}
