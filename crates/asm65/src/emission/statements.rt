//! Emits the contents of statements that define no name.

ghost use Rattle.std.specs.Prelude.{◌≡◌, ◌∷◌, [], OnOk, Some, map};
ghost use Rattle.semantics65.specs.Contents.{operand_tree, file_bytes, opcode_part, reserve_part, Known};
ghost use Rattle.semantics65.specs.Norms.{width_of};
ghost use Rattle.symbols65.specs.Views.{table_of};
ghost use Rattle.symbols65.specs.Evaluations.{HasFinal, HaveFinals};
ghost use Rattle.std.specs.Vec.Iter.{into_iter_items};
ghost use Rattle.asm65.specs.Internal.AssemblerState.{EmitsPieces, IsNextForm, ChangesOnlySections};
ghost use Rattle.syntax65.specs.declared.source_location.SourceLocation.{SourceLocation};
ghost use Rattle.semantics65.specs.Views.{location_of_ref};
ghost use Rattle.semantics65.specs.Module.{datum, known_part, item_piece, operand_pieces, expression_value};
ghost use Rattle.ast65.specs.Items.{literal_item};

use super::PieceContext;
use super::values::{ValueUse, bytes_of, defer, emit_value, file_bytes, items_of};
use crate::assembler::Assembler;
use ast65::{Item, Items, ItemsKind, Operand};
use base65::ListVec;
use emit65::FixupKind;
use object65::{Norm, Width};
use semantics65::{Context, EncodingChoice};
use std::alloc::AllocError;
use std::vec::IntoIter;
use syntax65::{Expr, Mode};

/// Returns the width of the operand in an addressing mode; none if the mode has no operand.
pub fn width_of(mode: Mode) -> Option<Width>
    ensures { result ≡ width_of mode }
{
    match mode {
        Mode::Implied | Mode::Accumulator => None,
        Mode::Absolute | Mode::AbsoluteX | Mode::AbsoluteY | Mode::Indirect => Some(Width::Word),
        Mode::Relative => Some(Width::Branch),
        _ => Some(Width::Byte),
    }
}

/// Returns the expression of an operand, if it has one.
fn operand_value(operand: Operand) -> Option<Expr>
    ensures { result ≡ operand_tree operand }
{
    match operand {
        Operand::Absent | Operand::Accumulator => None,
        Operand::Immediate(value)
        | Operand::Address { value, .. }
        | Operand::Indirect(value)
        | Operand::IndirectX(value)
        | Operand::IndirectY(value) => Some(value),
    }
}

/// Emits the opcode of an instruction.
#[inline(always)]
pub fn emit_opcode(
    assembler: &mut Assembler,
    context: Context,
    code: Option<u8>,
) -> Result<(), AllocError>
    ensures entered { OnOk result ((location : SourceLocation) → EmitsPieces location context
        (known_part (opcode_part code) ∷ []) assembler.old assembler.new) }
    ensures tables { ChangesOnlySections assembler.old assembler.new }
{
    match code {
        Some(code) => assembler.sections.append(context.segment, &[code]),
        None => assembler.sections.append(context.segment, &[]),
    }
}

/// Emits the value of an operand at once if its form is final and has no error, else defers it.
#[inline(always)]
pub fn emit_operand(
    assembler: &mut Assembler,
    site: PieceContext<'_>,
    width: Option<Width>,
    operand: Operand,
    form: Option<Norm>,
) -> Result<(), AllocError>
    requires { HasFinal (table_of assembler.old.symbols) site.context (operand_tree operand) form }
    ensures { OnOk result (EmitsPieces
        (location_of_ref site.entry.at) site.entry.context
        (operand_pieces width (operand_tree operand)) assembler.old assembler.new) }
{
    match (width, operand_value(operand)) {
        (Some(width), Some(value)) => {
            if emit_value(assembler, site, form, ValueUse::Operand(width))? {
                return Ok(());
            }
            defer(assembler, site, FixupKind::Operand { width, value })
        }
        _ => Ok(()),
    }
}

/// Returns the form of the next element of a list, if it has a final one.
fn next_form(forms: &mut IntoIter<Option<Norm>>) -> Option<Norm>
    ensures { IsNextForm (into_iter_items forms.old) result (into_iter_items forms.new) }
{
    forms.next()?
}

/// Emits an element of a list at once if its form is final and has no error, else defers it.
#[inline(always)]
fn emit_element(
    assembler: &mut Assembler,
    site: PieceContext<'_>,
    width: Width,
    value: Expr,
    form: Option<Norm>,
) -> Result<(), AllocError>
    requires { HasFinal (table_of assembler.old.symbols) site.context (Some value) form }
    ensures entered { OnOk result (EmitsPieces
        (location_of_ref site.entry.at) site.entry.context
        (expression_value (datum width) value ∷ []) assembler.old assembler.new) }
    ensures tables { ChangesOnlySections assembler.old assembler.new }
{
    if emit_value(assembler, site, form, ValueUse::Datum(width))? {
        return Ok(());
    }
    defer(assembler, site, FixupKind::Datum { width, value })
}

/// Emits a list of expressions and strings.
fn emit_mixed(
    assembler: &mut Assembler,
    site: PieceContext<'_>,
    width: Width,
    items: ListVec<Item>,
    forms: Vec<Option<Norm>>,
) -> Result<(), AllocError>
    requires { HaveFinals (table_of assembler.old.symbols) site.context items forms.items }
    ensures { OnOk result (EmitsPieces
        (location_of_ref site.entry.at) site.entry.context
        (map (item_piece width) items) assembler.old assembler.new) }
{
    let mut forms = forms.into_iter();
    for item in items.into_vec() {
        let form = next_form(&mut forms);
        match item {
            Item::Value(value) => emit_element(assembler, site, width, value, form)?,
            Item::StringLiteral(bytes) => {
                assembler
                    .sections
                    .append(site.context.segment, bytes.as_slice())?
            }
        }
    }
    Ok(())
}

/// Emits a list of numbers: their bytes together if each number is in range, else one by one.
fn emit_numbers(
    assembler: &mut Assembler,
    site: PieceContext<'_>,
    width: Width,
    numbers: &[u32],
) -> Result<(), AllocError>
    ensures { OnOk result (EmitsPieces
        (location_of_ref site.entry.at) site.entry.context
        (map (item_piece width) (map literal_item numbers.now)) assembler.old assembler.new) }
{
    let alloc = assembler.symbols.alloc;
    match bytes_of(alloc, width, numbers)? {
        Some(bytes) => assembler
            .sections
            .append(site.context.segment, bytes.as_slice()),
        None => {
            let items = items_of(alloc, numbers)?;
            emit_mixed(assembler, site, width, items, Vec::new(alloc))
        }
    }
}

/// Emits a list.
#[inline(never)]
pub fn emit_values(
    assembler: &mut Assembler,
    site: PieceContext<'_>,
    width: Width,
    items: Items,
    forms: Vec<Option<Norm>>,
) -> Result<(), AllocError>
    requires { HaveFinals (table_of assembler.old.symbols) site.context items forms.items }
    ensures { OnOk result (EmitsPieces
        (location_of_ref site.entry.at) site.entry.context
        (map (item_piece width) items) assembler.old assembler.new) }
{
    match items.into_kind() {
        ItemsKind::Numbers(numbers) => { emit_numbers(assembler, site, width, numbers.as_slice()) }
        ItemsKind::Mixed(items) => emit_mixed(assembler, site, width, items, forms),
    }
}

/// Emits `count` bytes with the fill byte of the statement or, if it has none, the linker's.
#[inline(never)]
pub fn emit_reserve(
    assembler: &mut Assembler,
    context: Context,
    count: u32,
    encoding: EncodingChoice,
) -> Result<(), AllocError>
    ensures { OnOk result ((location : SourceLocation) → EmitsPieces location context
        (known_part (reserve_part count encoding) ∷ []) assembler.old assembler.new) }
{
    match encoding {
        EncodingChoice::FillByte(byte) => assembler.sections.fill(context.segment, count, byte),
        _ => assembler.sections.reserve_bytes(context.segment, count),
    }
}

/// Emits `count` bytes of a file, from the offset in the statement's encoding.
#[inline(never)]
pub fn emit_incbin(
    assembler: &mut Assembler,
    context: Context,
    count: u32,
    encoding: EncodingChoice,
    bytes: Option<ListVec<u8>>,
) -> Result<(), AllocError>
    ensures { OnOk result ((location : SourceLocation) → EmitsPieces location context
        (known_part (Known (file_bytes count bytes encoding)) ∷ []) assembler.old assembler.new) }
{
    let part = file_bytes(&bytes, encoding, count);
    assembler.sections.append(context.segment, part)
}
