//! Checks of segments and scopes, and the layout of `.res` and `.align`.

ghost use Rattle.std.specs.Prelude.{◌≡◌, not, slice_get, ◌<◌, ◌≤◌, IfOk, Option, Some};
ghost use Rattle.semantics65.specs.Layout.{segment_index, context_of as cursor_context, changed_size, is_opened_by_scope, scope_record, own_size, same_size, fault_if, unless_fault, is_count, alignment_value_fault};
ghost use Rattle.ast65.specs.declared.fault.AsmFault.TheVariants.{BadOperand};
ghost use Rattle.symbols65.specs.Views.{table_of};
ghost use Rattle.symbols65.specs.Evaluations.{AreEvaluations, IsEvaluated};
ghost use Rattle.symbols65.specs.Measuring.{RefinesFillByte, layout_or_error};
ghost use Rattle.base65.specs.Outcome.{Refines};
ghost use Rattle.ast65.specs.Faults.{is_out_of_memory};
ghost use Rattle.ast65.specs.declared.language.Statement.TheVariants.{Align, Reserve};
ghost use Rattle.semantics65.specs.Norms.{nat_or_zero, gap};
ghost use Rattle.semantics65.specs.Symbols.{Symbols as Table};
ghost use Rattle.semantics65.specs.declared.contexts.Context.{Context};
ghost use Rattle.syntax65.specs.Trees.{Tree};
ghost use Rattle.syntax65.specs.declared.lexing.tokens.AddressSize.{AddressSize};

use super::trees::Evaluations;
use crate::constants::{Evaluation, constant_value};
use crate::cursor::Cursor;
use crate::measuring::{StatementLayout, fit, layout_without_bytes};
use crate::table::Symbols;
use ast65::AsmFault;
use semantics65::EncodingChoice;
use syntax65::AddressSize;

/// Returns whether the scope at an index was opened by `.scope`.
fn is_scope_at(symbols: &Symbols, index: usize) -> bool
    ensures { result ≡ is_opened_by_scope (slice_get (table_of symbols.now).scopes index) }
{
    match symbols.scopes.get_index(index) {
        Some((_, is_proc)) => !*is_proc,
        None => false,
    }
}

/// Returns whether a scope was opened by `.scope`.
pub fn is_scope(symbols: &Symbols, scope: usize) -> bool
    ensures { result ≡ is_opened_by_scope (scope_record (table_of symbols.now).scopes scope) }
{
    match scope.checked_sub(1) {
        None => false,
        Some(index) => is_scope_at(symbols, index),
    }
}

fn same_size(one: AddressSize, other: AddressSize) -> bool
    ensures { result ≡ same_size one other }
{
    match (one, other) {
        (AddressSize::ZeroPage, AddressSize::ZeroPage) => true,
        (AddressSize::Absolute, AddressSize::Absolute) => true,
        _ => false,
    }
}

/// Rejects an address size that differs from that of an existing segment.
pub fn check_segment(
    cursor: &Cursor,
    name: &[u8],
    size: Option<AddressSize>,
) -> Result<(), AsmFault>
    ensures { result ≡ unless_fault (changed_size cursor.now.segments size
        (segment_index cursor.now.segments name.now)) tt }
{
    let Some(size) = size else {
        return Ok(());
    };
    let Some(index) = cursor.segment_index(name) else {
        return Ok(());
    };
    let own = match cursor.segments().get(index) {
        Some(segment) => segment.size,
        None => AddressSize::Absolute,
    };
    if same_size(size, own) {
        Ok(())
    } else {
        Err(AsmFault::SizeChanged)
    }
}

/// Returns the fill byte, if one is given, or an error if its value isn't a
/// constant byte.
fn fill_byte(found: &Option<Evaluation>) -> Result<EncodingChoice, AsmFault>
    ensures { (y : Table) (s : Context) (own : AddressSize) (e : Option Tree) →
        IsEvaluated y s own e found.now → RefinesFillByte y s e result }
{
    if found.is_none() {
        return Ok(EncodingChoice::Undecided);
    }
    match constant_value(found) {
        Some(value) if 0 <= value && value < 256 => Ok(EncodingChoice::FillByte(value as u8)),
        _ => Err(AsmFault::BadOperand),
    }
}

/// Returns a constant as a number of bytes, or an error if there is none or it is
/// negative.
fn count_of(value: Option<i64>) -> Result<usize, AsmFault>
    ensures { Refines is_out_of_memory (λ n. n) result (unless_fault
        (fault_if (not (is_count value)) BadOperand) (nat_or_zero value)) }
{
    match value {
        Some(value) if 0 <= value => Ok(value as usize),
        _ => Err(AsmFault::BadOperand),
    }
}

/// Lays out `.res`, from the evaluations of its byte count and its fill value.
#[inline(never)]
pub fn reserve(cursor: &Cursor, found: &Evaluations) -> Result<StatementLayout, AsmFault>
    ensures { (y : Table) (n : Tree) (v : Option Tree) →
        AreEvaluations y (cursor_context cursor.now) (own_size cursor.now) (Reserve n v) found.now →
        Refines is_out_of_memory (λ m. m) result (layout_or_error y cursor.now (Reserve n v)) }
{
    let count = count_of(constant_value(&found.first))?;
    let encoding = fill_byte(&found.second)?;
    let length = fit(cursor, count)?;
    Ok(StatementLayout {
        length,
        encoding,
        ..layout_without_bytes(cursor)
    })
}

/// Returns a constant as an alignment, or an error unless it is a power of two up
/// to 32768.
fn checked_alignment(value: Option<i64>) -> Result<u32, AsmFault>
    ensures alignment { Refines is_out_of_memory (λ n. n) result (unless_fault
        (alignment_value_fault value) (nat_or_zero value)) }
    ensures bounds { IfOk result (λ n. n ≤ 32768) }
    ensures positive { IfOk result (λ n. 0 < n) }
{
    match value {
        Some(
            value @ (1
            | 2
            | 4
            | 8
            | 16
            | 32
            | 64
            | 128
            | 256
            | 512
            | 1024
            | 2048
            | 4096
            | 8192
            | 16384
            | 32768),
        ) => Ok(value as u32),
        _ => Err(AsmFault::BadAlignment),
    }
}

/// Lays out `.align`, from the evaluations of its alignment and its fill value.
#[inline(never)]
pub fn align(cursor: &Cursor, found: &Evaluations) -> Result<StatementLayout, AsmFault>
    ensures { (y : Table) (n : Tree) (v : Option Tree) →
        AreEvaluations y (cursor_context cursor.now) (own_size cursor.now) (Align n v) found.now →
        Refines is_out_of_memory (λ m. m) result (layout_or_error y cursor.now (Align n v)) }
{
    let alignment = constant_value(&found.first);
    if alignment.is_none() {
        return Err(AsmFault::BadOperand);
    }
    let encoding = fill_byte(&found.second)?;
    let alignment = checked_alignment(alignment)?;
    let offset = cursor.segment().end;
    let gap = offset.next_multiple_of(alignment) - offset;
    let length = fit(cursor, gap as usize)?;
    Ok(StatementLayout {
        length,
        alignment,
        encoding,
        ..layout_without_bytes(cursor)
    })
}
