//! The layout of instructions, lists of values and parts of files.

ghost use Rattle.std.specs.Prelude.{◌≡◌, ◌≤◌, IfOk, not, Option, Some, ◌+◌, ◌<◌, MatchOption, sum_by};
ghost use Rattle.base65.specs.Outcome.{Refines};
ghost use Rattle.ast65.specs.declared.fault.AsmFault.TheVariants.{BadPart};
ghost use Rattle.ast65.specs.Faults.{is_out_of_memory};
ghost use Rattle.ast65.specs.declared.language.Statement.TheVariants.{Incbin, Instruction, Values};
ghost use Rattle.semantics65.specs.Contents.{operand_tree};
ghost use Rattle.semantics65.specs.Layout.{context_of, own_size, fault_if, unless_fault};
ghost use Rattle.semantics65.specs.Norms.{nat_or_zero, optional_value, item_len, mode_len};
ghost use Rattle.symbols65.specs.Evaluations.{AreEvaluations, IsEvaluated};
ghost use Rattle.symbols65.specs.Views.{table_of};
ghost use Rattle.symbols65.specs.Measuring.{IsOptionalValue, is_in_range, layout_or_error, range_in_file, unread_fault};
ghost use Rattle.object65.specs.Objects.{width_len};
ghost use Rattle.semantics65.specs.Symbols.{Symbols as Table};
ghost use Rattle.semantics65.specs.declared.contexts.Context.{Context};
ghost use Rattle.syntax65.specs.Trees.{Tree};
ghost use Rattle.syntax65.specs.declared.lexing.tokens.AddressSize.{AddressSize};

use super::trees::{Evaluations, evaluate_two};
use crate::constants::{Evaluation, constant_value, mode};
use crate::cursor::Cursor;
use crate::measuring::{LineState, StatementLayout, fit, layout_without_bytes};
use ast65::{AsmFault, IncbinRange, Item, Items, ItemsKind, Operand};
use base65::ListVec;
use object65::Width;
use semantics65::EncodingChoice;
use syntax65::{MAX_FILE, Mnemonic, Mode};

/// Returns the value of an optional expression, which must be constant.
fn optional_constant(found: &Option<Evaluation>) -> Result<Option<i64>, AsmFault>
    ensures { (y : Table) (s : Context) (own : AddressSize) (e : Option Tree) →
        IsEvaluated y s own e found.now → IsOptionalValue (optional_value y s e) result }
{
    if found.is_none() {
        return Ok(None);
    }
    match constant_value(found) {
        Some(value) => Ok(Some(value)),
        None => Err(AsmFault::BadOperand),
    }
}

/// Checks a part of a file as far as possible without the file, which is read only if there is no
/// error.
#[inline(never)]
pub fn check_unread(before: LineState<'_>, range: IncbinRange<'_>) -> Result<(), AsmFault>
    ensures { Refines is_out_of_memory (λ u. u) result (unless_fault (unread_fault
        (table_of before.entry.symbols.now) before.entry.cursor.now
        range.entry.start.now range.entry.len.now) tt) }
{
    let found = evaluate_two(before, range.start.get(), range.len.get())?;
    optional_constant(&found.first)?;
    optional_constant(&found.second)?;
    Ok(())
}

/// Returns a value as a number of bytes, or an error if it is negative or above `count`.
fn checked_count(count: usize, value: i64) -> Result<usize, AsmFault>
    ensures count { Refines is_out_of_memory (λ n. n) result
        (unless_fault (fault_if (not (is_in_range count value)) BadPart)
        (nat_or_zero (Some value))) }
    ensures within { IfOk result (λ n. n ≤ count) }
{
    if 0 <= value && value as u64 <= count as u64 {
        Ok(value as usize)
    } else {
        Err(AsmFault::BadPart)
    }
}

/// Returns the start and the length of a part of a file of `count` bytes, or an error if the file
/// is too large or doesn't contain the part.
fn file_range(
    count: usize,
    start: Option<i64>,
    len: Option<i64>,
) -> Result<(usize, usize), AsmFault>
    ensures part { Refines is_out_of_memory (λ p. p) result (range_in_file count start len) }
    ensures few { IfOk result (λ p. p.0 ≤ 16777216) }
{
    if count > MAX_FILE as usize {
        return Err(AsmFault::BadPart);
    }
    let start = checked_count(count, start.unwrap_or(0))?;
    let left = count - start;
    let len = checked_count(left, len.unwrap_or(left as i64))?;
    Ok((start, len))
}

/// Lays out a part of a file, from the evaluations of its start and its length.
#[inline(never)]
pub fn file_part(
    cursor: &Cursor,
    bytes: &Option<ListVec<u8>>,
    found: &Evaluations,
) -> Result<StatementLayout, AsmFault>
    ensures { (y : Table) (start len : Option Tree) →
        AreEvaluations y (context_of cursor.now) (own_size cursor.now)
        (Incbin bytes.now start len) found.now →
        Refines is_out_of_memory (λ m. m) result
        (layout_or_error y cursor.now (Incbin bytes.now start len)) }
{
    let start = optional_constant(&found.first)?;
    let len = optional_constant(&found.second)?;
    let Some(bytes) = bytes else {
        return Err(AsmFault::FileNotFound);
    };
    let (start, len) = file_range(bytes.len(), start, len)?;
    let length = fit(cursor, len)?;
    Ok(StatementLayout {
        length,
        encoding: EncodingChoice::FileOffset(start as u32),
        ..layout_without_bytes(cursor)
    })
}

/// Returns the number of bytes of an instruction with this addressing mode.
fn mode_len(mode: Mode) -> usize
    ensures { result ≡ mode_len (Some mode) }
{
    match mode {
        Mode::Implied | Mode::Accumulator => 1,
        Mode::Absolute | Mode::AbsoluteX | Mode::AbsoluteY | Mode::Indirect => 3,
        _ => 2,
    }
}

/// Lays out an instruction, from the evaluation of its operand.
pub fn instruction(
    cursor: &Cursor,
    mnemonic: Mnemonic,
    operand: &Operand,
    found: &Option<Evaluation>,
) -> Result<StatementLayout, AsmFault>
    ensures { (y : Table) → IsEvaluated y (context_of cursor.now) (own_size cursor.now)
        (operand_tree operand.now) found.now →
        Refines is_out_of_memory (λ m. m) result
        (layout_or_error y cursor.now (Instruction mnemonic operand.now)) }
{
    let Some(mode) = mode(mnemonic, operand, found) else {
        return Err(AsmFault::NoSuchForm);
    };
    let length = fit(cursor, mode_len(mode))?;
    Ok(StatementLayout {
        length,
        size: cursor.segment().size,
        alignment: 1,
        encoding: EncodingChoice::InMode(mode),
    })
}

/// Returns the number of bytes of a value.
fn width_len(width: Width) -> usize
    ensures { result ≡ width_len width }
{
    match width {
        Width::Byte | Width::Branch => 1,
        Width::Word | Width::BigEndianWord => 2,
        Width::Dword => 4,
    }
}

/// Returns the bytes left after a list of any elements, if there are enough.
fn remaining_after_mixed(width: Width, items: &[Item], remaining: usize) -> Option<usize>
    ensures { MatchOption result (remaining < sum_by (item_len width) items.now)
        (λ left. left + sum_by (item_len width) items.now ≡ remaining) }
{
    let mut left = remaining;
    for item in items {
        let length = match item {
            Item::Value(_) => width_len(width),
            Item::StringLiteral(bytes) => bytes.len(),
        };
        left = left.checked_sub(length)?;
    }
    Some(left)
}

/// Returns the bytes left after a list, if there are enough.
fn remaining_after(width: Width, items: &Items, remaining: usize) -> Option<usize>
    ensures { MatchOption result (remaining < sum_by (item_len width) items.now)
        (λ left. left + sum_by (item_len width) items.now ≡ remaining) }
{
    match items.kind() {
        ItemsKind::Numbers(numbers) => {
            let length = numbers.as_slice().len().checked_mul(width_len(width))?;
            remaining.checked_sub(length)
        }
        ItemsKind::Mixed(items) => remaining_after_mixed(width, items.as_slice(), remaining),
    }
}

/// Lays out a list of values. Returns an error if the current section has fewer remaining bytes.
#[inline(never)]
#[tactic(auto, using(crate::proofs::StatementLayouts::same_test))]
pub fn values(cursor: &Cursor, width: Width, items: &Items) -> Result<StatementLayout, AsmFault>
    ensures { (y : Table) → Refines is_out_of_memory (λ m. m) result (layout_or_error y
        cursor.now (Values width items.now)) }
{
    let remaining = cursor.remaining_bytes();
    let Some(left) = remaining_after(width, items, remaining as usize) else {
        return Err(AsmFault::SectionTooLarge);
    };
    Ok(StatementLayout {
        length: remaining - left as u32,
        ..layout_without_bytes(cursor)
    })
}
