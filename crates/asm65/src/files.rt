//! The bytes that statements take from files.

ghost use Rattle.std.specs.Prelude.{◌≡◌, ℕ, IfErr, IfOk, IfSome, OnOk, false, length, take, true};
ghost use Rattle.std.specs.FinMap as map;
ghost use Rattle.std.specs.Option.{option_map};
ghost use Rattle.base65.specs.Store.{FailedOn, FailedWithin, bytes_in};
ghost use Rattle.expand65.specs.Expansion.{sibling_path, file_named};
ghost use Rattle.ast65.specs.declared.fault.AsmFault.TheVariants.{FileError};
ghost use Rattle.ast65.specs.Faults.{is_failure, is_system_error, is_out_of_memory};
ghost use Rattle.semantics65.specs.Views.{location_of_ref};
ghost use Rattle.sources65.specs.Machine.{State};
ghost use Rattle.asm65.specs.Internal.RunState.{IsRejectedUnread, AsmStoreFrame, read_bytes};
ghost use Rattle.asm65.specs.Internal.AssemblerState.{Represents};
ghost use Rattle.base65.specs.Outcome.{Refines};
ghost use Rattle.semantics65.specs.Layout.{unless_fault};
ghost use Rattle.symbols65.specs.Measuring.{unread_fault};

use crate::assembler::Assembler;
use ast65::{AsmFault, IncbinRange, Statement};
use base65::{ListVec, Store, StoreFault, read_prefix};
use expand65::sibling_path;
use semantics65::LocationRef;
use std::alloc::Global;
use std::mem::replace;
use symbols65::{LineState, check_unread};
use syntax65::MAX_FILE;

/// Reads a file in the folder of another one, if it exists. Of a file over the size limit, one byte
/// more than the limit is read.
#[inline(never)]
fn bytes_beside<S: Store>(
    alloc: Global,
    store: &mut S,
    file: &str,
    name: &[u8],
) -> Result<Option<ListVec<u8>>, AsmFault>
    ensures read { IfSome (S.files store.old) (λ m. IfOk result (λ bytes.
        bytes ≡ option_map (take 16777217) (file_named m (sibling_path file.now name.now)))) }
    ensures outside { IfErr result (λ e. is_system_error e ≡ true) }
    ensures failed { IfErr result (λ e. is_failure e ≡ true → e ≡ FileError) }
    ensures last_failure { IfErr result (λ e. is_failure e ≡ true →
        FailedOn (S.last_failure store.new) (sibling_path file.now name.now)) }
    ensures within { IfErr result (λ e. is_failure e ≡ true → IfSome (S.files store.old)
        (λ m. let path = sibling_path file.now name.now in
        FailedWithin (S.last_failure store.new) path 0 (length (bytes_in (map.get m path))))) }
    ensures frame { AsmStoreFrame S.files S.failures store.old store.new result }
{
    let Some(name) = sibling_path(alloc, file, name)? else {
        return Ok(None);
    };
    match read_prefix(alloc, store, name.as_str(), MAX_FILE as usize + 1) {
        Ok(bytes) => Ok(Some(ListVec::from_vec(bytes))),
        Err(StoreFault::FileNotFound) => Ok(None),
        Err(fault) => Err(AsmFault::from(fault)),
    }
}

/// Checks the start and length of an `.incbin` as far as possible without its file.
#[inline(never)]
fn check_range(assembler: &Assembler, range: IncbinRange<'_>) -> Result<(), AsmFault>
    ensures checked { (count : ℕ) (t : State) → Represents count t assembler.now →
        Refines is_out_of_memory (λ u. u) result (unless_fault (unread_fault t.symbols t.cursor
        range.entry.start.now range.entry.len.now) tt) }
    ensures no_failure { IfErr result (λ e. is_failure e ≡ false) }
{
    let before = LineState {
        symbols: &assembler.symbols,
        cursor: &assembler.cursor,
    };
    check_unread(before, range)
}

/// Reads the bytes of an `.incbin` into its statement: of a file over the size limit, one byte more than the limit. The
/// file is read only if the statement has no error that is independent of the file.
#[inline(never)]
fn with_read_bytes<S: Store>(
    store: &mut S,
    assembler: &Assembler,
    at: LocationRef<'_>,
    statement: Statement,
) -> Result<Statement, AsmFault>
    ensures bytes { IfSome (S.files store.old) (λ m. IfOk result (λ x. x ≡ read_bytes m
        (location_of_ref at.entry) statement)) }
    ensures refused { (count : ℕ) (t : State) → Represents count t assembler.now → IfErr result
        (IsRejectedUnread (S.files store.old) (S.last_failure store.new) t
        (location_of_ref at.entry)
        statement) }
    ensures failed { IfErr result (λ e. is_failure e ≡ true → e ≡ FileError) }
    ensures frame { AsmStoreFrame S.files S.failures store.old store.new result }
{
    match statement {
        Statement::IncbinPath { name, start, len } => {
            let range = IncbinRange {
                start: &start,
                len: &len,
            };
            check_range(assembler, range)?;
            let bytes = bytes_beside(assembler.symbols.alloc, store, at.file, name.as_slice())?;
            Ok(Statement::Incbin { bytes, start, len })
        }
        other => Ok(other),
    }
}

/// Reads the bytes of a statement if it is an `.incbin`. Other statements aren't moved. After an error the statement is
/// unspecified.
#[inline(always)]
pub fn read_incbin<S: Store>(
    store: &mut S,
    assembler: &Assembler,
    at: LocationRef<'_>,
    statement: &mut Statement,
) -> Result<(), AsmFault>
    ensures bytes { IfSome (S.files store.old) (λ m. OnOk result (statement.new ≡
        read_bytes m (location_of_ref at.entry) statement.old)) }
    ensures refused { (count : ℕ) (t : State) → Represents count t assembler.now → IfErr result
        (IsRejectedUnread (S.files store.old) (S.last_failure store.new) t
        (location_of_ref at.entry)
        statement.old) }
    ensures failed { IfErr result (λ e. is_failure e ≡ true → e ≡ FileError) }
    ensures frame { AsmStoreFrame S.files S.failures store.old store.new result }
{
    let Statement::IncbinPath { .. } = statement else {
        return Ok(());
    };
    let named = replace(statement, Statement::Nothing);
    *statement = with_read_bytes(store, assembler, at, named)?;
    Ok(())
}
