//! Resolves the entries after the last line to an object, or to the first error.

ghost use Rattle.std.specs.Prelude.{◌≡◌, ◌++◌, ◌∷◌, [], List, ℕ, IfOk, IfErr, None, Ok, OnOk, Some, length, map, nat_lt, string_bytes, true, false};
ghost use Rattle.object65.specs.Objects.{is_well_formed_object, ObjectFits};
ghost use Rattle.semantics65.specs.Contents.{Content};
ghost use Rattle.ast65.specs.Faults.{is_system_error};
ghost use Rattle.semantics65.specs.Numbering.{all_declarations, AreWellFormedContents};
ghost use Rattle.sources65.specs.Machine.{State, outcome_of_state, resolution_of_state};
ghost use Rattle.semantics65.specs.Module.{Outcome, Slot, deferred};
ghost use Rattle.emit65.specs.SectionContents.{RepresentsSlots, contents_so_far, fixup_of, names_of, slot_of};
ghost use Rattle.symbols65.specs.Views.{table_of};
ghost use Rattle.asm65.specs.Assembly.{RefinesOutcome, is_store_failure, located_result, is_system_error_result};
ghost use Rattle.asm65.specs.Internal.AssemblerState.{Represents};
ghost use Rattle.asm65.specs.Internal.RunState.{AreInitialEntries, RefinesObject, fixup_files, IsResolveState, result_with, result_of_piece, CanReplace, HasSameOutput, ResolvesSlot, ResolvesSlots, PieceHasLocation, HasLocation};
ghost use Rattle.semantics65.specs.Views.{location_of_ref};

use crate::assembler::Assembler;
use crate::assembling::Assembly;
use crate::resolving::{ExportedNames, FixupLocation, ResolvedPiece, resolve};
use crate::texts::{ConsoleOutput, Diagnostic, warn};
use ast65::AsmFault;
use base65::ListVec;
use emit65::{Fixup, SectionEntry, Sections};
use indexmap::IndexSet;
use object65::Object;
use semantics65::{LocationRef, Segment};
use std::alloc::{AllocError, Global};
use std::mem;
use symbols65::{FormCache, Symbols, empty_cache};

/// The results of resolving fixups so far.
#[derive(Drop)]
pub struct ResolveState {
    /// The forms of constants.
    pub known: FormCache,
    pub exported: ExportedNames,
    /// The text for standard error.
    pub err: ListVec<u8>,
}

/// The facts that are known after the last line.
#[derive(Clone, Copy)]
pub struct FinalTables<'a> {
    /// The symbol table of all statements.
    pub symbols: &'a Symbols,
    /// The names of the files that entries refer to.
    pub files: &'a [String],
}

/// Returns the entry of a resolved fixup, and prints its warning. A fixup that emits and declares
/// nothing becomes a reserve of no bytes.
fn apply_resolved(
    err: &mut ListVec<u8>,
    fixup_location: FixupLocation<'_>,
    made: ResolvedPiece,
) -> Result<SectionEntry, AllocError>
    requires { PieceHasLocation fixup_location.pos made }
    ensures entry { IfOk result (CanReplace (fixup_files fixup_location.entry)
        (result_of_piece fixup_location.entry made).content) }
    ensures located { IfOk result (HasLocation fixup_location.entry.pos) }
    ensures err { OnOk result (err.new ≡
        err.old ++ (result_of_piece fixup_location.entry made).warning) }
{
    let ResolvedPiece { entry, warning } = made;
    if let Some(text) = warning {
        warn(
            err,
            fixup_location.file(),
            fixup_location.pos.line,
            text.as_slice(),
        )?;
    }
    match entry {
        Some(entry) => Ok(entry),
        None => Ok(SectionEntry::Reserve {
            segment: 0,
            count: 0,
        }),
    }
}

/// Resolves a fixup to its content, or to its error.
fn resolve_fixup(
    tables: FinalTables<'_>,
    resolve_state: &mut ResolveState,
    fixup: Fixup,
) -> Result<SectionEntry, Diagnostic>
    requires { IsResolveState (table_of tables.symbols.now) resolve_state.old }
    ensures resolved { let files = map string_bytes tables.entry.files.now in
        nat_lt fixup.pos.file (length files) ≡ true →
        ResolvesSlot (table_of tables.entry.symbols.now) files (deferred (fixup_of files fixup))
        resolve_state.old resolve_state.new result }
    ensures found { OnOk result
        (IsResolveState (table_of tables.entry.symbols.now) resolve_state.new) }
    ensures no_failure { IfErr result (λ e. is_store_failure e ≡ false) }
{
    let fixup_location = FixupLocation {
        files: tables.files,
        pos: fixup.pos,
    };
    match resolve(
        tables.symbols,
        &mut resolve_state.known,
        &mut resolve_state.exported,
        fixup_location,
        fixup,
    ) {
        Ok(made) => Ok(apply_resolved(&mut resolve_state.err, fixup_location, made)?),
        Err(fault) => {
            let at = LocationRef {
                file: fixup_location.file(),
                line: fixup_location.pos.line,
            };
            Err(Diagnostic::of_fault(tables.symbols.alloc, at, fault))
        }
    }
}

/// Resolves an entry in place if it is pending, or returns its error.
fn resolve_entry(
    tables: FinalTables<'_>,
    resolve_state: &mut ResolveState,
    entry: &mut SectionEntry,
) -> Result<(), Diagnostic>
    requires { IsResolveState (table_of tables.symbols.now) resolve_state.old }
    ensures resolved { let files = map string_bytes tables.entry.files.now in
        AreInitialEntries files (entry.old ∷ []) →
        ResolvesSlot (table_of tables.entry.symbols.now) files (slot_of files entry.old)
        resolve_state.old resolve_state.new (result_with entry.new result) }
    ensures found { OnOk result
        (IsResolveState (table_of tables.entry.symbols.now) resolve_state.new) }
    ensures no_failure { IfErr result (λ e. is_store_failure e ≡ false) }
{
    let SectionEntry::FixupEntry(_) = entry else {
        return Ok(());
    };
    let nothing = SectionEntry::Reserve {
        segment: 0,
        count: 0,
    };
    let SectionEntry::FixupEntry(fixup) = mem::replace(entry, nothing) else {
        return Ok(());
    };
    *entry = resolve_fixup(tables, resolve_state, Box::into_inner(fixup))?;
    Ok(())
}

/// Resolves all entries, in source order, up to the first error.
fn resolve_entries(
    tables: FinalTables<'_>,
    resolve_state: &mut ResolveState,
    entries: &mut Vec<SectionEntry>,
) -> Result<(), Diagnostic>
    requires { IsResolveState (table_of tables.symbols.now) resolve_state.old }
    ensures resolved { let files = map string_bytes tables.entry.files.now in
        AreInitialEntries files entries.old.items →
        ResolvesSlots (table_of tables.entry.symbols.now) files
        (map (slot_of files) entries.old.items)
        resolve_state.old resolve_state.new (result_with entries.new.items result) }
    ensures no_failure { IfErr result (λ e. is_store_failure e ≡ false) }
{
    for entry in entries.iter_mut() {
        resolve_entry(tables, resolve_state, entry)?;
    }
    Ok(())
}

/// Builds the object from the sections after the last statement, or returns the first error of a
/// fixup.
fn object_of(
    symbols: &Symbols,
    segments: &[Segment],
    resolve_state: &mut ResolveState,
    sections: Sections,
) -> Result<Object, Diagnostic>
    requires found { IsResolveState (table_of symbols.now) resolve_state.old }
    requires none { names_of resolve_state.old.exported ≡ [] }
    ensures found { (xs : List Slot) → RepresentsSlots xs sections →
        all_declarations (contents_so_far xs) ≡ [] →
        RefinesObject (table_of symbols.now) segments.now xs resolve_state.old.err
        resolve_state.new.err result }
    ensures numbers { IfOk result ObjectFits }
    ensures no_failure { IfErr result (λ e. is_store_failure e ≡ false) }
{
    let mut closed = sections.close()?;
    let tables = FinalTables {
        symbols,
        files: closed.files.table.as_slice(),
    };
    resolve_entries(tables, resolve_state, &mut closed.entries)?;
    Ok(closed.finish(symbols.alloc, segments, &symbols.imports)?)
}

/// Returns whether memory ran out, or the store failed.
fn is_system_error_result(answer: &Result<Object, Diagnostic>) -> bool
    ensures { result ≡ is_system_error_result answer.now }
{
    match answer {
        Ok(_) => false,
        Err(refusal) => refusal.is_system_error(),
    }
}

/// Returns an object or error with the printed texts; without texts if memory ran out or the store
/// failed.
fn assembly_of(alloc: Global, answer: Result<Object, Diagnostic>, texts: ConsoleOutput) -> Assembly
    ensures answer { result.result ≡ answer }
    ensures concluded { (o : Outcome) → (is_system_error_result answer ≡ false →
        record { result = located_result answer; out = texts.out; err = texts.err } ≡ o) →
        RefinesOutcome o result }
    ensures silent { is_system_error_result result.result ≡ true → (result.out ≡ []) ×
        (result.err ≡ []) }
{
    if is_system_error_result(&answer) {
        return Assembly {
            result: answer,
            out: ListVec::new(alloc),
            err: ListVec::new(alloc),
        };
    }
    Assembly {
        result: answer,
        out: texts.out,
        err: texts.err,
    }
}

/// Returns the result after the last line: the object, or the first error of a fixup.
pub fn finish_assembly(assembler: Assembler) -> Assembly
    ensures concluded { (count : ℕ) (t : State) → Represents count t assembler →
        RefinesOutcome (outcome_of_state t None) result }
    ensures good { IfOk result.result (λ o. (count : ℕ) (t : State) → Represents count t assembler →
        ((cs : List Content) → (resolution_of_state t).found ≡ Ok cs →
        AreWellFormedContents t.cursor.segments t.symbols.imports cs) →
        is_well_formed_object o ≡ true) }
    ensures numbers { IfOk result.result ObjectFits }
    ensures no_failure { IfErr result.result (λ e. is_store_failure e ≡ false) }
    ensures silent { is_system_error_result result.result ≡ true →
        (result.out ≡ []) × (result.err ≡ []) }
{
    let alloc = assembler.symbols.alloc;
    let Assembler {
        symbols,
        cursor,
        sections,
        texts,
    } = assembler;
    let ConsoleOutput { out, err } = texts;
    let mut resolve_state = ResolveState {
        known: empty_cache(&symbols),
        exported: IndexSet::with_hasher(alloc, *symbols.imports.hasher()),
        err,
    };
    let found = object_of(&symbols, cursor.segments(), &mut resolve_state, sections);
    let ResolveState { err, .. } = resolve_state;
    assembly_of(alloc, found, ConsoleOutput { out, err })
}

/// Returns the result of an assembly that ends with an error at a line.
pub fn fail_at_line(assembler: Assembler, at: LocationRef<'_>, fault: AsmFault) -> Assembly
    ensures refused { is_system_error fault ≡ false → (t : State) → HasSameOutput t assembler →
        RefinesOutcome (outcome_of_state t (Some (record {
          place = location_of_ref at.entry;
          fault = fault;
        }))) result }
    ensures none { IfOk result.result (λ o. ⊥) }
    ensures no_failure { is_system_error fault ≡ false →
        IfErr result.result (λ e. is_store_failure e ≡ false) }
    ensures silent { is_system_error_result result.result ≡ true →
        (result.out ≡ []) × (result.err ≡ []) }
{
    let alloc = assembler.symbols.alloc;
    assembly_of(
        alloc,
        Err(Diagnostic::of_fault(alloc, at, fault)),
        assembler.texts,
    )
}
