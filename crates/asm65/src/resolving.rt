//! Resolves pending pieces by the symbol table of all statements.

ghost use Rattle.std.specs.Prelude.{◌≡◌, ◌∷◌, ◌++◌, [], None, Some, Bool, Option, OnOk, IfOk, not, if◌then◌else◌};
ghost use Rattle.std.specs.List.{list_any};
ghost use Rattle.std.specs.Str.{bytes_eq};
ghost use Rattle.semantics65.specs.Contents.{exported_names, declaration_content};
ghost use Rattle.base65.specs.Outcome.{Refines};
ghost use Rattle.ast65.specs.Faults.{is_out_of_memory};
ghost use Rattle.semantics65.specs.declared.contexts.Context.{Context as Site};
ghost use Rattle.semantics65.specs.Symbols.{definition_index, named};
ghost use Rattle.semantics65.specs.Views.{declaration_at};
ghost use Rattle.semantics65.specs.Module.{asserted, piece_result, datum, without_warning, value_result};
ghost use Rattle.symbols65.specs.Tables.{IsFormCache};
ghost use Rattle.symbols65.specs.Views.{table_of};
ghost use Rattle.asm65.specs.Internal.RunState.{entry_content, AreDefinedNames, result_of_piece, declaration_result, location_of_fixup, PieceHasLocation};
ghost use Rattle.asm65.specs.declared.resolving.FixupLocation.{FixupLocation};
ghost use Rattle.emit65.specs.SectionContents.{names_of, piece_of};
ghost use Rattle.emit65.specs.declared.fixups.FixupKind.TheVariants.{Export};

use crate::emission::values::is_file_name;
use ast65::AsmFault;
use base65::{ListVec, Seed};
use emit65::{Fixup, FixupKind, LocatedDeclaration, SectionEntry, SourcePos};
use indexmap::IndexSet;
use object65::{Action, Norm, Width, fits, put};
use semantics65::{Context, Declaration, GLOBAL_SCOPE};
use std::alloc::{AllocError, Global};
use symbols65::constants::literal_of;
use symbols65::{FormCache, Key, Symbols, defined_norm, norm, operand_form};

/// The names exported so far.
pub type ExportedNames = IndexSet<Vec<u8>, Seed>;

/// The result of a piece.
#[derive(Drop)]
pub struct ResolvedPiece {
    /// The content or declaration, if there is one.
    pub entry: Option<SectionEntry>,
    /// The text of a failed assertion, if it is a warning.
    pub warning: Option<ListVec<u8>>,
}

/// The location of a deferred piece, with the table of files that it refers to.
#[derive(Clone, Copy)]
pub struct FixupLocation<'a> {
    pub files: &'a [String],
    pub pos: SourcePos,
}

impl<'a> FixupLocation<'a> {
    /// Returns the name of the file; it is empty if there is none.
    pub fn file(self) -> &'a str
        ensures { result.now ≡ (location_of_fixup self.entry).file }
    {
        match self.files.get(self.pos.file as usize) {
            Some(file) => file.as_str(),
            None => "",
        }
    }
}

/// Returns the result of a piece that emits nothing.
fn empty_piece() -> ResolvedPiece
    ensures piece { (fixup_location : FixupLocation) →
        result_of_piece fixup_location result ≡ without_warning (declaration_content []) }
    ensures entry { result.entry ≡ None }
{
    ResolvedPiece {
        entry: None,
        warning: None,
    }
}

/// Returns the result of a piece that has one entry.
fn single_entry(entry: SectionEntry) -> ResolvedPiece
    ensures piece { (fixup_location : FixupLocation) →
        result_of_piece fixup_location result ≡
        without_warning (entry_content fixup_location entry) }
    ensures entry { result.entry ≡ Some entry }
{
    ResolvedPiece {
        entry: Some(entry),
        warning: None,
    }
}

/// Returns one declaration, with its location.
fn declaration_piece(
    alloc: Global,
    fixup_location: FixupLocation<'_>,
    declaration: Declaration,
) -> Result<ResolvedPiece, AllocError>
    ensures piece { IfOk result (λ m. result_of_piece fixup_location.entry m ≡
        without_warning (declaration_content
        (declaration_at (location_of_fixup fixup_location.entry) declaration ∷ []))) }
    ensures located { IfOk result (PieceHasLocation fixup_location.entry.pos) }
{
    let located = LocatedDeclaration {
        pos: fixup_location.pos,
        said: declaration,
    };
    Ok(single_entry(SectionEntry::DeclarationEntry(Box::new(alloc, located)?)))
}

/// Returns one declaration, or an error if an object can't hold the name of its file.
fn checked_declaration(
    alloc: Global,
    fixup_location: FixupLocation<'_>,
    declaration: Declaration,
) -> Result<ResolvedPiece, AsmFault>
    ensures piece { Refines is_out_of_memory (result_of_piece fixup_location.entry) result
        (declaration_result (location_of_fixup fixup_location.entry) declaration) }
    ensures located { IfOk result (PieceHasLocation fixup_location.entry.pos) }
{
    if !is_file_name(fixup_location.file()) {
        return Err(AsmFault::FileNameTooLong);
    }
    Ok(declaration_piece(alloc, fixup_location, declaration)?)
}

/// Resolves a stored value: to bytes if it is a number.
fn resolve_datum(
    alloc: Global,
    width: Width,
    fixup_location: FixupLocation<'_>,
    context: Context,
    form: Norm,
) -> Result<ResolvedPiece, AsmFault>
    ensures piece { Refines is_out_of_memory (result_of_piece fixup_location.entry) result
        (value_result (location_of_fixup fixup_location.entry) context (datum width) form) }
    ensures located { IfOk result (PieceHasLocation fixup_location.entry.pos) }
{
    let segment = context.segment;
    match literal_of(&form) {
        Some(value) => {
            if !fits(width, value) {
                return Err(AsmFault::OutOfRange);
            }
            let bytes = ListVec::from_vec(Vec::from_slice(alloc, &put(width, value))?);
            Ok(single_entry(SectionEntry::Bytes { segment, bytes }))
        }
        None => {
            if !is_file_name(fixup_location.file()) {
                return Err(AsmFault::FileNameTooLong);
            }
            Ok(single_entry(SectionEntry::Value {
                width,
                segment,
                pos: fixup_location.pos,
                form,
            }))
        }
    }
}

/// Resolves an assertion.
fn resolve_assertion(
    alloc: Global,
    action: Action,
    fixup_location: FixupLocation<'_>,
    text: ListVec<u8>,
    form: Norm,
) -> Result<ResolvedPiece, AsmFault>
    ensures piece { (s : Site) →
        Refines is_out_of_memory (result_of_piece fixup_location.entry) result
        (value_result (location_of_fixup fixup_location.entry) s (asserted action text) form) }
    ensures located { IfOk result (PieceHasLocation fixup_location.entry.pos) }
{
    match literal_of(&form) {
        Some(0) => match action {
            Action::Error => Err(AsmFault::Assertion(text)),
            Action::Warning => Ok(ResolvedPiece {
                entry: None,
                warning: Some(text),
            }),
        },
        Some(_) => Ok(empty_piece()),
        None => checked_declaration(
            alloc,
            fixup_location,
            Declaration::LinkAssertion { action, text, form },
        ),
    }
}

/// Returns the index of the definition of a name in the global scope.
fn defined(symbols: &Symbols, name: &[u8]) -> Option<usize>
    ensures { result ≡ definition_index (table_of symbols.now) (named 0 name.now) }
{
    symbols.defined(Key::Named {
        scope: GLOBAL_SCOPE as usize,
        name,
    })
}

/// Adds a name to the exported names. Returns whether it is new.
fn add_export(alloc: Global, exported: &mut ExportedNames, name: &[u8]) -> Result<bool, AllocError>
    ensures new { IfOk result (λ b. list_any (bytes_eq name.now) (names_of exported.old) ≡ not b) }
    ensures names { IfOk result (λ b. names_of exported.new ≡
        (if b then names_of exported.old ++ name.now ∷ [] else names_of exported.old)) }
{
    Ok(exported.insert(Vec::from_slice(alloc, name)?)?)
}

/// Resolves an export of the name whose definition has this index: to its form, or to nothing if it
/// was exported before.
fn resolve_export(
    symbols: &Symbols,
    known: &mut FormCache,
    exported: &mut ExportedNames,
    fixup_location: FixupLocation<'_>,
    index: usize,
    name: ListVec<u8>,
) -> Result<ResolvedPiece, AsmFault>
    requires table { IsFormCache (table_of symbols.now) known.old }
    requires names { AreDefinedNames (table_of symbols.now) (names_of exported.old) }
    requires index { definition_index (table_of symbols.now) (named 0 name) ≡ Some index }
    ensures piece { (must : Bool) (s : Site) →
        Refines is_out_of_memory (result_of_piece fixup_location.entry) result
        (piece_result (table_of symbols.now) (names_of exported.old)
        (location_of_fixup fixup_location.entry) s
        (piece_of (Export must name))) }
    ensures located { IfOk result (PieceHasLocation fixup_location.entry.pos) }
    ensures table { OnOk result (IsFormCache (table_of symbols.now) known.new) }
    ensures names { OnOk result (AreDefinedNames (table_of symbols.now) (names_of exported.new)) }
    ensures more { IfOk result (λ m. names_of exported.new ≡ names_of exported.old ++
        exported_names (result_of_piece fixup_location.entry m).content.said) }
{
    let alloc = symbols.alloc;
    if !add_export(alloc, exported, name.as_slice())? {
        return Ok(empty_piece());
    }
    let form = defined_norm(symbols, known, index)?;
    checked_declaration(
        alloc,
        fixup_location,
        Declaration::ExportedSymbol { name, form },
    )
}

/// Resolves a deferred piece, or returns its error.
pub fn resolve(
    symbols: &Symbols,
    known: &mut FormCache,
    exported: &mut ExportedNames,
    fixup_location: FixupLocation<'_>,
    fixup: Fixup,
) -> Result<ResolvedPiece, AsmFault>
    requires table { IsFormCache (table_of symbols.now) known.old }
    requires names { AreDefinedNames (table_of symbols.now) (names_of exported.old) }
    ensures piece { Refines is_out_of_memory (result_of_piece fixup_location.entry) result
        (piece_result (table_of symbols.now) (names_of exported.old)
        (location_of_fixup fixup_location.entry)
        fixup.context (piece_of fixup.piece)) }
    ensures located { IfOk result (PieceHasLocation fixup_location.entry.pos) }
    ensures table { OnOk result (IsFormCache (table_of symbols.now) known.new) }
    ensures names { OnOk result (AreDefinedNames (table_of symbols.now) (names_of exported.new)) }
    ensures more { IfOk result (λ m. names_of exported.new ≡ names_of exported.old ++
        exported_names (result_of_piece fixup_location.entry m).content.said) }
{
    let alloc = symbols.alloc;
    let Fixup { context, piece, .. } = fixup;
    match piece {
        FixupKind::Datum { width, value } => {
            let form = norm(symbols, known, context, &value)?;
            resolve_datum(alloc, width, fixup_location, context, form)
        }
        FixupKind::Operand { width, value } => {
            let form = norm(symbols, known, context, &value)?;
            let form = operand_form(alloc, width, context, form)?;
            resolve_datum(alloc, width, fixup_location, context, form)
        }
        FixupKind::Constant(value) => {
            norm(symbols, known, context, &value)?;
            Ok(empty_piece())
        }
        FixupKind::Assertion {
            action,
            text,
            value,
        } => {
            let form = norm(symbols, known, context, &value)?;
            resolve_assertion(alloc, action, fixup_location, text, form)
        }
        // The module must not define what it imports.
        FixupKind::Import(name) => match defined(symbols, name.as_slice()) {
            Some(_) => Err(AsmFault::ImportedAndDefined(name)),
            None => Ok(empty_piece()),
        },
        FixupKind::ForcedImport(name) => Ok(declaration_piece(
            alloc,
            fixup_location,
            Declaration::ForcedImport(name),
        )?),
        FixupKind::Export { must, name } => match defined(symbols, name.as_slice()) {
            Some(index) => resolve_export(symbols, known, exported, fixup_location, index, name),
            None if must => Err(AsmFault::NotDefined(name)),
            None => Ok(empty_piece()),
        },
    }
}
