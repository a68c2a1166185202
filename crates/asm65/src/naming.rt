//! Names that statements define, open, import and export.

ghost use Rattle.std.specs.Prelude.{◌≡◌, None, OnOk, length, IfOk, IfSome, map, ◌∷◌, [], Some, ◌++◌, false, true};
ghost use Rattle.semantics65.specs.Symbols.{definition_index, Key as DefinedKey, named};
ghost use Rattle.symbols65.specs.Tables.{definition_view, key_of};
ghost use Rattle.symbols65.specs.Views.{table_of, with_definition, with_names, with_scope};
ghost use Rattle.std.specs.Option.{option_map};
ghost use Rattle.semantics65.specs.Layout.{opened_twice};
ghost use Rattle.asm65.specs.Internal.AssemblerState.{EmitsPieces, IsNew, has_content, statement_with_layout, ChangesOnlySections, name_use_piece, is_for_zero_page, label_definition, DefersMentions, EmitsThenDefines};
ghost use Rattle.symbols65.specs.Evaluations.{HasFinal, first_tree};
ghost use Rattle.symbols65.specs.Resolving.{IsBlocked};
ghost use Rattle.emit65.specs.SectionContents.{piece_of};
ghost use Rattle.sources65.specs.Machine.{symbols_after};
ghost use Rattle.semantics65.specs.Views.{location_of_ref};
ghost use Rattle.semantics65.specs.Module.{constant_definition, expression_value, forced_import, imported, pieces_of};
ghost use Rattle.syntax65.specs.declared.source_location.SourceLocation.{SourceLocation};

use crate::assembler::Assembler;
use crate::copying::copy_of;
use crate::emission::PieceContext;
use crate::emission::values::defer;
use ast65::Statement;
use base65::ListVec;
use emit65::FixupKind;
use object65::Norm;
use semantics65::Context;
use std::alloc::{AllocError, Global};
use symbols65::{Definition, Key, StatementLayout, Symbols, blocker_of, define};
use syntax65::{AddressSize, Expr};

/// The use of a name by a directive.
#[derive(Clone, Copy)]
pub enum NameUse {
    Imported,
    /// Imported even if nothing uses it.
    ForcedImport,
    /// Exported if it is defined. If it isn't: an error if `must`, else nothing.
    Exported { must: bool },
}

/// Returns the fixup for a name that a directive mentions.
fn piece_of(alloc: Global, mention: NameUse, name: &[u8]) -> Result<FixupKind, AllocError>
    ensures { IfOk result (λ p. piece_of p ≡ name_use_piece mention name.now) }
{
    let name = ListVec::from_vec(Vec::from_slice(alloc, name)?);
    match mention {
        NameUse::Imported => Ok(FixupKind::Import(name)),
        NameUse::ForcedImport => Ok(FixupKind::ForcedImport(name)),
        NameUse::Exported { must } => Ok(FixupKind::Export { must, name }),
    }
}

/// Returns the blocker of a constant. A constant with a final form has none.
fn blocker(symbols: &Symbols, context: Context, value: &Expr, form: &Option<Norm>) -> Option<usize>
    ensures { IfSome result (IsBlocked (table_of symbols.now) context value.now) }
{
    match form {
        Some(_) => None,
        None => blocker_of(symbols, context, value),
    }
}

impl Assembler {
    /// Defers the names of a directive, in order.
    #[inline(never)]
    pub fn defer_names(
        &mut self,
        site: PieceContext<'_>,
        mention: NameUse,
        names: &[ListVec<u8>],
    ) -> Result<(), AllocError>
        ensures mentioned { OnOk result (DefersMentions
            (location_of_ref site.entry.at) site.entry.context
            (map (name_use_piece mention) names.now) self.old self.new) }
        ensures tables { ChangesOnlySections self.old self.new }
    {
        for name in names {
            let piece = piece_of(self.symbols.alloc, mention, name.as_slice())?;
            defer(self, site, piece)?;
        }
        Ok(())
    }

    /// Defers a constant whose form isn't final: its expression may have an error.
    fn defer_constant(
        &mut self,
        site: PieceContext<'_>,
        value: &Expr,
        form: &Option<Norm>,
    ) -> Result<(), AllocError>
        requires { HasFinal (table_of self.old.symbols) site.context (Some value.now) form.now }
        ensures entered { OnOk result (EmitsPieces (location_of_ref site.entry.at)
            site.entry.context (expression_value constant_definition value.now ∷ [])
            self.old self.new) }
        ensures tables { ChangesOnlySections self.old self.new }
    {
        if form.is_some() {
            return Ok(());
        }
        let value = copy_of(self.symbols.alloc, value)?;
        defer(self, site, FixupKind::Constant(value))
    }

    /// Defines a constant.
    #[inline(never)]
    pub fn define_constant(
        &mut self,
        site: PieceContext<'_>,
        size: AddressSize,
        name: &[u8],
        value: Expr,
        form: Option<Norm>,
    ) -> Result<(), AllocError>
        requires new { definition_index (table_of self.old.symbols)
            (named site.context.scope name.now) ≡ None }
        requires form { HasFinal (table_of self.old.symbols) site.context (Some value) form }
        ensures { OnOk result (EmitsThenDefines (location_of_ref site.entry.at)
            site.entry.context (expression_value constant_definition value ∷ [])
            (λ y. with_definition y (record {
              key = named site.entry.context.scope name.now;
              value = Some value;
              context = site.entry.context;
              size = size;
            }))
            self.old self.new) }
    {
        let context = site.context;
        self.defer_constant(site, &value, &form)?;
        let scope = context.scope as usize;
        let blocker = blocker(&self.symbols, context, &value, &form);
        let definition = Definition {
            value: Some(value),
            context,
            size,
            form,
            blocker,
        };
        let key = Key::Named { scope, name };
        define(&mut self.symbols, key, definition)
    }
}

fn is_for_zero_page(size: AddressSize) -> bool
    ensures { result ≡ is_for_zero_page size }
{
    matches!(size, AddressSize::ZeroPage)
}

/// Returns the definition of a label: its address.
fn label(context: Context, size: AddressSize) -> Definition
    ensures seen { (k : DefinedKey) → definition_view k result ≡ label_definition k context size }
    ensures form { result.form ≡ None }
    ensures blocker { result.blocker ≡ None }
{
    Definition {
        value: None,
        context,
        size,
        form: None,
        blocker: None,
    }
}

impl Assembler {
    /// Defines a label at the current address.
    #[inline(never)]
    pub fn define_label(
        &mut self,
        key: Key<'_>,
        context: Context,
        size: AddressSize,
    ) -> Result<(), AllocError>
        requires new { definition_index (table_of self.old.symbols) (key_of key) ≡ None }
        ensures { OnOk result ((location : SourceLocation) → EmitsThenDefines location context []
            (λ y. with_definition y (label_definition (key_of key.entry) context size))
            self.old self.new) }
    {
        define(&mut self.symbols, key, label(context, size))
    }

    /// Opens a scope, which may have a name.
    #[inline(never)]
    pub fn open_block(&mut self, context: Context, name: Option<&[u8]>) -> Result<(), AllocError>
        requires new { opened_twice (table_of self.old.symbols).scopes context.scope
            (option_map (λ n. n.now) name) ≡ None }
        ensures { OnOk result ((location : SourceLocation) → EmitsThenDefines location context []
            (λ y. with_scope y (record {
              within = context.scope;
              name = option_map (λ n. n.now) name.entry;
              is_proc = false;
            }))
            self.old self.new) }
    {
        self.symbols.open_scope(context.scope as usize, name, false)
    }

    /// Defines a label and opens a scope of the same name.
    #[inline(never)]
    pub fn open_proc(
        &mut self,
        context: Context,
        size: AddressSize,
        name: &[u8],
    ) -> Result<(), AllocError>
        requires new { definition_index (table_of self.old.symbols)
            (named context.scope name.now) ≡ None }
        requires unopened { opened_twice (table_of self.old.symbols).scopes context.scope
            (Some name.now) ≡ None }
        ensures { OnOk result ((location : SourceLocation) → EmitsThenDefines location context []
            (λ y. with_scope
            (with_definition y (label_definition (named context.scope name.now) context size))
            (record { within = context.scope; name = Some name.now; is_proc = true }))
            self.old self.new) }
    {
        let scope = context.scope as usize;
        let key = Key::Named { scope, name };
        define(&mut self.symbols, key, label(context, size))?;
        self.symbols.open_scope(scope, Some(name), true)
    }

    /// Imports names with an address size.
    #[inline(never)]
    pub fn import_names(
        &mut self,
        site: PieceContext<'_>,
        mention: NameUse,
        size: AddressSize,
        names: &[ListVec<u8>],
    ) -> Result<(), AllocError>
        ensures { OnOk result (EmitsThenDefines
            (location_of_ref site.entry.at) site.entry.context
            (map (name_use_piece mention) names.now)
            (λ y. with_names y (is_for_zero_page size) names.now) self.old self.new) }
    {
        self.defer_names(site, mention, names)?;
        self.symbols.import(names, is_for_zero_page(size))
    }

    /// Imports names even if nothing uses them.
    #[inline(never)]
    pub fn force_import_names(
        &mut self,
        site: PieceContext<'_>,
        names: &[ListVec<u8>],
    ) -> Result<(), AllocError>
        ensures { OnOk result (EmitsThenDefines
            (location_of_ref site.entry.at) site.entry.context
            (map imported names.now ++ map forced_import names.now)
            (λ y. with_names y false names.now) self.old self.new) }
    {
        self.defer_names(site, NameUse::Imported, names)?;
        self.defer_names(site, NameUse::ForcedImport, names)?;
        self.symbols.import(names, false)
    }

    /// Defines the names of a statement that emits nothing, and defers the names that it mentions.
    #[inline(always)]
    pub fn define_names(
        &mut self,
        site: PieceContext<'_>,
        measured: StatementLayout,
        statement: Statement,
        form: Option<Norm>,
    ) -> Result<(), AllocError>
        requires new { IsNew (table_of self.old.symbols) site.context statement }
        requires named { has_content statement ≡ false }
        requires form { HasFinal (table_of self.old.symbols) site.context
            (first_tree statement) form }
        ensures { OnOk result (let location = location_of_ref site.entry.at in
            let s = site.entry.context in let m = measured in
            EmitsThenDefines location s (pieces_of m.length m.encoding statement)
            (λ y. symbols_after y (statement_with_layout location s m statement))
            self.old self.new) }
    {
        let context = site.context;
        let scope = context.scope as usize;
        let size = measured.size;
        match statement {
            Statement::Label(name) => {
                let name = name.as_slice();
                self.define_label(Key::Named { scope, name }, context, size)
            }
            Statement::CheapLabel(name) => {
                let region = context.region as usize;
                let name = name.as_slice();
                self.define_label(Key::Cheap { region, name }, context, size)
            }
            Statement::UnnamedLabel => {
                self.define_label(Key::Unnamed(context.unnamed as usize), context, size)
            }
            Statement::Constant { name, value } => {
                self.define_constant(site, size, name.as_slice(), value, form)
            }
            Statement::OpenScope(name) => match name {
                Some(name) => self.open_block(context, Some(name.as_slice())),
                None => self.open_block(context, None),
            },
            Statement::OpenProc(name) => self.open_proc(context, size, name.as_slice()),
            Statement::Import { size, names } => {
                self.import_names(site, NameUse::Imported, size, names.as_slice())
            }
            Statement::Global { size, names } => {
                let mention = NameUse::Exported { must: false };
                self.import_names(site, mention, size, names.as_slice())
            }
            Statement::ForceImport(names) => self.force_import_names(site, names.as_slice()),
            Statement::Export(names) => {
                let mention = NameUse::Exported { must: true };
                self.defer_names(site, mention, names.as_slice())
            }
            // `IncbinPath` has become `Incbin` before, and the other statements define and mention no name.
            _ => Ok(()),
        }
    }
}
