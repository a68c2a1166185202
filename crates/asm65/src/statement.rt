//! Assembles one statement, whose names and text an object can store.

ghost use Rattle.std.specs.Prelude.{◌≡◌, true, Err, ◌+◌, ◌<◌, ℕ, IfErr, IfOk, OnOk, false};
ghost use Rattle.std.specs.List.{list_all};
ghost use Rattle.object65.specs.Objects.{is_name};
ghost use Rattle.semantics65.specs.Numbering.{IsWellFormedStatement};
ghost use Rattle.syntax65.specs.declared.source_location.SourceLocation.{SourceLocation};
ghost use Rattle.ast65.specs.declared.language.Statement.TheVariants.{Instruction};
ghost use Rattle.semantics65.specs.declared.contexts.EncodingChoice.TheVariants.{InMode};
ghost use Rattle.ast65.specs.Faults.{is_failure, is_system_error};
ghost use Rattle.semantics65.specs.Views.{location_of_ref};
ghost use Rattle.symbols65.specs.Measuring.{opening_count, opening_limit};
ghost use Rattle.sources65.specs.Machine.{State, StepsTo, symbols_after};
ghost use Rattle.semantics65.specs.Contents.{operand_tree};
ghost use Rattle.semantics65.specs.Module.{instruction_pieces, pieces_of};
ghost use Rattle.sources65.specs.Reading.{RepresentsOrFails};
ghost use Rattle.symbols65.specs.Evaluations.{HasFinal, HaveFinals, items_in, first_tree};
ghost use Rattle.symbols65.specs.Views.{table_of};
ghost use Rattle.asm65.specs.Internal.AssemblerState.{EmitsPieces, Represents, ChangesOnlySections, RequestsSection, IsRepresentable, IsNew, HasLayout, IsRejected, EmitsThenDefines, statement_with_layout, state_after_layout};

use crate::assembler::Assembler;
use crate::emission::PieceContext;
use crate::emission::statements::{
    emit_incbin, emit_opcode, emit_operand, emit_reserve, emit_values, width_of,
};
use crate::emission::values::{ValueUse, defer, emit_value};
use ast65::{AsmFault, Operand, Statement};
use base65::ListVec;
use emit65::FixupKind;
use object65::{Norm, is_name};
use semantics65::{Context, EncodingChoice, LocationRef};
use std::alloc::AllocError;
use symbols65::{
    Analysis, LineState, StatementLayout, lay_out_instruction, lay_out_statement, needs_section,
    search_operand, search_statement,
};
use syntax65::{Mnemonic, opcode};

/// An assertion's text has fewer bytes than this.
const LEN_LIMIT: usize = 256;

#[inline(never)]
fn are_names(names: &[ListVec<u8>]) -> bool
    ensures { result ≡ list_all is_name names.now }
{
    names.iter().all(|name| is_name(name.as_slice()))
}

/// Returns whether an object can store a statement's names and text.
pub fn is_well_formed(statement: &Statement) -> bool
    ensures sound { result ≡ true → IsWellFormedStatement statement.now }
    ensures all { IsWellFormedStatement statement.now → result ≡ true }
{
    match statement {
        Statement::Segment { name, .. } => is_name(name.as_slice()),
        Statement::Import { names, .. } => are_names(names.as_slice()),
        Statement::Export(names) => are_names(names.as_slice()),
        Statement::Global { names, .. } => are_names(names.as_slice()),
        Statement::ForceImport(names) => are_names(names.as_slice()),
        Statement::Assert { text, .. } => text.len() < LEN_LIMIT,
        _ => true,
    }
}

/// The context and the analysis of an instruction.
#[derive(Drop)]
struct LaidOut {
    context: Context,
    analysis: Analysis,
}

/// Drops a rejected statement and returns the error. It is a function of its own so that the code for valid statements has
/// no drop.
#[inline(never)]
fn reject_statement(_statement: Statement, fault: AsmFault) -> Result<(), AsmFault>
    ensures { result ≡ Err fault }
{
    Err(fault)
}

/// Drops the operand of a rejected instruction and returns the error. It is a function of its own so that the code for valid
/// instructions has no drop.
#[inline(never)]
fn reject_instruction(_operand: Operand, fault: AsmFault) -> Result<(), AsmFault>
    ensures { result ≡ Err fault }
{
    Err(fault)
}

impl Assembler {
    /// Requests the section of a statement, if it needs one.
    #[inline(always)]
    fn request_section(&mut self, segment: u32, statement: &Statement) -> Result<(), AllocError>
        ensures requested { OnOk result (RequestsSection segment statement.now self.old self.new) }
        ensures tables { ChangesOnlySections self.old self.new }
    {
        if needs_section(statement) {
            self.sections.request_section(segment)?;
        }
        Ok(())
    }

    /// Emits an instruction in the addressing mode of its encoding.
    #[inline(always)]
    fn emit_encoded(
        &mut self,
        site: PieceContext<'_>,
        encoding: EncodingChoice,
        mnemonic: Mnemonic,
        operand: Operand,
        form: Option<Norm>,
    ) -> Result<(), AllocError>
        requires { HasFinal (table_of self.old.symbols) site.context (operand_tree operand) form }
        ensures { OnOk result (EmitsPieces
            (location_of_ref site.entry.at) site.entry.context
            (instruction_pieces mnemonic operand encoding)
            self.old self.new) }
    {
        let EncodingChoice::InMode(mode) = encoding else {
            return Ok(());
        };
        emit_opcode(self, site.context, opcode(mnemonic, mode))?;
        emit_operand(self, site, width_of(mode), operand, form)
    }

    /// Emits the pieces of a statement, then defines its names.
    #[inline(always)]
    fn emit_statement(
        &mut self,
        site: PieceContext<'_>,
        analysis: Analysis,
        statement: Statement,
    ) -> Result<(), AllocError>
        requires new { IsNew (table_of self.old.symbols) site.context statement }
        requires form { HasFinal (table_of self.old.symbols) site.context
            (first_tree statement) analysis.form }
        requires forms { HaveFinals (table_of self.old.symbols) site.context
            (items_in statement) analysis.forms.items }
        ensures { OnOk result (let location = location_of_ref site.entry.at in
            let s = site.entry.context in let m = analysis.measured in
            EmitsThenDefines location s (pieces_of m.length m.encoding statement)
            (λ y. symbols_after y (statement_with_layout location s m statement))
            self.old self.new) }
    {
        let context = site.context;
        let Analysis {
            measured,
            form,
            forms,
        } = analysis;
        let StatementLayout {
            length,
            encoding,
            ..
        } = measured;
        match statement {
            Statement::Instruction { mnemonic, operand } => {
                self.emit_encoded(site, encoding, mnemonic, operand, form)
            }
            Statement::Values { width, items } => { emit_values(self, site, width, items, forms) }
            Statement::Reserve { .. } => emit_reserve(self, context, length, encoding),
            Statement::Align { .. } => emit_reserve(self, context, length, encoding),
            Statement::Incbin { bytes, .. } => emit_incbin(self, context, length, encoding, bytes),
            Statement::Assert {
                value,
                action,
                text,
            } => {
                if emit_value(self, site, form, ValueUse::Assertion)? {
                    return Ok(());
                }
                let piece = FixupKind::Assertion {
                    action,
                    text,
                    value,
                };
                defer(self, site, piece)
            }
            other => self.define_names(site, measured, other, form),
        }
    }

    /// Computes the length and the context of an instruction, or its first error; requests its
    /// section, and advances the cursor.
    #[inline(always)]
    fn lay_out_next_instruction(
        &mut self,
        mnemonic: Mnemonic,
        operand: &Operand,
    ) -> Result<LaidOut, AsmFault>
        requires { IsRepresentable self.old }
        ensures placed { (count : ℕ) (t : State) → Represents count t self.old → IfOk result (λ p.
            HasLayout t (Instruction mnemonic operand.now) p.context p.analysis.measured) }
        ensures holds { (location : SourceLocation) (count : ℕ) (t : State) →
            Represents count t self.old →
            OnOk result (Represents (count + opening_count (Instruction mnemonic operand.now))
            (state_after_layout t location (Instruction mnemonic operand.now)) self.new) }
        ensures refused { (count : ℕ) (t : State) → Represents count t self.old → IfErr result
            (IsRejected t (Instruction mnemonic operand.now)) }
        ensures form { IfOk result (λ p. HasFinal (table_of self.new.symbols) p.context
            (operand_tree operand.now) p.analysis.form) }
        ensures texts { IfErr result (λ e. is_system_error e ≡ false →
            self.new.texts ≡ self.old.texts) }
        ensures no_failure { IfErr result (λ e. is_failure e ≡ false) }
    {
        let before = LineState {
            symbols: &self.symbols,
            cursor: &self.cursor,
        };
        let analysis = lay_out_instruction(before, mnemonic, operand)?;
        let context = self.cursor.context();
        self.sections.request_section(context.segment)?;
        self.cursor.advance_by(analysis.measured.length);
        Ok(LaidOut { context, analysis })
    }

    /// Assembles an instruction, as `assemble_statement` does.
    pub fn assemble_instruction(
        &mut self,
        at: LocationRef<'_>,
        mnemonic: Mnemonic,
        operand: Operand,
    ) -> Result<(), AsmFault>
        requires { IsRepresentable self.old }
        ensures transitions { (count : ℕ) (t : State) → Represents count t self.old →
            count < opening_limit →
            RepresentsOrFails (StepsTo t (location_of_ref at.entry)
            (Instruction mnemonic operand))
            (λ u. Represents (count + opening_count (Instruction mnemonic operand)) u
            self.new) result }
        ensures texts { IfErr result (λ e. is_system_error e ≡ false →
            self.new.texts ≡ self.old.texts) }
        ensures no_failure { IfErr result (λ e. is_failure e ≡ false) }
    {
        search_operand(&mut self.symbols, self.cursor.context(), &operand)?;
        match self.lay_out_next_instruction(mnemonic, &operand) {
            Ok(LaidOut { context, analysis }) => {
                let site = PieceContext { at, context };
                let Analysis { measured, form, .. } = analysis;
                self.emit_encoded(site, measured.encoding, mnemonic, operand, form)?;
                Ok(())
            }
            Err(fault) => reject_instruction(operand, fault),
        }
    }

    /// Assembles a statement. If it has an error, nothing more is printed; after a system error the output is unspecified.
    pub fn assemble_statement(
        &mut self,
        at: LocationRef<'_>,
        statement: Statement,
    ) -> Result<(), AsmFault>
        requires { IsRepresentable self.old }
        ensures transitions { (count : ℕ) (t : State) → Represents count t self.old →
            count < opening_limit →
            RepresentsOrFails (StepsTo t (location_of_ref at.entry) statement)
            (λ u. Represents (count + opening_count statement) u self.new) result }
        ensures texts { IfErr result (λ e. is_system_error e ≡ false →
            self.new.texts ≡ self.old.texts) }
        ensures no_failure { IfErr result (λ e. is_failure e ≡ false) }
    {
        let context = self.cursor.context();
        search_statement(&mut self.symbols, context, &statement)?;
        let before = LineState {
            symbols: &self.symbols,
            cursor: &self.cursor,
        };
        let analysis = match lay_out_statement(before, &statement) {
            Ok(analysis) => analysis,
            Err(fault) => return reject_statement(statement, fault),
        };
        self.request_section(context.segment, &statement)?;
        self.texts.record_output(at, &statement)?;
        self.cursor
            .advance(&self.symbols, &statement, analysis.measured)?;
        self.emit_statement(PieceContext { at, context }, analysis, statement)?;
        Ok(())
    }
}
