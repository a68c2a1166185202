//! The checks of a statement's names, and its layout by its kind.

ghost use Rattle.std.specs.Prelude.{◌≡◌, ◌&&◌, true};
ghost use Rattle.ast65.specs.declared.fault.AsmFault.TheVariants.{DefinedTwice, NotUnderstood, ScopeTwice};
ghost use Rattle.semantics65.specs.Layout.{context_of, defined_twice, is_not_global, opened_twice, own_size, scope_name, is_global_only, fault_if};
ghost use Rattle.semantics65.specs.Symbols.{scope_in, key_defined, needs_section, has_here};
ghost use Rattle.symbols65.specs.Views.{table_of};
ghost use Rattle.symbols65.specs.Evaluations.{AreEvaluations};
ghost use Rattle.symbols65.specs.Measuring.{ChecksStatement, LaysOutStatement};

use super::bytes::{file_part, instruction, values};
use super::reserves::{align, check_segment, is_scope, reserve};
use super::trees::Evaluations;
use crate::constants::evaluated_size;
use crate::measuring::{LineState, StatementLayout, layout_without_bytes};
use crate::table::{Key, Symbols};
use ast65::{AsmFault, Statement};
use base65::ListVec;
use semantics65::Context;
use syntax65::{Expr, ExprKind};

/// Rejects an import or export of names if a scope other than the global one is open.
pub fn check_global_only(scope: usize, statement: &Statement) -> Result<(), AsmFault>
    ensures { ChecksStatement result
        (fault_if (is_global_only statement.now && is_not_global scope) NotUnderstood) }
{
    match statement {
        Statement::Import { .. }
        | Statement::Export(_)
        | Statement::Global { .. }
        | Statement::ForceImport(_)
            if scope != 0 => { Err(AsmFault::NotUnderstood) }
        _ => Ok(()),
    }
}

/// Rejects a statement that opens a scope if the enclosing scope already has one with its name.
pub fn check_opened(symbols: &Symbols, scope: usize, statement: &Statement) -> Result<(), AsmFault>
    ensures { ChecksStatement result (opened_twice (table_of symbols.now).scopes scope
        (scope_name statement.now)) }
{
    let (Statement::OpenScope(Some(name)) | Statement::OpenProc(name)) = statement else {
        return Ok(());
    };
    match symbols.scope_in(scope, name.as_slice()) {
        None => Ok(()),
        Some(_) => {
            let name = Vec::from_slice(symbols.alloc, name.as_slice())?;
            Err(AsmFault::ScopeTwice(ListVec::from_vec(name)))
        }
    }
}

/// Rejects a statement that defines a symbol that is already defined.
pub fn check_defined(
    symbols: &Symbols,
    context: Context,
    statement: &Statement,
) -> Result<(), AsmFault>
    ensures { ChecksStatement result (defined_twice (table_of symbols.now)
        (key_defined context statement.now)) }
{
    let scope = context.scope as usize;
    let region = context.region as usize;
    let (key, name) = match statement {
        Statement::Label(name)
        | Statement::OpenProc(name)
        | Statement::Constant { name, value: _ } => {
            let name = name.as_slice();
            (Key::Named { scope, name }, name)
        }
        Statement::CheapLabel(name) => {
            let name = name.as_slice();
            (Key::Cheap { region, name }, name)
        }
        _ => return Ok(()),
    };
    match symbols.defined(key) {
        None => Ok(()),
        Some(_) => {
            let name = Vec::from_slice(symbols.alloc, name)?;
            Err(AsmFault::DefinedTwice(ListVec::from_vec(name)))
        }
    }
}

/// Returns whether an expression has a `*`.
fn has_here(value: &Expr) -> bool
    ensures { result ≡ has_here value.now }
{
    match value.kind() {
        ExprKind::Here => true,
        ExprKind::Prefix(_, part) => has_here(part),
        ExprKind::Binary(_, operands) => has_here(&operands.left) || has_here(&operands.right),
        _ => false,
    }
}

/// Returns whether a statement requires a section of its segment.
pub fn needs_section(statement: &Statement) -> bool
    ensures { result ≡ needs_section statement.now }
{
    match statement {
        Statement::Label(_)
        | Statement::CheapLabel(_)
        | Statement::UnnamedLabel
        | Statement::OpenProc(_)
        | Statement::Instruction { .. }
        | Statement::Values { .. }
        | Statement::Reserve { .. }
        | Statement::Align { .. }
        | Statement::Incbin { .. } => true,
        Statement::Constant { value, .. } | Statement::Assert { value, .. } => has_here(value),
        _ => false,
    }
}

/// Lays out a statement whose names are checked, from the evaluations of its expressions, or returns
/// its first error.
pub fn layout_by_kind(
    before: LineState<'_>,
    statement: &Statement,
    found: &Evaluations,
) -> Result<StatementLayout, AsmFault>
    requires { AreEvaluations (table_of before.symbols.now) (context_of before.cursor.now)
        (own_size before.cursor.now) statement.now found.now }
    ensures { LaysOutStatement before.entry result statement.now }
{
    let scope = before.cursor.scope() as usize;
    let cursor = before.cursor;
    match statement {
        Statement::Instruction { mnemonic, operand } => {
            instruction(cursor, *mnemonic, operand, &found.first)
        }
        Statement::Values { width, items } => values(cursor, *width, items),
        Statement::Reserve { .. } => reserve(cursor, found),
        Statement::Align { .. } => align(cursor, found),
        Statement::Incbin { bytes, .. } => file_part(cursor, bytes, found),
        Statement::Constant { .. } => {
            let size = evaluated_size(&found.first);
            Ok(StatementLayout {
                size,
                ..layout_without_bytes(cursor)
            })
        }
        Statement::Segment { name, size } => {
            check_segment(cursor, name.as_slice(), *size)?;
            Ok(layout_without_bytes(cursor))
        }
        Statement::PopSegment if !cursor.has_pushed() => Err(AsmFault::PopWithoutPush),
        Statement::CloseScope if scope == 0 || !is_scope(before.symbols, scope) => {
            Err(AsmFault::BadScope)
        }
        Statement::CloseProc if scope == 0 || is_scope(before.symbols, scope) => {
            Err(AsmFault::BadScope)
        }
        _ => Ok(layout_without_bytes(cursor)),
    }
}
