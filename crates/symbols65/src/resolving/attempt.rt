//! Attempts at the form of an expression, by the forms that are known so far.

ghost use Rattle.std.specs.Prelude.{◌≡◌, slice_get};
ghost use Rattle.base65.specs.Outcome.{Refines};
ghost use Rattle.indexmap.specs.IndexMap.{get};
ghost use Rattle.ast65.specs.declared.fault.AsmFault.TheVariants.{OutOfMemory};
ghost use Rattle.semantics65.specs.Norms.{address_of};
ghost use Rattle.symbols65.specs.declared.resolving.attempt.AttemptError.TheVariants.{Fault};
ghost use Rattle.symbols65.specs.Resolving.{attempt_definition, form_attempt, known_form, lacks_memory, binding_form, binding_in, constant_attempt, last_attempt};
ghost use Rattle.symbols65.specs.Views.{known_among, table_of};

use super::bindings::{Binding, binding_of, folded_form};
use crate::table::{FormCache, SearchEntry, Symbols};
use ast65::AsmFault;
use object65::{Node, Norm};
use semantics65::Context;
use std::alloc::AllocError;
use syntax65::{Expr, ExprKind};

/// The error of an attempt.
#[derive(Drop)]
pub enum AttemptError {
    /// The form of the constant at this index is needed, and isn't known.
    Needs(usize),
    Fault(AsmFault),
}

impl From<AllocError> for AttemptError {
    ghost from_gives = { λ _ e. e ≡ Fault OutOfMemory };

    fn from(_e: AllocError) -> AttemptError {
        AttemptError::Fault(AsmFault::OutOfMemory)
    }
}

impl From<AsmFault> for AttemptError {
    ghost from_gives = { λ f e. e ≡ Fault f };

    fn from(fault: AsmFault) -> AttemptError {
        AttemptError::Fault(fault)
    }
}

/// Returns the address of a statement.
pub fn address(context: Context) -> Norm
    ensures { result ≡ address_of context }
{
    Norm::new(Node::SectionOffset(context.segment, i64::from(context.offset)))
}

/// Returns the form of the definition at an index: that of a constant is final, or a search has
/// found it.
fn attempt_defined(symbols: &Symbols, known: &FormCache, index: usize) -> Result<Norm, AttemptError>
    ensures { Refines lacks_memory (λ f. f) result (attempt_definition
        (λ s e. known_form index (known_among symbols.now known.now index))
        (slice_get (table_of symbols.now).definitions index)) }
{
    let alloc = symbols.alloc;
    let Some(definition) = symbols.definition(index) else {
        return Err(AttemptError::Fault(AsmFault::NoSuchLabel));
    };
    match (&definition.value, &definition.form) {
        (None, _) => Ok(address(definition.context)),
        (Some(_), Some(form)) => Ok(Norm::copy_of(alloc, form)?),
        (Some(_), None) => match known.get(&index) {
            Some(SearchEntry::KnownForm(form)) => Ok(Norm::copy_of(alloc, form)?),
            _ => Err(AttemptError::Needs(index)),
        },
    }
}

/// Returns the form of the meaning of a name.
fn attempt_binding(
    symbols: &Symbols,
    known: &FormCache,
    meaning: Binding,
) -> Result<Norm, AttemptError>
    ensures { Refines lacks_memory (λ f. f) result (binding_form
        (known_among symbols.now known.now)
        (table_of symbols.now) (binding_in meaning)) }
{
    match meaning {
        Binding::Defined(index) => attempt_defined(symbols, known, index),
        // Memory can't have more imports than 32 bits can number.
        Binding::Imported(key) => match u32::try_from(key) {
            Ok(key) => Ok(Norm::new(Node::ImportedName(key))),
            Err(_) => Err(AttemptError::Fault(AsmFault::OutOfMemory)),
        },
    }
}

/// Attempts the form of an expression in its context.
fn try_norm(
    symbols: &Symbols,
    known: &FormCache,
    context: Context,
    value: &Expr,
) -> Result<Norm, AttemptError>
    ensures { Refines lacks_memory (λ f. f) result (form_attempt
        (known_among symbols.now known.now)
        (table_of symbols.now) context value.now) }
{
    let alloc = symbols.alloc;
    match value.kind() {
        ExprKind::Number(number) => Ok(Norm::new(Node::NumberNode(i64::from(*number)))),
        ExprKind::Here => Ok(address(context)),
        ExprKind::Prefix(op, part) => {
            let part = try_norm(symbols, known, context, part)?;
            Ok(folded_form(Norm::prefix(alloc, *op, part))?)
        }
        ExprKind::Binary(op, operands) => {
            let left = try_norm(symbols, known, context, &operands.left)?;
            let right = try_norm(symbols, known, context, &operands.right)?;
            Ok(folded_form(Norm::binary(alloc, *op, left, right))?)
        }
        ExprKind::Plain(_)
        | ExprKind::Scoped(_)
        | ExprKind::Cheap(_)
        | ExprKind::Forward(_)
        | ExprKind::Backward(_) => {
            let meaning = binding_of(symbols, context, value)?;
            attempt_binding(symbols, known, meaning)
        }
    }
}

/// Attempts the last of the pending constants or, if there is none, the expression itself.
pub fn try_last(
    symbols: &Symbols,
    known: &FormCache,
    context: Context,
    value: &Expr,
    pending_constants: &[usize],
) -> Result<Norm, AttemptError>
    ensures { Refines lacks_memory (λ f. f) result (last_attempt
        (constant_attempt (known_among symbols.now known.now)
        (table_of symbols.now))
        (form_attempt (known_among symbols.now known.now)
        (table_of symbols.now) context value.now)
        pending_constants.now) }
{
    let Some(last) = pending_constants.last() else {
        return try_norm(symbols, known, context, value);
    };
    let Some(definition) = symbols.definition(*last) else {
        return Err(AttemptError::Fault(AsmFault::NoSuchLabel));
    };
    match &definition.value {
        None => Ok(address(definition.context)),
        Some(value) => try_norm(symbols, known, definition.context, value),
    }
}
