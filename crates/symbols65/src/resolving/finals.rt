//! Operands whose meaning stays whatever statements follow, blockers of constants, and folding of
//! optional forms.

ghost use Rattle.std.specs.Prelude.{IfSome, ◌≡◌, IfOk, Ok, Result, Some, true};
ghost use Rattle.symbols65.specs.Resolving.{IsBlocked, HasFinalBinding, binding_in};
ghost use Rattle.std.specs.Result.{result_ok};
ghost use Rattle.base65.specs.Outcome.{Refines};
ghost use Rattle.object65.specs.Form.{Form};
ghost use Rattle.object65.specs.Folding.{is_form_memory_fault};
ghost use Rattle.object65.specs.declared.folding.FormFault.{FormFault};
ghost use Rattle.semantics65.specs.Symbols.{binding_of, defined_at};
ghost use Rattle.symbols65.specs.Evaluations.{HasFinal};
ghost use Rattle.symbols65.specs.Views.{table_of};

use super::attempt::address;
use super::bindings::{Binding, binding_at, plain_part};
use crate::table::Symbols;
use object65::{FormFault, Norm};
use semantics65::Context;
use std::alloc::AllocError;
use syntax65::{Expr, ExprKind};

/// Returns a folded form; nothing if it has no value or is too large.
pub fn folded_form_if_any(form: Result<Norm, FormFault>) -> Result<Option<Norm>, AllocError>
    ensures { (r : Result Form FormFault) → Refines is_form_memory_fault (λ f. f) form r →
        IfOk result (λ f. f ≡ result_ok r) }
{
    match form {
        Ok(form) => Ok(Some(form)),
        Err(FormFault::OutOfMemory) => Err(AllocError),
        Err(FormFault::NoValue | FormFault::TooLarge) => Ok(None),
    }
}

/// Returns true only if an operand means this definition whatever statements follow: if the scope of
/// the use defines a plain name, if the scope of a name with `::` was opened before, and for cheap
/// labels and unnamed labels before the use.
fn is_final(symbols: &Symbols, context: Context, operand: &Expr, index: usize) -> bool
    ensures { result ≡ true →
        binding_of (table_of symbols.now) context operand.now ≡ Ok (defined_at index) →
        HasFinalBinding (table_of symbols.now) context operand.now index }
{
    match operand.kind() {
        ExprKind::Plain(_) => symbols.is_in(index, context.scope as usize),
        ExprKind::Scoped(name) => match plain_part(name) {
            Some(_) => symbols.is_in(index, context.scope as usize),
            None => context.opened as usize <= symbols.scope_count(),
        },
        ExprKind::Cheap(_) => true,
        ExprKind::Backward(_) => true,
        _ => false,
    }
}

/// Returns the index of a constant that blocks an expression, if one is evident already: whatever
/// statements follow, if the constant has no number and no address, the expression has none either.
pub fn blocker_of(symbols: &Symbols, context: Context, value: &Expr) -> Option<usize>
    ensures { IfSome result (IsBlocked (table_of symbols.now) context value.now) }
{
    match value.kind() {
        ExprKind::Number(_) | ExprKind::Here => None,
        ExprKind::Prefix(_, part) => blocker_of(symbols, context, part),
        ExprKind::Binary(_, operands) => match blocker_of(symbols, context, &operands.left) {
            Some(index) => Some(index),
            None => blocker_of(symbols, context, &operands.right),
        },
        ExprKind::Plain(_)
        | ExprKind::Scoped(_)
        | ExprKind::Cheap(_)
        | ExprKind::Forward(_)
        | ExprKind::Backward(_) => {
            let Binding::Defined(index) = binding_at(symbols, context, value)? else {
                return None;
            };
            if !is_final(symbols, context, value, index) {
                return None;
            }
            let definition = symbols.definition(index)?;
            match (&definition.value, &definition.form) {
                (Some(_), None) => Some(definition.blocker.unwrap_or(index)),
                _ => None,
            }
        }
    }
}

/// Returns the final form of an operand with this meaning, if that is evident already.
pub fn final_binding_form(
    symbols: &Symbols,
    context: Context,
    operand: &Expr,
    meaning: Binding,
) -> Result<Option<Norm>, AllocError>
    requires { binding_of (table_of symbols.now) context operand.now ≡ Ok (binding_in meaning) }
    ensures { IfOk result (HasFinal (table_of symbols.now) context (Some operand.now)) }
{
    let Binding::Defined(index) = meaning else {
        return Ok(None);
    };
    if !is_final(symbols, context, operand, index) {
        return Ok(None);
    }
    let Some(definition) = symbols.definition(index) else {
        return Ok(None);
    };
    match (&definition.value, &definition.form) {
        (None, _) => Ok(Some(address(definition.context))),
        (Some(_), Some(form)) => Ok(Some(Norm::copy_of(symbols.alloc, form)?)),
        (Some(_), None) => Ok(None),
    }
}
