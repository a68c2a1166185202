//! The meanings of operands: definitions and imports.

ghost use Rattle.base65.specs.Outcome.{Refines};
ghost use Rattle.object65.specs.Folding.{is_form_memory_fault};
ghost use Rattle.object65.specs.Form.{Form};
ghost use Rattle.object65.specs.declared.folding.FormFault.{FormFault};
ghost use Rattle.semantics65.specs.Contents.{operand_form};
ghost use Rattle.ast65.specs.Faults.{is_out_of_memory};
ghost use Rattle.semantics65.specs.Norms.{fold_result};
ghost use Rattle.std.specs.Prelude.{◌≡◌, ◌+◌, ◌-◌, IfOk, None, Result, Some};
ghost use Rattle.syntax65.specs.Trees.{name as name_tree};
ghost use Rattle.semantics65.specs.Symbols.{binding_of, scoped_binding, last_of, member_binding, binding_or_fault, plain_binding, scope_path, unnamed_binding, import_index};
ghost use Rattle.symbols65.specs.Internal.BindingFaults.{binding_fault, name_fault};
ghost use Rattle.symbols65.specs.Resolving.{defined_index, binding_in, plain_part};
ghost use Rattle.symbols65.specs.Views.{table_of};
ghost use Rattle.std.specs.Option.{ok_or, option_map};
ghost use Rattle.ast65.specs.declared.fault.AsmFault.{AsmFault};
ghost use Rattle.ast65.specs.declared.fault.AsmFault.TheVariants.{NoSuchLabel, Undefined};

use super::scopes::{defined_outward, name_text, scope_of};
use crate::table::{Key, Symbols};
use ast65::AsmFault;
use base65::{ListVec, Op2};
use object65::{FormFault, Node, Norm, Width};
use semantics65::Context;
use std::alloc::{AllocError, Global};
use syntax65::{Expr, ExprKind, Name};

/// Returns a folded form, or the error of folding.
pub fn folded_form(form: Result<Norm, FormFault>) -> Result<Norm, AsmFault>
    ensures { (r : Result Form FormFault) → Refines is_form_memory_fault (λ f. f) form r →
        Refines is_out_of_memory (λ f. f) result (fold_result r) }
{
    match form {
        Ok(form) => Ok(form),
        Err(FormFault::OutOfMemory) => Err(AsmFault::OutOfMemory),
        Err(FormFault::NoValue) => Err(AsmFault::NoValue),
        Err(FormFault::TooLarge) => Err(AsmFault::TooLarge),
    }
}

/// Returns the stored form of an operand: of a branch, the distance of its target from the address
/// after it.
pub fn operand_form(
    alloc: Global,
    width: Width,
    context: Context,
    form: Norm,
) -> Result<Norm, AsmFault>
    ensures { Refines is_out_of_memory (λ f. f) result (operand_form width context form) }
{
    match width {
        Width::Branch => {
            let following = Norm::new(Node::SectionOffset(
                context.segment,
                i64::from(context.offset) + 2,
            ));
            folded_form(Norm::binary(alloc, Op2::Subtract, form, following))
        }
        _ => Ok(form),
    }
}

/// Returns the index of the definition that a name means in its context, if it means one; none if
/// it is imported.
pub fn definition_of(symbols: &Symbols, context: Context, name: &Name) -> Option<usize>
    ensures { result ≡ defined_index (binding_of (table_of symbols.now) context
        (name_tree name.now.is_global name.now.parts)) }
{
    match plain_part(name) {
        Some(part) => defined_outward(symbols, context.scope as usize, part),
        None => {
            let parts = name.parts.as_slice();
            let opened = context.opened as usize;
            let scope = context.scope as usize;
            let scope = scope_of(symbols, opened, scope, name.is_global, scopes_in(parts))?;
            let name = last_in(parts);
            symbols.defined(Key::Named { scope, name })
        }
    }
}

/// The meaning of a name or an unnamed label.
#[derive(Clone, Copy)]
pub enum Binding {
    /// The definition at this index.
    Defined(usize),
    /// The import at this index, in the order in which imports were first named.
    Imported(usize),
}

/// Returns the meaning of a definition's index or, if there is none, of an imported name.
fn defined_or_imported(symbols: &Symbols, defined: Option<usize>, name: &[u8]) -> Option<Binding>
    ensures { (fault : AsmFault) →
        binding_or_fault fault defined (import_index (table_of symbols.now) name.now) ≡
        ok_or (option_map binding_in result) fault }
{
    if let Some(index) = defined {
        return Some(Binding::Defined(index));
    }
    let key = symbols.imported(name)?;
    Some(Binding::Imported(key))
}

/// Returns the meaning of a name in one scope, if it has one there. Imports are in the global scope.
fn member_binding(symbols: &Symbols, scope: usize, name: &[u8]) -> Option<Binding>
    ensures { (absent lost : AsmFault) →
        member_binding (table_of symbols.now) name.now absent lost (Some scope) ≡
        ok_or (option_map binding_in result) absent }
{
    let defined = symbols.defined(Key::Named { scope, name });
    if scope == 0 {
        return defined_or_imported(symbols, defined, name);
    }
    Some(Binding::Defined(defined?))
}

/// Returns the meaning of a plain name, if it has one: the definition in the innermost scope that has one,
/// from the use outward, or else an import.
fn plain_binding(symbols: &Symbols, scope: usize, name: &[u8]) -> Option<Binding>
    ensures { plain_binding (table_of symbols.now) scope name.now ≡
        ok_or (option_map binding_in result) (Undefined name.now) }
{
    let defined = defined_outward(symbols, scope, name);
    defined_or_imported(symbols, defined, name)
}

/// Returns the meaning of a name with `::`, if it has one. Only scopes that were opened before the use are
/// considered.
fn scoped_binding(symbols: &Symbols, context: Context, name: &Name) -> Option<Binding>
    ensures { scoped_binding (table_of symbols.now) context name.now.is_global name.now.parts ≡
        ok_or (option_map binding_in result)
        (name_fault (table_of symbols.now) context name.now.is_global name.now.parts None) }
{
    let parts = name.parts.as_slice();
    let opened = context.opened as usize;
    let scope = context.scope as usize;
    let inner = scope_of(symbols, opened, scope, name.is_global, scopes_in(parts))?;
    member_binding(symbols, inner, last_in(parts))
}

/// Returns the parts of a name that are names of scopes: all but the last.
pub fn scopes_in(parts: &[ListVec<u8>]) -> &[ListVec<u8>]
    ensures { result.now ≡ scope_path parts.now }
{
    match parts.split_last() {
        Some((_, scopes)) => scopes,
        None => &[],
    }
}

pub fn last_in(parts: &[ListVec<u8>]) -> &[u8]
    ensures { result.now ≡ last_of parts.now }
{
    match parts.split_last() {
        Some((last, _)) => last.as_slice(),
        None => &[],
    }
}

/// Returns the only part of a plain name; nothing for a name with `::`.
pub fn plain_part(name: &Name) -> Option<&[u8]>
    ensures { option_map (λ n. n.now) result ≡ plain_part name.now.is_global name.now.parts }
{
    match name.parts.as_slice() {
        [part] if !name.is_global => Some(part.as_slice()),
        _ => None,
    }
}

/// Returns an unnamed label after a use, given the number of labels before the use.
fn label_after(symbols: &Symbols, before: u32, steps: usize) -> Option<Binding>
    ensures { unnamed_binding (table_of symbols.now) (before + steps - 1) ≡
        ok_or (option_map binding_in result) NoSuchLabel }
{
    let count = match steps.checked_sub(1) {
        // There are fewer labels than `usize` can count.
        Some(more) => (before as usize).checked_add(more)?,
        None => (before as usize).saturating_sub(1),
    };
    let index = symbols.defined(Key::Unnamed(count))?;
    Some(Binding::Defined(index))
}

/// Returns the meaning of an operand in its context, if it has one.
pub fn binding_at(symbols: &Symbols, context: Context, operand: &Expr) -> Option<Binding>
    ensures { binding_of (table_of symbols.now) context operand.now ≡
        ok_or (option_map binding_in result)
        (binding_fault (table_of symbols.now) context operand.now) }
{
    match operand.kind() {
        ExprKind::Plain(name) => plain_binding(symbols, context.scope as usize, name.as_slice()),
        ExprKind::Scoped(name) => match plain_part(name) {
            Some(part) => plain_binding(symbols, context.scope as usize, part),
            None => scoped_binding(symbols, context, name),
        },
        ExprKind::Cheap(name) => {
            let region = context.region as usize;
            let name = name.as_slice();
            let index = symbols.defined(Key::Cheap { region, name })?;
            Some(Binding::Defined(index))
        }
        ExprKind::Forward(steps) => label_after(symbols, context.unnamed, *steps),
        ExprKind::Backward(steps) => {
            let count = (context.unnamed as usize).checked_sub(*steps)?;
            let index = symbols.defined(Key::Unnamed(count))?;
            Some(Binding::Defined(index))
        }
        _ => None,
    }
}

/// Returns the error for a name without a meaning.
fn undefined(alloc: Global, name: &[u8]) -> Result<AsmFault, AllocError>
    ensures { IfOk result (λ e. e ≡ Undefined name.now) }
{
    let name = Vec::from_slice(alloc, name)?;
    Ok(AsmFault::Undefined(ListVec::from_vec(name)))
}

/// Returns the error for an operand without a meaning.
#[inline(never)]
fn binding_fault(
    symbols: &Symbols,
    context: Context,
    operand: &Expr,
) -> Result<AsmFault, AllocError>
    ensures { IfOk result (λ e. e ≡ binding_fault (table_of symbols.now) context operand.now) }
{
    let alloc = symbols.alloc;
    match operand.kind() {
        ExprKind::Plain(name) | ExprKind::Cheap(name) => undefined(alloc, name.as_slice()),
        ExprKind::Scoped(name) => {
            if let Some(part) = plain_part(name) {
                return undefined(alloc, part);
            }
            let parts = name.parts.as_slice();
            let opened = context.opened as usize;
            let scope = context.scope as usize;
            let text = name_text(alloc, name.is_global, parts)?;
            match scope_of(symbols, opened, scope, name.is_global, scopes_in(parts)) {
                None => Ok(AsmFault::NoSuchScope(text)),
                Some(_) => Ok(AsmFault::Undefined(text)),
            }
        }
        _ => Ok(AsmFault::NoSuchLabel),
    }
}

/// Returns the meaning of an operand in its context, or its error.
pub fn binding_of(symbols: &Symbols, context: Context, operand: &Expr) -> Result<Binding, AsmFault>
    ensures { Refines is_out_of_memory binding_in result
        (binding_of (table_of symbols.now) context operand.now) }
{
    match binding_at(symbols, context, operand) {
        Some(meaning) => Ok(meaning),
        None => Err(binding_fault(symbols, context, operand)?),
    }
}
