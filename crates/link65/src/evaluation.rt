//! Evaluates forms and exports. Nested exports are on an explicit stack.

ghost use Rattle.std.specs.Prelude.{◌≡◌, ◌<◌, length, option_copied, slice_get, IfOk, OnOk, Some};
ghost use Rattle.link65.specs.declared.evaluation.EvalBlocked.TheVariants.{Fault};
ghost use Rattle.link65.specs.declared.parts.ModuleExport.{ModuleExport};
ghost use Rattle.link65.specs.declared.parts.ValueFault.TheVariants.{NoValue};
ghost use Rattle.link65.specs.Placed.{export_attempt, import_attempt, form_attempt, AreFinalStates, ExportStatesInvariant, IsFound, PreservesResults};
ghost use Rattle.link65.specs.Values.{base_of, provider_at, linkage};
ghost use Rattle.link65.specs.declared.evaluation.ExportState.TheVariants.{Untouched};

use crate::parts::{ModuleBindings, ModuleExport, Provider, ValueFault};
use base65::{apply1, apply2};
use object65::{Node, Norm};
use std::alloc::{AllocError, Global};

/// The state of an export.
#[derive(Clone, Copy)]
pub enum ExportState {
    Untouched,
    BeingEvaluated,
    Found(Result<i64, ValueFault>),
}

/// The reason why a form has no value so far.
#[derive(Clone, Copy)]
pub enum EvalBlocked {
    /// It has no value.
    Fault(ValueFault),
    /// It needs the export at this index first.
    Needs(usize),
}

/// The result of an attempt to evaluate an export.
#[derive(Clone, Copy)]
pub enum Attempt {
    /// Its value, or the error.
    Completed(Result<i64, ValueFault>),
    /// It needs the export at this index first.
    Needs(usize),
}

/// Returns the value of an import, its error, or the export that is needed first.
fn try_import(states: &[ExportState], provider: Provider) -> Result<i64, EvalBlocked>
    ensures { result ≡ import_attempt states.now provider }
{
    match provider {
        Provider::ByScript(value) => Ok(value),
        Provider::Nobody => Err(EvalBlocked::Fault(ValueFault::Unresolved)),
        Provider::ByModule(export) => match states.get(export) {
            None => Err(EvalBlocked::Fault(ValueFault::Unresolved)),
            Some(ExportState::Untouched) => Err(EvalBlocked::Needs(export)),
            Some(ExportState::BeingEvaluated) => Err(EvalBlocked::Fault(ValueFault::Circular)),
            Some(ExportState::Found(outcome)) => match outcome {
                Ok(value) => Ok(*value),
                Err(fault) => Err(EvalBlocked::Fault(*fault)),
            },
        },
    }
}

/// Returns the provider of a module's import; `Nobody` if there is no such module or import.
fn provider_at(bindings: Option<&ModuleBindings>, index: usize) -> Provider
    ensures { result ≡ provider_at (option_copied bindings.entry) index }
{
    match bindings {
        None => Provider::Nobody,
        Some(bindings) => match bindings.providers.as_slice().get(index) {
            Some(provider) => *provider,
            None => Provider::Nobody,
        },
    }
}

fn base_at(bindings: Option<&ModuleBindings>, section: usize) -> i64
    ensures { result ≡ base_of (option_copied bindings.entry) section }
{
    match bindings {
        None => 0,
        Some(bindings) => match bindings.bases.as_slice().get(section) {
            Some(base) => *base,
            None => 0,
        },
    }
}

/// Evaluates a form of a module with the exports known so far, or returns an export that it
/// needs first.
#[tactic(auto, using(std::proofs::lemmas::Int::wraps))]
pub fn try_form(
    form: &Norm,
    bindings: Option<&ModuleBindings>,
    states: &[ExportState],
) -> Result<i64, EvalBlocked>
    ensures { result ≡ form_attempt (option_copied bindings.entry) states.now form.now }
{
    match form.node() {
        Node::NumberNode(value) => Ok(*value),
        Node::SectionOffset(section, offset) => {
            let base = base_at(bindings, *section as usize);
            Ok(base.wrapping_add(*offset))
        }
        Node::ImportedName(index) => try_import(states, provider_at(bindings, *index as usize)),
        Node::Prefix(op, part) => {
            let value = try_form(part, bindings, states)?;
            Ok(apply1(*op, value))
        }
        Node::Binary(op, operands) => {
            let first = try_form(&operands.left, bindings, states)?;
            let second = try_form(&operands.right, bindings, states)?;
            apply2(*op, first, second).ok_or(EvalBlocked::Fault(ValueFault::NoValue))
        }
    }
}

/// Evaluates the export at an index with the exports known so far, or returns one that it needs
/// first.
fn try_export(
    modules: &[ModuleBindings],
    exports: &[ModuleExport],
    states: &[ExportState],
    index: usize,
) -> Attempt
    requires { index < length exports.now }
    ensures { result ≡ export_attempt modules.now states.now (slice_get exports.now index) }
{
    let export = &exports[index];
    match try_form(&export.form, modules.get(export.owner), states) {
        Ok(value) => Attempt::Completed(Ok(value)),
        Err(EvalBlocked::Fault(fault)) => Attempt::Completed(Err(fault)),
        Err(EvalBlocked::Needs(export)) => Attempt::Needs(export),
    }
}

/// Evaluates the export at an index and all that it needs.
fn evaluate_export(
    alloc: Global,
    modules: &[ModuleBindings],
    exports: &[ModuleExport],
    states: &mut [ExportState],
    root: usize,
) -> Result<(), AllocError>
    requires untouched { slice_get states.old root ≡ Some Untouched }
    requires invariant { ExportStatesInvariant (linkage modules.now exports.now) states.old }
    ensures invariant { OnOk result
        (ExportStatesInvariant (linkage modules.now exports.now) states.new) }
    ensures found { OnOk result (IsFound states.new root) }
    ensures kept { OnOk result (PreservesResults states.old states.new) }
{
    let mut stack: Vec<usize> = Vec::new(alloc);
    states[root] = ExportState::BeingEvaluated;
    let mut top = root;
    'walk: loop {
        match try_export(modules, exports, states, top) {
            Attempt::Needs(next) => {
                states[next] = ExportState::BeingEvaluated;
                stack.push(top)?;
                top = next;
            }
            Attempt::Completed(outcome) => {
                states[top] = ExportState::Found(outcome);
                match stack.pop() {
                    None => return Ok(()),
                    Some(below) => top = below,
                }
            }
        }
    }
}

/// Evaluates all exports, used or not.
pub fn evaluate_exports(
    alloc: Global,
    modules: &[ModuleBindings],
    exports: &[ModuleExport],
) -> Result<Vec<ExportState>, AllocError>
    ensures { IfOk result (λ states.
        AreFinalStates (linkage modules.now exports.now) states.items) }
{
    let mut states = vec![in alloc; ExportState::Untouched; exports.len()]?;
    for root in 0..states.len() {
        if let ExportState::Untouched = states[root] {
            evaluate_export(alloc, modules, exports, states.as_mut_slice(), root)?;
        }
    }
    Ok(states)
}
