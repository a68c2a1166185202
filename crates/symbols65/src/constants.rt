//! Evaluates expressions at a line: forms, address sizes, constant values, and the addressing
//! modes of instructions.

ghost use Rattle.std.specs.Prelude.{◌≡◌, Ok, IfOk, Option, Some, if◌then◌else◌};
ghost use Rattle.syntax65.specs.Trees.{Tree, binary, name, unary};
ghost use Rattle.semantics65.specs.Contents.{operand_tree};
ghost use Rattle.semantics65.specs.Layout.{context_of, missing_scope_fault, own_size};
ghost use Rattle.semantics65.specs.Norms.{literal_in, constant_in, size_by, size_of, size_of_binding, size_of_value, address_mode, first_of, mode_for, mode_of};
ghost use Rattle.symbols65.specs.Evaluations.{EvaluatesTree, HasFinal, IsEvaluated, IsEvaluation};
ghost use Rattle.symbols65.specs.Measuring.{ChecksStatement};
ghost use Rattle.symbols65.specs.Resolving.{IsReference, binding_in, plain_form};
ghost use Rattle.symbols65.specs.Views.{table_of};
ghost use Rattle.std.specs.Option.{option_and_then};
ghost use Rattle.semantics65.specs.Symbols.{Symbols as Table};
ghost use Rattle.syntax65.specs.declared.lexing.tokens.AddressSize.{AddressSize};
ghost use Rattle.syntax65.specs.declared.lexing.tokens.AddressSize.TheVariants.{ZeroPage};
ghost use Rattle.semantics65.specs.declared.contexts.Context.{Context};

use crate::measuring::LineState;
use crate::resolving::{
    Binding, address, binding_at, final_binding_form, find_plain_form, folded_form_if_any,
    name_text, plain_form, plain_form_of_binding, plain_part, scope_of, scopes_in,
};
use crate::table::Symbols;
use ast65::{AsmFault, Index, Operand};
use base65::{Op1, Op2};
use object65::{Node, Norm};
use semantics65::Context;
use std::alloc::{AllocError, Global};
use syntax65::{AddressSize, Expr, ExprKind, Mnemonic, Mode, Name, opcode};

/// Returns the value of a form that is a number.
pub fn literal_of(form: &Norm) -> Option<i64>
    ensures { result ≡ literal_in (Ok form.now) }
{
    match form.node() {
        Node::NumberNode(value) => Some(*value),
        _ => None,
    }
}

/// Returns the value of an expression if it is constant by the definitions so far.
pub fn constant(
    symbols: &Symbols,
    context: Context,
    value: &Expr,
) -> Result<Option<i64>, AllocError>
    ensures { IfOk result (λ v. v ≡ constant_in (table_of symbols.now) context value.now) }
{
    match find_plain_form(symbols, context, value)? {
        Some(form) => Ok(literal_of(&form)),
        None => Ok(None),
    }
}

fn size_of_value(value: i64) -> AddressSize
    ensures { result ≡ size_of_value value }
{
    if 0 <= value && value < 256 {
        AddressSize::ZeroPage
    } else {
        AddressSize::Absolute
    }
}

fn size_of_binding(symbols: &Symbols, meaning: Binding) -> AddressSize
    ensures { result ≡ size_of_binding (table_of symbols.now) (Ok (binding_in meaning)) }
{
    match meaning {
        Binding::Defined(index) => match symbols.definition(index) {
            Some(definition) => definition.size,
            None => AddressSize::Absolute,
        },
        Binding::Imported(key) => match symbols.imports.get_index(key) {
            Some(name) if symbols.is_zero_page(name.as_slice()) => AddressSize::ZeroPage,
            _ => AddressSize::Absolute,
        },
    }
}

/// The evaluation of an expression by the symbol table of the statements so far.
#[derive(Drop)]
pub struct Evaluation {
    /// The normal form, if it is final, a number or an address. Folding makes numbers only from these, so no other form,
    /// which may be large, is copied.
    pub form: Option<Norm>,
    /// Whether the form is final: whether it stays whatever statements follow.
    pub is_final: bool,
    pub size: AddressSize,
}

/// Creates an evaluation from a form, which may be final, and from the size that the expression has without a value.
fn evaluation_of(form: Option<Norm>, is_final: bool, other: AddressSize) -> Evaluation
    ensures form { result.form ≡ (if is_final then form else option_and_then plain_form form) }
    ensures finality { result.is_final ≡ is_final }
    ensures size { result.size ≡ size_by other (option_and_then (λ f. literal_in (Ok f)) form) }
{
    let Some(form) = form else {
        return Evaluation {
            form: None,
            is_final,
            size: other,
        };
    };
    let size = match literal_of(&form) {
        Some(value) => size_of_value(value),
        None => other,
    };
    let form = if is_final {
        Some(form)
    } else {
        plain_form(&form)
    };
    Evaluation {
        form,
        is_final,
        size,
    }
}

/// Evaluates a reference.
fn evaluate_reference(before: LineState<'_>, operand: &Expr) -> Result<Evaluation, AllocError>
    requires { IsReference operand.now }
    ensures { IfOk result (IsEvaluation (table_of before.entry.symbols.now)
        (context_of before.entry.cursor.now) (own_size before.entry.cursor.now) operand.now) }
{
    let context = before.cursor.context();
    let Some(meaning) = binding_at(before.symbols, context, operand) else {
        // An undefined symbol may still be defined anywhere.
        return Ok(evaluation_of(None, false, AddressSize::Absolute));
    };
    let other = size_of_binding(before.symbols, meaning);
    if let Some(form) = final_binding_form(before.symbols, context, operand, meaning)? {
        return Ok(evaluation_of(Some(form), true, other));
    }
    let form = plain_form_of_binding(before.symbols, meaning)?;
    Ok(evaluation_of(form, false, other))
}

/// Evaluates a prefix operation, given the evaluation of its operand.
fn evaluate_prefix(alloc: Global, op: Op1, part: Evaluation) -> Result<Evaluation, AllocError>
    ensures { (y : Table) (s : Context) (own : AddressSize) (e : Tree) →
        IsEvaluation y s own e part → IfOk result (IsEvaluation y s own (unary op e)) }
{
    // Without a constant value, the result of a byte selector has one byte.
    let other = match op {
        Op1::LowByte | Op1::HighByte | Op1::BankByte => AddressSize::ZeroPage,
        _ => part.size,
    };
    let is_final = part.is_final;
    let Some(part) = part.form else {
        return Ok(evaluation_of(None, is_final, other));
    };
    let form = folded_form_if_any(Norm::prefix(alloc, op, part))?;
    Ok(evaluation_of(form, is_final, other))
}

/// Evaluates a binary operation, given the evaluations of its operands.
fn evaluate_binary(
    alloc: Global,
    op: Op2,
    left: Evaluation,
    right: Evaluation,
) -> Result<Evaluation, AllocError>
    ensures { (y : Table) (s : Context) (own : AddressSize) (e g : Tree) →
        IsEvaluation y s own e left → IsEvaluation y s own g right →
        IfOk result (IsEvaluation y s own (binary op e g)) }
{
    // Without a constant value, the result has the larger of both sizes.
    let other = match left.size {
        AddressSize::ZeroPage => right.size,
        AddressSize::Absolute => AddressSize::Absolute,
    };
    let is_final = left.is_final && right.is_final;
    let (Some(left), Some(right)) = (left.form, right.form) else {
        return Ok(evaluation_of(None, is_final, other));
    };
    let form = folded_form_if_any(Norm::binary(alloc, op, left, right))?;
    Ok(evaluation_of(form, is_final, other))
}

/// Rejects a name with `::` whose scope doesn't exist.
#[inline(never)]
fn check_name(symbols: &Symbols, scope: usize, written: &Name) -> Result<(), AsmFault>
    ensures { ChecksStatement result (missing_scope_fault (table_of symbols.now).scopes scope
        (name written.now.is_global written.now.parts)) }
{
    if plain_part(written).is_some() {
        return Ok(());
    }
    let parts = written.parts.as_slice();
    let opened = symbols.scope_count();
    match scope_of(symbols, opened, scope, written.is_global, scopes_in(parts)) {
        Some(_) => Ok(()),
        None => {
            let name = name_text(symbols.alloc, written.is_global, parts)?;
            Err(AsmFault::NoSuchScope(name))
        }
    }
}

/// Evaluates an expression in the context of a statement, in one walk; the error is its first
/// name with `::` whose scope doesn't exist.
pub fn evaluate(before: LineState<'_>, value: &Expr) -> Result<Evaluation, AsmFault>
    ensures { EvaluatesTree (table_of before.entry.symbols.now)
        (context_of before.entry.cursor.now) (own_size before.entry.cursor.now) value.now result }
{
    let alloc = before.symbols.alloc;
    match value.kind() {
        ExprKind::Number(number) => {
            let value = i64::from(*number);
            Ok(Evaluation {
                form: Some(Norm::new(Node::NumberNode(value))),
                is_final: true,
                size: size_of_value(value),
            })
        }
        ExprKind::Here => Ok(Evaluation {
            form: Some(address(before.cursor.context())),
            is_final: true,
            size: before.cursor.segment().size,
        }),
        ExprKind::Prefix(op, part) => {
            let part = evaluate(before, part)?;
            Ok(evaluate_prefix(alloc, *op, part)?)
        }
        ExprKind::Binary(op, operands) => {
            let left = evaluate(before, &operands.left)?;
            let right = evaluate(before, &operands.right)?;
            Ok(evaluate_binary(alloc, *op, left, right)?)
        }
        ExprKind::Scoped(name) => {
            check_name(before.symbols, before.cursor.scope() as usize, name)?;
            Ok(evaluate_reference(before, value)?)
        }
        ExprKind::Plain(_) | ExprKind::Cheap(_) | ExprKind::Forward(_) | ExprKind::Backward(_) => {
            Ok(evaluate_reference(before, value)?)
        }
    }
}

/// Returns the addressing mode of an address of this size.
fn mode_for(size: AddressSize, index: Option<Index>) -> Mode
    ensures { result ≡ mode_for size index }
{
    match (size, index) {
        (AddressSize::ZeroPage, None) => Mode::ZeroPage,
        (AddressSize::ZeroPage, Some(Index::X)) => Mode::ZeroPageX,
        (AddressSize::ZeroPage, Some(Index::Y)) => Mode::ZeroPageY,
        (AddressSize::Absolute, None) => Mode::Absolute,
        (AddressSize::Absolute, Some(Index::X)) => Mode::AbsoluteX,
        (AddressSize::Absolute, Some(Index::Y)) => Mode::AbsoluteY,
    }
}

/// Returns the first of two addressing modes that the instruction has, if it has one of them.
fn first_of(mnemonic: Mnemonic, first: Mode, second: Mode) -> Option<Mode>
    ensures { result ≡ first_of mnemonic first second }
{
    if opcode(mnemonic, first).is_some() {
        return Some(first);
    }
    opcode(mnemonic, second)?;
    Some(second)
}

/// Returns the addressing mode of an address operand, if the instruction has one. A prefix forces the size. Without a
/// prefix, the expression's size comes first, then the other size.
fn address_mode(
    mnemonic: Mnemonic,
    prefix: Option<AddressSize>,
    size: AddressSize,
    index: Option<Index>,
) -> Option<Mode>
    ensures { result ≡ address_mode mnemonic prefix size index }
{
    let short = mode_for(AddressSize::ZeroPage, index);
    let long = mode_for(AddressSize::Absolute, index);
    match (prefix, size) {
        (Some(AddressSize::ZeroPage), _) => first_of(mnemonic, short, short),
        (Some(AddressSize::Absolute), _) => first_of(mnemonic, long, long),
        (None, AddressSize::ZeroPage) => first_of(mnemonic, short, long),
        (None, AddressSize::Absolute) => first_of(mnemonic, long, short),
    }
}

/// Returns the value of an evaluated expression, if it is constant.
pub fn constant_value(found: &Option<Evaluation>) -> Option<i64>
    ensures { (y : Table) (s : Context) (own : AddressSize) (e : Tree) →
        IsEvaluated y s own (Some e) found.now → result ≡ constant_in y s e }
{
    literal_of(found.as_ref()?.form.as_ref()?)
}

/// Returns the address size of an evaluated expression.
pub fn evaluated_size(found: &Option<Evaluation>) -> AddressSize
    ensures { (y : Table) (s : Context) (own : AddressSize) (e : Tree) →
        IsEvaluated y s own (Some e) found.now → result ≡ size_of y s own e }
{
    match found {
        Some(found) => found.size,
        None => AddressSize::Absolute,
    }
}

/// Returns the final form of an evaluated expression, if that is evident already.
#[inline(always)]
pub fn final_form(found: Option<Evaluation>) -> Option<Norm>
    ensures { (y : Table) (s : Context) (own : AddressSize) (e : Option Tree) →
        IsEvaluated y s own e found → HasFinal y s e result }
{
    match found {
        Some(found) if found.is_final => found.form,
        _ => None,
    }
}

/// Returns the addressing mode of an instruction, given the evaluation of its operand, if the instruction has that mode.
pub fn mode(mnemonic: Mnemonic, operand: &Operand, found: &Option<Evaluation>) -> Option<Mode>
    ensures { (y : Table) (s : Context) (own : AddressSize) →
        IsEvaluated y s own (operand_tree operand.now) found.now →
        result ≡ mode_of y s own mnemonic operand.now }
{
    match operand {
        Operand::Absent => first_of(mnemonic, Mode::Implied, Mode::Accumulator),
        Operand::Accumulator => first_of(mnemonic, Mode::Accumulator, Mode::Accumulator),
        Operand::Immediate(_) => first_of(mnemonic, Mode::Immediate, Mode::Immediate),
        Operand::Address { prefix, index, .. } => {
            if opcode(mnemonic, Mode::Relative).is_some() {
                // A branch accepts neither a prefix nor an index.
                return match (prefix, index) {
                    (None, None) => Some(Mode::Relative),
                    _ => None,
                };
            }
            address_mode(mnemonic, *prefix, evaluated_size(found), *index)
        }
        Operand::Indirect(_) => first_of(mnemonic, Mode::Indirect, Mode::Indirect),
        Operand::IndirectX(_) => first_of(mnemonic, Mode::IndirectX, Mode::IndirectX),
        Operand::IndirectY(_) => first_of(mnemonic, Mode::IndirectY, Mode::IndirectY),
    }
}
