//! The expressions of statements, each of which is evaluated once.

ghost use Rattle.std.specs.Prelude.{◌≡◌, IfOk, Option, Some, [], ◌++◌};
ghost use Rattle.std.specs.Option.{option_map};
ghost use Rattle.base65.specs.Outcome.{Refines};
ghost use Rattle.ast65.specs.Faults.{is_out_of_memory};
ghost use Rattle.semantics65.specs.Contents.{operand_tree};
ghost use Rattle.semantics65.specs.Layout.{context_of, missing_scopes_fault, item_trees, optional_tree, own_size, trees_of, unless_fault};
ghost use Rattle.symbols65.specs.Evaluations.{AreEvaluations, HaveFinals, IsEvaluated, first_tree, second_tree};
ghost use Rattle.symbols65.specs.Views.{table_of};

use crate::constants::{Evaluation, evaluate, final_form};
use crate::measuring::LineState;
use crate::resolving::search_constants;
use crate::table::Symbols;
use ast65::{AsmFault, Item, ItemsKind, Operand, Statement};
use object65::Norm;
use semantics65::Context;
use std::alloc::AllocError;
use syntax65::Expr;

/// The evaluations of the expressions of a statement.
#[derive(Drop)]
pub struct Evaluations {
    /// The evaluation of the first of one or two expressions.
    pub first: Option<Evaluation>,
    pub second: Option<Evaluation>,
    /// The final forms of the elements of a list, each at the index of its element; empty if all elements are
    /// numbers.
    pub forms: Vec<Option<Norm>>,
}

/// Evaluates an optional expression.
pub fn evaluate_optional(
    before: LineState<'_>,
    value: Option<&Expr>,
) -> Result<Option<Evaluation>, AsmFault>
    ensures scopes { Refines is_out_of_memory (λ _. tt {0}) result (unless_fault
        (missing_scopes_fault (table_of before.entry.symbols.now).scopes
        (context_of before.entry.cursor.now).scope
        (optional_tree (option_map (λ e. e.now) value.entry))) tt) }
    ensures found { IfOk result (IsEvaluated (table_of before.entry.symbols.now)
        (context_of before.entry.cursor.now) (own_size before.entry.cursor.now)
        (option_map (λ e. e.now) value.entry)) }
{
    match value {
        Some(value) => {
            let found = evaluate(before, value)?;
            Ok(Some(found))
        }
        None => Ok(None),
    }
}

/// Returns the expression of an operand, if it has one.
pub fn operand_value(operand: &Operand) -> Option<&Expr>
    ensures { option_map (λ e. e.now) result ≡ operand_tree operand.now }
{
    match operand {
        Operand::Absent | Operand::Accumulator => None,
        Operand::Immediate(value)
        | Operand::Indirect(value)
        | Operand::IndirectX(value)
        | Operand::IndirectY(value)
        | Operand::Address { value, .. } => Some(value),
    }
}

/// Returns the first expression of a statement other than a list, if it has one.
fn first_value(statement: &Statement) -> Option<&Expr>
    ensures { option_map (λ e. e.now) result ≡ first_tree statement.now }
{
    match statement {
        Statement::Constant { value, .. } | Statement::Assert { value, .. } => Some(value),
        Statement::Instruction { operand, .. } => operand_value(operand),
        Statement::Reserve { count, .. } => Some(count),
        Statement::Align { alignment, .. } => Some(alignment),
        Statement::Incbin { start, .. } => start.get(),
        _ => None,
    }
}

/// Returns the second expression of a statement other than a list, if it has one.
fn second_value(statement: &Statement) -> Option<&Expr>
    ensures { option_map (λ e. e.now) result ≡ second_tree statement.now }
{
    match statement {
        Statement::Reserve { value, .. } | Statement::Align { value, .. } => value.get(),
        Statement::Incbin { len, .. } => len.get(),
        _ => None,
    }
}

/// Evaluates the elements of a list, and returns the final form of each, if it is evident already.
#[inline(never)]
fn evaluate_items(before: LineState<'_>, items: &[Item]) -> Result<Vec<Option<Norm>>, AsmFault>
    ensures scopes { Refines is_out_of_memory (λ _. tt {0}) result (unless_fault
        (missing_scopes_fault (table_of before.entry.symbols.now).scopes
        (context_of before.entry.cursor.now).scope (item_trees items.now)) tt) }
    ensures forms { IfOk result (λ forms. HaveFinals (table_of before.entry.symbols.now)
        (context_of before.entry.cursor.now) items.now forms.items) }
{
    let mut forms = Vec::with_capacity(before.symbols.alloc, items.len())?;
    for item in items {
        let value = match item {
            Item::Value(value) => Some(value),
            Item::StringLiteral(_) => None,
        };
        let found = evaluate_optional(before, value)?;
        forms.push(final_form(found))?;
    }
    Ok(forms)
}

/// Evaluates two optional expressions, in order.
pub fn evaluate_two(
    before: LineState<'_>,
    first: Option<&Expr>,
    second: Option<&Expr>,
) -> Result<Evaluations, AsmFault>
    ensures scopes { Refines is_out_of_memory (λ _. tt {0}) result (unless_fault
        (missing_scopes_fault (table_of before.entry.symbols.now).scopes
        (context_of before.entry.cursor.now).scope
        (optional_tree (option_map (λ e. e.now) first.entry)
        ++ optional_tree (option_map (λ e. e.now) second.entry))) tt) }
    ensures first { IfOk result (λ found. IsEvaluated (table_of before.entry.symbols.now)
        (context_of before.entry.cursor.now) (own_size before.entry.cursor.now)
        (option_map (λ e. e.now) first.entry) found.first) }
    ensures second { IfOk result (λ found. IsEvaluated (table_of before.entry.symbols.now)
        (context_of before.entry.cursor.now) (own_size before.entry.cursor.now)
        (option_map (λ e. e.now) second.entry) found.second) }
    ensures forms { IfOk result (λ found. found.forms.items ≡ []) }
{
    let first = evaluate_optional(before, first)?;
    let second = evaluate_optional(before, second)?;
    Ok(Evaluations {
        first,
        second,
        forms: Vec::new(before.symbols.alloc),
    })
}

/// Evaluates the expressions of a statement. The error is its first name with `::` whose scope doesn't exist.
pub fn evaluate_trees(before: LineState<'_>, statement: &Statement) -> Result<Evaluations, AsmFault>
    ensures scopes { Refines is_out_of_memory (λ _. tt {0}) result (unless_fault
        (missing_scopes_fault (table_of before.entry.symbols.now).scopes
        (context_of before.entry.cursor.now).scope (trees_of statement.now)) tt) }
    ensures found { IfOk result (AreEvaluations (table_of before.entry.symbols.now)
        (context_of before.entry.cursor.now) (own_size before.entry.cursor.now)
        statement.now) }
{
    let Statement::Values { items, .. } = statement else {
        let first = first_value(statement);
        let second = second_value(statement);
        return evaluate_two(before, first, second);
    };
    let forms = match items.kind() {
        // Numbers need no evaluation.
        ItemsKind::Numbers(_) => Vec::new(before.symbols.alloc),
        ItemsKind::Mixed(items) => evaluate_items(before, items.as_slice())?,
    };
    Ok(Evaluations {
        first: None,
        second: None,
        forms,
    })
}

/// Searches for the forms of the constants in an optional expression.
fn search_optional(
    symbols: &mut Symbols,
    context: Context,
    value: Option<&Expr>,
) -> Result<(), AllocError>
    ensures { table_of symbols.new ≡ table_of symbols.old }
{
    match value {
        Some(value) => search_constants(symbols, context, value),
        None => Ok(()),
    }
}

/// Searches for the forms of the constants in an operand, and stores the results in the symbol table.
pub fn search_operand(
    symbols: &mut Symbols,
    context: Context,
    operand: &Operand,
) -> Result<(), AllocError>
    ensures { table_of symbols.new ≡ table_of symbols.old }
{
    if !symbols.has_unresolved {
        return Ok(());
    }
    search_optional(symbols, context, operand_value(operand))
}

/// Searches for the forms of the constants in a statement, and stores the results in the symbol table.
pub fn search_statement(
    symbols: &mut Symbols,
    context: Context,
    statement: &Statement,
) -> Result<(), AllocError>
    ensures { table_of symbols.new ≡ table_of symbols.old }
{
    if !symbols.has_unresolved {
        return Ok(());
    }
    let Statement::Values { items, .. } = statement else {
        search_optional(symbols, context, first_value(statement))?;
        return search_optional(symbols, context, second_value(statement));
    };
    let ItemsKind::Mixed(items) = items.kind() else {
        return Ok(());
    };
    for item in items.as_slice() {
        if let Item::Value(value) = item {
            search_constants(symbols, context, value)?;
        }
    }
    Ok(())
}
