//! The layout of a statement at its line, or its first error there.

mod bytes;
mod kinds;
mod reserves;
mod trees;

ghost use Rattle.std.specs.Prelude.{◌≡◌, ◌+◌, ◌≤◌, false, nat_lt, IfOk};
ghost use Rattle.base65.specs.Outcome.{Refines};
ghost use Rattle.object65.specs.Objects.{section_limit};
ghost use Rattle.ast65.specs.Faults.{is_out_of_memory};
ghost use Rattle.semantics65.specs.declared.contexts.EncodingChoice.TheVariants.{Undecided};
ghost use Rattle.ast65.specs.declared.language.Statement.TheVariants.{Instruction};
ghost use Rattle.semantics65.specs.Contents.{operand_tree};
ghost use Rattle.semantics65.specs.Layout.{own_size, context_of, unless_fault};
ghost use Rattle.symbols65.specs.Views.{table_of};
ghost use Rattle.symbols65.specs.Evaluations.{AreEvaluations, HasFinal, HaveFinals, first_tree, items_in};
ghost use Rattle.symbols65.specs.Measuring.{count_if_it_fits, layout_result, naming_fault};

pub use self::bytes::check_unread;
use self::bytes::instruction;
pub use self::kinds::needs_section;
use self::kinds::{check_defined, check_global_only, check_opened, layout_by_kind};
pub use self::trees::{search_operand, search_statement};
use self::trees::{Evaluations, evaluate_optional, evaluate_trees, operand_value};
use crate::constants::final_form;
use crate::cursor::Cursor;
use crate::table::Symbols;
use ast65::{AsmFault, Operand, Statement};
use object65::Norm;
use semantics65::EncodingChoice;
use syntax65::{AddressSize, Mnemonic};

/// The state before a statement: the symbol table of the statements before it, and the cursor.
#[derive(Clone, Copy)]
pub struct LineState<'a> {
    pub symbols: &'a Symbols,
    pub cursor: &'a Cursor,
}

/// The layout of a statement.
#[derive(Clone, Copy)]
pub struct StatementLayout {
    /// The number of bytes that it emits.
    pub length: u32,
    /// The address size of the symbol that it defines.
    pub size: AddressSize,
    /// The multiple to which it aligns its section.
    pub alignment: u32,
    pub encoding: EncodingChoice,
}

/// The analysis of a statement at its line.
#[derive(Drop)]
pub struct Analysis {
    pub measured: StatementLayout,
    /// The final form of the first expression of a statement other than a list, if that is evident already.
    pub form: Option<Norm>,
    /// The final forms of the elements of a list, each at the index of its element; empty if all elements are
    /// numbers.
    pub forms: Vec<Option<Norm>>,
}

/// Evaluates the expressions of a statement. Rejects the statement if there is an error in its names or scopes.
fn check_naming(before: LineState<'_>, statement: &Statement) -> Result<Evaluations, AsmFault>
    ensures naming { Refines is_out_of_memory (λ _. tt {0}) result (unless_fault (naming_fault
        (table_of before.entry.symbols.now) (context_of before.entry.cursor.now)
        statement.now) tt) }
    ensures found { IfOk result (AreEvaluations (table_of before.entry.symbols.now)
        (context_of before.entry.cursor.now) (own_size before.entry.cursor.now)
        statement.now) }
{
    let context = before.cursor.context();
    let scope = context.scope as usize;
    check_global_only(scope, statement)?;
    let found = evaluate_trees(before, statement)?;
    check_opened(before.symbols, scope, statement)?;
    check_defined(before.symbols, context, statement)?;
    Ok(found)
}

/// Returns `length`, or an error if the current section has fewer remaining bytes.
#[tactic(auto, using(crate::proofs::StatementLayouts::same_test))]
fn fit(cursor: &Cursor, length: usize) -> Result<u32, AsmFault>
    ensures { result ≡ count_if_it_fits cursor.now length }
{
    let remaining = cursor.remaining_bytes();
    if length > remaining as usize {
        return Err(AsmFault::SectionTooLarge);
    }
    Ok(length as u32)
}

/// Returns the layout of a statement that emits no bytes.
fn layout_without_bytes(cursor: &Cursor) -> StatementLayout
    ensures fits { nat_lt section_limit
        ((context_of cursor.now).offset + 0) ≡ false }
    ensures length { result.length ≡ 0 }
    ensures size { result.size ≡ own_size cursor.now }
    ensures alignment { result.alignment ≡ 1 }
    ensures encoding { result.encoding ≡ Undecided }
{
    StatementLayout {
        length: 0,
        size: cursor.segment().size,
        alignment: 1,
        encoding: EncodingChoice::Undecided,
    }
}

/// Computes the layout of a statement, and the final forms that are evident already; or returns its first error at its
/// line.
pub fn lay_out_statement(before: LineState<'_>, statement: &Statement) -> Result<Analysis, AsmFault>
    ensures measured { Refines is_out_of_memory (λ a. a.measured) result (layout_result
        (table_of before.entry.symbols.now) before.entry.cursor.now
        statement.now) }
    ensures fits { IfOk result (λ a.
        (context_of before.entry.cursor.now).offset + a.measured.length ≤ section_limit) }
    ensures form { IfOk result (λ a. HasFinal (table_of before.entry.symbols.now)
        (context_of before.entry.cursor.now) (first_tree statement.now) a.form) }
    ensures forms { IfOk result (λ a. HaveFinals (table_of before.entry.symbols.now)
        (context_of before.entry.cursor.now) (items_in statement.now) a.forms.items) }
{
    let found = check_naming(before, statement)?;
    let measured = layout_by_kind(before, statement, &found)?;
    let Evaluations { first, forms, .. } = found;
    let form = final_form(first);
    Ok(Analysis {
        measured,
        form,
        forms,
    })
}

/// Computes the layout of an instruction, or its first error at its line. Instructions have a function of their
/// own, since most statements are instructions.
pub fn lay_out_instruction(
    before: LineState<'_>,
    mnemonic: Mnemonic,
    operand: &Operand,
) -> Result<Analysis, AsmFault>
    ensures measured { Refines is_out_of_memory (λ a. a.measured) result (layout_result
        (table_of before.entry.symbols.now) before.entry.cursor.now
        (Instruction mnemonic operand.now)) }
    ensures fits { IfOk result (λ a.
        (context_of before.entry.cursor.now).offset + a.measured.length ≤ section_limit) }
    ensures form { IfOk result (λ a. HasFinal (table_of before.entry.symbols.now)
        (context_of before.entry.cursor.now) (operand_tree operand.now) a.form) }
{
    let found = evaluate_optional(before, operand_value(operand))?;
    let measured = instruction(before.cursor, mnemonic, operand, &found)?;
    let form = final_form(found);
    Ok(Analysis {
        measured,
        form,
        forms: Vec::new(before.symbols.alloc),
    })
}
