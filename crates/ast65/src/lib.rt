//! Statements, errors in sources, and the statement parser, which parses the tokens of a line into
//! a label and a statement.
#![tactic(auto)]

mod fault;
mod language;
pub mod laws;
mod reading;

pub use fault::AsmFault;
pub use language::{IncbinRange, Index, Item, Items, ItemsKind, Operand, OptionalExpr, Statement};
pub use reading::{label, operand, split_instruction, statement};
