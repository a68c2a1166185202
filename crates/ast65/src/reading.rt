//! Parses the tokens of a line into a label and a statement.

mod directives;
mod keywords;
mod operands;
mod statements;
mod tokens;

pub use operands::operand;
pub use statements::{label, split_instruction, statement};
