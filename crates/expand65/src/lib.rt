//! The preprocessor: expands macros, repeats, conditions and included files, line by line.
#![tactic(auto)]

mod blocks;
mod conditions;
mod expander;
mod file;
mod includes;
mod input;
mod input_stack;
mod knows;
pub mod laws;
mod line;
mod line_start;
mod macro_replay;
mod macros;
mod preprocessor;
mod repeats;
mod skipping;

pub use blocks::{BlockEnd, BlockKind, WholeBlock};
pub use expander::{Expander, Options, Statement};
pub use file::OpenFile;
pub use includes::sibling_path;
pub use input::{LineSource, number_line};
pub use input_stack::{Input, InputStack};
pub use knows::Knows;
pub use line::StoredLine;
pub use line_start::{
    ConditionKind, Directive, after_first, closes_brace, first_directive, is_comma, label_len,
    name_in, opens_brace, opens_parenthesis, string_of,
};
pub use macro_replay::{Body, Replay};
pub use skipping::Peeked;
pub use syntax65::{ExpandFault, SourceLocation};
