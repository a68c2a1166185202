//! Parses command lines with `clap`, and formats the messages of the commands.
#![tactic(auto)]

mod commands;
mod defining;
mod fault;
pub mod laws;
mod line;
mod messages;
mod numbers;
mod reading;

pub use fault::LineFault;
pub use line::{ArchiveArgs, AssembleArgs, Define, Line, LinkArgs, Operation};
pub use messages::{fault_message, file_message, line_message};
pub use reading::read_line;
