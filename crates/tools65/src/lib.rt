//! The commands of bin65.
#![tactic(auto)]

mod archiving;
mod assembling;
pub mod laws;
mod linking;
mod running;

pub use base65::{OutputFile, Seed};
pub use cli65::{
    ArchiveArgs, AssembleArgs, Define, Line, LineFault, LinkArgs, Operation, read_line,
};
pub use output65::{DiskStore, Outcome, Status, Stream, print, write_file};
pub use running::{run, run_line, run_line_with_streams, run_with_streams};
