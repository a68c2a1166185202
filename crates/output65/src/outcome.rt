//! The outcome of a command.

use base65::{ListVec, OutputFile};

/// The exit status of a run.
#[derive(Clone, Copy, Debug, PartialEq, Eq)]
pub enum Status {
    Success = 0,
    Failure = 1,
}

/// The result of a command, before anything is printed: a text for each stream, files in the order
/// in which they are written, and the status.
#[derive(Drop)]
pub struct Outcome {
    /// The text for standard output.
    pub out: ListVec<u8>,
    /// The text for standard error.
    pub err: ListVec<u8>,
    pub outputs: ListVec<OutputFile>,
    pub status: Status,
}
