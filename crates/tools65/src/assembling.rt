//! Assembles a source into a file.

pub mod diagnostic;
pub mod job;
pub mod naming;
pub mod outcome;
