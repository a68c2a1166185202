//! The command ld65: from its command line to the linked files.
#![tactic(auto)]

mod fault;
pub mod laws;
mod linking;
mod members;

pub use fault::{LinkCommandFault, error_message};
pub use link65::{LinkFault, Linked};
pub use linking::link_files;
