//! The command ar65: from its command line to its files and text.
#![tactic(auto)]

mod archiving;
mod fault;
pub mod laws;
mod members;

pub use archiving::{ArchiveResult, archive};
pub use fault::{ArchiveFault, error_message};
pub use members::MemberFile;
