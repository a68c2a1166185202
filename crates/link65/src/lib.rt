//! The linker, which is fed modules record by record and links them once all are known.
#![tactic(auto)]

mod building;
mod evaluation;
mod fault;
mod files;
mod finishing;
pub mod laws;
mod linker;
mod linking;
mod mapping;
mod module_reader;
mod name_checks;
mod naming;
mod parts;
mod resolving;
mod texts;
mod values;

pub use fault::{LinkFault, ModuleLocation};
pub use files::files_of;
pub use linker::Linker;
pub use linking::Linked;
pub use texts::{fault_text, location_name};
