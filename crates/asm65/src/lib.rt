//! The assembler: a source file becomes a relocatable object.
#![tactic(auto)]

mod assembler;
mod assembling;
mod copying;
mod driver;
mod emission;
mod files;
mod finish;
mod naming;
mod resolving;
mod statement;
mod texts;

pub use assembling::{AsmJob, Assembly, Define, assemble};
pub use texts::Diagnostic;
