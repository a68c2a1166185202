//! The meaning of statements: their layout, their content in the object, and the object of a
//! module.
#![tactic(auto)]

mod contents;
mod contexts;

pub use contents::{Declaration, Segment};
pub use contexts::{Context, EncodingChoice, GLOBAL_SCOPE, LocationRef};
