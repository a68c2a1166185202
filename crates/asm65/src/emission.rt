//! Emits the pieces of statements into sections, or defers them.

pub mod statements;
pub mod values;

use semantics65::{Context, LocationRef};

/// The location and the context of a piece of a statement.
#[derive(Clone, Copy)]
pub struct PieceContext<'a> {
    pub at: LocationRef<'a>,
    pub context: Context,
}
