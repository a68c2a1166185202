//! Expressions as trees.

mod operators;
mod reading;
mod trees;

pub use operators::{ExprFault, is_reserved};
pub use reading::{MAX_DEPTH, read_expr};
pub use trees::{Expr, ExprKind, Identifier, Name, Operands};
