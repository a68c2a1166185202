//! The environment in which conditions are evaluated.

ghost use Rattle.std.specs.Prelude.{◌≡◌, IfOk};
ghost use Rattle.expand65.specs.State.{EnvironmentView};

use std::alloc::AllocError;
use syntax65::{Expr, Name};

/// The names and values known at a line.
pub trait Knows {
    /// The meaning of expressions and names for this value.
    ghost meaning: { Self → EnvironmentView };

    /// Returns the value of an expression, if it is constant.
    fn value(&self, expr: &Expr) -> Result<Option<i64>, AllocError>
        ensures { IfOk result (λ v. v ≡ (meaning self.now).value expr.now) };

    /// Returns whether a name is that of a label or constant so far.
    fn defined(&self, name: &Name) -> bool
        ensures { result ≡ (meaning self.now).defined name.now.is_global name.now.parts };
}
