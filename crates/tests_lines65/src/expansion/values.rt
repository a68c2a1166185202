//! The environment of the tests: numbers and operators have values, and all names are defined or
//! none.

ghost use Rattle.std.specs.Prelude.{◌≡◌};
ghost use Rattle.tests_lines65.specs.Constants.{value_of};

use base65::{apply1, apply2};
use expand65::Knows;
use std::alloc::AllocError;
use syntax65::{Expr, ExprKind, Name};

/// The value of an expression without names.
fn value_of(expr: &Expr) -> Option<i64>
    ensures { result ≡ value_of expr.now }
{
    match expr.kind() {
        ExprKind::Number(value) => Some(*value as i64),
        ExprKind::Prefix(op, part) => {
            let part = value_of(part)?;
            Some(apply1(*op, part))
        }
        ExprKind::Binary(op, operands) => {
            let left = value_of(&operands.left)?;
            let right = value_of(&operands.right)?;
            apply2(*op, left, right)
        }
        _ => None,
    }
}

/// Expressions without names have values; all names are defined, or none.
#[derive(Drop)]
pub struct Constants {
    pub all: bool,
}

impl Knows for Constants {
    ghost use Rattle.tests_lines65.specs.Constants.{meaning_of};

    ghost meaning = { λ k. meaning_of k.all };

    fn value(&self, expr: &Expr) -> Result<Option<i64>, AllocError> {
        Ok(value_of(expr))
    }

    fn defined(&self, _name: &Name) -> bool {
        self.all
    }
}
