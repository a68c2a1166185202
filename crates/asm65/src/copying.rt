//! Copies of expressions.

ghost use Rattle.std.specs.Prelude.{◌≡◌, IfOk};

use base65::ListVec;
use std::alloc::{AllocError, Global};
use syntax65::{Expr, ExprKind, Identifier, Name, Operands};

/// Copies a name whose parts are separated by `::`.
fn copy_of_name(alloc: Global, name: &Name) -> Result<Name, AllocError>
    ensures { IfOk result (λ n. n ≡ name.now) }
{
    let mut parts = ListVec::new(alloc);
    for part in name.parts.as_slice() {
        parts.push(ListVec::copy_of(alloc, part.as_slice())?)?;
    }
    Ok(Name {
        is_global: name.is_global,
        parts,
    })
}

/// Copies an expression.
pub fn copy_of(alloc: Global, value: &Expr) -> Result<Expr, AllocError>
    ensures { IfOk result (λ e. e ≡ value.now) }
{
    let kind = match value.kind() {
        ExprKind::Number(number) => ExprKind::Number(*number),
        ExprKind::Here => ExprKind::Here,
        ExprKind::Plain(name) => ExprKind::Plain(Identifier::copy_of(alloc, name.as_slice())?),
        ExprKind::Scoped(name) => ExprKind::Scoped(copy_of_name(alloc, name)?),
        ExprKind::Cheap(name) => ExprKind::Cheap(Identifier::copy_of(alloc, name.as_slice())?),
        ExprKind::Forward(count) => ExprKind::Forward(*count),
        ExprKind::Backward(count) => ExprKind::Backward(*count),
        ExprKind::Prefix(op, part) => {
            let part = copy_of(alloc, part)?;
            ExprKind::Prefix(*op, Box::new(alloc, part)?)
        }
        ExprKind::Binary(op, operands) => {
            let left = copy_of(alloc, &operands.left)?;
            let right = copy_of(alloc, &operands.right)?;
            ExprKind::Binary(*op, Box::new(alloc, Operands { left, right })?)
        }
    };
    Ok(Expr::new(kind))
}
