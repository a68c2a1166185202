//! Expression trees.

ghost use Rattle.std.specs.Prelude.{◌≡◌, IfOk};
ghost use Rattle.syntax65.specs.Kinds.{tree_of};

use crate::{ListVec, Op1, Op2};
use smallvec::SmallVec;
use std::alloc::{AllocError, Global};
use std::marker::Model;

/// The length up to which a single name needs no allocation.
const SHORT_NAME: usize = 16;

/// A single name. Its contract view is its bytes.
#[derive(Drop)]
pub struct Identifier {
    text: SmallVec<u8, SHORT_NAME>,
}

impl Model for Identifier {
    ghost use Rattle.std.specs.Prelude.{List, ℕ};
    ghost use Rattle.std.specs.Coded.{coded_list, coded_ℕ};

    ghost Value = { List ℕ };

    ghost coded = { coded_list coded_ℕ };

    ghost view = { λ n. n.text.items };
}

impl Identifier {
    /// Copies a name.
    pub fn copy_of(alloc: Global, text: &[u8]) -> Result<Self, AllocError>
        ensures { IfOk result (λ n. n ≡ text.now) }
    {
        Ok(Identifier {
            text: SmallVec::from_slice(alloc, text)?,
        })
    }

    /// Returns the bytes of the name.
    pub fn as_slice(&self) -> &[u8]
        ensures { result.now ≡ self.now }
    {
        self.text.as_slice()
    }
}

/// Names joined by `::`.
#[derive(Drop)]
pub struct Name {
    /// Whether it begins with `::`.
    pub is_global: bool,
    /// At least one name.
    pub parts: ListVec<ListVec<u8>>,
}

impl Name {
    ghost use Rattle.std.specs.Prelude.{[], ◌∷◌, false};

    /// Returns the path that consists of one name.
    pub fn of(alloc: Global, text: &[u8]) -> Result<Self, AllocError>
        ensures { IfOk result (λ n. n ≡ record { is_global = false; parts = text.now ∷ [] }) }
    {
        let mut parts = ListVec::new(alloc);
        parts.push(ListVec::copy_of(alloc, text)?)?;
        Ok(Name {
            is_global: false,
            parts,
        })
    }
}

/// An expression. Its contract view is a tree without boxes.
#[derive(Drop)]
#[cycle(expr)]
pub struct Expr {
    kind: ExprKind,
}

/// The kinds of expressions.
#[derive(Drop)]
#[cycle(expr)]
pub enum ExprKind {
    Number(u32),
    /// `*`, the address of the statement.
    Here,
    /// A single name.
    Plain(Identifier),
    /// Names joined by `::`, or with a leading `::`.
    Scoped(Name),
    /// A cheap local name, with its `@`.
    Cheap(Identifier),
    /// `:+` is 1, `:++` is 2.
    Forward(usize),
    /// `:-` is 1, `:--` is 2.
    Backward(usize),
    Prefix(Op1, Box<Expr>),
    Binary(Op2, Box<Operands>),
}

/// The operands of a binary operator.
#[derive(Drop)]
#[cycle(expr)]
pub struct Operands {
    pub left: Expr,
    pub right: Expr,
}

impl Model for Expr {
    ghost use Rattle.syntax65.specs.Trees.{Tree, nodes, tree_code};

    ghost Value = { Tree };

    ghost coded = { tree_code };

    ghost use Rattle.syntax65.specs.Kinds.{tree_of};

    ghost view = { λ e. tree_of e.kind };

    ghost size = { nodes };

    ghost use Rattle.std.proofs.Common.{arith};

    ghost size_decreases = { λ a h. Prim.grind arith };
}

impl Expr {
    /// Returns the expression of this kind.
    pub fn new(kind: ExprKind) -> Self
        ensures { result ≡ tree_of kind }
    {
        Expr { kind }
    }

    /// Returns the kind of the expression.
    pub fn kind(&self) -> &ExprKind
        ensures { tree_of result.now ≡ self.now }
    {
        &self.kind
    }
}
