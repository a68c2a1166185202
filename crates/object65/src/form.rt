//! Normal forms of expressions.

ghost use Rattle.std.specs.Prelude.{◌≡◌, ◌-◌, ◌^◌, min, IfOk};
ghost use Rattle.std.specs.Borrow.{sem};
ghost use Rattle.object65.specs.Form.{Form, nodes};
ghost use Rattle.object65.specs.Lending.{LendsNode};
ghost use Rattle.object65.specs.Norm.{form_of};

use base65::{Op1, Op2};
use std::alloc::{AllocError, Global};
use std::marker::Model;

/// The largest number of nodes of a form.
pub const NODE_LIMIT: u32 = 255;

/// A normal form, which contracts see without its boxes.
#[derive(Drop)]
#[cycle(norm)]
pub struct Norm {
    node: Node,
}

/// A node of a normal form.
#[derive(Drop)]
#[cycle(norm)]
pub enum Node {
    /// A number.
    NumberNode(i64),
    /// The index of a section, and an offset in the section.
    SectionOffset(u32, i64),
    /// The value of the import with this index.
    ImportedName(u32),
    Prefix(Op1, Box<Norm>),
    Binary(Op2, Box<Operands>),
}

/// The operands of a binary operation, in one box.
#[derive(Drop)]
#[cycle(norm)]
pub struct Operands {
    pub left: Norm,
    pub right: Norm,
}

impl Model for Norm {
    ghost use Rattle.object65.specs.Form.{Form, form_code, nodes};

    ghost Value = { Form };

    ghost coded = { form_code };

    ghost use Rattle.object65.specs.Norm.{form_of};

    ghost view = { λ n. form_of n.node };

    ghost size = { nodes };

    ghost use Rattle.std.proofs.Common.{arith};

    ghost size_decreases = { λ a h. Prim.grind arith };
}

impl Norm {
    /// Creates the form with this node at its root.
    pub fn new(node: Node) -> Self
        ensures { result ≡ form_of node }
    {
        Norm { node }
    }

    /// Copies a form.
    #[cycle(copy)]
    pub fn copy_of(alloc: Global, form: &Norm) -> Result<Self, AllocError>
        ensures { IfOk result (λ f. f ≡ form.now) }
    {
        let node = match form.node() {
            Node::NumberNode(value) => Node::NumberNode(*value),
            Node::SectionOffset(section, offset) => Node::SectionOffset(*section, *offset),
            Node::ImportedName(index) => Node::ImportedName(*index),
            Node::Prefix(op, part) => {
                let part = Norm::copy_of(alloc, part)?;
                Node::Prefix(*op, Box::new(alloc, part)?)
            }
            Node::Binary(op, operands) => {
                let left = Norm::copy_of(alloc, &operands.left)?;
                let right = copy_of_operand(alloc, &operands.right)?;
                Node::Binary(*op, Box::new(alloc, Operands { left, right })?)
            }
        };
        Ok(Norm::new(node))
    }

    /// Returns the node at the root.
    pub fn node(&self) -> &Node
        ensures { form_of result.now ≡ self.now }
    {
        &self.node
    }

    /// Returns the node at the root, for changes.
    pub fn node_mut(&mut self) -> &mut Node
        ensures* writes_back { sem 𝓛 (LendsNode self.entry result) }
        ensures node { form_of result.now ≡ self.old }
    {
        &mut self.node
    }
}

/// Copies an operand. Most right operands are numbers, which need no call.
#[inline(always)]
#[cycle(copy)]
fn copy_of_operand(alloc: Global, form: &Norm) -> Result<Norm, AllocError>
    ensures { IfOk result (λ f. f ≡ form.now) }
{
    match form.node() {
        Node::NumberNode(value) => Ok(Norm::new(Node::NumberNode(*value))),
        _ => Norm::copy_of(alloc, form),
    }
}

/// Returns the number of nodes of a form, or the largest `u32` if it has more.
pub fn node_count(form: &Norm) -> u32
    ensures { result ≡ min (nodes form.now) (2 ^ 32 - 1) }
{
    match &form.node {
        Node::NumberNode(_) | Node::SectionOffset(_, _) | Node::ImportedName(_) => 1,
        Node::Prefix(_, part) => node_count(part).saturating_add(1),
        Node::Binary(_, operands) => node_count(&operands.left)
            .saturating_add(node_count(&operands.right))
            .saturating_add(1),
    }
}
