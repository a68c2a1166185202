//! Fixups, which are resolved once all names are known.

use crate::entries::SourcePos;
use base65::ListVec;
use object65::{Action, Width};
use semantics65::Context;
use syntax65::Expr;

/// The piece of a statement that is pending.
#[derive(Drop)]
pub enum FixupKind {
    /// A value of a list.
    Datum {
        width: Width,
        value: Expr,
    },
    /// The value of an instruction's operand.
    Operand {
        width: Width,
        value: Expr,
    },
    /// The expression of a constant, which may have an error.
    Constant(Expr),
    Assertion {
        action: Action,
        text: ListVec<u8>,
        value: Expr,
    },
    /// A name that the module must not define.
    Import(ListVec<u8>),
    /// A name that is imported even if nothing uses it.
    ForcedImport(ListVec<u8>),
    /// A name that is exported if it is defined; if `must`, it
    /// must be.
    Export {
        must: bool,
        name: ListVec<u8>,
    },
}

/// A pending piece of a statement, with the statement's location.
#[derive(Drop)]
pub struct Fixup {
    pub pos: SourcePos,
    pub context: Context,
    pub piece: FixupKind,
}
