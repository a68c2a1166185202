//! Declarations of statements, and the segments of a module. The source location of a declaration
//! is stored apart.

use base65::ListVec;
use object65::{Action, Norm};
use syntax65::AddressSize;

/// An export, forced import or assertion that a statement passes to the linker.
#[derive(Drop)]
pub enum Declaration {
    /// A name that the module exports.
    ExportedSymbol {
        name: ListVec<u8>,
        form: Norm,
    },
    /// An import that is requested even if no form uses it.
    ForcedImport(ListVec<u8>),
    /// A condition that the linker checks.
    LinkAssertion {
        action: Action,
        text: ListVec<u8>,
        form: Norm,
    },
}

/// A segment, as far as it is laid out.
#[derive(Drop)]
pub struct Segment {
    pub name: ListVec<u8>,
    /// The address size of its contents.
    pub size: AddressSize,
    /// The size of its section so far.
    pub end: u32,
    /// The largest alignment of the section.
    pub align: u32,
}
