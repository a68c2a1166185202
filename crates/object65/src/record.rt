//! One record of an object, and its item.

use crate::{Action, Fragment, Norm, Origin};
use arrayvec::ArrayVec;
use base65::ListVec;

/// One record of an object.
#[derive(Drop)]
pub struct Record {
    pub kind: u8,
    pub body: ArrayVec<u8, 4096>,
}

/// The item in one record of an object.
#[derive(Drop)]
pub enum Item {
    /// The name of a file.
    File(ListVec<u8>),
    /// The name of an import.
    Import(ListVec<u8>),
    /// A section without its fragments.
    Section {
        name: ListVec<u8>,
        size: u32,
        /// The base-2 logarithm of the section's alignment.
        align: u8,
    },
    /// A fragment of a section. A literal has only the bytes of this record.
    Part {
        /// The section's index.
        section: usize,
        /// The fragment's offset in the section.
        offset: u32,
        fragment: Fragment,
    },
    /// A symbol that the module exports.
    Export {
        name: ListVec<u8>,
        /// The location of the export.
        origin: Origin,
        form: Norm,
    },
    /// An assertion that the linker checks: its form must not be 0.
    Assert {
        action: Action,
        /// The location of the assertion.
        origin: Origin,
        /// The text that is printed if the form is 0.
        text: ListVec<u8>,
        form: Norm,
    },
    /// The end of the object.
    End,
}
