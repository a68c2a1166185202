//! Objects as values in memory.

use crate::Norm;
use base65::{Action, ListVec, Width};

/// An assembled module that isn't linked yet.
#[derive(Drop)]
pub struct Object {
    /// The version of its format, 1 or 2.
    pub version: u8,
    /// The names of the source files; an origin names one by its index here. Version 1 has none.
    pub files: ListVec<ListVec<u8>>,
    /// The names that the module uses and doesn't define. Forms refer to them by index.
    pub imports: ListVec<ListVec<u8>>,
    /// The sections. Forms refer to them by index.
    pub sections: ListVec<Section>,
    pub exports: ListVec<Export>,
    pub asserts: ListVec<Assert>,
}

/// The part of a segment in one module.
#[derive(Drop)]
pub struct Section {
    /// The segment's name.
    pub name: ListVec<u8>,
    /// The base-2 logarithm of the section's alignment.
    pub align: u8,
    pub fragments: ListVec<Fragment>,
}

/// A piece of a section.
#[derive(Drop)]
pub enum Fragment {
    /// Bytes that are known.
    Literal(ListVec<u8>),
    /// This many bytes of the linker's fill value.
    Fill(u32),
    /// A value that the linker computes, with the location of its statement.
    Value {
        width: Width,
        origin: Origin,
        form: Norm,
    },
}

/// The location of a part of an object in its sources.
#[derive(Clone, Copy)]
pub struct Origin {
    /// The file's index in `Object::files`. `None` in version 1.
    pub file: Option<u32>,
    pub line: u32,
}

/// A symbol that a module exports, with the location of the export.
#[derive(Drop)]
pub struct Export {
    pub name: ListVec<u8>,
    pub origin: Origin,
    pub form: Norm,
}

/// An assertion that the linker checks: its form must not be 0.
#[derive(Drop)]
pub struct Assert {
    pub action: Action,
    pub origin: Origin,
    /// The text that is printed if the form is 0.
    pub text: ListVec<u8>,
    pub form: Norm,
}
