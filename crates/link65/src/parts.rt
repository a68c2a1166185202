//! The parts of modules that a link keeps.

use base65::ListVec;
use object65::{Action, Norm, Origin, Width};

/// A module: its name, the positions of its sections, the names that it imports, and those of its files. Forms refer
/// to sections and imports, and origins to files, by their indices here. An `owner` is the index of a module.
#[derive(Drop)]
pub struct LinkedModule {
    pub name: ListVec<u8>,
    pub sections: ListVec<SectionPosition>,
    pub imports: ListVec<ListVec<u8>>,
    pub files: ListVec<ListVec<u8>>,
}

/// The position of a section: its offset from the start of its segment, and its size.
#[derive(Drop)]
pub struct SectionPosition {
    pub segment: ListVec<u8>,
    pub offset: u64,
    pub size: u64,
}

/// A value of a module that is computed after placement.
#[derive(Drop)]
pub struct ValueFixup {
    pub owner: usize,
    pub width: Width,
    /// The location of its statement.
    pub origin: Origin,
    pub form: Norm,
}

/// A name that a module exports.
#[derive(Drop)]
pub struct ModuleExport {
    pub owner: usize,
    pub name: ListVec<u8>,
    pub origin: Origin,
    pub form: Norm,
}

/// An assertion of a module that the linker checks.
#[derive(Drop)]
pub struct ModuleAssertion {
    pub owner: usize,
    pub action: Action,
    pub origin: Origin,
    /// The text that is printed if the form is 0.
    pub text: ListVec<u8>,
    pub form: Norm,
}

/// The provider of a name.
#[derive(Clone, Copy)]
pub enum Provider {
    /// A module: the index of its export among all exports.
    ByModule(usize),
    /// The script, with the value.
    ByScript(i64),
    Nobody,
}

/// The addresses of a module's sections, and the providers of its imports.
#[derive(Drop)]
pub struct ModuleBindings {
    pub bases: ListVec<i64>,
    pub providers: ListVec<Provider>,
}

/// The reason why a form has no value.
#[derive(Clone, Copy)]
pub enum ValueFault {
    /// It depends on itself.
    Circular,
    /// A zero divisor or a bad shift count.
    NoValue,
    /// An import that nobody defines.
    Unresolved,
}

/// A name that the script defines, and its value.
#[derive(Drop)]
pub struct ScriptSymbol {
    pub name: ListVec<u8>,
    pub value: i64,
}

/// A piece of a segment.
#[derive(Drop)]
pub enum SegmentPiece {
    /// Bytes that are known.
    Known(ListVec<u8>),
    /// This many bytes of the fill value.
    Filled(u32),
    /// The bytes of a value that needs addresses.
    Deferred(ValueFixup),
}

/// The contents of a segment: its size in bytes, the largest alignment of its sections, and its
/// pieces in order.
#[derive(Drop)]
pub struct SegmentContent {
    pub name: ListVec<u8>,
    pub size: u64,
    pub align: u32,
    pub pieces: ListVec<SegmentPiece>,
}
