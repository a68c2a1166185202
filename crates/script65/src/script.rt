//! A linker script.

ghost use Rattle.std.specs.Prelude.{◌≡◌};

use base65::ListVec;

/// A linker script: its areas, rows and symbols, each in the script's order.
#[derive(Drop)]
pub struct Script {
    pub areas: ListVec<MemoryArea>,
    pub rows: ListVec<SegmentRow>,
    pub symbols: ListVec<Symbol>,
}

/// An area of memory, with its first address and its size.
#[derive(Drop)]
pub struct MemoryArea {
    pub name: ListVec<u8>,
    /// The terms of the sum that is its first address.
    pub start: ListVec<Term>,
    /// The terms of the sum that is the number of its bytes.
    pub size: ListVec<Term>,
    pub read_only: bool,
    pub file: AreaOutput,
    /// Whether the file is as long as the area.
    pub fill: bool,
    /// The byte for gaps.
    pub fill_value: u8,
    /// Whether names for the area's start, its size and the first address after its last row are
    /// defined.
    pub define: bool,
}

/// A term of a sum.
#[derive(Clone, Copy, Debug)]
pub struct Term {
    /// Whether it is subtracted.
    pub minus: bool,
    pub operand: Operand,
}

/// The value of a term: a number, or an attribute of the area or row at this index of the script.
#[derive(Clone, Copy, Debug)]
pub enum Operand {
    Number(u32),
    Area(usize, AreaAttribute),
    Row(usize, RowAttribute),
}

/// The attribute of an area that a name refers to.
#[derive(Clone, Copy, Debug)]
pub enum AreaAttribute {
    /// Its first address.
    Start,
    /// Its size in bytes.
    Size,
    /// The first address after its last row.
    Last,
}

impl AreaAttribute {
    ghost use Rattle.script65.specs.AreaSums.{area_ending};

    /// Returns the ending that follows the area's name in the name of this attribute.
    pub fn ending(self) -> &'static [u8]
        ensures { result.now ≡ area_ending self }
    {
        match self {
            AreaAttribute::Start => b"_START__",
            AreaAttribute::Size => b"_SIZE__",
            AreaAttribute::Last => b"_LAST__",
        }
    }
}

/// The attribute of a row that a name refers to.
#[derive(Clone, Copy, Debug)]
pub enum RowAttribute {
    /// The load address of its segment.
    Load,
    /// The run address of its segment.
    Run,
    /// The size of its segment, in bytes.
    Size,
}

impl RowAttribute {
    ghost use Rattle.script65.specs.AreaSums.{row_ending};

    /// Returns the ending that follows the row's name in the name of this attribute.
    pub fn ending(self) -> &'static [u8]
        ensures { result.now ≡ row_ending self }
    {
        match self {
            RowAttribute::Load => b"_LOAD__",
            RowAttribute::Run => b"_RUN__",
            RowAttribute::Size => b"_SIZE__",
        }
    }
}

/// The file to which an area's bytes are written.
#[derive(Drop)]
pub enum AreaOutput {
    /// The linker's output.
    Output,
    /// A file with this name. If the name is empty, nothing is written.
    Named(ListVec<u8>),
}

/// The type of a row's segment.
#[derive(Clone, Copy, Debug, PartialEq, Eq)]
pub enum SegmentType {
    ReadOnly,
    ReadWrite,
    Bss,
    ZeroPage,
}

impl SegmentType {
    ghost use Rattle.script65.specs.Placing.{is_read_only, is_written};

    pub fn is_read_only(self) -> bool
        ensures { result ≡ is_read_only self }
    {
        matches!(self, SegmentType::ReadOnly)
    }

    /// Returns whether the segment's bytes are in a file.
    pub fn is_written(self) -> bool
        ensures { result ≡ is_written self }
    {
        matches!(self, SegmentType::ReadOnly | SegmentType::ReadWrite)
    }
}

/// The start of a row in its run area.
#[derive(Clone, Copy, Debug, PartialEq, Eq)]
pub enum RowStart {
    /// After the rows before it, at a multiple of the row's alignment.
    Aligned,
    /// At an address.
    Start(u32),
    /// At this offset from the area's start.
    Offset(u32),
}

/// A segment's row. Its areas are given by index.
#[derive(Drop)]
pub struct SegmentRow {
    pub name: ListVec<u8>,
    pub load: usize,
    pub run: usize,
    pub access: SegmentType,
    /// The alignment in the run area.
    pub align: u32,
    /// The alignment in a load area that isn't the run area.
    pub align_load: u32,
    pub begin: RowStart,
    /// The byte for gaps between sections and for fills.
    pub fill_value: u8,
    /// Whether names for the segment's addresses and size are defined.
    pub define: bool,
    /// Whether the segment may be missing from all modules.
    pub optional: bool,
}

/// A symbol of a script.
#[derive(Drop)]
pub struct Symbol {
    pub name: ListVec<u8>,
    pub kind: SymbolKind,
}

/// The type of a symbol in the script.
#[derive(Clone, Copy, Debug, PartialEq, Eq)]
pub enum SymbolKind {
    /// A definition with this value.
    Export(u32),
    /// A definition with this value, if nothing else defines the symbol.
    Weak(u32),
    /// A symbol that must be defined elsewhere.
    Import,
}
