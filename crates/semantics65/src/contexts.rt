//! The context of a statement, and encoding decisions.

use syntax65::Mode;

/// A borrowed source location: a file and a line number, 0 before the first line.
#[derive(Clone, Copy)]
pub struct LocationRef<'a> {
    pub file: &'a str,
    pub line: u32,
}

/// The number of the global scope.
pub const GLOBAL_SCOPE: u32 = 0;

/// The context of a statement in the source.
#[derive(Clone, Copy)]
pub struct Context {
    /// The innermost open scope: 0 is the global one, the others are numbered in the order in which
    /// they are opened.
    pub scope: u32,
    /// The number of scopes opened before.
    pub opened: u32,
    /// The number of regions of cheap local labels opened before.
    pub region: u32,
    /// The number of unnamed labels before.
    pub unnamed: u32,
    /// The segment, as an index into the segments in the order in which they were first named.
    pub segment: u32,
    /// The offset in the segment's section.
    pub offset: u32,
}

/// Encoding decisions made at the statement's line, from what is known there.
#[derive(Clone, Copy)]
pub enum EncodingChoice {
    Undecided,
    /// The addressing mode of an instruction.
    InMode(Mode),
    /// The fill byte, if the statement names one.
    FillByte(u8),
    /// The offset in the file at which `.incbin` begins.
    FileOffset(u32),
}
