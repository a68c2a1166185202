//! A command line as a value.

use base65::ListVec;

/// `ld65 -C SCRIPT [-o FILE] [-m MAP] INPUT..`
#[derive(Drop)]
pub struct LinkArgs<'a> {
    /// The script file.
    pub script: &'a str,
    /// The output file, if one is named.
    pub output: Option<&'a str>,
    /// The map file, if one is named.
    pub map: Option<&'a str>,
    /// The input files, in order.
    pub inputs: ListVec<&'a str>,
}

/// A constant that the command line defines for the source.
#[derive(Clone, Copy, Drop)]
pub struct Define<'a> {
    pub name: &'a [u8],
    pub value: u32,
}

/// `ca65 [-o FILE] [-I DIR].. [-D NAME[=NUMBER]].. [-g] SOURCE`
#[derive(Drop)]
pub struct AssembleArgs<'a> {
    /// The output file, if one is named.
    pub output: Option<&'a str>,
    /// The folders that are searched for included files, in order.
    pub include: ListVec<&'a str>,
    /// The constants that are defined, in order.
    pub defines: ListVec<Define<'a>>,
    /// The source file.
    pub source: &'a str,
}

/// The operation on a library.
#[derive(Clone, Copy)]
pub enum Operation {
    /// `r`: adds objects, each in place of the member with its name, or else as the last
    /// member.
    Replace,
    /// `d`: removes members.
    Delete,
    /// `t`: lists the names of the members.
    List,
    /// `x`: writes members to files.
    Extract,
}

/// `ar65 OP LIBRARY [FILE]..`
#[derive(Drop)]
pub struct ArchiveArgs<'a> {
    pub operation: Operation,
    /// The library file.
    pub library: &'a str,
    /// The object files to add, or the names of members, in order.
    pub files: ListVec<&'a str>,
}

/// A command line.
#[derive(Drop)]
pub enum Line<'a> {
    Assemble(AssembleArgs<'a>),
    Link(LinkArgs<'a>),
    Archive(ArchiveArgs<'a>),
}
