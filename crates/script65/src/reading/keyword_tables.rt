//! The keywords of scripts, and the kinds of attribute values.

ghost use Rattle.std.specs.Prelude.{◌≡◌, map};
ghost use Rattle.std.specs.Option.{option_map};
ghost use Rattle.std.specs.Str.{str_eq_ignore_ascii_case};
ghost use Rattle.script65.specs.Attributes.{attributes, keywords, find_keyword};

use crate::script::SegmentType;

/// A kind of block.
#[derive(Clone, Copy)]
pub enum Block {
    Memory,
    Segments,
    Symbols,
}

/// The type of a symbol.
#[derive(Clone, Copy)]
pub enum SymbolType {
    Export,
    Weak,
    Import,
}

/// The kind of value that an attribute accepts.
#[derive(Clone, Copy)]
pub enum ValueKind {
    /// A number in this range, with both bounds included.
    Number(u32, u32),
    /// A number from 0 to 255.
    Byte,
    /// Numbers and names with `+` or `-` between them.
    Sum,
    OneOf(KeywordSet),
    /// The name of an area.
    Area,
    File,
}

/// A set of keywords, one of which an attribute accepts.
#[derive(Clone, Copy)]
pub enum KeywordSet {
    /// `yes` or `no`.
    Flag,
    AreaAccess,
    RowAccess,
    Role,
    /// The size of an address, which has no effect.
    Width,
}

/// The value of an attribute that is a keyword.
#[derive(Clone, Copy)]
pub enum KeywordValue {
    Flag(bool),
    Access(SegmentType),
    Role(SymbolType),
    Width,
}

// Compares words without regard to case.
fn is_same_keyword(text: &[u8], identifier: &str) -> bool
    ensures { result ≡ str_eq_ignore_ascii_case text.now identifier.now }
{
    text.eq_ignore_ascii_case(identifier.as_bytes())
}

/// Returns the first row with this word, in any case.
pub fn find_keyword<T: Copy>(
    rows: &[(&'static str, T)],
    identifier: &[u8],
) -> Option<(&'static str, T)>
    ensures { option_map (λ r. (r.0.now, r.1)) result ≡
        find_keyword identifier.now (map (λ r. (r.0.now, r.1)) rows.now) }
{
    for (name, value) in rows {
        if is_same_keyword(identifier, name) {
            return Some((*name, *value));
        }
    }
    None
}

/// The keywords of blocks.
pub const BLOCKS: [(&str, Block); 3] = [
    ("memory", Block::Memory),
    ("segments", Block::Segments),
    ("symbols", Block::Symbols),
];

/// Returns the attributes of a block, and the kinds of their values.
pub fn attributes(block: Block) -> &'static [(&'static str, ValueKind)]
    ensures { map (λ r. (r.0.now, r.1)) result.now ≡ attributes block }
{
    match block {
        Block::Memory => &[
            ("start", ValueKind::Sum),
            ("size", ValueKind::Sum),
            ("type", ValueKind::OneOf(KeywordSet::AreaAccess)),
            ("file", ValueKind::File),
            ("fill", ValueKind::OneOf(KeywordSet::Flag)),
            ("fillval", ValueKind::Byte),
            ("define", ValueKind::OneOf(KeywordSet::Flag)),
        ],
        Block::Segments => &[
            ("load", ValueKind::Area),
            ("run", ValueKind::Area),
            ("type", ValueKind::OneOf(KeywordSet::RowAccess)),
            ("align", ValueKind::Number(1, 65536)),
            ("align_load", ValueKind::Number(1, 65536)),
            ("start", ValueKind::Number(0, 0xffff_ffff)),
            ("offset", ValueKind::Number(0, 0xffff_ffff)),
            ("fillval", ValueKind::Byte),
            ("define", ValueKind::OneOf(KeywordSet::Flag)),
            ("optional", ValueKind::OneOf(KeywordSet::Flag)),
        ],
        Block::Symbols => &[
            ("type", ValueKind::OneOf(KeywordSet::Role)),
            ("value", ValueKind::Number(0, 0xffff_ffff)),
            ("addrsize", ValueKind::OneOf(KeywordSet::Width)),
        ],
    }
}

/// Returns the keywords of a set, and their values.
pub fn keywords(keyword_set: KeywordSet) -> &'static [(&'static str, KeywordValue)]
    ensures { map (λ r. (r.0.now, r.1)) result.now ≡ keywords keyword_set }
{
    match keyword_set {
        KeywordSet::Flag => &[
            ("yes", KeywordValue::Flag(true)),
            ("no", KeywordValue::Flag(false)),
        ],
        KeywordSet::AreaAccess => &[
            ("ro", KeywordValue::Access(SegmentType::ReadOnly)),
            ("rw", KeywordValue::Access(SegmentType::ReadWrite)),
        ],
        KeywordSet::RowAccess => &[
            ("ro", KeywordValue::Access(SegmentType::ReadOnly)),
            ("rw", KeywordValue::Access(SegmentType::ReadWrite)),
            ("bss", KeywordValue::Access(SegmentType::Bss)),
            ("zp", KeywordValue::Access(SegmentType::ZeroPage)),
        ],
        KeywordSet::Role => &[
            ("export", KeywordValue::Role(SymbolType::Export)),
            ("weak", KeywordValue::Role(SymbolType::Weak)),
            ("import", KeywordValue::Role(SymbolType::Import)),
        ],
        KeywordSet::Width => &[
            ("zp", KeywordValue::Width),
            ("zeropage", KeywordValue::Width),
            ("abs", KeywordValue::Width),
            ("absolute", KeywordValue::Width),
        ],
    }
}
