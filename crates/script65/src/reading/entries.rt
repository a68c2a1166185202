//! The entries of a script as they are read, with the values of their attributes.

ghost use Rattle.std.specs.Prelude.{◌≡◌, ◌++◌, ◌∷◌, [], position, slice_get, OnOk, false};
ghost use Rattle.std.specs.List.{list_any};
ghost use Rattle.std.specs.Option.{option_and_then, option_copied, option_map};
ghost use Rattle.std.specs.Str.{bytes_eq};
ghost use Rattle.script65.specs.Entries.{entry_fault, attribute_for, has_name, has_attribute, no_entries, number_for, terms_for, role_for, value_for, with_entry};
ghost use Rattle.script65.specs.Scripts.{access_of, as_area, fill_or, number_or, flag_for};
ghost use Rattle.script65.specs.declared.reading.entries.ConfigEntry.{ConfigEntry};

use crate::fault::Fault;
use crate::reading::keyword_tables::{Block, KeywordValue, SymbolType};
use crate::reading::tokens::Bytes;
use crate::script::SegmentType;
use base65::ListVec;
use indexmap::IndexMap;
use std::alloc::{AllocError, Global};
use std::marker::Model;

/// The value of an attribute. A sum without names is a number; one with a name has a value only
/// once areas are placed.
#[derive(Drop)]
pub enum Value<'a> {
    Number(u32),
    Byte(u8),
    Sum,
    Keyword(KeywordValue),
    /// The name of an area.
    Area(Bytes<'a>),
    File(Bytes<'a>),
    /// The linker's output.
    Output,
}

/// A term of a sum: a number or a name, and its offset.
#[derive(Drop)]
pub struct ParsedTerm<'a> {
    /// Whether the term has a `-`.
    pub minus: bool,
    pub number: Option<u32>,
    pub name: Bytes<'a>,
    pub at: usize,
}

/// An attribute, its value, and the terms if that is a sum.
#[derive(Drop)]
pub struct AttributeValue<'a> {
    pub identifier: Bytes<'a>,
    pub value: Value<'a>,
    pub parsed_terms: ListVec<ParsedTerm<'a>>,
}

/// An entry: its name, the offset of its name, and its attributes.
#[derive(Drop)]
pub struct ConfigEntry<'a> {
    pub name: Bytes<'a>,
    pub at: usize,
    pub assignments: ListVec<AttributeValue<'a>>,
}

impl<'a> ConfigEntry<'a> {
    /// Returns the value that the entry has for an attribute.
    pub fn attribute_for(&self, identifier: &str) -> Option<&AttributeValue<'a>>
        ensures { option_map (λ g. g.now) result ≡ attribute_for identifier.now self.now }
    {
        for assignment in self.assignments.as_slice() {
            if identifier.as_bytes() == assignment.identifier.as_slice() {
                return Some(assignment);
            }
        }
        None
    }

    pub fn has_attribute(&self, identifier: &str) -> bool
        ensures { result ≡ has_attribute identifier.now self.now }
    {
        self.attribute_for(identifier).is_some()
    }

    /// Returns the terms of an attribute's sum, and none if it isn't a sum.
    pub fn terms_for(&self, identifier: &str) -> &[ParsedTerm<'a>]
        ensures { result.now ≡ terms_for identifier.now self.now }
    {
        for assignment in self.assignments.as_slice() {
            if identifier.as_bytes() == assignment.identifier.as_slice() {
                return assignment.parsed_terms.as_slice();
            }
        }
        &[]
    }

    pub fn value_for(&self, identifier: &str) -> Option<&Value<'a>>
        ensures { option_map (λ v. v.now) result ≡ value_for identifier.now self.now }
    {
        Some(&self.attribute_for(identifier)?.value)
    }

    pub fn number_for(&self, identifier: &str) -> Option<u32>
        ensures { result ≡ number_for identifier.now self.now }
    {
        match self.value_for(identifier) {
            Some(Value::Number(n)) => Some(*n),
            _ => None,
        }
    }

    pub fn role(&self) -> Option<SymbolType>
        ensures { result ≡ role_for self.now }
    {
        match self.value_for("type") {
            Some(Value::Keyword(KeywordValue::Role(role))) => Some(*role),
            _ => None,
        }
    }

    /// Returns the name of the area that is an attribute's value.
    pub fn area_for(&self, identifier: &str) -> Option<&[u8]>
        ensures { option_copied result ≡
            option_and_then as_area (value_for identifier.now self.now) }
    {
        match self.value_for(identifier) {
            Some(Value::Area(name)) => Some(name.as_slice()),
            _ => None,
        }
    }

    /// Returns the number given for an attribute, or `other` if there is none.
    pub fn number_or(&self, other: u32, identifier: &str) -> u32
        ensures { result ≡ number_or other identifier.now self.now }
    {
        self.number_for(identifier).unwrap_or(other)
    }

    /// Returns the given byte for gaps, or `other` if there is none.
    pub fn fill_or(&self, other: u8) -> u8
        ensures { result ≡ fill_or other self.now }
    {
        match self.value_for("fillval") {
            Some(Value::Byte(n)) => *n,
            _ => other,
        }
    }

    /// Returns whether an attribute is `yes`.
    pub fn flag_for(&self, identifier: &str) -> bool
        ensures { result ≡ flag_for identifier.now self.now }
    {
        match self.value_for(identifier) {
            Some(Value::Keyword(KeywordValue::Flag(flag))) => *flag,
            _ => false,
        }
    }

    pub fn access(&self) -> SegmentType
        ensures { result ≡ access_of self.now }
    {
        match self.value_for("type") {
            Some(Value::Keyword(KeywordValue::Access(access))) => *access,
            _ => SegmentType::ReadWrite,
        }
    }

    /// Returns the error of an entry of a block, at its end.
    pub fn entry_fault(&self, block: Block) -> Option<Fault>
        ensures { result ≡ entry_fault block self.now }
    {
        match block {
            Block::Memory => {
                if !(self.has_attribute("start") && self.has_attribute("size")) {
                    return Some(Fault::AttributeMissing);
                }
                let start = self.number_or(0, "start");
                let size = self.number_or(0, "size");
                (u64::from(start) + u64::from(size) > 1 << 32).then_some(Fault::OutOfRange)
            }
            Block::Segments => (!self.has_attribute("load")).then_some(Fault::AttributeMissing),
            Block::Symbols => match self.role() {
                None => Some(Fault::AttributeMissing),
                Some(SymbolType::Import) => self.has_attribute("value").then_some(Fault::Excluded),
                Some(_) => (!self.has_attribute("value")).then_some(Fault::AttributeMissing),
            },
        }
    }
}

/// Entries in order, with an index by name. Contracts see a list.
#[derive(Drop)]
pub struct Table<'a> {
    entries: IndexMap<&'a [u8], ConfigEntry<'a>>,
}

impl<'a> Model for Table<'a> {
    ghost use Rattle.std.specs.Prelude.{List, map};
    ghost use Rattle.script65.specs.declared.reading.entries.ConfigEntry.{ConfigEntry};

    ghost Value = { List ConfigEntry };

    ghost use Rattle.script65.specs.Internal.Tables.{KeysMatchNames};

    ghost view = { λ t. map (λ e. e.1) t.entries.entries };

    ghost invariant = { λ t. KeysMatchNames (map (λ e. (e.0.now, e.1)) t.entries.entries) };
}

impl<'a> Table<'a> {
    pub fn new(alloc: Global) -> Self
        ensures { result ≡ [] }
    {
        Table {
            entries: IndexMap::new(alloc),
        }
    }

    /// Returns whether an entry has this name.
    pub fn has(&self, name: &[u8]) -> bool
        ensures { result ≡ list_any (λ (e : ConfigEntry). bytes_eq name.now e.name) self.now }
    {
        self.entries.contains_key(name)
    }

    /// Returns the index of the entry with this name.
    pub fn index_of(&self, name: &[u8]) -> Option<usize>
        ensures { result ≡ position (λ (e : ConfigEntry). bytes_eq name.now e.name) self.now }
    {
        self.entries.get_index_of(name)
    }

    /// Returns the entry at an index.
    pub fn get(&self, index: usize) -> Option<&ConfigEntry<'a>>
        ensures { option_map (λ e. e.now) result ≡ slice_get self.now index }
    {
        let (_, entry) = self.entries.get_index(index)?;
        Some(entry)
    }

    /// Adds an entry with a new name after the others.
    pub fn push(&mut self, entry: ConfigEntry<'a>) -> Result<(), AllocError>
        requires { list_any (λ (e : ConfigEntry). bytes_eq entry.name e.name) self.old ≡ false }
        ensures ok { OnOk result (self.new ≡ self.old ++ entry.entry ∷ []) }
    {
        self.entries.insert(entry.name.as_slice(), entry)?;
        Ok(())
    }
}

/// The entries of all blocks, by the kind of block.
#[derive(Drop)]
pub struct Entries<'a> {
    pub areas: Table<'a>,
    pub rows: Table<'a>,
    pub symbols: Table<'a>,
}

impl<'a> Entries<'a> {
    pub fn new(alloc: Global) -> Self
        ensures { result ≡ no_entries }
    {
        Entries {
            areas: Table::new(alloc),
            rows: Table::new(alloc),
            symbols: Table::new(alloc),
        }
    }

    /// Returns whether an entry of a block's kind has this name.
    pub fn has(&self, block: Block, name: &[u8]) -> bool
        ensures { result ≡ has_name name.now block self.now }
    {
        match block {
            Block::Memory => self.areas.has(name),
            Block::Segments => self.rows.has(name),
            Block::Symbols => self.symbols.has(name),
        }
    }

    /// Adds an entry with a new name to those of a block's kind.
    pub fn push(&mut self, block: Block, entry: ConfigEntry<'a>) -> Result<(), AllocError>
        requires { has_name entry.name block self.old ≡ false }
        ensures ok { OnOk result (self.new ≡ with_entry block entry.entry self.old) }
    {
        match block {
            Block::Memory => self.areas.push(entry),
            Block::Segments => self.rows.push(entry),
            Block::Symbols => self.symbols.push(entry),
        }
    }
}
