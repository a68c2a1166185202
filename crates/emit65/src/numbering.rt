//! Builds the object from the entries.

ghost use Rattle.std.specs.Prelude.{◌≡◌, map, string_bytes, IfOk};
ghost use Rattle.std.specs.List.{AllByRecursion};
ghost use Rattle.object65.specs.Objects.{ObjectFits};
ghost use Rattle.emit65.specs.Internal.Drafts.{IsNumbered, object_of, section_of, SectionFits};
ghost use Rattle.emit65.specs.SectionContents.{names_of};
ghost use Rattle.semantics65.specs.Layout.{powers};
ghost use Rattle.semantics65.specs.Numbering.{name_of, number_of};

mod drafts;
mod exports;
mod fragments;
mod keys;
mod ordering;

use crate::entries::SectionEntry;
use base65::ListVec;
use drafts::{EntriesBySection, SectionDraft, group_by_section};
use exports::declaration_tables;
use fragments::fragments_of;
use indexmap::IndexSet;
pub use keys::{Imports, narrow};
use keys::{Numbers, import_keys};
use object65::{Object, Section};
use ordering::{file_names, files_in_order};
use semantics65::Segment;
use std::alloc::{AllocError, Global};

/// Returns the exponent of an alignment, which is a power of two up to 32768; 0 for any other value.
fn power_of(align: u32) -> u8
    ensures { result ≡ number_of powers align }
{
    match align {
        2 => 1,
        4 => 2,
        8 => 3,
        16 => 4,
        32 => 5,
        64 => 6,
        128 => 7,
        256 => 8,
        512 => 9,
        1024 => 10,
        2048 => 11,
        4096 => 12,
        8192 => 13,
        16384 => 14,
        32768 => 15,
        _ => 0,
    }
}

/// Builds the section of a segment.
fn finish_section(
    alloc: Global,
    segments: &[Segment],
    numbers: &Numbers,
    draft: SectionDraft,
) -> Result<Section, AllocError>
    ensures section { IfOk result (λ s. s ≡ section_of segments.now numbers.now draft) }
    ensures fits { IfOk result SectionFits }
{
    let SectionDraft { segment, entries } = draft;
    let fragments = fragments_of(alloc, numbers, entries)?;
    let (name, align) = match segments.get(segment as usize) {
        Some(segment) => (
            ListVec::copy_of(alloc, segment.name.as_slice())?,
            power_of(segment.align),
        ),
        None => (ListVec::new(alloc), 0),
    };
    Ok(Section {
        name,
        align,
        fragments,
    })
}

/// Builds the sections of a module.
fn finish_sections(
    alloc: Global,
    segments: &[Segment],
    numbers: &Numbers,
    drafts: Vec<SectionDraft>,
) -> Result<ListVec<Section>, AllocError>
    ensures sections { IfOk result (λ sections. sections ≡
        map (section_of segments.now numbers.now) drafts.items) }
    ensures fits { IfOk result (AllByRecursion SectionFits) }
{
    let mut sections = ListVec::new(alloc);
    for draft in drafts {
        sections.push(finish_section(alloc, segments, numbers, draft)?)?;
    }
    Ok(sections)
}

/// Returns the name of an import by its key; an empty name if there is no such import.
fn import_name(alloc: Global, imports: &Imports, key: u32) -> Result<ListVec<u8>, AllocError>
    ensures { IfOk result (λ name. name ≡ name_of (names_of imports.now) key) }
{
    match imports.get_index(key as usize) {
        Some(name) => ListVec::copy_of(alloc, name.as_slice()),
        None => Ok(ListVec::new(alloc)),
    }
}

/// Returns the names of imports by their keys.
fn import_names(
    alloc: Global,
    imports: &Imports,
    keys: &[u32],
) -> Result<ListVec<ListVec<u8>>, AllocError>
    ensures { IfOk result (λ found. found ≡ map (name_of (names_of imports.now)) keys.now) }
{
    let mut found = ListVec::new(alloc);
    for key in keys {
        found.push(import_name(alloc, imports, *key)?)?;
    }
    Ok(found)
}

/// The entries by section, and the numbers of the sections, imports and files in them.
#[derive(Drop)]
pub struct Numbered {
    pub numbers: Numbers,
    pub by_section: EntriesBySection,
}

/// Groups entries by the requested sections, and numbers the sections, imports and files in them.
pub fn number(
    alloc: Global,
    imports: &Imports,
    requested: IndexSet<u32>,
    entries: Vec<SectionEntry>,
) -> Result<Numbered, AllocError>
    ensures { IfOk result (IsNumbered (names_of imports.now) requested.keys entries.items) }
{
    let keys = import_keys(alloc, imports, entries.as_slice())?;
    let by_section = group_by_section(alloc, &requested, entries)?;
    let files = files_in_order(alloc, &by_section)?;
    Ok(Numbered {
        numbers: Numbers {
            sections: requested,
            imports: keys,
            files,
        },
        by_section,
    })
}

/// Builds the object from numbered entries, with the names of all imports and of all files.
pub fn object_of(
    alloc: Global,
    segments: &[Segment],
    imports: &Imports,
    files: &[String],
    numbered: Numbered,
) -> Result<Object, AllocError>
    ensures object { IfOk result (λ o. o ≡ object_of segments.now (names_of imports.now)
        (map string_bytes files.now) numbered) }
    ensures fits { IfOk result ObjectFits }
{
    let Numbered {
        numbers,
        by_section,
    } = numbered;
    let EntriesBySection {
        drafts,
        declarations,
    } = by_section;
    let declared = declaration_tables(alloc, &numbers, declarations)?;
    Ok(Object {
        version: 2,
        files: file_names(alloc, files, numbers.files.as_slice())?,
        imports: import_names(alloc, imports, numbers.imports.as_slice())?,
        sections: finish_sections(alloc, segments, &numbers, drafts)?,
        exports: declared.exports,
        asserts: declared.asserts,
    })
}
