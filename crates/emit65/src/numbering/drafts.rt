//! Groups entries by section.

ghost use Rattle.std.specs.Prelude.{◌≡◌, ◌++◌, [], map, nat_eq, IfOk, OnOk};
ghost use Rattle.std.specs.List.{flat_map, IsDistinct};
ghost use Rattle.emit65.specs.Internal.Drafts.{draft_of, declarations_of, segment_of, with_entry};

use crate::entries::{LocatedDeclaration, SectionEntry};
use base65::ListVec;
use indexmap::IndexSet;
use std::alloc::{AllocError, Global};

/// A section that is being built: the entries of a segment.
#[derive(Drop)]
pub struct SectionDraft {
    pub segment: u32,
    pub entries: ListVec<SectionEntry>,
}

/// The entries of sections, and the declarations.
#[derive(Drop)]
pub struct EntriesBySection {
    pub drafts: Vec<SectionDraft>,
    pub declarations: ListVec<LocatedDeclaration>,
}

/// Returns the segment of an entry; nothing for a declaration or a fixup.
fn segment_of(entry: &SectionEntry) -> Option<u32>
    ensures { result ≡ segment_of entry.now }
{
    match entry {
        SectionEntry::Bytes { segment, .. } | SectionEntry::Reserve { segment, .. } => Some(
            *segment,
        ),
        SectionEntry::Value { segment, .. } => Some(*segment),
        SectionEntry::DeclarationEntry(_) | SectionEntry::FixupEntry(_) => None,
    }
}

/// Adds an entry to the section of its segment, if it has a segment with a
/// section. Drops any other entry.
fn add_section_entry(
    sections: &IndexSet<u32>,
    drafts: &mut Vec<SectionDraft>,
    entry: SectionEntry,
) -> Result<(), AllocError>
    requires keys { map (λ d. d.segment) drafts.old.items ≡ sections.now.keys }
    requires distinct { IsDistinct nat_eq sections.now.keys }
    ensures { OnOk result (drafts.new.items ≡ map (with_entry entry) drafts.old.items) }
{
    let Some(segment) = segment_of(&entry) else {
        return Ok(());
    };
    if let Some(index) = sections.get_index_of(&segment) {
        let draft = &mut drafts[index];
        draft.entries.push(entry)?;
    }
    Ok(())
}

/// Adds a declaration to the declarations, and any other entry to its
/// section.
fn add_entry(
    sections: &IndexSet<u32>,
    by_section: &mut EntriesBySection,
    entry: SectionEntry,
) -> Result<(), AllocError>
    requires keys { map (λ d. d.segment) by_section.old.drafts.items ≡ sections.now.keys }
    requires distinct { IsDistinct nat_eq sections.now.keys }
    ensures drafts { OnOk result (by_section.new.drafts.items ≡
        map (with_entry entry) by_section.old.drafts.items) }
    ensures declarations { OnOk result (by_section.new.declarations ≡
        by_section.old.declarations ++ declarations_of entry) }
{
    match entry {
        SectionEntry::DeclarationEntry(located) => by_section
            .declarations
            .push(Box::into_inner(located)),
        put => add_section_entry(sections, &mut by_section.drafts, put),
    }
}

/// Creates an empty section for each segment.
fn new_drafts(alloc: Global, keys: &[u32]) -> Result<Vec<SectionDraft>, AllocError>
    ensures { IfOk result (λ drafts. drafts.items ≡ map (draft_of []) keys.now) }
{
    let mut drafts = Vec::new(alloc);
    for key in keys {
        drafts.push(SectionDraft {
            segment: *key,
            entries: ListVec::new(alloc),
        })?;
    }
    Ok(drafts)
}

/// Groups entries by the sections of these segments, and the declarations.
pub fn group_by_section(
    alloc: Global,
    sections: &IndexSet<u32>,
    entries: Vec<SectionEntry>,
) -> Result<EntriesBySection, AllocError>
    ensures drafts { IfOk result (λ p. p.drafts.items ≡
        map (draft_of entries.items) sections.now.keys) }
    ensures declarations { IfOk result (λ p.
        p.declarations ≡ flat_map declarations_of entries.items) }
{
    let mut by_section = EntriesBySection {
        drafts: new_drafts(alloc, sections.as_slice())?,
        declarations: ListVec::new(alloc),
    };
    for entry in entries {
        add_entry(sections, &mut by_section, entry)?;
    }
    Ok(by_section)
}
