//! Sections while statements are assembled, and after the last one.

ghost use Rattle.std.specs.Prelude.{◌≡◌, ◌<◌, length, IfOk, map, [], List, replicate, true, OnOk};
ghost use Rattle.semantics65.specs.Contents.{section_part, Content, ReservedBytes, Known, LinkTimeValue, section_request};
ghost use Rattle.semantics65.specs.Module.{Slot, resolved};
ghost use Rattle.semantics65.specs.Views.{location_in};
ghost use Rattle.emit65.specs.SectionContents.{location_of_pos, IsPrefix, names_in, names_of, deferred_slot, AppendsSlot, HasSlots, RepresentsSlots};
ghost use Rattle.object65.specs.Objects.{is_well_formed_object, ObjectFits};
ghost use Rattle.semantics65.specs.Numbering.{object_with, AreWellFormedContents};

use crate::entries::{Entries, SectionEntry, SourcePos};
use crate::files::Files;
use crate::fixups::{Fixup, FixupKind};
use crate::numbering::{Imports, narrow, number, object_of};
use base65::Seed;
use indexmap::IndexSet;
use object65::{Norm, Object, Width};
use semantics65::{Context, LocationRef, Segment};
use std::alloc::{AllocError, Global};

impl Files {
    /// Returns a location with the index of its file.
    fn pos_of(&mut self, alloc: Global, at: LocationRef<'_>) -> Result<SourcePos, AllocError>
        ensures more { IsPrefix (names_in self.old) (names_in self.new) }
        ensures listed { IfOk result (λ o. o.file < length (names_in self.new)) }
        ensures location { IfOk result (λ o. location_of_pos (names_in self.new) o
            ≡ location_in at.entry.file.now at.entry.line) }
    {
        let index = self.index_of(alloc, at.file)?;
        Ok(SourcePos {
            file: narrow(index)?,
            line: at.line,
        })
    }
}

/// The section contents, declarations and fixups of the statements so far, in source order. Adjacent bytes of a
/// section share one buffer.
#[derive(Drop)]
pub struct Sections {
    /// The segments whose section was requested.
    requested: IndexSet<u32>,
    /// The segment whose section was requested last, if there is one.
    latest: Option<u32>,
    /// The files of values, declarations and fixups.
    files: Files,
    entries: Entries,
}

impl Sections {
    /// Creates sections without contents or declarations.
    pub fn new(alloc: Global, seed: Seed) -> Self
        ensures { RepresentsSlots [] result }
    {
        Sections {
            requested: IndexSet::new(alloc),
            latest: None,
            files: Files::new(alloc, seed),
            entries: Entries::new(alloc),
        }
    }

    /// Makes sure that a segment has a section. Sections are in the order of their first requests.
    pub fn request_section(&mut self, segment: u32) -> Result<(), AllocError>
        ensures { OnOk result (AppendsSlot self.old self.new (resolved (section_request segment))) }
    {
        if let Some(latest) = self.latest {
            if latest == segment {
                return Ok(());
            }
        }
        self.requested.insert(segment)?;
        self.latest = Some(segment);
        Ok(())
    }

    /// Appends bytes to the section of a segment.
    pub fn append(&mut self, segment: u32, bytes: &[u8]) -> Result<(), AllocError>
        ensures { OnOk result
            (AppendsSlot self.old self.new (resolved (section_part segment (Known bytes.now)))) }
    {
        self.entries.add_bytes(segment, bytes)?;
        Ok(())
    }

    /// Appends `count` bytes of one value to the section of a segment.
    pub fn fill(&mut self, segment: u32, count: u32, byte: u8) -> Result<(), AllocError>
        ensures { OnOk result (AppendsSlot self.old self.new
            (resolved (section_part segment (Known (replicate count byte))))) }
    {
        let mut bytes = Vec::new(self.entries.alloc);
        bytes.resize(count as usize, byte)?;
        self.entries.add_bytes(segment, bytes.as_slice())?;
        Ok(())
    }

    /// Reserves `count` bytes, which the linker fills, in the section of a segment.
    pub fn reserve_bytes(&mut self, segment: u32, count: u32) -> Result<(), AllocError>
        ensures { OnOk result
            (AppendsSlot self.old self.new
            (resolved (section_part segment (ReservedBytes count)))) }
    {
        self.entries.add_reserved(segment, count)?;
        Ok(())
    }

    /// Appends a value that the linker computes to the section of a segment, with its statement's location.
    pub fn value(
        &mut self,
        segment: u32,
        width: Width,
        at: LocationRef<'_>,
        form: Norm,
    ) -> Result<(), AllocError>
        ensures { OnOk result (AppendsSlot self.old self.new (resolved
            (section_part segment
            (LinkTimeValue width (location_in at.entry.file.now at.entry.line) form)))) }
    {
        let pos = self.files.pos_of(self.entries.alloc, at)?;
        self.entries.push(SectionEntry::Value {
            width,
            segment,
            pos,
            form,
        })?;
        Ok(())
    }

    /// Records a fixup for a piece of a statement, to be resolved after the last line, with the
    /// statement's location.
    pub fn defer(
        &mut self,
        at: LocationRef<'_>,
        context: Context,
        piece: FixupKind,
    ) -> Result<(), AllocError>
        ensures { OnOk result (AppendsSlot self.old self.new
            (deferred_slot (location_in at.entry.file.now at.entry.line) context piece)) }
    {
        let pos = self.files.pos_of(self.entries.alloc, at)?;
        let fixup = Fixup {
            pos,
            context,
            piece,
        };
        let fixup = Box::new(self.entries.alloc, fixup)?;
        self.entries.push(SectionEntry::FixupEntry(fixup))?;
        Ok(())
    }

    /// Closes the sections after the last statement.
    pub fn close(self) -> Result<ClosedSections, AllocError>
        ensures { IfOk result (λ t. (xs : List Slot) → RepresentsSlots xs self → HasSlots xs t) }
    {
        let Sections {
            requested,
            latest: _,
            files,
            entries,
        } = self;
        let entries = entries.into_list()?;
        Ok(ClosedSections {
            requested,
            files,
            entries,
        })
    }
}

/// The sections after the last statement. Their entries no longer grow.
#[derive(Drop)]
pub struct ClosedSections {
    /// The segments whose section was requested.
    pub requested: IndexSet<u32>,
    /// The files that entries refer to.
    pub files: Files,
    pub entries: Vec<SectionEntry>,
}

impl ClosedSections {
    /// Makes the object of a module, from its segments, the names of its imports in the order of
    /// their keys, and the entries, none of which is pending.
    pub fn finish(
        self,
        alloc: Global,
        segments: &[Segment],
        imports: &Imports,
    ) -> Result<Object, AllocError>
        ensures object { IfOk result (λ o. (cs : List Content) → HasSlots (map resolved cs) self →
            o ≡ object_with segments.now (names_of imports.now) cs) }
        ensures numbers { IfOk result ObjectFits }
        ensures good { IfOk result (λ o. (cs : List Content) → HasSlots (map resolved cs) self →
            AreWellFormedContents segments.now (names_of imports.now) cs →
            is_well_formed_object o ≡ true) }
    {
        let ClosedSections {
            requested,
            files,
            entries,
        } = self;
        let numbered = number(alloc, imports, requested, entries)?;
        object_of(alloc, segments, imports, files.names(), numbered)
    }
}
