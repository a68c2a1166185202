//! Section contents, declarations and pending fixups, in source order.

ghost use Rattle.std.specs.Prelude.{◌≡◌, ◌+◌, ℕ, List, [], ◌∷◌, length, map, true, OnOk, IfOk};
ghost use Rattle.semantics65.specs.Contents.{ReservedBytes, Known, section_part};
ghost use Rattle.semantics65.specs.Module.{resolved};
ghost use Rattle.emit65.specs.SectionContents.{AreEquivalentSlots, slot_of, slots_in, has_file_below, IsAdded, HaveFilesBelow, AppendsSlots, AppendsSlotsWithFiles};

use crate::fixups::Fixup;
use base65::ListVec;
use object65::{Norm, Width};
use semantics65::Declaration;
use std::alloc::{AllocError, Global};
use std::mem;

/// The source location of a part that may be written to an object: the index of its file, and the
/// line.
#[derive(Clone, Copy)]
pub struct SourcePos {
    pub file: u32,
    pub line: u32,
}

/// One declaration of a statement, with its location.
#[derive(Drop)]
pub struct LocatedDeclaration {
    pub pos: SourcePos,
    pub said: Declaration,
}

/// A part of a section, a declaration, or a pending fixup. A large source has very many entries, so
/// they are small: the order of the fields is their order in memory, and the width of a value is
/// stored beside the variant's tag.
#[derive(Drop)]
pub enum SectionEntry {
    /// Bytes in the section of a segment.
    Bytes {
        segment: u32,
        bytes: ListVec<u8>,
    },
    /// This many bytes of the linker's fill value, in the section of a segment.
    Reserve {
        segment: u32,
        count: u32,
    },
    /// A value that the linker computes, in the section of a segment.
    Value {
        width: Width,
        segment: u32,
        pos: SourcePos,
        form: Norm,
    },
    /// A declaration. It is large and rare.
    DeclarationEntry(Box<LocatedDeclaration>),
    /// A pending fixup. It is large and rare.
    FixupEntry(Box<Fixup>),
}

/// The initial capacity for the bytes after an entry. Most entries are followed by fewer bytes, so
/// they cause no further allocation.
const FEW_BYTES: usize = 24;

/// Entries in source order. The open part at the end, bytes and then reserved bytes in one section,
/// may still grow.
#[derive(Drop)]
pub struct Entries {
    pub alloc: Global,
    pub done: Vec<SectionEntry>,
    /// The segment of the open part.
    pub segment: u32,
    pub bytes: ListVec<u8>,
    pub reserve: u32,
}

/// Returns the sum of two byte counts. No section has more than 32 bits can count, so a larger sum
/// counts as out of memory.
pub fn sum_of(left: u32, right: u32) -> Result<u32, AllocError>
    ensures { IfOk result (λ n. n ≡ left + right) }
{
    left.checked_add(right).ok_or(AllocError)
}

impl Entries {
    pub fn new(alloc: Global) -> Self
        ensures none { (files : List (List ℕ)) → AreEquivalentSlots [] (slots_in files result) }
        ensures file_bounds { (count : ℕ) → HaveFilesBelow count result.done.items }
    {
        Entries {
            alloc,
            done: Vec::new(alloc),
            segment: 0,
            bytes: ListVec::new(alloc),
            reserve: 0,
        }
    }

    /// Adds an entry before the open part.
    fn add(&mut self, entry: SectionEntry) -> Result<(), AllocError>
        ensures { OnOk result (IsAdded self.old self.new entry) }
    {
        self.done.push(entry)?;
        Ok(())
    }

    /// Makes the bytes of the open part an entry.
    fn close_bytes(&mut self) -> Result<(), AllocError>
        ensures same { OnOk result (AppendsSlots self.old self.new []) }
        ensures none { OnOk result (self.new.bytes ≡ []) }
        ensures reserve { OnOk result (self.new.reserve ≡ self.old.reserve) }
    {
        if self.bytes.len() > 0 {
            let segment = self.segment;
            let following = ListVec::from_vec(Vec::with_capacity(self.alloc, FEW_BYTES)?);
            let bytes = mem::replace(&mut self.bytes, following);
            self.add(SectionEntry::Bytes { segment, bytes })?;
        }
        Ok(())
    }

    /// Makes the open part entries, so that nothing is open.
    fn close(&mut self) -> Result<(), AllocError>
        ensures same { OnOk result (AppendsSlots self.old self.new []) }
        ensures bytes { OnOk result (self.new.bytes ≡ []) }
        ensures reserve { OnOk result (self.new.reserve ≡ 0) }
    {
        self.close_bytes()?;
        if self.reserve > 0 {
            let segment = self.segment;
            let count = self.reserve;
            self.reserve = 0;
            self.add(SectionEntry::Reserve { segment, count })?;
        }
        Ok(())
    }

    /// Makes the open part one in this segment. Closes the part of another segment.
    fn open_part(&mut self, segment: u32) -> Result<(), AllocError>
        ensures same { OnOk result (AppendsSlots self.old self.new []) }
        ensures segment { OnOk result (self.new.segment ≡ segment) }
        ensures reserve { OnOk result (self.old.reserve ≡ 0 → self.new.reserve ≡ 0) }
    {
        if self.segment == segment {
            return Ok(());
        }
        self.close()?;
        self.segment = segment;
        Ok(())
    }

    /// Adds bytes to the section of a segment.
    pub fn add_bytes(&mut self, segment: u32, bytes: &[u8]) -> Result<(), AllocError>
        ensures { OnOk result
            (AppendsSlots self.old self.new
            (resolved (section_part segment (Known bytes.now)) ∷ [])) }
    {
        if self.reserve > 0 {
            self.close()?;
        }
        self.open_part(segment)?;
        self.bytes.extend_from_slice(bytes)?;
        Ok(())
    }

    /// Reserves `count` bytes in the section of a segment.
    pub fn add_reserved(&mut self, segment: u32, count: u32) -> Result<(), AllocError>
        ensures { OnOk result
            (AppendsSlots self.old self.new
            (resolved (section_part segment (ReservedBytes count)) ∷ [])) }
    {
        self.open_part(segment)?;
        self.reserve = sum_of(self.reserve, count)?;
        Ok(())
    }

    /// Adds an entry after the open part, which it closes.
    pub fn push(&mut self, entry: SectionEntry) -> Result<(), AllocError>
        ensures { OnOk result ((files : List (List ℕ)) →
            has_file_below (length files) entry ≡ true →
            AppendsSlotsWithFiles files self.old self.new (slot_of files entry ∷ [])) }
    {
        self.close()?;
        self.add(entry)?;
        Ok(())
    }

    /// Closes the open part, and returns all entries.
    pub fn into_list(self) -> Result<Vec<SectionEntry>, AllocError>
        ensures equivalent { IfOk result (λ list. (files : List (List ℕ)) →
            AreEquivalentSlots (slots_in files self) (map (slot_of files) list.items)) }
        ensures file_bounds { IfOk result (λ list. (files : List (List ℕ)) →
            HaveFilesBelow (length files) self.done.items →
            HaveFilesBelow (length files) list.items) }
    {
        let mut all = self;
        all.close()?;
        let Entries { done, .. } = all;
        Ok(done)
    }
}
