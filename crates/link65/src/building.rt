//! Builds a program from its modules, item by item.

ghost use Rattle.std.specs.Prelude.{◌≡◌, ◌≤◌, ◌<◌, ◌+◌, ◌-◌, ◌∷◌, [], Ok, OnOk, IfErr, IfOk, IfSome, true, None, Some, length, map, max, slice_get};
ghost use Rattle.object65.specs.Objects.{fragment_len};
ghost use Rattle.script65.specs.Placing.{rounded_up};
ghost use Rattle.link65.specs.CodeInvariants.{cells_of, segment_from, segments_from, NamesResolve, RepresentsPartialProgram, HasValidAlignment, partial_program_in, with_partial_segments, names_in, segment_index, with_gap, with_name};
ghost use Rattle.link65.specs.declared.parts.SegmentContent.{SegmentContent};
ghost use Rattle.link65.specs.declared.parts.SectionPosition.{SectionPosition};
ghost use Rattle.link65.specs.Faults.{is_memory};
ghost use Rattle.link65.specs.Growing.{without_open_module, empty_section, closed_program, program_with_item, with_empty_section, with_cells, with_section_fragment};
ghost use Rattle.link65.specs.Programs.{no_program, fragment_cells, segment_with_section};

use crate::fault::LinkFault;
use crate::parts::{
    LinkedModule, ModuleAssertion, ModuleExport, SectionPosition, SegmentContent, SegmentPiece,
    ValueFixup,
};
use base65::{ListVec, Seed};
use indexmap::IndexSet;
use object65::{Fragment, Item, Width};
use std::alloc::{AllocError, Global};
use std::mem;

/// The set of segment names, in the order of the segments.
pub type SegmentNames = IndexSet<Vec<u8>, Seed>;

/// The modules so far, and the segments, exports and assertions of these and of the open one.
#[derive(Drop)]
pub struct ProgramBuilder {
    pub alloc: Global,
    pub members: ListVec<LinkedModule>,
    /// The names of the segments, for finding a segment's index.
    pub names: SegmentNames,
    pub contents: Vec<SegmentContent>,
    pub exports: ListVec<ModuleExport>,
    pub asserts: ListVec<ModuleAssertion>,
    /// The positions of the open module's sections.
    pub sections: Vec<SectionPosition>,
    /// The indices of their segments.
    pub segment_indices: Vec<usize>,
    /// The names that the open module imports.
    pub imports: ListVec<ListVec<u8>>,
    /// The names of the open module's files.
    pub files: ListVec<ListVec<u8>>,
}

/// Adds two numbers. A sum that is too large is an allocation error.
fn sum(a: u64, b: u64) -> Result<u64, AllocError>
    ensures { IfOk result (λ n. n ≡ a + b) }
{
    match a.checked_add(b) {
        Some(n) => Ok(n),
        None => Err(AllocError),
    }
}

/// Begins a section in a segment. Returns its offset from the segment's start.
fn open_section(content: &mut SegmentContent, align: u32) -> Result<u64, AllocError>
    requires { 0 < align }
    ensures begin { IfOk result (λ n. n ≡ rounded_up content.old.size align) }
    ensures grown { OnOk result (segment_from content.new ≡
        record (with_gap (rounded_up content.old.size align - content.old.size)
        (segment_from content.old)) {
          size = rounded_up content.old.size align;
          align = max
              content.old.align align;
        }) }
    ensures name { OnOk result (content.new.name ≡ content.old.name) }
{
    let alignment = u64::from(align);
    let Some(begin) = content.size.div_ceil(alignment).checked_mul(alignment) else {
        return Err(AllocError);
    };
    let gap = (begin - content.size) as u32;
    if gap > 0 {
        content.pieces.push(SegmentPiece::Filled(gap))?;
    }
    content.size = begin;
    content.align = content.align.max(align);
    Ok(begin)
}

/// Returns the size of a fragment, in bytes.
fn fragment_size(fragment: &Fragment) -> u64
    ensures { result ≡ fragment_len fragment.now }
{
    match fragment {
        Fragment::Literal(bytes) => bytes.len() as u64,
        Fragment::Fill(count) => u64::from(*count),
        Fragment::Value {
            width,
            origin: _,
            form: _,
        } => match width {
            Width::Byte | Width::Branch => 1,
            Width::Word | Width::BigEndianWord => 2,
            Width::Dword => 4,
        },
    }
}

/// Returns a fragment of the module `owner` as a piece of a segment.
fn piece_of(owner: usize, fragment: Fragment) -> SegmentPiece
    ensures { cells_of (result ∷ []) ≡ fragment_cells owner fragment }
{
    match fragment {
        Fragment::Literal(bytes) => SegmentPiece::Known(bytes),
        Fragment::Fill(count) => SegmentPiece::Filled(count),
        Fragment::Value {
            width,
            origin,
            form,
        } => SegmentPiece::Deferred(ValueFixup {
            owner,
            width,
            origin,
            form,
        }),
    }
}

/// Adds a fragment to a segment.
fn add_fragment(
    content: &mut SegmentContent,
    owner: usize,
    len: u64,
    fragment: Fragment,
) -> Result<(), AllocError>
    requires { len ≡ fragment_len fragment }
    ensures grown { OnOk result (segment_from content.new ≡ with_cells (fragment_len fragment)
        (fragment_cells owner fragment) (segment_from content.old)) }
    ensures name { OnOk result (content.new.name ≡ content.old.name) }
{
    let size = sum(content.size, len)?;
    content.pieces.push(piece_of(owner, fragment))?;
    content.size = size;
    Ok(())
}

/// Returns the index of the segment of a name, if there is one.
pub fn segment_index(names: &SegmentNames, name: &[u8]) -> Option<usize>
    ensures index { result ≡ segment_index name.now (map (λ n. n.items) names.now.keys) }
    ensures within { IfSome result (λ i. i < length names.now.keys) }
{
    names.get_index_of(name)
}

/// Returns the index of the segment of a name. If there is none, one is begun.
fn find_or_add_segment(
    program_builder: &mut ProgramBuilder,
    name: &[u8],
) -> Result<usize, AllocError>
    requires { NamesResolve program_builder.old }
    ensures added { OnOk result (RepresentsPartialProgram program_builder.new
        (with_partial_segments (partial_program_in program_builder.old)
        (with_name name.now (segments_from program_builder.old.contents.items)))) }
    ensures index { IfOk result (λ i.
        segment_index name.now (names_in program_builder.new) ≡ Some i) }
    ensures within { IfOk result (λ i. i < length program_builder.new.contents.items) }
{
    if let Some(index) = segment_index(&program_builder.names, name) {
        return Ok(index);
    }
    let alloc = program_builder.alloc;
    let index = program_builder.contents.len();
    let key = Vec::from_slice(alloc, name)?;
    program_builder.contents.push(SegmentContent {
        name: ListVec::copy_of(alloc, name)?,
        size: 0,
        align: 1,
        pieces: ListVec::new(alloc),
    })?;
    program_builder.names.insert(key)?;
    Ok(index)
}

/// Begins a section of the open module, after the earlier sections of its segment.
fn begin_section(
    program_builder: &mut ProgramBuilder,
    name: ListVec<u8>,
    align: u8,
) -> Result<(), AllocError>
    requires named { NamesResolve program_builder.old }
    requires small { align ≤ 15 }
    ensures { OnOk result (RepresentsPartialProgram program_builder.new
        (with_empty_section (partial_program_in program_builder.old) (empty_section name align))) }
{
    let at = find_or_add_segment(program_builder, name.as_slice())?;
    let begin = open_section(&mut program_builder.contents[at], 1 << align)?;
    program_builder.sections.push(SectionPosition {
        segment: name,
        offset: begin,
        size: 0,
    })?;
    program_builder.segment_indices.push(at)?;
    Ok(())
}

/// Adds a fragment to the open module's section at an index, if there is such a section.
fn add_section_fragment(
    program_builder: &mut ProgramBuilder,
    k: usize,
    fragment: Fragment,
) -> Result<(), AllocError>
    requires { NamesResolve program_builder.old }
    ensures { OnOk result (RepresentsPartialProgram program_builder.new
        (with_section_fragment (partial_program_in program_builder.old) k fragment
        (slice_get program_builder.old.sections.items k))) }
{
    if k >= program_builder.sections.len() {
        return Ok(());
    }
    let owner = program_builder.members.len();
    let at = program_builder.segment_indices[k];
    let len = fragment_size(&fragment);
    let section = &mut program_builder.sections[k];
    section.size = sum(section.size, len)?;
    add_fragment(&mut program_builder.contents[at], owner, len, fragment)?;
    Ok(())
}

/// Adds an item of the open module.
pub fn add_item(program_builder: &mut ProgramBuilder, item: Item) -> Result<(), AllocError>
    requires named { NamesResolve program_builder.old }
    requires small { HasValidAlignment item }
    ensures { OnOk result (RepresentsPartialProgram program_builder.new
        (program_with_item (partial_program_in program_builder.old) item)) }
{
    let owner = program_builder.members.len();
    match item {
        Item::File(name) => program_builder.files.push(name)?,
        Item::Import(name) => program_builder.imports.push(name)?,
        Item::Section {
            name,
            size: _,
            align,
        } => begin_section(program_builder, name, align)?,
        Item::Part {
            section,
            offset: _,
            fragment,
        } => add_section_fragment(program_builder, section, fragment)?,
        Item::Export { name, origin, form } => program_builder.exports.push(ModuleExport {
            owner,
            name,
            origin,
            form,
        })?,
        Item::Assert {
            action,
            origin,
            text,
            form,
        } => program_builder.asserts.push(ModuleAssertion {
            owner,
            action,
            origin,
            text,
            form,
        })?,
        Item::End => {}
    }
    Ok(())
}

/// Ends the open module, which has this name.
pub fn end_module(program_builder: &mut ProgramBuilder, name: ListVec<u8>) -> Result<(), LinkFault>
    requires { NamesResolve program_builder.old }
    ensures ended { OnOk result (RepresentsPartialProgram program_builder.new
        (without_open_module (closed_program (partial_program_in program_builder.old) name))) }
    ensures memory { IfErr result (λ e. is_memory e ≡ true) }
{
    let alloc = program_builder.alloc;
    program_builder.segment_indices.clear();
    let sections = mem::replace(&mut program_builder.sections, Vec::new(alloc));
    let imports = mem::replace(&mut program_builder.imports, ListVec::new(alloc));
    let files = mem::replace(&mut program_builder.files, ListVec::new(alloc));
    program_builder.members.push(LinkedModule {
        name,
        sections: ListVec::from_vec(sections),
        imports,
        files,
    })?;
    Ok(())
}

/// Returns a program without modules.
pub fn empty_builder(alloc: Global, seed: Seed) -> ProgramBuilder
    ensures { RepresentsPartialProgram result (without_open_module no_program) }
{
    ProgramBuilder {
        alloc,
        members: ListVec::new(alloc),
        names: IndexSet::with_hasher(alloc, seed),
        contents: Vec::new(alloc),
        exports: ListVec::new(alloc),
        asserts: ListVec::new(alloc),
        sections: Vec::new(alloc),
        segment_indices: Vec::new(alloc),
        imports: ListVec::new(alloc),
        files: ListVec::new(alloc),
    }
}
