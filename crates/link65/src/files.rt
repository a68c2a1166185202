//! The files of memory areas, made of the bytes of their rows.

ghost use Rattle.std.specs.Prelude.{◌≡◌, ◌<◌, ◌++◌, ◌∷◌, ◌==◌, [], ℕ, List, Some, IfOk, OnOk, length, map, slice_get, if◌then◌else◌, true};
ghost use Rattle.std.specs.Option.{option_map};
ghost use Rattle.link65.specs.Internal.Loads.{HasRowImages, IsFileOf, piece_at, placed_row_of, view, AreFileNames, IsSinglePiece, OverlaysPieces, OverlaysBytes};
ghost use Rattle.link65.specs.Files.{RowBytes, is_loaded, written_row_bytes, end_after, file_len, AddsArea, AddsAreas, IsAreaFile, area_at, file_name, with_bytes};
ghost use Rattle.base65.specs.declared.output.OutputFile.{OutputFile};

use base65::{ListVec, OutputFile, PathString};
use indexmap::IndexSet;
use script65::{
    AreaOutput, AreaPlacement, MemoryArea, Placement, RowPlacement, Script, SegmentRow,
};
use std::alloc::{AllocError, Global};
use std::mem;

/// A row, its placement, and its bytes.
#[derive(Drop)]
pub struct RowImage<'a> {
    pub row: &'a SegmentRow,
    pub placement: RowPlacement,
    pub bytes: ListVec<u8>,
}

/// An area, its placement, and the rows of its file.
#[derive(Drop)]
pub struct AreaImage<'b, 'a> {
    pub area: &'b MemoryArea,
    pub placement: AreaPlacement,
    pub loads: ListVec<RowImage<'a>>,
}

/// Moves out the list at an index. The lists after it are unchanged.
fn move_out<T: Drop>(alloc: Global, all: &mut Vec<ListVec<T>>, i: usize) -> ListVec<T>
    ensures accepted { (x : List T) → slice_get all.old.items i ≡ Some x → result ≡ x }
    ensures others { (j : ℕ) → i < j → slice_get all.new.items j ≡ slice_get all.old.items j }
{
    if i >= all.len() {
        return ListVec::new(alloc);
    }
    mem::replace(&mut all[i], ListVec::new(alloc))
}

/// Returns an empty list of rows for each area.
fn no_loads<'a>(alloc: Global, areas: usize) -> Result<Vec<ListVec<RowImage<'a>>>, AllocError>
    ensures { IfOk result (λ v. (k : ℕ) → k < areas → slice_get v.items k ≡ Some []) }
{
    let mut loads = Vec::new(alloc);
    for _ in 0..areas {
        loads.push(ListVec::new(alloc))?;
    }
    Ok(loads)
}

/// Adds a row to those of its load area, if it is written and there is such an area.
fn add_row<'a>(loads: &mut Vec<ListVec<RowImage<'a>>>, load: RowImage<'a>) -> Result<(), AllocError>
    ensures { OnOk result ((k : ℕ) → slice_get loads.new.items k
        ≡ option_map (λ m. if is_loaded k load.entry.row.now then m ++ load.entry ∷ [] else m)
        (slice_get loads.old.items k)) }
{
    let area = load.row.load;
    if load.row.access.is_written() && area < loads.len() {
        loads[area].push(load)?;
    }
    Ok(())
}

/// Returns the rows of each area's file, in order, each with its bytes.
fn loads_of<'a>(
    alloc: Global,
    areas: usize,
    rows: &'a [SegmentRow],
    placements: &[RowPlacement],
    mut contents: Vec<ListVec<u8>>,
) -> Result<Vec<ListVec<RowImage<'a>>>, AllocError>
    ensures { IfOk result (λ v. (bytes : RowBytes) →
        contents.items ≡ map (written_row_bytes bytes) rows.entry.now → (k : ℕ) → k < areas →
        HasRowImages bytes k rows.entry.now placements.now (slice_get v.items k)) }
{
    let mut loads = no_loads(alloc, areas)?;
    for (i, row) in rows.iter().enumerate() {
        let bytes = move_out(alloc, &mut contents, i);
        match placements.get(i).copied() {
            Some(placement) => add_row(
                &mut loads,
                RowImage {
                    row,
                    placement,
                    bytes,
                },
            )?,
            None => (),
        }
    }
    Ok(loads)
}

/// Copies bytes into an image at an offset. Bytes past the end of the image are dropped.
fn overlay(image: &mut [u8], at: usize, bytes: &[u8])
    ensures { OverlaysBytes image.old at bytes.now image.new }
{
    if at < image.len() {
        let remaining = image.len() - at;
        let len = bytes.len().min(remaining);
        image[at..at + len].copy_from_slice(&bytes[..len]);
    }
}

/// Copies the bytes of each row, in order, into the image of their area.
fn overlay_rows(image: &mut [u8], start: u64, loads: &[RowImage<'_>])
    ensures { OverlaysPieces (map (piece_at start) (map view loads.now)) image.old image.new }
{
    for load in loads {
        let offset = load.placement.load.saturating_sub(start);
        overlay(image, offset as usize, load.bytes.as_slice());
    }
}

/// Returns the offset after the last row of a size above 0; 0 if there is none.
fn end_of(start: u64, loads: &[RowImage<'_>]) -> u128
    ensures { result ≡ end_after start 0 (map placed_row_of loads.now) }
{
    let mut end = 0;
    for load in loads {
        if load.placement.size != 0 {
            let offset = load.placement.load.saturating_sub(start);
            end = u128::from(offset) + u128::from(load.placement.size);
        }
    }
    end
}

/// Returns the length of an area's file.
fn file_len(filled: &AreaImage<'_, '_>) -> u128
    ensures { result ≡ file_len filled.now.area.now filled.now.placement
        (map placed_row_of filled.now.loads) }
{
    if filled.area.fill {
        u128::from(filled.placement.size)
    } else {
        end_of(filled.placement.start, filled.loads.as_slice())
    }
}

/// Returns true only if the bytes of a single row are the whole file of this length.
fn is_single_piece(len: usize, start: u64, loads: &[RowImage<'_>]) -> bool
    ensures { result ≡ true → IsSinglePiece len (map (piece_at start) (map view loads.now)) }
{
    match loads {
        [load] => load.placement.load <= start && load.bytes.len() == len,
        _ => false,
    }
}

/// Returns the bytes of an area's file, all in memory: those of rows, and the fill value in gaps. If one row is the
/// whole file, its bytes aren't copied.
fn area_file(alloc: Global, filled: AreaImage<'_, '_>) -> Result<ListVec<u8>, AllocError>
    ensures { IfOk result (λ image.
        IsFileOf filled.entry.area.now filled.entry.placement (map view filled.entry.loads) image) }
{
    let Ok(len) = usize::try_from(file_len(&filled)) else {
        return Err(AllocError);
    };
    let start = filled.placement.start;
    let mut loads = filled.loads.into_vec();
    loads.retain(|load| load.bytes.len() != 0);
    if is_single_piece(len, start, loads.as_slice()) {
        return Ok(mem::replace(&mut loads[0].bytes, ListVec::new(alloc)));
    }
    let mut image = vec![in alloc; filled.area.fill_value; len]?;
    overlay_rows(image.as_mut_slice(), start, loads.as_slice());
    Ok(ListVec::from_vec(image))
}

/// Returns the name of an area's file, given the name of the linker's output.
fn file_name<'a>(output: &'a str, file: &'a AreaOutput) -> &'a str
    ensures { result.now ≡ file_name output.entry.now file.entry.now }
{
    match file {
        AreaOutput::Output => output,
        AreaOutput::Named(name) => match std::str::from_utf8(name.as_slice()) {
            Ok(name) => name,
            Err(_) => "",
        },
    }
}

/// Files in the order in which they are written, with their names.
#[derive(Drop)]
pub struct OutputFiles<'a> {
    pub names: IndexSet<&'a str>,
    pub outputs: Vec<OutputFile>,
}

impl<'a> OutputFiles<'a> {
    /// Appends bytes to the file of a name, or adds that file after the others.
    fn add(&mut self, alloc: Global, name: &'a str, bytes: ListVec<u8>) -> Result<(), AllocError>
        requires { AreFileNames self.old }
        ensures files { OnOk result (self.new.outputs.items ≡
            with_bytes name.entry.now bytes self.old.outputs.items) }
        ensures named { OnOk result (AreFileNames self.new) }
    {
        let (index, is_new) = self.names.insert_full(name)?;
        if is_new {
            let name = PathString::copy_of(alloc, name)?;
            self.outputs.push(OutputFile { name, bytes })?;
            return Ok(());
        }
        self.outputs[index]
            .bytes
            .extend_from_slice(bytes.as_slice())?;
        Ok(())
    }

    /// Adds the file of an area, if it has a name.
    fn add_area(
        &mut self,
        alloc: Global,
        name: &'a str,
        filled: AreaImage<'_, '_>,
    ) -> Result<(), AllocError>
        requires { AreFileNames self.old }
        ensures files { OnOk result (AddsArea (length name.entry.now == 0) name.entry.now
            (IsFileOf filled.entry.area.now filled.entry.placement (map view filled.entry.loads))
            self.old.outputs.items self.new.outputs.items) }
        ensures named { OnOk result (AreFileNames self.new) }
    {
        if name.is_empty() {
            return Ok(());
        }
        let image = area_file(alloc, filled)?;
        self.add(alloc, name, image)
    }
}

/// Returns the placement of the area at an index of the script; all 0 if there is none.
fn area_at(placement: &Placement, k: usize) -> AreaPlacement
    ensures { result ≡ area_at placement.now k }
{
    match placement.areas.as_slice().get(k) {
        Some(area_placement) => *area_placement,
        None => AreaPlacement {
            start: 0,
            size: 0,
            last: 0,
        },
    }
}

/// Returns the files of all areas, given the placement of the script's areas and rows, and the bytes of the rows, none
/// of one that isn't written.
pub fn files_of(
    alloc: Global,
    output: &str,
    script: &Script,
    contents: Vec<ListVec<u8>>,
    placement: &Placement,
) -> Result<ListVec<OutputFile>, AllocError>
    ensures { IfOk result (λ files. (bytes : RowBytes) →
        contents.items ≡ map (written_row_bytes bytes) script.now.rows →
        AddsAreas output.now
        (IsAreaFile script.now.rows placement.now bytes) 0 script.now.areas [] files) }
{
    let areas = script.areas.as_slice();
    let rows = script.rows.as_slice();
    let mut loads = loads_of(
        alloc,
        areas.len(),
        rows,
        placement.rows.as_slice(),
        contents,
    )?;
    let mut files = OutputFiles {
        names: IndexSet::new(alloc),
        outputs: Vec::new(alloc),
    };
    for (k, area) in areas.iter().enumerate() {
        let name = file_name(output, &area.file);
        let filled = AreaImage {
            area,
            placement: area_at(placement, k),
            loads: move_out(alloc, &mut loads, k),
        };
        files.add_area(alloc, name, filled)?;
    }
    Ok(ListVec::from_vec(files.outputs))
}
