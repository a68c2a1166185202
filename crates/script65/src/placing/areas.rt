//! Places all areas and their rows, by the sizes that segments need.

ghost use Rattle.std.specs.Prelude.{◌≡◌, ℕ, List, IfOk, map, ◌<◌, ◌++◌, ◌∷◌, ◌==◌, [], Some, OnOk, length, slice_get, if◌then◌else◌, ◌≤◌};
ghost use Rattle.std.specs.Str.{bytes_eq};
ghost use Rattle.indexmap.specs.IndexMap.{get_by};
ghost use Rattle.indexmap.specs.IndexSet.{contains_by};
ghost use Rattle.base65.specs.Outcome.{Refines};
ghost use Rattle.script65.specs.Faults.{is_place_system_error};
ghost use Rattle.script65.specs.Placing.{has_row, rows_exist, size_of, unplaced_row, is_in, row_indices_in, areas_from, row_placement, rows_from, row_states_after};
ghost use Rattle.std.specs.Option.{option_map};
ghost use Rattle.script65.specs.declared.placing.row_placing.RowState.{RowState};
ghost use Rattle.script65.specs.declared.script.SegmentRow.{SegmentRow};

use crate::placement::{AreaPlacement, PlaceFault, RowPlacement, SegmentNeed};
use crate::placing::row_placing::{AreaContext, RowState};
use crate::placing::sums::{SumContext, row_placement};
use crate::script::{MemoryArea, SegmentRow};
use base65::ListVec;
use indexmap::{IndexMap, IndexSet};
use std::alloc::{AllocError, Global};

// Returns the names of rows.
fn names_of<'a>(alloc: Global, rows: &'a [SegmentRow]) -> Result<IndexSet<&'a [u8]>, AllocError>
    ensures { IfOk result (λ s. (name : List ℕ) →
        contains_by (λ k. bytes_eq name k.now) s ≡ has_row rows.now name) }
{
    let mut names = IndexSet::new(alloc);
    for row in rows {
        names.insert(row.name.as_slice())?;
    }
    Ok(names)
}

/// Rejects the first need that has no row.
pub fn check_rows(
    alloc: Global,
    rows: &[SegmentRow],
    needs: &[SegmentNeed],
) -> Result<(), PlaceFault>
    ensures { Refines is_place_system_error (λ x. x) result (rows_exist rows.now needs.now) }
{
    let names = names_of(alloc, rows)?;
    for need in needs {
        if !names.contains(need.name.as_slice()) {
            return Err(PlaceFault::NoRow(ListVec::copy_of(alloc, need.name.as_slice())?));
        }
    }
    Ok(())
}

// Returns the sizes of segments by name. Of two needs with one name the first counts, so it is
// inserted last.
fn sizes_of<'a>(
    alloc: Global,
    needs: &'a [SegmentNeed],
) -> Result<IndexMap<&'a [u8], u64>, AllocError>
    ensures { IfOk result (λ m. (name : List ℕ) →
        get_by (λ k. bytes_eq name k.now) m ≡ size_of needs.now name) }
{
    let mut sizes = IndexMap::new(alloc);
    for i in (0..needs.len()).rev() {
        let need = &needs[i];
        sizes.insert(need.name.as_slice(), need.size)?;
    }
    Ok(sizes)
}

/// Returns the states of the rows before any is placed.
pub fn unplaced_rows(
    alloc: Global,
    rows: &[SegmentRow],
    needs: &[SegmentNeed],
) -> Result<Vec<RowState>, AllocError>
    ensures { IfOk result (λ row_states. row_states.items ≡ map (unplaced_row needs.now) rows.now) }
{
    let sizes = sizes_of(alloc, needs)?;
    let mut row_states = Vec::new(alloc);
    for row in rows {
        row_states.push(RowState {
            size: sizes.get(row.name.as_slice()).copied(),
            run: 0,
            load: 0,
        })?;
    }
    Ok(row_states)
}

// Returns an empty list for each area.
fn no_members(alloc: Global, areas: usize) -> Result<Vec<ListVec<usize>>, AllocError>
    ensures { IfOk result (λ v. (k : ℕ) → k < areas → slice_get v.items k ≡ Some []) }
{
    let mut members = Vec::new(alloc);
    for _ in 0..areas {
        members.push(ListVec::new(alloc))?;
    }
    Ok(members)
}

// Adds a row to the members of an area, if there is such an area.
fn add_member(members: &mut Vec<ListVec<usize>>, area: usize, row: usize) -> Result<(), AllocError>
    ensures { OnOk result ((k : ℕ) → slice_get members.new.items k
        ≡ option_map (λ m. if area == k then m ++ row ∷ [] else m)
        (slice_get members.old.items k)) }
{
    if area < members.len() {
        members[area].push(row)?;
    }
    Ok(())
}

// Adds a row to the members of the areas in which it runs and loads.
fn add_row(
    members: &mut Vec<ListVec<usize>>,
    row: &SegmentRow,
    index: usize,
) -> Result<(), AllocError>
    ensures { OnOk result ((k : ℕ) → slice_get members.new.items k
        ≡ option_map (λ m. if is_in k row.now then m ++ index ∷ [] else m)
        (slice_get members.old.items k)) }
{
    add_member(members, row.run, index)?;
    if row.load != row.run {
        add_member(members, row.load, index)?;
    }
    Ok(())
}

/// Returns the indices of the rows of each area, in order.
pub fn members_of(
    alloc: Global,
    areas: usize,
    rows: &[SegmentRow],
) -> Result<Vec<ListVec<usize>>, AllocError>
    ensures { IfOk result (λ v. (k : ℕ) → k < areas →
        slice_get v.items k ≡ Some (row_indices_in k 0 rows.now)) }
{
    let mut members = no_members(alloc, areas)?;
    for (index, row) in rows.iter().enumerate() {
        add_row(&mut members, row, index)?;
    }
    Ok(members)
}

// Places a row of an area, and returns the address after it.
fn place_member(
    alloc: Global,
    context: &AreaContext,
    rows: &[SegmentRow],
    member: usize,
    row_states: &mut [RowState],
    cursor: u64,
) -> Result<u64, PlaceFault>
    requires row { member < length rows.now }
    requires spot { member < length row_states.old }
    requires capacity { cursor ≤ context.now.bounds.end }
    requires order { context.now.bounds.start ≤ context.now.bounds.end }
    requires small { context.now.bounds.end ≤ 8589934592 }
    ensures value { (r : SegmentRow) → (s : RowState) →
        slice_get rows.now member ≡ Some r → slice_get row_states.old member ≡ Some s →
        Refines is_place_system_error (λ end. (row_states.new, end)) result
        (row_states_after context.now.index context.now.area.now context.now.bounds r s cursor
        member row_states.old) }
    ensures bound { IfOk result (λ end. end ≤ context.now.bounds.end) }
{
    let (row_state, end) = context.place_row(alloc, &rows[member], row_states[member], cursor)?;
    row_states[member] = row_state;
    Ok(end)
}

// Places the rows of an area, and returns the address after the last one.
fn place_area(
    alloc: Global,
    context: &AreaContext,
    rows: &[SegmentRow],
    members: &[usize],
    row_states: &mut [RowState],
) -> Result<u64, PlaceFault>
    requires members { members.now ≡ row_indices_in context.now.index 0 rows.now }
    requires count { length row_states.old ≡ length rows.now }
    requires order { context.now.bounds.start ≤ context.now.bounds.end }
    requires small { context.now.bounds.end ≤ 8589934592 }
    ensures { Refines is_place_system_error (λ last. (row_states.new, last)) result
        (rows_from context.now.index context.now.area.now context.now.bounds rows.now row_states.old
        context.now.bounds.start) }
{
    let mut cursor = context.bounds.start;
    for member in members {
        cursor = place_member(alloc, context, rows, *member, row_states, cursor)?;
    }
    Ok(cursor)
}

/// Places all areas and the rows in them, by the indices in `members`. Returns the placements of
/// the areas.
pub fn place_areas(
    alloc: Global,
    areas: &[MemoryArea],
    rows: &[SegmentRow],
    members: &[ListVec<usize>],
    row_states: &mut [RowState],
) -> Result<ListVec<AreaPlacement>, PlaceFault>
    requires members { (k : ℕ) → k < length areas.now →
        slice_get members.now k ≡ Some (row_indices_in k 0 rows.now) }
    requires count { length row_states.old ≡ length rows.now }
    ensures { Refines is_place_system_error (λ placements.
        record { areas = placements; rows = map row_placement row_states.new }) result
        (areas_from 0 areas.now rows.now areas.now [] row_states.old) }
{
    let mut placements = ListVec::new(alloc);
    for (index, area) in areas.iter().enumerate() {
        let bounds = SumContext {
            index,
            area,
            areas,
            rows,
            area_placements: placements.as_slice(),
            row_states,
            start: None,
        }
        .bounds(alloc)?;
        let context = AreaContext {
            index,
            area,
            bounds,
        };
        let last = place_area(alloc, &context, rows, members[index].as_slice(), row_states)?;
        placements.push(AreaPlacement {
            start: bounds.start,
            size: bounds.end - bounds.start,
            last,
        })?;
    }
    Ok(placements)
}

/// Returns the placements of all rows.
pub fn row_placements(
    alloc: Global,
    row_states: &[RowState],
) -> Result<ListVec<RowPlacement>, AllocError>
    ensures { IfOk result (λ placements. placements ≡ map row_placement row_states.now) }
{
    let mut placements = ListVec::new(alloc);
    for row_state in row_states {
        placements.push(row_placement(*row_state))?;
    }
    Ok(placements)
}
