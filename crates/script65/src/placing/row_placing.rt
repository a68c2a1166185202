//! Places a row in an area.

ghost use Rattle.std.specs.Prelude.{◌≡◌, ◌≤◌, ◌+◌, Some, IfOk};
ghost use Rattle.base65.specs.Outcome.{Refines};
ghost use Rattle.script65.specs.Faults.{is_place_system_error};
ghost use Rattle.script65.specs.Placing.{begin_in, state_after_row, rounded_up, row_after, sized_row};

use crate::placement::PlaceFault;
use crate::script::{MemoryArea, RowStart, SegmentRow};
use base65::ListVec;
use std::alloc::Global;

/// The first address of an area, and the first address after it.
#[derive(Clone, Copy)]
pub struct Bounds {
    pub start: u64,
    pub end: u64,
}

/// A row: its size, if a module has its segment, and its run and load addresses, once it is placed.
#[derive(Clone, Copy)]
pub struct RowState {
    pub size: Option<u64>,
    pub run: u64,
    pub load: u64,
}

/// An area in which rows are placed, with its index in the script and its bounds.
#[derive(Clone, Copy)]
pub struct AreaContext<'a> {
    pub index: usize,
    pub area: &'a MemoryArea,
    pub bounds: Bounds,
}

// Returns the least multiple of an alignment that isn't below an address.
fn rounded_up(at: u64, align: u32) -> u64
    requires { at ≤ 8589934592 }
    ensures value { result ≡ rounded_up at align }
    ensures bound { result ≤ 12884901888 }
{
    if align == 0 {
        at
    } else {
        at.div_ceil(u64::from(align)) * u64::from(align)
    }
}

// Returns the address at which a row begins.
#[tactic(auto, unfolding(crate::specs::Placing::begin_in))]
fn begin_in(index: usize, bounds: Bounds, row: &SegmentRow, cursor: u64) -> u64
    requires capacity { cursor ≤ 8589934592 }
    requires small { bounds.start ≤ 8589934592 }
    ensures value { result ≡ begin_in index bounds row.now cursor }
    ensures bound { result ≤ 12884901888 }
{
    if row.run != index {
        return rounded_up(cursor, row.align_load);
    }
    match row.begin {
        RowStart::Aligned => rounded_up(cursor, row.align),
        RowStart::Start(start) => u64::from(start),
        RowStart::Offset(offset) => bounds.start + u64::from(offset),
    }
}

#[tactic(auto, unfolding(crate::specs::Placing::state_after_row))]
fn with_address(index: usize, row: &SegmentRow, at: u64, row_state: RowState) -> RowState
    ensures { result ≡ state_after_row index row.now at row_state }
{
    RowState {
        size: row_state.size,
        run: if row.run == index { at } else { row_state.run },
        load: if row.load == index {
            at
        } else {
            row_state.load
        },
    }
}

impl AreaContext<'_> {
    // Places a row that has a size, at or after the cursor.
    #[tactic(auto, unfolding(crate::specs::Placing::place_sized_row))]
    fn place_sized(
        &self,
        alloc: Global,
        row: &SegmentRow,
        row_state: RowState,
        size: u64,
        cursor: u64,
    ) -> Result<(RowState, u64), PlaceFault>
        requires capacity { cursor ≤ 8589934592 }
        requires small { self.now.bounds.start ≤ 8589934592 }
        ensures value { Refines is_place_system_error (λ x. x) result
            (sized_row self.now.index self.now.area.now self.now.bounds row.now row_state
            (Some size) cursor) }
        ensures bound { IfOk result (λ x. x.1 ≤ self.now.bounds.end) }
    {
        let at = begin_in(self.index, self.bounds, row, cursor);
        if at < cursor {
            return Err(PlaceFault::StartBelow(ListVec::copy_of(alloc, row.name.as_slice())?));
        }
        let limit = u128::from(self.bounds.end);
        let end = u128::from(at) + u128::from(size);
        if limit < end {
            let name = ListVec::copy_of(alloc, self.area.name.as_slice())?;
            return Err(PlaceFault::Overflow(name, end - limit));
        }
        Ok((with_address(self.index, row, at, row_state), at + size))
    }

    /// Places a row at or after the cursor, and returns it with the next cursor.
    #[tactic(auto, unfolding(crate::specs::Placing::row_after))]
    pub fn place_row(
        &self,
        alloc: Global,
        row: &SegmentRow,
        row_state: RowState,
        cursor: u64,
    ) -> Result<(RowState, u64), PlaceFault>
        requires room { cursor ≤ self.now.bounds.end }
        requires order { self.now.bounds.start ≤ self.now.bounds.end }
        requires small { self.now.bounds.end ≤ 8589934592 }
        ensures value { Refines is_place_system_error (λ x. x) result
            (row_after self.now.index self.now.area.now self.now.bounds row.now row_state cursor) }
        ensures bound { IfOk result (λ x. x.1 ≤ self.now.bounds.end) }
    {
        if self.area.read_only && row.run == self.index && !row.access.is_read_only() {
            return Err(PlaceFault::ReadOnlyArea(ListVec::copy_of(alloc, row.name.as_slice())?));
        }
        match row_state.size {
            None => Ok((with_address(self.index, row, cursor, row_state), cursor)),
            Some(size) => self.place_sized(alloc, row, row_state, size, cursor),
        }
    }
}
