//! Evaluates the sums of areas.

ghost use Rattle.std.specs.Prelude.{◌≡◌, ◌≤◌, ◌++◌, ◌^◌, IfOk, codes, is_some, map, slice_get};
ghost use Rattle.script65.specs.declared.script.MemoryArea.{MemoryArea};
ghost use Rattle.script65.specs.declared.script.SegmentRow.{SegmentRow};
ghost use Rattle.base65.specs.Outcome.{Refines};
ghost use Rattle.script65.specs.Faults.{is_place_system_error};
ghost use Rattle.script65.specs.Internal.SumContexts.{sum_context_in};
ghost use Rattle.script65.specs.Placing.{row_placement};
ghost use Rattle.script65.specs.AreaSums.{bounds_in, is_known, operand_name, operand_value, known_placements, sum_by, sum_in, first_unknown};

use crate::placement::{AreaPlacement, PlaceFault, RowPlacement};
use crate::placing::row_placing::{Bounds, RowState};
use crate::script::{AreaAttribute, MemoryArea, Operand, RowAttribute, SegmentRow, Term};
use crate::sums::difference;
use base65::ListVec;
use std::alloc::{AllocError, Global};

/// The context of an area's sums: the area and its index in the script, the script's areas and rows, the placements of the
/// areas before it and of the rows, and its own start, once that is known.
#[derive(Clone, Copy)]
pub struct SumContext<'a> {
    pub index: usize,
    pub area: &'a MemoryArea,
    pub areas: &'a [MemoryArea],
    pub rows: &'a [SegmentRow],
    pub area_placements: &'a [AreaPlacement],
    pub row_states: &'a [RowState],
    pub start: Option<u64>,
}

pub fn row_placement(row_state: RowState) -> RowPlacement
    ensures { result ≡ row_placement row_state }
{
    RowPlacement {
        load: row_state.load,
        run: row_state.run,
        size: row_state.size.unwrap_or(0),
    }
}

// Returns `__N_PART__`, from the area's or row's name N and the ending.
fn attribute_name(alloc: Global, name: &[u8], ending: &[u8]) -> Result<ListVec<u8>, AllocError>
    ensures { IfOk result (λ text. text ≡ codes "__" ++ (name.now ++ ending.now)) }
{
    let mut text = ListVec::copy_of(alloc, b"__")?;
    text.extend_from_slice(name)?;
    text.extend_from_slice(ending)?;
    Ok(text)
}

impl SumContext<'_> {
    // Returns the placement of the area at an index, as far as it is known.
    fn area_placement(&self, index: usize) -> Option<AreaPlacement>
        ensures { result ≡ slice_get (known_placements (sum_context_in self.now)) index }
    {
        match self.start {
            Some(start) if index == self.area_placements.len() => Some(AreaPlacement {
                start,
                size: 0,
                last: start,
            }),
            _ => self.area_placements.get(index).copied(),
        }
    }

    fn operand_value(&self, operand: Operand) -> u64
        ensures { result ≡ operand_value (known_placements (sum_context_in self.now))
            (map row_placement self.now.row_states.now) operand }
    {
        match operand {
            Operand::Number(number) => u64::from(number),
            Operand::Area(index, part) => match self.area_placement(index) {
                Some(placement) => match part {
                    AreaAttribute::Start => placement.start,
                    AreaAttribute::Size => placement.size,
                    AreaAttribute::Last => placement.last,
                },
                None => 0,
            },
            Operand::Row(row, part) => match self.row_states.get(row) {
                Some(row_state) => match part {
                    RowAttribute::Load => row_state.load,
                    RowAttribute::Run => row_state.run,
                    RowAttribute::Size => row_state.size.unwrap_or(0),
                },
                None => 0,
            },
        }
    }

    fn is_known(&self, term: Term) -> bool
        ensures { result ≡ is_known self.now.index (is_some self.now.start) self.now.rows.now term }
    {
        match term.operand {
            Operand::Number(_) => true,
            Operand::Area(index, part) => match part {
                AreaAttribute::Start => {
                    index < self.index || (self.start.is_some() && index == self.index)
                }
                AreaAttribute::Size | AreaAttribute::Last => index < self.index,
            },
            Operand::Row(row, part) => match self.rows.get(row) {
                Some(row) => match part {
                    RowAttribute::Load => row.load < self.index,
                    RowAttribute::Run => row.run < self.index,
                    RowAttribute::Size => true,
                },
                None => false,
            },
        }
    }

    // Returns the first term whose value isn't known.
    fn first_unknown(&self, terms: &[Term]) -> Option<Term>
        ensures { result ≡ first_unknown (sum_context_in self.now) terms.now }
    {
        for term in terms {
            if !self.is_known(*term) {
                return Some(*term);
            }
        }
        None
    }

    // Returns the name of an operand in the script. That of a number is empty.
    fn operand_name(&self, alloc: Global, operand: Operand) -> Result<ListVec<u8>, AllocError>
        ensures { IfOk result (λ name.
            name ≡ operand_name self.now.areas.now self.now.rows.now operand) }
    {
        match operand {
            Operand::Number(_) => Ok(ListVec::new(alloc)),
            Operand::Area(index, part) => match self.areas.get(index) {
                Some(area) => attribute_name(alloc, area.name.as_slice(), part.ending()),
                None => attribute_name(alloc, b"", part.ending()),
            },
            Operand::Row(row, part) => match self.rows.get(row) {
                Some(row) => attribute_name(alloc, row.name.as_slice(), part.ending()),
                None => attribute_name(alloc, b"", part.ending()),
            },
        }
    }

    // Returns the sum of the added terms less that of the subtracted ones.
    fn sum_by(&self, terms: &[Term]) -> Option<u32>
        ensures { result ≡ sum_by (known_placements (sum_context_in self.now))
            (map row_placement self.now.row_states.now) terms.now }
    {
        let mut added = 0u128;
        let mut subtracted = 0u128;
        for term in terms {
            let value = u128::from(self.operand_value(term.operand));
            if term.minus {
                subtracted += value;
            } else {
                added += value;
            }
        }
        difference(added, subtracted)
    }

    // Returns the sum of terms, or an error: of the first term that isn't known, or else of the sum.
    fn sum(&self, alloc: Global, terms: &[Term]) -> Result<u32, PlaceFault>
        ensures { Refines is_place_system_error (λ n. n) result
            (sum_in (sum_context_in self.now) terms.now) }
    {
        if let Some(term) = self.first_unknown(terms) {
            return Err(PlaceFault::NotPlaced(self.operand_name(alloc, term.operand)?));
        }
        match self.sum_by(terms) {
            Some(sum) => Ok(sum),
            None => {
                let name = ListVec::copy_of(alloc, self.area.name.as_slice())?;
                Err(PlaceFault::AreaOutOfRange(name))
            }
        }
    }

    /// Returns the first address of the area, and the first address after it.
    pub fn bounds(&self, alloc: Global) -> Result<Bounds, PlaceFault>
        requires { self.now.start ≡ None }
        ensures value { Refines is_place_system_error (λ b. b) result
            (bounds_in (sum_context_in self.now)) }
        ensures order { IfOk result (λ b. b.start ≤ b.end) }
        ensures small { IfOk result (λ b. b.end ≤ 2 ^ 32) }
    {
        let start = self.sum(alloc, self.area.start.as_slice())?;
        let begun = SumContext {
            start: Some(u64::from(start)),
            ..*self
        };
        let size = begun.sum(alloc, self.area.size.as_slice())?;
        let start = u64::from(start);
        let end = start + u64::from(size);
        if end > 1 << 32 {
            let name = ListVec::copy_of(alloc, self.area.name.as_slice())?;
            return Err(PlaceFault::AreaOutOfRange(name));
        }
        Ok(Bounds { start, end })
    }
}
