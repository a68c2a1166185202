//! Places the areas and rows of a script.

ghost use Rattle.base65.specs.Outcome.{RefinesProp, Refines};
ghost use Rattle.script65.specs.Faults.{is_place_system_error};
ghost use Rattle.script65.specs.Places.{PlacementResult};
ghost use Rattle.script65.specs.Placing.{place_of};

use crate::placement::{PlaceFault, Placement, SegmentNeed};
use crate::placing::areas::{check_rows, members_of, place_areas, row_placements, unplaced_rows};
use crate::script::Script;
use std::alloc::Global;

mod areas;
mod row_placing;
mod sums;

/// Places the areas and rows of a script, or returns the first error. Of two needs with one name the
/// first counts.
pub fn place(alloc: Global, script: &Script, needs: &[SegmentNeed]) -> Result<Placement, PlaceFault>
    ensures placement { RefinesProp is_place_system_error
        (PlacementResult script.now needs.now) result }
    ensures value { Refines is_place_system_error (λ p. p) result (place_of script.now needs.now) }
{
    let rows = script.rows.as_slice();
    check_rows(alloc, rows, needs)?;
    let members = members_of(alloc, script.areas.len(), rows)?;
    let mut row_states = unplaced_rows(alloc, rows, needs)?;
    let areas = script.areas.as_slice();
    let areas = place_areas(
        alloc,
        areas,
        rows,
        members.as_slice(),
        row_states.as_mut_slice(),
    )?;
    Ok(Placement {
        areas,
        rows: row_placements(alloc, row_states.as_slice())?,
    })
}
