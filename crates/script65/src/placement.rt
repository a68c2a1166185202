//! The segments to place, and their placement.

ghost use Rattle.std.specs.Prelude.{◌≡◌, Some};
ghost use Rattle.script65.specs.declared.placement.PlaceFault.TheVariants.{OutOfMemory};

use crate::fault::ByteDisplay;
use base65::ListVec;
use std::alloc::{AllocError, AllocFailed};
use std::error::Error;
use std::fmt;

/// A segment that a program needs: its size in bytes, with the gaps between its sections, and the
/// largest alignment of a section. The alignment doesn't determine where the segment begins.
#[derive(Drop)]
pub struct SegmentNeed {
    pub name: ListVec<u8>,
    pub size: u64,
    pub align: u32,
}

/// The start and size of an area, and the first address after its last row.
#[derive(Clone, Copy, Debug, PartialEq, Eq)]
pub struct AreaPlacement {
    pub start: u64,
    pub size: u64,
    pub last: u64,
}

/// The load address and the run address of a row's segment, and its size in bytes.
#[derive(Clone, Copy, Debug, PartialEq, Eq)]
pub struct RowPlacement {
    pub load: u64,
    pub run: u64,
    pub size: u64,
}

/// The placements of a script's areas and rows, in the script's order.
#[derive(Drop)]
pub struct Placement {
    pub areas: ListVec<AreaPlacement>,
    pub rows: ListVec<RowPlacement>,
}

/// An error of placing segments, with the name that it concerns.
#[derive(Debug, Drop)]
pub enum PlaceFault {
    OutOfMemory,
    /// A segment without a row.
    NoRow(ListVec<u8>),
    /// A row that isn't read-only runs in a read-only area.
    ReadOnlyArea(ListVec<u8>),
    /// A row that would begin below the end of the rows before it.
    StartBelow(ListVec<u8>),
    /// A row that would end after its area: the area's name, and by how many bytes.
    Overflow(ListVec<u8>, u128),
    /// A name in an area's sum whose value isn't known yet.
    NotPlaced(ListVec<u8>),
    /// An area whose start or size is negative or not below 2 ^ 32, or that ends after the last
    /// address.
    AreaOutOfRange(ListVec<u8>),
}

impl fmt::Display for PlaceFault {
    ghost use Rattle.script65.specs.Faults.{place_fault_text};

    ghost output = { λ x. Some (place_fault_text x) };

    fn fmt<W: fmt::Write>(&self, f: &mut fmt::Formatter<W>) -> fmt::Result {
        match self {
            PlaceFault::OutOfMemory => f.write_str("out of memory"),
            PlaceFault::NoRow(name) => {
                let name = ByteDisplay(name.as_slice());
                write!(f, "segment has no row: {name}")
            }
            PlaceFault::ReadOnlyArea(name) => {
                let name = ByteDisplay(name.as_slice());
                write!(f, "read-only area: {name}")
            }
            PlaceFault::StartBelow(name) => {
                let name = ByteDisplay(name.as_slice());
                write!(f, "start below what is placed: {name}")
            }
            PlaceFault::Overflow(name, bytes) => {
                let name = ByteDisplay(name.as_slice());
                write!(f, "overflow of {name} by {bytes} bytes")
            }
            PlaceFault::NotPlaced(name) => {
                let name = ByteDisplay(name.as_slice());
                write!(f, "name not yet placed: {name}")
            }
            PlaceFault::AreaOutOfRange(name) => {
                let name = ByteDisplay(name.as_slice());
                write!(f, "area value out of range: {name}")
            }
        }
    }
}

impl Error for PlaceFault {}

impl From<AllocError> for PlaceFault {
    ghost from_gives = { λ _ e. e ≡ OutOfMemory };

    fn from(_e: AllocError) -> PlaceFault {
        PlaceFault::OutOfMemory
    }
}

impl<T: Drop> From<AllocFailed<T>> for PlaceFault {
    ghost from_gives = { λ _ e. e ≡ OutOfMemory };

    fn from(_e: AllocFailed<T>) -> PlaceFault {
        PlaceFault::OutOfMemory
    }
}
