//! Linker scripts: reads the memory areas, segment rows and symbols that a script defines, and places the segments of a
//! program.
#![tactic(auto)]

mod fault;
pub mod laws;
mod placement;
mod placing;
mod reading;
mod script;
mod sums;

pub use fault::{ByteDisplay, Fault, ScriptFault};
pub use placement::{AreaPlacement, PlaceFault, Placement, RowPlacement, SegmentNeed};
pub use placing::place;
pub use reading::read_script;
pub use script::{
    AreaAttribute, AreaOutput, MemoryArea, Operand, RowAttribute, RowStart, Script, SegmentRow,
    SegmentType, Symbol, SymbolKind, Term,
};
