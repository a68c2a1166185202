//! The contents of sections as they are assembled, and the object made of them.
#![tactic(auto)]

mod entries;
mod files;
mod fixups;
pub mod laws;
mod numbering;
mod sections;

pub use entries::{LocatedDeclaration, SectionEntry, SourcePos};
pub use files::Files;
pub use fixups::{Fixup, FixupKind};
pub use numbering::Imports;
pub use sections::{ClosedSections, Sections};
