//! Libraries of objects: their bytes, their members, and which members a link needs.
#![tactic(auto)]

mod contents;
mod fault;
mod index;
mod indexing;
pub mod laws;
mod library;
mod loading;
mod selecting;
mod writing;

pub use contents::are_same;
pub use fault::LibraryFault;
pub use index::{Entry, Index, Names};
pub use indexing::read_index;
pub use library::{Library, MemberNames};
pub use selecting::select;
