//! The index of a library, and the names that may occur in it.

ghost use Rattle.std.specs.Prelude.{◌≡◌, map, ◌++◌, ◌∷◌, [], Ok, false};
ghost use Rattle.object65.specs.Objects.{is_among};
ghost use Rattle.std.specs.List.{list_all};
ghost use Rattle.base65.specs.Outcome.{Refines};
ghost use Rattle.library65.specs.Fault.{is_memory};
ghost use Rattle.library65.specs.Spelling.{is_among, is_folder, is_member_name, is_plain};

use crate::LibraryFault;
use base65::{ListVec, is_utf8};
use indexmap::IndexSet;
use std::alloc::Global;

/// A set of names, in the order of insertion.
pub type Names = IndexSet<Vec<u8>>;

/// Returns whether a name is in the set.
pub fn has_name(names: &IndexSet<Vec<u8>>, name: &[u8]) -> bool
    ensures { result ≡ is_among (map (λ n. n.items) names.now.keys) name.now }
{
    names.contains(name)
}

/// A member's entry in an index.
#[derive(Drop)]
pub struct Entry {
    pub name: ListVec<u8>,
    /// The offset of the member's bytes in the library's file.
    pub place: u64,
    /// Its size in bytes.
    pub size: u32,
    /// The names that it exports, in its order.
    pub exports: ListVec<ListVec<u8>>,
    /// The names that it imports, in its order.
    pub imports: ListVec<ListVec<u8>>,
}

/// The index of a library: its members in file order.
#[derive(Drop)]
pub struct Index {
    pub entries: ListVec<Entry>,
}

/// A member's entry in an index, before its offset is known.
#[derive(Drop)]
pub struct UnplacedEntry {
    pub name: ListVec<u8>,
    pub size: u32,
    pub exports: ListVec<ListVec<u8>>,
    pub imports: ListVec<ListVec<u8>>,
}

fn is_plain_name(name: &[u8]) -> bool
    ensures { result ≡ list_all is_plain name.now }
{
    name.iter()
        .all(|b| !(*b < 0x20) && !(*b == 0x7f) && !(*b == b'/'))
}

/// Returns whether a member may have the name.
pub fn is_file_name(name: &[u8]) -> bool
    ensures { result ≡ is_member_name name.now }
{
    !name.is_empty()
        && name.len() < 256
        && is_plain_name(name)
        && is_utf8(name)
        && name != b".".as_slice()
        && name != b"..".as_slice()
}
