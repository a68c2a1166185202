//! The names of source files that entries refer to.

ghost use Rattle.std.specs.Prelude.{◌≡◌, IfOk, IfSome, Some, length, map, slice_get, string_bytes};
ghost use Rattle.std.specs.List.{IsDistinct};
ghost use Rattle.std.specs.Str.{bytes_eq};
ghost use Rattle.emit65.specs.SectionContents.{IsPrefix, names_in};

use base65::Seed;
use indexmap::IndexSet;
use std::alloc::{AllocError, Global};

/// The names of files, each once, in the order in which they were first requested.
#[derive(Drop)]
pub struct Files {
    pub table: IndexSet<String, Seed>,
    /// The index of the file that was requested last.
    last: Option<usize>,
}

impl Files {
    /// Creates an empty table of files.
    pub fn new(alloc: Global, seed: Seed) -> Self
        ensures { length (names_in result) ≡ 0 }
    {
        Files {
            table: IndexSet::with_hasher(alloc, seed),
            last: None,
        }
    }

    /// Returns the names, each once.
    pub fn names(&self) -> &[String]
        ensures names { map string_bytes result.now ≡ names_in self.now }
        ensures distinct { IsDistinct bytes_eq (names_in self.now) }
    {
        self.table.as_slice()
    }

    /// Returns the index of the file that was requested last, if it has this name.
    fn last_index_of(&self, name: &str) -> Option<usize>
        ensures { IfSome result (λ i. slice_get (names_in self.now) i ≡ Some name.now) }
    {
        let index = self.last?;
        let file = self.table.get_index(index)?;
        if file.as_str() == name {
            Some(index)
        } else {
            None
        }
    }

    /// Returns the index of a file by its name, which is added if it is new. Mostly it is the file that was
    /// requested last, which needs no lookup.
    pub fn index_of(&mut self, alloc: Global, name: &str) -> Result<usize, AllocError>
        ensures more { IsPrefix (names_in self.old) (names_in self.new) }
        ensures place { IfOk result (λ i. slice_get (names_in self.new) i ≡ Some name.now) }
    {
        if let Some(index) = self.last_index_of(name) {
            return Ok(index);
        }
        if let Some(index) = self.table.get_index_of(name) {
            self.last = Some(index);
            return Ok(index);
        }
        let (index, _) = self.table.insert_full(String::from_str(alloc, name)?)?;
        self.last = Some(index);
        Ok(index)
    }
}
