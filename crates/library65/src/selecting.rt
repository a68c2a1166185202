//! Selects the members of a library that a link needs.

ghost use Rattle.std.specs.Prelude.{◌≡◌, ◌<◌, ℕ, List, Some, if◌then◌else◌, IfOk, OnOk, IfSome, length, ◌++◌, ◌∷◌, [], false, map, get_or, replicate, IfErr};
ghost use Rattle.std.specs.Str.{bytes_eq};
ghost use Rattle.indexmap.specs.IndexMap.{get_by};
ghost use Rattle.object65.specs.Objects.{is_among};
ghost use Rattle.library65.specs.Internal.Searching.{ExtendsSearch, IsSearchState, IsExporterTable, SearchInvariant, marked_indices_from};
ghost use Rattle.library65.specs.Selection.{first_exporter, imports_at, IsSelection};
ghost use Rattle.std.specs.List.{AllByRecursion};

use crate::LibraryFault;
use crate::index::{Entry, Index, Names, has_name};
use base65::ListVec;
use indexmap::IndexMap;
use std::alloc::{AllocError, Global};

/// The index of the first member that exports each name.
#[derive(Drop)]
pub struct Exporters<'a> {
    pub entries: &'a [Entry],
    pub by_name: IndexMap<&'a [u8], usize>,
}

/// Sets the exporter of each of these names to the member at an index.
fn add_exports<'a>(
    by_name: &mut IndexMap<&'a [u8], usize>,
    names: &'a [ListVec<u8>],
    index: usize,
) -> Result<(), AllocError>
    ensures { OnOk result ((name : List ℕ) →
        get_by (λ k. bytes_eq name k.now) by_name.new ≡
        (if is_among names.entry.now name then Some index else get_by
        (λ k. bytes_eq name k.now) by_name.old)) }
{
    for name in names {
        by_name.insert(name.as_slice(), index)?;
    }
    Ok(())
}

impl<'a> Exporters<'a> {
    /// Returns the first exporters in a list of members. The members are added from last to first, so
    /// that the first exporter replaces the others.
    pub fn of(alloc: Global, entries: &'a [Entry]) -> Result<Self, AllocError>
        ensures table { IfOk result IsExporterTable }
        ensures entries { IfOk result (λ t. t.entries.now ≡ entries.entry.now) }
    {
        let mut by_name = IndexMap::new(alloc);
        for index in (0..entries.len()).rev() {
            let entry = &entries[index];
            add_exports(&mut by_name, entry.exports.as_slice(), index)?;
        }
        Ok(Exporters { entries, by_name })
    }

    /// Returns the index of the first member that exports a name, if there is one.
    pub fn get(&self, name: &[u8]) -> Option<usize>
        requires { IsExporterTable self.now }
        ensures place { result ≡ first_exporter self.now.entries.now name.now }
        ensures within { IfSome result (λ i. i < length self.now.entries.now) }
    {
        self.by_name.get(name).copied()
    }

    /// Returns the imports of the member at an index.
    pub fn imports(&self, index: usize) -> &'a [ListVec<u8>]
        ensures { result.now ≡ imports_at self.now.entries.now index }
    {
        match self.entries.get(index) {
            Some(entry) => entry.imports.as_slice(),
            None => &[],
        }
    }
}

/// The members that were found so far.
#[derive(Drop)]
pub struct FoundMembers {
    /// Whether each member was found.
    pub marks: Vec<bool>,
    /// The members in the order in which they were found.
    pub indices: Vec<usize>,
}

/// Finds the first exporter of a name that isn't defined.
fn find_name(
    exporters: &Exporters<'_>,
    defined: &Names,
    found: &mut FoundMembers,
    name: &[u8],
) -> Result<(), AllocError>
    requires { SearchInvariant exporters.now found.old }
    ensures { OnOk result (ExtendsSearch exporters.now (map (λ n. n.items) defined.now.keys)
        (name.now ∷ []) found.old found.new) }
{
    if has_name(defined, name) {
        return Ok(());
    }
    match exporters.get(name) {
        None => Ok(()),
        Some(index) => {
            if found.marks[index] {
                return Ok(());
            }
            found.indices.push(index)?;
            found.marks[index] = true;
            Ok(())
        }
    }
}

/// Finds the first exporters of a member's imports that aren't defined.
fn find_imports(
    exporters: &Exporters<'_>,
    defined: &Names,
    found: &mut FoundMembers,
    names: &[ListVec<u8>],
) -> Result<(), AllocError>
    requires { SearchInvariant exporters.now found.old }
    ensures { OnOk result
        (ExtendsSearch exporters.now
        (map (λ n. n.items) defined.now.keys) names.now found.old found.new) }
{
    for name in names {
        find_name(exporters, defined, found, name.as_slice())?;
    }
    Ok(())
}

/// Finds the first exporters of the wanted names that aren't defined.
fn find_wanted(
    exporters: &Exporters<'_>,
    defined: &Names,
    found: &mut FoundMembers,
    names: &[Vec<u8>],
) -> Result<(), AllocError>
    requires { SearchInvariant exporters.now found.old }
    ensures { OnOk result (ExtendsSearch exporters.now (map (λ n. n.items) defined.now.keys)
        (map (λ n. n.items) names.now) found.old found.new) }
{
    for name in names {
        find_name(exporters, defined, found, name.as_slice())?;
    }
    Ok(())
}

/// Finds all members that are needed: the first exporters of the wanted names and, repeatedly, of the
/// imports of the members found. Names that are defined are skipped.
pub fn find_all(
    exporters: &Exporters<'_>,
    wanted: &Names,
    defined: &Names,
    found: &mut FoundMembers,
) -> Result<(), AllocError>
    requires invariant { SearchInvariant exporters.now found.old }
    requires none { found.old.indices.items ≡ [] }
    ensures found { OnOk result (IsSearchState exporters.now.entries.now
        (map (λ n. n.items) wanted.now.keys)
        (map (λ n. n.items) defined.now.keys) found.new.indices.items
        (length found.new.indices.items)) }
    ensures invariant { OnOk result (SearchInvariant exporters.now found.new) }
{
    find_wanted(exporters, defined, found, wanted.as_slice())?;
    let mut next = 0;
    while next < found.indices.len() {
        let imports = exporters.imports(found.indices[next]);
        find_imports(exporters, defined, found, imports)?;
        next += 1;
    }
    Ok(())
}

/// Returns the indices that are marked, in ascending order.
pub fn marked_indices(alloc: Global, marks: &[bool]) -> Result<Vec<usize>, AllocError>
    ensures { IfOk result (λ indices. indices.items ≡ marked_indices_from 0 marks.now) }
{
    let mut indices = Vec::new(alloc);
    for (index, mark) in marks.iter().enumerate() {
        if *mark {
            indices.push(index)?;
        }
    }
    Ok(indices)
}

/// Returns the members that a link needs: the first exporters of the names in a least set. The set
/// has the wanted names that aren't defined; and with each name those that its first exporter
/// imports and that aren't defined. The indices are ascending. The only error is *out of memory*.
pub fn select(
    alloc: Global,
    index: &Index,
    wanted: &Names,
    defined: &Names,
) -> Result<Vec<usize>, LibraryFault>
    ensures selected { IfOk result (λ indices.
        IsSelection index.now.entries (map (λ n. n.items) wanted.now.keys)
        (map (λ n. n.items) defined.now.keys) indices.items) }
    ensures within { IfOk result (λ indices.
        AllByRecursion (λ i. i < length index.now.entries) indices.items) }
    ensures memory { IfErr result (λ e. e ≡ LibraryFault.OutOfMemory) }
{
    let exporters = Exporters::of(alloc, index.entries.as_slice())?;
    let mut found = FoundMembers {
        marks: vec![in alloc; false; index.entries.len()]?,
        indices: Vec::new(alloc),
    };
    find_all(&exporters, wanted, defined, &mut found)?;
    Ok(marked_indices(alloc, found.marks.as_slice())?)
}
