//! The types of the symbol table: keys, definitions and entries of searches.

ghost use Rattle.std.specs.Prelude.{length, map, nat_eq};
ghost use Rattle.indexmap.specs.IndexMap.{get, keys};
ghost use Rattle.symbols65.specs.Tables.{AreCounted, AreDistinct, AreFinal, AreFinal-prop, AreInnerKnown, AreNumbered, AreSearched, AreSearched-prop, ArePast, entries_at, table_in, key_name_id, scope_name_id};

use super::interning::InternedName;
use base65::Seed;
use indexmap::{IndexMap, IndexSet};
use object65::Norm;
use semantics65::Context;
use std::alloc::Global;
use syntax65::{AddressSize, Expr};

/// The definition of a key.
#[derive(Drop)]
pub struct Definition {
    /// The expression of a constant. A label has none: its value is its address.
    pub value: Option<Expr>,
    pub context: Context,
    pub size: AddressSize,
    /// The form of a constant, if it is final: if it stays whatever statements follow.
    pub form: Option<Norm>,
    /// The index of a constant: if that has no number and no address, this one has none either, whatever statements
    /// follow.
    pub blocker: Option<usize>,
}

/// The key of a definition.
#[derive(Clone, Copy, Drop)]
pub enum Key<'a> {
    /// A name, directly in a scope.
    Named { scope: usize, name: &'a [u8] },
    /// A cheap label, in a region.
    Cheap { region: usize, name: &'a [u8] },
    /// The unnamed label with this many others before it.
    Unnamed(usize),
}

/// A key that has the number of its interned name in place of the name.
#[derive(Clone, Copy, PartialEq, Eq, Hash)]
pub enum InternedKey {
    Named { scope: usize, name_id: usize },
    Cheap { region: usize, name_id: usize },
    Unnamed(usize),
}

/// The key of a scope: the scope in which it was opened, and the number of its interned name. A scope without a name has
/// its index among all scopes instead.
#[derive(Clone, Copy, PartialEq, Eq, Hash)]
pub enum ScopeKey {
    Named { within: usize, name_id: usize },
    Nameless { within: usize, number: usize },
}

/// The result of searches for the form of a constant.
#[derive(Drop)]
pub enum SearchEntry {
    KnownForm(Norm),
    /// With this many definitions, the constant has no form, or its form is pending.
    NoForm(usize),
}

/// The results of searches, by the index of a constant.
pub type FormCache = IndexMap<usize, SearchEntry>;

/// A symbol table.
#[derive(Drop)]
pub struct Symbols {
    /// The allocator of this table. Functions that are given the table use it for all that they allocate.
    pub alloc: Global,
    /// The interned names. A lookup doesn't copy the name.
    pub interned_names: IndexSet<InternedName, Seed>,
    /// The definitions, in source order.
    pub definitions: IndexMap<InternedKey, Definition, Seed>,
    /// All scopes but the global one, in the order in which they were opened, and whether each was opened by `.proc`.
    /// The scope with number i + 1 is at index i.
    pub scopes: IndexMap<ScopeKey, bool, Seed>,
    /// The imports in the order in which they were first named.
    pub imports: IndexSet<Vec<u8>, Seed>,
    /// The names that were imported for the zero page.
    pub zero_page: IndexSet<Vec<u8>, Seed>,
    /// For each interned name, by its number, whether a scope other than the global one defines it. A missing item means
    /// no.
    pub inner: Vec<bool>,
    pub searched: FormCache,
    /// Whether some constant has no final form. If each has one, there is nothing to search for.
    pub has_unresolved: bool,
    ghost entries_numbered: { AreNumbered key_name_id (map (λ k. k.items) interned_names.keys)
        (keys definitions) },
    ghost counts_fit: { AreCounted (keys definitions) },
    ghost openings_numbered: { AreNumbered scope_name_id (map (λ k. k.items) interned_names.keys)
        (keys scopes) },
    ghost inner_known: { AreInnerKnown (keys definitions) inner.items },
    ghost openings_distinct: { AreDistinct (keys scopes) },
    ghost forms_final: { AreFinal (map (λ k. k.items) interned_names.keys) definitions.entries
        scopes.entries } by { AreFinal-prop
            (map (λ k. k.items) interned_names.keys) definitions.entries scopes.entries },
    ghost searches_hold: { AreSearched
        (table_in (map (λ k. k.items) interned_names.keys) definitions.entries scopes.entries
        (map (λ k. k.items) imports.keys) (map (λ k. k.items) zero_page.keys))
        (entries_at (length (table_in (map (λ k. k.items) interned_names.keys) definitions.entries
        scopes.entries (map (λ k. k.items) imports.keys)
        (map (λ k. k.items) zero_page.keys)).definitions) (get nat_eq searched)) } by { AreSearched-prop (table_in
            (map (λ k. k.items) interned_names.keys) definitions.entries
            scopes.entries (map (λ k. k.items) imports.keys) (map (λ k. k.items) zero_page.keys))
            (entries_at (length (table_in
            (map (λ k. k.items) interned_names.keys) definitions.entries
            scopes.entries (map (λ k. k.items) imports.keys)
            (map (λ k. k.items) zero_page.keys)).definitions) (get nat_eq searched)) },
    ghost searches_past: { ArePast
        (length (table_in (map (λ k. k.items) interned_names.keys) definitions.entries
        scopes.entries (map (λ k. k.items) imports.keys)
        (map (λ k. k.items) zero_page.keys)).definitions) (get nat_eq searched) },
}

impl Symbols {
    ghost use Rattle.std.specs.Prelude.{◌≡◌, []};
    ghost use Rattle.semantics65.specs.Symbols.{symbols_of};
    ghost use Rattle.symbols65.specs.Views.{table_of};

    /// Creates the symbol table before the first statement.
    pub fn new(alloc: Global, seed: Seed) -> Self
        ensures { table_of result ≡ symbols_of [] }
    {
        Symbols {
            alloc,
            interned_names: IndexSet::with_hasher(alloc, seed),
            definitions: IndexMap::with_hasher(alloc, seed),
            scopes: IndexMap::with_hasher(alloc, seed),
            imports: IndexSet::with_hasher(alloc, seed),
            zero_page: IndexSet::with_hasher(alloc, seed),
            inner: Vec::new(alloc),
            searched: IndexMap::new(alloc),
            has_unresolved: false,
        }
    }
}
