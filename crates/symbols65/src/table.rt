//! The symbol table: definitions by key, scopes by name, and imports. Lookups don't allocate.

mod defining;
mod interning;
mod symbols;

ghost use Rattle.std.specs.Prelude.{◌≡◌, ◌++◌, ◌∷◌, [], IfOk, None, OnErr, OnOk, Some, length, map, position, ◌<◌, IfSome, slice_get, true, false, ℕ, suc, List};
ghost use Rattle.std.specs.Option.{option_map};
ghost use Rattle.std.specs.Str.{bytes_eq};
ghost use Rattle.indexmap.specs.IndexMap.{keys, index_map_len};
ghost use Rattle.semantics65.specs.Layout.{opened_twice};
ghost use Rattle.semantics65.specs.Symbols.{with_new_names, enclosing, scope_in, parent_scope, definition_index, import_index, named};
ghost use Rattle.symbols65.specs.Tables.{IsPrefixOf, IsScopeKey, same_scope_key, StoresFinalForm, definition_view, interned_key_of, key_of, same_interned_key};
ghost use Rattle.symbols65.specs.Views.{table_of, with_names, with_scope, interned_names_of, key_at};
ghost use Rattle.semantics65.specs.Norms.{is_zero_page_name};

use base65::{ListVec, Seed};
pub use defining::define;
use indexmap::{IndexMap, IndexSet};
use interning::{InternedName, NameQuery};
use smallvec::SmallVec;
use std::alloc::{AllocError, Global};
pub use symbols::{Definition, FormCache, InternedKey, Key, ScopeKey, SearchEntry, Symbols};

/// Interns a name and returns its number.
fn intern(
    alloc: Global,
    interned_names: &mut IndexSet<InternedName, Seed>,
    name: &[u8],
) -> Result<usize, AllocError>
    ensures more { IsPrefixOf (map (λ k. k.items) interned_names.old.keys)
        (map (λ k. k.items) interned_names.new.keys) }
    ensures number { IfOk result (λ w.
        position (bytes_eq name.now) (map (λ k. k.items) interned_names.new.keys) ≡ Some w) }
{
    let (name_id, _) = interned_names.insert_full(SmallVec::from_slice(alloc, name)?)?;
    Ok(name_id)
}

/// Adds a scope whose key isn't in the table.
fn push_scope(
    scopes: &mut IndexMap<ScopeKey, bool, Seed>,
    scope_key: ScopeKey,
    is_proc: bool,
) -> Result<(), AllocError>
    requires { position (same_scope_key scope_key) (keys scopes.old) ≡ None }
    ensures pushed { OnOk result (scopes.new.entries ≡
        scopes.old.entries ++ (scope_key, is_proc) ∷ []) }
    ensures unchanged { OnErr result (scopes.new.entries ≡ scopes.old.entries) }
{
    match scopes.insert(scope_key, is_proc) {
        Ok(_) => Ok(()),
        Err(_) => Err(AllocError),
    }
}

/// Adds the names that aren't in the set yet.
fn add_names(
    alloc: Global,
    known: &mut IndexSet<Vec<u8>, Seed>,
    names: &[ListVec<u8>],
) -> Result<(), AllocError>
    ensures { OnOk result (map (λ k. k.items) known.new.keys ≡
        with_new_names (map (λ k. k.items) known.old.keys) names.now) }
{
    for name in names {
        known.insert(Vec::from_slice(alloc, name.as_slice())?)?;
    }
    Ok(())
}

impl Symbols {
    /// Returns the number of a name, if it is interned.
    pub fn name_id(&self, name: &[u8]) -> Option<usize>
        ensures { result ≡ position (bytes_eq name.now) (interned_names_of self.now) }
    {
        self.interned_names.get_index_of(NameQuery(name))
    }

    fn interned_key(&self, key: Key<'_>) -> Option<InternedKey>
        ensures { result ≡ interned_key_of (interned_names_of self.now) (key_of key.entry) }
    {
        match key {
            Key::Named { scope, name } => {
                let name_id = self.name_id(name)?;
                Some(InternedKey::Named { scope, name_id })
            }
            Key::Cheap { region, name } => {
                let name_id = self.name_id(name)?;
                Some(InternedKey::Cheap { region, name_id })
            }
            Key::Unnamed(count) => Some(InternedKey::Unnamed(count)),
        }
    }

    /// Returns whether a scope other than the global one may define an interned name.
    pub fn is_inner(&self, name_id: usize) -> bool
        ensures { result ≡ false → (scope : ℕ) (n : List ℕ) →
            position (bytes_eq n) (interned_names_of self.now) ≡ Some name_id →
            definition_index (table_of self.now) (named (suc scope) n) ≡ None }
    {
        match self.inner.get(name_id) {
            Some(is_inner) => *is_inner,
            None => false,
        }
    }

    /// Returns the index of the definition of an interned name in a scope, if it has one.
    pub fn defined_in(&self, scope: usize, name_id: usize) -> Option<usize>
        ensures { (n : List ℕ) → position (bytes_eq n) (interned_names_of self.now) ≡ Some name_id →
            result ≡ definition_index (table_of self.now) (named scope n) }
    {
        self.index_of_key(InternedKey::Named { scope, name_id })
    }

    pub fn index_of_key(&self, entry: InternedKey) -> Option<usize>
        ensures { result ≡ position (same_interned_key entry) (keys self.now.definitions) }
    {
        self.definitions.get_index_of(&entry)
    }

    /// Returns the index of the definition of a key, if it has one.
    pub fn defined(&self, key: Key<'_>) -> Option<usize>
        ensures { result ≡ definition_index (table_of self.now) (key_of key.entry) }
    {
        self.index_of_key(self.interned_key(key)?)
    }

    /// Returns the number of definitions.
    pub fn definition_count(&self) -> usize
        ensures { result ≡ length (table_of self.now).definitions }
    {
        self.definitions.len()
    }

    pub fn scope_index(&self, scope_key: ScopeKey) -> Option<usize>
        ensures index { result ≡ position (same_scope_key scope_key) (keys self.now.scopes) }
        ensures within { IfSome result (λ i. i < index_map_len self.now.scopes) }
    {
        self.scopes.get_index_of(&scope_key)
    }

    /// Returns the scope of this name that was opened directly in another scope, if there is one.
    pub fn scope_in(&self, within: usize, name: &[u8]) -> Option<usize>
        ensures { result ≡ scope_in (table_of self.now).scopes within name.now }
    {
        let name_id = self.name_id(name)?;
        match self.scope_index(ScopeKey::Named { within, name_id }) {
            Some(index) if index < self.scopes.len() => Some(index + 1),
            _ => None,
        }
    }

    /// Returns the number of scopes that were opened.
    pub fn scope_count(&self) -> usize
        ensures { result ≡ length (table_of self.now).scopes }
    {
        self.scopes.len()
    }

    /// Returns the scope in which a scope was opened; the global scope if there is none.
    pub fn enclosing(&self, scope: usize) -> usize
        ensures { result ≡ enclosing (table_of self.now).scopes scope }
    {
        match scope.checked_sub(1) {
            Some(index) => self.within(index),
            None => 0,
        }
    }

    /// Returns the scope in which the scope at an index was opened, or the global scope if there is none at the
    /// index.
    fn within(&self, index: usize) -> usize
        ensures { result ≡ parent_scope (slice_get (table_of self.now).scopes index) }
    {
        match self.scopes.get_index(index) {
            Some((ScopeKey::Named { within, name_id: _ }, _)) => *within,
            Some((ScopeKey::Nameless { within, number: _ }, _)) => *within,
            None => 0,
        }
    }

    /// Returns the definition at an index, if there is one.
    pub fn definition(&self, index: usize) -> Option<&Definition>
        ensures definition { slice_get (table_of self.now).definitions index ≡ option_map (λ d.
            definition_view (key_at self.now index) d.now) result }
        ensures entry { option_map (λ d. d.now) result ≡
            option_map (λ e. e.1) (slice_get self.now.definitions.entries index) }
        ensures forms { IfSome result (λ d.
            StoresFinalForm (table_of self.now) index
            (definition_view (key_at self.now index) d.now) d.now) }
    {
        let (_, definition) = self.definitions.get_index(index)?;
        Some(definition)
    }

    /// Returns true only if the definition at an index is that of a name directly in a scope.
    pub fn is_in(&self, index: usize, scope: usize) -> bool
        ensures { result ≡ true → (n : List ℕ) × (key_at self.now index ≡ named scope n) }
    {
        match self.definitions.get_index(index) {
            Some((InternedKey::Named { scope: own, .. }, _)) => *own == scope,
            _ => false,
        }
    }

    /// Returns the index of a name among the imports, if it is imported.
    pub fn imported(&self, name: &[u8]) -> Option<usize>
        ensures { result ≡ import_index (table_of self.now) name.now }
    {
        self.imports.get_index_of(name)
    }

    /// Returns whether a name was imported for the zero page.
    pub fn is_zero_page(&self, name: &[u8]) -> bool
        ensures { result ≡ is_zero_page_name (table_of self.now) name.now }
    {
        self.zero_page.contains(name)
    }

    /// Interns a name and returns its number.
    pub fn intern_name(&mut self, name: &[u8]) -> Result<usize, AllocError>
        ensures table { table_of self.new ≡ table_of self.old }
        ensures definitions { self.new.definitions ≡ self.old.definitions }
        ensures scopes { self.new.scopes ≡ self.old.scopes }
        ensures number { IfOk result (λ w.
            position (bytes_eq name.now) (interned_names_of self.new) ≡ Some w) }
    {
        intern(self.alloc, &mut self.interned_names, name)
    }

    /// Returns the key of a new scope. Interns its name, if it has one.
    fn new_scope_key(&mut self, within: usize, name: Option<&[u8]>) -> Result<ScopeKey, AllocError>
        ensures table { table_of self.new ≡ table_of self.old }
        ensures scopes { self.new.scopes ≡ self.old.scopes }
        ensures opening { IfOk result (λ k.
            IsScopeKey (interned_names_of self.new) (length self.new.scopes.entries) within
            (option_map (λ n. n.now) name.entry) k) }
    {
        match name {
            Some(name) => {
                let name_id = self.intern_name(name)?;
                Ok(ScopeKey::Named { within, name_id })
            }
            None => {
                let number = self.scopes.len();
                Ok(ScopeKey::Nameless { within, number })
            }
        }
    }

    /// Opens a scope within another. The result is unspecified if the outer scope already has a scope of this name.
    pub fn open_scope(
        &mut self,
        within: usize,
        name: Option<&[u8]>,
        is_proc: bool,
    ) -> Result<(), AllocError>
        ensures { OnOk result (opened_twice (table_of self.old).scopes within
            (option_map (λ n. n.now) name.entry) ≡ None →
            table_of self.new ≡ with_scope (table_of self.old)
            (record {
              within = within;
              name = option_map
                  (λ n. n.now) name.entry;
              is_proc = is_proc;
            })) }
    {
        let scope_key = self.new_scope_key(within, name)?;
        if self.scope_index(scope_key).is_some() {
            return Ok(());
        }
        self.searched.clear();
        push_scope(&mut self.scopes, scope_key, is_proc)
    }

    /// Imports names, for the zero page if `is_zero_page`.
    pub fn import(&mut self, names: &[ListVec<u8>], is_zero_page: bool) -> Result<(), AllocError>
        ensures { OnOk result (table_of self.new ≡
            with_names (table_of self.old) is_zero_page names.now) }
    {
        let alloc = self.alloc;
        self.searched.clear();
        add_names(alloc, &mut self.imports, names)?;
        if is_zero_page {
            add_names(alloc, &mut self.zero_page, names)?;
        }
        Ok(())
    }
}
