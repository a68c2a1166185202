//! Adds definitions to a symbol table.

ghost use Rattle.std.specs.Prelude.{◌≡◌, ◌++◌, ◌∷◌, [], IfOk, None, OnErr, OnOk, Some, false, length, nat_eq, position, slice_get, true, ℕ};
ghost use Rattle.indexmap.specs.IndexMap.{get, keys};
ghost use Rattle.semantics65.specs.Symbols.{Definition as TableDefinition, definition_index};
ghost use Rattle.symbols65.specs.Resolving.{KeepsBindings};
ghost use Rattle.symbols65.specs.Tables.{IsCounted, IsInnerKnown, StoresFinalForm, definition_view, interned_key_of, key_of, same_interned_key};
ghost use Rattle.symbols65.specs.Views.{table_of, with_definition, interned_names_of};

use super::symbols::{Definition, InternedKey, Key, SearchEntry, Symbols};
use base65::Seed;
use indexmap::IndexMap;
use semantics65::GLOBAL_SCOPE;
use std::alloc::AllocError;

/// The number of the global scope.
const GLOBAL: usize = GLOBAL_SCOPE as usize;

/// Interns the name of a key, if it has one, and returns the interned key.
fn entry(symbols: &mut Symbols, key: Key<'_>) -> Result<InternedKey, AllocError>
    ensures table { table_of symbols.new ≡ table_of symbols.old }
    ensures definitions { symbols.new.definitions ≡ symbols.old.definitions }
    ensures entry { IfOk result (λ e.
        interned_key_of (interned_names_of symbols.new) (key_of key.entry) ≡ Some e) }
    ensures counted { IfOk result IsCounted }
{
    match key {
        Key::Named { scope, name } => {
            let name_id = symbols.intern_name(name)?;
            Ok(InternedKey::Named { scope, name_id })
        }
        Key::Cheap { region, name } => {
            let name_id = symbols.intern_name(name)?;
            Ok(InternedKey::Cheap { region, name_id })
        }
        Key::Unnamed(count) => Ok(InternedKey::Unnamed(count)),
    }
}

/// Adds a definition whose key isn't in the table.
fn push(
    definitions: &mut IndexMap<InternedKey, Definition, Seed>,
    entry: InternedKey,
    definition: Definition,
) -> Result<(), AllocError>
    requires { position (same_interned_key entry) (keys definitions.old) ≡ None }
    ensures pushed { OnOk result (definitions.new.entries ≡
        definitions.old.entries ++ (entry, definition) ∷ []) }
    ensures unchanged { OnErr result (definitions.new.entries ≡ definitions.old.entries) }
{
    match definitions.insert(entry, definition) {
        Ok(_) => Ok(()),
        Err(_) => Err(AllocError),
    }
}

/// Records the name of a definition if its scope isn't the global one.
fn mark_inner(inner: &mut Vec<bool>, entry: InternedKey) -> Result<(), AllocError>
    ensures marked { OnOk result (IsInnerKnown inner.new.items entry) }
    ensures kept { (w : ℕ) → slice_get inner.old.items w ≡ Some true →
        slice_get inner.new.items w ≡ Some true }
{
    let InternedKey::Named { scope, name_id } = entry else {
        return Ok(());
    };
    if scope == GLOBAL {
        return Ok(());
    }
    while inner.len() <= name_id {
        inner.push(false)?;
    }
    inner[name_id] = true;
    Ok(())
}

/// Removes the entries of searches, unless `keeps`.
fn clear_unless(searched: &mut IndexMap<usize, SearchEntry>, keeps: bool)
    ensures kept { keeps ≡ true → (j : ℕ) → get nat_eq searched.new j ≡ get nat_eq searched.old j }
    ensures cleared { keeps ≡ false → (j : ℕ) → get nat_eq searched.new j ≡ None }
{
    if !keeps {
        searched.clear();
    }
}

/// Returns true only if each operand keeps its meaning if an undefined key is defined: for the key of a cheap or unnamed
/// label, and for a name that is neither interned nor imported. Returns false if there are no entries of searches.
fn keeps_bindings(symbols: &Symbols, key: Key<'_>) -> bool
    ensures { result ≡ true → (d : TableDefinition) → d.key ≡ key_of key.entry →
        KeepsBindings (table_of symbols.now) (with_definition (table_of symbols.now) d) }
{
    if symbols.searched.is_empty() {
        // There are no entries to keep.
        return false;
    }
    match key {
        Key::Named { name, .. } => symbols.name_id(name).is_none()
            && symbols.imported(name).is_none(),
        _ => true,
    }
}

/// Adds a definition. Its key must not have one. Keeps the entries of searches if all operands keep
/// their meanings.
pub fn define(symbols: &mut Symbols, key: Key<'_>, definition: Definition) -> Result<(), AllocError>
    requires new { definition_index (table_of symbols.old) (key_of key) ≡ None }
    requires form { StoresFinalForm (table_of symbols.old)
        (length (table_of symbols.old).definitions)
        (definition_view (key_of key) definition) definition }
    ensures { OnOk result (table_of symbols.new ≡ with_definition (table_of symbols.old)
        (definition_view (key_of key.entry) definition)) }
{
    let keeps = keeps_bindings(symbols, key);
    let entry = entry(symbols, key)?;
    clear_unless(&mut symbols.searched, keeps);
    symbols.has_unresolved |= definition.value.is_some() && definition.form.is_none();
    mark_inner(&mut symbols.inner, entry)?;
    push(&mut symbols.definitions, entry, definition)
}
