//! The names that a script and modules define: none twice, and none missing that is imported.

ghost use Rattle.std.specs.Prelude.{◌≡◌, ◌++◌, ◌∷◌, [], IfOk, Ok, OnErr, map, OnOk};
ghost use Rattle.base65.specs.Outcome.{Refines};
ghost use Rattle.link65.specs.Faults.{HasExpectedError, is_memory, is_finish_fault};
ghost use Rattle.link65.specs.Representation.{names_or_duplicate, names_in, with_new_names, with_new_name};
ghost use Rattle.link65.specs.Names.{strong_names, is_among, distinct_names, script_names, symbol_imports, weak_symbols};
ghost use Rattle.std.specs.List.{flat_map};
ghost use Rattle.link65.specs.Links.{check_imports_defined};
ghost use Rattle.link65.specs.Internal.Fields.{missing_after};
ghost use Rattle.link65.specs.Programs.{Program};

use crate::fault::LinkFault;
use crate::naming::script_names;
use crate::parts::{LinkedModule, ModuleExport};
use base65::ListVec;
use indexmap::IndexSet;
use library65::Names;
use script65::{Script, Symbol, SymbolKind};
use std::alloc::{AllocError, Global};

/// The names that a script and modules define so far, none of them twice.
#[derive(Drop)]
pub struct DefinedNames {
    pub alloc: Global,
    pub names: IndexSet<Vec<u8>>,
}

impl DefinedNames {
    /// Adds a name. Rejects one that is already defined; an error changes nothing.
    fn add(&mut self, name: &[u8]) -> Result<(), LinkFault>
        ensures added { Refines is_memory (λ _. names_in self.new) result
            (with_new_name (names_in self.old) name.now) }
        ensures kept { OnErr result (names_in self.new ≡ names_in self.old) }
    {
        let key = Vec::from_slice(self.alloc, name)?;
        if !self.names.insert(key)? {
            return Err(LinkFault::DuplicateExport(ListVec::copy_of(self.alloc, name)?));
        }
        Ok(())
    }

    /// Returns the names that a script defines, except weak ones. Rejects the first that equals an earlier one.
    pub fn of(alloc: Global, script: &Script) -> Result<Self, LinkFault>
        ensures { Refines is_memory names_in result
            (names_or_duplicate [] (script_names script.now)) }
    {
        let names = script_names(alloc, script)?;
        let mut provided = DefinedNames {
            alloc,
            names: IndexSet::new(alloc),
        };
        for name in names.as_slice() {
            provided.add(name.as_slice())?;
        }
        Ok(provided)
    }

    /// Adds the names of exports. Rejects the first that equals an earlier one; those before it stay added, since
    /// nothing is linked after an error.
    pub fn add_exports(&mut self, exports: &[ModuleExport]) -> Result<(), LinkFault>
        ensures { Refines is_memory (λ _. names_in self.new) result
            (with_new_names (names_in self.old) (map (λ e. e.name) exports.now)) }
    {
        for export in exports {
            self.add(export.name.as_slice())?;
        }
        Ok(())
    }

    /// Adds a script's weak names, except those that are already defined.
    fn add_weak(&mut self, symbols: &[Symbol]) -> Result<(), AllocError>
        ensures { OnOk result (names_in self.new ≡ distinct_names (names_in self.old)
            (map (λ d. d.name) (weak_symbols symbols.now))) }
    {
        for symbol in symbols {
            if let SymbolKind::Weak(_) = symbol.kind {
                self.names
                    .insert(Vec::from_slice(self.alloc, symbol.name.as_slice())?)?;
            }
        }
        Ok(())
    }
}

/// Returns a copy of the defined names.
pub fn copy_of(provided: &DefinedNames) -> Result<Names, AllocError>
    ensures { IfOk result (λ names. map (λ n. n.items) names.keys ≡ names_in provided.now) }
{
    provided.names.clone()
}

/// Returns whether a name is in the set.
fn has(names: &Names, name: &[u8]) -> bool
    ensures { result ≡ is_among (map (λ n. n.items) names.now.keys) name.now }
{
    names.contains(name)
}

/// Adds a name to the missing ones, unless it is defined or already among them.
fn add_missing(missing: &mut Names, provided: &DefinedNames, name: &[u8]) -> Result<(), AllocError>
    ensures { OnOk result (map (λ n. n.items) missing.new.keys ≡
        missing_after (names_in provided.now) (map (λ n. n.items) missing.old.keys)
        (name.now ∷ [])) }
{
    if !has(&provided.names, name) && !has(missing, name) {
        missing.insert(Vec::from_slice(provided.alloc, name)?)?;
    }
    Ok(())
}

/// Adds the names that symbols import and nobody defines.
fn add_symbols(
    missing: &mut Names,
    provided: &DefinedNames,
    symbols: &[Symbol],
) -> Result<(), AllocError>
    ensures { OnOk result (map (λ n. n.items) missing.new.keys ≡
        missing_after (names_in provided.now) (map (λ n. n.items) missing.old.keys)
        (symbol_imports symbols.now)) }
{
    for symbol in symbols {
        if let SymbolKind::Import = symbol.kind {
            add_missing(missing, provided, symbol.name.as_slice())?;
        }
    }
    Ok(())
}

/// Adds the names that a module imports and nobody defines.
fn add_imports(
    missing: &mut Names,
    provided: &DefinedNames,
    imports: &[ListVec<u8>],
) -> Result<(), AllocError>
    ensures { OnOk result (map (λ n. n.items) missing.new.keys ≡
        missing_after (names_in provided.now) (map (λ n. n.items) missing.old.keys) imports.now) }
{
    for name in imports {
        add_missing(missing, provided, name.as_slice())?;
    }
    Ok(())
}

/// Returns the names that the script's symbols and the modules import and nobody defines, in order
/// of first reference.
pub fn missing_names(
    provided: &DefinedNames,
    symbols: &[Symbol],
    members: &[LinkedModule],
) -> Result<Names, AllocError>
    ensures { IfOk result (λ names.
        map (λ n. n.items) names.keys ≡ missing_after (names_in provided.now) []
        (symbol_imports symbols.now ++ flat_map (λ m. m.imports) members.now)) }
{
    let mut missing = IndexSet::new(provided.alloc);
    add_symbols(&mut missing, provided, symbols)?;
    for member in members {
        add_imports(&mut missing, provided, member.imports.as_slice())?;
    }
    Ok(missing)
}

/// Returns a copy of a list of names.
fn copy_names(alloc: Global, names: &[Vec<u8>]) -> Result<ListVec<ListVec<u8>>, AllocError>
    ensures { IfOk result (λ all. all ≡ map (λ n. n.items) names.now) }
{
    let mut all = ListVec::new(alloc);
    for name in names {
        all.push(ListVec::copy_of(alloc, name.as_slice())?)?;
    }
    Ok(all)
}

/// Rejects imported names that nobody defines; the error has all of them.
pub fn check_names(
    mut provided: DefinedNames,
    script: &Script,
    members: &[LinkedModule],
) -> Result<(), LinkFault>
    ensures provided { (p : Program) → names_in provided ≡ strong_names script.now p →
        p.members ≡ members.now →
        Refines is_memory (λ u. u) result (check_imports_defined script.now p) }
    ensures faults { HasExpectedError is_finish_fault result }
{
    let symbols = script.symbols.as_slice();
    provided.add_weak(symbols)?;
    let names = missing_names(&provided, symbols, members)?;
    if names.len() == 0 {
        return Ok(());
    }
    Err(LinkFault::Unresolved(copy_names(provided.alloc, names.as_slice())?))
}
