//! The addresses of sections and the providers of imports, after placement.

ghost use Rattle.std.specs.Prelude.{◌≡◌, ℕ, List, IfOk, OnOk, map};
ghost use Rattle.link65.specs.Values.{run_of};
ghost use Rattle.link65.specs.Placed.{AddsDefinitions, AddsExports, HasCorrectProviders, address_in, provider_in, bindings_in, run_in};

use crate::parts::{
    LinkedModule, ModuleBindings, ModuleExport, Provider, ScriptSymbol, SectionPosition,
};
use base65::{ListVec, Seed};
use indexmap::IndexMap;
use script65::{RowPlacement, SegmentRow};
use std::alloc::{AllocError, Global};

/// The provider of each name.
pub type Providers<'a> = IndexMap<&'a [u8], Provider, Seed>;

/// The run addresses of rows, by their names.
pub type Runs<'a> = IndexMap<&'a [u8], u64, Seed>;

/// The definitions of the script and the modules, and the provider of each name.
#[derive(Drop)]
pub struct DefinedSymbols<'a> {
    /// The definitions of the script.
    pub script_symbols: &'a [ScriptSymbol],
    pub exports: &'a [ModuleExport],
    /// The script's definitions of names that nothing else defines.
    pub weak: &'a [ScriptSymbol],
    /// The provider of a name, weak names aside: the script, or else a module.
    pub defined: Providers<'a>,
    /// The provider of a weak name, for names that neither of these defines.
    pub weak_providers: Providers<'a>,
}

/// Adds the providers of definitions. The first of a name counts, so it is inserted last.
fn add_definitions<'a>(
    providers: &mut Providers<'a>,
    definitions: &'a [ScriptSymbol],
) -> Result<(), AllocError>
    ensures { OnOk result (AddsDefinitions definitions.entry.now providers.old providers.new) }
{
    for i in (0..definitions.len()).rev() {
        let definition = &definitions[i];
        providers.insert(
            definition.name.as_slice(),
            Provider::ByScript(definition.value),
        )?;
    }
    Ok(())
}

/// Adds the providers of exports. The first of a name counts, so it is inserted last.
fn add_exports<'a>(
    providers: &mut Providers<'a>,
    exports: &'a [ModuleExport],
) -> Result<(), AllocError>
    ensures { OnOk result (AddsExports exports.entry.now providers.old providers.new) }
{
    for i in (0..exports.len()).rev() {
        let export = &exports[i];
        providers.insert(export.name.as_slice(), Provider::ByModule(i))?;
    }
    Ok(())
}

impl<'a> DefinedSymbols<'a> {
    /// Returns all definitions and the provider of each name. The script precedes the modules.
    pub fn of(
        alloc: Global,
        seed: Seed,
        script_symbols: &'a [ScriptSymbol],
        exports: &'a [ModuleExport],
        weak: &'a [ScriptSymbol],
    ) -> Result<Self, AllocError>
        ensures names { IfOk result HasCorrectProviders }
        ensures own { IfOk result (λ n. n.script_symbols.now ≡ script_symbols.entry.now) }
        ensures exports { IfOk result (λ n. n.exports.now ≡ exports.entry.now) }
        ensures weak { IfOk result (λ n. n.weak.now ≡ weak.entry.now) }
    {
        let mut defined = IndexMap::with_hasher(alloc, seed);
        add_exports(&mut defined, exports)?;
        add_definitions(&mut defined, script_symbols)?;
        let mut weak_providers = IndexMap::with_hasher(alloc, seed);
        add_definitions(&mut weak_providers, weak)?;
        Ok(DefinedSymbols {
            script_symbols,
            exports,
            weak,
            defined,
            weak_providers,
        })
    }

    /// Returns the provider of a name.
    fn provider(&self, name: &[u8]) -> Provider
        ensures { result ≡ provider_in self.now name.now }
    {
        match self.defined.get(name) {
            Some(provider) => *provider,
            None => match self.weak_providers.get(name) {
                Some(provider) => *provider,
                None => Provider::Nobody,
            },
        }
    }
}

/// Returns the run addresses of rows. The first row of a name counts, so it is inserted last.
pub fn runs_of<'a>(
    alloc: Global,
    rows: &'a [SegmentRow],
    placements: &[RowPlacement],
) -> Result<Runs<'a>, AllocError>
    ensures { IfOk result (λ runs. (name : List ℕ) →
        run_in runs name ≡ run_of rows.entry.now placements.now name) }
{
    let mut runs = IndexMap::with_hasher(alloc, Seed::default());
    for i in (0..rows.len()).rev() {
        let row = &rows[i];
        let run = match placements.get(i) {
            Some(placement) => placement.run,
            None => 0,
        };
        runs.insert(row.name.as_slice(), run)?;
    }
    Ok(runs)
}

/// Returns the run address of a section: its offset after the address of its row.
fn address_of(runs: &Runs<'_>, section: &SectionPosition) -> i64
    ensures { result ≡ address_in runs.now section.now }
{
    match runs.get(section.segment.as_slice()) {
        Some(run) => run.wrapping_add(section.offset).cast_signed(),
        None => section.offset.cast_signed(),
    }
}

fn bases_of(
    alloc: Global,
    runs: &Runs<'_>,
    sections: &[SectionPosition],
) -> Result<ListVec<i64>, AllocError>
    ensures { IfOk result (λ bases. bases ≡ map (address_in runs.now) sections.now) }
{
    let mut bases = ListVec::new(alloc);
    for section in sections {
        bases.push(address_of(runs, section))?;
    }
    Ok(bases)
}

fn providers_of(
    alloc: Global,
    names: &DefinedSymbols<'_>,
    imports: &[ListVec<u8>],
) -> Result<ListVec<Provider>, AllocError>
    ensures { IfOk result (λ providers. providers ≡ map (provider_in names.now) imports.now) }
{
    let mut providers = ListVec::new(alloc);
    for name in imports {
        providers.push(names.provider(name.as_slice()))?;
    }
    Ok(providers)
}

/// Returns the section addresses and the providers of imports of all modules.
pub fn resolve_all(
    alloc: Global,
    names: &DefinedSymbols<'_>,
    runs: &Runs<'_>,
    members: &[LinkedModule],
) -> Result<ListVec<ModuleBindings>, AllocError>
    ensures { IfOk result (λ all. all ≡ map (bindings_in names.now runs.now) members.now) }
{
    let mut all = ListVec::new(alloc);
    for member in members {
        all.push(ModuleBindings {
            bases: bases_of(alloc, runs, member.sections.as_slice())?,
            providers: providers_of(alloc, names, member.imports.as_slice())?,
        })?;
    }
    Ok(all)
}
