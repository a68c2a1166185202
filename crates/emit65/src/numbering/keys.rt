//! The keys of imports, and the numbers of sections, imports and files in the object.

ghost use Rattle.std.specs.Prelude.{◌≡◌, IfOk, [], map, OnOk};
ghost use Rattle.emit65.specs.Internal.Drafts.{any_location, origin_of};
ghost use Rattle.semantics65.specs.Numbering.{key_of, number_of, renumbered_form, content_imports, import_keys, imports_in, distinct_keys, optional_key, declaration_imports};
ghost use Rattle.object65.specs.Objects.{FitsBits, OriginFits};
ghost use Rattle.emit65.specs.SectionContents.{content_of, names_of};
ghost use Rattle.semantics65.specs.Views.{declaration_at};

use crate::entries::{SectionEntry, SourcePos};
use base65::Seed;
use indexmap::IndexSet;
use object65::{Node, Norm, Origin};
use semantics65::Declaration;
use std::alloc::{AllocError, Global};

/// The names of imports, each once. The key of an import is its index.
pub type Imports = IndexSet<Vec<u8>, Seed>;

/// The keys of the object's sections, imports and files. The number of each is its index here. The key of a section is its
/// segment, and that of a file its index in the table of all files.
#[derive(Drop)]
pub struct Numbers {
    pub sections: IndexSet<u32>,
    pub imports: IndexSet<u32>,
    pub files: IndexSet<u32>,
}

/// Returns an index in 32 bits. A larger one counts as out of memory: no table in memory needs it.
pub fn narrow(index: usize) -> Result<u32, AllocError>
    ensures { IfOk result (λ n. n ≡ index) }
{
    u32::try_from(index).or(Err(AllocError))
}

/// Returns the number of a key, or 0 if it has none.
fn number_of(keys: &IndexSet<u32>, key: u32) -> Result<u32, AllocError>
    ensures { IfOk result (λ n. n ≡ number_of keys.now.keys key) }
{
    match keys.get_index_of(&key) {
        Some(index) => narrow(index),
        None => Ok(0),
    }
}

/// Returns the origin of a location, with the number of its file.
pub fn origin_of(numbers: &Numbers, pos: SourcePos) -> Result<Origin, AllocError>
    ensures origin { IfOk result (λ o. o ≡ origin_of numbers.now pos) }
    ensures fits { IfOk result OriginFits }
{
    let file = match numbers.files.get_index_of(&pos.file) {
        Some(index) => Some(narrow(index)?),
        None => None,
    };
    Ok(Origin {
        file,
        line: pos.line,
    })
}

/// Replaces the keys of the sections and imports in a form by their numbers.
fn renumber(numbers: &Numbers, form: &mut Norm) -> Result<(), AllocError>
    ensures form { OnOk result (form.new ≡
        renumbered_form numbers.now.sections.keys numbers.now.imports.keys form.old) }
    ensures bits { OnOk result (FitsBits form.new) }
{
    let leaf = match form.node() {
        Node::NumberNode(value) => Node::NumberNode(*value),
        Node::SectionOffset(segment, offset) => {
            Node::SectionOffset(number_of(&numbers.sections, *segment)?, *offset)
        }
        Node::ImportedName(key) => Node::ImportedName(number_of(&numbers.imports, *key)?),
        Node::Prefix(..) | Node::Binary(..) => {
            return match form.node_mut() {
                Node::Prefix(_, part) => renumber(numbers, part),
                Node::Binary(_, operands) => {
                    renumber(numbers, &mut operands.left)?;
                    renumber(numbers, &mut operands.right)
                }
                _ => Ok(()),
            };
        }
    };
    *form.node_mut() = leaf;
    Ok(())
}

/// Returns a form with the numbers of its sections and imports instead of their keys.
pub fn numbered(numbers: &Numbers, form: Norm) -> Result<Norm, AllocError>
    ensures form { IfOk result (λ f.
        f ≡ renumbered_form numbers.now.sections.keys numbers.now.imports.keys form) }
    ensures bits { IfOk result FitsBits }
{
    let mut form = form;
    renumber(numbers, &mut form)?;
    Ok(form)
}

/// Adds the keys of the imports in a form.
#[tactic(auto, using(crate::proofs::Keys::once_append))]
fn add_form(keys: &mut IndexSet<u32>, form: &Norm) -> Result<(), AllocError>
    ensures { OnOk result (keys.new.keys ≡ distinct_keys keys.old.keys (imports_in form.now)) }
{
    match form.node() {
        Node::NumberNode(_) | Node::SectionOffset(_, _) => Ok(()),
        Node::ImportedName(key) => {
            keys.insert(*key)?;
            Ok(())
        }
        Node::Prefix(_, part) => add_form(keys, part),
        Node::Binary(_, operands) => {
            add_form(keys, &operands.left)?;
            add_form(keys, &operands.right)
        }
    }
}

/// Adds the key of the import with this name, if there is one.
fn add_name(keys: &mut IndexSet<u32>, imports: &Imports, name: &[u8]) -> Result<(), AllocError>
    ensures { OnOk result (keys.new.keys ≡ distinct_keys keys.old.keys
        (optional_key (key_of (names_of imports.now) name.now))) }
{
    if let Some(index) = imports.get_index_of(name) {
        keys.insert(narrow(index)?)?;
    }
    Ok(())
}

/// Adds the keys of the imports in a declaration.
fn add_declaration(
    keys: &mut IndexSet<u32>,
    imports: &Imports,
    declaration: &Declaration,
) -> Result<(), AllocError>
    ensures { OnOk result (keys.new.keys ≡ distinct_keys keys.old.keys
        (declaration_imports (names_of imports.now)
        (declaration_at any_location declaration.now))) }
{
    match declaration {
        Declaration::ExportedSymbol { form, .. } | Declaration::LinkAssertion { form, .. } => {
            add_form(keys, form)
        }
        Declaration::ForcedImport(name) => add_name(keys, imports, name.as_slice()),
    }
}

/// Adds the keys of the imports in an entry.
fn add_entry(
    keys: &mut IndexSet<u32>,
    imports: &Imports,
    entry: &SectionEntry,
) -> Result<(), AllocError>
    ensures { OnOk result (keys.new.keys
        ≡ distinct_keys keys.old.keys
        (content_imports (names_of imports.now) (content_of [] entry.now))) }
{
    match entry {
        SectionEntry::Value { form, .. } => add_form(keys, form),
        SectionEntry::DeclarationEntry(located) => add_declaration(keys, imports, &located.said),
        SectionEntry::Bytes { .. } | SectionEntry::Reserve { .. } | SectionEntry::FixupEntry(_) =>
            Ok(()),
    }
}

/// Returns the keys of the object's imports, in the order in which entries first use them.
pub fn import_keys(
    alloc: Global,
    imports: &Imports,
    entries: &[SectionEntry],
) -> Result<IndexSet<u32>, AllocError>
    ensures { IfOk result (λ s. s.keys ≡
        import_keys (names_of imports.now) (map (content_of []) entries.now)) }
{
    let mut keys = IndexSet::new(alloc);
    for entry in entries {
        add_entry(&mut keys, imports, entry)?;
    }
    Ok(keys)
}
