//! Builds the exports and the assertions of an object.

ghost use Rattle.std.specs.Prelude.{◌≡◌, ◌++◌, ◌∷◌, [], filter_map, IfOk, OnOk};
ghost use Rattle.emit65.specs.Internal.Drafts.{assert_by, DeclarationsFit, export_by};

use super::keys::{Numbers, numbered, origin_of};
use crate::entries::LocatedDeclaration;
use base65::ListVec;
use object65::{Assert, Export};
use semantics65::Declaration;
use std::alloc::{AllocError, Global};

/// Exports and assertions.
#[derive(Drop)]
pub struct DeclarationTables {
    pub exports: ListVec<Export>,
    pub asserts: ListVec<Assert>,
}

/// Adds a declaration, if it is an export or an assertion.
fn add_declaration(
    numbers: &Numbers,
    declared: &mut DeclarationTables,
    located: LocatedDeclaration,
) -> Result<(), AllocError>
    ensures exports { OnOk result (declared.new.exports ≡ declared.old.exports ++
        filter_map (export_by numbers.now) (located ∷ [])) }
    ensures asserts { OnOk result (declared.new.asserts ≡ declared.old.asserts ++
        filter_map (assert_by numbers.now) (located ∷ [])) }
    ensures fits { OnOk result (DeclarationsFit declared.old → DeclarationsFit declared.new) }
{
    let origin = origin_of(numbers, located.pos)?;
    match located.said {
        Declaration::ExportedSymbol { name, form } => {
            let form = numbered(numbers, form)?;
            declared.exports.push(Export { name, origin, form })
        }
        Declaration::LinkAssertion { action, text, form } => {
            let form = numbered(numbers, form)?;
            declared.asserts.push(Assert {
                action,
                origin,
                text,
                form,
            })
        }
        Declaration::ForcedImport(_) => Ok(()),
    }
}

/// Builds the exports and the assertions of a module from
/// its declarations.
pub fn declaration_tables(
    alloc: Global,
    numbers: &Numbers,
    declarations: ListVec<LocatedDeclaration>,
) -> Result<DeclarationTables, AllocError>
    ensures exports { IfOk result (λ d.
        d.exports ≡ filter_map (export_by numbers.now) declarations) }
    ensures asserts { IfOk result (λ d.
        d.asserts ≡ filter_map (assert_by numbers.now) declarations) }
    ensures fits { IfOk result DeclarationsFit }
{
    let mut declared = DeclarationTables {
        exports: ListVec::new(alloc),
        asserts: ListVec::new(alloc),
    };
    for located in declarations.into_vec() {
        add_declaration(numbers, &mut declared, located)?;
    }
    Ok(declared)
}
