//! Libraries as lists of members.

ghost use Rattle.object65.specs.Reading.{StoreFrame};
ghost use Rattle.std.specs.Prelude.{◌≡◌, ◌∷◌, [], IfOk, IfSome, OnErr, OnOk, Ok};
ghost use Rattle.std.specs.Iterator.{YieldsFirstRef, item_count};
ghost use Rattle.std.specs.Option.{option_copied};
ghost use Rattle.base65.specs.Outcome.{Refines};
ghost use Rattle.std.specs.FinMap as map;
ghost use Rattle.base65.specs.Store.{FailsAtLastCount, HasOnlyBytes};
ghost use Rattle.library65.specs.Fault.{is_memory, is_system_error};
ghost use Rattle.library65.specs.Reading.{in_file};
ghost use Rattle.library65.specs.Libraries.{bytes_of, member_contents, without_named_member, library_at, member_names, with_new_member, with_member, without_member, written_after, LibraryInvariant, members_of};
ghost use Rattle.library65.specs.Spelling.{is_among, HasValidSymbols};
ghost use Rattle.library65.specs.declared.fault.LibraryFault.TheVariants.{FileError};

use crate::LibraryFault;
use crate::contents::{Contents, ReadBuffers, check_member};
use crate::loading::read_members;
use crate::writing::encode_library;
use base65::{ListVec, Seed, Store};
use indexmap::IndexMap;
use indexmap::map::Keys;
use object65::format::FILE_LIMIT;
use std::alloc::{AllocError, Global};
use std::marker::Model;

/// A member in memory.
#[derive(Drop)]
pub struct StoredMember {
    pub bytes: Vec<u8>,
    /// The exports and imports of the object in the bytes.
    pub contents: Contents,
}

/// A library: its members by name and in order. The bytes of each member encode an object.
#[derive(Drop)]
pub struct Library {
    alloc: Global,
    members: IndexMap<Vec<u8>, StoredMember, Seed>,
    /// The buffers for reading each member that is inserted.
    buffers: ReadBuffers,
}

impl Model for Library {
    ghost use Rattle.std.specs.Coded.{coded_ℕ, coded_list, coded×};
    ghost use Rattle.library65.specs.Spelling.{Member};
    ghost use Rattle.std.specs.Prelude.{List};

    ghost Value = { List Member };

    ghost coded = { coded_list (coded× (coded_list coded_ℕ) (coded_list coded_ℕ)) };

    ghost use Rattle.library65.specs.Libraries.{LibraryInvariant, members_of};

    ghost view = { λ l. members_of l.members };

    ghost invariant = { λ l. LibraryInvariant l.members };
}

/// The names of a library's members, in order.
#[derive(Drop)]
pub struct MemberNames<'a> {
    keys: Keys<'a, Vec<u8>, StoredMember>,
}

impl<'a> Model for MemberNames<'a> {
    ghost use Rattle.std.specs.Coded.{coded_ℕ, coded_list};
    ghost use Rattle.std.specs.Prelude.{List, ℕ, map};

    ghost Value = { List (List ℕ) };

    ghost coded = { coded_list (coded_list coded_ℕ) };

    ghost view = { λ n. map (λ k. k.items) n.keys };
}

impl<'a> Iterator for MemberNames<'a> {
    type Item = &'a [u8];

    ghost next_gives = { YieldsFirstRef (λ rest. rest) };

    ghost remaining = { item_count (λ rest. rest) };

    fn next(&mut self) -> Option<&'a [u8]> {
        Some(self.keys.next()?.as_slice())
    }
}

/// Replaces the member of this name, or appends the member if there is none. An error changes nothing.
pub fn insert_member(
    members: &mut IndexMap<Vec<u8>, StoredMember, Seed>,
    name: Vec<u8>,
    stored: StoredMember,
) -> Result<(), AllocError>
    requires sound { LibraryInvariant members.old }
    requires checked { member_contents name.items stored.bytes.items ≡ Ok stored.contents }
    requires symbols { HasValidSymbols stored.contents }
    ensures inserted { OnOk result (members_of members.new ≡
        with_member (members_of members.old) name.items stored.bytes.items) }
    ensures unchanged { OnErr result (members_of members.new ≡ members_of members.old) }
    ensures sound { LibraryInvariant members.new }
{
    members.insert(name, stored)?;
    Ok(())
}

impl Library {
    /// Returns a library without members.
    pub fn empty(alloc: Global) -> Self
        ensures { result ≡ [] }
    {
        Library::seeded(alloc, Seed::default())
    }

    /// Returns a library without members, whose hash tables of names have this seed.
    pub fn seeded(alloc: Global, seed: Seed) -> Self
        ensures { result ≡ [] }
    {
        Library {
            alloc,
            members: IndexMap::with_hasher(alloc, seed),
            buffers: ReadBuffers::of(seed),
        }
    }

    /// Reads a library from its file, with all members.
    pub fn load<S: Store>(alloc: Global, store: &mut S, file: &str) -> Result<Self, LibraryFault>
        ensures read { IfSome (S.files store.old) (λ m.
            Refines is_system_error (λ l. l) result (in_file (map.get m file.now) library_at)) }
        ensures bytes { IfSome (S.files store.old) (λ m. HasOnlyBytes (map.get m file.now) result) }
        ensures frame { StoreFrame S.files S.failures S.last_failure FileError file.now store.old
            store.new result }
        ensures at_last_count { FailsAtLastCount is_system_error (S.failures store.old) result }
    {
        let members = read_members(alloc, store, file)?;
        Ok(Library {
            alloc,
            members,
            buffers: ReadBuffers::of(store.seed()),
        })
    }

    /// Replaces the member of this name by an object, or appends it if there is none. An error changes
    /// nothing.
    #[tactic(auto, unfolding(crate::specs::Libraries::with_new_member))]
    pub fn replace(&mut self, name: &[u8], bytes: &[u8]) -> Result<(), LibraryFault>
        ensures replaced { Refines is_memory (λ _. self.new) result
            (with_new_member self.old name.now bytes.now) }
        ensures unchanged { OnErr result (self.new ≡ self.old) }
    {
        let contents = check_member(self.alloc, &mut self.buffers, name, bytes)?;
        let name = Vec::from_slice(self.alloc, name)?;
        let bytes = Vec::from_slice(self.alloc, bytes)?;
        insert_member(&mut self.members, name, StoredMember { bytes, contents })?;
        Ok(())
    }

    /// Removes the member of this name. An error changes nothing.
    pub fn delete(&mut self, name: &[u8]) -> Result<(), LibraryFault>
        ensures deleted { Refines is_memory (λ _. self.new) result
            (without_named_member self.old name.now) }
        ensures unchanged { OnErr result (self.new ≡ self.old) }
    {
        if !self.members.contains_key(name) {
            return Err(LibraryFault::NoSuchMember(ListVec::copy_of(self.alloc, name)?));
        }
        self.members.shift_remove(name);
        Ok(())
    }

    /// Returns the names of the members, in order.
    pub fn names(&self) -> MemberNames<'_>
        ensures { result ≡ member_names self.now }
    {
        MemberNames {
            keys: self.members.keys(),
        }
    }

    /// Returns the bytes of the member of this name, if there is one.
    pub fn get(&self, name: &[u8]) -> Option<&[u8]>
        ensures { option_copied result ≡ bytes_of self.now name.now }
    {
        Some(self.members.get(name)?.bytes.as_slice())
    }

    /// Appends the bytes of the library; rejects them if they exceed the size limit of a file. An error
    /// changes nothing.
    pub fn write(&self, out: &mut Vec<u8>) -> Result<(), LibraryFault>
        ensures written { Refines is_memory (λ _. out.new.items) result
            (written_after out.old.items self.now) }
        ensures unchanged { OnErr result (out.new.items ≡ out.old.items) }
    {
        let mut bytes = Vec::new(self.alloc);
        encode_library(&mut bytes, &self.members)?;
        if bytes.len() as u64 > FILE_LIMIT {
            return Err(LibraryFault::BadIndex);
        }
        out.extend_from_slice(&bytes)?;
        Ok(())
    }
}
