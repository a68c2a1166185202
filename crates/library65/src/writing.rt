//! Writes a library as bytes.

ghost use Rattle.std.specs.Prelude.{◌≡◌, ◌≤◌, ◌<◌, ◌+◌, ◌++◌, ◌^◌, length, map, true, IfOk, IfErr, OnOk};
ghost use Rattle.std.specs.List.{flat_map, list_all};
ghost use Rattle.byteorder.specs.Endian.{little_bytes};
ghost use Rattle.library65.specs.Libraries.{library_bytes, member_entry_bytes, LibraryInvariant, members_of};
ghost use Rattle.library65.specs.Spelling.{is_name, index_entry_bytes, name_bytes, names_bytes, HasValidSymbols, AppendsBytes};

use crate::LibraryFault;
use crate::indexing::MAGIC;
use crate::library::StoredMember;
use base65::{ListVec, Seed};
use byteorder::{ByteOrder, LittleEndian};
use indexmap::IndexMap;
use std::alloc::AllocError;

/// Returns a length as a number of 32 bits, if it fits.
fn count_of(len: usize) -> Result<u32, LibraryFault>
    ensures ok { IfOk result (λ n. n ≡ len) }
    ensures err { IfErr result (λ e. (e ≡ LibraryFault.BadIndex) × (2 ^ 32 ≤ len)) }
{
    if len > u32::MAX as usize {
        return Err(LibraryFault::BadIndex);
    }
    Ok(len as u32)
}

/// Appends a number as four bytes, the low byte first.
fn encode_number(out: &mut Vec<u8>, number: u32) -> Result<(), AllocError>
    ensures { OnOk result (out.new.items ≡ out.old.items ++ little_bytes 4 number) }
{
    let mut bytes = [0u8; 4];
    LittleEndian::write_u32(&mut bytes, number);
    out.extend_from_slice(&bytes)?;
    Ok(())
}

/// Appends the length of a name, and the name.
fn encode_name(out: &mut Vec<u8>, name: &[u8]) -> Result<(), AllocError>
    requires { length name.now < 256 }
    ensures { OnOk result (out.new.items ≡ out.old.items ++ name_bytes name.now) }
{
    out.push(name.len() as u8)?;
    out.extend_from_slice(name)?;
    Ok(())
}

/// Appends the number of names and, for each, its length and its bytes.
fn encode_names(out: &mut Vec<u8>, names: &[ListVec<u8>]) -> Result<(), LibraryFault>
    requires { list_all is_name names.now ≡ true }
    ensures { AppendsBytes (names_bytes names.now)
        (length (names_bytes names.now)) out.old.items out.new.items result }
{
    let count = count_of(names.len())?;
    encode_number(out, count)?;
    for name in names {
        encode_name(out, name.as_slice())?;
    }
    Ok(())
}

/// Appends the index entry of a member.
fn encode_entry(out: &mut Vec<u8>, name: &[u8], stored: &StoredMember) -> Result<(), LibraryFault>
    requires name { length name.now < 256 }
    requires symbols { HasValidSymbols stored.now.contents }
    ensures { AppendsBytes
        (index_entry_bytes name.now
        (length stored.now.bytes.items) stored.now.contents.exports stored.now.contents.imports)
        (length (index_entry_bytes name.now
        (length stored.now.bytes.items) stored.now.contents.exports stored.now.contents.imports) +
        length stored.now.bytes.items) out.old.items out.new.items result }
{
    let size = count_of(stored.bytes.len())?;
    encode_name(out, name)?;
    encode_number(out, size)?;
    encode_names(out, stored.contents.exports.as_slice())?;
    encode_names(out, stored.contents.imports.as_slice())
}

/// Appends the index entries of the members.
fn encode_entries(
    out: &mut Vec<u8>,
    members: &IndexMap<Vec<u8>, StoredMember, Seed>,
) -> Result<(), LibraryFault>
    requires { LibraryInvariant members.now }
    ensures { AppendsBytes (flat_map member_entry_bytes (members_of members.now))
        (length (flat_map member_entry_bytes (members_of members.now)) + length
        (flat_map (λ m. m.1) (members_of members.now))) out.old.items out.new.items result }
{
    for (name, stored) in members.iter() {
        encode_entry(out, name.as_slice(), stored)?;
    }
    Ok(())
}

/// Appends the bytes of a library of these members.
pub fn encode_library(
    out: &mut Vec<u8>,
    members: &IndexMap<Vec<u8>, StoredMember, Seed>,
) -> Result<(), LibraryFault>
    requires { LibraryInvariant members.now }
    ensures { AppendsBytes (library_bytes (members_of members.now))
        (length (library_bytes (members_of members.now))) out.old.items out.new.items result }
{
    let count = count_of(members.len())?;
    out.extend_from_slice(&MAGIC)?;
    encode_number(out, count)?;
    encode_entries(out, members)?;
    for stored in members.values() {
        out.extend_from_slice(&stored.bytes)?;
    }
    Ok(())
}
