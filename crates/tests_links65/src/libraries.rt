//! Libraries of small objects, byte by byte.

use base65::MemStore;
use library65::{Index, Library, LibraryFault, Names, read_index, select};
use std::alloc::{AllocError, Global};
use std::test::Fail;

/// Three bytes in CODE, and nothing else.
const THREE_BYTES: &[u8] = b"R65o\x01\x02\x09\0\x03\0\0\0\0CODE\x03\x03\0\xa9\0\x60\x08\0\0";

/// The library of that object as `a.o`.
const ONE_MEMBER: &[u8] =
    b"R65l\x01\x01\0\0\0\x03a.o\x1a\0\0\0\0\0\0\0\0\0\0\0R65o\x01\x02\x09\0\x03\0\0\0\0CODE\x03\x03\0\xa9\0\x60\x08\0\0";

const NO_MEMBER: &[u8] = b"R65l\x01\0\0\0\0";

const MANY_MEMBERS: &[u8] = b"R65l\x01\xff\xff\xff\xff";

/// An object that imports and exports names of one letter each, the exports all of value 9.
pub fn object(alloc: Global, imports: &[u8], exports: &[u8]) -> Result<Vec<u8>, AllocError> {
    let mut bytes = Vec::from_slice(alloc, b"R65o\x01")?;
    for name in imports {
        bytes.extend_from_slice(&[0x01, 0x01, 0x00, *name])?;
    }
    for name in exports {
        bytes.extend_from_slice(&[0x06, 0x0f, 0x00, 0x01, *name, 0x01, 0x00, 0x00, 0x00])?;
        bytes.extend_from_slice(b"\0\x09\0\0\0\0\0\0\0")?;
    }
    bytes.extend_from_slice(b"\x08\0\0")?;
    Ok(bytes)
}

/// A member's name of one letter, and those that it imports and exports.
pub type Member = (u8, &'static [u8], &'static [u8]);

/// Puts members into a library, and writes it.
fn write_members(
    alloc: Global,
    library: &mut Library,
    members: &[Member],
    bytes: &mut Vec<u8>,
) -> Result<(), LibraryFault> {
    for (name, imports, exports) in members {
        let member = object(alloc, *imports, *exports)?;
        library.replace(&[*name], member.as_slice())?;
    }
    library.write(bytes)
}

/// The index of a library of these bytes, as it is read from its file.
fn index_in(alloc: Global, bytes: &[u8]) -> Result<Index, LibraryFault> {
    let mut store = MemStore::new(alloc);
    match store.put("l.lib", bytes) {
        Ok(()) => read_index(alloc, &mut store, "l.lib"),
        Err(fault) => Err(fault.into()),
    }
}

/// The index of a library of these members.
pub fn index_of(alloc: Global, members: &[Member]) -> Result<Index, LibraryFault> {
    let mut library = Library::empty(alloc);
    let mut bytes = Vec::new(alloc);
    match write_members(alloc, &mut library, members, &mut bytes) {
        Ok(()) => index_in(alloc, bytes.as_slice()),
        Err(fault) => Err(fault),
    }
}

/// Returns whether a library is written as these bytes.
fn is_written_as(alloc: Global, library: &Library, wanted: &[u8]) -> Result<bool, LibraryFault> {
    let mut bytes = Vec::new(alloc);
    library.write(&mut bytes)?;
    Ok(bytes.as_slice() == wanted)
}

/// Returns whether a library is written as it has to be without a member, and with one.
fn writes_one_member(alloc: Global, library: &mut Library) -> Result<bool, LibraryFault> {
    let is_empty = is_written_as(alloc, library, NO_MEMBER)?;
    library.replace(b"a.o", THREE_BYTES)?;
    Ok(is_empty && is_written_as(alloc, library, ONE_MEMBER)?)
}

/// Returns whether a file of the store is the library of the one member.
fn loads_one_member(alloc: Global, store: &mut MemStore) -> Result<bool, LibraryFault> {
    store.put("l.lib", ONE_MEMBER)?;
    let library = Library::load(alloc, store, "l.lib")?;
    Ok(library.get(b"a.o") == Some(THREE_BYTES) && library.names().count() == 1)
}

#[test]
fn a_library_of_one_member_has_51_bytes(rt: HostRuntime) -> Result<(), Fail> {
    let is_written = writes_one_member(rt.alloc(), &mut Library::empty(rt.alloc()));
    let is_loaded = loads_one_member(rt.alloc(), &mut MemStore::new(rt.alloc()));
    assert!(rt; matches!(is_written, Ok(true)));
    assert!(rt; matches!(is_loaded, Ok(true)));
    Ok(())
}

/// Returns whether a library has two members of these names, and the first has these bytes.
fn are_members(library: &Library, first: &[u8], second: &[u8], bytes: &[u8]) -> bool {
    let mut names = library.names();
    names.next() == Some(first)
        && names.next() == Some(second)
        && names.next().is_none()
        && library.get(first) == Some(bytes)
}

/// Returns whether of three members the second keeps its place where it is replaced, and the first goes where it is deleted.
fn keeps_places(alloc: Global, library: &mut Library) -> Result<bool, LibraryFault> {
    let newer = object(alloc, b"", b"f")?;
    for name in [b"w.o".as_slice(), b"x.o", b"y.o"] {
        library.replace(name, THREE_BYTES)?;
    }
    library.replace(b"x.o", newer.as_slice())?;
    library.delete(b"w.o")?;
    Ok(are_members(library, b"x.o", b"y.o", newer.as_slice()))
}

#[test]
fn a_replaced_member_keeps_its_place(rt: HostRuntime) -> Result<(), Fail> {
    let are_kept = keeps_places(rt.alloc(), &mut Library::empty(rt.alloc()));
    assert!(rt; matches!(are_kept, Ok(true)));
    Ok(())
}

/// How a library without a member refuses one; none where it takes it, or has it then.
fn refusal_of_member(alloc: Global, name: &[u8]) -> Option<LibraryFault> {
    let mut library = Library::empty(alloc);
    let found = library.replace(name, NO_MEMBER).err();
    if library.names().count() > 0 {
        return None;
    }
    found
}

/// How a library without a member refuses to delete one.
fn refuses_to_delete(alloc: Global, name: &[u8]) -> bool {
    match Library::empty(alloc).delete(name) {
        Err(LibraryFault::NoSuchMember(missing)) => missing.as_slice() == name,
        _ => false,
    }
}

#[test]
fn a_member_is_an_object_with_a_good_name(rt: HostRuntime) -> Result<(), Fail> {
    let bad_name = refusal_of_member(rt.alloc(), b"d/a.o");
    assert!(rt; matches!(bad_name, Some(LibraryFault::BadMemberName)));
    let no_object = refusal_of_member(rt.alloc(), b"a.o");
    assert!(rt; matches!(no_object, Some(LibraryFault::NotAnObject)));
    assert!(rt; refuses_to_delete(rt.alloc(), b"z.o"));
    Ok(())
}

fn names_of(alloc: Global, letters: &[u8]) -> Result<Names, AllocError> {
    let mut names = Names::new(alloc);
    for letter in letters {
        names.insert(Vec::from_slice(alloc, &[*letter])?)?;
    }
    Ok(names)
}

/// Returns whether these members of a library are selected for the names wanted, where others are defined.
fn selects_in(
    alloc: Global,
    index: &Index,
    wanted: &[u8],
    defined: &[u8],
    places: &[usize],
) -> Result<bool, LibraryFault> {
    let wanted = names_of(alloc, wanted)?;
    let defined = names_of(alloc, defined)?;
    Ok(select(alloc, index, &wanted, &defined)?.as_slice() == places)
}

/// The same for a library of these members; not where it can't be made.
fn selects(
    alloc: Global,
    members: &[Member],
    wanted: &[u8],
    defined: &[u8],
    places: &[usize],
) -> bool {
    match index_of(alloc, members) {
        Ok(index) => matches!(selects_in(alloc, &index, wanted, defined, places), Ok(true)),
        Err(_) => false,
    }
}

/// Of a chain of members those that are needed, and both where a name that is needed is exported twice.
#[test]
fn first_exporters_are_selected(rt: HostRuntime) -> Result<(), Fail> {
    let chain: [Member; 3] = [(b'a', b"", b"f"), (b'b', b"f", b"g"), (b'c', b"", b"h")];
    assert!(rt; selects(rt.alloc(), &chain, b"g", b"", &[0, 1]));
    assert!(rt; selects(rt.alloc(), &chain, b"g", b"f", &[1]));
    let twice: [Member; 2] = [(b'a', b"", b"h"), (b'b', b"h", b"fh")];
    assert!(rt; selects(rt.alloc(), &twice, b"f", b"", &[0, 1]));
    Ok(())
}

/// How a file is refused as a library's; none where it isn't.
fn refusal(alloc: Global, bytes: &[u8]) -> Result<Option<LibraryFault>, AllocError> {
    let mut store = MemStore::new(alloc);
    store.put("l.lib", bytes)?;
    Ok(read_index(alloc, &mut store, "l.lib").err())
}

#[test]
fn a_library_that_is_cut_is_refused(rt: HostRuntime) -> Result<(), Fail> {
    for len in 0..51 {
        let found = refusal(rt.alloc(), &ONE_MEMBER[..len])?;
        let is_head = matches!(found, Some(LibraryFault::NotALibrary));
        let is_short = matches!(found, Some(LibraryFault::CutShort));
        assert!(rt; is_head == (len < 5) && is_short == (5 <= len), "{len}");
    }
    let many = refusal(rt.alloc(), MANY_MEMBERS)?;
    assert!(rt; matches!(many, Some(LibraryFault::CutShort)));
    Ok(())
}
