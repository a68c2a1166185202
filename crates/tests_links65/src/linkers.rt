//! An object that was worked out by hand, fed to a linker record by record.

use crate::libraries::{index_of, object};
use base65::MemStore;
use library65::{Entry, Names};
use link65::{LinkFault, Linked, Linker};
use object65::{ObjectFault, Record, read_head, read_record};
use script65::read_script;
use std::alloc::Global;
use std::test::Fail;

/// A section CODE whose jump goes to its own start, which is exported.
const JUMP: &[u8] =
    b"R65o\x01\x02\x09\0\x03\0\0\0\0CODE\x03\x01\0\x4c\x05\x12\0\x01\x02\0\0\0\x01\0\0\0\0\0\0\0\0\0\0\0\0\x06\x17\0\x05start\x01\0\0\0\x01\0\0\0\0\0\0\0\0\0\0\0\0\x08\0\0";

const SCRIPT: &[u8] = b"MEMORY { ROM: start = $8000, size = $10; }
SEGMENTS { CODE: load = ROM, type = ro; DATA: load = ROM, type = ro, optional = yes; }";

/// A linker by a script.
pub fn linker_by(alloc: Global, script: &[u8]) -> Result<Linker, LinkFault> {
    match read_script(alloc, script) {
        Ok(script) => Linker::new(alloc, script, "out"),
        Err(_) => Err(LinkFault::FailedBefore),
    }
}

/// Begins a module, where none is open.
fn begin(linker: &mut Linker, entry: Option<&Entry>) -> Result<(), LinkFault> {
    if linker.is_open() {
        return Err(LinkFault::FailedBefore);
    }
    linker.begin_module(b"m.o", 1, entry)
}

/// Feeds a record to the module that is open.
fn record(linker: &mut Linker, record: &Record) -> Result<(), LinkFault> {
    if !linker.is_open() {
        return Err(LinkFault::FailedBefore);
    }
    linker.record(record)
}

/// Ends the module that is open.
pub fn end(linker: &mut Linker) -> Result<(), LinkFault> {
    if !linker.is_open() {
        return Err(LinkFault::FailedBefore);
    }
    linker.end_module()
}

/// Links, where no module is open.
pub fn finish(linker: Linker) -> Result<Linked, LinkFault> {
    if linker.is_open() {
        return Err(LinkFault::FailedBefore);
    }
    linker.finish()
}

/// Returns the records of a store's file with this many bytes.
fn records_in(alloc: Global, store: &mut MemStore, limit: u64) -> Result<Vec<Record>, ObjectFault> {
    let (version, first) = read_head(store, "a.o", 0, limit)?;
    let mut records = Vec::new(alloc);
    let mut at = first;
    for _ in 0..limit {
        if at < limit {
            let (record, next) = read_record(store, "a.o", version, at, limit)?;
            records.push(record)?;
            at = next;
        }
    }
    Ok(records)
}

/// The records of the object.
pub fn records_of(alloc: Global, bytes: &[u8]) -> Result<Vec<Record>, ObjectFault> {
    let mut store = MemStore::new(alloc);
    match store.put("a.o", bytes) {
        Ok(()) => records_in(alloc, &mut store, bytes.len() as u64),
        Err(fault) => Err(fault.into()),
    }
}

/// Returns how many values were counted after each record of a module, which is open.
pub fn pending_after(
    alloc: Global,
    linker: &mut Linker,
    records: &[Record],
) -> Result<Vec<usize>, LinkFault> {
    let mut counts = Vec::new(alloc);
    for one in records {
        record(linker, one)?;
        counts.push(linker.pending())?;
    }
    Ok(counts)
}

/// Returns whether a link gives one file with these bytes.
fn is_image(linked: &Linked, bytes: &[u8]) -> bool {
    match linked.files.as_slice() {
        [file] => file.bytes.as_slice() == bytes,
        _ => false,
    }
}

/// Returns whether a linker to which all was fed gives one file with these bytes, and no warning.
pub fn gives(linker: Linker, bytes: &[u8]) -> Result<bool, LinkFault> {
    let linked = finish(linker)?;
    Ok(is_image(&linked, bytes) && linked.warnings.len() == 0)
}

/// Feeds the records of an object to a module, which is open. Returns how many values were counted
/// after each.
pub fn feed_records(
    alloc: Global,
    linker: &mut Linker,
    bytes: &[u8],
) -> Result<Vec<usize>, LinkFault> {
    let records = records_of(alloc, bytes)?;
    pending_after(alloc, linker, records.as_slice())
}

/// Feeds the jump; whether its value is taken with its record.
fn takes_jump(alloc: Global, linker: &mut Linker) -> Result<bool, LinkFault> {
    begin(linker, None)?;
    let counts = feed_records(alloc, linker, JUMP)?;
    let is_so = counts.as_slice() == [0, 0, 1, 1, 1].as_slice();
    end(linker).map(|()| is_so)
}

/// Returns whether the jump links to its own place, where its value is taken with its record.
fn links_jump(alloc: Global) -> Result<bool, LinkFault> {
    let mut linker = linker_by(alloc, SCRIPT)?;
    match takes_jump(alloc, &mut linker) {
        Ok(true) => gives(linker, [0x4c, 0x00, 0x80].as_slice()),
        other => other,
    }
}

#[test]
fn links_a_jump(rt: HostRuntime) -> Result<(), Fail> {
    assert!(rt; links_jump(rt.alloc())?);
    Ok(())
}

/// Feeds a module of these imports and exports, where none is open.
fn feed(
    alloc: Global,
    linker: &mut Linker,
    imports: &[u8],
    exports: &[u8],
    entry: Option<&Entry>,
) -> Result<(), LinkFault> {
    let bytes = object(alloc, imports, exports)?;
    begin(linker, entry)?;
    feed_records(alloc, linker, bytes.as_slice())?;
    end(linker)
}

/// Returns whether names are these, of one letter each, in this order.
fn are_names(names: &Names, letters: &[u8]) -> bool {
    names.len() == letters.len()
        && names
            .iter()
            .zip(letters)
            .all(|(name, letter)| name.as_slice() == &[*letter][..])
}

const SYMBOLS: &[u8] =
    b"MEMORY { A: start = 0, size = 1; } SEGMENTS { C: load = A, optional = yes; }
SYMBOLS { s: type = import; e: type = export, value = 1; w: type = weak, value = 2; }";

/// Returns whether these names are open.
fn are_open(linker: &Linker, letters: &[u8]) -> Result<bool, LinkFault> {
    Ok(are_names(&linker.open_names()?, letters))
}

/// Returns whether these names are defined.
fn are_defined(linker: &Linker, letters: &[u8]) -> Result<bool, LinkFault> {
    Ok(are_names(&linker.defined_names()?, letters))
}

/// Returns whether these names are open and these are defined.
fn tells(linker: &Linker, open: &[u8], defined: &[u8]) -> Result<bool, LinkFault> {
    Ok(are_open(linker, open)? && are_defined(linker, defined)?)
}

/// Returns whether names are open in order of first reference until something gives them; a weak name gives nothing here.
fn tells_after(alloc: Global, linker: &mut Linker) -> Result<bool, LinkFault> {
    let first = tells(linker, b"s", b"e")?;
    feed(alloc, linker, b"gewf", b"h", None)?;
    let second = tells(linker, b"sgwf", b"eh")?;
    feed(alloc, linker, b"x", b"gs", None)?;
    Ok(first && second && tells(linker, b"wfx", b"ehgs")?)
}

/// The same of a new linker.
fn tells_in_turn(alloc: Global) -> Result<bool, LinkFault> {
    let mut linker = linker_by(alloc, SYMBOLS)?;
    tells_after(alloc, &mut linker)
}

#[test]
fn tells_open_and_defined_names(rt: HostRuntime) -> Result<(), Fail> {
    assert!(rt; tells_in_turn(rt.alloc())?);
    Ok(())
}

/// Returns whether a linker accepts a module with these names if an index entry has others or the
/// same; `None` if it fails for another reason, or behaves differently afterwards.
fn takes(
    linker: &mut Linker,
    alloc: Global,
    imports: &[u8],
    exports: &[u8],
    entry: Option<&Entry>,
) -> Option<bool> {
    match feed(alloc, linker, imports, exports, entry) {
        Ok(()) => Some(true),
        Err(LinkFault::IndexDisagrees) => has_failed(linker).then_some(false),
        Err(_) => None,
    }
}

/// Returns whether both calls for names are refused because a call before was.
fn has_failed(linker: &Linker) -> bool {
    matches!(linker.open_names(), Err(LinkFault::FailedBefore))
        && matches!(linker.defined_names(), Err(LinkFault::FailedBefore))
}

/// Returns whether a new linker takes a module where an entry has these names, as is said.
fn compares(
    alloc: Global,
    (imports, exports): (&[u8], &[u8]),
    entry: Option<&Entry>,
    is_taken: bool,
) -> Result<bool, LinkFault> {
    let mut linker = linker_by(alloc, SCRIPT)?;
    Ok(takes(&mut linker, alloc, imports, exports, entry) == Some(is_taken))
}

/// Returns whether a module is taken only where it has the names of an entry in their order.
fn compares_all(alloc: Global, entry: Option<&Entry>) -> Result<bool, LinkFault> {
    let modules: [(&[u8], &[u8]); 6] = [
        (b"xy", b"fg"),
        (b"yx", b"fg"),
        (b"xy", b"gf"),
        (b"x", b"fg"),
        (b"xy", b"f"),
        (b"xy", b"fgh"),
    ];
    let mut are_right = entry.is_some();
    for (place, module) in modules.into_iter().enumerate() {
        are_right = compares(alloc, module, entry, place == 0)? && are_right;
    }
    Ok(are_right)
}

/// The same for the entry of a library's one member.
fn compares_with_index(alloc: Global) -> Result<bool, LinkFault> {
    match index_of(alloc, &[(b'a', b"xy", b"fg")]) {
        Ok(index) => compares_all(alloc, index.entries.as_slice().first()),
        Err(_) => Err(LinkFault::FailedBefore),
    }
}

#[test]
fn compares_a_member_with_its_entry(rt: HostRuntime) -> Result<(), Fail> {
    assert!(rt; compares_with_index(rt.alloc())?);
    Ok(())
}
