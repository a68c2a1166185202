//! Objects that were worked out by hand, byte by byte.

mod forms;
mod records;
mod scans;
mod versions;

ghost use Rattle.std.specs.Prelude.{◌≡◌, IfOk, None, true};
ghost use Rattle.std.proofs.Common.{rules};
ghost use Rattle.object65.specs.Objects.{is_well_formed_object};

use arrayvec::ArrayVec;
use base65::{MemStore, Store, StoreFault};
use object65::{
    Builder, Fragment, Object, ObjectFault, Record, Section, read_object, read_record, write_object,
};
use std::alloc::Global;
use std::test::Fail;

/// A section CODE of the bytes A9 00 60.
const CODE: &[u8; 26] = b"R65o\x01\x02\x09\0\x03\0\0\0\0CODE\x03\x03\0\xa9\0\x60\x08\0\0";

/// The same with the literal in two records.
const TWO_LITERALS: &[u8] =
    b"R65o\x01\x02\x09\0\x03\0\0\0\0CODE\x03\x02\0\xa9\0\x03\x01\0\x60\x08\0\0";

/// Reads these bytes as a file.
fn read(alloc: Global, bytes: &[u8]) -> Result<Object, ObjectFault>
    ensures { IfOk result (λ o. is_well_formed_object o ≡ true) }
{
    let mut store = MemStore::new(alloc);
    store.put("a.o", bytes)?;
    read_object(alloc, &mut store, "a.o", 0, u64::MAX)
}

/// Why these bytes are refused.
fn refusal(alloc: Global, bytes: &[u8]) -> Option<ObjectFault> {
    match read(alloc, bytes) {
        Ok(_) => None,
        Err(e) => Some(e),
    }
}

/// Returns whether the object has these three bytes in CODE, and nothing else.
fn is_code(object: &Object) -> bool {
    let is_alone = object.imports.len() == 0
        && object.exports.len() == 0
        && object.asserts.len() == 0;
    match object.sections.as_slice() {
        [code] => {
            is_alone
                && code.align == 0
                && code.name.as_slice() == b"CODE".as_slice()
                && is_of_code(code)
        }
        _ => false,
    }
}

fn is_of_code(code: &Section) -> bool {
    match code.fragments.as_slice() {
        [Fragment::Literal(bytes)] => bytes.as_slice() == b"\xa9\0\x60".as_slice(),
        _ => false,
    }
}

#[test]
fn reads_a_section(rt: HostRuntime) -> Result<(), Fail> {
    let object = read(rt.alloc(), CODE)?;
    assert!(rt; is_code(&object));
    Ok(())
}

#[test]
fn refuses_what_is_cut_short(rt: HostRuntime) -> Result<(), Fail> {
    let alloc = rt.alloc();
    for len in 0..26 {
        let expected = if len < 5 {
            ObjectFault::NotAnObject
        } else {
            ObjectFault::CutShort
        };
        assert_eq!(rt; refusal(alloc, &CODE[..len]), Some(expected), "at {len}");
    }
    Ok(())
}

/// The bytes with another one at a place.
fn changed(alloc: Global, place: usize, byte: u8) -> Result<Vec<u8>, Fail> {
    let mut bytes = Vec::from_slice(alloc, CODE)?;
    if place < bytes.len() {
        bytes[place] = byte;
    }
    Ok(bytes)
}

#[test]
fn refuses_other_versions_and_kinds(rt: HostRuntime) -> Result<(), Fail> {
    let alloc = rt.alloc();
    for (place, byte, fault) in [
        (4, 3, ObjectFault::UnknownVersion),
        (5, 9, ObjectFault::UnknownRecord),
    ] {
        let bytes = changed(alloc, place, byte)?;
        assert!(rt; refusal(alloc, &bytes) == Some(fault));
    }
    Ok(())
}

/// Returns whether the bytes are refused for what they are, or are the spelling of what is read.
fn is_settled(alloc: Global, bytes: &[u8]) -> Result<bool, Fail> {
    match read(alloc, bytes) {
        Ok(object) => {
            let mut out = Vec::new(alloc);
            write_object(alloc, &object, &mut out)?;
            Ok(out.as_slice() == bytes)
        }
        Err(e) => Ok(2 <= e as u8 && e as u8 <= 10),
    }
}

#[test]
fn settles_each_change_of_a_byte(rt: HostRuntime) -> Result<(), Fail> {
    let alloc = rt.alloc();
    for place in 0..26 {
        for byte in 0..=255 {
            let bytes = changed(alloc, place, byte)?;
            assert!(rt; is_settled(alloc, &bytes)?, "{byte} at {place}");
        }
    }
    Ok(())
}

/// Has a record with a body of 100 bytes at one place, and zeros without an end.
#[derive(Drop)]
struct Endless;

impl Store for Endless {
    ghost files = { λ _. None };

    ghost failures = { λ _. 0 };

    ghost last_failure = { λ _. None };

    fn read_at(&mut self, _name: &str, at: u64, buf: &mut [u8]) -> Result<usize, StoreFault> {
        for byte in buf.iter_mut() {
            *byte = 0;
        }
        if at == 1_073_741_800 && buf.len() > 1 {
            buf[0] = 3;
            buf[1] = 100;
        }
        Ok(buf.len())
    }

    fn create(&mut self, _name: &str) -> Result<(), StoreFault> {
        Ok(())
    }

    fn append(&mut self, _name: &str, piece: &[u8]) -> Result<usize, StoreFault> {
        Ok(piece.len())
    }

    ghost counted = { λ _. Prim.search rules };
}

#[test]
fn stops_after_the_largest_file(rt: HostRuntime) -> Result<(), Fail> {
    let mut store = Endless;
    let found = read_record(&mut store, "a.o", 1, 1_073_741_800, 2_000_000_000);
    assert!(rt; matches!(found, Err(ObjectFault::BadSize)));
    Ok(())
}

#[test]
fn answers_failed_before(rt: HostRuntime) -> Result<(), Fail> {
    let mut builder = Builder::new(rt.alloc(), 1);
    let mut body = ArrayVec::new();
    body.push(0);
    let end = Record { kind: 8, body };
    assert_eq!(rt; builder.take(&end), Err(ObjectFault::BadSize));
    assert_eq!(rt; builder.take(&end), Err(ObjectFault::FailedBefore));
    assert!(rt; matches!(builder.finish(), Err(ObjectFault::FailedBefore)));
    Ok(())
}
