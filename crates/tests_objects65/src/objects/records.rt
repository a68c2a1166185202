//! Objects of all kinds of records, worked out by hand: what is read and written back, and what is refused.

use super::read;
use arrayvec::ArrayVec;
use object65::{Builder, ObjectFault, Record, write_object};
use std::alloc::Global;
use std::test::Fail;

/// The records of an object after its head, and the result: `good` if the object that is read is
/// written as the same bytes. Rows of sections, literals and fills alone are cases for the real
/// program.
const ROWS: &str = "\
02 0900 03000000 00 434F4445  03 0300 A90060  08 0000 ==> good
02 0900 03000000 00 434F4445  03 0300 A90060  08 0000 00 ==> bytes after the end
02 0900 03000000 00 434F4445  03 0200 A900  03 0100 60  08 0000 ==> not canonical
02 0900 03000000 00 434F4445  03 0100 4C  05 1200 01 02000000 01 00000000 0000000000000000  06 1700 05 7374617274 01000000 01 00000000 0000000000000000  08 0000 ==> good
02 0900 02000000 00 434F4445  05 1200 01 02000000 01 00000000 0000000000000000  06 1700 05 7374617274 01000000 01 00000000 0000000000000000  08 0000 ==> good
01 0100 75  01 0100 76  02 0900 02000000 00 434F4445  05 1000 01 02000000 28 02 00000000 02 01000000  08 0000 ==> good
01 0100 76  02 0600 0A000000 00 41  05 0A00 00 01000000 02 00000000  05 0A00 01 01000000 02 00000000  05 0A00 02 01000000 02 00000000  05 0A00 03 01000000 02 00000000  05 0A00 04 01000000 02 00000000  08 0000 ==> good
01 0100 76  07 0D00 00 07000000 02 6E6F 02 00000000  07 0B00 01 07000000 00 02 00000000  08 0000 ==> good
01 0100 76  06 1100 01 78 01000000 15 14 13 12 11 10 02 00000000  08 0000 ==> good
01 0100 76  06 7D00 01 78 01000000 20 21 22 23 24 25 26 27 28 29 2A 2B 2C 2D 2E 2F 30 31 32 02 00000000 02 00000000 02 00000000 02 00000000 02 00000000 02 00000000 02 00000000 02 00000000 02 00000000 02 00000000 02 00000000 02 00000000 02 00000000 02 00000000 02 00000000 02 00000000 02 00000000 02 00000000 02 00000000 02 00000000  08 0000 ==> good
06 0F00 01 78 01000000 00 FFFFFFFFFFFFFFFF  08 0000 ==> good
01 0100 76  06 1100 01 78 01000000 28 02 00000000 02 00000000  08 0000 ==> good
02 0600 00000000 00 41  02 0600 00000000 00 42  06 2100 01 78 01000000 28 01 00000000 0000000000000000 01 01000000 0000000000000000  08 0000 ==> good
02 0600 00000000 00 41  06 1D00 01 78 01000000 28 00 0100000000000000 01 00000000 0000000000000000  08 0000 ==> good
02 0600 00000000 00 41  01 0100 76  08 0000 ==> record out of order
06 0F00 01 78 01000000 00 0000000000000000  01 0100 76  08 0000 ==> record out of order
06 0F00 01 78 01000000 00 0000000000000000  02 0600 00000000 00 41  08 0000 ==> record out of order
01 0100 76  07 0B00 01 07000000 00 02 00000000  06 0F00 01 78 01000000 00 0000000000000000  08 0000 ==> record out of order
01 0100 76  05 0A00 00 01000000 02 00000000  08 0000 ==> record out of order
02 0600 01000000 00 41  06 0F00 01 78 01000000 00 0000000000000000  08 0000 ==> record out of order
01 0100 76  02 0600 01000000 00 41  07 0B00 01 07000000 00 02 00000000  08 0000 ==> record out of order
01 0100 76  02 0600 01000000 00 41  05 0A00 01 01000000 02 00000000  08 0000 ==> bad size
01 0100 76  02 0600 01000000 00 41  05 0A00 05 01000000 02 00000000  08 0000 ==> bad size
01 0100 76  02 0600 01000000 00 41  05 0900 00 01000000 02 000000  08 0000 ==> bad size
01 0100 76  02 0600 01000000 00 41  05 0B00 00 01000000 02 00000000 00  08 0000 ==> bad size
01 0100 76  02 0600 01000000 00 41  05 0B00 00 01000000 16 02 00000000  08 0000 ==> bad size
01 0100 76  02 0600 01000000 00 41  05 1000 00 01000000 33 02 00000000 02 00000000  08 0000 ==> bad size
02 0600 01000000 00 41  05 0600 00 01000000 03  08 0000 ==> bad size
02 0600 01000000 00 41  05 0500 00 01000000  08 0000 ==> bad size
06 0200 02 78  08 0000 ==> bad size
06 0400 01 78 0100  08 0000 ==> bad size
07 0B00 02 07000000 00 02 00000000  08 0000 ==> bad size
07 0700 01 07000000 02 6E  08 0000 ==> bad size
02 0600 01000000 00 41  05 0A00 00 01000000 02 00000000  08 0000 ==> index out of range
02 0600 01000000 00 41  05 1200 00 01000000 01 01000000 0000000000000000  08 0000 ==> index out of range
06 0B00 01 20 01000000 02 00000000  08 0000 ==> index out of range
07 0B00 01 07000000 00 02 00000000  08 0000 ==> index out of range
02 0600 01000000 00 41  05 0B00 00 01000000 10 02 00000000  08 0000 ==> index out of range
01 0000  08 0000 ==> not canonical
01 0100 20  08 0000 ==> not canonical
01 0100 7F  08 0000 ==> not canonical
01 0100 76  01 0100 76  08 0000 ==> not canonical
06 0E00 00 01000000 00 0000000000000000  08 0000 ==> not canonical
06 0F00 01 78 01000000 00 0000000000000000  06 0F00 01 78 01000000 00 0000000000000000  08 0000 ==> not canonical
02 0600 01000000 00 41  05 0E00 00 01000000 00 0000000000000000  08 0000 ==> not canonical
07 0F00 01 07000000 00 00 0000000000000000  08 0000 ==> not canonical
06 1000 01 78 01000000 10 00 0000000000000000  08 0000 ==> not canonical
06 1900 01 78 01000000 27 00 0100000000000000 00 0100000000000000  08 0000 ==> not canonical
06 1900 01 78 01000000 21 00 0100000000000000 00 0000000000000000  08 0000 ==> not canonical
02 0600 00000000 00 41  06 1D00 01 78 01000000 27 01 00000000 0000000000000000 00 0100000000000000  08 0000 ==> not canonical
02 0600 00000000 00 41  06 1D00 01 78 01000000 27 00 0100000000000000 01 00000000 0000000000000000  08 0000 ==> not canonical
02 0600 00000000 00 41  06 1D00 01 78 01000000 28 01 00000000 0000000000000000 00 0100000000000000  08 0000 ==> not canonical
02 0600 00000000 00 41  06 2100 01 78 01000000 28 01 00000000 0000000000000000 01 00000000 0100000000000000  08 0000 ==> not canonical
";

/// The value of a hexadecimal digit.
fn digit(byte: u8) -> Option<u8> {
    match byte {
        b'0'..=b'9' => Some(byte - b'0'),
        b'A'..=b'F' => Some(byte - b'A' + 10),
        _ => None,
    }
}

/// The head of an object of version 1, and the bytes that are written here.
fn object_bytes(alloc: Global, text: &str) -> Result<Vec<u8>, Fail> {
    bytes_of_version(alloc, 1, text)
}

/// The head of an object of this version, and the bytes that are written here.
pub fn bytes_of_version(alloc: Global, version: u8, text: &str) -> Result<Vec<u8>, Fail> {
    let mut bytes = Vec::from_slice(alloc, &[0x52, 0x36, 0x35, 0x6f, version])?;
    let mut high: Option<u8> = None;
    for byte in text.as_bytes() {
        if let Some(low) = digit(*byte) {
            match high {
                None => high = Some(low),
                Some(h) => {
                    bytes.push((h << 4) | low)?;
                    high = None;
                }
            }
        }
    }
    Ok(bytes)
}

/// Returns the result for these bytes.
pub fn outcome(alloc: Global, bytes: &[u8]) -> Result<String, Fail> {
    match read(alloc, bytes) {
        Ok(object) => {
            let mut out = Vec::new(alloc);
            write_object(alloc, &object, &mut out)?;
            let same = if out.as_slice() == bytes {
                "good"
            } else {
                "written in another way"
            };
            Ok(String::from_str(alloc, same)?)
        }
        Err(fault) => Ok(format!(in alloc; "{fault}")?),
    }
}

#[test]
fn reads_and_writes_all_kinds(rt: HostRuntime) -> Result<(), Fail> {
    let mut count = 0u32;
    for row in ROWS.lines() {
        let (records, wanted) = row.split_once(" ==> ").ok_or("no arrow")?;
        let bytes = object_bytes(rt.alloc(), records)?;
        let found = outcome(rt.alloc(), &bytes)?;
        assert_eq!(rt; found.as_str(), wanted);
        count = count.saturating_add(1);
    }
    assert_eq!(rt; count, 53);
    Ok(())
}

/// Returns an object with an import and an export whose form has this many operations.
fn nested(alloc: Global, operations: u16) -> Result<Vec<u8>, Fail> {
    let mut bytes = object_bytes(alloc, "01 0100 76 06")?;
    let len = operations.saturating_add(11);
    bytes.push((len % 256) as u8)?;
    bytes.push((len / 256) as u8)?;
    bytes.extend_from_slice(&[1, b'x', 1, 0, 0, 0])?;
    for _ in 0..operations {
        bytes.push(0x10)?;
    }
    bytes.extend_from_slice(&[2, 0, 0, 0, 0, 8, 0, 0])?;
    Ok(bytes)
}

#[test]
fn largest_forms(rt: HostRuntime) -> Result<(), Fail> {
    for (operations, wanted) in [
        (254u16, "good"),
        (255, "not canonical"),
        (4085, "not canonical"),
        (4086, "bad size"),
    ] {
        let bytes = nested(rt.alloc(), operations)?;
        let found = outcome(rt.alloc(), &bytes)?;
        assert_eq!(rt; found.as_str(), wanted);
    }
    Ok(())
}

/// Returns an object with an import whose name has `len` bytes.
fn named(alloc: Global, len: u16) -> Result<Vec<u8>, Fail> {
    let mut bytes = object_bytes(alloc, "01")?;
    bytes.push((len % 256) as u8)?;
    bytes.push((len / 256) as u8)?;
    for _ in 0..len {
        bytes.push(b'v')?;
    }
    bytes.extend_from_slice(&[8, 0, 0])?;
    Ok(bytes)
}

#[test]
fn longest_names(rt: HostRuntime) -> Result<(), Fail> {
    for (len, wanted) in [(255u16, "good"), (256, "not canonical"), (4097, "bad size")] {
        let bytes = named(rt.alloc(), len)?;
        let found = outcome(rt.alloc(), &bytes)?;
        assert_eq!(rt; found.as_str(), wanted);
    }
    Ok(())
}

#[test]
fn takes_nothing_after_the_end(rt: HostRuntime) -> Result<(), Fail> {
    let mut builder = Builder::new(rt.alloc(), 1);
    let end = Record {
        kind: 8,
        body: ArrayVec::new(),
    };
    assert_eq!(rt; builder.take(&end), Ok(()));
    assert!(rt; builder.is_ended());
    assert_eq!(rt; builder.take(&end), Err(ObjectFault::OutOfOrder));
    Ok(())
}
