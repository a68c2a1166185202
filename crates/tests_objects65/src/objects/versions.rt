//! Objects of both versions, worked out by hand.

use super::records::{bytes_of_version, outcome};
use std::alloc::Global;
use std::test::Fail;

/// Objects of version 2: the records after the head, and the result.
const ROWS: &str = "\
09 0500 692E696E63  01 0100 76  02 0900 02000000 00 434F4445  03 0100 EA  05 0E00 00 00000000 02000000 02 00000000  08 0000 ==> good
08 0000 ==> good
09 0000  08 0000 ==> good
09 0100 61  09 0100 62  09 0100 20  08 0000 ==> good
09 0100 61  01 0100 76  07 0F00 01 00000000 07000000 00 02 00000000  08 0000 ==> good
09 0100 61  09 0100 62  06 1300 01 78 01000000 05000000 00 0000000000000000  08 0000 ==> good
09 0100 61  09 0100 61  08 0000 ==> not canonical
09 0100 FF  08 0000 ==> not canonical
01 0100 76  09 0100 61  08 0000 ==> record out of order
02 0600 00000000 00 41  09 0100 61  08 0000 ==> record out of order
06 1300 01 78 00000000 05000000 00 0000000000000000  08 0000 ==> index out of range
09 0100 61  06 1300 01 78 01000000 05000000 00 0000000000000000  08 0000 ==> index out of range
09 0100 61  06 1300 01 20 01000000 05000000 00 0000000000000000  08 0000 ==> index out of range
09 0100 61  06 1300 01 20 00000000 05000000 00 0000000000000000  08 0000 ==> not canonical
09 0100 61  01 0100 76  07 0F00 01 01000000 07000000 00 02 00000000  08 0000 ==> index out of range
09 0100 61  01 0100 76  02 0600 01000000 00 41  05 0E00 00 01000000 02000000 02 00000000  08 0000 ==> index out of range
09 0100 61  01 0100 76  02 0600 01000000 00 41  05 0E00 01 01000000 02000000 02 00000000  08 0000 ==> bad size
01 0100 76  02 0600 01000000 00 41  05 0A00 00 02000000 02 00000000  08 0000 ==> bad size
0A 0000  08 0000 ==> unknown record
08 0000  09 0100 61 ==> bytes after the end
";

#[test]
fn reads_and_writes_version_two(rt: HostRuntime) -> Result<(), Fail> {
    let mut count = 0u32;
    for row in ROWS.lines() {
        let (records, wanted) = row.split_once(" ==> ").ok_or("no arrow")?;
        let bytes = bytes_of_version(rt.alloc(), 2, records)?;
        let found = outcome(rt.alloc(), &bytes)?;
        assert_eq!(rt; found.as_str(), wanted);
        count = count.saturating_add(1);
    }
    assert_eq!(rt; count, 20);
    Ok(())
}

#[test]
fn each_version_has_its_length(rt: HostRuntime) -> Result<(), Fail> {
    let alloc = rt.alloc();
    let two =
        "09 0500 692E696E63 01 0100 76 02 0900 02000000 00 434F4445 03 0100 EA 05 0E00 00 00000000 02000000 02 00000000 08 0000";
    let one =
        "01 0100 76 02 0900 02000000 00 434F4445 03 0100 EA 05 0A00 00 02000000 02 00000000 08 0000";
    assert_eq!(rt; bytes_of_version(alloc, 2, two)?.len(), 53);
    let bytes = bytes_of_version(alloc, 1, one)?;
    assert_eq!(rt; bytes.len(), 41);
    assert_eq!(rt; outcome(alloc, &bytes)?.as_str(), "good");
    Ok(())
}

#[test]
fn other_versions_have_no_files(rt: HostRuntime) -> Result<(), Fail> {
    for (version, wanted) in [
        (0u8, "unknown version"),
        (1, "unknown record"),
        (2, "good"),
        (3, "unknown version"),
    ] {
        let bytes = bytes_of_version(rt.alloc(), version, "09 0100 61 08 0000")?;
        let found = outcome(rt.alloc(), &bytes)?;
        assert_eq!(rt; found.as_str(), wanted);
    }
    Ok(())
}

/// Returns an object of a file whose name has `len` bytes.
fn filed(alloc: Global, len: u16) -> Result<Vec<u8>, Fail> {
    let mut bytes = bytes_of_version(alloc, 2, "09")?;
    bytes.push((len % 256) as u8)?;
    bytes.push((len / 256) as u8)?;
    for _ in 0..len {
        bytes.push(b'f')?;
    }
    bytes.extend_from_slice(&[8, 0, 0])?;
    Ok(bytes)
}

#[test]
fn longest_file_names(rt: HostRuntime) -> Result<(), Fail> {
    for (len, wanted) in [
        (255u16, "good"),
        (256, "good"),
        (4096, "good"),
        (4097, "bad size"),
    ] {
        let bytes = filed(rt.alloc(), len)?;
        let found = outcome(rt.alloc(), &bytes)?;
        assert_eq!(rt; found.as_str(), wanted);
    }
    Ok(())
}
