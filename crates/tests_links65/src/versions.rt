//! Objects of both versions that say the same, linked.

use crate::linkers::{end, feed_records, gives, linker_by};
use link65::{LinkFault, Linker};
use std::alloc::Global;
use std::test::Fail;

/// `nop` and a byte of the import `v`, from line 2 of `i.inc`.
const TWO: &[u8] =
    b"R65o\x02\x09\x05\0i.inc\x01\x01\0v\x02\x09\0\x02\0\0\0\0CODE\x03\x01\0\xea\x05\x0e\0\0\0\0\0\0\x02\0\0\0\x02\0\0\0\0\x08\0\0";

/// The same without the file.
const ONE: &[u8] =
    b"R65o\x01\x01\x01\0v\x02\x09\0\x02\0\0\0\0CODE\x03\x01\0\xea\x05\x0a\0\0\x02\0\0\0\x02\0\0\0\0\x08\0\0";

const FITS: &[u8] = b"MEMORY { ROM: start = $8000, size = $10; }
SEGMENTS { CODE: load = ROM, type = ro; } SYMBOLS { v: type = export, value = 255; }";

/// Begins a module of either version.
fn begin(linker: &mut Linker, is_two: bool) -> Result<(), LinkFault> {
    if linker.is_open() {
        return Err(LinkFault::FailedBefore);
    }
    if is_two {
        linker.begin_module(b"m.o", 2, None)
    } else {
        linker.begin_module(b"m.o", 1, None)
    }
}

/// Feeds the object.
fn feed(alloc: Global, linker: &mut Linker, bytes: &[u8], is_two: bool) -> Result<(), LinkFault> {
    begin(linker, is_two)?;
    feed_records(alloc, linker, bytes)?;
    end(linker)
}

/// Returns whether the object links to an image by the script.
fn links(alloc: Global, bytes: &[u8], is_two: bool) -> Result<bool, LinkFault> {
    let mut linker = linker_by(alloc, FITS)?;
    match feed(alloc, &mut linker, bytes, is_two) {
        Ok(()) => gives(linker, [0xea, 0xff].as_slice()),
        Err(fault) => Err(fault),
    }
}

#[test]
fn both_give_one_image(rt: HostRuntime) -> Result<(), Fail> {
    assert!(rt; links(rt.alloc(), TWO, true)?);
    assert!(rt; links(rt.alloc(), ONE, false)?);
    Ok(())
}
