//! The items of objects that were worked out by hand.

use super::TWO_LITERALS;
use arrayvec::ArrayVec;
use base65::MemStore;
use object65::{
    Fragment, Item, Node, ObjectFault, Origin, Record, Scan, Width, read_head, read_record,
};
use std::alloc::Global;
use std::test::Fail;

/// A section CODE whose jump goes to its own start, which is exported.
const JUMP: &[u8] =
    b"R65o\x01\x02\x09\0\x03\0\0\0\0CODE\x03\x01\0\x4c\x05\x12\0\x01\x02\0\0\0\x01\0\0\0\0\0\0\0\0\0\0\0\0\x06\x17\0\x05start\x01\0\0\0\x01\0\0\0\0\0\0\0\0\0\0\0\0\x08\0\0";

/// The items of the object, and how the scan of it ends; where a record is refused, its fault.
fn scan_bytes(
    alloc: Global,
    bytes: &[u8],
) -> Result<(Vec<Item>, Result<(), ObjectFault>), ObjectFault> {
    let mut store = MemStore::new(alloc);
    store.put("a.o", bytes)?;
    let limit = bytes.len() as u64;
    let mut items = Vec::new(alloc);
    let (version, first) = read_head(&mut store, "a.o", 0, limit)?;
    let mut scan = Scan::new(alloc, version);
    let mut at = first;
    for _ in 0..bytes.len() {
        if at < limit {
            let (record, next) = read_record(&mut store, "a.o", version, at, limit)?;
            items.push(scan.take(&record)?)?;
            at = next;
        }
    }
    Ok((items, scan.finish()))
}

fn is_start_of_first(node: &Node) -> bool {
    matches!(node, Node::SectionOffset(0, 0))
}

/// Returns whether the item is that of the record at this place among those of the jump.
fn is_of_jump(place: usize, item: &Item) -> bool {
    match (place, item) {
        (
            0,
            Item::Section {
                name,
                size: 3,
                align: 0,
            },
        ) => name.as_slice() == b"CODE".as_slice(),
        (
            1,
            Item::Part {
                section: 0,
                offset: 0,
                fragment: Fragment::Literal(bytes),
            },
        ) => bytes.as_slice() == [0x4c].as_slice(),
        (
            2,
            Item::Part {
                section: 0,
                offset: 1,
                fragment: Fragment::Value {
                    width: Width::Word,
                    origin: Origin {
                        file: None,
                        line: 2,
                    },
                    form,
                },
            },
        ) => is_start_of_first(form.node()),
        (3, Item::Export { name, origin, form }) => {
            origin.line == 1
                && name.as_slice() == b"start".as_slice()
                && is_start_of_first(form.node())
        }
        (4, Item::End) => true,
        _ => false,
    }
}

#[test]
fn gives_an_item_a_record(rt: HostRuntime) -> Result<(), Fail> {
    let (items, end) = scan_bytes(rt.alloc(), JUMP)?;
    assert_eq!(rt; items.len(), 5);
    for (place, item) in items.iter().enumerate() {
        assert!(rt; is_of_jump(place, item), "at {place}");
    }
    assert_eq!(rt; end, Ok(()));
    Ok(())
}

#[test]
fn wants_the_end(rt: HostRuntime) -> Result<(), Fail> {
    let (items, end) = scan_bytes(rt.alloc(), &JUMP[..68])?;
    assert_eq!(rt; items.len(), 4);
    assert_eq!(rt; end, Err(ObjectFault::CutShort));
    Ok(())
}

#[test]
fn refuses_what_a_builder_refuses(rt: HostRuntime) -> Result<(), Fail> {
    let refused = scan_bytes(rt.alloc(), TWO_LITERALS);
    assert!(rt; matches!(refused, Err(ObjectFault::NotCanonical)));
    Ok(())
}

#[test]
fn answers_failed_before(rt: HostRuntime) {
    let mut scan = Scan::new(rt.alloc(), 1);
    let mut body = ArrayVec::new();
    body.push(0);
    let end = Record { kind: 8, body };
    assert!(rt; matches!(scan.take(&end), Err(ObjectFault::BadSize)));
    assert!(rt; matches!(scan.take(&end), Err(ObjectFault::FailedBefore)));
    assert_eq!(rt; scan.finish(), Err(ObjectFault::FailedBefore));
}
