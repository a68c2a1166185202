//! Files that are included, and how much is read of a source.

ghost use Rattle.std.specs.Prelude.{None};
ghost use Rattle.std.proofs.Common.{rules};

use super::{Reading, expanded, in_folder, put_lines};
use base65::{MemStore, Store, StoreFault};
use std::test::Fail;

/// A folder, a source, of which all names are defined, an arrow, and its statements. A folder's name isn't cleaned.
const ROWS: &str = "\
d> .include \"i.inc\" ==> d/i.inc:1: no
d/> .include \"i.inc\" ==> b.s:1: file not found
c> .include \"i.inc\" ==> b.s:1: file not found
d> .include \"j.inc\" // .include \"/j.inc\" ==> clc ;sec ;
d> .include \"d/m\" // m // .byte 1 ==> nop ;.byte 1 ;
d> .include \"open\" ==> nop ;nop ;open:3: block not closed
d> .macro m // .include \"own\" // .endmacro // m ==> own:1: directive not understood
d> .include \"end\" // clc ==> nop ;
d> l: .ifdef v // nop // .endif // .ifndef ::v // clc // .endif ==> l : |nop ;
";

/// Files that include others, in folders and beside each other.
const FILES: &str = "\
d/i.inc: .error \"no\"
j.inc: clc
/j.inc: sec
d/m: .macro m // .include \"i\" // .endmacro
i: nop
d/i: clc
open: nop\r // .if 1 // nop
own: .local l
end: nop // .end
";

#[test]
fn rows(rt: HostRuntime) -> Result<(), Fail> {
    let mut store = MemStore::new(rt.alloc());
    for file in FILES.lines() {
        let (name, lines) = file.split_once(": ").ok_or("no name")?;
        put_lines(rt.alloc(), &mut store, name, lines)?;
    }
    let mut count = 0u32;
    for row in ROWS.lines() {
        let (folder, row) = row.split_once("> ").ok_or("no folder")?;
        let (lines, wanted) = row.split_once(" ==> ").ok_or("no arrow")?;
        put_lines(rt.alloc(), &mut store, "b.s", lines)?;
        let options = in_folder(rt.alloc(), folder)?;
        let reading = Reading {
            all: true,
            peeks: false,
            most: 100,
        };
        let found = expanded(rt.alloc(), &mut store, &options, reading)?;
        assert!(rt; found.as_slice() == wanted.as_bytes(), "{row}");
        count = count.saturating_add(1);
    }
    assert_eq!(rt; count, 9);
    Ok(())
}

const LINE: &[u8; 4] = b"nop\n";

/// A store whose only file has this many bytes, all lines `nop`. It counts the bytes read.
#[derive(Drop)]
struct Lines {
    len: u64,
    /// The number of bytes read.
    count: u64,
}

impl Store for Lines {
    ghost files = { λ _. None };

    ghost failures = { λ _. 0 };

    ghost last_failure = { λ _. None };

    fn read_at(&mut self, _name: &str, at: u64, buf: &mut [u8]) -> Result<usize, StoreFault> {
        let left = self.len.saturating_sub(at);
        let count = (buf.len() as u64).min(left) as usize;
        for i in 0..count {
            buf[i] = LINE[((at % 4) as usize + i) % 4];
        }
        self.count = self.count.saturating_add(count as u64);
        Ok(count)
    }

    fn create(&mut self, _name: &str) -> Result<(), StoreFault> {
        Ok(())
    }

    fn append(&mut self, _name: &str, piece: &[u8]) -> Result<usize, StoreFault> {
        Ok(piece.len())
    }

    ghost counted = { λ _. Prim.search rules };
}

#[test]
fn little_is_read_at_first(rt: HostRuntime) -> Result<(), Fail> {
    let mut store = Lines {
        len: 400_000,
        count: 0,
    };
    let options = in_folder(rt.alloc(), "d")?;
    let reading = Reading {
        all: false,
        peeks: false,
        most: 1,
    };
    let first = expanded(rt.alloc(), &mut store, &options, reading)?;
    assert!(rt; first.as_slice() == b"nop ;".as_slice() && store.count <= 8_192);
    Ok(())
}
