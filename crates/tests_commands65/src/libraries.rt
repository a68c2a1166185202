//! Links with libraries.

ghost use Rattle.std.specs.Prelude.{Some, None};
ghost use Rattle.std.proofs.Common.{rules};

use crate::runs::{S1, run_on, says};
use crate::scenes::first_wrong;
use base65::{MemStore, Store, StoreFault};
use std::alloc::{AllocError, Global};
use std::test::Fail;
use tools65::Status;

/// Which members are linked, depending on the library's position, and how libraries are rejected.
const SCENES: &str = "\
text s.cfg MEMORY { ROM: start = $8000, size = $10; } SEGMENTS { CODE: load = ROM, type = ro; DATA: load = ROM, type = ro, optional = yes; }
text a.s .export f // f: nop
text b.s .export g // .import f // g: jmp f
text c.s .export h // h: rts
text main.s .import g // jmp g
$ ca65 a.s
$ ca65 b.s
$ ca65 c.s
$ ca65 main.s
$ ar65 r l.lib a.o b.o c.o
$ ld65 -C s.cfg -m a.map main.o l.lib
is a.out 4C0480EA4C0380
says a.map MODULES // main.o //   CODE 00000000 00000003 // l.lib(a.o) //   CODE 00000003 00000001 // l.lib(b.o) //   CODE 00000004 00000003 // SEGMENTS // CODE 00008000 00008000 00000007 // DATA 00008007 00008007 00000000 // SYMBOLS // f 0000000000008003 // g 0000000000008004

text s.cfg MEMORY { ROM: start = $8000, size = $10; } SEGMENTS { CODE: load = ROM, type = ro; DATA: load = ROM, type = ro, optional = yes; }
bytes l 5236356C010300000001612A0000000100000001660000000001622E00000001000000016701000000016601632A000000010000000168000000005236356F010209000100000000434F444503010061060F000166010000000009000000000000000800005236356F01010100660209000100000000434F444503010062060F000167010000000009000000000000000800005236356F010209000100000000434F444503010063060F00016801000000000900000000000000080000
bytes m.o 5236356F01010100670209000100000000434F444503010000080000
$ ld65 -C s.cfg -o out m.o l
is out 006162
$ ld65 -C s.cfg -o out m.o l l
is out 006162
$ ld65 -C s.cfg -o out l m.o ==> ld65: Error: unresolved: g
bytes m.o 5236356F01010100680209000100000000434F444503010000080000
$ ld65 -C s.cfg -o out m.o l
is out 0063
bytes m.o 5236356F0101010068010100670209000100000000434F444503010000080000
$ ld65 -C s.cfg -o out m.o l
is out 00616263
bytes m.o 5236356F010209000100000000434F444503010000080000
$ ld65 -C s.cfg -o out m.o l
is out 00
bytes m.o 5236356F01010100780209000100000000434F444503010000080000
$ ld65 -C s.cfg -o out m.o l ==> ld65: Error: unresolved: x

text s.cfg MEMORY { ROM: start = $8000, size = $10; } SEGMENTS { CODE: load = ROM, type = ro; DATA: load = ROM, type = ro, optional = yes; }
bytes l 5236356C010200000001612E00000001000000016601000000016701622E0000000100000001670100000001665236356F01010100670209000100000000434F444503010061060F000166010000000009000000000000000800005236356F01010100660209000100000000434F444503010062060F00016701000000000900000000000000080000
bytes m.o 5236356F01010100660209000100000000434F444503010000080000
$ ld65 -C s.cfg -o out m.o l
is out 006162
bytes m.o 5236356F01010100670209000100000000434F444503010000080000
$ ld65 -C s.cfg -o out m.o l
is out 006162
bytes l 5236356C010200000001612A0000000100000001680000000001624000000002000000016601680100000001685236356F010209000100000000434F444503010061060F000168010000000009000000000000000800005236356F01010100680209000100000000434F444503010062060F00016601000000000900000000000000060F00016801000000000900000000000000080000
bytes m.o 5236356F01010100680209000100000000434F444503010000080000
$ ld65 -C s.cfg -o out m.o l
is out 0061
bytes m.o 5236356F01010100660209000100000000434F444503010000080000
$ ld65 -C s.cfg -o out m.o l ==> ld65: Error: duplicate export: h

text s.cfg MEMORY { ROM: start = $8000, size = $10; } SEGMENTS { CODE: load = ROM, type = ro; DATA: load = ROM, type = ro, optional = yes; }
bytes m.o 5236356F01010100660209000100000000434F444503010000080000
bytes l 5236356C010200000001612A0000000100000001660000000001623C000000010000000167000000005236356F010209000100000000434F444503010061060F000166010000000009000000000000000800005236356F010209000100000000434F444503010062060F00016701000000000900000000000000060F00016601000000000900000000000000080000
$ ld65 -C s.cfg -o out m.o l
is out 0061
bytes m.o 5236356F01010100670209000100000000434F444503010000080000
$ ld65 -C s.cfg -o out m.o l ==> l(b): Error: index disagrees with member
bytes m.o 5236356F0101010067010100660209000100000000434F444503010000080000
$ ld65 -C s.cfg -o out m.o l ==> l(b): Error: index disagrees with member
bytes l 5236356C010200000001612A0000000100000001660000000001622E000000010000000167000000005236356F010209000100000000434F444503010061060F000166010000000009000000000000000800005236356F01010100780209000100000000434F444503010062060F00016701000000000900000000000000080000
bytes m.o 5236356F01010100670209000100000000434F444503010000080000
$ ld65 -C s.cfg -o out m.o l ==> l(b): Error: index disagrees with member
bytes l 5236356C010200000001612A0000000100000001660000000001622F000000010000000167000000005236356F010209000100000000434F444503010061060F000166010000000009000000000000000800005236356F01010100780209000100000000434F444503010062060F0001670100000000090000000000000008000000
$ ld65 -C s.cfg -o out m.o l ==> l(b): Error: bytes after the end
bytes l 5236356C010200000001612A00000001000000016600000000016229000000010000000167000000005236356F010209000100000000434F444503010061060F000166010000000009000000000000000800005236356F010209000100000000434F444503010062060F000167010000000009000000000000000800
$ ld65 -C s.cfg -o out m.o l ==> l(b): Error: object cut short
bytes m.o 5236356F01010100660209000100000000434F444503010000080000
$ ld65 -C s.cfg -o out m.o l
is out 0061

text s.cfg MEMORY { ROM: start = $8000, size = $10; } SEGMENTS { CODE: load = ROM, type = ro; DATA: load = ROM, type = ro, optional = yes; }
bytes m.o 5236356F01010100660209000100000000434F444503010000080000
$ ld65 -C s.cfg m.o none ==> none: Error: file not found
bytes l 5236356C02
$ ld65 -C s.cfg -o out m.o l ==> l: Error: not a library
bytes l 5236356C010000000000
$ ld65 -C s.cfg -o out m.o l ==> l: Error: bad index
absent out

text s.cfg MEMORY { ROM: start = $8000, size = $10; } SEGMENTS { CODE: load = ROM; } SYMBOLS { f: type = weak, value = 5; }
text a.s .import f // .byte f
text f.s .export f // f = 9
$ ca65 a.s
$ ca65 f.s
$ ar65 r l f.o
$ ld65 -C s.cfg a.o
is a.out 05
$ ld65 -C s.cfg -o out a.o l
is out 09
";

#[test]
fn scenes(rt: HostRuntime) -> Result<(), Fail> {
    let wrong = first_wrong(rt.alloc(), SCENES)?;
    assert!(rt; wrong.is_none(), "{wrong:?}");
    Ok(())
}

/// An object that imports the name in its ninth byte.
const MAIN: &[u8] =
    b"R65o\x01\x01\x01\x00g\x02\x09\x00\x01\x00\x00\x00\x00CODE\x03\x01\x00\x00\x08\x00\x00";

/// A library of the members a, which exports f, b, which exports g and imports f, and c, which exports h.
const CHAIN: &[u8] =
    b"R65l\x01\x03\x00\x00\x00\x01a*\x00\x00\x00\x01\x00\x00\x00\x01f\x00\x00\x00\x00\x01b.\x00\x00\x00\x01\x00\x00\x00\x01g\x01\x00\x00\x00\x01f\x01c*\x00\x00\x00\x01\x00\x00\x00\x01h\x00\x00\x00\x00R65o\x01\x02\x09\x00\x01\x00\x00\x00\x00CODE\x03\x01\x00a\x06\x0f\x00\x01f\x01\x00\x00\x00\x00\x09\x00\x00\x00\x00\x00\x00\x00\x08\x00\x00R65o\x01\x01\x01\x00f\x02\x09\x00\x01\x00\x00\x00\x00CODE\x03\x01\x00b\x06\x0f\x00\x01g\x01\x00\x00\x00\x00\x09\x00\x00\x00\x00\x00\x00\x00\x08\x00\x00R65o\x01\x02\x09\x00\x01\x00\x00\x00\x00CODE\x03\x01\x00c\x06\x0f\x00\x01h\x01\x00\x00\x00\x00\x09\x00\x00\x00\x00\x00\x00\x00\x08\x00\x00";

/// The library of the first of them alone.
const ONE: &[u8] =
    b"R65l\x01\x01\x00\x00\x00\x01a*\x00\x00\x00\x01\x00\x00\x00\x01f\x00\x00\x00\x00R65o\x01\x02\x09\x00\x01\x00\x00\x00\x00CODE\x03\x01\x00a\x06\x0f\x00\x01f\x01\x00\x00\x00\x00\x09\x00\x00\x00\x00\x00\x00\x00\x08\x00\x00";

const LINK: [&str; 7] = ["bin65", "ld65", "-C", "s.cfg", "m.o", "l", "-oout"];

/// A store with a script, an object that imports a name of one letter, and a library.
fn files(alloc: Global, name: u8, library: &[u8]) -> Result<MemStore, AllocError> {
    let mut object = Vec::from_slice(alloc, MAIN)?;
    if 8 < object.len() {
        object[8] = name;
    }
    let mut store = MemStore::new(alloc);
    store.put("s.cfg", S1.as_bytes())?;
    store.put("m.o", object.as_slice())?;
    store.put("l", library)?;
    Ok(store)
}

/// Returns the message for the first `len` bytes of a library.
fn cut_message(len: usize) -> &'static str {
    match len {
        0..=3 => "l: Error: not an object\n",
        4 => "l: Error: not a library\n",
        _ => "l: Error: library cut short\n",
    }
}

#[test]
fn refuses_each_front_of_a_library(rt: HostRuntime) -> Result<(), Fail> {
    for len in 0..189 {
        let mut store = files(rt.alloc(), b'g', &CHAIN[..len])?;
        let ran = run_on(rt.alloc(), &mut store, &LINK);
        assert!(rt;
            says(&ran, cut_message(len)) && store.get("out").is_none(),
            "{len}"
        );
    }
    Ok(())
}

/// Returns whether a library is linked, or rejected with a message and no file written; `None` if
/// neither.
fn is_linked(alloc: Global, library: &[u8]) -> Result<Option<bool>, AllocError> {
    let mut store = files(alloc, b'f', library)?;
    let ran = run_on(alloc, &mut store, &LINK);
    let is_linked = ran.status == Status::Success;
    let is_told = is_linked || ran.err.as_slice().ends_with(b"\n");
    Ok((is_told && store.get("out").is_some() == is_linked).then_some(is_linked))
}

/// Each bit of a library is changed.
#[test]
fn answers_for_each_changed_bit(rt: HostRuntime) -> Result<(), Fail> {
    let mut linked: usize = 0;
    for place in 0..67 {
        for bit in [1, 2, 4, 8, 16, 32, 64, 128] {
            let mut bytes = Vec::from_slice(rt.alloc(), ONE)?;
            if place < bytes.len() {
                bytes[place] ^= bit;
            }
            let found = is_linked(rt.alloc(), bytes.as_slice())?;
            assert!(rt; found.is_some(), "{bit} at {place}");
            linked = linked.saturating_add((found == Some(true)) as usize);
        }
    }
    // All bits of the member's byte, and of its export's value and line, may be others.
    assert!(rt; 8 + 64 + 32 <= linked && linked < 67 * 8);
    Ok(())
}

/// Files in memory that count the bytes read of the library.
#[derive(Drop)]
struct Counting {
    files: MemStore,
    read: usize,
}

impl Store for Counting {
    ghost files = { λ s. Some s.files };

    ghost failures = { λ _. 0 };

    ghost last_failure = { λ _. None };

    fn read_at(&mut self, name: &str, at: u64, buf: &mut [u8]) -> Result<usize, StoreFault> {
        let n = self.files.read_at(name, at, buf)?;
        if name == "l" {
            self.read = self.read.saturating_add(n);
        }
        Ok(n)
    }

    fn create(&mut self, name: &str) -> Result<(), StoreFault> {
        self.files.create(name)
    }

    fn append(&mut self, name: &str, piece: &[u8]) -> Result<usize, StoreFault> {
        self.files.append(name, piece)
    }

    ghost counted = { λ _. Prim.search rules };
}

/// The number of bytes read of a library of which no member is needed: its first four, and its
/// index with the byte at which it ends.
const INDEX: usize = 4 + 59 + 1;

/// The members that are needed are read once: a of 42 bytes, b of 46.
#[test]
fn reads_only_what_is_needed(rt: HostRuntime) -> Result<(), Fail> {
    for (name, wanted) in [(b'g', INDEX + 42 + 46), (b'f', INDEX + 42), (b'x', INDEX)] {
        let mut store = Counting {
            files: files(rt.alloc(), name, CHAIN)?,
            read: 0,
        };
        run_on(rt.alloc(), &mut store, &LINK);
        assert!(rt; store.read == wanted);
    }
    Ok(())
}
