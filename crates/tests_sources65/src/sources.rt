//! Sources and their outcomes: the worked ones, and those that no test of the real program shows.

mod stores;

use asm65::{AsmJob, Define, Diagnostic, assemble};
use ast65::AsmFault;
use base65::{MemStore, PathString};
use expand65::ExpandFault;
use object65::write_object;
use std::alloc::{AllocError, Global};
use std::test::Fail;
use syntax65::LexFault;

/// A source with ` // ` between its lines, an arrow, and its object's bytes, or the location and
/// message of its error. There is the folder `d` and the `-D` constant n, which is 3.
const ROWS: &str = "\
nop ==> 5236356F020209000100000000434F4445030100EA080000
; nothing ==> 5236356F02080000
.byte 1,$FF // .word $1234, 0FFh, %101 ==> 5236356F020209000800000000434F444503080001FF3412FF000500080000
.byte ($FFFFFFFF + 1) >> 32 ==> 5236356F020209000100000000434F444503010001080000
.export start // start: .word start ==> 5236356F02090300622E730209000200000000434F444505160001000000000200000001000000000000000000000000061B00057374617274000000000100000001000000000000000000000000080000
.export start // start: jmp start ==> 5236356F02090300622E730209000300000000434F44450301004C05160001000000000200000001000000000000000000000000061B00057374617274000000000100000001000000000000000000000000080000
.import v, u // .word u - v ==> 5236356F02090300622E7301010075010100760209000200000000434F44450514000100000000020000002802000000000201000000080000
.zeropage // p: .res 1 // .code // lda p // lda q // .zeropage // q: .res 1 ==> 5236356F02090300622E73020D0002000000005A45524F504147450209000500000000434F444504040002000000030100A505160000000000000400000001000000000000000000000000030100AD05160001000000000500000001000000000100000000000000080000
bne :+ // .data // : .byte 0 // .code // : rts ==> 5236356F02090300622E730209000300000000434F4445020900010000000044415441030100D00524000400000000010000002801010000000000000000000000010000000002000000000000000301006003010000080000
lda 5,y // stx 5,y // ldx 5,y // lda a:5 // asl // asl a ==> 5236356F020209000C00000000434F4445030C00B905009605B605AD05000A0A080000
.byte 1+2*3, 7 & 3 + 1, !0 = 1 // .dbyt $1234 // .word $1234 // .byte \"AB\",'C' // .asciiz \"A\" ==> 5236356F020209000C00000000434F4445030C00070401123434124142434100080000
.proc p // @l: dex // bne @l // q = 5 // .endproc // lda #p::q ==> 5236356F020209000500000000434F4445030500CAD0FDA905080000
.macro w n // .local l // ldx #n // l: dex // bne l // .endmacro // w 3 // w 4 // .repeat 3,i // .byte i*2 // .endrepeat ==> 5236356F020209000D00000000434F4445030D00A203CAD0FDA204CAD0FD000204080000
.macro m n // .if n > 1 // m n-1 // .endif // .endmacro // m 256 ==> 5236356F02080000
s: nop // nop // nop // .if * - s > 2 // rts // .endif ==> 5236356F020209000400000000434F4445030400EAEAEA60080000
.if 0 // .if 1/0 // .endif // .bogus // .endif // nop ==> 5236356F020209000100000000434F4445030100EA080000
.include \"d/i.inc\" ==> 5236356F020209000100000000434F4445030100EA080000
.import v // .include \"i.inc\" ==> 5236356F02090500692E696E63010100760209000200000000434F4445030100EA050E000000000000020000000200000000080000
.import v // .export e // e = 7 // .include \"i.inc\" ==> 5236356F02090500692E696E63090300622E73010100760209000200000000434F4445030100EA050E00000000000002000000020000000006130001650100000002000000000700000000000000080000
.import v // .code // nop // .data // .byte v // .code // .include \"i.inc\" // .assert v, error, \"x\" ==> 5236356F02090500692E696E63090300622E73010100760209000300000000434F4445020900010000000044415441030200EAEA050E000000000000020000000200000000050E00000100000005000000020000000007100001010000000800000001780200000000080000
.incbin \"b.bin\",1,2 ==> 5236356F020209000200000000434F44450302000203080000
.ifdef n // .byte n // .endif ==> 5236356F020209000100000000434F444503010003080000
.byte 256 ==> b.s:1: out of range
l: .res 127,0 // bne l ==> b.s:2: out of range
bne l // .res 128,0 // l: rts ==> b.s:1: out of range
lda (5) ==> b.s:1: no such addressing form
.byte -1 ==> b.s:1: out of range
v = $10 // .scope s // lda v // v = $1234 // .endscope ==> b.s:3: out of range
.scope s // .import v // .endscope ==> b.s:2: statement not understood
u = v // v = u ==> b.s:1: circular definition
.macro m n // .if n > 1 // m n-1 // .endif // .endmacro // m 257 ==> b.s:6: nested over 256
s: nop // nop // nop // .data // .if * - s > 2 // rts // .endif ==> b.s:5: not constant
.include \"e.inc\" ==> d/e.inc:1: no
.incbin \"b.bin\",1,4 ==> b.s:1: incbin out of range
nop // .incbin \"c.bin\" ==> b.s:2: file not found
n = 1 ==> b.s:1: defined twice: n
";

/// The files beside the source.
const FILES: [(&str, &[u8]); 6] = [
    ("i.inc", b"nop\n.byte v"),
    ("d/i.inc", b".include \"j.inc\""),
    ("d/j.inc", b"nop"),
    ("j.inc", b"clc"),
    ("d/e.inc", b".error \"no\""),
    ("b.bin", b"\x01\x02\x03\x04"),
];

/// A refusal in words.
fn in_words(alloc: Global, refusal: &Diagnostic) -> Result<String, AllocError> {
    let fault = refusal.fault.to_string(alloc)?;
    let fault = fault.as_str();
    if refusal.line == 0 {
        return String::from_str(alloc, fault);
    }
    let file = refusal.file_name();
    let line = refusal.line;
    format!(in alloc; "{file}:{line}: {fault}")
}

/// Bytes in digits.
fn in_digits(alloc: Global, bytes: &[u8]) -> Result<String, AllocError> {
    let mut text = String::new(alloc);
    for byte in bytes {
        write!(text, "{byte:02X}")?;
    }
    Ok(text)
}

/// The source `b.s` alone.
fn alone() -> AsmJob<'static> {
    AsmJob {
        source: "b.s",
        include: &[],
        defines: &[],
    }
}

/// Returns the outcome of a source.
fn answer(alloc: Global, store: &mut MemStore, job: &AsmJob<'_>) -> Result<String, Fail> {
    let assembled = assemble(alloc, store, job).result;
    match assembled {
        Ok(object) => {
            let mut bytes = Vec::new(alloc);
            write_object(alloc, &object, &mut bytes)?;
            Ok(in_digits(alloc, bytes.as_slice())?)
        }
        Err(refusal) => Ok(in_words(alloc, &refusal)?),
    }
}

/// Puts the lines of a row as `b.s` into a store.
fn put_source(alloc: Global, store: &mut MemStore, lines: &str) -> Result<(), AllocError> {
    let mut source = Vec::new(alloc);
    for line in lines.split(" // ") {
        source.extend_from_slice(line.as_bytes())?;
        source.push(b'\n')?;
    }
    store.put("b.s", source.as_slice())
}

/// The constant n of the command line.
fn three() -> Define<'static> {
    Define {
        name: b"n",
        value: 3,
    }
}

#[test]
fn rows(rt: HostRuntime) -> Result<(), Fail> {
    let mut store = MemStore::new(rt.alloc());
    for (name, bytes) in FILES {
        store.put(name, bytes)?;
    }
    let folders = [PathString::copy_of(rt.alloc(), "d")?];
    let job = AsmJob {
        source: "b.s",
        include: &folders,
        defines: &[three()],
    };
    let mut count = 0u32;
    for row in ROWS.lines() {
        let (lines, wanted) = row.split_once(" ==> ").ok_or("no arrow")?;
        put_source(rt.alloc(), &mut store, lines)?;
        let found = answer(rt.alloc(), &mut store, &job)?;
        assert!(rt; found.as_str() == wanted, "{row}");
        count = count.saturating_add(1);
    }
    assert_eq!(rt; count, 36);
    Ok(())
}

/// Returns a name of `len` bytes.
fn long_name(alloc: Global, len: usize) -> Result<String, AllocError> {
    let mut name = String::new(alloc);
    for _ in 0..len {
        name.push('a')?;
    }
    Ok(name)
}

/// Returns the outcome of a source whose name has `len` bytes.
fn answer_named(alloc: Global, len: usize, source: &[u8]) -> Result<String, Fail> {
    let name = long_name(alloc, len)?;
    let mut store = MemStore::new(alloc);
    store.put(name.as_str(), source)?;
    let job = AsmJob {
        source: name.as_str(),
        include: &[],
        defines: &[],
    };
    answer(alloc, &mut store, &job)
}

/// Sources whose name has 4,097 bytes, and the end of their outcome: only located records name the
/// file.
const LONG_NAMED: [(&[u8], &str); 12] = [
    (b".import v\n.byte v", ":2: file name too long"),
    (b".import v\nlda v", ":2: file name too long"),
    (b".export l\nl:", ":1: file name too long"),
    (b".globalzp e\ne = 1", ":1: file name too long"),
    (
        b".import v\n.assert v, warning, \"x\"",
        ":2: file name too long",
    ),
    (b".export l", ":1: export not defined: l"),
    (b".export u\nu = u", ":1: circular definition"),
    (b".import v\nv = 1", ":1: imported and defined: v"),
    (b".byte 256", ":1: out of range"),
    (b".import v\n.forceimport v", "5236356F0201010076080000"),
    (
        b".global g\n.byte 1 + 2",
        "5236356F020209000100000000434F444503010003080000",
    ),
    (
        b".assert 1, error, \"x\"\n.assert 0, warning, \"y\"",
        "5236356F02080000",
    ),
];

#[test]
fn names_that_are_too_long(rt: HostRuntime) -> Result<(), Fail> {
    for (source, wanted) in LONG_NAMED {
        let found = answer_named(rt.alloc(), 4097, source)?;
        assert!(rt; found.as_str().ends_with(wanted), "{wanted}");
    }
    Ok(())
}

/// The longest name that an object holds.
#[test]
fn longest_name(rt: HostRuntime) -> Result<(), Fail> {
    let found = answer_named(rt.alloc(), 4096, b".import v\n.byte v")?;
    let found = found.as_str();
    let rest = "61010100760209000100000000434F4445050E000000000000020000000200000000080000";
    assert_eq!(rt; found.len(), 2 * 4140);
    assert!(rt; found.starts_with("5236356F0209001061616161"));
    assert!(rt; found.ends_with(rest));
    Ok(())
}

/// A name that is exported again in a file whose name no object holds: the second export does nothing.
#[test]
fn exported_again(rt: HostRuntime) -> Result<(), Fail> {
    let folder = long_name(rt.alloc(), 4095)?;
    let mut inner = long_name(rt.alloc(), 4095)?;
    inner.push_str("/x.inc")?;
    let mut store = MemStore::new(rt.alloc());
    store.put("m.s", b".export v\nv = 1\n.include \"x.inc\"")?;
    store.put(inner.as_str(), b".export v")?;
    let folders = [PathString::copy_of(rt.alloc(), folder.as_str())?];
    let job = AsmJob {
        source: "m.s",
        include: &folders,
        defines: &[],
    };
    let found = answer(rt.alloc(), &mut store, &job)?;
    let wanted = "5236356F020903006D2E7306130001760000000001000000000100000000000000080000";
    assert!(rt; found.as_str() == wanted);
    Ok(())
}

/// A constant of the command line that is given twice.
#[test]
fn constants_given_twice(rt: HostRuntime) -> Result<(), Fail> {
    let mut store = MemStore::new(rt.alloc());
    store.put("b.s", b"nop")?;
    let job = AsmJob {
        source: "b.s",
        include: &[],
        defines: &[three(), three()],
    };
    let found = answer(rt.alloc(), &mut store, &job)?;
    assert!(rt; found.as_str() == "defined twice: n");
    Ok(())
}

/// Checks the output of a source on both streams.
#[test]
fn texts(rt: HostRuntime) -> Result<(), Fail> {
    let mut store = MemStore::new(rt.alloc());
    store.put("b.s", b".out \"x\"\n.warning \"w\"\nnop")?;
    let said = assemble(rt.alloc(), &mut store, &alone());
    assert!(rt; said.out.as_slice() == b"x\n".as_slice());
    assert!(rt; said.err.as_slice() == b"b.s:2: Warning: w\n".as_slice());
    Ok(())
}

#[test]
fn words_of_faults(rt: HostRuntime) {
    let fault = AsmFault::Expansion(ExpandFault::Syntax(LexFault::BadNumber));
    assert!(rt; fault.message_text().is_empty() && fault.name() == b"bad number".as_slice());
    assert!(rt; !fault.is_memory());
    assert!(rt; AsmFault::Expansion(ExpandFault::OutOfMemory).is_memory());
}
