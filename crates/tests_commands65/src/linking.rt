//! Whole links.

use crate::scenes::first_wrong;
use std::test::Fail;

/// Objects and scripts, their images and maps, and why they are refused.
const SCENES: &str = "\
text s.cfg MEMORY { ROM: start = $8000, size = $10; } SEGMENTS { CODE: load = ROM, type = ro; DATA: load = ROM, type = ro, optional = yes; }
bytes a.o 5236356F010209000300000000434F4445030300A90060080000
$ ld65 -C s.cfg -m a.map a.o
is a.out A90060
says a.map MODULES // a.o //   CODE 00000000 00000003 // SEGMENTS // CODE 00008000 00008000 00000003 // DATA 00008003 00008003 00000000 // SYMBOLS
$ ld65 -C s.cfg -m  a.o a.o
is a.out A90060A90060
says  MODULES // a.o //   CODE 00000000 00000003 // a.o //   CODE 00000003 00000003 // SEGMENTS // CODE 00008000 00008000 00000006 // DATA 00008006 00008006 00000000 // SYMBOLS
$ ld65 a.o ==> bin65: Error: bad arguments

text s.cfg MEMORY { ROM: start = $8000, size = $10; } SEGMENTS { CODE: load = ROM, type = ro; DATA: load = ROM, type = ro, optional = yes; }
bytes a.o 5236356F010209000300000000434F4445030300A90060080000
$ ld65 -C s.cfg -o  a.o
absent
absent a.out
bytes b.o 5236356F010209000300000000434F4445030300A900600800
$ ld65 -C s.cfg b.o ==> b.o: Error: object cut short
bytes b.o 5236356F010209000300000000434F4445030300A9006008000000
$ ld65 -C s.cfg b.o ==> b.o: Error: bytes after the end
bytes b.o 5236356F010209000300000000434F4445030200A90003010060080000
$ ld65 -C s.cfg b.o ==> b.o: Error: not canonical
text t.cfg MEMORY { // # nothing
$ ld65 -C t.cfg a.o ==> t.cfg:3: Error: syntax error
text t.cfg MEMORY { ROM: start = 0, size = 9, type = ro; } SEGMENTS { CODE: load = ROM; }
$ ld65 -C t.cfg a.o ==> ld65: Error: read-only area: CODE
bytes b.o 5236356F010206000100000000500206000100000000510301001103010022080000
text t.cfg MEMORY { ROM: start = $8000, size = $10; } SEGMENTS { P: load = ROM, start = $8000; Q: load = ROM, start = $8000; }
$ ld65 -C t.cfg b.o ==> ld65: Error: start below what is placed: Q
absent a.out
text t.cfg MEMORY { ROM: start = $8000, size = 8, fill = yes, fillval = $FF; } SEGMENTS { CODE: load = ROM, type = ro; }
$ ld65 -C t.cfg a.o
is a.out A90060FFFFFFFFFF
text t.cfg MEMORY { ROM: start = $8000, size = $10; } SEGMENTS { CODE: load = ROM; X: load = ROM; }
$ ld65 -C t.cfg a.o ==> ld65: Warning: segment X does not exist
is a.out A90060
bytes b.o 5236356F010209000100000000434F44450208000200000000425353020900010000000044415441030100EA0404000200000003010001080000
text t.cfg MEMORY { ROM: start = $8000, size = $10, fillval = $FF; } SEGMENTS { CODE: load = ROM; BSS: load = ROM, type = bss; DATA: load = ROM; }
$ ld65 -C t.cfg b.o
is a.out EAFFFF01
bytes b.o 5236356F010209000500000002434F4445030100EA0404000300000003010005080000
$ ld65 -C s.cfg b.o ==> ld65: Warning: segment CODE needs alignment 4
is a.out EA00000005

text s.cfg MEMORY { ZP: start = $10, size = $20, file = \"\"; RAM: start = __ZP_LAST__, size = TOP - __ZP_LAST__, file = \"\"; ROM: start = $8000, size = $10; } SEGMENTS { ZEROPAGE: load = ZP, type = zp; BSS: load = RAM, type = bss; CODE: load = ROM, type = ro; } SYMBOLS { TOP: type = export, value = $40; }
text a.s .zeropage // .res 3 // .bss // b: .res 1 // .code // lda b
$ ca65 a.s
$ ld65 -C s.cfg a.o
is a.out AD1300
text s.cfg MEMORY { RAM: start = __ZP_LAST__, size = TOP - __ZP_LAST__, file = \"\"; ZP: start = $10, size = $20, file = \"\"; ROM: start = $8000, size = $10; } SEGMENTS { ZEROPAGE: load = ZP, type = zp; BSS: load = RAM, type = bss; CODE: load = ROM, type = ro; } SYMBOLS { TOP: type = export, value = $40; }
$ ld65 -C s.cfg a.o ==> ld65: Error: name not yet placed: __ZP_LAST__
text s.cfg MEMORY { ZP: start = $10, size = $20, file = \"\"; RAM: start = __ZP_LAST__, size = TOP - __ZP_LAST__, file = \"\"; ROM: start = $8000, size = $10; } SEGMENTS { ZEROPAGE: load = ZP, type = zp; BSS: load = RAM, type = bss; CODE: load = ROM, type = ro; } SYMBOLS { TOP: type = export, value = $12; }
$ ld65 -C s.cfg a.o ==> ld65: Error: area value out of range: RAM
text s.cfg MEMORY { ZP: start = $10, size = $20, file = \"\"; RAM: start = __ZP_LAST__, size = TOP - __ZP_LAST__, file = \"\"; ROM: start = $8000, size = $10; } SEGMENTS { ZEROPAGE: load = ZP, type = zp; BSS: load = RAM, type = bss; CODE: load = ROM, type = ro; } SYMBOLS { TOP: type = export, value = $13; }
$ ld65 -C s.cfg a.o ==> ld65: Error: overflow of RAM by 1 bytes
text s.cfg MEMORY { ZP: start = $10, size = $20, file = \"\"; RAM: start = __ZP_LAST__, size = FOO - __ZP_LAST__, file = \"\"; ROM: start = $8000, size = $10; } SEGMENTS { ZEROPAGE: load = ZP, type = zp; BSS: load = RAM, type = bss; CODE: load = ROM, type = ro; } SYMBOLS { TOP: type = export, value = $40; }
$ ld65 -C s.cfg a.o ==> s.cfg:1: Error: no such name: FOO
text s.cfg MEMORY { ZP: start = $10, size = $20, file = \"\"; RAM: start = __ZP_LAST__, size = __ZP_SIZE__, file = \"\"; ROM: start = $8000, size = $10; } SEGMENTS { ZEROPAGE: load = ZP, type = zp; BSS: load = RAM, type = bss; CODE: load = ROM, type = ro; ZP: load = ROM, optional = yes; } SYMBOLS { TOP: type = export, value = $40; }
$ ld65 -C s.cfg a.o ==> s.cfg:1: Error: ambiguous name: __ZP_SIZE__

text s.cfg MEMORY { ZP: start = 0, size = $100, file = \"\"; ROM: start = $8000, size = $10; } SEGMENTS { ZEROPAGE: load = ZP, type = zp; CODE: load = ROM, type = ro; }
text a.s .zeropage // p: .res 1 // .code // lda p // lda q // .zeropage // q: .res 1
$ ca65 a.s
$ ld65 -C s.cfg a.o
is a.out A500AD0100
text s.cfg MEMORY { ROM: start = $12FF, size = $10; } SEGMENTS { CODE: load = ROM, type = ro; }
text a.s lab: .byte <lab+1
$ ca65 a.s
$ ld65 -C s.cfg a.o ==> a.o:a.s:1: Error: out of range
text a.s lab: .byte <(lab+1)
$ ca65 a.s
$ ld65 -C s.cfg a.o
is a.out 00
text s.cfg MEMORY { RAM: start = $0200, size = $100, file = \"\"; ROM: start = $8000, size = $10; } SEGMENTS { CODE: load = ROM, type = ro; DATA: load = ROM, run = RAM, define = yes; }
text a.s .import __DATA_LOAD__ // lda #<__DATA_LOAD__ // .data // d: .word d
$ ca65 a.s
$ ld65 -C s.cfg a.o
is a.out A9020002

text s.cfg MEMORY { ROM: start = $8000, size = $10; } SEGMENTS { CODE: load = ROM, type = ro, align = 4; }
text t.cfg MEMORY { ROM: start = $8000, size = $10; } SEGMENTS { CODE: load = ROM, type = ro; DATA: load = ROM, type = ro, optional = yes; }
text m1.s .byte 1,2,3
text m2.s .byte 4 // .align 4 // .byte 5
$ ca65 m1.s
$ ca65 m2.s
$ ld65 -C s.cfg m1.o m2.o
is a.out 010203000400000005
$ ld65 -C t.cfg -o b.out m1.o m2.o ==> ld65: Warning: segment CODE needs alignment 4
is b.out 010203000400000005
text m1.s .export f // .import g // f = g
text m2.s .export g // .import f // g = f
$ ca65 m1.s
$ ca65 m2.s
$ ld65 -C t.cfg m1.o m2.o ==> m1.o:m1.s:1: Error: circular definition
text m1.s .export v // v = 1
$ ca65 m1.s
$ ld65 -C t.cfg m1.o m1.o ==> ld65: Error: duplicate export: v
$ ld65 -C t.cfg -m a.map m1.o ==> ld65: Warning: segment CODE does not exist
says a.map MODULES // m1.o // SEGMENTS // CODE 00008000 00008000 00000000 // DATA 00008000 00008000 00000000 // SYMBOLS // v 0000000000000001
text m1.s .import v, u // .byte u, v
$ ca65 m1.s
$ ld65 -C t.cfg m1.o ==> ld65: Error: unresolved: u, v
text t.cfg MEMORY { ROM: start = $8001, size = $10; } SEGMENTS { CODE: load = ROM, type = ro; }
text m1.s .byte 1 // .align 4 // .byte 5
$ ca65 m1.s
$ ld65 -C t.cfg -o c.out m1.o ==> ld65: Warning: segment CODE needs alignment 4
is c.out 0100000005

text s.cfg MEMORY { ROM: start = $8000, size = $10; } SEGMENTS { CODE: load = ROM, type = ro; DATA: load = ROM, type = ro, optional = yes; } SYMBOLS { f: type = export, value = 1; }
text b.s .import f // x1 = f+f // x2 = x1+x1 // x3 = x2+x2 // x4 = x3+x3 // x5 = x4+x4 // x6 = x5+x5 // x7 = x6+x6 // .word x7
$ ca65 b.s
$ ld65 -C s.cfg b.o
is a.out 8000
text b.s .import f // x1 = f+f // x2 = x1+x1 // x3 = x2+x2 // x4 = x3+x3 // x5 = x4+x4 // x6 = x5+x5 // x7 = x6+x6 // x8 = x7+x7 // .word x7
$ ca65 -o c.o b.s ==> b.s:9: Error: expression too large
absent c.o

text s.cfg MEMORY { ROM: start = $8000, size = $10; } SEGMENTS { CODE: load = ROM, type = ro; DATA: load = ROM, type = ro, optional = yes; } SYMBOLS { v: type = export, value = 256; }
text t.cfg MEMORY { ROM: start = $8000, size = $10; } SEGMENTS { CODE: load = ROM, type = ro; DATA: load = ROM, type = ro, optional = yes; } SYMBOLS { v: type = export, value = 255; }
text m.s .import v // .include \"i.inc\"
text i.inc nop // .byte v
$ ca65 m.s
is m.o 5236356F02090500692E696E63010100760209000200000000434F4445030100EA050E000000000000020000000200000000080000
$ ld65 -C s.cfg m.o ==> m.o:i.inc:2: Error: out of range
absent a.out
$ ld65 -C t.cfg m.o
is a.out EAFF
bytes n.o 5236356F01010100760209000200000000434F4445030100EA050A0000020000000200000000080000
$ ld65 -C s.cfg -o b.out n.o ==> n.o:2: Error: out of range
absent b.out
$ ld65 -C t.cfg -o b.out n.o
is b.out EAFF
$ ld65 -C t.cfg -o c.out n.o m.o n.o
is c.out EAFFEAFFEAFF
bytes o.o 5236356F01090100610209000300000000434F4445030300A90060080000
$ ld65 -C t.cfg -o d.out o.o ==> o.o: Error: unknown record

text s.cfg MEMORY { ROM: start = $8000, size = $10; } SEGMENTS { CODE: load = ROM, type = ro; DATA: load = ROM, type = ro, optional = yes; }
bytes a.o 5236356F01010100670209000100000000434F4445050A0000010000000200000000060F00016601000000000700000000000000080000
bytes b.o 5236356F020905006D2E696E63010100660209000100000000434F4445050E00000000000002000000020000000006130001670000000001000000000900000000000000080000
text main.s .import f // .byte f
$ ca65 main.s
$ ar65 r l.lib a.o b.o
$ ar65 t l.lib ==> a.o // b.o
$ ld65 -C s.cfg main.o l.lib
is a.out 070907
";

#[test]
fn scenes(rt: HostRuntime) -> Result<(), Fail> {
    let wrong = first_wrong(rt.alloc(), SCENES)?;
    assert!(rt; wrong.is_none(), "{wrong:?}");
    Ok(())
}
