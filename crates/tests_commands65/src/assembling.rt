//! Whole runs of ca65, and links of what they give.

use crate::scenes::first_wrong;
use std::test::Fail;

/// Sources, and what becomes of them.
const SCENES: &str = "\
text b.s \tNop ; nothing
$ ca65 b.s
is b.o 5236356F020209000100000000434F4445030100EA080000
text b.s .byte 256
$ ca65 -o c.o b.s ==> b.s:1: Error: out of range
absent c.o
text b.s v = $10 // .scope s // lda v // v = $1234 // .endscope
$ ca65 -o c.o b.s ==> b.s:3: Error: out of range
text b.s u = v // v = u
$ ca65 -o c.o b.s ==> b.s:1: Error: circular definition
text b.s .scope s // .import v // .endscope
$ ca65 -o c.o b.s ==> b.s:2: Error: statement not understood
text b.s lda (5)
$ ca65 -o c.o b.s ==> b.s:1: Error: no such addressing form
text b.s .byte -1
$ ca65 -o c.o b.s ==> b.s:1: Error: out of range
text b.s .macro m n // .if n > 1 // m n-1 // .endif // .endmacro // m 257
$ ca65 -o c.o b.s ==> b.s:6: Error: nested over 256
text b.s s: nop // nop // nop // .data // .if * - s > 2 // rts // .endif
$ ca65 -o c.o b.s ==> b.s:5: Error: not constant
text b.s .macro m n // .if n > 1 // m n-1 // .endif // .endmacro // m 256
$ ca65 -o c.o b.s
is c.o 5236356F02080000

text s.cfg MEMORY { ROM: start = $8000, size = $100; } SEGMENTS { CODE: load = ROM, type = ro, optional = yes; }
text a.s ; nothing
$ ca65 a.s
is a.o 5236356F02080000
$ ld65 -C s.cfg a.o
is a.out
text a.s l: .res 126,0 // bne l
$ ca65 a.s
$ ld65 -C s.cfg a.o
ends a.out D080
text a.s l: .res 127,0 // bne l
$ ca65 a.s ==> a.s:2: Error: out of range
text a.s bne l // .res 127,0 // l: rts
$ ca65 a.s
$ ld65 -C s.cfg a.o
begins a.out D07F
text a.s bne l // .res 128,0 // l: rts
$ ca65 a.s ==> a.s:1: Error: out of range

text s.cfg MEMORY { ROM: start = $8000, size = $10; } SEGMENTS { CODE: load = ROM, type = ro; DATA: load = ROM, type = ro, optional = yes; }
text a.s .byte 1,$FF // .word $1234, 0FFh, %101
$ ca65 a.s
$ ld65 -C s.cfg a.o
is a.out 01FF3412FF000500
text a.s .res 16,1
$ ca65 a.s
$ ld65 -C s.cfg a.o
is a.out 01010101010101010101010101010101
text a.s .res 17,1
$ ca65 a.s
$ ld65 -C s.cfg a.o ==> ld65: Error: overflow of ROM by 1 bytes
text a.s .byte ($FFFFFFFF + 1) >> 32
$ ca65 a.s
$ ld65 -C s.cfg a.o
is a.out 01
text a.s lda 5,y // stx 5,y // ldx 5,y // lda a:5 // asl // asl a
$ ca65 a.s
$ ld65 -C s.cfg a.o
is a.out B905009605B605AD05000A0A
text a.s .byte 1+2*3, 7 & 3 + 1, !0 = 1 // .dbyt $1234 // .word $1234 // .byte \"AB\",'C' // .asciiz \"A\"
$ ca65 a.s
$ ld65 -C s.cfg a.o
is a.out 070401123434124142434100
text a.s bne :+ // .data // : .byte 0 // .code // : rts
$ ca65 a.s
$ ld65 -C s.cfg a.o
is a.out D0016000
text a.s .proc p // @l: dex // bne @l // q = 5 // .endproc // lda #p::q
$ ca65 a.s
$ ld65 -C s.cfg a.o
is a.out CAD0FDA905
text a.s .macro w n // .local l // ldx #n // l: dex // bne l // .endmacro // w 3 // w 4 // .repeat 3,i // .byte i*2 // .endrepeat
$ ca65 a.s
$ ld65 -C s.cfg a.o
is a.out A203CAD0FDA204CAD0FD000204
text a.s s: nop // nop // nop // .if * - s > 2 // rts // .endif
$ ca65 a.s
$ ld65 -C s.cfg a.o
is a.out EAEAEA60
text a.s .if 0 // .if 1/0 // .endif // .bogus // .endif // nop
$ ca65 a.s
$ ld65 -C s.cfg a.o
is a.out EA
text a.s .ifdef n // .byte n // .endif
$ ca65 -D n=3 a.s
$ ld65 -C s.cfg a.o
is a.out 03
$ ca65 -D n -D n a.s ==> a.s: Error: defined twice: n
bytes b.bin 01020304
text a.s .incbin \"b.bin\",1,2
$ ca65 a.s
$ ld65 -C s.cfg a.o
is a.out 0203
text a.s .incbin \"b.bin\",1,4
$ ca65 a.s ==> a.s:1: Error: incbin out of range
text a.s .include \"i.inc\"
text d/i.inc .error \"no\"
$ ca65 -I d a.s ==> d/i.inc:1: Error: no
text a.s .include \"d/i.inc\"
text d/i.inc .include \"j.inc\"
text d/j.inc nop
text j.inc clc
$ ca65 a.s
$ ld65 -C s.cfg a.o
is a.out EA
text a.s nop // .align 4 // .byte 5
$ ca65 a.s
$ ld65 -C s.cfg a.o ==> ld65: Warning: segment CODE needs alignment 4
is a.out EA00000005
";

#[test]
fn scenes(rt: HostRuntime) -> Result<(), Fail> {
    let wrong = first_wrong(rt.alloc(), SCENES)?;
    assert!(rt; wrong.is_none(), "{wrong:?}");
    Ok(())
}
