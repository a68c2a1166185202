//! Sources and the statements that they expand to. Limits, and what else a program shows, are cases for the real program.

mod files;
mod peeking;
mod values;

use base65::{ListVec, MemStore, PathString, Store};
use expand65::{ExpandFault, Expander, Options, Statement};
use peeking::spell_peeked;
use std::alloc::{AllocError, Global};
use std::test::Fail;
use values::Constants;

/// A source whose names aren't defined, with ` // ` between its lines, an arrow, and its
/// statements: a blank follows each token, a label ends in `|`, another statement in `;`. If there
/// is an error, its location and message are at the end.
const ROWS: &str = "\
.if 0 // .if 1/0 // .endif // .bogus // .endif // nop ==> nop ;
.if 0 // .ifconst 5 // .endif // nop ==> nop ;
.if 0 // ~? // .endif ==> b.s:2: bad character
.if 0 // l: .local x // .endif ==> b.s:2: directive not understood
.if 0 // l: .if 1 // .endif // .endif // nop ==> nop ;
.if 2 // nop // .elseif 1 // clc // .else // sec // .endif ==> nop ;
.if 0 // nop // .elseif 1 // clc // .else // sec // .endif ==> clc ;
.if 0 // nop // .elseif 0 // clc // .else // sec // .endif ==> sec ;
.if 1 // .elseif ( // .endif // nop ==> nop ;
.if 1 // .else // .endif x // nop ==> nop ;
.if 1 // .else // .else // .endif // nop ==> nop ;
.if 0 // .else // .else // .endif ==> b.s:3: block end without begin
.if 1 // .endif x ==> b.s:2: directive not understood
.endif x ==> b.s:1: directive not understood
.elseif ( ==> b.s:1: block end without begin
.endif ==> b.s:1: block end without begin
.if 1 // nop ==> nop ;b.s:2: block not closed
.if nope // .endif ==> b.s:1: not constant
.if 1/0 // .endif ==> b.s:1: not constant
.if 1 2 // .endif ==> b.s:1: directive not understood
.ifdef @c // .endif ==> b.s:1: directive not understood
.ifdef (v) // .endif ==> b.s:1: directive not understood
l: .ifdef v // nop // .endif // .ifndef ::v // clc // .endif ==> l : |clc ;
.ifblank {} // nop // .endif // clc ==> clc ;
.ifblank ; x // nop // .endif ==> nop ;
nop // .error \"no\" ==> nop ;b.s:2: no
.error no ==> b.s:1: directive not understood
.if 1 // nop // .end // .bogus ==> nop ;
.end 1 ==> b.s:1: directive not understood
.macro w n // .local l // ldx #n // l: dex // bne l // .endmacro // w 3 // w 4 // .repeat 3,i // .byte i*2 // .endrepeat ==> ldx # 3 ;l?1 : |dex ;bne l?1 ;ldx # 4 ;l?2 : |dex ;bne l?2 ;.byte 0 * 2 ;.byte 1 * 2 ;.byte 2 * 2 ;
.macro m p,q0 // .byte p, .paramcount // .ifblank q0 // nop // .endif // .endmacro // m // m {1,2} // m {{1,2}} // m {1,2}+3,{4} ==> .byte , 0 ;nop ;.byte 1 , 2 , 1 ;nop ;.byte { 1 , 2 } , 1 ;nop ;.byte { 1 , 2 } + 3 , 2 ;
.macro m p,q0 // .ifnblank q0 // nop // .endif // .endmacro // m {1,2 // clc ==> clc ;
.macro m p,q0 // .ifnblank q0 // nop // .endif // .endmacro // m },1 ==> nop ;
.macro m p // nop // .endmacro // m 1,2 ==> b.s:4: too many arguments
.macro m p,q0 // .out \"p\" // .byte p, s::q0 // .endmacro // m q0,p ==> .out \"p\" ;.byte q0 , s :: p ;
.macro m p // .repeat 2,i // .byte p // .endrepeat // .endmacro // m i ==> .byte 0 ;.byte 1 ;
.repeat 2,i // .repeat 2,i // .byte i // .endrepeat // .endrepeat ==> b.s:5: directive not understood
.macro e0 // .endmacro // .macro m // .local l // .byte l // .endmacro // e0 // m // m ==> .byte l?2 ;.byte l?3 ;
.macro m // .local l,l // l: jmp l // .endmacro // m ==> l?1 : |jmp l?1 ;
.macro m // .local l // .local l // .endmacro // m ==> b.s:5: directive not understood
.local l ==> b.s:1: directive not understood
.macro m // .repeat 1 // .local l // .endrepeat // .endmacro // m ==> b.s:6: directive not understood
.macro m // .if 1 // .repeat 2 // .if 1 // nop // .exitmacro // .endif // .endrepeat // .endif // clc // .endmacro // m // sec ==> nop ;sec ;
.macro m // .exitmacro // .endmacro // .if 1 // m // .else // clc // .endif // sec ==> sec ;
nop // .exitmacro ==> nop ;b.s:2: block end without begin
.exitmacro x ==> b.s:1: directive not understood
.macro m // .endmacro // .macro m // nop ==> b.s:3: macro defined twice
.macro m // .macro n0 // .endmacro // .endmacro ==> b.s:2: macro inside macro
.macro m // l: .macro q0 // .endmacro // .endmacro ==> b.s:2: directive not understood
.macro m p,q0,p // .endmacro ==> b.s:1: directive not understood
.macro a // .endmacro ==> b.s:1: directive not understood
.macro m // nop ==> b.s:2: block not closed
nop // .endmacro ==> nop ;b.s:2: block end without begin
.macro m // nop // .endmacro // m: clc ==> m : |clc ;
.macro m p // nop // .endmacro // m = 5 ==> nop ;
.repeat 0 // nop // .endrepeat // clc ==> clc ;
.repeat 2 // .endrepeat // clc ==> clc ;
.repeat 2,i // .repeat 2,j // .byte i,j // .endrep // .endrep ==> .byte 0 , 0 ;.byte 0 , 1 ;.byte 1 , 0 ;.byte 1 , 1 ;
.repeat 2 // .if 1 // nop // .endrepeat ==> nop ;nop ;b.s:4: block not closed
.repeat 2 // l: .endrepeat ==> b.s:2: directive not understood
.repeat nope // nop ==> b.s:1: not constant
.repeat -1 // .endrepeat ==> b.s:1: repeat count out of range
.repeat 65537 // .endrepeat ==> b.s:1: repeat count out of range
.repeat 65536 // .endrepeat // nop ==> nop ;
.repeat 2, // .endrepeat ==> b.s:1: directive not understood
.repeat 2 i // .endrepeat ==> b.s:1: directive not understood
.repeat 2,i,j // .endrepeat ==> b.s:1: directive not understood
.repeat 2,a // .endrepeat ==> b.s:1: directive not understood
.repeat 2 // nop ==> b.s:2: block not closed
.endrepeat ==> b.s:1: block end without begin
.repeat 65536 // .repeat 65536 //  // .endrepeat // .endrepeat ==> b.s:5: too many lines
.include \"b.s\" ==> b.s:1: nested over 256
.include \"none\" ==> b.s:1: file not found
nop //  // ; no // \tclc\r // \r ==> nop ;clc ;
lda #1 // .byte 1,2,3,4,5,6,7,8,9 // rts // l: inx ==> lda # 1 ;.byte 1 , 2 , 3 , 4 , 5 , 6 , 7 , 8 , 9 ;rts ;l : |inx ;
nop // ~? // nop ==> nop ;b.s:2: bad character
";

/// How statements are read.
#[derive(Clone, Copy)]
struct Reading {
    /// Whether all names are defined, or none.
    all: bool,
    /// Whether buffered lines that need no expansion are read without copying.
    peeks: bool,
    /// The largest number of statements.
    most: usize,
}

/// Appends the tokens of a statement.
fn spell(alloc: Global, statement: &Statement, out: &mut Vec<u8>) -> Result<(), AllocError> {
    let (line, end) = match statement {
        Statement::Label(line) => (line, b'|'),
        Statement::Plain(line) => (line, b';'),
    };
    let tokens = line.tokens(alloc)?;
    for token in tokens.as_slice() {
        out.extend_from_slice(token.text)?;
        out.push(b' ')?;
    }
    Ok(out.push(end)?)
}

/// Appends an error with its location.
fn spell_fault(
    alloc: Global,
    expander: &Expander,
    fault: &ExpandFault,
    out: &mut Vec<u8>,
) -> Result<(), AllocError> {
    let (file, line) = expander.place();
    let place = format!(in alloc; "{file}:{line}: ")?;
    out.extend_from_slice(place.as_str().as_bytes())?;
    out.extend_from_slice(fault.message_text())
}

/// Appends the statements of an expander, and then its error, if any.
fn spell_all<S: Store>(
    alloc: Global,
    store: &mut S,
    expander: &mut Expander,
    reading: Reading,
) -> Result<Vec<u8>, AllocError> {
    let mut out = Vec::new(alloc);
    for _ in 0..reading.most {
        if reading.peeks && spell_peeked(alloc, expander, &mut out)? {
            continue;
        }
        match expander.next(store, &Constants { all: reading.all }) {
            Ok(Some(statement)) => spell(alloc, &statement, &mut out)?,
            Ok(None) => break,
            Err(fault) => {
                spell_fault(alloc, expander, &fault, &mut out)?;
                break;
            }
        }
    }
    Ok(out)
}

/// Returns options with one folder for included files.
fn in_folder(alloc: Global, folder: &str) -> Result<Options, AllocError> {
    let mut include = ListVec::new(alloc);
    include.push(PathString::copy_of(alloc, folder)?)?;
    Ok(Options { include })
}

/// Returns the statements of `b.s` in a store. (An expander owns much that is dropped on each way
/// out of a function, which is expensive to prove.)
fn expanded<S: Store>(
    alloc: Global,
    store: &mut S,
    options: &Options,
    reading: Reading,
) -> Result<Vec<u8>, AllocError> {
    match Expander::open(alloc, store, "b.s", options) {
        Ok(mut expander) => spell_all(alloc, store, &mut expander, reading),
        Err(fault) => Vec::from_slice(alloc, fault.message_text()),
    }
}

/// Adds a file of these lines to a store.
fn put_lines(
    alloc: Global,
    store: &mut MemStore,
    name: &str,
    lines: &str,
) -> Result<(), AllocError> {
    let mut text = Vec::new(alloc);
    for line in lines.split(" // ") {
        text.extend_from_slice(line.as_bytes())?;
        text.push(b'\n')?;
    }
    store.put(name, text.as_slice())
}

/// Returns for how many rows the statements are those after the arrow.
fn count_right(alloc: Global, peeks: bool) -> Result<u32, Fail> {
    let mut store = MemStore::new(alloc);
    let options = in_folder(alloc, "d")?;
    let reading = Reading {
        all: false,
        peeks,
        most: 70_000,
    };
    let mut count = 0u32;
    for row in ROWS.lines() {
        let (lines, wanted) = row.split_once(" ==> ").ok_or("no arrow")?;
        put_lines(alloc, &mut store, "b.s", lines)?;
        let found = expanded(alloc, &mut store, &options, reading)?;
        if found.as_slice() == wanted.as_bytes() {
            count = count.saturating_add(1);
        }
    }
    Ok(count)
}

#[test]
fn rows(rt: HostRuntime) -> Result<(), Fail> {
    let count = count_right(rt.alloc(), false)?;
    assert_eq!(rt; count, 76);
    Ok(())
}

#[test]
fn rows_by_peeking(rt: HostRuntime) -> Result<(), Fail> {
    let count = count_right(rt.alloc(), true)?;
    assert_eq!(rt; count, 76);
    Ok(())
}

/// Returns whether an expander fails a call, and then the next one.
fn fails_twice(store: &mut MemStore, expander: &mut Expander) -> bool {
    let knows = Constants { all: false };
    let first = expander.next(store, &knows);
    let second = expander.next(store, &knows);
    matches!(first, Err(ExpandFault::NotOpened)) && matches!(second, Err(ExpandFault::FailedBefore))
}

#[test]
fn fails_after_an_error(rt: HostRuntime) -> Result<(), Fail> {
    let mut store = MemStore::new(rt.alloc());
    put_lines(rt.alloc(), &mut store, "b.s", ".endif // nop")?;
    let options = in_folder(rt.alloc(), "d")?;
    let fails = match Expander::open(rt.alloc(), &mut store, "b.s", &options) {
        Ok(mut expander) => fails_twice(&mut store, &mut expander),
        Err(_) => false,
    };
    assert!(rt; fails);
    Ok(())
}
