//! The opcodes.

ghost use Rattle.std.specs.Prelude.{◌≡◌};
ghost use Rattle.syntax65.specs.Opcodes.{count, shift, store, arithmetic, implied, branch, opcode_of, other_opcode};

use super::names::Mnemonic;

/// A form of operand.
#[derive(Clone, Copy)]
pub enum Mode {
    /// No operand.
    Implied,
    /// `a`, or no operand, for an instruction that also accepts memory.
    Accumulator,
    /// `#e`: a byte.
    Immediate,
    /// `e` in the zero page.
    ZeroPage,
    /// `e,x` in the zero page.
    ZeroPageX,
    /// `e,y` in the zero page.
    ZeroPageY,
    /// `e`: a word.
    Absolute,
    /// `e,x`: a word.
    AbsoluteX,
    /// `e,y`: a word.
    AbsoluteY,
    /// `(e)`: a word.
    Indirect,
    /// `(e,x)` in the zero page.
    IndirectX,
    /// `(e),y` in the zero page.
    IndirectY,
    /// The target of a branch: a byte.
    Relative,
}

/// Returns the opcode of a mnemonic with a form of operand, if the instruction has
/// it.
pub fn opcode(mnemonic: Mnemonic, mode: Mode) -> Option<u8>
    ensures { result ≡ opcode_of mnemonic mode }
{
    match mnemonic {
        Mnemonic::Adc => arithmetic(mode, 0x69, [0x65, 0x75, 0x6D, 0x7D, 0x79, 0x61, 0x71]),
        Mnemonic::And => arithmetic(mode, 0x29, [0x25, 0x35, 0x2D, 0x3D, 0x39, 0x21, 0x31]),
        Mnemonic::Asl => shift(mode, 0x0A, [0x06, 0x16, 0x0E, 0x1E]),
        Mnemonic::Bcc => branch(mode, 0x90),
        Mnemonic::Bcs => branch(mode, 0xB0),
        Mnemonic::Beq => branch(mode, 0xF0),
        Mnemonic::Bmi => branch(mode, 0x30),
        Mnemonic::Bne => branch(mode, 0xD0),
        Mnemonic::Bpl => branch(mode, 0x10),
        Mnemonic::Brk => implied(mode, 0x00),
        Mnemonic::Bvc => branch(mode, 0x50),
        Mnemonic::Bvs => branch(mode, 0x70),
        Mnemonic::Clc => implied(mode, 0x18),
        Mnemonic::Cld => implied(mode, 0xD8),
        Mnemonic::Cli => implied(mode, 0x58),
        Mnemonic::Clv => implied(mode, 0xB8),
        Mnemonic::Cmp => arithmetic(mode, 0xC9, [0xC5, 0xD5, 0xCD, 0xDD, 0xD9, 0xC1, 0xD1]),
        Mnemonic::Dec => count(mode, [0xC6, 0xD6, 0xCE, 0xDE]),
        Mnemonic::Dex => implied(mode, 0xCA),
        Mnemonic::Dey => implied(mode, 0x88),
        Mnemonic::Eor => arithmetic(mode, 0x49, [0x45, 0x55, 0x4D, 0x5D, 0x59, 0x41, 0x51]),
        Mnemonic::Inc => count(mode, [0xE6, 0xF6, 0xEE, 0xFE]),
        Mnemonic::Inx => implied(mode, 0xE8),
        Mnemonic::Iny => implied(mode, 0xC8),
        Mnemonic::Lda => arithmetic(mode, 0xA9, [0xA5, 0xB5, 0xAD, 0xBD, 0xB9, 0xA1, 0xB1]),
        Mnemonic::Lsr => shift(mode, 0x4A, [0x46, 0x56, 0x4E, 0x5E]),
        Mnemonic::Nop => implied(mode, 0xEA),
        Mnemonic::Ora => arithmetic(mode, 0x09, [0x05, 0x15, 0x0D, 0x1D, 0x19, 0x01, 0x11]),
        Mnemonic::Pha => implied(mode, 0x48),
        Mnemonic::Php => implied(mode, 0x08),
        Mnemonic::Pla => implied(mode, 0x68),
        Mnemonic::Plp => implied(mode, 0x28),
        Mnemonic::Rol => shift(mode, 0x2A, [0x26, 0x36, 0x2E, 0x3E]),
        Mnemonic::Ror => shift(mode, 0x6A, [0x66, 0x76, 0x6E, 0x7E]),
        Mnemonic::Rti => implied(mode, 0x40),
        Mnemonic::Rts => implied(mode, 0x60),
        Mnemonic::Sbc => arithmetic(mode, 0xE9, [0xE5, 0xF5, 0xED, 0xFD, 0xF9, 0xE1, 0xF1]),
        Mnemonic::Sec => implied(mode, 0x38),
        Mnemonic::Sed => implied(mode, 0xF8),
        Mnemonic::Sei => implied(mode, 0x78),
        Mnemonic::Sta => store(mode, [0x85, 0x95, 0x8D, 0x9D, 0x99, 0x81, 0x91]),
        Mnemonic::Tax => implied(mode, 0xAA),
        Mnemonic::Tay => implied(mode, 0xA8),
        Mnemonic::Tsx => implied(mode, 0xBA),
        Mnemonic::Txa => implied(mode, 0x8A),
        Mnemonic::Txs => implied(mode, 0x9A),
        Mnemonic::Tya => implied(mode, 0x98),
        _ => other_opcode(mnemonic, mode),
    }
}

/// Returns the opcode for counting: `e` and `e,x`, in the zero page and as words.
fn count(mode: Mode, codes: [u8; 4]) -> Option<u8>
    ensures { result ≡ count codes mode }
{
    match mode {
        Mode::ZeroPage => Some(codes[0]),
        Mode::ZeroPageX => Some(codes[1]),
        Mode::Absolute => Some(codes[2]),
        Mode::AbsoluteX => Some(codes[3]),
        _ => None,
    }
}

/// Returns the opcode of a shift: `a`, and the forms of counting.
fn shift(mode: Mode, code: u8, codes: [u8; 4]) -> Option<u8>
    ensures { result ≡ shift code codes mode }
{
    match mode {
        Mode::Accumulator => Some(code),
        _ => count(mode, codes),
    }
}

/// Returns the opcode of a store of `a`: counting, then `e,y`, `(e,x)`, `(e),y`.
fn store(mode: Mode, codes: [u8; 7]) -> Option<u8>
    ensures { result ≡ store codes mode }
{
    match mode {
        Mode::ZeroPage => Some(codes[0]),
        Mode::ZeroPageX => Some(codes[1]),
        Mode::Absolute => Some(codes[2]),
        Mode::AbsoluteX => Some(codes[3]),
        Mode::AbsoluteY => Some(codes[4]),
        Mode::IndirectX => Some(codes[5]),
        Mode::IndirectY => Some(codes[6]),
        _ => None,
    }
}

/// Returns the opcode of arithmetic or a load of `a`: a byte, and the forms of
/// stores.
fn arithmetic(mode: Mode, code: u8, codes: [u8; 7]) -> Option<u8>
    ensures { result ≡ arithmetic code codes mode }
{
    match mode {
        Mode::Immediate => Some(code),
        _ => store(mode, codes),
    }
}

/// Returns the opcode of an instruction without an operand.
fn implied(mode: Mode, code: u8) -> Option<u8>
    ensures { result ≡ implied code mode }
{
    match mode {
        Mode::Implied => Some(code),
        _ => None,
    }
}

/// Returns the opcode of a branch.
fn branch(mode: Mode, code: u8) -> Option<u8>
    ensures { result ≡ branch code mode }
{
    match mode {
        Mode::Relative => Some(code),
        _ => None,
    }
}

/// Returns the opcode of an instruction with other forms.
fn other_opcode(mnemonic: Mnemonic, mode: Mode) -> Option<u8>
    ensures { result ≡ other_opcode mnemonic mode }
{
    Some(match (mnemonic, mode) {
        (Mnemonic::Bit, Mode::ZeroPage) => 0x24,
        (Mnemonic::Bit, Mode::Absolute) => 0x2C,
        (Mnemonic::Cpx, Mode::Immediate) => 0xE0,
        (Mnemonic::Cpx, Mode::ZeroPage) => 0xE4,
        (Mnemonic::Cpx, Mode::Absolute) => 0xEC,
        (Mnemonic::Cpy, Mode::Immediate) => 0xC0,
        (Mnemonic::Cpy, Mode::ZeroPage) => 0xC4,
        (Mnemonic::Cpy, Mode::Absolute) => 0xCC,
        (Mnemonic::Jmp, Mode::Absolute) => 0x4C,
        (Mnemonic::Jmp, Mode::Indirect) => 0x6C,
        (Mnemonic::Jsr, Mode::Absolute) => 0x20,
        (Mnemonic::Ldx, Mode::Immediate) => 0xA2,
        (Mnemonic::Ldx, Mode::ZeroPage) => 0xA6,
        (Mnemonic::Ldx, Mode::ZeroPageY) => 0xB6,
        (Mnemonic::Ldx, Mode::Absolute) => 0xAE,
        (Mnemonic::Ldx, Mode::AbsoluteY) => 0xBE,
        (Mnemonic::Ldy, Mode::Immediate) => 0xA0,
        (Mnemonic::Ldy, Mode::ZeroPage) => 0xA4,
        (Mnemonic::Ldy, Mode::ZeroPageX) => 0xB4,
        (Mnemonic::Ldy, Mode::Absolute) => 0xAC,
        (Mnemonic::Ldy, Mode::AbsoluteX) => 0xBC,
        (Mnemonic::Stx, Mode::ZeroPage) => 0x86,
        (Mnemonic::Stx, Mode::ZeroPageY) => 0x96,
        (Mnemonic::Stx, Mode::Absolute) => 0x8E,
        (Mnemonic::Sty, Mode::ZeroPage) => 0x84,
        (Mnemonic::Sty, Mode::ZeroPageX) => 0x94,
        (Mnemonic::Sty, Mode::Absolute) => 0x8C,
        _ => return None,
    })
}
