//! Looks up mnemonics by name.

ghost use Rattle.std.specs.Prelude.{◌≡◌};
ghost use Rattle.syntax65.specs.Forms.{IsFound};
ghost use Rattle.syntax65.specs.Mnemonics.{SpellsMnemonic, mnemonic_of, name_of};

use super::names::Mnemonic;

/// Returns the mnemonic with this name, in upper or lower case.
pub fn mnemonic(bytes: &[u8]) -> Option<Mnemonic>
    ensures value { result ≡ mnemonic_of bytes.now }
    ensures spelled { IsFound (SpellsMnemonic bytes.now) result }
{
    match bytes {
        [first, second, third] => mnemonic_of_letters([
            first.to_ascii_lowercase(),
            second.to_ascii_lowercase(),
            third.to_ascii_lowercase(),
        ]),
        _ => None,
    }
}

/// Returns the mnemonic with this name of three lower-case letters.
fn mnemonic_of_letters(letters: [u8; 3]) -> Option<Mnemonic>
    ensures { IsFound (λ m. letters ≡ name_of m) result }
{
    Some(match letters {
        [b'a', b'd', b'c'] => Mnemonic::Adc,
        [b'a', b'n', b'd'] => Mnemonic::And,
        [b'a', b's', b'l'] => Mnemonic::Asl,
        [b'b', b'c', b'c'] => Mnemonic::Bcc,
        [b'b', b'c', b's'] => Mnemonic::Bcs,
        [b'b', b'e', b'q'] => Mnemonic::Beq,
        [b'b', b'i', b't'] => Mnemonic::Bit,
        [b'b', b'm', b'i'] => Mnemonic::Bmi,
        [b'b', b'n', b'e'] => Mnemonic::Bne,
        [b'b', b'p', b'l'] => Mnemonic::Bpl,
        [b'b', b'r', b'k'] => Mnemonic::Brk,
        [b'b', b'v', b'c'] => Mnemonic::Bvc,
        [b'b', b'v', b's'] => Mnemonic::Bvs,
        [b'c', b'l', b'c'] => Mnemonic::Clc,
        [b'c', b'l', b'd'] => Mnemonic::Cld,
        [b'c', b'l', b'i'] => Mnemonic::Cli,
        [b'c', b'l', b'v'] => Mnemonic::Clv,
        [b'c', b'm', b'p'] => Mnemonic::Cmp,
        [b'c', b'p', b'x'] => Mnemonic::Cpx,
        [b'c', b'p', b'y'] => Mnemonic::Cpy,
        [b'd', b'e', b'c'] => Mnemonic::Dec,
        [b'd', b'e', b'x'] => Mnemonic::Dex,
        [b'd', b'e', b'y'] => Mnemonic::Dey,
        [b'e', b'o', b'r'] => Mnemonic::Eor,
        [b'i', b'n', b'c'] => Mnemonic::Inc,
        [b'i', b'n', b'x'] => Mnemonic::Inx,
        [b'i', b'n', b'y'] => Mnemonic::Iny,
        [b'j', b'm', b'p'] => Mnemonic::Jmp,
        [b'j', b's', b'r'] => Mnemonic::Jsr,
        [b'l', b'd', b'a'] => Mnemonic::Lda,
        [b'l', b'd', b'x'] => Mnemonic::Ldx,
        [b'l', b'd', b'y'] => Mnemonic::Ldy,
        [b'l', b's', b'r'] => Mnemonic::Lsr,
        [b'n', b'o', b'p'] => Mnemonic::Nop,
        [b'o', b'r', b'a'] => Mnemonic::Ora,
        [b'p', b'h', b'a'] => Mnemonic::Pha,
        [b'p', b'h', b'p'] => Mnemonic::Php,
        [b'p', b'l', b'a'] => Mnemonic::Pla,
        [b'p', b'l', b'p'] => Mnemonic::Plp,
        [b'r', b'o', b'l'] => Mnemonic::Rol,
        [b'r', b'o', b'r'] => Mnemonic::Ror,
        [b'r', b't', b'i'] => Mnemonic::Rti,
        [b'r', b't', b's'] => Mnemonic::Rts,
        [b's', b'b', b'c'] => Mnemonic::Sbc,
        [b's', b'e', b'c'] => Mnemonic::Sec,
        [b's', b'e', b'd'] => Mnemonic::Sed,
        [b's', b'e', b'i'] => Mnemonic::Sei,
        [b's', b't', b'a'] => Mnemonic::Sta,
        [b's', b't', b'x'] => Mnemonic::Stx,
        [b's', b't', b'y'] => Mnemonic::Sty,
        [b't', b'a', b'x'] => Mnemonic::Tax,
        [b't', b'a', b'y'] => Mnemonic::Tay,
        [b't', b's', b'x'] => Mnemonic::Tsx,
        [b't', b'x', b'a'] => Mnemonic::Txa,
        [b't', b'x', b's'] => Mnemonic::Txs,
        [b't', b'y', b'a'] => Mnemonic::Tya,
        _ => return None,
    })
}
