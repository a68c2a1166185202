//! The encoding of the values of expressions.

ghost use Rattle.std.specs.Prelude.{◌≡◌, true};
ghost use Rattle.object65.specs.Objects.{fits_width, value_bytes};

use crate::Width;
use arrayvec::ArrayVec;

/// Returns whether a value is within the range of a width.
pub fn fits(width: Width, value: i64) -> bool
    ensures { result ≡ fits_width width value }
{
    match width {
        Width::Byte => 0 <= value && value <= 255,
        Width::Word | Width::BigEndianWord => 0 <= value && value <= 65_535,
        Width::Dword => 0 <= value && value <= 4_294_967_295,
        Width::Branch => -128 <= value && value <= 127,
    }
}

/// Encodes a value that fits the width.
pub fn put(width: Width, value: i64) -> ArrayVec<u8, 4>
    requires { fits_width width value ≡ true }
    ensures { result.items ≡ value_bytes width value }
{
    let bits = value.cast_unsigned();
    let low = (bits % 256) as u8;
    let high = (bits / 256 % 256) as u8;
    let mut bytes = ArrayVec::new();
    match width {
        Width::Byte | Width::Branch => bytes.push(low),
        Width::Word => {
            bytes.push(low);
            bytes.push(high);
        }
        Width::BigEndianWord => {
            bytes.push(high);
            bytes.push(low);
        }
        Width::Dword => {
            bytes.push(low);
            bytes.push(high);
            bytes.push((bits / 65_536 % 256) as u8);
            bytes.push((bits / 16_777_216 % 256) as u8);
        }
    }
    bytes
}
