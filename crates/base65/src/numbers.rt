//! The values of digits.

ghost use Rattle.std.specs.Prelude.{◌≡◌};
ghost use Rattle.base65.specs.Digit.{IsRadix, digits};

/// Parses one or more digits of the radix. Returns `None` for other text and for values of 2 ^ 32
/// or more.
pub fn digits(radix: u32, text: &[u8]) -> Option<u32>
    requires { IsRadix radix }
    ensures { result ≡ digits radix text.now }
{
    if text.is_empty() {
        return None;
    }
    let mut value = 0u32;
    for byte in text {
        let digit = char::from(*byte).to_digit(radix)?;
        value = value.checked_mul(radix)?.checked_add(digit)?;
    }
    Some(value)
}
