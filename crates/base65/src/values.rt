//! The operators of expressions, over integers that wrap around in 64 bits.

ghost use Rattle.std.specs.Prelude.{◌≡◌};
ghost use Rattle.base65.specs.Values.{value1, value2, truth, unless_zero_divisor, unless_bad_shift};
ghost use Rattle.std.specs.Prelude.{◌*ℤ◌, int_div, int_rem};
ghost use Rattle.std.specs.Int.{int_div_euclid};

/// A unary operator.
#[derive(Clone, Copy, Debug)]
pub enum Op1 {
    Plus,
    Negate,
    BitNot,
    /// Bits 0 to 7.
    LowByte,
    /// Bits 8 to 15.
    HighByte,
    /// Bits 16 to 23.
    BankByte,
    /// 1 for 0, otherwise 0.
    Not,
}

/// A binary operator. Comparisons and the logical `And`, `Xor` and `Or` have the value 1 or 0.
#[derive(Clone, Copy, Debug)]
pub enum Op2 {
    Multiply,
    Divide,
    Modulo,
    BitAnd,
    BitXor,
    ShiftLeft,
    ShiftRight,
    Add,
    Subtract,
    BitOr,
    Equal,
    NotEqual,
    Less,
    Greater,
    LessOrEqual,
    GreaterOrEqual,
    And,
    Xor,
    Or,
}

fn truth(b: bool) -> i64
    ensures { result ≡ truth b }
{
    if b { 1 } else { 0 }
}

/// Returns the value of a unary operation.
pub fn apply1(op: Op1, a: i64) -> i64
    ensures { result ≡ value1 op a }
{
    match op {
        Op1::Plus => a,
        Op1::Negate => a.wrapping_neg(),
        Op1::BitNot => !a,
        Op1::LowByte => (a.cast_unsigned() % 256) as i64,
        Op1::HighByte => (a.cast_unsigned() / 256 % 256) as i64,
        Op1::BankByte => (a.cast_unsigned() / 65536 % 256) as i64,
        Op1::Not => truth(a == 0),
    }
}

/// Returns the value of a binary operation, or `None` for a zero divisor or a shift count outside 0
/// to 63.
pub fn apply2(op: Op2, a: i64, b: i64) -> Option<i64>
    ensures { result ≡ value2 op a b }
{
    match op {
        Op2::Divide => divide(a, b),
        Op2::Modulo => remainder(a, b),
        Op2::ShiftLeft => shift_left(a, b),
        Op2::ShiftRight => shift_right(a, b),
        Op2::Multiply => Some(a.wrapping_mul(b)),
        Op2::BitAnd => Some(a & b),
        Op2::BitXor => Some(a ^ b),
        Op2::Add => Some(a.wrapping_add(b)),
        Op2::Subtract => Some(a.wrapping_sub(b)),
        Op2::BitOr => Some(a | b),
        Op2::Equal => Some(truth(a == b)),
        Op2::NotEqual => Some(truth(a != b)),
        Op2::Less => Some(truth(a < b)),
        Op2::Greater => Some(truth(a > b)),
        Op2::LessOrEqual => Some(truth(a <= b)),
        Op2::GreaterOrEqual => Some(truth(a >= b)),
        Op2::And => Some(truth(a != 0 && b != 0)),
        Op2::Xor => Some(truth((a != 0) != (b != 0))),
        Op2::Or => Some(truth(a != 0 || b != 0)),
    }
}

fn divide(a: i64, b: i64) -> Option<i64>
    ensures { result ≡ unless_zero_divisor int_div a b }
{
    if b == 0 {
        None
    } else {
        Some(a.wrapping_div(b))
    }
}

fn remainder(a: i64, b: i64) -> Option<i64>
    ensures { result ≡ unless_zero_divisor int_rem a b }
{
    if b == 0 {
        None
    } else {
        Some(a.wrapping_rem(b))
    }
}

fn shift_left(a: i64, b: i64) -> Option<i64>
    ensures { result ≡ unless_bad_shift (λ x p. x *ℤ p) a b }
{
    let count = u32::try_from(b).ok()?;
    if count < 64 {
        Some(a.wrapping_shl(count))
    } else {
        None
    }
}

fn shift_right(a: i64, b: i64) -> Option<i64>
    ensures { result ≡ unless_bad_shift int_div_euclid a b }
{
    let count = u32::try_from(b).ok()?;
    if count < 64 { Some(a >> count) } else { None }
}
