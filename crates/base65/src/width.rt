//! The formats of stored values.

/// The format in which a value is stored.
#[derive(Clone, Copy)]
pub enum Width {
    /// One byte, 0 to 255.
    Byte = 0,
    /// Two bytes, the low one first.
    Word = 1,
    /// Two bytes, the high one first.
    BigEndianWord = 2,
    /// Four bytes, the low one first.
    Dword = 3,
    /// One byte in two's complement, -128 to 127.
    Branch = 4,
}
