//! The kinds of number that a record's field may hold.

/// A kind of number. Each has sizes of 1, 2, 4 or 8 bytes, a char of 1 byte alone.
#[derive(Clone, Copy, Debug, PartialEq, Eq)]
pub enum Kind {
    /// A signed number in two's complement.
    Int,
    /// An unsigned number.
    Unsigned,
    /// A byte, 0 to 255.
    Char,
    /// 0 where all its bytes are 0, else 1.
    Boolean,
    /// A signed number in two's complement.
    Enumeration,
}
