//! What a byte of a receiver's record is made from.

/// What a byte of a receiver's record is made from.
#[derive(Clone, Copy, Debug, PartialEq, Eq)]
pub enum Cell {
    /// It stays as it stood.
    Keep,
    /// This byte.
    Constant(u8),
    /// The byte at this offset of the sender's record.
    Byte(u32),
    /// 0xff where the top bit of the byte at this offset is set, else 0.
    Sign(u32),
}
