//! Blocks of a receiver's record that are made without a look at a step.

/// From which numbers which are made.
#[derive(Clone, Copy, Debug, PartialEq, Eq)]
pub enum Form {
    /// Signed ones of 4 bytes, made of 8 bytes.
    FourToEight,
    /// Signed ones of 2 bytes, made of 4 bytes.
    TwoToFour,
    /// Signed ones of 2 bytes, made of 8 bytes.
    TwoToEight,
}

/// A counted array of numbers that stand side by side and always fit. Its count has 4 bytes.
#[derive(Clone, Copy, Debug)]
pub struct Array {
    /// Bytes from the sender's record's first byte to the count.
    pub count: u32,
    /// Bytes from the sender's record's first byte to the pointer.
    pub from: u32,
    /// Bytes from the receiver's record's first byte to the pointer.
    pub to: u32,
    /// What the numbers are.
    pub form: Form,
}

/// A text.
#[derive(Clone, Copy, Debug)]
pub struct Text {
    /// Bytes from the sender's record's first byte to the pointer.
    pub from: u32,
    /// Bytes from the receiver's record's first byte to the pointer.
    pub to: u32,
}

/// A block of a receiver's record.
#[derive(Clone, Copy, Debug)]
pub enum Block {
    /// A text.
    Text(Text),
    /// A counted array.
    Array(Array),
}
