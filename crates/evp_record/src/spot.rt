//! Records inside a record.

/// A record inside a record's bytes.
#[derive(Clone, Copy, Debug, PartialEq, Eq)]
pub struct Spot {
    /// The number of its type in the format.
    pub type_number: u16,
    /// The offset of its first byte.
    pub at: u32,
}
