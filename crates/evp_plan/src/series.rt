//! Where records stand.

/// Where records stand side by side.
#[derive(Clone, Copy, Debug)]
pub struct Series {
    /// The first byte of the first.
    pub first: usize,
    /// How many bytes each begins behind the one before.
    pub apart: usize,
}
