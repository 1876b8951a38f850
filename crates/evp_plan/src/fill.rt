//! Bytes that are the signs of others.

use evp_base::Order;
use evp_wide::Mask;

// A byte of a record that is the sign of another: 0xff where the top bit of that is set, else 0. Each
// is named by its bytes from the record's first; none stands for a byte 0.
#[derive(Clone, Copy, Debug)]
pub(crate) struct Fill {
    pub(crate) pick: Option<usize>,
    pub(crate) sign: Option<usize>,
}

// What a number's bytes above its lowest ones are.
#[derive(Clone, Copy, Debug)]
pub(crate) enum Filling {
    // All are 0.
    Zeros,
    // All are 0, and the top bit below them is clear.
    Positive,
    // All are the sign of the byte below them.
    Signed,
}

// Numbers of so many bytes, with what stands above these.
#[derive(Clone, Copy, Debug)]
pub(crate) struct Cut {
    pub(crate) size: u32,
    pub(crate) filling: Filling,
}

// A window of sixteen bytes: each that the one mask picks is the sign of the one that the other picks.
#[derive(Clone, Copy, Debug)]
pub(crate) struct Window {
    // Bytes from the record's first byte.
    pub(crate) at: usize,
    pub(crate) picks: Mask,
    pub(crate) signs: Mask,
}

// Windows that tell of the numbers of a sender of this order whether they fit.
#[derive(Debug, Drop)]
pub(crate) struct Lanes {
    pub(crate) order: Order,
    pub(crate) windows: Vec<Window>,
}
