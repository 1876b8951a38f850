//! Records that were converted.

use super::outcome::Outcome;
use evp_format::Format;

/// What became of the records of a file.
#[derive(Drop)]
pub struct Converted {
    /// The receiver's format.
    pub to: Format,
    /// What became of each record, in their order.
    pub outcomes: Vec<Outcome>,
}
