//! What a line writes.

use crate::bench::Summary;
use crate::carried::Carried;
use crate::listing::Listing;

/// What was worked out for a line, and is to be written.
#[derive(Drop)]
pub enum Output {
    /// A file or a document.
    Listed(Listing),
    /// A job that was carried.
    Reported(Carried),
    /// A large job that was carried.
    Summed(Summary),
}
