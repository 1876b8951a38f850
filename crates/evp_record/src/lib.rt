//! Records whole: the check of a stranger's bytes, readers that never leave them, and packing.
#![tactic(auto)]

mod draft;
mod easy;
mod fields;
mod laws;
mod marker;
mod owned;
mod packing;
mod part;
mod put;
mod readers;
mod record;
mod record_bytes;
mod spot;
mod walk;
mod whole;
mod words;

pub use draft::Draft;
pub use evp_format::Broken;
pub use laws::{number_is_its_bytes, packed_is_viewed, reached_is_of_type, viewed_is_of_format};
pub use owned::Owned;
pub use packing::pack;
pub use record::{Checked, check};
pub use record_bytes::{IN_BLOCK, IN_PLACE, KeptBytes};
pub use spot::Spot;
pub use whole::view;
