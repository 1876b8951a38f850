//! A record file as it is shown.
ghost use Rattle.std.specs.Prelude.{All};
ghost use Rattle.evp_file.specs.Whole.{IsWithin};
ghost use Rattle.evp_stones.specs.Show.{longest_record};

use evp_file::{FileItems, KnownFormat};

/// A record file that describes each of its formats.
#[derive(Drop)]
pub struct Shown {
    /// The formats, with their identifiers.
    pub formats: Vec<KnownFormat>,
    /// The records.
    pub items: FileItems,
    ghost limited: { All (IsWithin longest_record) items },
}
