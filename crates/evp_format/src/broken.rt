//! Why bytes are no record of a format.
ghost use Rattle.std.specs.Prelude.{◌≡◌, ◌↔◌, IfOk, IsTrue};
ghost use Rattle.std.specs.Cmp.{partial_equiv_from_equiv};
ghost use Rattle.evp_format.specs.BrokenText.{fault_path};
ghost use Rattle.evp_format.specs.Sameness.{broken_eq, fault_kind, fault_place};
ghost use Rattle.evp_format.specs.Samenesses.{broken_eq-equivalence};

use crate::{Format, Place, PlaceStep, path_of};
use evp_base::{FieldPath, Memory};
use std::alloc::Global;

/// The first fault of a record's bytes, in the order of the walk.
#[derive(Debug, Drop)]
pub enum Broken {
    /// Fewer bytes than the record type's length.
    ShortRecord,
    /// The array's count is below 0.
    NegativeCount(Place),
    /// The array's count is above 0 and its pointer is null.
    NullList(Place),
    /// The block starts before the mark, or ends past the bytes; a string's block starts at or past
    /// their end.
    BlockPlace(Place),
    /// No zero byte from the string's start to the end of the bytes.
    NoEnd(Place),
}

impl Broken {
    /// The steps to the part that is at fault; none where the record is too short.
    pub fn steps(&self) -> &[PlaceStep]
        ensures { result.now ≡ fault_place self.now }
    {
        match self {
            Broken::ShortRecord => &[],
            Broken::NegativeCount(place)
            | Broken::NullList(place)
            | Broken::BlockPlace(place)
            | Broken::NoEnd(place) => place.steps(),
        }
    }

    /// The path of the part that is at fault, by the names of the record's format; the empty path
    /// where the record is too short. `Memory` where it could not be stored.
    pub fn path(&self, alloc: Global, format: &Format) -> Result<FieldPath, Memory>
        ensures { IfOk result (λ path. path ≡ fault_path format.now self.now) }
    {
        match self {
            Broken::ShortRecord => Ok(FieldPath::new(alloc)),
            Broken::NegativeCount(place)
            | Broken::NullList(place)
            | Broken::BlockPlace(place)
            | Broken::NoEnd(place) => path_of(alloc, format, place),
        }
    }

    // The kind of the fault, numbered.
    fn kind(&self) -> u8
        ensures { result ≡ fault_kind self.now }
    {
        match self {
            Broken::ShortRecord => 0,
            Broken::NegativeCount(_) => 1,
            Broken::NullList(_) => 2,
            Broken::BlockPlace(_) => 3,
            Broken::NoEnd(_) => 4,
        }
    }
}

impl PartialEq for Broken {
    ghost eq = { broken_eq };

    ghost laws = { partial_equiv_from_equiv broken_eq-equivalence };

    fn eq(&self, other: &Broken) -> bool
        ensures value { result ≡ broken_eq self.now other.now }
        ensures same { IsTrue result ↔ (self.now ≡ other.now) }
    {
        self.kind() == other.kind() && self.steps() == other.steps()
    }
}

impl Eq for Broken {
    ghost laws = { broken_eq-equivalence };
}
