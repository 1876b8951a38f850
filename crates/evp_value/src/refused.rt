//! Why a part is not made.

ghost use Rattle.std.specs.Prelude.{◌≡◌};
ghost use Rattle.evp_value.specs.declared.refused.Refused.TheVariants.{Memory};

use evp_format::Place;
use std::alloc::{AllocError, AllocFailed};

// The first fault of a conversion, with its place in the receiver's format.
#[derive(Drop)]
pub(crate) enum Refused {
    Unfit(Place),
    Large(Place),
    Memory,
}

impl From<evp_base::Memory> for Refused {
    ghost from_gives = { λ _ refused. refused ≡ Memory };

    fn from(_error: evp_base::Memory) -> Refused {
        Refused::Memory
    }
}

impl From<AllocError> for Refused {
    ghost from_gives = { λ _ refused. refused ≡ Memory };

    fn from(_error: AllocError) -> Refused {
        Refused::Memory
    }
}

impl<T: Drop> From<AllocFailed<T>> for Refused {
    ghost from_gives = { λ _ refused. refused ≡ Memory };

    fn from(_error: AllocFailed<T>) -> Refused {
        Refused::Memory
    }
}
