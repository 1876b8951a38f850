//! Why a record doesn't come through an action.
ghost use Rattle.std.specs.Prelude.{◌≡◌};
ghost use Rattle.evp_action.specs.declared.refusal.Refusal.TheVariants as refusal;

use crate::Reason;
use evp_base::Memory;
use std::alloc::{AllocError, AllocFailed};

// The record is refused, or there was no memory.
#[derive(Drop)]
pub(crate) enum Refusal {
    Cause(Reason),
    Memory,
}

impl From<Memory> for Refusal {
    ghost from_gives = { λ _ made. made ≡ refusal.Memory };

    fn from(_error: Memory) -> Self {
        Refusal::Memory
    }
}

impl From<AllocError> for Refusal {
    ghost from_gives = { λ _ made. made ≡ refusal.Memory };

    fn from(_error: AllocError) -> Self {
        Refusal::Memory
    }
}

impl<T: Drop> From<AllocFailed<T>> for Refusal {
    ghost from_gives = { λ _ made. made ≡ refusal.Memory };

    fn from(_error: AllocFailed<T>) -> Self {
        Refusal::Memory
    }
}
