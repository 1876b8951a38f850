//! Why a record isn't converted into bytes of its own.

ghost use Rattle.std.specs.Prelude.{◌≡◌};
ghost use Rattle.evp_runner.specs.declared.run_fault.RunFault.TheVariants.{Memory};

use crate::ConvertFault;
use evp_format::Place;
use std::alloc::AllocError;

/// Why a record isn't converted: the first fault, with its place in the receiver's format, or want
/// of memory.
#[derive(Debug, Drop)]
pub enum RunFault {
    /// A number that isn't in the range of the receiver's field, or a list whose length isn't the
    /// receiver's.
    Unfit(Place),
    /// A text or a list whose block makes the packed size pass the limit; the record itself where
    /// its fixed part passes it.
    Large(Place),
    /// There was no memory for the packed record.
    Memory,
}

impl From<ConvertFault> for RunFault {
    ghost use Rattle.evp_runner.specs.Running.{run_fault_of};

    ghost from_gives = { λ fault run_fault. run_fault ≡ run_fault_of fault };

    fn from(fault: ConvertFault) -> Self {
        match fault {
            ConvertFault::Unfit(place) => RunFault::Unfit(place),
            ConvertFault::Large(place) => RunFault::Large(place),
        }
    }
}

impl From<AllocError> for RunFault {
    ghost from_gives = { λ _ run_fault. run_fault ≡ Memory };

    fn from(_error: AllocError) -> Self {
        RunFault::Memory
    }
}
