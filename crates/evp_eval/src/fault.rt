//! Why an expression can't be bound, and why its evaluation ends without a number.
ghost use Rattle.std.specs.Prelude.{◌≡◌, Some};

use evp_base::Memory;
use std::alloc::{AllocError, AllocFailed};
use std::error::Error;
use std::fmt;

/// Why an expression has no meaning in a format. Places are offsets in bytes of the expression's
/// text, from 0. Written as `unknown at 3`, with the place.
#[derive(Clone, Copy, Debug, PartialEq, Eq)]
pub enum BindFault {
    /// The name here isn't a field of the record type that is reached, or follows what isn't a
    /// single record.
    Unknown(u32),
    /// The path that begins here stands in a number's place and ends in neither a single number nor
    /// an element that is one.
    NotNumber(u32),
    /// The `[` here follows what isn't an array, or the path in `len` that begins here ends in
    /// none.
    NotList(u32),
    /// The path in `same` that begins here ends in neither a single string nor an element that is
    /// one.
    NotText(u32),
    /// There is no memory for the bound expression.
    Memory,
}

/// Why an evaluation ends without a number. Places are offsets in bytes of the expression's text,
/// from 0. Written as `overflow at 3`, with the place.
#[derive(Clone, Copy, Debug, PartialEq, Eq)]
pub enum EvalFault {
    /// The result of the operator here is below -2^127 or above 2^127 - 1.
    Overflow(u32),
    /// The operator here divides by 0.
    ZeroDivide(u32),
    /// The index behind the `[` here is negative or at least the list's length.
    Index(u32),
}

impl fmt::Display for BindFault {
    ghost use Rattle.evp_eval.specs.FaultText.{bind_text};

    ghost output = { λ fault. Some (bind_text fault) };

    fn fmt<W: fmt::Write>(&self, f: &mut fmt::Formatter<W>) -> fmt::Result {
        match self {
            BindFault::Unknown(at) => write!(f, "unknown at {at}"),
            BindFault::NotNumber(at) => write!(f, "not a number at {at}"),
            BindFault::NotList(at) => write!(f, "not a list at {at}"),
            BindFault::NotText(at) => write!(f, "not a text at {at}"),
            BindFault::Memory => f.write_str("memory"),
        }
    }
}

impl Error for BindFault {}

impl From<AllocError> for BindFault {
    ghost use Rattle.evp_eval.specs.declared.fault.BindFault.TheVariants.{Memory};

    ghost from_gives = { λ _ e. e ≡ Memory };

    fn from(_error: AllocError) -> BindFault {
        BindFault::Memory
    }
}

impl<T: Drop> From<AllocFailed<T>> for BindFault {
    ghost use Rattle.evp_eval.specs.declared.fault.BindFault.TheVariants.{Memory};

    ghost from_gives = { λ _ e. e ≡ Memory };

    fn from(_error: AllocFailed<T>) -> BindFault {
        BindFault::Memory
    }
}

impl From<Memory> for BindFault {
    ghost use Rattle.evp_eval.specs.declared.fault.BindFault.TheVariants as fault;

    ghost from_gives = { λ _ e. e ≡ fault.Memory };

    fn from(_error: Memory) -> BindFault {
        BindFault::Memory
    }
}

impl fmt::Display for EvalFault {
    ghost use Rattle.evp_eval.specs.FaultText.{eval_text};

    ghost output = { λ fault. Some (eval_text fault) };

    fn fmt<W: fmt::Write>(&self, f: &mut fmt::Formatter<W>) -> fmt::Result {
        match self {
            EvalFault::Overflow(at) => write!(f, "overflow at {at}"),
            EvalFault::ZeroDivide(at) => write!(f, "zero divide at {at}"),
            EvalFault::Index(at) => write!(f, "index at {at}"),
        }
    }
}

impl Error for EvalFault {}
