//! Why a value is not converted.

ghost use Rattle.std.specs.Prelude.{◌≡◌, Some};
ghost use Rattle.evp_value.specs.SlowConversion.{slow_fault_text};
ghost use Rattle.evp_value.specs.declared.slow_fault.SlowFault.TheVariants.{Memory};

use evp_base::FieldPath;
use std::error::Error;
use std::fmt;

/// Why a value is not converted: a clash of the two formats before all else, then the conversion's
/// first fault. Paths are of the receiver's format. Written as `clash PATH`, `unfit PATH`,
/// `large PATH` or `memory`.
#[derive(Debug, Drop)]
pub enum SlowFault {
    /// The field has a partner of another class: number, text, record, or array of one of these.
    Clash(FieldPath),
    /// The number isn't in the field's range, the list hasn't the field's length, or the count is
    /// below 0.
    Unfit(FieldPath),
    /// With the text's or the list's block the packed size passes the limit; at `.` the receiver's
    /// length does.
    Large(FieldPath),
    /// There was no memory for the value or for a path.
    Memory,
}

impl From<evp_base::Memory> for SlowFault {
    ghost from_gives = { λ _ fault. fault ≡ Memory };

    fn from(_error: evp_base::Memory) -> SlowFault {
        SlowFault::Memory
    }
}

impl fmt::Display for SlowFault {
    ghost output = { λ fault. Some (slow_fault_text fault) };

    fn fmt<W: fmt::Write>(&self, f: &mut fmt::Formatter<W>) -> fmt::Result {
        match self {
            SlowFault::Clash(path) => write!(f, "clash {path}"),
            SlowFault::Unfit(path) => write!(f, "unfit {path}"),
            SlowFault::Large(path) => write!(f, "large {path}"),
            SlowFault::Memory => f.write_str("memory"),
        }
    }
}

impl Error for SlowFault {}
