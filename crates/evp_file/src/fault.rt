//! Why bytes are no record file.

ghost use Rattle.std.specs.Prelude.{◌≡◌, Some};
ghost use Rattle.evp_file.specs.declared.fault.FileFault.TheVariants.{Memory};
ghost use Rattle.evp_file.specs.FaultText.{file_fault_text, fault_offset};

use evp_base::{FieldPath, Memory as NoMemory};
use evp_format::{Broken, BrokenText, LayoutFault};
use std::alloc::{AllocError, AllocFailed};
use std::error::Error;
use std::fmt;

/// The first fault of a record file, from left to right. The number is the offset of the letter of
/// the frame that has the fault, but where it says otherwise.
#[derive(Debug, Drop)]
pub enum FileFault {
    /// The bytes don't begin with `NDR1`.
    Magic,
    /// The frame is cut. Where no frame begins the offset is the number of bytes.
    Short(u32),
    /// The frame's letter is none of `F`, `I`, `R` and `E`.
    FrameKind(u32),
    /// The description has this fault, whose offsets count within the description.
    Layout(u32, LayoutFault),
    /// No known format has the identifier.
    UnknownId(u32),
    /// No format before the record has the number.
    FormatNumber(u32),
    /// The record's bytes have this fault in their format, at this path.
    Broken(u32, Broken, FieldPath),
    /// The record is longer than the limit.
    TooLarge(u32),
    /// Bytes follow the end, from this offset on.
    Trailing(u32),
    /// It is the 131,073rd record.
    Records(u32),
    /// It is the 1,025th format.
    Formats(u32),
    /// There was no memory for the file.
    Memory,
}

impl FileFault {
    /// The offset of the fault; 0 for `Magic`, and where there was no memory.
    pub fn at(&self) -> u32
        ensures { result ≡ fault_offset self.now }
    {
        match self {
            FileFault::Magic | FileFault::Memory => 0,
            FileFault::Short(at)
            | FileFault::FrameKind(at)
            | FileFault::Layout(at, _)
            | FileFault::UnknownId(at)
            | FileFault::FormatNumber(at)
            | FileFault::Broken(at, _, _)
            | FileFault::TooLarge(at)
            | FileFault::Trailing(at)
            | FileFault::Records(at)
            | FileFault::Formats(at) => *at,
        }
    }
}

impl fmt::Display for FileFault {
    ghost output = { λ fault. Some (file_fault_text fault) };

    fn fmt<W: fmt::Write>(&self, f: &mut fmt::Formatter<W>) -> fmt::Result {
        match self {
            FileFault::Magic => f.write_str("magic"),
            FileFault::Short(_) => f.write_str("short"),
            FileFault::FrameKind(_) => f.write_str("frame kind"),
            FileFault::Layout(_, fault) => write!(f, "layout {fault}"),
            FileFault::UnknownId(_) => f.write_str("unknown id"),
            FileFault::FormatNumber(_) => f.write_str("format number"),
            FileFault::Broken(_, fault, path) => write!(f, "broken {}", BrokenText { fault, path }),
            FileFault::TooLarge(_) => f.write_str("too large"),
            FileFault::Trailing(_) => f.write_str("trailing"),
            FileFault::Records(_) => f.write_str("records"),
            FileFault::Formats(_) => f.write_str("formats"),
            FileFault::Memory => f.write_str("memory"),
        }
    }
}

impl Error for FileFault {}

impl From<AllocError> for FileFault {
    ghost from_gives = { λ _ fault. fault ≡ Memory };

    fn from(_error: AllocError) -> FileFault {
        FileFault::Memory
    }
}

impl<T: Drop> From<AllocFailed<T>> for FileFault {
    ghost from_gives = { λ _ fault. fault ≡ Memory };

    fn from(_error: AllocFailed<T>) -> FileFault {
        FileFault::Memory
    }
}

impl From<NoMemory> for FileFault {
    ghost from_gives = { λ _ fault. fault ≡ Memory };

    fn from(_error: NoMemory) -> FileFault {
        FileFault::Memory
    }
}
