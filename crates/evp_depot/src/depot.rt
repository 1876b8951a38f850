//! A source of bytes under names.
ghost use Rattle.std.specs.Prelude.{◌≡◌, ℕ, ◌+◌, ◌-◌, ◌<◌, ◌≤◌, ◌↔◌, Some, Option, ◌++◌, length};
ghost use Rattle.std.specs.Prelude.{take, drop, IfOk, IsErrOf, IsNone, IfSome};
ghost use Rattle.std.specs.FinMap.{get};
ghost use Rattle.evp_depot.specs.Files.{Files, OnHeld};
ghost use Rattle.evp_depot.specs.Reads.{Reads};
ghost use Rattle.evp_depot.specs.Texts.{depot_fault_text};

use std::error::Error;
use std::fmt;

/// Why a read gave no bytes.
#[derive(Clone, Copy, Debug, PartialEq, Eq)]
pub enum DepotFault {
    /// There is nothing under this name.
    Absent,
    /// Something went wrong.
    Failed,
}

impl fmt::Display for DepotFault {
    ghost output = { λ fault. Some (depot_fault_text fault) };

    fn fmt<W: fmt::Write>(&self, f: &mut fmt::Formatter<W>) -> fmt::Result {
        match self {
            DepotFault::Absent => f.write_str("absent"),
            DepotFault::Failed => f.write_str("failed"),
        }
    }
}

impl Error for DepotFault {}

/// Bytes under names, read in pieces.
pub trait Depot {
    /// What it holds, where it tells that.
    ghost held: { Self → Option Files };

    /// How often it answered that a name isn't there.
    ghost misses: { Self → ℕ };

    /// How often it failed.
    ghost faults: { Self → ℕ };

    /// Reads bytes under the name, from place `at` on, into the front of the piece, and answers how
    /// many. None into a piece that isn't empty is the end. `Absent` where nothing is there under
    /// the name, `Failed` where something else went wrong; each is counted.
    fn read(&mut self, name: &str, at: u64, into: &mut [u8]) -> Result<usize, DepotFault>
        ensures reads { Reads held misses faults self.old self.new
            (IsErrOf result DepotFault.Absent) (IsErrOf result DepotFault.Failed) }
        ensures absent { IfSome (held self.old) (λ files.
            IsErrOf result DepotFault.Absent ↔ IsNone (get files name.now)) }

        ensures in_piece { IfOk result (λ n. n ≤ length into.old) }
        ensures bytes { OnHeld (held self.old) name.now (λ file. IfOk result (λ n.
            into.new ≡ take n (drop at file) ++ drop n into.old)) }
        ensures end { OnHeld (held self.old) name.now (λ file. IfOk result (λ n.
            n ≡ 0 → 0 < length into.old → length file ≤ at)) };
}
