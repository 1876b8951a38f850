//! Where output goes.
ghost use Rattle.std.specs.Prelude.{ℕ, ◌<◌, ◌≤◌, List, Option, Some, codes, length, take, IfOk};
ghost use Rattle.std.specs.Prelude.{OnErr};
ghost use Rattle.std.specs.Io.KnownBytes.{Appends, Keeps};
ghost use Rattle.evp_depot.specs.Counts.{Rose};

use std::error::Error;
use std::fmt;

/// Why a write took no bytes.
#[derive(Clone, Copy, Debug, PartialEq, Eq)]
pub enum SinkFault {
    /// Something went wrong.
    Failed,
}

impl fmt::Display for SinkFault {
    ghost output = { λ _. Some (codes "failed") };

    fn fmt<W: fmt::Write>(&self, f: &mut fmt::Formatter<W>) -> fmt::Result {
        f.write_str("failed")
    }
}

impl Error for SinkFault {}

/// An output that takes bytes in pieces.
pub trait Sink {
    /// The bytes that it has taken, where it tells that.
    ghost put: { Self → Option (List ℕ) };

    /// How often it failed.
    ghost faults: { Self → ℕ };

    /// Takes bytes from the front of the piece, and answers how many: one at least, where the piece
    /// isn't empty. A failure takes none.
    fn write(&mut self, bytes: &[u8]) -> Result<usize, SinkFault>
        ensures faults { faults self.old ≤ faults self.new }
        ensures failed { OnErr result (Rose (faults self.old) (faults self.new)) }

        ensures in_piece { IfOk result (λ n. n ≤ length bytes.now) }
        ensures some { IfOk result (λ n. 0 < length bytes.now → 0 < n) }
        ensures appended { IfOk result (λ n.
            Appends (put self.old) (put self.new) (take n bytes.now)) }
        ensures nothing { OnErr result (Keeps (put self.old) (put self.new)) };
}
