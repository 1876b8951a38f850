//! Writing all bytes of a piece.
ghost use Rattle.std.specs.Prelude.{Some, codes};
ghost use Rattle.evp_depot.specs.Put.{Puts};

use crate::sink::{Sink, SinkFault};
use std::error::Error;
use std::fmt;

/// Why not all bytes were written.
#[derive(Clone, Copy, Debug, PartialEq, Eq)]
pub enum PutFault {
    /// A write failed.
    Failed,
}

impl fmt::Display for PutFault {
    ghost output = { λ _. Some (codes "failed") };

    fn fmt<W: fmt::Write>(&self, f: &mut fmt::Formatter<W>) -> fmt::Result {
        f.write_str("failed")
    }
}

impl Error for PutFault {}

impl From<SinkFault> for PutFault {
    fn from(fault: SinkFault) -> PutFault {
        match fault {
            SinkFault::Failed => PutFault::Failed,
        }
    }
}

/// Writes all bytes, in as many writes as the sink wants, none of an empty piece. `Failed` comes as
/// soon as a write fails; a part of the bytes, and never all, may have been put then. It takes no
/// memory.
pub fn write_all<K: Sink>(sink: &mut K, bytes: &[u8]) -> Result<(), PutFault>
    ensures { Puts K.faults K.put sink.old sink.new bytes.now result }
{
    let mut written = 0;
    while written < bytes.len() {
        written += sink.write(&bytes[written..])?;
    }
    Ok(())
}
