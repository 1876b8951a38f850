//! Standard output as a sink.
ghost use Rattle.std.specs.Prelude.{◌≤◌, ◌<◌, None, IfOk, length};

use crate::sink::{Sink, SinkFault};
use std::io;
use std::io::{ErrorKind, Write};

/// Standard output. It doesn't tell what it has taken.
#[derive(Drop)]
pub struct StdSink<'a, R: Print> {
    rt: &'a R,
    faults: u64,
}

impl<'a, R: Print> StdSink<'a, R> {
    /// The runtime's standard output.
    pub fn new(rt: &'a R) -> StdSink<'a, R> {
        StdSink { rt, faults: 0 }
    }
}

impl<R: Print> Sink for StdSink<'_, R> {
    ghost put = { λ _. None };

    ghost faults = { λ s. s.faults };

    /// A write that takes nothing of a piece that isn't empty is a failure.
    fn write(&mut self, bytes: &[u8]) -> Result<usize, SinkFault> {
        let answer = write_again(&mut io::writer(self.rt), bytes);
        if answer.is_err() {
            self.faults = self.faults.saturating_add(1);
        }
        answer
    }
}

// Writes, and writes again where the call was interrupted.
fn write_again<W: Write>(output: &mut W, bytes: &[u8]) -> Result<usize, SinkFault>
    ensures in_piece { IfOk result (λ n. n ≤ length bytes.now) }
    ensures some { IfOk result (λ n. 0 < length bytes.now → 0 < n) }
{
    for _ in 0..u64::MAX {
        match output.write(bytes) {
            Ok(0) if !bytes.is_empty() => return Err(SinkFault::Failed),
            Ok(n) => return Ok(n),
            Err(error) if error.kind() == ErrorKind::Interrupted => {}
            Err(_) => return Err(SinkFault::Failed),
        }
    }
    Err(SinkFault::Failed)
}
