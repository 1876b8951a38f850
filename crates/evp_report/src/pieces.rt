//! Text that waits until there is enough of it to be written.
ghost use Rattle.std.specs.Prelude.{◌≡◌, ◌+◌, ◌≤◌, ◌⊎◌, [], OnOk, length};
ghost use Rattle.evp_report.specs.Passing.{Passes};

use arrayvec::ArrayVec;
use evp_depot::{PutFault, Sink, write_all};
use std::marker::Model;

/// Bytes that wait at most.
const ROOM: usize = 4096;

/// The text that waits for a sink: at most 4,096 bytes, which go out together.
#[derive(Drop)]
pub struct Pieces {
    waiting: ArrayVec<u8, ROOM>,
}

impl Model for Pieces {
    ghost use Rattle.std.specs.Prelude.{List, ℕ};

    ghost Value = { List ℕ };

    ghost view = { λ p. p.waiting.items };
}

impl Pieces {
    /// Nothing waits.
    pub fn new() -> Pieces
        ensures { result ≡ [] }
    {
        Pieces {
            waiting: ArrayVec::new(),
        }
    }

    /// Hands on these bytes: they wait, or go out behind what waited. `Failed` comes where a write
    /// failed; a part of what was handed on may have been put then. It takes no memory.
    pub fn put<K: Sink>(&mut self, sink: &mut K, bytes: &[u8]) -> Result<(), PutFault>
        ensures { Passes K.faults K.put sink.old sink.new self.old self.new bytes.now result }
    {
        if let Ok(()) = self.waiting.try_extend_from_slice(bytes) {
            return Ok(());
        }
        self.flush(sink)?;
        if let Err(_) = self.waiting.try_extend_from_slice(bytes) {
            return write_all(sink, bytes);
        }
        Ok(())
    }

    /// Sees to it that so many bytes more may wait, or that none waits where these are more than may
    /// wait at most: what waits goes out if need be, and only then. `Failed` comes where a write
    /// failed; a part of it may have been put then. It takes no memory.
    pub fn make_room<K: Sink>(&mut self, sink: &mut K, bytes: usize) -> Result<(), PutFault>
        ensures passes { Passes K.faults K.put sink.old sink.new self.old self.new [] result }
        ensures room { OnOk result ((length self.new + bytes ≤ 4096) ⊎ (self.new ≡ [])) }
        ensures kept { length self.old + bytes ≤ 4096
            → (sink.new ≡ sink.old) × (self.new ≡ self.old) }
    {
        if self.waiting.len().saturating_add(bytes) <= ROOM {
            return Ok(());
        }
        self.flush(sink)
    }

    /// Writes what waits. `Failed` comes where a write failed; a part of it may have been put then.
    /// It takes no memory.
    pub fn flush<K: Sink>(&mut self, sink: &mut K) -> Result<(), PutFault>
        ensures passes { Passes K.faults K.put sink.old sink.new self.old self.new [] result }
        ensures none_waits { OnOk result (self.new ≡ []) }
    {
        write_all(sink, self.waiting.as_slice())?;
        self.waiting.clear();
        Ok(())
    }
}
