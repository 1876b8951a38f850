//! A sink that keeps what it takes in memory.
ghost use Rattle.std.specs.Prelude.{◌≡◌, ℕ, ◌<◌, ◌≤◌, ◌↔◌, [], length, Some, IfOk, IsOk, IsErr};
ghost use Rattle.std.specs.Prelude.{vec_capacity};
ghost use Rattle.evp_depot.specs.SinkInMemory.{Refuses, taken_of, after_write, SinkInMemory};

use crate::sink::{Sink, SinkFault};
use evp_base::Memory;
use std::alloc::Global;
use std::marker::Model;

/// The bytes that were put, with room for a fixed number. One write takes `take` bytes at most. The
/// calls whose numbers, counted from 0, are in `failing` fail; the number stays at its last value,
/// and no call fails by its number there.
#[derive(Drop)]
pub struct MemorySink {
    put: Vec<u8>,
    room: u32,
    take: u32,
    failing: Vec<u32>,
    calls: u32,
    faults: u64,
}

impl Model for MemorySink {
    ghost use Rattle.std.specs.Prelude.{◌<◌, ◌≤◌, length, vec_capacity};
    ghost use Rattle.evp_depot.specs.SinkInMemory.{SinkInMemory, sink_code};

    ghost Value = { SinkInMemory };

    ghost coded = { sink_code };

    ghost view = { λ s. record {
      put = s.put.items;
      room = s.room;
      take = s.take;
      failing = s.failing.items;
      calls = s.calls;
      faults = s.faults;
    } };

    ghost invariant = { λ s. (length s.put.items ≤ s.room) × (s.room ≤ vec_capacity s.put)
        × (0 < s.take) };
}

impl MemorySink {
    /// An empty sink. It takes the memory for `room` bytes, and answers `Memory` where there is
    /// none; no later write takes any.
    pub fn new(alloc: Global, room: u32, take: u32, failing: Vec<u32>) -> Result<MemorySink, Memory>
        requires { 0 < take }
        ensures { IfOk result (λ sink. sink ≡ record {
          put = [];
          room = room;
          take = take;
          failing = failing.items;
          calls = 0;
          faults = 0;
        }) }
    {
        let put = Vec::with_capacity(alloc, room as usize)?;
        Ok(MemorySink {
            put,
            room,
            take,
            failing,
            calls: 0,
            faults: 0,
        })
    }

    /// The bytes so far.
    pub fn put(&self) -> &[u8]
        ensures { result.now ≡ self.now.put }
    {
        self.put.as_slice()
    }

    /// The next call's number.
    pub fn calls(&self) -> u32
        ensures { result ≡ self.now.calls }
    {
        self.calls
    }

    /// How often it failed.
    pub fn faults(&self) -> u64
        ensures { result ≡ self.now.faults }
    {
        self.faults
    }
}

impl Sink for MemorySink {
    ghost put = { λ s. Some s.put };

    ghost faults = { λ s. s.faults };

    /// Takes as many bytes as `take` and the room left allow.
    fn write(&mut self, bytes: &[u8]) -> Result<usize, SinkFault>
        ensures failed { IsErr result ↔ Refuses self.old bytes.now }
        ensures taken { IfOk result (λ n. n ≡ taken_of self.old bytes.now) }
        ensures some { IfOk result (λ n. 0 < length bytes.now → 0 < n) }
        ensures after { self.new ≡ after_write self.old bytes.now result }
    {
        let call = self.calls;
        self.calls = call.saturating_add(1);
        let room = self.room as usize - self.put.len();
        let made_to_fail = call < u32::MAX && self.failing.contains(&call);
        if made_to_fail || (room == 0 && !bytes.is_empty()) {
            self.faults = self.faults.saturating_add(1);
            return Err(SinkFault::Failed);
        }
        let taken = bytes.len().min(self.take as usize).min(room);
        self.put.extend_from_slice(&bytes[..taken]).unwrap();
        Ok(taken)
    }
}
