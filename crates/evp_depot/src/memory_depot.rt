//! A depot whose files lie in memory, for tests and for callers that have the bytes.
ghost use Rattle.std.specs.Prelude.{◌≡◌, ℕ, ◌+◌, ◌-◌, ◌↔◌, ◌++◌, length, take, drop, min, Some};
ghost use Rattle.std.specs.Prelude.{IfOk, IsErrOf, IsNone, IsSome, IfSome, OnErr};
ghost use Rattle.std.specs.FinMap.{get};
ghost use Rattle.std.specs.Option.{option_copied};
ghost use Rattle.evp_depot.specs.Files.{files_of};
ghost use Rattle.evp_depot.specs.DepotInMemory.{IsMadeToFail, after_read};

use crate::depot::{Depot, DepotFault};
use std::collections::BTreeMap;
use std::marker::Model;

/// Files in memory. The calls whose numbers, counted from 0, are in `failing` fail, but for those
/// of a name that isn't there. `calls` is the next call's number; at its last value it stays, and
/// no call fails by its number there.
#[derive(Drop)]
pub struct MemoryDepot {
    pub files: BTreeMap<String, Vec<u8>>,
    pub failing: Vec<u32>,
    pub calls: u32,
    pub misses: u64,
    pub faults: u64,
}

impl Model for MemoryDepot {
    ghost use Rattle.evp_depot.specs.Files.{files_of};
    ghost use Rattle.evp_depot.specs.DepotInMemory.{DepotInMemory, depot_code};

    ghost Value = { DepotInMemory };

    ghost coded = { depot_code };

    ghost view = { λ d. record {
      files = files_of d.files;
      failing = d.failing.items;
      calls = d.calls;
      misses = d.misses;
      faults = d.faults;
    } };
}

impl MemoryDepot {
    /// A depot of these files before its first call.
    pub fn new(files: BTreeMap<String, Vec<u8>>, failing: Vec<u32>) -> MemoryDepot
        ensures { result ≡ record {
          files = files_of files;
          failing = failing.items;
          calls = 0;
          misses = 0;
          faults = 0;
        } }
    {
        MemoryDepot {
            files,
            failing,
            calls: 0,
            misses: 0,
            faults: 0,
        }
    }
}

impl Depot for MemoryDepot {
    ghost held = { λ d. Some d.files };

    ghost misses = { λ d. d.misses };

    ghost faults = { λ d. d.faults };

    /// Reads as many bytes as there are from `at` on, up to the piece's length.
    fn read(&mut self, name: &str, at: u64, into: &mut [u8]) -> Result<usize, DepotFault>
        ensures absent { IsErrOf result DepotFault.Absent ↔ IsNone (get self.old.files name.now) }
        ensures failed { IsErrOf result DepotFault.Failed ↔ (IsSome (get self.old.files name.now)
            × IsMadeToFail self.old.failing self.old.calls) }
        ensures taken { IfSome (get self.old.files name.now) (λ file. IfOk result (λ n.
            n ≡ min (length into.old) (length file - at))) }
        ensures bytes { IfSome (get self.old.files name.now) (λ file. IfOk result (λ n.
            into.new ≡ take n (drop at file) ++ drop n into.old)) }
        ensures err { OnErr result (into.new ≡ into.old) }
        ensures after { self.new ≡ after_read self.old result }
    {
        let call = self.calls;
        self.calls = call.saturating_add(1);
        let Some(file) = look_up(&self.files, name) else {
            self.misses = self.misses.saturating_add(1);
            return Err(DepotFault::Absent);
        };
        if call < u32::MAX && self.failing.contains(&call) {
            self.faults = self.faults.saturating_add(1);
            return Err(DepotFault::Failed);
        }
        Ok(copy_from(file, at, into))
    }
}

// The bytes under a name.
fn look_up<'a>(files: &'a BTreeMap<String, Vec<u8>>, name: &str) -> Option<&'a [u8]>
    ensures { option_copied result ≡ get (files_of files.now) name.now }
{
    match files.get(name) {
        Some(file) => Some(file.as_slice()),
        None => None,
    }
}

// Copies the bytes from `at` on to the front of the piece, and answers how many.
fn copy_from(file: &[u8], at: u64, into: &mut [u8]) -> usize
    ensures taken { result ≡ min (length into.old) (length file.now - at) }
    ensures bytes { into.new ≡ take result (drop at file.now) ++ drop result into.old }
{
    let start = usize::try_from(at).unwrap_or(usize::MAX).min(file.len());
    let rest = &file[start..];
    let taken = rest.len().min(into.len());
    into[..taken].copy_from_slice(&rest[..taken]);
    taken
}
