//! Files of the system as a depot.
ghost use Rattle.std.specs.Prelude.{◌≤◌, ◌≡◌, None, IfOk, length};

use crate::depot::{Depot, DepotFault};
use std::fs;
use std::io::{ErrorKind, Read, Seek, SeekFrom};
use std::rt::Files;

/// Files of the system under their paths. A path that leads to no file is absent; whatever else
/// goes wrong in opening, seeking or reading is a failure. It doesn't tell what it holds.
#[derive(Drop)]
pub struct FileDepot<'a, R: Files> {
    rt: &'a R,
    misses: u64,
    faults: u64,
}

impl<'a, R: Files> FileDepot<'a, R> {
    /// The files that the runtime opens.
    pub fn new(rt: &'a R) -> FileDepot<'a, R> {
        FileDepot {
            rt,
            misses: 0,
            faults: 0,
        }
    }
}

impl<R: Files> Depot for FileDepot<'_, R> {
    ghost held = { λ _. None };

    ghost misses = { λ d. d.misses };

    ghost faults = { λ d. d.faults };

    fn read(&mut self, name: &str, at: u64, into: &mut [u8]) -> Result<usize, DepotFault> {
        let answer = read_at(self.rt, name, at, into);
        match answer {
            Err(DepotFault::Absent) => self.misses = self.misses.saturating_add(1),
            Err(DepotFault::Failed) => self.faults = self.faults.saturating_add(1),
            Ok(_) => {}
        }
        answer
    }
}

// Opens the file, goes to `at` and reads.
fn read_at<R: Files>(rt: &R, name: &str, at: u64, into: &mut [u8]) -> Result<usize, DepotFault>
    ensures { IfOk result (λ n. n ≤ length into.old) }
{
    let mut file = match fs::open(rt, name) {
        Ok(file) => file,
        Err(error) if error.kind() == ErrorKind::NotFound => return Err(DepotFault::Absent),
        Err(_) => return Err(DepotFault::Failed),
    };
    if file.seek(SeekFrom::Start(at)).is_err() {
        return Err(DepotFault::Failed);
    }
    read_again(&mut file, into)
}

// Reads, and reads again where the call was interrupted.
fn read_again<F: Read>(file: &mut F, into: &mut [u8]) -> Result<usize, DepotFault>
    ensures { IfOk result (λ n. n ≤ length into.old) }
{
    for _ in 0..u64::MAX {
        match file.read(into) {
            Ok(n) => return Ok(n),
            Err(error) if error.kind() == ErrorKind::Interrupted => {}
            Err(_) => return Err(DepotFault::Failed),
        }
    }
    Err(DepotFault::Failed)
}
