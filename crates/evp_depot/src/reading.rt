//! Reading all that lies under a name.
ghost use Rattle.std.specs.Prelude.{◌≡◌, ℕ, ◌+◌, ◌^◌, ◌<◌, ◌≤◌, ◌↔◌, length, Some, IfOk, IfSome};
ghost use Rattle.std.specs.Prelude.{IsErrOf, IsNone, IsSome, IsSomeAnd, OnSome, OnOk, take};
ghost use Rattle.std.specs.Prelude.{vec_len};
ghost use Rattle.std.specs.FinMap.{get};
ghost use Rattle.evp_depot.specs.Files.{OnHeld};
ghost use Rattle.evp_depot.specs.Fronts.{IsFront};
ghost use Rattle.evp_depot.specs.Reads.{Reads};
ghost use Rattle.evp_depot.specs.Texts.{fetch_text};

use crate::depot::{Depot, DepotFault};
use std::alloc::{AllocError, Global};
use std::error::Error;
use std::fmt;

/// The length of the first piece that is read. Each further one doubles what there is.
const FIRST_PIECE: usize = 65_536;

/// Why the bytes under a name weren't read.
#[derive(Clone, Copy, Debug, PartialEq, Eq)]
pub enum Fetch {
    /// There is nothing under this name.
    Absent,
    /// A read failed.
    Failed,
    /// There are more bytes than were allowed.
    TooLong,
    /// No memory could be had.
    Memory,
}

impl fmt::Display for Fetch {
    ghost output = { λ fetch. Some (fetch_text fetch) };

    fn fmt<W: fmt::Write>(&self, f: &mut fmt::Formatter<W>) -> fmt::Result {
        match self {
            Fetch::Absent => f.write_str("absent"),
            Fetch::Failed => f.write_str("failed"),
            Fetch::TooLong => f.write_str("too long"),
            Fetch::Memory => f.write_str("memory"),
        }
    }
}

impl Error for Fetch {}

impl From<AllocError> for Fetch {
    ghost use Rattle.std.specs.Prelude.{◌≡◌};
    ghost use Rattle.evp_depot.specs.declared.reading.Fetch.TheVariants.{Memory};

    ghost from_gives = { λ _ fetch. fetch ≡ Memory };

    fn from(_error: AllocError) -> Fetch {
        Fetch::Memory
    }
}

impl From<DepotFault> for Fetch {
    ghost use Rattle.std.specs.Prelude.{◌≡◌};
    ghost use Rattle.evp_depot.specs.Fetch.{fetch_of};

    ghost from_gives = { λ fault fetch. fetch ≡ fetch_of fault };

    fn from(fault: DepotFault) -> Fetch {
        match fault {
            DepotFault::Absent => Fetch::Absent,
            DepotFault::Failed => Fetch::Failed,
        }
    }
}

/// All bytes under the name, at most `max`. They are read in large pieces: of 65,536 bytes first,
/// and then as much again as there is.
///
/// `Absent` where a read answered it, `Failed` where one did, and `TooLong` exactly where `max` + 1
/// bytes were taken. `Memory` where the next piece found none. What was read is dropped then.
pub fn read_all<D: Depot>(
    alloc: Global,
    depot: &mut D,
    name: &str,
    max: u32,
) -> Result<Vec<u8>, Fetch>
    requires { max < 2 ^ 31 }

    ensures reads { Reads D.held D.misses D.faults depot.old depot.new
        (IsErrOf result Fetch.Absent) (IsErrOf result Fetch.Failed) }
    ensures within { IfOk result (λ bytes. vec_len bytes ≤ max) }

    // Where the depot tells what it holds:
    ensures all { IfSome (D.held depot.old) (λ files. IfOk result (λ bytes.
        get files name.now ≡ Some bytes.items)) }
    ensures absent { IfSome (D.held depot.old) (λ files.
        IsErrOf result Fetch.Absent → IsNone (get files name.now)) }
    ensures there { IfSome (D.held depot.old) (λ files.
        IsErrOf result Fetch.Failed → IsSome (get files name.now)) }
    ensures too_long { IfSome (D.held depot.old) (λ files.
        IsErrOf result Fetch.TooLong → IsSomeAnd (get files name.now) (λ file. max < length file)) }
{
    let limit = max as usize + 1;
    let mut bytes = Vec::new(alloc);
    let mut filled = 0;
    while filled < limit {
        make_room(&mut bytes, filled, limit)?;
        let read = read_behind(depot, name, &mut bytes, filled)?;
        if read == 0 {
            bytes.truncate(filled);
            return Ok(bytes);
        }
        filled += read;
    }
    Err(Fetch::TooLong)
}

// Where the buffer is full it is made longer: to the first piece, then to twice its length, but
// never past the limit.
fn make_room(buffer: &mut Vec<u8>, filled: usize, limit: usize) -> Result<(), AllocError>
    requires filled { filled ≤ vec_len buffer.old }
    requires room { vec_len buffer.old ≤ limit }
    requires below { filled < limit }
    requires small { limit ≤ 2 ^ 31 }
    ensures room { OnOk result (filled < vec_len buffer.new) }
    ensures within { OnOk result (vec_len buffer.new ≤ limit) }
    ensures kept { OnOk result (take filled buffer.new.items ≡ take filled buffer.old.items) }
{
    if filled < buffer.len() {
        return Ok(());
    }
    let length = (2 * filled).max(FIRST_PIECE).min(limit);
    buffer.resize(length, 0)
}

// One read of what follows the bytes that fill the buffer's front.
fn read_behind<D: Depot>(
    depot: &mut D,
    name: &str,
    buffer: &mut [u8],
    filled: usize,
) -> Result<usize, DepotFault>
    requires { filled < length buffer.old }

    ensures reads { Reads D.held D.misses D.faults depot.old depot.new
        (IsErrOf result DepotFault.Absent) (IsErrOf result DepotFault.Failed) }
    ensures absent { IfSome (D.held depot.old) (λ files.
        IsErrOf result DepotFault.Absent ↔ IsNone (get files name.now)) }

    ensures within { IfOk result (λ n. filled + n ≤ length buffer.old) }
    ensures front { OnHeld (D.held depot.old) name.now (λ file. IfOk result (λ n.
        IsFront filled buffer.old file → IsFront (filled + n) buffer.new file)) }
    ensures end { OnHeld (D.held depot.old) name.now (λ file. IfOk result (λ n.
        n ≡ 0 → length file ≤ filled)) }
{
    depot.read(name, filled as u64, &mut buffer[filled..])
}
