//! Files, fetched from a depot.
ghost use Rattle.std.specs.Prelude.{◌≡◌, ◌⊎◌, ◌^◌, ◌<◌, ◌≤◌, IfOk, vec_len};
ghost use Rattle.evp_stones.specs.declared.refusal.Refusal.TheVariants as refusal;
ghost use Rattle.evp_stones.specs.Fetching.{fetched, IsHeld, refused_with};
ghost use Rattle.evp_stones.specs.Steps.{Works, seen_by};
ghost use Rattle.evp_depot.specs.Reads.{Reads};

use crate::file_name::FileName;
use crate::refusal::Refusal;
use evp_depot::{Depot, Fetch, read_all};
use std::alloc::Global;

/// The most bytes of a record file.
pub const LONGEST_FILE: u32 = 16_777_216;

/// All bytes under the name, at most so many.
pub fn fetch<D: Depot>(
    alloc: Global,
    depot: &mut D,
    name: &str,
    most: u32,
) -> Result<Vec<u8>, Refusal>
    requires { most < 2 ^ 31 }
    ensures works { Works D.held D.misses D.faults depot.old depot.new
        (λ files answer. answer ≡ fetched files most name.now) (IsHeld name.now)
        (seen_by (λ bytes. bytes.items) result) }
    ensures within { IfOk result (λ bytes. vec_len bytes ≤ most) }
{
    match read_all(alloc, depot, name, most) {
        Ok(bytes) => Ok(bytes),
        Err(fault) => Err(refused_with(alloc, fault, name)),
    }
}

// What a fetch that was refused is to the line; `Memory` where there is none for the name.
fn refused_with(alloc: Global, fault: Fetch, name: &str) -> Refusal
    ensures { (result ≡ refused_with fault name.now) ⊎ (result ≡ refusal.Memory) }
{
    let Ok(name) = FileName::new(alloc, name) else {
        return Refusal::Memory;
    };
    match fault {
        Fetch::Absent => Refusal::Absent(name),
        Fetch::Failed => Refusal::Read(name),
        Fetch::TooLong => Refusal::TooLong(name),
        Fetch::Memory => Refusal::Memory,
    }
}
