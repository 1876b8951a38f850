//! Files that list turns.
ghost use Rattle.std.specs.Prelude.{◌≡◌, ◌≤◌, ◌<◌, ◌^◌, All, IfOk, drop, length};
ghost use Rattle.evp_stones.specs.DecimalNumber.{number_in};
ghost use Rattle.evp_stones.specs.Fetching.{IsHeld};
ghost use Rattle.evp_stones.specs.Order.{first_line, turn_at, turns_of};
ghost use Rattle.evp_stones.specs.Run.{turns_named};
ghost use Rattle.evp_stones.specs.Steps.{Gives, Works, seen_by};

use crate::decimal_number::number_in;
use crate::fetching::fetch;
use crate::file_name::FileName;
use crate::refusal::Refusal;
use evp_depot::Depot;
use std::alloc::Global;

/// The most bytes of such a file.
const LONGEST_ORDER: u32 = 1_048_576;

/// The turns that the file of this name lists, each the number of one of so many actors.
pub fn turns<D: Depot>(
    alloc: Global,
    depot: &mut D,
    name: &str,
    actors: u16,
) -> Result<Vec<u16>, Refusal>
    ensures works { Works D.held D.misses D.faults depot.old depot.new
        (λ files answer. answer ≡ turns_named actors name.now files) (IsHeld name.now)
        (seen_by (λ turns. turns.items) result) }
    ensures within { IfOk result (λ turns. All (λ actor. actor < actors) turns.items) }
{
    let bytes = fetch(alloc, depot, name, LONGEST_ORDER)?;
    turns_in(alloc, name, &bytes, actors)
}

// The turns that these bytes list.
fn turns_in(alloc: Global, name: &str, bytes: &[u8], actors: u16) -> Result<Vec<u16>, Refusal>
    requires { length bytes.now < 2 ^ 31 }
    ensures exact { Gives (seen_by (λ turns. turns.items) result)
        (turns_of actors name.now bytes.now) }
    ensures within { IfOk result (λ turns. All (λ actor. actor < actors) turns.items) }
{
    let mut turns = Vec::new(alloc);
    let mut at = 0;
    for _ in 0..bytes.len() {
        if at >= bytes.len() {
            return Ok(turns);
        }
        let line = first_line(&bytes[at..]);
        let actor = turn_at(alloc, name, at as u32, line, actors)?;
        if turns.push(actor).is_err() {
            return Err(Refusal::Memory);
        }
        at += line.len() + 1;
    }
    Ok(turns)
}

// The turn of this line, which begins at this place.
fn turn_at(alloc: Global, name: &str, at: u32, line: &[u8], actors: u16) -> Result<u16, Refusal>
    ensures exact { Gives result (turn_at name.now at (number_in actors line.now)) }
    ensures within { IfOk result (λ actor. actor < actors) }
{
    match number_in(u32::from(actors), line) {
        Some(actor) => Ok(actor as u16),
        None => Err(Refusal::Order(FileName::new(alloc, name)?, at)),
    }
}

// The bytes in front of the first line feed.
fn first_line(bytes: &[u8]) -> &[u8]
    ensures { result.now ≡ first_line bytes.now }
{
    for count in 0..bytes.len() {
        if bytes[count] == b'\n' {
            return &bytes[..count];
        }
    }
    bytes
}
