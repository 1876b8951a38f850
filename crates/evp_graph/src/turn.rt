//! A cycle, told from its smallest stone on.

ghost use Rattle.std.specs.Prelude.{◌<◌, ◌≤◌, length, slice_index, EachIndex, Contains, IfOk};
ghost use Rattle.evp_graph.specs.Search.{stones_back, IsTurned, IsRotated};

use crate::numbers::Numbers;
use crate::search::Visit;
use std::alloc::{AllocError, Global};

/// The stones of the open visits from the first one on, up to the newest, `here`.
pub fn stones_from(
    alloc: Global,
    mut path: Vec<Visit>,
    here: u16,
    first: u16,
) -> Result<Vec<u16>, AllocError>
    requires { Contains (stones_back path.items here) first }
    ensures { IfOk result (λ stones. IsTurned (stones_back path.items here) first stones.items) }
{
    let mut stones = Vec::new(alloc);
    let mut stone = here;
    while stone != first {
        stones.push(stone)?;
        match path.pop() {
            Some(visit) => stone = visit.stone,
            None => unreachable!(),
        }
    }
    stones.push(first)?;
    stones.reverse();
    Ok(stones)
}

/// The list, begun where its smallest number stands.
pub fn from_smallest(mut stones: Vec<u16>) -> Numbers
    requires { 0 < length stones.items }
    ensures { IsRotated stones.items result }
{
    let place = place_of_least(stones.as_slice());
    stones.rotate_left(place);
    Numbers::new(stones)
}

// The place of the first least number.
fn place_of_least(numbers: &[u16]) -> usize
    requires { 0 < length numbers.now }
    ensures within { result < length numbers.now }
    ensures least { EachIndex numbers.now
        (λ k. slice_index numbers.now result ≤ slice_index numbers.now k) }
{
    let mut least = 0;
    for (place, number) in numbers.iter().enumerate() {
        if *number < numbers[least] {
            least = place;
        }
    }
    least
}
