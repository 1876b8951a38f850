//! The first number that should be a stone and is none.

ghost use Rattle.std.specs.Prelude.{◌<◌, ◌^◌, length, All, OnOk, IfErr, MatchOption};
ghost use Rattle.evp_graph.specs.Shape.{shape, AreStones, HaveTargets};
ghost use Rattle.evp_graph.specs.Fault.{IsFirstOutside, IsFirstLost, IsFault, RulesOut};

use crate::fault::GraphFault;
use crate::numbers::Numbers;

/// Looks at the sources' stones, and then at the targets.
pub fn check(sources: &[u16], targets: &[Numbers]) -> Result<(), GraphFault>
    requires sources { length sources.now < 2 ^ 16 }
    requires stones { length targets.now < 2 ^ 16 }
    requires positions { All (λ row. length row < 2 ^ 16) targets.now }
    ensures sources { OnOk result (AreStones (length targets.now) sources.now) }
    ensures targets { OnOk result (HaveTargets targets.now) }
    ensures fault { IfErr result (IsFault (shape sources.now targets.now)) }
    ensures unsound { IfErr result (RulesOut (shape sources.now targets.now)) }
{
    if let Some(source) = first_outside(sources, targets.len()) {
        return Err(GraphFault::NoStone(source as u16));
    }
    if let Some((stone, position)) = first_lost(targets) {
        return Err(GraphFault::NoTarget(stone as u16, position as u16));
    }
    Ok(())
}

// The place of the first number that is none of so many stones.
fn first_outside(numbers: &[u16], stones: usize) -> Option<usize>
    ensures { MatchOption result (AreStones stones numbers.now)
        (IsFirstOutside stones numbers.now) }
{
    for (place, number) in numbers.iter().enumerate() {
        if *number as usize >= stones {
            return Some(place);
        }
    }
    None
}

// The stone and the position of the first target that is no stone.
fn first_lost(targets: &[Numbers]) -> Option<(usize, usize)>
    ensures { MatchOption result (HaveTargets targets.now)
        (λ place. IsFirstLost targets.now place.0 place.1) }
{
    for (stone, row) in targets.iter().enumerate() {
        if let Some(position) = first_outside(row.as_slice(), targets.len()) {
            return Some((stone, position));
        }
    }
    None
}
