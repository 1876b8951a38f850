//! The search for a cycle: depth first, with the open visits on a list of their own.

ghost use Rattle.std.specs.Prelude.{ℕ, ◌≡◌, ◌<◌, ◌^◌, length, All, IfOk, IfSome, IfNone};
ghost use Rattle.evp_graph.specs.Shape.{IsAcyclic, IsCycle, HaveTargets};
ghost use Rattle.evp_graph.specs.Search.{IsSettled, mark_of, StayDone};

use crate::numbers::Numbers;
use crate::turn;
use std::alloc::{AllocError, Global};

/// How far the search is with a stone.
#[derive(Clone, Copy)]
pub enum Mark {
    /// It wasn't reached yet.
    New,
    /// It is on the path to where the search stands.
    Open,
    /// All that it reaches was searched.
    Done,
}

/// A stone that is being searched, and the position of the target that comes next.
#[derive(Clone, Copy)]
pub struct Visit {
    pub stone: u16,
    pub position: usize,
}

/// A cycle, or `None` where no stone reaches itself.
pub fn find_cycle(alloc: Global, targets: &[Numbers]) -> Result<Option<Numbers>, AllocError>
    requires stones { length targets.now < 2 ^ 16 }
    requires positions { All (λ row. length row < 2 ^ 16) targets.now }
    requires targets { HaveTargets targets.now }
    ensures none { IfOk result (λ cycle. IfNone cycle (IsAcyclic targets.now)) }
    ensures cycle { IfOk result (λ cycle. IfSome cycle (IsCycle targets.now)) }
{
    let mut marks = vec![in alloc; Mark::New; targets.len()]?;
    for stone in 0..targets.len() {
        match marks[stone] {
            Mark::Open | Mark::Done => {}
            Mark::New => {
                if let Some(cycle) = search_from(alloc, targets, &mut marks, stone as u16)? {
                    return Ok(Some(cycle));
                }
            }
        }
    }
    Ok(None)
}

// Searches all that a new stone reaches, and marks it done. It answers the cycle that it meets.
fn search_from(
    alloc: Global,
    targets: &[Numbers],
    marks: &mut Vec<Mark>,
    start: u16,
) -> Result<Option<Numbers>, AllocError>
    requires positions { All (λ row. length row < 2 ^ 16) targets.now }
    requires targets { HaveTargets targets.now }
    requires settled { IsSettled targets.now marks.old.items }
    requires within { start < length targets.now }
    requires fresh { mark_of marks.old.items start ≡ Mark.New }
    ensures settled { IfOk result (λ cycle. IfNone cycle (IsSettled targets.now marks.new.items)) }
    ensures start { IfOk result (λ cycle.
        IfNone cycle (mark_of marks.new.items start ≡ Mark.Done)) }
    ensures kept { IfOk result (λ cycle. IfNone cycle (StayDone marks.old.items marks.new.items)) }
    ensures cycle { IfOk result (λ cycle. IfSome cycle (IsCycle targets.now)) }
{
    let mut path: Vec<Visit> = Vec::new(alloc);
    let mut here = Visit {
        stone: start,
        position: 0,
    };
    marks[start as usize] = Mark::Open;
    loop {
        let row = targets[here.stone as usize].as_slice();
        if here.position == row.len() {
            marks[here.stone as usize] = Mark::Done;
            match path.pop() {
                Some(visit) => here = visit,
                None => return Ok(None),
            }
        } else {
            let target = row[here.position];
            match marks[target as usize] {
                Mark::Done => here.position += 1,
                Mark::New => {
                    path.push(here)?;
                    marks[target as usize] = Mark::Open;
                    here = Visit {
                        stone: target,
                        position: 0,
                    };
                }
                Mark::Open => {
                    let stones = turn::stones_from(alloc, path, here.stone, target)?;
                    return Ok(Some(turn::from_smallest(stones)));
                }
            }
        }
    }
}
