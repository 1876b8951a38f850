//! Graphs of stones.

ghost use Rattle.std.specs.Prelude.{◌≡◌, ◌<◌, ◌^◌, length, All, IfOk, IfErr, OnOk};

use crate::fault::GraphFault;
use crate::numbers::Numbers;
use crate::{places, search};
use std::alloc::{AllocError, Global};
use std::marker::Model;

/// Sources, each with the stone that it leads to, and stones, each with its targets by position.
///
/// No stone reaches itself along targets. Sources, stones and positions are counted from 0.
#[derive(Drop)]
pub struct Graph {
    sources: Numbers,
    targets: Vec<Numbers>,
}

impl Model for Graph {
    ghost use Rattle.evp_graph.specs.Shape.{Shape, shape, IsSound};

    ghost Value = { Shape };

    ghost view = { λ g. shape g.sources g.targets.items };

    ghost invariant = { λ g. IsSound (shape g.sources g.targets.items) };
}

impl Graph {
    ghost use Rattle.evp_graph.specs.Shape.{shape, IsSound};
    ghost use Rattle.evp_graph.specs.Fault.{IsFault, RulesOut};

    /// The graph of these sources, each with its stone, and these stones, each with its targets.
    ///
    /// It is refused with `NoStone` where a source's stone is none, else with `NoTarget` where a
    /// target is none, else with `Cycle` where a stone reaches itself along targets; with `Memory`
    /// where memory ran out, which comes behind the first two. It takes time linear in stones and
    /// targets, and no recursion.
    pub fn new(alloc: Global, sources: &[u16], targets: &[Numbers]) -> Result<Graph, GraphFault>
        requires sources { length sources.now < 2 ^ 16 }
        requires stones { length targets.now < 2 ^ 16 }
        requires positions { All (λ row. length row < 2 ^ 16) targets.now }
        ensures ok { IfOk result (λ graph. graph ≡ shape sources.now targets.now) }
        ensures sound { OnOk result (IsSound (shape sources.now targets.now)) }

        // Each fault but `Memory` rules a graph out, which the last clause says in so many words.
        ensures fault { IfErr result (IsFault (shape sources.now targets.now)) }
        ensures unsound { IfErr result (RulesOut (shape sources.now targets.now)) }
    {
        places::check(sources, targets)?;
        if let Some(cycle) = search::find_cycle(alloc, targets)? {
            return Err(GraphFault::Cycle(cycle));
        }
        let sources = Numbers::new(Vec::from_slice(alloc, sources)?);
        let targets = copy_all(alloc, targets)?;
        Ok(Graph { sources, targets })
    }

    /// The stone of each source.
    pub fn sources(&self) -> &[u16]
        ensures { result.now ≡ self.now.sources }
    {
        self.sources.as_slice()
    }

    /// The targets of each stone by position.
    pub fn targets(&self) -> &[Numbers]
        ensures same { result.now ≡ self.now.targets }
        ensures sound { IsSound self.now }
    {
        self.targets.as_slice()
    }
}

// Copies of the lists.
fn copy_all(alloc: Global, lists: &[Numbers]) -> Result<Vec<Numbers>, AllocError>
    ensures { IfOk result (λ copies. copies.items ≡ lists.now) }
{
    let mut copies = Vec::with_capacity(alloc, lists.len())?;
    for list in lists {
        copies.push(list.copy(alloc)?)?;
    }
    Ok(copies)
}
