//! Why there is no graph, and why there is no list of routes.

ghost use Rattle.std.specs.Prelude.{Some};
ghost use Rattle.std.specs.List.{flat_map};
ghost use Rattle.std.specs.Fmt.{WritesOnOk};
ghost use Rattle.evp_graph.specs.Texts.{blank_and_stone, graph_fault_text, route_fault_text};

use crate::numbers::Numbers;
use std::alloc::{AllocError, AllocFailed};
use std::error::Error;
use std::fmt;

/// Why sources and targets are no graph: the first of these, in the order sources, targets, cycle.
/// Numbers of sources, stones and positions count from 0.
#[derive(Debug, Drop)]
pub enum GraphFault {
    /// Stone and position of the first target, by stones and positions, that is no stone.
    NoTarget(u16, u16),
    /// Stones that differ, each a target of the one before, the first a target of the last. The
    /// smallest stands first. Where there are several cycles it may be any.
    Cycle(Numbers),
    /// The first source whose stone is none.
    NoStone(u16),
    /// Memory ran out. All sources' stones and targets are stones; nothing is said of cycles.
    Memory,
}

impl fmt::Display for GraphFault {
    ghost output = { λ fault. Some (graph_fault_text fault) };

    fn fmt<W: fmt::Write>(&self, f: &mut fmt::Formatter<W>) -> fmt::Result {
        match self {
            GraphFault::NoTarget(stone, position) => {
                write!(f, "no target {position} of stone {stone}")
            }
            GraphFault::Cycle(stones) => {
                f.write_str("cycle")?;
                write_stones(f, stones.as_slice())
            }
            GraphFault::NoStone(source) => write!(f, "no stone of source {source}"),
            GraphFault::Memory => f.write_str("memory"),
        }
    }
}

// Writes the stones, a blank before each.
fn write_stones<W: fmt::Write>(f: &mut fmt::Formatter<W>, stones: &[u16]) -> fmt::Result
    ensures { WritesOnOk W.write_str_gives f.old result
        (flat_map blank_and_stone stones.now) f.new }
{
    for stone in stones {
        write!(f, " {stone}")?;
    }
    Ok(())
}

impl Error for GraphFault {}

impl From<AllocError> for GraphFault {
    ghost use Rattle.std.specs.Prelude.{◌≡◌};
    ghost use Rattle.evp_graph.specs.declared.fault.GraphFault.TheVariants.{Memory};

    ghost from_gives = { λ _ e. e ≡ Memory };

    fn from(_error: AllocError) -> GraphFault {
        GraphFault::Memory
    }
}

/// Why the routes of a graph aren't listed.
#[derive(Clone, Copy, Debug, PartialEq, Eq)]
pub enum RouteFault {
    /// There are more than 1,024.
    TooMany,
    /// Memory ran out.
    Memory,
}

impl fmt::Display for RouteFault {
    ghost output = { λ fault. Some (route_fault_text fault) };

    fn fmt<W: fmt::Write>(&self, f: &mut fmt::Formatter<W>) -> fmt::Result {
        match self {
            RouteFault::TooMany => f.write_str("too many routes"),
            RouteFault::Memory => f.write_str("memory"),
        }
    }
}

impl Error for RouteFault {}

impl From<AllocError> for RouteFault {
    ghost use Rattle.std.specs.Prelude.{◌≡◌};
    ghost use Rattle.evp_graph.specs.declared.fault.RouteFault.TheVariants.{Memory};

    ghost from_gives = { λ _ e. e ≡ Memory };

    fn from(_error: AllocError) -> RouteFault {
        RouteFault::Memory
    }
}

impl<T: Drop> From<AllocFailed<T>> for RouteFault {
    ghost use Rattle.std.specs.Prelude.{◌≡◌};
    ghost use Rattle.evp_graph.specs.declared.fault.RouteFault.TheVariants.{Memory};

    ghost from_gives = { λ _ e. e ≡ Memory };

    fn from(_error: AllocFailed<T>) -> RouteFault {
        RouteFault::Memory
    }
}
