//! The list of a graph's routes.

ghost use Rattle.std.specs.Prelude.{◌≡◌, ◌<◌, ◌≤◌, ◌++◌, length, reverse, IfOk, OnOk};
ghost use Rattle.evp_graph.specs.Routes.{routes_of, ListsRoutes};
ghost use Rattle.evp_graph.specs.Ahead.{starts, extensions, first_route as first_route_of};
ghost use Rattle.evp_graph.specs.Ahead.{extension as extension_of};

use crate::fault::RouteFault;
use crate::graph::Graph;
use crate::numbers::Numbers;
use crate::route::{Route, Routes};
use std::alloc::{AllocError, Global};

// The most routes that are listed.
const MOST: usize = 1024;

/// A route that is still to be listed, and the stone where it ends.
#[derive(Drop)]
pub struct Ahead {
    pub route: Route,
    pub stone: u16,
}

/// The routes of the graph: by source, and depth first by position, a route before its extensions.
///
/// Two positions that name one stone make two routes. `TooMany` comes exactly where there are more
/// than 1,024, as soon as so many are known: in time and memory linear in what 1,024 routes take.
/// `Memory` where memory ran out before.
pub fn routes(alloc: Global, graph: &Graph) -> Result<Routes, RouteFault>
    ensures list { IfOk result (λ routes. routes ≡ routes_of graph.now) }
    ensures each_once { IfOk result (λ routes. ListsRoutes graph.now routes) }
    ensures few { IfOk result (λ routes. length routes ≤ 1024) }
    ensures too_many { result ≡ Err RouteFault.TooMany → 1024 < length (routes_of graph.now) }
{
    let targets = graph.targets();
    let sources = graph.sources();
    if sources.len() > MOST {
        return Err(RouteFault::TooMany);
    }
    let mut ahead = first_routes(alloc, sources)?;
    let mut list = Vec::new(alloc);
    while let Some(Ahead { route, stone }) = ahead.pop() {
        let row = targets[stone as usize].as_slice();
        // Those listed, this one, its extensions and those still ahead.
        if list.len() + 1 + row.len() + ahead.len() > MOST {
            return Err(RouteFault::TooMany);
        }
        push_extensions(alloc, &mut ahead, &route, row)?;
        list.push(route)?;
    }
    Ok(Routes::new(list))
}

/// However many there are, the list of a graph's routes has each of them once, in their order, and
/// none behind one that extends it.
pub fn routes_are_listed(graph: &Graph)
    ensures { ListsRoutes graph.now (routes_of graph.now) }
{
    let _sound = graph.targets();
}

// The routes of one stone, the last source's first.
fn first_routes(alloc: Global, sources: &[u16]) -> Result<Vec<Ahead>, AllocError>
    requires { length sources.now ≤ 1024 }
    ensures { IfOk result (λ ahead. ahead.items ≡ reverse (starts sources.now)) }
{
    let mut ahead = Vec::with_capacity(alloc, sources.len())?;
    let mut source = sources.len();
    while source > 0 {
        source -= 1;
        let stone = sources[source];
        let route = first_route(alloc, source as u16, stone)?;
        ahead.push(Ahead { route, stone })?;
    }
    Ok(ahead)
}

// The route of a source and its stone alone.
fn first_route(alloc: Global, source: u16, stone: u16) -> Result<Route, AllocError>
    ensures { IfOk result (λ route. route ≡ first_route_of source stone) }
{
    let mut stones = Vec::with_capacity(alloc, 1)?;
    stones.push(stone)?;
    Ok(Route {
        source,
        positions: Numbers::new(Vec::new(alloc)),
        stones: Numbers::new(stones),
    })
}

// Pushes the extensions of a route by the targets of its last stone, the last position's first.
fn push_extensions(
    alloc: Global,
    ahead: &mut Vec<Ahead>,
    route: &Route,
    row: &[u16],
) -> Result<(), AllocError>
    requires { length row.now ≤ 1024 }
    ensures { OnOk result
        (ahead.new.items ≡ ahead.old.items ++ reverse (extensions route.now row.now)) }
{
    let mut position = row.len();
    while position > 0 {
        position -= 1;
        let stone = row[position];
        let longer = extension(alloc, route, position as u16, stone)?;
        ahead.push(Ahead {
            route: longer,
            stone,
        })?;
    }
    Ok(())
}

// The route that goes on by this position to this stone.
fn extension(alloc: Global, route: &Route, position: u16, stone: u16) -> Result<Route, AllocError>
    ensures { IfOk result (λ longer. longer ≡ extension_of route.now position stone) }
{
    Ok(Route {
        source: route.source,
        positions: route.positions.with(alloc, position)?,
        stones: route.stones.with(alloc, stone)?,
    })
}
