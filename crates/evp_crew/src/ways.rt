//! Which actor gives on a route, and to which stone.
ghost use Rattle.std.specs.Prelude.{◌≡◌, ◌↔◌, IfOk, IsTrue};
ghost use Rattle.evp_stone.specs.Route.{last_stone};
ghost use Rattle.evp_crew.specs.Ways.{giver_number, IsWay, AreWays};

use evp_base::Memory;
use evp_graph::Route;
use evp_stone::Job;
use std::alloc::Global;

/// The numbers of the routes that lead to a stone, and on which the actor gives where one is
/// named.
pub(crate) fn ways(
    alloc: Global,
    job: &Job,
    giver: Option<usize>,
    target: u16,
) -> Result<Vec<u16>, Memory>
    ensures { IfOk result (λ numbers. AreWays job.now giver target numbers.items) }
{
    let routes = job.parts().routes.as_slice();
    let mut numbers = Vec::new(alloc);
    for number in 0..routes.len() {
        if is_way(job, &routes[number], giver, target) {
            numbers.push(number as u16)?;
        }
    }
    Ok(numbers)
}

// Whether a route leads to a stone, and the actor gives on it where one is named.
fn is_way(job: &Job, route: &Route, giver: Option<usize>, target: u16) -> bool
    ensures { IsTrue result ↔ IsWay job.now giver target route.now }
{
    if target_of(route) != target {
        return false;
    }
    match giver {
        Some(number) => giver_of(job, route) == number,
        None => true,
    }
}

// The number of the stone to which a route leads.
fn target_of(route: &Route) -> u16
    ensures { result ≡ last_stone route.now }
{
    match route.stones.as_slice().last() {
        Some(last) => *last,
        None => 0,
    }
}

// The number of the actor that gives on a route.
fn giver_of(job: &Job, route: &Route) -> usize
    ensures { result ≡ giver_number job.now route.now }
{
    let stones = route.stones.as_slice();
    let count = stones.len();
    if count < 2 {
        return usize::from(route.source);
    }
    job.parts().sources.len() + usize::from(stones[count - 2])
}
