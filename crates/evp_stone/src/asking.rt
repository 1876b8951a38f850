//! What an actor asks of its job.
ghost use Rattle.std.specs.Prelude.{◌≡◌, ℕ, ◌<◌, ◌↔◌, Some, length, slice_get, IsTrue};
ghost use Rattle.evp_graph.specs.declared.route.Route.{Route};
ghost use Rattle.evp_stone.specs.Route.{last_stone, last_of};
ghost use Rattle.evp_stone.specs.Starting.{IsAlong};
ghost use Rattle.evp_queue.specs.Counts as among;
ghost use Rattle.evp_stone.specs.State as state;

use crate::job::Job;
use evp_graph::Route;

// Whether the number is among these.
fn is_among(numbers: &[u16], number: u16) -> bool
    ensures { result ≡ among.is_among number numbers.now }
{
    for other in numbers {
        if *other == number {
            return true;
        }
    }
    false
}

// The last of the numbers.
fn last_of_all(numbers: &[u16]) -> u16
    ensures { result ≡ last_of numbers.now }
{
    match numbers.last() {
        Some(last) => *last,
        None => 0,
    }
}

/// The number of the stone to which a route leads.
pub(crate) fn target_of(job: &Job, number: u16) -> u16
    requires { number < length job.now.routes }
    ensures { (route : Route) → slice_get job.now.routes number ≡ Some route
        → result ≡ last_stone route }
{
    last_of_all(
        job.parts().routes.as_slice()[usize::from(number)]
            .stones
            .as_slice(),
    )
}

/// Whether a stone is frozen in a round. Behind the last round it is.
pub(crate) fn is_frozen(job: &Job, stone: u16, round: usize) -> bool
    ensures { result ≡ state.is_frozen job.now stone round }
{
    let rounds = &job.parts().rounds;
    if round >= rounds.len() {
        return true;
    }
    is_among(rounds[round].frozen.as_slice(), stone)
}

/// The number of the route from a source along positions, which is there.
pub(crate) fn number_along(job: &Job, source: u16, positions: &[u16]) -> u16
    requires { (number : ℕ) × IsAlong job.now source positions.now number }
    ensures { IsAlong job.now source positions.now result }
{
    let routes = job.parts().routes.as_slice();
    for number in 0..routes.len() {
        if is_along(&routes[number], source, positions) {
            return number as u16;
        }
    }
    unreachable!()
}

// Whether a route is that from a source along positions.
fn is_along(route: &Route, source: u16, positions: &[u16]) -> bool
    ensures { IsTrue result ↔ ((route.now.source ≡ source)
        × (route.now.positions ≡ positions.now)) }
{
    route.source == source && route.positions.as_slice() == positions
}
