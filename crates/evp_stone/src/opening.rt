//! The actor of a stone before its first turn.
ghost use Rattle.std.specs.Prelude.{◌≡◌, ◌<◌, ◌++◌, ◌∷◌, [], length, map, Contains, IfOk, OnOk};
ghost use Rattle.evp_stone.specs.Actor.{works, count_unended};
ghost use Rattle.evp_stone.specs.Closing.{HasRoomFor};
ghost use Rattle.evp_stone.specs.Job.{IsJob};
ghost use Rattle.evp_stone.specs.Opening.{IsOpening, IsFresh};
ghost use Rattle.evp_stone.specs.Port.{Counting, LeadsTo};
ghost use Rattle.evp_stone.specs.Seen.{seen};
ghost use Rattle.evp_stone.specs.Settling.{work_of};
ghost use Rattle.evp_stone.specs.Starting.{IsUnused, AreUnused, Starts, AreStarting, width_of};
ghost use Rattle.evp_stone.specs.State.{HasState};
ghost use Rattle.evp_stone.specs.Working.{outlet_of, outlets_of};

use crate::account::RoundAccount;
use crate::asking::{number_along, target_of};
use crate::job::Job;
use crate::outlet::Outlet;
use crate::route_work::RouteWork;
use crate::worker::Worker;
use evp_base::Memory;
use evp_graph::Route;
use std::alloc::Global;
use std::collections::VecDeque;

impl Worker {
    /// The actor of a stone before its first turn.
    pub(crate) fn opening(alloc: Global, job: &Job, stone: u16) -> Result<Worker, Memory>
        requires { stone < length job.now.stones }
        ensures stone { IfOk result (λ worker. (seen worker).stone ≡ stone) }
        ensures opening { IfOk result (λ worker. IsOpening (works (seen worker) worker.unended)) }
        ensures unended { IfOk result (λ worker.
            worker.unended ≡ count_unended (length job.now.rounds) (seen worker).routes) }
        ensures state { IfOk result (λ worker. (taken given : Counting)
            → IsFresh job.now (works (seen worker) worker.unended) taken given
            → HasState job.now taken given (seen worker)) }
        ensures room { IfOk result HasRoomFor }
    {
        let routes = starting(alloc, job, stone)?;
        let unended = routes.len();
        let room = Vec::with_capacity(alloc, unended)?;
        Ok(Worker {
            stone,
            waiting: VecDeque::new(alloc),
            hand: None,
            routes,
            unended,
            room,
        })
    }
}

// What a stone has on each of the routes that end in it.
fn starting(alloc: Global, job: &Job, stone: u16) -> Result<Vec<RouteWork>, Memory>
    requires { stone < length job.now.stones }
    ensures start { IfOk result (λ works. AreStarting job.now stone (map work_of works.items)) }
    ensures unended { IfOk result (λ works.
        count_unended (length job.now.rounds) (map work_of works.items) ≡ length works.items) }
{
    let routes = job.parts().routes.as_slice();
    let mut works = Vec::new(alloc);
    for number in 0..routes.len() {
        if target_of(job, number as u16) == stone {
            push(&mut works, untouched(alloc, job, stone, number as u16)?)?;
        }
    }
    Ok(works)
}

// Adds a route at the end.
fn push(works: &mut Vec<RouteWork>, work: RouteWork) -> Result<(), Memory>
    ensures { OnOk result
        (map work_of works.new.items ≡ map work_of works.old.items ++ work_of work ∷ []) }
{
    Ok(works.push(work)?)
}

// What a stone has on a route that ends in it.
fn untouched(alloc: Global, job: &Job, stone: u16, number: u16) -> Result<RouteWork, Memory>
    requires stone { stone < length job.now.stones }
    requires leads { LeadsTo job.now number stone }
    ensures number { IfOk result (λ work. work.route ≡ number) }
    ensures starts { IfOk result (λ work. Starts job.now stone (work_of work)) }
{
    let parts = job.parts();
    let route = &parts.routes.as_slice()[usize::from(number)];
    let targets = parts.stones[usize::from(stone)].targets.as_slice();
    Ok(RouteWork {
        route: number,
        outlets: unused(alloc, job, route, targets.len() as u16)?,
        kept: VecDeque::new(alloc),
        ended: Vec::new(alloc),
        running: RoundAccount::new(alloc),
    })
}

// The outlets of a route whose last stone has so many target positions.
fn unused(alloc: Global, job: &Job, route: &Route, width: u16) -> Result<Vec<Outlet>, Memory>
    requires job { IsJob job.now }
    requires there { Contains job.now.routes route.now }
    requires width { width ≡ width_of job.now route.now }
    ensures { IfOk result (λ outlets. AreUnused job.now route.now (outlets_of outlets.items)) }
{
    let mut outlets = Vec::with_capacity(alloc, usize::from(width))?;
    for position in 0..width {
        outlets.push(outlet(alloc, job, route, position)?)?;
    }
    Ok(outlets)
}

// The outlet of a route at a target position of its last stone.
fn outlet(alloc: Global, job: &Job, route: &Route, position: u16) -> Result<Outlet, Memory>
    requires job { IsJob job.now }
    requires there { Contains job.now.routes route.now }
    requires within { position < width_of job.now route.now }
    ensures { IfOk result (λ outlet. IsUnused job.now route.now position (outlet_of outlet)) }
{
    let positions = route.positions.with(alloc, position)?;
    let longer = number_along(job, route.source, positions.as_slice());
    Ok(Outlet {
        route: longer,
        lined: 0,
    })
}
