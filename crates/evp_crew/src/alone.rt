//! The carrying of a job on the caller's thread.
ghost use Rattle.std.specs.Prelude.{◌≡◌, length, IfOk, IsTrue, OnOk};
ghost use Rattle.evp_cache.specs.Known.{IsCacheOf};
ghost use Rattle.evp_crew.specs.Alone.{AreInOrder, AreClosed, IsInOrder};
ghost use Rattle.evp_crew.specs.Carried.{IsCarried};
ghost use Rattle.evp_stone.specs.Closed.{IsClosed};
ghost use Rattle.evp_crew.specs.Done.{IfClosed};
ghost use Rattle.evp_crew.specs.Parting.{actors_of};
ghost use Rattle.evp_crew.specs.Rota.{three};
ghost use Rattle.evp_crew.specs.Seat.{IsSeat};

use crate::carried::Carried;
use crate::crew::Crew;
use crate::seat::Seat;
use evp_base::Memory;
use evp_cache::PlanCache;
use evp_stone::{Job, Turn};
use std::alloc::Global;
use std::sync::Wait;

/// Turns the seats of a new crew in rotation until all are closed.
pub(crate) fn alone<R: Wait>(
    rt: &R,
    alloc: Global,
    job: &Job,
    cache: &PlanCache,
) -> Result<Carried, Memory>
    requires cache { IsCacheOf cache.now job.now.formats }
    requires declared { cache.now.declared ≡ job.now.declared }
    ensures { IfOk result (IsCarried job.now) }
{
    let (crew, mut seats) = Crew::new(rt, alloc, job, cache)?;
    for _ in rt.forever() {
        if turn_each(rt, job, cache, &crew, seats.as_mut_slice())? {
            return Carried::new(alloc, job, cache, crew, seats);
        }
    }
    unreachable!()
}

// One turn of each seat. True where all are closed.
fn turn_each<R: Wait>(
    rt: &R,
    job: &Job,
    cache: &PlanCache,
    crew: &Crew,
    seats: &mut [Seat],
) -> Result<bool, Memory>
    requires { AreInOrder (three job.now cache.now crew.now) (actors_of job.now) seats.old }
    ensures order { OnOk result
        (AreInOrder (three job.now cache.now crew.now) (actors_of job.now) seats.new) }
    ensures closed { IfOk result (λ all. IsTrue all
        → AreClosed (three job.now cache.now crew.now) (length seats.new) seats.new) }
{
    let mut all = true;
    for number in 0..seats.len() {
        match turn(rt, job, cache, crew, &mut seats[number]) {
            Turn::Memory => return Err(Memory),
            Turn::Closed => {}
            Turn::Moved | Turn::Idle | Turn::Blocked(_) => all = false,
        }
    }
    Ok(all)
}

// One turn of a seat.
fn turn<R: Wait>(rt: &R, job: &Job, cache: &PlanCache, crew: &Crew, seat: &mut Seat) -> Turn
    requires { IsInOrder (three job.now cache.now crew.now) seat.old.number seat.old }
    ensures order { IsInOrder (three job.now cache.now crew.now) seat.old.number seat.new }
    ensures kept { IsSeat seat.new }
    ensures closed { IfClosed result (IsClosed job.now seat.new.actor.role) }
{
    let turn = crew.step(rt, job, cache, seat);
    let _number = seat.number();
    turn
}
