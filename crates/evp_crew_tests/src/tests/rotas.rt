//! A rota with the seats of a source and a terminal.

ghost use Rattle.evp_crew.specs.Rota.{three_of, ServesIn};
ghost use Rattle.evp_crew.specs.Rule.{IsServed};
ghost use Rattle.std.specs.Prelude.{◌≡◌, All};

use super::{ONE, TERMINAL, document_of, job_of};
use evp_base::Memory;
use evp_cache::PlanCache;
use evp_crew::{Crew, Rota, RotaPass, Seat};
use evp_stone::Job;
use std::alloc::Global;
use std::rt::HostRuntime;
use std::sync::Wait;
use std::test::Fail;

const ROUNDS: &str = "{\"submit\":[1],\"frozen\":[]}";

// The number of the seat that is taken.
fn taken<R: Wait>(rt: &R, rota: &Rota, pass: &mut RotaPass) -> Option<u16>
    requires { ServesIn rota.now pass.old }
    ensures { ServesIn rota.now pass.new }
{
    match rota.take(rt, pass) {
        Some(seat) => Some(seat.number()),
        None => None,
    }
}

// Puts seats into the rota. False where one was handed back.
fn put_all<R: Wait>(rt: &R, rota: &Rota, pass: &mut RotaPass, seats: Vec<Seat>) -> bool
    requires pass { ServesIn rota.now pass.old }
    requires seats { All (IsServed (three_of pass.old)) seats.items }
    ensures pass { ServesIn rota.now pass.new × (three_of pass.new ≡ three_of pass.old) }
{
    for seat in seats {
        if rota.put(rt, pass, seat).is_err() {
            return false;
        }
    }
    true
}

// What three takes by a new pass give behind the puts of these seats.
fn takes<R: Wait>(
    rt: &R,
    rota: &Rota,
    pass: &mut RotaPass,
    seats: Vec<Seat>,
) -> Result<[Option<u16>; 3], Memory>
    requires pass { ServesIn rota.now pass.old }
    requires seats { All (IsServed (three_of pass.old)) seats.items }
{
    if !put_all(rt, rota, pass, seats) {
        return Err(Memory);
    }
    let mut more = rota.split(rt, pass)?;
    let first = taken(rt, rota, &mut more);
    let second = taken(rt, rota, &mut more);
    let third = taken(rt, rota, &mut more);
    Ok([first, second, third])
}

// The same of the opening seats of a job.
fn opening_takes<R: Wait>(rt: &R, alloc: Global, job: &Job) -> Result<[Option<u16>; 3], Memory> {
    let parts = job.parts();
    let cache = PlanCache::new(alloc, parts.formats.as_slice(), parts.declared)?;
    let (crew, seats) = Crew::new(rt, alloc, job, &cache)?;
    let (rota, mut pass) = Rota::new(rt, alloc, job, &cache, &crew)?;
    takes(rt, &rota, &mut pass, seats)
}

#[test]
fn two_seats_are_put_and_taken(rt: HostRuntime) -> Result<(), Fail> {
    let alloc = rt.alloc();
    let document = document_of(alloc, "", TERMINAL, ROUNDS)?;
    let job = job_of(alloc, document.as_str(), ONE).ok_or("a job")?;
    let takes = opening_takes(&rt, alloc, &job).ok().ok_or("seats")?;
    assert_eq!(rt; takes, [Some(0), Some(1), None]);
    Ok(())
}
