//! The rota: the seats that no worker holds.
ghost use Rattle.std.specs.Prelude.{◌≡◌, ◌+◌, ◌<◌, length, Some, None, IfOk, IfErr, IfSome, IfNone};
ghost use Rattle.crossbeam_queue.specs.Fifo.{Held};
ghost use Rattle.crossbeam_queue.specs.Passes.{view, IsPassOf};
ghost use Rattle.evp_crew.specs.Rota.{three, three_of, room_of, ServesIn};
ghost use Rattle.evp_crew.specs.Rule.{IsServed, Seen};

use crate::crew::Crew;
use crate::rule::{Opening, Opens, Puts, Ring, Shares, Takes};
use crate::seat::Seat;
use crate::three::Three;
use crossbeam_queue::Pass;
use evp_base::Memory;
use evp_cache::PlanCache;
use evp_stone::Job;
use std::alloc::Global;
use std::marker::Brand;
use std::sync::Wait;

/// The seats that no worker holds, all of one job, one cache and one crew.
#[derive(Drop)]
pub struct Rota {
    pub(crate) ring: Ring,
}

/// The right to put seats into one rota and to take them out, for one worker.
#[derive(Drop)]
pub struct RotaPass {
    pub(crate) pass: Pass<Seat, Option<Three>>,
}

impl Rota {
    /// An empty rota for the seats of this job, cache and crew, with room for every actor, and a
    /// pass of it.
    pub fn new<R: Wait>(
        _rt: &R,
        alloc: Global,
        job: &Job,
        cache: &PlanCache,
        crew: &Crew,
    ) -> Result<(Rota, RotaPass), Memory>
        ensures room { IfOk result (λ made.
            room_of made.0 ≡ length job.now.sources + length job.now.stones) }
        ensures pass { IfOk result (λ made. ServesIn made.0 made.1) }
        ensures three { IfOk result (λ made.
            three_of made.1 ≡ Some (three job.now cache.now crew.now)) }
    {
        let parts = job.parts();
        Rota::with_room(
            alloc,
            parts.sources.len() + parts.stones.len(),
            job,
            cache,
            crew,
        )
    }

    /// The same with room for so many seats. The job, the cache and the crew serve the contract
    /// alone.
    pub(crate) fn with_room(
        alloc: Global,
        room: usize,
        job: &Job,
        cache: &PlanCache,
        crew: &Crew,
    ) -> Result<(Rota, RotaPass), Memory>
        requires { 0 < room }
        ensures room { IfOk result (λ made. room_of made.0 ≡ room) }
        ensures pass { IfOk result (λ made. ServesIn made.0 made.1) }
        ensures three { IfOk result (λ made.
            three_of made.1 ≡ Some (three job.now cache.now crew.now)) }
    {
        let (ring, mut pass) = Ring::ruled(alloc, room)?;
        open_for::<Brand>(&ring, &mut pass, job, cache, crew);
        Ok((Rota { ring }, RotaPass { pass }))
    }

    /// One more pass. It takes no memory.
    pub fn split<R: Wait>(&self, _rt: &R, pass: &mut RotaPass) -> Result<RotaPass, Memory>
        requires { ServesIn self.now pass.old }
        ensures pass { ServesIn self.now pass.new × (three_of pass.new ≡ three_of pass.old) }
        ensures more { IfOk result (λ more.
            ServesIn self.now more × (three_of more ≡ three_of pass.old)) }
    {
        let more = self.ring.another::<Shares>(&mut pass.pass);
        Ok(RotaPass { pass: more })
    }

    /// Puts a seat in. It is handed back only where the rota was full at a step of this call. It
    /// takes no memory.
    pub fn put<R: Wait>(&self, rt: &R, pass: &mut RotaPass, seat: Seat) -> Result<(), Seat>
        requires pass { ServesIn self.now pass.old }
        requires seat { IsServed (three_of pass.old) seat }
        ensures pass { ServesIn self.now pass.new × (three_of pass.new ≡ three_of pass.old) }
        ensures back { IfErr result (λ back. (back ≡ seat)
            × Held (room_of self.now) (Seen (three_of pass.old))) }
    {
        let Err(seat) = self.ring.try_push_as::<Puts>(&mut pass.pass, seat) else {
            return Ok(());
        };
        self.ring.push_as::<Puts, R>(rt, &mut pass.pass, seat)
    }

    /// Takes a seat out. None only where the rota was empty at a step of this call. It takes no
    /// memory.
    pub fn take<R: Wait>(&self, rt: &R, pass: &mut RotaPass) -> Option<Seat>
        requires { ServesIn self.now pass.old }
        ensures pass { ServesIn self.now pass.new × (three_of pass.new ≡ three_of pass.old) }
        ensures seat { IfSome result (IsServed (three_of pass.old)) }
        ensures empty { IfNone result (Held 0 (Seen (three_of pass.old))) }
    {
        if let Some(seat) = self.ring.try_pop_as::<Takes>(&mut pass.pass) {
            return Some(seat);
        }
        self.ring.pop_as::<Takes, R>(rt, &mut pass.pass)
    }
}

// The pass becomes one for the seats of this job, cache and crew.
fn open_for<K: Opening>(
    ring: &Ring,
    pass: &mut Pass<Seat, Option<Three>>,
    job: &Job,
    cache: &PlanCache,
    crew: &Crew,
)
    requires first { IsPassOf ring.now pass.old × (view pass.old ≡ None) }
    requires opening { K.three ≡ Some (three job.now cache.now crew.now) }
    ensures pass { IsPassOf ring.now pass.new
        × (view pass.new ≡ Some (three job.now cache.now crew.now)) }
{
    let _other = ring.another::<Opens<K>>(pass);
}
