//! The queues of a job's stones.
ghost use Rattle.std.specs.Prelude.{◌≡◌, IfOk};
ghost use Rattle.evp_cache.specs.Known.{IsCacheOf};
ghost use Rattle.evp_stone.specs.Turned.{HasTurned};
ghost use Rattle.evp_crew.specs.Parting.{actors_of, AreOpening};
ghost use Rattle.evp_crew.specs.Passes.{counts_of};
ghost use Rattle.evp_crew.specs.Seat.{IsOf};

use crate::opening::Queues;
use crate::seat::Seat;
use evp_base::Memory;
use evp_cache::PlanCache;
use evp_queue::StoneQueue;
use evp_stone::{Entry, Job, Turn};
use std::alloc::Global;
use std::sync::Wait;

/// The queues of a job's stones, by their numbers.
#[derive(Drop)]
pub struct Crew {
    pub(crate) queues: Vec<StoneQueue<Entry>>,
}

impl Crew {
    /// The queues of a job's stones, and the seats of its actors, in the order of actors: sources
    /// first, then stones. No actor has had a turn.
    pub fn new<R: Wait>(
        rt: &R,
        alloc: Global,
        job: &Job,
        cache: &PlanCache,
    ) -> Result<(Crew, Vec<Seat>), Memory>
        requires cache { IsCacheOf cache.now job.now.formats }
        requires declared { cache.now.declared ≡ job.now.declared }
        ensures { IfOk result (λ made.
            AreOpening job.now cache.now made.0 (actors_of job.now) made.1.items) }
    {
        Queues::new(rt, alloc, job)?.seats(rt, alloc, job, cache)
    }

    /// One turn of the seat's actor over these queues.
    pub fn step<R: Wait>(&self, rt: &R, job: &Job, cache: &PlanCache, seat: &mut Seat) -> Turn
        requires { IsOf job.now cache.now self.now seat.old }
        ensures of { IsOf job.now cache.now self.now seat.new }
        ensures number { seat.new.number ≡ seat.old.number }
        ensures turned { HasTurned job.now (counts_of job.now seat.old.passes)
            (counts_of job.now seat.new.passes) seat.old.actor seat.new.actor result }
    {
        seat.turn(rt, job, cache, self)
    }
}
