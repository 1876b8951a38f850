//! Seats: actors with their passes.
ghost use Rattle.std.specs.Prelude.{◌≡◌};
ghost use Rattle.evp_cache.specs.Known.{Cells};
ghost use Rattle.evp_stone.specs.Actor.{HasActed};
ghost use Rattle.evp_stone.specs.Job.{IsJob};
ghost use Rattle.evp_stone.specs.JobShape.{JobShape};
ghost use Rattle.evp_stone.specs.Port.{Counting};
ghost use Rattle.evp_stone.specs.Roles.{IsStones, IsStone, IsDone};
ghost use Rattle.evp_stone.specs.Tallied.{IsAccount};
ghost use Rattle.evp_stone.specs.Turned.{HasTurned};
ghost use Rattle.evp_crew.specs.Passes.{counts_of};
ghost use Rattle.evp_crew.specs.Seat.{IsSeat, IsOf};

use crate::crew::Crew;
use crate::passes::Passes;
use crate::port::CrewPort;
use crossbeam_utils::CachePadded;
use evp_cache::PlanCache;
use evp_stone::{Account, Actor, Job, Turn};
use std::marker::Model;
use std::mem;
use std::snapshot::Snapshot;
use std::sync::Wait;

/// An actor and its passes.
#[derive(Drop)]
pub(crate) struct Equipped {
    pub(crate) actor: Actor,
    pub(crate) passes: Passes,
}

/// An actor with its passes, between its turns.
#[derive(Drop)]
pub struct Seat {
    pub(crate) number: u16,
    // On the heap, so that a rota moves little, and on cache lines of its own, since other workers
    // write to the seats beside it.
    pub(crate) equipped: Box<CachePadded<Equipped>>,
    // For the proofs: of which job, cache and crew it is.
    pub(crate) job: Snapshot<Job>,
    pub(crate) cache: Snapshot<PlanCache>,
    pub(crate) crew: Snapshot<Crew>,
}

impl Model for Seat {
    ghost use Rattle.evp_crew.specs.Seat.{SeatShape};

    ghost Value = { SeatShape };

    ghost use Rattle.std.specs.Coded.{codes};
    ghost use Rattle.evp_cache.specs.contracts.plan_cache.PlanCache as cache_code;
    ghost use Rattle.evp_stone.specs.contracts.actor.Actor as actor_code;
    ghost use Rattle.evp_stone.specs.contracts.job.Job as job_code;
    ghost use Rattle.evp_crew.specs.contracts.crew.Crew as crew_code;
    ghost use Rattle.evp_crew.specs.contracts.passes.Passes as passes_code;

    ghost coded = { Prim.hlevel (
      codes,
      cache_code.the_row.coded,
      actor_code.the_row.coded,
      job_code.the_row.coded,
      crew_code.the_row.coded,
      passes_code.the_row.coded,
    ) };

    ghost use Rattle.evp_crew.specs.Seat.{IsSeat};
    ghost use Rattle.evp_crew.specs.Seated.{seat_of};

    ghost view = { seat_of };

    ghost invariant = { λ s. IsSeat (seat_of s) };
}

impl Seat {
    /// The number of its actor.
    pub fn number(&self) -> u16
        ensures number { result ≡ self.now.number }
        ensures kept { IsSeat self.now }
    {
        self.number
    }

    // One turn of the actor, by its passes at the queues of this crew.
    pub(crate) fn turn<R: Wait>(
        &mut self,
        rt: &R,
        job: &Job,
        cache: &PlanCache,
        crew: &Crew,
    ) -> Turn
        requires { IsOf job.now cache.now crew.now self.old }
        ensures of { IsOf job.now cache.now crew.now self.new }
        ensures number { self.new.number ≡ self.old.number }
        ensures turned { HasTurned job.now (counts_of job.now self.old.passes)
            (counts_of job.now self.new.passes) self.old.actor self.new.actor result }
    {
        let Equipped { actor, passes } = &mut **self.equipped;
        let none = Passes::none(passes.alloc);
        let mut port = CrewPort::new(rt, crew, job, mem::replace(passes, none));
        let turn = actor.turn(job, cache, &mut port);
        *passes = port.into_passes();
        turn
    }

    // The account of a stone's actor. Takes no memory.
    pub(crate) fn account(self) -> Account
        requires { IsStones self.actor.role }
        ensures stone { IsStone self.actor.role result.stone }
        ensures account { (job : JobShape) (cells : Cells) (taken given : Counting) → IsJob job
            → HasActed job cells taken given self.actor → IsDone job self.actor.role
            → IsAccount job result }
    {
        let Seat { equipped, .. } = self;
        let Equipped { actor, .. } = Box::into_inner(equipped).into_inner();
        actor.account()
    }
}
