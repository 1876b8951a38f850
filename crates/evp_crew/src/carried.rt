//! A job that was carried whole.
ghost use Rattle.std.specs.Prelude.{IfOk};
ghost use Rattle.evp_stone.specs.WholeAccounts.{AreAccounts};
ghost use Rattle.evp_crew.specs.Carried.{AreFirst, IsCarried};
ghost use Rattle.evp_crew.specs.Parting.{actors_of};
ghost use Rattle.evp_crew.specs.Rota.{three};

use crate::crew::Crew;
use crate::seat::Seat;
use evp_base::Memory;
use evp_cache::PlanCache;
use evp_stone::{Account, Job};
use std::alloc::Global;
use std::marker::Model;
use std::snapshot::Snapshot;

/// The crew on which a job was carried whole, and the closed seats of its actors, in their order.
#[derive(Drop)]
pub struct Carried {
    crew: Crew,
    seats: Vec<Seat>,
    sources: usize,
    // Room for the accounts.
    room: Vec<Account>,
    // For the proofs: of which job and cache the seats are.
    job: Snapshot<Job>,
    cache: Snapshot<PlanCache>,
}

impl Model for Carried {
    ghost use Rattle.evp_crew.specs.Carried.{CarriedShape};

    ghost Value = { CarriedShape };

    ghost use Rattle.std.specs.Coded.{codes};
    ghost use Rattle.evp_cache.specs.contracts.plan_cache.PlanCache as cache_code;
    ghost use Rattle.evp_stone.specs.contracts.actor.Actor as actor_code;
    ghost use Rattle.evp_stone.specs.contracts.job.Job as job_code;
    ghost use Rattle.evp_crew.specs.contracts.crew.Crew as crew_code;
    ghost use Rattle.evp_crew.specs.contracts.passes.Passes as passes_code;
    ghost use Rattle.evp_crew.specs.contracts.seat.Seat as seat_code;

    ghost coded = { Prim.hlevel (
      codes,
      cache_code.the_row.coded,
      actor_code.the_row.coded,
      job_code.the_row.coded,
      crew_code.the_row.coded,
      passes_code.the_row.coded,
      seat_code.the_row.coded,
    ) };

    ghost use Rattle.evp_crew.specs.Whole.{carried_of, HoldsWhole};

    ghost view = { carried_of };

    ghost invariant = { HoldsWhole };
}

impl Carried {
    /// What was carried on this crew, with the closed seats of all actors.
    pub(crate) fn new(
        alloc: Global,
        job: &Job,
        cache: &PlanCache,
        crew: Crew,
        seats: Vec<Seat>,
    ) -> Result<Carried, Memory>
        requires { AreFirst (three job.now cache.now crew) (actors_of job.now) seats.items }
        ensures { IfOk result (IsCarried job.now) }
    {
        let sources = job.parts().sources.len();
        let room = Vec::with_capacity(alloc, seats.len())?;
        Ok(Carried {
            crew,
            seats,
            sources,
            room,
            job: Snapshot::of(job),
            cache: Snapshot::of(cache),
        })
    }

    /// The accounts of the stones, in their order: those of the job's rounds. Takes no memory.
    pub fn accounts(self) -> Vec<Account>
        ensures { AreAccounts self.job result.items }
    {
        let Carried {
            seats,
            sources,
            mut room,
            ..
        } = self;
        for seat in seats {
            if usize::from(seat.number()) >= sources {
                room.push_reserved(seat.account());
            }
        }
        room
    }
}
