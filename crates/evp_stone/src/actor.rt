//! Actors.
ghost use Rattle.std.specs.Prelude.{◌≡◌, ◌⊎◌, ◌+◌, ◌<◌, ◌≤◌, length, IfOk, IfSome, IfNone};
ghost use Rattle.evp_cache.specs.Known.{Cells, IsCacheOf};
ghost use Rattle.evp_stone.specs.Actor.{HasRole, HasActed};
ghost use Rattle.evp_stone.specs.Ended.{AreEnded, EndsAt, route_works};
ghost use Rattle.evp_stone.specs.Job.{IsJob};
ghost use Rattle.evp_stone.specs.JobShape.{JobShape};
ghost use Rattle.evp_stone.specs.Opening.{IsNumbered, IsOpening, Opens, IsFresh};
ghost use Rattle.evp_stone.specs.Port.{Counting};
ghost use Rattle.evp_stone.specs.Roles.{role_of, HasAccountRoom, IsStones, IsStone, IsDone};
ghost use Rattle.evp_stone.specs.Roles.{CanGo, Goes};
ghost use Rattle.evp_stone.specs.Tallied.{IsAccount};
ghost use Rattle.evp_stone.specs.Turned.{counted, starved_by, HasTurned};

use crate::account::{Account, RoundAccount};
use crate::feeder::Feeder;
use crate::job::Job;
use crate::port::Port;
use crate::shared::{Learnt, Shared};
use crate::turn::Turn;
use crate::worker::Worker;
use evp_base::Memory;
use evp_cache::{CachePass, PlanCache};
use evp_plan::Builds;
use std::alloc::Global;
use std::marker::Model;

// What an actor carries: the records of a source, or those that come to a stone.
#[derive(Drop)]
enum Role {
    Source(Feeder),
    Stone(Worker),
}

/// The actor of a source or of a stone.
#[derive(Drop)]
pub struct Actor {
    role: Role,
    learnt: Learnt,
    // How many of its turns found no memory. At its last value it stays.
    starved: u64,
}

impl Model for Actor {
    ghost use Rattle.evp_stone.specs.Actor.{ActorShape};
    ghost use Rattle.evp_stone.specs.Roles.{actor_of, HasAccountRoom};

    ghost Value = { ActorShape };

    ghost view = { λ a. actor_of a.role a.learnt a.starved };

    ghost invariant = { λ a. HasAccountRoom a.role };
}

// One turn of a role.
#[inline(always)]
fn go<P: Port>(role: &mut Role, shared: &Shared<'_>, learnt: &mut Learnt, port: &mut P) -> Turn
    requires of { P.is_of port.old shared.now.job.now }
    requires can { CanGo shared.now.job.now shared.now.cache.now (P.taken port.old)
        (P.given port.old) role.old learnt.old.pass }
    ensures of { P.is_of port.new shared.now.job.now }
    ensures moves { (port.new ≡ port.old) ⊎ P.moves port.old port.new }
    ensures goes { Goes shared.now.job.now shared.now.cache.now
        (counted (P.taken port.old) (P.given port.old) (P.empties port.old) (P.fulls port.old))
        (counted (P.taken port.new) (P.given port.new) (P.empties port.new) (P.fulls port.new))
        role.old role.new learnt.old.pass learnt.new.pass learnt.old.builds learnt.new.builds
        result }
{
    match role {
        Role::Source(feeder) => feeder.turn(shared.job, port),
        Role::Stone(worker) => worker.turn(shared, learnt, port),
    }
}

// How many turns found no memory, behind one more.
fn starved_behind(turn: Turn, starved: u64) -> u64
    ensures { result ≡ starved_by turn starved }
{
    match turn {
        Turn::Memory => starved.saturating_add(1),
        Turn::Moved | Turn::Idle | Turn::Blocked(_) | Turn::Closed => starved,
    }
}

// What the actor of this number carries before its first turn.
fn opening(alloc: Global, job: &Job, number: u16) -> Result<Role, Memory>
    requires { number < length job.now.sources + length job.now.stones }
    ensures numbered { IfOk result (λ role. IsNumbered job.now number (role_of role)) }
    ensures opening { IfOk result (λ role. IsOpening (role_of role)) }
    ensures state { IfOk result (λ role. (taken given : Counting)
        → IsFresh job.now (role_of role) taken given → HasRole job.now taken given (role_of role)) }
    ensures room { IfOk result HasAccountRoom }
{
    let sources = job.parts().sources.len();
    if usize::from(number) < sources {
        return Ok(Role::Source(Feeder::new(job, number)));
    }
    let worker = Worker::opening(alloc, job, number - sources as u16)?;
    Ok(Role::Stone(worker))
}

impl Actor {
    /// The actor of this number before its first turn: actors are numbered sources first, then
    /// stones.
    pub fn new(alloc: Global, job: &Job, cache: &PlanCache, number: u16) -> Result<Actor, Memory>
        requires { number < length job.now.sources + length job.now.stones }
        ensures opens { IfOk result (Opens job.now number) }
        ensures state { IfOk result (λ actor. (taken given : Counting)
            → IsFresh job.now actor.role taken given
            → HasActed job.now cache.now taken given actor) }
    {
        let role = opening(alloc, job, number)?;
        let pass = CachePass::new(alloc, cache)?;
        let builds = Builds::new();
        Ok(Actor {
            role,
            learnt: Learnt {
                alloc,
                pass,
                builds,
            },
            starved: 0,
        })
    }

    /// One turn: the first thing that can be done, and nothing else. `Memory` leaves the actor as
    /// it was, but for the plans that it knows, the count of those that it built, and that of its
    /// turns that found no memory.
    #[inline(always)]
    pub fn turn<P: Port>(&mut self, job: &Job, cache: &PlanCache, port: &mut P) -> Turn
        requires of { P.is_of port.old job.now }
        requires cache { IsCacheOf cache.now job.now.formats }
        requires declared { cache.now.declared ≡ job.now.declared }
        requires state { HasActed job.now cache.now (P.taken port.old) (P.given port.old) self.old }
        ensures of { P.is_of port.new job.now }
        ensures moves { (port.new ≡ port.old) ⊎ P.moves port.old port.new }
        ensures state { HasActed job.now cache.now (P.taken port.new) (P.given port.new) self.new }
        ensures turned { HasTurned job.now
            (counted (P.taken port.old) (P.given port.old) (P.empties port.old) (P.fulls port.old))
            (counted (P.taken port.new) (P.given port.new) (P.empties port.new) (P.fulls port.new))
            self.old self.new result }
    {
        let shared = Shared { job, cache };
        let turn = go(&mut self.role, &shared, &mut self.learnt, port);
        // So many fit 64 bits, which is why `starved` may stay at its last value.
        let _built = self.learnt.builds.count();
        self.starved = starved_behind(turn, self.starved);
        turn
    }

    /// The account of a stone's actor: that of the job's rounds where everything is done. Takes no
    /// memory.
    pub fn account(self) -> Account
        requires { IsStones self.role }
        ensures stone { IsStone self.role result.stone }
        ensures builds { result.builds ≡ self.builds }
        ensures starved { result.starved ≡ self.starved }
        ensures account { (job : JobShape) (cells : Cells) (taken given : Counting) → IsJob job
            → HasActed job cells taken given self → IsDone job self.role → IsAccount job result }
    {
        let builds = self.builds();
        let Actor { role, starved, .. } = self;
        match role {
            Role::Source(_) => unreachable!(),
            Role::Stone(worker) => worker.account(builds, starved),
        }
    }

    /// The number of the route at a place among those that end in the actor's stone, and the
    /// accounts of the rounds that it has ended there; none behind the last, and of a source's actor.
    pub fn ended(&self, place: usize) -> Option<(u16, &[RoundAccount])>
        ensures there { IfSome result (λ found.
            EndsAt (route_works self.now.role) place found.0 found.1.now) }
        ensures behind { IfNone result (length (route_works self.now.role) ≤ place) }
        ensures accounts { (job : JobShape) (cells : Cells) (taken given : Counting)
            → HasActed job cells taken given self.now
            → IfSome result (λ found. AreEnded job found.0 found.1.now) }
    {
        match &self.role {
            Role::Source(_) => None,
            Role::Stone(worker) => worker.ended(place),
        }
    }

    // How many plans it built.
    fn builds(&self) -> u64
        ensures { result ≡ self.now.builds }
    {
        self.learnt.builds.count()
    }
}
