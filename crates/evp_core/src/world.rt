//! Worlds.
ghost use Rattle.std.specs.Prelude.{◌≡◌, ◌+◌, ◌^◌, ◌<◌, ◌≤◌, [], length, vec_capacity, All, IfOk};
ghost use Rattle.std.specs.Prelude.{OnOk, OnErr};
ghost use Rattle.evp_core.specs.Held.{world_of, IsHeld, IsOfSame, Steps, HasPassed, HasStopped};
ghost use Rattle.evp_core.specs.Held.{AreOpening};
ghost use Rattle.evp_core.specs.Answers.{AnswersFor};
ghost use Rattle.evp_core.specs.Rotation.{all_numbers, HaveRotated, HasStoppedIn};
ghost use Rattle.evp_stone.specs.WholeAccounts.{AreAccounts};
ghost use Rattle.evp_core.specs.Moving.{AreClosed, CanGoOn};
ghost use Rattle.evp_core.specs.Turns.{turns};
ghost use Rattle.evp_core.specs.WorldShape.{HasRules, IsOpeningWorld};
ghost use Rattle.evp_core.specs.WorldTurned.{WorldTurned, HaveTurned, done_by, done_after};

use crate::lists::Lists;
use crate::reach::Reach;
use evp_base::Memory;
use evp_cache::PlanCache;
use evp_stone::{Account, Actor, Job, Turn};
use std::alloc::Global;
use std::marker::Model;

/// The actors of a job, and the lists of entries between its stones. One turn of one actor is made
/// at a time, in any order.
#[derive(Drop)]
pub struct World<'a> {
    cache: PlanCache,
    reach: Reach<'a>,
    // Sources first, then stones.
    actors: Vec<Actor>,
    // How many turns were done. At its last value it stays.
    done: u64,
    // Room for the accounts.
    room: Vec<Account>,
}

impl<'a> Model for World<'a> {
    ghost use Rattle.evp_core.specs.WorldShape.{WorldShape};

    ghost Value = { WorldShape };

    ghost use Rattle.std.specs.Coded.{codes};
    ghost use Rattle.evp_cache.specs.contracts.plan_cache.PlanCache as the_caches;
    ghost use Rattle.evp_stone.specs.contracts.entry.Entry as the_entries;
    ghost use Rattle.evp_stone.specs.contracts.job.Job as the_jobs;
    ghost use Rattle.evp_stone.specs.contracts.actor.Actor as the_actors;

    ghost coded = { Prim.hlevel (
      codes,
      the_caches.the_row.coded,
      the_entries.the_row.coded,
      the_jobs.the_row.coded,
      the_actors.the_row.coded,
    ) };

    ghost use Rattle.std.specs.Prelude.{vec_capacity};
    ghost use Rattle.evp_core.specs.Held.{world_of, HasRoomFor};

    ghost view = { λ w. world_of w.cache w.reach.lists w.actors.items w.done };

    ghost invariant = { λ w. HasRoomFor (world_of w.cache w.reach.lists w.actors.items w.done)
        w.room.items (vec_capacity w.room) };
}

// One turn of the actor of this number.
fn go(reach: &mut Reach<'_>, actors: &mut Vec<Actor>, cache: &PlanCache, number: u16) -> Turn
    requires held { IsHeld (world_of cache.now reach.old.lists actors.old.items 0) }
    requires number { number < length actors.old.items }
    ensures turned { WorldTurned (world_of cache.now reach.old.lists actors.old.items 0)
        (world_of cache.now reach.new.lists actors.new.items (done_by result 0)) number result }
    ensures held { IsHeld (world_of cache.now reach.new.lists actors.new.items
        (done_by result 0)) }
{
    let job = reach.lists.job();
    reach.begin(number);
    actors[usize::from(number)].turn(job, cache, reach)
}

// How many turns were done, behind one more.
fn done_behind(turn: Turn, done: u64) -> u64
    ensures { result ≡ done_by turn done }
{
    match turn {
        Turn::Memory => done,
        Turn::Moved | Turn::Idle | Turn::Blocked(_) | Turn::Closed => done.saturating_add(1),
    }
}

// The actors before their first turns, sources first.
fn opening(alloc: Global, job: &Job, cache: &PlanCache) -> Result<Vec<Actor>, Memory>
    ensures { IfOk result (λ actors. AreOpening job.now cache.now
        (length job.now.sources + length job.now.stones) actors.items) }
{
    let parts = job.parts();
    let count = (parts.sources.len() + parts.stones.len()) as u16;
    let mut actors = Vec::with_capacity(alloc, usize::from(count))?;
    for number in 0..count {
        actors.push(Actor::new(alloc, job, cache, number)?)?;
    }
    Ok(actors)
}

impl<'a> World<'a> {
    /// A world before its first turn: empty lists, and opening actors.
    pub fn new(alloc: Global, job: &'a Job) -> Result<World<'a>, Memory>
        ensures opens { IfOk result IsOpeningWorld }
        ensures job { IfOk result (λ world. world.lists.job ≡ job.now) }
        ensures rules { IfOk result HasRules }
    {
        let parts = job.parts();
        let cache = PlanCache::new(alloc, &parts.formats, parts.declared)?;
        let lists = Lists::new(alloc, job)?;
        let _has = lists.job();
        let actors = opening(alloc, job, &cache)?;
        let room = Vec::with_capacity(alloc, parts.stones.len())?;
        Ok(World {
            cache,
            reach: Reach::new(lists),
            actors,
            done: 0,
            room,
        })
    }

    /// One turn of the actor of this number: sources come first, then stones.
    pub fn turn(&mut self, actor: u16) -> Turn
        requires { actor < length self.old.actors }
        ensures turned { WorldTurned self.old self.new actor result }
        ensures answers { AnswersFor self.old actor result }
        ensures held { IsHeld self.new }
    {
        let turn = go(&mut self.reach, &mut self.actors, &self.cache, actor);
        self.done = done_behind(turn, self.done);
        turn
    }

    /// How many turns were done so far, but for those that found no memory. At its last value it
    /// stays.
    pub fn done(&self) -> u64
        ensures { result ≡ self.now.done }
    {
        self.done
    }

    /// While some actor isn't closed, some actor's next turn moves or finds no memory.
    pub fn goes_on(&self)
        ensures { CanGoOn self.now }
    {
        let _actors = self.count();
    }

    // One turn; whether it moved.
    fn step(&mut self, actor: u16) -> Result<bool, Memory>
        requires { actor < length self.old.actors }
        ensures steps { Steps self.old self.new actor result }
        ensures held { IsHeld self.new }
    {
        match self.turn(actor) {
            Turn::Moved => Ok(true),
            Turn::Idle | Turn::Blocked(_) | Turn::Closed => Ok(false),
            Turn::Memory => Err(Memory),
        }
    }

    /// Makes the turns of the actors of these numbers, one after another, until one finds no
    /// memory.
    pub fn run(&mut self, actors: &[u16]) -> Result<(), Memory>
        requires { All (λ actor. actor < length self.old.actors) actors.now }
        ensures turned { OnOk result (HaveTurned self.old self.new actors.now) }
        ensures stopped { OnErr result (HasStopped self.old self.new actors.now) }
        ensures done { OnOk result (self.new.done ≡ done_after (length actors.now) self.old.done) }
        ensures rules { HasRules self.new }
    {
        self.count();
        for actor in actors {
            self.step(*actor)?;
        }
        Ok(())
    }

    // How many actors there are.
    fn count(&self) -> u16
        ensures count { result ≡ length self.now.actors }
        ensures done { self.now.done < 2 ^ 64 }
        ensures held { IsHeld self.now }
    {
        let _done = self.done;
        self.actors.len() as u16
    }

    // One turn of each actor, in order; whether one moved.
    fn pass(&mut self) -> Result<bool, Memory>
        ensures passed { IfOk result (HasPassed self.old self.new) }
        ensures turned { OnOk result (HaveTurned self.old self.new (all_numbers self.old)) }
        ensures stopped { OnErr result (HasStopped self.old self.new (all_numbers self.old)) }
        ensures done { self.new.done ≤ self.old.done + length self.old.actors }
        ensures same { IsOfSame self.old self.new }
        ensures held { IsHeld self.new }
    {
        let mut moved = false;
        for actor in 0..self.count() {
            if self.step(actor)? {
                moved = true;
            }
        }
        Ok(moved)
    }

    /// Makes turns in rotation until all actors are closed, or one finds no memory.
    pub fn finish(&mut self) -> Result<(), Memory>
        ensures closed { OnOk result (AreClosed self.new) }
        ensures turned { OnOk result (HaveRotated self.old self.new) }
        ensures stopped { OnErr result (HasStoppedIn self.old self.new) }
        ensures turns { self.new.done ≤ self.old.done + turns self.old.lists.job }
        ensures same { IsOfSame self.old self.new }
        ensures rules { HasRules self.new }
    {
        self.count();
        while self.pass()? {}
        Ok(())
    }

    /// The accounts of the stones, in their order. Takes no memory.
    pub fn accounts(self) -> Vec<Account>
        requires { AreClosed self }
        ensures { AreAccounts self.entry.lists.job result.items }
    {
        let World {
            cache,
            reach,
            actors,
            room,
            ..
        } = self;
        collect(&reach, &cache, actors, room)
    }
}

// The accounts of the stones' actors, which stand behind those of the sources, in the room for
// them.
fn collect(
    reach: &Reach<'_>,
    cache: &PlanCache,
    actors: Vec<Actor>,
    mut room: Vec<Account>,
) -> Vec<Account>
    requires held { IsHeld (world_of cache.now reach.now.lists actors.items 0) }
    requires closed { AreClosed (world_of cache.now reach.now.lists actors.items 0) }
    requires none { room.items ≡ [] }
    requires enough { length reach.now.lists.job.stones ≤ vec_capacity room }
    ensures { AreAccounts reach.now.lists.job result.items }
{
    let sources = reach.lists.job().parts().sources.len();
    let mut actors = actors.into_iter();
    for _ in 0..sources {
        actors.next();
    }
    for actor in actors {
        room.push_reserved(actor.account());
    }
    room
}
