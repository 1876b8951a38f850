//! A crew before its actors' first turns: the queues, and the seats.
ghost use Rattle.std.specs.Prelude.{◌≡◌, ◌<◌, ◌++◌, ◌∷◌, [], Some, length, IfOk, OnOk};
ghost use Rattle.evp_cache.specs.Known.{IsCacheOf};
ghost use Rattle.evp_crew.specs.Opened.{IsQueueOf, AreNone};
ghost use Rattle.evp_crew.specs.Parting.{actors_of, AreRests, AreTakes, IsReady};
ghost use Rattle.evp_crew.specs.Parting.{IsOpening, AreOpening};

use crate::crew::Crew;
use crate::parting::shares;
use crate::passes::{Passes, Taker};
use crate::seat::{Equipped, Seat};
use crate::seating::add;
use crate::ways::ways;
use crossbeam_utils::CachePadded;
use evp_base::Memory;
use evp_cache::PlanCache;
use evp_queue::{GivePass, StoneQueue};
use evp_stone::{Actor, Entry, Job};
use std::alloc::Global;
use std::snapshot::Snapshot;
use std::sync::Wait;

/// A stone's queue and its passes.
#[derive(Drop)]
struct Queue {
    queue: StoneQueue<Entry>,
    rest: GivePass<Entry>,
    take: Taker,
}

/// The queues of stones and their passes, which aren't parted among the actors yet.
#[derive(Drop)]
pub(crate) struct Queues {
    pub(crate) crew: Crew,
    // The give passes, by the numbers of stones.
    rests: Vec<Option<GivePass<Entry>>>,
    // The take passes, by the numbers of actors.
    takes: Vec<Option<Taker>>,
}

impl Queues {
    /// The queues of all stones.
    pub(crate) fn new<R: Wait>(rt: &R, alloc: Global, job: &Job) -> Result<Queues, Memory>
        ensures rests { IfOk result (λ made. AreRests made.crew job.now 0 made.rests.items) }
        ensures takes { IfOk result (λ made. AreTakes made.crew job.now 0 made.takes.items) }
    {
        let stones = job.parts().stones.len();
        let mut made = Queues {
            crew: Crew {
                queues: Vec::with_capacity(alloc, stones)?,
            },
            rests: Vec::with_capacity(alloc, stones)?,
            takes: no_takes(alloc, job.parts().sources.len())?,
        };
        for stone in 0..stones {
            made.push(queue_of(rt, alloc, job, stone as u16)?)?;
        }
        Ok(made)
    }

    // Adds the queue of the next stone.
    fn push(&mut self, queue: Queue) -> Result<(), Memory>
        ensures queues { OnOk result
            (self.new.crew.queues.items ≡ self.old.crew.queues.items ++ queue.queue ∷ []) }
        ensures rests { OnOk result
            (self.new.rests.items ≡ self.old.rests.items ++ Some queue.rest ∷ []) }
        ensures takes { OnOk result
            (self.new.takes.items ≡ self.old.takes.items ++ Some queue.take ∷ []) }
    {
        self.crew.queues.push(queue.queue)?;
        self.rests.push(Some(queue.rest))?;
        self.takes.push(Some(queue.take))?;
        Ok(())
    }

    /// The crew, and the seats of all actors in their order: each has its part of the passes.
    pub(crate) fn seats<R: Wait>(
        self,
        rt: &R,
        alloc: Global,
        job: &Job,
        cache: &PlanCache,
    ) -> Result<(Crew, Vec<Seat>), Memory>
        requires cache { IsCacheOf cache.now job.now.formats }
        requires declared { cache.now.declared ≡ job.now.declared }
        requires rests { AreRests self.crew job.now 0 self.rests.items }
        requires takes { AreTakes self.crew job.now 0 self.takes.items }
        ensures { IfOk result (λ made.
            AreOpening job.now cache.now made.0 (actors_of job.now) made.1.items) }
    {
        let _kept = job.parts();
        let Queues {
            crew,
            mut rests,
            mut takes,
        } = self;
        let mut seats = Vec::with_capacity(alloc, takes.len())?;
        for actor in 0..takes.len() {
            let gives = shares(rt, alloc, job, &crew, actor, rests.as_mut_slice())?;
            let take = takes[actor].take();
            let passes = Passes { alloc, take, gives };
            add(
                &mut seats,
                seat(alloc, job, cache, &crew, actor as u16, passes)?,
            )?;
        }
        Ok((crew, seats))
    }
}

// The actors of so many sources take nothing.
fn no_takes(alloc: Global, sources: usize) -> Result<Vec<Option<Taker>>, Memory>
    ensures { IfOk result (λ takes. AreNone sources takes.items) }
{
    let mut takes = Vec::with_capacity(alloc, sources)?;
    for _ in 0..sources {
        takes.push(None)?;
    }
    Ok(takes)
}

// The queue of a stone.
fn queue_of<R: Wait>(rt: &R, alloc: Global, job: &Job, stone: u16) -> Result<Queue, Memory>
    ensures { IfOk result (IsQueueOf job.now stone) }
{
    let routes = ways(alloc, job, None, stone)?;
    let capacity = job.parts().queue;
    let (queue, rest, pass) = StoneQueue::new(rt, alloc, capacity, routes.as_slice(), job)?;
    let take = Taker { stone, pass };
    Ok(Queue { queue, rest, take })
}

// The seat of an actor that hasn't had a turn.
fn seat(
    alloc: Global,
    job: &Job,
    cache: &PlanCache,
    crew: &Crew,
    number: u16,
    passes: Passes,
) -> Result<Seat, Memory>
    requires number { number < actors_of job.now }
    requires cache { IsCacheOf cache.now job.now.formats }
    requires declared { cache.now.declared ≡ job.now.declared }
    requires ready { IsReady crew.now job.now number passes }
    ensures { IfOk result (IsOpening job.now cache.now crew.now number) }
{
    let _kept = job.parts();
    let actor = Actor::new(alloc, job, cache, number)?;
    let equipped = CachePadded::new(Equipped { actor, passes });
    let equipped = Box::new(alloc, equipped)?;
    Ok(Seat {
        number,
        equipped,
        job: Snapshot::of(job),
        cache: Snapshot::of(cache),
        crew: Snapshot::of(crew),
    })
}
