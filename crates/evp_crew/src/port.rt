//! One actor's passes at the queues of a crew.
ghost use Rattle.std.specs.Prelude.{◌≡◌, Some};
ghost use Rattle.evp_queue.specs.declared.pass.GivePass.{GivePass as Pass};
ghost use Rattle.evp_stone.specs.JobShape.{JobShape};
ghost use Rattle.evp_stone.specs.declared.entry.Entry.{Entry as Carried};
ghost use Rattle.evp_crew.specs.Ends.{CanGive, GaveBy};
ghost use Rattle.evp_crew.specs.Passes.{AreOf};

use crate::crew::Crew;
use crate::passes::Passes;
use evp_queue::{GivePass, Given, StoneQueue};
use evp_stone::{Entry, Job, Port};
use std::marker::Model;
use std::sync::Wait;

/// The passes of an actor, at the queues of a crew.
#[derive(Drop)]
pub(crate) struct CrewPort<'a, R> {
    rt: &'a R,
    crew: &'a Crew,
    job: &'a Job,
    passes: Passes,
}

impl<'a, R> Model for CrewPort<'a, R> {
    ghost use Rattle.evp_crew.specs.Ends.{PortShape};

    ghost Value = { PortShape };

    ghost use Rattle.std.specs.Coded.{codes};
    ghost use Rattle.evp_stone.specs.contracts.job.Job as job_code;
    ghost use Rattle.evp_crew.specs.contracts.crew.Crew as crew_code;
    ghost use Rattle.evp_crew.specs.contracts.passes.Passes as passes_code;

    ghost coded = { Prim.hlevel (
      codes,
      job_code.the_row.coded,
      crew_code.the_row.coded,
      passes_code.the_row.coded,
    ) };

    ghost use Rattle.evp_crew.specs.Passes.{AreOf};

    ghost view = { λ p. record { crew = p.crew.now; job = p.job.now; passes = p.passes } };

    ghost invariant = { λ p. AreOf p.crew.now p.job.now p.passes };
}

impl<'a, R> CrewPort<'a, R> {
    // These passes at the queues of this crew.
    pub(crate) fn new(rt: &'a R, crew: &'a Crew, job: &'a Job, passes: Passes) -> CrewPort<'a, R>
        requires { AreOf crew.now job.now passes }
        ensures { result ≡ record { crew = crew.now; job = job.now; passes = passes } }
    {
        CrewPort {
            rt,
            crew,
            job,
            passes,
        }
    }

    // The passes, as they are now.
    pub(crate) fn passes(&self) -> &Passes
        ensures passes { result.now ≡ self.now.passes }
        ensures of { AreOf self.now.crew self.now.job self.now.passes }
    {
        &self.passes
    }

    // The passes.
    pub(crate) fn into_passes(self) -> Passes
        ensures passes { result ≡ self.entry.passes }
        ensures of { AreOf self.entry.crew self.entry.job self.entry.passes }
    {
        self.passes
    }
}

impl<'a, R: Wait> Port for CrewPort<'a, R> {
    ghost use Rattle.std.specs.Prelude.{◌≡◌};
    ghost use Rattle.evp_crew.specs.Passes as passes;

    ghost is_of = { λ p job. job ≡ p.job };

    ghost taken = { λ p. passes.taken_by p.passes.take };

    ghost given = { λ p. passes.given_by p.job p.passes.gives.items };

    ghost empties = { λ p. passes.empties_by p.passes.take };

    ghost fulls = { λ p. passes.fulls_by p.passes.gives.items };

    ghost moves = { λ old new. (new.crew ≡ old.crew) × (new.job ≡ old.job)
        × passes.Stay old.job old.passes new.passes };

    fn take(&mut self) -> Option<Entry> {
        let taker = self.passes.take.as_mut()?;
        self.crew.queues[usize::from(taker.stone)].take(self.rt, &mut taker.pass)
    }

    #[inline(always)]
    fn give(&mut self, target: u16, entry: Entry) -> Result<(), Given<Entry>> {
        let target = usize::from(target);
        give_by(
            self.rt,
            &self.crew.queues[target],
            &mut self.passes.gives[target],
            entry,
        )
    }
}

// Gives an entry by this giver.
#[inline(always)]
fn give_by<R: Wait>(
    rt: &R,
    queue: &StoneQueue<Entry>,
    giver: &mut Option<GivePass<Entry>>,
    entry: Entry,
) -> Result<(), Given<Entry>>
    requires { CanGive queue.now giver.old entry }
    ensures { (old : Pass Carried JobShape) → giver.old ≡ Some old
        → (new : Pass Carried JobShape) × (giver.new ≡ Some new)
        × GaveBy queue.now old new entry result }
{
    match giver {
        Some(pass) => queue.give(rt, pass, entry),
        None => unreachable!(),
    }
}
