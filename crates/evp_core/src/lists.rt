//! The lists of entries between the stones of a job, with their counts.
ghost use Rattle.std.specs.Prelude.{◌≡◌, ◌<◌, length, IfOk, IfSome, IfNone, OnOk, OnErr, IfErr};
ghost use Rattle.evp_core.specs.Lists.{OneLeft, OneJoined, IsFirst, IsEmpty, IsFull, MayJoin};
ghost use Rattle.evp_core.specs.Lists.{HasLists, AreEmpty};

use crate::counts::{raise, zeros};
use crate::entries::{count, empty_lists, pop, push};
use evp_base::Memory;
use evp_queue::Placed;
use evp_stone::{Entry, Job};
use std::alloc::Global;
use std::collections::VecDeque;
use std::marker::Model;

/// The lists of entries, by stones, and for each route how many entries were taken and given.
#[derive(Drop)]
pub(crate) struct Lists<'a> {
    job: &'a Job,
    lists: Vec<VecDeque<Entry>>,
    taken: Vec<u32>,
    given: Vec<u32>,
}

impl<'a> Model for Lists<'a> {
    ghost use Rattle.evp_core.specs.Lists.{ListsShape, HasRoom, lists_of, rooms_of};

    ghost Value = { ListsShape };

    ghost use Rattle.std.specs.Coded.{codes};
    ghost use Rattle.evp_stone.specs.contracts.entry.Entry as entries;
    ghost use Rattle.evp_stone.specs.contracts.job.Job as jobs;

    ghost coded = { Prim.hlevel (codes, entries.the_row.coded, jobs.the_row.coded) };

    ghost view = { λ l. lists_of l.job.now l.lists.items l.taken.items l.given.items };

    ghost invariant = { λ l. HasRoom (lists_of l.job.now l.lists.items l.taken.items l.given.items)
        (rooms_of l.lists.items) };
}

impl<'a> Lists<'a> {
    /// Empty lists for this job.
    pub(crate) fn new(alloc: Global, job: &'a Job) -> Result<Lists<'a>, Memory>
        ensures empty { IfOk result AreEmpty }
        ensures job { IfOk result (λ lists. lists.job ≡ job.now) }
    {
        let parts = job.parts();
        let lists = empty_lists(alloc, parts.stones.len(), parts.queue as usize)?;
        let taken = zeros(alloc, parts.routes.as_slice().len())?;
        let given = zeros(alloc, parts.routes.as_slice().len())?;
        Ok(Lists {
            job,
            lists,
            taken,
            given,
        })
    }

    /// The job.
    pub(crate) fn job(&self) -> &'a Job
        ensures job { result.now ≡ self.now.job }
        ensures has { HasLists self.now }
    {
        self.job
    }

    /// Takes the first entry of a stone's list.
    pub(crate) fn take(&mut self, stone: u16) -> Option<Entry>
        requires { stone < length self.old.job.stones }
        ensures left { IfSome result (OneLeft self.old self.new stone) }
        ensures first { IfSome result (IsFirst self.old stone) }
        ensures empty { IfNone result (IsEmpty self.old stone) }
        ensures same { IfNone result (self.new ≡ self.old) }
    {
        let entry = pop(&mut self.lists, usize::from(stone))?;
        let job: &Job = self.job;
        let _kept = job.parts();
        raise(&mut self.taken, usize::from(entry.route()));
        Some(entry)
    }

    /// Puts an entry behind the others of a stone's list. It comes back where there is no room.
    pub(crate) fn give(&mut self, stone: u16, entry: Entry) -> Result<(), Entry>
        requires { MayJoin self.old stone entry }
        ensures joined { OnOk result (OneJoined self.old self.new stone entry) }
        ensures back { IfErr result (λ back. back ≡ entry) }
        ensures full { OnErr result (IsFull self.old stone) }
        ensures same { OnErr result (self.new ≡ self.old) }
    {
        let job: &Job = self.job;
        let most = job.parts().queue as usize;
        let place = usize::from(stone);
        if count(&self.lists, place) >= most {
            return Err(entry);
        }
        let route = usize::from(entry.route());
        push(&mut self.lists, place, entry);
        raise(&mut self.given, route);
        Ok(())
    }
}
