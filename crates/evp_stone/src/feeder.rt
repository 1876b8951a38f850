//! The actor of a source.
ghost use Rattle.std.specs.Prelude.{◌≡◌, ◌<◌, ◌⊎◌, [], Some, length, IfOk};
ghost use Rattle.evp_stone.specs.Fed.{fed, submitted_in, HasMore, IsToCome, behind_next};
ghost use Rattle.evp_stone.specs.Feeding.{HasFed, to_come};
ghost use Rattle.evp_stone.specs.Port.{Counting};
ghost use Rattle.evp_stone.specs.Starting.{IsAlong};
ghost use Rattle.evp_stone.specs.Turned.{counted, SourceGoes};

use crate::asking::{number_along, target_of};
use crate::entry::Entry;
use crate::job::Job;
use crate::port::Port;
use crate::turn::Turn;
use evp_queue::Given;
use std::alloc::AllocError;
use std::sync::Arc;

/// The actor of a source.
#[derive(Drop)]
pub(crate) struct Feeder {
    // The number of the source, and that of the route to its stone.
    source: u16,
    route: u16,
    // How many entries it has given.
    given: u32,
    // The round in which it is, how many of the round's records it has still to give, and the index
    // of the next one.
    round: u32,
    left: u32,
    index: u32,
}

// How many records a source submits in a round. Behind the last round none.
fn submitted(job: &Job, source: u16, round: u32) -> u32
    requires { source < length job.now.sources }
    ensures { result ≡ submitted_in job.now source round }
{
    let rounds = &job.parts().rounds;
    let round = round as usize;
    if round >= rounds.len() {
        return 0;
    }
    rounds[round].submit.as_slice()[usize::from(source)]
}

impl Feeder {
    /// The actor of the source of this number before its first turn. Takes no memory.
    pub(crate) fn new(job: &Job, source: u16) -> Feeder
        requires { source < length job.now.sources }
        ensures source { (fed result).source ≡ source }
        ensures route { IsAlong job.now source [] (fed result).route }
        ensures given { (fed result).given ≡ 0 }
        ensures state { (given : Counting) → given (fed result).route ≡ Some 0
            → HasFed job.now given (fed result) }
    {
        let _kept = job.parts();
        Feeder {
            source,
            route: number_along(job, source, &[]),
            given: 0,
            round: 0,
            left: submitted(job, source, 0),
            index: 0,
        }
    }

    /// One turn: gives the next entry.
    pub(crate) fn turn<P: Port>(&mut self, job: &Job, port: &mut P) -> Turn
        requires of { P.is_of port.old job.now }
        requires state { HasFed job.now (P.given port.old) (fed self.old) }
        ensures of { P.is_of port.new job.now }
        ensures moves { (port.new ≡ port.old) ⊎ P.moves port.old port.new }
        ensures state { HasFed job.now (P.given port.new) (fed self.new) }
        ensures turned { SourceGoes job.now
            (counted (P.taken port.old) (P.given port.old) (P.empties port.old) (P.fulls port.old))
            (counted (P.taken port.new) (P.given port.new) (P.empties port.new) (P.fulls port.new))
            (fed self.old) (fed self.new) (to_come job.now (fed self.old)) result }
    {
        if self.round as usize >= job.parts().rounds.len() {
            return Turn::Closed;
        }
        match self.next(job) {
            Ok(entry) => self.give(job, port, entry),
            Err(_) => Turn::Memory,
        }
    }

    // The next entry.
    fn next(&self, job: &Job) -> Result<Entry, AllocError>
        requires { HasMore job.now (fed self.now) }
        ensures { IfOk result (IsToCome job.now (fed self.now)) }
    {
        if self.left == 0 {
            return Ok(Entry::Mark(self.route, self.given, self.round));
        }
        let source = &job.parts().sources[usize::from(self.source)];
        let owned = Arc::try_clone(&source.items.as_slice()[self.index as usize])?;
        Ok(Entry::Item(self.route, self.given, self.index, owned))
    }

    // Gives the next entry, which is dropped where it isn't given.
    fn give<P: Port>(&mut self, job: &Job, port: &mut P, entry: Entry) -> Turn
        requires of { P.is_of port.old job.now }
        requires state { HasFed job.now (P.given port.old) (fed self.old) }
        requires more { HasMore job.now (fed self.old) }
        requires next { IsToCome job.now (fed self.old) entry }
        ensures of { P.is_of port.new job.now }
        ensures moves { P.moves port.old port.new }
        ensures state { HasFed job.now (P.given port.new) (fed self.new) }
        ensures turned { SourceGoes job.now
            (counted (P.taken port.old) (P.given port.old) (P.empties port.old) (P.fulls port.old))
            (counted (P.taken port.new) (P.given port.new) (P.empties port.new) (P.fulls port.new))
            (fed self.old) (fed self.new) (to_come job.now (fed self.old)) result }
    {
        let target = target_of(job, self.route);
        match port.give(target, entry) {
            Ok(()) => {
                self.go_on(job);
                Turn::Moved
            }
            Err(Given::Full(_)) => Turn::Blocked(target),
            Err(Given::Memory(_)) => Turn::Memory,
        }
    }

    // Goes on behind the next entry.
    fn go_on(&mut self, job: &Job)
        requires { HasMore job.now (fed self.old) }
        ensures { fed self.new ≡ behind_next job.now (fed self.old) }
    {
        self.given += 1;
        if self.left == 0 {
            self.round += 1;
            self.left = submitted(job, self.source, self.round);
        } else {
            self.left -= 1;
            self.index += 1;
        }
    }
}
