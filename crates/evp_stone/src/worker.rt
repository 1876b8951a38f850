//! The actor of a stone.
ghost use Rattle.std.specs.Prelude.{◌≡◌, ◌⊎◌, ◌<◌, ◌-◌, ◌==◌, if◌then◌else◌, [], None};
ghost use Rattle.std.specs.Prelude.{length};
ghost use Rattle.std.specs.VecDeque.{deque_len, deque_capacity};
ghost use Rattle.evp_cache.specs.Known.{IsCacheOf, IsPassOf};
ghost use Rattle.evp_stone.specs.Actor.{count_unended};
ghost use Rattle.evp_stone.specs.State.{HasState};
ghost use Rattle.evp_stone.specs.Seen.{seen, gives};
ghost use Rattle.evp_stone.specs.StoneTurn.{IsMet, HasGone, Holds, HandGone};
ghost use Rattle.evp_stone.specs.Turned.{counted, FirstGoes, NextComes, HasEnded};

use crate::account::RouteAccount;
use crate::asking::target_of;
use crate::dealing::deal;
use crate::entry::Entry;
use crate::job::Job;
use crate::places::place_of;
use crate::port::Port;
use crate::route_work::RouteWork;
use crate::shared::{Learnt, Shared};
use crate::turn::Turn;
use evp_queue::{Given, Placed};
use std::collections::VecDeque;

/// The actor of a stone.
#[derive(Drop)]
pub(crate) struct Worker {
    // The number of the stone.
    pub(crate) stone: u16,
    // The entries that wait to go out.
    pub(crate) waiting: VecDeque<Entry>,
    // The entry that was taken last and isn't done with.
    pub(crate) hand: Option<Entry>,
    // By the numbers of the routes that end in the stone.
    pub(crate) routes: Vec<RouteWork>,
    // How many of these have rounds to come.
    pub(crate) unended: usize,
    // Room for the accounts of these.
    pub(crate) room: Vec<RouteAccount>,
}

impl Worker {
    /// One turn: the first that can be done.
    #[inline(always)]
    pub(crate) fn turn<P: Port>(
        &mut self,
        shared: &Shared<'_>,
        learnt: &mut Learnt,
        port: &mut P,
    ) -> Turn
        requires of { P.is_of port.old shared.now.job.now }
        requires cache { IsCacheOf shared.now.cache.now shared.now.job.now.formats }
        requires declared { shared.now.cache.now.declared ≡ shared.now.job.now.declared }
        requires pass { IsPassOf shared.now.cache.now shared.now.job.now.formats learnt.old.pass }
        requires state { HasState shared.now.job.now (P.taken port.old) (P.given port.old)
            (seen self.old) }
        requires unended { self.old.unended
            ≡ count_unended (length shared.now.job.now.rounds) (seen self.old).routes }
        requires met { IsMet shared.now.job.now self.old.stone learnt.old.pass }
        ensures of { P.is_of port.new shared.now.job.now }
        ensures moves { (port.new ≡ port.old) ⊎ P.moves port.old port.new }
        ensures gone { HasGone shared.now.job.now shared.now.cache.now
            (counted (P.taken port.old) (P.given port.old) (P.empties port.old) (P.fulls port.old))
            (counted (P.taken port.new) (P.given port.new) (P.empties port.new) (P.fulls port.new))
            (seen self.old) (seen self.new) self.new.unended learnt.old.pass learnt.new.pass
            learnt.old.builds learnt.new.builds result }
        ensures room { self.new.room ≡ self.old.room }
    {
        if let Some(entry) = self.waiting.pop_front() {
            return self.give(shared.job, port, entry);
        }
        if let Some(entry) = self.hand.take() {
            return self.deal(shared, learnt, entry);
        }
        if self.unended == 0 {
            return Turn::Closed;
        }
        self.take(shared.job, port)
    }

    // Gives an entry, which was the first of those that wait.
    #[inline(always)]
    fn give<P: Port>(&mut self, job: &Job, port: &mut P, entry: Entry) -> Turn
        requires of { P.is_of port.old job.now }
        requires state { HasState job.now (P.taken port.old) (P.given port.old)
            (gives (seen self.old) entry) }
        requires room { deque_len self.old.waiting < deque_capacity self.old.waiting }
        ensures of { P.is_of port.new job.now }
        ensures moves { P.moves port.old port.new }
        ensures state { HasState job.now (P.taken port.new) (P.given port.new) (seen self.new) }
        ensures gave { FirstGoes job.now
            (counted (P.taken port.old) (P.given port.old) (P.empties port.old) (P.fulls port.old))
            (counted (P.taken port.new) (P.given port.new) (P.empties port.new) (P.fulls port.new))
            (gives (seen self.old) entry) (seen self.new) entry self.old.waiting.items result }
        ensures unended { self.new.unended ≡ self.old.unended }
        ensures room { self.new.room ≡ self.old.room }
    {
        let target = target_of(job, entry.route());
        match port.give(target, entry) {
            Ok(()) => Turn::Moved,
            Err(Given::Full(entry)) => {
                self.waiting.push_front_reserved(entry);
                Turn::Blocked(target)
            }
            Err(Given::Memory(entry)) => {
                self.waiting.push_front_reserved(entry);
                Turn::Memory
            }
        }
    }

    // Deals with an entry, which was in hand. None waits.
    fn deal(&mut self, shared: &Shared<'_>, learnt: &mut Learnt, entry: Entry) -> Turn
        requires cache { IsCacheOf shared.now.cache.now shared.now.job.now.formats }
        requires declared { shared.now.cache.now.declared ≡ shared.now.job.now.declared }
        requires pass { IsPassOf shared.now.cache.now shared.now.job.now.formats learnt.old.pass }
        requires holds { Holds shared.now.job.now (seen self.old) entry }
        requires none { self.old.waiting.items ≡ [] }
        requires unended { self.old.unended
            ≡ count_unended (length shared.now.job.now.rounds) (seen self.old).routes }
        requires met { IsMet shared.now.job.now self.old.stone learnt.old.pass }
        ensures gone { HandGone shared.now.job.now shared.now.cache.now (seen self.old)
            (seen self.new) entry self.new.unended learnt.old.pass learnt.new.pass
            learnt.old.builds learnt.new.builds result }
        ensures room { self.new.room ≡ self.old.room }
    {
        let rounds = shared.job.parts().rounds.len();
        let place = place_of(self.routes.as_slice(), entry.route());
        let work = &mut self.routes[place];
        match deal(shared, learnt, self.stone, work, &mut self.waiting, entry) {
            Ok(hand) => {
                self.hand = hand;
                let ended = self.routes[place].ended.len();
                self.unended = still_unended(self.unended, ended, rounds);
                Turn::Moved
            }
            Err(entry) => {
                self.hand = Some(entry);
                Turn::Memory
            }
        }
    }

    // Takes an entry, where none is in hand and some round is still to end.
    fn take<P: Port>(&mut self, job: &Job, port: &mut P) -> Turn
        requires of { P.is_of port.old job.now }
        requires state { HasState job.now (P.taken port.old) (P.given port.old) (seen self.old) }
        requires empty { self.old.hand ≡ None }
        requires more { HasEnded job.now (seen self.old) → ⊥ }
        ensures of { P.is_of port.new job.now }
        ensures moves { P.moves port.old port.new }
        ensures state { HasState job.now (P.taken port.new) (P.given port.new) (seen self.new) }
        ensures took { NextComes job.now
            (counted (P.taken port.old) (P.given port.old) (P.empties port.old) (P.fulls port.old))
            (counted (P.taken port.new) (P.given port.new) (P.empties port.new) (P.fulls port.new))
            (seen self.old) (seen self.new) result }
        ensures unended { self.new.unended ≡ self.old.unended }
        ensures room { self.new.room ≡ self.old.room }
    {
        match port.take() {
            Some(entry) => {
                self.hand = Some(entry);
                Turn::Moved
            }
            None => Turn::Idle,
        }
    }
}

// How many routes have rounds to come, where one of them had and has ended this many now.
fn still_unended(unended: usize, ended: usize, rounds: usize) -> usize
    requires { 0 < unended }
    ensures { result ≡ (if ended == rounds then unended - 1 else unended) }
{
    if ended == rounds {
        unended - 1
    } else {
        unended
    }
}
