//! Which seat a worker tries next.
ghost use Rattle.std.specs.Prelude.{◌<◌, IfSome};

use arrayvec::ArrayVec;
use evp_stone::Turn;
use std::thread;

// How many of the seats to which it went on a worker remembers, at most.
const MOST_FOLLOWED: usize = 12;

/// Which rota a worker tries next. Where there is one for each seat, some of them are its own: those
/// that stand as far apart as there are workers. It stays with one of these while that has something
/// to do, sources first. From one that waits for a full queue it goes to the stone of that queue, and
/// so on, and then comes back the same way: so records go through the graph by few at a time, and
/// what is needed for them lies near it. Where another worker has such a seat it begins anew with its
/// own. While none of its own moves anything it goes through all, so no seat waits for a worker that
/// stands still. Where there is one rota for all seats, it is that one.
#[derive(Drop)]
pub(crate) struct Course {
    // How far its own seats stand apart, how many they are, and the first of them.
    apart: usize,
    count: usize,
    first: usize,
    // That one of its own with which it stays, and the next of all.
    own: usize,
    any: usize,
    // The seats to which it went on, each since the one before waits for it.
    followed: ArrayVec<usize, MOST_FOLLOWED>,
    // How many seats in a row moved nothing or weren't there.
    pub(crate) idle: u32,
    // How many in a row weren't there.
    missing: u32,
}

impl Course {
    /// That of the worker of this number, of so many, through so many seats.
    pub(crate) fn new(number: u32, workers: u32, seats: usize) -> Course {
        let apart = seats.min(workers as usize).max(1);
        let first = number as usize % apart;
        Course {
            apart,
            count: seats / apart,
            first,
            own: first,
            any: 0,
            followed: ArrayVec::new(),
            idle: 0,
            missing: 0,
        }
    }

    /// The number of the seat that it tries, of so many. None where none was there for so long that
    /// it had tried each of them.
    pub(crate) fn next(&mut self, seats: usize) -> Option<usize>
        ensures { IfSome result (λ number. number < seats) }
    {
        if self.missing as usize > seats.saturating_sub(1).saturating_mul(4) {
            return None;
        }
        let number = match self.followed.last() {
            Some(number) => *number,
            None if self.idle as usize > self.count => self.next_of_all(seats),
            None => self.own,
        };
        if number < seats { Some(number) } else { None }
    }

    // The next of all. Other threads run where it has gone through them.
    fn next_of_all(&mut self, seats: usize) -> usize {
        let number = self.any;
        self.any = number.saturating_add(1);
        if self.any >= seats {
            self.any = 0;
            thread::yield_now();
        }
        number
    }

    // The next of its own, of so many seats.
    fn go_on(&mut self, seats: usize) {
        let further = self.own.saturating_add(self.apart);
        self.own = if further < seats { further } else { self.first };
    }

    /// The seat that it tried, of so many, wasn't there.
    pub(crate) fn missed(&mut self, seats: usize) {
        self.missing = self.missing.saturating_add(1);
        self.idle = self.idle.saturating_add(1);
        if self.followed.is_empty() {
            self.go_on(seats);
        }
        self.followed.clear();
    }

    /// The last turn of the seat that it tried, of so many, was this. So many of them are sources'.
    pub(crate) fn left(&mut self, turn: Turn, seats: usize, sources: usize) {
        self.missing = 0;
        match turn {
            Turn::Blocked(target) if seats > 1 => {
                self.follow(sources.saturating_add(usize::from(target)))
            }
            _ => self.come_back(turn, seats),
        }
    }

    // Goes on to a seat for which the last one waits. Where it has gone far, it won't come back to
    // the last one.
    fn follow(&mut self, number: usize) {
        if self.followed.is_full() {
            let _last = self.followed.pop();
        }
        self.followed.push(number);
    }

    // Comes back to the seat that waited for the last one, or stays with one of its own that moved.
    fn come_back(&mut self, turn: Turn, seats: usize) {
        if self.followed.pop().is_none() && turn != Turn::Moved {
            self.go_on(seats);
        }
    }
}
