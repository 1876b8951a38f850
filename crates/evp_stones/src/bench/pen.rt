//! The hash of a report, as far as its texts are told.
ghost use Rattle.std.specs.Prelude.{◌≡◌, ◌<◌, ◌≤◌, ◌+◌, ◌^◌, ◌++◌, length, MatchBool};
ghost use Rattle.sha2.specs.Sha256.{sha256};
ghost use Rattle.evp_report.specs.Report.{report, round_line, routes_lines, StandFrom};
ghost use Rattle.evp_stones.specs.Told.{left_of};

use super::hashing::Hashing;
use super::lines::Lines;
use super::told::OfJob;
use crate::carried::Carried;
use evp_graph::Route;
use evp_report::write_round_line;
use std::marker::PhantomData;

/// The hash of a report's first rounds and, of the next one, of so many of its lines: its own first,
/// and then those of each route.
#[derive(Drop)]
pub(super) struct Pen<J: OfJob> {
    hashed: Hashing,
    round: usize,
    place: usize,
    of: PhantomData<J>,
    ghost so_far: { hashed ++ left_of J.job round place ≡ report J.job },
    ghost round_is: { round ≤ length J.job.rounds },
    ghost place_is: { place ≤ length J.job.routes },
    ghost last: { round ≡ length J.job.rounds → place ≡ 0 },
}

impl<J: OfJob> Pen<J> {
    /// Nothing was hashed.
    pub(super) fn new() -> Pen<J> {
        Pen {
            hashed: Hashing::new(),
            round: 0,
            place: 0,
            of: PhantomData,
        }
    }

    /// Hashes what comes next, where it is told. False where it isn't, and behind the report's end.
    pub(super) fn go_on(&mut self, lines: &Lines<J>) -> bool {
        let routes = lines.routes();
        if self.round >= lines.rounds() {
            return false;
        }
        if !add_told(&mut self.hashed, lines, self.round, self.place) {
            return false;
        }
        if self.place < routes {
            self.place += 1;
        } else {
            self.round += 1;
            self.place = 0;
        }
        true
    }

    /// The SHA-256 of the report. What wasn't told is written by the accounts.
    pub(super) fn digest(self, carried: &Carried) -> [u8; 32]
        requires { J.job ≡ carried.now }
        ensures { result ≡ sha256 (report carried.now) }
    {
        let Pen {
            mut hashed,
            round,
            mut place,
            ..
        } = self;
        for round in round..carried.rounds() {
            add_rest(&mut hashed, carried, round, place);
            place = 0;
        }
        hashed.digest()
    }
}

// What comes next behind a round's first lines, where it is told. False where it isn't.
fn add_told<J: OfJob>(hashed: &mut Hashing, lines: &Lines<J>, round: usize, place: usize) -> bool
    requires round { round < length J.job.rounds }
    requires place { place ≤ length J.job.routes }
    ensures { MatchBool result (hashed.new ++ left_of J.job round (place + 1)
        ≡ hashed.old ++ left_of J.job round place) (hashed.new ≡ hashed.old) }
{
    if place == 0 {
        add_line(hashed, round);
        return true;
    }
    match lines.told(place - 1, round) {
        None => false,
        Some(text) => {
            hashed.add(text);
            true
        }
    }
}

// The lines of a round from a place on.
fn add_rest(hashed: &mut Hashing, carried: &Carried, round: usize, place: usize)
    requires round { round < length carried.now.rounds }
    requires place { place ≤ length carried.now.routes }
    ensures { hashed.new ++ left_of carried.now (round + 1) 0
        ≡ hashed.old ++ left_of carried.now round place }
{
    if place == 0 {
        add_line(hashed, round);
        add_routes(hashed, carried, round, 0, carried.all_routes());
        return;
    }
    let from = place - 1;
    let (_, rest) = carried.all_routes().split_at(from);
    add_routes(hashed, carried, round, from, rest);
}

// A round's line.
fn add_line(hashed: &mut Hashing, round: usize)
    ensures { hashed.new ≡ hashed.old ++ round_line round }
{
    match write_round_line(round, hashed) {
        Ok(()) => {}
        Err(_) => unreachable!(),
    }
}

// The lines that some routes have in a round; the routes are those of the job from number `from` on.
fn add_routes(hashed: &mut Hashing, carried: &Carried, round: usize, from: usize, routes: &[Route])
    requires stand { StandFrom carried.now.routes from routes.now }
    requires few { from + length routes.now < 2 ^ 64 }
    ensures { hashed.new ≡ hashed.old ++ routes_lines carried.now round routes.now }
{
    match carried.write_routes(round, from, routes, hashed) {
        Ok(()) => {}
        Err(_) => unreachable!(),
    }
}
