//! Every list of at most twelve turns of a source, a split and a terminal with two records.

use super::jobs::job_of_one;
use super::turns::behind;
use super::{FIVE, NARROW, QUEUES, SPLIT, document_of, finished};
use evp_stone::Job;
use std::alloc::Global;
use std::rt::HostRuntime;
use std::test::Fail;

// How many lists of turns of three actors there are, by the number of their turns.
const LISTS: [u32; 13] = [
    1, 3, 9, 27, 81, 243, 729, 2_187, 6_561, 19_683, 59_049, 177_147, 531_441,
];

// How many these are together.
const ALL: u32 = 797_161;

const ROUNDS: &str = "{\"submit\":[2],\"frozen\":[]}";

const REPORT: &str = "round 0\n\
    a>0 passed 2 dropped 0 refused 0 held 0\n\
    a>0>1 passed 2 dropped 0 refused 0 held 0\n#0 {x=1}\n#1 {x=2}\n";

// The actors whose numbers are the digits of a number by threes, the least digit first.
fn actors_of(number: u32) -> [u16; 12] {
    let mut actors = [0; 12];
    let mut rest = number;
    for actor in actors.iter_mut() {
        *actor = (rest % 3) as u16;
        rest /= 3;
    }
    actors
}

// The number of the first list of so many turns that doesn't come to the report. Each list is made by
// a world of its own, which then goes on in rotation.
fn other(alloc: Global, job: &Job, turns: usize, lists: u32) -> Result<Option<u32>, Fail> {
    for number in 0..lists {
        let actors = actors_of(number);
        let world = behind(alloc, job, &actors[..turns.min(12)])?;
        if finished(alloc, job, world)?.as_slice() != REPORT.as_bytes() {
            return Ok(Some(number));
        }
    }
    Ok(None)
}

// How many lists come to the report before one that doesn't, of all lists of at most twelve turns, by
// the number of their turns.
fn alike(alloc: Global, queue: &str) -> Result<u32, Fail> {
    let document = document_of(alloc, queue, NARROW, SPLIT, ROUNDS)?;
    let job = job_of_one(alloc, document.as_str(), FIVE).ok_or("a job")?;
    let mut alike = 0u32;
    for (turns, lists) in LISTS.into_iter().enumerate() {
        match other(alloc, &job, turns, lists)? {
            None => alike = alike.saturating_add(lists),
            Some(number) => return Ok(alike.saturating_add(number)),
        }
    }
    Ok(alike)
}

#[test]
fn every_list_of_turns_with_room_for_all(rt: HostRuntime) -> Result<(), Fail> {
    assert_eq!(rt; alike(rt.alloc(), QUEUES[0])?, ALL);
    Ok(())
}

#[test]
fn every_list_of_turns_with_room_for_one(rt: HostRuntime) -> Result<(), Fail> {
    assert_eq!(rt; alike(rt.alloc(), QUEUES[1])?, ALL);
    Ok(())
}
