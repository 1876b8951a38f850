//! The turns of a source and a terminal with one record, one after another.

ghost use Rattle.evp_crew.specs.Seat.{IsOf};

use super::{ONE, TERMINAL, document_of, job_of};
use evp_base::Memory;
use evp_cache::PlanCache;
use evp_crew::{Crew, Seat};
use evp_stone::{Job, Turn};
use std::alloc::Global;
use std::rt::HostRuntime;
use std::sync::Wait;
use std::test::Fail;

// Turns of the source, 0, and the terminal, 1, and what they answer.
const ACTORS: [u16; 9] = [1, 0, 1, 1, 0, 1, 1, 0, 1];

const ANSWERS: [Turn; 9] = [
    Turn::Idle,
    Turn::Moved,
    Turn::Moved,
    Turn::Moved,
    Turn::Moved,
    Turn::Moved,
    Turn::Moved,
    Turn::Closed,
    Turn::Closed,
];

const ROUNDS: &str = "{\"submit\":[1],\"frozen\":[]}";

// What the turns of these two answer.
fn answers<R: Wait>(
    rt: &R,
    alloc: Global,
    job: &Job,
    cache: &PlanCache,
    crew: &Crew,
    source: &mut Seat,
    stone: &mut Seat,
) -> Result<Vec<Turn>, Memory>
    requires source { IsOf job.now cache.now crew.now source.old }
    requires stone { IsOf job.now cache.now crew.now stone.old }
{
    let mut answers = Vec::with_capacity(alloc, ACTORS.len())?;
    for actor in ACTORS {
        let turn = match actor {
            0 => crew.step(rt, job, cache, source),
            _ => crew.step(rt, job, cache, stone),
        };
        answers.push(turn)?;
    }
    Ok(answers)
}

// What the turns of the opening seats of a job answer, which has a source and a stone.
fn opening_answers<R: Wait>(rt: &R, alloc: Global, job: &Job) -> Result<Vec<Turn>, Memory> {
    let parts = job.parts();
    let cache = PlanCache::new(alloc, parts.formats.as_slice(), parts.declared)?;
    let (crew, mut seats) = Crew::new(rt, alloc, job, &cache)?;
    let Some(mut stone) = seats.pop() else {
        return Err(Memory);
    };
    let Some(mut source) = seats.pop() else {
        return Err(Memory);
    };
    answers(rt, alloc, job, &cache, &crew, &mut source, &mut stone)
}

#[test]
fn turns_of_two_seats(rt: HostRuntime) -> Result<(), Fail> {
    let alloc = rt.alloc();
    let document = document_of(alloc, "", TERMINAL, ROUNDS)?;
    let job = job_of(alloc, document.as_str(), ONE).ok_or("a job")?;
    let answers = opening_answers(&rt, alloc, &job).ok().ok_or("seats")?;
    assert_eq!(rt; answers.as_slice(), ANSWERS.as_slice());
    Ok(())
}
