//! The turns of a source and a terminal with one record, one after another.

ghost use Rattle.std.specs.Prelude.{◌≡◌, ◌+◌, ◌<◌, All, IfOk, IsTrue, length};
ghost use Rattle.evp_core.specs.WorldShape.{HasRules};

use super::{ONE, TERMINAL, WIDE, document_of, finished, job_of_one};
use evp_core::World;
use evp_stone::{Job, Turn};
use std::alloc::Global;
use std::rt::HostRuntime;
use std::test::Fail;

// Turns of the source, 0, and the terminal, 1; what they answer, with how many are done then; and
// the report.
const ACTORS: [u16; 9] = [1, 0, 1, 1, 0, 1, 1, 0, 1];

const ANSWERS: [(Turn, u64); 9] = [
    (Turn::Idle, 1),
    (Turn::Moved, 2),
    (Turn::Moved, 3),
    (Turn::Moved, 4),
    (Turn::Moved, 5),
    (Turn::Moved, 6),
    (Turn::Moved, 7),
    (Turn::Closed, 8),
    (Turn::Closed, 9),
];

const REPORT: &str = "round 0\na>0 passed 1 dropped 0 refused 0 held 0\n#0 {x=7}\n";

const ROUNDS: &str = "{\"submit\":[1],\"frozen\":[]}";

// One turn of a world of this job, where there is such an actor.
pub fn turned(job: &Job, world: &mut World<'_>, actor: u16) -> Option<Turn>
    requires job { world.old.lists.job ≡ job.now }
    requires rules { HasRules world.old }
    ensures job { world.new.lists.job ≡ job.now }
    ensures rules { HasRules world.new }
{
    let parts = job.parts();
    if usize::from(actor) >= parts.sources.len() + parts.stones.len() {
        return None;
    }
    Some(world.turn(actor))
}

// Whether the job has actors of these numbers.
fn are_actors(job: &Job, actors: &[u16]) -> bool
    ensures { IsTrue result
        → All (λ actor. actor < length job.now.sources + length job.now.stones) actors.now }
{
    let parts = job.parts();
    let count = parts.sources.len() + parts.stones.len();
    actors.iter().all(|actor| usize::from(*actor) < count)
}

// The world of a job behind these turns.
pub fn behind<'a>(alloc: Global, job: &'a Job, actors: &[u16]) -> Result<World<'a>, Fail>
    ensures { IfOk result (λ world. world.lists.job ≡ job.now) }
{
    if !are_actors(job, actors) {
        return Err("an actor".into());
    }
    let mut world = World::new(alloc, job).ok().ok_or("a world")?;
    match world.run(actors) {
        Ok(()) => Ok(world),
        Err(_) => Err("memory".into()),
    }
}

// What the turns of these actors answer, and how many are done behind each.
fn answers(alloc: Global, job: &Job, actors: &[u16]) -> Result<Vec<(Turn, u64)>, Fail> {
    let mut world = World::new(alloc, job).ok().ok_or("a world")?;
    let mut answers = Vec::with_capacity(alloc, actors.len())?;
    for actor in actors {
        let turn = turned(job, &mut world, *actor).ok_or("an actor")?;
        answers.push((turn, world.done()))?;
    }
    Ok(answers)
}

// How many turns are done behind those of these actors, and the report.
fn ran(alloc: Global, job: &Job, actors: &[u16]) -> Result<(u64, Vec<u8>), Fail> {
    let world = behind(alloc, job, actors)?;
    let done = world.done();
    Ok((done, finished(alloc, job, world)?))
}

#[test]
fn turns_of_two_actors(rt: HostRuntime) -> Result<(), Fail> {
    let alloc = rt.alloc();
    let document = document_of(alloc, "", WIDE, TERMINAL, ROUNDS)?;
    let job = job_of_one(alloc, document.as_str(), ONE).ok_or("a job")?;
    let answers = answers(alloc, &job, &ACTORS)?;
    assert_eq!(rt; answers.as_slice(), ANSWERS.as_slice());
    let (done, report) = ran(alloc, &job, &ACTORS)?;
    assert_eq!(rt; (done, report.as_slice()), (9, REPORT.as_bytes()));
    Ok(())
}
