//! The lines `run JOB N` and `walk JOB ORDER`: the report of a job.
ghost use Rattle.std.specs.Prelude.{◌≡◌};
ghost use Rattle.evp_report.specs.Report.{report};
ghost use Rattle.evp_stones.specs.Fetching.{IsHeld};
ghost use Rattle.evp_stones.specs.Run.{actors_of, IsRun, IsWalk, IsWalkRead, walked};
ghost use Rattle.evp_stones.specs.Steps.{Works, seen_by};
ghost use Rattle.evp_stones.specs.WholeJob.{IsJobRead};
ghost use Rattle.evp_stones.specs.Words.{AreWorkers};

use crate::carried::Carried;
use crate::order::turns;
use crate::refusal::Refusal;
use crate::whole_job::whole_job;
use evp_crew::Gate;
use evp_depot::Depot;
use evp_stone::Job;
use std::alloc::Global;
use std::sync::Wait;
use std::thread::Threads;

/// The job of the document of this name, carried by so many workers. The gate is called before each
/// turn of a worker.
pub fn run<R: Threads + Wait + Sync, D: Depot, G: Gate + Sync>(
    rt: &R,
    alloc: Global,
    depot: &mut D,
    name: &str,
    workers: u32,
    gate: &G,
) -> Result<Carried, Refusal>
    requires { AreWorkers workers }
    ensures { Works D.held D.misses D.faults depot.old depot.new (IsRun name.now)
        (IsJobRead name.now) (seen_by report result) }
{
    let job = whole_job(alloc, depot, name)?;
    Ok(Carried::by_workers(rt, alloc, job, workers, gate)?)
}

/// The same on this thread, carried by the turns that the file `order` lists, and then by turns in
/// rotation. That file is read behind all that the job is made of.
pub fn walk<D: Depot>(
    alloc: Global,
    depot: &mut D,
    name: &str,
    order: &str,
) -> Result<Carried, Refusal>
    ensures { Works D.held D.misses D.faults depot.old depot.new (IsWalk name.now order.now)
        (IsWalkRead name.now order.now) (seen_by report result) }
{
    let job = whole_job(alloc, depot, name)?;
    walk_by(alloc, depot, job, order)
}

// By the turns of that file.
fn walk_by<D: Depot>(
    alloc: Global,
    depot: &mut D,
    job: Job,
    order: &str,
) -> Result<Carried, Refusal>
    ensures { Works D.held D.misses D.faults depot.old depot.new
        (λ files answer. answer ≡ walked order.now files job) (IsHeld order.now)
        (seen_by report result) }
{
    let turns = turns(alloc, depot, order, actors(&job))?;
    Ok(Carried::by_turns(alloc, job, &turns)?)
}

// How many actors the job has.
fn actors(job: &Job) -> u16
    ensures { result ≡ actors_of job.now }
{
    let parts = job.parts();
    (parts.sources.len() + parts.stones.len()) as u16
}
