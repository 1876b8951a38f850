//! Jobs, by their documents alone.
ghost use Rattle.std.specs.Prelude.{IfOk};
ghost use Rattle.evp_job.specs.Stated.{IsStated};
ghost use Rattle.evp_job.specs.TextView.{text_of};
ghost use Rattle.evp_stones.specs.Fetching.{IsHeld};
ghost use Rattle.evp_stones.specs.JobText.{IsJobIn, IsJobOf};
ghost use Rattle.evp_stones.specs.Steps.{Works, Yields, seen_by};

use crate::fetching::fetch;
use crate::refusal::Refusal;
use evp_depot::Depot;
use evp_job::{JobText, ReadJob, read_job};
use std::alloc::Global;

/// The most bytes of a job document.
const LONGEST_JOB: u32 = 1_048_576;

/// The job that the document of this name states. None of its record files is fetched.
pub fn job_of<D: Depot>(alloc: Global, depot: &mut D, name: &str) -> Result<JobText, Refusal>
    ensures works { Works D.held D.misses D.faults depot.old depot.new (IsJobOf name.now)
        (IsHeld name.now) (seen_by text_of result) }
    ensures stated { IfOk result IsStated }
{
    let bytes = fetch(alloc, depot, name, LONGEST_JOB)?;
    job_in(alloc, &bytes)
}

// The job that these bytes state.
fn job_in(alloc: Global, bytes: &[u8]) -> Result<JobText, Refusal>
    ensures yields { Yields (IsJobIn bytes.now) (seen_by text_of result) }
    ensures stated { IfOk result IsStated }
{
    match read_job(alloc, bytes) {
        Ok(text) => Ok(text),
        Err(ReadJob::NotJson) => Err(Refusal::NotJson),
        Err(ReadJob::Job(fault)) => Err(Refusal::Job(fault)),
        Err(ReadJob::Memory) => Err(Refusal::Memory),
    }
}
