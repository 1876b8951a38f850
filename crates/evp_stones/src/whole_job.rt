//! Jobs with the record files of their sources.
ghost use Rattle.std.specs.Prelude.{◌≡◌};
ghost use Rattle.evp_job.specs.Filling.{AreFilesOf, bare_job, filled};
ghost use Rattle.evp_job.specs.Stated.{IsStated};
ghost use Rattle.evp_stones.specs.RecordFiles.{IsNext};
ghost use Rattle.evp_stones.specs.Steps.{Gives, Works};
ghost use Rattle.evp_stones.specs.WholeJob.{file_names, fits, IsJobRead, IsWholeJob, with_files};

use crate::job::job_of;
use crate::record_files::record_files;
use crate::refusal::Refusal;
use evp_depot::Depot;
use evp_file::RecordFile;
use evp_job::{JobFault, JobText, fill_job};
use evp_stone::Job;
use std::alloc::Global;

/// The job that the document of this name states, with the record files of its sources. They are
/// fetched and read in the order of the sources, and then the job is filled.
pub fn whole_job<D: Depot>(alloc: Global, depot: &mut D, name: &str) -> Result<Job, Refusal>
    ensures { Works D.held D.misses D.faults depot.old depot.new (IsWholeJob name.now)
        (IsJobRead name.now) result }
{
    let text = job_of(alloc, depot, name)?;
    with_files(alloc, depot, text)
}

// The job of this text with its files.
fn with_files<D: Depot>(alloc: Global, depot: &mut D, text: JobText) -> Result<Job, Refusal>
    requires { IsStated text }
    ensures { Works D.held D.misses D.faults depot.old depot.new
        (λ files answer. answer ≡ with_files text files)
        (IsNext text.formats.items text.limit (file_names text)) result }
{
    let records = record_files(alloc, depot, &text)?;
    fill(alloc, text, records)
}

// The job of this text with these files.
fn fill(alloc: Global, text: JobText, records: Vec<RecordFile>) -> Result<Job, Refusal>
    requires stated { IsStated text }
    requires read { AreFilesOf text records.items }
    ensures { Gives result (fits (filled (bare_job text) records.items)) }
{
    match fill_job(alloc, text, records) {
        Ok(job) => Ok(job),
        Err(JobFault::Memory) => Err(Refusal::Memory),
        Err(fault) => Err(Refusal::Job(fault)),
    }
}
