//! Reading a job document.

ghost use Rattle.std.specs.Prelude.{◌≡◌, Ok, IfOk, IfErr};
ghost use Rattle.serde_json.specs.View.{view};
ghost use Rattle.evp_job.specs.Job.{StatesJob, IsRefusalOf};
ghost use Rattle.evp_job.specs.JobView.{States};
ghost use Rattle.evp_job.specs.Stated.{IsStated};
ghost use Rattle.evp_job.specs.TextView.{text_of};

use crate::parts::parts_in;
use crate::routing::routed;
use crate::{JobFault, JobText};
use evp_expr::each_text_is_answered;
use serde_json::{Category, Value};
use std::alloc::Global;

/// Why bytes state no job.
#[derive(Debug, Drop)]
pub enum ReadJob {
    /// They aren't UTF-8, or no JSON text.
    NotJson,
    /// The document's first fault, which isn't want of memory.
    Job(JobFault),
    /// There was no memory for the job.
    Memory,
}

/// The job that a document states, or its first fault (`docs/FORMATS.md`, "Job documents").
///
/// Each list's length and each number's range is tested before anything of that size is made. Of a
/// graph with several cycles any may be named.
pub fn read_job(alloc: Global, bytes: &[u8]) -> Result<JobText, ReadJob>
    ensures job { IfOk result (λ text. StatesJob bytes.now (Ok (text_of text))) }
    ensures kept { IfOk result IsStated }
    ensures refused { IfErr result (IsRefusalOf bytes.now) }
{
    let document = match Value::from_slice(alloc, bytes) {
        Ok(document) => document,
        Err(error) if error.classify() == Category::Memory => return Err(ReadJob::Memory),
        Err(_) => return Err(ReadJob::NotJson),
    };
    match job_in(alloc, &document) {
        Ok(text) => Ok(text),
        Err(JobFault::Memory) => Err(ReadJob::Memory),
        Err(fault) => Err(ReadJob::Job(fault)),
    }
}

// The job of a document.
fn job_in(alloc: Global, value: &Value) -> Result<JobText, JobFault>
    ensures states { States (view value.now) result }
    ensures kept { IfOk result IsStated }
{
    each_text_is_answered();
    let parts = parts_in(alloc, value)?;
    routed(alloc, parts)
}
