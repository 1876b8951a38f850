//! What a job document begins with.

ghost use Rattle.std.specs.Prelude.{◌≡◌, ◌≤◌, IsTrue, codes};
ghost use Rattle.evp_base.specs.declared.step.Step.TheVariants.{Field};
ghost use Rattle.evp_base.specs.Name.{is_name};
ghost use Rattle.serde_json.specs.Find.{get};
ghost use Rattle.serde_json.specs.View.{view};
ghost use Rattle.evp_job.specs.Formats.{formats_in};
ghost use Rattle.evp_job.specs.FormatView.{named_of};
ghost use Rattle.evp_job.specs.Head.{number_or, head_in};
ghost use Rattle.evp_job.specs.HeadView.{head_of};
ghost use Rattle.evp_job.specs.Sources.{sources_in};
ghost use Rattle.evp_job.specs.SourceView.{sources_of};
ghost use Rattle.evp_job.specs.Steps.{Gives, under};

use crate::formats::{Named, formats};
use crate::forms::object;
use crate::members::{number_at, step_to};
use crate::sources::sources;
use crate::{JobFault, SourceText};
use evp_base::Name;
use evp_file::KnownFormat;
use serde_json::Value;
use std::alloc::Global;

/// The limits, formats and sources of a job document.
#[derive(Drop)]
pub(crate) struct JobHead {
    /// The longest record in bytes, 64 to 262,144; 4,096 where none is stated.
    pub limit: u32,
    /// The entries that a stone's queue holds, 1 to 4,096; 64 where none is stated.
    pub queue: u32,
    /// The formats' names.
    pub names: Vec<Name>,
    /// The formats, at most 256, with their identifiers.
    pub formats: Vec<KnownFormat>,
    /// The sources, 1 to 64.
    pub sources: Vec<SourceText>,
}

/// The head of a document. What follows its sources isn't looked at.
#[tactic(auto, unfolding(crate::specs::Head::head_in))]
pub(crate) fn head_in(alloc: Global, value: &Value) -> Result<JobHead, JobFault>
    ensures { Gives (λ head. head_of head) result (head_in (view value.now)) }
{
    let object = object(alloc, value)?;
    let limit = number_or(alloc, object, "limit", 4096, 64, 262_144)?;
    let queue = number_or(alloc, object, "queue", 64, 1, 4096)?;
    let named = formats_at(alloc, object, limit)?;
    let sources = sources_at(alloc, object)?;
    Ok(JobHead {
        limit,
        queue,
        names: named.names,
        formats: named.known,
        sources,
    })
}

// The number at this key, in this range, or the usual one where there is none.
#[tactic(auto, using(crate::proofs::Lowered::under_err))]
fn number_or(
    alloc: Global,
    object: &Value,
    key: &str,
    usual: u32,
    least: u32,
    greatest: u32,
) -> Result<u32, JobFault>
    requires { IsTrue (is_name key.now) }
    ensures { Gives (λ number. number) result
        (under (Field key.now) (number_or usual least greatest (get key.now (view object.now)))) }
{
    if object.get(key).is_none() {
        return Ok(usual);
    }
    let number = number_at(alloc, object, key, u64::from(least), u64::from(greatest))?;
    Ok(number as u32)
}

// The formats of a document, which is this object.
#[tactic(auto, using(crate::proofs::Lowered::under_err))]
fn formats_at(alloc: Global, object: &Value, limit: u32) -> Result<Named, JobFault>
    ensures { Gives (λ named. named_of named) result
        (under (Field (codes "formats"))
        (formats_in limit (get (codes "formats") (view object.now)))) }
{
    match formats(alloc, object.get("formats"), limit) {
        Ok(named) => Ok(named),
        Err(fault) => Err(fault.under(step_to("formats"))),
    }
}

// The sources of a document, which is this object.
#[tactic(auto, using(crate::proofs::Lowered::under_err))]
fn sources_at(alloc: Global, object: &Value) -> Result<Vec<SourceText>, JobFault>
    ensures { Gives (λ sources. sources_of sources.items) result
        (under (Field (codes "sources")) (sources_in (get (codes "sources") (view object.now)))) }
{
    match sources(alloc, object.get("sources")) {
        Ok(sources) => Ok(sources),
        Err(fault) => Err(fault.under(step_to("sources"))),
    }
}
