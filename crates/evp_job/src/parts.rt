//! The parts of a job document.

ghost use Rattle.std.specs.Prelude.{◌≡◌, ◌≤◌, length, codes};
ghost use Rattle.evp_base.specs.declared.step.Step.TheVariants.{Field};
ghost use Rattle.serde_json.specs.Find.{get};
ghost use Rattle.serde_json.specs.View.{view};
ghost use Rattle.evp_job.specs.Expressions.{Reading};
ghost use Rattle.evp_job.specs.FormatView.{named_of};
ghost use Rattle.evp_job.specs.Formats.{named_with};
ghost use Rattle.evp_job.specs.HeadView.{head_of};
ghost use Rattle.evp_job.specs.Forms.{no_others};
ghost use Rattle.evp_job.specs.Job.{job_members, parts_in};
ghost use Rattle.evp_job.specs.JobView.{parts_of};
ghost use Rattle.evp_job.specs.Rounds.{rounds_in};
ghost use Rattle.evp_job.specs.SourceView.{sources_of};
ghost use Rattle.evp_job.specs.Steps.{Gives, under};
ghost use Rattle.evp_job.specs.Stones.{stones_in};
ghost use Rattle.evp_job.specs.TextView.{stones_of};

use crate::JobFault;
use crate::forms::no_others;
use crate::head::{JobHead, head_in};
use crate::known::Formats;
use crate::members::step_to;
use crate::rounds::rounds;
use crate::stones::stones;
use evp_expr::each_text_is_answered;
use evp_stone::{Round, Stone};
use serde_json::Value;
use std::alloc::Global;

/// A job but for its routes.
#[derive(Drop)]
pub(crate) struct Parts {
    pub head: JobHead,
    pub stones: Vec<Stone>,
    pub rounds: Vec<Round>,
}

/// The parts of a document, whose members these are.
#[tactic(auto, unfolding(crate::specs::Job::parts_in))]
pub(crate) fn parts_in(alloc: Global, value: &Value) -> Result<Parts, JobFault>
    ensures { (reading : Reading) → Gives (λ parts. parts_of parts) result
        (parts_in reading (view value.now)) }
{
    each_text_is_answered();
    let head = head_in(alloc, value)?;
    let stones = stones_at(alloc, value, &head)?;
    let rounds = rounds_at(alloc, value, source_count(&head), stone_count(&stones))?;
    no_further(alloc, value)?;
    Ok(Parts {
        head,
        stones,
        rounds,
    })
}

// That a document has no other members than these.
fn no_further(alloc: Global, value: &Value) -> Result<(), JobFault>
    ensures { result ≡ no_others job_members (view value.now) }
{
    no_others(
        alloc,
        value,
        &[
            b"limit", b"queue", b"formats", b"sources", b"stones", b"rounds",
        ],
    )
}

fn source_count(head: &JobHead) -> usize
    ensures { result ≡ length (sources_of head.now.sources.items) }
{
    head.sources.len()
}

fn stone_count(stones: &[Stone]) -> usize
    ensures { result ≡ length (stones_of stones.now) }
{
    stones.len()
}

// The stones of a document, which is this object.
#[tactic(auto, using(crate::proofs::Lowered::under_err))]
fn stones_at(alloc: Global, object: &Value, head: &JobHead) -> Result<Vec<Stone>, JobFault>
    requires paired { length head.now.names.items ≡ length head.now.formats.items }
    requires few { length head.now.formats.items ≤ 256 }
    ensures { (reading : Reading) → Gives (λ stones. stones_of stones.items) result
        (under (Field (codes "stones")) (stones_in reading
        (named_with head.now.names.items head.now.formats.items)
        (get (codes "stones") (view object.now)))) }
{
    let formats = Formats {
        names: &head.names,
        known: &head.formats,
    };
    match stones(alloc, &formats, object.get("stones")) {
        Ok(stones) => Ok(stones),
        Err(fault) => Err(fault.under(step_to("stones"))),
    }
}

// The rounds of a document, which is this object.
#[tactic(auto, using(crate::proofs::Lowered::under_err))]
fn rounds_at(
    alloc: Global,
    object: &Value,
    sources: usize,
    stones: usize,
) -> Result<Vec<Round>, JobFault>
    requires { stones ≤ 256 }
    ensures { Gives (λ rounds. rounds.items) result
        (under (Field (codes "rounds"))
        (rounds_in sources stones (get (codes "rounds") (view object.now)))) }
{
    match rounds(alloc, object.get("rounds"), sources, stones) {
        Ok(rounds) => Ok(rounds),
        Err(fault) => Err(fault.under(step_to("rounds"))),
    }
}
