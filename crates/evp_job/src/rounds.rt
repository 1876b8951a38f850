//! The rounds of a job document.

ghost use Rattle.std.specs.Prelude.{◌≡◌, ◌≤◌, ◌<◌, ◌^◌, length, map, codes, option_map};
ghost use Rattle.evp_base.specs.declared.step.Step.TheVariants.{Field, Index};
ghost use Rattle.serde_json.specs.Find.{get};
ghost use Rattle.serde_json.specs.View.{view};
ghost use Rattle.evp_job.specs.Rounds.{round_in, rounds_in};
ghost use Rattle.evp_job.specs.Rounds.{submit_in, frozen_in};
ghost use Rattle.evp_job.specs.Steps.{Gives, under, each_in};

use crate::JobFault;
use crate::forms::{list_within, no_others, object};
use crate::members::step_to;
use crate::round_lists::{frozen, submit};
use evp_base::Step;
use evp_graph::Numbers;
use evp_stone::{Round, Submitted};
use serde_json::Value;
use std::alloc::Global;

/// The rounds, 1 to 64, of so many sources and stones.
#[tactic(auto, unfolding(crate::specs::Rounds::rounds_in))]
pub(crate) fn rounds(
    alloc: Global,
    value: Option<&Value>,
    sources: usize,
    stones: usize,
) -> Result<Vec<Round>, JobFault>
    requires { stones ≤ 256 }
    ensures { Gives (λ rounds. rounds.items) result
        (rounds_in sources stones (option_map (λ value. view value.now) value.entry)) }
{
    let values = list_within(alloc, value, 1, 64)?;
    all_rounds(alloc, values, sources, stones)
}

// These rounds.
fn all_rounds(
    alloc: Global,
    values: &[Value],
    sources: usize,
    stones: usize,
) -> Result<Vec<Round>, JobFault>
    requires few { length values.now ≤ 64 }
    requires stones { stones ≤ 256 }
    ensures { Gives (λ rounds. rounds.items) result
        (each_in (round_in sources stones) (map view values.now)) }
{
    let mut rounds = Vec::with_capacity(alloc, values.len())?;
    for (k, value) in values.iter().enumerate() {
        let round = round_at(alloc, value, k as u32, sources, stones)?;
        rounds.push(round)?;
    }
    Ok(rounds)
}

// Round k.
#[tactic(auto, using(crate::proofs::Lowered::under_err))]
fn round_at(
    alloc: Global,
    value: &Value,
    k: u32,
    sources: usize,
    stones: usize,
) -> Result<Round, JobFault>
    requires { stones ≤ 256 }
    ensures { Gives (λ round. round) result
        (under (Index k) (round_in sources stones (view value.now))) }
{
    match round(alloc, value, sources, stones) {
        Ok(round) => Ok(round),
        Err(fault) => Err(fault.under(Step::Index(k))),
    }
}

// A round.
#[tactic(auto, unfolding(crate::specs::Rounds::round_in))]
fn round(alloc: Global, value: &Value, sources: usize, stones: usize) -> Result<Round, JobFault>
    requires { stones ≤ 256 }
    ensures { Gives (λ round. round) result (round_in sources stones (view value.now)) }
{
    let object = object(alloc, value)?;
    let submit = submit_at(alloc, object, sources)?;
    let frozen = frozen_at(alloc, object, stones)?;
    no_others(alloc, object, &[b"submit", b"frozen"])?;
    Ok(Round { submit, frozen })
}

// What each source submits in a round, which is this object.
#[tactic(auto, using(crate::proofs::Lowered::under_err))]
fn submit_at(alloc: Global, object: &Value, sources: usize) -> Result<Submitted, JobFault>
    ensures { Gives (λ submit. submit) result
        (under (Field (codes "submit")) (submit_in sources (get (codes "submit") (view object.now)))) }
{
    match submit(alloc, object.get("submit"), sources) {
        Ok(submit) => Ok(submit),
        Err(fault) => Err(fault.under(step_to("submit"))),
    }
}

// The stones that are frozen in a round, which is this object.
#[tactic(auto, using(crate::proofs::Lowered::under_err))]
fn frozen_at(alloc: Global, object: &Value, stones: usize) -> Result<Numbers, JobFault>
    requires { stones ≤ 256 }
    ensures { Gives (λ frozen. frozen) result
        (under (Field (codes "frozen")) (frozen_in stones (get (codes "frozen") (view object.now)))) }
{
    match frozen(alloc, object.get("frozen"), stones) {
        Ok(frozen) => Ok(frozen),
        Err(fault) => Err(fault.under(step_to("frozen"))),
    }
}
