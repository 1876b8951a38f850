//! The lists of a round: what each source submits, and which stones are frozen.

ghost use Rattle.std.specs.Prelude.{◌≡◌, ◌≤◌, ◌<◌, ◌^◌, length, map, option_map};
ghost use Rattle.evp_base.specs.declared.step.Step.TheVariants.{Index};
ghost use Rattle.serde_json.specs.View.{view};
ghost use Rattle.evp_job.specs.Rounds.{submitted, submit_in, stone_of, frozen_in};
ghost use Rattle.evp_job.specs.Steps.{Gives, under, each_in};

use crate::JobFault;
use crate::forms::{list, misformed, number_within, whole_number};
use evp_base::Step;
use evp_graph::Numbers;
use evp_stone::Submitted;
use serde_json::Value;
use std::alloc::Global;

// ---- what each source submits

/// A number for each of so many sources.
#[tactic(auto, unfolding(crate::specs::Rounds::submit_in))]
pub(crate) fn submit(
    alloc: Global,
    value: Option<&Value>,
    sources: usize,
) -> Result<Submitted, JobFault>
    ensures { Gives (λ submit. submit) result
        (submit_in sources (option_map (λ value. view value.now) value.entry)) }
{
    let values = list(alloc, value)?;
    if values.len() != sources {
        return Err(misformed(alloc));
    }
    let numbers = all_submitted(alloc, values)?;
    Ok(Submitted::new(numbers))
}

// These numbers.
fn all_submitted(alloc: Global, values: &[Value]) -> Result<Vec<u32>, JobFault>
    requires { length values.now < 2 ^ 32 }
    ensures { Gives (λ numbers. numbers.items) result (each_in submitted (map view values.now)) }
{
    let mut numbers = Vec::with_capacity(alloc, values.len())?;
    for (k, value) in values.iter().enumerate() {
        let number = submitted_at(alloc, value, k as u32)?;
        numbers.push(number)?;
    }
    Ok(numbers)
}

// The number of source k.
#[tactic(auto, using(crate::proofs::Lowered::under_err))]
fn submitted_at(alloc: Global, value: &Value, k: u32) -> Result<u32, JobFault>
    ensures { Gives (λ number. number) result (under (Index k) (submitted (view value.now))) }
{
    match submitted(alloc, value) {
        Ok(number) => Ok(number),
        Err(fault) => Err(fault.under(Step::Index(k))),
    }
}

#[tactic(auto, unfolding(crate::specs::Rounds::submitted))]
fn submitted(alloc: Global, value: &Value) -> Result<u32, JobFault>
    ensures { Gives (λ number. number) result (submitted (view value.now)) }
{
    let number = number_within(alloc, Some(value), 0, 131_072)?;
    Ok(number as u32)
}

// ---- which stones are frozen

/// Some of so many stones.
#[tactic(auto, unfolding(crate::specs::Rounds::frozen_in))]
pub(crate) fn frozen(
    alloc: Global,
    value: Option<&Value>,
    stones: usize,
) -> Result<Numbers, JobFault>
    requires { stones ≤ 256 }
    ensures { Gives (λ frozen. frozen) result
        (frozen_in stones (option_map (λ value. view value.now) value.entry)) }
{
    let values = list(alloc, value)?;
    let numbers = all_frozen(alloc, values, stones)?;
    Ok(Numbers::new(numbers))
}

// These stones.
fn all_frozen(alloc: Global, values: &[Value], stones: usize) -> Result<Vec<u16>, JobFault>
    requires few { length values.now < 2 ^ 32 }
    requires stones { stones ≤ 256 }
    ensures { Gives (λ numbers. numbers.items) result
        (each_in (stone_of stones) (map view values.now)) }
{
    let mut numbers = Vec::with_capacity(alloc, values.len())?;
    for (k, value) in values.iter().enumerate() {
        let number = frozen_at(alloc, value, k as u32, stones)?;
        numbers.push(number)?;
    }
    Ok(numbers)
}

// Number k of them.
#[tactic(auto, using(crate::proofs::Lowered::under_err))]
fn frozen_at(alloc: Global, value: &Value, k: u32, stones: usize) -> Result<u16, JobFault>
    requires { stones ≤ 256 }
    ensures { Gives (λ number. number) result
        (under (Index k) (stone_of stones (view value.now))) }
{
    match stone_of(alloc, value, stones) {
        Ok(number) => Ok(number),
        Err(fault) => Err(fault.under(Step::Index(k))),
    }
}

// The number of a stone.
#[tactic(auto, unfolding(crate::specs::Rounds::stone_of))]
fn stone_of(alloc: Global, value: &Value, stones: usize) -> Result<u16, JobFault>
    requires { stones ≤ 256 }
    ensures { Gives (λ number. number) result (stone_of stones (view value.now)) }
{
    let number = whole_number(alloc, Some(value))?;
    if stones as u64 <= number {
        return Err(misformed(alloc));
    }
    Ok(number as u16)
}
