//! Where stones send: the numbers of other stones.

ghost use Rattle.std.specs.Prelude.{◌≡◌, ◌≤◌, length, map, codes, option_map};
ghost use Rattle.evp_base.specs.declared.step.Step.TheVariants.{Field, Index};
ghost use Rattle.serde_json.specs.Find.{get};
ghost use Rattle.serde_json.specs.View.{view};
ghost use Rattle.evp_job.specs.Stones.{stone_number, targets_in, targets_at, target_at};
ghost use Rattle.evp_job.specs.Steps.{Gives, under, each_in};

use crate::JobFault;
use crate::forms::{list_within, number_within};
use crate::members::{number_at, step_to};
use evp_base::Step;
use evp_graph::Numbers;
use serde_json::Value;
use std::alloc::Global;

/// The target of a stone, which is this object.
pub(crate) fn target_at(alloc: Global, object: &Value) -> Result<u16, JobFault>
    ensures { Gives (λ target. target) result (target_at (view object.now)) }
{
    let target = number_at(alloc, object, "target", 0, 65_535)?;
    Ok(target as u16)
}

/// The targets of a stone, which is this object; at most 16.
#[tactic(auto, using(crate::proofs::Lowered::under_err))]
pub(crate) fn targets_at(alloc: Global, object: &Value) -> Result<Numbers, JobFault>
    ensures { Gives (λ targets. targets) result (targets_at (view object.now)) }
{
    match targets(alloc, object.get("targets")) {
        Ok(targets) => Ok(targets),
        Err(fault) => Err(fault.under(step_to("targets"))),
    }
}

// The targets that stand there.
#[tactic(auto, unfolding(crate::specs::Stones::targets_in))]
fn targets(alloc: Global, value: Option<&Value>) -> Result<Numbers, JobFault>
    ensures { Gives (λ targets. targets) result
        (targets_in (option_map (λ value. view value.now) value.entry)) }
{
    let values = list_within(alloc, value, 0, 16)?;
    let targets = all_targets(alloc, values)?;
    Ok(Numbers::new(targets))
}

// These targets.
fn all_targets(alloc: Global, values: &[Value]) -> Result<Vec<u16>, JobFault>
    requires { length values.now ≤ 16 }
    ensures { Gives (λ targets. targets.items) result (each_in stone_number (map view values.now)) }
{
    let mut targets = Vec::with_capacity(alloc, values.len())?;
    for (k, value) in values.iter().enumerate() {
        let target = target_item(alloc, value, k as u32)?;
        targets.push(target)?;
    }
    Ok(targets)
}

// Target k.
#[tactic(auto, using(crate::proofs::Lowered::under_err))]
fn target_item(alloc: Global, value: &Value, k: u32) -> Result<u16, JobFault>
    ensures { Gives (λ target. target) result (under (Index k) (stone_number (view value.now))) }
{
    match stone_number(alloc, value) {
        Ok(target) => Ok(target),
        Err(fault) => Err(fault.under(Step::Index(k))),
    }
}

#[tactic(auto, unfolding(crate::specs::Stones::stone_number))]
fn stone_number(alloc: Global, value: &Value) -> Result<u16, JobFault>
    ensures { Gives (λ number. number) result (stone_number (view value.now)) }
{
    let number = number_within(alloc, Some(value), 0, 65_535)?;
    Ok(number as u16)
}
