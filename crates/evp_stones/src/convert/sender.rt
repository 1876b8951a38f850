//! A sender's format, and what is found for it and the receiver's.
ghost use Rattle.std.specs.Prelude.{◌≡◌, ◌^◌, ◌<◌, IfOk, Some, length};
ghost use Rattle.std.specs.Cow.{cow_slice_items};
ghost use Rattle.evp_action.specs.Converted.{fault_reason};
ghost use Rattle.evp_cache.specs.Finding.{IsFound};
ghost use Rattle.evp_format.specs.Conversion.{answer_of, conversion};
ghost use Rattle.evp_format.specs.Converting.{convert};
ghost use Rattle.evp_plan.specs.Planned.{StandsFor};
ghost use Rattle.evp_record.specs.Record.{value_of};
ghost use Rattle.evp_stones.specs.Convert.{answer_text};
ghost use Rattle.evp_stones.specs.Outcomes.{outcome_text};

use super::outcome::Outcome;
use evp_action::Reason;
use evp_base::Memory;
use evp_cache::Found;
use evp_format::{Format, path_of};
use evp_plan::{BuildFault, Builds, Plan, build};
use evp_record::{Checked, Owned};
use evp_runner::{RunFault, pass};
use std::alloc::Global;
use std::borrow::CowSlice;

/// What is found for a sender's format and the receiver's: a plan, or their clash.
pub(crate) fn found_for(
    alloc: Global,
    from: &Format,
    to: &Format,
    builds: &mut Builds,
) -> Result<Found, Memory>
    ensures { IfOk result (IsFound from.now to.now) }
{
    match build(alloc, from, to, builds) {
        Ok(plan) => Ok(Found::Plan(plan)),
        Err(BuildFault::Clash(path)) => Ok(Found::Clash(path)),
        Err(BuildFault::Memory) => Err(Memory),
    }
}

/// What becomes of a record, by what was found for its format and the receiver's.
pub(crate) fn converted_by(
    alloc: Global,
    found: &Found,
    item: Checked<'_>,
    to: &Format,
    limit: u32,
) -> Result<Outcome, Memory>
    requires { IsFound item.layout to.now found.now }
    ensures { IfOk result (λ outcome. outcome_text to.now outcome
        ≡ answer_text (conversion item.entry.layout to.now (value_of item.entry) limit)) }
{
    match found {
        Found::Plan(plan) => planned(alloc, plan, item, to, limit),
        Found::Clash(path) => Ok(Outcome::Refused(Reason::Clash(path.clone()?))),
    }
}

// What becomes of it by a plan.
fn planned(
    alloc: Global,
    plan: &Plan,
    item: Checked<'_>,
    to: &Format,
    limit: u32,
) -> Result<Outcome, Memory>
    requires { StandsFor plan.now item.layout to.now }
    ensures { IfOk result (λ outcome. outcome_text to.now outcome
        ≡ answer_text (answer_of to.now (convert to.now (value_of item.entry) limit))) }
{
    match pass(alloc, plan, item, limit) {
        Ok(bytes) => Ok(Outcome::Value(owned(alloc, bytes)?)),
        Err(fault) => Ok(Outcome::Refused(reason_of(alloc, fault, to)?)),
    }
}

// The record of these bytes.
fn owned(alloc: Global, bytes: CowSlice<'_, u8>) -> Result<Owned, Memory>
    requires { length (cow_slice_items bytes) < 2 ^ 32 }
    ensures { IfOk result (λ owned. owned.bytes ≡ cow_slice_items bytes.entry) }
{
    let bytes = match bytes {
        CowSlice::Borrowed(own) => Vec::from_slice(alloc, own)?,
        CowSlice::Owned(bytes) => bytes,
    };
    Ok(Owned::new(0, bytes))
}

// Why a record whose conversion has this fault is refused.
fn reason_of(alloc: Global, fault: RunFault, to: &Format) -> Result<Reason, Memory>
    ensures { IfOk result (λ reason. fault_reason to.now fault ≡ Some reason) }
{
    match fault {
        RunFault::Unfit(place) => Ok(Reason::Unfit(path_of(alloc, to, &place)?)),
        RunFault::Large(place) => Ok(Reason::Large(path_of(alloc, to, &place)?)),
        RunFault::Memory => Err(Memory),
    }
}
