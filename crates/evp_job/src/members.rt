//! Members of objects, by their keys.

ghost use Rattle.std.specs.Prelude.{◌≡◌, ◌≤◌, IsTrue, IfOk};
ghost use Rattle.evp_base.specs.declared.step.Step.TheVariants.{Field};
ghost use Rattle.evp_base.specs.Name.{is_name};
ghost use Rattle.serde_json.specs.Find.{get};
ghost use Rattle.serde_json.specs.View.{view};
ghost use Rattle.evp_job.specs.Forms.{number_within, text_in, name_in};
ghost use Rattle.evp_job.specs.Steps.{Gives, under};

use crate::JobFault;
use crate::forms::{name, number_within, text};
use evp_base::{Name, Step};
use serde_json::Value;
use std::alloc::Global;

/// The step to the member of this key.
pub(crate) fn step_to(key: &str) -> Step
    requires { IsTrue (is_name key.now) }
    ensures { result ≡ Field key.now }
{
    match Name::read(key.as_bytes()) {
        Some(name) => Step::Field(name),
        None => unreachable!(),
    }
}

/// The number at this key, in this range.
#[tactic(auto, using(crate::proofs::Lowered::under_err))]
pub(crate) fn number_at(
    alloc: Global,
    object: &Value,
    key: &str,
    least: u64,
    greatest: u64,
) -> Result<u64, JobFault>
    requires { IsTrue (is_name key.now) }
    ensures value { Gives (λ number. number) result
        (under (Field key.now) (number_within least greatest (get key.now (view object.now)))) }
    ensures inside { IfOk result (λ number. number ≤ greatest) }
{
    match number_within(alloc, object.get(key), least, greatest) {
        Ok(number) => Ok(number),
        Err(fault) => Err(fault.under(step_to(key))),
    }
}

/// The text at this key.
#[tactic(auto, using(crate::proofs::Lowered::under_err))]
pub(crate) fn text_at<'a>(alloc: Global, object: &'a Value, key: &str) -> Result<&'a str, JobFault>
    requires { IsTrue (is_name key.now) }
    ensures { Gives (λ text. text.now) result
        (under (Field key.now) (text_in (get key.now (view object.now)))) }
{
    match text(alloc, object.get(key)) {
        Ok(text) => Ok(text),
        Err(fault) => Err(fault.under(step_to(key))),
    }
}

/// The name at this key.
#[tactic(auto, using(crate::proofs::Lowered::under_err))]
pub(crate) fn name_at(alloc: Global, object: &Value, key: &str) -> Result<Name, JobFault>
    requires { IsTrue (is_name key.now) }
    ensures { Gives (λ name. name) result
        (under (Field key.now) (name_in (get key.now (view object.now)))) }
{
    match name(alloc, object.get(key)) {
        Ok(name) => Ok(name),
        Err(fault) => Err(fault.under(step_to(key))),
    }
}
