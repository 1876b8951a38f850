//! Kinds of stones.

ghost use Rattle.std.specs.Prelude.{◌≡◌, codes, option_map};
ghost use Rattle.evp_base.specs.declared.step.Step.TheVariants.{Field};
ghost use Rattle.serde_json.specs.Find.{get};
ghost use Rattle.serde_json.specs.View.{view};
ghost use Rattle.evp_job.specs.Kinds.{kind_named, kind_in};
ghost use Rattle.evp_job.specs.Steps.{Gives, under};

use crate::JobFault;
use crate::forms::{misformed, same_bytes, text};
use crate::members::step_to;
use serde_json::Value;
use std::alloc::Global;

/// What a stone is.
#[derive(Clone, Copy)]
pub(crate) enum StoneKind {
    Terminal,
    Filter,
    Router,
    Split,
    Transform,
}

/// The kind of a stone, which is this object.
#[tactic(auto, using(crate::proofs::Lowered::under_err))]
pub(crate) fn kind_at(alloc: Global, object: &Value) -> Result<StoneKind, JobFault>
    ensures { Gives (λ kind. kind) result
        (under (Field (codes "kind")) (kind_in (get (codes "kind") (view object.now)))) }
{
    match kind(alloc, object.get("kind")) {
        Ok(kind) => Ok(kind),
        Err(fault) => Err(fault.under(step_to("kind"))),
    }
}

// The kind that stands there.
#[tactic(auto, unfolding(crate::specs::Kinds::kind_in))]
fn kind(alloc: Global, value: Option<&Value>) -> Result<StoneKind, JobFault>
    ensures { result ≡ kind_in (option_map (λ value. view value.now) value.entry) }
{
    let text = text(alloc, value)?;
    match kind_named(text.as_bytes()) {
        Some(kind) => Ok(kind),
        None => Err(misformed(alloc)),
    }
}

// The kind of this name.
fn kind_named(text: &[u8]) -> Option<StoneKind>
    ensures { result ≡ kind_named text.now }
{
    if same_bytes(text, b"terminal") {
        return Some(StoneKind::Terminal);
    }
    if same_bytes(text, b"filter") {
        return Some(StoneKind::Filter);
    }
    if same_bytes(text, b"router") {
        return Some(StoneKind::Router);
    }
    if same_bytes(text, b"split") {
        return Some(StoneKind::Split);
    }
    if same_bytes(text, b"transform") {
        return Some(StoneKind::Transform);
    }
    None
}
