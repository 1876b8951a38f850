//! The stones of a job document.

ghost use Rattle.std.specs.Prelude.{◌≡◌, ◌≤◌, ◌∷◌, ◌++◌, [], length, map, option_map, IfOk, OnOk};
ghost use Rattle.evp_base.specs.declared.step.Step.TheVariants.{Index};
ghost use Rattle.serde_json.specs.View.{view};
ghost use Rattle.evp_job.specs.Expressions.{Reading};
ghost use Rattle.evp_job.specs.KnownView.{formats_of};
ghost use Rattle.evp_job.specs.Steps.{Gives, under, all_from};
ghost use Rattle.evp_job.specs.Stones.{terminal_in, filter_in};
ghost use Rattle.evp_job.specs.Stones.{router_in, split_in, transform_in, of_kind, stone_in};
ghost use Rattle.evp_job.specs.Stones.{next_stone, stones_in};
ghost use Rattle.evp_job.specs.TextView.{stone_of, stones_of};

use crate::JobFault;
use crate::expressions::expression;
use crate::forms::{list_within, no_others, object};
use crate::kinds::{StoneKind, kind_at};
use crate::known::Formats;
use crate::members::text_at;
use crate::naming::format_at;
use crate::setting_fields::all_set;
use crate::settings::settings_at;
use crate::targets::{target_at, targets_at};
use evp_action::Action;
use evp_base::{Memory, Step};
use evp_graph::Numbers;
use evp_stone::Stone;
use serde_json::Value;
use std::alloc::Global;

/// The stones, 1 to 256.
#[tactic(auto, unfolding(crate::specs::Stones::stones_in))]
pub(crate) fn stones(
    alloc: Global,
    formats: &Formats,
    value: Option<&Value>,
) -> Result<Vec<Stone>, JobFault>
    ensures { (reading : Reading) → Gives (λ stones. stones_of stones.items) result
        (stones_in reading (formats_of formats.now)
        (option_map (λ value. view value.now) value.entry)) }
{
    let values = list_within(alloc, value, 1, 256)?;
    all_stones(alloc, formats, values)
}

// These stones.
fn all_stones(alloc: Global, formats: &Formats, values: &[Value]) -> Result<Vec<Stone>, JobFault>
    requires { length values.now ≤ 256 }
    ensures { (reading : Reading) → Gives (λ stones. stones_of stones.items) result
        (all_from (next_stone reading (formats_of formats.now)) 0 [] (map view values.now)) }
{
    let mut stones = Vec::new(alloc);
    for (k, value) in values.iter().enumerate() {
        next_stone(alloc, formats, &mut stones, value, k as u16)?;
    }
    Ok(stones)
}

// One stone more.
#[tactic(auto, unfolding(crate::specs::Stones::next_stone))]
fn next_stone(
    alloc: Global,
    formats: &Formats,
    stones: &mut Vec<Stone>,
    value: &Value,
    k: u16,
) -> Result<(), JobFault>
    ensures { (reading : Reading) → Gives (λ _. stones_of stones.new.items) result
        (next_stone reading (formats_of formats.now) k (stones_of stones.old.items)
        (view value.now)) }
{
    let stone = stone_at(alloc, formats, value, k)?;
    push(stones, stone)?;
    Ok(())
}

// Adds a stone at the end.
fn push(stones: &mut Vec<Stone>, stone: Stone) -> Result<(), Memory>
    ensures { OnOk result (stones_of stones.new.items
        ≡ stones_of stones.old.items ++ stone_of stone ∷ []) }
{
    stones.push(stone)?;
    Ok(())
}

// Stone k.
#[tactic(auto, using(crate::proofs::Lowered::under_err))]
fn stone_at(alloc: Global, formats: &Formats, value: &Value, k: u16) -> Result<Stone, JobFault>
    ensures { (reading : Reading) → Gives (λ stone. stone_of stone) result
        (under (Index k) (stone_in reading (formats_of formats.now) k (view value.now))) }
{
    match stone_in(alloc, formats, value, k) {
        Ok(stone) => Ok(stone),
        Err(fault) => Err(fault.under(Step::Index(u32::from(k)))),
    }
}

// A stone, whose number is k.
#[tactic(auto, unfolding(crate::specs::Stones::stone_in))]
fn stone_in(alloc: Global, formats: &Formats, value: &Value, k: u16) -> Result<Stone, JobFault>
    ensures { (reading : Reading) → Gives (λ stone. stone_of stone) result
        (stone_in reading (formats_of formats.now) k (view value.now)) }
{
    let object = object(alloc, value)?;
    let kind = kind_at(alloc, object)?;
    of_kind(alloc, formats, object, k, kind)
}

// A stone of this kind, which is this object.
fn of_kind(
    alloc: Global,
    formats: &Formats,
    object: &Value,
    k: u16,
    kind: StoneKind,
) -> Result<Stone, JobFault>
    ensures { (reading : Reading) → Gives (λ stone. stone_of stone) result
        (of_kind reading (formats_of formats.now) k (view object.now) kind) }
{
    match kind {
        StoneKind::Terminal => terminal(alloc, formats, object),
        StoneKind::Filter => filter(alloc, formats, object, k),
        StoneKind::Router => router(alloc, formats, object, k),
        StoneKind::Split => split(alloc, object),
        StoneKind::Transform => transform(alloc, formats, object, k),
    }
}

#[tactic(auto, unfolding(crate::specs::Stones::terminal_in))]
fn terminal(alloc: Global, formats: &Formats, object: &Value) -> Result<Stone, JobFault>
    ensures { Gives (λ stone. stone_of stone) result
        (terminal_in (formats_of formats.now) (view object.now)) }
{
    let format = format_at(alloc, formats, object, "format")?;
    no_others(alloc, object, &[b"kind", b"format"])?;
    Ok(Stone {
        action: Action::Terminal {
            format: format.number,
        },
        targets: Numbers::new(Vec::new(alloc)),
    })
}

#[tactic(auto, unfolding(crate::specs::Stones::filter_in))]
fn filter(alloc: Global, formats: &Formats, object: &Value, k: u16) -> Result<Stone, JobFault>
    ensures { (reading : Reading) → Gives (λ stone. stone_of stone) result
        (filter_in reading (formats_of formats.now) k (view object.now)) }
{
    let format = format_at(alloc, formats, object, "format")?;
    let text = text_at(alloc, object, "expr")?;
    let target = target_at(alloc, object)?;
    no_others(alloc, object, &[b"kind", b"format", b"expr", b"target"])?;
    let test = expression(alloc, text, format.format, k, 0)?;
    Ok(Stone {
        action: Action::Filter {
            format: format.number,
            test,
        },
        targets: only(alloc, target)?,
    })
}

// One target.
fn only(alloc: Global, target: u16) -> Result<Numbers, Memory>
    ensures { IfOk result (λ targets. targets ≡ target ∷ []) }
{
    let mut targets = Vec::new(alloc);
    targets.push(target)?;
    Ok(Numbers::new(targets))
}

#[tactic(auto, unfolding(crate::specs::Stones::router_in))]
fn router(alloc: Global, formats: &Formats, object: &Value, k: u16) -> Result<Stone, JobFault>
    ensures { (reading : Reading) → Gives (λ stone. stone_of stone) result
        (router_in reading (formats_of formats.now) k (view object.now)) }
{
    let format = format_at(alloc, formats, object, "format")?;
    let text = text_at(alloc, object, "expr")?;
    let targets = targets_at(alloc, object)?;
    no_others(alloc, object, &[b"kind", b"format", b"expr", b"targets"])?;
    let choose = expression(alloc, text, format.format, k, 0)?;
    Ok(Stone {
        action: Action::Router {
            format: format.number,
            choose,
        },
        targets,
    })
}

#[tactic(auto, unfolding(crate::specs::Stones::split_in))]
fn split(alloc: Global, object: &Value) -> Result<Stone, JobFault>
    ensures { Gives (λ stone. stone_of stone) result (split_in (view object.now)) }
{
    let targets = targets_at(alloc, object)?;
    no_others(alloc, object, &[b"kind", b"targets"])?;
    Ok(Stone {
        action: Action::Split,
        targets,
    })
}

#[tactic(auto, unfolding(crate::specs::Stones::transform_in))]
fn transform(alloc: Global, formats: &Formats, object: &Value, k: u16) -> Result<Stone, JobFault>
    ensures { (reading : Reading) → Gives (λ stone. stone_of stone) result
        (transform_in reading (formats_of formats.now) k (view object.now)) }
{
    let format = format_at(alloc, formats, object, "format")?;
    let into = format_at(alloc, formats, object, "into")?;
    let settings = settings_at(alloc, object)?;
    let target = target_at(alloc, object)?;
    no_others(
        alloc,
        object,
        &[b"kind", b"format", b"into", b"set", b"target"],
    )?;
    let set = all_set(alloc, &settings, format.format, into.format, k)?;
    Ok(Stone {
        action: Action::Transform {
            format: format.number,
            into: into.number,
            set,
        },
        targets: only(alloc, target)?,
    })
}
