//! Settings of a transform, on fields that may be set.

ghost use Rattle.std.specs.Prelude.{◌≡◌, ◌≤◌, length};
ghost use Rattle.evp_job.specs.Expressions.{Reading};
ghost use Rattle.evp_job.specs.Settings.{is_number_of, counts_by, is_count_of, root_fields};
ghost use Rattle.evp_job.specs.Settings.{number_to_set, settable, next_set, all_set};
ghost use Rattle.evp_job.specs.SettingView.{setting_of, settings_of};
ghost use Rattle.evp_job.specs.Steps.{Gives};

use crate::JobFault;
use crate::expressions::expression;
use crate::forms::same_bytes;
use crate::settings::SettingText;
use evp_action::Setting;
use evp_format::{Base, Field, Format, Shape};
use std::alloc::Global;

/// The settings of stone k, which sets fields of one format to expressions over another.
pub(crate) fn all_set(
    alloc: Global,
    settings: &[SettingText],
    from: &Format,
    into: &Format,
    k: u16,
) -> Result<Vec<Setting>, JobFault>
    requires { length settings.now ≤ 64 }
    ensures { (reading : Reading) → Gives (λ set. set.items) result
        (all_set reading k from.now into.now (settings_of settings.now)) }
{
    let mut set = Vec::new(alloc);
    for (j, setting) in settings.iter().enumerate() {
        next_set(alloc, &mut set, setting, from, into, k, j as u16)?;
    }
    Ok(set)
}

// One setting more.
#[tactic(auto, unfolding(crate::specs::Settings::next_set))]
fn next_set(
    alloc: Global,
    set: &mut Vec<Setting>,
    said: &SettingText,
    from: &Format,
    into: &Format,
    k: u16,
    j: u16,
) -> Result<(), JobFault>
    ensures { (reading : Reading) → Gives (λ _. set.new.items) result
        (next_set reading k from.now into.now j set.old.items (setting_of said.now)) }
{
    let Some(field) = settable(root_fields(into), said.field.as_bytes()) else {
        return Err(JobFault::SetTarget(k, j));
    };
    let value = expression(alloc, said.text, from, k, j)?;
    set.push(Setting { field, value })?;
    Ok(())
}

// The fields of the record, at most 1,024.
fn root_fields(format: &Format) -> &[Field]
    ensures fields { result.now ≡ root_fields format.now }
    ensures few { length result.now ≤ 1024 }
{
    format.root().fields.as_slice()
}

// The number of the field of this name, where it may be set.
fn settable(fields: &[Field], name: &[u8]) -> Option<u16>
    requires { length fields.now ≤ 1024 }
    ensures { result ≡ settable name.now fields.now }
{
    for (number, field) in fields.iter().enumerate() {
        if same_bytes(name, field.name.as_bytes()) {
            return number_to_set(fields, number as u16, field);
        }
    }
    None
}

// The number of a field, where it may be set.
fn number_to_set(fields: &[Field], number: u16, field: &Field) -> Option<u16>
    ensures { result ≡ number_to_set fields.now (number, field.now) }
{
    if !is_number(field.shape, field.base) || is_count(number, fields) {
        return None;
    }
    Some(number)
}

// Whether a field of this shape is a single number.
fn is_number(shape: Shape, base: Base) -> bool
    ensures { result ≡ is_number_of shape base }
{
    match (shape, base) {
        (Shape::One, Base::Number(_)) => true,
        _ => false,
    }
}

// Whether an array has the field of this number as its count.
fn is_count(number: u16, fields: &[Field]) -> bool
    ensures { result ≡ is_count_of number fields.now }
{
    fields.iter().any(|field| counts_by(number, field.shape))
}

fn counts_by(number: u16, shape: Shape) -> bool
    ensures { result ≡ counts_by number shape }
{
    match shape {
        Shape::Counted(k) => k == number,
        _ => false,
    }
}
