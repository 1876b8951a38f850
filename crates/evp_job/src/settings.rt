//! What the settings of a transform say.

ghost use Rattle.std.specs.Prelude.{◌≡◌, ◌≤◌, ◌^◌, ◌<◌, length, map, codes, option_map, IfOk};
ghost use Rattle.evp_base.specs.declared.step.Step.TheVariants.{Field, Index};
ghost use Rattle.serde_json.specs.Find.{get};
ghost use Rattle.serde_json.specs.View.{view};
ghost use Rattle.evp_job.specs.Settings.{setting_values, setting_in, settings_in};
ghost use Rattle.evp_job.specs.SettingView.{setting_of, settings_of};
ghost use Rattle.evp_job.specs.Steps.{Gives, under, each_in};

use crate::JobFault;
use crate::forms::{list, list_within, misformed};
use crate::members::step_to;
use crate::types::text_item;
use evp_base::Step;
use serde_json::Value;
use std::alloc::Global;

/// A field's name, and the text of the expression that it is set to.
#[derive(Clone, Copy)]
pub(crate) struct SettingText<'a> {
    pub field: &'a str,
    pub text: &'a str,
}

/// The settings of a transform, which is this object; at most 64.
#[tactic(auto, using(crate::proofs::Lowered::under_err))]
pub(crate) fn settings_at(alloc: Global, object: &Value) -> Result<Vec<SettingText<'_>>, JobFault>
    ensures value { Gives (λ settings. settings_of settings.items) result
        (under (Field (codes "set")) (settings_in (get (codes "set") (view object.now)))) }
    ensures few { IfOk result (λ settings. length settings.items ≤ 64) }
{
    match settings(alloc, object.get("set")) {
        Ok(settings) => Ok(settings),
        Err(fault) => Err(fault.under(step_to("set"))),
    }
}

// The settings that stand there.
#[tactic(auto, unfolding(crate::specs::Settings::settings_in))]
fn settings<'a>(alloc: Global, value: Option<&'a Value>) -> Result<Vec<SettingText<'a>>, JobFault>
    ensures value { Gives (λ settings. settings_of settings.items) result
        (settings_in (option_map (λ value. view value.now) value.entry)) }
    ensures few { IfOk result (λ settings. length settings.items ≤ 64) }
{
    let values = list_within(alloc, value, 0, 64)?;
    all_settings(alloc, values)
}

// These settings.
fn all_settings(alloc: Global, values: &[Value]) -> Result<Vec<SettingText<'_>>, JobFault>
    requires { length values.now ≤ 64 }
    ensures value { Gives (λ settings. settings_of settings.items) result
        (each_in setting_in (map view values.now)) }
    ensures few { IfOk result (λ settings. length settings.items ≤ 64) }
{
    let mut settings = Vec::with_capacity(alloc, values.len())?;
    for (k, value) in values.iter().enumerate() {
        let setting = setting_at(alloc, value, k as u32)?;
        settings.push(setting)?;
    }
    Ok(settings)
}

// Setting k.
#[tactic(auto, using(crate::proofs::Lowered::under_err))]
fn setting_at(alloc: Global, value: &Value, k: u32) -> Result<SettingText<'_>, JobFault>
    ensures { Gives (λ setting. setting_of setting) result
        (under (Index k) (setting_in (view value.now))) }
{
    match setting(alloc, value) {
        Ok(setting) => Ok(setting),
        Err(fault) => Err(fault.under(Step::Index(k))),
    }
}

// A setting.
#[tactic(auto, unfolding(crate::specs::Settings::setting_in))]
fn setting(alloc: Global, value: &Value) -> Result<SettingText<'_>, JobFault>
    ensures { Gives (λ setting. setting_of setting) result (setting_in (view value.now)) }
{
    let values = setting_values(alloc, value)?;
    let field = match text_item(alloc, values, 0) {
        Ok(field) => field,
        Err(fault) => return Err(fault),
    };
    let text = match text_item(alloc, values, 1) {
        Ok(text) => text,
        Err(fault) => return Err(fault),
    };
    Ok(SettingText { field, text })
}

// The two values of a setting.
#[tactic(auto, unfolding(crate::specs::Settings::setting_values))]
fn setting_values(alloc: Global, value: &Value) -> Result<&[Value], JobFault>
    ensures { Gives (λ values. map view values.now) result (setting_values (view value.now)) }
{
    let values = list(alloc, Some(value))?;
    if values.len() != 2 {
        return Err(misformed(alloc));
    }
    Ok(values)
}
