//! The formats that a job document declares.

ghost use Rattle.std.specs.Prelude.{◌≡◌, ◌≤◌, ◌∷◌, ◌++◌, [], length, map, codes, option_map};
ghost use Rattle.std.specs.Prelude.{IfOk, OnOk};
ghost use Rattle.evp_base.specs.declared.step.Step.TheVariants.{Field, Index};
ghost use Rattle.evp_profile.specs.LayingOut.{by_profile};
ghost use Rattle.serde_json.specs.Find.{get};
ghost use Rattle.serde_json.specs.View.{view};
ghost use Rattle.evp_job.specs.Formats.{profile_named, profile_in, format_in};
ghost use Rattle.evp_job.specs.Formats.{named_with, is_among, laid, known_format};
ghost use Rattle.evp_job.specs.Formats.{new_format, next_format, formats_in, none_named};
ghost use Rattle.evp_job.specs.FormatView.{text_of, named_of};
ghost use Rattle.evp_job.specs.Steps.{Gives, under, all_from};
ghost use Rattle.evp_job.specs.TypeView.{AreShort};

use crate::JobFault;
use crate::forms::{list_within, misformed, no_others, object, same_bytes, text};
use crate::members::{name_at, step_to};
use crate::types::types_at;
use evp_base::{FieldPath, Memory, Name, Step};
use evp_file::KnownFormat;
use evp_format::{Format, LayoutFault, id_of};
use evp_profile::{Profile, TypeDecl, lay_out};
use serde_json::Value;
use std::alloc::Global;

/// The formats of a job, and their names.
#[derive(Drop)]
pub(crate) struct Named {
    pub names: Vec<Name>,
    pub known: Vec<KnownFormat>,
}

/// What a format says.
#[derive(Drop)]
struct FormatText {
    name: Name,
    profile: Profile,
    types: Vec<TypeDecl>,
}

/// The declared formats, at most 256, none longer than the limit.
#[tactic(auto, unfolding(crate::specs::Formats::formats_in))]
pub(crate) fn formats(alloc: Global, value: Option<&Value>, limit: u32) -> Result<Named, JobFault>
    ensures { Gives (λ named. named_of named) result
        (formats_in limit (option_map (λ value. view value.now) value.entry)) }
{
    let values = list_within(alloc, value, 0, 256)?;
    formats_of(alloc, values, limit)
}

// These formats.
fn formats_of(alloc: Global, values: &[Value], limit: u32) -> Result<Named, JobFault>
    requires { length values.now ≤ 256 }
    ensures { Gives (λ named. named_of named) result
        (all_from (next_format limit) 0 none_named (map view values.now)) }
{
    let mut named = Named {
        names: Vec::new(alloc),
        known: Vec::new(alloc),
    };
    for (k, value) in values.iter().enumerate() {
        next_format(alloc, &mut named, value, k as u16, limit)?;
    }
    Ok(named)
}

// One format more.
#[tactic(auto, unfolding(crate::specs::Formats::next_format))]
fn next_format(
    alloc: Global,
    named: &mut Named,
    value: &Value,
    k: u16,
    limit: u32,
) -> Result<(), JobFault>
    ensures { Gives (λ _. named_of named.new) result
        (next_format limit k (named_of named.old) (view value.now)) }
{
    let text = format_at(alloc, value, k)?;
    let format = new_format(alloc, &named.names, &text, k, limit)?;
    let id = id_of(alloc, &format)?;
    push(named, text.name, KnownFormat { format, id })?;
    Ok(())
}

// Adds a format at the end.
fn push(named: &mut Named, name: Name, known: KnownFormat) -> Result<(), Memory>
    ensures { OnOk result (named_of named.new ≡ named_with ((named_of named.old).names ++ name ∷ [])
        ((named_of named.old).known ++ known ∷ [])) }
{
    named.names.push(name)?;
    named.known.push(known)?;
    Ok(())
}

// The layout of format k, where the earlier names are these.
#[tactic(auto, unfolding(crate::specs::Formats::new_format))]
fn new_format(
    alloc: Global,
    names: &[Name],
    text: &FormatText,
    k: u16,
    limit: u32,
) -> Result<Format, JobFault>
    requires { AreShort text.now.types.items }
    ensures { Gives (λ format. known_format format) result
        (new_format limit k names.now (text_of text.now)) }
{
    if is_among(text.name.as_bytes(), names) {
        return Err(JobFault::Twice(path_to_name(alloc, u32::from(k))?));
    }
    let format = laid(alloc, text, k)?;
    if format.root().length > limit {
        return Err(JobFault::RecordLength(k));
    }
    Ok(format)
}

/// The path to the name of the one of this number.
pub(crate) fn path_to_name(alloc: Global, k: u32) -> Result<FieldPath, Memory>
    ensures { IfOk result (λ path. path ≡ Index k ∷ Field (codes "name") ∷ []) }
{
    let steps = vec![in alloc; Step::Index(k), step_to("name")]?;
    Ok(FieldPath::from_steps(steps))
}

/// Whether it is one of these names.
pub(crate) fn is_among(name: &[u8], names: &[Name]) -> bool
    ensures { result ≡ is_among name.now names.now }
{
    names.iter().any(|other| same_bytes(name, other.as_bytes()))
}

// The layout of a format's types.
fn laid(alloc: Global, text: &FormatText, k: u16) -> Result<Format, JobFault>
    requires { AreShort text.now.types.items }
    ensures { Gives (λ format. format) result
        (laid k (by_profile (text_of text.now).profile (text_of text.now).types)) }
{
    match lay_out(alloc, text.profile, &text.types) {
        Ok(format) => Ok(format),
        Err(LayoutFault::Memory) => Err(JobFault::Memory),
        Err(fault) => Err(JobFault::Layout(k, fault)),
    }
}

// What format k says.
#[tactic(auto, using(crate::proofs::Lowered::under_err))]
fn format_at(alloc: Global, value: &Value, k: u16) -> Result<FormatText, JobFault>
    ensures value { Gives (λ text. text_of text) result
        (under (Index k) (format_in (view value.now))) }
    ensures few { IfOk result (λ text. AreShort text.types.items) }
{
    match format_in(alloc, value) {
        Ok(text) => Ok(text),
        Err(fault) => Err(fault.under(Step::Index(u32::from(k)))),
    }
}

// What a format says.
#[tactic(auto, unfolding(crate::specs::Formats::format_in))]
fn format_in(alloc: Global, value: &Value) -> Result<FormatText, JobFault>
    ensures value { Gives (λ text. text_of text) result (format_in (view value.now)) }
    ensures few { IfOk result (λ text. AreShort text.types.items) }
{
    let object = object(alloc, value)?;
    let name = name_at(alloc, object, "name")?;
    let profile = profile_at(alloc, object)?;
    let types = types_at(alloc, object)?;
    no_others(alloc, object, &[b"name", b"profile", b"types"])?;
    Ok(FormatText {
        name,
        profile,
        types,
    })
}

// The profile of a format, which is this object.
#[tactic(auto, using(crate::proofs::Lowered::under_err))]
fn profile_at(alloc: Global, object: &Value) -> Result<Profile, JobFault>
    ensures { Gives (λ profile. profile) result
        (under (Field (codes "profile")) (profile_in (get (codes "profile") (view object.now)))) }
{
    match profile(alloc, object.get("profile")) {
        Ok(profile) => Ok(profile),
        Err(fault) => Err(fault.under(step_to("profile"))),
    }
}

// The profile that stands there.
#[tactic(auto, unfolding(crate::specs::Formats::profile_in))]
fn profile(alloc: Global, value: Option<&Value>) -> Result<Profile, JobFault>
    ensures { result ≡ profile_in (option_map (λ value. view value.now) value.entry) }
{
    let text = text(alloc, value)?;
    match profile_named(text.as_bytes()) {
        Some(profile) => Ok(profile),
        None => Err(misformed(alloc)),
    }
}

// The profile of this name.
fn profile_named(text: &[u8]) -> Option<Profile>
    ensures { result ≡ profile_named text.now }
{
    if same_bytes(text, b"le64") {
        return Some(Profile::Le64);
    }
    if same_bytes(text, b"le32") {
        return Some(Profile::Le32);
    }
    if same_bytes(text, b"be64") {
        return Some(Profile::Be64);
    }
    if same_bytes(text, b"be32") {
        return Some(Profile::Be32);
    }
    None
}
