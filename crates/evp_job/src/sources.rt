//! The sources of a job document.

ghost use Rattle.std.specs.Prelude.{◌≡◌, ◌≤◌, ◌∷◌, ◌++◌, [], length, map, codes, option_map, OnOk};
ghost use Rattle.std.specs.List.{list_any};
ghost use Rattle.evp_base.specs.declared.step.Step.TheVariants.{Field, Index};
ghost use Rattle.evp_format.specs.Bytes.{bytes_equal};
ghost use Rattle.serde_json.specs.Find.{get};
ghost use Rattle.serde_json.specs.View.{view};
ghost use Rattle.evp_job.specs.Sources.{file_name_in, source_in, names_of, next_source};
ghost use Rattle.evp_job.specs.Sources.{sources_in};
ghost use Rattle.evp_job.specs.Formats.{is_among};
ghost use Rattle.evp_job.specs.SourceView.{source_of, sources_of};
ghost use Rattle.evp_job.specs.Steps.{Gives, under, all_from};

use crate::JobFault;
use crate::formats::path_to_name;
use crate::forms::{list_within, misformed, no_others, object, same_bytes, text};
use crate::members::{name_at, number_at, step_to};
use evp_base::{Memory, Name, Step};
use serde_json::Value;
use std::alloc::Global;

/// A source of a job: its name, the name of its record file, and the number of the stone to which
/// its records go.
#[derive(Debug, Drop)]
pub struct SourceText {
    pub name: Name,
    pub file: String,
    pub stone: u16,
}

/// The sources, 1 to 64.
#[tactic(auto, unfolding(crate::specs::Sources::sources_in))]
pub(crate) fn sources(alloc: Global, value: Option<&Value>) -> Result<Vec<SourceText>, JobFault>
    ensures { Gives (λ sources. sources_of sources.items) result
        (sources_in (option_map (λ value. view value.now) value.entry)) }
{
    let values = list_within(alloc, value, 1, 64)?;
    all_sources(alloc, values)
}

// These sources.
fn all_sources(alloc: Global, values: &[Value]) -> Result<Vec<SourceText>, JobFault>
    requires { length values.now ≤ 64 }
    ensures { Gives (λ sources. sources_of sources.items) result
        (all_from next_source 0 [] (map view values.now)) }
{
    let mut sources = Vec::new(alloc);
    for (k, value) in values.iter().enumerate() {
        next_source(alloc, &mut sources, value, k as u32)?;
    }
    Ok(sources)
}

// One source more.
#[tactic(auto, unfolding(crate::specs::Sources::next_source))]
fn next_source(
    alloc: Global,
    sources: &mut Vec<SourceText>,
    value: &Value,
    k: u32,
) -> Result<(), JobFault>
    ensures { Gives (λ _. sources_of sources.new.items) result
        (next_source k (sources_of sources.old.items) (view value.now)) }
{
    let source = source_at(alloc, value, k)?;
    if is_taken(source.name.as_bytes(), sources) {
        return Err(JobFault::Twice(path_to_name(alloc, k)?));
    }
    push(sources, source)?;
    Ok(())
}

// Adds a source at the end.
fn push(sources: &mut Vec<SourceText>, source: SourceText) -> Result<(), Memory>
    ensures { OnOk result (sources_of sources.new.items
        ≡ sources_of sources.old.items ++ source_of source ∷ []) }
{
    sources.push(source)?;
    Ok(())
}

// Whether it is a name of these sources.
fn is_taken(name: &[u8], sources: &[SourceText]) -> bool
    ensures { result ≡ is_among name.now (names_of (sources_of sources.now)) }
{
    has_name(sources, name)
}

fn has_name(sources: &[SourceText], name: &[u8]) -> bool
    ensures { result ≡ list_any (λ source. bytes_equal name.now source.name) sources.now }
{
    sources
        .iter()
        .any(|source| same_bytes(name, source.name.as_bytes()))
}

// Source k.
#[tactic(auto, using(crate::proofs::Lowered::under_err))]
fn source_at(alloc: Global, value: &Value, k: u32) -> Result<SourceText, JobFault>
    ensures { Gives (λ source. source_of source) result
        (under (Index k) (source_in (view value.now))) }
{
    match source_in(alloc, value) {
        Ok(source) => Ok(source),
        Err(fault) => Err(fault.under(Step::Index(k))),
    }
}

// A source.
#[tactic(auto, unfolding(crate::specs::Sources::source_in))]
fn source_in(alloc: Global, value: &Value) -> Result<SourceText, JobFault>
    ensures { Gives (λ source. source_of source) result (source_in (view value.now)) }
{
    let object = object(alloc, value)?;
    let name = name_at(alloc, object, "name")?;
    let file = file_name_at(alloc, object)?;
    let stone = number_at(alloc, object, "stone", 0, 65_535)?;
    no_others(alloc, object, &[b"name", b"file", b"stone"])?;
    let file = String::from_str(alloc, file)?;
    Ok(SourceText {
        name,
        file,
        stone: stone as u16,
    })
}

// The file's name of a source, which is this object.
#[tactic(auto, using(crate::proofs::Lowered::under_err))]
fn file_name_at(alloc: Global, object: &Value) -> Result<&str, JobFault>
    ensures { Gives (λ file. file.now) result
        (under (Field (codes "file")) (file_name_in (get (codes "file") (view object.now)))) }
{
    match file_name(alloc, object.get("file")) {
        Ok(file) => Ok(file),
        Err(fault) => Err(fault.under(step_to("file"))),
    }
}

// The text of 1 to 255 bytes that stands there.
#[tactic(auto, unfolding(crate::specs::Sources::file_name_in))]
fn file_name<'a>(alloc: Global, value: Option<&'a Value>) -> Result<&'a str, JobFault>
    ensures { Gives (λ file. file.now) result
        (file_name_in (option_map (λ value. view value.now) value.entry)) }
{
    let text = text(alloc, value)?;
    if text.is_empty() || text.len() > 255 {
        return Err(misformed(alloc));
    }
    Ok(text)
}
