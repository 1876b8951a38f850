//! Record types as a job document declares them.

ghost use Rattle.std.specs.Prelude.{◌≡◌, ◌<◌, ◌^◌, [], length, map, codes, slice_get, option_map};
ghost use Rattle.std.specs.Prelude.{IfOk};
ghost use Rattle.evp_base.specs.declared.step.Step.TheVariants.{Field, Index};
ghost use Rattle.serde_json.specs.Find.{get};
ghost use Rattle.serde_json.specs.View.{view};
ghost use Rattle.evp_profile.specs.Declarations.{field_declared, fields_declared, type_declared};
ghost use Rattle.evp_profile.specs.Declarations.{types_declared};
ghost use Rattle.evp_job.specs.Forms.{text_in};
ghost use Rattle.evp_job.specs.Steps.{Gives, under, each_in};
ghost use Rattle.evp_job.specs.Types.{field_values, size_in, default_in, field_in, fields_in};
ghost use Rattle.evp_job.specs.Types.{type_in, types_in};
ghost use Rattle.evp_job.specs.TypeView.{AreShort};

use crate::JobFault;
use crate::forms::{integer, list, misformed, no_others, number_within, object, text};
use crate::members::{step_to, text_at};
use evp_base::Step;
use evp_profile::{Decl, TypeDecl};
use serde_json::Value;
use std::alloc::Global;

// The two to four values of a field.
#[tactic(auto, unfolding(crate::specs::Types::field_values))]
fn field_values(alloc: Global, value: &Value) -> Result<&[Value], JobFault>
    ensures { Gives (λ values. map view values.now) result (field_values (view value.now)) }
{
    let values = list(alloc, Some(value))?;
    if values.len() < 2 || 4 < values.len() {
        return Err(misformed(alloc));
    }
    Ok(values)
}

/// The text at this place of a list.
#[tactic(auto, using(crate::proofs::Lowered::under_err))]
pub(crate) fn text_item(alloc: Global, values: &[Value], k: u32) -> Result<&str, JobFault>
    ensures { Gives (λ text. text.now) result
        (under (Index k) (text_in (slice_get (map view values.now) k))) }
{
    match text(alloc, values.get(k as usize)) {
        Ok(text) => Ok(text),
        Err(fault) => Err(fault.under(Step::Index(k))),
    }
}

// The size of a field, 0 where none is stated.
#[tactic(auto, using(crate::proofs::Lowered::under_err))]
fn size_item(alloc: Global, values: &[Value]) -> Result<u32, JobFault>
    ensures { Gives (λ size. size) result
        (under (Index 2) (size_in (slice_get (map view values.now) 2))) }
{
    let Some(value) = values.get(2) else {
        return Ok(0);
    };
    match number_within(alloc, Some(value), 0, 4_294_967_295) {
        Ok(size) => Ok(size as u32),
        Err(fault) => Err(fault.under(Step::Index(2))),
    }
}

// The default of a field, 0 where none is stated.
#[tactic(auto, using(crate::proofs::Lowered::under_err))]
fn default_item(alloc: Global, values: &[Value]) -> Result<i128, JobFault>
    ensures { Gives (λ fallback. fallback) result
        (under (Index 3) (default_in (slice_get (map view values.now) 3))) }
{
    let Some(value) = values.get(3) else {
        return Ok(0);
    };
    match integer(alloc, Some(value)) {
        Ok(fallback) => Ok(fallback),
        Err(fault) => Err(fault.under(Step::Index(3))),
    }
}

// A field.
#[tactic(auto, unfolding(crate::specs::Types::field_in))]
fn field(alloc: Global, value: &Value) -> Result<Decl, JobFault>
    ensures { Gives (λ field. field_declared field) result (field_in (view value.now)) }
{
    let values = field_values(alloc, value)?;
    let name = text_item(alloc, values, 0)?;
    let type_text = text_item(alloc, values, 1)?;
    let size = size_item(alloc, values)?;
    let fallback = default_item(alloc, values)?;
    Ok(Decl {
        name: String::from_str(alloc, name)?,
        type_text: String::from_str(alloc, type_text)?,
        size,
        fallback,
    })
}

// Field k of a type.
#[tactic(auto, using(crate::proofs::Lowered::under_err))]
fn field_at(alloc: Global, value: &Value, k: u32) -> Result<Decl, JobFault>
    ensures { Gives (λ field. field_declared field) result
        (under (Index k) (field_in (view value.now))) }
{
    match field(alloc, value) {
        Ok(field) => Ok(field),
        Err(fault) => Err(fault.under(Step::Index(k))),
    }
}

// The fields of a type.
fn fields_of(alloc: Global, values: &[Value]) -> Result<Vec<Decl>, JobFault>
    requires { length values.now < 2 ^ 32 }
    ensures value { Gives (λ fields. fields_declared fields.items) result
        (each_in field_in (map view values.now)) }
    ensures few { IfOk result (λ fields. length fields.items < 2 ^ 32) }
{
    let mut fields = Vec::with_capacity(alloc, values.len())?;
    for (k, value) in values.iter().enumerate() {
        let field = field_at(alloc, value, k as u32)?;
        fields.push(field)?;
    }
    Ok(fields)
}

// The fields that stand there.
#[tactic(auto, unfolding(crate::specs::Types::fields_in))]
fn fields(alloc: Global, value: Option<&Value>) -> Result<Vec<Decl>, JobFault>
    ensures value { Gives (λ fields. fields_declared fields.items) result
        (fields_in (option_map (λ value. view value.now) value.entry)) }
    ensures few { IfOk result (λ fields. length fields.items < 2 ^ 32) }
{
    let values = list(alloc, value)?;
    fields_of(alloc, values)
}

// The fields of a type, which is this object.
#[tactic(auto, using(crate::proofs::Lowered::under_err))]
fn fields_at(alloc: Global, object: &Value) -> Result<Vec<Decl>, JobFault>
    ensures value { Gives (λ fields. fields_declared fields.items) result
        (under (Field (codes "fields")) (fields_in (get (codes "fields") (view object.now)))) }
    ensures few { IfOk result (λ fields. length fields.items < 2 ^ 32) }
{
    match fields(alloc, object.get("fields")) {
        Ok(fields) => Ok(fields),
        Err(fault) => Err(fault.under(step_to("fields"))),
    }
}

// A type.
#[tactic(auto, unfolding(crate::specs::Types::type_in))]
fn type_in(alloc: Global, value: &Value) -> Result<TypeDecl, JobFault>
    ensures value { Gives (λ declared. type_declared declared) result (type_in (view value.now)) }
    ensures few { IfOk result (λ declared. length declared.fields.items < 2 ^ 32) }
{
    let object = object(alloc, value)?;
    let name = text_at(alloc, object, "name")?;
    let fields = fields_at(alloc, object)?;
    no_others(alloc, object, &[b"name", b"fields"])?;
    let name = String::from_str(alloc, name)?;
    Ok(TypeDecl { name, fields })
}

// Type k of a format.
#[tactic(auto, using(crate::proofs::Lowered::under_err))]
fn type_at(alloc: Global, value: &Value, k: u32) -> Result<TypeDecl, JobFault>
    ensures value { Gives (λ declared. type_declared declared) result
        (under (Index k) (type_in (view value.now))) }
    ensures few { IfOk result (λ declared. length declared.fields.items < 2 ^ 32) }
{
    match type_in(alloc, value) {
        Ok(declared) => Ok(declared),
        Err(fault) => Err(fault.under(Step::Index(k))),
    }
}

// The types of a format.
fn types_of(alloc: Global, values: &[Value]) -> Result<Vec<TypeDecl>, JobFault>
    requires { length values.now < 2 ^ 32 }
    ensures value { Gives (λ types. types_declared types.items) result
        (each_in type_in (map view values.now)) }
    ensures few { IfOk result (λ types. AreShort types.items) }
{
    let mut types = Vec::with_capacity(alloc, values.len())?;
    for (k, value) in values.iter().enumerate() {
        let declared = type_at(alloc, value, k as u32)?;
        types.push(declared)?;
    }
    Ok(types)
}

// The types that stand there.
#[tactic(auto, unfolding(crate::specs::Types::types_in))]
fn types(alloc: Global, value: Option<&Value>) -> Result<Vec<TypeDecl>, JobFault>
    ensures value { Gives (λ types. types_declared types.items) result
        (types_in (option_map (λ value. view value.now) value.entry)) }
    ensures few { IfOk result (λ types. AreShort types.items) }
{
    let values = list(alloc, value)?;
    types_of(alloc, values)
}

/// The types of a format, which is this object.
#[tactic(auto, using(crate::proofs::Lowered::under_err))]
pub(crate) fn types_at(alloc: Global, object: &Value) -> Result<Vec<TypeDecl>, JobFault>
    ensures value { Gives (λ types. types_declared types.items) result
        (under (Field (codes "types")) (types_in (get (codes "types") (view object.now)))) }
    ensures few { IfOk result (λ types. AreShort types.items) }
{
    match types(alloc, object.get("types")) {
        Ok(types) => Ok(types),
        Err(fault) => Err(fault.under(step_to("types"))),
    }
}
