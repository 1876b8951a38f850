//! The formats that the job declares.

ghost use Rattle.std.specs.Prelude.{◌≡◌, IfOk};
ghost use Rattle.serde_json.specs.View.{view};
ghost use Rattle.evp_gen.specs.Formats.{field_value, tag_value, format_value, wide_fields};
ghost use Rattle.evp_gen.specs.Formats.{wide_value, calc_fields, calc_value, short_fields};
ghost use Rattle.evp_gen.specs.Formats.{short_value, full_fields, full_value, tight_fields};
ghost use Rattle.evp_gen.specs.Formats.{tight_value, formats_value};

use serde_json::{Value, json};
use std::alloc::{AllocError, Global};

/// The formats, in the order of the document.
pub(crate) fn formats(alloc: Global) -> Result<Value, AllocError>
    ensures { IfOk result (λ value. view value ≡ formats_value) }
{
    let wide = wide(alloc)?;
    let calc = calc(alloc)?;
    let short = short(alloc)?;
    let full = full(alloc)?;
    let tight = tight(alloc)?;
    json!(in alloc; [wide, calc, short, full, tight])
}

// What the filters, transforms and routers behind the first splits take.
fn wide(alloc: Global) -> Result<Value, AllocError>
    ensures { IfOk result (λ value. view value ≡ wide_value) }
{
    let fields = wide_fields(alloc)?;
    format(alloc, "wide", "be64", fields)
}

fn wide_fields(alloc: Global) -> Result<Value, AllocError>
    ensures { IfOk result (λ value. view value ≡ wide_fields) }
{
    let x = field(alloc, "x", "integer", 8)?;
    let id = field(alloc, "id", "unsigned integer", 8)?;
    let tag = tag(alloc)?;
    let n = field(alloc, "n", "integer", 8)?;
    let v = field(alloc, "v", "integer[n]", 8)?;
    json!(in alloc; [x, id, tag, n, v])
}

// What the transforms make.
fn calc(alloc: Global) -> Result<Value, AllocError>
    ensures { IfOk result (λ value. view value ≡ calc_value) }
{
    let fields = calc_fields(alloc)?;
    format(alloc, "calc", "le64", fields)
}

fn calc_fields(alloc: Global) -> Result<Value, AllocError>
    ensures { IfOk result (λ value. view value ≡ calc_fields) }
{
    let y = field(alloc, "y", "integer", 8)?;
    let id = field(alloc, "id", "unsigned integer", 8)?;
    let x = field(alloc, "x", "integer", 8)?;
    json!(in alloc; [y, id, x])
}

// What is received behind the routers.
fn short(alloc: Global) -> Result<Value, AllocError>
    ensures { IfOk result (λ value. view value ≡ short_value) }
{
    let fields = short_fields(alloc)?;
    format(alloc, "short", "le32", fields)
}

fn short_fields(alloc: Global) -> Result<Value, AllocError>
    ensures { IfOk result (λ value. view value ≡ short_fields) }
{
    let x = field(alloc, "x", "integer", 2)?;
    let tag = tag(alloc)?;
    let extra = field(alloc, "extra", "unsigned integer", 4)?;
    json!(in alloc; [x, tag, extra])
}

// What is received behind the transforms, with room for each number.
fn full(alloc: Global) -> Result<Value, AllocError>
    ensures { IfOk result (λ value. view value ≡ full_value) }
{
    let fields = full_fields(alloc)?;
    format(alloc, "full", "be32", fields)
}

fn full_fields(alloc: Global) -> Result<Value, AllocError>
    ensures { IfOk result (λ value. view value ≡ full_fields) }
{
    let y = field(alloc, "y", "integer", 4)?;
    let id = field(alloc, "id", "unsigned integer", 4)?;
    json!(in alloc; [y, id])
}

// What is received behind the transforms, without room for most numbers.
fn tight(alloc: Global) -> Result<Value, AllocError>
    ensures { IfOk result (λ value. view value ≡ tight_value) }
{
    let fields = tight_fields(alloc)?;
    format(alloc, "tight", "le64", fields)
}

fn tight_fields(alloc: Global) -> Result<Value, AllocError>
    ensures { IfOk result (λ value. view value ≡ tight_fields) }
{
    let y = field(alloc, "y", "integer", 2)?;
    let id = field(alloc, "id", "unsigned integer", 2)?;
    json!(in alloc; [y, id])
}

// A field of numbers.
fn field(alloc: Global, name: &str, type_text: &str, size: u64) -> Result<Value, AllocError>
    ensures { IfOk result (λ value. view value ≡ field_value name.now type_text.now size) }
{
    json!(in alloc; [name, type_text, size])
}

// The string `tag`.
fn tag(alloc: Global) -> Result<Value, AllocError>
    ensures { IfOk result (λ value. view value ≡ tag_value) }
{
    json!(in alloc; ["tag", "string"])
}

// A format of one type, which has the format's name.
fn format(alloc: Global, name: &str, profile: &str, fields: Value) -> Result<Value, AllocError>
    ensures { IfOk result (λ value. view value ≡ format_value name.now profile.now (view fields)) }
{
    json!(in alloc; {
        "name": name,
        "profile": profile,
        "types": [{"fields": fields, "name": name}]
    })
}
