//! Declared types for the tests.

ghost use Rattle.std.specs.Prelude.{◌≤◌, ◌<◌, ◌^◌, length, IfOk, All};

mod faults;
mod layouts;
mod limits;

use evp_profile::{Decl, TypeDecl};
use std::alloc::{AllocError, Global};

// A struct: its name, and each field's name, type text and size.
type Struct = (&'static str, &'static [(&'static str, &'static str, u32)]);

// The declared types of these structs; the fields of the last have these defaults, and 0 where none
// is given.
fn declared(
    alloc: Global,
    structs: &[Struct],
    defaults: &[i128],
) -> Result<Vec<TypeDecl>, AllocError>
    ensures few { IfOk result (λ types. length types.items ≤ 64) }
    ensures fields { IfOk result (λ types. All (λ declared. length declared.fields.items < 2 ^ 32)
        types.items) }
{
    let mut types = Vec::new(alloc);
    let structs = &structs[..structs.len().min(64)];
    for (number, (name, fields)) in structs.iter().enumerate() {
        let stated = if number + 1 == structs.len() {
            defaults
        } else {
            &[]
        };
        types.push(declared_type(alloc, name, fields, stated)?)?;
    }
    Ok(types)
}

// The declared type of a struct.
fn declared_type(
    alloc: Global,
    name: &str,
    fields: &[(&str, &str, u32)],
    defaults: &[i128],
) -> Result<TypeDecl, AllocError>
    ensures { IfOk result (λ declared. length declared.fields.items < 2 ^ 32) }
{
    let mut declared = Vec::new(alloc);
    let fields = &fields[..fields.len().min(1024)];
    for (number, (name, type_text, size)) in fields.iter().enumerate() {
        let fallback = match defaults.get(number) {
            Some(stated) => *stated,
            None => 0,
        };
        declared.push(field(alloc, name, type_text, *size, fallback)?)?;
    }
    Ok(TypeDecl {
        name: String::from_str(alloc, name)?,
        fields: declared,
    })
}

fn field(
    alloc: Global,
    name: &str,
    type_text: &str,
    size: u32,
    fallback: i128,
) -> Result<Decl, AllocError> {
    Ok(Decl {
        name: String::from_str(alloc, name)?,
        type_text: String::from_str(alloc, type_text)?,
        size,
        fallback,
    })
}
