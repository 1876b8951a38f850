//! The fields of a declared type, each tested before the next.

ghost use Rattle.std.specs.Prelude.{◌≡◌, ◌<◌, ◌≤◌, [], length, IfOk};
ghost use Rattle.evp_format.specs.Steps.{Gives};
ghost use Rattle.evp_profile.specs.Declarations.{field_declared, fields_declared};
ghost use Rattle.evp_profile.specs.LayingOut.{size_meant, stated_field, stated_fields};

use crate::Decl;
use evp_format::{Base, DraftField, LayoutFault, TypesSoFar};
use std::alloc::Global;

/// The fields that are declared, or the first fault.
pub(crate) fn stated_fields(
    alloc: Global,
    types: &TypesSoFar,
    declared: &[Decl],
) -> Result<Vec<DraftField>, LayoutFault>
    requires { length declared.now ≤ 1024 }
    ensures value { Gives (λ drafts. drafts.items) result
        (stated_fields types.now.pointer types.now.types [] (fields_declared declared.now)) }
    ensures number { IfOk result (λ drafts. length drafts.items ≡ length declared.now) }
{
    let mut drafts = Vec::with_capacity(alloc, declared.len())?;
    for field in declared {
        let draft = stated_field(types, &drafts, field)?;
        drafts.push(draft)?;
    }
    Ok(drafts)
}

// A field behind these, wherever it stands.
#[tactic(auto, unfolding(crate::specs::LayingOut::stated_field))]
fn stated_field(
    types: &TypesSoFar,
    before: &[DraftField],
    declared: &Decl,
) -> Result<DraftField, LayoutFault>
    requires { length before.now < 1024 }
    ensures { result ≡ stated_field types.now.pointer types.now.types before.now
        (field_declared declared.now) }
{
    let number = before.len() as u16;
    let name = types.field_name(before, declared.name.as_bytes())?;
    let (base, shape) = types.type_text(number, declared.type_text.as_bytes())?;
    let size = types.size(number, base, size_meant(types, base, declared.size))?;
    let plain = DraftField {
        name,
        base,
        shape,
        size,
        offset: 0,
        fallback: 0,
    };
    let fallback = types.default(number, &plain, declared.fallback)?;
    Ok(DraftField { fallback, ..plain })
}

// A string's size is the pointer's, a record's is its type's length, whatever is declared.
fn size_meant(types: &TypesSoFar, base: Base, declared: u32) -> u32
    ensures { result ≡ size_meant types.now.pointer types.now.types base declared }
{
    match base {
        Base::Number(_) => declared,
        Base::Text => u32::from(types.pointer()),
        Base::Nested(number) => types.length_of(number),
    }
}
