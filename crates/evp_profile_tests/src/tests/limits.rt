//! Declared types that pass a limit.

ghost use Rattle.std.specs.Prelude.{◌≤◌, ◌<◌, ◌^◌, length, IfOk, All};

use super::field;
use evp_format::{LayoutFault, Which};
use evp_profile::{Profile, TypeDecl, lay_out};
use std::alloc::{AllocError, Global};
use std::test::Fail;

// How many types, how many fields each, and the fault, if there is one.
const WIDE: [(u16, u16, Option<LayoutFault>); 7] = [
    (0, 1, Some(LayoutFault::Limit(Which::Types, 0))),
    (64, 1, None),
    (65, 1, Some(LayoutFault::Limit(Which::Types, 65))),
    (1, 1024, None),
    (1, 1025, Some(LayoutFault::Limit(Which::Fields, 1025))),
    (4, 1024, None),
    (5, 1024, Some(LayoutFault::Limit(Which::AllFields, 5120))),
];

// How many types, each but the first with a field of the one before, and the fault.
const DEEP: [(u16, Option<LayoutFault>); 2] = [
    (16, None),
    (17, Some(LayoutFault::Limit(Which::Nesting, 17))),
];

// So many types, each of so many chars.
fn wide(alloc: Global, types: u16, fields: u16) -> Result<Vec<TypeDecl>, AllocError>
    ensures few { IfOk result (λ types. length types.items < 2 ^ 32) }
    ensures fields { IfOk result (λ types. All (λ declared. length declared.fields.items < 2 ^ 32)
        types.items) }
{
    let mut declared = Vec::new(alloc);
    for number in 0..types {
        declared.push(wide_type(alloc, number, fields)?)?;
    }
    Ok(declared)
}

// The type of this number, of so many chars.
fn wide_type(alloc: Global, number: u16, fields: u16) -> Result<TypeDecl, AllocError>
    ensures { IfOk result (λ declared. length declared.fields.items < 2 ^ 32) }
{
    let mut chars = Vec::new(alloc);
    for k in 0..fields {
        chars.push(field(alloc, &format!(in alloc; "x{k}")?, "char", 1, 0)?)?;
    }
    Ok(TypeDecl {
        name: format!(in alloc; "t{number}")?,
        fields: chars,
    })
}

// So many types, each but the first with a field of the one before.
fn deep(alloc: Global, types: u16) -> Result<Vec<TypeDecl>, AllocError>
    ensures few { IfOk result (λ types. length types.items < 2 ^ 32) }
    ensures fields { IfOk result (λ types. All (λ declared. length declared.fields.items < 2 ^ 32)
        types.items) }
{
    let mut declared = Vec::new(alloc);
    for number in 0..types {
        declared.push(deep_type(alloc, number)?)?;
    }
    Ok(declared)
}

// The type of this number, with a field of the one before.
fn deep_type(alloc: Global, number: u16) -> Result<TypeDecl, AllocError>
    ensures { IfOk result (λ declared. length declared.fields.items < 2 ^ 32) }
{
    let inner = if number == 0 {
        field(alloc, "x", "char", 1, 0)?
    } else {
        let before = number - 1;
        field(alloc, "x", &format!(in alloc; "t{before}")?, 0, 0)?
    };
    Ok(TypeDecl {
        name: format!(in alloc; "t{number}")?,
        fields: vec![in alloc; inner]?,
    })
}

#[test]
fn limits_are_the_greatest_that_pass(rt: HostRuntime) -> Result<(), Fail> {
    for (types, fields, fault) in &WIDE {
        let declared = wide(rt.alloc(), *types, *fields)?;
        let found = lay_out(rt.alloc(), Profile::Be64, &declared).err();
        assert_eq!(rt; found, *fault, "{types} types of {fields} fields");
    }
    for (types, fault) in &DEEP {
        let declared = deep(rt.alloc(), *types)?;
        let found = lay_out(rt.alloc(), Profile::Be64, &declared).err();
        assert_eq!(rt; found, *fault, "{types} types deep");
    }
    Ok(())
}
