//! Types nested as deep as the limit allows, and one level deeper.

use crate::tests::first_fault;
use evp_format::{LayoutFault, Which};
use std::alloc::{AllocError, Global};
use std::test::Fail;

// A description of so many types, up to `p`, the sixteenth: each of 4 bytes with one field, which is
// an integer in `a`, and in each other a record of the type before.
fn nested(alloc: Global, types: u8) -> Result<Vec<u8>, AllocError> {
    let mut bytes = Vec::from_slice(alloc, b"NDF1\0\x04\0")?;
    bytes.push(types)?;
    bytes.extend_from_slice(b"\x01a\0\0\0\x04\0\x01\x01x\x07integer\0\0\0\x04\0\0\0\0")?;
    for letter in b'b'..=b'p' {
        bytes.extend_from_slice(&[1, letter])?;
        bytes.extend_from_slice(b"\0\0\0\x04\0\x01\x01x")?;
        bytes.extend_from_slice(&[1, letter - 1])?;
        bytes.extend_from_slice(b"\0\0\0\x04\0\0\0\0")?;
    }
    Ok(bytes)
}

#[test]
fn at_most_16_levels(rt: HostRuntime) -> Result<(), Fail> {
    let alloc = rt.alloc();
    let sixteen = nested(alloc, 16)?;
    assert_eq!(rt; first_fault(alloc, &sixteen), None);
    let fault = Some(LayoutFault::Limit(Which::Nesting, 17));
    let mut deeper = nested(alloc, 17)?;
    deeper.extend_from_slice(b"\x01q\0\0\0\x04\0\x01\x01x\x01p\0\0\0\x04\0\0\0\0")?;
    assert_eq!(rt; first_fault(alloc, &deeper), fault);
    // An overlap comes behind it.
    let mut shared = nested(alloc, 17)?;
    shared.extend_from_slice(b"\x01q\0\0\0\x04\0\x02\x01x\x01p\0\0\0\x04\0\0\0\0")?;
    shared.extend_from_slice(b"\x01y\x07integer\0\0\0\x04\0\0\0\0")?;
    assert_eq!(rt; first_fault(alloc, &shared), fault);
    Ok(())
}
