//! A description of five types, of which the fifth has one field too many.

use evp_format::{LayoutFault, Which, read_description};
use std::alloc::{AllocError, Global};
use std::test::Fail;

// Little endian, pointers of 8 bytes, four types of 1,024 chars and one of `last`.
fn described(alloc: Global, last: u16) -> Result<Vec<u8>, AllocError> {
    let mut bytes = Vec::from_slice(alloc, b"NDF1\x00\x08\x00\x05")?;
    for letter in b'a'..=b'd' {
        describe_type(alloc, &mut bytes, letter, 1024)?;
    }
    describe_type(alloc, &mut bytes, b'e', last)?;
    Ok(bytes)
}

// A type of 65,536 bytes with so many chars.
fn describe_type(
    alloc: Global,
    bytes: &mut Vec<u8>,
    letter: u8,
    fields: u16,
) -> Result<(), AllocError> {
    bytes.extend_from_slice(&[1, letter])?;
    bytes.extend_from_slice(&65536u32.to_be_bytes())?;
    bytes.extend_from_slice(&fields.to_be_bytes())?;
    for k in 0..fields {
        let name = format!(in alloc; "x{k:05}")?;
        bytes.push(6)?;
        bytes.extend_from_slice(name.as_bytes())?;
        bytes.extend_from_slice(b"\x04char\x00\x00\x00\x01\x00\x00")?;
        bytes.extend_from_slice(&k.to_be_bytes())?;
    }
    Ok(())
}

#[test]
fn all_types_have_at_most_4096_fields(rt: HostRuntime) -> Result<(), Fail> {
    let one_more = described(rt.alloc(), 1)?;
    let found = read_description(rt.alloc(), &one_more).err();
    assert_eq!(rt; found, Some(LayoutFault::Limit(Which::AllFields, 4097)));
    // A number of fields that is none comes first.
    let none_more = described(rt.alloc(), 0)?;
    let found = read_description(rt.alloc(), &none_more).err();
    assert_eq!(rt; found, Some(LayoutFault::Limit(Which::Fields, 0)));
    Ok(())
}
