//! Descriptions that are read, and written again.

use crate::tests::{MIXED, SMALL};
use evp_format::{FormatId, id_of, read_description, write_description};
use std::test::Fail;

// Big endian, pointers of 8 bytes, `q` of 16 bytes with `y integer` of 4 bytes, whose default is
// -1, and `x integer` of 8 bytes.
const DEFAULTS: &[u8] = b"NDF2\x01\x08\0\x01\
        \x01q\0\0\0\x10\0\x02\
        \x01y\x07integer\0\0\0\x04\0\0\0\0\
        \xff\xff\xff\xff\xff\xff\xff\xff\xff\xff\xff\xff\xff\xff\xff\xff\
        \x01x\x07integer\0\0\0\x08\0\0\0\x08\
        \0\0\0\0\0\0\0\0\0\0\0\0\0\0\0\0";

// The greatest default that an integer of 4 bytes may have.
const GREATEST: &[u8] = b"NDF2\0\x04\0\x01\
        \x01p\0\0\0@\0\x01\
        \x01x\x07integer\0\0\0\x04\0\0\0\0\
        \0\0\0\0\0\0\0\0\0\0\0\0\x7f\xff\xff\xff";

// The SHA-256 of the small description, by sha256sum.
const SMALL_ID: [u8; 32] = [
    0xaa, 0x81, 0x92, 0x66, 0x12, 0xfc, 0x87, 0xfb, 0x20, 0x15, 0xaa, 0xfd, 0xb8, 0x10, 0xf4, 0x89,
    0x6e, 0x0f, 0x71, 0xfb, 0x96, 0x13, 0x5b, 0x69, 0xe5, 0x00, 0x54, 0x44, 0x52, 0xd2, 0x73, 0xf2,
];

#[test]
fn what_is_read_is_written_again(rt: HostRuntime) -> Result<(), Fail> {
    for bytes in [SMALL, DEFAULTS, MIXED, GREATEST] {
        let format = read_description(rt.alloc(), bytes)?;
        let written = write_description(rt.alloc(), &format)?;
        assert_eq!(rt; written.as_slice(), bytes);
    }
    Ok(())
}

#[test]
fn a_copy_is_the_same_format(rt: HostRuntime) -> Result<(), Fail> {
    let alloc = rt.alloc();
    let format = read_description(alloc, MIXED)?;
    let copy = format.copy(alloc)?;
    assert!(rt; copy == format);
    assert_eq!(rt; write_description(alloc, &copy)?.as_slice(), MIXED);
    assert!(rt; copy != read_description(alloc, SMALL)?);
    Ok(())
}

#[test]
fn the_identifier_is_the_sha_256(rt: HostRuntime) -> Result<(), Fail> {
    let format = read_description(rt.alloc(), SMALL)?;
    let id = id_of(rt.alloc(), &format)?;
    assert_eq!(rt; id, FormatId(SMALL_ID));
    Ok(())
}
