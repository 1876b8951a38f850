//! Records that are seen to be legal at a glance, and those next to them, which are walked. What is
//! wanted was worked out by hand.
ghost use Rattle.std.specs.Prelude.{◌<◌, length};

use super::{WIDE_TEXT, fault_shown, value_shown};
use std::test::Fail;

// A string, a list of numbers and its count, with pointers of 8 bytes.
const NEAR: &[u8] = b"NDF1\0\x08\0\x01\x01p\0\0\0\x18\0\x03\x01s\x06string\0\0\0\x08\0\0\0\0\
      \x01a\ninteger[n]\0\0\0\x04\0\0\0\x08\x01n\x07integer\0\0\0\x04\0\0\0\x10";

// The same, big endian, with an unsigned count.
const NEAR_BIG: &[u8] = b"NDF1\x01\x08\0\x01\x01p\0\0\0\x18\0\x03\x01s\x06string\0\0\0\x08\0\0\0\0\
      \x01a\ninteger[n]\0\0\0\x04\0\0\0\x08\x01n\x10unsigned integer\0\0\0\x04\0\0\0\x10";

// The same with pointers of 4 bytes.
const NARROW: &[u8] = b"NDF1\0\x04\0\x01\x01p\0\0\0\x0c\0\x03\x01s\x06string\0\0\0\x04\0\0\0\0\
      \x01a\ninteger[n]\0\0\0\x04\0\0\0\x04\x01n\x07integer\0\0\0\x04\0\0\0\x08";

const VALUES: [(&[u8], &[u8], &str); 8] = [
    (
        WIDE_TEXT,
        b"\x08\0\0\0\0\0\0\0abcdefghijklmnopqrstuvwxyzabcde\0",
        "{s=\x22abcdefghijklmnopqrstuvwxyzabcde\x22}",
    ),
    (
        WIDE_TEXT,
        b"\x08\0\0\0\0\0\0\0abcdefghijklmnopqrstuvwxyzabcdefg\0",
        "{s=\x22abcdefghijklmnopqrstuvwxyzabcdefg\x22}",
    ),
    (
        WIDE_TEXT,
        b"\x0a\0\0\0\0\0\0\0\xff\xffabcdefgh\0",
        "{s=\x22abcdefgh\x22}",
    ),
    (
        NEAR,
        b"\0\0\0\0\0\0\0\0\xff\xff\xff\xff\xff\xff\xff\xff\0\0\0\0\xff\xff\xff\xff",
        "{s=null,a=[],n=0}",
    ),
    (
        NEAR,
        b"\x18\0\0\0\0\0\0\0\x1c\0\0\0\0\0\0\0\x02\0\0\0\0\0\0\0ab\0\xff\x05\0\0\0\xfa\xff\xff\xff",
        "{s=\x22ab\x22,a=[5,-6],n=2}",
    ),
    (
        NEAR,
        b"\0\0\0\0\0\0\0\0\x18\0\0\0\0\0\0\0\x01\0\0\0\0\0\0\0\x07\0\0\0\0",
        "{s=null,a=[7],n=1}",
    ),
    (
        NEAR_BIG,
        b"\0\0\0\0\0\0\0\x18\0\0\0\0\0\0\0\x1c\0\0\0\x02\0\0\0\0ab\0\xff\0\0\0\x05\xff\xff\xff\xfa",
        "{s=\x22ab\x22,a=[5,-6],n=2}",
    ),
    (
        NARROW,
        b"\x0c\0\0\0\x10\0\0\0\x02\0\0\0ab\0\xff\x05\0\0\0\xfa\xff\xff\xff",
        "{s=\x22ab\x22,a=[5,-6],n=2}",
    ),
];

const FAULTS: [(&[u8], &[u8], &str); 9] = [
    (WIDE_TEXT, b"\x08\0\0\0\0\0\0\0abcdefghijkl", "no end s"),
    (WIDE_TEXT, b"\x11\0\0\0\0\0\0\0abcdefgh\0", "block place s"),
    (
        NEAR,
        b"\x17\0\0\0\0\0\0\0\x1c\0\0\0\0\0\0\0\x01\0\0\0\0\0\0\0ab\0\xff\x05\0\0\0",
        "block place s",
    ),
    (
        NEAR,
        b"\x18\0\0\0\0\0\0\0\x1c\0\0\0\0\0\0\0\x01\0\0\0\0\0\0\0abcd\0\0\0\0",
        "block place a",
    ),
    (
        NEAR,
        b"\x18\0\0\0\0\0\0\0\x1c\0\0\0\0\0\0\0\x02\0\0\0\0\0\0\0ab\0\xff\x05\0\0\0\xfa\xff\xff",
        "block place a",
    ),
    (
        NEAR,
        b"\0\0\0\0\0\0\0\0\x18\0\0\0\0\0\0\0\xff\xff\xff\xff\0\0\0\0\x05\0\0\0",
        "negative count a",
    ),
    (
        NEAR,
        b"\0\0\0\0\0\0\0\0\0\0\0\0\0\0\0\0\x01\0\0\0\0\0\0\0\x05\0\0\0",
        "null list a",
    ),
    (
        NEAR,
        b"\0\0\0\0\0\0\0\0\xff\xff\xff\xff\xff\xff\xff\xff\x01\0\0\0\0\0\0\0\x05\0\0\0",
        "block place a",
    ),
    (
        NEAR_BIG,
        b"\0\0\0\0\0\0\0\0\0\0\0\0\0\0\0\x18\xff\xff\xff\xff\0\0\0\0\0\0\0\x05",
        "block place a",
    ),
];

#[test]
fn values_near_and_far(rt: HostRuntime) -> Result<(), Fail> {
    let alloc = rt.alloc();
    for (description, bytes, expected) in VALUES {
        assert!(rt; bytes.len() < 1000);
        let text = value_shown(alloc, description, bytes).ok_or("a value")?;
        assert_eq!(rt; text.as_str(), expected);
    }
    Ok(())
}

#[test]
fn faults_near_and_far(rt: HostRuntime) -> Result<(), Fail> {
    let alloc = rt.alloc();
    for (description, bytes, expected) in FAULTS {
        assert!(rt; bytes.len() < 1000);
        let text = fault_shown(alloc, description, bytes).ok_or("a fault")?;
        assert_eq!(rt; text.as_str(), expected);
    }
    Ok(())
}
