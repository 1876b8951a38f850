//! Descriptions with one fault: in the head, in a name, in a number that has a limit.

use crate::tests::first_fault;
use evp_format::{LayoutFault, Which};

// The head, the end, and numbers with a limit.
const HEADS: [(&str, &[u8], LayoutFault); 15] = [
    ("no bytes", b"", LayoutFault::Short(0)),
    ("a part of the magic", b"NDF", LayoutFault::Short(0)),
    (
        "an offset that ends early",
        b"NDF1\0\x04\0\x01\
            \x01p\0\0\0\x04\0\x01\
            \x01x\x07integer\0\0\0\x04\0\0\0",
        LayoutFault::Short(30),
    ),
    (
        "a name that ends early",
        b"NDF1\0\x04\0\x01\
            \x05p",
        LayoutFault::Short(8),
    ),
    (
        "another magic",
        b"NDF3\0\x04\0\x01\
            \x01p\0\0\0\x04\0\x01\
            \x01x\x07integer\0\0\0\x04\0\0\0\0",
        LayoutFault::Magic,
    ),
    (
        "a byte order of 2",
        b"NDF1\x02\x04\0\x01\
            \x01p\0\0\0\x04\0\x01\
            \x01x\x07integer\0\0\0\x04\0\0\0\0",
        LayoutFault::ByteOrder,
    ),
    (
        "pointers of 2 bytes",
        b"NDF1\0\x02\0\x01\
            \x01p\0\0\0\x04\0\x01\
            \x01x\x07integer\0\0\0\x04\0\0\0\0",
        LayoutFault::Pointer,
    ),
    (
        "a byte behind the last",
        b"NDF1\0\x04\0\x01\
            \x01p\0\0\0\x04\0\x01\
            \x01x\x07integer\0\0\0\x04\0\0\0\0\
            \0",
        LayoutFault::Trailing(34),
    ),
    (
        "no types",
        b"NDF1\0\x04\0\0",
        LayoutFault::Limit(Which::Types, 0),
    ),
    (
        "65 types",
        b"NDF1\0\x04\0A",
        LayoutFault::Limit(Which::Types, 65),
    ),
    (
        "a type of no bytes",
        b"NDF1\0\x04\0\x01\
            \x01p\0\0\0\0\0\x01\
            \x01x\x07integer\0\0\0\x04\0\0\0\0",
        LayoutFault::Limit(Which::Length, 0),
    ),
    (
        "a type of 65,537 bytes",
        b"NDF1\0\x04\0\x01\
            \x01p\0\x01\0\x01\0\x01\
            \x01x\x07integer\0\0\0\x04\0\0\0\0",
        LayoutFault::Limit(Which::Length, 65537),
    ),
    (
        "a type of no fields",
        b"NDF1\0\x04\0\x01\
            \x01p\0\0\0\x04\0\0",
        LayoutFault::Limit(Which::Fields, 0),
    ),
    (
        "a type of 1,025 fields",
        b"NDF1\0\x04\0\x01\
            \x01p\0\0\0\x04\x04\x01\
            \x01x\x07integer\0\0\0\x04\0\0\0\0",
        LayoutFault::Limit(Which::Fields, 1025),
    ),
    (
        "no default but 0, in the form that states them",
        b"NDF2\0\x04\0\x01\
            \x01p\0\0\0@\0\x01\
            \x01x\x07integer\0\0\0\x04\0\0\0\0\
            \0\0\0\0\0\0\0\0\0\0\0\0\0\0\0\0",
        LayoutFault::Plain,
    ),
];

// Names.
const NAMES: [(&str, &[u8], LayoutFault); 5] = [
    (
        "a type's name with a digit in front",
        b"NDF1\0\x04\0\x01\
            \x021p\0\0\0\x04\0\x01\
            \x01x\x07integer\0\0\0\x04\0\0\0\0",
        LayoutFault::BadName(0, None),
    ),
    (
        "a reserved word as a type's name",
        b"NDF1\0\x04\0\x01\
            \x04char\0\0\0\x04\0\x01\
            \x01x\x07integer\0\0\0\x04\0\0\0\0",
        LayoutFault::BadName(0, None),
    ),
    (
        "an empty name of a field",
        b"NDF1\0\x04\0\x01\
            \x01p\0\0\0@\0\x01\
            \0\x07integer\0\0\0\x04\0\0\0\0",
        LayoutFault::BadName(0, Some(0)),
    ),
    (
        "two fields of one name",
        b"NDF1\0\x04\0\x01\
            \x01p\0\0\0@\0\x02\
            \x01x\x07integer\0\0\0\x04\0\0\0\0\
            \x01x\x07integer\0\0\0\x04\0\0\0\x04",
        LayoutFault::Twice(0, 1),
    ),
    (
        "two types of one name",
        b"NDF1\0\x04\0\x02\
            \x01p\0\0\0\x04\0\x01\
            \x01x\x07integer\0\0\0\x04\0\0\0\0\
            \x01p\0\0\0\x04\0\x01\
            \x01x\x07integer\0\0\0\x04\0\0\0\0",
        LayoutFault::TypeTwice(1),
    ),
];

#[test]
fn faults_of_heads_and_names(rt: HostRuntime) {
    for (shows, bytes, fault) in &HEADS {
        assert_eq!(rt; first_fault(rt.alloc(), bytes), Some(*fault), "{shows}");
    }
    for (shows, bytes, fault) in &NAMES {
        assert_eq!(rt; first_fault(rt.alloc(), bytes), Some(*fault), "{shows}");
    }
}
