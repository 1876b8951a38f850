//! Descriptions with two faults: the first of them is found.

use crate::tests::first_fault;
use evp_format::{LayoutFault, Which};

// Two faults each, the first named first.
const PAIRS: [(&str, &[u8], LayoutFault); 17] = [
    (
        "the magic, then the byte order",
        b"NDF0\x09\x04\0\0",
        LayoutFault::Magic,
    ),
    (
        "the byte order, then the size of pointers",
        b"NDF1\x02\x02\0\x01\
            \x01p\0\0\0\x04\0\x01\
            \x01x\x07integer\0\0\0\x04\0\0\0\0",
        LayoutFault::ByteOrder,
    ),
    (
        "the size of pointers, then the number of types",
        b"NDF1\0\x02\0\0",
        LayoutFault::Pointer,
    ),
    (
        "a type's name, then its length",
        b"NDF1\0\x04\0\x01\
            \x019\0\0\0\0\0\x01\
            \x01x\x07integer\0\0\0\x04\0\0\0\0",
        LayoutFault::BadName(0, None),
    ),
    (
        "a type's length, then its number of fields",
        b"NDF1\0\x04\0\x01\
            \x01p\0\0\0\0\0\0",
        LayoutFault::Limit(Which::Length, 0),
    ),
    (
        "a type's name a second time, then its length",
        b"NDF1\0\x04\0\x02\
            \x01p\0\0\0\x04\0\x01\
            \x01x\x07integer\0\0\0\x04\0\0\0\0\
            \x01p\0\0\0\0\0\x01\
            \x01x\x07integer\0\0\0\x04\0\0\0\0",
        LayoutFault::TypeTwice(1),
    ),
    (
        "a field's name a second time, then its type",
        b"NDF1\0\x04\0\x01\
            \x01p\0\0\0@\0\x02\
            \x01x\x07integer\0\0\0\x04\0\0\0\0\
            \x01x\x05float\0\0\0\x03\0\0\0\0",
        LayoutFault::Twice(0, 1),
    ),
    (
        "brackets, then a float",
        b"NDF1\0\x04\0\x01\
            \x01p\0\0\0@\0\x01\
            \x01x\x06float[\0\0\0\x03\0\0\0c",
        LayoutFault::TypeText(0, 0),
    ),
    (
        "a float, then its size",
        b"NDF1\0\x04\0\x01\
            \x01p\0\0\0@\0\x01\
            \x01x\x05float\0\0\0\x03\0\0\0c",
        LayoutFault::Float(0, 0),
    ),
    (
        "an unknown type, then its size",
        b"NDF1\0\x04\0\x01\
            \x01p\0\0\0@\0\x01\
            \x01x\x01q\0\0\0\x03\0\0\0c",
        LayoutFault::UnknownType(0, 0),
    ),
    (
        "a size, then a place outside the type",
        b"NDF1\0\x04\0\x01\
            \x01p\0\0\0@\0\x01\
            \x01x\x07integer\0\0\0\x03\0\0\0c",
        LayoutFault::Size(0, 0),
    ),
    (
        "a place outside the type, then a default",
        b"NDF2\0\x04\0\x01\
            \x01p\0\0\0@\0\x01\
            \x01x\x07integer\0\0\0\x04\0\0\0c\
            \0\0\0\0\0\0\0\0\0\0\x01\0\0\0\0\0",
        LayoutFault::Outside(0, 0),
    ),
    (
        "a default, then the next field's count",
        b"NDF2\0\x04\0\x01\
            \x01p\0\0\0@\0\x02\
            \x01x\x07integer\0\0\0\x04\0\0\0\0\
            \0\0\0\0\0\0\0\0\0\0\x01\0\0\0\0\0\
            \x01y\x0ainteger[m]\0\0\0\x04\0\0\0\0\
            \0\0\0\0\0\0\0\0\0\0\0\0\0\0\0\0",
        LayoutFault::Default(0, 0),
    ),
    (
        "a count that isn't there, then an overlap",
        b"NDF1\0\x04\0\x01\
            \x01p\0\0\0@\0\x02\
            \x01x\x07integer\0\0\0\x04\0\0\0\0\
            \x01y\x0ainteger[m]\0\0\0\x04\0\0\0\0",
        LayoutFault::CountField(0, 1),
    ),
    (
        "a default of a count, then an overlap",
        b"NDF2\0\x04\0\x01\
            \x01p\0\0\0\x08\0\x02\
            \x01a\x0ainteger[n]\0\0\0\x04\0\0\0\0\
            \0\0\0\0\0\0\0\0\0\0\0\0\0\0\0\0\
            \x01n\x07integer\0\0\0\x04\0\0\0\x02\
            \0\0\0\0\0\0\0\0\0\0\0\0\0\0\0\x01",
        LayoutFault::CountDefault(0, 1),
    ),
    (
        "an overlap, then a byte behind the last",
        b"NDF1\0\x04\0\x01\
            \x01p\0\0\0@\0\x02\
            \x01x\x07integer\0\0\0\x04\0\0\0\0\
            \x01y\x07integer\0\0\0\x02\0\0\0\x02\
            \0",
        LayoutFault::Overlap(0, 0, 1),
    ),
    (
        "no default but 0, then a byte behind the last",
        b"NDF2\0\x04\0\x01\
            \x01p\0\0\0@\0\x01\
            \x01x\x07integer\0\0\0\x04\0\0\0\0\
            \0\0\0\0\0\0\0\0\0\0\0\0\0\0\0\0\
            \0",
        LayoutFault::Plain,
    ),
];

#[test]
fn the_first_of_two_faults(rt: HostRuntime) {
    for (shows, bytes, fault) in &PAIRS {
        assert_eq!(rt; first_fault(rt.alloc(), bytes), Some(*fault), "{shows}");
    }
}
