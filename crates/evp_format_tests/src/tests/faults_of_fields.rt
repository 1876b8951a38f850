//! Descriptions with one fault in a field: its type, its place, its count or its default.

use crate::tests::first_fault;
use evp_format::LayoutFault;

// Types and sizes.
const TYPES: [(&str, &[u8], LayoutFault); 12] = [
    (
        "a blank inside a word",
        b"NDF1\0\x04\0\x01\
            \x01p\0\0\0@\0\x01\
            \x01x\x08int eger\0\0\0\x04\0\0\0\0",
        LayoutFault::TypeText(0, 0),
    ),
    (
        "an array of no elements",
        b"NDF1\0\x04\0\x01\
            \x01p\0\0\0@\0\x01\
            \x01x\x0ainteger[0]\0\0\0\x04\0\0\0\0",
        LayoutFault::TypeText(0, 0),
    ),
    (
        "an array of 65,537 elements",
        b"NDF1\0\x04\0\x01\
            \x01p\0\0\0@\0\x01\
            \x01x\x0einteger[65537]\0\0\0\x04\0\0\0\0",
        LayoutFault::TypeText(0, 0),
    ),
    (
        "a count of elements with a leading zero",
        b"NDF1\0\x04\0\x01\
            \x01p\0\0\0@\0\x01\
            \x01x\x0binteger[03]\0\0\0\x04\0\0\0\0",
        LayoutFault::TypeText(0, 0),
    ),
    (
        "a bracket that isn't closed",
        b"NDF1\0\x04\0\x01\
            \x01p\0\0\0@\0\x01\
            \x01x\x09integer[3\0\0\0\x04\0\0\0\0",
        LayoutFault::TypeText(0, 0),
    ),
    (
        "one of a type's two words",
        b"NDF1\0\x04\0\x01\
            \x01p\0\0\0@\0\x01\
            \x01x\x08unsigned\0\0\0\x04\0\0\0\0",
        LayoutFault::TypeText(0, 0),
    ),
    (
        "a float",
        b"NDF1\0\x04\0\x01\
            \x01p\0\0\0@\0\x01\
            \x01x\x05float\0\0\0\x04\0\0\0\0",
        LayoutFault::Float(0, 0),
    ),
    (
        "a type inside itself",
        b"NDF1\0\x04\0\x01\
            \x01p\0\0\0@\0\x01\
            \x01x\x01p\0\0\0\x04\0\0\0\0",
        LayoutFault::UnknownType(0, 0),
    ),
    (
        "an integer of 3 bytes",
        b"NDF1\0\x04\0\x01\
            \x01p\0\0\0@\0\x01\
            \x01x\x07integer\0\0\0\x03\0\0\0\0",
        LayoutFault::Size(0, 0),
    ),
    (
        "a char of 2 bytes",
        b"NDF1\0\x04\0\x01\
            \x01p\0\0\0@\0\x01\
            \x01x\x04char\0\0\0\x02\0\0\0\0",
        LayoutFault::Size(0, 0),
    ),
    (
        "a string of 8 bytes, where pointers have 4",
        b"NDF1\0\x04\0\x01\
            \x01p\0\0\0@\0\x01\
            \x01x\x06string\0\0\0\x08\0\0\0\0",
        LayoutFault::Size(0, 0),
    ),
    (
        "a record of another size than its type's length",
        b"NDF1\0\x04\0\x02\
            \x01e\0\0\0\x04\0\x01\
            \x01x\x07integer\0\0\0\x04\0\0\0\0\
            \x01p\0\0\0\x08\0\x01\
            \x01x\x01e\0\0\0\x08\0\0\0\0",
        LayoutFault::Size(1, 0),
    ),
];

// Places, counts and defaults.
const PLACES: [(&str, &[u8], LayoutFault); 10] = [
    (
        "a field that ends past its type",
        b"NDF1\0\x04\0\x01\
            \x01p\0\0\0\x04\0\x01\
            \x01x\x07integer\0\0\0\x04\0\0\0\x01",
        LayoutFault::Outside(0, 0),
    ),
    (
        "an array that ends past its type",
        b"NDF1\0\x04\0\x01\
            \x01p\0\0\0@\0\x01\
            \x01x\x0binteger[16]\0\0\0\x04\0\0\0\x01",
        LayoutFault::Outside(0, 0),
    ),
    (
        "a count that isn't there",
        b"NDF1\0\x04\0\x01\
            \x01p\0\0\0@\0\x01\
            \x01x\x0ainteger[m]\0\0\0\x04\0\0\0\0",
        LayoutFault::CountField(0, 0),
    ),
    (
        "a count that is an enumeration",
        b"NDF1\0\x04\0\x01\
            \x01p\0\0\0@\0\x02\
            \x01x\x0ainteger[n]\0\0\0\x04\0\0\0\0\
            \x01n\x0benumeration\0\0\0\x04\0\0\0\x04",
        LayoutFault::CountField(0, 0),
    ),
    (
        "two fields that share bytes",
        b"NDF1\0\x04\0\x01\
            \x01p\0\0\0@\0\x02\
            \x01x\x07integer\0\0\0\x04\0\0\0\0\
            \x01y\x07integer\0\0\0\x02\0\0\0\x02",
        LayoutFault::Overlap(0, 0, 1),
    ),
    (
        "two overlaps: the one of the earliest field",
        b"NDF1\0\x04\0\x01\
            \x01p\0\0\0@\0\x04\
            \x01a\x07integer\0\0\0\x04\0\0\0\x08\
            \x01b\x07integer\0\0\0\x04\0\0\0\0\
            \x01c\x07integer\0\0\0\x04\0\0\0\x03\
            \x01d\x07integer\0\0\0\x04\0\0\0\x09",
        LayoutFault::Overlap(0, 0, 3),
    ),
    (
        "a default past its field's range",
        b"NDF2\0\x04\0\x01\
            \x01p\0\0\0@\0\x01\
            \x01x\x07integer\0\0\0\x04\0\0\0\0\
            \0\0\0\0\0\0\0\0\0\0\0\0\x80\0\0\0",
        LayoutFault::Default(0, 0),
    ),
    (
        "a default of a string",
        b"NDF2\0\x04\0\x01\
            \x01p\0\0\0@\0\x01\
            \x01x\x06string\0\0\0\x04\0\0\0\0\
            \0\0\0\0\0\0\0\0\0\0\0\0\0\0\0\x01",
        LayoutFault::Default(0, 0),
    ),
    (
        "a default of an array",
        b"NDF2\0\x04\0\x01\
            \x01p\0\0\0@\0\x01\
            \x01x\x0ainteger[2]\0\0\0\x04\0\0\0\0\
            \0\0\0\0\0\0\0\0\0\0\0\0\0\0\0\x01",
        LayoutFault::Default(0, 0),
    ),
    (
        "a default of a count",
        b"NDF2\0\x04\0\x01\
            \x01p\0\0\0\x08\0\x02\
            \x01a\x0ainteger[n]\0\0\0\x04\0\0\0\0\
            \0\0\0\0\0\0\0\0\0\0\0\0\0\0\0\0\
            \x01n\x07integer\0\0\0\x04\0\0\0\x04\
            \0\0\0\0\0\0\0\0\0\0\0\0\0\0\0\x01",
        LayoutFault::CountDefault(0, 1),
    ),
];

#[test]
fn faults_of_fields(rt: HostRuntime) {
    for (shows, bytes, fault) in &TYPES {
        assert_eq!(rt; first_fault(rt.alloc(), bytes), Some(*fault), "{shows}");
    }
    for (shows, bytes, fault) in &PLACES {
        assert_eq!(rt; first_fault(rt.alloc(), bytes), Some(*fault), "{shows}");
    }
}
