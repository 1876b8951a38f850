//! Declared types without a layout, and the fault that is answered.

use super::{Struct, declared};
use evp_format::{LayoutFault, Which};
use evp_profile::{Profile, lay_out};
use std::alloc::{AllocError, Global};
use std::test::Fail;

// What is wrong, the types, the defaults of the last one's fields, and the fault, on le32.
type Row = (
    &'static str,
    &'static [Struct],
    &'static [i128],
    LayoutFault,
);

// One fault each, in the order of the parts.
const FAULTS: [Row; 30] = [
    (
        "a type's name with a digit first",
        &[("9p", &[("x", "integer", 4)])],
        &[],
        LayoutFault::BadName(0, None),
    ),
    (
        "no name",
        &[("", &[("x", "integer", 4)])],
        &[],
        LayoutFault::BadName(0, None),
    ),
    (
        "a reserved name",
        &[
            ("e", &[("a", "integer", 4)]),
            ("float", &[("x", "integer", 4)]),
        ],
        &[],
        LayoutFault::BadName(1, None),
    ),
    (
        "a name of two types",
        &[
            ("e", &[("a", "integer", 4)]),
            ("p", &[("x", "integer", 4)]),
            ("e", &[("x", "integer", 4)]),
        ],
        &[],
        LayoutFault::TypeTwice(2),
    ),
    (
        "no field",
        &[("e", &[("a", "integer", 4)]), ("p", &[])],
        &[],
        LayoutFault::Limit(Which::Fields, 0),
    ),
    (
        "a field's name with a dot",
        &[
            ("e", &[("a", "integer", 4)]),
            ("p", &[("x", "integer", 4), ("y.z", "char", 1)]),
        ],
        &[],
        LayoutFault::BadName(1, Some(1)),
    ),
    (
        "a field with a reserved name",
        &[("p", &[("float", "float", 4)])],
        &[],
        LayoutFault::Float(0, 0),
    ),
    (
        "a name of two fields",
        &[
            ("e", &[("a", "integer", 4)]),
            (
                "p",
                &[("x", "integer", 4), ("y", "char", 1), ("x", "char", 1)],
            ),
        ],
        &[],
        LayoutFault::Twice(1, 2),
    ),
    (
        "a blank behind the word",
        &[
            ("e", &[("a", "integer", 4)]),
            ("p", &[("x", "integer", 4), ("y", "integer ", 4)]),
        ],
        &[],
        LayoutFault::TypeText(1, 1),
    ),
    (
        "no elements",
        &[("p", &[("x", "integer[0]", 4)])],
        &[],
        LayoutFault::TypeText(0, 0),
    ),
    (
        "one element too many",
        &[("p", &[("x", "integer[65537]", 4)])],
        &[],
        LayoutFault::TypeText(0, 0),
    ),
    (
        "a leading zero",
        &[("p", &[("x", "integer[01]", 4)])],
        &[],
        LayoutFault::TypeText(0, 0),
    ),
    (
        "an empty bracket",
        &[("p", &[("x", "float[]", 4)])],
        &[],
        LayoutFault::TypeText(0, 0),
    ),
    (
        "`float`",
        &[
            ("e", &[("a", "integer", 4)]),
            ("p", &[("x", "integer", 4), ("y", "float[2]", 4)]),
        ],
        &[],
        LayoutFault::Float(1, 1),
    ),
    (
        "the type itself",
        &[("e", &[("a", "integer", 4)]), ("p", &[("x", "p", 0)])],
        &[],
        LayoutFault::UnknownType(1, 0),
    ),
    (
        "an unknown type",
        &[
            ("e", &[("a", "integer", 4)]),
            ("p", &[("x", "integer", 4), ("y", "intege", 4)]),
        ],
        &[],
        LayoutFault::UnknownType(1, 1),
    ),
    (
        "a number of three bytes",
        &[
            ("e", &[("a", "integer", 4)]),
            ("p", &[("x", "integer", 4), ("y", "integer", 3)]),
        ],
        &[],
        LayoutFault::Size(1, 1),
    ),
    (
        "a char of two bytes",
        &[("e", &[("a", "integer", 4)]), ("p", &[("x", "char", 2)])],
        &[],
        LayoutFault::Size(1, 0),
    ),
    (
        "a default past the range",
        &[
            ("e", &[("a", "integer", 4)]),
            ("p", &[("x", "integer", 4), ("y", "integer", 4)]),
        ],
        &[0, 1 << 31],
        LayoutFault::Default(1, 1),
    ),
    (
        "a default of a string",
        &[("p", &[("x", "string", 0)])],
        &[1],
        LayoutFault::Default(0, 0),
    ),
    (
        "a default of an array",
        &[("p", &[("x", "integer[2]", 4)])],
        &[1],
        LayoutFault::Default(0, 0),
    ),
    (
        "a default of a record",
        &[("e", &[("a", "integer", 4)]), ("p", &[("x", "e", 0)])],
        &[1],
        LayoutFault::Default(1, 0),
    ),
    (
        "a count that isn't there",
        &[
            ("e", &[("a", "integer", 4)]),
            ("p", &[("x", "integer", 4), ("y", "integer[n]", 4)]),
        ],
        &[],
        LayoutFault::CountField(1, 1),
    ),
    (
        "a count that is a char",
        &[
            ("e", &[("a", "integer", 4)]),
            ("p", &[("n", "char", 1), ("y", "integer[n]", 4)]),
        ],
        &[],
        LayoutFault::CountField(1, 1),
    ),
    (
        "a count that is an array",
        &[
            ("e", &[("a", "integer", 4)]),
            ("p", &[("n", "integer[2]", 4), ("y", "integer[n]", 4)]),
        ],
        &[],
        LayoutFault::CountField(1, 1),
    ),
    (
        "a default of a count",
        &[
            ("e", &[("a", "integer", 4)]),
            (
                "p",
                &[
                    ("x", "integer", 4),
                    ("n", "integer", 4),
                    ("y", "integer[n]", 4),
                ],
            ),
        ],
        &[0, 1],
        LayoutFault::CountDefault(1, 1),
    ),
    (
        "four bytes too long",
        &[
            ("e", &[("a", "integer", 4)]),
            ("p", &[("x", "integer[16385]", 4)]),
        ],
        &[],
        LayoutFault::Limit(Which::Length, 65540),
    ),
    (
        "the longest, and padding",
        &[("p", &[("x", "char[65535]", 1), ("y", "integer", 2)])],
        &[],
        LayoutFault::Limit(Which::Length, 65538),
    ),
    (
        "2^32 - 4096 bytes",
        &[
            ("e", &[("a", "char[65535]", 1)]),
            (
                "p",
                &[("x", "e[65535]", 0), ("y", "e", 0), ("z", "char[61440]", 1)],
            ),
        ],
        &[],
        LayoutFault::Limit(Which::Length, 4294963200),
    ),
    (
        "2^32 bytes, more than are told",
        &[
            ("e", &[("a", "char[65536]", 1)]),
            ("p", &[("x", "e[65536]", 0)]),
        ],
        &[],
        LayoutFault::Limit(Which::Length, 4294967295),
    ),
];

// Two faults each: the first in the order of the parts is answered.
const PAIRS: [Row; 16] = [
    (
        "a type's name, then its number of fields",
        &[("9p", &[])],
        &[],
        LayoutFault::BadName(0, None),
    ),
    (
        "a type's name is bad before it is there twice",
        &[("p", &[("x", "integer", 4)]), ("float", &[])],
        &[],
        LayoutFault::BadName(1, None),
    ),
    (
        "a type twice, then its number of fields",
        &[("e", &[("a", "integer", 4)]), ("e", &[])],
        &[],
        LayoutFault::TypeTwice(1),
    ),
    (
        "the number of fields, then the next type",
        &[("p", &[]), ("9p", &[("x", "integer", 4)])],
        &[],
        LayoutFault::Limit(Which::Fields, 0),
    ),
    (
        "a field's name, then its type text",
        &[("p", &[("9x", "integer ", 4)])],
        &[],
        LayoutFault::BadName(0, Some(0)),
    ),
    (
        "a field twice, then its type text",
        &[("p", &[("x", "integer", 4), ("x", "integer ", 4)])],
        &[],
        LayoutFault::Twice(0, 1),
    ),
    (
        "the form of a type text, then `float`",
        &[("p", &[("x", "float[0]", 4)])],
        &[],
        LayoutFault::TypeText(0, 0),
    ),
    (
        "the form of a type text, then its name",
        &[("p", &[("x", "q[0]", 4)])],
        &[],
        LayoutFault::TypeText(0, 0),
    ),
    (
        "`float`, then the size",
        &[("p", &[("x", "float", 3)])],
        &[],
        LayoutFault::Float(0, 0),
    ),
    (
        "an unknown type, then the default",
        &[("p", &[("x", "q", 4)])],
        &[1],
        LayoutFault::UnknownType(0, 0),
    ),
    (
        "the size, then the default",
        &[("p", &[("x", "integer", 3)])],
        &[1 << 40],
        LayoutFault::Size(0, 0),
    ),
    (
        "the default, then the next field's name",
        &[("p", &[("x", "integer", 4), ("9y", "char", 1)])],
        &[1 << 40],
        LayoutFault::Default(0, 0),
    ),
    (
        "each field, then the counts",
        &[("p", &[("y", "integer[n]", 4), ("z", "char", 2)])],
        &[],
        LayoutFault::Size(0, 1),
    ),
    (
        "a count, then a count's default",
        &[(
            "p",
            &[
                ("n", "integer", 4),
                ("y", "char[n]", 1),
                ("z", "char[m]", 1),
            ],
        )],
        &[1],
        LayoutFault::CountField(0, 2),
    ),
    (
        "a count's default, then the length",
        &[(
            "p",
            &[
                ("n", "integer", 4),
                ("y", "char[n]", 1),
                ("z", "integer[65536]", 4),
            ],
        )],
        &[1],
        LayoutFault::CountDefault(0, 0),
    ),
    (
        "the length, then the next type's name",
        &[
            ("p", &[("x", "integer[16385]", 4)]),
            ("p", &[("x", "integer", 4)]),
        ],
        &[],
        LayoutFault::Limit(Which::Length, 65540),
    ),
];

// The fault of these types.
fn fault_of(
    alloc: Global,
    structs: &[Struct],
    defaults: &[i128],
) -> Result<Option<LayoutFault>, AllocError> {
    let types = declared(alloc, structs, defaults)?;
    Ok(lay_out(alloc, Profile::Le32, &types).err())
}

#[test]
fn the_first_fault_is_answered(rt: HostRuntime) -> Result<(), Fail> {
    for (what, structs, defaults, fault) in FAULTS.iter().chain(&PAIRS) {
        let found = fault_of(rt.alloc(), structs, defaults)?;
        assert_eq!(rt; found, Some(*fault), "{what}");
    }
    Ok(())
}
