//! Structs, and how C compilers lay them out.

use super::{Struct, declared};
use evp_format::Format;
use evp_profile::{Profile, lay_out};
use std::test::Fail;

// A struct's length, and the offset of each field.
type Layout = (u32, &'static [u32]);

const PROFILES: [Profile; 4] = [Profile::Le64, Profile::Le32, Profile::Be64, Profile::Be32];

const CHAR_I64: Struct = ("char_i64", &[("c", "char", 1), ("v", "integer", 8)]);

const FIXED_ZIG: Struct = (
    "fixed_zig",
    &[
        ("a", "integer", 1),
        ("b", "integer", 8),
        ("c", "unsigned integer", 1),
        ("d", "unsigned integer", 8),
        ("e", "integer", 2),
        ("f", "integer", 4),
        ("g", "unsigned integer", 2),
        ("h", "unsigned integer", 4),
        ("i", "integer", 1),
    ],
);

const BOOLS: Struct = (
    "bools",
    &[
        ("a", "boolean", 1),
        ("b", "integer", 4),
        ("c", "boolean", 1),
        ("d", "boolean", 1),
        ("e", "integer", 2),
        ("f", "boolean[5]", 1),
        ("g", "integer", 8),
        ("h", "boolean", 1),
    ],
);

const BOOL_WIDE: Struct = (
    "bool_wide",
    &[
        ("a", "boolean", 1),
        ("b", "boolean", 4),
        ("c", "boolean", 1),
        ("d", "boolean", 8),
        ("e", "boolean", 2),
        ("f", "boolean[3]", 4),
    ],
);

const ENUMS: Struct = (
    "enums",
    &[
        ("c", "char", 1),
        ("e", "enumeration", 4),
        ("d", "char", 1),
        ("f", "enumeration", 4),
        ("g", "enumeration[3]", 4),
        ("h", "char", 1),
    ],
);

const STR_PAD: Struct = (
    "str_pad",
    &[
        ("c", "char", 1),
        ("s", "string", 0),
        ("d", "char", 1),
        ("t", "string", 0),
        ("e", "integer", 2),
    ],
);

const STR_ARR: Struct = ("str_arr", &[("s", "string[3]", 0), ("c", "integer", 1)]);

const COUNTED_TWO: Struct = (
    "counted_two",
    &[
        ("n", "unsigned integer", 2),
        ("a", "integer[n]", 4),
        ("m", "integer", 1),
        ("b", "unsigned integer[m]", 8),
    ],
);

const SENSOR: Struct = (
    "sensor",
    &[
        ("id", "unsigned integer", 4),
        ("name", "string", 0),
        ("n", "integer", 4),
        ("v", "integer[n]", 2),
    ],
);

const POINT8: Struct = (
    "point8",
    &[
        ("x", "integer", 1),
        ("y", "integer", 1),
        ("z", "integer", 1),
    ],
);

const NEST_POINT8: Struct = (
    "nest_point8",
    &[("c", "char", 1), ("p", "point8", 0), ("q", "integer", 2)],
);

const INNER64: Struct = (
    "inner64",
    &[
        ("a", "integer", 2),
        ("b", "integer", 8),
        ("c", "integer", 1),
    ],
);

const NEST_ARR: Struct = (
    "nest_arr",
    &[
        ("a", "integer", 1),
        ("b", "inner64[3]", 0),
        ("c", "integer", 2),
    ],
);

const DEEP_A: Struct = ("deep_a", &[("a", "integer", 1), ("b", "integer", 8)]);

const DEEP_B: Struct = (
    "deep_b",
    &[("x", "integer", 1), ("y", "deep_a", 0), ("z", "integer", 1)],
);

const DEEP_C: Struct = (
    "deep_c",
    &[
        ("p", "integer", 2),
        ("q", "deep_b[2]", 0),
        ("r", "integer", 1),
    ],
);

const DEEP_D: Struct = (
    "deep_d",
    &[("s", "integer", 1), ("t", "deep_c", 0), ("u", "string", 0)],
);

const ARR_PAD: Struct = (
    "arr_pad",
    &[
        ("a", "integer", 1),
        ("b", "integer[1]", 8),
        ("c", "integer[1]", 1),
        ("d", "integer[2]", 4),
        ("e", "integer[7]", 1),
    ],
);

const ITEM: Struct = (
    "item",
    &[
        ("id", "unsigned integer", 4),
        ("label", "string", 0),
        ("qty", "integer", 2),
    ],
);

const ORDER: Struct = (
    "order",
    &[
        ("customer", "string", 0),
        ("n", "unsigned integer", 2),
        ("items", "item[n]", 0),
        ("total", "integer", 8),
    ],
);

// Structs behind those that they hold, and the layout of the last, profile by profile, as C
// compilers make it: gcc 12.2 for x86-64, i386, s390x and 32-bit PowerPC, measured in compiled
// objects.
const LAYOUTS: [(&[Struct], [Layout; 4]); 14] = [
    (
        &[CHAR_I64],
        [(16, &[0, 8]), (12, &[0, 4]), (16, &[0, 8]), (16, &[0, 8])],
    ),
    (
        &[FIXED_ZIG],
        [
            (56, &[0, 8, 16, 24, 32, 36, 40, 44, 48]),
            (44, &[0, 4, 12, 16, 24, 28, 32, 36, 40]),
            (56, &[0, 8, 16, 24, 32, 36, 40, 44, 48]),
            (56, &[0, 8, 16, 24, 32, 36, 40, 44, 48]),
        ],
    ),
    (
        &[BOOLS],
        [
            (40, &[0, 4, 8, 9, 10, 12, 24, 32]),
            (32, &[0, 4, 8, 9, 10, 12, 20, 28]),
            (40, &[0, 4, 8, 9, 10, 12, 24, 32]),
            (40, &[0, 4, 8, 9, 10, 12, 24, 32]),
        ],
    ),
    (
        &[BOOL_WIDE],
        [
            (40, &[0, 4, 8, 16, 24, 28]),
            (36, &[0, 4, 8, 12, 20, 24]),
            (40, &[0, 4, 8, 16, 24, 28]),
            (40, &[0, 4, 8, 16, 24, 28]),
        ],
    ),
    (
        &[ENUMS],
        [
            (32, &[0, 4, 8, 12, 16, 28]),
            (32, &[0, 4, 8, 12, 16, 28]),
            (32, &[0, 4, 8, 12, 16, 28]),
            (32, &[0, 4, 8, 12, 16, 28]),
        ],
    ),
    (
        &[STR_PAD],
        [
            (40, &[0, 8, 16, 24, 32]),
            (20, &[0, 4, 8, 12, 16]),
            (40, &[0, 8, 16, 24, 32]),
            (20, &[0, 4, 8, 12, 16]),
        ],
    ),
    (
        &[STR_ARR],
        [
            (32, &[0, 24]),
            (16, &[0, 12]),
            (32, &[0, 24]),
            (16, &[0, 12]),
        ],
    ),
    (
        &[COUNTED_TWO],
        [
            (32, &[0, 8, 16, 24]),
            (16, &[0, 4, 8, 12]),
            (32, &[0, 8, 16, 24]),
            (16, &[0, 4, 8, 12]),
        ],
    ),
    (
        &[SENSOR],
        [
            (32, &[0, 8, 16, 24]),
            (16, &[0, 4, 8, 12]),
            (32, &[0, 8, 16, 24]),
            (16, &[0, 4, 8, 12]),
        ],
    ),
    (
        &[POINT8, NEST_POINT8],
        [
            (6, &[0, 1, 4]),
            (6, &[0, 1, 4]),
            (6, &[0, 1, 4]),
            (6, &[0, 1, 4]),
        ],
    ),
    (
        &[INNER64, NEST_ARR],
        [
            (88, &[0, 8, 80]),
            (56, &[0, 4, 52]),
            (88, &[0, 8, 80]),
            (88, &[0, 8, 80]),
        ],
    ),
    (
        &[DEEP_A, DEEP_B, DEEP_C, DEEP_D],
        [
            (96, &[0, 8, 88]),
            (56, &[0, 4, 52]),
            (96, &[0, 8, 88]),
            (96, &[0, 8, 88]),
        ],
    ),
    (
        &[ARR_PAD],
        [
            (40, &[0, 8, 16, 20, 28]),
            (32, &[0, 4, 12, 16, 24]),
            (40, &[0, 8, 16, 20, 28]),
            (40, &[0, 8, 16, 20, 28]),
        ],
    ),
    (
        &[ITEM, ORDER],
        [
            (32, &[0, 8, 16, 24]),
            (20, &[0, 4, 8, 12]),
            (32, &[0, 8, 16, 24]),
            (24, &[0, 4, 8, 16]),
        ],
    ),
];

// Whether the last type has this layout.
fn is_laid(format: &Format, layout: &Layout) -> bool {
    match format.types().last() {
        Some(last) => {
            let fields = last.fields.as_slice();
            let offsets = fields.iter().map(|field| field.offset);
            last.length == layout.0 && offsets.eq(layout.1.iter().copied())
        }
        None => false,
    }
}

#[test]
fn structs_lie_as_c_compilers_lay_them(rt: HostRuntime) -> Result<(), Fail> {
    for (structs, layouts) in &LAYOUTS {
        let types = declared(rt.alloc(), structs, &[])?;
        for (profile, layout) in PROFILES.iter().zip(layouts) {
            let format = lay_out(rt.alloc(), *profile, &types)?;
            assert!(rt; is_laid(&format, layout), "{profile:?} {structs:?}");
        }
    }
    Ok(())
}
