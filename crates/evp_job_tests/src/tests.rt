//! Documents up to their sources, and their first faults.

use crate::documents::{Row, are_read};
use std::test::Fail;

// Up to the types of a format, and up to the fields of its first type.
const TYPES: &str = "{\"formats\":[{\"name\":\"q\",\"profile\":\"be64\",\"types\":[";

const FIELDS: &str =
    "{\"formats\":[{\"name\":\"q\",\"profile\":\"be64\",\"types\":[{\"name\":\"q\",\"fields\":[";

// A format and a source.
const FORMAT: &str =
    "{\"name\":\"q\",\"profile\":\"be64\",\"types\":[{\"name\":\"q\",\"fields\":[[\"x\",\"integer\",8]]}]}";

const SOURCE: &str = "{\"name\":\"a\",\"file\":\"f\",\"stone\":0}";

// Pieces that make a document together, and the answer.
const ROWS: [Row; 36] = [
    ("no JSON text", &["{"], "not json"),
    ("a list", &["[]"], "member ."),
    (
        "a limit that is too low",
        &["{\"limit\":63}"],
        "limit at limit: 63",
    ),
    (
        "a limit that is too high",
        &["{\"limit\":262145}"],
        "limit at limit: 262145",
    ),
    ("a fraction", &["{\"limit\":64.0}"], "member limit"),
    ("an exponent", &["{\"limit\":1e2}"], "member limit"),
    ("a negative zero", &["{\"queue\":-0}"], "member queue"),
    ("a negative number", &["{\"queue\":-1}"], "member queue"),
    (
        "a number of 65 bits",
        &["{\"queue\":18446744073709551616}"],
        "member queue",
    ),
    ("a queue of none", &["{\"queue\":0}"], "limit at queue: 0"),
    (
        "the limit before the queue",
        &["{\"queue\":0,\"limit\":\"x\"}"],
        "member limit",
    ),
    (
        "the last of two members",
        &["{\"queue\":0,\"queue\":1}"],
        "member formats",
    ),
    ("no formats", &["{}"], "member formats"),
    (
        "formats that are no list",
        &["{\"formats\":{}}"],
        "member formats",
    ),
    (
        "a format that is no object",
        &["{\"formats\":[1]}"],
        "member formats[0]",
    ),
    (
        "a format without a name",
        &["{\"formats\":[{\"extra\":1}]}"],
        "member formats[0].name",
    ),
    (
        "a name out of form",
        &["{\"formats\":[{\"name\":\"1a\"}]}"],
        "member formats[0].name",
    ),
    (
        "another profile",
        &["{\"formats\":[{\"name\":\"q\",\"profile\":\"le16\"}]}"],
        "member formats[0].profile",
    ),
    (
        "a format without types",
        &["{\"formats\":[{\"name\":\"q\",\"profile\":\"le64\"}]}"],
        "member formats[0].types",
    ),
    (
        "a type without fields",
        &[TYPES, "{\"name\":\"q\"}]}]}"],
        "member formats[0].types[0].fields",
    ),
    (
        "a field of one value",
        &[FIELDS, "[\"x\"]]}]}]}"],
        "member formats[0].types[0].fields[0]",
    ),
    (
        "a type text that is none",
        &[FIELDS, "[\"x\",7]]}]}]}"],
        "member formats[0].types[0].fields[0][1]",
    ),
    (
        "a size of 33 bits",
        &[FIELDS, "[\"x\",\"integer\",4294967296]]}]}]}"],
        "limit at formats[0].types[0].fields[0][2]: 4294967296",
    ),
    (
        "a default with a fraction",
        &[FIELDS, "[\"x\",\"integer\",8,1.0]]}]}]}"],
        "member formats[0].types[0].fields[0][3]",
    ),
    (
        "a further member of a type",
        &[FIELDS, "[\"x\",\"integer\",8]],\"y\":0}]}]}"],
        "member formats[0].types[0]",
    ),
    (
        "a further member of a format",
        &[FIELDS, "[\"x\",\"integer\",8]]}],\"y\":0}]}"],
        "member formats[0]",
    ),
    (
        "a default of a string",
        &[FIELDS, "[\"s\",\"string\",0,1]]}]}]}"],
        "layout of format 0: default, type 0 field 0",
    ),
    (
        "no types",
        &[TYPES, "]}]}"],
        "layout of format 0: limit types: 0",
    ),
    (
        "a record longer than the limit",
        &[
            "{\"limit\":64,\"formats\":[{\"name\":\"q\",\"profile\":\"be64\",\"types\":[",
            "{\"name\":\"q\",\"fields\":[[\"x\",\"integer[9]\",8]]}]}]}",
        ],
        "format 0 is longer than the limit",
    ),
    (
        "a format's name twice",
        &["{\"formats\":[", FORMAT, ",", FORMAT, "]}"],
        "name used twice at formats[1].name",
    ),
    (
        "no sources",
        &["{\"formats\":[],\"sources\":[]}"],
        "limit at sources: 0",
    ),
    (
        "a source without a file's name",
        &["{\"formats\":[],\"sources\":[{\"name\":\"a\",\"file\":\"\",\"stone\":0}]}"],
        "member sources[0].file",
    ),
    (
        "a stone above 65,535",
        &["{\"formats\":[],\"sources\":[{\"name\":\"a\",\"file\":\"f\",\"stone\":65536}]}"],
        "limit at sources[0].stone: 65536",
    ),
    (
        "a source's name twice",
        &["{\"formats\":[],\"sources\":[", SOURCE, ",", SOURCE, "]}"],
        "name used twice at sources[1].name",
    ),
    (
        "a source without its stone, and a stone without its target",
        &[
            "{\"formats\":[],\"sources\":[{\"name\":\"a\",\"file\":\"f\",\"stone\":1}],",
            "\"stones\":[{\"kind\":\"split\",\"targets\":[9]}],\"rounds\":[{\"submit\":[1],\"frozen\":[]}]}",
        ],
        "no stone of source 0",
    ),
    (
        "members in another order",
        &[
            "{\"rounds\":[{\"frozen\":[],\"submit\":[1]}],\"stones\":[{\"format\":\"q\",\"kind\":\"terminal\"}],",
            "\"formats\":[",
            FORMAT,
            "],\"sources\":[{\"stone\":0,\"file\":\"f\",\"name\":\"a\"}],\"limit\":100}",
        ],
        "limit 100 queue 64 formats 1 sources 1 stones 1 rounds 1 routes 1",
    ),
];

#[test]
fn heads_and_first_faults(rt: HostRuntime) -> Result<(), Fail> {
    are_read(&rt, rt.alloc(), &ROWS)
}
