//! Rounds and further members, and their faults.

use crate::documents::{HEAD, Row, are_read};
use std::test::Fail;

// Pieces that make a document together, and the answer.
const ROWS: [Row; 11] = [
    (
        "no rounds",
        &[
            HEAD,
            "{\"kind\":\"terminal\",\"format\":\"q\"}",
            "],\"rounds\":[]}",
        ],
        "limit at rounds: 0",
    ),
    (
        "rounds that are missing",
        &[HEAD, "{\"kind\":\"terminal\",\"format\":\"q\"}", "]}"],
        "member rounds",
    ),
    (
        "fewer numbers than sources",
        &[
            HEAD,
            "{\"kind\":\"terminal\",\"format\":\"q\"}",
            "],\"rounds\":[{\"submit\":[],\"frozen\":[]}]}",
        ],
        "member rounds[0].submit",
    ),
    (
        "more records than a source has",
        &[
            HEAD,
            "{\"kind\":\"terminal\",\"format\":\"q\"}",
            "],\"rounds\":[{\"submit\":[131073],\"frozen\":[]}]}",
        ],
        "limit at rounds[0].submit[0]: 131073",
    ),
    (
        "a negative zero",
        &[
            HEAD,
            "{\"kind\":\"terminal\",\"format\":\"q\"}",
            "],\"rounds\":[{\"submit\":[-0],\"frozen\":[]}]}",
        ],
        "member rounds[0].submit[0]",
    ),
    (
        "an exponent",
        &[
            HEAD,
            "{\"kind\":\"terminal\",\"format\":\"q\"}",
            "],\"rounds\":[{\"submit\":[1e2],\"frozen\":[]}]}",
        ],
        "member rounds[0].submit[0]",
    ),
    (
        "frozen stones twice",
        &[
            HEAD,
            "{\"kind\":\"terminal\",\"format\":\"q\"}",
            "],\"rounds\":[{\"submit\":[131072],\"frozen\":[0,0]}]}",
        ],
        "limit 4096 queue 64 formats 2 sources 1 stones 1 rounds 1 routes 1",
    ),
    (
        "a frozen number that is no stone",
        &[
            HEAD,
            "{\"kind\":\"terminal\",\"format\":\"q\"}",
            "],\"rounds\":[{\"submit\":[1],\"frozen\":[0,1]}]}",
        ],
        "member rounds[0].frozen[1]",
    ),
    (
        "a frozen number of 64 bits",
        &[
            HEAD,
            "{\"kind\":\"terminal\",\"format\":\"q\"}",
            "],\"rounds\":[{\"submit\":[1],\"frozen\":[18446744073709551615]}]}",
        ],
        "member rounds[0].frozen[0]",
    ),
    (
        "a further member of a round",
        &[
            HEAD,
            "{\"kind\":\"terminal\",\"format\":\"q\"}",
            "],\"rounds\":[{\"submit\":[1],\"frozen\":[],\"x\":0}]}",
        ],
        "member rounds[0]",
    ),
    (
        "a further member",
        &[
            HEAD,
            "{\"kind\":\"terminal\",\"format\":\"q\"}",
            "],\"rounds\":[{\"submit\":[1],\"frozen\":[]}],\"extra\":1}",
        ],
        "member .",
    ),
];

#[test]
fn rounds(rt: HostRuntime) -> Result<(), Fail> {
    are_read(&rt, rt.alloc(), &ROWS)
}
