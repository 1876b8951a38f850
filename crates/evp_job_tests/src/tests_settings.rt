//! Settings of transforms, and their faults.

use crate::documents::{END, HEAD, Row, are_read};
use std::test::Fail;

// Pieces that make a document together, and the answer.
const ROWS: [Row; 13] = [
    (
        "a transform",
        &[
            HEAD,
            "{\"kind\":\"transform\",\"format\":\"q\",\"into\":\"l\",\"set\":[[\"y\",\"x*x\"],[\"y\",\"-x\"]],\"target\":1},",
            "{\"kind\":\"terminal\",\"format\":\"q\"}",
            END,
        ],
        "limit 4096 queue 64 formats 2 sources 1 stones 2 rounds 1 routes 2",
    ),
    (
        "no settings",
        &[
            HEAD,
            "{\"kind\":\"transform\",\"format\":\"q\",\"into\":\"q\",\"set\":[],\"target\":1},{\"kind\":\"terminal\",\"format\":\"q\"}",
            END,
        ],
        "limit 4096 queue 64 formats 2 sources 1 stones 2 rounds 1 routes 2",
    ),
    (
        "an unknown second format",
        &[
            HEAD,
            "{\"kind\":\"transform\",\"format\":\"q\",\"into\":\"z\",\"set\":[],\"target\":1},{\"kind\":\"terminal\",\"format\":\"q\"}",
            END,
        ],
        "unknown format at stones[0].into",
    ),
    (
        "a setting of one value",
        &[
            HEAD,
            "{\"kind\":\"transform\",\"format\":\"q\",\"into\":\"l\",\"set\":[[\"y\"]],\"target\":1},{\"kind\":\"terminal\",\"format\":\"q\"}",
            END,
        ],
        "member stones[0].set[0]",
    ),
    (
        "a setting of three",
        &[
            HEAD,
            "{\"kind\":\"transform\",\"format\":\"q\",\"into\":\"l\",\"set\":[[\"y\",\"x\",\"x\"]],\"target\":1},{\"kind\":\"terminal\",\"format\":\"q\"}",
            END,
        ],
        "member stones[0].set[0]",
    ),
    (
        "a setting's field that is no text",
        &[
            HEAD,
            "{\"kind\":\"transform\",\"format\":\"q\",\"into\":\"l\",\"set\":[[1,\"x\"]],\"target\":1},{\"kind\":\"terminal\",\"format\":\"q\"}",
            END,
        ],
        "member stones[0].set[0][0]",
    ),
    (
        "a setting's expression that is no text",
        &[
            HEAD,
            "{\"kind\":\"transform\",\"format\":\"q\",\"into\":\"l\",\"set\":[[\"y\",\"x\"],[\"y\",1]],\"target\":1},{\"kind\":\"terminal\",\"format\":\"q\"}",
            END,
        ],
        "member stones[0].set[1][1]",
    ),
    (
        "a setting of no field",
        &[
            HEAD,
            "{\"kind\":\"transform\",\"format\":\"q\",\"into\":\"l\",\"set\":[[\"z\",\"x\"]],\"target\":1},{\"kind\":\"terminal\",\"format\":\"q\"}",
            END,
        ],
        "set 0 of stone 0",
    ),
    (
        "a setting of a count",
        &[
            HEAD,
            "{\"kind\":\"transform\",\"format\":\"q\",\"into\":\"l\",\"set\":[[\"y\",\"x\"],[\"n\",\"x\"]],\"target\":1},",
            "{\"kind\":\"terminal\",\"format\":\"q\"}",
            END,
        ],
        "set 1 of stone 0",
    ),
    (
        "a setting of a list",
        &[
            HEAD,
            "{\"kind\":\"transform\",\"format\":\"q\",\"into\":\"l\",\"set\":[[\"a\",\"x\"]],\"target\":1},{\"kind\":\"terminal\",\"format\":\"q\"}",
            END,
        ],
        "set 0 of stone 0",
    ),
    (
        "a setting of a string",
        &[
            HEAD,
            "{\"kind\":\"transform\",\"format\":\"q\",\"into\":\"l\",\"set\":[[\"s\",\"x\"]],\"target\":1},{\"kind\":\"terminal\",\"format\":\"q\"}",
            END,
        ],
        "set 0 of stone 0",
    ),
    (
        "a setting's expression cut",
        &[
            HEAD,
            "{\"kind\":\"transform\",\"format\":\"q\",\"into\":\"l\",\"set\":[[\"y\",\"x\"],[\"y\",\"x+\"]],\"target\":1},",
            "{\"kind\":\"terminal\",\"format\":\"q\"}",
            END,
        ],
        "expression 1 of stone 0: unexpected at 2",
    ),
    (
        "a setting over the second format",
        &[
            HEAD,
            "{\"kind\":\"transform\",\"format\":\"q\",\"into\":\"l\",\"set\":[[\"y\",\"x\"],[\"y\",\"n\"]],\"target\":1},",
            "{\"kind\":\"terminal\",\"format\":\"q\"}",
            END,
        ],
        "binding 1 of stone 0: unknown at 0",
    ),
];

#[test]
fn settings(rt: HostRuntime) -> Result<(), Fail> {
    are_read(&rt, rt.alloc(), &ROWS)
}
