//! Stones, and their faults.

use crate::documents::{END, HEAD, Row, are_read};
use std::test::Fail;

// Pieces that make a document together, and the answer.
const ROWS: [Row; 28] = [
    (
        "a terminal",
        &[HEAD, "{\"kind\":\"terminal\",\"format\":\"q\"}", END],
        "limit 4096 queue 64 formats 2 sources 1 stones 1 rounds 1 routes 1",
    ),
    ("no stones", &[HEAD, "", END], "limit at stones: 0"),
    (
        "a stone that is no object",
        &[HEAD, "7", END],
        "member stones[0]",
    ),
    (
        "no kind",
        &[HEAD, "{\"format\":\"q\"}", END],
        "member stones[0].kind",
    ),
    (
        "another kind",
        &[HEAD, "{\"kind\":\"sink\"}", END],
        "member stones[0].kind",
    ),
    (
        "a format without a name of the list",
        &[HEAD, "{\"kind\":\"terminal\",\"format\":\"z\"}", END],
        "unknown format at stones[0].format",
    ),
    (
        "a format that is no text",
        &[HEAD, "{\"kind\":\"terminal\",\"format\":0}", END],
        "member stones[0].format",
    ),
    (
        "a terminal with a target",
        &[
            HEAD,
            "{\"kind\":\"terminal\",\"format\":\"q\",\"target\":0}",
            END,
        ],
        "member stones[0]",
    ),
    (
        "a filter without an expression",
        &[
            HEAD,
            "{\"kind\":\"filter\",\"format\":\"q\",\"target\":0}",
            END,
        ],
        "member stones[0].expr",
    ),
    (
        "no token",
        &[
            HEAD,
            "{\"kind\":\"filter\",\"format\":\"q\",\"expr\":\"x $ 1\",\"target\":0}",
            END,
        ],
        "expression 0 of stone 0: token at 2",
    ),
    (
        "no whole expression",
        &[
            HEAD,
            "{\"kind\":\"terminal\",\"format\":\"q\"},{\"kind\":\"filter\",\"format\":\"q\",\"expr\":\"x ==\",\"target\":0}",
            END,
        ],
        "expression 0 of stone 1: unexpected at 4",
    ),
    (
        "a number of 128 bits",
        &[
            HEAD,
            "{\"kind\":\"router\",\"format\":\"q\",\"expr\":\"170141183460469231731687303715884105728\",\"targets\":[]}",
            END,
        ],
        "expression 0 of stone 0: literal at 0",
    ),
    (
        "a name of no field",
        &[
            HEAD,
            "{\"kind\":\"router\",\"format\":\"q\",\"expr\":\"y\",\"targets\":[]}",
            END,
        ],
        "binding 0 of stone 0: unknown at 0",
    ),
    (
        "a list in a number's place",
        &[
            HEAD,
            "{\"kind\":\"router\",\"format\":\"l\",\"expr\":\"a\",\"targets\":[]}",
            END,
        ],
        "binding 0 of stone 0: not a number at 0",
    ),
    (
        "an index behind a number",
        &[
            HEAD,
            "{\"kind\":\"router\",\"format\":\"l\",\"expr\":\"n[0]\",\"targets\":[]}",
            END,
        ],
        "binding 0 of stone 0: not a list at 1",
    ),
    (
        "a target of 17 bits",
        &[
            HEAD,
            "{\"kind\":\"filter\",\"format\":\"q\",\"expr\":\"x\",\"target\":65536}",
            END,
        ],
        "limit at stones[0].target: 65536",
    ),
    (
        "a negative target",
        &[
            HEAD,
            "{\"kind\":\"filter\",\"format\":\"q\",\"expr\":\"x\",\"target\":-1}",
            END,
        ],
        "member stones[0].target",
    ),
    (
        "a target with a fraction",
        &[
            HEAD,
            "{\"kind\":\"filter\",\"format\":\"q\",\"expr\":\"x\",\"target\":1.0}",
            END,
        ],
        "member stones[0].target",
    ),
    (
        "a target of 65 bits",
        &[
            HEAD,
            "{\"kind\":\"filter\",\"format\":\"q\",\"expr\":\"x\",\"target\":18446744073709551616}",
            END,
        ],
        "member stones[0].target",
    ),
    (
        "a target that is no stone",
        &[
            HEAD,
            "{\"kind\":\"filter\",\"format\":\"q\",\"expr\":\"x\",\"target\":1}",
            END,
        ],
        "no target 0 of stone 0",
    ),
    (
        "no target",
        &[HEAD, "{\"kind\":\"split\",\"targets\":[]}", END],
        "limit 4096 queue 64 formats 2 sources 1 stones 1 rounds 1 routes 1",
    ),
    (
        "a target twice",
        &[
            HEAD,
            "{\"kind\":\"split\",\"targets\":[1,1]},{\"kind\":\"terminal\",\"format\":\"q\"}",
            END,
        ],
        "limit 4096 queue 64 formats 2 sources 1 stones 2 rounds 1 routes 3",
    ),
    (
        "a target that is a text",
        &[HEAD, "{\"kind\":\"split\",\"targets\":[0,\"x\"]}", END],
        "member stones[0].targets[1]",
    ),
    (
        "a stone that sends to itself",
        &[HEAD, "{\"kind\":\"split\",\"targets\":[0]}", END],
        "cycle 0",
    ),
    (
        "a cycle of two",
        &[
            HEAD,
            "{\"kind\":\"split\",\"targets\":[1]},{\"kind\":\"terminal\",\"format\":\"q\"},",
            "{\"kind\":\"split\",\"targets\":[4]},{\"kind\":\"terminal\",\"format\":\"q\"},{\"kind\":\"split\",\"targets\":[2]}",
            END,
        ],
        "cycle 2 4",
    ),
    (
        "names with escapes",
        &[
            HEAD,
            "{\"\\u006bind\":\"\\u0074erminal\",\"format\":\"\\u0071\"}",
            END,
        ],
        "limit 4096 queue 64 formats 2 sources 1 stones 1 rounds 1 routes 1",
    ),
    (
        "a member that stands twice",
        &[
            HEAD,
            "{\"kind\":\"sink\",\"format\":\"q\",\"kind\":\"terminal\"}",
            END,
        ],
        "limit 4096 queue 64 formats 2 sources 1 stones 1 rounds 1 routes 1",
    ),
    (
        "blanks",
        &[
            HEAD,
            " { \"kind\" : \"terminal\" ,\t\"format\" :\r\n\"q\" } ",
            END,
        ],
        "limit 4096 queue 64 formats 2 sources 1 stones 1 rounds 1 routes 1",
    ),
];

#[test]
fn stones(rt: HostRuntime) -> Result<(), Fail> {
    are_read(&rt, rt.alloc(), &ROWS)
}
