//! Documents with two faults, of which the first is answered.

use crate::documents::{END, HEAD, Row, are_read};
use std::test::Fail;

// Pieces that make a document together, and the answer.
const ROWS: [Row; 20] = [
    (
        "a format's name before a missing expression",
        &[HEAD, "{\"kind\":\"filter\",\"format\":\"z\"}", END],
        "unknown format at stones[0].format",
    ),
    (
        "a format's name before the kind of the next",
        &[
            HEAD,
            "{\"kind\":\"terminal\",\"format\":\"z\"},{\"kind\":\"sink\"}",
            END,
        ],
        "unknown format at stones[0].format",
    ),
    (
        "a missing target before the expression",
        &[
            HEAD,
            "{\"kind\":\"filter\",\"format\":\"q\",\"expr\":\"x $\"}",
            END,
        ],
        "member stones[0].target",
    ),
    (
        "a further member before the expression",
        &[
            HEAD,
            "{\"kind\":\"filter\",\"format\":\"q\",\"expr\":\"x $\",\"target\":0,\"y\":0}",
            END,
        ],
        "member stones[0]",
    ),
    (
        "an expression before the next stone",
        &[
            HEAD,
            "{\"kind\":\"filter\",\"format\":\"q\",\"expr\":\"x $\",\"target\":0},{\"kind\":\"sink\"}",
            END,
        ],
        "expression 0 of stone 0: token at 2",
    ),
    (
        "a stone before the expression of the next",
        &[
            HEAD,
            "{\"kind\":\"sink\"},{\"kind\":\"filter\",\"format\":\"q\",\"expr\":\"x $\",\"target\":0}",
            END,
        ],
        "member stones[0].kind",
    ),
    (
        "the grammar before the names",
        &[
            HEAD,
            "{\"kind\":\"filter\",\"format\":\"q\",\"expr\":\"y ==\",\"target\":0}",
            END,
        ],
        "expression 0 of stone 0: unexpected at 4",
    ),
    (
        "the names before the next stone",
        &[
            HEAD,
            "{\"kind\":\"filter\",\"format\":\"q\",\"expr\":\"y\",\"target\":0},{\"kind\":\"sink\"}",
            END,
        ],
        "binding 0 of stone 0: unknown at 0",
    ),
    (
        "a setting's field before its expression",
        &[
            HEAD,
            "{\"kind\":\"transform\",\"format\":\"q\",\"into\":\"l\",\"set\":[[\"z\",\"x $\"]],\"target\":1},{\"kind\":\"terminal\",\"format\":\"q\"}",
            END,
        ],
        "set 0 of stone 0",
    ),
    (
        "an expression before the next setting's field",
        &[
            HEAD,
            "{\"kind\":\"transform\",\"format\":\"q\",\"into\":\"l\",\"set\":[[\"y\",\"x $\"],[\"z\",\"x\"]],\"target\":1},",
            "{\"kind\":\"terminal\",\"format\":\"q\"}",
            END,
        ],
        "expression 0 of stone 0: token at 2",
    ),
    (
        "a name before the next setting's field",
        &[
            HEAD,
            "{\"kind\":\"transform\",\"format\":\"q\",\"into\":\"l\",\"set\":[[\"y\",\"y\"],[\"z\",\"x\"]],\"target\":1},",
            "{\"kind\":\"terminal\",\"format\":\"q\"}",
            END,
        ],
        "binding 0 of stone 0: unknown at 0",
    ),
    (
        "the second format before the settings",
        &[
            HEAD,
            "{\"kind\":\"transform\",\"format\":\"q\",\"into\":\"z\",\"set\":[[\"y\"]],\"target\":1},{\"kind\":\"terminal\",\"format\":\"q\"}",
            END,
        ],
        "unknown format at stones[0].into",
    ),
    (
        "a setting's form before another's field",
        &[
            HEAD,
            "{\"kind\":\"transform\",\"format\":\"q\",\"into\":\"l\",\"set\":[[\"z\",\"x\"],[\"y\"]],\"target\":1},{\"kind\":\"terminal\",\"format\":\"q\"}",
            END,
        ],
        "member stones[0].set[1]",
    ),
    (
        "an expression before the rounds",
        &[
            HEAD,
            "{\"kind\":\"filter\",\"format\":\"q\",\"expr\":\"x $\",\"target\":0}",
            "]}",
        ],
        "expression 0 of stone 0: token at 2",
    ),
    (
        "the rounds before a further member",
        &[
            HEAD,
            "{\"kind\":\"terminal\",\"format\":\"q\"}",
            "],\"rounds\":[],\"extra\":1}",
        ],
        "limit at rounds: 0",
    ),
    (
        "a further member before the graph",
        &[
            HEAD,
            "{\"kind\":\"split\",\"targets\":[0]}",
            "],\"rounds\":[{\"submit\":[1],\"frozen\":[]}],\"extra\":1}",
        ],
        "member .",
    ),
    (
        "a target before a cycle",
        &[HEAD, "{\"kind\":\"split\",\"targets\":[0,9]}", END],
        "no target 1 of stone 0",
    ),
    (
        "the length of targets before their form",
        &[
            HEAD,
            "{\"kind\":\"split\",\"targets\":[\"x\",0,0,0,0,0,0,0,0,0,0,0,0,0,0,0,0]}",
            END,
        ],
        "limit at stones[0].targets: 17",
    ),
    (
        "the length of submit before its numbers",
        &[
            HEAD,
            "{\"kind\":\"terminal\",\"format\":\"q\"}",
            "],\"rounds\":[{\"submit\":[\"x\",1],\"frozen\":[]}]}",
        ],
        "member rounds[0].submit",
    ),
    (
        "submit before frozen",
        &[
            HEAD,
            "{\"kind\":\"terminal\",\"format\":\"q\"}",
            "],\"rounds\":[{\"submit\":[\"x\"],\"frozen\":[9]}]}",
        ],
        "member rounds[0].submit[0]",
    ),
];

#[test]
fn first_of_two(rt: HostRuntime) -> Result<(), Fail> {
    are_read(&rt, rt.alloc(), &ROWS)
}
