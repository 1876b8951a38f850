//! Documents at each limit, and one past it.

use crate::documents::{END, HEAD, answer};
use std::alloc::{AllocError, Global};
use std::test::Fail;

// A text that stands so many times; or two, with the number of the time between them.
#[derive(Clone, Copy)]
enum Piece {
    Times(usize, &'static str),
    Numbered(usize, &'static str, &'static str),
}

use Piece::{Numbered, Times};

const LAYOUT: &str =
    "\",\"profile\":\"be64\",\"types\":[{\"name\":\"p\",\"fields\":[[\"x\",\"integer\",8]]}]}";

const LAYOUT_AND_NEXT: &str =
    "\",\"profile\":\"be64\",\"types\":[{\"name\":\"p\",\"fields\":[[\"x\",\"integer\",8]]}]},";

// From the end of the formats to that of the document.
const REST: &str = "],\"sources\":[{\"name\":\"a\",\"file\":\"f\",\"stone\":0}],\
    \"stones\":[{\"kind\":\"split\",\"targets\":[]}],\"rounds\":[{\"submit\":[1],\"frozen\":[]}]}";

// Up to the sources.
const NO_FORMATS: &str = "{\"formats\":[],\"sources\":[";

// A stone that has no targets.
const SPLIT: &str = "{\"kind\":\"split\",\"targets\":[]}";

const SPLIT_AND_NEXT: &str = "{\"kind\":\"split\",\"targets\":[]},";

const ROUND: &str = "{\"submit\":[1],\"frozen\":[]}";

const ROUND_AND_NEXT: &str = "{\"submit\":[1],\"frozen\":[]},";

// Up to the numbers of targets of a stone, and up to the settings of one.
const TARGETS: &str = "{\"kind\":\"split\",\"targets\":[";

const SETTINGS: &str = "{\"kind\":\"transform\",\"format\":\"q\",\"into\":\"l\",\"set\":[";

// Up to the expression of a filter, and what follows it: the target, another stone.
const EXPRESSION: &str = "{\"kind\":\"filter\",\"format\":\"q\",\"expr\":\"";

const TARGET: &str = "\",\"target\":1},{\"kind\":\"split\",\"targets\":[]}";

// Pieces that make a document together, and the answer.
const LISTS: [(&str, &[Piece], &str); 12] = [
    (
        "256 formats",
        &[
            Times(1, "{\"formats\":["),
            Numbered(255, "{\"name\":\"a", LAYOUT_AND_NEXT),
            Times(1, "{\"name\":\"b"),
            Times(1, LAYOUT),
            Times(1, REST),
        ],
        "limit 4096 queue 64 formats 256 sources 1 stones 1 rounds 1 routes 1",
    ),
    (
        "257 formats",
        &[
            Times(1, "{\"formats\":["),
            Numbered(256, "{\"name\":\"a", LAYOUT_AND_NEXT),
            Times(1, "{\"name\":\"b"),
            Times(1, LAYOUT),
            Times(1, REST),
        ],
        "limit at formats: 257",
    ),
    (
        "64 sources",
        &[
            Times(1, NO_FORMATS),
            Numbered(63, "{\"name\":\"a", "\",\"file\":\"f\",\"stone\":0},"),
            Times(
                1,
                "{\"name\":\"b\",\"file\":\"f\",\"stone\":0}],\"stones\":[",
            ),
            Times(1, SPLIT),
            Times(1, "],\"rounds\":[{\"submit\":["),
            Times(63, "1,"),
            Times(1, "1],\"frozen\":[]}]}"),
        ],
        "limit 4096 queue 64 formats 0 sources 64 stones 1 rounds 1 routes 64",
    ),
    (
        "65 sources",
        &[
            Times(1, NO_FORMATS),
            Numbered(64, "{\"name\":\"a", "\",\"file\":\"f\",\"stone\":0},"),
            Times(1, "{\"name\":\"b\",\"file\":\"f\",\"stone\":0}]}"),
        ],
        "limit at sources: 65",
    ),
    (
        "256 stones",
        &[
            Times(1, HEAD),
            Times(255, SPLIT_AND_NEXT),
            Times(1, SPLIT),
            Times(1, END),
        ],
        "limit 4096 queue 64 formats 2 sources 1 stones 256 rounds 1 routes 1",
    ),
    (
        "257 stones",
        &[
            Times(1, HEAD),
            Times(256, SPLIT_AND_NEXT),
            Times(1, SPLIT),
            Times(1, END),
        ],
        "limit at stones: 257",
    ),
    (
        "64 rounds",
        &[
            Times(1, HEAD),
            Times(1, SPLIT),
            Times(1, "],\"rounds\":["),
            Times(63, ROUND_AND_NEXT),
            Times(1, ROUND),
            Times(1, "]}"),
        ],
        "limit 4096 queue 64 formats 2 sources 1 stones 1 rounds 64 routes 1",
    ),
    (
        "65 rounds",
        &[
            Times(1, HEAD),
            Times(1, SPLIT),
            Times(1, "],\"rounds\":["),
            Times(64, ROUND_AND_NEXT),
            Times(1, ROUND),
            Times(1, "]}"),
        ],
        "limit at rounds: 65",
    ),
    (
        "16 targets",
        &[
            Times(1, HEAD),
            Times(1, TARGETS),
            Times(15, "1,"),
            Times(1, "1]},"),
            Times(1, SPLIT),
            Times(1, END),
        ],
        "limit 4096 queue 64 formats 2 sources 1 stones 2 rounds 1 routes 17",
    ),
    (
        "17 targets",
        &[
            Times(1, HEAD),
            Times(1, TARGETS),
            Times(16, "1,"),
            Times(1, "1]},"),
            Times(1, SPLIT),
            Times(1, END),
        ],
        "limit at stones[0].targets: 17",
    ),
    (
        "64 settings",
        &[
            Times(1, HEAD),
            Times(1, SETTINGS),
            Times(63, "[\"y\",\"x\"],"),
            Times(1, "[\"y\",\"x\"]],\"target\":1},"),
            Times(1, SPLIT),
            Times(1, END),
        ],
        "limit 4096 queue 64 formats 2 sources 1 stones 2 rounds 1 routes 2",
    ),
    (
        "65 settings",
        &[
            Times(1, HEAD),
            Times(1, SETTINGS),
            Times(64, "[\"y\",\"x\"],"),
            Times(1, "[\"y\",\"x\"]],\"target\":1},"),
            Times(1, SPLIT),
            Times(1, END),
        ],
        "limit at stones[0].set: 65",
    ),
];

// As above: routes, expressions, and documents that aren't read as JSON.
const TEXTS: [(&str, &[Piece], &str); 10] = [
    (
        "1,024 routes: 64 sources, each on a split of 15",
        &[
            Times(1, NO_FORMATS),
            Numbered(63, "{\"name\":\"a", "\",\"file\":\"f\",\"stone\":15},"),
            Times(
                1,
                "{\"name\":\"b\",\"file\":\"f\",\"stone\":15}],\"stones\":[",
            ),
            Times(15, SPLIT_AND_NEXT),
            Times(1, TARGETS),
            Numbered(14, "", ","),
            Times(1, "14]}],\"rounds\":[{\"submit\":["),
            Times(63, "1,"),
            Times(1, "1],\"frozen\":[]}]}"),
        ],
        "limit 4096 queue 64 formats 0 sources 64 stones 16 rounds 1 routes 1024",
    ),
    (
        "1,025 routes: 63 sources on a split of 15, the last on one of 16",
        &[
            Times(1, NO_FORMATS),
            Numbered(63, "{\"name\":\"a", "\",\"file\":\"f\",\"stone\":16},"),
            Times(
                1,
                "{\"name\":\"b\",\"file\":\"f\",\"stone\":17}],\"stones\":[",
            ),
            Times(16, SPLIT_AND_NEXT),
            Times(1, TARGETS),
            Numbered(14, "", ","),
            Times(1, "14]},"),
            Times(1, TARGETS),
            Numbered(15, "", ","),
            Times(1, "15]}],\"rounds\":[{\"submit\":["),
            Times(63, "1,"),
            Times(1, "1],\"frozen\":[]}]}"),
        ],
        "too many routes",
    ),
    (
        "64 levels in an expression",
        &[
            Times(1, HEAD),
            Times(1, EXPRESSION),
            Times(64, "-"),
            Times(1, "x"),
            Times(1, TARGET),
            Times(1, END),
        ],
        "limit 4096 queue 64 formats 2 sources 1 stones 2 rounds 1 routes 2",
    ),
    (
        "65 levels in an expression",
        &[
            Times(1, HEAD),
            Times(1, EXPRESSION),
            Times(65, "-"),
            Times(1, "x"),
            Times(1, TARGET),
            Times(1, END),
        ],
        "expression 0 of stone 0: deep at 64",
    ),
    (
        "an expression of 4,096 bytes",
        &[
            Times(1, HEAD),
            Times(1, EXPRESSION),
            Times(4095, " "),
            Times(1, "x"),
            Times(1, TARGET),
            Times(1, END),
        ],
        "limit 4096 queue 64 formats 2 sources 1 stones 2 rounds 1 routes 2",
    ),
    (
        "an expression of 4,097 bytes",
        &[
            Times(1, HEAD),
            Times(1, EXPRESSION),
            Times(4096, " "),
            Times(1, "x"),
            Times(1, TARGET),
            Times(1, END),
        ],
        "expression 0 of stone 0: long",
    ),
    (
        "a number in a text's place",
        &[
            Times(1, HEAD),
            Times(1, EXPRESSION),
            Times(1, "same(x, \\\"a\\\")"),
            Times(1, TARGET),
            Times(1, END),
        ],
        "binding 0 of stone 0: not a text at 5",
    ),
    (
        "lists that nest 127 deep",
        &[Times(127, "["), Times(127, "]")],
        "member .",
    ),
    (
        "lists that nest 128 deep",
        &[Times(128, "["), Times(128, "]")],
        "not json",
    ),
    (
        "lists that nest 200 deep",
        &[Times(200, "["), Times(200, "]")],
        "not json",
    ),
];

// Documents that aren't JSON in UTF-8.
const NOT_JSON: [(&str, &[u8]); 5] = [
    ("no bytes", b""),
    ("a byte that begins no character", b"{\"limit\":\"\xff\"}"),
    ("a byte order mark", b"\xef\xbb\xbf{}"),
    ("half of a surrogate pair", b"{\"limit\":\"\\ud800\"}"),
    ("a number that no double reaches", b"{\"limit\":1e400}"),
];

// The document that these pieces make.
fn document(alloc: Global, pieces: &[Piece]) -> Result<Vec<u8>, AllocError> {
    let mut bytes = Vec::new(alloc);
    for piece in pieces {
        bytes.extend_from_slice(written(alloc, *piece)?.as_bytes())?;
    }
    Ok(bytes)
}

// The text of a piece.
fn written(alloc: Global, piece: Piece) -> Result<String, AllocError> {
    match piece {
        Times(count, text) => text.repeat(alloc, count),
        Numbered(count, before, behind) => numbered(alloc, count, before, behind),
    }
}

// Both texts so many times, with the numbers from 0 between them.
fn numbered(alloc: Global, count: usize, before: &str, behind: &str) -> Result<String, AllocError> {
    let mut text = String::new(alloc);
    for number in 0..count {
        text.push_str(format!(in alloc; "{before}{number}{behind}")?.as_str())?;
    }
    Ok(text)
}

#[test]
fn lists_at_their_limits(rt: HostRuntime) -> Result<(), Fail> {
    let alloc = rt.alloc();
    for (name, pieces, expected) in LISTS {
        let bytes = document(alloc, pieces)?;
        let text = answer(alloc, bytes.as_slice())?;
        assert_eq!(rt; (name, text.as_str()), (name, expected));
    }
    Ok(())
}

#[test]
fn routes_and_texts_at_their_limits(rt: HostRuntime) -> Result<(), Fail> {
    let alloc = rt.alloc();
    for (name, pieces, expected) in TEXTS {
        let bytes = document(alloc, pieces)?;
        let text = answer(alloc, bytes.as_slice())?;
        assert_eq!(rt; (name, text.as_str()), (name, expected));
    }
    Ok(())
}

#[test]
fn bytes_that_are_no_json(rt: HostRuntime) -> Result<(), Fail> {
    let alloc = rt.alloc();
    for (name, bytes) in NOT_JSON {
        let text = answer(alloc, bytes)?;
        assert_eq!(rt; (name, text.as_str()), (name, "not json"));
    }
    Ok(())
}
