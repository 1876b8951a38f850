//! What is refused of files and documents, and what comes first.

use super::files::{END, LIST, ONE_SEVEN, SEVEN, SHORT_TEXT, TEXTS, UNKNOWN, X};
use super::{FORMATS, FOUR, Held, JOB, ONE, RUN, TERMINAL, WALK, gives, joined, reports};
use std::alloc::Global;
use std::sync::Wait;
use std::test::Fail;
use std::thread::Threads;

// A description of a number that isn't whole.
const FLOAT: &[u8] =
    b"NDR1F\0\0\0\x20NDF1\0\x04\0\x01\x01p\0\0\0\x04\0\x01\x01x\x05float\0\0\0\x04\0\0\0\0";

// A description of 2^32 - 1 bytes, of which 34 are there.
const LONG: &[u8] = b"NDR1F\xff\xff\xff\xffNDF1\0\x04\0\x01\x01p\0\0\0\x04\0\x01\
    \x01x\x07integer\0\0\0\x04\0\0\0\0";

// A name, a record file, and its fault with its offset.
const FILES: [(&str, &[&[u8]], &str); 15] = [
    (
        "a block before the mark",
        &[TEXTS, b"R\0\0\0\0\0\x0c\x0a\0\0\0\x08\0\0\0a\0b\0", END],
        "59 broken block place t",
    ),
    (
        "fewer bytes than the record's length",
        &[X, b"R\0\0\0\0\0\x03\x07\0\0", END],
        "43 broken short record",
    ),
    (
        "a text without an end",
        &[SHORT_TEXT, b"R\0\0\0\0\0\x05\x04\0\0\0a", END],
        "42 broken no end s",
    ),
    (
        "five elements of which four are there",
        &[
            LIST,
            b"R\0\0\0\0\0\x18\x08\0\0\0\x05\0\0\0\x01\0\0\0\x02\0\0\0\x03\0\0\0\x04\0\0\0",
            END,
        ],
        "64 broken block place a",
    ),
    (
        "a negative count",
        &[LIST, b"R\0\0\0\0\0\x08\x08\0\0\0\xff\xff\xff\xff", END],
        "64 broken negative count a",
    ),
    (
        "an element without a block",
        &[LIST, b"R\0\0\0\0\0\x08\0\0\0\0\x01\0\0\0", END],
        "64 broken null list a",
    ),
    ("an identifier of none", &[UNKNOWN, END], "4 unknown id"),
    (
        "a description longer than the file",
        &[LONG, SEVEN, END],
        "4 short",
    ),
    (
        "a format that isn't there",
        &[X, b"R\0\x01\0\0\0\x04\x07\0\0\0", END],
        "43 format number",
    ),
    (
        "a record above the limit",
        &[X, b"R\0\0\0\0\x10\x01\x07\0\0\0", END],
        "43 too large",
    ),
    ("another letter", &[X, SEVEN, b"X"], "54 frame kind"),
    ("a byte behind the end", &[X, SEVEN, b"E\0"], "55 trailing"),
    ("no end", &[X, SEVEN], "54 short"),
    (
        "a float",
        &[FLOAT, SEVEN, END],
        "4 layout float, type 0 field 0",
    ),
    ("nothing", &[], "0 magic"),
];

#[test]
fn refuses_files(rt: HostRuntime) -> Result<(), Fail> {
    let alloc = rt.alloc();
    for (name, file, fault) in FILES {
        let text = format!(in alloc; "stones: data \"a.ndr\" at {fault}\n")?;
        assert!(rt; reports(&rt, alloc, JOB, file, 7, text.as_str())?, "{name}");
    }
    Ok(())
}

// Whether the first so many bytes of a file are refused with this fault.
fn refuses_front<R: Threads + Wait + Sync>(
    rt: &R,
    alloc: Global,
    front: &[u8],
    fault: &str,
) -> Result<bool, Fail> {
    let text = format!(in alloc; "stones: data \"a.ndr\" at {fault}\n")?;
    reports(rt, alloc, JOB, &[front], 7, text.as_str())
}

#[test]
fn refuses_each_front_of_a_file(rt: HostRuntime) -> Result<(), Fail> {
    let alloc = rt.alloc();
    let file = joined(alloc, ONE_SEVEN)?;
    assert_eq!(rt; file.len(), 55);
    for count in 0..55 {
        let fault = match count {
            0..=3 => "0 magic",
            4..=42 => "4 short",
            43..=53 => "43 short",
            _ => "54 short",
        };
        assert!(rt;
            refuses_front(&rt, alloc, &file[..count], fault)?,
            "{count} bytes"
        );
    }
    Ok(())
}

const CYCLE: &str = r#""stones":[{"kind":"split","targets":[1]},{"kind":"terminal","format":"q"},
    {"kind":"split","targets":[4]},{"kind":"terminal","format":"q"},
    {"kind":"split","targets":[2]}],"#;

const TARGET: &str = r#""stones":[{"kind":"terminal","format":"q","target":0}],"#;

const EXTRA: &str = r#""rounds":[{"submit":[1],"frozen":[]}],"extra":1}"#;

const LIMIT: &str = r#""rounds":[{"submit":[1],"frozen":[]}],"limit":63}"#;

const TEXT_DEFAULT: &str = r#"{"formats":[{"name":"q","profile":"be64",
    "types":[{"name":"q","fields":[["s","string",0,1]]}]}],
    "sources":[{"name":"a","file":"a.ndr","stone":0}],"#;

// A name, a document, and its status and fault.
const DOCUMENTS: [(&str, &[&str], u8, &str); 8] = [
    ("a brace", &["{"], 5, "not json"),
    ("a list", &["[]"], 6, "job member ."),
    (
        "another member",
        &[FORMATS, TERMINAL, EXTRA],
        6,
        "job member .",
    ),
    (
        "another member of a stone",
        &[FORMATS, TARGET, ONE],
        6,
        "job member stones[0]",
    ),
    (
        "a low limit",
        &[FORMATS, TERMINAL, LIMIT],
        6,
        "job limit at limit: 63",
    ),
    (
        "a text's default",
        &[TEXT_DEFAULT, TERMINAL, ONE],
        6,
        "job layout of format 0: default, type 0 field 0",
    ),
    ("a cycle", &[FORMATS, CYCLE, ONE], 6, "job cycle 2 4"),
    (
        "more than a file has",
        &[FORMATS, TERMINAL, FOUR],
        6,
        "job source 0 submits 4 of 3",
    ),
];

// The file that they are read with has three records.
const THREE_SEVENS: &[&[u8]] = &[X, SEVEN, SEVEN, SEVEN, END];

#[test]
fn refuses_documents(rt: HostRuntime) -> Result<(), Fail> {
    let alloc = rt.alloc();
    for (name, job, status, fault) in DOCUMENTS {
        let text = format!(in alloc; "stones: {fault}\n")?;
        assert!(rt;
            reports(&rt, alloc, job, THREE_SEVENS, status, text.as_str())?,
            "{name}"
        );
    }
    let open = "[".repeat(alloc, 200)?;
    let close = "]".repeat(alloc, 200)?;
    let deep = [open.as_str(), close.as_str()];
    assert!(rt;
        reports(&rt, alloc, &deep, THREE_SEVENS, 5, "stones: not json\n")?,
        "deep"
    );
    let long = " ".repeat(alloc, 1_048_577)?;
    let text = "stones: too long \"j.json\"\n";
    assert!(rt;
        reports(&rt, alloc, &[long.as_str()], THREE_SEVENS, 4, text)?,
        "long"
    );
    Ok(())
}

const TWO_SOURCES: &str = r#"{"formats":[{"name":"q","profile":"be64",
    "types":[{"name":"q","fields":[["x","integer",8]]}]}],
    "sources":[{"name":"a","file":"a.ndr","stone":0},{"name":"b","file":"b.ndr","stone":0}],"#;

const ONE_EACH: &str = r#""rounds":[{"submit":[1,1],"frozen":[]}]}"#;

// Which call of the depot fails, the words, and the name of the file. Each file takes two calls.
const READS: [(&[u32], &[&str], &str); 6] = [
    (&[0], &RUN, "j.json"),
    (&[2], &RUN, "a.ndr"),
    (&[3], &RUN, "a.ndr"),
    (&[4], &RUN, "b.ndr"),
    (&[4], &WALK, "b.ndr"),
    (&[6], &WALK, "o.txt"),
];

#[test]
fn names_the_read_that_failed(rt: HostRuntime) -> Result<(), Fail> {
    let alloc = rt.alloc();
    for (failing, words, name) in READS {
        let held = Held {
            job: &[TWO_SOURCES, TERMINAL, ONE_EACH],
            file: ONE_SEVEN,
            order: b"",
            failing,
        };
        let text = format!(in alloc; "stones: read \"{name}\"\n")?;
        assert!(rt;
            gives(&rt, alloc, words, &held, 3, text.as_str())?,
            "{name}"
        );
    }
    Ok(())
}
