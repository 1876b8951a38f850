//! The line `convert`.

use super::files::{END, KNOWN, ONE_SEVEN, SEVEN, X, X_UNSIGNED};
use super::{HEAD, Held, JOB, ONE, SOURCE, TERMINAL, TYPES, gives};
use std::test::Fail;

const LINE: [&str; 4] = ["convert", "j.json", "q", "a.ndr"];

// A text in place of the number, and a null one.
const TEXT: &[u8] =
    b"NDR1F\0\0\0\x21NDF1\0\x04\0\x01\x01p\0\0\0\x04\0\x01\x01x\x06string\0\0\0\x04\0\0\0\0";

const NULL: &[u8] = b"R\0\0\0\0\0\x04\0\0\0\0";

// The same job with a number that is never negative.
const UNSIGNED: &[&str] = &[
    HEAD,
    "be64",
    TYPES,
    r#"{"name":"q","fields":[["x","unsigned integer",8]]}"#,
    SOURCE,
    TERMINAL,
    ONE,
];

// A name, a job, a record file, and the text that is written.
const FILES: [(&str, &[&str], &[&[u8]], &str); 7] = [
    ("a record", JOB, ONE_SEVEN, "#0 {x=7}\n"),
    ("two", JOB, &[X, SEVEN, SEVEN, END], "#0 {x=7}\n#1 {x=7}\n"),
    ("none", JOB, &[X, END], ""),
    ("a text", JOB, &[TEXT, NULL, END], "#0 clash x\n"),
    ("an identifier", JOB, &[KNOWN, END], "#0 {x=7}\n"),
    (
        "one that fits and one that doesn't",
        JOB,
        &[
            X_UNSIGNED,
            b"R\0\0\0\0\0\x08\x7f\xff\xff\xff\xff\xff\xff\xff",
            b"R\0\0\0\0\0\x08\x80\0\0\0\0\0\0\0",
            END,
        ],
        "#0 {x=9223372036854775807}\n#1 unfit x\n",
    ),
    (
        "a negative number where none fits",
        UNSIGNED,
        &[X, b"R\0\0\0\0\0\x04\xff\xff\xff\xff", END],
        "#0 unfit x\n",
    ),
];

#[test]
fn converts_records_or_says_why_not(rt: HostRuntime) -> Result<(), Fail> {
    let alloc = rt.alloc();
    for (name, job, file, text) in FILES {
        let held = Held {
            job,
            file,
            order: b"",
            failing: &[],
        };
        assert!(rt; gives(&rt, alloc, &LINE, &held, 0, text)?, "{name}");
    }
    Ok(())
}

// Words, which call of the depot fails, and the status and the text. The third call is the record
// file's.
const ORDERS: [(&[&str], &[u32], u8, &str); 6] = [
    (
        &["convert", "j.json", "z", "a.ndr"],
        &[2],
        6,
        "stones: job unknown format at .\n",
    ),
    (
        &["convert", "j.json", "z", "no.ndr"],
        &[],
        6,
        "stones: job unknown format at .\n",
    ),
    (
        &["convert", "no.json", "z", "a.ndr"],
        &[2],
        2,
        "stones: absent \"no.json\"\n",
    ),
    (
        &["convert", "j.json", "q", "no.ndr"],
        &[],
        2,
        "stones: absent \"no.ndr\"\n",
    ),
    (&LINE, &[2], 3, "stones: read \"a.ndr\"\n"),
    (&LINE, &[0], 3, "stones: read \"j.json\"\n"),
];

#[test]
fn looks_the_format_up_before_the_file(rt: HostRuntime) -> Result<(), Fail> {
    let alloc = rt.alloc();
    for (words, failing, status, text) in ORDERS {
        let held = Held {
            job: JOB,
            file: ONE_SEVEN,
            order: b"",
            failing,
        };
        assert!(rt; gives(&rt, alloc, words, &held, status, text)?, "{text}");
    }
    Ok(())
}
