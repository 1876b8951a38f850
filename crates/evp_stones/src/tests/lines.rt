//! The words, and the lines `walk`, `show` and `check`.

use super::files::{END, ONE_SEVEN, SEVEN, X};
use super::{DIAMOND, FORMATS, Held, JOB, ONE, TERMINAL, WALK, gives};
use std::test::Fail;

// Words, how many calls of the depot may be made, and the status and the text.
const WORDS: [(&[&str], u8, &str); 18] = [
    (&[], 1, "words"),
    (&["show"], 1, "words"),
    (&["show", "a.ndr", "a.ndr"], 1, "words"),
    (&["shows", "a.ndr"], 1, "words"),
    (&["convert", "j.json", "q"], 1, "words"),
    (&["run", "j.json", "0"], 1, "words"),
    (&["run", "j.json", "65"], 1, "words"),
    (&["run", "j.json", "01"], 1, "words"),
    (&["run", "j.json", "+1"], 1, "words"),
    (&["run", "j.json", ""], 1, "words"),
    (&["runs", "j.json", "1"], 1, "words"),
    (&["--help"], 1, "words"),
    (&["run", "no.json", "1"], 2, "absent \"no.json\""),
    (&["walk", "no.json", "no.txt"], 2, "absent \"no.json\""),
    (&["walk", "j.json", "no.txt"], 2, "absent \"no.txt\""),
    (&["check", "no.json"], 2, "absent \"no.json\""),
    (&["show", "a\n\"é"], 2, "absent \"a\\x0a\\\"\\xc3\\xa9\""),
    (&["show", ""], 2, "absent \"\""),
];

#[test]
fn refuses_words_and_absent_names(rt: HostRuntime) -> Result<(), Fail> {
    let alloc = rt.alloc();
    for (words, status, fault) in WORDS {
        let held = Held {
            job: JOB,
            file: ONE_SEVEN,
            order: b"",
            failing: &[],
        };
        let text = format!(in alloc; "stones: {fault}\n")?;
        assert!(rt;
            gives(&rt, alloc, words, &held, status, text.as_str())?,
            "{fault}"
        );
    }
    Ok(())
}

const DIAMOND_REPORT: &str = "round 0\n\
    a>0 passed 1 dropped 0 refused 0 held 0\n\
    a>0>1 passed 1 dropped 0 refused 0 held 0\n\
    a>0>1>3 passed 1 dropped 0 refused 0 held 0\n\
    #0 {x=7}\n\
    a>0>2 passed 1 dropped 0 refused 0 held 0\n\
    a>0>2>3 passed 1 dropped 0 refused 0 held 0\n\
    #0 {x=7}\n";

const BAD: &str = "stones: data \"o.txt\" at 0 order\n";

const BAD_SECOND: &str = "stones: data \"o.txt\" at 2 order\n";

// A name, an order file, and the status and the text.
const ORDERS: [(&str, &[u8], u8, &str); 12] = [
    ("turns", b"4\n4\n0\n", 0, DIAMOND_REPORT),
    ("no turns", b"", 0, DIAMOND_REPORT),
    ("the last line feed is missing", b"4", 0, DIAMOND_REPORT),
    ("no such actor", b"5\n", 7, BAD),
    ("a leading zero", b"04", 7, BAD),
    ("a sign", b"4\n+4\n", 7, BAD_SECOND),
    ("an empty line", b"4\n\n", 7, BAD_SECOND),
    ("a carriage return", b"4\n4\r\n", 7, BAD_SECOND),
    ("a blank", b"4\n 4\n", 7, BAD_SECOND),
    ("no text", b"4\n\xff\n", 7, BAD_SECOND),
    ("a number of 33 bits", b"4\n4294967296", 7, BAD_SECOND),
    ("only a line feed", b"\n", 7, BAD),
];

#[test]
fn walks_by_listed_turns(rt: HostRuntime) -> Result<(), Fail> {
    let alloc = rt.alloc();
    for (name, order, status, text) in ORDERS {
        let held = Held {
            job: &[FORMATS, DIAMOND, ONE],
            file: ONE_SEVEN,
            order,
            failing: &[],
        };
        assert!(rt; gives(&rt, alloc, &WALK, &held, status, text)?, "{name}");
    }
    Ok(())
}

// All turns that the one record takes.
const NINE_TURNS: &[u8] = b"1\n0\n1\n1\n0\n1\n1\n0\n1\n";

const REPORT: &str = "round 0\na>0 passed 1 dropped 0 refused 0 held 0\n#0 {x=7}\n";

#[test]
fn walks_to_the_end_by_listed_turns(rt: HostRuntime) -> Result<(), Fail> {
    let held = Held {
        job: JOB,
        file: ONE_SEVEN,
        order: NINE_TURNS,
        failing: &[],
    };
    assert!(rt; gives(&rt, rt.alloc(), &WALK, &held, 0, REPORT)?);
    Ok(())
}

// The identifiers are by sha256sum.
const SHOWN: &str = "format 0 little pointer 4 \
    aa81926612fc87fb2015aafdb810f4896e0f71fb96135b69e500544452d273f2\n\
    type p length 4\n\
    field x integer size 4 offset 0\n\
    #0 format 0 {x=7}\n";

const CHECKED: &str = "format q \
    a6428921807194a3866583ab9a1fa9c195998f1679bd463506c4ea7938170030\n\
    route a>0\n";

const ROUTES: &str = "format q \
    a6428921807194a3866583ab9a1fa9c195998f1679bd463506c4ea7938170030\n\
    route a>0\nroute a>0>1\nroute a>0>1>3\nroute a>0>2\nroute a>0>2>3\n";

const NOT_A_ROUND: &str = r#""rounds":[]}"#;

const SHOW: &[&str] = &["show", "a.ndr"];

const CHECK: &[&str] = &["check", "j.json"];

// A name, the words, a job, a record file, and the status and the text. The third call of the depot
// fails, so `check` makes two calls, for the job alone, and `show` two for the file.
const TOLD: [(&str, &[&str], &[&str], &[&[u8]], u8, &str); 9] = [
    ("a record", SHOW, &[], ONE_SEVEN, 0, SHOWN),
    ("no frame", SHOW, &[], &[b"NDR1E"], 0, ""),
    (
        "no end",
        SHOW,
        &[],
        &[X, SEVEN],
        7,
        "stones: data \"a.ndr\" at 54 short\n",
    ),
    (
        "an identifier, of which none is known",
        SHOW,
        &[],
        &[super::files::KNOWN, END],
        7,
        "stones: data \"a.ndr\" at 4 unknown id\n",
    ),
    ("a job", CHECK, JOB, &[], 0, CHECKED),
    ("routes", CHECK, &[FORMATS, DIAMOND, ONE], &[], 0, ROUTES),
    (
        "no JSON",
        CHECK,
        &[FORMATS, TERMINAL],
        &[],
        5,
        "stones: not json\n",
    ),
    (
        "no round",
        CHECK,
        &[FORMATS, TERMINAL, NOT_A_ROUND],
        &[],
        6,
        "stones: job limit at rounds: 0\n",
    ),
    ("no bytes", CHECK, &[], &[], 5, "stones: not json\n"),
];

#[test]
fn tells_a_file_or_a_job(rt: HostRuntime) -> Result<(), Fail> {
    let alloc = rt.alloc();
    for (name, words, job, file, status, text) in TOLD {
        let held = Held {
            job,
            file,
            order: b"",
            failing: &[2],
        };
        assert!(rt; gives(&rt, alloc, words, &held, status, text)?, "{name}");
    }
    Ok(())
}
