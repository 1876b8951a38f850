//! How many windows of sixteen bytes tell numbers, by what a plan shows of itself.

use evp_plain::format_of;
use evp_plan::{Builds, build};
use std::test::Fail;

// Twelve numbers of 64 bytes, and the same of which six may not fit: signed numbers for smaller
// ones, an unsigned one for a smaller one, an unsigned one for a signed one, and a signed one for an
// unsigned one.
const NUMBERS: &str = "{a integer 4, b integer 2, c integer 2, d integer 8, e integer 4,\
    f unsigned integer 4, g integer 8, h unsigned integer 8, i integer 1, j integer 1,\
    k integer 8, l integer 8}";

const FEWER: &str = "{a integer 4, b integer 2, c integer 1, d integer 4, e integer 4,\
    f unsigned integer 2, g integer 8, h integer 8, i unsigned integer 1, j integer 1,\
    k integer 8, l integer 2}";

// A sender, a receiver, and how many windows there are.
const ROWS: [(&str, &str, &str, &str, usize); 8] = [
    ("le64 p", NUMBERS, "le64 p", FEWER, 4),
    // three, and one of them again
    ("be64 p", NUMBERS, "be64 p", FEWER, 4),
    // two, and one of them twice again
    (
        "le64 p",
        "{j integer 8, k integer 8, l integer 8}",
        "le64 p",
        "{j integer 2, k integer 2, l integer 2}",
        4,
    ),
    // one alone doesn't tell all tests, but tells numbers among others
    (
        "le64 p",
        "{k integer 8, l integer 8}",
        "le64 p",
        "{k integer 2, l integer 2}",
        0,
    ),
    (
        "le64 p",
        "{k integer 8, l integer 8, t string}",
        "le64 p",
        "{k integer 2, l integer 2, t string}",
        1,
    ),
    // no window for one test alone, nor where the words end before the sixteenth byte
    (
        "le64 p",
        "{k integer 8, l integer 8}",
        "le64 p",
        "{l integer 2}",
        0,
    ),
    (
        "le64 p",
        "{b integer 2, c integer 2}",
        "le64 p",
        "{b integer 1, c integer 1}",
        0,
    ),
    // a boolean has no such bytes
    (
        "le64 p",
        "{a integer 8, l integer 8}",
        "le64 p",
        "{a boolean 1, l integer 2}",
        0,
    ),
];

#[test]
fn windows_tell_numbers(rt: HostRuntime) -> Result<(), Fail> {
    let alloc = rt.alloc();
    for (profile, from, receiver, to, windows) in ROWS {
        let from = format_of(alloc, &format!(in alloc; "{profile}{from}")?)?;
        let to = format_of(alloc, &format!(in alloc; "{receiver}{to}")?)?;
        let plan = build(alloc, &from, &to, &mut Builds::new())
            .ok()
            .ok_or("plan")?;
        let shown = format!(in alloc; "{plan:?}")?;
        assert_eq!(rt;
            shown.split("Window {").skip(1).count(),
            windows,
            "{profile}"
        );
    }
    Ok(())
}
