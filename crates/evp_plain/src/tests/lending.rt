//! Records that are lent as they are.

use super::answers::answer;
use super::bytes::Wanted::{Bytes, Fault};
use super::bytes::{Wanted, bytes_of};
use crate::format_of;
use std::test::*;

// What a row shows; the sender's format and its record; the receiver's format and the limit; the
// packed record or the fault; and whether the record is lent.
type Row = (
    &'static str,
    &'static str,
    &'static str,
    &'static str,
    u32,
    Wanted,
    bool,
);

const TEXT: &str = "le64 p{s string}";

const TEXTS: &str = "le32 p{s string, t string}";

// Two texts of one letter, the second's block two bytes behind the first's.
const CLOSE: &str = "08000000 0a000000 6100 6200";

const PACKED: &str = "08000000 10000000 6100 000000000000 6200";

const ROWS: [Row; 12] = [
    (
        "a boolean is lent with the bytes that it has",
        "le32 p{b boolean 2}",
        "0200",
        "le32 p{b boolean 2}",
        4096,
        Bytes("0100"),
        true,
    ),
    (
        "null",
        TEXT,
        "0000000000000000",
        TEXT,
        8,
        Bytes("0000000000000000"),
        true,
    ),
    (
        "an empty text",
        TEXT,
        "0800000000000000 00",
        TEXT,
        9,
        Bytes("0800000000000000 00"),
        true,
    ),
    (
        "a text",
        TEXT,
        "0800000000000000 616200",
        TEXT,
        11,
        Bytes("0800000000000000 616200"),
        true,
    ),
    (
        "bytes behind the last block are no part of the packed record",
        TEXT,
        "0800000000000000 616200 ffffff",
        TEXT,
        11,
        Bytes("0800000000000000 616200"),
        true,
    ),
    (
        "blocks closer than packed ones, within the limit",
        TEXTS,
        CLOSE,
        TEXTS,
        18,
        Bytes(PACKED),
        true,
    ),
    (
        "the packed record beyond the limit, the record within it",
        TEXTS,
        CLOSE,
        TEXTS,
        17,
        Fault("large t"),
        false,
    ),
    (
        "another order",
        TEXT,
        "0800000000000000 616200",
        "be64 p{s string}",
        4096,
        Bytes("0000000000000008 616200"),
        false,
    ),
    (
        "another name of the type",
        TEXT,
        "0800000000000000 616200",
        "le64 q{s string}",
        4096,
        Bytes("0800000000000000 616200"),
        false,
    ),
    (
        "another default",
        "le32 p{x integer 4}",
        "07000000",
        "le32 p{x integer 4 = 7}",
        4096,
        Bytes("07000000"),
        false,
    ),
    (
        "another order of the fields at the same offsets",
        "le32 p{x integer 4, y integer 4}",
        "07000000 08000000",
        "le32 p{y integer 4, x integer 4}",
        4096,
        Bytes("08000000 07000000"),
        false,
    ),
    (
        "a limit below the record's length",
        "le32 p{x integer 4}",
        "07000000",
        "le32 p{x integer 4}",
        3,
        Fault("large ."),
        false,
    ),
];

#[test]
fn lent_exactly_where_the_formats_are_equal(rt: HostRuntime) -> Result<(), Fail> {
    let alloc = rt.alloc();
    for (shows, sender, record, receiver, limit, wanted, lent) in ROWS {
        let from = format_of(alloc, sender)?;
        let to = format_of(alloc, receiver)?;
        let bytes = bytes_of(alloc, record)?;
        let (found, found_lent) = answer(alloc, &from, &to, &bytes, limit)?;
        assert_eq!(rt; found.as_str(), wanted.text(alloc)?.as_str(), "{shows}");
        assert_eq!(rt; found_lent, lent, "{shows}");
    }
    Ok(())
}
