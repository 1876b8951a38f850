//! Conversions that were worked out by hand.

use super::answers::answer;
use super::bytes::Wanted::{Bytes, Fault};
use super::bytes::{Wanted, bytes_of};
use crate::format_of;
use std::test::*;

// What a row shows; the sender's format and its record; the receiver's format and the limit; and
// the packed record or the fault.
type Row = (
    &'static str,
    &'static str,
    &'static str,
    &'static str,
    u32,
    Wanted,
);

const A: &str = "le32 p{a integer[n] 4, n integer 4}";

const TWO: &str = "08000000 02000000 05000000 06000000";

const COUNT: &str = "le64 p{n integer 8}";

const ZEROS: &str = "le32 p{n integer 8, b integer[n] 4}";

const PAIR: &str = "le64 e{k integer 8, s string} r{p e[2]}";

const ROWS: [Row; 16] = [
    (
        "a negative number isn't unsigned",
        "le32 p{x integer 4}",
        "ffffffff",
        "be64 p{x unsigned integer 8}",
        4096,
        Fault("unfit x"),
    ),
    (
        "the greatest signed number",
        "be64 p{x unsigned integer 8}",
        "7fffffffffffffff",
        "le64 p{x integer 8}",
        4096,
        Bytes("ffffffffffffff7f"),
    ),
    (
        "one more",
        "be64 p{x unsigned integer 8}",
        "8000000000000000",
        "le64 p{x integer 8}",
        4096,
        Fault("unfit x"),
    ),
    (
        "fields are matched by name, and what has no partner is 0",
        "le64 p{x integer 4, z integer 4}",
        "07000000 09000000",
        "le32 p{y integer 4, x integer 2}",
        4096,
        Bytes("00000000 0700 0000"),
    ),
    (
        "a count behind its array, and in front of it",
        A,
        TWO,
        "be32 p{n integer 4, a integer[n] 8}",
        4096,
        Bytes("00000002 00000008 0000000000000005 0000000000000006"),
    ),
    (
        "two elements into three places",
        A,
        TWO,
        "le32 p{a integer[3] 4}",
        4096,
        Fault("unfit a"),
    ),
    (
        "as many zeros as the receiver's count says",
        COUNT,
        "0300000000000000",
        ZEROS,
        28,
        Bytes("0300000000000000 10000000 00000000 000000000000000000000000"),
    ),
    (
        "one byte less than they need",
        COUNT,
        "0300000000000000",
        ZEROS,
        27,
        Fault("large b"),
    ),
    (
        "a negative count",
        COUNT,
        "ffffffffffffffff",
        ZEROS,
        4096,
        Fault("unfit b"),
    ),
    (
        "2^40 zeros",
        COUNT,
        "0000000000010000",
        ZEROS,
        4096,
        Fault("large b"),
    ),
    (
        "a number inside the second element",
        PAIR,
        "0500000000000000 0000000000000000 2c01000000000000 2000000000000000 6100",
        "le32 e{k integer 1, s string} r{p e[2]}",
        4096,
        Fault("unfit p[1].k"),
    ),
    (
        "a text and a number of one name",
        "le32 p{a string}",
        "00000000",
        "le32 p{a integer 4}",
        4096,
        Fault("clash a"),
    ),
    (
        "a boolean's other bytes become 1",
        "le32 p{b boolean 2}",
        "0200",
        "le32 q{b boolean 2}",
        4096,
        Bytes("0100"),
    ),
    (
        "a default that isn't 0",
        "le32 p{x integer 4}",
        "07000000",
        "be64 p{y integer 4 = -1, x integer 8}",
        4096,
        Bytes("ffffffff 00000000 0000000000000007"),
    ),
    (
        "records of defaults",
        "le32 p{x integer 4}",
        "07000000",
        "le32 e{k integer 4 = 5} r{p e[2]}",
        4096,
        Bytes("05000000 05000000"),
    ),
    (
        "a record's length beyond the limit",
        "le32 p{x integer 4}",
        "07000000",
        "le64 p{x integer 8}",
        7,
        Fault("large ."),
    ),
];

#[test]
fn conversions_worked_by_hand(rt: HostRuntime) -> Result<(), Fail> {
    let alloc = rt.alloc();
    for (shows, sender, record, receiver, limit, wanted) in ROWS {
        let from = format_of(alloc, sender)?;
        let to = format_of(alloc, receiver)?;
        let bytes = bytes_of(alloc, record)?;
        let (found, lent) = answer(alloc, &from, &to, &bytes, limit)?;
        assert_eq!(rt; found.as_str(), wanted.text(alloc)?.as_str(), "{shows}");
        assert!(rt; !lent, "{shows}");
    }
    Ok(())
}
