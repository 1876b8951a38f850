//! Pairs of formats in which fields, types and blocks lie otherwise, worked out by hand, at each limit.

use super::answers::answer;
use super::bytes::Wanted::{Bytes, Fault};
use super::bytes::{Wanted, bytes_of};
use crate::format_of;
use std::alloc::Global;
use std::test::*;

// What a row shows; the sender's format and its record; the receiver's format; and the packed record
// or the fault at a limit that is ample.
type Row = (
    &'static str,
    &'static str,
    &'static str,
    &'static str,
    Wanted,
);

const ROWS: [Row; 22] = [
    (
        "types nested at unlike depths, and records without a partner",
        "le64 a{x integer 2} b{a a, y integer 4} r{b b, a a}",
        "05000000 06000000 07000000",
        "be32 a{x integer 8} b{a a, z integer 4 = 9} r{a a, b b, c a}",
        Bytes("0000000000000007 0000000000000005 00000009 00000000 0000000000000000"),
    ),
    (
        "fields without a partner in a list of records",
        "le32 e{k integer 4} r{n integer 4, p e[n]}",
        "02000000 08000000 01000000 02000000",
        "be64 e{s string, k integer 8, m integer 2 = 7, q integer[2] 4, c integer 4, l \
        integer[c] 4} r{p e[n], n integer 4}",
        Bytes(
            "0000000000000010 00000002 00000000 0000000000000000 0000000000000001 0007 0000 \
        00000000 00000000 00000000 0000000000000000 0000000000000000 0000000000000002 0007 \
        0000 00000000 00000000 00000000 0000000000000000",
        ),
    ),
    (
        "as many zeros as each record's own count says",
        "le32 e{c integer 1} r{n integer 4, p e[n]}",
        "03000000 08000000 02 00 01",
        "le32 e{l integer[c] 2, c integer 1} r{n integer 1, p e[n]}",
        Bytes(
            "03000000 08000000 20000000 02000000 00000000 00000000 28000000 01000000 00000000 \
        00000000 0000",
        ),
    ),
    (
        "counts of one name in two records",
        "le32 e{n integer 4, a integer[n] 1} r{e e, a integer[n] 1, n integer 4}",
        "01000000 10000000 11000000 02000000 05 0607",
        "le64 e{a integer[n] 2, n integer 2} r{n integer 2, e e, a integer[n] 2}",
        Bytes(
            "0200000000000000 2000000000000000 0100000000000000 2800000000000000 0500 \
        000000000000 0600 0700",
        ),
    ),
    (
        "a static array to a counted one",
        "le32 p{n integer 4, a integer[3] 2}",
        "03000000 0100 0200 ffff 0000",
        "be32 p{a integer[n] 4, n integer 1}",
        Bytes("00000008 03000000 00000001 00000002 ffffffff"),
    ),
    (
        "a static array of another length than the count says",
        "le32 p{n integer 4, a integer[3] 2}",
        "02000000 0100 0200 ffff 0000",
        "be32 p{a integer[n] 4, n integer 1}",
        Fault("unfit a"),
    ),
    (
        "a count that doesn't fit comes before its array",
        "le32 p{n integer 4, a integer[3] 2}",
        "c8000000 0100 0200 ffff 0000",
        "be32 p{a integer[n] 4, n integer 1}",
        Fault("unfit n"),
    ),
    (
        "a counted array to a static one",
        "le32 p{a integer[n] 4, n integer 4}",
        "08000000 02000000 05000000 06000000",
        "be64 p{a integer[2] 8, n unsigned integer 1}",
        Bytes("0000000000000005 0000000000000006 0200000000000000"),
    ),
    (
        "texts null, empty and of one letter, in a list and alone",
        "le64 p{n integer 4, v string[n], s string, t string}",
        "0300000000000000 2000000000000000 3b00000000000000 0000000000000000 3800000000000000 \
        0000000000000000 3a00000000000000 6100 00 626300",
        "be32 p{t string, s string, v string[n], n integer 4, w string}",
        Bytes(
            "00000000 00000018 00000020 00000003 00000000 00000000 626300 0000000000 00000030 \
        00000000 00000038 00000000 6100 000000000000 00",
        ),
    ),
    (
        "blocks with gaps between them",
        "le32 p{s string, t string}",
        "0b000000 14000000 ffffff 6100 ffffffffffffff 6200 ff",
        "be64 p{t string, s string}",
        Bytes("0000000000000010 0000000000000018 6200 000000000000 6100"),
    ),
    (
        "lists of records with lists of records with lists",
        "le32 d{m integer 1, w integer[m] 1} e{n integer 1, v d[n]} r{k integer 1, p e[k]}",
        "02000000 08000000 01000000 18000000 02000000 22000000 02000000 20000000 0102 \
        00000000 00000000 01000000 32000000 03",
        "be32 d{w integer[m] 2, m integer 1} e{n integer 1, v d[n]} r{p e[k], k integer 1}",
        Bytes(
            "00000008 02000000 01000000 00000018 02000000 00000028 00000020 02000000 0001 0002 \
        00000000 00000000 00000000 00000038 01000000 0003",
        ),
    ),
    (
        "single numbers come before an array that is listed first",
        "le32 p{a integer[2] 4, x integer 4}",
        "01000000 02000000 00010000",
        "le32 p{a integer[3] 4, x unsigned integer 1}",
        Fault("unfit x"),
    ),
    (
        "an element that doesn't fit, in front of a text",
        "le32 p{s string, a integer[2] 2}",
        "08000000 01002c01 6100",
        "be32 p{a integer[2] 1, s string}",
        Fault("unfit a[1]"),
    ),
    (
        "a text in front of an element that doesn't fit",
        "le32 p{s string, a integer[2] 2}",
        "08000000 01002c01 6100",
        "be32 p{s string, a integer[2] 1}",
        Fault("unfit a[1]"),
    ),
    (
        "booleans of any bytes in a list",
        "le32 p{n integer 1, b boolean[n] 2}",
        "03000000 08000000 0200 0000 00ff",
        "be64 p{n integer 1, b boolean[n] 1}",
        Bytes("0300000000000000 0000000000000010 01 00 01"),
    ),
    (
        "signed numbers widened in a list",
        "le64 p{n integer 4, v integer[n] 2}",
        "0400000000000000 1000000000000000 ffff 0100 0080 ff7f",
        "be64 p{n integer 4, v integer[n] 8}",
        Bytes(
            "00000004 00000000 0000000000000010 ffffffffffffffff 0000000000000001 \
        ffffffffffff8000 0000000000007fff",
        ),
    ),
    (
        "an empty list with a pointer anywhere",
        "le32 p{a integer[n] 4, n integer 4}",
        "63000000 00000000",
        "be32 p{n integer 4, a integer[n] 8}",
        Bytes("00000000 00000000"),
    ),
    (
        "a count without a partner counts nothing",
        "le32 p{a integer[n] 4, n integer 4}",
        "08000000 02000000 05000000 06000000",
        "le32 p{a integer[m] 4, m integer 4}",
        Fault("unfit a"),
    ),
    (
        "and an empty list has that length",
        "le32 p{a integer[n] 4, n integer 4}",
        "00000000 00000000",
        "le32 p{a integer[m] 4, m integer 4}",
        Bytes("00000000 00000000"),
    ),
    (
        "a static array of records with texts",
        "le32 e{s string, k integer 2} r{p e[2], x integer 4}",
        "14000000 01000000 16000000 02000000 09000000 6100 6200",
        "be32 e{k integer 4, s string} r{x integer 2, p e[2]}",
        Bytes("0009 0000 00000001 00000018 00000002 00000020 00000000 6100 000000000000 6200"),
    ),
    (
        "a clash inside matched records",
        "le32 e{k integer 4, s string} r{p e[2]}",
        "01000000 00000000 02000000 00000000",
        "be32 e{k integer 4, s integer 4} r{p e[2]}",
        Fault("clash p.s"),
    ),
    (
        "a list to a list of another class",
        "le32 p{n integer 4, a string[n]}",
        "00000000 00000000",
        "be32 p{n integer 4, a integer[n] 4}",
        Fault("clash a"),
    ),
];

// What becomes of the record at each limit: below the packed size it is refused, from it on not.
fn answers_at_limits(
    alloc: Global,
    formats: (&str, &str),
    record: &[u8],
    wanted: &Wanted,
) -> Result<(), Fail> {
    let from = format_of(alloc, formats.0)?;
    let to = format_of(alloc, formats.1)?;
    let wanted = wanted.text(alloc)?;
    let size = wanted.len() / 2;
    for limit in 0..200u32 {
        let (found, _) = answer(alloc, &from, &to, record, limit)?;
        let fits = limit as usize >= size;
        let same = found.as_str() == wanted.as_str();
        if same != fits && !wanted.contains(' ') {
            return Err(Fail::new(format_args!("at {limit}: {found}")));
        }
    }
    Ok(())
}

#[test]
fn pairs_worked_by_hand_at_each_limit(rt: HostRuntime) -> Result<(), Fail> {
    let alloc = rt.alloc();
    for (shows, sender, record, receiver, wanted) in ROWS {
        let bytes = bytes_of(alloc, record)?;
        let from = format_of(alloc, sender)?;
        let to = format_of(alloc, receiver)?;
        let (found, _) = answer(alloc, &from, &to, &bytes, 4096)?;
        assert_eq!(rt; found.as_str(), wanted.text(alloc)?.as_str(), "{shows}");
        answers_at_limits(alloc, (sender, receiver), &bytes, &wanted)?;
    }
    Ok(())
}
