//! Lists and texts of many lengths: whole lanes, and what is left behind them.

use super::answers::answer;
use super::bytes::{digits_of, number_bytes};
use crate::format_of;
use std::alloc::Global;
use std::test::*;

// The sender's kind and size of number, and the receiver's; the machines are unlike.
const PAIRS: [(&str, u32, &str, u32); 12] = [
    ("char", 1, "integer", 2),
    ("integer", 2, "integer", 2),
    ("integer", 4, "integer", 4),
    ("integer", 8, "integer", 8),
    ("integer", 1, "integer", 4),
    ("integer", 4, "integer", 8),
    ("unsigned integer", 1, "unsigned integer", 2),
    ("unsigned integer", 1, "unsigned integer", 8),
    ("unsigned integer", 2, "integer", 4),
    ("unsigned integer", 4, "unsigned integer", 8),
    ("integer", 8, "integer", 2),
    ("boolean", 2, "boolean", 1),
];

// The k-th number of a list: from 0 to 98, and for booleans by turns 0 and 1.
fn number(text: &str, k: usize) -> i128 {
    if text == "boolean" {
        (k % 2) as i128
    } else {
        (k % 15 * 7) as i128
    }
}

// A list of so many numbers, in bytes: its count and pointer, then the numbers.
fn list(alloc: Global, big: bool, text: &str, size: u32, count: usize) -> Result<Vec<u8>, Fail> {
    let mut bytes = number_bytes(alloc, big, 8, count as i128)?;
    let pointer = if count == 0 { 0 } else { 16 };
    bytes.extend_from_slice(&number_bytes(alloc, big, 8, pointer)?)?;
    for k in 0..count {
        bytes.extend_from_slice(&number_bytes(alloc, big, size, number(text, k))?)?;
    }
    Ok(bytes)
}

#[test]
fn lists_of_every_length(rt: HostRuntime) -> Result<(), Fail> {
    let alloc = rt.alloc();
    for (from_text, from_size, to_text, to_size) in PAIRS {
        let from = format!(in alloc; "le64 p{{n integer 8, v {from_text}[n] {from_size}}}")?;
        let to = format!(in alloc; "be64 p{{n integer 8, v {to_text}[n] {to_size}}}")?;
        let from = format_of(alloc, &from)?;
        let to = format_of(alloc, &to)?;
        for count in 0..40 {
            let record = list(alloc, false, from_text, from_size, count)?;
            let (found, _) = answer(alloc, &from, &to, &record, 4096)?;
            let wanted = list(alloc, true, from_text, to_size, count)?;
            let wanted = digits_of(alloc, &wanted)?;
            assert_eq!(rt; found.as_str(), wanted.as_str(), "{from_text} {count}");
        }
    }
    Ok(())
}

// The numbers from 1 to 37, of 4 bytes each.
fn up_to_37(alloc: Global, big: bool) -> Result<Vec<u8>, Fail> {
    let mut bytes = Vec::new(alloc);
    for number in 1..38u32 {
        bytes.extend_from_slice(&number_bytes(alloc, big, 4, i128::from(number))?)?;
    }
    Ok(bytes)
}

#[test]
fn a_list_in_the_fixed_part(rt: HostRuntime) -> Result<(), Fail> {
    let alloc = rt.alloc();
    let from = format_of(alloc, "be32 p{a integer[37] 4}")?;
    let to = format_of(alloc, "le32 p{a integer[37] 4}")?;
    let (found, _) = answer(alloc, &from, &to, &up_to_37(alloc, true)?, 4096)?;
    let wanted = digits_of(alloc, &up_to_37(alloc, false)?)?;
    assert_eq!(rt; found.as_str(), wanted.as_str());
    Ok(())
}

// A text of so many letters in bytes: its pointer, the letters and a zero.
fn text(alloc: Global, big: bool, letters: usize) -> Result<Vec<u8>, Fail> {
    let mut bytes = number_bytes(alloc, big, 8, 8)?;
    for k in 0..letters {
        bytes.push(b'a' + (k % 26) as u8)?;
    }
    bytes.push(0)?;
    Ok(bytes)
}

#[test]
fn texts_of_many_lengths(rt: HostRuntime) -> Result<(), Fail> {
    let alloc = rt.alloc();
    let from = format_of(alloc, "le64 p{s string}")?;
    let to = format_of(alloc, "be64 p{s string}")?;
    for letters in (0..70).chain([255, 256, 1000, 4000, 65_536, 262_000]) {
        let record = text(alloc, false, letters)?;
        let (found, _) = answer(alloc, &from, &to, &record, 262_144)?;
        let wanted = digits_of(alloc, &text(alloc, true, letters)?)?;
        assert_eq!(rt; found.as_str(), wanted.as_str(), "{letters} letters");
    }
    Ok(())
}
