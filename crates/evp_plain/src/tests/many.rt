//! As many fields as a format has at most.

use super::answers::answer;
use super::bytes::{digits_of, number_bytes};
use crate::format_of;
use evp_format::Format;
use std::alloc::Global;
use std::test::*;

// Fields of a type.
const FIELDS: u32 = 1024;

// A format of four types of 1,024 fields: three of numbers, and a record of these three and of
// numbers, with the fields from the first to the last, or the other way round.
fn format(alloc: Global, word: &str, size: u32, forward: bool) -> Result<Format, Fail> {
    let mut text = String::from_str(alloc, word)?;
    for name in ["a", "b", "c", "r"] {
        text.push_str(format!(in alloc; " {name}{{")?.as_str())?;
        for k in 0..FIELDS {
            let number = if forward { k } else { FIELDS - 1 - k };
            text.push_str(field(alloc, name, number, size)?.as_str())?;
            text.push_str(if k + 1 < FIELDS { "," } else { "}" })?;
        }
    }
    Ok(format_of(alloc, &text)?)
}

// A field: the record's first three are the other types.
fn field(alloc: Global, name: &str, number: u32, size: u32) -> Result<String, Fail> {
    let inner = match number {
        0 => "a",
        1 => "b",
        2 => "c",
        _ => "",
    };
    if name == "r" && !inner.is_empty() {
        return Ok(format!(in alloc; "{inner} {inner}")?);
    }
    Ok(format!(in alloc; "f{number} integer {size}")?)
}

// A record: the numbers of each type's fields, from 0 on.
fn record(alloc: Global, big: bool, size: u32, forward: bool) -> Result<Vec<u8>, Fail> {
    let mut bytes = Vec::new(alloc);
    for type_number in 0..4 {
        let least = if type_number == 3 { 3 } else { 0 };
        for k in least..FIELDS {
            let number = if forward { k } else { FIELDS - 1 + least - k };
            bytes.extend_from_slice(&number_bytes(alloc, big, size, i128::from(number))?)?;
        }
    }
    Ok(bytes)
}

#[test]
fn all_fields_that_a_format_may_have(rt: HostRuntime) -> Result<(), Fail> {
    let alloc = rt.alloc();
    let from = format(alloc, "le64", 4, true)?;
    let bytes = record(alloc, false, 4, true)?;
    for (word, big, size, forward) in [("be32", true, 8, true)] {
        let to = format(alloc, word, size, forward)?;
        let (found, _) = answer(alloc, &from, &to, &bytes, 65_536)?;
        let wanted = digits_of(alloc, &record(alloc, big, size, forward)?)?;
        assert!(rt; found.as_str() == wanted.as_str(), "{word}");
    }
    Ok(())
}
