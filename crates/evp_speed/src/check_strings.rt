//! Checks of records of 1,000 strings of 4 to 20 letters.

ghost use Rattle.std.specs.Prelude.{◌≡◌, ◌+◌, ◌*◌, ◌/◌, ◌%◌};

use crate::checks::Checks;
use crate::record_bytes::push_text;
use anyhow::Result;
use evp_plain::format_of;
use std::alloc::{AllocError, Global};

/// How many strings a record has.
const STRINGS: u64 = 1_000;

/// 8 records with a list of the strings.
pub fn list(alloc: Global) -> Result<Checks> {
    let mut head = Vec::new(alloc);
    head.extend_from_slice(&STRINGS.to_le_bytes())?;
    head.extend_from_slice(&16u64.to_le_bytes())?;
    Ok(Checks {
        name: "check_strings",
        format: format_of(alloc, "le64 t{n integer 4, v string[n]}")?,
        records: records(alloc, &head)?,
    })
}

/// 8 records with a field for each of the strings.
pub fn fields(alloc: Global) -> Result<Checks> {
    Ok(Checks {
        name: "check_string_fields",
        format: format_of(alloc, string_fields(alloc)?.as_str())?,
        records: records(alloc, &[])?,
    })
}

fn string_fields(alloc: Global) -> Result<String, AllocError> {
    let mut text = String::from_str(alloc, "le64 t{s0 string")?;
    for k in 1..STRINGS {
        text.push_str(format!(in alloc; ", s{k} string")?.as_str())?;
    }
    text.push_str("}")?;
    Ok(text)
}

// Records of these bytes, the pointers of the strings, and the strings.
fn records(alloc: Global, head: &[u8]) -> Result<Vec<Vec<u8>>, AllocError> {
    let mut records = Vec::with_capacity(alloc, 8)?;
    for _ in 0..8 {
        records.push(record(alloc, head)?)?;
    }
    Ok(records)
}

fn record(alloc: Global, head: &[u8]) -> Result<Vec<u8>, AllocError> {
    let mut bytes = Vec::from_slice(alloc, head)?;
    let mut at = (head.len() as u64).wrapping_add(8 * STRINGS);
    for k in 0..STRINGS {
        bytes.extend_from_slice(&at.to_le_bytes())?;
        at = at.wrapping_add(block_of(k));
    }
    for k in 0..STRINGS {
        push_text(&mut bytes, &[b'a'; 20][..letters_of(k)])?;
    }
    Ok(bytes)
}

// The letters of a string.
fn letters_of(number: u64) -> usize
    ensures { result ≡ 4 + number % 17 }
{
    4 + (number % 17) as usize
}

// The bytes of a string's block up to the next one: its letters, a zero, and zeros up to 8.
fn block_of(number: u64) -> u64
    ensures { result ≡ ((4 + number % 17) / 8 + 1) * 8 }
{
    (letters_of(number) as u64 / 8 + 1) * 8
}
