//! Checks of records of five fields, as senders of readings make them.

use crate::checks::Checks;
use crate::record_bytes::{align, push_text};
use anyhow::Result;
use evp_plain::format_of;
use std::alloc::{AllocError, Global};

const READING: &str =
    "le64 s{id unsigned integer 4, x integer 4, tag string, n integer 4, v integer[n] 2}";

/// 256 records, each with a text of up to two digits or none, and with up to three numbers.
pub fn generated(alloc: Global) -> Result<Checks> {
    let mut records = Vec::with_capacity(alloc, 256)?;
    for id in 0..256u32 {
        records.push(record(alloc, id)?)?;
    }
    Ok(Checks {
        name: "check_generated",
        format: format_of(alloc, READING)?,
        records,
    })
}

// The record of that number: 32 bytes, and behind them the text and the numbers that it has.
fn record(alloc: Global, id: u32) -> Result<Vec<u8>, AllocError> {
    let count = id % 4;
    let tagged = id % 5 != 4;
    let tag: u64 = if tagged { 32 } else { 0 };
    let list: u64 = match (count, tagged) {
        (0, _) => 0,
        (_, true) => 40,
        (_, false) => 32,
    };
    let mut bytes = Vec::new(alloc);
    bytes.extend_from_slice(&id.to_le_bytes())?;
    bytes.extend_from_slice(&(id % 1009).to_le_bytes())?;
    bytes.extend_from_slice(&tag.to_le_bytes())?;
    bytes.extend_from_slice(&u64::from(count).to_le_bytes())?;
    bytes.extend_from_slice(&list.to_le_bytes())?;
    if tagged {
        let text = format!(in alloc; "{}", id % 100)?;
        push_text(&mut bytes, text.as_bytes())?;
    }
    if count > 0 {
        align(&mut bytes)?;
    }
    for k in 0..count {
        let number = ((u64::from(id) + u64::from(k)) % 100) as u16;
        bytes.extend_from_slice(&number.to_le_bytes())?;
    }
    Ok(bytes)
}
