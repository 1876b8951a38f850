//! Checks of records of numbers alone, whose length is all that can be wrong.

use crate::checks::Checks;
use anyhow::Result;
use evp_plain::format_of;
use std::alloc::{AllocError, Global};

const TWELVE: &str = "le64 t{a integer 4, b integer 1, c integer 2, d integer 8, \
    e unsigned integer 1, f unsigned integer 4, g integer 2, h unsigned integer 8, \
    i integer 1, j integer 4, k unsigned integer 2, l integer 8}";

/// 256 records of 12 numbers, of 64 bytes each.
pub fn twelve(alloc: Global) -> Result<Checks> {
    Ok(Checks {
        name: "check_numbers",
        format: format_of(alloc, TWELVE)?,
        records: records(alloc, 256, 64)?,
    })
}

/// 8 records of 1,000 numbers of 4 bytes.
pub fn thousand(alloc: Global) -> Result<Checks> {
    Ok(Checks {
        name: "check_numbers_1000",
        format: format_of(alloc, thousand_fields(alloc)?.as_str())?,
        records: records(alloc, 8, 4_000)?,
    })
}

fn thousand_fields(alloc: Global) -> Result<String, AllocError> {
    let mut text = String::from_str(alloc, "le64 t{f0 integer 4")?;
    for k in 1..1_000u32 {
        text.push_str(format!(in alloc; ", f{k} integer 4")?.as_str())?;
    }
    text.push_str("}")?;
    Ok(text)
}

// Records of so many bytes.
fn records(alloc: Global, count: usize, length: usize) -> Result<Vec<Vec<u8>>, AllocError> {
    let mut records = Vec::with_capacity(alloc, count)?;
    for k in 0..count {
        records.push(vec![in alloc; (k % 251) as u8; length]?)?;
    }
    Ok(records)
}
