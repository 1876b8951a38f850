//! The check of one legal record of 262,144 bytes: a list without pointers, its types nested 15
//! deep. A walk over each of its elements and their parts would make 3,931,920 steps.

use crate::checks::Checks;
use anyhow::Result;
use evp_plain::format_of;
use std::alloc::{AllocError, Global};

/// The elements of the list, each of one byte.
const ELEMENTS: usize = 262_128;

/// The types below the record's.
const DEPTH: u32 = 15;

/// The record.
pub fn deep(alloc: Global) -> Result<Checks> {
    let mut bytes = Vec::new(alloc);
    bytes.extend_from_slice(&(ELEMENTS as u64).to_le_bytes())?;
    bytes.extend_from_slice(&16u64.to_le_bytes())?;
    bytes.resize(16 + ELEMENTS, 1)?;
    Ok(Checks {
        name: "check_deep",
        format: format_of(alloc, nested(alloc)?.as_str())?,
        records: vec![in alloc; bytes]?,
    })
}

// A type of one byte, types of one field of the one before, and the record with the list.
fn nested(alloc: Global) -> Result<String, AllocError> {
    let mut text = String::from_str(alloc, "le64 t1{c char 1}")?;
    for depth in 2..=DEPTH {
        let inner = depth - 1;
        text.push_str(format!(in alloc; " t{depth}{{p t{inner}}}")?.as_str())?;
    }
    text.push_str(format!(in alloc; " r{{n integer 4, p t{DEPTH}[n]}}")?.as_str())?;
    Ok(text)
}
