//! Record files of one format.

use anyhow::Result;
use evp_format::write_description;
use evp_plain::format_of;
use std::alloc::{AllocError, Global};

/// The file of these records, whose format the text declares.
pub fn file_of(alloc: Global, format: &str, records: &[Vec<u8>]) -> Result<Vec<u8>> {
    let format = format_of(alloc, format)?;
    let description = write_description(alloc, &format)?;
    let mut bytes = Vec::from_slice(alloc, b"NDR1F")?;
    push_counted(&mut bytes, &description)?;
    for record in records {
        bytes.extend_from_slice(b"R\0\0")?;
        push_counted(&mut bytes, record)?;
    }
    bytes.push(b'E')?;
    Ok(bytes)
}

// Bytes behind their length, in four bytes.
fn push_counted(bytes: &mut Vec<u8>, counted: &[u8]) -> Result<(), AllocError> {
    bytes.extend_from_slice(&(counted.len() as u64).to_be_bytes()[4..])?;
    bytes.extend_from_slice(counted)
}
