//! Bytes in hexadecimal digits.

use std::alloc::{AllocError, Global};

// What a conversion is to come to: bytes in hexadecimal digits with blanks, or a fault's text.
#[derive(Clone, Copy)]
pub(super) enum Wanted {
    Bytes(&'static str),
    Fault(&'static str),
}

impl Wanted {
    // The digits without blanks, or the fault.
    pub(super) fn text(&self, alloc: Global) -> Result<String, AllocError> {
        match self {
            Wanted::Bytes(digits) => digits_of(alloc, &bytes_of(alloc, digits)?),
            Wanted::Fault(text) => String::from_str(alloc, text),
        }
    }
}

// The bytes of these digits; blanks don't count.
pub(super) fn bytes_of(alloc: Global, digits: &str) -> Result<Vec<u8>, AllocError> {
    let mut bytes = Vec::new(alloc);
    let mut first = None;
    for letter in digits.chars() {
        let Some(digit) = letter.to_digit(16) else {
            continue;
        };
        match first {
            None => first = Some(digit as u8),
            Some(high) => {
                bytes.push(high << 4 | digit as u8)?;
                first = None;
            }
        }
    }
    Ok(bytes)
}

// The digits of these bytes.
pub(super) fn digits_of(alloc: Global, bytes: &[u8]) -> Result<String, AllocError> {
    let mut digits = String::new(alloc);
    for byte in bytes {
        digits.push_str(format!(in alloc; "{byte:02x}")?.as_str())?;
    }
    Ok(digits)
}

// The bytes of a number of this size, the least first unless `big`.
pub(super) fn number_bytes(
    alloc: Global,
    big: bool,
    size: u32,
    number: i128,
) -> Result<Vec<u8>, AllocError> {
    let all = number.to_le_bytes();
    let mut bytes = Vec::from_slice(alloc, &all[..(size as usize).min(16)])?;
    if big {
        bytes.reverse();
    }
    Ok(bytes)
}
