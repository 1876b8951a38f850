//! The blocks of a record, which begin at multiples of 8, and its numbers.

use evp_base::Order;
use std::alloc::AllocError;

/// Zeros up to the next multiple of 8.
pub fn align(bytes: &mut Vec<u8>) -> Result<(), AllocError> {
    align_to(bytes, 8)
}

/// Zeros up to the next multiple of this size.
pub fn align_to(bytes: &mut Vec<u8>, size: usize) -> Result<(), AllocError> {
    let length = bytes.len().checked_next_multiple_of(size.max(1));
    bytes.resize(length.unwrap_or(bytes.len()), 0)
}

/// A text's block, behind all blocks so far: its bytes and a zero.
pub fn push_text(bytes: &mut Vec<u8>, text: &[u8]) -> Result<(), AllocError> {
    align(bytes)?;
    bytes.extend_from_slice(text)?;
    bytes.push(0)?;
    Ok(())
}

/// A number of this size, the least byte first, at the next multiple of its size.
pub fn push_number(bytes: &mut Vec<u8>, size: usize, number: u64) -> Result<(), AllocError> {
    push_ordered(bytes, Order::Little, size, number)
}

/// A number of this size, in this order of bytes, at the next multiple of its size.
pub fn push_ordered(
    bytes: &mut Vec<u8>,
    order: Order,
    size: usize,
    number: u64,
) -> Result<(), AllocError> {
    align_to(bytes, size)?;
    let size = size.min(8);
    match order {
        Order::Little => bytes.extend_from_slice(&number.to_le_bytes()[..size]),
        Order::Big => bytes.extend_from_slice(&number.to_be_bytes()[8 - size..]),
    }
}
