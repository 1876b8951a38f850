//! Records of one sort, made of random numbers.

use crate::random::Random;
use std::alloc::{AllocError, Global};

/// A sort of record.
pub trait Sort {
    /// The record of this number, made of the next random numbers.
    fn record(&self, alloc: Global, k: u64, random: &mut Random) -> Result<Vec<u8>, AllocError>;
}

/// So many records, numbered from 0 on.
pub fn several<S: Sort>(alloc: Global, sort: &S, count: u64) -> Result<Vec<Vec<u8>>, AllocError> {
    let mut random = Random::new();
    let mut records = Vec::new(alloc);
    for k in 0..count {
        records.push(sort.record(alloc, k, &mut random)?)?;
    }
    Ok(records)
}
