//! Checks of records of one format.

use crate::workload::Workload;
use evp_format::Format;
use evp_record::check;
use std::alloc::{AllocError, Global};

/// Checks records, all legal.
#[derive(Drop)]
pub struct Checks {
    pub name: &'static str,
    pub format: Format,
    pub records: Vec<Vec<u8>>,
}

impl Workload for Checks {
    ghost use Rattle.std.specs.Prelude.{⊤};

    ghost ready = { λ _. ⊤ };

    fn name(&self) -> &'static str {
        self.name
    }

    fn records(&self) -> usize {
        self.records.len()
    }

    fn pass(&self, _out: &mut [u8]) -> u64 {
        count_legal(&self.format, &self.records, 0)
    }

    fn compared(&self, alloc: Global, _out: &mut [u8]) -> Result<String, AllocError> {
        let count = self.records.len();
        let whole = count_legal(&self.format, &self.records, 0);
        let cut = count_legal(&self.format, &self.records, 1);
        format!(in alloc; "{whole} of {count} records are legal, and {cut} without their last byte")
    }
}

// How many of the records are legal without so many bytes at their end.
fn count_legal(format: &Format, records: &[Vec<u8>], cut: usize) -> u64 {
    let mut count = 0u64;
    for record in records {
        let bytes = &record[..record.len().saturating_sub(cut)];
        if bytes.len() <= u32::MAX as usize && check(format, bytes).is_ok() {
            count = count.wrapping_add(1);
        }
    }
    count
}
