//! Reading of the record files that evp_gen makes.

use crate::workload::Workload;
use anyhow::Result;
use evp_file::read_file;
use evp_gen::{Made, make};
use std::alloc::{AllocError, Global};

/// The records of each of the four files.
const RECORDS: u32 = 20_000;

/// The limit of the job that evp_gen makes.
const LIMIT: u32 = 256;

/// The most bytes that `read_file` takes.
const MOST_BYTES: usize = 0x7fff_ffff;

/// Reads record files, all legal.
#[derive(Drop)]
pub struct Reading {
    pub alloc: Global,
    pub made: Made,
}

/// The four files.
pub fn files(alloc: Global) -> Result<Reading> {
    let made = make(alloc, RECORDS)?;
    Ok(Reading { alloc, made })
}

impl Workload for Reading {
    ghost use Rattle.std.specs.Prelude.{⊤};

    ghost ready = { λ _. ⊤ };

    fn name(&self) -> &'static str {
        "read_files"
    }

    fn records(&self) -> usize {
        self.made.files().len().saturating_mul(RECORDS as usize)
    }

    fn pass(&self, _out: &mut [u8]) -> u64 {
        count_read(self.alloc, self.made.files(), 0)
    }

    fn compared(&self, alloc: Global, _out: &mut [u8]) -> Result<String, AllocError> {
        let files = self.made.files();
        let count = files.len();
        let whole = count_read(alloc, files, 0);
        let cut = count_read(alloc, files, 1);
        format!(in alloc;
            "{whole} records are read of {count} files, \
            and {cut} without their last byte"
        )
    }
}

// How many records are read of the files without so many bytes at their end.
fn count_read(alloc: Global, files: &[Vec<u8>], cut: usize) -> u64 {
    let mut records = 0u64;
    for file in files {
        let bytes = &file[..file.len().saturating_sub(cut)];
        records = records.wrapping_add(records_in(alloc, bytes));
    }
    records
}

// How many records the file has; none where it isn't one.
fn records_in(alloc: Global, bytes: &[u8]) -> u64 {
    if bytes.len() > MOST_BYTES {
        return 0;
    }
    match read_file(alloc, bytes, &[], LIMIT) {
        Ok(file) => file.items.as_slice().len() as u64,
        Err(_) => 0,
    }
}
