//! Jobs by their documents and the bytes of their sources' files.

use evp_file::read_file;
use evp_job::{fill_job, read_job};
use evp_stone::Job;
use std::alloc::Global;

/// The job of the document, whose one source has this file.
pub fn job_of(alloc: Global, document: &str, bytes: &[u8]) -> Option<Job> {
    let Ok(text) = read_job(alloc, document.as_bytes()) else {
        return None;
    };
    if bytes.len() > 1_000 {
        return None;
    }
    let Ok(file) = read_file(alloc, bytes, &text.formats, text.limit) else {
        return None;
    };
    let files = vec![in alloc; file].ok()?;
    if files.len() != text.sources.len() {
        return None;
    }
    fill_job(alloc, text, files).ok()
}
