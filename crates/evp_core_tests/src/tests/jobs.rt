//! Jobs by their documents and the bytes of their sources' files.

ghost use Rattle.std.specs.Prelude.{IfSome, length, All, ◌≤◌};
ghost use Rattle.evp_file.specs.Whole.{IsWhole};
ghost use Rattle.evp_job.specs.Stated.{IsStated};

use evp_file::{KnownFormat, RecordFile, read_file};
use evp_job::{JobText, fill_job, read_job};
use evp_stone::Job;
use std::alloc::Global;

// The most bytes of a file.
const MOST_BYTES: usize = 1_000;

/// The job of the document, whose one source has this file.
pub fn job_of_one(alloc: Global, document: &str, bytes: &[u8]) -> Option<Job> {
    let text = stated(alloc, document)?;
    let file = file(alloc, bytes, &text.formats, text.limit)?;
    let files = vec![in alloc; file].ok()?;
    filled(alloc, text, files)
}

// What the document states.
fn stated(alloc: Global, document: &str) -> Option<JobText>
    ensures { IfSome result IsStated }
{
    read_job(alloc, document.as_bytes()).ok()
}

// The file that the bytes are, by these known formats.
fn file(alloc: Global, bytes: &[u8], known: &[KnownFormat], limit: u32) -> Option<RecordFile>
    requires { length known.now ≤ 256 }
    ensures { IfSome result (IsWhole known.now) }
{
    if bytes.len() > MOST_BYTES {
        return None;
    }
    read_file(alloc, bytes, known, limit).ok()
}

// The document with these files, where each source has one.
fn filled(alloc: Global, text: JobText, files: Vec<RecordFile>) -> Option<Job>
    requires stated { IsStated text }
    requires whole { All (IsWhole text.formats.items) files.items }
{
    if files.len() != text.sources.len() {
        return None;
    }
    fill_job(alloc, text, files).ok()
}
