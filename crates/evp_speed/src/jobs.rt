//! Jobs by their documents and the bytes of their sources' files.

ghost use Rattle.std.specs.Prelude.{IfOk, length, All, ◌≤◌};
ghost use Rattle.evp_file.specs.Whole.{IsWhole};
ghost use Rattle.evp_job.specs.Stated.{IsStated};

use anyhow::{Result, bail};
use evp_file::{KnownFormat, RecordFile, read_file};
use evp_job::{JobText, fill_job, read_job};
use evp_stone::Job;
use std::alloc::Global;

/// The most bytes that `read_file` takes.
const MOST_BYTES: usize = 0x7fff_ffff;

/// The job of the document, whose sources have these files, in their order.
pub fn job_of(alloc: Global, document: &str, files: &[Vec<u8>]) -> Result<Job> {
    let text = stated(alloc, document)?;
    let read = read_all(alloc, files, &text.formats, text.limit)?;
    filled(alloc, text, read)
}

// What the document states.
fn stated(alloc: Global, document: &str) -> Result<JobText>
    ensures { IfOk result IsStated }
{
    match read_job(alloc, document.as_bytes()) {
        Ok(text) => Ok(text),
        Err(_) => bail!("a document that states no job"),
    }
}

// The files that these bytes are, by the known formats.
fn read_all(
    alloc: Global,
    files: &[Vec<u8>],
    known: &[KnownFormat],
    limit: u32,
) -> Result<Vec<RecordFile>>
    requires { length known.now ≤ 256 }
    ensures { IfOk result (λ read. All (IsWhole known.now) read.items) }
{
    let mut read = Vec::with_capacity(alloc, files.len())?;
    for bytes in files {
        read.push(read_one(alloc, bytes.as_slice(), known, limit)?)?;
    }
    Ok(read)
}

// The file that these bytes are.
fn read_one(alloc: Global, bytes: &[u8], known: &[KnownFormat], limit: u32) -> Result<RecordFile>
    requires { length known.now ≤ 256 }
    ensures { IfOk result (IsWhole known.now) }
{
    if bytes.len() > MOST_BYTES {
        bail!("a file of too many bytes");
    }
    match read_file(alloc, bytes, known, limit) {
        Ok(file) => Ok(file),
        Err(_) => bail!("bytes that are no file"),
    }
}

// The document with these files, where each source has one.
fn filled(alloc: Global, text: JobText, files: Vec<RecordFile>) -> Result<Job>
    requires stated { IsStated text }
    requires whole { All (IsWhole text.formats.items) files.items }
{
    if files.len() != text.sources.len() {
        bail!("a source without a file");
    }
    match fill_job(alloc, text, files) {
        Ok(job) => Ok(job),
        Err(_) => bail!("files that are none of the job's"),
    }
}
