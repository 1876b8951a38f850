//! Documents for tests, and what is read of them.

use evp_job::{JobText, ReadJob, read_job};
use std::alloc::{AllocError, Global};
use std::process::Abort;
use std::test::Fail;

// Two formats and a source, up to the stones.
pub(crate) const HEAD: &str =
    "{\"formats\":[{\"name\":\"q\",\"profile\":\"be64\",\"types\":[{\"name\":\"q\",\"fields\":[[\"x\",\"integer\",8]]}]},\
    {\"name\":\"l\",\"profile\":\"le64\",\"types\":[{\"name\":\"l\",\"fields\":\
    [[\"n\",\"integer\",4],[\"a\",\"integer[n]\",4],[\"s\",\"string\"],[\"y\",\"integer\",4]]}]}],\
    \"sources\":[{\"name\":\"a\",\"file\":\"f\",\"stone\":0}],\"stones\":[";

// What follows the stones: a round.
pub(crate) const END: &str = "],\"rounds\":[{\"submit\":[1],\"frozen\":[]}]}";

// A document: what it shows, its pieces, and what is read of it.
pub(crate) type Row = (&'static str, &'static [&'static str], &'static str);

// Each document is read so.
pub(crate) fn are_read(rt: &impl Abort, alloc: Global, rows: &[Row]) -> Result<(), Fail> {
    for (name, pieces, expected) in rows {
        let bytes = joined(alloc, pieces)?;
        let text = answer(alloc, bytes.as_slice())?;
        assert_eq!(rt; (*name, text.as_str()), (*name, *expected));
    }
    Ok(())
}

// The pieces, one behind another.
pub(crate) fn joined(alloc: Global, pieces: &[&str]) -> Result<Vec<u8>, AllocError> {
    let mut bytes = Vec::new(alloc);
    for piece in pieces {
        bytes.extend_from_slice(piece.as_bytes())?;
    }
    Ok(bytes)
}

// The text of what is read.
pub(crate) fn answer(alloc: Global, bytes: &[u8]) -> Result<String, AllocError> {
    match read_job(alloc, bytes) {
        Ok(text) => summary(alloc, &text),
        Err(ReadJob::NotJson) => String::from_str(alloc, "not json"),
        Err(ReadJob::Job(fault)) => format!(in alloc; "{fault}"),
        Err(ReadJob::Memory) => String::from_str(alloc, "memory"),
    }
}

// How much a job has of each.
fn summary(alloc: Global, text: &JobText) -> Result<String, AllocError> {
    let (limit, queue) = (text.limit, text.queue);
    let formats = text.formats.len();
    let sources = text.sources.len();
    let stones = text.stones.len();
    let rounds = text.rounds.len();
    let routes = text.routes.as_slice().len();
    let head = format!(in alloc;
        "limit {limit} queue {queue} formats {formats} sources {sources}"
    )?;
    format!(in alloc; "{head} stones {stones} rounds {rounds} routes {routes}")
}
