//! A job that is carried to its end: one machine sends 100 numbers through a chain of 200 splits to
//! a terminal.

use crate::carrying::Carrying;
use crate::jobs::job_of;
use crate::record_bytes::push_number;
use crate::record_files::file_of;
use anyhow::Result;
use std::alloc::{AllocError, Global};

/// The splits of the chain.
const SPLITS: u32 = 200;

/// The numbers that are sent.
const NUMBERS: u64 = 100;

/// What stands before the stones of the document, and behind the splits.
const HEAD: &str = "{\"formats\":[{\"name\":\"q\",\"profile\":\"le32\",\"types\":[{\"name\":\"q\",\
    \"fields\":[[\"x\",\"integer\",4]]}]}],\"sources\":[{\"name\":\"a\",\
    \"file\":\"a\",\"stone\":0}],\"stones\":[";

const TAIL: &str = "{\"kind\":\"terminal\",\"format\":\"q\"}],\
    \"rounds\":[{\"submit\":[100],\"frozen\":[]}]}";

/// The job with its lines.
pub fn chain(alloc: Global) -> Result<Carrying> {
    let document = document(alloc)?;
    let file = file_of(alloc, "le32 t{x integer 4}", &numbers(alloc)?)?;
    let files = vec![in alloc; file]?;
    Ok(Carrying {
        name: "finish_chain",
        alloc,
        job: job_of(alloc, document.as_str(), &files)?,
        records: NUMBERS as usize,
        lines: lines(alloc)?,
    })
}

fn document(alloc: Global) -> Result<String, AllocError> {
    let mut text = String::from_str(alloc, HEAD)?;
    for stone in 0..SPLITS {
        let target = stone + 1;
        let split = format!(in alloc; "{{\"kind\":\"split\",\"targets\":[{target}]}},")?;
        text.push_str(split.as_str())?;
    }
    text.push_str(TAIL)?;
    Ok(text)
}

// The records, each with its own number.
fn numbers(alloc: Global) -> Result<Vec<Vec<u8>>, AllocError> {
    let mut records = Vec::with_capacity(alloc, NUMBERS as usize)?;
    for number in 0..NUMBERS {
        let mut bytes = Vec::with_capacity(alloc, 4)?;
        push_number(&mut bytes, 4, number)?;
        records.push(bytes)?;
    }
    Ok(records)
}

// The lines of the report that name the round or a route, and the first of a record.
fn lines(alloc: Global) -> Result<Vec<String>, AllocError> {
    let mut lines = Vec::with_capacity(alloc, 203)?;
    lines.push(String::from_str(alloc, "round 0")?)?;
    let mut route = String::from_str(alloc, "a")?;
    for stone in 0..SPLITS + 1 {
        route.push_str(format!(in alloc; ">{stone}")?.as_str())?;
        lines.push(format!(in alloc; "{route} passed 100 dropped 0 refused 0 held 0")?)?;
    }
    lines.push(String::from_str(alloc, "#0 {x=0}")?)?;
    Ok(lines)
}
