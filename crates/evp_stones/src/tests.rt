//! Rows of lines: what is held, the words, and the status and the text that are worked out by hand.
use crate::{OpenGate, stones};
use evp_depot::{MemoryDepot, MemorySink};
use std::alloc::Global;
use std::collections::BTreeMap;
use std::sync::Wait;
use std::test::Fail;
use std::thread::Threads;

mod bench;
mod conversions;
mod converts;
mod ends;
mod files;
mod graphs;
mod hostile;
mod lines;
mod monitoring;

// A job's document around its formats: up to the profile of the format q, up to its types, up to
// its stones.
const HEAD: &str = r#"{"formats":[{"name":"q","profile":""#;

const TYPES: &str = r#"","types":["#;

const SOURCE: &str = r#"]}],"sources":[{"name":"a","file":"a.ndr","stone":0}],"#;

// All of that for a record {x} of one number of 8 bytes on a big-endian machine.
const FORMATS: &str = r#"{"formats":[{"name":"q","profile":"be64",
    "types":[{"name":"q","fields":[["x","integer",8]]}]}],
    "sources":[{"name":"a","file":"a.ndr","stone":0}],"#;

const TERMINAL: &str = r#""stones":[{"kind":"terminal","format":"q"}],"#;

const DIAMOND: &str = r#""stones":[{"kind":"split","targets":[1,2]},
    {"kind":"filter","format":"q","expr":"1","target":3},
    {"kind":"filter","format":"q","expr":"1","target":3},
    {"kind":"terminal","format":"q"}],"#;

// One round, in which this many records are submitted.
const ZERO: &str = r#""rounds":[{"submit":[0],"frozen":[]}]}"#;

const ONE: &str = r#""rounds":[{"submit":[1],"frozen":[]}]}"#;

const TWO: &str = r#""rounds":[{"submit":[2],"frozen":[]}]}"#;

const THREE: &str = r#""rounds":[{"submit":[3],"frozen":[]}]}"#;

const FOUR: &str = r#""rounds":[{"submit":[4],"frozen":[]}]}"#;

// The job whose one record is received as it comes.
const JOB: &[&str] = &[FORMATS, TERMINAL, ONE];

const RUN: [&str; 3] = ["run", "j.json", "1"];

const WALK: [&str; 3] = ["walk", "j.json", "o.txt"];

// What a depot holds: the job of these parts as `j.json`, the record file of these as `a.ndr` and
// as `b.ndr`, and an order file as `o.txt`; and which of its calls fail. A file takes two calls: for
// all bytes, and for its end.
#[derive(Drop)]
struct Held<'a> {
    job: &'a [&'a str],
    file: &'a [&'a [u8]],
    order: &'a [u8],
    failing: &'a [u32],
}

fn joined(alloc: Global, parts: &[&[u8]]) -> Result<Vec<u8>, Fail> {
    let mut bytes = Vec::new(alloc);
    for part in parts {
        bytes.extend_from_slice(part)?;
    }
    Ok(bytes)
}

fn depot_of(alloc: Global, held: &Held<'_>) -> Result<MemoryDepot, Fail> {
    let mut job = Vec::new(alloc);
    for part in held.job {
        job.extend_from_slice(part.as_bytes())?;
    }
    let mut files = BTreeMap::new(alloc);
    files.insert(String::from_str(alloc, "j.json")?, job)?;
    files.insert(String::from_str(alloc, "a.ndr")?, joined(alloc, held.file)?)?;
    files.insert(String::from_str(alloc, "b.ndr")?, joined(alloc, held.file)?)?;
    files.insert(String::from_str(alloc, "o.txt")?, held.order.to_vec(alloc)?)?;
    Ok(MemoryDepot::new(files, held.failing.to_vec(alloc)?))
}

fn owned(alloc: Global, words: &[&str]) -> Result<Vec<String>, Fail> {
    let mut owned = Vec::new(alloc);
    for word in words {
        owned.push(String::from_str(alloc, word)?)?;
    }
    Ok(owned)
}

// The status.
fn run<R: Threads + Wait + Sync>(
    rt: &R,
    alloc: Global,
    words: &[&str],
    held: &Held<'_>,
    sink: &mut MemorySink,
) -> Result<u8, Fail> {
    let words = owned(alloc, words)?;
    let mut depot = depot_of(alloc, held)?;
    Ok(stones(rt, alloc, &words, &mut depot, sink, &OpenGate))
}

// Whether the words give this status and this text.
fn gives<R: Threads + Wait + Sync>(
    rt: &R,
    alloc: Global,
    words: &[&str],
    held: &Held<'_>,
    status: u8,
    text: &str,
) -> Result<bool, Fail> {
    let mut sink = MemorySink::new(alloc, 2_000, 64, Vec::new(alloc))?;
    let given = run(rt, alloc, words, held, &mut sink)?;
    Ok(given == status && sink.put() == text.as_bytes())
}

// Whether `run` and `walk` without listed turns do, over a job and a record file.
fn reports<R: Threads + Wait + Sync>(
    rt: &R,
    alloc: Global,
    job: &[&str],
    file: &[&[u8]],
    status: u8,
    text: &str,
) -> Result<bool, Fail> {
    let held = Held {
        job,
        file,
        order: b"",
        failing: &[],
    };
    Ok(
        gives(rt, alloc, &RUN, &held, status, text)?
            && gives(rt, alloc, &WALK, &held, status, text)?,
    )
}
