//! Jobs that are filled with files, and the first refusals of others.

ghost use Rattle.std.specs.Prelude.{IfSome, length, All, ◌≤◌};
ghost use Rattle.evp_file.specs.Whole.{IsWhole};
ghost use Rattle.evp_job.specs.Stated.{IsStated};

use crate::documents::joined;
use evp_file::{KnownFormat, RecordFile, read_file};
use evp_job::{JobFault, JobText, fill_job, read_job};
use evp_stone::{Job, Source};
use std::alloc::{AllocError, Global};
use std::test::Fail;

// What follows the limit in a document of two known formats and two sources at one stone, up to
// what the first of two rounds submits, between both rounds, and behind them.
const BODY: &str =
    ",\"formats\":[{\"name\":\"c\",\"profile\":\"le64\",\"types\":[{\"name\":\"p\",\"fields\":[[\"x\",\"char\",1]]}]},\
    {\"name\":\"n\",\"profile\":\"be64\",\"types\":[{\"name\":\"q\",\"fields\":[[\"x\",\"integer\",8]]}]}],\
    \"sources\":[{\"name\":\"a\",\"file\":\"f\",\"stone\":0},{\"name\":\"b\",\"file\":\"f\",\"stone\":0}],\
    \"stones\":[{\"kind\":\"terminal\",\"format\":\"c\"}],\"rounds\":[{\"submit\":[";

const NEXT: &str = "],\"frozen\":[]},{\"submit\":[";

const END: &str = "],\"frozen\":[]}]}";

// The frame of another description, and the first known format's identifier by sha256sum.
const FORMAT: &[u8] =
    b"F\0\0\0\x1fNDF1\0\x04\0\x01\x01p\0\0\0\x01\0\x01\x01x\x04char\0\0\0\x01\0\0\0\0";

const ID: &[u8] =
    b"\x49\xbb\xa1\x28\x8e\x06\xea\x70\x04\x19\x02\xfe\x47\xa3\x31\xc7\xa7\x60\x7c\x3b\x64\x4e\xa2\x6b\xc7\x7c\xa6\x35\x15\x00\x54\xe0";

// The limit, what both sources submit in each of two rounds, how many descriptions, identifiers and
// records the file of each has, and the answer.
const ROWS: [(&str, &str, [&str; 2], [[usize; 3]; 2], &str); 13] = [
    (
        "two known formats and 1,022 more",
        "256",
        ["0,0", "0,0"],
        [[1000, 0, 0], [22, 0, 0]],
        "1024 formats, records 0 0",
    ),
    (
        "one format too many",
        "256",
        ["0,0", "0,0"],
        [[1000, 0, 0], [23, 0, 0]],
        "limit at formats: 1025",
    ),
    (
        "identifiers, which add no formats",
        "256",
        ["0,0", "0,0"],
        [[0, 1024, 0], [1022, 2, 0]],
        "1024 formats, records 0 0",
    ),
    (
        "a file for two sources, which counts twice",
        "256",
        ["0,0", "0,0"],
        [[512, 0, 0], [512, 0, 0]],
        "limit at formats: 1026",
    ),
    (
        "all records in two rounds",
        "256",
        ["2,0", "1,1"],
        [[1, 0, 3], [1, 0, 1]],
        "4 formats, records 3 1",
    ),
    (
        "more than a file has",
        "256",
        ["2,0", "2,0"],
        [[1, 0, 3], [1, 0, 8]],
        "source 0 submits 4 of 3",
    ),
    (
        "more than the second file has",
        "256",
        ["0,1", "0,1"],
        [[1, 0, 3], [1, 0, 1]],
        "source 1 submits 2 of 1",
    ),
    (
        "2^31 bytes",
        "261888",
        ["8000,0", "191,1"],
        [[1, 0, 8191], [1, 0, 1]],
        "4 formats, records 8191 1",
    ),
    (
        "a record more",
        "261888",
        ["8193,0", "0,0"],
        [[1, 0, 8193], [1, 0, 0]],
        "carried 8193 at limit 261888",
    ),
    (
        "a byte of the limit more",
        "261889",
        ["8191,0", "0,1"],
        [[1, 0, 8191], [1, 0, 1]],
        "carried 8192 at limit 261889",
    ),
    (
        "formats before records",
        "256",
        ["1,0", "0,0"],
        [[1024, 0, 0], [0, 0, 0]],
        "limit at formats: 1026",
    ),
    (
        "records before what is carried",
        "261888",
        ["8193,0", "1,0"],
        [[1, 0, 8193], [1, 0, 0]],
        "source 0 submits 8194 of 8193",
    ),
    (
        "the first of two sources",
        "256",
        ["1,1", "0,0"],
        [[1, 0, 0], [1, 0, 0]],
        "source 0 submits 1 of 0",
    ),
];

// A file of so many frames of each sort, its records of its first format and of one byte each.
fn file_of(alloc: Global, frames: [usize; 3]) -> Result<Vec<u8>, AllocError> {
    let [own, known, records] = frames;
    let mut bytes = Vec::from_slice(alloc, b"NDR1")?;
    for _ in 0..own {
        bytes.extend_from_slice(FORMAT)?;
    }
    for _ in 0..known {
        bytes.push(b'I')?;
        bytes.extend_from_slice(ID)?;
    }
    for _ in 0..records {
        bytes.extend_from_slice(b"R\0\0\0\0\0\x01\x07")?;
    }
    bytes.push(b'E')?;
    Ok(bytes)
}

// The document that these pieces make.
fn text(alloc: Global, pieces: &[&str]) -> Option<JobText>
    ensures { IfSome result IsStated }
{
    let bytes = joined(alloc, pieces).ok()?;
    read_job(alloc, bytes.as_slice()).ok()
}

// The file that the bytes are, by these known formats.
fn read(alloc: Global, bytes: &[u8], known: &[KnownFormat], limit: u32) -> Option<RecordFile>
    requires { length known.now ≤ 256 }
    ensures { IfSome result (IsWhole known.now) }
{
    if bytes.len() > 10_000_000 {
        return None;
    }
    read_file(alloc, bytes, known, limit).ok()
}

// The document with these files, where each source has one.
fn filled(alloc: Global, text: JobText, files: Vec<RecordFile>) -> Option<Result<Job, JobFault>>
    requires stated { IsStated text }
    requires whole { All (IsWhole text.formats.items) files.items }
{
    if files.len() != text.sources.len() {
        return None;
    }
    Some(fill_job(alloc, text, files))
}

// The document of one source with this file.
fn with_one(alloc: Global, text: JobText, bytes: &[u8]) -> Option<Result<Job, JobFault>>
    requires { IsStated text }
{
    let file = read(alloc, bytes, &text.formats, text.limit)?;
    let files = vec![in alloc; file].ok()?;
    filled(alloc, text, files)
}

// The document of two sources with these files.
fn with_two(alloc: Global, text: JobText, a: &[u8], b: &[u8]) -> Option<Result<Job, JobFault>>
    requires { IsStated text }
{
    let a = read(alloc, a, &text.formats, text.limit)?;
    let b = read(alloc, b, &text.formats, text.limit)?;
    let files = vec![in alloc; a, b].ok()?;
    filled(alloc, text, files)
}

// How many formats it has and how many records each source, or why there is none.
fn told(alloc: Global, filled: Result<Job, JobFault>) -> Result<String, AllocError> {
    match filled {
        Ok(job) => counts(alloc, &job),
        Err(fault) => format!(in alloc; "{fault}"),
    }
}

fn counts(alloc: Global, job: &Job) -> Result<String, AllocError> {
    let parts = job.parts();
    let formats = parts.formats.len();
    let mut text = format!(in alloc; "{formats} formats, records")?;
    for source in parts.sources.iter() {
        let records = source.items.as_slice().len();
        text.push_str(format!(in alloc; " {records}")?.as_str())?;
    }
    Ok(text)
}

#[test]
fn jobs_of_two_sources(rt: HostRuntime) -> Result<(), Fail> {
    let alloc = rt.alloc();
    for (name, limit, [first, second], [a, b], expected) in ROWS {
        let a = file_of(alloc, a)?;
        let b = file_of(alloc, b)?;
        let pieces = ["{\"limit\":", limit, BODY, first, NEXT, second, END];
        let text = text(alloc, &pieces).ok_or("a text")?;
        let answer = with_two(alloc, text, &a, &b).ok_or("files")?;
        let answer = told(alloc, answer)?;
        assert_eq!(rt; (name, answer.as_str()), (name, expected));
    }
    Ok(())
}

// A document of one source up to its stones, and what follows them up to what the round submits.
const ONE: &str = "{\"limit\":261888,\"formats\":[{\"name\":\"q\",\"profile\":\"be64\",\
    \"types\":[{\"name\":\"q\",\"fields\":[[\"x\",\"integer\",8]]}]}],\
    \"sources\":[{\"name\":\"a\",\"file\":\"a.ndr\",\"stone\":0}],\"stones\":[";

const SUBMIT: &str = "],\"rounds\":[{\"submit\":[";

const TERMINAL: &str = "{\"kind\":\"terminal\",\"format\":\"q\"}";

// A stone that sends each record twice to the second.
const TWICE: &str = "{\"kind\":\"split\",\"targets\":[1,1]},";

// The stones, how many of how many records are submitted, and the answer.
const ONE_SOURCE: [(&str, &str, &str, usize, &str); 6] = [
    ("two of three", "", "2", 3, "2 formats, records 3"),
    ("four of three", "", "4", 3, "source 0 submits 4 of 3"),
    ("2^31 bytes", "", "8192", 8193, "2 formats, records 8193"),
    (
        "a record more",
        "",
        "8193",
        8193,
        "carried 8193 at limit 261888",
    ),
    (
        "three routes of a source",
        TWICE,
        "2730",
        2731,
        "2 formats, records 2731",
    ),
    (
        "a record more on three routes",
        TWICE,
        "2731",
        2731,
        "carried 8193 at limit 261888",
    ),
];

#[test]
fn jobs_of_one_source(rt: HostRuntime) -> Result<(), Fail> {
    let alloc = rt.alloc();
    for (name, stones, submit, records, expected) in ONE_SOURCE {
        let bytes = file_of(alloc, [1, 0, records])?;
        let pieces = [ONE, stones, TERMINAL, SUBMIT, submit, END];
        let text = text(alloc, &pieces).ok_or("a text")?;
        let answer = with_one(alloc, text, &bytes).ok_or("a file")?;
        let answer = told(alloc, answer)?;
        assert_eq!(rt; (name, answer.as_str()), (name, expected));
    }
    Ok(())
}

// Two descriptions around an identifier of the first known format, and a record of each format.
const FILE_A: [&[u8]; 8] = [
    b"NDR1",
    FORMAT,
    b"I",
    ID,
    FORMAT,
    b"R\0\x02\0\0\0\x01\x07",
    b"R\0\x01\0\0\0\x01\x08",
    b"R\0\0\0\0\0\x01\x09E",
];

const FILE_B: [&[u8]; 3] = [b"NDR1", FORMAT, b"R\0\0\0\0\0\x01\x06E"];

// These frames, one behind another.
fn frames(alloc: Global, pieces: &[&[u8]]) -> Result<Vec<u8>, AllocError> {
    let mut bytes = Vec::new(alloc);
    for piece in pieces {
        bytes.extend_from_slice(piece)?;
    }
    Ok(bytes)
}

// The name of a source, and for each of its records the number of its format and its first byte.
fn kept(alloc: Global, source: &Source) -> Result<String, AllocError> {
    let mut text = String::new(alloc);
    for record in source.items.as_slice() {
        let byte = record.bytes().first().copied().unwrap_or(0);
        text.push_str(format!(in alloc; " {}:{byte}", record.format())?.as_str())?;
    }
    Ok(text)
}

#[test]
fn formats_and_records_of_files(rt: HostRuntime) -> Result<(), Fail> {
    let alloc = rt.alloc();
    let (a, b) = (frames(alloc, &FILE_A)?, frames(alloc, &FILE_B)?);
    let pieces = ["{\"limit\":256", BODY, "1,1", NEXT, "2,0", END];
    let text = text(alloc, &pieces).ok_or("a text")?;
    let filled = with_two(alloc, text, &a, &b).ok_or("files")?;
    let job = filled.ok().ok_or("a job")?;
    let parts = job.parts();
    assert_eq!(rt; (parts.declared, parts.formats.len()), (2, 5));
    assert_eq!(rt; parts.sources.len(), 2);
    let of_a = kept(alloc, &parts.sources[0])?;
    let of_b = kept(alloc, &parts.sources[1])?;
    assert_eq!(rt; (of_a.as_str(), of_b.as_str()), (" 3:7 0:8 2:9", " 4:6"));
    Ok(())
}
