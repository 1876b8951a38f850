use evp_file::{FileFormat, KnownFormat, read_file, write_file};
use evp_format::{id_of, read_description};
use std::alloc::{AllocError, Global};
use std::test::Fail;

// The limit of the rows.
const LIMIT: u32 = 4096;

// One format of one little endian number `x` of 4 bytes, and the record `{x=7}`: 55 bytes.
const FILE: &[u8] =
    b"NDR1F\0\0\0\x22NDF1\0\x04\0\x01\x01p\0\0\0\x04\0\x01\x01x\x07integer\0\0\0\x04\0\0\0\0R\0\0\0\0\0\x04\x07\0\0\0E";

// The same up to its record, up to its end, and its record and end alone.
const FORMAT: &[u8] =
    b"NDR1F\0\0\0\x22NDF1\0\x04\0\x01\x01p\0\0\0\x04\0\x01\x01x\x07integer\0\0\0\x04\0\0\0\0";

const RECORD: &[u8] = b"R\0\0\0\0\0\x04\x07\0\0\0";

// Up to the record: two strings, one string, and a list of numbers in front of its count.
const TEXTS: &[u8] =
    b"NDR1F\0\0\0\x32NDF1\0\x04\0\x01\x01p\0\0\0\x08\0\x02\x01s\x06string\0\0\0\x04\0\0\0\0\x01t\x06string\0\0\0\x04\0\0\0\x04";

const TEXT: &[u8] =
    b"NDR1F\0\0\0\x21NDF1\0\x04\0\x01\x01p\0\0\0\x04\0\x01\x01s\x06string\0\0\0\x04\0\0\0\0";

const LIST: &[u8] =
    b"NDR1F\0\0\0\x37NDF1\0\x04\0\x01\x01p\0\0\0\x08\0\x02\x01a\x0ainteger[n]\0\0\0\x04\0\0\0\0\x01n\x07integer\0\0\0\x04\0\0\0\x04";

// A description of one big endian number `x` of 8 bytes, and its SHA-256 by sha256sum.
const KNOWN: &[u8] = b"NDF1\x01\x08\0\x01\x01q\0\0\0\x08\0\x01\x01x\x07integer\0\0\0\x08\0\0\0\0";

const ID: &[u8] =
    b"\xa6\x42\x89\x21\x80\x71\x94\xa3\x86\x65\x83\xab\x9a\x1f\xa9\xc1\x95\x99\x8f\x16\x79\xbd\x46\x35\x06\xc4\xea\x79\x38\x17\x00\x30";

// Pieces that make a file together, and its fault.
const REFUSED: [(&str, &[&[u8]], &str); 27] = [
    ("another magic", &[b"NDR2", RECORD, b"E"], "magic at 0"),
    (
        "a block before the mark",
        &[TEXTS, b"R\0\0\0\0\0\x0c\x0a\0\0\0\x08\0\0\0a\0b\0E"],
        "broken block place t at 59",
    ),
    (
        "a record that is cut inside",
        &[FORMAT, b"R\0\0\0\0\0\x03\x07\0\0E"],
        "broken short record at 43",
    ),
    (
        "no zero byte",
        &[TEXT, b"R\0\0\0\0\0\x05\x04\0\0\0aE"],
        "broken no end s at 42",
    ),
    (
        "a list past the bytes",
        &[
            LIST,
            b"R\0\0\0\0\0\x18\x08\0\0\0\x05\0\0\0\x05\0\0\0\x05\0\0\0\x05\0\0\0\x05\0\0\0E",
        ],
        "broken block place a at 64",
    ),
    (
        "a negative count",
        &[
            LIST,
            b"R\0\0\0\0\0\x0c\x08\0\0\0\xff\xff\xff\xff\x05\0\0\0E",
        ],
        "broken negative count a at 64",
    ),
    (
        "a null list",
        &[LIST, b"R\0\0\0\0\0\x0c\0\0\0\0\x01\0\0\0\x05\0\0\0E"],
        "broken null list a at 64",
    ),
    (
        "a length past the file",
        &[b"NDR1F\xff\xff\xff\xff", RECORD, b"E"],
        "short at 4",
    ),
    (
        "a format number",
        &[FORMAT, b"R\0\x01\0\0\0\x04\x07\0\0\0E"],
        "format number at 43",
    ),
    (
        "a length above the limit",
        &[FORMAT, b"R\0\0\0\0\x10\x01\x07\0\0\0E"],
        "too large at 43",
    ),
    (
        "another letter",
        &[FORMAT, RECORD, b"X"],
        "frame kind at 54",
    ),
    (
        "a byte behind the end",
        &[FORMAT, RECORD, b"E\0"],
        "trailing at 55",
    ),
    (
        "a type text that is refused by name",
        &[
            b"NDR1F\0\0\0\x20NDF1\0\x04\0\x01\x01p\0\0\0\x04\0\x01\x01x\x05float\0\0\0\x04\0\0\0\0",
            RECORD,
            b"E",
        ],
        "layout float, type 0 field 0 at 4",
    ),
    (
        "an identifier that nobody knows",
        &[b"NDR1I", b"0123456789abcdef0123456789abcdef", b"E"],
        "unknown id at 4",
    ),
    (
        "an identifier that is cut",
        &[b"NDR1I", b"0123456789abcdef0123456789abcde"],
        "short at 4",
    ),
    ("no frame", &[b"NDR1"], "short at 4"),
    ("two ends", &[b"NDR1EE"], "trailing at 5"),
    (
        "a format of a later frame",
        &[b"NDR1", RECORD, FORMAT],
        "format number at 4",
    ),
    // Of two faults the first is answered.
    ("magic before the rest", &[b"XDR1X"], "magic at 0"),
    (
        "a format number before the length",
        &[FORMAT, b"R\0\x01\xff\xff\xff\xff"],
        "format number at 43",
    ),
    (
        "a length before the bytes",
        &[FORMAT, b"R\0\0\xff\xff\xff\xff"],
        "too large at 43",
    ),
    (
        "a cut header before the format number",
        &[FORMAT, b"R\0\x01\0\0"],
        "short at 43",
    ),
    (
        "cut bytes before what they hold",
        &[FORMAT, b"R\0\0\0\0\0\x04\x07\0"],
        "short at 43",
    ),
    (
        "a broken record before the letter behind it",
        &[FORMAT, b"R\0\0\0\0\0\x03\x07\0\0X"],
        "broken short record at 43",
    ),
    (
        "a description before the record behind it",
        &[b"NDR1F\0\0\0\x04NDF3", b"R\0\x01"],
        "layout magic at 4",
    ),
    (
        "a cut description before its faults",
        &[b"NDR1F\0\0\0\x08NDF3"],
        "short at 4",
    ),
    (
        "an end before the frames behind it",
        &[FORMAT, b"EX"],
        "trailing at 44",
    ),
];

// These pieces, one behind the other.
fn joined(alloc: Global, pieces: &[&[u8]]) -> Result<Vec<u8>, AllocError> {
    let mut bytes = Vec::new(alloc);
    for piece in pieces {
        bytes.extend_from_slice(piece)?;
    }
    Ok(bytes)
}

// What is read of the bytes, as text: the fault and its offset, or how many formats and records.
fn answer(alloc: Global, bytes: &[u8], known: &[KnownFormat]) -> Result<String, AllocError> {
    if bytes.len() >= 4_000_000 || known.len() > 8 {
        return String::from_str(alloc, "too long for a row");
    }
    match read_file(alloc, bytes, known, LIMIT) {
        Ok(file) => {
            let formats = file.formats.as_slice().len();
            let records = file.items.as_slice().len();
            format!(in alloc; "{formats} formats, {records} records")
        }
        Err(fault) => format!(in alloc; "{fault} at {}", fault.at()),
    }
}

#[test]
fn first_faults(rt: HostRuntime) -> Result<(), Fail> {
    let alloc = rt.alloc();
    for (name, pieces, expected) in REFUSED {
        let bytes = joined(alloc, pieces)?;
        let text = answer(alloc, bytes.as_slice(), &[])?;
        assert_eq!(rt; (name, text.as_str()), (name, expected));
    }
    Ok(())
}

#[test]
fn cuts_of_a_file(rt: HostRuntime) -> Result<(), Fail> {
    let alloc = rt.alloc();
    for size in 0..FILE.len() {
        let expected = match size {
            0..=3 => "magic at 0",
            4..=42 => "short at 4",
            43..=53 => "short at 43",
            _ => "short at 54",
        };
        let text = answer(alloc, &FILE[..size], &[])?;
        assert_eq!(rt; text.as_str(), expected);
    }
    let text = answer(alloc, FILE, &[])?;
    assert_eq!(rt; text.as_str(), "1 formats, 1 records");
    Ok(())
}

// What is written of the file that the bytes are.
fn written_again(alloc: Global, bytes: &[u8]) -> Option<Vec<u8>> {
    if bytes.len() > 1000 {
        return None;
    }
    let Ok(file) = read_file(alloc, bytes, &[], LIMIT) else {
        return None;
    };
    write_file(alloc, &file, &[]).ok()
}

#[test]
fn a_file_written_again(rt: HostRuntime) -> Result<(), Fail> {
    let alloc = rt.alloc();
    for bytes in [FILE, b"NDR1E"] {
        let again = written_again(alloc, bytes).ok_or("a file")?;
        assert_eq!(rt; again.as_slice(), bytes);
    }
    Ok(())
}

// A format that is known twice.
fn known_twice(alloc: Global) -> Option<Vec<KnownFormat>> {
    let mut known = Vec::new(alloc);
    for _ in 0..2 {
        let Ok(format) = read_description(alloc, KNOWN) else {
            return None;
        };
        let id = id_of(alloc, &format).ok()?;
        known.push(KnownFormat { format, id }).ok()?;
    }
    Some(known)
}

#[test]
fn identifiers(rt: HostRuntime) -> Result<(), Fail> {
    let alloc = rt.alloc();
    let known = known_twice(alloc).ok_or("memory")?;
    assert!(rt; known.len() <= 8);
    let bytes = joined(
        alloc,
        &[b"NDR1I", ID, b"R\0\0\0\0\0\x08\0\0\0\0\0\0\0\x07E"],
    )?;
    assert!(rt; bytes.len() < 1000);
    let file = read_file(alloc, bytes.as_slice(), known.as_slice(), LIMIT)
        .ok()
        .ok_or("a file")?;
    let numbers = file.formats.as_slice();
    assert!(rt; matches!(numbers, [FileFormat::Known(0)]));
    let items = file.items.as_slice();
    assert_eq!(rt; items.len(), 1);
    let first = items.first().ok_or("a record")?;
    assert_eq!(rt; first.format, 0);
    assert_eq!(rt; first.bytes.as_slice(), b"\0\0\0\0\0\0\0\x07".as_slice());
    Ok(())
}

#[test]
fn as_many_as_there_may_be(rt: HostRuntime) -> Result<(), Fail> {
    let alloc = rt.alloc();
    let known = known_twice(alloc).ok_or("memory")?;
    let mut bytes = joined(alloc, &[b"NDR1"])?;
    for _ in 0..1024 {
        bytes.extend_from_slice(b"I")?;
        bytes.extend_from_slice(ID)?;
    }
    for _ in 0..131_072 {
        bytes.extend_from_slice(b"R\x03\xff\0\0\0\x08\0\0\0\0\0\0\0\x07")?;
    }
    let end = bytes.len();
    bytes.push(b'E')?;
    let text = answer(alloc, bytes.as_slice(), known.as_slice())?;
    assert_eq!(rt; text.as_str(), "1024 formats, 131072 records");
    let rows: [(&[u8], &str); 2] = [
        (b"R\0\0\0\0\0\x08\0\0\0\0\0\0\0\x07", "records"),
        (b"I0123456789abcdef0123456789abcdef", "formats"),
    ];
    for (frame, expected) in rows {
        bytes.truncate(end);
        bytes.extend_from_slice(frame)?;
        let text = answer(alloc, bytes.as_slice(), known.as_slice())?;
        let wanted = format!(in alloc; "{expected} at {end}")?;
        assert_eq!(rt; text.as_str(), wanted.as_str());
    }
    Ok(())
}
