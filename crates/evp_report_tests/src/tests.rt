mod reports;

ghost use Rattle.std.specs.Prelude.{◌<◌, ◌^◌, length};

use evp_depot::{MemorySink, PutFault};
use evp_format::read_description;
use evp_record::check;
use evp_report::{Pieces, put_value};
use std::alloc::Global;
use std::rt::HostRuntime;
use std::test::Fail;

// A list `a` of numbers in front of its count `n`.
const LIST: &[u8] = b"NDF1\0\x04\0\x01\x01p\0\0\0\x08\0\x02\x01a\ninteger[n]\0\0\0\x04\0\0\0\0\
      \x01n\x07integer\0\0\0\x04\0\0\0\x04";

// One string with a pointer of 8 bytes.
const TEXT: &[u8] = b"NDF1\0\x08\0\x01\x01p\0\0\0\x08\0\x01\x01s\x06string\0\0\0\x08\0\0\0\0";

// Two records `e` of a number and a string.
const PAIRS: &[u8] = b"NDF1\0\x08\0\x02\x01e\0\0\0\x10\0\x02\x01k\x07integer\0\0\0\x08\0\0\0\0\
      \x01s\x06string\0\0\0\x08\0\0\0\x08\x01r\0\0\0\x20\0\x01\x01p\x04e[2]\0\0\0\x10\0\0\0\0";

// What a record shows, a description, the record, and its text.
const TEXTS: [(&str, &[u8], &[u8], &str); 7] = [
    (
        "numbers behind their count",
        LIST,
        b"\x08\0\0\0\x02\0\0\0\x05\0\0\0\xfa\xff\xff\xff",
        "{a=[5,-6],n=2}",
    ),
    ("an empty list", LIST, b"\0\0\0\0\0\0\0\0", "{a=[],n=0}"),
    ("null", TEXT, b"\0\0\0\0\0\0\0\0", "{s=null}"),
    ("an empty text", TEXT, b"\x08\0\0\0\0\0\0\0\0", "{s=\"\"}"),
    ("a text", TEXT, b"\x08\0\0\0\0\0\0\0ab\0", "{s=\"ab\"}"),
    (
        "bytes that are shown by their number",
        TEXT,
        b"\x08\0\0\0\0\0\0\0\"\\\n\xff~\0",
        "{s=\"\\\"\\\\\\x0a\\xff~\"}",
    ),
    (
        "records in a list",
        PAIRS,
        b"\x05\0\0\0\0\0\0\0\0\0\0\0\0\0\0\0\x2c\x01\0\0\0\0\0\0\x20\0\0\0\0\0\0\0a\0",
        "{p=[{k=5,s=null},{k=300,s=\"a\"}]}",
    ),
];

// Hands on the text of a record, and writes what waits.
fn put_whole(
    alloc: Global,
    sink: &mut MemorySink,
    description: &[u8],
    bytes: &[u8],
) -> Result<Result<(), PutFault>, Fail>
    requires { length bytes.now < 2 ^ 32 }
{
    let format = read_description(alloc, description)
        .ok()
        .ok_or("description")?;
    let item = check(&format, bytes).ok().ok_or("a record")?;
    let mut pieces = Pieces::new();
    if let Err(fault) = put_value(&mut pieces, sink, &item) {
        return Ok(Err(fault));
    }
    Ok(pieces.flush(sink))
}

#[test]
fn records_have_their_values_texts(rt: HostRuntime) -> Result<(), Fail> {
    let alloc = rt.alloc();
    for (name, description, bytes, text) in TEXTS {
        assert!(rt; bytes.len() < 1000);
        let mut sink = MemorySink::new(alloc, 256, 256, Vec::new(alloc))?;
        let put = put_whole(alloc, &mut sink, description, bytes)?;
        assert_eq!(rt; put, Ok(()), "{name}");
        assert_eq!(rt; sink.put(), text.as_bytes(), "{name}");
    }
    Ok(())
}

// A record of one text of 10,000 letters.
fn letters(alloc: Global) -> Result<Vec<u8>, Fail> {
    let mut bytes = Vec::from_slice(alloc, b"\x08\0\0\0\0\0\0\0")?;
    bytes.resize(10_008, b'a')?;
    bytes.push(0)?;
    Ok(bytes)
}

#[test]
fn a_long_text_goes_out_in_large_pieces(rt: HostRuntime) -> Result<(), Fail> {
    let alloc = rt.alloc();
    let bytes = letters(alloc)?;
    assert!(rt; bytes.len() < 20_000);
    let mut sink = MemorySink::new(alloc, 20_000, 20_000, Vec::new(alloc))?;
    let put = put_whole(alloc, &mut sink, TEXT, bytes.as_slice())?;
    assert_eq!(rt; put, Ok(()));
    assert_eq!(rt; sink.put().len(), 10_006);
    assert_eq!(rt; sink.calls(), 3);
    Ok(())
}

#[test]
fn a_failing_sink_has_a_front(rt: HostRuntime) -> Result<(), Fail> {
    let alloc = rt.alloc();
    let bytes = letters(alloc)?;
    assert!(rt; bytes.len() < 20_000);
    let mut sink = MemorySink::new(alloc, 5_000, 20_000, Vec::new(alloc))?;
    let put = put_whole(alloc, &mut sink, TEXT, bytes.as_slice())?;
    assert_eq!(rt; put, Err(PutFault::Failed));
    assert_eq!(rt; sink.put().len(), 5_000);
    assert!(rt; sink.put().starts_with(b"{s=\"aaa"));
    Ok(())
}
