mod glances;
mod readers;

ghost use Rattle.std.specs.Prelude.{◌≡◌, ◌<◌, length};
ghost use Rattle.evp_record.specs.Samples.{list_description, list_bytes};

use evp_format::{BrokenText, Items, Members, Value, read_description};
use evp_record::{Draft, IN_PLACE, KeptBytes, Owned, check, pack, view};
use std::alloc::{AllocError, Global};
use std::test::Fail;

// One number, `x`.
const NUMBER: &[u8] = b"NDF1\0\x04\0\x01\x01p\0\0\0\x04\0\x01\x01x\x07integer\0\0\0\x04\0\0\0\0";

// One string, `s`.
const TEXT: &[u8] = b"NDF1\0\x04\0\x01\x01p\0\0\0\x04\0\x01\x01s\x06string\0\0\0\x04\0\0\0\0";

// One string with a pointer of 8 bytes.
const WIDE_TEXT: &[u8] = b"NDF1\0\x08\0\x01\x01p\0\0\0\x08\0\x01\x01s\x06string\0\0\0\x08\0\0\0\0";

// Two strings, `s` and `t`.
const TEXTS: &[u8] = b"NDF1\0\x04\0\x01\x01p\0\0\0\x08\0\x02\x01s\x06string\0\0\0\x04\0\0\0\0\
      \x01t\x06string\0\0\0\x04\0\0\0\x04";

// A list `a` of numbers in front of its count `n`.
const LIST: &[u8] = b"NDF1\0\x04\0\x01\x01p\0\0\0\x08\0\x02\x01a\ninteger[n]\0\0\0\x04\0\0\0\0\
      \x01n\x07integer\0\0\0\x04\0\0\0\x04";

// The same with 8 bytes each, big endian.
const WIDE_LIST: &[u8] =
    b"NDF1\x01\x08\0\x01\x01p\0\0\0\x10\0\x02\x01a\ninteger[n]\0\0\0\x08\0\0\0\0\
      \x01n\x10unsigned integer\0\0\0\x08\0\0\0\x08";

// A list of numbers of two bytes.
const SHORT_LIST: &[u8] =
    b"NDF1\0\x04\0\x01\x01p\0\0\0\x08\0\x02\x01a\ninteger[n]\0\0\0\x02\0\0\0\0\
      \x01n\x07integer\0\0\0\x04\0\0\0\x04";

// A boolean of 4 bytes.
const TRUTH: &[u8] = b"NDF1\0\x04\0\x01\x01p\0\0\0\x04\0\x01\x01b\x07boolean\0\0\0\x04\0\0\0\0";

// Two records `e` of a number and a string.
const PAIRS: &[u8] = b"NDF1\0\x04\0\x02\x01e\0\0\0\x08\0\x02\x01k\x07integer\0\0\0\x01\0\0\0\0\
      \x01s\x06string\0\0\0\x04\0\0\0\x04\x01r\0\0\0\x10\0\x01\x01p\x04e[2]\0\0\0\x08\0\0\0\0";

// A list `v` of strings behind its count.
const WORDS: &[u8] =
    b"NDF1\0\x04\0\x01\x01p\0\0\0\x08\0\x02\x01n\x10unsigned integer\0\0\0\x04\0\0\0\0\
      \x01v\x09string[n]\0\0\0\x04\0\0\0\x04";

// A record `e` and a list of `e`.
const NESTED: &[u8] = b"NDF1\0\x04\0\x02\x01e\0\0\0\x08\0\x02\x01k\x07integer\0\0\0\x04\0\0\0\0\
      \x01s\x06string\0\0\0\x04\0\0\0\x04\x01r\0\0\0\x10\0\x03\x01o\x01e\0\0\0\x08\0\0\0\0\
      \x01l\x04e[n]\0\0\0\x08\0\0\0\x08\x01n\x07integer\0\0\0\x04\0\0\0\x0c";

const CHECKS: [(&[u8], &[u8], &str); 16] = [
    (TEXTS, b"\n\0\0\0\x08\0\0\0a\0b\0", "block place t"),
    (NUMBER, b"\x07\0\0", "short record"),
    (TEXT, b"\x04\0\0\0a", "no end s"),
    (
        LIST,
        b"\x08\0\0\0\x05\0\0\0\x05\0\0\0\x05\0\0\0\x05\0\0\0\x05\0\0\0",
        "block place a",
    ),
    (
        LIST,
        b"\x08\0\0\0\xff\xff\xff\xff\x05\0\0\0",
        "negative count a",
    ),
    (LIST, b"\0\0\0\0\x01\0\0\0\x05\0\0\0", "null list a"),
    (TEXTS, b"\x08\0\0\0\x08\0\0\0a\0b\0", "block place t"),
    (TEXTS, b"\x07\0\0\0\0\0\0\0a\0b", "block place s"),
    (TEXTS, b"\x0b\0\0\0\0\0\0\0a\0b", "block place s"),
    (
        WIDE_LIST,
        b"\0\0\0\0\0\0\0\x10\x7f\xff\xff\xff\xff\xff\xff\xff\0\0\0\0\0\0\0\x05",
        "block place a",
    ),
    (
        WIDE_LIST,
        b"\0\0\0\0\0\0\0\x10\xff\xff\xff\xff\xff\xff\xff\xff\0\0\0\0\0\0\0\x05",
        "block place a",
    ),
    (
        WIDE_LIST,
        b"\xff\xff\xff\xff\xff\xff\xff\xff\0\0\0\0\0\0\0\x01\0\0\0\0\0\0\0\x05",
        "block place a",
    ),
    (
        WIDE_LIST,
        b"\0\0\0\0\0\0\0\x11\0\0\0\0\0\0\0\x01\0\0\0\0\0\0\0\x05",
        "block place a",
    ),
    (
        PAIRS,
        b"\x01\0\0\0\0\0\0\0\x02\0\0\0\x10\0\0\0a",
        "no end p[1].s",
    ),
    (
        WORDS,
        b"\x02\0\0\0\x08\0\0\0\x10\0\0\0\x11\0\0\0\0",
        "block place v[1]",
    ),
    (
        NESTED,
        b"\x01\0\0\0\0\0\0\0\x10\0\0\0\x01\0\0\0\x02\0\0\0\x17\0\0\0",
        "block place l[0].s",
    ),
];

const VIEWS: [(&[u8], &[u8], &str); 15] = [
    (WIDE_TEXT, b"\0\0\0\0\0\0\0\0", "{s=null}"),
    (WIDE_TEXT, b"\x08\0\0\0\0\0\0\0\0", "{s=\x22\x22}"),
    (WIDE_TEXT, b"\x08\0\0\0\0\0\0\0ab\0", "{s=\x22ab\x22}"),
    (
        LIST,
        b"\x08\0\0\0\x02\0\0\0\x05\0\0\0\x06\0\0\0",
        "{a=[5,6],n=2}",
    ),
    (
        TEXTS,
        b"\x09\0\0\0\x0c\0\0\0\xffa\0\xffb\0\xff",
        "{s=\x22a\x22,t=\x22b\x22}",
    ),
    (TEXTS, b"\0\0\0\0\x08\0\0\0a\0", "{s=null,t=\x22a\x22}"),
    (LIST, b"\xff\xff\xff\xff\0\0\0\0", "{a=[],n=0}"),
    (
        LIST,
        b"\x08\0\0\0\x01\0\0\0\x05\0\0\0\xff\xff",
        "{a=[5],n=1}",
    ),
    (
        SHORT_LIST,
        b"\x09\0\0\0\x02\0\0\0\xff\x05\0\xff\xff",
        "{a=[5,-1],n=2}",
    ),
    (
        WIDE_LIST,
        b"\0\0\0\0\0\0\0\x10\0\0\0\0\0\0\0\x01\x80\0\0\0\0\0\0\0",
        "{a=[-9223372036854775808],n=1}",
    ),
    (TRUTH, b"\0\0\x02\0", "{b=1}"),
    (TRUTH, b"\0\0\0\0", "{b=0}"),
    (
        PAIRS,
        b"\xff\0\0\0\x10\0\0\0\x02\0\0\0\0\0\0\0a\0",
        "{p=[{k=-1,s=\x22a\x22},{k=2,s=null}]}",
    ),
    (
        WORDS,
        b"\x02\0\0\0\x08\0\0\0\x10\0\0\0\x11\0\0\0\0\0",
        "{n=2,v=[\x22\x22,\x22\x22]}",
    ),
    (
        NESTED,
        b"\x01\0\0\0\x10\0\0\0\x12\0\0\0\x01\0\0\0o\0\x02\0\0\0\x1a\0\0\0l\0",
        "{o={k=1,s=\x22o\x22},l=[{k=2,s=\x22l\x22}],n=1}",
    ),
];

#[cycle(write)]
fn write_value(alloc: Global, out: &mut String, value: &Value) -> Result<(), AllocError> {
    match value {
        Value::Num(n) => out.push_str(format!(in alloc; "{n}")?.as_str()),
        Value::Null => out.push_str("null"),
        Value::Text(text) => {
            out.push('"')?;
            for byte in text.as_slice() {
                out.push(char::from(*byte))?;
            }
            out.push('"')
        }
        Value::List(items) => write_items(alloc, out, items),
        Value::Rec(members) => write_members(alloc, out, members),
    }
}

#[cycle(write)]
fn write_items(alloc: Global, out: &mut String, items: &Items) -> Result<(), AllocError> {
    out.push('[')?;
    let mut first = true;
    for value in &items.values {
        if !first {
            out.push(',')?;
        }
        first = false;
        write_value(alloc, out, value)?;
    }
    out.push(']')
}

#[cycle(write)]
fn write_members(alloc: Global, out: &mut String, members: &Members) -> Result<(), AllocError> {
    out.push('{')?;
    let mut first = true;
    for (name, value) in &members.pairs {
        if !first {
            out.push(',')?;
        }
        first = false;
        out.push_str(name.as_str())?;
        out.push('=')?;
        write_value(alloc, out, value)?;
    }
    out.push('}')
}

// The first fault of the bytes, with its path.
fn fault_shown(alloc: Global, description: &[u8], bytes: &[u8]) -> Option<String>
    requires { length bytes.now < 1000 }
{
    let format = read_description(alloc, description).ok()?;
    let fault = check(&format, bytes).err()?;
    let path = fault.path(alloc, &format).ok()?;
    let shown = BrokenText {
        fault: &fault,
        path: &path,
    };
    format!(in alloc; "{shown}").ok()
}

// The value that the bytes have.
fn value_shown(alloc: Global, description: &[u8], bytes: &[u8]) -> Option<String>
    requires { length bytes.now < 1000 }
{
    let format = read_description(alloc, description).ok()?;
    let item = check(&format, bytes).ok()?;
    let value = view(alloc, item).ok()?;
    let mut text = String::new(alloc);
    write_value(alloc, &mut text, &value).ok()?;
    Some(text)
}

#[test]
fn first_faults_with_their_paths(rt: HostRuntime) -> Result<(), Fail> {
    let alloc = rt.alloc();
    for (description, bytes, expected) in CHECKS {
        assert!(rt; bytes.len() < 1000);
        let text = fault_shown(alloc, description, bytes).ok_or("a fault")?;
        assert_eq!(rt; text.as_str(), expected);
    }
    Ok(())
}

#[test]
fn values_of_records(rt: HostRuntime) -> Result<(), Fail> {
    let alloc = rt.alloc();
    for (description, bytes, expected) in VIEWS {
        assert!(rt; bytes.len() < 1000);
        let text = value_shown(alloc, description, bytes).ok_or("a value")?;
        assert_eq!(rt; text.as_str(), expected);
    }
    Ok(())
}

// A record's value, packed.
fn packed_again(alloc: Global, description: &[u8], bytes: &[u8]) -> Option<Vec<u8>>
    requires description { description.now ≡ list_description }
    requires bytes { bytes.now ≡ list_bytes }
{
    let Ok(format) = read_description(alloc, description) else {
        return None;
    };
    let Ok(item) = check(&format, bytes) else {
        return None;
    };
    let Ok(value) = view(alloc, item) else {
        return None;
    };
    pack(alloc, &format, &value).ok()
}

#[test]
fn packed_records(rt: HostRuntime) -> Result<(), Fail> {
    let bytes = b"\x08\0\0\0\x02\0\0\0\x05\0\0\0\x06\0\0\0";
    let packed = packed_again(rt.alloc(), LIST, bytes).ok_or("memory")?;
    assert_eq!(rt; packed.as_slice(), bytes.as_slice());
    Ok(())
}

#[test]
fn owned_records(rt: HostRuntime) -> Result<(), Fail> {
    let alloc = rt.alloc();
    let format = read_description(alloc, TEXT).ok().ok_or("description")?;
    let bytes = Vec::from_slice(alloc, b"\x04\0\0\0ab\0")?;
    assert!(rt; bytes.len() < 1000);
    assert!(rt; check(&format, bytes.as_slice()).is_ok());
    let owned = Owned::new(0, bytes);
    let formats = [format];
    let item = owned.checked(&formats);
    assert_eq!(rt; item.bytes(), b"\x04\0\0\0ab\0".as_slice());
    assert_eq!(rt; item.copy().bytes(), owned.bytes());
    assert!(rt; item.format().types().len() == 1);
    assert_eq!(rt; owned.format(), 0);
    assert_eq!(rt; owned.bytes(), b"\x04\0\0\0ab\0".as_slice());
    Ok(())
}

// Bytes of which none is another.
const LETTERS: &[u8; IN_PLACE] =
    b"0123456789ABCDEFGHIJKLMNOPQRSTUVWXYZabcdefghijklmnopqrstuvwxyz+/-_.,:;=!";

// Whether a copy of the first so many letters, to be shared, is as long, and all of them the same.
fn copies(alloc: Global, size: u8) -> bool {
    if usize::from(size) > IN_PLACE {
        return false;
    }
    let first = &LETTERS[..usize::from(size)];
    match KeptBytes::copied(alloc, first) {
        Ok(kept) => kept.as_slice() == first,
        Err(_) => false,
    }
}

// Whether a record of the first so many letters, in room, has these once it is shared.
fn shares(alloc: Global, size: u8) -> bool {
    if usize::from(size) > IN_PLACE {
        return false;
    }
    match Draft::new(3, size, LETTERS).owned(alloc) {
        Ok(owned) => owned.format() == 3 && owned.bytes() == &LETTERS[..usize::from(size)],
        Err(_) => false,
    }
}

#[test]
fn bytes_in_a_block_and_apart(rt: HostRuntime) -> Result<(), Fail> {
    let alloc = rt.alloc();
    for size in [0, 1, 37, 38, 39, 71, 72] {
        assert!(rt; copies(alloc, size));
        assert!(rt; shares(alloc, size));
    }
    Ok(())
}
