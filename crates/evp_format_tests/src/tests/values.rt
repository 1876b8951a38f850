//! When two values are the same.

use evp_base::Name;
use evp_format::{Items, Members, TextBytes, Value};
use std::alloc::{AllocError, Global};
use std::test::Fail;

// A text of bytes other than zero.
fn text(alloc: Global, bytes: &[u8]) -> Result<Value, AllocError> {
    let text = TextBytes::read(Vec::from_slice(alloc, bytes)?);
    Ok(match text {
        Some(text) => Value::Text(text),
        None => Value::Null,
    })
}

// A list of numbers.
fn list(alloc: Global, numbers: &[i128]) -> Result<Value, AllocError> {
    let mut values = Vec::new(alloc);
    for number in numbers {
        values.push(Value::Num(*number))?;
    }
    Ok(Value::List(Items { values }))
}

// A record of one field, a list of numbers.
fn record(alloc: Global, name: &[u8], numbers: &[i128]) -> Result<Value, Fail> {
    let mut pairs = Vec::new(alloc);
    pairs.push((Name::read(name).ok_or("name")?, list(alloc, numbers)?))?;
    Ok(Value::Rec(Members { pairs }))
}

#[test]
fn the_same_values(rt: HostRuntime) -> Result<(), Fail> {
    let alloc = rt.alloc();
    let rows = [
        ("numbers", Value::Num(-1), Value::Num(-1)),
        ("null", Value::Null, Value::Null),
        ("texts", text(alloc, b"ab")?, text(alloc, b"ab")?),
        ("lists", list(alloc, &[1, 2])?, list(alloc, &[1, 2])?),
        (
            "records",
            record(alloc, b"x", &[1])?,
            record(alloc, b"x", &[1])?,
        ),
    ];
    for (shows, value, other) in &rows {
        assert!(rt; value == other, "{shows}");
    }
    Ok(())
}

#[test]
fn other_values(rt: HostRuntime) -> Result<(), Fail> {
    let alloc = rt.alloc();
    let rows = [
        ("a number", Value::Num(1), Value::Num(2)),
        ("null and an empty text", Value::Null, text(alloc, b"")?),
        ("a text's end", text(alloc, b"ab")?, text(alloc, b"abc")?),
        ("null and an empty list", Value::Null, list(alloc, &[])?),
        (
            "the order of a list",
            list(alloc, &[1, 2])?,
            list(alloc, &[2, 1])?,
        ),
        (
            "the length of a list",
            list(alloc, &[1, 2])?,
            list(alloc, &[1])?,
        ),
        (
            "a field's name",
            record(alloc, b"x", &[1])?,
            record(alloc, b"y", &[1])?,
        ),
        (
            "a field's value",
            record(alloc, b"x", &[1])?,
            record(alloc, b"x", &[2])?,
        ),
        (
            "a list and a record",
            list(alloc, &[1])?,
            record(alloc, b"x", &[1])?,
        ),
    ];
    for (shows, value, other) in &rows {
        assert!(rt; value != other && other != value, "{shows}");
    }
    Ok(())
}
