//! Numbers of every kind and size as every other, in both orders, at the edges of their ranges.

use super::answers::answer;
use super::bytes::{digits_of, number_bytes};
use crate::format_of;
use std::alloc::Global;
use std::test::*;

// A kind and size of number: the type's text, the size, and the least and the greatest number.
type Range = (&'static str, u32, i128, i128);

const RANGES: [Range; 17] = [
    ("integer", 1, -0x80, 0x7f),
    ("integer", 2, -0x8000, 0x7fff),
    ("integer", 4, -0x8000_0000, 0x7fff_ffff),
    ("integer", 8, -0x8000_0000_0000_0000, 0x7fff_ffff_ffff_ffff),
    ("unsigned integer", 1, 0, 0xff),
    ("unsigned integer", 2, 0, 0xffff),
    ("unsigned integer", 4, 0, 0xffff_ffff),
    ("unsigned integer", 8, 0, 0xffff_ffff_ffff_ffff),
    ("char", 1, 0, 0xff),
    ("boolean", 1, 0, 1),
    ("boolean", 2, 0, 1),
    ("boolean", 4, 0, 1),
    ("boolean", 8, 0, 1),
    ("enumeration", 1, -0x80, 0x7f),
    ("enumeration", 2, -0x8000, 0x7fff),
    ("enumeration", 4, -0x8000_0000, 0x7fff_ffff),
    (
        "enumeration",
        8,
        -0x8000_0000_0000_0000,
        0x7fff_ffff_ffff_ffff,
    ),
];

// Elements of an array: more than two lanes of any size, and a tail.
const ELEMENTS: usize = 37;

// Two machines: whether each stores the greatest byte first.
type Orders = (bool, bool);

const ORDERS: [Orders; 4] = [(false, false), (false, true), (true, false), (true, true)];

// The numbers at the edges of both ranges that the sender's range has.
fn edges(alloc: Global, sender: Range, receiver: Range) -> Result<Vec<i128>, Fail> {
    let (_, _, least, greatest) = sender;
    let (_, _, low, high) = receiver;
    let mut numbers = Vec::new(alloc);
    for number in [
        least,
        greatest,
        low.saturating_sub(1),
        low,
        high,
        high.saturating_add(1),
        -1,
        0,
        1,
    ] {
        if least <= number && number <= greatest {
            numbers.push(number)?;
        }
    }
    Ok(numbers)
}

// The text of a format with one field.
fn one_field(alloc: Global, big: bool, range: Range, array: &str) -> Result<String, Fail> {
    let word = if big { "be64" } else { "le64" };
    let (text, size, _, _) = range;
    Ok(format!(in alloc; "{word} p{{x {text}{array} {size}}}")?)
}

// A number converted alone: its bytes at the receiver, or `unfit x`.
fn numbers_agree(
    alloc: Global,
    sender: Range,
    receiver: Range,
    orders: Orders,
) -> Result<(), Fail> {
    let from = format_of(alloc, one_field(alloc, orders.0, sender, "")?.as_str())?;
    let to = format_of(alloc, one_field(alloc, orders.1, receiver, "")?.as_str())?;
    for number in edges(alloc, sender, receiver)? {
        let record = number_bytes(alloc, orders.0, sender.1, number)?;
        let wanted = if receiver.2 <= number && number <= receiver.3 {
            let bytes = number_bytes(alloc, orders.1, receiver.1, number)?;
            digits_of(alloc, &bytes)?
        } else {
            String::from_str(alloc, "unfit x")?
        };
        let (found, _) = answer(alloc, &from, &to, &record, 4096)?;
        if found.as_str() != wanted.as_str() {
            return Err(Fail::new(format_args!("{number}: {found} for {wanted}")));
        }
    }
    Ok(())
}

// An array of numbers that fit, again and again.
fn arrays_agree(alloc: Global, sender: Range, receiver: Range, orders: Orders) -> Result<(), Fail> {
    let from = format_of(alloc, one_field(alloc, orders.0, sender, "[37]")?.as_str())?;
    let to = format_of(
        alloc,
        one_field(alloc, orders.1, receiver, "[37]")?.as_str(),
    )?;
    let mut fitting = edges(alloc, sender, receiver)?;
    fitting.retain(|number| receiver.2 <= *number && *number <= receiver.3);
    let mut record = Vec::new(alloc);
    let mut wanted = Vec::new(alloc);
    for number in fitting.iter().cycle().take(ELEMENTS) {
        record.extend_from_slice(&number_bytes(alloc, orders.0, sender.1, *number)?)?;
        wanted.extend_from_slice(&number_bytes(alloc, orders.1, receiver.1, *number)?)?;
    }
    let (found, _) = answer(alloc, &from, &to, &record, 4096)?;
    if found.as_str() != digits_of(alloc, &wanted)?.as_str() {
        return Err(Fail::new(format_args!("{} as {}: {found}", sender.0, receiver.0)));
    }
    Ok(())
}

#[test]
fn every_kind_and_size_as_every_other(rt: HostRuntime) -> Result<(), Fail> {
    for sender in RANGES {
        for receiver in RANGES {
            for orders in ORDERS {
                numbers_agree(rt.alloc(), sender, receiver, orders)?;
                arrays_agree(rt.alloc(), sender, receiver, orders)?;
            }
        }
    }
    Ok(())
}
