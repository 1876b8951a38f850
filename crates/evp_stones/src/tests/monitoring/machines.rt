//! The files of three machines with 500 readings each.

use evp_base::Order;
use std::alloc::{AllocError, Global};

/// How many readings each file has.
pub const READINGS: u64 = 500;

// A machine: what its file begins with, up to its first record; its order of bytes; and the bytes of
// its pointers, which are as many as each of the four parts of a reading's head takes.
struct Machine {
    head: &'static [u8],
    order: Order,
    pointer: usize,
}

// `le32`, `be32` and `le64`.
const MACHINES: [Machine; 3] = [
    Machine {
        head: b"NDR1F\0\0\0\x67NDF1\0\x04\0\x01\x01t\0\0\0\x10\0\x04\
            \x02id\x10unsigned integer\0\0\0\x04\0\0\0\0\
            \x04name\x06string\0\0\0\x04\0\0\0\x04\
            \x01n\x07integer\0\0\0\x04\0\0\0\x08\
            \x01v\x0ainteger[n]\0\0\0\x02\0\0\0\x0c",
        order: Order::Little,
        pointer: 4,
    },
    Machine {
        head: b"NDR1F\0\0\0\x67NDF1\x01\x04\0\x01\x01t\0\0\0\x10\0\x04\
            \x02id\x10unsigned integer\0\0\0\x04\0\0\0\0\
            \x04name\x06string\0\0\0\x04\0\0\0\x04\
            \x01n\x07integer\0\0\0\x04\0\0\0\x08\
            \x01v\x0ainteger[n]\0\0\0\x02\0\0\0\x0c",
        order: Order::Big,
        pointer: 4,
    },
    Machine {
        head: b"NDR1F\0\0\0\x67NDF1\0\x08\0\x01\x01t\0\0\0\x20\0\x04\
            \x02id\x10unsigned integer\0\0\0\x04\0\0\0\0\
            \x04name\x06string\0\0\0\x08\0\0\0\x08\
            \x01n\x07integer\0\0\0\x04\0\0\0\x10\
            \x01v\x0ainteger[n]\0\0\0\x02\0\0\0\x18",
        order: Order::Little,
        pointer: 8,
    },
];

// The blocks of the names `ok` and `bad`, which readings have by turns, up to the next block.
const NAMES: [&[u8]; 2] = [b"ok\0\0\0\0\0\0", b"bad\0\0\0\0\0"];

// A number of so many bytes.
fn push_number(
    bytes: &mut Vec<u8>,
    order: &Order,
    size: usize,
    number: u64,
) -> Result<(), AllocError> {
    let size = size.min(8);
    match order {
        Order::Little => bytes.extend_from_slice(&number.to_le_bytes()[..size]),
        Order::Big => bytes.extend_from_slice(&number.to_be_bytes()[8 - size..]),
    }
}

// A reading of a machine: its number, where its name stands, how many numbers it has, and where they
// stand; its name; and its numbers, which are 1 and 2.
fn reading(alloc: Global, machine: &Machine, id: u64) -> Result<Vec<u8>, AllocError> {
    let Machine { order, pointer, .. } = machine;
    let count = id % 3;
    let name = if *pointer == 4 { 16 } else { 32 };
    let numbers = if count == 0 { 0 } else { name + 8 };
    let mut bytes = Vec::new(alloc);
    push_number(&mut bytes, order, *pointer, id)?;
    push_number(&mut bytes, order, *pointer, name)?;
    push_number(&mut bytes, order, *pointer, count)?;
    push_number(&mut bytes, order, *pointer, numbers)?;
    bytes.extend_from_slice(NAMES[(id % 2) as usize])?;
    for number in 0..count {
        push_number(&mut bytes, order, 2, number + 1)?;
    }
    Ok(bytes)
}

// A machine's file.
fn file(alloc: Global, machine: &Machine) -> Result<Vec<u8>, AllocError> {
    let mut bytes = Vec::from_slice(alloc, machine.head)?;
    for id in 0..READINGS {
        let reading = reading(alloc, machine, id)?;
        bytes.extend_from_slice(b"R\0\0")?;
        push_number(&mut bytes, &Order::Big, 4, reading.len() as u64)?;
        bytes.extend_from_slice(&reading)?;
    }
    bytes.push(b'E')?;
    Ok(bytes)
}

/// The files of the three machines, in the order of their sources.
pub fn files(alloc: Global) -> Result<Vec<Vec<u8>>, AllocError> {
    let mut files = Vec::new(alloc);
    for machine in &MACHINES {
        files.push(file(alloc, machine)?)?;
    }
    Ok(files)
}
