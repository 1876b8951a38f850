//! Records of single numbers, texts and counted arrays of numbers: texts and arrays about as long as
//! what is looked at together, on machines of each kind.

use super::answers::answer;
use super::bytes::{digits_of, number_bytes};
use crate::format_of;
use std::alloc::Global;
use std::test::*;

// A profile's word, whether its numbers have the highest byte first, and bytes of a pointer.
#[derive(Clone, Copy)]
struct Machine {
    word: &'static str,
    big: bool,
    pointer: u32,
}

const LE64: Machine = Machine {
    word: "le64",
    big: false,
    pointer: 8,
};

const BE64: Machine = Machine {
    word: "be64",
    big: true,
    pointer: 8,
};

const LE32: Machine = Machine {
    word: "le32",
    big: false,
    pointer: 4,
};

// The sender's machine and the receiver's.
const MACHINES: [(Machine, Machine); 6] = [
    (LE64, BE64),
    (BE64, LE64),
    (LE64, LE64),
    (BE64, BE64),
    (LE32, BE64),
    (BE64, LE32),
];

// What counts the numbers, and the sender's size of number and the receiver's.
const FORMS: [(&str, u32, u32); 5] = [
    ("integer", 2, 8),
    ("unsigned integer", 4, 8),
    ("integer", 2, 4),
    ("unsigned integer", 2, 4),
    ("integer", 4, 4),
];

// What a record holds: so many numbers, and a text of so many letters or none, before them or behind.
#[derive(Clone, Copy)]
struct Holding {
    count: u32,
    letters: Option<u32>,
    text_first: bool,
}

// The format's text.
fn declared(
    alloc: Global,
    machine: Machine,
    counts: &str,
    size: u32,
    holding: Holding,
) -> Result<String, Fail> {
    let word = machine.word;
    let numbers = format!(in alloc; "v integer[n] {size}")?;
    if holding.text_first {
        return Ok(format!(in alloc; "{word} p{{n {counts} 4, k integer 4, s string, {numbers}}}")?);
    }
    Ok(format!(in alloc; "{word} p{{n {counts} 4, k integer 4, {numbers}, s string}}")?)
}

// Where the next block begins, behind a fixed part of so many bytes.
fn next_block(blocks: &mut Vec<u8>, fixed: u32) -> Result<i128, Fail> {
    for _ in 0..7 {
        if blocks.len() % 8 != 0 {
            blocks.push(0)?;
        }
    }
    Ok(blocks.len() as i128 + i128::from(fixed))
}

// The numbers: -150, -53 and so on.
fn put_numbers(
    alloc: Global,
    machine: Machine,
    size: u32,
    count: u32,
    blocks: &mut Vec<u8>,
) -> Result<(), Fail> {
    for k in 0..count {
        let number = i128::from(k) * 97 - 150;
        blocks.extend_from_slice(&number_bytes(alloc, machine.big, size, number)?)?;
    }
    Ok(())
}

// The letters and a zero.
fn put_letters(letters: u32, blocks: &mut Vec<u8>) -> Result<(), Fail> {
    for k in 0..letters {
        blocks.push(b'a' + (k % 26) as u8)?;
    }
    blocks.push(0)?;
    Ok(())
}

// The pointer to the numbers, which are put behind the other blocks.
fn numbers_pointer(
    alloc: Global,
    machine: Machine,
    size: u32,
    count: u32,
    blocks: &mut Vec<u8>,
) -> Result<Vec<u8>, Fail> {
    if count == 0 {
        return Ok(number_bytes(alloc, machine.big, machine.pointer, 0)?);
    }
    let at = next_block(blocks, fixed_of(machine))?;
    put_numbers(alloc, machine, size, count, blocks)?;
    Ok(number_bytes(alloc, machine.big, machine.pointer, at)?)
}

// The pointer to the text, which is put behind the other blocks.
fn text_pointer(
    alloc: Global,
    machine: Machine,
    letters: Option<u32>,
    blocks: &mut Vec<u8>,
) -> Result<Vec<u8>, Fail> {
    let Some(letters) = letters else {
        return Ok(number_bytes(alloc, machine.big, machine.pointer, 0)?);
    };
    let at = next_block(blocks, fixed_of(machine))?;
    put_letters(letters, blocks)?;
    Ok(number_bytes(alloc, machine.big, machine.pointer, at)?)
}

// Bytes of the fixed part.
fn fixed_of(machine: Machine) -> u32 {
    if machine.pointer == 8 { 24 } else { 16 }
}

// The packed record: the count, 7, the two pointers, and the blocks.
fn packed(alloc: Global, machine: Machine, size: u32, holding: Holding) -> Result<Vec<u8>, Fail> {
    let mut blocks = Vec::new(alloc);
    let mut bytes = number_bytes(alloc, machine.big, 4, i128::from(holding.count))?;
    bytes.extend_from_slice(&number_bytes(alloc, machine.big, 4, 7)?)?;
    if holding.text_first {
        bytes.extend_from_slice(&text_pointer(alloc, machine, holding.letters, &mut blocks)?)?;
    }
    let numbers = numbers_pointer(alloc, machine, size, holding.count, &mut blocks)?;
    bytes.extend_from_slice(&numbers)?;
    if !holding.text_first {
        bytes.extend_from_slice(&text_pointer(alloc, machine, holding.letters, &mut blocks)?)?;
    }
    bytes.extend_from_slice(&blocks)?;
    Ok(bytes)
}

// A record becomes the receiver's at its size as limit, and none at one byte less.
fn becomes(
    alloc: Global,
    machines: (Machine, Machine),
    form: (&str, u32, u32),
    holding: Holding,
) -> Result<(), Fail> {
    let (counts, from_size, to_size) = form;
    let from = format_of(
        alloc,
        &declared(alloc, machines.0, counts, from_size, holding)?,
    )?;
    let to = format_of(
        alloc,
        &declared(alloc, machines.1, counts, to_size, holding)?,
    )?;
    let record = packed(alloc, machines.0, from_size, holding)?;
    let wanted = digits_of(alloc, &packed(alloc, machines.1, to_size, holding)?)?;
    let Ok(size) = u32::try_from(wanted.len() / 2) else {
        return Err(Fail::new("too long"));
    };
    let (found, _) = answer(alloc, &from, &to, &record, size)?;
    if found.as_str() != wanted.as_str() {
        return Err(Fail::new(format_args!("{found} is not {wanted}")));
    }
    let (refused, _) = answer(alloc, &from, &to, &record, size.saturating_sub(1))?;
    if !refused.contains("large") {
        return Err(Fail::new(format_args!("one byte less, and {refused}")));
    }
    Ok(())
}

#[test]
fn texts_and_arrays_on_each_machine(rt: HostRuntime) -> Result<(), Fail> {
    let alloc = rt.alloc();
    for machines in MACHINES {
        for form in FORMS {
            for count in [0, 1, 3, 4, 5] {
                for letters in [None, Some(0), Some(15), Some(31), Some(32), Some(33)] {
                    for text_first in [false, true] {
                        let holding = Holding {
                            count,
                            letters,
                            text_first,
                        };
                        becomes(alloc, machines, form, holding)?;
                    }
                }
            }
        }
    }
    Ok(())
}
