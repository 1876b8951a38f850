//! Conversions of arrays, of texts and of lists of records, to an unlike machine.

ghost use Rattle.std.specs.Prelude.{IfOk};
ghost use Rattle.evp_plan.specs.Planned.{StandsFor};

use crate::conversion::{Pair, planned};
use crate::random::Random;
use crate::record_bytes::{align, push_number, push_text};
use crate::several::{Sort, several};
use anyhow::Result;
use std::alloc::{AllocError, Global};

/// 8 records of 1,000 numbers of 4 bytes.
pub fn numbers(alloc: Global) -> Result<Pair>
    ensures { IfOk result (λ pair. StandsFor pair.plan pair.from pair.to) }
{
    let from = "le64 t{v integer[1000] 4}";
    let to = "be64 t{v integer[1000] 4}";
    planned(alloc, from, to, several(alloc, &Thousand, 8)?)
}

/// 256 records of a text of 4 to 20 letters and a list of 4 numbers, which are widened.
pub fn texts(alloc: Global) -> Result<Pair>
    ensures { IfOk result (λ pair. StandsFor pair.plan pair.from pair.to) }
{
    let from = "le64 t{name string, n integer 4, v integer[n] 2}";
    let to = "be64 t{name string, n integer 4, v integer[n] 8}";
    planned(alloc, from, to, several(alloc, &NamedList, 256)?)
}

/// 8 records with a list of 250 records of three numbers.
pub fn records(alloc: Global) -> Result<Pair>
    ensures { IfOk result (λ pair. StandsFor pair.plan pair.from pair.to) }
{
    let from = "le64 e{a integer 4, b integer 2, c integer 8} r{n integer 4, p e[n]}";
    let to = "be64 e{a integer 4, b integer 2, c integer 8} r{n integer 4, p e[n]}";
    planned(alloc, from, to, several(alloc, &List, 8)?)
}

#[derive(Drop)]
struct Thousand;

impl Sort for Thousand {
    fn record(&self, alloc: Global, _k: u64, random: &mut Random) -> Result<Vec<u8>, AllocError> {
        let mut bytes = Vec::with_capacity(alloc, 4_000)?;
        for _ in 0..1_000 {
            push_number(&mut bytes, 4, random.number())?;
        }
        Ok(bytes)
    }
}

#[derive(Drop)]
struct NamedList;

impl Sort for NamedList {
    // The fixed part of 24 bytes, the text, and the numbers at the next multiple of 8.
    fn record(&self, alloc: Global, _k: u64, random: &mut Random) -> Result<Vec<u8>, AllocError> {
        let letters = 4 + random.number() % 17;
        let mut bytes = Vec::with_capacity(alloc, 64)?;
        push_number(&mut bytes, 8, 24)?;
        push_number(&mut bytes, 8, 4)?;
        push_number(&mut bytes, 8, (24 + letters + 8) / 8 * 8)?;
        push_text(&mut bytes, &[b'a'; 20][..letters as usize])?;
        align(&mut bytes)?;
        for _ in 0..4 {
            push_number(&mut bytes, 2, random.number())?;
        }
        Ok(bytes)
    }
}

#[derive(Drop)]
struct List;

impl Sort for List {
    fn record(&self, alloc: Global, _k: u64, random: &mut Random) -> Result<Vec<u8>, AllocError> {
        let mut bytes = Vec::with_capacity(alloc, 4_016)?;
        push_number(&mut bytes, 8, 250)?;
        push_number(&mut bytes, 8, 16)?;
        for _ in 0..250 {
            push_number(&mut bytes, 4, random.number())?;
            push_number(&mut bytes, 2, random.number())?;
            push_number(&mut bytes, 8, random.number())?;
        }
        Ok(bytes)
    }
}
