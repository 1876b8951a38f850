//! Expressions over readings, as the stones of a monitoring job have them.

ghost use Rattle.std.specs.Prelude.{◌≡◌, IfOk};

use crate::random::Random;
use crate::record_bytes::{align, push_number, push_text};
use crate::several::{Sort, several};
use anyhow::Result;
use evp_eval::{Bound, bind};
use evp_expr::parse;
use evp_format::Format;
use evp_plain::format_of;
use std::alloc::{AllocError, Global};

/// A bound expression and records of its format.
#[derive(Drop)]
pub struct Expression {
    pub format: Format,
    pub bound: Bound,
    pub records: Vec<Vec<u8>>,
}

const READING: &str = "le64 t{id unsigned integer 8, name string, n integer 8, v integer[n] 4}";

/// A test of one number, over 256 records with the numbers from 0 to 255.
pub fn test(alloc: Global) -> Result<Expression>
    ensures { IfOk result (λ made. made.bound.layout ≡ made.format) }
{
    let records = several(alloc, &Number, 256)?;
    bound_over(alloc, "le64 t{x integer 8}", "x % 3 != 0", records)
}

/// A comparison with a text, over 256 readings of which every second is `ok`.
pub fn same(alloc: Global) -> Result<Expression>
    ensures { IfOk result (λ made. made.bound.layout ≡ made.format) }
{
    let records = several(alloc, &Reading { fixed: false }, 256)?;
    bound_over(alloc, READING, "same(name,\"ok\")", records)
}

/// A sum and an element of a list, over 256 readings of two numbers.
pub fn list(alloc: Global) -> Result<Expression>
    ensures { IfOk result (λ made. made.bound.layout ≡ made.format) }
{
    let records = several(alloc, &Reading { fixed: true }, 256)?;
    bound_over(alloc, READING, "n * 100 + id > 0 && v[n - 1] > 1", records)
}

fn bound_over(alloc: Global, format: &str, text: &str, records: Vec<Vec<u8>>) -> Result<Expression>
    ensures { IfOk result (λ made. made.bound.layout ≡ made.format) }
{
    let format = format_of(alloc, format)?;
    let expr = parse(alloc, text)?;
    let bound = bind(alloc, &expr, &format)?;
    Ok(Expression {
        format,
        bound,
        records,
    })
}

// A record of one number, its own.
#[derive(Drop)]
struct Number;

impl Sort for Number {
    fn record(&self, alloc: Global, k: u64, _random: &mut Random) -> Result<Vec<u8>, AllocError> {
        let mut bytes = Vec::new(alloc);
        push_number(&mut bytes, 8, k)?;
        Ok(bytes)
    }
}

// A reading: `ok` and `bad` by turns, and none to two numbers by turns, or two.
#[derive(Drop)]
struct Reading {
    fixed: bool,
}

impl Sort for Reading {
    fn record(&self, alloc: Global, k: u64, _random: &mut Random) -> Result<Vec<u8>, AllocError> {
        let count = if self.fixed { 2 } else { k % 3 };
        let name = if k % 2 == 0 { "ok" } else { "bad" };
        let mut bytes = Vec::with_capacity(alloc, 48)?;
        push_number(&mut bytes, 8, k)?;
        push_number(&mut bytes, 8, 32)?;
        push_number(&mut bytes, 8, count)?;
        push_number(&mut bytes, 8, 40)?;
        push_text(&mut bytes, name.as_bytes())?;
        align(&mut bytes)?;
        for number in 0..count {
            push_number(&mut bytes, 4, number + 1)?;
        }
        Ok(bytes)
    }
}
