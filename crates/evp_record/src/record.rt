//! Checked records, and the check that makes them.

ghost use Rattle.std.specs.Prelude.{◌≡◌, ◌^◌, ◌<◌, ◌≤◌, length, Err, IsOk, IsErr, IfOk, IfErr};
ghost use Rattle.evp_format.specs.Tree.{root_of, length_of};
ghost use Rattle.evp_format.specs.Viewing.{view};
ghost use Rattle.evp_record.specs.Record.{IsRecord, record_of};

use crate::Spot;
use crate::easy::is_easy;
use crate::marker::Marker;
use crate::walk::Walk;
use evp_format::{Broken, Format, Place};
use std::marker::Model;

/// Bytes that are a record of a format: fewer than 2^32, and with a value in the format. Only
/// `check` and `Owned::checked` make one.
#[derive(Drop)]
pub struct Checked<'a> {
    format: &'a Format,
    bytes: &'a [u8],
}

impl<'a> Model for Checked<'a> {
    ghost use Rattle.evp_record.specs.Record.{Record, IsRecord};

    ghost Value = { Record };

    ghost view = { λ c. record { layout = c.format.now; bytes = c.bytes.now } };

    ghost invariant = { λ c. IsRecord (record { layout = c.format.now; bytes = c.bytes.now }) };
}

/// Walks the bytes once: fields as listed, elements by index. Ok exactly where they have a value in
/// the format, else the first fault with its place. Each string's and each counted array's block
/// starts at or after the end of the block before it. At a counted array a negative count comes
/// first, then a null pointer at a count above 0, then the block's place. Gaps, padding and bytes
/// behind the last block are ignored. Takes no memory.
#[inline(always)]
pub fn check<'a>(format: &'a Format, bytes: &'a [u8]) -> Result<Checked<'a>, Broken>
    requires { length bytes.now < 2 ^ 32 }
    ensures held { IfOk result (λ item. item ≡ record_of format.now bytes.now) }
    ensures viewed { IfOk result (λ _. IsOk (view format.now bytes.now)) }
    ensures fault { IfErr result (λ fault. view format.now bytes.now ≡ Err fault) }
{
    let length = format.length() as usize;
    if bytes.len() < length {
        return Err(Broken::ShortRecord);
    }
    let leads = format.root_leads();
    if leads.is_empty() {
        return Ok(Checked { format, bytes });
    }
    if is_easy(format, leads, bytes, length) {
        return Ok(Checked { format, bytes });
    }
    walked(format, bytes)
}

// The same of bytes that are long enough. The room for a fault of what stands apart is zeroed where
// the function begins that calls it: with this one between, only where it is called.
#[inline(always)]
fn walked<'a>(format: &'a Format, bytes: &'a [u8]) -> Result<Checked<'a>, Broken>
    requires short { length bytes.now < 2 ^ 32 }
    requires whole { length_of (root_of format.now) ≤ length bytes.now }
    ensures held { IfOk result (λ item. item ≡ record_of format.now bytes.now) }
    ensures viewed { IfOk result (λ _. IsOk (view format.now bytes.now)) }
    ensures fault { IfErr result (λ fault. view format.now bytes.now ≡ Err fault) }
{
    walked_whole(format, bytes)
}

// The same, by a walk. It stands apart, so that the quick look is all that stands at a call.
#[inline(never)]
fn walked_whole<'a>(format: &'a Format, bytes: &'a [u8]) -> Result<Checked<'a>, Broken>
    requires short { length bytes.now < 2 ^ 32 }
    requires whole { length_of (root_of format.now) ≤ length bytes.now }
    ensures held { IfOk result (λ item. item ≡ record_of format.now bytes.now) }
    ensures viewed { IfOk result (λ _. IsOk (view format.now bytes.now)) }
    ensures fault { IfErr result (λ fault. view format.now bytes.now ≡ Err fault) }
{
    let length = format.root().length as usize;
    let last = (format.types().len() - 1) as u16;
    let end = Marker::new(format, bytes).record(last, 0, length);
    if end.is_none() {
        return Err(first_fault(format, bytes));
    }
    Ok(Checked { format, bytes })
}

// The first fault of bytes that have one, and are long enough.
fn first_fault(format: &Format, bytes: &[u8]) -> Broken
    requires short { length bytes.now < 2 ^ 32 }
    requires whole { length_of (root_of format.now) ≤ length bytes.now }
    requires broken { IsErr (view format.now bytes.now) }
    ensures { view format.now bytes.now ≡ Err result }
{
    let length = format.root().length as usize;
    let root = Spot {
        type_number: (format.types().len() - 1) as u16,
        at: 0,
    };
    let walk = Walk { format, bytes };
    match walk.record(root, &Place::root(), length) {
        Err(fault) => fault,
        Ok(_) => unreachable!(),
    }
}

impl<'a> Checked<'a> {
    // Bytes that are known to have a value in the format.
    pub(crate) fn of_viewed(format: &'a Format, bytes: &'a [u8]) -> Checked<'a>
        requires { IsRecord (record_of format.now bytes.now) }
        ensures { result ≡ record_of format.now bytes.now }
    {
        Checked { format, bytes }
    }

    /// The format of the record.
    pub fn format(&self) -> &'a Format
        ensures value { result.now ≡ self.now.layout }
        ensures kept { IsRecord self.now }
    {
        self.format
    }

    /// The record's bytes, which have a value in the format.
    pub fn bytes(&self) -> &'a [u8]
        ensures value { result.now ≡ self.now.bytes }
        ensures kept { IsRecord self.now }
    {
        self.bytes
    }

    /// The same record, lent once more. Takes no memory.
    pub fn copy(&self) -> Checked<'a>
        ensures { result ≡ self.now }
    {
        Checked {
            format: self.format,
            bytes: self.bytes,
        }
    }
}
