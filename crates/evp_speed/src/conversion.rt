//! Conversions of records by a plan.

ghost use Rattle.std.specs.Prelude.{◌≡◌, ◌↔◌, IsTrue, IfOk, IfSome};
ghost use Rattle.evp_plan.specs.Planned.{StandsFor};
ghost use Rattle.evp_record.specs.Record.{record_of};
ghost use Rattle.evp_speed.specs.Pairs.{AreOf};

use crate::way::Way;
use anyhow::{Result, bail};
use evp_format::Format;
use evp_plain::{convert_plainly, format_of};
use evp_plan::{BuildFault, Builds, Plan, build};
use evp_record::{Checked, check};
use evp_value::SlowFault;
use std::alloc::{AllocError, Global};
use std::borrow::CowSlice;

/// The longest record, in bytes.
pub const LIMIT: u32 = 65_536;

/// A pair of formats with their plan, and records of the first.
#[derive(Drop)]
pub struct Pair {
    pub from: Format,
    pub to: Format,
    pub plan: Plan,
    pub records: Vec<Vec<u8>>,
}

/// A pair of declared formats. An error where a declaration has a fault, where the formats clash, or
/// where memory ran out.
pub fn planned(alloc: Global, from: &str, to: &str, records: Vec<Vec<u8>>) -> Result<Pair>
    ensures { IfOk result (λ pair. StandsFor pair.plan pair.from pair.to) }
{
    let from = format_of(alloc, from)?;
    let to = format_of(alloc, to)?;
    let mut builds = Builds::new();
    match build(alloc, &from, &to, &mut builds) {
        Ok(plan) => Ok(Pair {
            from,
            to,
            plan,
            records,
        }),
        Err(BuildFault::Clash(path)) => bail!("the formats clash at {path}"),
        Err(BuildFault::Memory) => bail!("no memory"),
    }
}

/// The records, checked: those that are legal.
pub fn checked<'a>(
    alloc: Global,
    format: &'a Format,
    records: &'a [Vec<u8>],
) -> Result<Vec<Checked<'a>>, AllocError>
    ensures { IfOk result (λ items. AreOf format.now items.items) }
{
    let mut items = Vec::with_capacity(alloc, records.len())?;
    for record in records {
        if let Some(item) = legal(format, record) {
            items.push(item)?;
        }
    }
    Ok(items)
}

/// The record, where the bytes are one.
#[inline(always)]
pub fn legal<'a>(format: &'a Format, bytes: &'a [u8]) -> Option<Checked<'a>>
    ensures { IfSome result (λ item. item ≡ record_of format.now bytes.now) }
{
    if bytes.len() > LIMIT as usize {
        return None;
    }
    check(format, bytes).ok()
}

/// A plan for two formats.
#[derive(Clone, Copy)]
pub struct Method<'a> {
    pub alloc: Global,
    pub plan: &'a Plan,
    pub from: &'a Format,
    pub to: &'a Format,
}

impl<'a> Method<'a> {
    /// The converted bytes, in `out` or in a buffer of their own, or lent. None where the record
    /// doesn't fit.
    #[inline(always)]
    #[tactic(auto, using(crate::proofs::Plans::plan_from))]
    pub fn convert<'b, W: Way>(
        &self,
        way: &W,
        item: Checked<'b>,
        out: &'b mut [u8],
    ) -> Option<CowSlice<'b, u8>>
        requires plan { StandsFor self.now.plan.now self.now.from.now self.now.to.now }
        requires of { item.layout ≡ self.now.from.now }
    {
        way.convert(self.alloc, self.plan, item, out)
    }

    /// How many bytes the record is converted to; 0 where it doesn't fit.
    #[inline(always)]
    pub fn size<W: Way>(&self, way: &W, item: Checked, out: &mut [u8]) -> usize
        requires plan { StandsFor self.now.plan.now self.now.from.now self.now.to.now }
        requires of { item.layout ≡ self.now.from.now }
    {
        match self.convert(way, item, out) {
            Some(made) => made.as_slice().len(),
            None => 0,
        }
    }

    /// Whether the converted bytes are those that the record's value is converted to.
    pub fn agrees<W: Way>(&self, way: &W, item: Checked, out: &mut [u8]) -> Result<bool, AllocError>
        requires plan { StandsFor self.now.plan.now self.now.from.now self.now.to.now }
        requires of { item.layout ≡ self.now.from.now }
    {
        let plain = match convert_plainly(self.alloc, item.copy(), self.to, LIMIT) {
            Ok(bytes) => bytes,
            Err(SlowFault::Memory) => return Err(AllocError),
            Err(_) => return Ok(false),
        };
        match self.convert(way, item, out) {
            None => Ok(false),
            Some(bytes) => Ok(are_same(bytes.as_slice(), &plain)),
        }
    }
}

// Whether both are the same bytes.
fn are_same(bytes: &[u8], others: &[u8]) -> bool
    ensures { IsTrue result ↔ (bytes.now ≡ others.now) }
{
    bytes == others
}
