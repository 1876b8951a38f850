//! The best time of many short batches.

use crate::workload::Workload;
use anyhow::{Result, ensure};
use std::time::{Clock, Instant};

/// The nanoseconds that a batch takes at least.
const BATCH: u128 = 50_000;

/// The most batches of a workload.
const BATCHES: u32 = 400;

/// The nanoseconds after which no further batch begins.
const ENOUGH: u128 = 2_000_000_000;

/// The best time of a workload for one of its records, in thousandths of a nanosecond. An error
/// where the clock fails, or where two passes of one workload differ in what comes of them.
pub fn best<W: Workload>(clock: &impl Clock, workload: &W, out: &mut [u8]) -> Result<u128>
    requires { W.ready workload.now }
{
    let passes = passes_of(clock, workload, out)?;
    let (mut best, sum) = batch(clock, workload, out, passes)?;
    let mut all = best;
    for _ in 1..BATCHES {
        if all >= ENOUGH {
            break;
        }
        let (took, again) = batch(clock, workload, out, passes)?;
        ensure!(again == sum, "two batches of {} differ", workload.name());
        best = best.min(took);
        all = all.saturating_add(took);
    }
    let records = u128::from(passes).saturating_mul(workload.records() as u128);
    Ok(best.saturating_mul(1000) / records.max(1))
}

// How many passes a batch has.
fn passes_of<W: Workload>(clock: &impl Clock, workload: &W, out: &mut [u8]) -> Result<u32>
    requires { W.ready workload.now }
{
    let mut passes = 1u32;
    for _ in 0..20 {
        let (took, _) = batch(clock, workload, out, passes)?;
        if took >= BATCH {
            break;
        }
        passes = passes.saturating_mul(2);
    }
    Ok(passes)
}

// The nanoseconds of a batch, and the sum of what its passes answered.
fn batch<W: Workload>(
    clock: &impl Clock,
    workload: &W,
    out: &mut [u8],
    passes: u32,
) -> Result<(u128, u64)>
    requires { W.ready workload.now }
{
    let start = Instant::now(clock)?;
    let mut sum = 0u64;
    for _ in 0..passes {
        sum = sum.wrapping_add(workload.pass(out));
    }
    let took = start.elapsed(clock)?;
    Ok((took.as_nanos(), sum))
}
