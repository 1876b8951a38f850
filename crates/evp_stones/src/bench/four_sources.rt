//! The four sources of the large job, made side by side.
ghost use Rattle.std.specs.Prelude.{◌<◌, ◌+◌};
ghost use Rattle.std.specs.Thread.{IsSync};
ghost use Rattle.evp_stones.specs.MadeFiles.{IsMade, IsMakeable};

use super::beside::both;
use super::made_source::{MadeSource, made_source};
use evp_base::Memory;
use evp_job::JobText;
use std::alloc::Global;
use std::thread;
use std::thread::Threads;

type Made = Result<MadeSource, Memory>;

/// The sources, each with the generator's file, which is made and read in one thread, of which there
/// are four, two or one. This thread begins them all and only waits where there are several: the
/// first thread that one begins is often put on its processor (docs/DECISIONS.md).
pub(super) fn four_sources<R: Threads + Sync>(
    rt: &R,
    alloc: Global,
    text: &JobText,
    records: u32,
    threads: u32,
) -> ((Made, Made), (Made, Made))
    requires { IsMakeable text.now records }
    ensures first { IsMade text.now records 0 result.0.0 × IsMade text.now records 1 result.0.1 }
    ensures second { IsMade text.now records 2 result.1.0 × IsMade text.now records 3 result.1.1 }
{
    if threads >= 4 {
        return in_four(rt, alloc, text, records);
    }
    both(
        rt,
        threads >= 2,
        || -> (Made, Made)
            requires { IsMakeable text.now records }
            ensures { IsMade text.entry.now records 0 result.0
                × IsMade text.entry.now records 1 result.1 }
        { in_turn(alloc, text, records, 0) },
        || -> (Made, Made)
            requires { IsMakeable text.now records }
            ensures { IsMade text.entry.now records 2 result.0
                × IsMade text.entry.now records 3 result.1 }
        { in_turn(alloc, text, records, 2) },
    )
}

// The source of this number and the next one, one after the other.
fn in_turn(alloc: Global, text: &JobText, records: u32, source: usize) -> (Made, Made)
    requires source { source < 3 }
    requires makeable { IsMakeable text.now records }
    ensures first { IsMade text.now records source result.0 }
    ensures second { IsMade text.now records (source + 1) result.1 }
{
    let first = made_source(alloc, text, records, source);
    (first, made_source(alloc, text, records, source + 1))
}

// Each source in a thread of its own.
fn in_four<R: Threads + Sync>(
    rt: &R,
    alloc: Global,
    text: &JobText,
    records: u32,
) -> ((Made, Made), (Made, Made))
    requires { IsMakeable text.now records }
    ensures first { IsMade text.now records 0 result.0.0 × IsMade text.now records 1 result.0.1 }
    ensures second { IsMade text.now records 2 result.1.0 × IsMade text.now records 3 result.1.1 }
{
    let (first, (second, others)) = thread::join(
        rt,
        || -> Made
            requires { IsMakeable text.now records }
            ensures { IsMade text.entry.now records 0 result }
        { made_source(alloc, text, records, 0) },
        || -> (Made, (Made, Made))
            requires { IsSync R.row × IsMakeable text.now records }
            ensures { IsMade text.entry.now records 1 result.0
                × (IsMade text.entry.now records 2 result.1.0
                × IsMade text.entry.now records 3 result.1.1) }
        { last_three(rt, alloc, text, records) },
    );
    ((first, second), others)
}

// The last three, each in a thread of its own.
fn last_three<R: Threads + Sync>(
    rt: &R,
    alloc: Global,
    text: &JobText,
    records: u32,
) -> (Made, (Made, Made))
    requires { IsMakeable text.now records }
    ensures first { IsMade text.now records 1 result.0 }
    ensures others { IsMade text.now records 2 result.1.0 × IsMade text.now records 3 result.1.1 }
{
    thread::join(
        rt,
        || -> Made
            requires { IsMakeable text.now records }
            ensures { IsMade text.entry.now records 1 result }
        { made_source(alloc, text, records, 1) },
        || -> (Made, Made)
            requires { IsSync R.row × IsMakeable text.now records }
            ensures { IsMade text.entry.now records 2 result.0
                × IsMade text.entry.now records 3 result.1 }
        { last_two(rt, alloc, text, records) },
    )
}

// The last two, each in a thread of its own.
fn last_two<R: Threads + Sync>(rt: &R, alloc: Global, text: &JobText, records: u32) -> (Made, Made)
    requires { IsMakeable text.now records }
    ensures first { IsMade text.now records 2 result.0 }
    ensures second { IsMade text.now records 3 result.1 }
{
    both(
        rt,
        true,
        || -> Made
            requires { IsMakeable text.now records }
            ensures { IsMade text.entry.now records 2 result }
        { made_source(alloc, text, records, 2) },
        || -> Made
            requires { IsMakeable text.now records }
            ensures { IsMade text.entry.now records 3 result }
        { made_source(alloc, text, records, 3) },
    )
}
