//! The large job that is made of a number.
ghost use Rattle.std.specs.Prelude.{◌≡◌, ◌≤◌, IfOk, Ok};
ghost use Rattle.evp_job.specs.Job.{StatesJob};
ghost use Rattle.evp_job.specs.Stated.{IsStated, layouts_of};
ghost use Rattle.evp_job.specs.TextView.{text_of};
ghost use Rattle.evp_stone.specs.Job.{IsJob};
ghost use Rattle.evp_stones.specs.Accepted.{IsAccepted};
ghost use Rattle.evp_stones.specs.Bench.{IsMadeJob};
ghost use Rattle.evp_stones.specs.MadeFiles.{AreMade, IsMakeable, joined};

use super::four_sources::four_sources;
use super::laws::each_bench_is_a_job;
use super::room::ask_ahead;
use evp_base::Memory;
use evp_format::Format;
use evp_gen::{make_job, sent_is_read, sent_is_short};
use evp_job::{JobText, ReadJob, layouts, read_job};
use evp_stone::{Job, JobParts, Source};
use std::alloc::Global;
use std::thread::Threads;

/// All sources with the records of their files, and the formats that the files describe.
#[derive(Drop)]
struct MadeSources {
    formats: Vec<Format>,
    sources: Vec<Source>,
}

/// The job with so many records of each source: the one that the generator's document states, with
/// the generator's files, which are made and read by so many threads at most. Nothing of it is
/// refused.
pub(super) fn made_job<R: Threads + Sync>(
    rt: &R,
    alloc: Global,
    records: u32,
    threads: u32,
) -> Result<Job, Memory>
    requires some { 1 ≤ records }
    requires few { records ≤ 20000 }
    ensures { IfOk result (λ job. IsMadeJob records job) }
{
    each_bench_is_a_job();
    sent_is_read();
    sent_is_short();
    // the first time tells the C library to keep what is given back
    ask_ahead(alloc);
    let document = make_job(alloc, records)?;
    let text = stated(alloc, &document)?;
    let made = made_sources(rt, alloc, &text, records, threads)?;
    filled(alloc, text, made)
}

// The job that these bytes state, which have no fault.
fn stated(alloc: Global, bytes: &[u8]) -> Result<JobText, Memory>
    requires { IsAccepted bytes.now }
    ensures states { IfOk result (λ text. StatesJob bytes.now (Ok (text_of text))) }
    ensures kept { IfOk result IsStated }
{
    match read_job(alloc, bytes) {
        Ok(text) => Ok(text),
        Err(ReadJob::Memory) => Err(Memory),
        Err(_) => unreachable!(),
    }
}

// The sources with the generator's files, which are made and read by so many threads at most.
fn made_sources<R: Threads + Sync>(
    rt: &R,
    alloc: Global,
    text: &JobText,
    records: u32,
    threads: u32,
) -> Result<MadeSources, Memory>
    requires { IsMakeable text.now records }
    ensures { IfOk result (AreMade text.now records) }
{
    let ((a, b), (c, d)) = four_sources(rt, alloc, text, records, threads);
    let (a, b, c, d) = (a?, b?, c?, d?);
    let formats = vec![in alloc; a.format, b.format, c.format, d.format]?;
    let sources = vec![in alloc; a.source, b.source, c.source, d.source]?;
    Ok(MadeSources { formats, sources })
}

// The job that the document states, with its sources' records and their formats.
fn filled(alloc: Global, text: JobText, made: MadeSources) -> Result<Job, Memory>
    requires { IsJob (joined text made) }
    ensures { IfOk result (λ job. job ≡ joined text made) }
{
    let JobText {
        limit,
        queue,
        names: _,
        formats,
        sources: _,
        stones,
        rounds,
        routes,
    } = text;
    let MadeSources {
        formats: mut own,
        sources,
    } = made;
    let declared = formats.len() as u16;
    let mut formats = layouts(alloc, formats)?;
    formats.append(&mut own)?;
    Ok(Job::new(JobParts {
        formats,
        declared,
        limit,
        queue,
        sources,
        stones,
        rounds,
        routes,
    }))
}
