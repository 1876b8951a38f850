//! The line `bench N W`: a large job made of a number, and what carrying it comes to.
ghost use Rattle.std.specs.Prelude.{◌≡◌, ◌≤◌, IfOk, Ok};
ghost use Rattle.sha2.specs.Sha256.{sha256};
ghost use Rattle.evp_report.specs.Report.{report};
ghost use Rattle.evp_stones.specs.Bench.{bench_text, IsBench};
ghost use Rattle.evp_stones.specs.Summary.{summary_text};
ghost use Rattle.evp_stones.specs.Words.{AreWorkers};

mod beside;
mod four_sources;
mod hashing;
mod kept_text;
mod laws;
mod lines;
mod made_job;
mod made_source;
mod pen;
mod room;
mod summary;
mod texts;
mod told;
mod totals;

use crate::carried::Carried;
use evp_base::Memory;
use evp_crew::Gate;
use evp_stone::Job;
use hashing::Hashing;
use made_job::made_job;
use std::alloc::Global;
use std::marker::Brand;
use std::mem;
use std::sync::Wait;
use std::thread::Threads;
pub use summary::Summary;
use texts::Texts;
use told::OfJob;
pub(crate) use totals::{Totals, job_totals};

/// What carrying the large job with so many records of each source, by so many workers, comes to.
/// The gate is called before each turn of a worker.
pub fn bench<R: Threads + Wait + Sync, G: Gate + Sync>(
    rt: &R,
    alloc: Global,
    records: u32,
    workers: u32,
    gate: &G,
) -> Result<Summary, Memory>
    requires workers { AreWorkers workers }
    requires some { 1 ≤ records }
    requires few { records ≤ 20000 }
    ensures { IfOk result (λ summary. IsBench records (Ok (summary_text summary))) }
{
    let job = made_job(rt, alloc, records, workers)?;
    let (carried, digest) = with_digest(rt, alloc, job, workers, gate)?;
    let summary = summary_of(records, &carried, digest);
    // The program ends soon, and then all memory goes back at once.
    mem::forget(carried);
    Ok(summary)
}

// The job, carried by so many workers, and the SHA-256 of its report. One worker has nobody that
// could hash meanwhile, so its texts aren't kept.
fn with_digest<R: Threads + Wait + Sync, G: Gate + Sync>(
    rt: &R,
    alloc: Global,
    job: Job,
    workers: u32,
    gate: &G,
) -> Result<(Carried, [u8; 32]), Memory>
    requires { AreWorkers workers }
    ensures carried { IfOk result (λ made. made.0 ≡ job) }
    ensures digest { IfOk result (λ made. made.1 ≡ sha256 (report made.0)) }
{
    if workers > 1 {
        return carried_and_hashed::<Brand, R, G>(rt, alloc, job, workers, gate);
    }
    let carried = Carried::by_workers(rt, alloc, job, workers, gate)?;
    let digest = digest_alone(&carried);
    Ok((carried, digest))
}

// The job, carried by so many workers, and the SHA-256 of its report, which is hashed meanwhile.
fn carried_and_hashed<J: OfJob + Send + Sync, R: Threads + Wait + Sync, G: Gate + Sync>(
    rt: &R,
    alloc: Global,
    job: Job,
    workers: u32,
    gate: &G,
) -> Result<(Carried, [u8; 32]), Memory>
    requires job { J.job ≡ job }
    requires workers { AreWorkers workers }
    ensures carried { IfOk result (λ made. made.0 ≡ job) }
    ensures digest { IfOk result (λ made. made.1 ≡ sha256 (report made.0)) }
{
    let texts = Texts::<J>::new(alloc, &job)?;
    let carried = Carried::watched(rt, alloc, job, workers, gate, &texts)?;
    let digest = texts.digest(&carried);
    Ok((carried, digest))
}

// The SHA-256 of the report of a job that was carried, hashed as it is written.
fn digest_alone(carried: &Carried) -> [u8; 32]
    ensures { result ≡ sha256 (report carried.now) }
{
    let mut sink = Hashing::new();
    match carried.write(&mut sink) {
        Ok(()) => sink.digest(),
        Err(_) => unreachable!(),
    }
}

// What is told of a job that was carried.
fn summary_of(records: u32, carried: &Carried, digest: [u8; 32]) -> Summary
    requires { digest ≡ sha256 (report carried.now) }
    ensures { summary_text result ≡ bench_text records carried.now }
{
    Summary {
        records,
        routes: carried.routes(),
        totals: carried.totals(),
        digest,
    }
}
