//! The top call.
ghost use Rattle.std.specs.Prelude.{◌≡◌, ◌↔◌, ◌≤◌, IsSome, map, string_bytes};
ghost use Rattle.evp_stones.specs.Answer.{Answers, IsBenched, IsReadBy, IsReply};
ghost use Rattle.evp_stones.specs.Completeness.{Completes};
ghost use Rattle.evp_stones.specs.OutputText.{output_text};
ghost use Rattle.evp_stones.specs.Steps.{Works, seen_by};
ghost use Rattle.evp_stones.specs.Words.{line_of, AreWorkers, bench, run};

use crate::alone::alone;
use crate::bench::bench;
use crate::output::Output;
use crate::refusal::Refusal;
use crate::replying::put_reply;
use crate::run::run;
use crate::words::{Line, line_of};
use evp_crew::Gate;
use evp_depot::{Depot, Sink};
use std::alloc::Global;
use std::sync::Wait;
use std::thread::Threads;

/// Does what the words ask for over a depot and a sink, and answers the program's status. The lines
/// `run` and `bench` are carried by workers, with the gate before each of their turns; `alone` does
/// the others.
pub fn stones<R: Threads + Wait + Sync, D: Depot, K: Sink, G: Gate + Sync>(
    rt: &R,
    alloc: Global,
    words: &[String],
    depot: &mut D,
    sink: &mut K,
    gate: &G,
) -> u8
    ensures answers { Answers D.held D.misses D.faults K.faults K.put
        (line_of (map string_bytes words.now)) depot.old depot.new sink.old sink.new result }
    ensures complete { Completes D.held D.faults K.faults K.put
        (line_of (map string_bytes words.now)) depot.old depot.new sink.old sink.new result }
    // The words are no line.
    ensures words { (result ≡ 1) ↔ ¬ IsSome (line_of (map string_bytes words.now)) }
{
    answer(rt, alloc, words, depot, sink, gate)
}

// Works the line out and writes what comes of it.
fn answer<R: Threads + Wait + Sync, D: Depot, K: Sink, G: Gate + Sync>(
    rt: &R,
    alloc: Global,
    words: &[String],
    depot: &mut D,
    sink: &mut K,
    gate: &G,
) -> u8
    ensures { Answers D.held D.misses D.faults K.faults K.put (line_of (map string_bytes words.now))
        depot.old depot.new sink.old sink.new result }
{
    match line_of(words) {
        Some(Line::Run(job, workers)) => {
            let worked = reported(rt, alloc, depot, job, workers, gate);
            put_reply(worked, sink)
        }
        Some(Line::Bench(records, workers)) => {
            let worked = summed(rt, alloc, records, workers, gate);
            put_reply(worked, sink)
        }
        Some(Line::Show(_) | Line::Check(_) | Line::Walk(_, _) | Line::Convert(_, _, _)) | None => {
            alone(alloc, words, depot, sink)
        }
    }
}

// What `run` writes.
fn reported<R: Threads + Wait + Sync, D: Depot, G: Gate + Sync>(
    rt: &R,
    alloc: Global,
    depot: &mut D,
    job: &str,
    workers: u32,
    gate: &G,
) -> Result<Output, Refusal>
    requires { AreWorkers workers }
    ensures { Works D.held D.misses D.faults depot.old depot.new (IsReply (run job.now workers))
        (IsReadBy (run job.now workers)) (seen_by output_text result) }
{
    Ok(Output::Reported(run(rt, alloc, depot, job, workers, gate)?))
}

// What `bench` writes.
fn summed<R: Threads + Wait + Sync, G: Gate + Sync>(
    rt: &R,
    alloc: Global,
    records: u32,
    workers: u32,
    gate: &G,
) -> Result<Output, Refusal>
    requires some { 1 ≤ records }
    requires few { records ≤ 20000 }
    requires workers { AreWorkers workers }
    ensures { IsBenched (bench records workers) (seen_by output_text result) }
{
    Ok(Output::Summed(bench(rt, alloc, records, workers, gate)?))
}
