//! Jobs that workers carry: their reports are the same for every number of workers.

ghost use Rattle.std.specs.Prelude.{◌≡◌};

use super::{DIAMOND, FIVE, ONE, TERMINAL, document_of, job_of};
use evp_crew::{Carried, Gate, NoWatch, OpenGate, carry, carry_watched};
use evp_depot::MemorySink;
use evp_report::write_report;
use evp_stone::Job;
use std::alloc::Global;
use std::rt::HostRuntime;
use std::sync::Wait;
use std::test::Fail;
use std::thread::Threads;

// A job by its document's stones and rounds and its source's file, with its report.
struct Row {
    name: &'static str,
    stones: &'static str,
    rounds: &'static str,
    file: &'static [u8],
    report: &'static str,
}

const ROWS: [Row; 3] = [
    Row {
        name: "a source and a terminal",
        stones: TERMINAL,
        rounds: "{\"submit\":[1],\"frozen\":[]}",
        file: ONE,
        report: "round 0\n\
        a>0 passed 1 dropped 0 refused 0 held 0\n#0 {x=7}\n",
    },
    Row {
        name: "two filters to one terminal",
        stones: DIAMOND,
        rounds: "{\"submit\":[5],\"frozen\":[]}",
        file: FIVE,
        report: "round 0\n\
        a>0 passed 5 dropped 0 refused 0 held 0\n\
        a>0>1 passed 4 dropped 1 refused 0 held 0\n\
        a>0>1>3 passed 4 dropped 0 refused 0 held 0\n\
        #1 {x=2}\n#2 {x=3}\n#3 {x=4}\n#4 {x=5}\n\
        a>0>2 passed 4 dropped 1 refused 0 held 0\n\
        a>0>2>3 passed 4 dropped 0 refused 0 held 0\n\
        #0 {x=1}\n#1 {x=2}\n#2 {x=3}\n#3 {x=4}\n",
    },
    Row {
        name: "a filter that is frozen in the first of two rounds",
        stones: DIAMOND,
        rounds: "{\"submit\":[2],\"frozen\":[2]},{\"submit\":[2],\"frozen\":[]}",
        file: FIVE,
        report: "round 0\n\
        a>0 passed 2 dropped 0 refused 0 held 0\n\
        a>0>1 passed 1 dropped 1 refused 0 held 0\n\
        a>0>1>3 passed 1 dropped 0 refused 0 held 0\n#1 {x=2}\n\
        a>0>2 passed 0 dropped 0 refused 0 held 2\n\
        a>0>2>3 passed 0 dropped 0 refused 0 held 0\n\
        round 1\n\
        a>0 passed 2 dropped 0 refused 0 held 0\n\
        a>0>1 passed 2 dropped 0 refused 0 held 0\n\
        a>0>1>3 passed 2 dropped 0 refused 0 held 0\n#2 {x=3}\n#3 {x=4}\n\
        a>0>2 passed 4 dropped 0 refused 0 held 0\n\
        a>0>2>3 passed 4 dropped 0 refused 0 held 0\n\
        #0 {x=1}\n#1 {x=2}\n#2 {x=3}\n#3 {x=4}\n",
    },
];

// What queues a document states: 64 places where it states none.
const QUEUES: [&str; 2] = ["", "\"queue\":1,"];

const WORKERS: [u32; 3] = [1, 2, 8];

// The report of what was carried of a job.
fn reported(alloc: Global, job: &Job, carried: Carried) -> Result<Vec<u8>, Fail>
    requires { carried.job ≡ job.now }
{
    let accounts = carried.accounts();
    let mut sink = MemorySink::new(alloc, 10_000, 10_000, Vec::new(alloc))?;
    write_report(job, &accounts, &mut sink)
        .ok()
        .ok_or("a report")?;
    Ok(Vec::from_slice(alloc, sink.put())?)
}

/// The report of a job that so many workers carry, behind this gate.
pub fn report<R: Threads + Wait + Sync, G: Gate + Sync>(
    rt: &R,
    alloc: Global,
    job: &Job,
    workers: u32,
    gate: &G,
) -> Result<Vec<u8>, Fail> {
    if workers < 1 || workers > 64 {
        return Err("workers".into());
    }
    let carried = carry(rt, alloc, job, workers, gate).ok().ok_or("memory")?;
    reported(alloc, job, carried)
}

// The same of a job that is carried by a rota for each seat.
fn watched_report<R: Threads + Wait + Sync>(
    rt: &R,
    alloc: Global,
    job: &Job,
    workers: u32,
) -> Result<Vec<u8>, Fail> {
    if workers < 1 || workers > 64 {
        return Err("workers".into());
    }
    let carried = carry_watched(rt, alloc, job, workers, &OpenGate, &NoWatch)
        .ok()
        .ok_or("memory")?;
    reported(alloc, job, carried)
}

// The reports of the job of a row, with this text on queues, by one rota and by a rota for each seat.
fn reports_of<R: Threads + Wait + Sync>(
    rt: &R,
    alloc: Global,
    row: &Row,
    queue: &str,
    workers: u32,
) -> Result<[Vec<u8>; 2], Fail> {
    let document = document_of(alloc, queue, row.stones, row.rounds)?;
    let job = job_of(alloc, document.as_str(), row.file).ok_or("a job")?;
    Ok([
        report(rt, alloc, &job, workers, &OpenGate)?,
        watched_report(rt, alloc, &job, workers)?,
    ])
}

#[test]
fn reports_of_worked_jobs(rt: HostRuntime) -> Result<(), Fail> {
    let alloc = rt.alloc();
    for row in &ROWS {
        for queue in QUEUES {
            for workers in WORKERS {
                for report in &reports_of(&rt, alloc, row, queue, workers)? {
                    assert_eq!(rt;
                        (row.name, queue, workers, report.as_slice()),
                        (row.name, queue, workers, row.report.as_bytes())
                    );
                }
            }
        }
    }
    Ok(())
}
