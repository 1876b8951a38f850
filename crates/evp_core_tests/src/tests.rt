//! Jobs that a world carries, by their reports.

mod jobs;
mod orders;
mod turns;

ghost use Rattle.std.specs.Prelude.{◌≡◌};

use evp_core::World;
use evp_depot::MemorySink;
use evp_report::write_report;
use evp_stone::Job;
use jobs::job_of_one;
use std::alloc::{AllocError, Global};
use std::rt::HostRuntime;
use std::test::Fail;

// A file of one number x of four bytes, little: its description, and its records.
const ONE: &[u8] =
    b"NDR1F\0\0\0\x22NDF1\0\x04\0\x01\x01p\0\0\0\x04\0\x01\x01x\x07integer\0\0\0\x04\0\0\0\0\
    R\0\0\0\0\0\x04\x07\0\0\0E";

const FIVE: &[u8] =
    b"NDR1F\0\0\0\x22NDF1\0\x04\0\x01\x01p\0\0\0\x04\0\x01\x01x\x07integer\0\0\0\x04\0\0\0\0\
    R\0\0\0\0\0\x04\x01\0\0\0R\0\0\0\0\0\x04\x02\0\0\0R\0\0\0\0\0\x04\x03\0\0\0\
    R\0\0\0\0\0\x04\x04\0\0\0R\0\0\0\0\0\x04\x05\0\0\0E";

// Pairs of numbers x and y: (4, 1), (1, 1), (3, 0), (6, 2).
const PAIRS: &[u8] =
    b"NDR1F\0\0\0\x34NDF1\0\x04\0\x01\x01p\0\0\0\x08\0\x02\x01x\x07integer\0\0\0\x04\0\0\0\0\
    \x01y\x07integer\0\0\0\x04\0\0\0\x04\
    R\0\0\0\0\0\x08\x04\0\0\0\x01\0\0\0R\0\0\0\0\0\x08\x01\0\0\0\x01\0\0\0\
    R\0\0\0\0\0\x08\x03\0\0\0\0\0\0\0R\0\0\0\0\0\x08\x06\0\0\0\x02\0\0\0E";

// Formats up to the stones: x of eight bytes, x of four, and x and y of four each.
const WIDE: &str =
    "\"formats\":[{\"name\":\"q\",\"profile\":\"be64\",\"types\":[{\"name\":\"q\",\"fields\":\
    [[\"x\",\"integer\",8]]}]}],\
    \"sources\":[{\"name\":\"a\",\"file\":\"a.ndr\",\"stone\":0}],\"stones\":";

const NARROW: &str =
    "\"formats\":[{\"name\":\"q\",\"profile\":\"le32\",\"types\":[{\"name\":\"q\",\"fields\":\
    [[\"x\",\"integer\",4]]}]}],\
    \"sources\":[{\"name\":\"a\",\"file\":\"a.ndr\",\"stone\":0}],\"stones\":";

const TWO: &str =
    "\"formats\":[{\"name\":\"q\",\"profile\":\"le32\",\"types\":[{\"name\":\"q\",\"fields\":\
    [[\"x\",\"integer\",4],[\"y\",\"integer\",4]]}]}],\
    \"sources\":[{\"name\":\"a\",\"file\":\"a.ndr\",\"stone\":0}],\"stones\":";

// Stones: a terminal; a split to a terminal; a split to one terminal twice; a split to two filters
// that lead to one terminal; a filter that divides.
const TERMINAL: &str = "[{\"kind\":\"terminal\",\"format\":\"q\"}]";

const SPLIT: &str =
    "[{\"kind\":\"split\",\"targets\":[1]},{\"kind\":\"terminal\",\"format\":\"q\"}]";

const TWICE: &str =
    "[{\"kind\":\"split\",\"targets\":[1,1]},{\"kind\":\"terminal\",\"format\":\"q\"}]";

const DIAMOND: &str = "[{\"kind\":\"split\",\"targets\":[1,2]},\
    {\"kind\":\"filter\",\"format\":\"q\",\"expr\":\"1\",\"target\":3},\
    {\"kind\":\"filter\",\"format\":\"q\",\"expr\":\"1\",\"target\":3},\
    {\"kind\":\"terminal\",\"format\":\"q\"}]";

const QUOTIENT: &str = "[{\"kind\":\"filter\",\"format\":\"q\",\"expr\":\"x/y > 1\",\"target\":1},\
    {\"kind\":\"terminal\",\"format\":\"q\"}]";

// A job by its document's parts and its source's file, with its report.
struct Row {
    name: &'static str,
    formats: &'static str,
    stones: &'static str,
    rounds: &'static str,
    file: &'static [u8],
    report: &'static str,
}

const ROWS: [Row; 6] = [
    Row {
        name: "two ways to one terminal",
        formats: WIDE,
        stones: DIAMOND,
        rounds: "{\"submit\":[1],\"frozen\":[]}",
        file: ONE,
        report: "round 0\n\
        a>0 passed 1 dropped 0 refused 0 held 0\n\
        a>0>1 passed 1 dropped 0 refused 0 held 0\n\
        a>0>1>3 passed 1 dropped 0 refused 0 held 0\n#0 {x=7}\n\
        a>0>2 passed 1 dropped 0 refused 0 held 0\n\
        a>0>2>3 passed 1 dropped 0 refused 0 held 0\n#0 {x=7}\n",
    },
    Row {
        name: "a target named twice",
        formats: WIDE,
        stones: TWICE,
        rounds: "{\"submit\":[1],\"frozen\":[]}",
        file: ONE,
        report: "round 0\n\
        a>0 passed 1 dropped 0 refused 0 held 0\n\
        a>0>1 passed 1 dropped 0 refused 0 held 0\n#0 {x=7}\n\
        a>0>1 passed 1 dropped 0 refused 0 held 0\n#0 {x=7}\n",
    },
    Row {
        name: "a filter that divides",
        formats: TWO,
        stones: QUOTIENT,
        rounds: "{\"submit\":[4],\"frozen\":[]}",
        file: PAIRS,
        report: "round 0\n\
        a>0 passed 2 dropped 1 refused 1 held 0\n#2 zero divide at 1\n\
        a>0>1 passed 2 dropped 0 refused 0 held 0\n#0 {x=4,y=1}\n#3 {x=6,y=2}\n",
    },
    Row {
        name: "a terminal that is frozen in the first round",
        formats: NARROW,
        stones: SPLIT,
        rounds: "{\"submit\":[3],\"frozen\":[1]},{\"submit\":[2],\"frozen\":[]}",
        file: FIVE,
        report: "round 0\n\
        a>0 passed 3 dropped 0 refused 0 held 0\n\
        a>0>1 passed 0 dropped 0 refused 0 held 3\n\
        round 1\n\
        a>0 passed 2 dropped 0 refused 0 held 0\n\
        a>0>1 passed 5 dropped 0 refused 0 held 0\n\
        #0 {x=1}\n#1 {x=2}\n#2 {x=3}\n#3 {x=4}\n#4 {x=5}\n",
    },
    Row {
        name: "a terminal that is frozen in both rounds",
        formats: NARROW,
        stones: SPLIT,
        rounds: "{\"submit\":[3],\"frozen\":[1]},{\"submit\":[2],\"frozen\":[1]}",
        file: FIVE,
        report: "round 0\n\
        a>0 passed 3 dropped 0 refused 0 held 0\n\
        a>0>1 passed 0 dropped 0 refused 0 held 3\n\
        round 1\n\
        a>0 passed 2 dropped 0 refused 0 held 0\n\
        a>0>1 passed 0 dropped 0 refused 0 held 5\n",
    },
    Row {
        name: "a round in which nothing is submitted",
        formats: NARROW,
        stones: TERMINAL,
        rounds: "{\"submit\":[0],\"frozen\":[]},{\"submit\":[1],\"frozen\":[]}",
        file: FIVE,
        report: "round 0\n\
        a>0 passed 0 dropped 0 refused 0 held 0\n\
        round 1\n\
        a>0 passed 1 dropped 0 refused 0 held 0\n#0 {x=1}\n",
    },
];

// The most bytes of a report.
const ROOM: u32 = 100_000;

// What queues a document states: 64 places where it states none.
const QUEUES: [&str; 2] = ["", "\"queue\":1,"];

// A document of these parts.
fn document_of(
    alloc: Global,
    queue: &str,
    formats: &str,
    stones: &str,
    rounds: &str,
) -> Result<String, AllocError> {
    format!(in alloc; "{{{queue}{formats}{stones},\"rounds\":[{rounds}]}}")
}

// The report of a job that this world carries to its end.
fn finished(alloc: Global, job: &Job, mut world: World<'_>) -> Result<Vec<u8>, Fail>
    requires { world.lists.job ≡ job.now }
{
    world.finish().ok().ok_or("memory")?;
    let accounts = world.accounts();
    let mut sink = MemorySink::new(alloc, ROOM, ROOM, Vec::new(alloc))?;
    write_report(job, &accounts, &mut sink)
        .ok()
        .ok_or("a report")?;
    Ok(Vec::from_slice(alloc, sink.put())?)
}

// The report of a job.
fn report(alloc: Global, job: &Job) -> Result<Vec<u8>, Fail> {
    let world = World::new(alloc, job).ok().ok_or("a world")?;
    finished(alloc, job, world)
}

// The report of the job of a row, with this text on queues.
fn report_of(alloc: Global, row: &Row, queue: &str) -> Result<Vec<u8>, Fail> {
    let Row {
        formats,
        stones,
        rounds,
        file,
        ..
    } = row;
    let document = document_of(alloc, queue, formats, stones, rounds)?;
    let job = job_of_one(alloc, document.as_str(), file).ok_or("a job")?;
    report(alloc, &job)
}

#[test]
fn reports_of_worked_jobs(rt: HostRuntime) -> Result<(), Fail> {
    let alloc = rt.alloc();
    for row in &ROWS {
        for queue in QUEUES {
            let report = report_of(alloc, row, queue)?;
            assert_eq!(rt;
                (row.name, queue, report.as_slice()),
                (row.name, queue, row.report.as_bytes())
            );
        }
    }
    Ok(())
}
