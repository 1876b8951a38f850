//! A monitoring job: three machines send 500 readings each to a filter, a transform and a router,
//! and five terminals receive what comes of them, on 30 routes. Whoever carries it, the bytes are
//! the whole report.

mod machines;
mod meeting;
mod report;

use super::owned;
use crate::carried::Carried;
use crate::whole_job::whole_job;
use crate::{Gate, OpenGate, stones};
use evp_depot::{MemoryDepot, MemorySink};
use machines::files;
use meeting::Meeting;
use report::expected;
use std::alloc::{AllocError, Global};
use std::collections::BTreeMap;
use std::sync::Wait;
use std::test::Fail;
use std::thread::Threads;

const FORMATS: &str = "\"formats\":[\
    {\"name\":\"rec\",\"profile\":\"le64\",\"types\":[{\"name\":\"rec\",\"fields\":[\
    [\"id\",\"unsigned integer\",8],[\"name\",\"string\"],[\"n\",\"integer\",8],\
    [\"v\",\"integer[n]\",4]]}]},\
    {\"name\":\"sum\",\"profile\":\"be64\",\"types\":[{\"name\":\"sum\",\"fields\":[\
    [\"id\",\"unsigned integer\",8],[\"total\",\"integer\",8]]}]},\
    {\"name\":\"low\",\"profile\":\"le32\",\"types\":[{\"name\":\"low\",\"fields\":[\
    [\"id\",\"unsigned integer\",2],[\"total\",\"unsigned integer\",1]]}]}],\
    \"sources\":[{\"name\":\"a\",\"file\":\"a.ndr\",\"stone\":0},\
    {\"name\":\"b\",\"file\":\"b.ndr\",\"stone\":1},\
    {\"name\":\"c\",\"file\":\"c.ndr\",\"stone\":2}],\"stones\":";

const STONES: &str = "[{\"kind\":\"split\",\"targets\":[3,4]},\
    {\"kind\":\"split\",\"targets\":[3,4]},{\"kind\":\"split\",\"targets\":[3,4]},\
    {\"kind\":\"filter\",\"format\":\"rec\",\"expr\":\"same(name,\\\"ok\\\")\",\"target\":5},\
    {\"kind\":\"transform\",\"format\":\"rec\",\"into\":\"sum\",\
    \"set\":[[\"total\",\"n*100+id\"]],\"target\":6},\
    {\"kind\":\"router\",\"format\":\"rec\",\"expr\":\"n\",\"targets\":[7,8,9]},\
    {\"kind\":\"split\",\"targets\":[10,11]},{\"kind\":\"terminal\",\"format\":\"rec\"},\
    {\"kind\":\"terminal\",\"format\":\"rec\"},{\"kind\":\"terminal\",\"format\":\"rec\"},\
    {\"kind\":\"terminal\",\"format\":\"sum\"},{\"kind\":\"terminal\",\"format\":\"low\"}]";

const ROUNDS: &str = "{\"submit\":[500,500,500],\"frozen\":[]}";

// What queues the document states: 64 places where it states none.
const QUEUES: [&str; 2] = ["", "\"queue\":1,"];

// The most bytes of the report.
const ROOM: u32 = 100_000;

// Files that list 3,000 turns of the 15 actors: their names, for how many turns an actor goes on, and
// how far the next one stands from it, round all of them.
const ORDERS: [(&str, u32, u32); 3] = [
    ("back.txt", 1, 14),
    ("sevens.txt", 1, 7),
    ("runs.txt", 200, 2),
];

const LINES: [[&str; 3]; 7] = [
    ["run", "j.json", "1"],
    ["run", "j.json", "2"],
    ["run", "j.json", "8"],
    ["walk", "j.json", "none.txt"],
    ["walk", "j.json", "back.txt"],
    ["walk", "j.json", "sevens.txt"],
    ["walk", "j.json", "runs.txt"],
];

// A file that lists turns.
fn order(alloc: Global, long: u32, step: u32) -> Result<Vec<u8>, AllocError> {
    let mut order = Vec::new(alloc);
    for turn in 0..3_000u32 {
        let actor = (turn / long.max(1)).wrapping_mul(step) % 15;
        order.extend_from_slice(format!(in alloc; "{actor}\n")?.as_bytes())?;
    }
    Ok(order)
}

// A depot that holds the document with this text on queues, the machines' files, and the orders.
fn depot(alloc: Global, queue: &str) -> Result<MemoryDepot, Fail> {
    let document = format!(in alloc; "{{{queue}{FORMATS}{STONES},\"rounds\":[{ROUNDS}]}}")?;
    let mut held = BTreeMap::new(alloc);
    held.insert(String::from_str(alloc, "j.json")?, document.into_bytes())?;
    for (file, name) in files(alloc)?.into_iter().zip(["a.ndr", "b.ndr", "c.ndr"]) {
        held.insert(String::from_str(alloc, name)?, file)?;
    }
    held.insert(String::from_str(alloc, "none.txt")?, Vec::new(alloc))?;
    for (name, long, step) in ORDERS {
        held.insert(String::from_str(alloc, name)?, order(alloc, long, step)?)?;
    }
    Ok(MemoryDepot::new(held, Vec::new(alloc)))
}

// Whether the line is done and gives the whole report.
fn reports<R: Threads + Wait + Sync, G: Gate + Sync>(
    rt: &R,
    alloc: Global,
    line: &[&str],
    depot: &mut MemoryDepot,
    gate: &G,
) -> Result<bool, Fail> {
    let words = owned(alloc, line)?;
    let mut sink = MemorySink::new(alloc, ROOM, 4_096, Vec::new(alloc))?;
    let status = stones(rt, alloc, &words, depot, &mut sink, gate);
    Ok(status == 0 && sink.put() == expected(alloc)?.as_bytes())
}

// The report of the depot's job, which a world carries to its end.
fn report_by_turns(alloc: Global, depot: &mut MemoryDepot) -> Result<Vec<u8>, Fail> {
    let job = whole_job(alloc, depot, "j.json").ok().ok_or("a job")?;
    let carried = Carried::by_turns(alloc, job, &[]).ok().ok_or("memory")?;
    let mut sink = MemorySink::new(alloc, ROOM, ROOM, Vec::new(alloc))?;
    carried.write(&mut sink).ok().ok_or("a report")?;
    Ok(Vec::from_slice(alloc, sink.put())?)
}

#[test]
fn a_world_comes_to_the_report(rt: HostRuntime) -> Result<(), Fail> {
    let alloc = rt.alloc();
    for queue in QUEUES {
        let report = report_by_turns(alloc, &mut depot(alloc, queue)?)?;
        assert!(rt;
            report.as_slice() == expected(alloc)?.as_bytes(),
            "with {queue}"
        );
    }
    Ok(())
}

#[test]
fn each_line_gives_the_report(rt: HostRuntime) -> Result<(), Fail> {
    let alloc = rt.alloc();
    for queue in QUEUES {
        let mut depot = depot(alloc, queue)?;
        for line in &LINES {
            let [kind, _, how] = *line;
            assert!(rt;
                reports(&rt, alloc, line, &mut depot, &OpenGate)?,
                "{kind} {how} with {queue}"
            );
        }
    }
    Ok(())
}

#[test]
fn two_workers_meet_and_give_the_report(rt: HostRuntime) -> Result<(), Fail> {
    let alloc = rt.alloc();
    let gate = Meeting::new();
    let mut depot = depot(alloc, QUEUES[0])?;
    assert!(rt; reports(&rt, alloc, &["run", "j.json", "2"], &mut depot, &gate)?);
    assert!(rt; gate.took_place());
    Ok(())
}
