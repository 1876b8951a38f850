//! A job that is carried to its end: three machines send 500 readings each to a filter, a
//! transform and a router, and five terminals receive what comes of them.

use crate::carrying::Carrying;
use crate::jobs::job_of;
use crate::record_bytes::{align, push_ordered, push_text};
use crate::record_files::file_of;
use anyhow::Result;
use evp_base::Order;
use std::alloc::{AllocError, Global};

/// The readings of each machine.
const READINGS: u64 = 500;

const DOCUMENT: &str = "{\"formats\":[\
    {\"name\":\"rec\",\"profile\":\"le64\",\"types\":[{\"name\":\"rec\",\"fields\":[\
    [\"id\",\"unsigned integer\",8],[\"name\",\"string\"],[\"n\",\"integer\",8],\
    [\"v\",\"integer[n]\",4]]}]},\
    {\"name\":\"sum\",\"profile\":\"be64\",\"types\":[{\"name\":\"sum\",\"fields\":[\
    [\"id\",\"unsigned integer\",8],[\"total\",\"integer\",8]]}]},\
    {\"name\":\"low\",\"profile\":\"le32\",\"types\":[{\"name\":\"low\",\"fields\":[\
    [\"id\",\"unsigned integer\",2],[\"total\",\"unsigned integer\",1]]}]}],\
    \"sources\":[{\"name\":\"a\",\"file\":\"a.ndr\",\"stone\":0},\
    {\"name\":\"b\",\"file\":\"b.ndr\",\"stone\":1},\
    {\"name\":\"c\",\"file\":\"c.ndr\",\"stone\":2}],\
    \"stones\":[{\"kind\":\"split\",\"targets\":[3,4]},{\"kind\":\"split\",\"targets\":[3,4]},\
    {\"kind\":\"split\",\"targets\":[3,4]},\
    {\"kind\":\"filter\",\"format\":\"rec\",\"expr\":\"same(name,\\\"ok\\\")\",\"target\":5},\
    {\"kind\":\"transform\",\"format\":\"rec\",\"into\":\"sum\",\
    \"set\":[[\"total\",\"n*100+id\"]],\"target\":6},\
    {\"kind\":\"router\",\"format\":\"rec\",\"expr\":\"n\",\"targets\":[7,8,9]},\
    {\"kind\":\"split\",\"targets\":[10,11]},{\"kind\":\"terminal\",\"format\":\"rec\"},\
    {\"kind\":\"terminal\",\"format\":\"rec\"},{\"kind\":\"terminal\",\"format\":\"rec\"},\
    {\"kind\":\"terminal\",\"format\":\"sum\"},{\"kind\":\"terminal\",\"format\":\"low\"}],\
    \"rounds\":[{\"submit\":[500,500,500],\"frozen\":[]}]}";

/// What a source's format declares behind its profile.
const READING: &str = "t{id unsigned integer 4, name string, n integer 4, v integer[n] 2}";

/// The sources' names with their first stones, which their routes begin with.
const SOURCES: [&str; 3] = ["a>0", "b>1", "c>2"];

/// What the report says of a source's routes: the stones behind the first, the counts, and the
/// first line of a record.
const ROUTES: [(&str, &str, &str); 10] = [
    ("", "passed 500 dropped 0 refused 0 held 0", ""),
    (">3", "passed 250 dropped 250 refused 0 held 0", ""),
    (">3>5", "passed 250 dropped 0 refused 0 held 0", ""),
    (
        ">3>5>7",
        "passed 84 dropped 0 refused 0 held 0",
        "#0 {id=0,name=\"ok\",n=0,v=[]}",
    ),
    (
        ">3>5>8",
        "passed 83 dropped 0 refused 0 held 0",
        "#4 {id=4,name=\"ok\",n=1,v=[1]}",
    ),
    (
        ">3>5>9",
        "passed 83 dropped 0 refused 0 held 0",
        "#2 {id=2,name=\"ok\",n=2,v=[1,2]}",
    ),
    (">4", "passed 500 dropped 0 refused 0 held 0", ""),
    (">4>6", "passed 500 dropped 0 refused 0 held 0", ""),
    (
        ">4>6>10",
        "passed 500 dropped 0 refused 0 held 0",
        "#0 {id=0,total=0}",
    ),
    (
        ">4>6>11",
        "passed 156 dropped 0 refused 344 held 0",
        "#56 unfit total",
    ),
];

/// A machine: its profile, its order of bytes, and the bytes of its pointers.
struct Machine {
    profile: &'static str,
    order: Order,
    pointer: usize,
}

const MACHINES: [Machine; 3] = [
    Machine {
        profile: "le32",
        order: Order::Little,
        pointer: 4,
    },
    Machine {
        profile: "be32",
        order: Order::Big,
        pointer: 4,
    },
    Machine {
        profile: "le64",
        order: Order::Little,
        pointer: 8,
    },
];

/// The job with its lines.
pub fn monitoring(alloc: Global) -> Result<Carrying> {
    let mut files = Vec::with_capacity(alloc, 3)?;
    for machine in &MACHINES {
        files.push(file(alloc, machine)?)?;
    }
    Ok(Carrying {
        name: "finish_monitoring",
        alloc,
        job: job_of(alloc, DOCUMENT, &files)?,
        records: 1_500,
        lines: lines(alloc)?,
    })
}

// The machine's file.
fn file(alloc: Global, machine: &Machine) -> Result<Vec<u8>> {
    let mut readings = Vec::with_capacity(alloc, READINGS as usize)?;
    for id in 0..READINGS {
        readings.push(reading(alloc, machine, id)?)?;
    }
    let format = format!(in alloc; "{} {READING}", machine.profile)?;
    file_of(alloc, format.as_str(), &readings)
}

// A reading of the machine: `ok` and `bad` by turns, and none to two numbers by turns. The parts
// of its head have a pointer's room each.
fn reading(alloc: Global, machine: &Machine, id: u64) -> Result<Vec<u8>, AllocError> {
    let Machine { order, pointer, .. } = *machine;
    let count = id % 3;
    let name = if id % 2 == 0 { "ok" } else { "bad" };
    let text: u64 = if pointer == 4 { 16 } else { 32 };
    let list: u64 = if count == 0 { 0 } else { text + 8 };
    let mut bytes = Vec::with_capacity(alloc, 48)?;
    push_ordered(&mut bytes, order, 4, id)?;
    push_ordered(&mut bytes, order, pointer, text)?;
    push_ordered(&mut bytes, order, 4, count)?;
    push_ordered(&mut bytes, order, pointer, list)?;
    push_text(&mut bytes, name.as_bytes())?;
    if count > 0 {
        align(&mut bytes)?;
    }
    for k in 0..count {
        push_ordered(&mut bytes, order, 2, k + 1)?;
    }
    Ok(bytes)
}

// The lines of the report that name the round or a route, and the first of a record behind each.
fn lines(alloc: Global) -> Result<Vec<String>, AllocError> {
    let mut lines = Vec::with_capacity(alloc, 46)?;
    lines.push(String::from_str(alloc, "round 0")?)?;
    for source in SOURCES {
        push_routes(alloc, &mut lines, source)?;
    }
    Ok(lines)
}

// The lines of a source's routes.
fn push_routes(alloc: Global, lines: &mut Vec<String>, source: &str) -> Result<(), AllocError> {
    for (stones, counts, first) in ROUTES {
        lines.push(format!(in alloc; "{source}{stones} {counts}")?)?;
        if !first.is_empty() {
            lines.push(String::from_str(alloc, first)?)?;
        }
    }
    Ok(())
}
