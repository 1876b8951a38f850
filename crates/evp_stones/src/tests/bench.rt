//! The line `bench N W`.

use crate::{OpenGate, stones};
use evp_depot::{MemoryDepot, MemorySink};
use std::alloc::Global;
use std::collections::BTreeMap;
use std::sync::Wait;
use std::test::Fail;
use std::thread::Threads;

// The line for one record of each source: the totals as they were worked out by hand, and the
// digest that two independent programs found.
const OF_ONE: &[u8] = b"bench 1 routes 56 passed 29 dropped 1 refused 6 held 1\n\
    digest 3579fb832a4cd5be0aae6bfd94a9e7e846dc29c23da532c8e1c0b9b605266b9d\n";

// Words, the status, and what is put.
const LINES: [([&str; 3], u8, &[u8]); 6] = [
    (["bench", "1", "3"], 0, OF_ONE),
    (["bench", "1", "8"], 0, OF_ONE),
    (["bench", "0", "1"], 1, b"stones: words\n"),
    (["bench", "20001", "1"], 1, b"stones: words\n"),
    (["bench", "1", "65"], 1, b"stones: words\n"),
    (["bench", "1", "0"], 1, b"stones: words\n"),
];

// Does the line over a depot that holds nothing, and answers the status.
fn bench<R: Threads + Wait + Sync>(
    rt: &R,
    alloc: Global,
    words: &[&str],
    sink: &mut MemorySink,
) -> Result<u8, Fail> {
    let mut owned = Vec::new(alloc);
    for word in words {
        owned.push(String::from_str(alloc, word)?)?;
    }
    let mut depot = MemoryDepot::new(BTreeMap::new(alloc), Vec::new(alloc));
    Ok(stones(rt, alloc, &owned, &mut depot, sink, &OpenGate))
}

#[test]
fn bench_lines(rt: HostRuntime) -> Result<(), Fail> {
    let alloc = rt.alloc();
    for (words, status, text) in &LINES {
        let mut sink = MemorySink::new(alloc, 200, 64, Vec::new(alloc))?;
        assert_eq!(rt; bench(&rt, alloc, words, &mut sink)?, *status);
        assert_eq!(rt; sink.put(), *text);
    }
    Ok(())
}

#[test]
fn any_number_of_workers_writes_the_same(rt: HostRuntime) -> Result<(), Fail> {
    let alloc = rt.alloc();
    let mut one = MemorySink::new(alloc, 200, 64, Vec::new(alloc))?;
    let mut eight = MemorySink::new(alloc, 200, 64, Vec::new(alloc))?;
    assert_eq!(rt; bench(&rt, alloc, &["bench", "500", "1"], &mut one)?, 0);
    assert_eq!(rt; bench(&rt, alloc, &["bench", "500", "8"], &mut eight)?, 0);
    assert_eq!(rt; one.put(), eight.put());
    Ok(())
}

#[test]
fn a_line_that_cannot_be_written(rt: HostRuntime) -> Result<(), Fail> {
    let alloc = rt.alloc();
    let mut sink = MemorySink::new(alloc, 200, 64, vec![in alloc; 0]?)?;
    assert_eq!(rt; bench(&rt, alloc, &["bench", "1", "1"], &mut sink)?, 8);
    assert!(rt; sink.put().is_empty());
    Ok(())
}
