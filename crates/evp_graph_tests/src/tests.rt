//! Graphs by hand, and what is said of them.

use evp_graph::{Graph, GraphFault, Numbers, RouteFault, Routes, routes};
use std::alloc::Global;
use std::fmt::Write;
use std::test::Fail;

/// A name, the sources' stones, the stones' targets, and what comes of them: the fault, or a line
/// for each route, of its source, its positions and its stones.
const TOLD: [(&str, &[u16], &[&[u16]], &str); 11] = [
    ("nothing", &[], &[], ""),
    (
        "diamond",
        &[0],
        &[&[1, 2], &[3], &[3], &[]],
        "0 [] [0]\n0 [0] [0, 1]\n0 [0, 0] [0, 1, 3]\n0 [1] [0, 2]\n0 [1, 0] [0, 2, 3]\n",
    ),
    (
        "one stone twice",
        &[0],
        &[&[1, 1], &[]],
        "0 [] [0]\n0 [0] [0, 1]\n0 [1] [0, 1]\n",
    ),
    (
        "two sources",
        &[1, 0],
        &[&[1], &[]],
        "0 [] [1]\n1 [] [0]\n1 [0] [0, 1]\n",
    ),
    (
        "a stone that no route reaches",
        &[0],
        &[&[1], &[], &[1]],
        "0 [] [0]\n0 [0] [0, 1]\n",
    ),
    (
        "a cycle apart",
        &[0],
        &[&[1], &[], &[4], &[], &[2]],
        "cycle 2 4",
    ),
    ("a stone that is its own target", &[], &[&[0]], "cycle 0"),
    (
        "a cycle met at its greatest stone",
        &[0],
        &[&[3], &[2], &[3], &[1]],
        "cycle 1 2 3",
    ),
    (
        "a source without a stone",
        &[0, 2, 3],
        &[&[7], &[1]],
        "no stone of source 1",
    ),
    (
        "a target that is no stone",
        &[0],
        &[&[0], &[1, 2, 9]],
        "no target 1 of stone 1",
    ),
    (
        "a target one past the last",
        &[1],
        &[&[1, 2], &[]],
        "no target 1 of stone 0",
    ),
];

fn targets_of(alloc: Global, rows: &[&[u16]]) -> Result<Vec<Numbers>, Fail> {
    let mut targets = Vec::new(alloc);
    for row in rows {
        targets.push(Numbers::new(Vec::from_slice(alloc, row)?))?;
    }
    Ok(targets)
}

fn graph(
    alloc: Global,
    sources: &[u16],
    targets: &[Numbers],
) -> Result<Result<Graph, GraphFault>, Fail> {
    let long = targets.iter().any(|row| row.as_slice().len() > 65535);
    if long || sources.len() > 65535 || targets.len() > 65535 {
        return Err("too long")?;
    }
    Ok(Graph::new(alloc, sources, targets))
}

fn routes_told(alloc: Global, routes: &Routes) -> Result<String, Fail> {
    let mut text = String::new(alloc);
    for route in routes.as_slice() {
        let positions = route.positions.as_slice();
        let stones = route.stones.as_slice();
        writeln!(text, "{} {positions:?} {stones:?}", route.source)?;
    }
    Ok(text)
}

fn told(alloc: Global, sources: &[u16], rows: &[&[u16]]) -> Result<String, Fail> {
    let targets = targets_of(alloc, rows)?;
    match graph(alloc, sources, targets.as_slice())? {
        Err(fault) => Ok(format!(in alloc; "{fault}")?),
        Ok(graph) => routes_told(alloc, &routes(alloc, &graph)?),
    }
}

#[test]
fn graphs_and_routes(rt: HostRuntime) -> Result<(), Fail> {
    for (name, sources, rows, want) in TOLD {
        let text = told(rt.alloc(), sources, rows)?;
        assert_eq!(rt; text.as_str(), want, "{name}");
    }
    Ok(())
}

#[test]
fn one_of_two_cycles(rt: HostRuntime) -> Result<(), Fail> {
    let text = told(rt.alloc(), &[], &[&[1], &[0], &[3], &[2]])?;
    assert!(rt; text.as_str() == "cycle 0 1" || text.as_str() == "cycle 2 3");
    Ok(())
}

/// The number of routes, or `None` where there are too many, of one source and a chain of stones,
/// each of which but the last names the next one so many times.
fn chain_routes(alloc: Global, links: u16, times: usize) -> Result<Option<usize>, Fail> {
    let mut targets = Vec::new(alloc);
    for stone in 0..links {
        targets.push(Numbers::new(vec![in alloc; stone + 1; times]?))?;
    }
    targets.push(Numbers::new(Vec::new(alloc)))?;
    let graph = graph(alloc, &[0], targets.as_slice())??;
    match routes(alloc, &graph) {
        Ok(list) => Ok(Some(list.as_slice().len())),
        Err(RouteFault::TooMany) => Ok(None),
        Err(RouteFault::Memory) => Err("memory")?,
    }
}

#[test]
fn at_most_1024_routes(rt: HostRuntime) -> Result<(), Fail> {
    for (links, times, want) in [
        (9, 2, Some(1023)),
        (10, 2, None),
        (1023, 1, Some(1024)),
        (1024, 1, None),
        (65534, 1, None),
        (1, 65535, None),
    ] {
        assert_eq!(rt;
            chain_routes(rt.alloc(), links, times)?,
            want,
            "{links} {times}"
        );
    }
    Ok(())
}

#[test]
fn texts_of_faults(rt: HostRuntime) -> Result<(), Fail> {
    let alloc = rt.alloc();
    let cycle = GraphFault::Cycle(Numbers::new(vec![in alloc; 3u16, 10, 7]?));
    for (fault, text) in [
        (GraphFault::NoTarget(3, 0), "no target 0 of stone 3"),
        (cycle, "cycle 3 10 7"),
        (GraphFault::NoStone(12), "no stone of source 12"),
        (GraphFault::Memory, "memory"),
    ] {
        assert_eq!(rt; fault.to_string(alloc)?.as_str(), text);
    }
    for (fault, text) in [
        (RouteFault::TooMany, "too many routes"),
        (RouteFault::Memory, "memory"),
    ] {
        assert_eq!(rt; fault.to_string(alloc)?.as_str(), text);
    }
    Ok(())
}

#[test]
fn numbers_and_routes_are_given_back(rt: HostRuntime) -> Result<(), Fail> {
    let alloc = rt.alloc();
    let numbers = Numbers::new(vec![in alloc; 5u16, 6]?);
    let longer = numbers.copy(alloc)?.with(alloc, 7)?.into_vec();
    assert_eq!(rt; longer.as_slice(), [5, 6, 7].as_slice());
    let targets = targets_of(alloc, &[&[1], &[]])?;
    let graph = graph(alloc, &[0], targets.as_slice())??;
    assert_eq!(rt; graph.sources(), [0].as_slice());
    assert_eq!(rt; graph.targets().len(), 2);
    let list = routes(alloc, &graph)?.into_vec();
    assert_eq!(rt; list.len(), 2);
    Ok(())
}
