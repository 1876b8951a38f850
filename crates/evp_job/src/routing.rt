//! The graph of a job, and its routes.

ghost use Rattle.std.specs.Prelude.{◌≡◌, ◌<◌, ◌^◌, All, length, map, IfOk};
ghost use Rattle.evp_job.specs.declared.sources.SourceText.{SourceText};
ghost use Rattle.evp_graph.specs.Routes.{ListsRoutes};
ghost use Rattle.evp_job.specs.Job.{graph_of_parts};
ghost use Rattle.evp_job.specs.JobView.{parts_of, Makes};
ghost use Rattle.evp_job.specs.Routing.{HasGraph, HasRoutes};
ghost use Rattle.evp_job.specs.Stated.{graph_of};
ghost use Rattle.evp_stone.specs.declared.stone.Stone.{Stone};

use crate::parts::Parts;
use crate::{JobFault, JobText, SourceText};
use evp_base::Memory;
use evp_graph::{Graph, GraphFault, Numbers, RouteFault, Routes, routes};
use evp_stone::Stone;
use std::alloc::Global;

/// The job of these parts.
pub(crate) fn routed(alloc: Global, parts: Parts) -> Result<JobText, JobFault>
    requires sources { length parts.head.sources.items < 2 ^ 16 }
    requires stones { length parts.stones.items < 2 ^ 16 }
    requires targets { All (λ (stone : Stone). length stone.targets < 2 ^ 16) parts.stones.items }
    ensures made { Makes (parts_of parts) result }
    ensures listed { IfOk result
        (λ text. ListsRoutes (graph_of_parts (parts_of parts)) text.routes) }
{
    let routes = all_routes(alloc, &parts)?;
    let Parts {
        head,
        stones,
        rounds,
    } = parts;
    Ok(JobText {
        limit: head.limit,
        queue: head.queue,
        names: head.names,
        formats: head.formats,
        sources: head.sources,
        stones,
        rounds,
        routes,
    })
}

// The routes of these parts.
fn all_routes(alloc: Global, parts: &Parts) -> Result<Routes, JobFault>
    requires sources { length parts.now.head.sources.items < 2 ^ 16 }
    requires stones { length parts.now.stones.items < 2 ^ 16 }
    requires targets { All (λ (stone : Stone). length stone.targets < 2 ^ 16)
        parts.now.stones.items }
    ensures { HasRoutes (graph_of parts.now.head.sources.items parts.now.stones.items) result }
{
    let graph = graph(alloc, &parts.head.sources, &parts.stones)?;
    match routes(alloc, &graph) {
        Ok(routes) => Ok(routes),
        Err(RouteFault::TooMany) => Err(JobFault::Routes),
        Err(RouteFault::Memory) => Err(JobFault::Memory),
    }
}

// The graph of these sources and stones.
fn graph(alloc: Global, sources: &[SourceText], stones: &[Stone]) -> Result<Graph, JobFault>
    requires sources { length sources.now < 2 ^ 16 }
    requires stones { length stones.now < 2 ^ 16 }
    requires targets { All (λ (stone : Stone). length stone.targets < 2 ^ 16) stones.now }
    ensures { HasGraph (graph_of sources.now stones.now) result }
{
    let first = first_stones(alloc, sources)?;
    let targets = all_targets(alloc, stones)?;
    match Graph::new(alloc, &first, &targets) {
        Ok(graph) => Ok(graph),
        Err(GraphFault::Memory) => Err(JobFault::Memory),
        Err(fault) => Err(JobFault::Graph(fault)),
    }
}

// The stone of each source.
fn first_stones(alloc: Global, sources: &[SourceText]) -> Result<Vec<u16>, Memory>
    ensures { IfOk result (λ first. first.items ≡ map (λ source. source.stone) sources.now) }
{
    let mut first = Vec::with_capacity(alloc, sources.len())?;
    for source in sources {
        first.push(source.stone)?;
    }
    Ok(first)
}

// The targets of each stone, which are few.
fn all_targets(alloc: Global, stones: &[Stone]) -> Result<Vec<Numbers>, Memory>
    requires { All (λ (stone : Stone). length stone.targets < 2 ^ 16) stones.now }
    ensures value { IfOk result
        (λ targets. targets.items ≡ map (λ stone. stone.targets) stones.now) }
    ensures few { IfOk result (λ targets. All (λ row. length row < 2 ^ 16) targets.items) }
{
    let targets = copied_targets(alloc, stones)?;
    Ok(targets)
}

fn copied_targets(alloc: Global, stones: &[Stone]) -> Result<Vec<Numbers>, Memory>
    ensures { IfOk result (λ targets. targets.items ≡ map (λ stone. stone.targets) stones.now) }
{
    let mut targets = Vec::with_capacity(alloc, stones.len())?;
    for stone in stones {
        let row = stone.targets.copy(alloc)?;
        targets.push(row)?;
    }
    Ok(targets)
}
