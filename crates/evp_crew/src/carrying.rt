//! The carrying of a job: by workers, and where they leave something by the caller alone.
ghost use Rattle.std.specs.Prelude.{◌≡◌, ◌≤◌, length, IfOk, IfSome};
ghost use Rattle.evp_cache.specs.Known.{IsCacheOf};
ghost use Rattle.evp_crew.specs.Carried.{IsCarried};
ghost use Rattle.evp_crew.specs.Done.{WorksAt};
ghost use Rattle.evp_crew.specs.Gathering.{AllWork};
ghost use Rattle.evp_crew.specs.Rota.{three, AreServing};

use crate::alone::alone;
use crate::apart::each_in;
use crate::carried::Carried;
use crate::crew::Crew;
use crate::gate::Gate;
use crate::gathering::gathered;
use crate::seating::{Order, add, more_desks, rotas_of};
use crate::watch::{NoWatch, Watch};
use crate::worker::{Desk, Office, Worker};
use evp_base::Memory;
use evp_cache::PlanCache;
use evp_stone::Job;
use std::alloc::Global;
use std::sync::Wait;
use std::thread::Threads;

/// Carries a job by so many workers, 1 to 64, each in a thread where one can be made. The seats stand
/// in one rota, in which the next is the one that has stood there longest. The gate is called before
/// each turn of a worker.
pub fn carry<R: Threads + Wait + Sync, G: Gate + Sync>(
    rt: &R,
    alloc: Global,
    job: &Job,
    workers: u32,
    gate: &G,
) -> Result<Carried, Memory>
    requires { (1 ≤ workers) × (workers ≤ 64) }
    ensures { IfOk result (IsCarried job.now) }
{
    carry_in(Order::Queued, rt, alloc, job, workers, gate, &NoWatch)
}

/// The same with a rota for each seat: a worker chooses which it takes, so that records stay near it
/// (docs/DECISIONS.md). The watch looks at each actor behind the turns that a worker did with it.
/// Where the workers leave something and this thread carries the job anew, it isn't called.
pub fn carry_watched<R: Threads + Wait + Sync, G: Gate + Sync, W: Watch + Sync>(
    rt: &R,
    alloc: Global,
    job: &Job,
    workers: u32,
    gate: &G,
    watch: &W,
) -> Result<Carried, Memory>
    requires workers { (1 ≤ workers) × (workers ≤ 64) }
    requires watch { W.is_for watch.now job.now }
    ensures { IfOk result (IsCarried job.now) }
{
    carry_in(Order::Chosen, rt, alloc, job, workers, gate, watch)
}

// The same, by seats that stand in this order.
fn carry_in<R: Threads + Wait + Sync, G: Gate + Sync, W: Watch + Sync>(
    order: Order,
    rt: &R,
    alloc: Global,
    job: &Job,
    workers: u32,
    gate: &G,
    watch: &W,
) -> Result<Carried, Memory>
    requires workers { (1 ≤ workers) × (workers ≤ 64) }
    requires watch { W.is_for watch.now job.now }
    ensures { IfOk result (IsCarried job.now) }
{
    let parts = job.parts();
    let cache = PlanCache::new(alloc, parts.formats.as_slice(), parts.declared)?;
    match by_workers(order, rt, alloc, job, &cache, workers, gate, watch)? {
        Some(carried) => Ok(carried),
        None => alone(rt, alloc, job, &cache),
    }
}

// What so many workers carried, or none where they left a seat that isn't closed.
fn by_workers<R: Threads + Wait + Sync, G: Gate + Sync, W: Watch + Sync>(
    order: Order,
    rt: &R,
    alloc: Global,
    job: &Job,
    cache: &PlanCache,
    workers: u32,
    gate: &G,
    watch: &W,
) -> Result<Option<Carried>, Memory>
    requires watch { W.is_for watch.now job.now }
    requires cache { IsCacheOf cache.now job.now.formats }
    requires declared { cache.now.declared ≡ job.now.declared }
    requires some { 1 ≤ workers }
    ensures { IfOk result (λ found. IfSome found (IsCarried job.now)) }
{
    let (crew, seats) = Crew::new(rt, alloc, job, cache)?;
    let count = seats.len();
    let Some((rotas, mut desks)) = rotas_of(order, rt, alloc, job, cache, &crew, seats)? else {
        return Ok(None);
    };
    let office = Office {
        job,
        cache,
        crew: &crew,
        rotas: rotas.as_slice(),
        workers,
    };
    let mut all = hired(rt, alloc, &office, desks.as_mut_slice(), count)?;
    work_all(order, rt, &office, gate, watch, all.as_mut_slice());
    match gathered(alloc, count, all)? {
        Some(seats) => Ok(Some(Carried::new(alloc, job, cache, crew, seats)?)),
        None => Ok(None),
    }
}

// The workers of an office, each with room for so many seats.
fn hired<R: Wait>(
    rt: &R,
    alloc: Global,
    office: &Office<'_>,
    desks: &mut [Desk],
    count: usize,
) -> Result<Vec<Worker>, Memory>
    requires { AreServing (three office.now.job.now office.now.cache.now office.now.crew.now)
        office.now.rotas.now desks.old }
    ensures work { IfOk result (λ all. AllWork office.now.rotas.now
        (three office.now.job.now office.now.cache.now office.now.crew.now) all.items) }
    ensures each { IfOk result (λ all. length all.items ≡ office.now.workers) }
{
    let mut all = Vec::with_capacity(alloc, office.workers as usize)?;
    for number in 0..office.workers {
        let worker = Worker {
            number,
            desks: more_desks(rt, alloc, office, desks)?,
            closed: Vec::with_capacity(alloc, count)?,
        };
        add(&mut all, worker)?;
    }
    Ok(all)
}

// All workers work until they end, each in a thread where one can be made.
fn work_all<R: Threads + Wait + Sync, G: Gate + Sync, W: Watch + Sync>(
    order: Order,
    rt: &R,
    office: &Office<'_>,
    gate: &G,
    watch: &W,
    all: &mut [Worker],
)
    requires watch { W.is_for watch.now office.now.job.now }
    requires work { AllWork office.now.rotas.now
        (three office.now.job.now office.now.cache.now office.now.crew.now) all.old }
    ensures long { length all.new ≡ length all.old }
    ensures work { AllWork office.now.rotas.now
        (three office.now.job.now office.now.cache.now office.now.crew.now) all.new }
{
    each_in(
        order,
        rt,
        all,
        &|_, worker: &mut Worker|
            requires { W.is_for watch.now office.now.job.now
                × WorksAt office.now.rotas.now
                (three office.now.job.now office.now.cache.now office.now.crew.now) worker.now }
            ensures { WorksAt office.entry.now.rotas.now
                (three office.entry.now.job.now office.entry.now.cache.now
                office.entry.now.crew.now) worker.exit.now }
        { worker.work(rt, office, gate, watch) },
    );
}
