//! Jobs that were carried.
ghost use Rattle.std.specs.Prelude.{◌≡◌, ◌<◌, All, IfOk, length};
ghost use Rattle.evp_stone.specs.WholeAccounts.{AreAccounts};
ghost use Rattle.evp_stones.specs.Run.{actors_of};
ghost use Rattle.evp_stones.specs.Words.{AreWorkers};

use crate::bench::{Totals, job_totals};
use evp_base::Memory;
use evp_core::World;
use evp_crew::{Gate, NoWatch, Watch, carry_watched};
use evp_depot::{PutFault, Sink};
use evp_graph::Route;
use evp_report::{write_report, write_routes};
use evp_stone::{Account, Job};
use std::alloc::Global;
use std::marker::Model;
use std::sync::Wait;
use std::thread::Threads;

/// A job, with the accounts of its stones in their order.
#[derive(Drop)]
pub struct Carried {
    job: Job,
    accounts: Vec<Account>,
}

impl Model for Carried {
    ghost use Rattle.evp_stone.specs.JobShape.{JobShape};

    ghost Value = { JobShape };

    ghost use Rattle.std.specs.Coded.{codes};
    ghost use Rattle.evp_stone.specs.contracts.job.Job as the_jobs;

    ghost coded = { Prim.hlevel (codes, the_jobs.the_row.coded) };

    ghost view = { λ c. c.job };

    ghost use Rattle.evp_stone.specs.WholeAccounts.{AreAccounts};

    ghost invariant = { λ c. AreAccounts c.job c.accounts.items };
}

impl Carried {
    ghost use Rattle.evp_depot.specs.Put.{Puts};
    ghost use Rattle.std.specs.Prelude.{◌+◌, ◌^◌};
    ghost use Rattle.evp_report.specs.Report.{report, routes_lines, StandFrom};
    ghost use Rattle.evp_stones.specs.Totals.{totals_of};

    /// The job, carried by so many workers. The gate is called before each turn of a worker.
    pub fn by_workers<R: Threads + Wait + Sync, G: Gate + Sync>(
        rt: &R,
        alloc: Global,
        job: Job,
        workers: u32,
        gate: &G,
    ) -> Result<Carried, Memory>
        requires { AreWorkers workers }
        ensures { IfOk result (λ carried. carried ≡ job) }
    {
        Carried::watched(rt, alloc, job, workers, gate, &NoWatch)
    }

    /// The same. The watch looks at each actor behind the turns that a worker did with it.
    pub fn watched<R: Threads + Wait + Sync, G: Gate + Sync, W: Watch + Sync>(
        rt: &R,
        alloc: Global,
        job: Job,
        workers: u32,
        gate: &G,
        watch: &W,
    ) -> Result<Carried, Memory>
        requires workers { AreWorkers workers }
        requires watch { W.is_for watch.now job }
        ensures { IfOk result (λ carried. carried ≡ job) }
    {
        let accounts = accounts_by(rt, alloc, &job, workers, gate, watch)?;
        Ok(Carried { job, accounts })
    }

    /// The job on this thread, carried by these turns first and then by turns in rotation.
    pub fn by_turns(alloc: Global, job: Job, turns: &[u16]) -> Result<Carried, Memory>
        requires { All (λ actor. actor < actors_of job) turns.now }
        ensures { IfOk result (λ carried. carried ≡ job) }
    {
        let accounts = accounts_of(alloc, &job, turns)?;
        Ok(Carried { job, accounts })
    }

    /// How many routes the job has.
    pub fn routes(&self) -> usize
        ensures { result ≡ length self.now.routes }
    {
        self.job.parts().routes.as_slice().len()
    }

    /// What the accounts come to.
    pub fn totals(&self) -> Totals
        ensures { result ≡ totals_of self.now }
    {
        job_totals(&self.job, &self.accounts)
    }

    /// Writes the report of the job. It takes no memory.
    pub fn write<K: Sink>(&self, sink: &mut K) -> Result<(), PutFault>
        ensures { Puts K.faults K.put sink.old sink.new (report self.now) result }
    {
        write_report(&self.job, &self.accounts, sink)
    }

    /// How many rounds the job has.
    pub fn rounds(&self) -> usize
        ensures { result ≡ length self.now.rounds }
    {
        self.job.parts().rounds.as_slice().len()
    }

    /// The job's routes.
    pub fn all_routes(&self) -> &[Route]
        ensures { result.now ≡ self.now.routes }
    {
        self.job.parts().routes.as_slice()
    }

    /// Writes the lines that some routes have in a round; the routes are those of the job from
    /// number `from` on. It takes no memory.
    pub fn write_routes<K: Sink>(
        &self,
        round: usize,
        from: usize,
        routes: &[Route],
        sink: &mut K,
    ) -> Result<(), PutFault>
        requires stand { StandFrom self.now.routes from routes.now }
        requires few { from + length routes.now < 2 ^ 64 }
        ensures { Puts K.faults K.put sink.old sink.new
            (routes_lines self.now round routes.now) result }
    {
        write_routes(&self.job, &self.accounts, round, from, routes, sink)
    }
}

// The accounts of the job's stones, carried by so many workers.
fn accounts_by<R: Threads + Wait + Sync, G: Gate + Sync, W: Watch + Sync>(
    rt: &R,
    alloc: Global,
    job: &Job,
    workers: u32,
    gate: &G,
    watch: &W,
) -> Result<Vec<Account>, Memory>
    requires workers { AreWorkers workers }
    requires watch { W.is_for watch.now job.now }
    ensures { IfOk result (λ accounts. AreAccounts job.now accounts.items) }
{
    let carried = carry_watched(rt, alloc, job, workers, gate, watch)?;
    Ok(carried.accounts())
}

// The accounts of the job's stones, carried by these turns.
fn accounts_of(alloc: Global, job: &Job, turns: &[u16]) -> Result<Vec<Account>, Memory>
    requires { All (λ actor. actor < actors_of job.now) turns.now }
    ensures { IfOk result (λ accounts. AreAccounts job.now accounts.items) }
{
    let mut world = World::new(alloc, job)?;
    world.run(turns)?;
    world.finish()?;
    Ok(world.accounts())
}
