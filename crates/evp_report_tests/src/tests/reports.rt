ghost use Rattle.std.specs.Prelude.{◌≡◌, IfOk};
ghost use Rattle.evp_format.specs.Layout.{Layout};
ghost use Rattle.evp_report.specs.Samples.{idle, idle_with};
ghost use Rattle.evp_stone.specs.Parts.{job_of};
ghost use Rattle.evp_stone.specs.WholeAccounts.{AreAccounts};

use evp_action::Action;
use evp_base::Name;
use evp_depot::{MemorySink, PutFault};
use evp_format::{Format, read_description};
use evp_graph::{Graph, Numbers, Routes, routes};
use evp_report::write_report;
use evp_stone::{
    Account, Job, JobParts, Records, Round, RoundAccount, RouteAccount, Source, Stone, Submitted,
};
use std::alloc::Global;
use std::rt::HostRuntime;
use std::test::Fail;

// A number x of four bytes.
const NUMBER: &[u8] = b"NDF1\0\x04\0\x01\x01p\0\0\0\x04\0\x01\x01x\x07integer\0\0\0\x04\0\0\0\0";

// The report of a source without records, which leads to a terminal.
const IDLE: &str = "round 0\na>0 passed 0 dropped 0 refused 0 held 0\n";

// The parts of that job.
fn idle_parts(alloc: Global, format: Format, routes: Routes) -> Result<JobParts, Fail>
    ensures { IfOk result (λ parts. job_of parts ≡ idle_with format routes) }
{
    let Some(name) = Name::read(b"a") else {
        return Err("name".into());
    };
    let source = Source {
        name,
        stone: 0,
        items: Records::new(Vec::new(alloc)),
    };
    let stone = Stone {
        action: Action::Terminal { format: 0 },
        targets: Numbers::new(Vec::new(alloc)),
    };
    let round = Round {
        submit: Submitted::new(vec![in alloc; 0u32]?),
        frozen: Numbers::new(Vec::new(alloc)),
    };
    Ok(JobParts {
        formats: vec![in alloc; format]?,
        declared: 1,
        limit: 4096,
        queue: 64,
        sources: vec![in alloc; source]?,
        stones: vec![in alloc; stone]?,
        rounds: vec![in alloc; round]?,
        routes,
    })
}

// That job.
fn idle_job(alloc: Global) -> Result<Job, Fail>
    ensures { IfOk result (λ job. (layout : Layout) × (job ≡ idle layout)) }
{
    let Ok(format) = read_description(alloc, NUMBER) else {
        return Err("description".into());
    };
    let targets = vec![in alloc; Numbers::new(Vec::new(alloc))]?;
    let Ok(graph) = Graph::new(alloc, &[0], targets.as_slice()) else {
        return Err("graph".into());
    };
    let Ok(routes) = routes(alloc, &graph) else {
        return Err("routes".into());
    };
    Ok(Job::new(idle_parts(alloc, format, routes)?))
}

// The account of its stone.
fn idle_accounts(alloc: Global) -> Result<Vec<Account>, Fail>
    ensures { IfOk result (λ accounts. (layout : Layout)
        → AreAccounts (idle layout) accounts.items) }
{
    let round = RoundAccount {
        passed: 0,
        dropped: 0,
        refused: Vec::new(alloc),
        arrived: Vec::new(alloc),
        held: 0,
    };
    let route = RouteAccount {
        route: 0,
        rounds: vec![in alloc; round]?,
    };
    let account = Account {
        stone: 0,
        routes: vec![in alloc; route]?,
        builds: 0,
        starved: 0,
    };
    Ok(vec![in alloc; account]?)
}

// Writes its report to a sink that takes 20 bytes a call, and fails at these calls.
fn written(alloc: Global, failing: Vec<u32>) -> Result<(Result<(), PutFault>, MemorySink), Fail> {
    let job = idle_job(alloc)?;
    let accounts = idle_accounts(alloc)?;
    let mut sink = MemorySink::new(alloc, 256, 20, failing)?;
    let put = write_report(&job, accounts.as_slice(), &mut sink);
    Ok((put, sink))
}

#[test]
fn a_round_without_records_has_its_counts(rt: HostRuntime) -> Result<(), Fail> {
    let alloc = rt.alloc();
    let (put, sink) = written(alloc, Vec::new(alloc))?;
    assert_eq!(rt; put, Ok(()));
    assert_eq!(rt; sink.put(), IDLE.as_bytes());
    Ok(())
}

#[test]
fn a_sink_that_fails_has_a_front_of_the_report(rt: HostRuntime) -> Result<(), Fail> {
    let alloc = rt.alloc();
    for call in 0u32..3 {
        let (put, sink) = written(alloc, vec![in alloc; call]?)?;
        assert_eq!(rt; put, Err(PutFault::Failed));
        assert_eq!(rt; sink.put().len(), 20 * call as usize);
        assert!(rt; IDLE.as_bytes().starts_with(sink.put()));
    }
    Ok(())
}
