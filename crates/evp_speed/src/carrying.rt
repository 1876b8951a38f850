//! Jobs that a world carries from their first turn to their end.

ghost use Rattle.std.specs.Prelude.{◌≡◌, IfOk};
ghost use Rattle.evp_core.specs.Moving.{AreClosed};

use crate::workload::Workload;
use evp_base::Memory;
use evp_core::World;
use evp_depot::MemorySink;
use evp_report::write_report;
use evp_stone::{Account, Job};
use std::alloc::{AllocError, Global};

/// The most bytes of a report.
const ROOM: u32 = 1 << 20;

/// Makes a world and finishes it.
#[derive(Drop)]
pub struct Carrying {
    pub name: &'static str,
    pub alloc: Global,
    pub job: Job,
    pub records: usize,
    /// The lines of the report that name a round or a route, and the first line behind each that
    /// tells of a record.
    pub lines: Vec<String>,
}

impl Workload for Carrying {
    ghost use Rattle.std.specs.Prelude.{⊤};

    ghost ready = { λ _. ⊤ };

    fn name(&self) -> &'static str {
        self.name
    }

    fn records(&self) -> usize {
        self.records
    }

    fn pass(&self, _out: &mut [u8]) -> u64 {
        match finished(self.alloc, &self.job) {
            Ok(world) => world.done(),
            Err(Memory) => 0,
        }
    }

    fn compared(&self, alloc: Global, _out: &mut [u8]) -> Result<String, AllocError> {
        let report = match report(alloc, &self.job) {
            Ok(report) => report,
            Err(Memory) => return Err(AllocError),
        };
        let text = str::from_utf8(report.put()).unwrap_or("");
        let right = as_stated(text, &self.lines);
        let stated = self.lines.len();
        let all = text.lines().count();
        format!(in alloc; "{right} of {stated} lines of {all} are as stated")
    }
}

// The world of a job at its end.
fn finished(alloc: Global, job: &Job) -> Result<World<'_>, Memory>
    ensures job { IfOk result (λ world. world.lists.job ≡ job.now) }
    ensures closed { IfOk result AreClosed }
{
    let mut world = World::new(alloc, job)?;
    world.finish()?;
    Ok(world)
}

// The sink that has the report of a job.
fn report(alloc: Global, job: &Job) -> Result<MemorySink, Memory> {
    let accounts = finished(alloc, job)?.accounts();
    let mut sink = MemorySink::new(alloc, ROOM, ROOM, Vec::new(alloc))?;
    match write_report(job, &accounts, &mut sink) {
        Ok(()) => Ok(sink),
        Err(_) => Err(Memory),
    }
}

// How many of the lines stand where they are to.
fn as_stated(report: &str, lines: &[String]) -> usize {
    let mut right = 0usize;
    let mut begun = false;
    let mut stated = lines.iter();
    for line in report.lines() {
        let of_record = line.starts_with('#');
        if begun || !of_record {
            if stated
                .next()
                .is_some_and(|expected| expected.as_str() == line)
            {
                right = right.saturating_add(1);
            }
        }
        begun = !of_record;
    }
    right
}
