//! The texts of a report, made and hashed while its job is carried.
ghost use Rattle.std.specs.Prelude.{◌≡◌};
ghost use Rattle.sha2.specs.Sha256.{sha256};
ghost use Rattle.evp_report.specs.Report.{report};

use super::lines::Lines;
use super::pen::Pen;
use super::told::OfJob;
use crate::carried::Carried;
use crossbeam_utils::CachePadded;
use evp_base::Memory;
use evp_crew::Watch;
use evp_stone::{Actor, Job};
use std::alloc::Global;
use std::mem;
use std::sync::Mutex;

/// The texts of a report while its job is carried: whoever ends a round on a route makes the route's
/// lines, and a worker that has nothing else to do hashes those that come next.
#[derive(Drop)]
pub(super) struct Texts<J: OfJob> {
    alloc: Global,
    lines: Lines<J>,
    // Whoever hashes writes it, and all read what is above.
    pen: CachePadded<Mutex<Pen<J>>>,
}

impl<J: OfJob> Texts<J> {
    /// Nothing is told yet.
    pub(super) fn new(alloc: Global, job: &Job) -> Result<Texts<J>, Memory>
        requires { J.job ≡ job.now }
    {
        Ok(Texts {
            alloc,
            lines: Lines::new(alloc, job)?,
            pen: CachePadded::new(Mutex::new(Pen::new())),
        })
    }

    /// The SHA-256 of the report.
    pub(super) fn digest(self, carried: &Carried) -> [u8; 32]
        requires { J.job ≡ carried.now }
        ensures { result ≡ sha256 (report carried.now) }
    {
        let Texts { lines, pen, .. } = self;
        let mut pen = pen.into_inner().into_inner();
        let each = lines.routes().saturating_add(1);
        for _ in 0..lines.rounds().saturating_mul(each) {
            if !pen.go_on(&lines) {
                break;
            }
        }
        // The program ends soon, and then all memory goes back at once.
        mem::forget(lines);
        pen.digest(carried)
    }
}

impl<J: OfJob> Watch for Texts<J> {
    ghost is_for = { λ _ job. J.job ≡ job };

    /// Tells of the rounds that have ended.
    fn look(&self, job: &Job, actor: &Actor) {
        for place in 0..self.lines.routes() {
            let Some((route, ended)) = actor.ended(place) else {
                return;
            };
            self.lines.tell(self.alloc, job, usize::from(route), ended);
        }
    }

    /// Hashes what comes next, where no other worker does.
    fn rest(&self) {
        if let Some(mut pen) = self.pen.try_lock() {
            let _went = pen.go_on(&self.lines);
        }
    }
}
