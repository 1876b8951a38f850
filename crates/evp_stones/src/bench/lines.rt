//! The texts of a report that are told so far.
ghost use Rattle.std.specs.Prelude.{◌≡◌, length, IfOk, IfSome};
ghost use Rattle.evp_report.specs.Report.{lines_of};
ghost use Rattle.evp_stone.specs.Ended.{AreEnded};

use super::told::{OfJob, Told};
use evp_base::Memory;
use evp_stone::{Job, RoundAccount};
use once_cell::race::OnceBox;
use std::alloc::Global;

/// A cell for the text of each route in each round.
#[derive(Drop)]
pub(super) struct Lines<J: OfJob> {
    // Those of a route stand together.
    cells: Vec<OnceBox<Told<J>>>,
    routes: usize,
    rounds: usize,
    ghost routes_are: { routes ≡ length J.job.routes },
    ghost rounds_are: { rounds ≡ length J.job.rounds },
}

impl<J: OfJob> Lines<J> {
    /// Nothing is told yet.
    pub(super) fn new(alloc: Global, job: &Job) -> Result<Lines<J>, Memory>
        requires { J.job ≡ job.now }
    {
        let parts = job.parts();
        let routes = parts.routes.as_slice().len();
        let rounds = parts.rounds.as_slice().len();
        Ok(Lines {
            cells: empty_cells(alloc, routes.saturating_mul(rounds))?,
            routes,
            rounds,
        })
    }

    /// How many routes the job has.
    pub(super) fn routes(&self) -> usize
        ensures { result ≡ length J.job.routes }
    {
        self.routes
    }

    /// How many rounds the job has.
    pub(super) fn rounds(&self) -> usize
        ensures { result ≡ length J.job.rounds }
    {
        self.rounds
    }

    /// The lines of a route in a round, where they are told.
    pub(super) fn told(&self, route: usize, round: usize) -> Option<&[u8]>
        ensures { IfSome result (λ text. text.now ≡ lines_of J.job route round) }
    {
        self.cell(route, round)?.get()?.lines(route, round)
    }

    /// Tells of the rounds that have ended on a route, as far as they aren't told yet.
    pub(super) fn tell(&self, alloc: Global, job: &Job, route: usize, ended: &[RoundAccount])
        requires job { J.job ≡ job.now }
        requires ended { AreEnded job.now route ended.now }
    {
        for behind in 0..ended.len() {
            let round = ended.len() - 1 - behind;
            let Some(cell) = self.cell(route, round) else {
                return;
            };
            if cell.get().is_some() {
                return;
            }
            let Ok(told) = Told::new(alloc, job, route, ended, round) else {
                return;
            };
            if let Ok(told) = Box::new(alloc, told) {
                let _before = cell.set(told);
            }
        }
    }

    // The cell of a route in a round.
    fn cell(&self, route: usize, round: usize) -> Option<&OnceBox<Told<J>>> {
        let first = route.saturating_mul(self.rounds);
        self.cells.as_slice().get(first.saturating_add(round))
    }
}

// So many empty cells.
fn empty_cells<J: OfJob>(alloc: Global, count: usize) -> Result<Vec<OnceBox<Told<J>>>, Memory> {
    let mut cells = Vec::with_capacity(alloc, count)?;
    for _ in 0..count {
        cells.push(OnceBox::new(alloc))?;
    }
    Ok(cells)
}
