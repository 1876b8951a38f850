//! The text of one route in one round.
ghost use Rattle.std.specs.Prelude.{◌≡◌, ◌<◌, length, IfOk, IfSome};
ghost use Rattle.evp_report.specs.Report.{lines_of};
ghost use Rattle.evp_stone.specs.Ended.{AreEnded};
ghost use Rattle.evp_stone.specs.JobShape.{JobShape};

use super::kept_text::ended_text;
use evp_base::Memory;
use evp_stone::{Job, RoundAccount};
use std::alloc::Global;
use std::marker::{Brand, Model, PhantomData};

/// The job whose report is told. Each call of a program picks it.
pub(super) trait OfJob {
    ghost job: { JobShape };
}

impl OfJob for Brand {
    ghost use Rattle.evp_stones.specs.Told.{no_job};

    ghost job = { no_job };
}

/// The lines that a route has in a round.
#[derive(Drop)]
pub(super) struct Told<J: OfJob> {
    route: usize,
    round: usize,
    text: Vec<u8>,
    of: PhantomData<J>,
}

impl<J: OfJob> Model for Told<J> {
    ghost use Rattle.std.specs.Prelude.{◌≡◌, ℕ};
    ghost use Rattle.evp_report.specs.Report.{lines_of};

    ghost Value = { ℕ × ℕ };

    ghost view = { λ t. (t.route, t.round) };

    ghost invariant = { λ t. t.text.items ≡ lines_of J.job t.route t.round };
}

impl<J: OfJob> Told<J> {
    /// By the accounts of the rounds that the route's last stone has ended.
    pub(super) fn new(
        alloc: Global,
        job: &Job,
        route: usize,
        ended: &[RoundAccount],
        round: usize,
    ) -> Result<Told<J>, Memory>
        requires job { J.job ≡ job.now }
        requires ended { AreEnded job.now route ended.now }
        requires round { round < length ended.now }
        ensures { IfOk result (λ told. told ≡ (route, round)) }
    {
        let text = ended_text(alloc, job, route, ended, round)?;
        Ok(Told {
            route,
            round,
            text,
            of: PhantomData,
        })
    }

    /// The lines, where they are those of this route in this round.
    pub(super) fn lines(&self, route: usize, round: usize) -> Option<&[u8]>
        ensures { IfSome result (λ text. text.now ≡ lines_of J.job route round) }
    {
        if self.route != route || self.round != round {
            return None;
        }
        Some(self.text.as_slice())
    }
}
