//! Where a caller may look at actors while their job is carried.
ghost use Rattle.evp_stone.specs.JobShape.{JobShape};
ghost use Rattle.evp_crew.specs.Watched.{HasActedSo};

use evp_stone::{Actor, Job};

/// Looks at actors while their job is carried.
pub trait Watch {
    /// It is one for this job.
    ghost is_for: { Self → JobShape → Type 0 };

    /// Is called by a worker behind the turns that it did with an actor, before others may have it.
    fn look(&self, job: &Job, actor: &Actor)
        requires of { is_for self.now job.now }
        requires acted { HasActedSo job.now actor.now };

    /// Is called by a worker that has no actor, where the turns that it did last moved nothing or the
    /// seat that it tried wasn't there.
    fn rest(&self);
}

/// Looks at nothing.
#[derive(Clone, Copy, Debug)]
pub struct NoWatch;

impl Watch for NoWatch {
    ghost is_for = { λ _ _. Unit {0} };

    fn look(&self, _job: &Job, _actor: &Actor) {}

    fn rest(&self) {}
}
