//! The law of rounds.
ghost use Rattle.evp_stone.specs.Laws.{RoundsBeginTheWhole};

use crate::job::Job;

/// What the last stone of a route acts on, over all rounds, begins what would come to it without
/// rounds. It is all of it where neither that stone keeps records of the route after the last round
/// nor one on the way to it.
pub fn rounds_begin_the_whole(job: &Job)
    ensures { RoundsBeginTheWhole job.now }
{
    let _kept = job.parts();
}
