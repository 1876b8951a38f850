//! Laws of the definitions, for every value: calls without a body.
ghost use Rattle.evp_stones.specs.Laws.{OneReport};

/// The report of a job is one and the same, however the job that its document states is kept; and
/// so is the answer to a walk.
pub fn one_report()
    ensures { OneReport }
{}
