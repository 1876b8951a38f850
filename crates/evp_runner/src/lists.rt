//! Lengths of arrays, and whether their elements have to be looked at.

ghost use Rattle.std.specs.Prelude.{◌≡◌, ◌≤◌, length};
ghost use Rattle.evp_plan.specs.Measuring.{has_other_count};
ghost use Rattle.evp_plan.specs.Quiet.{is_quiet, is_quiet_part};
ghost use Rattle.evp_runner.specs.StepIn.{image_in, inside, IsCountThere, IsInside};

use crate::measuring::Measure;
use crate::reading::count_of;
use evp_plan::{Elements, Part, Step};

// Whether the sender has an array of another length.
#[inline(always)]
pub(crate) fn has_other_count(measure: &Measure, at: usize, n: u128, elements: &Elements) -> bool
    requires at_inside { at ≤ length measure.now.sender.bytes.now }
    requires there { IsCountThere (image_in measure.now.sender) at elements.now.run }
    ensures { result ≡ has_other_count (image_in measure.now.sender) at n elements.now.run }
{
    match &elements.run {
        None => false,
        Some(run) => count_of(&measure.sender, at, run) != n,
    }
}

// Whether the records inside a step's field find nothing.
fn is_quiet_inside(measure: &Measure, step: &Step) -> bool
    requires { IsInside measure.now.plan.now step.now }
    ensures { result ≡ is_quiet (inside measure.now.plan.now step.now) }
{
    match step.inner {
        None => true,
        Some(number) => measure.plan.tests(number as usize).is_empty(),
    }
}

// Whether no element of a step's array can be refused or takes a block.
pub(crate) fn is_quiet(measure: &Measure, step: &Step, part: &Part) -> bool
    requires { IsInside measure.now.plan.now step.now }
    ensures { result ≡ is_quiet_part step.now.task.size part.now
        (is_quiet (inside measure.now.plan.now step.now)) }
{
    part.is_quiet(step.task.size, is_quiet_inside(measure, step))
}
