//! Tests of the single numbers of a record.

ghost use Rattle.std.specs.Prelude.{◌≡◌, ◌≤◌, ℕ, length, Some, slice_get};
ghost use Rattle.evp_plan.specs.declared.step.Step.{Step};
ghost use Rattle.evp_plan.specs.Measuring.{tested};
ghost use Rattle.evp_plan.specs.Program.{program_of, programs};
ghost use Rattle.evp_runner.specs.Outcome.{verdict, step_verdict};
ghost use Rattle.evp_runner.specs.StepIn.{image_in, CanStep};

use crate::ConvertFault;
use crate::measuring::Measure;
use crate::reading::number_from;
use evp_base::fits;
use evp_format::{Place, PlaceStep};
use evp_plan::{Op, Step};

// Whether the step's number fits, if it makes a single number.
fn test_step(measure: &Measure, step: &Step, at: usize, place: &Place) -> Result<(), ConvertFault>
    requires at_inside { at ≤ length measure.now.sender.bytes.now }
    requires can { CanStep measure.now.plan.now (image_in measure.now.sender) step.now at
        (length place.now) }
    ensures { result ≡ step_verdict (image_in measure.now.sender) at step.now place.now }
{
    if let Op::Number(kind, origin) = &step.task.op {
        let number = number_from(&measure.sender, at, origin);
        if !fits(*kind, step.task.size, number) {
            return Err(ConvertFault::Unfit(place.with(PlaceStep::At(step.task.field))));
        }
    }
    Ok(())
}

// Whether the single numbers of the receiver's record fit, in the order of the fields.
pub(crate) fn test_numbers(
    measure: &Measure,
    steps: &[Step],
    at: usize,
    place: &Place,
) -> Result<(), ConvertFault>
    requires at_inside { at ≤ length measure.now.sender.bytes.now }
    requires can { (k : ℕ) (step : Step) → slice_get steps.now k ≡ Some step
        → CanStep measure.now.plan.now (image_in measure.now.sender) step at (length place.now) }
    ensures { result
        ≡ verdict (tested (image_in measure.now.sender) at
        (program_of (programs measure.now.plan.now.table) steps.now) place.now) }
{
    for step in steps {
        test_step(measure, step, at, place)?;
    }
    Ok(())
}
