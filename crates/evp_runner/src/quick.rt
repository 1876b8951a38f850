//! Measuring without places: the packed size of a record whose fields are easily seen to refuse
//! nothing. What names a fault is `measuring`.

ghost use Rattle.std.specs.Prelude.{◌≡◌, ◌<◌, ◌≤◌, ◌^◌, [], length, IfSome, Ok};
ghost use Rattle.evp_plan.specs.Measuring.{measured};
ghost use Rattle.evp_plan.specs.Planned.{whole_program};
ghost use Rattle.evp_plan.specs.Quicks.{IsFit, IsThere};
ghost use Rattle.evp_plan.specs.Ready.{IsTextBy, IsOriginThere};
ghost use Rattle.evp_runner.specs.Outcome.{outcome};
ghost use Rattle.evp_runner.specs.Passable.{StepPasses, ListPasses, TextPasses};
ghost use Rattle.evp_runner.specs.StepIn.{image_in, CanRun, CanStep, CanList, IsInside};

use crate::blocks::take_elements;
use crate::lists::{has_other_count, is_quiet};
use crate::measuring::Measure;
use crate::reading::{text_there, wanted_from};
use evp_plan::{Elements, Op, Origin, Quick, Step};

// The size behind the text whose pointer stands at s, where the limit allows it.
fn quick_text(measure: &Measure, s: usize, size: usize) -> Option<usize>
    requires there { IsTextBy (image_in measure.now.sender) s }
    requires size_small { size < 2 ^ 32 }
    ensures passes { IfSome result (λ end. TextPasses measure.now.limit (image_in measure.now.sender) s
        size end) }
    ensures bound { IfSome result (λ end. end < 2 ^ 32) }
{
    let Some(text) = text_there(&measure.sender, s) else {
        return Some(size);
    };
    let end = (size + 7) / 8 * 8 + text.len() + 1;
    if end > measure.limit as usize {
        return None;
    }
    Some(end)
}

// The size behind a counted array of elements that refuse nothing and take no block.
fn quick_many(
    measure: &Measure,
    step: &Step,
    origin: &Origin,
    elements: &Elements,
    at: usize,
    size: usize,
) -> Option<usize>
    requires at_inside { at ≤ length measure.now.sender.bytes.now }
    requires size_small { size < 2 ^ 32 }
    requires counted { IsOriginThere (image_in measure.now.sender) at origin.now }
    requires can { CanList measure.now.plan.now (image_in measure.now.sender) step.now elements.now
        at 0 }
    requires inside { IsInside measure.now.plan.now step.now }
    ensures passes { IfSome result (λ end. ListPasses measure.now.plan.now measure.now.limit
        (image_in measure.now.sender) step.now origin.now elements.now at size end) }
    ensures bound { IfSome result (λ end. end < 2 ^ 32) }
{
    let wanted = u128::from(wanted_from(&measure.sender, at, origin)?);
    if has_other_count(measure, at, wanted, elements) {
        return None;
    }
    if !is_quiet(measure, step, &elements.part) {
        return None;
    }
    take_elements(measure, wanted, step.task.size, size)
}

// The size behind a field of the record at `at` that is no single number.
fn quick_step(measure: &Measure, step: &Step, at: usize, size: usize) -> Option<usize>
    requires at_inside { at ≤ length measure.now.sender.bytes.now }
    requires size_small { size < 2 ^ 32 }
    requires can { CanStep measure.now.plan.now (image_in measure.now.sender) step.now at 0 }
    requires inside { IsInside measure.now.plan.now step.now }
    ensures passes { IfSome result (λ end. StepPasses measure.now.plan.now measure.now.limit
        (image_in measure.now.sender) step.now at size end) }
    ensures bound { IfSome result (λ end. end < 2 ^ 32) }
{
    match &step.task.op {
        Op::Text(None) => Some(size),
        Op::Text(Some(offset)) => quick_text(measure, at + *offset as usize, size),
        Op::Many(origin, elements) => quick_many(measure, step, origin, elements, at, size),
        Op::Number(_, _) | Op::Nest(_) | Op::Each(_, _) => None,
    }
}

// The size behind a field of the record at `at`, where the words of its quick test stand there.
#[inline(always)]
fn quick_test(measure: &Measure, test: &Quick, at: usize, size: usize) -> Option<usize>
    requires at_inside { at ≤ length measure.now.sender.bytes.now }
    requires size_small { size < 2 ^ 32 }
    requires can { CanStep measure.now.plan.now (image_in measure.now.sender) test.now.step at 0 }
    requires inside { IsInside measure.now.plan.now test.now.step }
    requires fit { IsFit test.now }
    requires there { IfSome test.now.words (IsThere at measure.now.sender.order
        measure.now.sender.bytes.now) }
    ensures passes { IfSome result (λ end. StepPasses measure.now.plan.now measure.now.limit
        (image_in measure.now.sender) test.now.step at size end) }
    ensures bound { IfSome result (λ end. end < 2 ^ 32) }
{
    let Some(_words) = &test.words else {
        return quick_step(measure, &test.step, at, size);
    };
    Some(size)
}

// The size behind the record at `at`, made by the last list of steps.
pub(crate) fn quick_record(measure: &Measure, at: usize, size: usize) -> Option<usize>
    requires at_inside { at ≤ length measure.now.sender.bytes.now }
    requires size_small { size < 2 ^ 32 }
    requires can { CanRun measure.now.plan.now (image_in measure.now.sender)
        (whole_program measure.now.plan.now) at 0 }
    ensures value { IfSome result (λ end. Ok end ≡ outcome (measured measure.now.limit
        (image_in measure.now.sender) (whole_program measure.now.plan.now) [] at size)) }
    ensures bound { IfSome result (λ end. end < 2 ^ 32) }
{
    let tests = measure.plan.quick();
    let list = tests.as_slice();
    if !tests.all_there(measure.sender.bytes, at, measure.sender.order) {
        return None;
    }
    if tests.are_numbers() {
        return Some(size);
    }
    let mut size = size;
    for test in list {
        let Some(end) = quick_test(measure, test, at, size) else {
            return None;
        };
        size = end;
    }
    Some(size)
}
