//! Measuring: the packed size of a record in the receiver's format, or the first fault.

ghost use Rattle.std.specs.Prelude.{◌≡◌, false, ◌+◌, ◌*◌, ◌^◌, ◌<◌, ◌≤◌, ◌≤ℤ◌, ℕ, pos, IsTrue, []};
ghost use Rattle.std.specs.Prelude.{◌∷◌, ◌++◌, length, IfOk, Some};
ghost use Rattle.evp_base.specs.Numbers.{is_width};
ghost use Rattle.evp_format.specs.declared.place.PlaceStep.{PlaceStep};
ghost use Rattle.evp_plan.specs.declared.step.Op.{Op};
ghost use Rattle.evp_plan.specs.Measuring.{measured, measured_op, measured_part};
ghost use Rattle.evp_plan.specs.Measuring.{measured_list, measured_run, has_other_count, no_block};
ghost use Rattle.evp_plan.specs.Measuring.{counted_block};
ghost use Rattle.evp_plan.specs.Program.{program_at};
ghost use Rattle.evp_plan.specs.Ready.{IsOriginThere};
ghost use Rattle.evp_plan.specs.Standing.{origin_number, run_count};
ghost use Rattle.evp_runner.specs.Outcome.{outcome};
ghost use Rattle.evp_runner.specs.StepIn.{image_in, inside, CanRun, CanStep, CanList, CanElements};
ghost use Rattle.evp_runner.specs.StepIn.{CanPart, IsEarlier};

use crate::ConvertFault;
use crate::blocks::{measure_text, take_elements};
use crate::lists::{has_other_count, is_quiet};
use crate::numbers::test_numbers;
use crate::reading::{number_from, number_there, start_of};
use crate::sender::Sender;
use evp_base::fits;
use evp_format::{Place, PlaceStep};
use evp_plan::{Elements, Op, Origin, Part, Plan, Run, Step};

// A conversion that is measured: the plan, the sender's record, and the most bytes that the
// receiver's may have.
#[derive(Drop)]
pub(crate) struct Measure<'a> {
    pub(crate) plan: &'a Plan,
    pub(crate) sender: Sender<'a>,
    pub(crate) limit: u32,
    ghost wide: { IsTrue (is_width plan.now.pointer) },
}

// The size behind the record at `at`, made by the steps of that number: only those are looked at
// that can refuse something or take a block.
#[cycle(measure)]
pub(crate) fn measure_record(
    measure: &Measure,
    number: usize,
    at: usize,
    place: &Place,
    size: usize,
) -> Result<usize, ConvertFault>
    requires known { number < length measure.now.plan.now.table }
    requires at_inside { at ≤ length measure.now.sender.bytes.now }
    requires size_small { size < 2 ^ 32 }
    requires can { CanRun measure.now.plan.now (image_in measure.now.sender)
        (program_at measure.now.plan.now.table number) at (length place.now) }
    ensures value { result ≡ outcome (measured measure.now.limit (image_in measure.now.sender)
        (program_at measure.now.plan.now.table number) place.now at size) }
    ensures bound { IfOk result (λ n. n < 2 ^ 32) }
{
    let steps = measure.plan.tests(number);
    test_numbers(measure, steps, at, place)?;
    let mut size = size;
    for step in steps {
        size = measure_step(measure, number, step, at, place, size)?;
    }
    Ok(size)
}

// The size behind a field of the record at `at`.
#[cycle(measure)]
fn measure_step(
    measure: &Measure,
    number: usize,
    step: &Step,
    at: usize,
    place: &Place,
    size: usize,
) -> Result<usize, ConvertFault>
    requires known { number < length measure.now.plan.now.table }
    requires at_inside { at ≤ length measure.now.sender.bytes.now }
    requires size_small { size < 2 ^ 32 }
    requires can { CanStep measure.now.plan.now (image_in measure.now.sender) step.now at
        (length place.now) }
    requires earlier { IsEarlier number step.now }
    ensures value { result ≡ outcome (measured_op measure.now.limit (image_in measure.now.sender)
        step.now.task.size step.now.task.op
        (measured measure.now.limit (image_in measure.now.sender)
        (inside measure.now.plan.now step.now)) (place.now ++ PlaceStep.At step.now.task.field ∷ [])
        at size) }
    ensures bound { IfOk result (λ n. n < 2 ^ 32) }
{
    let last = PlaceStep::At(step.task.field);
    match &step.task.op {
        Op::Number(_, _) | Op::Text(None) => Ok(size),
        Op::Text(Some(offset)) => {
            measure_text(measure, at + *offset as usize, size, place, last)
        }
        Op::Nest(offset) => {
            let s = at + *offset as usize;
            measure_inside(measure, number, step, s, &place.with(last), size)
        }
        Op::Each(count, elements) => {
            let place = place.with(last);
            measure_each(measure, number, step, *count, elements, at, place, size)
        }
        Op::Many(origin, elements) => {
            let place = place.with(last);
            measure_many(measure, number, step, origin, elements, at, place, size)
        }
    }
}

// The size behind the record inside a step's field, from the record at s.
#[cycle(measure)]
fn measure_inside(
    measure: &Measure,
    number: usize,
    step: &Step,
    s: usize,
    place: &Place,
    size: usize,
) -> Result<usize, ConvertFault>
    requires known { number < length measure.now.plan.now.table }
    requires s_inside { s ≤ length measure.now.sender.bytes.now }
    requires size_small { size < 2 ^ 32 }
    requires can { CanRun measure.now.plan.now (image_in measure.now.sender)
        (inside measure.now.plan.now step.now) s (length place.now) }
    requires earlier { IsEarlier number step.now }
    ensures value { result ≡ outcome (measured measure.now.limit (image_in measure.now.sender)
        (inside measure.now.plan.now step.now) place.now s size) }
    ensures bound { IfOk result (λ n. n < 2 ^ 32) }
{
    match step.inner {
        Some(inner) => measure_record(measure, inner as usize, s, place, size),
        None => Ok(size),
    }
}

// The size behind a static array.
#[cycle(measure)]
fn measure_each(
    measure: &Measure,
    number: usize,
    step: &Step,
    count: u32,
    elements: &Elements,
    at: usize,
    place: Place,
    size: usize,
) -> Result<usize, ConvertFault>
    requires known { number < length measure.now.plan.now.table }
    requires at_inside { at ≤ length measure.now.sender.bytes.now }
    requires size_small { size < 2 ^ 32 }
    requires can { CanList measure.now.plan.now (image_in measure.now.sender) step.now elements.now
        at (length place) }
    requires earlier { IsEarlier number step.now }
    ensures value { result ≡ outcome (measured_list measure.now.limit (image_in measure.now.sender)
        step.now.task.size no_block elements.now
        (measured measure.now.limit (image_in measure.now.sender)
        (inside measure.now.plan.now step.now)) place at (pos count) size) }
    ensures bound { IfOk result (λ n. n < 2 ^ 32) }
{
    if has_other_count(measure, at, u128::from(count), elements) {
        return Err(ConvertFault::Unfit(place));
    }
    measure_run(measure, number, step, elements, at, &place, count, size)
}

// The size behind a counted array.
#[cycle(measure)]
fn measure_many(
    measure: &Measure,
    number: usize,
    step: &Step,
    origin: &Origin,
    elements: &Elements,
    at: usize,
    place: Place,
    size: usize,
) -> Result<usize, ConvertFault>
    requires known { number < length measure.now.plan.now.table }
    requires at_inside { at ≤ length measure.now.sender.bytes.now }
    requires size_small { size < 2 ^ 32 }
    requires counted { IsOriginThere (image_in measure.now.sender) at origin.now }
    requires can { CanList measure.now.plan.now (image_in measure.now.sender) step.now elements.now
        at (length place) }
    requires earlier { IsEarlier number step.now }
    ensures value { result ≡ outcome (measured_list measure.now.limit (image_in measure.now.sender)
        step.now.task.size counted_block elements.now
        (measured measure.now.limit (image_in measure.now.sender)
        (inside measure.now.plan.now step.now)) place at
        (origin_number (image_in measure.now.sender) at origin.now) size) }
    ensures bound { IfOk result (λ n. n < 2 ^ 32) }
{
    let wanted = number_from(&measure.sender, at, origin);
    if wanted < 0 {
        return Err(ConvertFault::Unfit(place));
    }
    if has_other_count(measure, at, wanted as u128, elements) {
        return Err(ConvertFault::Unfit(place));
    }
    match take_elements(measure, wanted as u128, step.task.size, size) {
        None => Err(ConvertFault::Large(place)),
        Some(end) => {
            measure_run(
                measure,
                number,
                step,
                elements,
                at,
                &place,
                wanted as u32,
                end,
            )
        }
    }
}

// The size behind n elements of the sender's array; zeros take no block, and neither do elements
// that find nothing.
#[cycle(measure)]
fn measure_run(
    measure: &Measure,
    number: usize,
    step: &Step,
    elements: &Elements,
    at: usize,
    place: &Place,
    n: u32,
    size: usize,
) -> Result<usize, ConvertFault>
    requires known { number < length measure.now.plan.now.table }
    requires at_inside { at ≤ length measure.now.sender.bytes.now }
    requires size_small { size < 2 ^ 32 }
    requires can { CanList measure.now.plan.now (image_in measure.now.sender) step.now elements.now
        at (length place.now) }
    requires earlier { IsEarlier number step.now }
    requires same_count { has_other_count (image_in measure.now.sender) at n elements.now.run
        ≡ false }
    ensures value { result ≡ outcome (measured_run measure.now.limit (image_in measure.now.sender)
        step.now.task.size elements.now.part
        (measured measure.now.limit (image_in measure.now.sender)
        (inside measure.now.plan.now step.now)) place.now at elements.now.run n size) }
    ensures bound { IfOk result (λ n. n < 2 ^ 32) }
{
    match &elements.run {
        None => Ok(size),
        Some(run) => {
            if is_quiet(measure, step, &elements.part) {
                return Ok(size);
            }
            measure_elements(
                measure,
                number,
                step,
                &elements.part,
                run,
                at,
                place,
                n,
                size,
            )
        }
    }
}

// The size behind n elements of the sender's array.
#[cycle(measure)]
fn measure_elements(
    measure: &Measure,
    number: usize,
    step: &Step,
    part: &Part,
    run: &Run,
    at: usize,
    place: &Place,
    n: u32,
    size: usize,
) -> Result<usize, ConvertFault>
    requires known { number < length measure.now.plan.now.table }
    requires at_inside { at ≤ length measure.now.sender.bytes.now }
    requires size_small { size < 2 ^ 32 }
    requires can { CanElements measure.now.plan.now (image_in measure.now.sender) step.now part.now
        run.now at (length place.now) }
    requires earlier { IsEarlier number step.now }
    requires same_count { run_count (image_in measure.now.sender) at run.now ≡ n }
    ensures value { result ≡ outcome (measured_run measure.now.limit (image_in measure.now.sender)
        step.now.task.size part.now (measured measure.now.limit (image_in measure.now.sender)
        (inside measure.now.plan.now step.now)) place.now at (Some run.now) n size) }
    ensures bound { IfOk result (λ n. n < 2 ^ 32) }
{
    let start = start_of(&measure.sender, at, run);
    let stride = run.stride as usize;
    let mut size = size;
    for k in 0..n {
        let s = start + k as usize * stride;
        size = measure_part(measure, number, step, part, s, place, k, size)?;
    }
    Ok(size)
}

// The size behind element k, which stands at s.
#[cycle(measure)]
fn measure_part(
    measure: &Measure,
    number: usize,
    step: &Step,
    part: &Part,
    s: usize,
    place: &Place,
    k: u32,
    size: usize,
) -> Result<usize, ConvertFault>
    requires known { number < length measure.now.plan.now.table }
    requires s_inside { s ≤ length measure.now.sender.bytes.now }
    requires size_small { size < 2 ^ 32 }
    requires can { CanPart measure.now.plan.now (image_in measure.now.sender) step.now part.now s
        (length place.now) }
    requires earlier { IsEarlier number step.now }
    ensures value { result ≡ outcome (measured_part measure.now.limit (image_in measure.now.sender)
        step.now.task.size part.now (measured measure.now.limit (image_in measure.now.sender)
        (inside measure.now.plan.now step.now)) (place.now ++ PlaceStep.Nth k ∷ []) s size) }
    ensures bound { IfOk result (λ n. n < 2 ^ 32) }
{
    let last = PlaceStep::Nth(k);
    match part {
        Part::Number(kind, from, width) => {
            let element = number_there(&measure.sender, s, *from, *width);
            if fits(*kind, step.task.size, element) {
                Ok(size)
            } else {
                Err(ConvertFault::Unfit(place.with(last)))
            }
        }
        Part::Text => measure_text(measure, s, size, place, last),
        Part::Record => measure_inside(measure, number, step, s, &place.with(last), size),
    }
}
