//! Records that one array of numbers fills.

ghost use Rattle.std.specs.Prelude.{◌≡◌, ◌+◌, ◌*◌, ◌<◌, ◌≤◌, length, true, false};
ghost use Rattle.evp_plan.specs.declared.step.Op.{Op};
ghost use Rattle.evp_plan.specs.Moving.{moved, moved_op};
ghost use Rattle.evp_plan.specs.Planned.{machine_in};
ghost use Rattle.evp_plan.specs.Program.{program_at};
ghost use Rattle.evp_runner.specs.Pieces.{IsFilled};
ghost use Rattle.evp_runner.specs.StepIn.{image_in, inside, CanMove, CanMoveList};

use crate::arrays::{moved_count, put_numbers, side_by_side};
use crate::moving::Move;
use evp_plan::{Elements, Op, Step};

// Writes all of a record, whatever stood there, by the steps of that number, where they are one
// static array of numbers that stand side by side. Else it writes nothing and answers false.
pub(crate) fn fill_numbers(work: &Move, number: usize, out: &mut [u8]) -> bool
    requires known { number < length work.now.plan.now.table }
    requires can { CanMove work.now.plan.now (image_in work.now.sender)
        (program_at work.now.plan.now.table number) 0 0 (length out.old) }
    ensures kept { result ≡ false → out.new ≡ out.old }
    ensures filled { result ≡ true → IsFilled (λ size. moved (image_in work.now.sender)
        (machine_in work.now.plan.now) (program_at work.now.plan.now.table number) 0 0 size)
        out.new }
{
    let steps = work.plan.table()[number].as_slice();
    if steps.len() != 1 {
        return false;
    }
    let step = &steps[0];
    match &step.task.op {
        Op::Each(count, elements) => fill_array(work, step, *count, elements, out),
        _ => false,
    }
}

// The same for the array of a step.
fn fill_array(work: &Move, step: &Step, count: u32, elements: &Elements, out: &mut [u8]) -> bool
    requires can { CanMoveList work.now.plan.now (image_in work.now.sender) step.now elements.now 0 }
    requires room { step.now.task.offset + count * step.now.task.size ≤ length out.old }
    ensures kept { result ≡ false → out.new ≡ out.old }
    ensures filled { result ≡ true → IsFilled (λ size. moved_op (image_in work.now.sender)
        (machine_in work.now.plan.now) step.now.task.size (Op.Each count elements.now)
        (moved (image_in work.now.sender) (machine_in work.now.plan.now)
        (inside work.now.plan.now step.now)) 0 (0 + step.now.task.offset) size) out.new }
{
    let n = moved_count(work, 0, u128::from(count), elements);
    if n != u128::from(count) || count as usize * step.task.size as usize != out.len() {
        return false;
    }
    let Some(numbers) = side_by_side(work, elements, 0, count as usize) else {
        return false;
    };
    put_numbers(work, step.task.size, &numbers, count as usize, out, 0);
    true
}
