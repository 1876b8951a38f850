//! Moving: the packed bytes of a record in the receiver's format.

ghost use Rattle.std.specs.Prelude.{◌+◌, ◌*◌, ◌<◌, ◌≤◌, length, IsTrue, Option, Some, None};
ghost use Rattle.evp_base.specs.Numbers.{is_width};
ghost use Rattle.evp_plan.specs.declared.step.Op.{Op};
ghost use Rattle.evp_plan.specs.Moving.{moved, moved_op, moved_part, moved_elements};
ghost use Rattle.evp_plan.specs.Moving.{moved_count, moved_element, source_place};
ghost use Rattle.evp_plan.specs.Planned.{machine_in};
ghost use Rattle.evp_plan.specs.Program.{program_at};
ghost use Rattle.evp_plan.specs.Ready.{IsOriginThere};
ghost use Rattle.evp_runner.specs.Pieces.{IsPut};
ghost use Rattle.evp_runner.specs.StepIn.{image_in, inside, IsEarlier, AreFew, first_place};
ghost use Rattle.evp_runner.specs.StepIn.{CanMove, CanMoveStep, CanMoveList, CanMovePart};

use crate::arrays::{
    first_place, moved_count, put_numbers, put_records, record_moves, side_by_side, source_place,
};
use crate::digits::{move_number, put_digits};
use crate::pointers::{move_text, put_pointer};
use crate::reading::{count_from, number_there};
use crate::sender::Sender;
use evp_plan::{Elements, Op, Origin, Part, Plan, Series, Step};

// A conversion that is written: the plan and the sender's record.
#[derive(Drop)]
pub(crate) struct Move<'a> {
    pub(crate) plan: &'a Plan,
    pub(crate) sender: Sender<'a>,
    ghost wide: { IsTrue (is_width plan.now.pointer) },
}

// The record at t by the steps of that number, from the record at `at`; answers the size behind its
// blocks.
#[cycle(moving)]
pub(crate) fn move_record(
    work: &Move,
    number: usize,
    at: usize,
    out: &mut [u8],
    t: usize,
    size: usize,
) -> usize
    requires known { number < length work.now.plan.now.table }
    requires at_inside { at ≤ length work.now.sender.bytes.now }
    requires can { CanMove work.now.plan.now (image_in work.now.sender)
        (program_at work.now.plan.now.table number) at t (length out.old) }
    requires fits { (moved (image_in work.now.sender) (machine_in work.now.plan.now)
        (program_at work.now.plan.now.table number) at t size).size ≤ length out.old }
    ensures { IsPut (moved (image_in work.now.sender) (machine_in work.now.plan.now)
        (program_at work.now.plan.now.table number) at t size) result out.old out.new }
{
    let steps = work.plan.table()[number].as_slice();
    if let Some(moves) = work.plan.moves(number, work.sender.order) {
        moves.run(out, t, work.sender.bytes, at);
        return size;
    }
    let mut size = size;
    for step in steps {
        size = move_step(work, number, step, at, out, t, size);
    }
    size
}

// A field of the record at t.
#[cycle(moving)]
fn move_step(
    work: &Move,
    number: usize,
    step: &Step,
    at: usize,
    out: &mut [u8],
    t: usize,
    size: usize,
) -> usize
    requires known { number < length work.now.plan.now.table }
    requires at_inside { at ≤ length work.now.sender.bytes.now }
    requires earlier { IsEarlier number step.now }
    requires can { CanMoveStep work.now.plan.now (image_in work.now.sender) step.now at t
        (length out.old) }
    requires fits { (moved_op (image_in work.now.sender) (machine_in work.now.plan.now) step.now.task.size
        step.now.task.op (moved (image_in work.now.sender) (machine_in work.now.plan.now)
        (inside work.now.plan.now step.now)) at (t + step.now.task.offset) size).size ≤ length
        out.old }
    ensures { IsPut (moved_op (image_in work.now.sender) (machine_in work.now.plan.now)
        step.now.task.size step.now.task.op
        (moved (image_in work.now.sender) (machine_in work.now.plan.now)
        (inside work.now.plan.now step.now)) at (t + step.now.task.offset) size) result out.old
        out.new }
{
    let t = t + step.task.offset as usize;
    match &step.task.op {
        Op::Number(_, origin) => {
            move_number(work, at, origin, out, t, step.task.size);
            size
        }
        Op::Text(None) => move_text(work, None, out, t, size),
        Op::Text(Some(offset)) => move_text(work, Some(at + *offset as usize), out, t, size),
        Op::Nest(offset) => { move_inside(work, number, step, at + *offset as usize, out, t, size) }
        Op::Each(count, elements) => {
            let n = moved_count(work, at, u128::from(*count), elements);
            move_elements(work, number, step, elements, at, n, out, t, size)
        }
        Op::Many(origin, elements) => {
            move_many(work, number, step, origin, elements, at, out, t, size)
        }
    }
}

// The record inside a step's field, at t, from that at s.
#[cycle(moving)]
fn move_inside(
    work: &Move,
    number: usize,
    step: &Step,
    s: usize,
    out: &mut [u8],
    t: usize,
    size: usize,
) -> usize
    requires known { number < length work.now.plan.now.table }
    requires s_inside { s ≤ length work.now.sender.bytes.now }
    requires earlier { IsEarlier number step.now }
    requires can { CanMove work.now.plan.now (image_in work.now.sender)
        (inside work.now.plan.now step.now) s t (length out.old) }
    requires fits { (moved (image_in work.now.sender) (machine_in work.now.plan.now)
        (inside work.now.plan.now step.now) s t size).size ≤ length out.old }
    ensures { IsPut (moved (image_in work.now.sender) (machine_in work.now.plan.now)
        (inside work.now.plan.now step.now) s t size) result out.old out.new }
{
    match step.inner {
        Some(inner) => move_record(work, inner as usize, s, out, t, size),
        None => size,
    }
}

// A counted array, whose pointer stands at t.
#[cycle(moving)]
fn move_many(
    work: &Move,
    number: usize,
    step: &Step,
    origin: &Origin,
    elements: &Elements,
    at: usize,
    out: &mut [u8],
    t: usize,
    size: usize,
) -> usize
    requires known { number < length work.now.plan.now.table }
    requires at_inside { at ≤ length work.now.sender.bytes.now }
    requires counted { IsOriginThere (image_in work.now.sender) at origin.now }
    requires earlier { IsEarlier number step.now }
    requires can { CanMoveList work.now.plan.now (image_in work.now.sender) step.now elements.now at }
    requires inside { t + work.now.plan.now.pointer ≤ length out.old }
    requires fits { (moved_op (image_in work.now.sender) (machine_in work.now.plan.now) step.now.task.size
        (Op.Many origin.now elements.now)
        (moved (image_in work.now.sender) (machine_in work.now.plan.now)
        (inside work.now.plan.now step.now)) at t size).size ≤ length out.old }
    ensures { IsPut (moved_op (image_in work.now.sender) (machine_in work.now.plan.now)
        step.now.task.size (Op.Many origin.now elements.now)
        (moved (image_in work.now.sender) (machine_in work.now.plan.now)
        (inside work.now.plan.now step.now)) at t size) result out.old out.new }
{
    let wanted = count_from(&work.sender, at, origin);
    let n = moved_count(work, at, wanted, elements);
    if n == 0 {
        put_pointer(work, out, t, 0);
        return size;
    }
    let q = (size + 7) / 8 * 8;
    let end = q + n as usize * step.task.size as usize;
    put_pointer(work, out, t, q);
    move_elements(work, number, step, elements, at, n, out, q, end)
}

// n elements, the first at `base`: at once, where they are numbers that stand side by side.
#[cycle(moving)]
#[inline(always)]
fn move_elements(
    work: &Move,
    number: usize,
    step: &Step,
    elements: &Elements,
    at: usize,
    n: u128,
    out: &mut [u8],
    base: usize,
    size: usize,
) -> usize
    requires known { number < length work.now.plan.now.table }
    requires at_inside { at ≤ length work.now.sender.bytes.now }
    requires earlier { IsEarlier number step.now }
    requires can { CanMoveList work.now.plan.now (image_in work.now.sender) step.now elements.now at }
    requires few { AreFew (image_in work.now.sender) at n elements.now.run }
    requires room { base + n * step.now.task.size ≤ length out.old }
    requires fits { (moved_elements (λ k. moved_element (image_in work.now.sender)
        (machine_in work.now.plan.now) step.now.task.size elements.now
        (moved (image_in work.now.sender) (machine_in work.now.plan.now)
        (inside work.now.plan.now step.now)) at k (base + k * step.now.task.size)) n 0 size).size ≤
        length out.old }
    ensures { IsPut
        (moved_elements (λ k. moved_element (image_in work.now.sender)
        (machine_in work.now.plan.now) step.now.task.size elements.now
        (moved (image_in work.now.sender) (machine_in work.now.plan.now)
        (inside work.now.plan.now step.now)) at k (base + k * step.now.task.size)) n 0 size) result
        out.old out.new }
{
    if let Some(numbers) = side_by_side(work, elements, at, n as usize) {
        put_numbers(work, step.task.size, &numbers, n as usize, out, base);
        return size;
    }
    move_each(work, number, step, elements, at, n, out, base, size)
}

// n elements that aren't numbers side by side.
#[cycle(moving)]
fn move_each(
    work: &Move,
    number: usize,
    step: &Step,
    elements: &Elements,
    at: usize,
    n: u128,
    out: &mut [u8],
    base: usize,
    size: usize,
) -> usize
    requires known { number < length work.now.plan.now.table }
    requires at_inside { at ≤ length work.now.sender.bytes.now }
    requires earlier { IsEarlier number step.now }
    requires can { CanMoveList work.now.plan.now (image_in work.now.sender) step.now elements.now at }
    requires few { AreFew (image_in work.now.sender) at n elements.now.run }
    requires room { base + n * step.now.task.size ≤ length out.old }
    requires fits { (moved_elements (λ k. moved_element (image_in work.now.sender)
        (machine_in work.now.plan.now) step.now.task.size elements.now
        (moved (image_in work.now.sender) (machine_in work.now.plan.now)
        (inside work.now.plan.now step.now)) at k (base + k * step.now.task.size)) n 0 size).size ≤
        length out.old }
    ensures { IsPut
        (moved_elements (λ k. moved_element (image_in work.now.sender)
        (machine_in work.now.plan.now) step.now.task.size elements.now
        (moved (image_in work.now.sender) (machine_in work.now.plan.now)
        (inside work.now.plan.now step.now)) at k (base + k * step.now.task.size)) n 0 size) result
        out.old out.new }
{
    if let Some(run) = &elements.run {
        if let Some(moves) = record_moves(work, step, elements) {
            let to = Series {
                first: base,
                apart: step.task.size as usize,
            };
            put_records(work, moves, run, at, n as usize, out, to);
            return size;
        }
    }
    let first = first_place(work, at, &elements.run);
    let mut size = size;
    for k in 0..n as usize {
        let t = base + k * step.task.size as usize;
        let source = source_place(work, at, &elements.run, first, k);
        size = move_part(work, number, step, &elements.part, source, out, t, size);
    }
    size
}

// An element at t.
#[cycle(moving)]
fn move_part(
    work: &Move,
    number: usize,
    step: &Step,
    part: &Part,
    source: Option<usize>,
    out: &mut [u8],
    t: usize,
    size: usize,
) -> usize
    requires known { number < length work.now.plan.now.table }
    requires earlier { IsEarlier number step.now }
    requires can { CanMovePart work.now.plan.now (image_in work.now.sender) step.now part.now source }
    requires room { t + step.now.task.size ≤ length out.old }
    requires fits { (moved_part (image_in work.now.sender) (machine_in work.now.plan.now) step.now.task.size
        part.now (moved (image_in work.now.sender) (machine_in work.now.plan.now)
        (inside work.now.plan.now step.now)) source t size).size ≤ length out.old }
    ensures { IsPut (moved_part (image_in work.now.sender) (machine_in work.now.plan.now)
        step.now.task.size part.now (moved (image_in work.now.sender) (machine_in work.now.plan.now)
        (inside work.now.plan.now step.now)) source t size) result out.old out.new }
{
    match part {
        Part::Number(_, from, width) => {
            let element = match source {
                None => 0,
                Some(s) => number_there(&work.sender, s, *from, *width),
            };
            put_digits(out, t, work.plan.order(), step.task.size, element);
            size
        }
        Part::Text => move_text(work, source, out, t, size),
        Part::Record => {
            let s = match source {
                None => 0,
                Some(s) => s,
            };
            move_inside(work, number, step, s, out, t, size)
        }
    }
}
