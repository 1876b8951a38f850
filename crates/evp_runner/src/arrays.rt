//! The sender's arrays, and those whose elements are written at once.

ghost use Rattle.std.specs.Prelude.{◌≡◌, ◌+◌, ◌*◌, ◌<◌, ◌≤◌, ℕ};
ghost use Rattle.std.specs.Prelude.{length, IsTrue, Option, Some, None, IfSome};
ghost use Rattle.evp_base.specs.Numbers.{is_width, is_size_of};
ghost use Rattle.evp_format.specs.Bytes.{bytes_at, put_at};
ghost use Rattle.evp_plan.specs.Moving.{moved_count, source_place};
ghost use Rattle.evp_plan.specs.Cells.{painted_each};
ghost use Rattle.evp_plan.specs.Ready.{IsStartThere};
ghost use Rattle.evp_plan.specs.Standing.{run_start, element_place};
ghost use Rattle.evp_wide.specs.Elements.{rewritten};
ghost use Rattle.evp_runner.specs.StepIn.{image_in, IsCountThere, IsElementThere, AreFew};
ghost use Rattle.evp_runner.specs.StepIn.{AreNumbersThere, AreSideBySide, BeginsThere};
ghost use Rattle.evp_runner.specs.StepIn.{AreRecordMoves, first_place};

use crate::moving::Move;
use crate::reading::{count_of, start_of};
use evp_base::Kind;
use evp_plan::{Elements, Moves, Part, Run, Series, Step};
use evp_wide::rewrite;

// How many elements are written: as many as are wanted, or those of a shorter array.
#[inline(always)]
pub(crate) fn moved_count(work: &Move, at: usize, n: u128, elements: &Elements) -> u128
    requires at_inside { at ≤ length work.now.sender.bytes.now }
    requires there { IsCountThere (image_in work.now.sender) at elements.now.run }
    ensures { result ≡ moved_count (image_in work.now.sender) at n elements.now.run }
{
    match &elements.run {
        None => n,
        Some(run) => {
            let count = count_of(&work.sender, at, run);
            if count < n { count } else { n }
        }
    }
}

// Numbers of one kind and size that stand side by side.
#[derive(Clone, Copy)]
pub(crate) struct Numbers<'a> {
    pub(crate) bytes: &'a [u8],
    pub(crate) kind: Kind,
    pub(crate) width: u32,
}

// So many bytes from a place on.
fn part_of(bytes: &[u8], start: usize, count: usize) -> &[u8]
    requires { start + count ≤ length bytes.now }
    ensures { result.now ≡ bytes_at start count bytes.now }
{
    &bytes[start..start + count]
}

// The n numbers of the sender's array, where they stand side by side.
#[inline(always)]
pub(crate) fn side_by_side<'a>(
    work: &Move<'a>,
    elements: &Elements,
    at: usize,
    n: usize,
) -> Option<Numbers<'a>>
    requires at_inside { at ≤ length work.now.sender.bytes.now }
    requires few { AreFew (image_in work.now.sender) at n elements.now.run }
    requires there { AreNumbersThere (image_in work.now.sender) at elements.now.part elements.now.run }
    ensures { IfSome result (λ numbers. AreSideBySide (image_in work.now.sender) at n elements.now
        numbers.kind numbers.width numbers.bytes.now) }
{
    let Part::Number(_, kind, width) = elements.part else {
        return None;
    };
    let Some(run) = &elements.run else {
        return None;
    };
    if run.stride != width || n == 0 {
        return None;
    }
    let start = start_of(&work.sender, at, run);
    let count = n * width as usize;
    let bytes = part_of(work.sender.bytes, start, count);
    Some(Numbers { bytes, kind, width })
}

/// The n numbers as numbers of this size, from `base` on.
#[inline(always)]
pub(crate) fn put_numbers(
    work: &Move,
    size: u32,
    numbers: &Numbers,
    n: usize,
    out: &mut [u8],
    base: usize,
)
    requires width { IsTrue (is_width size) }
    requires allowed { IsTrue (is_size_of numbers.now.kind numbers.now.width) }
    requires whole { length numbers.now.bytes.now ≡ n * numbers.now.width }
    requires room { base + n * size ≤ length out.old }
    ensures { out.new ≡ put_at base (rewritten numbers.now.kind work.now.plan.now.order size
        work.now.sender.order numbers.now.width numbers.now.bytes.now) out.old }
{
    let place = &mut out[base..base + n * size as usize];
    rewrite(
        place,
        size,
        work.plan.order(),
        numbers.bytes,
        numbers.width,
        work.sender.order,
        numbers.kind,
    );
}

/// The moves that make each element of an array, where they are records that gathers make.
pub(crate) fn record_moves<'a>(
    work: &Move<'a>,
    step: &Step,
    elements: &Elements,
) -> Option<&'a Moves>
    ensures { IfSome result (λ moves. AreRecordMoves work.now.plan.now (image_in work.now.sender)
        step.now elements.now moves.now) }
{
    let Part::Record = elements.part else {
        return None;
    };
    let Some(inner) = step.inner else {
        return None;
    };
    let _table = work.plan.table();
    work.plan.moves(inner as usize, work.sender.order)
}

/// n records, each from one of the sender's array.
pub(crate) fn put_records(
    work: &Move,
    moves: &Moves,
    run: &Run,
    at: usize,
    n: usize,
    out: &mut [u8],
    to: Series,
)
    requires at_inside { at ≤ length work.now.sender.bytes.now }
    requires begins { IsStartThere (image_in work.now.sender) run.now.pointed
        (at + run.now.offset) }
    requires reach { (k : ℕ) → k < n → element_place (image_in work.now.sender) at run.now k
        + moves.now.reach ≤ length work.now.sender.bytes.now }
    requires room { (k : ℕ) → k < n → to.first + k * to.apart + length moves.now.cells
        ≤ length out.old }
    ensures { out.new ≡ painted_each work.now.sender.bytes.now
        (run_start (image_in work.now.sender) at run.now) run.now.stride to.first to.apart n
        moves.now.cells out.old }
{
    let from = Series {
        first: start_of(&work.sender, at, run),
        apart: run.stride as usize,
    };
    moves.run_each(out, to, work.sender.bytes, from, n);
}

/// Where the first element of the sender's array stands, where it has one.
pub(crate) fn first_place(work: &Move, at: usize, run: &Option<Run>) -> usize
    requires at_inside { at ≤ length work.now.sender.bytes.now }
    requires there { BeginsThere (image_in work.now.sender) at run.now }
    ensures { result ≡ first_place (image_in work.now.sender) at run.now }
{
    match run {
        None => 0,
        Some(run) => start_of(&work.sender, at, run),
    }
}

/// Where element k of the sender's array stands, by the place of the first.
pub(crate) fn source_place(
    work: &Move,
    at: usize,
    run: &Option<Run>,
    first: usize,
    k: usize,
) -> Option<usize>
    requires there { IsElementThere (image_in work.now.sender) at k run.now }
    requires first { first ≡ first_place (image_in work.now.sender) at run.now }
    ensures { result ≡ source_place (image_in work.now.sender) at run.now k }
{
    match run {
        None => None,
        Some(run) => Some(first + k * run.stride as usize),
    }
}
