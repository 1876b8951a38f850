//! Which steps refuse nothing and take no block, whatever the sender's record is.

ghost use Rattle.std.specs.Prelude.{◌≡◌, ◌<◌, length, get_or, IfOk};
ghost use Rattle.evp_base.specs.Numbers.{is_size_of};
ghost use Rattle.evp_plan.specs.Program.{IsOrdered};
ghost use Rattle.evp_plan.specs.Quiet.{signed_covers, unsigned_covers, char_covers, covers};
ghost use Rattle.evp_plan.specs.Quiet.{is_quiet_origin, is_quiet_part, has_stated_count};
ghost use Rattle.evp_plan.specs.Quiet.{is_quiet_run, is_quiet_op, is_quiet_inside, is_none};
ghost use Rattle.evp_plan.specs.Quiet.{tests_behind, tests_in};

use crate::{Op, Origin, Part, Run, Step, Steps};
use evp_base::{Kind, Memory, fits};
use std::alloc::Global;

// Whether a signed number of `size` bytes can be any number of that kind and width.
fn signed_covers(size: u32, from: Kind, width: u32) -> bool
    ensures { result ≡ signed_covers size from width }
{
    match from {
        Kind::Int | Kind::Enumeration => width <= size,
        Kind::Unsigned => width < size,
        Kind::Char => 1 < size,
        Kind::Boolean => 0 < size,
    }
}

// Whether an unsigned number of `size` bytes can be any number of that kind and width.
fn unsigned_covers(size: u32, from: Kind, width: u32) -> bool
    ensures { result ≡ unsigned_covers size from width }
{
    match from {
        Kind::Int | Kind::Enumeration => false,
        Kind::Unsigned => width <= size,
        Kind::Char | Kind::Boolean => 0 < size,
    }
}

// Whether a char can be any number of that kind and width.
fn char_covers(from: Kind, width: u32) -> bool
    ensures { result ≡ char_covers from width }
{
    match from {
        Kind::Int | Kind::Enumeration => false,
        Kind::Unsigned => width <= 1,
        Kind::Char | Kind::Boolean => true,
    }
}

// Whether each number of the second kind and of `width` bytes is one of the first and of `size`
// bytes.
pub(crate) fn covers(kind: Kind, size: u32, from: Kind, width: u32) -> bool
    ensures { result ≡ covers kind size from width }
{
    match kind {
        Kind::Int | Kind::Enumeration => signed_covers(size, from, width),
        Kind::Unsigned => unsigned_covers(size, from, width),
        Kind::Char => char_covers(from, width),
        Kind::Boolean => from == Kind::Boolean,
    }
}

impl Part {
    ghost use Rattle.std.specs.Prelude.{◌≡◌};
    ghost use Rattle.evp_plan.specs.Quiet.{is_quiet_part};

    /// Whether an element of this size refuses nothing and takes no block, whatever it is made
    /// from; for a record as its inner steps do. Takes no memory.
    pub fn is_quiet(&self, size: u32, inside: bool) -> bool
        ensures { result ≡ is_quiet_part size self.now inside }
    {
        match self {
            Part::Number(kind, from, width) => covers(*kind, size, *from, *width),
            Part::Text => false,
            Part::Record => inside,
        }
    }
}

// Whether the kind may have that size.
pub(crate) fn is_size_of(kind: Kind, size: u32) -> bool
    ensures { result ≡ is_size_of kind size }
{
    let is_width = size == 1 || (size == 2 || (size == 4 || size == 8));
    match kind {
        Kind::Char => size == 1,
        Kind::Int | Kind::Unsigned | Kind::Boolean | Kind::Enumeration => is_width,
    }
}

// Whether a number from there is always one of this kind and size.
fn is_quiet_origin(kind: Kind, size: u32, origin: &Origin) -> bool
    ensures { result ≡ is_quiet_origin kind size origin.now }
{
    match origin {
        Origin::Standing(source) => covers(kind, size, source.kind, source.size),
        Origin::Stated(number) => is_size_of(kind, size) && fits(kind, size, *number),
    }
}

// Whether the sender's array has always n elements.
fn has_stated_count(n: u32, origin: &Origin) -> bool
    ensures { result ≡ has_stated_count n origin.now }
{
    match origin {
        Origin::Standing(_) => false,
        Origin::Stated(number) => {
            let count = if *number < 0 { 0 } else { *number };
            count == i128::from(n)
        }
    }
}

// Whether n elements of the sender's array refuse nothing.
fn is_quiet_run(n: u32, size: u32, part: &Part, inside: bool, run: &Option<Run>) -> bool
    ensures { result ≡ is_quiet_run n size part.now inside run.now }
{
    match run {
        None => true,
        Some(run) => has_stated_count(n, &run.count) && part.is_quiet(size, inside),
    }
}

// Whether a field refuses nothing and takes no block.
fn is_quiet_op(size: u32, op: &Op, inside: bool) -> bool
    ensures { result ≡ is_quiet_op size op.now inside }
{
    match op {
        Op::Number(kind, origin) => is_quiet_origin(*kind, size, origin),
        Op::Text(None) => true,
        Op::Text(Some(_)) | Op::Many(_, _) => false,
        Op::Nest(_) => inside,
        Op::Each(n, elements) => is_quiet_run(*n, size, &elements.part, inside, &elements.run),
    }
}

// Whether the inner steps have no tests.
fn is_quiet_inside(earlier: &[Steps], inner: Option<u32>) -> bool
    ensures { result ≡ is_quiet_inside earlier.now inner }
{
    match inner {
        None => true,
        Some(n) => {
            let n = n as usize;
            n >= earlier.len() || earlier[n].as_slice().is_empty()
        }
    }
}

// Whether a step refuses nothing and takes no block.
fn is_quiet_step(earlier: &[Steps], step: &Step) -> bool
    ensures { result ≡ is_quiet_op step.now.task.size step.now.task.op
        (is_quiet_inside earlier.now step.now.inner) }
{
    let inside = is_quiet_inside(earlier, step.inner);
    is_quiet_op(step.task.size, &step.task.op, inside)
}

// The steps that can refuse something or take a block, where these are those of the lists before.
fn tests_behind(alloc: Global, earlier: &[Steps], steps: &[Step]) -> Result<Steps, Memory>
    ensures { IfOk result (λ tests. tests ≡ tests_behind earlier.now steps.now) }
{
    let mut tests = Vec::new(alloc);
    for step in steps {
        if !is_quiet_step(earlier, step) {
            tests.push(*step)?;
        }
    }
    Ok(Steps::from_vec(tests))
}

// Those of each list.
pub(crate) fn tests_in(alloc: Global, table: &[Steps]) -> Result<Vec<Steps>, Memory>
    requires { IsOrdered table.now }
    ensures { IfOk result (λ tests. tests.items ≡ tests_in table.now) }
{
    let mut tests = Vec::with_capacity(alloc, table.len())?;
    for steps in table {
        let more = tests_behind(alloc, tests.as_slice(), steps.as_slice())?;
        tests.push(more)?;
    }
    Ok(tests)
}
