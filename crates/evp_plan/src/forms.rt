//! Which steps make blocks that are laid without a look at them, and whether the others keep off.

ghost use Rattle.std.specs.Prelude.{◌≡◌, true, [], IsTrue, IfOk, IfSome};
ghost use Rattle.std.specs.List.{All};
ghost use Rattle.evp_plan.specs.Cells.{is_plain_kind};
ghost use Rattle.evp_plan.specs.Laid.{is_number, number_steps, block_steps, is_signed, width_of};
ghost use Rattle.evp_plan.specs.Laid.{size_of, IsArrayOf, IsBlockOf, AreBlocksOf, IsBeside};
ghost use Rattle.evp_plan.specs.Laid.{AreApart};
ghost use Rattle.evp_plan.specs.declared.step.Origin.TheVariants.{Standing};

use crate::quiet::covers;
use crate::{Array, Block, Form, Op, Origin, Part, Run, Source, Step, Text};
use evp_base::{Kind, Memory};
use std::alloc::Global;

// Whether the step makes a single number.
fn is_number(step: &Step) -> bool
    ensures { result ≡ is_number step.now.task.op }
{
    match &step.task.op {
        Op::Number(_, _) => true,
        Op::Text(_) | Op::Nest(_) | Op::Each(_, _) | Op::Many(_, _) => false,
    }
}

// Those of these steps that make single numbers.
pub(crate) fn numbers_of(alloc: Global, steps: &[Step]) -> Result<Vec<Step>, Memory>
    ensures { IfOk result (λ numbers. numbers.items ≡ number_steps steps.now) }
{
    let mut numbers = Vec::new(alloc);
    for step in steps {
        if is_number(step) {
            numbers.push(*step)?;
        }
    }
    Ok(numbers)
}

// The others.
pub(crate) fn others_of(alloc: Global, steps: &[Step]) -> Result<Vec<Step>, Memory>
    ensures { IfOk result (λ others. others.items ≡ block_steps steps.now) }
{
    let mut others = Vec::new(alloc);
    for step in steps {
        if !is_number(step) {
            others.push(*step)?;
        }
    }
    Ok(others)
}

// Whether none of these steps makes a single number.
pub(crate) fn have_no_number(steps: &[Step]) -> bool
    ensures { IsTrue result → number_steps steps.now ≡ [] }
{
    for step in steps {
        if is_number(step) {
            return false;
        }
    }
    true
}

// Whether two kinds are equal.
fn is_same_kind(one: Kind, other: Kind) -> bool
    ensures { result ≡ true → one ≡ other }
{
    one == other
}

// Whether two numbers of the sender's are one.
fn is_same_source(one: &Source, other: &Source) -> bool
    ensures { result ≡ true → one.now ≡ other.now }
{
    if one.offset != other.offset {
        return false;
    }
    if one.size != other.size {
        return false;
    }
    is_same_kind(one.kind, other.kind)
}

// Whether it is a number of 4 bytes that is read as it stands.
fn is_count(source: &Source) -> bool
    ensures { result ≡ true → (source.now.size ≡ 4) × (is_plain_kind source.now.kind ≡ true) }
{
    let plain = match source.kind {
        Kind::Int | Kind::Unsigned | Kind::Char | Kind::Enumeration => true,
        Kind::Boolean => false,
    };
    source.size == 4 && plain
}

// Whether numbers of that kind have a sign.
fn is_signed(kind: Kind) -> bool
    ensures { result ≡ is_signed kind }
{
    match kind {
        Kind::Int | Kind::Enumeration => true,
        Kind::Unsigned | Kind::Char | Kind::Boolean => false,
    }
}

// The form of numbers of so many bytes, made of others of that kind and of `width` bytes.
fn form_of(from: Kind, width: u32, size: u32) -> Option<Form>
    ensures { IfSome result (λ form. (width ≡ width_of form)
        × ((size ≡ size_of form) × (is_signed from ≡ true))) }
{
    if !is_signed(from) {
        return None;
    }
    if width == 2 && size == 8 {
        return Some(Form::TwoToEight);
    }
    if width == 4 && size == 8 {
        return Some(Form::FourToEight);
    }
    if width == 2 && size == 4 {
        return Some(Form::TwoToFour);
    }
    None
}

// Whether the sender's array has as many elements of so many bytes as that number says, side by
// side behind a pointer.
fn is_run_of(run: &Run, count: &Source, width: u32) -> bool
    ensures { result ≡ true → run.now ≡ record {
      count = Standing count.now;
      pointed = true;
      offset = run.now.offset;
      stride = width;
    } }
{
    let Origin::Standing(own) = &run.count else {
        return false;
    };
    if !run.pointed {
        return false;
    }
    if run.stride != width {
        return false;
    }
    is_same_source(own, count)
}

// The array of a step, where it makes one of these forms.
fn array_of(step: &Step) -> Option<Array>
    ensures { IfSome result (λ array. IsArrayOf array step.now) }
{
    let Op::Many(origin, elements) = &step.task.op else {
        return None;
    };
    let Origin::Standing(count) = origin else {
        return None;
    };
    let Part::Number(kind, from, width) = &elements.part else {
        return None;
    };
    let Some(run) = &elements.run else {
        return None;
    };
    if !is_run_of(run, count, *width) || !is_count(count) {
        return None;
    }
    let Some(form) = form_of(*from, *width, step.task.size) else {
        return None;
    };
    if !covers(*kind, step.task.size, *from, *width) {
        return None;
    }
    Some(Array {
        count: count.offset,
        from: run.offset,
        to: step.task.offset,
        form,
    })
}

// The block of a step, where it makes one.
fn block_of(step: &Step) -> Option<Block>
    ensures { IfSome result (λ block. IsBlockOf block step.now) }
{
    if let Op::Text(Some(from)) = &step.task.op {
        return Some(Block::Text(Text {
            from: *from,
            to: step.task.offset,
        }));
    }
    match array_of(step) {
        Some(array) => Some(Block::Array(array)),
        None => None,
    }
}

// The block of each of these steps, where each makes one.
pub(crate) fn blocks_of(alloc: Global, steps: &[Step]) -> Result<Option<Vec<Block>>, Memory>
    ensures { IfOk result (λ made. IfSome made (λ blocks. AreBlocksOf blocks.items steps.now)) }
{
    let mut blocks = Vec::with_capacity(alloc, steps.len())?;
    for step in steps {
        let Some(block) = block_of(step) else {
            return Ok(None);
        };
        blocks.push(block)?;
    }
    Ok(Some(blocks))
}

// Whether the bytes of a number don't meet a pointer of 8 bytes.
fn is_beside(pointer: &Step, number: &Step) -> bool
    ensures { IsTrue result → IsBeside pointer.now number.now }
{
    let to = u64::from(pointer.task.offset);
    let begin = u64::from(number.task.offset);
    begin + u64::from(number.task.size) <= to || to + 8 <= begin
}

// Whether none of these numbers meets that pointer.
fn are_beside(pointer: &Step, numbers: &[Step]) -> bool
    ensures { IsTrue result → All (IsBeside pointer.now) numbers.now }
{
    for number in numbers {
        if !is_beside(pointer, number) {
            return false;
        }
    }
    true
}

// Whether none of these numbers meets one of these pointers.
pub(crate) fn are_apart(pointers: &[Step], numbers: &[Step]) -> bool
    ensures { IsTrue result → AreApart pointers.now numbers.now }
{
    for pointer in pointers {
        if !are_beside(pointer, numbers) {
            return false;
        }
    }
    true
}
