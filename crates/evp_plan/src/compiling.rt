//! What the bytes of a receiver's record are made from, for steps that make single numbers.

ghost use Rattle.std.specs.Prelude.{◌≡◌, ◌+◌, ◌<◌, ◌≤◌, ◌^◌, true, length, get_or, replicate, IfOk};
ghost use Rattle.std.specs.Prelude.{IfSome};
ghost use Rattle.std.specs.List.{list_all};
ghost use Rattle.evp_plan.specs.Cells.{bytes_from, turned, resized, top_offset, filling};
ghost use Rattle.evp_plan.specs.Cells.{number_cells, over, overlaid, blend_cell, gather_cells};
ghost use Rattle.evp_plan.specs.Cells.{gathers_over, op_cells, steps_over, end_of, source_end};
ghost use Rattle.evp_plan.specs.Cells.{reach_of, is_plain_op};
ghost use Rattle.evp_plan.specs.Pairs.{in_pairs, all_over};

use crate::gather::{Gather, Gathers, Pair};
use crate::{Cell, Op, Origin, Source, Step, Task};
use evp_base::{Kind, Memory, Order};
use std::alloc::Global;

// So many bytes from an offset on.
fn bytes_from(alloc: Global, offset: u32, count: u32) -> Result<Vec<Cell>, Memory>
    requires { offset + count < 2 ^ 32 }
    ensures { IfOk result (λ cells. cells.items ≡ bytes_from offset count) }
{
    let mut cells = Vec::with_capacity(alloc, 8)?;
    for k in 0..count {
        cells.push(Cell::Byte(offset + k))?;
    }
    Ok(cells)
}

// The lowest first, or back.
fn turn(cells: &mut Vec<Cell>, order: Order)
    ensures { cells.new.items ≡ turned order cells.old.items }
{
    if order == Order::Big {
        cells.reverse();
    }
}

// What fills up the sender's number, whose bytes have this order.
fn filling(source: &Source, order: Order) -> Cell
    requires room { source.now.offset + source.now.size < 2 ^ 32 }
    requires some { 1 ≤ source.now.size }
    ensures { result ≡ filling source.now.kind (top_offset order source.now.offset source.now.size) }
{
    let top = match order {
        Order::Little => source.offset + source.size - 1,
        Order::Big => source.offset,
    };
    match source.kind {
        Kind::Int | Kind::Enumeration => Cell::Sign(top),
        Kind::Unsigned | Kind::Char | Kind::Boolean => Cell::Constant(0),
    }
}

// The cell of that number, or one for all behind the last.
fn cell_or(cells: &[Cell], k: usize, more: Cell) -> Cell
    ensures { result ≡ get_or cells.now k more }
{
    if k < cells.len() { cells[k] } else { more }
}

// Cut or filled up to a size.
fn resized(alloc: Global, cells: &[Cell], size: u32, more: Cell) -> Result<Vec<Cell>, Memory>
    ensures { IfOk result (λ made. made.items ≡ resized size more cells.now) }
{
    let mut made = Vec::with_capacity(alloc, 8)?;
    for k in 0..size as usize {
        made.push(cell_or(cells, k, more))?;
    }
    Ok(made)
}

// The cells of a number of `size` bytes, from the sender's.
fn number_cells(
    alloc: Global,
    order: Order,
    size: u32,
    from: Order,
    source: &Source,
) -> Result<Vec<Cell>, Memory>
    requires room { source.now.offset + source.now.size < 2 ^ 32 }
    requires some { 1 ≤ source.now.size }
    ensures { IfOk result (λ cells. cells.items
        ≡ number_cells order size from source.now.kind source.now.offset source.now.size) }
{
    let mut cells = bytes_from(alloc, source.offset, source.size)?;
    turn(&mut cells, from);
    let mut made = resized(alloc, cells.as_slice(), size, filling(source, from))?;
    turn(&mut made, order);
    Ok(made)
}

// What is made by the first, where the second was made before.
fn over(upper: Cell, below: Cell) -> Cell
    ensures { result ≡ over upper below }
{
    match upper {
        Cell::Keep => below,
        Cell::Constant(_) | Cell::Byte(_) | Cell::Sign(_) => upper,
    }
}

// The cells, with others laid over those from a place on.
fn lay_over(cells: &mut [Cell], place: usize, upper: &[Cell])
    requires { place + length upper.now ≤ length cells.old }
    ensures { cells.new ≡ overlaid place upper.now cells.old }
{
    for k in 0..upper.len() {
        cells[place + k] = over(upper[k], cells[place + k]);
    }
}

// What is made where a gather picks the byte at that place, or its sign, keeps those bits and sets
// these.
fn blend_cell(signed: bool, at: u32, place: u8, keep: u8, constant: u8) -> Cell
    requires { at + 16 < 2 ^ 32 }
    ensures { result ≡ blend_cell signed at place keep constant }
{
    if place < 16 {
        let offset = at + u32::from(place);
        if signed {
            Cell::Sign(offset)
        } else {
            Cell::Byte(offset)
        }
    } else if keep == 0 {
        Cell::Constant(constant)
    } else {
        Cell::Keep
    }
}

// The cells of a gather.
fn gather_cells(alloc: Global, gather: &Gather) -> Result<Vec<Cell>, Memory>
    requires { gather.now.at + 16 < 2 ^ 32 }
    ensures { IfOk result (λ cells. cells.items ≡ gather_cells gather.now) }
{
    let blend = &gather.blend;
    let mut cells = Vec::with_capacity(alloc, 16)?;
    for k in 0..16usize {
        let place = blend.mask.places[k];
        let (keep, constant) = (blend.keep[k], blend.constant[k]);
        cells.push(blend_cell(gather.signed, gather.at, place, keep, constant))?;
    }
    Ok(cells)
}

// The cells, with those of the gather laid over, where it has room.
fn lay_gather(alloc: Global, gather: &Gather, cells: &mut [Cell]) -> Result<bool, Memory>
    ensures { IfOk result (λ fits. fits ≡ true
        → cells.new ≡ overlaid gather.now.to (gather_cells gather.now) cells.old) }
{
    let to = gather.to as usize;
    if gather.at > MOST || to + 16 > cells.len() {
        return Ok(false);
    }
    let upper = gather_cells(alloc, gather)?;
    if upper.len() != 16 {
        return Ok(false);
    }
    lay_over(cells, to, upper.as_slice());
    Ok(true)
}

// The cells, with those of the gathers laid over, where they have room.
fn lay_gathers(alloc: Global, gathers: &[Gather], cells: &mut [Cell]) -> Result<bool, Memory>
    ensures { IfOk result (λ fits. fits ≡ true → cells.new ≡ gathers_over gathers.now cells.old) }
{
    for gather in gathers {
        if !lay_gather(alloc, gather, cells)? {
            return Ok(false);
        }
    }
    Ok(true)
}

// The cells, with those of the pairs laid over, where they have room.
fn lay_pairs(alloc: Global, pairs: &[Pair], cells: &mut [Cell]) -> Result<bool, Memory>
    ensures { IfOk result (λ fits. fits ≡ true
        → cells.new ≡ gathers_over (in_pairs pairs.now) cells.old) }
{
    for pair in pairs {
        if !lay_gather(alloc, &pair.one, cells)? || !lay_gather(alloc, &pair.two, cells)? {
            return Ok(false);
        }
    }
    Ok(true)
}

// The cells, with those of all gathers of a record laid over, where they have room.
pub(crate) fn lay_all(alloc: Global, gathers: &Gathers, cells: &mut [Cell]) -> Result<bool, Memory>
    ensures { IfOk result (λ fits. fits ≡ true → cells.new ≡ all_over gathers.now cells.old) }
{
    if !lay_gathers(alloc, gathers.plain.as_slice(), cells)? {
        return Ok(false);
    }
    if !lay_pairs(alloc, gathers.pairs.as_slice(), cells)? {
        return Ok(false);
    }
    lay_gathers(alloc, gathers.mixed.as_slice(), cells)
}

// The most bytes of a record that is moved by gathers.
pub(crate) const MOST: u32 = 4096;

// The cells of a field that is a single number from the sender's, where it is plain.
fn op_cells(
    alloc: Global,
    order: Order,
    from: Order,
    task: &Task,
) -> Result<Option<Vec<Cell>>, Memory>
    ensures cells { IfOk result (λ made. IfSome made (λ cells. cells.items
        ≡ op_cells order task.now.size from task.now.op)) }
    ensures plain { IfOk result (λ made. IfSome made (λ _. is_plain_op task.now.op ≡ true)) }
{
    let Op::Number(_, Origin::Standing(source)) = &task.op else {
        return Ok(None);
    };
    if source.kind == Kind::Boolean || source.offset > MOST || source.size < 1 || source.size > 8 {
        return Ok(None);
    }
    Ok(Some(number_cells(alloc, order, task.size, from, source)?))
}

// The cells, with those of the step laid over, where it is plain and has room.
fn lay_step(
    alloc: Global,
    order: Order,
    from: Order,
    task: &Task,
    cells: &mut [Cell],
) -> Result<bool, Memory>
    ensures cells { IfOk result (λ laid. laid ≡ true → cells.new
        ≡ overlaid task.now.offset (op_cells order task.now.size from task.now.op) cells.old) }
    ensures plain { IfOk result (λ laid. laid ≡ true → is_plain_op task.now.op ≡ true) }
{
    let Some(upper) = op_cells(alloc, order, from, task)? else {
        return Ok(false);
    };
    let place = task.offset as usize;
    if upper.len() > 8 || place + upper.len() > cells.len() {
        return Ok(false);
    }
    lay_over(cells, place, upper.as_slice());
    Ok(true)
}

// The cells, with those of the steps laid over, where all are plain.
pub(crate) fn lay_steps(
    alloc: Global,
    order: Order,
    from: Order,
    steps: &[Step],
    cells: &mut [Cell],
) -> Result<bool, Memory>
    ensures cells { IfOk result (λ laid. laid ≡ true → cells.new
        ≡ steps_over order from steps.now cells.old) }
    ensures plain { IfOk result (λ laid. laid ≡ true
        → list_all (λ step. is_plain_op step.task.op) steps.now ≡ true) }
{
    for step in steps {
        if !lay_step(alloc, order, from, &step.task, cells)? {
            return Ok(false);
        }
    }
    Ok(true)
}

// Where the last of the fields ends.
pub(crate) fn end_of(steps: &[Step]) -> u64
    ensures value { result ≡ end_of steps.now }
    ensures small { result < 2 ^ 33 }
{
    let mut end = 0;
    for step in steps {
        let next = u64::from(step.task.offset) + u64::from(step.task.size);
        if next > end {
            end = next;
        }
    }
    end
}

// Where the sender's number ends.
fn source_end(op: &Op) -> u64
    ensures value { result ≡ source_end op.now }
    ensures small { result < 2 ^ 33 }
{
    match op {
        Op::Number(_, Origin::Standing(source)) => {
            u64::from(source.offset) + u64::from(source.size)
        }
        _ => 0,
    }
}

// Where the last of the sender's numbers ends.
pub(crate) fn reach_of(steps: &[Step]) -> u64
    ensures value { result ≡ reach_of steps.now }
    ensures small { result < 2 ^ 33 }
{
    let mut reach = 0;
    for step in steps {
        let next = source_end(&step.task.op);
        if next > reach {
            reach = next;
        }
    }
    reach
}

// So many cells of one kind.
pub(crate) fn filled(alloc: Global, cell: Cell, count: usize) -> Result<Vec<Cell>, Memory>
    requires { count < 2 ^ 31 }
    ensures { IfOk result (λ cells. cells.items ≡ replicate count cell) }
{
    Ok(vec![in alloc; cell; count]?)
}

// Whether two cells are equal.
fn is_same(one: Cell, other: Cell) -> bool
    ensures { result ≡ true → one ≡ other }
{
    one == other
}

// Whether two lists of cells are equal.
pub(crate) fn are_same(some: &[Cell], others: &[Cell]) -> bool
    ensures { result ≡ true → some.now ≡ others.now }
{
    if some.len() != others.len() {
        return false;
    }
    for k in 0..some.len() {
        if !is_same(some[k], others[k]) {
            return false;
        }
    }
    true
}
