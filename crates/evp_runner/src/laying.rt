//! Records laid without a look at their steps: the numbers by moves, then block by block.

ghost use Rattle.std.specs.Prelude.{◌≡◌, ◌+◌, ◌*◌, ◌-◌, ◌++◌, ◌<◌, ◌≤◌, pos};
ghost use Rattle.std.specs.Prelude.{◌^◌, length, take, drop, replicate, IsTrue};
ghost use Rattle.evp_base.specs.Numbers.{digits, is_width, magnitude};
ghost use Rattle.evp_base.specs.declared.kind.Kind.TheVariants.{Int};
ghost use Rattle.evp_format.specs.Bytes.{next_block, put_at, bytes_at};
ghost use Rattle.evp_plan.specs.Laid.{width_of, size_of};
ghost use Rattle.evp_plan.specs.declared.block.Block.TheVariants as block;
ghost use Rattle.evp_wide.specs.Elements.{rewritten};
ghost use Rattle.evp_runner.specs.Laying.{AreOrders, CanLay, AreLaid, CanLayAll, AreNumbersMade};
ghost use Rattle.evp_runner.specs.Laying.{all_moved};
ghost use Rattle.evp_runner.specs.Pieces.{IsPut};
ghost use Rattle.evp_runner.specs.Sizing.{image_by_eight};
ghost use Rattle.evp_runner.specs.StepIn.{image_in};

use crate::moving::Move;
use crate::sender::{Sender, are_bytes};
use crate::sizing::aligned;
use crate::words::{eight_at, four_at};
use evp_base::Order;
use evp_plan::{Array, Block, Form, Laid, Plan, Text};
use evp_wide::{counts_some, put_signed, put_text, put_word};

// The pointer of 8 bytes to the block at q, or 0.
#[inline]
fn point(out: &mut [u8], t: u32, order: Order, q: usize)
    requires { t + 8 ≤ length out.old }
    ensures { out.new ≡ put_at t (digits order 8 (pos q)) out.old }
{
    let t = t as usize;
    put_word(&mut out[t..t + 8], order, q as u64);
}

// Eight zeros behind the first so many bytes.
#[inline(always)]
fn clear_gap(out: &mut [u8], size: usize)
    requires { size + 8 ≤ length out.old }
    ensures { out.new ≡ put_at size (replicate 8 0) out.old }
{
    put_word(&mut out[size..size + 8], Order::Little, 0);
}

// A null pointer, and nothing behind the first `size` bytes, where a sender's pointer or count is 0;
// answers that size. None, and nothing is written, where it isn't.
#[inline(always)]
fn lay_none(out: &mut [u8], to: u32, order: Order, size: usize, word: usize) -> Option<usize>
    requires { to + 8 ≤ length out.old }
    ensures null { word ≡ 0 → (result ≡ Some size)
        × (out.new ≡ put_at to (digits order 8 (pos 0)) out.old) }
    ensures other { (word ≡ 0 → ⊥) → result ≡ None }
{
    if word != 0 {
        return None;
    }
    point(out, to, order, 0);
    Some(size)
}

// Zeros up to the next place of a block, and from there on n signed numbers of so many bytes, made
// of others. There are at least 8 bytes of them.
#[inline(always)]
fn put_block(
    out: &mut [u8],
    size: usize,
    to_size: usize,
    to_order: Order,
    bytes: &[u8],
    s: usize,
    width: usize,
    order: Order,
    n: usize,
)
    requires size { IsTrue (is_width to_size) }
    requires width { IsTrue (is_width width) }
    requires from { s + n * width ≤ length bytes.now }
    requires out { next_block size + n * to_size ≤ length out.old }
    requires long { 8 ≤ n * to_size }
    ensures { take (next_block size + n * to_size) out.new ≡ take size out.old
        ++ replicate (next_block size - size) 0
        ++ rewritten Int to_order to_size order width (take (n * width) (drop s bytes.now)) }
{
    let q = aligned(size);
    clear_gap(out, size);
    put_signed(out, q, to_size, to_order, bytes, s, width, order, n);
}

// The text behind the first `size` bytes, with its pointer; answers the size behind it, or none
// where it isn't easily laid.
#[inline(always)]
fn lay_text(
    work: &Move,
    text: &Text,
    order: Order,
    out: &mut [u8],
    to_order: Order,
    size: usize,
) -> Option<usize>
    requires orders { AreOrders work.now.plan.now (image_in work.now.sender) order to_order }
    requires can { CanLay work.now.plan.now (image_in work.now.sender) (block.Text text.now) size
        (length out.old) }
    ensures { AreLaid work.now.plan.now (image_in work.now.sender) (block.Text text.now) size
        out.old out.new result }
{
    let from = eight_at(work.sender.bytes, text.from, order);
    let q = aligned(size);
    let Some(count) = put_text(out, size, q, work.sender.bytes, from) else {
        return lay_none(out, text.to, to_order, size, from);
    };
    point(out, text.to, to_order, q);
    Some(q + count + 1)
}

// The same for an array of numbers of these sizes, of which there are some.
#[inline(always)]
fn lay_numbers(
    work: &Move,
    array: &Array,
    order: Order,
    out: &mut [u8],
    to_order: Order,
    size: usize,
    n: usize,
    width: usize,
    to_size: usize,
) -> Option<usize>
    requires orders { AreOrders work.now.plan.now (image_in work.now.sender) order to_order }
    requires can { CanLay work.now.plan.now (image_in work.now.sender) (block.Array array.now) size
        (length out.old) }
    requires count { n ≡ magnitude order (bytes_at array.now.count 4 work.now.sender.bytes.now) }
    requires some { 0 < n }
    requires small { n < 2 ^ 31 }
    requires width { width ≡ width_of array.now.form }
    requires size { to_size ≡ size_of array.now.form }
    ensures { AreLaid work.now.plan.now (image_in work.now.sender) (block.Array array.now) size
        out.old out.new result }
{
    // the gap's zeros would reach behind the block
    if to_size < 8 && n == 1 {
        return None;
    }
    let s = eight_at(work.sender.bytes, array.from, order);
    put_block(
        out,
        size,
        to_size,
        to_order,
        work.sender.bytes,
        s,
        width,
        order,
        n,
    );
    let q = aligned(size);
    point(out, array.to, to_order, q);
    Some(q + n * to_size)
}

// The same for an array.
#[inline(always)]
fn lay_array(
    work: &Move,
    array: &Array,
    order: Order,
    out: &mut [u8],
    to_order: Order,
    size: usize,
) -> Option<usize>
    requires orders { AreOrders work.now.plan.now (image_in work.now.sender) order to_order }
    requires can { CanLay work.now.plan.now (image_in work.now.sender) (block.Array array.now) size
        (length out.old) }
    ensures { AreLaid work.now.plan.now (image_in work.now.sender) (block.Array array.now) size
        out.old out.new result }
{
    let n = four_at(work.sender.bytes, array.count, order);
    if !counts_some(n) {
        return lay_none(out, array.to, to_order, size, n);
    }
    match array.form {
        Form::TwoToEight => lay_numbers(work, array, order, out, to_order, size, n, 2, 8),
        Form::FourToEight => lay_numbers(work, array, order, out, to_order, size, n, 4, 8),
        Form::TwoToFour => lay_numbers(work, array, order, out, to_order, size, n, 2, 4),
    }
}

// The same for a block.
#[inline(always)]
fn lay_block(
    work: &Move,
    block: &Block,
    order: Order,
    out: &mut [u8],
    to_order: Order,
    size: usize,
) -> Option<usize>
    requires orders { AreOrders work.now.plan.now (image_in work.now.sender) order to_order }
    requires can { CanLay work.now.plan.now (image_in work.now.sender) block.now size
        (length out.old) }
    ensures { AreLaid work.now.plan.now (image_in work.now.sender) block.now size out.old out.new
        result }
{
    match block {
        Block::Text(text) => lay_text(work, text, order, out, to_order, size),
        Block::Array(array) => lay_array(work, array, order, out, to_order, size),
    }
}

// The blocks behind the fixed part, which was made, from and to orders that the compiler knows.
#[inline(always)]
fn lay_blocks_by(work: &Move, laid: &Laid, order: Order, out: &mut [u8], to_order: Order) -> bool
    requires orders { AreOrders work.now.plan.now (image_in work.now.sender) order to_order }
    requires can { CanLayAll work.now.plan.now (image_in work.now.sender) laid.now
        (length out.old) }
    requires made { AreNumbersMade (image_in work.now.sender) laid.now out.old }
    ensures { IsTrue result → IsPut (all_moved work.now.plan.now (image_in work.now.sender)
        (length laid.now.numbers.cells)) (length out.new) (replicate (length out.new) 0) out.new }
{
    let numbers = laid.numbers();
    let mut size = numbers.length();
    for block in laid.blocks() {
        let Some(end) = lay_block(work, block, order, out, to_order, size) else {
            return false;
        };
        size = end;
    }
    true
}

// The same from and to any orders.
#[inline(always)]
fn lay_blocks(work: &Move, laid: &Laid, order: Order, out: &mut [u8], to_order: Order) -> bool
    requires orders { AreOrders work.now.plan.now (image_in work.now.sender) order to_order }
    requires can { CanLayAll work.now.plan.now (image_in work.now.sender) laid.now
        (length out.old) }
    requires made { AreNumbersMade (image_in work.now.sender) laid.now out.old }
    ensures { IsTrue result → IsPut (all_moved work.now.plan.now (image_in work.now.sender)
        (length laid.now.numbers.cells)) (length out.new) (replicate (length out.new) 0) out.new }
{
    match (order, to_order) {
        (Order::Little, Order::Little) => {
            lay_blocks_by(work, laid, Order::Little, out, Order::Little)
        }
        (Order::Little, Order::Big) => lay_blocks_by(work, laid, Order::Little, out, Order::Big),
        (Order::Big, Order::Little) => lay_blocks_by(work, laid, Order::Big, out, Order::Little),
        (Order::Big, Order::Big) => lay_blocks_by(work, laid, Order::Big, out, Order::Big),
    }
}

/// Makes all of the record, whatever stood there, where each of its blocks is easily laid; else
/// `out` may be anything. The sender's record has these bytes, numbers of this order and pointers of
/// 8 bytes.
#[inline(always)]
pub(crate) fn lay<'a>(
    plan: &'a Plan,
    laid: &Laid,
    bytes: &'a [u8],
    order: Order,
    out: &mut [u8],
) -> bool
    requires short { length bytes.now < 2 ^ 32 }
    requires to_pointer { plan.now.pointer ≡ 8 }
    requires can { CanLayAll plan.now (image_by_eight order bytes.now) laid.now (length out.old) }
    ensures { IsTrue result → IsPut (all_moved plan.now (image_by_eight order bytes.now)
        (length laid.now.numbers.cells)) (length out.new) (replicate (length out.new) 0) out.new }
{
    if bytes.len() < 16 {
        return false;
    }
    are_bytes(bytes);
    let sender = Sender {
        bytes,
        order,
        pointer: 8,
    };
    let work = Move { plan, sender };
    let numbers = laid.numbers();
    numbers.run(out, 0, bytes, 0);
    lay_blocks(&work, laid, order, out, plan.order())
}
