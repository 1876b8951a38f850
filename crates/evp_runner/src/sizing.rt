//! Sizes of records that are made without a look at their steps.

ghost use Rattle.std.specs.Prelude.{◌≡◌, ◌+◌, ◌^◌, ◌<◌, ◌≤◌, length, IfSome};
ghost use Rattle.std.specs.List.{All};
ghost use Rattle.evp_format.specs.Bytes.{next_block};
ghost use Rattle.evp_plan.specs.Laid.{size_of};
ghost use Rattle.evp_plan.specs.Standing.{text_by};
ghost use Rattle.evp_runner.specs.Sizing.{image_by_eight, IsBlockInside, text_end, numbers_end};
ghost use Rattle.evp_runner.specs.Sizing.{count_of, EndsAt, AllEndAt};

use crate::words::{eight_at, four_at};
use evp_base::Order;
use evp_plan::{Array, Block, Form, Text};
use evp_wide::{counts_some, near_zero};

/// Where the next block begins.
#[inline(always)]
pub(crate) fn aligned(size: usize) -> usize
    requires { size + 7 < 2 ^ 64 }
    ensures { result ≡ next_block size }
{
    (size + 7) / 8 * 8
}

// Bytes of a number of the receiver's.
#[inline(always)]
fn number_size(form: Form) -> usize
    ensures { result ≡ size_of form }
{
    match form {
        Form::TwoToEight | Form::FourToEight => 8,
        Form::TwoToFour => 4,
    }
}

// The size behind a text, where its end stands near.
#[inline(always)]
fn size_of_text(bytes: &[u8], text: &Text, order: Order, size: usize) -> Option<usize>
    requires inside { text.now.from + 8 ≤ length bytes.now }
    requires short { length bytes.now < 2 ^ 32 }
    requires size_small { size < 2 ^ 60 }
    ensures ends { IfSome result (λ end. end
        ≡ text_end (text_by (image_by_eight order bytes.now) text.now.from) size) }
    ensures more { IfSome result (λ end. size ≤ end) }
    ensures bound { IfSome result (λ end. end ≤ size + 2 ^ 35) }
{
    let from = eight_at(bytes, text.from, order);
    let Some(length) = near_zero(bytes, from) else {
        return if from == 0 { Some(size) } else { None };
    };
    Some(aligned(size) + length + 1)
}

// The size behind an array, where its count can't be below 0.
#[inline(always)]
fn size_of_array(bytes: &[u8], array: &Array, order: Order, size: usize) -> Option<usize>
    requires inside { array.now.count + 4 ≤ length bytes.now }
    requires size_small { size < 2 ^ 60 }
    ensures few { IfSome result (λ _. count_of (image_by_eight order bytes.now) array.now < 2 ^ 31) }
    ensures ends { IfSome result (λ end. end
        ≡ numbers_end (count_of (image_by_eight order bytes.now) array.now) (size_of array.now.form)
        size) }
    ensures more { IfSome result (λ end. size ≤ end) }
    ensures bound { IfSome result (λ end. end ≤ size + 2 ^ 35) }
{
    let n = four_at(bytes, array.count, order);
    if !counts_some(n) {
        return if n == 0 { Some(size) } else { None };
    }
    Some(aligned(size) + n * number_size(array.form))
}

// The size behind a block.
#[inline(always)]
fn size_of_block(bytes: &[u8], block: &Block, order: Order, size: usize) -> Option<usize>
    requires inside { IsBlockInside bytes.now block.now }
    requires short { length bytes.now < 2 ^ 32 }
    requires size_small { size < 2 ^ 60 }
    ensures ends { IfSome result (λ end. EndsAt (image_by_eight order bytes.now) block.now size end) }
    ensures more { IfSome result (λ end. size ≤ end) }
    ensures bound { IfSome result (λ end. end ≤ size + 2 ^ 35) }
{
    match block {
        Block::Text(text) => size_of_text(bytes, text, order, size),
        Block::Array(array) => size_of_array(bytes, array, order, size),
    }
}

// The size behind the blocks, from an order that the compiler knows. The sizes rise, so that the
// last alone is held against the limit.
#[inline(always)]
fn size_by(blocks: &[Block], bytes: &[u8], order: Order, fixed: usize, limit: u32) -> Option<usize>
    requires inside { All (IsBlockInside bytes.now) blocks.now }
    requires short { length bytes.now < 2 ^ 32 }
    requires fixed_small { fixed < 2 ^ 32 }
    requires few { length blocks.now ≤ 2 ^ 20 }
    ensures ends { IfSome result (λ end. AllEndAt (image_by_eight order bytes.now) blocks.now fixed
        end) }
    ensures limited { IfSome result (λ end. end ≤ limit) }
{
    let mut size = fixed;
    for block in blocks {
        let Some(end) = size_of_block(bytes, block, order, size) else {
            return None;
        };
        size = end;
    }
    if size > limit as usize {
        return None;
    }
    Some(size)
}

/// The size behind the blocks of a record whose fixed part has so many bytes, where it is easily
/// found and the limit allows it. Pointers have 8 bytes.
#[inline(always)]
pub(crate) fn laid_size(
    blocks: &[Block],
    bytes: &[u8],
    order: Order,
    fixed: usize,
    limit: u32,
) -> Option<usize>
    requires inside { All (IsBlockInside bytes.now) blocks.now }
    requires short { length bytes.now < 2 ^ 32 }
    requires fixed_small { fixed < 2 ^ 32 }
    requires few { length blocks.now ≤ 2 ^ 20 }
    ensures ends { IfSome result (λ end. AllEndAt (image_by_eight order bytes.now) blocks.now fixed
        end) }
    ensures limited { IfSome result (λ end. end ≤ limit) }
{
    if bytes.len() < 16 {
        return None;
    }
    match order {
        Order::Little => size_by(blocks, bytes, Order::Little, fixed, limit),
        Order::Big => size_by(blocks, bytes, Order::Big, fixed, limit),
    }
}
