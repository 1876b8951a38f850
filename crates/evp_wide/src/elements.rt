//! Arrays moved element by element, sixteen bytes at a time where there are so many.
ghost use Rattle.std.specs.Prelude.{◌≡◌, ◌+◌, ◌*◌, ◌<◌, ◌≤◌, ℕ, length, take, flat_map};
ghost use Rattle.evp_wide.specs.Gathered.{gathered};
ghost use Rattle.evp_wide.specs.Groups.{groups};
ghost use Rattle.evp_wide.specs.Blocks.{AreMade};

use crate::lanes::{gather_few, gather_lanes};
use crate::mover::Mover;
use std::simd::prelude::*;

// How many blocks of sixteen bytes there are on both sides, where each of `from` begins `step`
// bytes behind the one before.
#[inline(always)]
fn block_count(out: usize, from: usize, step: usize) -> usize
    requires { 0 < step }
    ensures out { result * 16 ≤ out }
    ensures from { (k : ℕ) → k < result → k * step + 16 ≤ from }
{
    if from < 16 {
        return 0;
    }
    (out / 16).min((from - 16) / step + 1)
}

// Makes the elements of a block, where those of the blocks before it stand.
#[inline(always)]
fn move_block(out: &mut [u8], from: &[u8], mover: &Mover, block: usize)
    requires out { block * 16 + 16 ≤ length out.old }
    requires from { block * (mover.now.from_size * mover.now.count) + 16 ≤ length from.now }
    requires before { AreMade mover.now from.now block out.old }
    ensures { AreMade mover.now from.now (block + 1) out.new }
{
    let step = mover.from_size * mover.count;
    let mask = u8x16::from_array(mover.mask);
    gather_lanes(out, block * 16, from, block * step, mask);
}

// Makes the elements of so many times four blocks. A loop of single ones takes as long as the
// processor takes to begin it again.
#[inline(always)]
fn move_fours(out: &mut [u8], from: &[u8], mover: &Mover, fours: usize)
    requires out { fours * 4 * 16 ≤ length out.old }
    requires from { (k : ℕ) → k < fours * 4
        → k * (mover.now.from_size * mover.now.count) + 16 ≤ length from.now }
    ensures { AreMade mover.now from.now (fours * 4) out.new }
{
    for four in 0..fours {
        move_block(out, from, mover, four * 4);
        move_block(out, from, mover, four * 4 + 1);
        move_block(out, from, mover, four * 4 + 2);
        move_block(out, from, mover, four * 4 + 3);
    }
}

// Makes elements while sixteen bytes are left on both sides, and tells how many.
#[inline(always)]
fn move_blocks(out: &mut [u8], from: &[u8], mover: &Mover) -> usize
    ensures length { length out.new ≡ length out.old }
    ensures within { result * mover.now.out_size ≤ length out.new }
    ensures made { take (result * mover.now.out_size) out.new
        ≡ flat_map (gathered (take mover.now.out_size mover.now.mask))
        (groups mover.now.from_size result from.now) }
{
    let blocks = block_count(out.len(), from.len(), mover.from_size * mover.count);
    let fours = blocks / 4;
    move_fours(out, from, mover, fours);
    for block in fours * 4..blocks {
        move_block(out, from, mover, block);
    }
    blocks * mover.count
}

// Makes the elements from number `done` on, one by one.
fn move_rest(out: &mut [u8], from: &[u8], mover: &Mover, done: usize, number: usize)
    requires out { length out.old ≡ number * mover.now.out_size }
    requires from { length from.now ≡ number * mover.now.from_size }
    requires done { done ≤ number }
    requires made { take (done * mover.now.out_size) out.old
        ≡ flat_map (gathered (take mover.now.out_size mover.now.mask))
        (groups mover.now.from_size done from.now) }
    ensures { out.new
        ≡ flat_map (gathered (take mover.now.out_size mover.now.mask))
        (groups mover.now.from_size number from.now) }
{
    for element in done..number {
        let out_at = element * mover.out_size;
        let from_at = element * mover.from_size;
        gather_few(
            &mut out[out_at..out_at + mover.out_size],
            &from[from_at..from_at + mover.from_size],
            &mover.mask,
        );
    }
}

/// Makes all elements.
#[inline(always)]
pub(crate) fn move_elements(out: &mut [u8], from: &[u8], mover: &Mover, number: usize)
    requires out { length out.old ≡ number * mover.now.out_size }
    requires from { length from.now ≡ number * mover.now.from_size }
    ensures { out.new
        ≡ flat_map (gathered (take mover.now.out_size mover.now.mask))
        (groups mover.now.from_size number from.now) }
{
    let done = move_blocks(out, from, mover);
    move_rest(out, from, mover, done, number);
}
