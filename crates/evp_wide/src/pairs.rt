//! Sixteen bytes at once from two windows of sixteen.
ghost use Rattle.std.specs.Prelude.{◌≡◌, ◌+◌, ◌≤◌, ◌++◌, length, take, drop};
ghost use Rattle.evp_wide.specs.Gathered.{gathered, signs_gathered, with_constant};

use crate::Mask;
use std::simd::prelude::*;

/// Writes sixteen bytes from `to` on: those that the mask picks of the sixteen from `at` on, or'ed
/// with those that the other mask picks of the sixteen from `other_at` on. It takes no memory.
#[inline(always)]
pub fn gather_two(
    out: &mut [u8],
    to: usize,
    from: &[u8],
    at: usize,
    mask: &Mask,
    other_at: usize,
    other_mask: &Mask,
)
    requires window { at + 16 ≤ length from.now }
    requires other_window { other_at + 16 ≤ length from.now }
    requires room { to + 16 ≤ length out.old }
    ensures { out.new
        ≡ take to out.old
        ++ (with_constant (gathered mask.now.places (drop at from.now))
        (gathered other_mask.now.places (drop other_at from.now))
        ++ drop (to + 16) out.old) }
{
    let window = u8x16::from_slice(&from[at..]);
    let other_window = u8x16::from_slice(&from[other_at..]);
    let picked = window.swizzle_dyn_within::<16>(u8x16::from_array(mask.places));
    let others = other_window.swizzle_dyn_within::<16>(u8x16::from_array(other_mask.places));
    let whole = picked | others;
    whole.copy_to_slice(&mut out[to..]);
}

/// The same with the signs of the other window's bytes that are picked: 0xff where the top bit is
/// set, else 0. Takes no memory.
#[inline(always)]
pub fn gather_with_signs(
    out: &mut [u8],
    to: usize,
    from: &[u8],
    at: usize,
    mask: &Mask,
    other_at: usize,
    other_mask: &Mask,
)
    requires window { at + 16 ≤ length from.now }
    requires other_window { other_at + 16 ≤ length from.now }
    requires room { to + 16 ≤ length out.old }
    ensures { out.new
        ≡ take to out.old
        ++ (with_constant (gathered mask.now.places (drop at from.now))
        (signs_gathered other_mask.now.places (drop other_at from.now))
        ++ drop (to + 16) out.old) }
{
    let window = u8x16::from_slice(&from[at..]);
    let other_window = u8x16::from_slice(&from[other_at..]);
    let picked = window.swizzle_dyn_within::<16>(u8x16::from_array(mask.places));
    let others = other_window.swizzle_dyn_within::<16>(u8x16::from_array(other_mask.places));
    let signs = others
        .simd_lt(u8x16::splat(128))
        .select(u8x16::splat(0), u8x16::splat(255));
    let whole = picked | signs;
    whole.copy_to_slice(&mut out[to..]);
}
