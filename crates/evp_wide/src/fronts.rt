//! The front of some bytes, written to a place by sixteen bytes at once.
ghost use Rattle.std.specs.Prelude.{◌≡◌, ◌+◌, ◌≤◌, ◌++◌, length, take, drop};

use std::simd::prelude::*;

// Writes so many bytes, at most sixteen, from `at` on to the place, and keeps those behind them.
#[inline(always)]
fn put_window(out: &mut [u8], to: usize, from: &[u8], at: usize, count: usize)
    requires window { at + 16 ≤ length from.now }
    requires room { to + 16 ≤ length out.old }
    requires few { count ≤ 16 }
    ensures { out.new
        ≡ take to out.old ++ (take count (drop at from.now) ++ drop (to + count) out.old) }
{
    let window = u8x16::from_slice(&from[at..]);
    let stood = u8x16::from_slice(&out[to..]);
    let places = u8x16::from_array([0, 1, 2, 3, 4, 5, 6, 7, 8, 9, 10, 11, 12, 13, 14, 15]);
    let made = places
        .simd_lt(u8x16::splat(count as u8))
        .select(window, stood);
    made.copy_to_slice(&mut out[to..]);
}

/// Writes the first `count` bytes of `from` to the place, in steps that don't depend on how many
/// there are where they are few. Takes no memory.
#[inline(always)]
pub fn put_front(out: &mut [u8], to: usize, from: &[u8], count: usize)
    requires front { count ≤ length from.now }
    requires room { to + count ≤ length out.old }
    ensures { out.new ≡ take to out.old ++ (take count from.now ++ drop (to + count) out.old) }
{
    let both = from.len().min(out.len() - to);
    if both >= 16 {
        let behind = (both - 16).min(16);
        if count <= behind + 16 {
            put_two(out, to, from, count, behind);
            return;
        }
    }
    out[to..to + count].copy_from_slice(&from[..count]);
}

// The same by two windows, of which the second begins inside the first or right behind it.
#[inline(always)]
fn put_two(out: &mut [u8], to: usize, from: &[u8], count: usize, behind: usize)
    requires near { behind ≤ 16 }
    requires few { count ≤ behind + 16 }
    requires inside { behind + 16 ≤ length from.now }
    requires room { to + behind + 16 ≤ length out.old }
    ensures { out.new ≡ take to out.old ++ (take count from.now ++ drop (to + count) out.old) }
{
    put_window(out, to, from, 0, count.min(16));
    put_window(out, to + behind, from, behind, count.saturating_sub(behind));
}
