//! The first zero byte, where most stand near: sixteen bytes are looked at together.
ghost use Rattle.std.specs.Prelude.{◌≡◌, ◌+◌, ◌<◌, ◌≤◌, ◌==◌, if◌then◌else◌, length};
ghost use Rattle.std.specs.Int.{w64, trailing_zeros};
ghost use Rattle.memchr.specs.Find.{IsFirstByte, Nowhere, Passes, is_byte};
ghost use Rattle.std.specs.Prelude.{take, drop, map, IfSome, None};
ghost use Rattle.std.specs.Simd.Lanes.{mask_l};
ghost use Rattle.evp_wide.specs.Zeros.{IsZeroBehind, IsFrontWith};

use crate::words::put_word;
use evp_base::Order;
use memchr::memchr;
use std::simd::prelude::*;

// The place of the lowest bit that is set, or 16.
#[inline(always)]
fn first_set(mask: u64) -> usize
    ensures { result ≡ if mask == 0 then 16 else trailing_zeros w64 mask }
{
    if mask == 0 {
        16
    } else {
        mask.trailing_zeros() as usize
    }
}

// How many of the sixteen bytes from a place on stand before the first zero byte; 16 where there is
// none.
#[inline(always)]
fn run_at(bytes: &[u8], at: usize) -> usize
    requires { at + 16 ≤ length bytes.now }
    ensures within { result ≤ 16 }
    ensures before { Nowhere (Passes (is_byte 0) bytes.now) at (at + result) }
    ensures here { result < 16 → Passes (is_byte 0) bytes.now (at + result) }
{
    let window = u8x16::from_slice(&bytes[at..]);
    first_set(window.simd_eq(u8x16::splat(0)).to_bitmask())
}

/// How many bytes stand before the first zero byte, where there is one. Takes no memory.
#[inline(always)]
pub fn zero_at(bytes: &[u8]) -> Option<usize>
    ensures { IsFirstByte (is_byte 0) bytes.now result }
{
    if bytes.len() < 16 {
        return memchr(0, bytes);
    }
    let run = run_at(bytes, 0);
    if run < 16 {
        return Some(run);
    }
    zero_behind(bytes)
}

// The same, where there is none in the first sixteen bytes.
#[inline(always)]
fn zero_behind(bytes: &[u8]) -> Option<usize>
    requires { Nowhere (Passes (is_byte 0) bytes.now) 0 16 }
    ensures { IsFirstByte (is_byte 0) bytes.now result }
{
    if bytes.len() < 32 {
        return memchr(0, bytes);
    }
    let run = run_at(bytes, 16);
    if run < 16 {
        return Some(16 + run);
    }
    memchr(0, bytes)
}

/// How many bytes stand from a place on before the first zero byte, where it is easily found: among
/// the 32 bytes from there on. Where none is answered nothing is known; from 0, which is where a
/// null pointer leads, none is. Takes no memory.
#[inline(always)]
pub fn near_zero(bytes: &[u8], from: usize) -> Option<usize>
    ensures count { IfSome result (λ count. IsZeroBehind bytes.now from count) }
    ensures some { IfSome result (λ _. 0 < from) }
{
    let behind = second_behind(bytes, from)?;
    zero_in_two(bytes, from, behind)
}

// How far behind a place the second of two windows of sixteen bytes begins, where the first begins
// there: at most sixteen, and both lie inside. None where the first doesn't, or where the place is
// 0: one test for both.
#[inline(always)]
fn second_behind(bytes: &[u8], from: usize) -> Option<usize>
    ensures near { IfSome result (λ behind. behind ≤ 16) }
    ensures inside { IfSome result (λ behind. from + behind + 16 ≤ length bytes.now) }
    ensures some { IfSome result (λ _. 0 < from) }
{
    if bytes.len() < 16 {
        return None;
    }
    let last = bytes.len() - 16;
    if from.wrapping_sub(1) >= last {
        return None;
    }
    Some((last - from).min(16))
}

// A bit for each of the sixteen bytes from a place on: set where the byte is zero.
#[inline(always)]
fn zeros_at(bytes: &[u8], at: usize) -> u64
    requires { at + 16 ≤ length bytes.now }
    ensures { result ≡ mask_l (map (is_byte 0) (take 16 (drop at bytes.now))) }
{
    let window = u8x16::from_slice(&bytes[at..]);
    window.simd_eq(u8x16::splat(0)).to_bitmask()
}

// How many bytes stand from a place on before the first zero byte, where two windows have one: the
// second begins so many bytes behind the first.
#[inline(always)]
fn zero_in_two(bytes: &[u8], from: usize, behind: usize) -> Option<usize>
    requires near { behind ≤ 16 }
    requires inside { from + behind + 16 ≤ length bytes.now }
    ensures count { IfSome result (λ count. IsZeroBehind bytes.now from count) }
    ensures within { IfSome result (λ count. count < behind + 16) }
{
    let mask = zeros_at(bytes, from) | (zeros_at(bytes, from + behind) << behind as u32);
    if mask == 0 {
        return None;
    }
    Some(mask.trailing_zeros() as usize)
}

/// Writes the bytes from a place on up to the first zero byte, and that byte, from `to` on, and
/// zeros from `size` up to there; what stands behind may be changed too. Answers how many stand
/// before the zero byte; none where that isn't easily done, as from 0, and then nothing is written.
/// Takes no memory.
#[inline(always)]
pub fn put_text(out: &mut [u8], size: usize, to: usize, bytes: &[u8], from: usize) -> Option<usize>
    requires inside { size ≤ length out.old }
    requires behind { size ≤ to }
    requires near { to ≤ size + 8 }
    ensures length { length out.new ≡ length out.old }
    ensures count { IfSome result (λ count. IsZeroBehind bytes.now from count) }
    ensures some { IfSome result (λ _. 0 < from) }
    ensures room { IfSome result (λ count. to + (count + 1) ≤ length out.old) }
    ensures front { IfSome result (λ count.
        IsFrontWith size to (count + 1) (drop from bytes.now) out.old out.new) }
    ensures none { result ≡ None → out.new ≡ out.old }
{
    let behind = second_behind(bytes, from)?;
    let count = zero_in_two(bytes, from, behind)?;
    if out.len() < to + behind + 16 {
        return None;
    }
    put_windows(out, size, to, bytes, from, behind);
    Some(count)
}

// Writes eight zeros from `size` on, and from `to` on, over them, two windows of sixteen bytes: the
// second begins so many bytes behind the first.
#[inline(always)]
fn put_windows(out: &mut [u8], size: usize, to: usize, bytes: &[u8], from: usize, behind: usize)
    requires gap { size ≤ to }
    requires short { to ≤ size + 8 }
    requires near { behind ≤ 16 }
    requires inside { from + behind + 16 ≤ length bytes.now }
    requires room { to + behind + 16 ≤ length out.old }
    ensures length { length out.new ≡ length out.old }
    ensures front { IsFrontWith size to (behind + 16) (drop from bytes.now) out.old out.new }
{
    let one = u8x16::from_slice(&bytes[from..]);
    let two = u8x16::from_slice(&bytes[from + behind..]);
    put_word(&mut out[size..size + 8], Order::Little, 0);
    one.copy_to_slice(&mut out[to..]);
    two.copy_to_slice(&mut out[to + behind..]);
}
