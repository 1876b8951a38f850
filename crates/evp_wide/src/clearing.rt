//! Bytes set to zero, sixteen at once.
ghost use Rattle.std.specs.Prelude.{◌≡◌, ◌+◌, ◌≤◌, ℕ, length, take, replicate};

use std::simd::prelude::*;

// Zeros sixteen more bytes, or as many as are left, behind those in front that are zero; tells how
// many are then.
#[inline(always)]
fn clear_more(out: &mut [u8], done: usize) -> usize
    requires long { 16 ≤ length out.old }
    requires within { done ≤ length out.old }
    requires front { take done out.old ≡ replicate done 0 }
    ensures length { length out.new ≡ length out.old }
    ensures within { result ≤ length out.new }
    ensures front { take result out.new ≡ replicate result 0 }
    ensures more { (n : ℕ) → n ≤ length out.old → n ≤ done + 16 → n ≤ result }
{
    let last = out.len() - 16;
    let at = if done < last { done } else { last };
    u8x16::splat(0).copy_to_slice(&mut out[at..]);
    at + 16
}

// The same for bytes of any number.
fn clear_each(out: &mut [u8])
    ensures { out.new ≡ replicate (length out.old) 0 }
{
    for byte in out.iter_mut() {
        *byte = 0;
    }
}

/// Zeros all of it, in steps that don't depend on its length where that is short. Takes no memory.
#[inline(always)]
pub fn clear(out: &mut [u8])
    ensures { out.new ≡ replicate (length out.old) 0 }
{
    if out.len() < 16 || out.len() > 96 {
        clear_each(out);
        return;
    }
    let one = clear_more(out, 0);
    let two = clear_more(out, one);
    let three = clear_more(out, two);
    let four = clear_more(out, three);
    let five = clear_more(out, four);
    let _six = clear_more(out, five);
}
