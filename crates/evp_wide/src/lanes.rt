//! Sixteen bytes at once, each one of sixteen others or 0.
ghost use Rattle.std.specs.Prelude.{◌≡◌, ◌+◌, ◌<◌, ◌≤◌, ◌++◌, true, length, take, drop};
ghost use Rattle.evp_wide.specs.Gathered.{gathered, signs_gathered, with_constant, with_kept};
ghost use Rattle.evp_wide.specs.Gathered.{ArePlaces};
ghost use Rattle.evp_wide.specs.Masks.{are_within};

use std::simd::prelude::*;

/// Which bytes of a window of sixteen a gather picks: byte `k` of the answer is the window's byte
/// `places[k]`, or 0 where that is 128 or more.
#[derive(Clone, Copy, Debug)]
pub struct Mask {
    pub places: [u8; 16],
    ghost sixteen: { length places ≡ 16 },
    ghost in_window: { are_within 16 places ≡ true },
}

/// Writes sixteen bytes from `to` on: those that the mask picks of the sixteen from `at` on. It
/// takes no memory.
#[inline(always)]
pub fn gather(out: &mut [u8], to: usize, from: &[u8], at: usize, mask: &Mask)
    requires window { at + 16 ≤ length from.now }
    requires room { to + 16 ≤ length out.old }
    ensures { out.new
        ≡ take to out.old
        ++ (gathered mask.now.places (drop at from.now) ++ drop (to + 16) out.old) }
{
    gather_lanes(out, to, from, at, u8x16::from_array(mask.places));
}

/// The same, with a constant of sixteen bytes or'ed in. Takes no memory.
#[inline(always)]
pub fn gather_or(
    out: &mut [u8],
    to: usize,
    from: &[u8],
    at: usize,
    mask: &Mask,
    constant: &[u8; 16],
)
    requires window { at + 16 ≤ length from.now }
    requires room { to + 16 ≤ length out.old }
    ensures { out.new
        ≡ take to out.old
        ++ (with_constant (gathered mask.now.places (drop at from.now)) constant.now
        ++ drop (to + 16) out.old) }
{
    let window = u8x16::from_slice(&from[at..]);
    let picked = window.swizzle_dyn_within::<16>(u8x16::from_array(mask.places));
    let whole = picked | u8x16::from_array(*constant);
    whole.copy_to_slice(&mut out[to..]);
}

/// How sixteen bytes are made from a window of sixteen and those that stood there.
#[derive(Clone, Copy, Debug)]
pub struct Blend {
    /// Which bytes of the window are picked.
    pub mask: Mask,
    /// The bits that stay as they stood, beside those that are picked.
    pub keep: [u8; 16],
    /// The bits that are set.
    pub constant: [u8; 16],
    ghost keeps: { length keep ≡ 16 },
    ghost sets: { length constant ≡ 16 },
}

/// Writes sixteen bytes from `to` on, made from the sixteen from `at` on and those that stood there.
/// It takes no memory.
#[inline(always)]
pub fn gather_blend(out: &mut [u8], to: usize, from: &[u8], at: usize, blend: &Blend)
    requires window { at + 16 ≤ length from.now }
    requires room { to + 16 ≤ length out.old }
    ensures { out.new
        ≡ take to out.old
        ++ (with_constant (with_kept (gathered blend.now.mask.places (drop at from.now))
        blend.now.keep (drop to out.old)) blend.now.constant
        ++ drop (to + 16) out.old) }
{
    let window = u8x16::from_slice(&from[at..]);
    let stood = u8x16::from_slice(&out[to..]);
    let picked = window.swizzle_dyn_within::<16>(u8x16::from_array(blend.mask.places));
    let kept = stood & u8x16::from_array(blend.keep);
    let whole = picked | kept | u8x16::from_array(blend.constant);
    whole.copy_to_slice(&mut out[to..]);
}

/// The same with the signs of the bytes that are picked: 0xff where the top bit is set, else 0. Takes
/// no memory.
#[inline(always)]
pub fn gather_signs(out: &mut [u8], to: usize, from: &[u8], at: usize, blend: &Blend)
    requires window { at + 16 ≤ length from.now }
    requires room { to + 16 ≤ length out.old }
    ensures { out.new
        ≡ take to out.old
        ++ (with_constant (with_kept (signs_gathered blend.now.mask.places (drop at from.now))
        blend.now.keep (drop to out.old)) blend.now.constant
        ++ drop (to + 16) out.old) }
{
    let window = u8x16::from_slice(&from[at..]);
    let stood = u8x16::from_slice(&out[to..]);
    let picked = window.swizzle_dyn_within::<16>(u8x16::from_array(blend.mask.places));
    let signs = picked
        .simd_lt(u8x16::splat(128))
        .select(u8x16::splat(0), u8x16::splat(255));
    let kept = stood & u8x16::from_array(blend.keep);
    let whole = signs | kept | u8x16::from_array(blend.constant);
    whole.copy_to_slice(&mut out[to..]);
}

// Writes sixteen bytes from `to` on: the bytes of the window from `at` on that the mask picks.
#[inline(always)]
pub(crate) fn gather_lanes(out: &mut [u8], to: usize, from: &[u8], at: usize, mask: u8x16)
    requires mask { ArePlaces mask × (length mask ≡ 16) }
    requires window { at + 16 ≤ length from.now }
    requires room { to + 16 ≤ length out.old }
    ensures { out.new ≡ take to out.old ++
        (gathered mask (drop at from.now) ++ drop (to + 16) out.old) }
{
    let window = u8x16::from_slice(&from[at..]);
    window
        .swizzle_dyn_within::<16>(mask)
        .copy_to_slice(&mut out[to..]);
}

// Writes all of `out`: the bytes of a window of sixteen or fewer that the mask's first places
// pick.
pub(crate) fn gather_few(out: &mut [u8], from: &[u8], mask: &[u8; 16])
    requires { (length out.old ≤ 16) × (length from.now ≤ 16) }
    ensures { out.new ≡ gathered (take (length out.old) mask.now) from.now }
{
    for k in 0..out.len() {
        let place = usize::from(mask[k]);
        out[k] = if place < from.len() { from[place] } else { 0 };
    }
}
