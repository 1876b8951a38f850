//! Which gathers make a record's bytes.

ghost use Rattle.std.specs.Prelude.{◌≡◌, ◌+◌, ◌<◌, ◌≤◌, ◌^◌, ℕ, true, length, IfOk, OnOk, IfSome};
ghost use Rattle.std.specs.List.{All};
ghost use Rattle.evp_plan.specs.Cells.{IsGatherWithin, IsPairWithin, AreWithin};
ghost use Rattle.evp_plan.specs.Clean.{is_clean, is_clean_byte, IsPlain};

use crate::Cell;
use crate::gather::{Gather, Gathers, Pair};
use crate::pairing::pair_of;
use evp_base::Memory;
use evp_wide::{Blend, Mask};
use std::alloc::Global;

// Sixteen places, what is kept and what is set.
#[derive(Clone, Copy)]
struct Sixteen {
    places: [u8; 16],
    keep: [u8; 16],
    constant: [u8; 16],
}

// The gathers that make these cells, as far as gathers do: for each sixteen bytes some.
pub(crate) fn gathers_for(alloc: Global, cells: &[Cell], reach: u32) -> Result<Gathers, Memory>
    requires { length cells.now < 2 ^ 31 }
    ensures { IfOk result (λ gathers. AreWithin (length cells.now) reach gathers) }
{
    let mut gathers = Gathers {
        plain: Vec::new(alloc),
        pairs: Vec::new(alloc),
        mixed: Vec::new(alloc),
    };
    if cells.len() < 16 || reach < 16 {
        return Ok(gathers);
    }
    let last = cells.len() - 16;
    for block in 0..cells.len().div_ceil(16) {
        let to = last.min(16 * block);
        add_gathers(cells, to, reach, false, &mut gathers)?;
        add_gathers(cells, to, reach, true, &mut gathers)?;
    }
    Ok(gathers)
}

// The most windows of which sixteen bytes are made.
const WINDOWS: u32 = 8;

// Adds the gathers that make the sixteen cells from a place on, from windows that rise.
fn add_gathers(
    cells: &[Cell],
    to: usize,
    reach: u32,
    signed: bool,
    gathers: &mut Gathers,
) -> Result<(), Memory>
    requires room { to + 16 ≤ length cells.now }
    requires few { length cells.now < 2 ^ 31 }
    requires wide { 16 ≤ reach }
    requires within { AreWithin (length cells.now) reach gathers.old }
    ensures { OnOk result (AreWithin (length cells.now) reach gathers.new) }
{
    let block = &cells[to..to + 16];
    let whole = keeps_none(block);
    let mut begin = 0;
    for window in 0..WINDOWS {
        let first = first_picked(block, begin, signed);
        // the first gather of bytes makes the constants
        let makes = !signed && window == 0;
        if first.is_none() && !makes {
            return Ok(());
        }
        let at = first.unwrap_or(0).min(reach - 16);
        let gather = gather_for(block, to as u32, at, signed, makes, makes && whole);
        add_gather(gather, gathers)?;
        begin = at + 16;
    }
    Ok(())
}

// The last of some plain gathers and one behind it at once, where they fit.
fn pair_with_last(plain: &[Gather], gather: &Gather) -> Option<Pair>
    ensures { IfSome result (λ pair. (length : ℕ) (reach : ℕ)
        → All (IsGatherWithin length reach) plain.now
        → IsGatherWithin length reach gather.now → IsPairWithin length reach pair) }
{
    if plain.is_empty() {
        return None;
    }
    pair_of(&plain[plain.len() - 1], gather)
}

// Adds the gather, where there is one; at once with the plain one before it, where they fit.
fn add_gather(gather: Option<Gather>, gathers: &mut Gathers) -> Result<(), Memory>
    ensures { OnOk result ((length : ℕ) (reach : ℕ) → AreWithin length reach gathers.old
        → IfSome gather (IsGatherWithin length reach) → AreWithin length reach gathers.new) }
{
    let Some(gather) = gather else {
        return Ok(());
    };
    if gather.plain {
        gathers.plain.push(gather)?;
        return Ok(());
    }
    let Some(pair) = pair_with_last(gathers.plain.as_slice(), &gather) else {
        gathers.mixed.push(gather)?;
        return Ok(());
    };
    gathers.plain.pop();
    gathers.pairs.push(pair)?;
    Ok(())
}

// Whether no byte stays as it stood.
fn keeps_none(cells: &[Cell]) -> bool {
    for cell in cells {
        if *cell == Cell::Keep {
            return false;
        }
    }
    true
}

// The gather that makes of sixteen cells those that it can, by the window that begins there, and the
// constants, if it makes them. A fresh one puts zeros for the others, which gathers behind it make;
// else they stay as they stood.
fn gather_for(
    block: &[Cell],
    to: u32,
    at: u32,
    signed: bool,
    makes: bool,
    fresh: bool,
) -> Option<Gather>
    requires { length block.now ≡ 16 }
    ensures { IfSome result (λ gather. (gather.to ≡ to) × (gather.at ≡ at)) }
{
    let sixteen = sixteen_of(block, at, signed, makes, fresh);
    let blend = blend_of(&sixteen.places, &sixteen.keep, &sixteen.constant)?;
    let plain = is_plain(signed, &blend);
    Some(Gather {
        to,
        at,
        signed,
        plain,
        blend,
    })
}

// Whether what is picked is bytes, and nothing is kept or set.
fn is_plain(signed: bool, blend: &Blend) -> bool
    ensures { result ≡ true → IsPlain signed blend.now }
{
    !signed && blend.keep == [0; 16] && blend.constant == [0; 16]
}

// What a gather does that does one thing at each byte.
fn blend_of(places: &[u8; 16], keep: &[u8; 16], constant: &[u8; 16]) -> Option<Blend>
    ensures { IfSome result (λ blend. is_clean blend.mask.places blend.keep blend.constant ≡ true) }
{
    if !is_clean(places, keep, constant) {
        return None;
    }
    Some(Blend {
        mask: Mask { places: *places },
        keep: *keep,
        constant: *constant,
    })
}

// The offset of which a gather of this kind picks the byte.
fn picked(cell: Cell, signed: bool) -> Option<u32> {
    match (cell, signed) {
        (Cell::Byte(offset), false) | (Cell::Sign(offset), true) => Some(offset),
        _ => None,
    }
}

// The first offset from `begin` on of which a gather of this kind picks the byte.
fn first_picked(block: &[Cell], begin: u32, signed: bool) -> Option<u32> {
    let mut first = None;
    for cell in block {
        if let Some(offset) = picked(*cell, signed) {
            if offset >= begin && offset < first.unwrap_or(u32::MAX) {
                first = Some(offset);
            }
        }
    }
    first
}

// The place in the window of the byte that the cell picks; 128 is none.
fn place_of(cell: Cell, at: u32, signed: bool) -> u8 {
    match picked(cell, signed) {
        Some(offset) if offset >= at && offset - at < 16 => (offset - at) as u8,
        _ => 128,
    }
}

// What the cells pick, and set, if it makes constants; the others are kept, or zero in a fresh one.
fn sixteen_of(block: &[Cell], at: u32, signed: bool, makes: bool, fresh: bool) -> Sixteen
    requires { length block.now ≡ 16 }
{
    let mut sixteen = Sixteen {
        places: [128; 16],
        keep: [0; 16],
        constant: [0; 16],
    };
    for k in 0..16usize {
        let place = place_of(block[k], at, signed);
        match block[k] {
            _ if place < 16 => sixteen.places[k] = place,
            Cell::Constant(byte) if makes => sixteen.constant[k] = byte,
            _ if fresh => {}
            _ => sixteen.keep[k] = 0xff,
        }
    }
    sixteen
}

// Whether each byte is picked, kept or a constant, and no two of these.
fn is_clean(places: &[u8; 16], keep: &[u8; 16], constant: &[u8; 16]) -> bool
    ensures { result ≡ true → is_clean places.now keep.now constant.now ≡ true }
{
    for k in 0..16usize {
        if !is_clean_byte(places[k], keep[k], constant[k]) {
            return false;
        }
    }
    true
}

// Whether the byte is picked, kept or a constant, and no two of these.
fn is_clean_byte(place: u8, keep: u8, constant: u8) -> bool
    ensures { result ≡ is_clean_byte place keep constant }
{
    if place < 16 {
        keep == 0 && constant == 0
    } else {
        place >= 128 && (keep == 0 || (keep == 0xff && constant == 0))
    }
}
