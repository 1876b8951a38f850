//! Windows of sixteen bytes in which fills stand.

ghost use Rattle.std.specs.Prelude.{◌≡◌, ◌+◌, ◌≤◌, ℕ, length, IfOk, IfSome};
ghost use Rattle.std.specs.List.{All};
ghost use Rattle.evp_wide.specs.Masks.{are_within};
ghost use Rattle.evp_plan.specs.Lanes.{IsPlaceIn, IsEndOf, IsReachOf};

use crate::Quick;
use crate::fill::{Fill, Window};
use evp_base::Memory;
use evp_wide::Mask;
use std::alloc::Global;

// Where a test's words end.
fn end_of(test: &Quick) -> usize
    ensures { IsEndOf test.now result }
{
    match &test.words {
        Some(words) => words.offset as usize + words.size as usize,
        None => 0,
    }
}

// Where the last of these tests' words end.
pub(crate) fn reach_of(tests: &[Quick]) -> usize
    ensures { IsReachOf tests.now result }
{
    let mut reach = 0;
    for test in tests {
        reach = end_of(test).max(reach);
    }
    reach
}

// The place of the byte at an offset in a window, where it stands in that: 128 for none.
pub(crate) fn place_in(begin: usize, offset: Option<usize>) -> Option<u8>
    ensures { IfSome result (IsPlaceIn begin offset) }
{
    let Some(offset) = offset else {
        return Some(128);
    };
    if offset >= begin && offset - begin < 16 {
        Some((offset - begin) as u8)
    } else {
        None
    }
}

// Whether each place is one of the window, or none.
fn are_within(places: &[u8; 16]) -> bool
    ensures { result ≡ are_within 16 places.now }
{
    for place in places {
        if *place >= 16 && *place < 128 {
            return false;
        }
    }
    true
}

// The mask with these places, where it is one.
fn mask_of(places: &[u8; 16]) -> Option<Mask> {
    if are_within(places) {
        Some(Mask { places: *places })
    } else {
        None
    }
}

// The first byte of a fill.
fn first_of(fill: &Fill) -> usize {
    let pick = fill.pick.unwrap_or(usize::MAX);
    let sign = fill.sign.unwrap_or(usize::MAX);
    pick.min(sign)
}

// The first byte of all of them.
fn first_of_all(fills: &[Fill]) -> Option<usize> {
    fills.iter().map(|fill| first_of(fill)).min()
}

// The window at a place with as many of these fills as stand in it; the others are added to the rest.
fn window_at(fills: &[Fill], at: usize, rest: &mut Vec<Fill>) -> Result<Option<Window>, Memory>
    ensures { IfOk result (λ made. IfSome made (λ window. window.at ≡ at)) }
{
    let mut picks = [128; 16];
    let mut signs = [128; 16];
    let mut lanes = 0;
    for fill in fills {
        match (place_in(at, fill.pick), place_in(at, fill.sign)) {
            (Some(pick), Some(sign)) if lanes < 16 => {
                picks[lanes] = pick;
                signs[lanes] = sign;
                lanes += 1;
            }
            _ => rest.push(*fill)?,
        }
    }
    let (Some(picks), Some(signs)) = (mask_of(&picks), mask_of(&signs)) else {
        return Ok(None);
    };
    Ok(Some(Window { at, picks, signs }))
}

// Windows in which these fills stand, inside so many bytes.
pub(crate) fn windows_for(
    alloc: Global,
    mut fills: Vec<Fill>,
    reach: usize,
) -> Result<Vec<Window>, Memory>
    requires { 16 ≤ reach }
    ensures { IfOk result (λ windows. All (λ window. window.at + 16 ≤ reach) windows.items) }
{
    let mut windows = Vec::new(alloc);
    for _ in 0..fills.len() {
        let Some(first) = first_of_all(fills.as_slice()) else {
            return Ok(windows);
        };
        let mut rest = Vec::new(alloc);
        if let Some(window) = window_at(fills.as_slice(), first.min(reach - 16), &mut rest)? {
            windows.push(window)?;
        }
        fills = rest;
    }
    Ok(windows)
}

// These windows, and as often as there are fewer than so many the first of them again.
pub(crate) fn filled_up(mut windows: Vec<Window>, least: usize) -> Result<Vec<Window>, Memory>
    requires { 1 ≤ length windows.items }
    ensures least { IfOk result (λ filled. least ≤ length filled.items) }
    ensures within { (reach : ℕ) → All (λ window. window.at + 16 ≤ reach) windows.items
        → IfOk result (λ filled. All (λ window. window.at + 16 ≤ reach) filled.items) }
{
    let first = windows[0];
    if windows.len() < least {
        windows.resize(least, first)?;
    }
    Ok(windows)
}
