//! Tests of numbers by windows of sixteen bytes.

ghost use Rattle.std.specs.Prelude.{◌≡◌, ◌+◌, ◌≤◌, ℕ, List, length, IsTrue, IfOk, IfSome};
ghost use Rattle.evp_wide.specs.Gathered.{picked, gathered, sign_byte, signs_gathered, AreNone};
ghost use Rattle.evp_plan.specs.Fills.{IsFilled, AreFilled};
ghost use Rattle.evp_plan.specs.Lanes.{HasFills, HaveFills, AreInside, AreLanesOf};

use crate::Quick;
use crate::cutting::fills_of;
use crate::fill::{Fill, Lanes, Window};
use crate::windows::{filled_up, place_in, reach_of, windows_for};
use evp_base::{Memory, Order};
use evp_wide::Differences;
use std::alloc::Global;

// Whether the byte of the one place is compared with the sign of the other.
fn has_places(picks: &[u8; 16], signs: &[u8; 16], pick: u8, sign: u8) -> bool
    ensures { IsTrue result → (bytes : List ℕ)
        → gathered picks.now bytes ≡ signs_gathered signs.now bytes
        → picked bytes pick ≡ sign_byte (picked bytes sign) }
{
    for k in 0..16 {
        if picks[k] == pick && signs[k] == sign {
            return true;
        }
    }
    false
}

// Whether a window looks at a fill.
fn looks_at(window: &Window, fill: &Fill) -> bool
    ensures { IsTrue result → (at : ℕ) (bytes : List ℕ) → HasFills at bytes window.now
        → IsFilled at bytes fill.now }
{
    let Some(pick) = place_in(window.at, fill.pick) else {
        return false;
    };
    let Some(sign) = place_in(window.at, fill.sign) else {
        return false;
    };
    has_places(&window.picks.places, &window.signs.places, pick, sign)
}

// Whether one of these windows looks at a fill.
fn is_looked_at(windows: &[Window], fill: &Fill) -> bool
    ensures { IsTrue result → (at : ℕ) (bytes : List ℕ) → HaveFills at bytes windows.now
        → IsFilled at bytes fill.now }
{
    for window in windows {
        if looks_at(window, fill) {
            return true;
        }
    }
    false
}

// Whether each of these fills is looked at.
fn are_looked_at(windows: &[Window], fills: &[Fill]) -> bool
    ensures { IsTrue result → (at : ℕ) (bytes : List ℕ) → HaveFills at bytes windows.now
        → AreFilled at bytes fills.now }
{
    for fill in fills {
        if !is_looked_at(windows, fill) {
            return false;
        }
    }
    true
}

// Where the bytes of a window of the record at `at` aren't the signs of others.
#[inline(always)]
fn differences(window: &Window, bytes: &[u8], at: usize) -> Differences
    requires { at + window.now.at + 16 ≤ length bytes.now }
    ensures { AreNone result → HasFills at bytes.now window.now }
{
    Differences::between(bytes, at + window.at, &window.picks, &window.signs)
}

// The same of two windows.
#[inline(always)]
pub(crate) fn both_differences(one: &Window, two: &Window, bytes: &[u8], at: usize) -> Differences
    requires one { at + one.now.at + 16 ≤ length bytes.now }
    requires two { at + two.now.at + 16 ≤ length bytes.now }
    ensures { AreNone result → HasFills at bytes.now one.now × HasFills at bytes.now two.now }
{
    differences(one, bytes, at).with(differences(two, bytes, at))
}

// Whether all windows of the record at `at` have their fills: four at a time, and one test at the
// end.
#[inline(always)]
pub(crate) fn have_fills(windows: &[Window], bytes: &[u8], at: usize) -> bool
    requires { AreInside at bytes.now windows.now }
    ensures { IsTrue result → HaveFills at bytes.now windows.now }
{
    let mut all = Differences::none();
    let mut left = windows;
    while let [one, two, three, four, rest @ ..] = left {
        let front = both_differences(one, two, bytes, at);
        let back = both_differences(three, four, bytes, at);
        all = all.with(front.with(back));
        left = rest;
    }
    have_few(left, bytes, at, all)
}

// Whether there are none of these differences, and the windows of the record at `at` have their
// fills.
#[inline(always)]
pub(crate) fn have_few(windows: &[Window], bytes: &[u8], at: usize, others: Differences) -> bool
    requires { AreInside at bytes.now windows.now }
    ensures none { IsTrue result → AreNone others }
    ensures fills { IsTrue result → HaveFills at bytes.now windows.now }
{
    let mut all = others;
    for window in windows {
        all = all.with(differences(window, bytes, at));
    }
    all.are_none()
}

// Windows that tell the words of these tests, of a sender of this order, where there are fewer than
// tests: so many at least, of which up to half are the first of them again.
pub(crate) fn lanes_of(
    alloc: Global,
    order: Order,
    tests: &[Quick],
    least: usize,
) -> Result<Option<Lanes>, Memory>
    requires { 1 ≤ least }
    ensures lanes { IfOk result (λ made. IfSome made (λ lanes.
        (lanes.order ≡ order) × AreLanesOf order tests.now lanes.windows.items)) }
    ensures least { IfOk result (λ made. IfSome made (λ lanes.
        least ≤ length lanes.windows.items)) }
{
    let reach = reach_of(tests);
    if reach < 16 {
        return Ok(None);
    }
    let Some(fills) = fills_of(alloc, order, tests)? else {
        return Ok(None);
    };
    let windows = windows_for(alloc, fills.clone()?, reach)?;
    if windows.len() >= tests.len() || windows.len() * 2 < least {
        return Ok(None);
    }
    let windows = filled_up(windows, least)?;
    if !are_looked_at(windows.as_slice(), fills.as_slice()) {
        return Ok(None);
    }
    Ok(Some(Lanes { order, windows }))
}
