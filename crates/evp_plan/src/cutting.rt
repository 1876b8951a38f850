//! Which bytes of a number tell that it fits.

ghost use Rattle.std.specs.Prelude.{◌≡◌, ◌<◌, IsTrue, OnOk, IfOk, IfSome};
ghost use Rattle.evp_base.specs.Numbers.{is_width};
ghost use Rattle.evp_plan.specs.Cuts.{place_of, IsCutOf, AddsAbove, AddsPositive, AddsFillsOf, AddsTestOf};
ghost use Rattle.evp_plan.specs.Fills.{AreFillsOf};

use crate::fill::{Cut, Fill, Filling};
use crate::{Quick, Words};
use evp_base::{Memory, Order};
use evp_wide::half_of;
use std::alloc::Global;

// What stands above so many bytes of the numbers that fit, where that tells them.
fn cut_at(words: &Words, size: u32) -> Option<Cut>
    requires { IsTrue (is_width size) }
    ensures { IfSome result (IsCutOf words.now) }
{
    let half = half_of(size as usize);
    if size > words.size || half - 1 > words.top {
        return None;
    }
    let last = half_of(words.size as usize) - 1 + half_of(words.size as usize);
    let filling = if half - 1 + half <= words.top {
        Filling::Zeros
    } else if words.under <= last && half <= last - words.under {
        Filling::Signed
    } else {
        Filling::Positive
    };
    Some(Cut { size, filling })
}

// The same, for as many bytes as can be.
fn cut_of(words: &Words) -> Option<Cut>
    ensures { IfSome result (IsCutOf words.now) }
{
    if let Some(cut) = cut_at(words, 8) {
        return Some(cut);
    }
    if let Some(cut) = cut_at(words, 4) {
        return Some(cut);
    }
    if let Some(cut) = cut_at(words, 2) {
        return Some(cut);
    }
    cut_at(words, 1)
}

// Where byte k of a number stands, the lowest first.
fn place_of(order: Order, offset: u32, size: u32, k: u32) -> usize
    requires { k < size }
    ensures { result ≡ place_of order offset size k }
{
    match order {
        Order::Little => offset as usize + k as usize,
        Order::Big => offset as usize + (size - 1 - k) as usize,
    }
}

// Adds the fills of the bytes of a word from one on.
fn push_above(
    fills: &mut Vec<Fill>,
    order: Order,
    words: &Words,
    size: u32,
    sign: Option<usize>,
) -> Result<(), Memory>
    ensures { OnOk result (AddsAbove order words.now size sign fills.old.items fills.new.items) }
{
    for k in size..words.size {
        let pick = Some(place_of(order, words.offset, words.size, k));
        fills.push(Fill { pick, sign })?;
    }
    Ok(())
}

// Adds the fills of a word that isn't below 0: those of the bytes from one on, and that the byte
// below has no sign.
fn push_positive(
    fills: &mut Vec<Fill>,
    order: Order,
    words: &Words,
    size: u32,
    below: usize,
) -> Result<(), Memory>
    ensures { OnOk result (AddsPositive order words.now size below fills.old.items fills.new.items) }
{
    push_above(fills, order, words, size, Some(below))?;
    fills.push(Fill {
        pick: None,
        sign: Some(below),
    })?;
    Ok(())
}

// Adds the fills of a word.
fn push_cut(fills: &mut Vec<Fill>, order: Order, words: &Words, cut: &Cut) -> Result<(), Memory>
    requires { IsCutOf words.now cut.now }
    ensures { OnOk result (AddsFillsOf order words.now fills.old.items fills.new.items) }
{
    let below = place_of(order, words.offset, words.size, cut.size - 1);
    match cut.filling {
        Filling::Zeros => push_above(fills, order, words, cut.size, None),
        Filling::Positive => push_positive(fills, order, words, cut.size, below),
        Filling::Signed => push_above(fills, order, words, cut.size, Some(below)),
    }
}

// Adds the fills of a test's words, where these have fills.
fn push_test(fills: &mut Vec<Fill>, order: Order, test: &Quick) -> Result<bool, Memory>
    ensures { IfOk result (λ told. IsTrue told
        → AddsTestOf order test.now fills.old.items fills.new.items) }
{
    let Some(words) = &test.words else {
        return Ok(true);
    };
    let Some(cut) = cut_of(words) else {
        return Ok(false);
    };
    push_cut(fills, order, words, &cut)?;
    Ok(true)
}

// The fills of all words of these tests, where each has fills.
pub(crate) fn fills_of(
    alloc: Global,
    order: Order,
    tests: &[Quick],
) -> Result<Option<Vec<Fill>>, Memory>
    ensures { IfOk result (λ made. IfSome made (λ fills. AreFillsOf order tests.now fills.items)) }
{
    let mut fills = Vec::new(alloc);
    for test in tests {
        if !push_test(&mut fills, order, test)? {
            return Ok(None);
        }
    }
    Ok(Some(fills))
}
