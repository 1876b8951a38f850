//! Gathers that are run four at a time.

ghost use Rattle.std.specs.Prelude.{◌≡◌, ◌+◌, ◌*◌, ◌≤◌, true, length, take, drop, IfOk, IfSome};
ghost use Rattle.evp_plan.specs.Fours.{in_fours, AreOnlyPlain, AreOnlyFours, AreTwo};
ghost use Rattle.evp_plan.specs.Pairs.{AreBoth};

use crate::gather::{Both, Four, Gather, Gathers, Two};
use evp_base::Memory;
use std::alloc::Global;

// Whether a gather stands so many bytes behind a first one, in both records, and is plain.
fn is_behind(first: &Gather, gather: &Gather, bytes: u64) -> bool
    requires { bytes ≤ 48 }
    ensures { result ≡ true → (gather.now.plain ≡ true)
        × ((gather.now.to ≡ first.now.to + bytes) × (gather.now.at ≡ first.now.at + bytes)) }
{
    gather.plain
        && u64::from(gather.to) == u64::from(first.to) + bytes
        && u64::from(gather.at) == u64::from(first.at) + bytes
}

// Four gathers at once, where they stand side by side.
fn four_of(one: &Gather, two: &Gather, three: &Gather, four: &Gather) -> Option<Four>
    ensures { IfSome result (λ made. (made.one ≡ one.now) × ((made.two ≡ two.now)
        × ((made.three ≡ three.now) × (made.four ≡ four.now)))) }
{
    if one.plain
        && is_behind(one, two, 16)
        && is_behind(one, three, 32)
        && is_behind(one, four, 48)
    {
        Some(Four {
            one: *one,
            two: *two,
            three: *three,
            four: *four,
        })
    } else {
        None
    }
}

// The first of these gathers, four at a time, as far as they stand side by side.
pub(crate) fn fours_of(alloc: Global, gathers: &[Gather]) -> Result<Vec<Four>, Memory>
    ensures room { IfOk result (λ fours. length fours.items * 4 ≤ length gathers.now) }
    ensures fours { IfOk result (λ fours. in_fours fours.items
        ≡ take (length fours.items * 4) gathers.now) }
{
    let mut fours = Vec::new(alloc);
    for four in 0..gathers.len() / 4 {
        let k = four * 4;
        let Some(made) = four_of(
            &gathers[k],
            &gathers[k + 1],
            &gathers[k + 2],
            &gathers[k + 3],
        ) else {
            return Ok(fours);
        };
        fours.push(made)?;
    }
    Ok(fours)
}

// The gathers from that number on.
pub(crate) fn gathers_from(
    alloc: Global,
    gathers: &[Gather],
    first: usize,
) -> Result<Vec<Gather>, Memory>
    requires { first ≤ length gathers.now }
    ensures { IfOk result (λ rest. rest.items ≡ drop first gathers.now) }
{
    let mut rest = Vec::new(alloc);
    for k in first..gathers.len() {
        rest.push(gathers[k])?;
    }
    Ok(rest)
}

// Whether plain gathers are all that a record has.
pub(crate) fn are_only_plain(gathers: &Gathers) -> bool
    ensures { result ≡ true → AreOnlyPlain gathers.now }
{
    if gathers.pairs.len() != 0 {
        return false;
    }
    gathers.mixed.len() == 0
}

// Whether fours are, where this is the rest of its plain gathers.
pub(crate) fn are_only_fours(gathers: &Gathers, rest: &[Gather]) -> bool
    ensures { result ≡ true → AreOnlyFours gathers.now rest.now }
{
    if rest.len() != 0 {
        return false;
    }
    are_only_plain(gathers)
}

// The pairs, where they are two and nothing stands behind them.
pub(crate) fn both_of(gathers: &Gathers) -> Option<Both>
    ensures { IfSome result (AreBoth gathers.now) }
{
    if gathers.pairs.len() != 2 || gathers.mixed.len() != 0 {
        return None;
    }
    Some(Both {
        one: gathers.pairs[0],
        two: gathers.pairs[1],
    })
}

// The plain gathers, where they are two.
pub(crate) fn two_of(plain: &[Gather]) -> Option<Two>
    ensures { IfSome result (AreTwo plain.now) }
{
    if plain.len() != 2 {
        return None;
    }
    let one = plain[0];
    let two = plain[1];
    if one.plain && two.plain {
        Some(Two { one, two })
    } else {
        None
    }
}
