//! Gathers that are run two at once.

ghost use Rattle.std.specs.Prelude.{◌≡◌, true, IfSome};
ghost use Rattle.evp_plan.specs.Clean.{is_paired_byte, are_paired};

use crate::gather::{Gather, Pair};

// Whether the second of two gathers picks a byte where the first picks none, or keeps it.
fn is_paired_byte(first: u8, second: u8, keep: u8) -> bool
    ensures { result ≡ is_paired_byte first second keep }
{
    if second < 16 {
        first >= 128
    } else {
        keep == 0xff
    }
}

// Whether that is so of each of sixteen bytes.
fn are_paired(firsts: &[u8; 16], seconds: &[u8; 16], keeps: &[u8; 16]) -> bool
    ensures { result ≡ true → are_paired firsts.now seconds.now keeps.now ≡ true }
{
    for k in 0..16usize {
        if !is_paired_byte(firsts[k], seconds[k], keeps[k]) {
            return false;
        }
    }
    true
}

// Two gathers at once, where the second fits behind the first.
pub(crate) fn pair_of(one: &Gather, two: &Gather) -> Option<Pair>
    ensures { IfSome result (λ pair. (pair.one ≡ one.now) × (pair.two ≡ two.now)) }
{
    let (first, second) = (&one.blend, &two.blend);
    if one.plain
        && two.to == one.to
        && are_paired(&first.mask.places, &second.mask.places, &second.keep)
    {
        Some(Pair {
            one: *one,
            two: *two,
        })
    } else {
        None
    }
}
