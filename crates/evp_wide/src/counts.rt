//! Numbers of elements, as words.
ghost use Rattle.std.specs.Prelude.{◌≡◌, ◌<◌, ◌*◌, ◌^◌, ◌↔◌, length, IsTrue};
ghost use Rattle.evp_base.specs.Numbers.{number, twos_complement, is_width};
ghost use Rattle.evp_wide.specs.Counts.{natural};

use crate::words::{get_word, half_of};
use evp_base::{Kind, Order};

// A number in two's complement, where it isn't below 0.
#[inline(always)]
#[tactic(auto, using(crate::proofs::Naturals::naturals))]
fn from_zero(word: u64, size: usize) -> Option<u64>
    requires width { IsTrue (is_width size) }
    requires below { word < 2 ^ (8 * size) }
    ensures { result ≡ natural (twos_complement size word) }
{
    if word < half_of(size) {
        Some(word)
    } else {
        None
    }
}

/// Whether an unsigned number of 4 bytes is a count of some elements: signed it is above 0, which one
/// test tells. Takes no memory.
#[inline(always)]
pub fn counts_some(word: usize) -> bool
    ensures { IsTrue result ↔ (0 < word) × (word < 2 ^ 31) }
{
    word.wrapping_sub(1) < 0x7fff_ffff
}

/// The number that some bytes are for a kind, where it isn't below 0. There are 1, 2, 4 or 8 bytes.
/// Takes no memory.
#[inline(always)]
pub fn get_count(bytes: &[u8], order: Order, kind: Kind) -> Option<u64>
    requires { IsTrue (is_width (length bytes.now)) }
    ensures { result ≡ natural (number order kind bytes.now) }
{
    let word = get_word(bytes, order);
    match kind {
        Kind::Int | Kind::Enumeration => from_zero(word, bytes.len()),
        Kind::Unsigned | Kind::Char => Some(word),
        Kind::Boolean => Some(u64::from(word != 0)),
    }
}
