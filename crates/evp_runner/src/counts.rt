//! Numbers of elements, as words.

ghost use Rattle.std.specs.Prelude.{◌≡◌, ◌<◌, ◌*◌, ◌^◌, length, IsTrue};
ghost use Rattle.evp_base.specs.Numbers.{number, twos_complement, is_width};
ghost use Rattle.evp_format.specs.Zero.{as_count};

use evp_base::{Kind, Order};
use evp_wide::{get_word, half_of};

// A number in two's complement; one below 0 stands for none.
#[inline(always)]
fn from_zero(word: u64, size: usize) -> u64
    requires width { IsTrue (is_width size) }
    requires below { word < 2 ^ (8 * size) }
    ensures { result ≡ as_count (twos_complement size word) }
{
    if word < half_of(size) { word } else { 0 }
}

/// The number of elements that some bytes are; one below 0 stands for none.
#[inline(always)]
pub(crate) fn count_in(bytes: &[u8], order: Order, kind: Kind) -> u64
    requires { IsTrue (is_width (length bytes.now)) }
    ensures { result ≡ as_count (number order kind bytes.now) }
{
    let word = get_word(bytes, order);
    match kind {
        Kind::Int | Kind::Enumeration => from_zero(word, bytes.len()),
        Kind::Unsigned | Kind::Char => word,
        Kind::Boolean => u64::from(word != 0),
    }
}
