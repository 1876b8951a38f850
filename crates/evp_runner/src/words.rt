//! Words of a sender's record whose sizes the compiler knows.

ghost use Rattle.std.specs.Prelude.{◌≡◌, ◌+◌, ◌≤◌, length};
ghost use Rattle.evp_base.specs.Numbers.{magnitude};
ghost use Rattle.evp_format.specs.Bytes.{bytes_at};

use evp_base::Order;
use evp_wide::get_word;

/// The pointer of 8 bytes that stands at s.
#[inline]
pub(crate) fn eight_at(bytes: &[u8], s: u32, order: Order) -> usize
    requires { s + 8 ≤ length bytes.now }
    ensures { result ≡ magnitude order (bytes_at s 8 bytes.now) }
{
    let s = s as usize;
    get_word(&bytes[s..s + 8], order) as usize
}

/// The count of 4 bytes that stands at s, as if it couldn't be below 0.
#[inline]
pub(crate) fn four_at(bytes: &[u8], s: u32, order: Order) -> usize
    requires { s + 4 ≤ length bytes.now }
    ensures { result ≡ magnitude order (bytes_at s 4 bytes.now) }
{
    let s = s as usize;
    get_word(&bytes[s..s + 4], order) as usize
}
