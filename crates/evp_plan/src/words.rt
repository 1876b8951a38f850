//! Words of a sender's numbers that fit a receiver's field.

ghost use Rattle.std.specs.Prelude.{◌≡◌, ◌+◌, ◌≤◌, length, IsTrue};
ghost use Rattle.evp_base.specs.Numbers.{magnitude, is_width};
ghost use Rattle.evp_format.specs.Bytes.{bytes_at};
ghost use Rattle.evp_plan.specs.Among.{is_among};

use evp_base::{Kind, Order, get_number};

/// The words of a sender's number, with no sign, that fit a receiver's field: those up to one, and
/// those above another, which stand for numbers below 0.
#[derive(Clone, Copy, Debug)]
pub struct Words {
    // Bytes from the record's first byte to the word.
    pub(crate) offset: u32,
    // Its bytes.
    pub(crate) size: u32,
    pub(crate) top: u64,
    pub(crate) under: u64,
    ghost allowed: { IsTrue (is_width size) },
    ghost apart: { top ≤ under },
}

// Whether the word is one of those up to `top`, or above `under`: by one comparison, since which of
// the two it is depends on the sign, which no processor can foresee.
#[inline(always)]
fn is_among(word: u64, top: u64, under: u64) -> bool
    requires { top ≤ under }
    ensures { result ≡ is_among top under word }
{
    word.wrapping_sub(top).wrapping_sub(1) >= under - top
}

impl Words {
    /// Whether one of them, which have so many bytes, stands in the record at `at`. Takes no memory.
    #[inline(always)]
    pub fn has_there(&self, bytes: &[u8], at: usize, order: Order, size: u32) -> bool
        requires inside { at + self.now.offset + self.now.size ≤ length bytes.now }
        requires sized { self.now.size ≡ size }
        ensures { result ≡ is_among self.now.top self.now.under
            (magnitude order (bytes_at (at + self.now.offset) self.now.size bytes.now)) }
    {
        let from = at + self.offset as usize;
        let piece = &bytes[from..from + size as usize];
        let word = get_number(piece, order, Kind::Unsigned, size) as u64;
        is_among(word, self.top, self.under)
    }
}
