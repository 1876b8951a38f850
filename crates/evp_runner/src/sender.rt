//! The bytes of a sender's record, and how its machine stores numbers.

ghost use Rattle.std.specs.Prelude.{◌<◌, ◌^◌, length, IsTrue};
ghost use Rattle.std.specs.List.{All};
ghost use Rattle.evp_base.specs.Numbers.{is_width};

use evp_base::Order;

// A sender's record.
#[derive(Clone, Copy)]
pub(crate) struct Sender<'a> {
    pub(crate) bytes: &'a [u8],
    pub(crate) order: Order,
    pub(crate) pointer: u8,
    ghost width: { IsTrue (is_width pointer) },
    ghost short: { length bytes.now < 2 ^ 32 },
    ghost are: { All (λ byte. byte < 256) bytes.now },
}

// Each byte is below 256. Does nothing.
pub(crate) fn are_bytes(bytes: &[u8])
    ensures { All (λ byte. byte < 256) bytes.now }
{
    let _bytes = bytes;
}
