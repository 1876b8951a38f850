//! Numbers in decimal, as words and order files have them.
ghost use Rattle.std.specs.Prelude.{◌≡◌};
ghost use Rattle.evp_stones.specs.DecimalNumber.{number_in};

use itoa::Buffer;

/// The number of which the bytes are the decimal text, without sign or leading zero, where it is
/// less than the bound.
pub fn number_in(bound: u32, bytes: &[u8]) -> Option<u32>
    ensures { result ≡ number_in bound bytes.now }
{
    let Ok(text) = str::from_utf8(bytes) else {
        return None;
    };
    let Ok(number) = text.parse::<u32>() else {
        return None;
    };
    let mut buffer = Buffer::new();
    if number < bound && buffer.format(number).as_bytes() == bytes {
        return Some(number);
    }
    None
}
