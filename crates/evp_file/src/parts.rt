//! Parts of a frame: bytes and numbers, by their place in it.

ghost use Rattle.std.specs.Prelude.{◌≡◌, ◌+◌, ◌*◌, ◌^◌, ◌<◌, ◌≤◌, length, IsTrue, IfOk};
ghost use Rattle.evp_base.specs.Numbers.{is_width};
ghost use Rattle.evp_file.specs.Reading.{part, number_part};
ghost use Rattle.evp_file.specs.Steps.{Says};

use crate::FileFault;
use evp_base::{Kind, Order, get_number};

/// The `size` bytes from `place` on, or `Short` of the frame at `at`.
#[tactic(auto, unfolding(crate::specs::Reading::part))]
pub(crate) fn part(at: u32, bytes: &[u8], place: u32, size: u32) -> Result<&[u8], FileFault>
    ensures value { Says (λ part. part.now) result (part at bytes.now place size) }
    ensures sized { IfOk result (λ part. length part.now ≡ size) }
    ensures within { IfOk result (λ part. place + size ≤ length bytes.now) }
{
    let start = place as usize;
    let end = start + size as usize;
    if bytes.len() < end {
        return Err(FileFault::Short(at));
    }
    Ok(&bytes[start..end])
}

/// The unsigned big endian number of the `size` bytes from `place` on, or `Short`.
#[tactic(auto, unfolding(crate::specs::Reading::number_part))]
pub(crate) fn number_part(at: u32, bytes: &[u8], place: u32, size: u32) -> Result<u32, FileFault>
    requires width { IsTrue (is_width size) }
    requires narrow { size ≤ 4 }
    ensures value { result ≡ number_part at bytes.now place size }
    ensures below { IfOk result (λ number. number < 2 ^ (8 * size)) }
{
    let bytes = part(at, bytes, place, size)?;
    Ok(get_number(bytes, Order::Big, Kind::Unsigned, size) as u32)
}
