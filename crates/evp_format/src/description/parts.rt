//! Parts of a description: numbers and texts at an offset. Each gives the offset behind it.

ghost use Rattle.std.specs.Prelude.{◌≡◌, ◌+◌, ◌*◌, ◌^◌, ◌<◌, ◌≤◌, length, IsTrue, IfOk};
ghost use Rattle.evp_base.specs.Numbers.{is_width};
ghost use Rattle.evp_format.specs.Steps.{Says};
ghost use Rattle.evp_format.specs.Reading.{number_at, signed_at, text_behind, text_at};

use crate::LayoutFault;
use byteorder::{BigEndian, ByteOrder};
use evp_base::{Kind, Order, get_number};

/// The unsigned number of `size` bytes, or `Short`.
#[tactic(auto, unfolding(crate::specs::Reading::number_at))]
pub(crate) fn number_at(bytes: &[u8], at: u32, size: u32) -> Result<(u32, u32), LayoutFault>
    requires width { IsTrue (is_width size) }
    requires narrow { size ≤ 4 }
    requires near { at < 2 ^ 31 }
    ensures value { result ≡ number_at size bytes.now at }
    ensures behind { IfOk result (λ read. read.1 ≡ at + size) }
    ensures below { IfOk result (λ read. read.0 < 2 ^ (8 * size)) }
{
    let start = at as usize;
    let end = start + size as usize;
    if bytes.len() < end {
        return Err(LayoutFault::Short(at));
    }
    let number = get_number(&bytes[start..end], Order::Big, Kind::Unsigned, size);
    Ok((number as u32, at + size))
}

/// The number of 16 bytes in two's complement, or `Short`.
#[tactic(auto, unfolding(crate::specs::Reading::signed_at))]
pub(crate) fn signed_at(bytes: &[u8], at: u32) -> Result<(i128, u32), LayoutFault>
    requires { at < 2 ^ 31 }
    ensures value { result ≡ signed_at bytes.now at }
    ensures behind { IfOk result (λ read. read.1 ≡ at + 16) }
{
    let start = at as usize;
    if bytes.len() < start + 16 {
        return Err(LayoutFault::Short(at));
    }
    let number = BigEndian::read_u128(&bytes[start..start + 16]).cast_signed();
    Ok((number, at + 16))
}

/// The bytes behind a length byte, or `Short`, with the offset of the length byte.
#[tactic(auto, unfolding(crate::specs::Reading::text_at))]
pub(crate) fn text_at(bytes: &[u8], at: u32) -> Result<(&[u8], u32), LayoutFault>
    requires { at < 2 ^ 31 }
    ensures value { Says (λ read. (read.0.now, read.1)) result (text_at bytes.now at) }
    ensures behind { IfOk result (λ read. read.1 ≤ at + 256) }
{
    let (size, _) = number_at(bytes, at, 1)?;
    text_behind(bytes, at, size)
}

// The bytes behind the length byte at `at`.
#[tactic(auto, unfolding(crate::specs::Reading::text_behind))]
fn text_behind(bytes: &[u8], at: u32, size: u32) -> Result<(&[u8], u32), LayoutFault>
    requires near { at < 2 ^ 31 }
    requires small { size < 256 }
    ensures value { Says (λ read. (read.0.now, read.1)) result (text_behind bytes.now at size) }
    ensures behind { IfOk result (λ read. read.1 ≤ at + 256) }
{
    let start = at as usize + 1;
    let end = start + size as usize;
    if bytes.len() < end {
        return Err(LayoutFault::Short(at));
    }
    Ok((&bytes[start..end], at + 1 + size))
}
