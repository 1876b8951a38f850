//! The lengths and the blocks of a record that is being made.

ghost use Rattle.std.specs.Prelude.{◌≡◌, ◌-◌, ◌^◌, ◌<◌, ◌≤ℤ◌, pos, nat_abs, IfSome, option_map};
ghost use Rattle.evp_format.specs.Datum.{elements_of};
ghost use Rattle.evp_format.specs.ValueView.{datum_of};
ghost use Rattle.evp_value.specs.Making.{block_end, list_end, has_length};

use crate::partner::elements_in;
use evp_format::Value;

// The size behind a block of k bytes, at the next multiple of 8; `None` where it passes the limit.
pub(crate) fn block_end(limit: u32, k: u64, size: u32) -> Option<u32>
    requires { k < 2 ^ 64 - 2 ^ 32 }
    ensures { result ≡ block_end limit k size }
{
    let end = (u64::from(size) + 7) / 8 * 8 + k;
    if end > u64::from(limit) {
        return None;
    }
    Some(end as u32)
}

// The size behind the block of a list of so many elements; `None` where it passes the limit.
pub(crate) fn list_end(limit: u32, count: i128, element_size: u32, size: u32) -> Option<u32>
    requires counts { pos 0 ≤ℤ count }
    requires some { 0 < element_size }
    ensures value { result ≡ list_end limit (nat_abs count) element_size size }
    ensures few { IfSome result (λ end. nat_abs count < 2 ^ 32) }
{
    if count == 0 {
        return Some(size);
    }
    if count > i128::from(limit) {
        return None;
    }
    block_end(limit, count as u64 * u64::from(element_size), size)
}

// Whether the wanted length isn't below 0 and a partner, where there is one, has it.
pub(crate) fn has_length(partner: Option<&Value>, count: i128) -> bool
    ensures { result ≡ has_length count
        (elements_of (option_map (λ value. datum_of value.now) partner.entry)) }
{
    if count < 0 {
        return false;
    }
    match elements_in(partner) {
        None => true,
        Some(values) => values.len() as u128 == count as u128,
    }
}
