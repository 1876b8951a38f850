//! Reading a description from left to right.

ghost use Rattle.std.specs.Prelude.{◌≡◌, ◌+◌, ◌^◌, ◌<◌, ◌≤◌, ◌⊎◌, List, ℕ, Ok, IfOk, IfErr, Some};
ghost use Rattle.evp_format.specs.Describing.{describe, states_default, all_default_zero};
ghost use Rattle.evp_format.specs.Layout.{Layout};
ghost use Rattle.evp_format.specs.Reading.{magic_at, order_at, pointer_at, type_count_at};
ghost use Rattle.evp_format.specs.Reading.{with_default, layout_at, layout_of, layout_fault};
ghost use Rattle.evp_format.specs.Steps.{Gives};
ghost use Rattle.evp_format.specs.WellLaid.{IsWellLaid};

use super::parts::number_at;
use super::types::types_at;
use super::writing::states_default;
use crate::type_text::is_text;
use crate::{Format, LayoutFault, Which};
use evp_base::Order;
use std::alloc::Global;

/// The format that these bytes describe, all of them, or the first fault from left to right
/// (`docs/DEFINITIONS.md`, "Descriptions").
pub fn read_description(alloc: Global, bytes: &[u8]) -> Result<Format, LayoutFault>
    // What is read is well laid, and the bytes are its description.
    ensures found { IfOk result (λ format. IsWellLaid format × (bytes.now ≡ describe format)) }
    // A well laid format's description is read as that format, unless there is no memory.
    ensures only { (layout : Layout) → IsWellLaid layout → bytes.now ≡ describe layout
        → Gives (λ format. format) result (Ok layout) }
    // Which fault it is.
    ensures exact { Gives (λ format. format) result (layout_of bytes.now) }
{
    read_all(alloc, bytes)
}

// The format that the bytes describe, all of them.
#[tactic(auto, unfolding(crate::specs::Reading::layout_of))]
fn read_all(alloc: Global, bytes: &[u8]) -> Result<Format, LayoutFault>
    ensures exact { Gives (λ format. format) result (layout_of bytes.now) }
    ensures laid { IfOk result (λ format. IsWellLaid format) }
{
    let (format, at) = format_at(alloc, bytes)?;
    if (at as usize) < bytes.len() {
        return Err(LayoutFault::Trailing(at));
    }
    Ok(format)
}

// The format at the front.
#[tactic(auto, unfolding(crate::specs::Reading::layout_at, crate::specs::Reading::with_default))]
fn format_at(alloc: Global, bytes: &[u8]) -> Result<(Format, u32), LayoutFault>
    ensures value { Gives (λ read. read) result (layout_at bytes.now) }
    ensures laid { IfOk result (λ read. IsWellLaid read.0) }
{
    let (stated, at) = magic_at(bytes)?;
    let (order, at) = order_at(bytes, at)?;
    let (pointer, at) = pointer_at(bytes, at)?;
    let (count, at) = type_count_at(bytes, at)?;
    let (types, at) = types_at(alloc, bytes, at, count, stated, pointer)?;
    if stated && !states_default(types.types()) {
        return Err(LayoutFault::Plain);
    }
    let format = types.into_format(alloc, order)?;
    Ok((format, at))
}

// Whether defaults are stated.
#[tactic(auto, unfolding(crate::specs::Reading::magic_at))]
fn magic_at(bytes: &[u8]) -> Result<(bool, u32), LayoutFault>
    ensures value { result ≡ magic_at bytes.now }
    ensures behind { IfOk result (λ read. read.1 ≡ 4) }
{
    if bytes.len() < 4 {
        return Err(LayoutFault::Short(0));
    }
    let magic = &bytes[..4];
    if is_text(magic, b"NDF1") {
        Ok((false, 4))
    } else if is_text(magic, b"NDF2") {
        Ok((true, 4))
    } else {
        Err(LayoutFault::Magic)
    }
}

// The byte order.
#[tactic(auto, unfolding(crate::specs::Reading::order_at))]
fn order_at(bytes: &[u8], at: u32) -> Result<(Order, u32), LayoutFault>
    requires { at < 2 ^ 31 }
    ensures value { result ≡ order_at bytes.now at }
    ensures behind { IfOk result (λ read. read.1 ≡ at + 1) }
{
    let (order, behind) = number_at(bytes, at, 1)?;
    match order {
        0 => Ok((Order::Little, behind)),
        1 => Ok((Order::Big, behind)),
        _ => Err(LayoutFault::ByteOrder),
    }
}

// The pointer size.
#[tactic(auto, unfolding(crate::specs::Reading::pointer_at))]
fn pointer_at(bytes: &[u8], at: u32) -> Result<(u8, u32), LayoutFault>
    requires { at < 2 ^ 31 }
    ensures value { result ≡ pointer_at bytes.now at }
    ensures size { IfOk result (λ read. (read.0 ≡ 4) ⊎ (read.0 ≡ 8)) }
    ensures behind { IfOk result (λ read. read.1 ≡ at + 1) }
{
    let (pointer, behind) = number_at(bytes, at, 1)?;
    if pointer == 4 || pointer == 8 {
        Ok((pointer as u8, behind))
    } else {
        Err(LayoutFault::Pointer)
    }
}

// A number of types from 1 to 64.
#[tactic(auto, unfolding(crate::specs::Reading::type_count_at))]
fn type_count_at(bytes: &[u8], at: u32) -> Result<(u32, u32), LayoutFault>
    requires { at < 2 ^ 31 }
    ensures value { result ≡ type_count_at bytes.now at }
    ensures behind { IfOk result (λ read. read.1 ≡ at + 2) }
    ensures limit { IfOk result (λ read. (1 ≤ read.0) × (read.0 ≤ 64)) }
{
    let (count, behind) = number_at(bytes, at, 2)?;
    if 1 <= count && count <= 64 {
        Ok((count, behind))
    } else {
        Err(LayoutFault::Limit(Which::Types, count))
    }
}
