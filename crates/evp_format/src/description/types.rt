//! The record types of a description.

ghost use Rattle.std.specs.Prelude.{◌≡◌, ◌+◌, ◌*◌, ◌^◌, ◌<◌, ◌≤◌, ◌⊎◌, [], length, IfOk};
ghost use Rattle.evp_format.specs.Reading.{type_name_at, type_length_at, field_count_at};
ghost use Rattle.evp_format.specs.Reading.{whole_type, type_at, types_at};
ghost use Rattle.evp_format.specs.Steps.{Gives};
ghost use Rattle.evp_format.specs.WellLaid.{all_fields};

use super::fields::{TypeHead, fields_at};
use super::parts::{number_at, text_at};
use crate::whole_type::refuse_overlap;
use crate::{DraftField, LayoutFault, RecordType, TypesSoFar, Which};
use evp_base::Name;
use std::alloc::Global;

/// The types of a format: so many of them.
pub(crate) fn types_at(
    alloc: Global,
    bytes: &[u8],
    at: u32,
    count: u32,
    stated: bool,
    pointer: u8,
) -> Result<(TypesSoFar, u32), LayoutFault>
    requires near { at ≤ 8 }
    requires few { count ≤ 64 }
    requires allowed { (pointer ≡ 4) ⊎ (pointer ≡ 8) }
    ensures value { Gives (λ read. (read.0.types, read.1)) result
        (types_at count stated pointer [] bytes.now at) }
    ensures pointer { IfOk result (λ read. read.0.pointer ≡ pointer) }
    ensures number { IfOk result (λ read. length read.0.types ≡ count) }
    ensures behind { IfOk result (λ read. read.1 < 2 ^ 24) }
{
    let mut types = TypesSoFar::new(alloc, pointer);
    let mut next = at;
    for _ in 0..count {
        let (record_type, behind) = type_at(alloc, bytes, next, stated, &types)?;
        types.push(record_type)?;
        next = behind;
    }
    Ok((types, next))
}

// A type behind these.
#[tactic(auto, unfolding(crate::specs::Reading::type_at))]
fn type_at(
    alloc: Global,
    bytes: &[u8],
    at: u32,
    stated: bool,
    types: &TypesSoFar,
) -> Result<(RecordType, u32), LayoutFault>
    requires near { at < 2 ^ 24 }
    ensures value { Gives (λ read. read) result
        (type_at stated types.now.pointer types.now.types bytes.now at) }
    ensures behind { IfOk result (λ read. read.1 ≤ at + 262 + 536 * length read.0.fields) }
    ensures fields { IfOk result
        (λ read. all_fields types.now.types + length read.0.fields ≤ 4096) }
{
    let (name, at) = type_name_at(bytes, at, types)?;
    let (room, at) = type_length_at(bytes, at)?;
    let (count, at) = field_count_at(bytes, at, types)?;
    let head = TypeHead {
        stated,
        types,
        room,
    };
    let (drafts, at) = fields_at(alloc, bytes, at, count, &head)?;
    let record_type = whole_type(alloc, types, name, room, &drafts)?;
    Ok((record_type, at))
}

// A name that isn't reserved and that no earlier type has.
#[tactic(auto, unfolding(crate::specs::Reading::type_name_at))]
fn type_name_at(bytes: &[u8], at: u32, types: &TypesSoFar) -> Result<(Name, u32), LayoutFault>
    requires { at < 2 ^ 31 }
    ensures value { result ≡ type_name_at types.now.types bytes.now at }
    ensures behind { IfOk result (λ read. read.1 ≤ at + 256) }
{
    let (text, behind) = text_at(bytes, at)?;
    let name = types.type_name(text)?;
    Ok((name, behind))
}

// A length of 1 to 65,536.
#[tactic(auto, unfolding(crate::specs::Reading::type_length_at))]
fn type_length_at(bytes: &[u8], at: u32) -> Result<(u32, u32), LayoutFault>
    requires { at < 2 ^ 31 }
    ensures value { result ≡ type_length_at bytes.now at }
    ensures behind { IfOk result (λ read. read.1 ≡ at + 4) }
{
    let (room, behind) = number_at(bytes, at, 4)?;
    if 1 <= room && room <= 65536 {
        Ok((room, behind))
    } else {
        Err(LayoutFault::Limit(Which::Length, room))
    }
}

// A number of fields from 1 to 1,024, with which all types have at most 4,096.
#[tactic(auto, unfolding(crate::specs::Reading::field_count_at))]
fn field_count_at(bytes: &[u8], at: u32, types: &TypesSoFar) -> Result<(u32, u32), LayoutFault>
    requires { at < 2 ^ 31 }
    ensures value { result ≡ field_count_at (all_fields types.now.types) bytes.now at }
    ensures behind { IfOk result (λ read. read.1 ≡ at + 2) }
    ensures limit { IfOk result (λ read. (read.0 ≤ 1024)
        × (all_fields types.now.types + read.0 ≤ 4096)) }
{
    let (stated, behind) = number_at(bytes, at, 2)?;
    let count = types.field_count(stated)?;
    Ok((count, behind))
}

// The type of these fields, or the first fault that shows where it ends.
#[tactic(auto, unfolding(crate::specs::Reading::whole_type))]
fn whole_type(
    alloc: Global,
    types: &TypesSoFar,
    name: Name,
    room: u32,
    drafts: &[DraftField],
) -> Result<RecordType, LayoutFault>
    requires { length drafts.now ≤ 1024 }
    ensures value { Gives (λ made. made) result
        (whole_type types.now.pointer types.now.types name room drafts.now) }
    ensures number { IfOk result (λ made. length made.fields ≡ length drafts.now) }
{
    let record_type = types.end_fields(alloc, name, room, drafts)?;
    refuse_overlap(types.pointer(), types.number(), &record_type)?;
    Ok(record_type)
}
