//! The fields of a described type: each part is read and tested before the next.

ghost use Rattle.std.specs.Prelude.{◌≡◌, ◌+◌, ◌-◌, ◌*◌, ◌^◌, ◌<◌, ◌≤◌, [], length, IfOk, IsTrue};
ghost use Rattle.evp_format.specs.Drafts.{is_base_size};
ghost use Rattle.evp_format.specs.Steps.{Gives};
ghost use Rattle.evp_format.specs.Reading.{field_name_at, field_type_at, field_size_at};
ghost use Rattle.evp_format.specs.Reading.{field_offset_at, default_at, field_at, fields_at};

use super::parts::{number_at, signed_at, text_at};
use crate::draft::{draft_extent, draft_of};
use crate::{Base, DraftField, DraftShape, LayoutFault, TypesSoFar};
use evp_base::Name;
use std::alloc::Global;

/// What the fields of a type stand in.
#[derive(Drop)]
pub(crate) struct TypeHead<'a> {
    /// Whether defaults are stated.
    pub stated: bool,
    /// The types before this one.
    pub types: &'a TypesSoFar,
    /// Bytes of the type.
    pub room: u32,
}

/// The fields of a type: so many of them.
pub(crate) fn fields_at(
    alloc: Global,
    bytes: &[u8],
    at: u32,
    count: u32,
    head: &TypeHead,
) -> Result<(Vec<DraftField>, u32), LayoutFault>
    requires near { at < 2 ^ 30 }
    requires few { count ≤ 1024 }
    ensures value { let types = head.now.types.now in
        Gives (λ read. (read.0.items, read.1)) result
        (fields_at count head.now.stated types.pointer types.types head.now.room [] bytes.now at) }
    ensures behind { IfOk result (λ read. read.1 ≤ at + 536 * count) }
    ensures number { IfOk result (λ read. length read.0.items ≡ count) }
{
    let mut fields = Vec::new(alloc);
    let mut next = at;
    for _ in 0..count {
        let (field, behind) = field_at(bytes, next, &fields, head)?;
        fields.push(field)?;
        next = behind;
    }
    Ok((fields, next))
}

// A field behind these.
#[tactic(auto, unfolding(crate::specs::Reading::field_at))]
fn field_at(
    bytes: &[u8],
    at: u32,
    before: &[DraftField],
    head: &TypeHead,
) -> Result<(DraftField, u32), LayoutFault>
    requires near { at < 2 ^ 30 + 2 ^ 20 }
    requires few { length before.now < 1024 }
    ensures value { let types = head.now.types.now in
        result ≡ field_at head.now.stated types.pointer types.types head.now.room before.now
        bytes.now at }
    ensures behind { IfOk result (λ read. read.1 ≤ at + 536) }
{
    let number = before.len() as u16;
    let (name, at) = field_name_at(bytes, at, before, head.types)?;
    let (said, at) = field_type_at(bytes, at, number, head.types)?;
    let (size, at) = field_size_at(bytes, at, number, said.0, head.types)?;
    let taken = draft_extent(head.types.pointer(), &said.1, size);
    let (offset, at) = field_offset_at(bytes, at, head, number, taken)?;
    let plain = draft_of(name, &said, size, offset, 0);
    let (fallback, at) = default_at(bytes, at, head, number, &plain)?;
    Ok((draft_of(name, &said, size, offset, fallback), at))
}

// A name that no earlier field of the type has.
#[tactic(auto, unfolding(crate::specs::Reading::field_name_at))]
fn field_name_at(
    bytes: &[u8],
    at: u32,
    before: &[DraftField],
    types: &TypesSoFar,
) -> Result<(Name, u32), LayoutFault>
    requires near { at < 2 ^ 31 }
    requires few { length before.now < 1024 }
    ensures value { result ≡ field_name_at (length types.now.types) before.now bytes.now at }
    ensures behind { IfOk result (λ read. read.1 ≤ at + 256) }
{
    let (text, behind) = text_at(bytes, at)?;
    let name = types.field_name(before, text)?;
    Ok((name, behind))
}

// What a type text says.
#[tactic(auto, unfolding(crate::specs::Reading::field_type_at))]
fn field_type_at(
    bytes: &[u8],
    at: u32,
    field: u16,
    types: &TypesSoFar,
) -> Result<((Base, DraftShape), u32), LayoutFault>
    requires near { at < 2 ^ 31 }
    ensures value { result ≡ field_type_at types.now.types field bytes.now at }
    ensures behind { IfOk result (λ read. read.1 ≤ at + 256) }
{
    let (text, behind) = text_at(bytes, at)?;
    let said = types.type_text(field, text)?;
    Ok((said, behind))
}

// A size that the base may have.
#[tactic(auto, unfolding(crate::specs::Reading::field_size_at))]
fn field_size_at(
    bytes: &[u8],
    at: u32,
    field: u16,
    base: Base,
    types: &TypesSoFar,
) -> Result<(u32, u32), LayoutFault>
    requires near { at < 2 ^ 31 }
    ensures value { result
        ≡ field_size_at types.now.pointer types.now.types field base bytes.now at }
    ensures allowed { IfOk result (λ read. IsTrue
        (is_base_size types.now.pointer types.now.types base read.0)) }
    ensures behind { IfOk result (λ read. read.1 ≡ at + 4) }
{
    let (stated, behind) = number_at(bytes, at, 4)?;
    let size = types.size(field, base, stated)?;
    Ok((size, behind))
}

// An offset from which the field ends within the type's length.
#[tactic(auto, unfolding(crate::specs::Reading::field_offset_at))]
fn field_offset_at(
    bytes: &[u8],
    at: u32,
    head: &TypeHead,
    field: u16,
    taken: u64,
) -> Result<(u32, u32), LayoutFault>
    requires near { at < 2 ^ 31 }
    requires small { taken < 2 ^ 64 - 2 ^ 32 }
    ensures value { result ≡ field_offset_at (length head.now.types.now.types) field taken
        head.now.room bytes.now at }
    ensures behind { IfOk result (λ read. read.1 ≡ at + 4) }
{
    let (offset, behind) = number_at(bytes, at, 4)?;
    if u64::from(offset) + taken <= u64::from(head.room) {
        Ok((offset, behind))
    } else {
        Err(LayoutFault::Outside(head.types.number(), field))
    }
}

// A default that the field may have, where defaults are stated, else 0.
#[tactic(auto, unfolding(crate::specs::Reading::default_at))]
fn default_at(
    bytes: &[u8],
    at: u32,
    head: &TypeHead,
    number: u16,
    field: &DraftField,
) -> Result<(i128, u32), LayoutFault>
    requires near { at < 2 ^ 31 }
    requires sized { IsTrue (is_base_size head.now.types.now.pointer head.now.types.now.types
        field.now.base field.now.size) }
    ensures value { result ≡ default_at head.now.stated (length head.now.types.now.types) field.now
        number bytes.now at }
    ensures behind { IfOk result (λ read. read.1 ≤ at + 16) }
{
    if !head.stated {
        return Ok((0, at));
    }
    let (stated, behind) = signed_at(bytes, at)?;
    let fallback = head.types.default(number, field, stated)?;
    Ok((fallback, behind))
}
