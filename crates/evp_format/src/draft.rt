//! Fields as they are stated: an array's count goes by its name.

ghost use Rattle.std.specs.Prelude.{◌≡◌, ◌^◌, ◌<◌, ◌≤◌, ◌-◌, length, IsTrue};
ghost use Rattle.evp_format.specs.Drafts.{has_field, has_type, is_base_size, nested_length};
ghost use Rattle.evp_format.specs.Drafts.{draft_extent, draft_of, may_default, may_count};

use crate::{Base, RecordType};
use evp_base::{Kind, Name, fits};

/// How many elements a stated field has.
#[derive(Clone, Copy, Debug)]
pub enum DraftShape {
    /// One, inside the record.
    One,
    /// This many, 1 to 65,536, inside the record.
    Fixed(u32),
    /// As many as the field of this name says.
    Counted(Name),
}

/// A field as it is stated, before its type is whole.
#[derive(Clone, Copy, Debug)]
pub struct DraftField {
    /// Unlike the other fields of its type.
    pub name: Name,
    /// What it, or each of its elements, is.
    pub base: Base,
    /// How many elements it has.
    pub shape: DraftShape,
    /// Bytes of one element.
    pub size: u32,
    /// Bytes from the record's first byte to the field's.
    pub offset: u32,
    /// The stated default.
    pub fallback: i128,
}

// Whether one of these fields has this name.
pub(crate) fn has_field(fields: &[DraftField], name: Name) -> bool
    ensures { result ≡ has_field fields.now name }
{
    fields.iter().any(|field| field.name == name)
}

// Whether one of these types has this name.
pub(crate) fn has_type(types: &[RecordType], name: Name) -> bool
    ensures { result ≡ has_type types.now name }
{
    types.iter().any(|record_type| record_type.name == name)
}

/// Whether the base may have this size: 1, 2, 4 or 8 for a number (1 for a char), the pointer's for
/// a string, its type's length for a record.
pub(crate) fn is_base_size(pointer: u8, earlier: &[RecordType], base: Base, size: u32) -> bool
    ensures { result ≡ is_base_size pointer earlier.now base size }
{
    match base {
        Base::Number(Kind::Char) => size == 1,
        Base::Number(_) => size == 1 || size == 2 || size == 4 || size == 8,
        Base::Text => size == u32::from(pointer),
        Base::Nested(number) => size == nested_length(earlier, number),
    }
}

/// The length of the type of this number, or 0 where there is none.
pub(crate) fn nested_length(types: &[RecordType], number: u16) -> u32
    ensures { result ≡ nested_length types.now number }
{
    match types.get(usize::from(number)) {
        Some(record_type) => record_type.length,
        None => 0,
    }
}

/// Bytes that a stated field takes inside its record.
pub(crate) fn draft_extent(pointer: u8, shape: &DraftShape, size: u32) -> u64
    ensures value { result ≡ draft_extent pointer shape.now size }
    ensures bound { result < 2 ^ 64 - 2 ^ 32 }
{
    match shape {
        DraftShape::One => u64::from(size),
        DraftShape::Fixed(count) => u64::from(*count) * u64::from(size),
        DraftShape::Counted(_) => u64::from(pointer),
    }
}

/// Whether the field may have this default, unless it is a count: 0, or a number in its range if it
/// is a single number.
pub(crate) fn may_default(
    field: &DraftField,
    fallback: i128,
    pointer: u8,
    earlier: &[RecordType],
) -> bool
    requires { IsTrue (is_base_size pointer earlier.now field.now.base field.now.size) }
    ensures { result ≡ may_default field.now.base field.now.shape field.now.size fallback }
{
    if fallback == 0 {
        return true;
    }
    match (field.base, field.shape) {
        (Base::Number(kind), DraftShape::One) => fits(kind, field.size, fallback),
        _ => false,
    }
}

/// Whether the field may be an array's count: a single `integer` or `unsigned integer`.
pub(crate) fn may_count(base: Base, shape: DraftShape) -> bool
    ensures { result ≡ may_count base shape }
{
    matches!(
        (base, shape),
        (Base::Number(Kind::Int | Kind::Unsigned), DraftShape::One)
    )
}

/// A field of these parts.
pub(crate) fn draft_of(
    name: Name,
    said: &(Base, DraftShape),
    size: u32,
    offset: u32,
    fallback: i128,
) -> DraftField
    ensures { result ≡ draft_of name said.now size offset fallback }
{
    DraftField {
        name,
        base: said.0,
        shape: said.1,
        size,
        offset,
        fallback,
    }
}
