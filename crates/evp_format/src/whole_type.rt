//! What is tested where a record type ends: its counts, their defaults, the nesting, the overlaps.

ghost use Rattle.std.specs.Prelude.{◌≡◌, ◌+◌, ◌*◌, ◌-◌, ◌^◌, ◌<◌, ◌≤◌, ◌≢◌, ℕ, [], List, Option};
ghost use Rattle.std.specs.Prelude.{length, IfOk, IfSome, IsTrue, map, All};
ghost use Rattle.evp_format.specs.Drafts.{shape_in, field_with, counted_fields, count_named};
ghost use Rattle.evp_format.specs.Drafts.{is_count_named, is_count, is_counted_by};
ghost use Rattle.evp_format.specs.Drafts.{is_defaulted_count, count_with_default, are_apart};
ghost use Rattle.evp_format.specs.Drafts.{overlap_with, first_overlap, without_count_default};
ghost use Rattle.evp_format.specs.Drafts.{within_nesting, without_overlap};
ghost use Rattle.evp_format.specs.Steps.{Gives, Says};
ghost use Rattle.evp_format.specs.Tree.{Tree, trees, tree, branches_of, part_of};
ghost use Rattle.evp_format.specs.WellLaid.{depth, part_depth, extent};

use crate::draft::may_count;
use crate::{Base, DraftField, DraftShape, Field, LayoutFault, RecordType, Shape, Which};
use evp_base::Name;
use std::alloc::Global;

/// The fields with each count field's number in place of its name, or the first array without one.
pub(crate) fn counted_fields(
    alloc: Global,
    type_number: u16,
    drafts: &[DraftField],
) -> Result<Vec<Field>, LayoutFault>
    requires { length drafts.now ≤ 1024 }
    ensures value { Gives (λ fields. fields.items) result
        (counted_fields type_number 0 drafts.now drafts.now) }
    ensures number { IfOk result (λ fields. length fields.items ≡ length drafts.now) }
{
    let mut fields = Vec::with_capacity(alloc, drafts.len())?;
    for (k, draft) in drafts.iter().enumerate() {
        let Some(shape) = shape_in(drafts, draft.shape) else {
            return Err(LayoutFault::CountField(type_number, k as u16));
        };
        fields.push(field_with(draft, shape))?;
    }
    Ok(fields)
}

// The field, with this shape.
fn field_with(draft: &DraftField, shape: Shape) -> Field
    ensures { result ≡ field_with draft.now shape }
{
    Field {
        name: draft.name,
        base: draft.base,
        shape,
        size: draft.size,
        offset: draft.offset,
        fallback: draft.fallback,
    }
}

// The shape, with the count field's number in place of its name.
#[tactic(auto, unfolding(crate::specs::Drafts::shape_in))]
fn shape_in(drafts: &[DraftField], shape: DraftShape) -> Option<Shape>
    requires { length drafts.now ≤ 1024 }
    ensures { result ≡ shape_in drafts.now shape }
{
    match shape {
        DraftShape::One => Some(Shape::One),
        DraftShape::Fixed(count) => Some(Shape::Fixed(count)),
        DraftShape::Counted(name) => match count_named(drafts, name) {
            Some(number) => Some(Shape::Counted(number)),
            None => None,
        },
    }
}

// The number of the count field of this name.
fn count_named(drafts: &[DraftField], name: Name) -> Option<u16>
    requires { length drafts.now ≤ 1024 }
    ensures { result ≡ count_named drafts.now name }
{
    for (number, draft) in drafts.iter().enumerate() {
        if is_count_named(draft, name) {
            return Some(number as u16);
        }
    }
    None
}

// Whether the field has this name and may be a count.
fn is_count_named(draft: &DraftField, name: Name) -> bool
    ensures { result ≡ is_count_named draft.now name }
{
    draft.name == name && may_count(draft.base, draft.shape)
}

// The number of the first count whose default isn't 0.
fn count_with_default(fields: &[Field]) -> Option<u16>
    requires { length fields.now ≤ 1024 }
    ensures { result ≡ count_with_default fields.now 0 fields.now }
{
    for (k, field) in fields.iter().enumerate() {
        if is_defaulted_count(fields, k as u16, field) {
            return Some(k as u16);
        }
    }
    None
}

// Whether the default of the field of this number isn't 0, and it is a count.
fn is_defaulted_count(fields: &[Field], number: u16, field: &Field) -> bool
    ensures { result ≡ is_defaulted_count fields.now number field.now }
{
    field.fallback != 0 && is_count(fields, number)
}

// Whether some array's count is this field.
fn is_count(fields: &[Field], number: u16) -> bool
    ensures { result ≡ is_count fields.now number }
{
    fields
        .iter()
        .any(|field| is_counted_by(field.shape, number))
}

// Whether the array's count is this field.
fn is_counted_by(shape: Shape, number: u16) -> bool
    ensures { result ≡ is_counted_by shape number }
{
    match shape {
        Shape::Counted(count) => count == number,
        Shape::One | Shape::Fixed(_) => false,
    }
}

/// How deep a type of these fields nests, where the earlier types nest so deep.
pub(crate) fn depth_behind(fields: &[Field], depths: &[u8]) -> u8
    requires { All (λ depth. depth ≤ 16) depths.now }
    ensures value { (trees : List Tree) (room : ℕ) → depths.now ≡ map depth trees → result
        ≡ depth (tree room (branches_of trees fields.now)) }
    ensures bound { result ≤ 17 }
{
    let mut deepest = 0;
    for field in fields {
        let nested = nested_depth(field.base, depths);
        if nested > deepest {
            deepest = nested;
        }
    }
    deepest + 1
}

// How deep a base nests.
fn nested_depth(base: Base, depths: &[u8]) -> u8
    requires { All (λ depth. depth ≤ 16) depths.now }
    ensures value { (trees : List Tree) → depths.now ≡ map depth trees → result
        ≡ part_depth (part_of trees base) }
    ensures bound { result ≤ 16 }
{
    match base {
        Base::Number(_) | Base::Text => 0,
        Base::Nested(number) => match depths.get(usize::from(number)) {
            Some(depth) => *depth,
            None => 1,
        },
    }
}

// The first pair of fields that have bytes in common: by the first, and then by the second.
fn first_overlap(pointer: u8, fields: &[Field]) -> Option<(u16, u16)>
    requires { length fields.now ≤ 1024 }
    ensures { result ≡ first_overlap pointer 0 fields.now }
{
    for (k, field) in fields.iter().enumerate() {
        if let Some(other) = overlap_with(pointer, field, k as u16 + 1, &fields[k + 1..]) {
            return Some((k as u16, other));
        }
    }
    None
}

// The first of these fields, from this number on, that has bytes in common with a field.
fn overlap_with(pointer: u8, field: &Field, number: u16, others: &[Field]) -> Option<u16>
    requires { number + length others.now ≤ 1024 }
    ensures { result ≡ overlap_with pointer field.now number others.now }
{
    for (k, other) in others.iter().enumerate() {
        if !are_apart(pointer, field, other) {
            return Some(number + k as u16);
        }
    }
    None
}

// Whether the bytes of the two fields are apart.
fn are_apart(pointer: u8, field: &Field, other: &Field) -> bool
    ensures { result ≡ are_apart pointer field.now other.now }
{
    end_of(pointer, field) <= u64::from(other.offset)
        || end_of(pointer, other) <= u64::from(field.offset)
}

// The offset behind a field.
fn end_of(pointer: u8, field: &Field) -> u64
    ensures { result ≡ field.now.offset + extent pointer field.now }
{
    u64::from(field.offset) + field.extent(pointer)
}

/// Refused where a count's default isn't 0.
#[tactic(auto, unfolding(crate::specs::Drafts::without_count_default))]
pub(crate) fn refuse_count_default(number: u16, record_type: &RecordType) -> Result<(), LayoutFault>
    requires { length record_type.now.fields ≤ 1024 }
    ensures { Says (λ _. record_type.now) result (without_count_default number record_type.now) }
{
    match count_with_default(record_type.fields.as_slice()) {
        Some(count) => Err(LayoutFault::CountDefault(number, count)),
        None => Ok(()),
    }
}

/// Refused where the type nests deeper than 16.
#[tactic(auto, unfolding(crate::specs::Drafts::within_nesting))]
pub(crate) fn refuse_nesting(
    record_type: &RecordType,
    earlier: &[RecordType],
    depths: &[u8],
) -> Result<(), LayoutFault>
    requires nested { depths.now ≡ map depth (trees earlier.now) }
    requires shallow { All (λ depth. depth ≤ 16) depths.now }
    ensures { Says (λ _. record_type.now) result (within_nesting earlier.now record_type.now) }
{
    let depth = depth_behind(record_type.fields.as_slice(), depths);
    if depth <= 16 {
        Ok(())
    } else {
        Err(LayoutFault::Limit(Which::Nesting, u32::from(depth)))
    }
}

/// Refused where two fields have bytes in common.
#[tactic(auto, unfolding(crate::specs::Drafts::without_overlap))]
pub(crate) fn refuse_overlap(
    pointer: u8,
    number: u16,
    record_type: &RecordType,
) -> Result<(), LayoutFault>
    requires { length record_type.now.fields ≤ 1024 }
    ensures { Says (λ _. record_type.now) result (without_overlap pointer number record_type.now) }
{
    match first_overlap(pointer, record_type.fields.as_slice()) {
        Some((field, other)) => Err(LayoutFault::Overlap(number, field, other)),
        None => Ok(()),
    }
}
