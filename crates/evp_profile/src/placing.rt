//! Where fields stand: each at the least multiple of its alignment behind the one before it.

ghost use Rattle.std.specs.Prelude.{◌≡◌, ◌+◌, ◌<◌, ◌≤◌, min, IfOk, All};
ghost use Rattle.std.specs.Int.{next_multiple_of};
ghost use Rattle.evp_format.specs.Tree.{trees};
ghost use Rattle.evp_profile.specs.Placing.{offset_behind, end_behind, end_of_fields};
ghost use Rattle.evp_profile.specs.Placing.{length_of_fields, placed_fields};
ghost use Rattle.evp_profile.specs.Sizes.{HasNumberSize};

use crate::alignment::{field_alignment, fields_alignment};
use crate::laid_types::LaidTypes;
use evp_format::Field;
use std::alloc::{AllocError, Global};

/// Bytes of a type of these fields: the end of the last, rounded up to the greatest alignment; or
/// 2^32 - 1, where they are more.
pub(crate) fn length_of_fields(earlier: &LaidTypes, fields: &[Field]) -> u32
    requires { All HasNumberSize fields.now }
    ensures { result ≡ min (length_of_fields earlier.now.profile (trees earlier.now.types)
        fields.now) 4294967295 }
{
    let end = end_of_fields(earlier, fields);
    let alignment = fields_alignment(earlier, fields);
    let length = u64::from(end).next_multiple_of(u64::from(alignment));
    length.min(u64::from(u32::MAX)) as u32
}

// The end of the last field, or 2^32 - 1, where it is more.
fn end_of_fields(earlier: &LaidTypes, fields: &[Field]) -> u32
    requires { All HasNumberSize fields.now }
    ensures { result ≡ min (end_of_fields earlier.now.profile (trees earlier.now.types) 0
        fields.now) 4294967295 }
{
    let mut end = 0;
    for field in fields {
        let behind = end_behind(earlier, end, field);
        if behind > u64::from(u32::MAX) {
            return u32::MAX;
        }
        end = behind as u32;
    }
    end
}

// The end of a field that stands behind `end`.
fn end_behind(earlier: &LaidTypes, end: u32, field: &Field) -> u64
    requires { HasNumberSize field.now }
    ensures { result ≡ end_behind earlier.now.profile (trees earlier.now.types) end field.now }
{
    offset_behind(earlier, end, field) + field.extent(earlier.profile().pointer_size())
}

// The least multiple of the field's alignment at or after `end`.
fn offset_behind(earlier: &LaidTypes, end: u32, field: &Field) -> u64
    requires { HasNumberSize field.now }
    ensures value { result ≡ offset_behind earlier.now.profile (trees earlier.now.types) end
        field.now }
    ensures bound { result < end + 256 }
{
    u64::from(end).next_multiple_of(u64::from(field_alignment(earlier, field)))
}

/// The fields at their offsets.
pub(crate) fn placed_fields(
    alloc: Global,
    earlier: &LaidTypes,
    fields: &[Field],
) -> Result<Vec<Field>, AllocError>
    requires sized { All HasNumberSize fields.now }
    requires short { end_of_fields earlier.now.profile (trees earlier.now.types) 0 fields.now ≤
        65536 }
    ensures { IfOk result (λ placed. placed.items ≡ placed_fields earlier.now.profile
        (trees earlier.now.types) 0 fields.now) }
{
    let mut placed = Vec::with_capacity(alloc, fields.len())?;
    let mut end = 0;
    for field in fields {
        let offset = offset_behind(earlier, end, field) as u32;
        placed.push(Field { offset, ..*field })?;
        end = end_behind(earlier, end, field) as u32;
    }
    Ok(placed)
}
