//! Alignments: what an offset has to be a multiple of.

ghost use Rattle.std.specs.Prelude.{◌≡◌, ◌<◌, min, IsTrue};
ghost use Rattle.evp_format.specs.Tree.{trees, part_of};
ghost use Rattle.evp_profile.specs.Alignment.{pointer_alignment, part_alignment, field_alignment};
ghost use Rattle.evp_profile.specs.Alignment.{fields_alignment};
ghost use Rattle.evp_profile.specs.Profile.{greatest_alignment};
ghost use Rattle.evp_profile.specs.Sizes.{is_number_size};

use crate::Profile;
use crate::laid_types::LaidTypes;
use evp_format::{Base, Field, Shape};

/// The greatest of the fields' alignments.
pub(crate) fn fields_alignment(earlier: &LaidTypes, fields: &[Field]) -> u8
    ensures value { result ≡ fields_alignment earlier.now.profile (trees earlier.now.types)
        fields.now }
    ensures positive { 0 < result }
{
    let mut greatest = 1;
    for field in fields {
        let own = field_alignment(earlier, field);
        if own > greatest {
            greatest = own;
        }
    }
    greatest
}

/// A field's alignment.
pub(crate) fn field_alignment(earlier: &LaidTypes, field: &Field) -> u8
    ensures value { result
        ≡ field_alignment earlier.now.profile (trees earlier.now.types) field.now }
    ensures positive { IsTrue (is_number_size field.now.base field.now.size) → 0 < result }
{
    match field.shape {
        Shape::Counted(_) => pointer_alignment(earlier.profile()),
        Shape::One | Shape::Fixed(_) => base_alignment(earlier, field.base, field.size),
    }
}

// The alignment of a single field of this size, or of an array's element.
fn base_alignment(earlier: &LaidTypes, base: Base, size: u32) -> u8
    ensures value { result ≡ part_alignment earlier.now.profile size
        (part_of (trees earlier.now.types) base) }
    ensures positive { IsTrue (is_number_size base size) → 0 < result }
{
    match base {
        Base::Number(_) => number_alignment(earlier.profile(), size),
        Base::Text => pointer_alignment(earlier.profile()),
        Base::Nested(number) => match earlier.alignments().get(usize::from(number)) {
            Some(alignment) => *alignment,
            None => 1,
        },
    }
}

// A number's alignment: its size, but no more than the machine's greatest.
fn number_alignment(profile: Profile, size: u32) -> u8
    ensures { result ≡ min size (greatest_alignment profile) }
{
    size.min(u32::from(profile.greatest_alignment())) as u8
}

// A pointer's alignment.
fn pointer_alignment(profile: Profile) -> u8
    ensures { result ≡ pointer_alignment profile }
{
    profile.pointer_size().min(profile.greatest_alignment())
}
