//! The fields of a format's types, by number, and the counts of arrays.

ghost use Rattle.std.specs.Prelude.{◌≡◌, ◌+◌, ◌-◌, ◌^◌, ◌≤◌, ◌≤ℤ◌, pos, length, Some, IsSome};
ghost use Rattle.evp_format.specs.Tree.{tree_of, length_of};
ghost use Rattle.evp_format.specs.WellLaid.{IsWellLaid};
ghost use Rattle.evp_record.specs.Class.{field_at};
ghost use Rattle.evp_record.specs.Walks.{IsCountAt, count_number};

use crate::Spot;
use crate::words::number_at;
use evp_format::{Base, Field, Format};

// The field of this number of the type of that number.
pub(crate) fn field_at(format: &Format, type_number: u16, index: u16) -> &Field
    requires { IsSome (field_at format.now type_number index) }
    ensures value { field_at format.now type_number index ≡ Some result.now }
    ensures laid { IsWellLaid format.now }
{
    let record_type = &format.types()[usize::from(type_number)];
    &record_type.fields.as_slice()[usize::from(index)]
}

// The number of the count field of an array of the record at the spot.
pub(crate) fn count_at(format: &Format, bytes: &[u8], spot: Spot, count: u16) -> i128
    requires laid { IsWellLaid format.now }
    requires count_there { IsCountAt format.now spot.type_number count }
    requires inside { spot.at + length_of (tree_of format.now spot.type_number) ≤ length bytes.now }
    ensures value { result ≡ count_number format.now bytes.now spot count }
    ensures bound { result ≤ℤ pos (2 ^ 64 - 1) }
{
    let field = field_at(format, spot.type_number, count);
    let at = spot.at as usize + field.offset as usize;
    match field.base {
        Base::Number(kind) => number_at(format, bytes, at, kind, field.size),
        Base::Text | Base::Nested(_) => unreachable!(),
    }
}
