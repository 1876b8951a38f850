//! The readers of a checked record. Each is a read at an offset: none walks the record, and none
//! takes memory. A field of a type is named by its number, from 0.

ghost use Rattle.std.specs.Prelude.{◌≡◌, ◌<◌, Some, IfSome};
ghost use Rattle.evp_format.specs.Text.{HasNoZero};
ghost use Rattle.std.specs.Option.{option_copied};
ghost use Rattle.evp_format.specs.Datum.{num};
ghost use Rattle.evp_format.specs.WellLaid.{IsWellLaid};
ghost use Rattle.evp_record.specs.Class.{field_at, class_at, single, array, numbers, texts};
ghost use Rattle.evp_record.specs.Class.{records, IsArray, nested_at};
ghost use Rattle.evp_record.specs.NumberPieces.{ArePieces, IsInRangeOf};
ghost use Rattle.evp_record.specs.Parts.{IsBelow, list_length, text_value};
ghost use Rattle.evp_record.specs.Record.{IsRecord, value_of};
ghost use Rattle.evp_record.specs.Spots.{IsReached, part_at, element_at, value_at, root_spot};

use crate::{Checked, Spot};

impl<'a> Checked<'a> {
    /// The record itself, in a format that is well laid.
    pub fn root(&self) -> Spot
        ensures place { result ≡ root_spot self.now.layout }
        ensures reached { IsReached self.now result }
        ensures value { value_at self.now result ≡ value_of self.now }
        ensures kept { IsRecord self.now }
        ensures laid { IsWellLaid self.now.layout }
    {
        Spot {
            type_number: (self.format().types().len() - 1) as u16,
            at: 0,
        }
    }

    /// The number of a single number field of the record at the spot, in the range of its field.
    pub fn number_at(&self, spot: Spot, field: u16) -> i128
        requires reached { IsReached self.now spot }
        requires class { class_at self.now.layout spot.type_number field ≡ Some (single numbers) }
        ensures value { part_at self.now spot field ≡ Some (num result) }
        ensures in_range { IsInRangeOf (field_at self.now.layout spot.type_number field) result }
    {
        self.number(self.single(spot, field))
    }

    /// The text of a single string field of the record at the spot, without its zero byte; None
    /// exactly for null.
    pub fn text_at(&self, spot: Spot, field: u16) -> Option<&'a [u8]>
        requires reached { IsReached self.now spot }
        requires class { class_at self.now.layout spot.type_number field ≡ Some (single texts) }
        ensures value { part_at self.now spot field ≡ Some (text_value (option_copied result)) }
        ensures no_zero { IfSome result (λ bytes. HasNoZero bytes.now) }
    {
        self.text(self.single(spot, field))
    }

    /// The record in a single record field of the record at the spot. Its type is an earlier one.
    pub fn record_at(&self, spot: Spot, field: u16) -> Spot
        requires reached { IsReached self.now spot }
        requires class { class_at self.now.layout spot.type_number field ≡ Some (single records) }
        ensures reached { IsReached self.now result }
        ensures value { part_at self.now spot field ≡ Some (value_at self.now result) }
        ensures number { nested_at self.now.layout spot.type_number field
            ≡ Some result.type_number }
        ensures earlier { result.type_number < spot.type_number }
    {
        self.nested(self.single(spot, field))
    }

    /// How many elements an array field of the record at the spot has.
    pub fn list_len(&self, spot: Spot, field: u16) -> u32
        requires reached { IsReached self.now spot }
        requires class { IsArray (class_at self.now.layout spot.type_number field) }
        ensures { list_length (part_at self.now spot field) ≡ Some result }
    {
        self.length(spot, field)
    }

    /// The number that is element k of an array field of the record at the spot, in the range of
    /// its field.
    pub fn number_in(&self, spot: Spot, field: u16, k: u32) -> i128
        requires reached { IsReached self.now spot }
        requires class { class_at self.now.layout spot.type_number field ≡ Some (array numbers) }
        requires within { IsBelow k (list_length (part_at self.now spot field)) }
        ensures value { element_at self.now spot field k ≡ Some (num result) }
        ensures in_range { IsInRangeOf (field_at self.now.layout spot.type_number field) result }
    {
        self.number(self.element(spot, field, k))
    }

    /// The bytes of the elements of an array of numbers of the record at the spot, one behind the
    /// other: element k is the number of the k-th piece, and each piece is of the field's size.
    pub fn elements(&self, spot: Spot, field: u16) -> &'a [u8]
        requires reached { IsReached self.now spot }
        requires class { class_at self.now.layout spot.type_number field ≡ Some (array numbers) }
        ensures { ArePieces self.now spot field result.now }
    {
        self.block(spot, field)
    }

    /// The text that is element k of an array field of the record at the spot, without its zero
    /// byte; None exactly for null.
    pub fn text_in(&self, spot: Spot, field: u16, k: u32) -> Option<&'a [u8]>
        requires reached { IsReached self.now spot }
        requires class { class_at self.now.layout spot.type_number field ≡ Some (array texts) }
        requires within { IsBelow k (list_length (part_at self.now spot field)) }
        ensures value { element_at self.now spot field k
            ≡ Some (text_value (option_copied result)) }
        ensures no_zero { IfSome result (λ bytes. HasNoZero bytes.now) }
    {
        self.text(self.element(spot, field, k))
    }

    /// The record that is element k of an array field of the record at the spot. Its type is an
    /// earlier one.
    pub fn record_in(&self, spot: Spot, field: u16, k: u32) -> Spot
        requires reached { IsReached self.now spot }
        requires class { class_at self.now.layout spot.type_number field ≡ Some (array records) }
        requires within { IsBelow k (list_length (part_at self.now spot field)) }
        ensures reached { IsReached self.now result }
        ensures value { element_at self.now spot field k ≡ Some (value_at self.now result) }
        ensures number { nested_at self.now.layout spot.type_number field
            ≡ Some result.type_number }
        ensures earlier { result.type_number < spot.type_number }
    {
        self.nested(self.element(spot, field, k))
    }
}
