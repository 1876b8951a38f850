//! The parts of records: single fields, and the elements of arrays.

ghost use Rattle.std.specs.Prelude.{◌≡◌, ◌+◌, ◌^◌, ◌≤◌, ◌<◌, length, Some, IsSome, IfSome};
ghost use Rattle.evp_format.specs.Text.{HasNoZero};
ghost use Rattle.evp_format.specs.Tree.{tree_of, length_of};
ghost use Rattle.evp_format.specs.Viewing.{pointer_at, image_of};
ghost use Rattle.evp_record.specs.Walks.{IsCountAt, count_number};
ghost use Rattle.evp_format.specs.WellLaid.{IsWellLaid, IsNumberIn};
ghost use Rattle.evp_format.specs.Datum.{num};
ghost use Rattle.evp_record.specs.Class.{field_at, class_at, content_of, array, numbers, texts};
ghost use Rattle.evp_record.specs.Class.{records, IsSingle, IsArray, IsFieldOf, nested_number};
ghost use Rattle.evp_record.specs.Class.{type_fields};
ghost use Rattle.evp_record.specs.NumberPieces.{ArePieces};
ghost use Rattle.evp_record.specs.Record.{IsRecord};
ghost use Rattle.evp_record.specs.Parts.{IsBelow, list_length, text_value};
ghost use Rattle.evp_record.specs.Spots.{IsReached, IsPartAt, part_at, element_at, value_at};
ghost use Rattle.evp_record.specs.Spots.{value_there, elements_start};
ghost use Rattle.std.specs.Option.{option_copied};

use crate::fields::{count_at, field_at};
use crate::words::{number_at, pointer_at, zero_at};
use crate::{Checked, Spot};
use evp_format::{Base, Field, Shape};

// A part that stands in a record's bytes: what a single field is, or an element of an array.
#[derive(Clone, Copy)]
pub(crate) struct Part<'a> {
    pub(crate) field: &'a Field,
    pub(crate) at: usize,
}

impl<'a> Checked<'a> {
    // The field of this number of the type of the spot.
    pub(crate) fn field(&self, spot: Spot, index: u16) -> &'a Field
        requires { IsSome (field_at self.now.layout spot.type_number index) }
        ensures value { field_at self.now.layout spot.type_number index ≡ Some result.now }
        ensures laid { IsWellLaid self.now.layout }
        ensures kept { IsRecord self.now }
    {
        field_at(self.format(), spot.type_number, index)
    }

    // How many fields the type of the spot has.
    pub(crate) fn fields_len(&self, spot: Spot) -> u16
        requires { IsReached self.now spot }
        ensures count { result ≡ length (type_fields self.now.layout spot.type_number) }
        ensures laid { IsWellLaid self.now.layout }
    {
        let record_type = &self.format().types()[usize::from(spot.type_number)];
        record_type.fields.as_slice().len() as u16
    }

    // The pointer that stands at `at`.
    fn pointer(&self, at: usize) -> usize
        requires laid { IsWellLaid self.now.layout }
        requires inside { at + self.now.layout.pointer ≤ length self.now.bytes }
        ensures { result ≡ pointer_at (image_of self.now.layout self.now.bytes) at }
    {
        pointer_at(self.format(), self.bytes(), at)
    }

    // The number of a count field of the record at the spot.
    fn count(&self, spot: Spot, count: u16) -> i128
        requires laid { IsWellLaid self.now.layout }
        requires count_there { IsCountAt self.now.layout spot.type_number count }
        requires inside { spot.at + length_of (tree_of self.now.layout spot.type_number)
            ≤ length self.now.bytes }
        ensures value { result ≡ count_number self.now.layout self.now.bytes spot count }
        ensures short { length self.now.bytes < 2 ^ 32 }
    {
        count_at(self.format(), self.bytes(), spot, count)
    }

    // The part of a single field.
    pub(crate) fn single(&self, spot: Spot, index: u16) -> Part<'a>
        requires reached { IsReached self.now spot }
        requires class { IsSingle (class_at self.now.layout spot.type_number index) }
        ensures field { field_at self.now.layout spot.type_number index ≡ Some result.field.now }
        ensures place { result.at ≡ spot.at + result.field.now.offset }
        ensures stands { IsPartAt self.now result.field.now result.at }
        ensures value { part_at self.now spot index
            ≡ Some (value_there self.now result.field.now result.at) }
        ensures laid { IsWellLaid self.now.layout }
        ensures kept { IsRecord self.now }
    {
        let field = self.field(spot, index);
        Part {
            field,
            at: spot.at as usize + field.offset as usize,
        }
    }

    // How many elements an array has.
    pub(crate) fn length(&self, spot: Spot, index: u16) -> u32
        requires reached { IsReached self.now spot }
        requires class { IsArray (class_at self.now.layout spot.type_number index) }
        ensures { list_length (part_at self.now spot index) ≡ Some result }
    {
        let field = self.field(spot, index);
        match field.shape {
            Shape::One => unreachable!(),
            Shape::Fixed(count) => count,
            Shape::Counted(count) => self.count(spot, count) as u32,
        }
    }

    // Where the elements of an array begin: in the record, or where its pointer leads.
    fn start(&self, spot: Spot, field: &Field) -> usize
        requires laid { IsWellLaid self.now.layout }
        requires reached { IsReached self.now spot }
        requires there { IsFieldOf self.now.layout spot.type_number field.now }
        ensures { result ≡ elements_start self.now spot field.now }
    {
        let own = spot.at as usize + field.offset as usize;
        match field.shape {
            Shape::One | Shape::Fixed(_) => own,
            Shape::Counted(_) => self.pointer(own),
        }
    }

    // Element k of an array.
    pub(crate) fn element(&self, spot: Spot, index: u16, k: u32) -> Part<'a>
        requires reached { IsReached self.now spot }
        requires class { IsArray (class_at self.now.layout spot.type_number index) }
        requires within { IsBelow k (list_length (part_at self.now spot index)) }
        ensures field { field_at self.now.layout spot.type_number index ≡ Some result.field.now }
        ensures stands { IsPartAt self.now result.field.now result.at }
        ensures value { element_at self.now spot index k
            ≡ Some (value_there self.now result.field.now result.at) }
        ensures laid { IsWellLaid self.now.layout }
        ensures kept { IsRecord self.now }
    {
        let field = self.field(spot, index);
        let from = self.start(spot, field);
        Part {
            field,
            at: from + k as usize * field.size as usize,
        }
    }

    // The bytes of the elements of an array of numbers.
    pub(crate) fn block(&self, spot: Spot, index: u16) -> &'a [u8]
        requires reached { IsReached self.now spot }
        requires class { class_at self.now.layout spot.type_number index ≡ Some (array numbers) }
        ensures { ArePieces self.now spot index result.now }
    {
        let count = self.length(spot, index) as usize;
        if count == 0 {
            return &self.bytes()[..0];
        }
        let field = self.field(spot, index);
        let from = self.start(spot, field);
        &self.bytes()[from..from + count * field.size as usize]
    }

    // The number that stands there.
    pub(crate) fn number(&self, part: Part) -> i128
        requires stands { IsPartAt self.now part.field.now part.at }
        requires content { content_of part.field.now.base ≡ numbers }
        ensures value { value_there self.now part.entry.field.now part.entry.at ≡ num result }
        ensures in_range { IsNumberIn part.entry.field.now.base part.entry.field.now.size result }
    {
        match part.field.base {
            Base::Number(kind) => {
                number_at(self.format(), self.bytes(), part.at, kind, part.field.size)
            }
            Base::Text | Base::Nested(_) => unreachable!(),
        }
    }

    // The text that stands there, without its zero byte, or None for null.
    pub(crate) fn text(&self, part: Part) -> Option<&'a [u8]>
        requires laid { IsWellLaid self.now.layout }
        requires stands { IsPartAt self.now part.field.now part.at }
        requires content { content_of part.field.now.base ≡ texts }
        ensures value { value_there self.now part.entry.field.now part.entry.at
            ≡ text_value (option_copied result) }
        ensures no_zero { IfSome result (λ bytes. HasNoZero bytes.now) }
    {
        let from = self.pointer(part.at);
        if from == 0 {
            return None;
        }
        let rest = &self.bytes()[from..];
        match zero_at(rest) {
            Some(length) => Some(&rest[..length]),
            None => unreachable!(),
        }
    }

    // The record that stands there.
    pub(crate) fn nested(&self, part: Part) -> Spot
        requires laid { IsWellLaid self.now.layout }
        requires kept { IsRecord self.now }
        requires stands { IsPartAt self.now part.field.now part.at }
        requires content { content_of part.field.now.base ≡ records }
        ensures reached { IsReached self.now result }
        ensures value { value_there self.now part.entry.field.now part.entry.at
            ≡ value_at self.now result }
        ensures number { nested_number part.entry.field.now.base ≡ Some result.type_number }
    {
        match part.field.base {
            Base::Nested(type_number) => Spot {
                type_number,
                at: part.at as u32,
            },
            Base::Number(_) | Base::Text => unreachable!(),
        }
    }
}
