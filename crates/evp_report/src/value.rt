//! The text of a record's value, read from its bytes.
ghost use Rattle.std.specs.Prelude.{◌≡◌, ◌++◌, ◌≤◌, Some, codes, length};
ghost use Rattle.std.specs.Fmt.{signed_decimal};
ghost use Rattle.std.specs.Option.{option_copied};
ghost use Rattle.evp_base.specs.Quoted.{quoted};
ghost use Rattle.evp_format.specs.Class.{array, class_at, content_of, field_at, single};
ghost use Rattle.evp_format.specs.Class.{type_fields};
ghost use Rattle.evp_format.specs.WellLaid.{IsWellLaid};
ghost use Rattle.evp_format.specs.ValueText.{value_text};
ghost use Rattle.evp_record.specs.Parts.{text_value, list_length, IsBelow};
ghost use Rattle.evp_record.specs.Record.{value_of};
ghost use Rattle.evp_record.specs.Spots.{IsReached, part_at, value_at};
ghost use Rattle.evp_report.specs.FieldText.{comma, element_text, field_text, part_text};
ghost use Rattle.evp_report.specs.Passing.{Passes};

use crate::Pieces;
use evp_base::Escaped;
use evp_depot::{PutFault, Sink};
use evp_format::{Base, Field, Shape};
use evp_record::{Checked, Spot};
use itoa::Buffer;

// A field of the record at a spot, by its number.
#[derive(Clone, Copy)]
struct Part {
    spot: Spot,
    index: u16,
}

/// Hands on the text of a record's value, without blanks: numbers in decimal, null as `null`, texts
/// in double quotes, lists in brackets and records in braces as `name=value`. `Failed` comes where a
/// write failed. It takes no memory, and calls itself once for each level of the format's types.
pub fn put_value<K: Sink>(pieces: &mut Pieces, sink: &mut K, item: &Checked) -> Result<(), PutFault>
    ensures { Passes K.faults K.put sink.old sink.new pieces.old pieces.new
        (value_text (value_of item.now)) result }
{
    put_record(pieces, sink, item, item.root())
}

// The record at the spot, in braces.
#[cycle(value)]
fn put_record<K: Sink>(
    pieces: &mut Pieces,
    sink: &mut K,
    item: &Checked,
    spot: Spot,
) -> Result<(), PutFault>
    requires { IsReached item.now spot }
    ensures { Passes K.faults K.put sink.old sink.new pieces.old pieces.new
        (value_text (value_at item.now spot)) result }
{
    pieces.put(sink, b"{")?;
    for (index, field) in fields_of(item, spot).iter().enumerate() {
        let part = Part {
            spot,
            index: index as u16,
        };
        put_field(pieces, sink, item, part, field)?;
    }
    pieces.put(sink, b"}")
}

// The fields of the type of the record at the spot.
fn fields_of<'a>(item: &Checked<'a>, spot: Spot) -> &'a [Field]
    requires { IsReached item.now spot }
    ensures fields { result.now ≡ type_fields item.now.layout spot.type_number }
    ensures laid { IsWellLaid item.now.layout }
    ensures few { length result.now ≤ 1024 }
{
    item.format()
        .record_type(spot.type_number)
        .fields
        .as_slice()
}

// A field as `name=value`, behind a comma where it isn't the first.
#[cycle(value)]
fn put_field<K: Sink>(
    pieces: &mut Pieces,
    sink: &mut K,
    item: &Checked,
    part: Part,
    field: &Field,
) -> Result<(), PutFault>
    requires reached { IsReached item.now part.spot }
    requires field { field_at item.now.layout part.spot.type_number part.index ≡ Some field.now }
    ensures { Passes K.faults K.put sink.old sink.new pieces.old pieces.new
        (field_text item.now part.spot part.index field.now.name) result }
{
    put_name(pieces, sink, part.index, field.name.as_bytes())?;
    match field.shape {
        Shape::One => put_single(pieces, sink, item, part, field.base),
        Shape::Fixed(_) | Shape::Counted(_) => put_list(pieces, sink, item, part, field.base),
    }
}

// A field's name and `=`, behind a comma where it isn't the first.
fn put_name<K: Sink>(
    pieces: &mut Pieces,
    sink: &mut K,
    index: u16,
    name: &[u8],
) -> Result<(), PutFault>
    ensures { Passes K.faults K.put sink.old sink.new pieces.old pieces.new
        (comma index ++ name.now ++ codes "=") result }
{
    put_comma(pieces, sink, u32::from(index))?;
    pieces.put(sink, name)?;
    pieces.put(sink, b"=")
}

// A comma in front of each but the first.
fn put_comma<K: Sink>(pieces: &mut Pieces, sink: &mut K, index: u32) -> Result<(), PutFault>
    ensures { Passes K.faults K.put sink.old sink.new pieces.old pieces.new (comma index) result }
{
    if index == 0 {
        return Ok(());
    }
    pieces.put(sink, b",")
}

// What a single field has.
#[cycle(value)]
fn put_single<K: Sink>(
    pieces: &mut Pieces,
    sink: &mut K,
    item: &Checked,
    part: Part,
    base: Base,
) -> Result<(), PutFault>
    requires reached { IsReached item.now part.spot }
    requires class { class_at item.now.layout part.spot.type_number part.index
        ≡ Some (single (content_of base)) }
    ensures { Passes K.faults K.put sink.old sink.new pieces.old pieces.new
        (part_text item.now part.spot part.index) result }
{
    match base {
        Base::Number(_) => put_number(pieces, sink, item.number_at(part.spot, part.index)),
        Base::Text => put_text(pieces, sink, item.text_at(part.spot, part.index)),
        Base::Nested(_) => put_record(pieces, sink, item, item.record_at(part.spot, part.index)),
    }
}

// The elements of an array, in brackets.
#[cycle(value)]
fn put_list<K: Sink>(
    pieces: &mut Pieces,
    sink: &mut K,
    item: &Checked,
    part: Part,
    base: Base,
) -> Result<(), PutFault>
    requires reached { IsReached item.now part.spot }
    requires class { class_at item.now.layout part.spot.type_number part.index
        ≡ Some (array (content_of base)) }
    ensures { Passes K.faults K.put sink.old sink.new pieces.old pieces.new
        (part_text item.now part.spot part.index) result }
{
    let count = item.list_len(part.spot, part.index);
    pieces.put(sink, b"[")?;
    for k in 0..count {
        put_comma(pieces, sink, k)?;
        put_element(pieces, sink, item, part, base, k)?;
    }
    pieces.put(sink, b"]")
}

// Element k of an array.
#[cycle(value)]
fn put_element<K: Sink>(
    pieces: &mut Pieces,
    sink: &mut K,
    item: &Checked,
    part: Part,
    base: Base,
    k: u32,
) -> Result<(), PutFault>
    requires reached { IsReached item.now part.spot }
    requires class { class_at item.now.layout part.spot.type_number part.index
        ≡ Some (array (content_of base)) }
    requires within { IsBelow k (list_length (part_at item.now part.spot part.index)) }
    ensures { Passes K.faults K.put sink.old sink.new pieces.old pieces.new
        (element_text item.now part.spot part.index k) result }
{
    match base {
        Base::Number(_) => put_number(pieces, sink, item.number_in(part.spot, part.index, k)),
        Base::Text => put_text(pieces, sink, item.text_in(part.spot, part.index, k)),
        Base::Nested(_) => put_record(pieces, sink, item, item.record_in(part.spot, part.index, k)),
    }
}

// A number in decimal.
fn put_number<K: Sink>(pieces: &mut Pieces, sink: &mut K, number: i128) -> Result<(), PutFault>
    ensures { Passes K.faults K.put sink.old sink.new pieces.old pieces.new (signed_decimal number)
        result }
{
    let mut buffer = Buffer::new();
    pieces.put(sink, buffer.format(number).as_bytes())
}

// A text in double quotes, or `null`.
fn put_text<K: Sink>(pieces: &mut Pieces, sink: &mut K, text: Option<&[u8]>) -> Result<(), PutFault>
    ensures { Passes K.faults K.put sink.old sink.new pieces.old pieces.new
        (value_text (text_value (option_copied text.entry))) result }
{
    match text {
        None => pieces.put(sink, b"null"),
        Some(bytes) => put_quoted(pieces, sink, bytes),
    }
}

/// Hands on a text in double quotes. It takes no memory.
pub fn put_quoted<K: Sink>(pieces: &mut Pieces, sink: &mut K, bytes: &[u8]) -> Result<(), PutFault>
    ensures { Passes K.faults K.put sink.old sink.new pieces.old pieces.new (quoted bytes.now)
        result }
{
    pieces.put(sink, b"\"")?;
    for byte in bytes {
        pieces.put(sink, Escaped::new(*byte).as_bytes())?;
    }
    pieces.put(sink, b"\"")
}
