//! The fields of a record type, as `show` writes them.
ghost use Rattle.std.specs.Prelude.{◌≡◌, ◌++◌, codes, decimal};
ghost use Rattle.std.specs.List.{flat_map};
ghost use Rattle.evp_format.specs.Describing.{base_word, field_name, kind_word, shape_text};
ghost use Rattle.evp_format.specs.Describing.{type_name, type_text};
ghost use Rattle.evp_report.specs.Passing.{Passes};
ghost use Rattle.evp_stones.specs.Show.{field_line, named_text};

use evp_base::Kind;
use evp_depot::{PutFault, Sink};
use evp_format::{Base, Field, RecordType, Shape};
use evp_report::{Pieces, put_counted};

/// Each of the fields of a type of these.
pub(crate) fn put_fields<K: Sink>(
    pieces: &mut Pieces,
    sink: &mut K,
    types: &[RecordType],
    fields: &[Field],
) -> Result<(), PutFault>
    ensures { Passes K.faults K.put sink.old sink.new pieces.old pieces.new
        (flat_map (field_line types.now fields.now) fields.now) result }
{
    for field in fields {
        put_field(pieces, sink, types, fields, field)?;
    }
    Ok(())
}

// A field's line.
fn put_field<K: Sink>(
    pieces: &mut Pieces,
    sink: &mut K,
    types: &[RecordType],
    fields: &[Field],
    field: &Field,
) -> Result<(), PutFault>
    ensures { Passes K.faults K.put sink.old sink.new pieces.old pieces.new
        (field_line types.now fields.now field.now) result }
{
    put_field_name(pieces, sink, field.name.as_bytes())?;
    put_type_text(pieces, sink, types, fields, field)?;
    put_counted(pieces, sink, b" size ", field.size)?;
    put_counted(pieces, sink, b" offset ", field.offset)?;
    pieces.put(sink, b"\n")
}

// The field's name, with a blank behind it.
fn put_field_name<K: Sink>(pieces: &mut Pieces, sink: &mut K, name: &[u8]) -> Result<(), PutFault>
    ensures { Passes K.faults K.put sink.old sink.new pieces.old pieces.new
        (named_text name.now) result }
{
    pieces.put(sink, b"field ")?;
    pieces.put(sink, name)?;
    pieces.put(sink, b" ")
}

// The type text of a field.
fn put_type_text<K: Sink>(
    pieces: &mut Pieces,
    sink: &mut K,
    types: &[RecordType],
    fields: &[Field],
    field: &Field,
) -> Result<(), PutFault>
    ensures { Passes K.faults K.put sink.old sink.new pieces.old pieces.new
        (type_text types.now fields.now field.now) result }
{
    pieces.put(sink, base_word(types, field.base))?;
    put_shape(pieces, sink, fields, field.shape)
}

// The word for a base.
fn base_word<'a>(types: &'a [RecordType], base: Base) -> &'a [u8]
    ensures { result.now ≡ base_word types.now base }
{
    match base {
        Base::Number(kind) => kind_word(kind),
        Base::Text => b"string",
        Base::Nested(number) => type_name(types, number),
    }
}

// The word for a kind of number.
fn kind_word(kind: Kind) -> &'static [u8]
    ensures { result.now ≡ kind_word kind }
{
    match kind {
        Kind::Int => b"integer",
        Kind::Unsigned => b"unsigned integer",
        Kind::Char => b"char",
        Kind::Boolean => b"boolean",
        Kind::Enumeration => b"enumeration",
    }
}

// The name of the type of this number.
fn type_name(types: &[RecordType], number: u16) -> &[u8]
    ensures { result.now ≡ type_name types.now number }
{
    match types.get(usize::from(number)) {
        Some(record_type) => record_type.name.as_bytes(),
        None => &[],
    }
}

// The name of the field of this number.
fn field_name(fields: &[Field], number: u16) -> &[u8]
    ensures { result.now ≡ field_name fields.now number }
{
    match fields.get(usize::from(number)) {
        Some(field) => field.name.as_bytes(),
        None => &[],
    }
}

// What stands behind the word.
fn put_shape<K: Sink>(
    pieces: &mut Pieces,
    sink: &mut K,
    fields: &[Field],
    shape: Shape,
) -> Result<(), PutFault>
    ensures { Passes K.faults K.put sink.old sink.new pieces.old pieces.new
        (shape_text fields.now shape) result }
{
    match shape {
        Shape::One => Ok(()),
        Shape::Fixed(count) => put_count(pieces, sink, count),
        Shape::Counted(number) => put_count_name(pieces, sink, field_name(fields, number)),
    }
}

// The number of elements in brackets.
fn put_count<K: Sink>(pieces: &mut Pieces, sink: &mut K, count: u32) -> Result<(), PutFault>
    ensures { Passes K.faults K.put sink.old sink.new pieces.old pieces.new
        (codes "[" ++ decimal count ++ codes "]") result }
{
    put_counted(pieces, sink, b"[", count)?;
    pieces.put(sink, b"]")
}

// The name of the field that counts the elements, in brackets.
fn put_count_name<K: Sink>(pieces: &mut Pieces, sink: &mut K, name: &[u8]) -> Result<(), PutFault>
    ensures { Passes K.faults K.put sink.old sink.new pieces.old pieces.new
        (codes "[" ++ name.now ++ codes "]") result }
{
    pieces.put(sink, b"[")?;
    pieces.put(sink, name)?;
    pieces.put(sink, b"]")
}
