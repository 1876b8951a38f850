//! The formats of a record file, as `show` writes them.
ghost use Rattle.std.specs.Prelude.{◌≡◌};
ghost use Rattle.std.specs.List.{flat_map};
ghost use Rattle.evp_report.specs.Passing.{Passes};
ghost use Rattle.evp_stones.specs.Numbered.{numbered};
ghost use Rattle.evp_stones.specs.Show.{format_line, format_lines, machine_text, order_word};
ghost use Rattle.evp_stones.specs.Show.{type_line, type_lines};

use super::fields::put_fields;
use crate::hexadecimal::put_hexadecimal;
use evp_base::Order;
use evp_depot::{PutFault, Sink};
use evp_file::KnownFormat;
use evp_format::{Format, RecordType};
use evp_report::{Pieces, put_counted};

/// Each format by its number, with its types and their fields.
pub(crate) fn put_formats<K: Sink>(
    pieces: &mut Pieces,
    sink: &mut K,
    formats: &[KnownFormat],
) -> Result<(), PutFault>
    ensures { Passes K.faults K.put sink.old sink.new pieces.old pieces.new
        (numbered format_lines 0 formats.now) result }
{
    for (number, known) in formats.iter().enumerate() {
        put_format(pieces, sink, number, known)?;
    }
    Ok(())
}

// A format, with its types and their fields.
fn put_format<K: Sink>(
    pieces: &mut Pieces,
    sink: &mut K,
    number: usize,
    known: &KnownFormat,
) -> Result<(), PutFault>
    ensures { Passes K.faults K.put sink.old sink.new pieces.old pieces.new
        (format_lines number known.now) result }
{
    put_format_line(pieces, sink, number, known)?;
    put_types(pieces, sink, known.format.types())
}

// The format's own line.
fn put_format_line<K: Sink>(
    pieces: &mut Pieces,
    sink: &mut K,
    number: usize,
    known: &KnownFormat,
) -> Result<(), PutFault>
    ensures { Passes K.faults K.put sink.old sink.new pieces.old pieces.new
        (format_line number known.now) result }
{
    put_counted(pieces, sink, b"format ", number)?;
    put_machine(pieces, sink, &known.format)?;
    put_hexadecimal(pieces, sink, &known.id.0)?;
    pieces.put(sink, b"\n")
}

// The byte order and the size of a pointer.
fn put_machine<K: Sink>(pieces: &mut Pieces, sink: &mut K, format: &Format) -> Result<(), PutFault>
    ensures { Passes K.faults K.put sink.old sink.new pieces.old pieces.new
        (machine_text format.now) result }
{
    pieces.put(sink, b" ")?;
    pieces.put(sink, order_word(format.order()))?;
    put_counted(pieces, sink, b" pointer ", format.pointer())?;
    pieces.put(sink, b" ")
}

fn order_word(order: Order) -> &'static [u8]
    ensures { result.now ≡ order_word order }
{
    match order {
        Order::Little => b"little",
        Order::Big => b"big",
    }
}

// Each type, with its fields.
fn put_types<K: Sink>(
    pieces: &mut Pieces,
    sink: &mut K,
    types: &[RecordType],
) -> Result<(), PutFault>
    ensures { Passes K.faults K.put sink.old sink.new pieces.old pieces.new
        (flat_map (type_lines types.now) types.now) result }
{
    for record_type in types {
        put_type(pieces, sink, types, record_type)?;
    }
    Ok(())
}

// A type of these, with its fields.
fn put_type<K: Sink>(
    pieces: &mut Pieces,
    sink: &mut K,
    types: &[RecordType],
    record_type: &RecordType,
) -> Result<(), PutFault>
    ensures { Passes K.faults K.put sink.old sink.new pieces.old pieces.new
        (type_lines types.now record_type.now) result }
{
    put_type_line(pieces, sink, record_type)?;
    put_fields(pieces, sink, types, record_type.fields.as_slice())
}

// The type's own line.
fn put_type_line<K: Sink>(
    pieces: &mut Pieces,
    sink: &mut K,
    record_type: &RecordType,
) -> Result<(), PutFault>
    ensures { Passes K.faults K.put sink.old sink.new pieces.old pieces.new
        (type_line record_type.now) result }
{
    pieces.put(sink, b"type ")?;
    pieces.put(sink, record_type.name.as_bytes())?;
    put_counted(pieces, sink, b" length ", record_type.length)?;
    pieces.put(sink, b"\n")
}
