//! The records of a file, as `show` writes them.
ghost use Rattle.std.specs.Prelude.{◌≡◌, ◌<◌, ◌^◌, All, length, slice_get};
ghost use Rattle.std.specs.Option.{option_copied};
ghost use Rattle.evp_file.specs.Whole.{IsWithin};
ghost use Rattle.evp_report.specs.Passing.{Passes};
ghost use Rattle.evp_stones.specs.Numbered.{numbered};
ghost use Rattle.evp_stones.specs.Show.{head_text, item_line, longest_record, value_in};

use evp_depot::{PutFault, Sink};
use evp_file::{FileItem, KnownFormat};
use evp_record::check;
use evp_report::{Pieces, put_counted, put_value};

/// Each record by its number, with its format's.
pub(crate) fn put_items<K: Sink>(
    pieces: &mut Pieces,
    sink: &mut K,
    formats: &[KnownFormat],
    items: &[FileItem],
) -> Result<(), PutFault>
    requires { All (IsWithin longest_record) items.now }
    ensures { Passes K.faults K.put sink.old sink.new pieces.old pieces.new
        (numbered (item_line formats.now) 0 items.now) result }
{
    for (number, item) in items.iter().enumerate() {
        put_item(pieces, sink, formats, number, item)?;
    }
    Ok(())
}

// A record's line.
fn put_item<K: Sink>(
    pieces: &mut Pieces,
    sink: &mut K,
    formats: &[KnownFormat],
    number: usize,
    item: &FileItem,
) -> Result<(), PutFault>
    requires { IsWithin longest_record item.now }
    ensures { Passes K.faults K.put sink.old sink.new pieces.old pieces.new
        (item_line formats.now number item.now) result }
{
    put_head(pieces, sink, number, item.format)?;
    put_value_in(
        pieces,
        sink,
        formats.get(usize::from(item.format)),
        item.bytes.as_slice(),
    )?;
    pieces.put(sink, b"\n")
}

// The number of a record, and of its format.
fn put_head<K: Sink>(
    pieces: &mut Pieces,
    sink: &mut K,
    number: usize,
    format: u16,
) -> Result<(), PutFault>
    ensures { Passes K.faults K.put sink.old sink.new pieces.old pieces.new
        (head_text number format) result }
{
    put_counted(pieces, sink, b"#", number)?;
    put_counted(pieces, sink, b" format ", format)?;
    pieces.put(sink, b" ")
}

// The value that the bytes have in the format.
fn put_value_in<K: Sink>(
    pieces: &mut Pieces,
    sink: &mut K,
    known: Option<&KnownFormat>,
    bytes: &[u8],
) -> Result<(), PutFault>
    requires { length bytes.now < 2 ^ 32 }
    ensures { Passes K.faults K.put sink.old sink.new pieces.old pieces.new
        (value_in (option_copied known.entry) bytes.now) result }
{
    let Some(known) = known else {
        return Ok(());
    };
    match check(&known.format, bytes) {
        Ok(item) => put_value(pieces, sink, &item),
        Err(_) => Ok(()),
    }
}
