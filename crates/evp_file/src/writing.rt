//! Writing a record file.

ghost use Rattle.std.specs.Prelude.{◌≡◌, ◌++◌, ◌-◌, ◌*◌, ◌^◌, ◌<◌, ◌≤◌, length};
ghost use Rattle.std.specs.Prelude.{All, IfOk, OnOk, IsTrue, codes};
ghost use Rattle.std.specs.List.{flat_map};
ghost use Rattle.evp_base.specs.Numbers.{is_width};
ghost use Rattle.evp_format.specs.Describing.{describe, described_number};
ghost use Rattle.evp_file.specs.File.{item_of};
ghost use Rattle.evp_file.specs.Frames.{sized, format_bytes, item_bytes};
ghost use Rattle.evp_file.specs.Whole.{IsFormatOf, IsWhole, IsWithin};
ghost use Rattle.evp_file.specs.Writing.{begun, written};

use crate::{FileFormat, FileItem, KnownFormat, RecordFile};
use evp_base::{Memory, Order, put_number};
use evp_format::{Format, write_description};
use std::alloc::Global;

/// The file as bytes: its formats first, then its records, then the end. A format of the file is
/// written by its description, a known one by its identifier. The file is within the limits, and
/// its records have values.
pub fn write_file(
    alloc: Global,
    file: &RecordFile,
    known: &[KnownFormat],
) -> Result<Vec<u8>, Memory>
    requires { IsWhole known.now file.now }
    ensures { IfOk result (λ bytes. bytes.items ≡ written known.now file.now) }
{
    let mut out = begin_file(alloc, known, file.formats.as_slice())?;
    put_items(&mut out, file.items.as_slice())?;
    end_file(&mut out)?;
    Ok(out)
}

/// The front of a file that is written record by record: what stands before the first of them.
/// Formats are written as `write_file` does.
pub fn begin_file(
    alloc: Global,
    known: &[KnownFormat],
    formats: &[FileFormat],
) -> Result<Vec<u8>, Memory>
    requires { All (IsFormatOf known.now) formats.now }
    ensures { IfOk result (λ bytes. bytes.items ≡ begun known.now formats.now) }
{
    let mut out = Vec::new(alloc);
    out.extend_from_slice(b"NDR1")?;
    put_formats(&mut out, alloc, known, formats)?;
    Ok(out)
}

/// Adds a record of the file's format of this number at the end. Without memory a part of it may
/// stand there.
pub fn put_record(out: &mut Vec<u8>, format: u16, bytes: &[u8]) -> Result<(), Memory>
    requires { length bytes.now < 2 ^ 32 }
    ensures { OnOk result
        (out.new.items ≡ out.old.items ++ item_bytes (item_of format bytes.now)) }
{
    out.push(b'R')?;
    put_word(out, 2, u32::from(format))?;
    put_sized(out, bytes)
}

/// Ends a file behind its last record.
pub fn end_file(out: &mut Vec<u8>) -> Result<(), Memory>
    ensures { OnOk result (out.new.items ≡ out.old.items ++ codes "E") }
{
    out.push(b'E')?;
    Ok(())
}

// The frames of the formats, in their order.
fn put_formats(
    out: &mut Vec<u8>,
    alloc: Global,
    known: &[KnownFormat],
    formats: &[FileFormat],
) -> Result<(), Memory>
    requires { All (IsFormatOf known.now) formats.now }
    ensures { OnOk result
        (out.new.items ≡ out.old.items ++ flat_map (format_bytes known.now) formats.now) }
{
    for format in formats {
        put_format(out, alloc, known, format)?;
    }
    Ok(())
}

fn put_format(
    out: &mut Vec<u8>,
    alloc: Global,
    known: &[KnownFormat],
    format: &FileFormat,
) -> Result<(), Memory>
    requires { IsFormatOf known.now format.now }
    ensures { OnOk result (out.new.items ≡ out.old.items ++ format_bytes known.now format.now) }
{
    match format {
        FileFormat::Own(format) => put_own(out, alloc, format),
        FileFormat::Known(number) => put_known(out, &known[usize::from(*number)]),
    }
}

// A format by its description.
fn put_own(out: &mut Vec<u8>, alloc: Global, format: &Format) -> Result<(), Memory>
    ensures { OnOk result
        (out.new.items ≡ out.old.items ++ (codes "F" ++ sized (describe format.now))) }
{
    // A well laid format has a short description.
    let _laid = format.types();
    let description = write_description(alloc, format)?;
    out.push(b'F')?;
    put_sized(out, description.as_slice())
}

// A known format by its identifier.
fn put_known(out: &mut Vec<u8>, one: &KnownFormat) -> Result<(), Memory>
    ensures { OnOk result (out.new.items ≡ out.old.items ++ (codes "I" ++ one.now.id.0)) }
{
    out.push(b'I')?;
    out.extend_from_slice(&one.id.0)?;
    Ok(())
}

// The frames of the records, in their order.
fn put_items(out: &mut Vec<u8>, items: &[FileItem]) -> Result<(), Memory>
    requires { All (IsWithin (2 ^ 32 - 1)) items.now }
    ensures { OnOk result (out.new.items ≡ out.old.items ++ flat_map item_bytes items.now) }
{
    for item in items {
        put_item(out, item)?;
    }
    Ok(())
}

fn put_item(out: &mut Vec<u8>, item: &FileItem) -> Result<(), Memory>
    requires { IsWithin (2 ^ 32 - 1) item.now }
    ensures { OnOk result (out.new.items ≡ out.old.items ++ item_bytes item.now) }
{
    put_record(out, item.format, item.bytes.as_slice())
}

// The bytes behind their length.
fn put_sized(out: &mut Vec<u8>, bytes: &[u8]) -> Result<(), Memory>
    requires { length bytes.now < 2 ^ 32 }
    ensures { OnOk result (out.new.items ≡ out.old.items ++ sized bytes.now) }
{
    put_word(out, 4, bytes.len() as u32)?;
    out.extend_from_slice(bytes)?;
    Ok(())
}

// An unsigned big endian number of `size` bytes.
fn put_word(out: &mut Vec<u8>, size: u32, number: u32) -> Result<(), Memory>
    requires width { IsTrue (is_width size) }
    requires narrow { size ≤ 4 }
    requires fits { number < 2 ^ (8 * size) }
    ensures { OnOk result (out.new.items ≡ out.old.items ++ described_number size number) }
{
    let mut bytes = [0; 4];
    let word = &mut bytes[..size as usize];
    put_number(word, Order::Big, size, i128::from(number));
    out.extend_from_slice(word)?;
    Ok(())
}
