//! The line `show FILE`: the formats of a record file, and its records.
ghost use Rattle.std.specs.Prelude.{◌≡◌, ◌++◌, ◌<◌, ◌≤◌, ◌^◌, All, IfOk, OnOk, length};
ghost use Rattle.std.specs.List.{flat_map};
ghost use Rattle.evp_file.specs.Reading.{file_of};
ghost use Rattle.evp_file.specs.Whole.{IsWhole, IsWithin};
ghost use Rattle.evp_report.specs.Passing.{Passes};
ghost use Rattle.evp_stones.specs.Fetching.{IsHeld};
ghost use Rattle.evp_stones.specs.Show.{show_answer, shown_bytes, longest_record, data_of};
ghost use Rattle.evp_stones.specs.Show.{file_text, own_known};
ghost use Rattle.evp_stones.specs.ShownText.{shown_text};
ghost use Rattle.evp_stones.specs.Steps.{Works, Gives, seen_by};

mod fields;
mod formats;
mod items;
mod shown;

use crate::fetching::{LONGEST_FILE, fetch};
use crate::file_name::FileName;
use crate::refusal::Refusal;
use evp_base::Memory;
use evp_depot::{Depot, PutFault, Sink};
use evp_file::{FileFault, FileFormat, KnownFormat, RecordFile, read_file};
use evp_format::id_of;
use evp_report::Pieces;
use formats::put_formats;
use items::put_items;
pub use shown::Shown;
use std::alloc::Global;

/// The most bytes of a record.
const LONGEST_RECORD: u32 = 262_144;

/// The record file of this name, ready to be shown.
pub fn show<D: Depot>(alloc: Global, depot: &mut D, name: &str) -> Result<Shown, Refusal>
    ensures { Works D.held D.misses D.faults depot.old depot.new
        (λ files answer. answer ≡ show_answer files name.now) (IsHeld name.now)
        (seen_by shown_text result) }
{
    let bytes = fetch(alloc, depot, name, LONGEST_FILE)?;
    shown_of(alloc, name, &bytes)
}

// The record file of these bytes.
fn shown_of(alloc: Global, name: &str, bytes: &[u8]) -> Result<Shown, Refusal>
    requires { length bytes.now < 2 ^ 31 }
    ensures { Gives (seen_by shown_text result) (shown_bytes name.now bytes.now) }
{
    let file = read_named(alloc, name, bytes, &[], LONGEST_RECORD)?;
    Ok(identified(alloc, file)?)
}

/// The record file of this name and of these bytes, or its first fault.
pub fn read_named(
    alloc: Global,
    name: &str,
    bytes: &[u8],
    known: &[KnownFormat],
    limit: u32,
) -> Result<RecordFile, Refusal>
    requires short { length bytes.now < 2 ^ 31 }
    requires few { length known.now ≤ 65536 }
    ensures exact { Gives result (data_of name.now (file_of known.now limit bytes.now)) }
    ensures whole { IfOk result (λ file. IsWhole known.now file) }
    ensures limited { IfOk result (λ file. All (IsWithin limit) file.items) }
{
    match read_file(alloc, bytes, known, limit) {
        Ok(file) => Ok(file),
        Err(FileFault::Memory) => Err(Refusal::Memory),
        Err(fault) => Err(Refusal::Data(FileName::new(alloc, name)?, fault)),
    }
}

// The file with the identifiers of its formats.
fn identified(alloc: Global, file: RecordFile) -> Result<Shown, Memory>
    requires { All (IsWithin longest_record) file.items }
    ensures { IfOk result (λ shown. shown_text shown ≡ file_text file) }
{
    let formats = known_formats(alloc, file.formats.into_vec())?;
    Ok(Shown {
        formats,
        items: file.items,
    })
}

// The formats that a file describes, with their identifiers.
fn known_formats(alloc: Global, own: Vec<FileFormat>) -> Result<Vec<KnownFormat>, Memory>
    ensures { IfOk result (λ known. known.items ≡ flat_map own_known own.items) }
{
    let mut known = Vec::with_capacity(alloc, own.len())?;
    for format in own {
        push_known(alloc, &mut known, format)?;
    }
    Ok(known)
}

// Adds a format that the file describes.
fn push_known(alloc: Global, known: &mut Vec<KnownFormat>, format: FileFormat) -> Result<(), Memory>
    ensures { OnOk result (known.new.items ≡ known.old.items ++ own_known format) }
{
    let FileFormat::Own(format) = format else {
        return Ok(());
    };
    let id = id_of(alloc, &format)?;
    known.push(KnownFormat { format, id })?;
    Ok(())
}

impl Shown {
    /// Hands on the formats and the records. It takes no memory.
    pub fn put<K: Sink>(&self, pieces: &mut Pieces, sink: &mut K) -> Result<(), PutFault>
        ensures { Passes K.faults K.put sink.old sink.new pieces.old pieces.new
            (shown_text self.now) result }
    {
        put_formats(pieces, sink, &self.formats)?;
        put_items(pieces, sink, &self.formats, self.items.as_slice())
    }
}
