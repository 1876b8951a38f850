//! The records of a file, converted one after the other.
ghost use Rattle.std.specs.Prelude.{◌≡◌, All, IfOk, map, slice_get};
ghost use Rattle.std.specs.Option.{option_copied, option_and_then};
ghost use Rattle.evp_file.specs.File.{format_layout, layout_in};
ghost use Rattle.evp_file.specs.Whole.{IsWithin};
ghost use Rattle.evp_stones.specs.Convert.{convert_text, item_answer};
ghost use Rattle.evp_stones.specs.Converted.{converted_text};
ghost use Rattle.evp_stones.specs.Founds.{AreFound, IsFoundAs};
ghost use Rattle.evp_stones.specs.Outcomes.{outcome_text};

use super::converted::Converted;
use super::outcome::Outcome;
use super::sender::{converted_by, found_for};
use evp_base::Memory;
use evp_cache::Found;
use evp_file::{FileFormat, FileItem, KnownFormat, RecordFile};
use evp_format::Format;
use evp_plan::Builds;
use evp_record::check;
use std::alloc::Global;

/// What a file's records are converted by.
#[derive(Drop)]
struct Conversion<'a> {
    /// Formats that the file may name.
    known: &'a [KnownFormat],
    /// The file's formats.
    formats: &'a [FileFormat],
    /// The receiver's format.
    to: &'a Format,
    /// The most bytes of a record of it.
    limit: u32,
}

/// What becomes of each record of a file in a format, at most so many bytes long.
pub(crate) fn converted(
    alloc: Global,
    file: &RecordFile,
    known: &[KnownFormat],
    to: &Format,
    limit: u32,
) -> Result<Converted, Memory>
    requires { All (IsWithin 262144) file.now.items }
    ensures { IfOk result (λ made. converted_text made
        ≡ convert_text known.now to.now limit file.now) }
{
    let conversion = Conversion {
        known,
        formats: file.formats.as_slice(),
        to,
        limit,
    };
    let founds = founds(alloc, &conversion)?;
    let outcomes = outcomes(alloc, &conversion, &founds, file.items.as_slice())?;
    Ok(Converted {
        to: to.copy(alloc)?,
        outcomes,
    })
}

// What is found for each format of the file and the receiver's.
fn founds(alloc: Global, conversion: &Conversion) -> Result<Vec<Option<Found>>, Memory>
    ensures { IfOk result (λ founds. AreFound conversion.now.known.now conversion.now.to.now
        conversion.now.formats.now founds.items) }
{
    let mut builds = Builds::new();
    let mut founds = Vec::with_capacity(alloc, conversion.formats.len())?;
    for format in conversion.formats {
        founds.push(found_as(alloc, conversion, format, &mut builds)?)?;
    }
    Ok(founds)
}

// What is found for a format of the file.
fn found_as(
    alloc: Global,
    conversion: &Conversion,
    format: &FileFormat,
    builds: &mut Builds,
) -> Result<Option<Found>, Memory>
    ensures { IfOk result (IsFoundAs (format_layout conversion.now.known.now format.now)
        conversion.now.to.now) }
{
    match format_of(conversion.known, format) {
        None => Ok(None),
        Some(from) => Ok(Some(found_for(alloc, from, conversion.to, builds)?)),
    }
}

// The layout of a format of the file.
fn format_of<'a>(known: &'a [KnownFormat], format: &'a FileFormat) -> Option<&'a Format>
    ensures { option_copied result ≡ format_layout known.now format.now }
{
    match format {
        FileFormat::Own(format) => Some(format),
        FileFormat::Known(number) => match known.get(usize::from(*number)) {
            Some(one) => Some(&one.format),
            None => None,
        },
    }
}

// The format of this number among the file's.
fn format_in<'a>(conversion: &Conversion<'a>, number: u16) -> Option<&'a Format>
    ensures { option_copied result
        ≡ layout_in conversion.now.known.now conversion.now.formats.now number }
{
    match conversion.formats.get(usize::from(number)) {
        Some(format) => format_of(conversion.known, format),
        None => None,
    }
}

// What becomes of each of these records.
fn outcomes(
    alloc: Global,
    conversion: &Conversion,
    founds: &[Option<Found>],
    items: &[FileItem],
) -> Result<Vec<Outcome>, Memory>
    requires found { AreFound conversion.now.known.now conversion.now.to.now
        conversion.now.formats.now founds.now }
    requires within { All (IsWithin 262144) items.now }
    ensures { IfOk result (λ made. map (outcome_text conversion.now.to.now) made.items
        ≡ map (item_answer conversion.now.known.now conversion.now.formats.now
        conversion.now.to.now conversion.now.limit) items.now) }
{
    let mut made = Vec::with_capacity(alloc, items.len())?;
    for item in items {
        made.push(outcome_of(alloc, conversion, founds, item)?)?;
    }
    Ok(made)
}

// What becomes of a record.
fn outcome_of(
    alloc: Global,
    conversion: &Conversion,
    founds: &[Option<Found>],
    item: &FileItem,
) -> Result<Outcome, Memory>
    requires found { AreFound conversion.now.known.now conversion.now.to.now
        conversion.now.formats.now founds.now }
    requires within { IsWithin 262144 item.now }
    ensures { IfOk result (λ outcome. outcome_text conversion.now.to.now outcome
        ≡ item_answer conversion.now.known.now conversion.now.formats.now conversion.now.to.now
        conversion.now.limit item.now) }
{
    let Some(from) = format_in(conversion, item.format) else {
        return Ok(Outcome::Absent);
    };
    let Ok(record) = check(from, item.bytes.as_slice()) else {
        return Ok(Outcome::Absent);
    };
    match found_at(founds, item.format) {
        Some(found) => converted_by(alloc, found, record, conversion.to, conversion.limit),
        None => unreachable!(),
    }
}

// What is found for the format of this number.
fn found_at(founds: &[Option<Found>], number: u16) -> Option<&Found>
    ensures { option_copied result
        ≡ option_and_then (λ found. found) (slice_get founds.now number) }
{
    match founds.get(usize::from(number)) {
        Some(Some(found)) => Some(found),
        _ => None,
    }
}
