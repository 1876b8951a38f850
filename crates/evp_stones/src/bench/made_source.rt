//! A source of the large job, with the records of the generator's file.
ghost use Rattle.std.specs.Prelude.{◌≡◌, ◌<◌, ◌≤◌, ◌∷◌, [], IfOk, Ok, length};
ghost use Rattle.evp_file.specs.declared.file.FileFormat.TheVariants.{Own};
ghost use Rattle.evp_file.specs.Reading.{file_of};
ghost use Rattle.evp_file.specs.Whole.{IsWhole};
ghost use Rattle.evp_format.specs.Layout.{Layout};
ghost use Rattle.evp_job.specs.Filling.{HasRecords, bare_source};
ghost use Rattle.evp_stones.specs.Accepted.{IsReadable};
ghost use Rattle.evp_stones.specs.MadeFiles.{HasOneFormat, IsFilledBy, IsMade, IsMakeable};

use super::room::ask_ahead;
use evp_base::Memory;
use evp_file::{FileFault, FileFormat, RecordFile, read_file};
use evp_format::Format;
use evp_gen::make_file;
use evp_job::{JobText, SourceText, records};
use evp_stone::{Records, Source};
use std::alloc::Global;

/// A source with the records of its file, and the format that the file describes.
#[derive(Drop)]
pub(super) struct MadeSource {
    pub(super) format: Format,
    pub(super) source: Source,
}

/// The source of this number with the generator's file, which is made and read. Its format has the
/// number behind the declared formats and those of the sources before it.
pub(super) fn made_source(
    alloc: Global,
    text: &JobText,
    records: u32,
    source: usize,
) -> Result<MadeSource, Memory>
    requires source { source < 4 }
    requires makeable { IsMakeable text.now records }
    ensures { IsMade text.now records source result }
{
    ask_ahead(alloc);
    let bytes = make_file(alloc, source, records)?;
    let file = read(alloc, text, bytes.as_slice())?;
    let number = text.formats.len() + source;
    with_file(alloc, &text.sources[source], number as u16, file)
}

// The record file of these bytes, which have no fault.
fn read(alloc: Global, text: &JobText, bytes: &[u8]) -> Result<RecordFile, Memory>
    requires formats { length text.now.formats.items ≤ 256 }
    requires readable { IsReadable text.now.formats.items text.now.limit bytes.now }
    ensures exact { IfOk result
        (λ file. file_of text.now.formats.items text.now.limit bytes.now ≡ Ok file) }
    ensures whole { IfOk result (IsWhole text.now.formats.items) }
{
    match read_file(alloc, bytes, &text.formats, text.limit) {
        Ok(file) => Ok(file),
        Err(FileFault::Memory) => Err(Memory),
        Err(_) => unreachable!(),
    }
}

// The source with the records of its file, of which the one format has this number.
fn with_file(
    alloc: Global,
    source: &SourceText,
    number: u16,
    file: RecordFile,
) -> Result<MadeSource, Memory>
    requires one { HasOneFormat file }
    requires read { HasRecords file }
    ensures { IfOk result (IsFilledBy number (bare_source source.now) file) }
{
    let RecordFile { formats, items } = file;
    let format = one_format(formats.into_vec());
    let items = records(alloc, &[number], items.into_vec())?;
    Ok(MadeSource {
        format,
        source: Source {
            name: source.name,
            stone: source.stone,
            items: Records::new(items),
        },
    })
}

// The one format of a file, which describes it itself.
fn one_format(mut formats: Vec<FileFormat>) -> Format
    requires { (layout : Layout) × (formats.items ≡ Own layout ∷ []) }
    ensures { formats.items ≡ Own result ∷ [] }
{
    match formats.pop() {
        Some(FileFormat::Own(format)) => format,
        Some(FileFormat::Known(_)) | None => unreachable!(),
    }
}
