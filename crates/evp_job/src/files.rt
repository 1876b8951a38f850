//! The formats and records of files, as those of a job.

ghost use Rattle.std.specs.Prelude.{◌≡◌, ◌^◌, ◌<◌, ◌≤◌, ◌∷◌, ◌++◌, [], length, map, All, IfOk, OnOk};
ghost use Rattle.std.specs.List.{flat_map};
ghost use Rattle.std.specs.Arc.{arc_value};
ghost use Rattle.evp_job.specs.Filling.{bare_source, bare_job, AreFilesOf, HasRecords};
ghost use Rattle.evp_job.specs.Filling.{own_layout, own_layouts, all_layouts, number_of};
ghost use Rattle.evp_job.specs.Filling.{numbers_from, owned_with, source_with_file};
ghost use Rattle.evp_job.specs.Filling.{sources_with_files, job_with_files};
ghost use Rattle.evp_job.specs.Stated.{layouts_of};
ghost use Rattle.evp_stone.specs.Parts.{job_of};

use crate::{JobText, SourceText};
use evp_base::Memory;
use evp_file::{FileFormat, FileItem, KnownFormat, RecordFile};
use evp_format::Format;
use evp_record::Owned;
use evp_stone::{JobParts, Records, Source};
use std::alloc::{AllocError, Global};
use std::sync::Arc;

/// The parts of the job that the document states, with the formats and records of its sources'
/// files.
pub(crate) fn with_files(
    alloc: Global,
    text: JobText,
    files: Vec<RecordFile>,
) -> Result<JobParts, Memory>
    requires read { AreFilesOf text files.items }
    requires few { length (all_layouts (layouts_of text.formats.items) files.items) ≤ 1024 }
    ensures { IfOk result (λ parts. job_of parts ≡ job_with_files (bare_job text) files.items) }
{
    let JobText {
        limit,
        queue,
        names: _,
        formats,
        sources,
        stones,
        rounds,
        routes,
    } = text;
    let declared = formats.len() as u16;
    let mut formats = layouts(alloc, formats)?;
    let sources = sources_with_files(alloc, &mut formats, &sources, files)?;
    Ok(JobParts {
        formats,
        declared,
        limit,
        queue,
        sources,
        stones,
        rounds,
        routes,
    })
}

/// The layouts of declared formats, in their order. The formats' identifiers are let go of.
///
/// # Errors
/// Where no memory is found.
pub fn layouts(alloc: Global, known: Vec<KnownFormat>) -> Result<Vec<Format>, AllocError>
    ensures { IfOk result (λ formats. formats.items ≡ layouts_of known.items) }
{
    let mut formats = Vec::with_capacity(alloc, known.len())?;
    for one in known {
        formats.push_reserved(one.format);
    }
    Ok(formats)
}

// Each source with the records of its file, whose own formats join the job's.
fn sources_with_files(
    alloc: Global,
    formats: &mut Vec<Format>,
    sources: &[SourceText],
    files: Vec<RecordFile>,
) -> Result<Vec<Source>, Memory>
    requires each { length files.items ≡ length sources.now }
    requires read { All HasRecords files.items }
    requires room { length (all_layouts formats.old.items files.items) ≤ 1024 }
    ensures sources { IfOk result (λ filled. filled.items
        ≡ sources_with_files (length formats.old.items) (map bare_source sources.now) files.items) }
    ensures formats { OnOk result (formats.new.items ≡ all_layouts formats.old.items files.items) }
{
    let mut filled = Vec::with_capacity(alloc, sources.len())?;
    for (source, file) in sources.iter().zip(files) {
        filled.push(source_with_file(alloc, formats, source, file)?)?;
    }
    Ok(filled)
}

// The source with the records of its file, whose own formats join the job's.
fn source_with_file(
    alloc: Global,
    formats: &mut Vec<Format>,
    source: &SourceText,
    file: RecordFile,
) -> Result<Source, Memory>
    requires room { length (formats.old.items ++ own_layouts file) ≤ 1024 }
    requires read { HasRecords file }
    ensures source { IfOk result (λ filled. filled
        ≡ source_with_file (length formats.old.items) (bare_source source.now) file) }
    ensures formats { OnOk result (formats.new.items ≡ formats.old.items ++ own_layouts file) }
{
    let RecordFile {
        formats: own,
        items,
    } = file;
    let numbers = numbers(alloc, formats, own.into_vec())?;
    let items = records(alloc, &numbers, items.into_vec())?;
    Ok(Source {
        name: source.name,
        stone: source.stone,
        items: Records::new(items),
    })
}

// The job's numbers of a file's formats. Those that the file describes itself join the job's.
fn numbers(
    alloc: Global,
    formats: &mut Vec<Format>,
    own: Vec<FileFormat>,
) -> Result<Vec<u16>, Memory>
    requires room { length (formats.old.items ++ flat_map own_layout own.items) ≤ 1024 }
    ensures numbers { IfOk result (λ numbers. numbers.items
        ≡ numbers_from (length formats.old.items) own.items) }
    ensures formats { OnOk result
        (formats.new.items ≡ formats.old.items ++ flat_map own_layout own.items) }
{
    let mut numbers = Vec::with_capacity(alloc, own.len())?;
    for format in own {
        numbers.push(number_of(formats, format)?)?;
    }
    Ok(numbers)
}

// The job's number of a file's format. One that the file describes itself joins the job's.
fn number_of(formats: &mut Vec<Format>, format: FileFormat) -> Result<u16, Memory>
    requires room { length (formats.old.items ++ own_layout format) ≤ 1024 }
    ensures number { IfOk result (λ number. number
        ≡ number_of (length formats.old.items) format) }
    ensures formats { OnOk result (formats.new.items ≡ formats.old.items ++ own_layout format) }
{
    match format {
        FileFormat::Known(number) => Ok(number),
        FileFormat::Own(format) => {
            let number = formats.len() as u16;
            formats.push(format)?;
            Ok(number)
        }
    }
}

/// The records of a file, as those of a job that knows the file's formats by these numbers. The
/// bytes of each are moved.
///
/// # Errors
/// `Memory` where none is found.
pub fn records(
    alloc: Global,
    numbers: &[u16],
    items: Vec<FileItem>,
) -> Result<Vec<Arc<Owned, Global>>, Memory>
    requires there { All (λ item. item.format < length numbers.now) items.items }
    requires short { All (λ item. length item.bytes < 2 ^ 32) items.items }
    ensures { IfOk result (λ records. map (λ owned. arc_value owned) records.items
        ≡ map (owned_with numbers.now) items.items) }
{
    let mut records = Vec::with_capacity(alloc, items.len())?;
    for item in items {
        push(&mut records, owned_with(numbers, item), alloc)?;
    }
    Ok(records)
}

// Adds a record at the end.
fn push(records: &mut Vec<Arc<Owned, Global>>, owned: Owned, alloc: Global) -> Result<(), Memory>
    ensures { OnOk result (map (λ owned. arc_value owned) records.new.items
        ≡ map (λ owned. arc_value owned) records.old.items ++ owned ∷ []) }
{
    records.push(Arc::new(alloc, owned)?)?;
    Ok(())
}

// A record of a file whose formats have these numbers.
fn owned_with(numbers: &[u16], item: FileItem) -> Owned
    requires there { item.format < length numbers.now }
    requires short { length item.bytes < 2 ^ 32 }
    ensures { result ≡ owned_with numbers.now item }
{
    Owned::kept(numbers[usize::from(item.format)], item.bytes)
}
