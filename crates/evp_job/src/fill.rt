//! Filling a job with the record files of its sources.

ghost use Rattle.std.specs.Prelude.{◌≡◌, ◌+◌, ◌^◌, ◌<◌, ◌≤◌, length, slice_index, All, count_by};
ghost use Rattle.std.specs.List.{flat_map, sum, sum_by};
ghost use Rattle.evp_file.specs.declared.file.RecordFile.{RecordFile};
ghost use Rattle.evp_graph.specs.declared.route.Route.{Route};
ghost use Rattle.evp_stone.specs.Job.{submits, carried};
ghost use Rattle.evp_job.specs.Filling.{is_own, own_layouts, AreFilesOf, bare_job, few_formats};
ghost use Rattle.evp_job.specs.Filling.{enough_from, light_enough, agree, filled};
ghost use Rattle.evp_job.specs.Stated.{IsStated};
ghost use Rattle.evp_job.specs.Steps.{Gives};

use crate::files::with_files;
use crate::members::step_to;
use crate::{JobFault, JobText};
use evp_base::FieldPath;
use evp_file::{FileFormat, RecordFile};
use evp_graph::Route;
use evp_stone::{Job, Round};
use std::alloc::Global;

/// The most formats of a job, with those of its files.
const MOST_FORMATS: usize = 1024;

/// The bytes that a carried record may take beside those of the limit.
const BESIDE: u64 = 256;

/// The most bytes that all carried records may take.
const MOST_BYTES: u64 = 2_147_483_648;

/// The job that the document states, with the formats and records of its sources' files, one file
/// for each source in their order. The job's formats are the declared ones, and then those that
/// each file describes itself; an identifier of a file means the declared format. A file that two
/// sources name counts twice. Records are moved, not copied.
///
/// `Limit` at `formats` where there are more than 1,024 formats; then `Submit` for the first source
/// of which the rounds submit more records than its file has; then `Carriage` where the records
/// that all routes carry, each of the limit and 256 bytes, would take more than 2^31 bytes.
/// `docs/FORMATS.md`, "Job documents".
#[tactic(auto, unfolding(crate::specs::Filling::filled))]
pub fn fill_job(alloc: Global, text: JobText, files: Vec<RecordFile>) -> Result<Job, JobFault>
    requires stated { IsStated text }
    requires read { AreFilesOf text files.items }
    ensures { Gives (λ job. job) result (filled (bare_job text) files.items) }
{
    agree(alloc, &text, &files)?;
    Ok(Job::new(with_files(alloc, text, files)?))
}

// That the files are right for the job.
fn agree(alloc: Global, text: &JobText, files: &[RecordFile]) -> Result<(), JobFault>
    requires stated { IsStated text.now }
    requires read { AreFilesOf text.now files.now }
    ensures { Gives (λ _. tt) result (agree (bare_job text.now) files.now) }
{
    few_formats(alloc, text.formats.len(), files)?;
    enough_records(&text.rounds, files)?;
    light_enough(carried(text.routes.as_slice(), &text.rounds), text.limit)
}

// That the formats aren't more than a job may have.
fn few_formats(alloc: Global, declared: usize, files: &[RecordFile]) -> Result<(), JobFault>
    requires declared { declared ≤ 256 }
    requires files { length files.now ≤ 64 }
    requires each { All (λ file. length file.formats ≤ 1024) files.now }
    ensures { Gives (λ _. tt) result
        (few_formats (declared + length (flat_map own_layouts files.now))) }
{
    let formats = declared + described(files);
    if formats <= MOST_FORMATS {
        return Ok(());
    }
    let fault = JobFault::Limit(FieldPath::new(alloc), formats as u64);
    Err(fault.under(step_to("formats")))
}

// How many formats the files describe themselves.
fn described(files: &[RecordFile]) -> usize
    requires few { length files.now ≤ 64 }
    requires each { All (λ file. length file.formats ≤ 1024) files.now }
    ensures value { result ≡ length (flat_map own_layouts files.now) }
    ensures few { result ≤ 65536 }
{
    let mut formats = 0;
    for file in files {
        formats += described_by(file);
    }
    formats
}

// How many formats the file describes itself.
fn described_by(file: &RecordFile) -> usize
    ensures value { result ≡ length (own_layouts file.now) }
    ensures few { result ≤ length file.now.formats }
{
    own_formats(file.formats.as_slice())
}

fn own_formats(formats: &[FileFormat]) -> usize
    ensures { result ≡ count_by is_own formats.now }
{
    formats.iter().filter(|format| is_own(format)).count()
}

// Whether the file itself describes the format.
fn is_own(format: &FileFormat) -> bool
    ensures { result ≡ is_own format.now }
{
    match format {
        FileFormat::Own(_) => true,
        FileFormat::Known(_) => false,
    }
}

// That no source submits more records than its file has.
fn enough_records(rounds: &[Round], files: &[RecordFile]) -> Result<(), JobFault>
    requires rounds { length rounds.now ≤ 64 }
    requires files { length files.now ≤ 64 }
    ensures { result ≡ enough_from rounds.now 0 files.now }
{
    for (source, file) in files.iter().enumerate() {
        let asked = submitted(rounds, source);
        let there = file.items.as_slice().len() as u64;
        if asked > there {
            return Err(JobFault::Submit(source as u16, asked, there));
        }
    }
    Ok(())
}

// How many records the source of this number submits in all rounds.
fn submitted(rounds: &[Round], source: usize) -> u64
    requires { length rounds.now ≤ 64 }
    ensures value { result ≡ sum (submits source rounds.now) }
    ensures few { result < 2 ^ 38 }
{
    let mut records = 0;
    for round in rounds {
        records += u64::from(submitted_in(round, source));
    }
    records
}

// How many it submits in this round.
fn submitted_in(round: &Round, source: usize) -> u32
    ensures { result ≡ slice_index round.now.submit source }
{
    round.submit.as_slice().get(source).copied().unwrap_or(0)
}

// How many records these routes carry in all.
fn carried(routes: &[Route], rounds: &[Round]) -> u64
    requires routes { length routes.now ≤ 1024 }
    requires rounds { length rounds.now ≤ 64 }
    ensures { result ≡ sum_by (λ route. sum (submits route.source rounds.now)) routes.now }
{
    let mut records = 0;
    for route in routes {
        records += submitted(rounds, usize::from(route.source));
    }
    records
}

// That so many records of this limit aren't too much to carry.
fn light_enough(records: u64, limit: u32) -> Result<(), JobFault>
    ensures { result ≡ light_enough records limit }
{
    match records.checked_mul(u64::from(limit) + BESIDE) {
        Some(bytes) if bytes <= MOST_BYTES => Ok(()),
        _ => Err(JobFault::Carriage(records, limit)),
    }
}
