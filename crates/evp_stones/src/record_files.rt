//! The record files of a job's sources.
ghost use Rattle.std.specs.Prelude.{◌≡◌, ◌≤◌, ◌<◌, ◌^◌, IfOk, length};
ghost use Rattle.evp_file.specs.Reading.{file_of};
ghost use Rattle.evp_file.specs.Whole.{IsWhole};
ghost use Rattle.evp_job.specs.Filling.{AreFilesOf};
ghost use Rattle.evp_stones.specs.Fetching.{IsHeld};
ghost use Rattle.evp_stones.specs.RecordFiles.{file_named, files_named, IsNext};
ghost use Rattle.evp_stones.specs.Show.{data_of};
ghost use Rattle.evp_stones.specs.Steps.{Gives, Works, seen_by};
ghost use Rattle.evp_stones.specs.WholeJob.{file_names};

use crate::fetching::{LONGEST_FILE, fetch};
use crate::refusal::Refusal;
use crate::show::read_named;
use evp_depot::Depot;
use evp_file::RecordFile;
use evp_job::JobText;
use std::alloc::Global;

/// The record files of a job's sources. Each is fetched and read before the next one.
pub fn record_files<D: Depot>(
    alloc: Global,
    depot: &mut D,
    text: &JobText,
) -> Result<Vec<RecordFile>, Refusal>
    requires { length text.now.formats.items ≤ 256 }
    ensures works { Works D.held D.misses D.faults depot.old depot.new
        (λ files answer. answer
        ≡ files_named text.now.formats.items text.now.limit files (file_names text.now))
        (IsNext text.now.formats.items text.now.limit (file_names text.now))
        (seen_by (λ records. records.items) result) }
    ensures read { IfOk result (λ records. AreFilesOf text.now records.items) }
{
    let mut records = Vec::with_capacity(alloc, text.sources.len())?;
    for source in &text.sources {
        let file = record_file(alloc, depot, text, source.file.as_str())?;
        if records.push(file).is_err() {
            return Err(Refusal::Memory);
        }
    }
    Ok(records)
}

// The record file of this name, by the formats and the limit of the job.
fn record_file<D: Depot>(
    alloc: Global,
    depot: &mut D,
    text: &JobText,
    name: &str,
) -> Result<RecordFile, Refusal>
    requires { length text.now.formats.items ≤ 256 }
    ensures works { Works D.held D.misses D.faults depot.old depot.new
        (λ files answer. answer
        ≡ file_named text.now.formats.items text.now.limit files name.now)
        (IsHeld name.now) result }
    ensures whole { IfOk result (IsWhole text.now.formats.items) }
{
    let bytes = fetch(alloc, depot, name, LONGEST_FILE)?;
    read_named(alloc, name, &bytes, &text.formats, text.limit)
}
