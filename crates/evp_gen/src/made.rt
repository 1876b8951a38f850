//! All that is made of a number.

ghost use Rattle.std.specs.Prelude.{◌≡◌, ◌<◌, ◌≤◌, [], Some, get_or, map, IfOk, IsUtf8};
ghost use Rattle.serde_json.specs.Read.{read};
ghost use Rattle.serde_json.specs.Written.{compact_text};
ghost use Rattle.evp_gen.specs.Document.{job_value};
ghost use Rattle.evp_gen.specs.Senders.{all_sent};

use crate::document::document;
use crate::senders::sent_bytes;
use evp_base::Memory;
use evp_profile::Profile;
use std::alloc::Global;
use std::marker::Model;

/// A job document, and the record files that its sources name.
#[derive(Debug, Drop)]
pub struct Made {
    job: Vec<u8>,
    files: Vec<Vec<u8>>,
}

impl Model for Made {
    ghost use Rattle.std.specs.Prelude.{map};
    ghost use Rattle.evp_gen.specs.Made.{Input};

    ghost Value = { Input };

    ghost view = { λ m. record { job = m.job.items; files = map (λ f. f.items) m.files.items } };
}

impl Made {
    /// The job document.
    pub fn job(&self) -> &[u8]
        ensures { result.now ≡ self.now.job }
    {
        self.job.as_slice()
    }

    /// The record files, in the order of the document's sources.
    pub fn files(&self) -> &[Vec<u8>]
        ensures { map (λ file. file.items) result.now ≡ self.now.files }
    {
        self.files.as_slice()
    }

    /// The job document and the record files. Takes no memory.
    pub fn into_parts(self) -> (Vec<u8>, Vec<Vec<u8>>)
        ensures job { result.0.items ≡ self.job }
        ensures files { map (λ file. file.items) result.1.items ≡ self.files }
    {
        (self.job, self.files)
    }
}

/// The job and files for n records of each of four senders, n from 1 to 20,000
/// (`docs/FORMATS.md`, "Large inputs"). The document has four sources, five formats, 32 stones and
/// four rounds; its sources a, b, c, d name the files `a.ndr` to `d.ndr`, which are made in this
/// order.
pub fn make(alloc: Global, n: u32) -> Result<Made, Memory>
    requires some { 1 ≤ n }
    requires few { n ≤ 20000 }
    ensures text { IfOk result (λ made. IsUtf8 made.job) }
    ensures compact { IfOk result (λ made. made.job ≡ compact_text (job_value n)) }
    ensures job { IfOk result (λ made. read made.job ≡ Some (job_value n)) }
    ensures files { IfOk result (λ made. made.files ≡ all_sent n) }
{
    let job = make_job(alloc, n)?;
    let files = all_files(alloc, n)?;
    Ok(Made { job, files })
}

/// The job document of `make` alone.
pub fn make_job(alloc: Global, n: u32) -> Result<Vec<u8>, Memory>
    requires some { 1 ≤ n }
    requires few { n ≤ 20000 }
    ensures text { IfOk result (λ bytes. IsUtf8 bytes.items) }
    ensures compact { IfOk result (λ bytes. bytes.items ≡ compact_text (job_value n)) }
    ensures job { IfOk result (λ bytes. read bytes.items ≡ Some (job_value n)) }
{
    document(alloc, n)
}

// The files of the four senders.
fn all_files(alloc: Global, n: u32) -> Result<Vec<Vec<u8>>, Memory>
    requires { n ≤ 20000 }
    ensures { IfOk result (λ files. map (λ file. file.items) files.items ≡ all_sent n) }
{
    let a = make_file(alloc, 0, n)?;
    let b = make_file(alloc, 1, n)?;
    let c = make_file(alloc, 2, n)?;
    let d = make_file(alloc, 3, n)?;
    let files = vec![in alloc; a, b, c, d]?;
    Ok(files)
}

/// One record file of `make` alone: that of the source of this number, counted from 0.
pub fn make_file(alloc: Global, source: usize, n: u32) -> Result<Vec<u8>, Memory>
    requires source { source < 4 }
    requires few { n ≤ 20000 }
    ensures { IfOk result (λ file. file.items ≡ get_or (all_sent n) source []) }
{
    match source {
        0 => sent_bytes(alloc, Profile::Le64, 0, n),
        1 => sent_bytes(alloc, Profile::Le32, 1, n),
        2 => sent_bytes(alloc, Profile::Be64, 2, n),
        _ => sent_bytes(alloc, Profile::Be32, 3, n),
    }
}
