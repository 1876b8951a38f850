//! What stands in files and documents, as lines write it.

use crate::convert::Converted;
use crate::show::Shown;
use evp_job::JobText;

/// A file or a document that is to be told.
#[derive(Drop)]
pub enum Listing {
    /// A record file.
    Shown(Shown),
    /// A job by its document.
    Checked(JobText),
    /// Records that were converted.
    Converted(Converted),
}
