//! Record files: formats and records of them, as bytes.
#![tactic(auto)]

mod fault;
mod file;
mod frame;
mod laws;
mod parts;
mod reading;
mod writing;

pub use fault::FileFault;
pub use file::{FileFormat, FileFormats, FileItem, FileItems, KnownFormat, RecordFile};
pub use laws::{files_are_exact, files_read_back};
pub use reading::read_file;
pub use writing::{begin_file, end_file, put_record, write_file};
