//! Large inputs made of a number: a job, and the record files of its four senders.
#![tactic(auto)]

mod document;
mod formats;
mod laws;
mod lists;
mod made;
mod put;
mod records;
mod senders;
mod stones;
mod tags;

pub use laws::{sent_is_read, sent_is_short};
pub use made::{Made, make, make_file, make_job};
