//! Texts that go to a sink in pieces of some kilobytes, without memory: records' values, and the
//! report of a job.
#![tactic(auto)]

mod account_text;
mod accounts;
mod pieces;
mod report;
mod value;
mod words;

pub use pieces::Pieces;
pub use report::{put_stones, write_ended, write_report, write_round_line, write_routes};
pub use value::{put_quoted, put_value};
pub use words::{put_counted, put_reason};
