//! Conversions of records by plans, from bytes to bytes.
#![tactic(auto)]

mod arrays;
mod blocks;
mod convert_fault;
mod counts;
mod digits;
mod filling;
mod laying;
mod lists;
mod measuring;
mod moving;
mod numbers;
mod passing;
mod pointers;
mod quick;
mod reading;
mod run_fault;
mod running;
mod sender;
mod sizing;
mod words;

pub use convert_fault::ConvertFault;
pub use passing::{empty_room, pass, run, run_in_room};
pub use run_fault::RunFault;
pub use running::{measure, run_into};
