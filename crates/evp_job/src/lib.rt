//! Job documents: the job that JSON states, or its first fault with its place.
#![tactic(auto)]

mod expressions;
mod fault;
mod files;
mod fill;
mod formats;
mod forms;
mod head;
mod job;
mod job_text;
mod kinds;
mod known;
mod members;
mod naming;
mod parts;
mod round_lists;
mod rounds;
mod routing;
mod setting_fields;
mod settings;
mod sources;
mod stones;
mod targets;
mod types;

pub use fault::JobFault;
pub use files::{layouts, records};
pub use fill::fill_job;
pub use job::{ReadJob, read_job};
pub use job_text::JobText;
pub use sources::SourceText;
