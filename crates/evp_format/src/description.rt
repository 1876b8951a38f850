//! Descriptions: a format as bytes, whatever machine it describes.

mod fields;
mod laws;
mod parts;
mod reading;
mod types;
mod writing;

pub use laws::{descriptions_are_distinct, faults_are_exact};
pub use reading::read_description;
pub use writing::write_description;
