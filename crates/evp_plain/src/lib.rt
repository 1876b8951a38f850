//! Conversion of records without plans, plain and slow, and formats from short texts: what tests
//! and timings compare faster bodies with.
#![tactic(auto)]

mod declared;
mod plain;

pub use declared::{DeclaredFault, format_of};
pub use plain::convert_plainly;

#[cfg(test)]
mod tests;
