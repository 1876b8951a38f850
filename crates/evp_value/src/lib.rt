//! Values of records, plainly: the zero of a format, conversion between formats, and the text of a
//! value. These are slow on purpose; faster bodies are compared with them.
#![tactic(auto)]

mod blocks;
mod convert;
mod making;
mod numbers;
mod partner;
mod refused;
mod slow_fault;
mod text;
mod zero;

pub use convert::convert_value;
pub use slow_fault::SlowFault;
pub use text::value_text;
pub use zero::zero_value;
