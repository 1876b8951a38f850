//! Names, paths and numbers: what every other crate speaks of.
#![tactic(auto)]

mod escaped;
mod field_path;
mod kind;
mod laws;
mod memory;
mod name;
mod number;
mod order;
mod quoted;
mod step;

pub use escaped::Escaped;
pub use field_path::FieldPath;
pub use kind::Kind;
pub use laws::{
    digits_are_bytes, digits_read_back, low_first_twice, number_digits_back, numbers_are_in_range,
    words_are_digits, words_are_magnitudes,
};
pub use memory::Memory;
pub use name::{Name, begins_name, continues_name};
pub use number::{fits, get_number, put_number};
pub use order::Order;
pub use quoted::Quoted;
pub use step::Step;
