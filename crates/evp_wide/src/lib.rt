//! Arrays of numbers moved at once: swapped and gathered by lanes of sixteen bytes, and written in
//! another size.
#![tactic(auto)]

mod clearing;
mod counts;
mod elements;
mod fills;
mod fronts;
mod lanes;
mod mover;
mod numbers;
mod orders;
mod pairs;
mod swap;
mod widen;
mod words;
mod zeros;

pub use clearing::clear;
pub use counts::{counts_some, get_count};
pub use fills::Differences;
pub use fronts::put_front;
pub use lanes::{Blend, Mask, gather, gather_blend, gather_or, gather_signs};
pub use numbers::{put_signed, rewrite};
pub use orders::reorder;
pub use pairs::{gather_two, gather_with_signs};
pub use swap::{swap2, swap4, swap8};
pub use widen::{widen_signed, widen_unsigned};
pub use words::{get_word, half_of, put_word, rewrite_number};
pub use zeros::{near_zero, put_text, zero_at};
