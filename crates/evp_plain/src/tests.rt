//! Conversions by plans against the plain one.

mod answers;
mod bytes;
mod kinds;
mod laid;
mod lending;
mod lengths;
mod many;
mod pairs;
mod worked;
