//! The core: the actors of a job over lists of entries, in any order of turns.
#![tactic(auto)]

mod counts;
mod entries;
mod lists;
mod reach;
mod world;

pub use world::World;
