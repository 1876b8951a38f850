//! Queues between stones, under a rule: what is taken of a route is its flow, from the taker's
//! count on.
#![tactic(auto)]

mod pass;
mod placed;
mod progress;
mod queue;
mod rule;
#[cfg(test)]
mod tests;

pub use pass::{GivePass, Given, TakePass, Unsplit};
pub use placed::Placed;
pub use progress::Progress;
pub use queue::StoneQueue;
