//! Jobs, and the actors that carry them: a source or a stone each.
#![tactic(auto)]

mod account;
mod acting;
mod actor;
mod asking;
mod closing;
mod dealing;
mod entry;
mod feeder;
mod growing;
mod job;
mod laws;
mod opening;
mod outlet;
mod places;
mod port;
mod round;
mod route_work;
mod shared;
mod source;
mod stone;
mod turn;
mod worker;

pub use account::{Account, RoundAccount, RouteAccount};
pub use actor::Actor;
pub use entry::Entry;
pub use job::{Job, JobParts};
pub use laws::rounds_begin_the_whole;
pub use port::Port;
pub use round::{Round, Submitted};
pub use source::{Records, Source};
pub use stone::Stone;
pub use turn::Turn;
