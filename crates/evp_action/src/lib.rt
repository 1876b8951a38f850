//! What a stone does with a record.
#![tactic(auto)]

mod acted;
mod acting;
mod action;
mod converting;
mod deciding;
mod made;
mod packed;
mod refusal;
mod setting;
mod storing;
mod transforming;

pub use acted::{Acted, Reason, To};
pub use acting::act;
pub use action::{Action, Setting};
