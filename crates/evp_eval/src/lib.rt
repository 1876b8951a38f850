//! Expressions over records: what an expression means in a format, and its value over a record.
#![tactic(auto)]

mod arithmetic;
mod binder;
mod bound;
mod fault;
mod instruction;
mod joining;
mod machine;
mod making;
mod members;
mod operands;
mod reach;
mod stack;

pub use bound::{Bound, bind, eval};
pub use fault::{BindFault, EvalFault};
