//! Conversion plans that workers share: each pair of formats is met once, and its plan set once.
#![tactic(auto)]

mod cache_pass;
mod found;
mod kept;
mod met;
mod places;
mod plan_cache;

pub use cache_pass::CachePass;
pub use found::Found;
pub use plan_cache::PlanCache;
