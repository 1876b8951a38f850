//! What an actor works with beside its own state.
use crate::job::Job;
use evp_cache::{CachePass, PlanCache};
use evp_plan::Builds;
use std::alloc::Global;

/// What all actors share: their job, and the plans for its formats.
#[derive(Clone, Copy)]
pub(crate) struct Shared<'a> {
    pub(crate) job: &'a Job,
    pub(crate) cache: &'a PlanCache,
}

/// What an actor has learnt: the plans that it knows, and how many it built.
#[derive(Drop)]
pub(crate) struct Learnt {
    pub(crate) alloc: Global,
    pub(crate) pass: CachePass,
    pub(crate) builds: Builds,
}
