//! What the seats of a rota have in common. It exists in clauses alone.
use crate::crew::Crew;
use evp_cache::PlanCache;
use evp_stone::Job;

/// Of which job, cache and crew the seats of a rota are. No value of it is made.
pub struct Three {
    pub job: Job,
    pub cache: PlanCache,
    pub crew: Crew,
}
