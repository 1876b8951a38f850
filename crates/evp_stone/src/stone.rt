//! Stones of a job.
use evp_action::Action;
use evp_graph::Numbers;

/// A stone: what it does with each record, and the numbers of the stones to which it sends, by
/// position.
#[derive(Drop)]
pub struct Stone {
    pub action: Action,
    pub targets: Numbers,
}
