//! What is found for a pair of formats.

use evp_base::FieldPath;
use evp_plan::Plan;

/// What is found for a pair of formats, a sender's and a receiver's.
#[derive(Debug, Drop)]
pub enum Found {
    /// They don't clash, and this plan stands for them.
    Plan(Plan),
    /// The receiver's field at this path is the first that has a partner of another class: number,
    /// text, record, or array of one of these.
    Clash(FieldPath),
}
