//! What became of a record.

use evp_action::Reason;
use evp_record::Owned;

/// What became of a record that was to be converted.
#[derive(Drop)]
pub enum Outcome {
    /// It isn't there.
    Absent,
    /// It was converted to this one.
    Value(Owned),
    /// It was refused for this reason.
    Refused(Reason),
}
