//! Actions.
use evp_eval::Bound;

/// What a stone does with each record that comes to it. Each action but `Split` converts it into
/// its format first; formats go by their numbers.
#[derive(Drop)]
pub enum Action {
    /// Sends the record on where the expression isn't 0, else drops it.
    Filter {
        format: u16,
        test: Bound,
    },
    /// Sends the record to the target at the position that the expression gives, where there is
    /// one, else drops it.
    Router {
        format: u16,
        choose: Bound,
    },
    /// Converts the record once more, sets fields, and sends it on.
    Transform {
        format: u16,
        into: u16,
        set: Vec<Setting>,
    },
    /// Sends the record on as it is.
    Split,
    /// Receives the record.
    Terminal {
        format: u16,
    },
}

/// A single number field of a transform's second format, by its number in the record, and what it
/// is set to: an expression over the record in the first format.
#[derive(Drop)]
pub struct Setting {
    pub field: u16,
    pub value: Bound,
}
