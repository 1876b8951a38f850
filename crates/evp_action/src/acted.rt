//! What an action did.
use evp_base::FieldPath;
use evp_record::Owned;
use std::alloc::Global;
use std::sync::Arc;

/// To which of a stone's targets a record is sent.
#[derive(Clone, Copy, Debug, PartialEq, Eq)]
pub enum To {
    /// To each.
    All,
    /// To the one at this position.
    One(u16),
}

/// What an action did with a record.
#[derive(Drop)]
pub enum Acted {
    Sent(To, Arc<Owned, Global>),
    Dropped,
    Arrived(Arc<Owned, Global>),
    Refused(Reason),
}

/// Why a record was refused. Paths are the receiver's. The options are a setting's number in a
/// transform and None elsewhere, and what follows is a place in the expression.
#[derive(Debug, Drop)]
pub enum Reason {
    Clash(FieldPath),
    Unfit(FieldPath),
    Large(FieldPath),
    Overflow(Option<u16>, u32),
    ZeroDivide(Option<u16>, u32),
    Index(Option<u16>, u32),
}
