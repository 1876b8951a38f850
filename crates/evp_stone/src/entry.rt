//! Entries of the queues between stones.
use crate::job::Job;
use evp_queue::Placed;
use evp_record::Owned;
use std::alloc::Global;
use std::sync::Arc;

/// What travels on a route: a record, or the end of a round behind the round's records.
#[derive(Drop)]
pub enum Entry {
    /// The number of the route, the position in the route's flow, the record's index in its
    /// source's file, and the record.
    Item(u16, u32, u32, Arc<Owned, Global>),
    /// The number of the route, the position in the route's flow, and the round.
    Mark(u16, u32, u32),
}

impl Placed for Entry {
    ghost use Rattle.evp_stone.specs.Entries as entries;

    type Whole = Job;

    ghost Fact = { entries.Fact };

    ghost flow = { entries.flow };

    ghost stands_for = { entries.stands_for };

    ghost route_of = { entries.route_of };

    ghost position_of = { entries.position_of };

    fn route(&self) -> u16 {
        match self {
            Entry::Item(route, _, _, _) | Entry::Mark(route, _, _) => *route,
        }
    }

    fn position(&self) -> u32 {
        match self {
            Entry::Item(_, position, _, _) | Entry::Mark(_, position, _) => *position,
        }
    }
}
