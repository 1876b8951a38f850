//! Accounts: what a stone did in each round on each of its routes.
ghost use Rattle.std.specs.Prelude.{◌≡◌};
ghost use Rattle.evp_stone.specs.Settling.{running_of};
ghost use Rattle.evp_stone.specs.Turning.{Closes, nothing_done};

use evp_action::Reason;
use evp_record::Owned;
use std::alloc::Global;
use std::sync::Arc;

/// What a stone did on a route in one round. A record that was kept counts in the round in which it
/// is acted on.
#[derive(Drop)]
pub struct RoundAccount {
    /// How many records it sent on, each counted once, or received.
    pub passed: u32,
    /// How many records it dropped.
    pub dropped: u32,
    /// The index in its source's file and the reason of each record that it refused, in order.
    pub refused: Vec<(u32, Reason)>,
    /// The index and the converted record of each that it received, in order.
    pub arrived: Vec<(u32, Arc<Owned, Global>)>,
    /// How many records it keeps at the round's end.
    pub held: u32,
}

impl RoundAccount {
    // Nothing was done yet.
    pub(crate) fn new(alloc: Global) -> RoundAccount
        ensures { running_of result ≡ nothing_done }
    {
        RoundAccount {
            passed: 0,
            dropped: 0,
            refused: Vec::new(alloc),
            arrived: Vec::new(alloc),
            held: 0,
        }
    }

    // The same where so many records are held at the end.
    pub(crate) fn closed(self, held: u32) -> RoundAccount
        ensures { Closes (running_of self) held result }
    {
        RoundAccount { held, ..self }
    }
}

/// What a stone did on one route, by rounds.
#[derive(Drop)]
pub struct RouteAccount {
    /// The number of the route.
    pub route: u16,
    pub rounds: Vec<RoundAccount>,
}

/// What a stone did.
#[derive(Drop)]
pub struct Account {
    /// The number of the stone.
    pub stone: u16,
    /// By the numbers of the routes that end in the stone.
    pub routes: Vec<RouteAccount>,
    /// How many plans it built.
    pub builds: u64,
    /// How many of its turns found no memory. At its last value it stays.
    pub starved: u64,
}
