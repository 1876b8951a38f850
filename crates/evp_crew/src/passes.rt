//! The passes of one actor.
ghost use Rattle.std.specs.Prelude.{◌≡◌, [], None};

use evp_queue::{GivePass, TakePass};
use evp_stone::Entry;
use std::alloc::Global;

/// The right to take the entries of a stone's queue, and the stone's number.
#[derive(Drop)]
pub struct Taker {
    pub(crate) stone: u16,
    pub(crate) pass: TakePass<Entry>,
}

/// The passes of one actor.
#[derive(Drop)]
pub struct Passes {
    pub(crate) alloc: Global,
    // Of a stone's actor, that of its queue.
    pub(crate) take: Option<Taker>,
    // By the numbers of the stones to which it may give.
    pub(crate) gives: Vec<Option<GivePass<Entry>>>,
}

impl Passes {
    /// No pass.
    pub(crate) fn none(alloc: Global) -> Passes
        ensures take { result.take ≡ None }
        ensures gives { result.gives.items ≡ [] }
    {
        Passes {
            alloc,
            take: None,
            gives: Vec::new(alloc),
        }
    }
}
