//! The passes of a queue, and what a refused call hands back.
use crate::placed::Placed;
use crate::progress::Progress;
use crossbeam_queue::Pass;

/// The right to give entries of some routes of one queue, each route in its order.
#[derive(Drop)]
pub struct GivePass<E: Placed> {
    pub(crate) pass: Pass<E, Progress<E::Whole>>,
    // How often the queue was full; at its last value it stays.
    pub(crate) fulls: u64,
}

/// The right to take the entries of one queue.
#[derive(Drop)]
pub struct TakePass<E: Placed> {
    pub(crate) pass: Pass<E, Progress<E::Whole>>,
    // How often the queue was empty; at its last value it stays.
    pub(crate) empties: u64,
}

/// Why an entry wasn't given, with the entry.
#[derive(Debug, Drop)]
pub enum Given<E> {
    /// The queue was full.
    Full(E),
    /// There was no memory. A `StoneQueue` never answers it.
    Memory(E),
}

/// There was no memory to split a pass, which is handed back.
#[derive(Drop)]
pub struct Unsplit<E: Placed> {
    pub pass: GivePass<E>,
}
