//! Turns.

/// What an actor's turn did.
#[derive(Clone, Copy, Debug, PartialEq, Eq)]
pub enum Turn {
    /// The first thing that could be done was done.
    Moved,
    /// There was nothing to take.
    Idle,
    /// There was no room at the stone of this number, for which the first entry that waits is.
    Blocked(u16),
    /// Everything is done.
    Closed,
    /// There was no memory, and nothing was done.
    Memory,
}
