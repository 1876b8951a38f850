//! Lists of what a stone did in a round, which grow by few steps.
ghost use Rattle.std.specs.Prelude.{◌≡◌, ◌<◌, OnOk, vec_len, vec_capacity};

use crate::account::RoundAccount;
use std::alloc::AllocError;

// For how many entries a list has room from its first on, at least.
const FIRST_ARRIVED: usize = 1024;

const FIRST_REFUSED: usize = 256;

/// Makes room for one entry more, and in an empty list for so many, where there is memory for it.
/// The C library moves a list that grows under the lock of the heap in which it lies, and a thread
/// that waits for that lock sleeps; so a list seldom grows.
pub(crate) fn make_room<T>(list: &mut Vec<T>, first: usize) -> Result<(), AllocError>
    ensures items { list.new.items ≡ list.old.items }
    ensures room { OnOk result (vec_len list.new < vec_capacity list.new) }
{
    if list.is_empty() {
        let _many = list.reserve(first);
    }
    list.reserve(1)
}

/// For how many records that arrive a round's empty list makes room: for as many as the round before
/// had, or some.
pub(crate) fn first_arrived(ended: &[RoundAccount]) -> usize {
    match ended.last() {
        Some(before) => before.arrived.len().max(FIRST_ARRIVED),
        None => FIRST_ARRIVED,
    }
}

/// The same for those that are refused.
pub(crate) fn first_refused(ended: &[RoundAccount]) -> usize {
    match ended.last() {
        Some(before) => before.refused.len().max(FIRST_REFUSED),
        None => FIRST_REFUSED,
    }
}
