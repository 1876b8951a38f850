//! Room that a thread asks for ahead.

use std::alloc::{AllocError, Global};

// How many bytes a thread asks for: more than it needs for the records of a source.
const AHEAD: usize = 16 * 1024 * 1024;

/// Asks for room and gives it back at once. The C library lets a thread's heap grow by as little as
/// is asked for, with a call of the system each time that other threads wait for; behind this call
/// it has room. Without memory nothing changes.
pub(super) fn ask_ahead(alloc: Global) {
    let _room: Result<Vec<u8>, AllocError> = Vec::with_capacity(alloc, AHEAD);
}
