//! What is timed.

use std::alloc::{AllocError, Global};

/// Work on records. A new one is a file of its own, and a line in `main`.
pub trait Workload {
    /// What the work needs to know of itself.
    ghost ready: { Self → Type 0 };

    /// The name that its line begins with.
    fn name(&self) -> &'static str;

    /// How many records one pass works on.
    fn records(&self) -> usize;

    /// Does the work once for each record, with this buffer, and answers a number that depends on
    /// all of it.
    fn pass(&self, out: &mut [u8]) -> u64
        requires { ready self.now };

    /// Does the work once, compares what came of it, and tells what was compared. `AllocError` where
    /// memory ran out.
    fn compared(&self, alloc: Global, out: &mut [u8]) -> Result<String, AllocError>
        requires { ready self.now };
}
