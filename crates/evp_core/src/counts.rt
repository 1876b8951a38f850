//! Counts of entries by routes.
ghost use Rattle.std.specs.Prelude.{◌≡◌, ◌+◌, ◌<◌, ◌^◌, ℕ, Some, length, slice_get, slice_set};
ghost use Rattle.std.specs.Prelude.{replicate, IfOk};

use evp_base::Memory;
use std::alloc::Global;

/// So many counts, where there is no entry yet.
pub(crate) fn zeros(alloc: Global, count: usize) -> Result<Vec<u32>, Memory>
    ensures { IfOk result (λ counts. counts.items ≡ replicate count 0) }
{
    Ok(vec![in alloc; 0u32; count]?)
}

/// Counts one entry more on a route.
pub(crate) fn raise(counts: &mut Vec<u32>, route: usize)
    requires within { route < length counts.old.items }
    requires fits { (count : ℕ) → slice_get counts.old.items route ≡ Some count
        → count + 1 < 2 ^ 32 }
    ensures { (count : ℕ) → slice_get counts.old.items route ≡ Some count
        → counts.new.items ≡ slice_set counts.old.items route (count + 1) }
{
    counts[route] += 1;
}
