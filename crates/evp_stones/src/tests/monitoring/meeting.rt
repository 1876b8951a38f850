//! A gate in which two workers meet, so that both run at one time.

use evp_crew::Gate;
use std::sync::atomic::{AtomicU32, Ordering};

// How often a wait looks before it gives up.
const MOST_LOOKS: u32 = 1_000_000_000;

/// Holds worker 1 in its first call until worker 0's first call has begun, and worker 0 in its first
/// call until worker 1 has made its second call.
#[derive(Drop)]
pub struct Meeting {
    // How often each has called.
    first: AtomicU32,
    second: AtomicU32,
    // How many waits gave up.
    missed: AtomicU32,
}

impl Meeting {
    pub fn new() -> Meeting {
        Meeting {
            first: AtomicU32::new(0),
            second: AtomicU32::new(0),
            missed: AtomicU32::new(0),
        }
    }

    /// Whether both have called as often as they wait for, and no wait gave up.
    pub fn took_place(&self) -> bool {
        self.first.load(Ordering::SeqCst) >= 1
            && self.second.load(Ordering::SeqCst) >= 2
            && self.missed.load(Ordering::SeqCst) == 0
    }

    // Waits until the count is as great as this.
    fn wait(&self, count: &AtomicU32, wanted: u32) {
        for _ in 0..MOST_LOOKS {
            if count.load(Ordering::SeqCst) >= wanted {
                return;
            }
        }
        self.missed.fetch_add(1, Ordering::SeqCst);
    }
}

impl Gate for Meeting {
    fn before(&self, worker: u32, _actor: u32) {
        let (own, other, wanted) = match worker {
            0 => (&self.first, &self.second, 2),
            _ => (&self.second, &self.first, 1),
        };
        if own.fetch_add(1, Ordering::SeqCst) == 0 {
            self.wait(other, wanted);
        }
    }
}
