//! How many plans were built.

use std::marker::Model;

/// A count of plans that were built. It stays at its last value, 2^64 - 1.
#[derive(Debug, Drop)]
pub struct Builds {
    count: u64,
}

impl Model for Builds {
    ghost use Rattle.std.specs.Prelude.{ℕ};

    ghost Value = { ℕ };

    ghost view = { λ b. b.count };
}

impl Builds {
    ghost use Rattle.std.specs.Prelude.{◌≡◌};
    ghost use Rattle.evp_plan.specs.Counts.{raised};

    /// No plan was built.
    pub fn new() -> Self
        ensures { result ≡ 0 }
    {
        Builds { count: 0 }
    }

    /// How many were built.
    pub fn count(&self) -> u64
        ensures { result ≡ self.now }
    {
        self.count
    }

    // One more.
    pub(crate) fn raise(&mut self)
        ensures { self.new ≡ raised self.old }
    {
        if self.count < u64::MAX {
            self.count += 1;
        }
    }
}
