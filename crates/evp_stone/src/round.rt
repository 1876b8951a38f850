//! Rounds of a job.
ghost use Rattle.std.specs.Prelude.{◌≡◌};

use evp_graph::Numbers;
use std::marker::Model;

/// How many records each source submits, by the sources' numbers.
#[derive(Debug, Drop)]
pub struct Submitted {
    list: Vec<u32>,
}

impl Model for Submitted {
    ghost use Rattle.std.specs.Prelude.{ℕ, List};

    ghost Value = { List ℕ };

    ghost view = { λ s. s.list.items };
}

impl Submitted {
    /// The numbers of a vector. Takes no memory.
    pub fn new(list: Vec<u32>) -> Submitted
        ensures { result ≡ list.items }
    {
        Submitted { list }
    }

    /// The numbers.
    pub fn as_slice(&self) -> &[u32]
        ensures { result.now ≡ self.now }
    {
        self.list.as_slice()
    }

    /// The vector. Takes no memory.
    pub fn into_vec(self) -> Vec<u32>
        ensures { result.items ≡ self }
    {
        self.list
    }
}

/// A round: how many records each source submits, the next ones of its file, and the numbers of the
/// stones that are frozen, which keep what comes to them for a later round.
#[derive(Debug, Drop)]
pub struct Round {
    pub submit: Submitted,
    pub frozen: Numbers,
}
