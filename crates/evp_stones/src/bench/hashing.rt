//! A digest of text, which is hashed as it is written.
ghost use Rattle.std.specs.Prelude.{◌≡◌, ◌++◌, map};

use evp_depot::{Sink, SinkFault};
use http_server::Log;
use sha2::{Digest, Sha256};
use std::marker::Model;

/// A sink that hashes what it takes (SHA-256), and keeps none of it. It never fails.
#[derive(Drop)]
pub(super) struct Hashing {
    hasher: Sha256,
    // What was hashed. It takes no memory, and only proofs read it.
    taken: Log<u8, ()>,
}

impl Model for Hashing {
    ghost use Rattle.std.specs.Prelude.{ℕ, List, map};
    ghost use Rattle.sha2.specs.Hashers.{Holds256};

    ghost Value = { List ℕ };

    ghost view = { λ h. map (λ pair. pair.0) h.taken.items };

    ghost invariant = { λ h. Holds256 h.hasher (map (λ pair. pair.0) h.taken.items) };
}

impl Hashing {
    ghost use Rattle.std.specs.Prelude.{◌≡◌, ◌++◌, []};
    ghost use Rattle.sha2.specs.Sha256.{sha256};

    /// Nothing was hashed.
    pub(super) fn new() -> Hashing
        ensures { result ≡ [] }
    {
        Hashing {
            hasher: Sha256::new(),
            taken: Log::new(),
        }
    }

    /// Hashes these bytes behind what was hashed.
    pub(super) fn add(&mut self, bytes: &[u8])
        ensures { self.new ≡ self.old ++ bytes.now }
    {
        self.hasher.update(bytes);
        note(&mut self.taken, bytes);
    }

    /// The SHA-256 of what was hashed.
    pub(super) fn digest(self) -> [u8; 32]
        ensures { result ≡ sha256 self }
    {
        self.hasher.finalize()
    }
}

impl Sink for Hashing {
    ghost use Rattle.std.specs.Prelude.{Some};

    ghost put = { λ taken. Some taken };

    ghost faults = { λ _. 0 };

    /// Takes the whole piece.
    fn write(&mut self, bytes: &[u8]) -> Result<usize, SinkFault> {
        self.add(bytes);
        Ok(bytes.len())
    }
}

// Adds bytes to what was hashed. It does nothing when it runs.
fn note(taken: &mut Log<u8, ()>, bytes: &[u8])
    ensures { map (λ pair. pair.0) taken.new.items
        ≡ map (λ pair. pair.0) taken.old.items ++ bytes.now }
{
    for byte in bytes {
        *taken = taken.and(byte, &());
    }
}
