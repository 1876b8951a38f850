//! Lists of 16-bit numbers.

ghost use Rattle.std.specs.Prelude.{◌≡◌, ◌∷◌, [], ◌++◌, IfOk};

use std::alloc::{AllocError, Global};
use std::marker::Model;

/// A list of 16-bit numbers: stones, targets or positions.
#[derive(Debug, Drop)]
pub struct Numbers {
    list: Vec<u16>,
}

impl Model for Numbers {
    ghost use Rattle.std.specs.Prelude.{ℕ, List};

    ghost Value = { List ℕ };

    ghost view = { λ n. n.list.items };
}

impl Numbers {
    /// The numbers of a vector, without taking memory.
    pub fn new(list: Vec<u16>) -> Numbers
        ensures { result ≡ list.items }
    {
        Numbers { list }
    }

    /// The vector, without taking memory.
    pub fn into_vec(self) -> Vec<u16>
        ensures { result.items ≡ self }
    {
        let Numbers { list } = self;
        list
    }

    /// The numbers as a slice.
    pub fn as_slice(&self) -> &[u16]
        ensures { result.now ≡ self.now }
    {
        self.list.as_slice()
    }

    /// A list of the same numbers. `AllocError` where there is no memory for it.
    pub fn copy(&self, alloc: Global) -> Result<Numbers, AllocError>
        ensures { IfOk result (λ numbers. numbers ≡ self.now) }
    {
        Ok(Numbers::new(Vec::from_slice(alloc, self.as_slice())?))
    }

    /// These numbers and one more behind them, as a list of its own. `AllocError` where there is no
    /// memory for it.
    pub fn with(&self, alloc: Global, number: u16) -> Result<Numbers, AllocError>
        ensures { IfOk result (λ numbers. numbers ≡ self.now ++ number ∷ []) }
    {
        let old = self.as_slice();
        let mut list = Vec::with_capacity(alloc, old.len() + 1)?;
        list.extend_from_slice(old)?;
        list.push(number)?;
        Ok(Numbers::new(list))
    }
}
