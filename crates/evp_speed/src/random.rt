//! Numbers that look random, the same in each run.

/// A generator by shifts (Marsaglia's xorshift of 64 bits).
#[derive(Clone, Copy)]
pub struct Random {
    state: u64,
}

impl Random {
    /// From the state that all runs begin with.
    pub fn new() -> Random {
        Random {
            state: 88_172_645_463_325_252,
        }
    }

    /// The next number.
    pub fn number(&mut self) -> u64 {
        self.state ^= self.state << 13;
        self.state ^= self.state >> 7;
        self.state ^= self.state << 17;
        self.state
    }

    /// The next number of so many bits, at most 64, as a signed one of 64 bits where it is signed.
    pub fn narrow(&mut self, bits: u32, signed: bool) -> u64 {
        let unused = 64u32.saturating_sub(bits) & 63;
        let number = self.number() << unused;
        if signed {
            (number.cast_signed() >> unused).cast_unsigned()
        } else {
            number >> unused
        }
    }
}
