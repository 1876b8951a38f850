//! Sixteen bytes at once, each compared with the sign of another.
ghost use Rattle.std.specs.Prelude.{◌≡◌, ◌+◌, ◌≤◌, ◌↔◌, IsTrue, length, drop};
ghost use Rattle.evp_wide.specs.Gathered.{gathered, signs_gathered, AreNone};

use crate::Mask;
use std::marker::Model;
use std::simd::prelude::*;

/// The bits in which sixteen bytes differ from the signs of others, or those of several times sixteen
/// together. Takes no memory.
#[derive(Drop)]
pub struct Differences {
    bits: u8x16,
}

impl Model for Differences {
    ghost use Rattle.std.specs.Prelude.{◌≡◌, ℕ, List, length};

    ghost Value = { List ℕ };

    ghost view = { λ d. d.bits };

    ghost invariant = { λ d. length d.bits ≡ 16 };
}

impl Differences {
    /// None.
    #[inline(always)]
    pub fn none() -> Differences
        ensures { AreNone result }
    {
        Differences {
            bits: u8x16::splat(0),
        }
    }

    /// Those of the bytes that the one mask picks of the sixteen from `at` on, and the signs of the
    /// bytes that the other picks: 0xff where a byte's top bit is set, else 0.
    #[inline(always)]
    pub fn between(from: &[u8], at: usize, picks: &Mask, signs: &Mask) -> Differences
        requires window { at + 16 ≤ length from.now }
        ensures { AreNone result ↔ (gathered picks.now.places (drop at from.now)
            ≡ signs_gathered signs.now.places (drop at from.now)) }
    {
        let window = u8x16::from_slice(&from[at..]);
        let picked = window.swizzle_dyn_within::<16>(u8x16::from_array(picks.places));
        let signed = window.swizzle_dyn_within::<16>(u8x16::from_array(signs.places));
        let fills = signed
            .simd_lt(u8x16::splat(128))
            .select(u8x16::splat(0), u8x16::splat(255));
        Differences {
            bits: picked ^ fills,
        }
    }

    /// These and others.
    #[inline(always)]
    pub fn with(self, others: Differences) -> Differences
        ensures { AreNone result ↔ (AreNone self × AreNone others) }
    {
        Differences {
            bits: self.bits | others.bits,
        }
    }

    /// Whether there are none.
    #[inline(always)]
    pub fn are_none(self) -> bool
        ensures { IsTrue result ↔ AreNone self }
    {
        self.bits.simd_eq(u8x16::splat(0)).all()
    }
}
