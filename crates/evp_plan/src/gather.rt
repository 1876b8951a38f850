//! Sixteen bytes of a receiver's record made at once.

ghost use Rattle.std.specs.Prelude.{◌≡◌, ◌+◌, true};
ghost use Rattle.evp_plan.specs.Clean.{is_clean, are_paired, IsPlain};

use evp_wide::Blend;

// Sixteen bytes of a receiver's record, each from a window of sixteen of the sender's, a constant,
// or left as it stood.
#[derive(Clone, Copy, Debug)]
pub(crate) struct Gather {
    // Bytes from the receiver's record's first byte.
    pub(crate) to: u32,
    // Bytes from the sender's record's first byte to the window.
    pub(crate) at: u32,
    // Whether the signs of the window's bytes are picked, and not the bytes.
    pub(crate) signed: bool,
    // Whether it writes the bytes that it picks alone.
    pub(crate) plain: bool,
    pub(crate) blend: Blend,
    ghost alone: { plain ≡ true → IsPlain signed blend },
    ghost clean: { is_clean blend.mask.places blend.keep blend.constant ≡ true },
}

// Two gathers of the same sixteen bytes that are run at once: a plain one, and one that picks bytes,
// or signs, where the first picks none, and keeps the others.
#[derive(Clone, Copy, Debug)]
pub(crate) struct Pair {
    pub(crate) one: Gather,
    pub(crate) two: Gather,
    ghost plain: { one.plain ≡ true },
    ghost to: { two.to ≡ one.to },
    ghost paired: { are_paired one.blend.mask.places two.blend.mask.places two.blend.keep ≡ true },
}

// Gathers of one record, each of which is run once: first those that only write what they pick, then
// the pairs, then the others.
#[derive(Debug, Drop)]
pub(crate) struct Gathers {
    pub(crate) plain: Vec<Gather>,
    pub(crate) pairs: Vec<Pair>,
    pub(crate) mixed: Vec<Gather>,
}

// Four plain gathers of 64 bytes side by side, from windows side by side.
#[derive(Clone, Copy, Debug)]
pub(crate) struct Four {
    pub(crate) one: Gather,
    pub(crate) two: Gather,
    pub(crate) three: Gather,
    pub(crate) four: Gather,
    ghost plain: { (one.plain ≡ true) × ((two.plain ≡ true)
        × ((three.plain ≡ true) × (four.plain ≡ true))) },
    ghost to: { (two.to ≡ one.to + 16) × ((three.to ≡ one.to + 32) × (four.to ≡ one.to + 48)) },
    ghost at: { (two.at ≡ one.at + 16) × ((three.at ≡ one.at + 32) × (four.at ≡ one.at + 48)) },
}

// The two pairs of a record that has no others.
#[derive(Clone, Copy, Debug)]
pub(crate) struct Both {
    pub(crate) one: Pair,
    pub(crate) two: Pair,
}

// Two plain gathers of a record that has no others.
#[derive(Clone, Copy, Debug)]
pub(crate) struct Two {
    pub(crate) one: Gather,
    pub(crate) two: Gather,
    ghost plain: { (one.plain ≡ true) × (two.plain ≡ true) },
}
