//! Conversions of records of twelve numbers.

ghost use Rattle.std.specs.Prelude.{IfOk};
ghost use Rattle.evp_plan.specs.Planned.{StandsFor};

use crate::conversion::{Pair, planned};
use crate::random::Random;
use crate::record_bytes::push_number;
use crate::several::{Sort, several};
use anyhow::Result;
use std::alloc::{AllocError, Global};

const SENDER: &str = "le64 t{a integer 4, b integer 1, c integer 2, d integer 8, \
    e unsigned integer 1, f unsigned integer 4, g integer 2, h unsigned integer 8, \
    i integer 1, j integer 4, k unsigned integer 2, l integer 8}";

/// The same fields on an unlike machine.
const SWAPPED: &str = "be64 t{a integer 4, b integer 1, c integer 2, d integer 8, \
    e unsigned integer 1, f unsigned integer 4, g integer 2, h unsigned integer 8, \
    i integer 1, j integer 4, k unsigned integer 2, l integer 8}";

/// Fields of other sizes and signs.
const RESIZED: &str = "be64 t{a integer 8, b integer 2, c integer 1, d integer 4, \
    e unsigned integer 4, f unsigned integer 2, g integer 2, h integer 8, \
    i unsigned integer 1, j integer 4, k unsigned integer 8, l integer 2}";

/// A field's size, and of its numbers the bits and whether they are signed.
type Bits = (usize, u32, bool);

const ALL: [Bits; 12] = [
    (4, 32, true),
    (1, 8, true),
    (2, 16, true),
    (8, 64, true),
    (1, 8, false),
    (4, 32, false),
    (2, 16, true),
    (8, 64, false),
    (1, 8, true),
    (4, 32, true),
    (2, 16, false),
    (8, 64, true),
];

/// Numbers that fit the resized fields.
const FITTING: [Bits; 12] = [
    (4, 32, true),
    (1, 8, true),
    (2, 8, true),
    (8, 32, true),
    (1, 8, false),
    (4, 16, false),
    (2, 16, true),
    (8, 63, false),
    (1, 7, false),
    (4, 32, true),
    (2, 16, false),
    (8, 16, true),
];

/// To the same fields on an unlike machine.
pub fn swapped(alloc: Global) -> Result<Pair>
    ensures { IfOk result (λ pair. StandsFor pair.plan pair.from pair.to) }
{
    planned(alloc, SENDER, SWAPPED, records(alloc, &ALL)?)
}

/// To fields of other sizes and signs, six of which may not hold what the sender's can.
pub fn resized(alloc: Global) -> Result<Pair>
    ensures { IfOk result (λ pair. StandsFor pair.plan pair.from pair.to) }
{
    planned(alloc, SENDER, RESIZED, records(alloc, &FITTING)?)
}

/// To the sender's own format.
pub fn alike(alloc: Global) -> Result<Pair>
    ensures { IfOk result (λ pair. StandsFor pair.plan pair.from pair.to) }
{
    planned(alloc, SENDER, SENDER, records(alloc, &ALL)?)
}

// Records of these fields.
#[derive(Drop)]
struct Numbers {
    fields: &'static [Bits],
}

impl Sort for Numbers {
    fn record(&self, alloc: Global, _k: u64, random: &mut Random) -> Result<Vec<u8>, AllocError> {
        let mut bytes = Vec::with_capacity(alloc, 64)?;
        for (size, bits, signed) in self.fields {
            push_number(&mut bytes, *size, random.narrow(*bits, *signed))?;
        }
        Ok(bytes)
    }
}

// 256 records of these fields.
fn records(alloc: Global, fields: &'static [Bits]) -> Result<Vec<Vec<u8>>, AllocError> {
    let sort = Numbers { fields };
    several(alloc, &sort, 256)
}
