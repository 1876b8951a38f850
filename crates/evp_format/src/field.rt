//! The fields of a record type.
ghost use Rattle.std.specs.Prelude.{◌≡◌, ◌↔◌, IsTrue};
ghost use Rattle.std.specs.Ordering.{int_eq};
ghost use Rattle.std.specs.Cmp.{partial_equiv_from_equiv};
ghost use Rattle.evp_format.specs.Equality.{base_eq, shape_eq, place_eq, field_eq};
ghost use Rattle.evp_format.specs.Equalities.{field_eq-equivalence};

use evp_base::{Kind, Name};

/// What a field, or each element of an array field, is.
#[derive(Clone, Copy, Debug, PartialEq, Eq)]
pub enum Base {
    /// A number of this kind.
    Number(Kind),
    /// A pointer to bytes with a zero byte behind them.
    Text,
    /// A record of the earlier type of this number, embedded by value.
    Nested(u16),
}

/// How many elements a field has, and where they stand.
#[derive(Clone, Copy, Debug, PartialEq, Eq)]
pub enum Shape {
    /// One, inside the record.
    One,
    /// This many, 1 to 65,536, inside the record.
    Fixed(u32),
    /// As many as the field of this number says; the record holds a pointer to them.
    Counted(u16),
}

/// A field of a record type.
#[derive(Clone, Copy, Debug)]
pub struct Field {
    /// Unlike the other fields of its type.
    pub name: Name,
    /// What it, or each of its elements, is.
    pub base: Base,
    /// How many elements it has.
    pub shape: Shape,
    /// Bytes of one element.
    pub size: u32,
    /// Bytes from the record's first byte to the field's.
    pub offset: u32,
    /// The stated default: what a receiver's field holds where a sender has none of its name.
    pub fallback: i128,
}

impl Field {
    ghost use Rattle.std.specs.Prelude.{◌<◌, ◌^◌, ◌-◌, ◌+◌};
    ghost use Rattle.evp_format.specs.WellLaid.{extent};

    /// Bytes that the field takes inside its record, where a pointer has this many: those of a
    /// pointer for a counted array.
    pub fn extent(&self, pointer: u8) -> u64
        ensures value { result ≡ extent pointer self.now }
        ensures bound { result < 2 ^ 64 - 2 ^ 33 + 2 }
    {
        match self.shape {
            Shape::One => u64::from(self.size),
            Shape::Fixed(count) => u64::from(count) * u64::from(self.size),
            Shape::Counted(_) => u64::from(pointer),
        }
    }
}

impl PartialEq for Field {
    ghost eq = { field_eq };

    ghost laws = { partial_equiv_from_equiv field_eq-equivalence };

    fn eq(&self, other: &Field) -> bool
        ensures value { result ≡ field_eq self.now other.now }
        ensures same { IsTrue result ↔ (self.now ≡ other.now) }
    {
        self.name == other.name && same_base(self.base, other.base) && same_place(self, other)
    }
}

// Whether the two are the same.
fn same_base(base: Base, other: Base) -> bool
    ensures { result ≡ base_eq base other }
{
    base == other
}

fn same_shape(shape: Shape, other: Shape) -> bool
    ensures { result ≡ shape_eq shape other }
{
    shape == other
}

fn same_default(fallback: i128, other: i128) -> bool
    ensures { result ≡ int_eq fallback other }
{
    fallback == other
}

// Whether the two have one shape, size, offset and default.
fn same_place(field: &Field, other: &Field) -> bool
    ensures { result ≡ place_eq field.now other.now }
{
    same_shape(field.shape, other.shape)
        && field.size == other.size
        && field.offset == other.offset
        && same_default(field.fallback, other.fallback)
}

impl Eq for Field {
    ghost laws = { field_eq-equivalence };
}
