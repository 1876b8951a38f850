//! Why bytes describe no format, or declared types have no layout.

ghost use Rattle.std.specs.Prelude.{◌≡◌, Some};
ghost use Rattle.std.specs.Fmt.{WritesOnOk};
ghost use Rattle.evp_format.specs.declared.layout_fault.LayoutFault.TheVariants.{Memory};
ghost use Rattle.evp_format.specs.FaultText.{at_field, which_text, layout_fault_text};

use std::alloc::{AllocError, AllocFailed};
use std::error::Error;
use std::fmt;

/// A number that has a limit.
#[derive(Clone, Copy, Debug, PartialEq, Eq)]
pub enum Which {
    /// Types of a format, 1 to 64.
    Types,
    /// Fields of a type, 1 to 1,024.
    Fields,
    /// Fields of all types, at most 4,096.
    AllFields,
    /// How deep types nest, at most 16; a type without nested types is 1.
    Nesting,
    /// Bytes of a type, 1 to 65,536.
    Length,
}

/// The first fault of a description, from left to right. A field or a type is given by its number,
/// the type's first.
#[derive(Clone, Copy, Debug, PartialEq, Eq)]
pub enum LayoutFault {
    /// The part that begins at this offset is cut.
    Short(u32),
    /// The description doesn't begin with `NDF1` or `NDF2`.
    Magic,
    /// The byte order is neither 0 nor 1.
    ByteOrder,
    /// The pointer size is neither 4 nor 8.
    Pointer,
    /// Bytes follow the last type, from this offset on.
    Trailing(u32),
    /// The type's or the field's name isn't 1 to 64 letters, digits and `_`, the first no digit, or
    /// it is a type's and a reserved word.
    BadName(u16, Option<u16>),
    /// An earlier field of the type has this name.
    Twice(u16, u16),
    /// The type text isn't one.
    TypeText(u16, u16),
    /// The type text's word is `float`, which isn't supported.
    Float(u16, u16),
    /// The type text's word is a name that no earlier type has.
    UnknownType(u16, u16),
    /// The size isn't allowed for the type text's word.
    Size(u16, u16),
    /// The field doesn't end within the type's length.
    Outside(u16, u16),
    /// The array's count isn't a single `integer` or `unsigned integer` field of the type.
    CountField(u16, u16),
    /// Two fields of the type, the last two numbers, have bytes in common.
    Overlap(u16, u16, u16),
    /// The number is above the limit, or 0.
    Limit(Which, u32),
    /// An earlier type has this name.
    TypeTwice(u16),
    /// The default isn't 0, and the field isn't a single number or the default isn't in its range.
    Default(u16, u16),
    /// The default isn't 0, and the field is a count.
    CountDefault(u16, u16),
    /// The magic says that defaults are stated, and every one is 0.
    Plain,
    /// There was no memory for the format.
    Memory,
}

impl From<evp_base::Memory> for LayoutFault {
    ghost from_gives = { λ _ fault. fault ≡ Memory };

    fn from(_error: evp_base::Memory) -> LayoutFault {
        LayoutFault::Memory
    }
}

impl fmt::Display for Which {
    ghost output = { λ which. Some (which_text which) };

    fn fmt<W: fmt::Write>(&self, f: &mut fmt::Formatter<W>) -> fmt::Result {
        match self {
            Which::Types => f.write_str("types"),
            Which::Fields => f.write_str("fields"),
            Which::AllFields => f.write_str("all fields"),
            Which::Nesting => f.write_str("nesting"),
            Which::Length => f.write_str("length"),
        }
    }
}

impl fmt::Display for LayoutFault {
    ghost output = { λ fault. Some (layout_fault_text fault) };

    fn fmt<W: fmt::Write>(&self, f: &mut fmt::Formatter<W>) -> fmt::Result {
        match *self {
            LayoutFault::Short(at) => write!(f, "short at {at}"),
            LayoutFault::Magic => f.write_str("magic"),
            LayoutFault::ByteOrder => f.write_str("byte order"),
            LayoutFault::Pointer => f.write_str("pointer size"),
            LayoutFault::Trailing(at) => write!(f, "trailing at {at}"),
            LayoutFault::BadName(number, None) => write!(f, "bad name, type {number}"),
            LayoutFault::BadName(number, Some(field)) => at_field(f, "bad name", number, field),
            LayoutFault::Twice(number, field) => at_field(f, "field twice", number, field),
            LayoutFault::TypeText(number, field) => at_field(f, "type text", number, field),
            LayoutFault::Float(number, field) => at_field(f, "float", number, field),
            LayoutFault::UnknownType(number, field) => at_field(f, "unknown type", number, field),
            LayoutFault::Size(number, field) => at_field(f, "size", number, field),
            LayoutFault::Outside(number, field) => at_field(f, "outside", number, field),
            LayoutFault::CountField(number, field) => at_field(f, "count field", number, field),
            LayoutFault::Overlap(number, field, other) => {
                write!(f, "overlap, type {number} fields {field} and {other}")
            }
            LayoutFault::Limit(which, number) => write!(f, "limit {which}: {number}"),
            LayoutFault::TypeTwice(number) => write!(f, "type twice, type {number}"),
            LayoutFault::Default(number, field) => at_field(f, "default", number, field),
            LayoutFault::CountDefault(number, field) => at_field(f, "count default", number, field),
            LayoutFault::Plain => f.write_str("plain"),
            LayoutFault::Memory => f.write_str("memory"),
        }
    }
}

// What is wrong with a field, and the numbers of its type and its own.
fn at_field<W: fmt::Write>(
    f: &mut fmt::Formatter<W>,
    what: &str,
    type_number: u16,
    field: u16,
) -> fmt::Result
    ensures { WritesOnOk W.write_str_gives f.old result
        (at_field what.now type_number field) f.new }
{
    write!(f, "{what}, type {type_number} field {field}")
}

impl Error for LayoutFault {}

impl From<AllocError> for LayoutFault {
    ghost from_gives = { λ _ fault. fault ≡ Memory };

    fn from(_error: AllocError) -> LayoutFault {
        LayoutFault::Memory
    }
}

impl<T: Drop> From<AllocFailed<T>> for LayoutFault {
    ghost from_gives = { λ _ fault. fault ≡ Memory };

    fn from(_error: AllocFailed<T>) -> LayoutFault {
        LayoutFault::Memory
    }
}
