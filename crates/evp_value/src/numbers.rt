//! The numbers of a record that is being made: those of its single number fields, 0 for the others.

ghost use Rattle.std.specs.Prelude.{◌≡◌, ◌<◌, ◌≤◌, ℕ, List, Some, length, slice_get};
ghost use Rattle.evp_format.specs.declared.field.Field.{Field};
ghost use Rattle.evp_format.specs.Converting.{number_at, number_fits, numbers_from};
ghost use Rattle.evp_format.specs.Converting.{receiver_number};
ghost use Rattle.evp_format.specs.Tree.{Tree, branches_of, part_of, trees};
ghost use Rattle.evp_format.specs.ValueView.{entries_of_pairs};
ghost use Rattle.evp_format.specs.WellLaid.{HasBaseSize};
ghost use Rattle.evp_value.specs.Making.{Gives};

use crate::partner::{number_or_default, value_named};
use crate::refused::Refused;
use evp_base::{Name, fits};
use evp_format::{Base, Field, Format, Place, PlaceStep, Shape, Value};
use std::alloc::Global;

// The numbers of these fields as listed, or the first that doesn't fit.
pub(crate) fn receiver_numbers(
    alloc: Global,
    format: &Format,
    fields: &[Field],
    partner: &[(Name, Value)],
    place: &Place,
) -> Result<Vec<i128>, Refused>
    requires few { length fields.now ≤ 1024 }
    requires sized { (k : ℕ) (field : Field) → slice_get fields.now k ≡ Some field →
        HasBaseSize format.now.pointer format.now.types field.base field.size }
    requires room { length place.now < 32 }
    ensures { Gives (λ numbers. numbers.items) result 0
        (numbers_from place.now 0 (branches_of (trees format.now.types) fields.now)
        (entries_of_pairs partner.now)) }
{
    let mut numbers = Vec::with_capacity(alloc, fields.len())?;
    for (k, field) in fields.iter().enumerate() {
        let number = receiver_number(field, partner);
        if !number_fits(format, field, number) {
            return Err(Refused::Unfit(place.with(PlaceStep::At(k as u16))));
        }
        numbers.push(number)?;
    }
    Ok(numbers)
}

// The number of a single number field: the partner's of its name, or its default; 0 for another.
fn receiver_number(field: &Field, partner: &[(Name, Value)]) -> i128
    ensures { (earlier : List Tree) → result
        ≡ receiver_number field.now field.now.shape (part_of earlier field.now.base)
        (entries_of_pairs partner.now) }
{
    match (field.shape, field.base) {
        (Shape::One, Base::Number(_)) => {
            number_or_default(value_named(partner, field.name), field.fallback)
        }
        _ => 0,
    }
}

// Whether the field is no single number, or the number is in its range.
fn number_fits(format: &Format, field: &Field, number: i128) -> bool
    requires { HasBaseSize format.now.pointer format.now.types field.now.base field.now.size }
    ensures { (earlier : List Tree) → result
        ≡ number_fits field.now field.now.shape (part_of earlier field.now.base) number }
{
    match (field.shape, field.base) {
        (Shape::One, Base::Number(kind)) => fits(kind, field.size, number),
        _ => true,
    }
}

// The number of the field of this number.
pub(crate) fn number_at(numbers: &[i128], k: usize) -> i128
    ensures { result ≡ number_at numbers.now k }
{
    if k < numbers.len() {
        return numbers[k];
    }
    0
}
