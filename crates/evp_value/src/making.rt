//! The receiver's value made from the sender's, part by part.

ghost use Rattle.std.specs.Prelude.{◌≡◌, ◌+◌, ◌*◌, ◌^◌, ◌<◌, ◌≤◌, ℕ, length, option_map, pos, Some};
ghost use Rattle.std.specs.Prelude.{false, IsTrue, IfOk, IfErr};
ghost use Rattle.evp_base.specs.Numbers.{is_in_range, is_size_of};
ghost use Rattle.evp_format.specs.declared.field.Shape.{Shape};
ghost use Rattle.evp_format.specs.Converting.{has_other_length, make_elements, make_number};
ghost use Rattle.evp_format.specs.Converting.{make_text, make_tree, make_part, make_single};
ghost use Rattle.evp_format.specs.Datum.{copies, elements_of, list};
ghost use Rattle.evp_format.specs.Tree.{tree_of, part_in};
ghost use Rattle.evp_format.specs.ValueView.{datum_of, elements_of_values, entries_of_pairs};
ghost use Rattle.evp_format.specs.WellLaid.{HasBaseSize, depth, part_depth};
ghost use Rattle.evp_format.specs.Zero.{zero_part};
ghost use Rattle.evp_value.specs.declared.refused.Refused.TheVariants.{Memory};
ghost use Rattle.evp_value.specs.Making.{Gives, IsCounted, make_at, make_array, make_inside};
ghost use Rattle.evp_value.specs.Making.{make_field};

use crate::blocks::{block_end, has_length, list_end};
use crate::numbers::{number_at, receiver_numbers};
use crate::partner::{elements_in, entries_in, text_in, value_named};
use crate::refused::Refused;
use crate::zero::zero_elements;
use evp_base::{Kind, Name, fits};
use evp_format::{Base, Field, Format, Items, Members, Place, PlaceStep, Shape, TextBytes, Value};
use std::alloc::Global;

// What a value is made for: a format, and the greatest packed size.
#[derive(Clone, Copy)]
pub(crate) struct Receiver<'a> {
    pub(crate) alloc: Global,
    pub(crate) format: &'a Format,
    pub(crate) limit: u32,
}

// A record of the type of this number: first its single number fields, then the others.
#[cycle(making)]
pub(crate) fn make_record(
    to: &Receiver,
    type_number: usize,
    partner: &[(Name, Value)],
    place: &Place,
    size: &mut u32,
) -> Result<Value, Refused>
    requires type_there { type_number < length to.now.format.now.types }
    requires room { length place.now + 2 * depth (tree_of to.now.format.now type_number) ≤ 32 }
    ensures { Gives datum_of result size.new
        (make_tree to.now.limit (tree_of to.now.format.now type_number) place.now
        (entries_of_pairs partner.now) size.old) }
{
    let fields = to.format.types()[type_number].fields.as_slice();
    let numbers = receiver_numbers(to.alloc, to.format, fields, partner, place)?;
    let mut pairs = Vec::with_capacity(to.alloc, fields.len())?;
    for (k, field) in fields.iter().enumerate() {
        let inside = place.with(PlaceStep::At(k as u16));
        let named = value_named(partner, field.name);
        let value = make_field(to, field, &numbers, k, named, inside, size)?;
        pairs.push((field.name, value))?;
    }
    Ok(Value::Rec(Members { pairs }))
}

// A field, where the numbers of all fields of its type are known.
#[cycle(making)]
fn make_field(
    to: &Receiver,
    field: &Field,
    numbers: &[i128],
    k: usize,
    partner: Option<&Value>,
    place: Place,
    size: &mut u32,
) -> Result<Value, Refused>
    requires sized { HasBaseSize to.now.format.now.pointer to.now.format.now.types field.now.base
        field.now.size }
    requires some { 0 < field.now.size }
    requires room { length place + 2 * part_depth (part_in to.now.format.now field.now) < 32 }
    ensures { Gives datum_of result size.new
        (make_field to.now.limit to.now.format.now field.now numbers.now k place
        (option_map (λ value. datum_of value.now) partner.entry) size.old) }
{
    match field.shape {
        Shape::One => make_single(to, field, number_at(numbers, k), partner, place, size),
        Shape::Fixed(count) => make_fixed(to, field, count, partner, place, size),
        Shape::Counted(count) => {
            let number = number_at(numbers, usize::from(count));
            make_counted(to, field, number, partner, place, size)
        }
    }
}

// A field that is no array: its number stands ready.
#[cycle(making)]
fn make_single(
    to: &Receiver,
    field: &Field,
    number: i128,
    partner: Option<&Value>,
    place: Place,
    size: &mut u32,
) -> Result<Value, Refused>
    requires sized { HasBaseSize to.now.format.now.pointer to.now.format.now.types field.now.base
        field.now.size }
    requires room { length place + 2 * part_depth (part_in to.now.format.now field.now) < 32 }
    ensures { Gives datum_of result size.new
        (make_single to.now.limit (part_in to.now.format.now field.now) place number
        (option_map (λ value. datum_of value.now) partner.entry)
        (make_part to.now.limit (part_in to.now.format.now field.now)
        field.now.size place) size.old) }
{
    match field.base {
        Base::Number(_) => Ok(Value::Num(number)),
        Base::Text => make_text(to, partner, place, size),
        Base::Nested(nested) => {
            make_record(to, usize::from(nested), entries_in(partner), &place, size)
        }
    }
}

// An array inside the record.
#[cycle(making)]
fn make_fixed(
    to: &Receiver,
    field: &Field,
    count: u32,
    partner: Option<&Value>,
    place: Place,
    size: &mut u32,
) -> Result<Value, Refused>
    requires fixed { field.now.shape ≡ Shape.Fixed count }
    requires sized { HasBaseSize to.now.format.now.pointer to.now.format.now.types field.now.base
        field.now.size }
    requires room { length place + 2 * part_depth (part_in to.now.format.now field.now) < 32 }
    ensures { Gives datum_of result size.new
        (make_array to.now.limit to.now.format.now field.now (pos count) place
        (option_map (λ value. datum_of value.now) partner.entry) size.old) }
{
    if !has_length(partner, i128::from(count)) {
        return Err(Refused::Unfit(place));
    }
    make_inside(to, field, count, partner, &place, size)
}

// A counted array of a wanted length: first the length, then its block, then the elements.
#[cycle(making)]
fn make_counted(
    to: &Receiver,
    field: &Field,
    wanted: i128,
    partner: Option<&Value>,
    place: Place,
    size: &mut u32,
) -> Result<Value, Refused>
    requires counted { IsCounted field.now.shape }
    requires sized { HasBaseSize to.now.format.now.pointer to.now.format.now.types field.now.base
        field.now.size }
    requires some { 0 < field.now.size }
    requires room { length place + 2 * part_depth (part_in to.now.format.now field.now) < 32 }
    ensures { Gives datum_of result size.new
        (make_array to.now.limit to.now.format.now field.now wanted place
        (option_map (λ value. datum_of value.now) partner.entry) size.old) }
{
    if !has_length(partner, wanted) {
        return Err(Refused::Unfit(place));
    }
    let Some(end) = list_end(to.limit, wanted, field.size, *size) else {
        return Err(Refused::Large(place));
    };
    *size = end;
    make_inside(to, field, wanted as u32, partner, &place, size)
}

// The elements of an array whose length and block are settled: the partner's, or zeros.
#[cycle(making)]
fn make_inside(
    to: &Receiver,
    field: &Field,
    count: u32,
    partner: Option<&Value>,
    place: &Place,
    size: &mut u32,
) -> Result<Value, Refused>
    requires counted { has_other_length count
        (elements_of (option_map (λ value. datum_of value.now) partner)) ≡ false }
    requires sized { HasBaseSize to.now.format.now.pointer to.now.format.now.types field.now.base
        field.now.size }
    requires room { length place.now + 2 * part_depth (part_in to.now.format.now field.now) < 32 }
    ensures { Gives datum_of result size.new
        (make_inside to.now.limit to.now.format.now field.now count place.now
        (option_map (λ value. datum_of value.now) partner.entry) size.old) }
{
    match elements_in(partner) {
        None => Ok(listed(zeros(to, field, count)?)),
        Some(partners) => Ok(listed(make_elements(to, field, partners, place, size)?)),
    }
}

// A list of these elements.
fn listed(values: Vec<Value>) -> Value
    ensures { datum_of result ≡ list (elements_of_values values.items) }
{
    Value::List(Items { values })
}

// The partner's elements, each at its index.
#[cycle(making)]
fn make_elements(
    to: &Receiver,
    field: &Field,
    partners: &[Value],
    place: &Place,
    size: &mut u32,
) -> Result<Vec<Value>, Refused>
    requires few { length partners.now < 2 ^ 32 }
    requires sized { HasBaseSize to.now.format.now.pointer to.now.format.now.types field.now.base
        field.now.size }
    requires room { length place.now + 2 * part_depth (part_in to.now.format.now field.now) < 32 }
    ensures { Gives (λ values. elements_of_values values.items) result size.new
        (make_elements (make_at to.now.limit to.now.format.now field.now place.now)
        (elements_of_values partners.now) 0 size.old) }
{
    let mut values = Vec::with_capacity(to.alloc, partners.len())?;
    for (k, partner) in partners.iter().enumerate() {
        let inside = place.with(PlaceStep::Nth(k as u32));
        values.push(make_element(to, field, partner, inside, size)?)?;
    }
    Ok(values)
}

// An element of an array of that field.
#[cycle(making)]
fn make_element(
    to: &Receiver,
    field: &Field,
    partner: &Value,
    place: Place,
    size: &mut u32,
) -> Result<Value, Refused>
    requires sized { HasBaseSize to.now.format.now.pointer to.now.format.now.types field.now.base
        field.now.size }
    requires room { length place + 2 * part_depth (part_in to.now.format.now field.now) ≤ 32 }
    ensures { Gives datum_of result size.new
        (make_part to.now.limit (part_in to.now.format.now field.now) field.now.size place
        (datum_of partner.now) size.old) }
{
    match field.base {
        Base::Number(kind) => make_number(kind, field.size, partner.number(), place),
        Base::Text => make_text(to, Some(partner), place, size),
        Base::Nested(nested) => {
            make_record(to, usize::from(nested), partner.entries(), &place, size)
        }
    }
}

// An element that is a number.
fn make_number(kind: Kind, size: u32, number: i128, place: Place) -> Result<Value, Refused>
    requires { IsTrue (is_size_of kind size) }
    ensures { (behind : ℕ) → Gives datum_of result behind
        (make_number (is_in_range kind size number) place number behind) }
{
    if fits(kind, size, number) {
        Ok(Value::Num(number))
    } else {
        Err(Refused::Unfit(place))
    }
}

// A text takes a block of its bytes and the zero behind them.
fn make_text(
    to: &Receiver,
    partner: Option<&Value>,
    place: Place,
    size: &mut u32,
) -> Result<Value, Refused>
    ensures { Gives datum_of result size.new
        (make_text to.now.limit place
        (option_map (λ value. datum_of value.now) partner.entry) size.old) }
{
    let Some(bytes) = text_in(partner) else {
        return Ok(Value::Null);
    };
    let Some(end) = block_end(to.limit, bytes.len() as u64 + 1, *size) else {
        return Err(Refused::Large(place));
    };
    *size = end;
    Ok(Value::Text(TextBytes::new(Vec::from_slice(to.alloc, bytes)?)))
}

// As many zeros of an element of that field.
fn zeros(to: &Receiver, field: &Field, count: u32) -> Result<Vec<Value>, Refused>
    requires { HasBaseSize to.now.format.now.pointer to.now.format.now.types field.now.base
        field.now.size }
    ensures value { IfOk result (λ values. elements_of_values values.items
        ≡ copies count (zero_part (part_in to.now.format.now field.now))) }
    ensures refused { IfErr result (λ refused. refused ≡ Memory) }
{
    let all = to.format.types().len();
    Ok(zero_elements(to.alloc, to.format, all, *field, count)?)
}
