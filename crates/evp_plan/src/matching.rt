//! The steps for two types, whose fields are matched by name.

ghost use Rattle.std.specs.Prelude.{◌≡◌, ◌+◌, ◌*◌, ◌<◌, ◌≤◌, ◌^◌, pos, length, slice_get, IfOk};
ghost use Rattle.evp_plan.specs.Building.{known_field, field_named, row_of, inner_of, step_for};
ghost use Rattle.evp_plan.specs.Building.{steps_for};
ghost use Rattle.evp_plan.specs.Matching.{content_of_base, known_fields, known_named};
ghost use Rattle.evp_plan.specs.Matching.{number_origin, single_origin, wanted_origin, run_by};
ghost use Rattle.evp_plan.specs.Matching.{part_for, op_for, single_for, elements_for, offset_of};
ghost use Rattle.evp_plan.specs.Matching.{or_zero};

use crate::{Elements, Op, Origin, Part, Run, Source, Step, Steps, Task};
use evp_base::{Memory, Name};
use evp_format::{Base, Field, Shape};
use std::alloc::Global;

// The field of this name.
fn field_named(name: &Name, fields: &[Field]) -> Option<Field>
    ensures { result ≡ field_named name.now fields.now }
{
    for field in fields {
        if field.name == *name {
            return Some(*field);
        }
    }
    None
}

// The field of this number.
fn field_at(fields: &[Field], number: u16) -> Option<Field>
    ensures { result ≡ slice_get fields.now number }
{
    let number = usize::from(number);
    if number < fields.len() {
        Some(fields[number])
    } else {
        None
    }
}

// What a number is made from: the partner's, or the stated one.
fn number_origin(partner: &Option<Field>, fallback: i128) -> Origin
    ensures { result ≡ number_origin (known_field partner.now) fallback }
{
    if let Some(field) = partner {
        if let Base::Number(kind) = field.base {
            return Origin::Standing(Source {
                offset: field.offset,
                size: field.size,
                kind,
            });
        }
    }
    Origin::Stated(fallback)
}

// What a receiver's number is made from: the partner's, or the field's default.
fn origin_of(partner: &Option<Field>, field: &Field) -> Origin
    ensures { result ≡ number_origin (known_field partner.now) field.now.fallback }
{
    number_origin(partner, field.fallback)
}

// What a receiver's single number field is made from.
fn single_origin(from: &[Field], field: &Field) -> Origin
    ensures { result ≡ single_origin (known_fields from.now) field.now field.now.shape
        (content_of_base field.now.base) }
{
    match (field.shape, field.base) {
        (Shape::One, Base::Number(_)) => { origin_of(&field_named(&field.name, from), field) }
        _ => Origin::Stated(0),
    }
}

// How many elements a receiver's array gets, by its count field.
fn wanted_origin(from: &[Field], all: &[Field], count: u16) -> Origin
    ensures { result ≡ wanted_origin (known_fields from.now)
        (slice_get (known_fields all.now) count) }
{
    match field_at(all, count) {
        Some(field) => single_origin(from, &field),
        None => Origin::Stated(0),
    }
}

// How many elements a sender's array has, by its count field.
fn own_count(from: &[Field], count: u16) -> Origin
    ensures { result ≡ number_origin (slice_get (known_fields from.now) count) (pos 0) }
{
    number_origin(&field_at(from, count), 0)
}

// The sender's array.
fn run_of(from: &[Field], field: &Field) -> Option<Run>
    ensures { result ≡ run_by (known_fields from.now) field.now field.now.shape }
{
    let (count, pointed) = match field.shape {
        Shape::One => return None,
        Shape::Fixed(count) => (Origin::Stated(i128::from(count)), false),
        Shape::Counted(count) => (own_count(from, count), true),
    };
    Some(Run {
        count,
        pointed,
        offset: field.offset,
        stride: field.size,
    })
}

// Where the partner begins.
fn offset_of(partner: &Option<Field>) -> Option<u32>
    ensures { result ≡ offset_of (known_field partner.now) }
{
    match partner {
        None => None,
        Some(sender) => Some(sender.offset),
    }
}

// What an element of the receiver's array is made from.
fn part_of(field: &Field, partner: &Option<Field>) -> Part
    ensures { result ≡ part_for field.now.size (content_of_base field.now.base)
        (known_field partner.now) }
{
    match field.base {
        Base::Text => Part::Text,
        Base::Nested(_) => Part::Record,
        Base::Number(kind) => {
            if let Some(sender) = partner {
                if let Base::Number(other) = sender.base {
                    return Part::Number(kind, other, sender.size);
                }
            }
            Part::Number(kind, kind, field.size)
        }
    }
}

// What the elements of the receiver's array are made from.
fn elements_of(from: &[Field], field: &Field, partner: &Option<Field>) -> Elements
    ensures { result ≡ elements_for (known_fields from.now) field.now.size
        (content_of_base field.now.base) (known_field partner.now) }
{
    Elements {
        part: part_of(field, partner),
        run: match partner {
            None => None,
            Some(sender) => run_of(from, sender),
        },
    }
}

// What a field of the receiver is made from.
fn op_of(from: &[Field], all: &[Field], field: &Field, partner: &Option<Field>) -> Op
    ensures { result ≡ op_for (known_fields from.now) (known_fields all.now) field.now
        field.now.shape (content_of_base field.now.base) (known_field partner.now) }
{
    match field.shape {
        Shape::One => single_op(field, partner),
        Shape::Fixed(count) => Op::Each(count, elements_of(from, field, partner)),
        Shape::Counted(count) => Op::Many(
            wanted_origin(from, all, count),
            elements_of(from, field, partner),
        ),
    }
}

// What a field of the receiver that is no array is made from.
fn single_op(field: &Field, partner: &Option<Field>) -> Op
    ensures { result ≡ single_for field.now (content_of_base field.now.base)
        (known_field partner.now) }
{
    match field.base {
        Base::Number(kind) => Op::Number(kind, origin_of(partner, field)),
        Base::Text => Op::Text(offset_of(partner)),
        Base::Nested(_) => Op::Nest(offset_of(partner).unwrap_or(0)),
    }
}

// The row of a sender's partner: 0 where it is no record, else one more than its type's number.
fn row_of(partner: &Option<Field>) -> u32
    ensures value { result ≡ row_of partner.now }
    ensures small { result ≤ 65536 }
{
    match partner {
        None => 0,
        Some(field) => match field.base {
            Base::Number(_) | Base::Text => 0,
            Base::Nested(n) => u32::from(n) + 1,
        },
    }
}

// The number of the steps that make a record inside a field of this base.
fn inner_of(rows: u32, base: Base, row: u32) -> Option<u32>
    requires rows_few { rows ≤ 65 }
    requires row_small { row ≤ 65536 }
    ensures { result ≡ inner_of rows base row }
{
    match base {
        Base::Number(_) | Base::Text => None,
        Base::Nested(n) => Some(u32::from(n) * rows + row),
    }
}

// The step for field k of a receiver's type.
fn step_of(rows: u32, from: &[Field], all: &[Field], k: u16, field: &Field) -> Step
    requires { rows ≤ 65 }
    ensures { result ≡ step_for rows from.now all.now k field.now }
{
    let partner = field_named(&field.name, from);
    Step {
        task: Task {
            field: k,
            offset: field.offset,
            size: field.size,
            op: op_of(from, all, field, &partner),
        },
        inner: inner_of(rows, field.base, row_of(&partner)),
    }
}

// The steps that make a record with the fields `all` from one with the fields `from`, where the
// steps for each of the receiver's types have so many rows.
pub(crate) fn steps_of(
    alloc: Global,
    rows: u32,
    from: &[Field],
    all: &[Field],
) -> Result<Steps, Memory>
    requires rows_few { rows ≤ 65 }
    requires fields_few { length all.now ≤ 1024 }
    ensures { IfOk result (λ steps. steps ≡ steps_for rows from.now all.now 0 all.now) }
{
    let mut list = Vec::with_capacity(alloc, all.len())?;
    for (k, field) in all.iter().enumerate() {
        list.push(step_of(rows, from, all, k as u16, field))?;
    }
    Ok(Steps::from_vec(list))
}
