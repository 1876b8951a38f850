//! The value of a record, made whole: plain and slow, to compare other work with.

ghost use Rattle.std.specs.Prelude.{◌≡◌, Some, IsSome, IfOk};
ghost use Rattle.evp_format.specs.Datum.{list};
ghost use Rattle.evp_format.specs.ValueView.{datum_of};
ghost use Rattle.evp_format.specs.WellLaid.{IsWellLaid};
ghost use Rattle.evp_record.specs.Class.{field_at, class_at, content_of, texts, IsArray};
ghost use Rattle.evp_record.specs.Record.{IsRecord, value_of};
ghost use Rattle.evp_record.specs.Spots.{IsReached, IsPartAt, part_at, value_at, value_there};

use crate::part::Part;
use crate::{Checked, Spot};
use evp_base::Memory;
use evp_format::{Base, Items, Members, Shape, TextBytes, Value};
use std::alloc::Global;

/// The value of a record. Its recursion is as deep as the format's types nest.
pub fn view(alloc: Global, item: Checked) -> Result<Value, Memory>
    ensures { IfOk result (λ value. datum_of value ≡ value_of item.entry) }
{
    record_value(alloc, &item, item.root())
}

// The value of the record at the spot.
#[cycle(values)]
fn record_value(alloc: Global, item: &Checked, spot: Spot) -> Result<Value, Memory>
    requires { IsReached item.now spot }
    ensures { IfOk result (λ value. datum_of value ≡ value_at item.now spot) }
{
    let mut pairs = Vec::new(alloc);
    for index in 0..item.fields_len(spot) {
        let name = item.field(spot, index).name;
        let value = field_value(alloc, item, spot, index)?;
        pairs.push((name, value))?;
    }
    Ok(Value::Rec(Members { pairs }))
}

// The value of the field of this number of the record at the spot.
#[cycle(values)]
fn field_value(alloc: Global, item: &Checked, spot: Spot, index: u16) -> Result<Value, Memory>
    requires reached { IsReached item.now spot }
    requires there { IsSome (field_at item.now.layout spot.type_number index) }
    ensures { IfOk result (λ value. part_at item.now spot index ≡ Some (datum_of value)) }
{
    match item.field(spot, index).shape {
        Shape::One => part_value(alloc, item, item.single(spot, index)),
        Shape::Fixed(_) | Shape::Counted(_) => list_value(alloc, item, spot, index),
    }
}

// The value of the array field of this number of the record at the spot.
#[cycle(values)]
fn list_value(alloc: Global, item: &Checked, spot: Spot, index: u16) -> Result<Value, Memory>
    requires reached { IsReached item.now spot }
    requires class { IsArray (class_at item.now.layout spot.type_number index) }
    ensures { IfOk result (λ value. part_at item.now spot index ≡ Some (datum_of value)) }
{
    let mut values = Vec::new(alloc);
    for k in 0..item.list_len(spot, index) {
        values.push(part_value(alloc, item, item.element(spot, index, k))?)?;
    }
    Ok(Value::List(Items { values }))
}

// The value of the part that stands there.
#[cycle(values)]
fn part_value(alloc: Global, item: &Checked, part: Part) -> Result<Value, Memory>
    requires laid { IsWellLaid item.now.layout }
    requires kept { IsRecord item.now }
    requires stands { IsPartAt item.now part.field.now part.at }
    ensures { IfOk result
        (λ value. datum_of value ≡ value_there item.now part.entry.field.now part.entry.at) }
{
    match part.field.base {
        Base::Number(_) => Ok(Value::Num(item.number(part))),
        Base::Text => text_value(alloc, item, part),
        Base::Nested(_) => record_value(alloc, item, item.nested(part)),
    }
}

// The text that stands there, or null.
fn text_value(alloc: Global, item: &Checked, part: Part) -> Result<Value, Memory>
    requires laid { IsWellLaid item.now.layout }
    requires stands { IsPartAt item.now part.field.now part.at }
    requires content { content_of part.field.now.base ≡ texts }
    ensures { IfOk result
        (λ value. datum_of value ≡ value_there item.now part.entry.field.now part.entry.at) }
{
    match item.text(part) {
        None => Ok(Value::Null),
        Some(bytes) => Ok(Value::Text(TextBytes::new(Vec::from_slice(alloc, bytes)?))),
    }
}
