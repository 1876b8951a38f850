//! The zero of a format.

ghost use Rattle.std.specs.Prelude.{◌≡◌, ◌<◌, IfOk, length, take};
ghost use Rattle.evp_format.specs.Datum.{copies};
ghost use Rattle.evp_format.specs.Tree.{tree_of, trees, part_of};
ghost use Rattle.evp_format.specs.ValueView.{datum_of, elements_of_values};
ghost use Rattle.evp_format.specs.WellLaid.{HasBaseSize};
ghost use Rattle.evp_format.specs.Zero.{zero_of, zero_tree, zero_part};
ghost use Rattle.evp_value.specs.ZeroField.{zero_of_field};

use evp_base::Memory;
use evp_format::{Base, Field, Format, Items, Members, Shape, Value};
use std::alloc::Global;

/// The zero of a format: each single number field has its stated default, else 0; each text is
/// null, a static array has as many zeros as it has elements, and a counted array none, since a
/// count has no default. It calls itself once for each level of nested types, at most 16.
pub fn zero_value(alloc: Global, format: &Format) -> Result<Value, Memory>
    ensures { IfOk result (λ value. datum_of value ≡ zero_of format.now) }
{
    let last = format.types().len() - 1;
    zero_record(alloc, format, last)
}

// The zero of the type of this number.
#[cycle(zero)]
fn zero_record(alloc: Global, format: &Format, type_number: usize) -> Result<Value, Memory>
    requires { type_number < length format.now.types }
    ensures { IfOk result (λ value. datum_of value ≡ zero_tree (tree_of format.now type_number)) }
{
    let fields = format.types()[type_number].fields.as_slice();
    let mut pairs = Vec::with_capacity(alloc, fields.len())?;
    for field in fields {
        let value = zero_field(alloc, format, type_number, *field)?;
        pairs.push((field.name, value))?;
    }
    Ok(Value::Rec(Members { pairs }))
}

// The zero of a field of that type.
#[cycle(zero)]
fn zero_field(
    alloc: Global,
    format: &Format,
    type_number: usize,
    field: Field,
) -> Result<Value, Memory>
    requires { HasBaseSize format.now.pointer (take type_number format.now.types) field.base
        field.size }
    ensures { IfOk result (λ value. datum_of value ≡ zero_of_field (trees format.now.types) field) }
{
    match field.shape {
        Shape::One => match field.base {
            Base::Number(_) => Ok(Value::Num(field.fallback)),
            Base::Text | Base::Nested(_) => zero_element(alloc, format, type_number, field),
        },
        Shape::Fixed(count) => {
            let values = zero_elements(alloc, format, type_number, field, count)?;
            Ok(Value::List(Items { values }))
        }
        Shape::Counted(_) => Ok(Value::List(Items {
            values: Vec::new(alloc),
        })),
    }
}

// As many zeros of an element of that field.
#[cycle(zero)]
pub(crate) fn zero_elements(
    alloc: Global,
    format: &Format,
    type_number: usize,
    field: Field,
    count: u32,
) -> Result<Vec<Value>, Memory>
    requires { HasBaseSize format.now.pointer (take type_number format.now.types) field.base
        field.size }
    ensures { IfOk result (λ values. elements_of_values values.items
        ≡ copies count (zero_part (part_of (trees format.now.types) field.base))) }
{
    let mut values = Vec::with_capacity(alloc, count as usize)?;
    for _ in 0..count {
        values.push(zero_element(alloc, format, type_number, field)?)?;
    }
    Ok(values)
}

// The zero of an element of that field.
#[cycle(zero)]
fn zero_element(
    alloc: Global,
    format: &Format,
    type_number: usize,
    field: Field,
) -> Result<Value, Memory>
    requires { HasBaseSize format.now.pointer (take type_number format.now.types) field.base
        field.size }
    ensures { IfOk result (λ value. datum_of value
        ≡ zero_part (part_of (trees format.now.types) field.base)) }
{
    match field.base {
        Base::Number(_) => Ok(Value::Num(0)),
        Base::Text => Ok(Value::Null),
        Base::Nested(nested) => zero_record(alloc, format, usize::from(nested)),
    }
}
