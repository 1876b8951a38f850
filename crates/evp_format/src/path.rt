//! The names of a place.
ghost use Rattle.std.specs.Prelude.{◌≡◌, IfOk, option_map};
ghost use Rattle.evp_format.specs.Path.{path_of as names_of, field_reached, nested_of};

use crate::{Base, Field, Format, Place, PlaceStep, RecordType};
use evp_base::{FieldPath, Memory, Step};
use std::alloc::Global;

/// The path of a place: the names of the fields and the indexes of the elements that it leads
/// through, from the format's record on. A step that isn't there ends it.
pub fn path_of(alloc: Global, format: &Format, place: &Place) -> Result<FieldPath, Memory>
    ensures { IfOk result (λ path. path ≡ names_of format.now place.now) }
{
    let types = format.types();
    let mut path = FieldPath::from_steps(Vec::with_capacity(alloc, place.steps().len())?);
    let mut reached = Some(types.len() - 1);
    for step in place.steps() {
        match step {
            PlaceStep::Nth(index) => path.push(Step::Index(*index))?,
            PlaceStep::At(number) => {
                let Some(field) = field_in(types, reached, *number) else {
                    return Ok(path);
                };
                path.push(Step::Field(field.name))?;
                reached = nested_type(field);
            }
        }
    }
    Ok(path)
}

// The field of this number of the record type that is reached, where there is one.
fn field_in(types: &[RecordType], reached: Option<usize>, number: u16) -> Option<&Field>
    ensures { option_map (λ field. field.now) result ≡ field_reached types.now reached number }
{
    let record_type = types.get(reached?)?;
    record_type.fields.as_slice().get(usize::from(number))
}

/// The type of the record that a field, or each of its elements, is.
pub(crate) fn nested_type(field: &Field) -> Option<usize>
    ensures { result ≡ nested_of field.now.base }
{
    match field.base {
        Base::Nested(number) => Some(usize::from(number)),
        Base::Number(_) | Base::Text => None,
    }
}
