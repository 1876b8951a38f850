//! The fields that names reach.
ghost use Rattle.std.specs.Prelude.{◌≡◌, ◌≤◌, ℕ, length, option_map};
ghost use Rattle.std.specs.Option.{option_copied};
ghost use Rattle.evp_eval.specs.Binding.{field_of, locate};
ghost use Rattle.evp_eval.specs.Meaning.{field_named, root_number};
ghost use Rattle.evp_format.specs.WellLaid.{IsWellLaid};
ghost use Rattle.evp_format.specs.declared.field.Field.{Field};
ghost use Rattle.evp_record.specs.Class.{type_fields};

use crate::fault::BindFault;
use crate::instruction::Member;
use crate::reach::{Reach, Stand};
use evp_base::Name;
use evp_format::{Field, Format};

// The fields of the type of this number.
fn fields_of(format: &Format, type_number: u16) -> &[Field]
    ensures fields { result.now ≡ type_fields format.now type_number }
    ensures few { length result.now ≤ 1024 }
{
    match format.types().get(usize::from(type_number)) {
        Some(record_type) => record_type.fields.as_slice(),
        None => &[],
    }
}

/// The field of these numbers, where there is one.
pub fn field_of(format: &Format, member: Member) -> Option<&Field>
    ensures { option_copied result ≡ field_of format.now member }
{
    fields_of(format, member.type_number).get(usize::from(member.field))
}

// The number of the field of this name.
fn find(format: &Format, type_number: u16, name: &Name) -> Option<u16>
    ensures { result ≡ option_map (λ (found : ℕ × Field). found.0)
        (field_named name.now 0 (type_fields format.now type_number)) }
{
    for (number, field) in fields_of(format, type_number).iter().enumerate() {
        if field.name == *name {
            return Some(number as u16);
        }
    }
    None
}

/// The number of the last type, which is the record.
pub fn root_number(format: &Format) -> u16
    ensures value { result ≡ root_number format.now }
    ensures laid { IsWellLaid format.now }
{
    (format.types().len() - 1) as u16
}

/// The field of this name of the type of this number, whose record stands there.
pub fn locate(
    format: &Format,
    stand: Stand,
    type_number: u16,
    at: u32,
    name: &Name,
) -> Result<Reach, BindFault>
    ensures { result ≡ locate format.now stand type_number at name.now }
{
    match find(format, type_number, name) {
        Some(field) => {
            let member = Member { type_number, field };
            Ok(Reach::Field(stand, member))
        }
        None => Err(BindFault::Unknown(at)),
    }
}
