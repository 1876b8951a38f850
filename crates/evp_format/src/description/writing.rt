//! Writing a description.

ghost use Rattle.std.specs.Prelude.{◌≡◌, ◌+◌, ◌*◌, ◌^◌, ◌<◌, ◌≤◌, ◌++◌, [], if◌then◌else◌, length};
ghost use Rattle.std.specs.Prelude.{IfOk, OnOk, IsTrue, All, codes};
ghost use Rattle.evp_base.specs.Numbers.{is_width};
ghost use Rattle.evp_format.specs.Describing.{describe, stated_number, described_number};
ghost use Rattle.evp_format.specs.Describing.{described_text, described_field, described_fields};
ghost use Rattle.evp_format.specs.Describing.{described_type, described_types, base_word};
ghost use Rattle.evp_format.specs.Describing.{type_name, field_name, shape_text, type_text};
ghost use Rattle.evp_format.specs.Describing.{kind_word, magic, order_number, types_state_default};
ghost use Rattle.evp_format.specs.Describing.{all_default_zero};
ghost use Rattle.evp_format.specs.WellLaid.{IsWellLaid};

use crate::{Base, Field, Format, RecordType, Shape};
use byteorder::{BigEndian, ByteOrder};
use evp_base::{Kind, Memory, Order, put_number};
use std::alloc::Global;

/// The one description of the format: the magic `NDF1`, or `NDF2` where some default isn't 0, then
/// the byte order, the pointer size, and each type with its fields, numbers unsigned and big
/// endian.
pub fn write_description(alloc: Global, format: &Format) -> Result<Vec<u8>, Memory>
    ensures { IfOk result (λ bytes. bytes.items ≡ describe format.now) }
{
    let types = format.types();
    let stated = states_default(types);
    let mut out = Vec::new(alloc);
    out.extend_from_slice(magic(stated))?;
    put_word(&mut out, 1, order_number(format.order()))?;
    put_word(&mut out, 1, u32::from(format.pointer()))?;
    put_word(&mut out, 2, types.len() as u32)?;
    put_types(&mut out, alloc, stated, types)?;
    Ok(out)
}

// The types, in their order.
fn put_types(
    out: &mut Vec<u8>,
    alloc: Global,
    stated: bool,
    types: &[RecordType],
) -> Result<(), Memory>
    requires { All (λ type. length type.fields < 2 ^ 16) types.now }
    ensures { OnOk result (out.new.items ≡ out.old.items
        ++ described_types stated types.now types.now) }
{
    for record_type in types {
        put_type(out, alloc, stated, types, record_type)?;
    }
    Ok(())
}

fn put_type(
    out: &mut Vec<u8>,
    alloc: Global,
    stated: bool,
    types: &[RecordType],
    record_type: &RecordType,
) -> Result<(), Memory>
    requires { length record_type.now.fields < 2 ^ 16 }
    ensures { OnOk result (out.new.items ≡ out.old.items
        ++ described_type stated types.now record_type.now) }
{
    let fields = record_type.fields.as_slice();
    put_text(out, record_type.name.as_bytes())?;
    put_word(out, 4, record_type.length)?;
    put_word(out, 2, fields.len() as u32)?;
    put_fields(out, alloc, stated, types, fields)
}

// The fields of a type, in their order.
fn put_fields(
    out: &mut Vec<u8>,
    alloc: Global,
    stated: bool,
    types: &[RecordType],
    fields: &[Field],
) -> Result<(), Memory>
    ensures { OnOk result (out.new.items ≡ out.old.items
        ++ described_fields stated types.now fields.now fields.now) }
{
    for field in fields {
        put_field(out, alloc, stated, types, fields, field)?;
    }
    Ok(())
}

fn put_field(
    out: &mut Vec<u8>,
    alloc: Global,
    stated: bool,
    types: &[RecordType],
    fields: &[Field],
    field: &Field,
) -> Result<(), Memory>
    ensures { OnOk result (out.new.items ≡ out.old.items
        ++ described_field stated types.now fields.now field.now) }
{
    let text = type_text(alloc, types, fields, field)?;
    put_text(out, field.name.as_bytes())?;
    put_text(out, &text)?;
    put_word(out, 4, field.size)?;
    put_word(out, 4, field.offset)?;
    put_default(out, stated, field.fallback)
}

// The default, where defaults are stated.
fn put_default(out: &mut Vec<u8>, stated: bool, fallback: i128) -> Result<(), Memory>
    ensures { OnOk result (out.new.items ≡ out.old.items ++ stated_number stated fallback) }
{
    if stated {
        let mut bytes = [0; 16];
        BigEndian::write_u128(&mut bytes, fallback.cast_unsigned());
        out.extend_from_slice(&bytes)?;
    }
    Ok(())
}

// An unsigned number of `size` bytes.
fn put_word(out: &mut Vec<u8>, size: u32, number: u32) -> Result<(), Memory>
    requires width { IsTrue (is_width size) }
    requires narrow { size ≤ 4 }
    requires fits { number < 2 ^ (8 * size) }
    ensures { OnOk result (out.new.items ≡ out.old.items ++ described_number size number) }
{
    let mut bytes = [0; 4];
    let word = &mut bytes[..size as usize];
    put_number(word, Order::Big, size, i128::from(number));
    out.extend_from_slice(word)?;
    Ok(())
}

// A text behind its length.
fn put_text(out: &mut Vec<u8>, text: &[u8]) -> Result<(), Memory>
    requires { length text.now < 256 }
    ensures { OnOk result (out.new.items ≡ out.old.items ++ described_text text.now) }
{
    put_word(out, 1, text.len() as u32)?;
    out.extend_from_slice(text)?;
    Ok(())
}

// The type text of a field.
fn type_text(
    alloc: Global,
    types: &[RecordType],
    fields: &[Field],
    field: &Field,
) -> Result<Vec<u8>, Memory>
    ensures value { IfOk result (λ text. text.items ≡ type_text types.now fields.now field.now) }
    ensures short { IfOk result (λ text. length text.items < 256) }
{
    let mut text = Vec::new(alloc);
    text.extend_from_slice(base_word(types, &field.base))?;
    match field.shape {
        Shape::One => {}
        Shape::Fixed(count) => put_bracketed(&mut text, count.to_string(alloc)?.as_bytes())?,
        Shape::Counted(number) => put_bracketed(&mut text, field_name(fields, number))?,
    }
    Ok(text)
}

// A text in brackets.
fn put_bracketed(out: &mut Vec<u8>, text: &[u8]) -> Result<(), Memory>
    ensures { OnOk result (out.new.items ≡ out.old.items ++ (codes "[" ++ text.now ++ codes "]")) }
{
    out.push(b'[')?;
    out.extend_from_slice(text)?;
    out.push(b']')?;
    Ok(())
}

// The word for a base.
fn base_word<'a>(types: &'a [RecordType], base: &Base) -> &'a [u8]
    ensures value { result.now ≡ base_word types.now base.now }
    ensures short { length result.now ≤ 64 }
{
    match base {
        Base::Number(kind) => kind_word(*kind),
        Base::Text => b"string",
        Base::Nested(number) => type_name(types, *number),
    }
}

// The word for a kind of number.
fn kind_word(kind: Kind) -> &'static [u8]
    ensures value { result.now ≡ kind_word kind }
    ensures short { length result.now ≤ 64 }
{
    match kind {
        Kind::Int => b"integer",
        Kind::Unsigned => b"unsigned integer",
        Kind::Char => b"char",
        Kind::Boolean => b"boolean",
        Kind::Enumeration => b"enumeration",
    }
}

// The name of the type of this number.
fn type_name(types: &[RecordType], number: u16) -> &[u8]
    ensures value { result.now ≡ type_name types.now number }
    ensures short { length result.now ≤ 64 }
{
    match types.get(usize::from(number)) {
        Some(record_type) => record_type.name.as_bytes(),
        None => &[],
    }
}

// The name of the field of this number.
fn field_name(fields: &[Field], number: u16) -> &[u8]
    ensures value { result.now ≡ field_name fields.now number }
    ensures short { length result.now ≤ 64 }
{
    match fields.get(usize::from(number)) {
        Some(field) => field.name.as_bytes(),
        None => &[],
    }
}

// `NDF1` where every default is 0, else `NDF2`.
fn magic(stated: bool) -> &'static [u8]
    ensures { result.now ≡ magic stated }
{
    if stated { b"NDF2" } else { b"NDF1" }
}

// 0 for little endian, 1 for big endian.
fn order_number(order: Order) -> u32
    ensures value { result ≡ order_number order }
    ensures small { result < 2 }
{
    match order {
        Order::Little => 0,
        Order::Big => 1,
    }
}

/// Whether some default isn't 0.
pub(crate) fn states_default(types: &[RecordType]) -> bool
    ensures { result ≡ types_state_default types.now }
{
    for record_type in types {
        if !all_default_zero(record_type.fields.as_slice()) {
            return true;
        }
    }
    false
}

// Whether each default is 0.
fn all_default_zero(fields: &[Field]) -> bool
    ensures { result ≡ all_default_zero fields.now }
{
    fields.iter().all(|field| field.fallback == 0)
}
