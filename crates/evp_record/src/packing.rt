//! Packing: the one packed record of a value.

ghost use Rattle.std.specs.Prelude.{◌≡◌, ◌+◌, ◌*◌, ◌^◌, ◌<◌, ◌≤◌, IfOk, OnOk, Some, pos, length};
ghost use Rattle.evp_base.specs.Numbers.{digits};
ghost use Rattle.evp_format.specs.Bytes.{put_at};
ghost use Rattle.evp_format.specs.Converting.{as_number, entries_of, elements_of};
ghost use Rattle.evp_format.specs.Packing.{pack, packed_size, pack_text, machine_of, listed};
ghost use Rattle.evp_format.specs.Tree.{tree_of, length_of};
ghost use Rattle.evp_format.specs.Typed.{IsOf, IsOfTree, EachElement};
ghost use Rattle.evp_format.specs.ValueView.{datum_of, elements_of_values, entries_of_pairs};
ghost use Rattle.evp_format.specs.WellLaid.{extent};
ghost use Rattle.evp_record.specs.Onto.{onto, element_pieces, list_pieces, counted_pieces};
ghost use Rattle.evp_record.specs.Onto.{field_pieces, record_pieces, IsElementOf, IsValueOfField};
ghost use Rattle.evp_record.specs.Onto.{IsLaidElement, AreSmall};

use crate::put::{grow, next_block, put_bytes, put_digits};
use evp_base::{Memory, Name};
use evp_format::{Base, Field, Format, Shape, Value};
use std::alloc::Global;

/// The packed record of a value of the format, whose packed size is below 2^32: the fixed part with
/// zero padding, then the blocks in the order of the walk, each at the next multiple of 8, with
/// zeros between them. Null and an empty list have pointer 0 and no block; an empty text has a
/// block of one byte. A list's own block stands before those of its elements. The size ends with
/// the last block's last byte. It calls itself once for each level of nested types, at most 16.
pub fn pack(alloc: Global, format: &Format, value: &Value) -> Result<Vec<u8>, Memory>
    requires of_format { IsOf format.now (datum_of value.now) }
    requires small { packed_size format.now (datum_of value.now) < 2 ^ 32 }
    ensures { IfOk result (λ bytes. bytes.items ≡ pack format.now (datum_of value.now)) }
{
    let types = format.types();
    let last = types.len() - 1;
    let mut out = Vec::new(alloc);
    grow(&mut out, types[last].length as usize)?;
    pack_record(&mut out, format, last, value.entries(), 0)?;
    Ok(out)
}

// A record of that type at `at`.
#[cycle(pack)]
fn pack_record(
    out: &mut Vec<u8>,
    format: &Format,
    type_number: usize,
    pairs: &[(Name, Value)],
    at: usize,
) -> Result<(), Memory>
    requires known { type_number < length format.now.types }
    requires of_type { IsOfTree (tree_of format.now type_number) (entries_of_pairs pairs.now) }
    requires inside { at + length_of (tree_of format.now type_number) ≤ length out.old.items }
    requires small { AreSmall (record_pieces format.now type_number at (entries_of_pairs pairs.now)
        (length out.old.items)) }
    ensures { OnOk result
        (out.new.items
        ≡ onto out.old.items (record_pieces format.now type_number at (entries_of_pairs pairs.now)
        (length out.old.items))) }
{
    let fields = format.types()[type_number].fields.as_slice();
    for (k, field) in fields.iter().enumerate() {
        pack_field(out, format, type_number, field, &pairs[k].1, at)?;
    }
    Ok(())
}

// A field of the record of that type at `at`.
#[cycle(pack)]
fn pack_field(
    out: &mut Vec<u8>,
    format: &Format,
    type_number: usize,
    field: &Field,
    value: &Value,
    at: usize,
) -> Result<(), Memory>
    requires laid { IsLaidElement format.now type_number field.now }
    requires of_type { IsValueOfField format.now field.now (datum_of value.now) }
    requires inside { at + field.now.offset + extent format.now.pointer field.now ≤ length
        out.old.items }
    requires small { AreSmall (field_pieces format.now field.now at (datum_of value.now)
        (length out.old.items)) }
    ensures { OnOk result
        (out.new.items
        ≡ onto out.old.items (field_pieces format.now field.now at (datum_of value.now)
        (length out.old.items))) }
{
    let place = at + field.offset as usize;
    match field.shape {
        Shape::One => pack_element(out, format, type_number, field, value, place),
        Shape::Fixed(_) => { pack_elements(out, format, type_number, field, listed(value), place) }
        Shape::Counted(_) => { pack_counted(out, format, type_number, field, listed(value), place) }
    }
}

// A counted array: the pointer at `at`, then the block of its elements.
#[cycle(pack)]
fn pack_counted(
    out: &mut Vec<u8>,
    format: &Format,
    type_number: usize,
    field: &Field,
    values: &[Value],
    at: usize,
) -> Result<(), Memory>
    requires laid { IsLaidElement format.now type_number field.now }
    requires of_type { EachElement (IsElementOf format.now field.now)
        (elements_of_values values.now) }
    requires inside { at + format.now.pointer ≤ length out.old.items }
    requires small { AreSmall (counted_pieces format.now field.now at
        (elements_of_values values.now) (length out.old.items)) }
    ensures { OnOk result
        (out.new.items
        ≡ onto out.old.items (counted_pieces format.now field.now at (elements_of_values values.now)
        (length out.old.items))) }
{
    if values.is_empty() {
        put_pointer(out, format, at, 0);
        return Ok(());
    }
    let first = next_block(out.len());
    grow(out, first + values.len() * field.size as usize)?;
    put_pointer(out, format, at, first);
    pack_elements(out, format, type_number, field, values, first)
}

// The elements of an array of that field, the first at `at`.
#[cycle(pack)]
fn pack_elements(
    out: &mut Vec<u8>,
    format: &Format,
    type_number: usize,
    field: &Field,
    values: &[Value],
    at: usize,
) -> Result<(), Memory>
    requires laid { IsLaidElement format.now type_number field.now }
    requires of_type { EachElement (IsElementOf format.now field.now)
        (elements_of_values values.now) }
    requires inside { at + length values.now * field.now.size ≤ length out.old.items }
    requires small { AreSmall (list_pieces format.now field.now at (elements_of_values values.now) 0
        (length out.old.items)) }
    ensures { OnOk result
        (out.new.items
        ≡ onto out.old.items (list_pieces format.now field.now at (elements_of_values values.now) 0
        (length out.old.items))) }
{
    for (k, value) in values.iter().enumerate() {
        let place = at + k * field.size as usize;
        pack_element(out, format, type_number, field, value, place)?;
    }
    Ok(())
}

// An element of that field at `at`.
#[cycle(pack)]
fn pack_element(
    out: &mut Vec<u8>,
    format: &Format,
    type_number: usize,
    field: &Field,
    value: &Value,
    at: usize,
) -> Result<(), Memory>
    requires laid { IsLaidElement format.now type_number field.now }
    requires of_type { IsElementOf format.now field.now (datum_of value.now) }
    requires inside { at + field.now.size ≤ length out.old.items }
    requires small { AreSmall (element_pieces format.now field.now at (datum_of value.now)
        (length out.old.items)) }
    ensures { OnOk result
        (out.new.items
        ≡ onto out.old.items (element_pieces format.now field.now at (datum_of value.now)
        (length out.old.items))) }
{
    match field.base {
        Base::Number(_) => {
            put_digits(out, at, format.order(), field.size, value.number());
            Ok(())
        }
        Base::Text => pack_text(out, format, value, at),
        Base::Nested(nested) => {
            pack_record(out, format, usize::from(nested), value.entries(), at)
        }
    }
}

// A string: the pointer at `at`, then the block of its bytes and a zero.
fn pack_text(out: &mut Vec<u8>, format: &Format, value: &Value, at: usize) -> Result<(), Memory>
    requires inside { at + format.now.pointer ≤ length out.old.items }
    requires small { AreSmall (pack_text (machine_of format.now) at (datum_of value.now)
        (length out.old.items)) }
    ensures { OnOk result
        (out.new.items
        ≡ onto out.old.items (pack_text (machine_of format.now) at (datum_of value.now)
        (length out.old.items))) }
{
    match value {
        Value::Text(text) => {
            let bytes = text.as_slice();
            let block = next_block(out.len());
            let end = block + bytes.len();
            grow(out, end + 1)?;
            put_pointer(out, format, at, block);
            put_bytes(out, block, bytes);
            put_bytes(out, end, &[0]);
        }
        _ => put_pointer(out, format, at, 0),
    }
    Ok(())
}

// The pointer to the block at `block`, or 0.
fn put_pointer(out: &mut Vec<u8>, format: &Format, at: usize, block: usize)
    requires inside { at + format.now.pointer ≤ length out.old.items }
    requires small { block < 2 ^ 32 }
    ensures { out.new.items ≡ put_at at (digits format.now.order format.now.pointer (pos block))
        out.old.items }
{
    let _laid = format.types();
    put_digits(
        out,
        at,
        format.order(),
        u32::from(format.pointer()),
        block as i128,
    );
}

// The elements of a list, or none.
fn listed(value: &Value) -> &[Value]
    ensures { elements_of_values result.now ≡ listed (elements_of (Some (datum_of value.now))) }
{
    match value.elements() {
        Some(values) => values,
        None => &[],
    }
}
