//! Where two formats clash.

ghost use Rattle.std.specs.Prelude.{◌≡◌, ◌<◌, ◌∷◌, ℕ, List, IfOk, IfSome, Some, option_map};
ghost use Rattle.std.specs.Prelude.{slice_get, length, take};
ghost use Rattle.evp_base.specs.declared.step.Step.{Step};
ghost use Rattle.evp_format.specs.Class.{class_of, content_of, same_class, same_content};
ghost use Rattle.evp_format.specs.Clashing.{clash, clash_trees, clash_field, branch_named};
ghost use Rattle.evp_format.specs.Tree.{Tree, tree_of, trees, part_of, branches_of};
ghost use Rattle.evp_format.specs.WellLaid.{HasBaseSize};

use crate::path::nested_type;
use crate::{Base, Field, Format, Shape};
use evp_base::{FieldPath, Memory, Name, Step};
use std::alloc::Global;

/// The path of the first clash of two formats, or `None` where they don't clash: the first field of
/// the receiver's record, gone through as listed and into nested matched types at once, whose
/// partner of that name in the sender's has another class. The path has names only. It calls itself
/// once for each level of nested types, at most 16.
pub fn clash_of(alloc: Global, from: &Format, to: &Format) -> Result<Option<FieldPath>, Memory>
    ensures { IfOk result (λ found. found ≡ clash from.now to.now) }
{
    let sender = from.types().len() - 1;
    let receiver = to.types().len() - 1;
    clash_of_types(alloc, from, sender, to, receiver)
}

// The first clash of the two types.
#[cycle(clash)]
fn clash_of_types(
    alloc: Global,
    from: &Format,
    sender: usize,
    to: &Format,
    receiver: usize,
) -> Result<Option<FieldPath>, Memory>
    requires sender_there { sender < length from.now.types }
    requires receiver_there { receiver < length to.now.types }
    ensures { IfOk result
        (λ found. found ≡ clash_trees (tree_of from.now sender) (tree_of to.now receiver)) }
{
    let fields = to.types()[receiver].fields.as_slice();
    for field in fields {
        let found = clash_of_field(alloc, from, sender, to, receiver, field)?;
        if let Some(path) = found {
            return Ok(Some(path));
        }
    }
    Ok(None)
}

// The first clash of a field of the receiver's type with the sender's field of its name.
#[cycle(clash)]
fn clash_of_field(
    alloc: Global,
    from: &Format,
    sender: usize,
    to: &Format,
    receiver: usize,
    field: &Field,
) -> Result<Option<FieldPath>, Memory>
    requires sender_there { sender < length from.now.types }
    requires sized { HasBaseSize to.now.pointer (take receiver to.now.types) field.now.base
        field.now.size }
    ensures { IfOk result
        (λ found. found ≡ clash_field (tree_of from.now sender) field.now
        (part_of (trees to.now.types) field.now.base)) }
{
    let partners = from.types()[sender].fields.as_slice();
    let Some(partner) = field_named(partners, field.name) else {
        return Ok(None);
    };
    if !same_class(partner, field) {
        return Ok(Some(behind(field.name, FieldPath::new(alloc))?));
    }
    let Some(inner) = nested_type(partner) else {
        return Ok(None);
    };
    let Some(nested) = nested_type(field) else {
        return Ok(None);
    };
    let Some(path) = clash_of_types(alloc, from, inner, to, nested)? else {
        return Ok(None);
    };
    Ok(Some(behind(field.name, path)?))
}

// The path that begins with the field of this name.
fn behind(name: Name, path: FieldPath) -> Result<FieldPath, Memory>
    ensures { IfOk result (λ longer. longer ≡ Step.Field name ∷ path) }
{
    let mut steps = path.into_steps();
    steps.insert(0, Step::Field(name))?;
    Ok(FieldPath::from_steps(steps))
}

// The field of this name.
fn field_named(fields: &[Field], name: Name) -> Option<&Field>
    ensures value { (earlier : List Tree) → branch_named name (branches_of earlier fields.now)
        ≡ option_map (λ field. (field.now, part_of earlier field.now.base)) result }
    ensures inside { IfSome result (λ field. (k : ℕ) × (slice_get fields.now k ≡ Some field.now)) }
{
    for field in fields {
        if name == field.name {
            return Some(field);
        }
    }
    None
}

// Whether the two are of one class: numbers, texts, records, or arrays of one of these.
fn same_class(field: &Field, other: &Field) -> bool
    ensures { result ≡ same_class (class_of field.now) (class_of other.now) }
{
    match (field.shape, other.shape) {
        (Shape::One, Shape::One)
        | (Shape::Fixed(_) | Shape::Counted(_), Shape::Fixed(_) | Shape::Counted(_)) => {
            same_content(field.base, other.base)
        }
        _ => false,
    }
}

// Whether both are numbers, texts or records.
fn same_content(base: Base, other: Base) -> bool
    ensures { result ≡ same_content (content_of base) (content_of other) }
{
    match (base, other) {
        (Base::Number(_), Base::Number(_)) => true,
        (Base::Text, Base::Text) => true,
        (Base::Nested(_), Base::Nested(_)) => true,
        _ => false,
    }
}
