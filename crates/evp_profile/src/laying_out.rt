//! Laying out declared types.

ghost use Rattle.std.specs.Prelude.{◌≡◌, ◌<◌, ◌≤◌, ◌^◌, [], length, IfOk, All};
ghost use Rattle.evp_format.specs.Steps.{Gives};
ghost use Rattle.evp_format.specs.Tree.{trees};
ghost use Rattle.evp_profile.specs.CLayout.{IsCLayout};
ghost use Rattle.evp_profile.specs.Declarations.{type_declared, types_declared};
ghost use Rattle.evp_profile.specs.LayingOut.{within_length, laid_type, laid_types, by_profile};
ghost use Rattle.evp_profile.specs.Placing.{placed_type};
ghost use Rattle.evp_profile.specs.Sizes.{HasNumberSize};

use crate::laid_types::LaidTypes;
use crate::placing::{length_of_fields, placed_fields};
use crate::stated::stated_fields;
use crate::{Profile, TypeDecl};
use evp_format::{Fields, Format, LayoutFault, RecordType, Which};
use std::alloc::Global;

/// The format of the declared types as a C compiler lays them out for a machine (C99, section
/// 6.7.2.1, leaves the padding to the machine): a field stands at the least multiple of its
/// alignment at or after the end of the one before it, and a type's length is rounded up to its
/// greatest alignment. A number's alignment is its size, but no more than the machine's greatest; a
/// string's or a counted array's is a pointer's, a nested record's is its greatest field's, a
/// static array's is its element's.
///
/// Otherwise the first fault, type by type, and in a type field by field:
/// - `Limit(Types, n)` unless there are 1 to 64 types;
/// - a type's `BadName` and `TypeTwice`, then `Limit(Fields, n)` unless it has 1 to 1,024 fields,
///   and `Limit(AllFields, n)` where all types so far have more than 4,096;
/// - a field's `BadName`, `Twice`, `TypeText`, `Float`, `UnknownType`, `Size`, `Default`;
/// - at a type's end `CountField`, `CountDefault`, `Limit(Nesting, n)`, and `Limit(Length, n)`
///   where its length is above 65,536, n being 2^32 - 1 for one that is more.
///
/// `Memory` where the format could not be stored.
pub fn lay_out(alloc: Global, profile: Profile, types: &[TypeDecl]) -> Result<Format, LayoutFault>
    requires types { length types.now < 2 ^ 32 }
    requires fields { All (λ declared. length declared.fields.items < 2 ^ 32) types.now }
    ensures value { Gives (λ format. format) result
        (by_profile profile (types_declared types.now)) }
    ensures as_in_c { IfOk result (IsCLayout profile) }
{
    let count = types.len();
    if count < 1 || 64 < count {
        return Err(LayoutFault::Limit(Which::Types, count as u32));
    }
    let laid = laid_types(alloc, profile, types)?;
    let format = laid.into_format(alloc)?;
    Ok(format)
}

// The types, or the first fault.
fn laid_types(
    alloc: Global,
    profile: Profile,
    declared: &[TypeDecl],
) -> Result<LaidTypes, LayoutFault>
    requires few { length declared.now ≤ 64 }
    requires fields { All (λ declared. length declared.fields.items < 2 ^ 32) declared.now }
    ensures value { Gives (λ laid. laid.types) result
        (laid_types profile [] (types_declared declared.now)) }
    ensures profile { IfOk result (λ laid. laid.profile ≡ profile) }
    ensures number { IfOk result (λ laid. length laid.types ≡ length declared.now) }
{
    let mut laid = LaidTypes::new(alloc, profile);
    for declaration in declared {
        let record_type = laid_type(alloc, &laid, declaration)?;
        laid.push(record_type)?;
    }
    Ok(laid)
}

// A type behind these.
#[tactic(auto, unfolding(crate::specs::LayingOut::laid_type))]
fn laid_type(
    alloc: Global,
    earlier: &LaidTypes,
    declared: &TypeDecl,
) -> Result<RecordType, LayoutFault>
    requires { length declared.now.fields.items < 2 ^ 32 }
    ensures { Gives (λ type. type) result
        (laid_type earlier.now.profile earlier.now.types (type_declared declared.now)) }
{
    let types = earlier.so_far();
    let name = types.type_name(declared.name.as_bytes())?;
    types.field_count(declared.fields.len() as u32)?;
    let drafts = stated_fields(alloc, types, &declared.fields)?;
    let unplaced = types.end_fields(alloc, name, 0, &drafts)?;
    placed_type(alloc, earlier, &unplaced)
}

// The type with its fields at their offsets, and its length.
#[tactic(auto, unfolding(crate::specs::LayingOut::within_length))]
fn placed_type(
    alloc: Global,
    earlier: &LaidTypes,
    unplaced: &RecordType,
) -> Result<RecordType, LayoutFault>
    requires { All HasNumberSize unplaced.now.fields }
    ensures { Gives (λ type. type) result
        (within_length (placed_type earlier.now.profile (trees earlier.now.types) unplaced.now)) }
{
    let fields = unplaced.fields.as_slice();
    let length = length_of_fields(earlier, fields);
    if length > 65536 {
        return Err(LayoutFault::Limit(Which::Length, length));
    }
    let placed = placed_fields(alloc, earlier, fields)?;
    Ok(RecordType {
        name: unplaced.name,
        length,
        fields: Fields::from_vec(placed),
    })
}
