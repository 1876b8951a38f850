//! Transforms: two conversions, and the fields that are set in what they make.
ghost use Rattle.std.specs.Prelude.{◌≤◌, take};
ghost use Rattle.std.specs.Arc.{arc_value};
ghost use Rattle.evp_action.specs.Acting.{transforms};
ghost use Rattle.evp_action.specs.Agreement.{AreSettings};
ghost use Rattle.evp_action.specs.Asking.{transform_pairs};
ghost use Rattle.evp_action.specs.MadeRecord.{record_in};
ghost use Rattle.evp_action.specs.PackedRecord.{bytes_in, LiesInRoom};
ghost use Rattle.evp_action.specs.Settings.{MaySet, IsPackedRecordIn, IsAnswerWithSet};
ghost use Rattle.evp_action.specs.Working.{Works};
ghost use Rattle.evp_cache.specs.Known.{IsCacheOf, IsPassOf};
ghost use Rattle.evp_record.specs.Owned.{HasValueIn};

use crate::converting::{Converter, format_of};
use crate::made::Made;
use crate::packed::Packed;
use crate::refusal::Refusal;
use crate::setting::set_fields;
use crate::{Acted, Setting, To};
use evp_cache::CachePass;
use evp_format::Format;
use evp_plan::Builds;
use evp_record::{Draft, IN_PLACE, Owned};
use evp_runner::empty_room;
use std::alloc::Global;
use std::sync::Arc;

// Converts the record into the two formats one after another, and sends on what is made with its
// fields set.
pub(crate) fn transform(
    alloc: Global,
    converter: &Converter<'_>,
    pass: &mut CachePass,
    builds: &mut Builds,
    item: &Arc<Owned, Global>,
    format: u16,
    into: u16,
    set: &[Setting],
) -> Result<Acted, Refusal>
    requires cache { IsCacheOf converter.now.cache.now converter.now.formats.now }
    requires pass { IsPassOf converter.now.cache.now converter.now.formats.now pass.old }
    requires settings { AreSettings converter.now.formats.now converter.now.cache.now.declared
        format into set.now }
    requires item { HasValueIn converter.now.formats.now (arc_value item.now) }
    ensures { Works converter.now.cache.now converter.now.formats.now (arc_value item.now)
        (transforms converter.now.formats.now converter.now.limit format into set.now
        (arc_value item.now).format)
        (transform_pairs converter.now.formats.now converter.now.limit format into
        (arc_value item.now).format) pass.old pass.new builds.old builds.new result }
{
    let mut room = empty_room();
    let made = converter.convert(alloc, pass, builds, item, format, &mut room)?;
    let mut second = empty_room();
    let packed = converter.packed(alloc, pass, builds, &made, into, &mut second)?;
    with_fields_set(
        alloc,
        converter.formats,
        &made,
        into,
        set,
        packed,
        &mut second,
    )
}

// Sets the fields of a packed record of the format of this number, whose bytes may lie in this room,
// and sends it on.
#[inline(always)]
fn with_fields_set(
    alloc: Global,
    formats: &[Format],
    item: &Made<'_>,
    into: u16,
    set: &[Setting],
    packed: Packed,
    room: &mut [u8; IN_PLACE],
) -> Result<Acted, Refusal>
    requires settings { MaySet formats.now into set.now (record_in item.now) }
    requires item { HasValueIn formats.now (record_in item.now) }
    requires within { LiesInRoom packed }
    requires packed { IsPackedRecordIn formats.now into (bytes_in room.old packed) }
    ensures { IsAnswerWithSet formats.now into set.now (record_in item.now) (bytes_in room.old packed) result }
{
    match packed {
        Packed::InRoom(size) => set_in_room(alloc, formats, item, into, set, size, room),
        Packed::Own(bytes) => set_own(alloc, formats, item, into, set, bytes),
    }
}

// The same of one that is the first so many bytes of this room.
fn set_in_room(
    alloc: Global,
    formats: &[Format],
    item: &Made<'_>,
    into: u16,
    set: &[Setting],
    size: u8,
    room: &mut [u8; IN_PLACE],
) -> Result<Acted, Refusal>
    requires settings { MaySet formats.now into set.now (record_in item.now) }
    requires item { HasValueIn formats.now (record_in item.now) }
    requires within { size ≤ IN_PLACE }
    requires packed { IsPackedRecordIn formats.now into (take size room.old) }
    ensures { IsAnswerWithSet formats.now into set.now (record_in item.now) (take size room.old) result }
{
    let receiver = format_of(formats, into);
    let seen = item.checked(formats);
    set_fields(alloc, &seen, receiver, set, &mut room[..size as usize])?;
    let owned = Draft::new(into, size, room).owned(alloc)?;
    Ok(Acted::Sent(To::All, Arc::new(alloc, owned)?))
}

// The same of one with bytes of its own.
fn set_own(
    alloc: Global,
    formats: &[Format],
    item: &Made<'_>,
    into: u16,
    set: &[Setting],
    mut bytes: Vec<u8>,
) -> Result<Acted, Refusal>
    requires settings { MaySet formats.now into set.now (record_in item.now) }
    requires item { HasValueIn formats.now (record_in item.now) }
    requires packed { IsPackedRecordIn formats.now into bytes.items }
    ensures { IsAnswerWithSet formats.now into set.now (record_in item.now) bytes.items result }
{
    let receiver = format_of(formats, into);
    let seen = item.checked(formats);
    set_fields(alloc, &seen, receiver, set, &mut bytes)?;
    Ok(Acted::Sent(To::All, Arc::new(alloc, Owned::new(into, bytes))?))
}
