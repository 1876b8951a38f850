//! Records in the format that an action names.
ghost use Rattle.std.specs.Prelude.{◌≡◌, ◌<◌, ◌≤◌, ◌^◌, IfOk, IfErr, IfSome, Some, length};
ghost use Rattle.std.specs.Prelude.{replicate, slice_get, take};
ghost use Rattle.std.specs.Arc.{arc_value};
ghost use Rattle.std.specs.Cow.{cow_slice_items, IsBorrowedSlice};
ghost use Rattle.evp_action.specs.Asking.{Keeps, AsksOnly, BuildsFor};
ghost use Rattle.evp_action.specs.Converted.{CanAsk, IsConversionOf, IsPackedConversion};
ghost use Rattle.evp_action.specs.Converted.{IsPackedConversionOf, IsCauseFor, IsClash};
ghost use Rattle.evp_action.specs.Converted.{plan_of, fault_reason, spare};
ghost use Rattle.evp_action.specs.MadeRecord.{record_in};
ghost use Rattle.evp_action.specs.PackedRecord.{bytes_in, LiesInRoom};
ghost use Rattle.evp_cache.specs.Known.{IsFoundFor};
ghost use Rattle.evp_format.specs.Converting.{convert};
ghost use Rattle.evp_format.specs.Layout.{Layout};
ghost use Rattle.evp_plan.specs.Planned.{IsPlanFrom, StandsFor};
ghost use Rattle.evp_record.specs.Owned.{HasValueIn, owned_of};
ghost use Rattle.evp_record.specs.Record.{value_of};
ghost use Rattle.evp_runner.specs.Running.{IsRunFault};

use crate::Reason;
use crate::made::Made;
use crate::packed::Packed;
use crate::refusal::Refusal;
use evp_base::Memory;
use evp_cache::{CachePass, Found, PlanCache};
use evp_format::{Format, path_of};
use evp_plan::{Builds, Plan};
use evp_record::{Checked, Draft, IN_PLACE, KeptBytes, Owned};
use evp_runner::{RunFault, pass, run, run_in_room};
use std::alloc::{AllocError, Global};
use std::borrow::CowSlice;
use std::sync::Arc;

// What conversions are made by: the formats, the cache of their plans, and the length of the
// longest record.
#[derive(Drop)]
pub(crate) struct Converter<'a> {
    pub formats: &'a [Format],
    pub cache: &'a PlanCache,
    pub limit: u32,
}

impl<'a> Converter<'a> {
    // The record in the format of this number: itself where that is the number of its own. A new one
    // that is short lies in this room, which is empty. Inlined, so that what says where a record lies
    // isn't copied from call to call.
    #[inline(always)]
    pub fn convert<'b>(
        &self,
        alloc: Global,
        known: &mut CachePass,
        builds: &mut Builds,
        item: &'b Arc<Owned, Global>,
        to: u16,
        room: &'b mut [u8; IN_PLACE],
    ) -> Result<Made<'b>, Refusal>
        requires ask { CanAsk self.now.cache.now self.now.formats.now known.old (arc_value
            item.now).format to }
        requires has { HasValueIn self.now.formats.now (arc_value item.now) }
        requires zeros { room.old ≡ replicate IN_PLACE 0 }
        ensures made { IfOk result (λ made. IsConversionOf self.now.formats.now to
            self.now.limit (arc_value item.now) (record_in made)) }
        ensures cause { IfErr result (IsCauseFor self.now.formats.now to self.now.limit
            (arc_value item.now)) }
        ensures kept { Keeps self.now.cache.now self.now.formats.now known.old known.new }
        ensures asked { AsksOnly (arc_value item.now).format to known.old known.new }
        ensures builds { BuildsFor (spare result) known.old known.new builds.old builds.new }
    {
        let from = item.format();
        let found = known.get(alloc, self.cache, self.formats, from, to, builds)?;
        self.converted(alloc, found, item, to, room)
    }

    // The record by what was found for the pair of its format and that of this number.
    #[inline(always)]
    fn converted<'b>(
        &self,
        alloc: Global,
        found: &Found,
        item: &'b Arc<Owned, Global>,
        to: u16,
        room: &'b mut [u8; IN_PLACE],
    ) -> Result<Made<'b>, Refusal>
        requires found { IsFoundFor self.now.formats.now (arc_value item.now).format to found.now }
        requires has { HasValueIn self.now.formats.now (arc_value item.now) }
        requires zeros { room.old ≡ replicate IN_PLACE 0 }
        ensures made { IfOk result (λ made. IsConversionOf self.now.formats.now to
            self.now.limit (arc_value item.now) (record_in made)) }
        ensures cause { IfErr result (IsCauseFor self.now.formats.now to self.now.limit
            (arc_value item.now)) }
    {
        let plan = plan_in(found)?;
        if plan.alike() {
            return self.passed(alloc, found, item, to);
        }
        let checked = item.checked(self.formats);
        let bytes = checked.bytes();
        match packed_in_room(plan, &checked, bytes, self.limit, room) {
            Some(size) => Ok(Made::InRoom(Draft::new(to, size, room))),
            None => self.converted_fully(alloc, found, item, to),
        }
    }

    // The same where the two formats are equal: the record itself where their numbers are, too, else
    // a copy.
    #[inline(never)]
    fn passed<'b>(
        &self,
        alloc: Global,
        found: &Found,
        item: &'b Arc<Owned, Global>,
        to: u16,
    ) -> Result<Made<'b>, Refusal>
        requires found { IsFoundFor self.now.formats.now (arc_value item.now).format to found.now }
        requires has { HasValueIn self.now.formats.now (arc_value item.now) }
        ensures made { IfOk result (λ made. IsConversionOf self.now.formats.now to
            self.now.limit (arc_value item.now) (record_in made)) }
        ensures cause { IfErr result (IsCauseFor self.now.formats.now to self.now.limit
            (arc_value item.now)) }
    {
        let plan = plan_in(found)?;
        match pass(alloc, plan, item.checked(self.formats), self.limit) {
            Ok(bytes) => Ok(handed_on(alloc, item, bytes, to)?),
            Err(fault) => {
                let receiver = &self.formats[usize::from(to)];
                Err(Refusal::Cause(fault_reason(alloc, receiver, fault)?))
            }
        }
    }

    // The same with bytes of its own, or the cause of a refusal. Apart from it, since room for a fault
    // is made of zeros first.
    #[inline(never)]
    fn converted_fully<'b>(
        &self,
        alloc: Global,
        found: &Found,
        item: &'b Arc<Owned, Global>,
        to: u16,
    ) -> Result<Made<'b>, Refusal>
        requires found { IsFoundFor self.now.formats.now (arc_value item.now).format to found.now }
        requires has { HasValueIn self.now.formats.now (arc_value item.now) }
        ensures made { IfOk result (λ made. IsConversionOf self.now.formats.now to
            self.now.limit (arc_value item.now) (record_in made)) }
        ensures cause { IfErr result (IsCauseFor self.now.formats.now to self.now.limit
            (arc_value item.now)) }
    {
        let same = Made::Same(item);
        let bytes = self.packed_fully(alloc, found, &same, to)?;
        Ok(Made::Own(Owned::new(to, bytes)))
    }

    // The packed record of the format of this number, in this room, which is empty, or with bytes of
    // its own.
    pub fn packed(
        &self,
        alloc: Global,
        known: &mut CachePass,
        builds: &mut Builds,
        item: &Made<'_>,
        to: u16,
        room: &mut [u8; IN_PLACE],
    ) -> Result<Packed, Refusal>
        requires ask { CanAsk self.now.cache.now self.now.formats.now known.old (record_in item.now).format to }
        requires has { HasValueIn self.now.formats.now (record_in item.now) }
        requires zeros { room.old ≡ replicate IN_PLACE 0 }
        ensures within { IfOk result LiesInRoom }
        ensures made { IfOk result (λ packed. IsPackedConversionOf self.now.formats.now to
            self.now.limit (record_in item.now) (bytes_in room.new packed)) }
        ensures cause { IfErr result (IsCauseFor self.now.formats.now to self.now.limit
            (record_in item.now)) }
        ensures kept { Keeps self.now.cache.now self.now.formats.now known.old known.new }
        ensures asked { AsksOnly (record_in item.now).format to known.old known.new }
        ensures builds { BuildsFor (spare result) known.old known.new builds.old builds.new }
    {
        let from = item.format();
        let found = known.get(alloc, self.cache, self.formats, from, to, builds)?;
        self.packed_by(alloc, found, item, to, room)
    }

    // The packed record by what was found for the pair of its format and that of this number.
    #[inline(always)]
    fn packed_by(
        &self,
        alloc: Global,
        found: &Found,
        item: &Made<'_>,
        to: u16,
        room: &mut [u8; IN_PLACE],
    ) -> Result<Packed, Refusal>
        requires found { IsFoundFor self.now.formats.now (record_in item.now).format to found.now }
        requires has { HasValueIn self.now.formats.now (record_in item.now) }
        requires zeros { room.old ≡ replicate IN_PLACE 0 }
        ensures within { IfOk result LiesInRoom }
        ensures made { IfOk result (λ packed. IsPackedConversionOf self.now.formats.now to
            self.now.limit (record_in item.now) (bytes_in room.new packed)) }
        ensures cause { IfErr result (IsCauseFor self.now.formats.now to self.now.limit
            (record_in item.now)) }
    {
        let plan = plan_in(found)?;
        let checked = item.checked(self.formats);
        let bytes = checked.bytes();
        match packed_in_room(plan, &checked, bytes, self.limit, room) {
            Some(size) => Ok(Packed::InRoom(size)),
            None => Ok(Packed::Own(self.packed_fully(alloc, found, item, to)?)),
        }
    }

    // The same by a plan that was found, with the cause of a refusal. Apart from it, since room for
    // a fault is made of zeros first.
    #[inline(never)]
    fn packed_fully(
        &self,
        alloc: Global,
        found: &Found,
        item: &Made<'_>,
        to: u16,
    ) -> Result<Vec<u8>, Refusal>
        requires found { IsFoundFor self.now.formats.now (record_in item.now).format to found.now }
        requires has { HasValueIn self.now.formats.now (record_in item.now) }
        ensures made { IfOk result (λ bytes. IsPackedConversionOf self.now.formats.now to
            self.now.limit (record_in item.now) bytes.items) }
        ensures cause { IfErr result (IsCauseFor self.now.formats.now to self.now.limit
            (record_in item.now)) }
    {
        let plan = plan_in(found)?;
        let checked = item.checked(self.formats);
        let bytes = checked.bytes();
        match packed_record(alloc, plan, checked, bytes, self.limit) {
            Ok(packed) => Ok(packed),
            Err(fault) => {
                let receiver = &self.formats[usize::from(to)];
                Err(Refusal::Cause(fault_reason(alloc, receiver, fault)?))
            }
        }
    }
}

// The plan that was found, or the clash.
fn plan_in(found: &Found) -> Result<&Plan, Refusal>
    ensures plan { IfOk result (λ plan. plan_of found.now ≡ Some plan.now) }
    ensures clash { IfErr result (λ cause. IsClash found.now cause) }
{
    match found {
        Found::Plan(plan) => Ok(plan),
        Found::Clash(path) => Err(Refusal::Cause(Reason::Clash(path.clone()?))),
    }
}

// The packed conversion of a record, which has these bytes.
fn packed_record(
    alloc: Global,
    plan: &Plan,
    item: Checked<'_>,
    bytes: &[u8],
    limit: u32,
) -> Result<Vec<u8>, RunFault>
    requires own { bytes.now ≡ item.bytes }
    requires plan_from { IsPlanFrom plan.now item.layout }
    ensures packed { IfOk result (λ packed. (to : Layout) → StandsFor plan.now item.entry.layout to
        → IsPackedConversion item.entry to limit packed.items) }
    ensures fault { IfErr result (λ fault. (to : Layout) → StandsFor plan.now item.entry.layout to
        → IsRunFault fault (convert to (value_of item.entry) limit)) }
{
    let _types = item.format().types();
    run(alloc, plan, item, limit)
}

// The same in this room, which is empty, where it is easily made and short: how many of its bytes
// are the record.
#[inline(always)]
fn packed_in_room(
    plan: &Plan,
    item: &Checked<'_>,
    bytes: &[u8],
    limit: u32,
    room: &mut [u8; IN_PLACE],
) -> Option<u8>
    requires own { bytes.now ≡ item.now.bytes }
    requires plan_from { IsPlanFrom plan.now item.now.layout }
    requires zeros { room.old ≡ replicate IN_PLACE 0 }
    ensures within { IfSome result (λ size. size ≤ IN_PLACE) }
    ensures made { IfSome result (λ size. (to : Layout) → StandsFor plan.now item.now.layout to
        → IsPackedConversion item.now to limit (take size room.new)) }
{
    let _types = item.format().types();
    run_in_room(plan, item, limit, room)
}

// Why a record whose conversion has this fault is refused.
fn fault_reason(alloc: Global, receiver: &Format, fault: RunFault) -> Result<Reason, Memory>
    ensures { IfOk result (λ reason. fault_reason receiver.now fault ≡ Some reason) }
{
    match fault {
        RunFault::Unfit(place) => Ok(Reason::Unfit(path_of(alloc, receiver, &place)?)),
        RunFault::Large(place) => Ok(Reason::Large(path_of(alloc, receiver, &place)?)),
        RunFault::Memory => Err(Memory),
    }
}

// A record of the format of this number: the item itself where its own bytes are lent and its
// format has this number, else one of these bytes.
fn handed_on<'b>(
    alloc: Global,
    item: &'b Arc<Owned, Global>,
    bytes: CowSlice<'_, u8>,
    to: u16,
) -> Result<Made<'b>, Memory>
    requires short { length (cow_slice_items bytes) < 2 ^ 32 }
    requires own { IsBorrowedSlice bytes → cow_slice_items bytes ≡ (arc_value item.now).bytes }
    ensures { IfOk result (λ made. record_in made ≡ owned_of to (cow_slice_items bytes.entry)) }
{
    let bytes = match bytes {
        CowSlice::Borrowed(own) => {
            if item.format() == to {
                return Ok(Made::Same(item));
            }
            KeptBytes::copied(alloc, own)?
        }
        CowSlice::Owned(bytes) => KeptBytes::of(bytes),
    };
    Ok(Made::Own(Owned::kept(to, bytes)))
}

// The format of this number.
pub(crate) fn format_of(formats: &[Format], number: u16) -> &Format
    requires { number < length formats.now }
    ensures { slice_get formats.now number ≡ Some result.now }
{
    &formats[usize::from(number)]
}
