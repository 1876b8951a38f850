//! Conversions into bytes of their own, and records that are lent where nothing is to be converted.

ghost use Rattle.std.specs.Prelude.{◌≡◌, ◌≤◌, IfOk, IfErr, IfSome, replicate, take};
ghost use Rattle.evp_format.specs.Converting.{convert};
ghost use Rattle.evp_format.specs.Layout.{Layout};
ghost use Rattle.evp_plan.specs.Planned.{IsPlanFrom, StandsFor};
ghost use Rattle.evp_record.specs.Record.{value_of};
ghost use Rattle.evp_runner.specs.Running.{IsSizeOf, AtSize, IsConversion, IsPassed, IsRunFault};

use crate::RunFault;
use crate::running::{measure_fully, measure_quickly, run_over};
use evp_plan::Plan;
use evp_record::{Checked, IN_PLACE};
use std::alloc::{AllocError, Global};
use std::borrow::CowSlice;

/// The packed record of the receiver's format, in a buffer of its size: the conversion, packed.
/// `Unfit` and `Large` with their place there exactly as the conversion has them, or `Memory`. The
/// plan is one for records of this format.
#[inline(always)]
pub fn run(alloc: Global, plan: &Plan, item: Checked, limit: u32) -> Result<Vec<u8>, RunFault>
    requires { IsPlanFrom plan.now item.layout }
    ensures packed { IfOk result (λ bytes. (to : Layout) → StandsFor plan.now item.entry.layout to
        → IsConversion item.entry to limit bytes.items) }
    ensures fault { IfErr result (λ fault. (to : Layout) → StandsFor plan.now item.entry.layout to
        → IsRunFault fault (convert to (value_of item.entry) limit)) }
{
    match measure_quickly(plan, &item, limit) {
        Some(size) => Ok(packed(alloc, plan, item, size)?),
        None => run_fully(alloc, plan, item, limit),
    }
}

/// The same in this room, which is empty, where it is easily seen that nothing is refused and that at
/// most `IN_PLACE` bytes are made: how many of them are the record. None says that it isn't easily
/// seen. Takes no memory.
#[inline(always)]
pub fn run_in_room(plan: &Plan, item: &Checked, limit: u32, room: &mut [u8; IN_PLACE]) -> Option<u8>
    requires plan_from { IsPlanFrom plan.now item.now.layout }
    requires zeros { room.old ≡ replicate IN_PLACE 0 }
    ensures within { IfSome result (λ size. size ≤ IN_PLACE) }
    ensures made { IfSome result (λ size. (to : Layout) → StandsFor plan.now item.now.layout to
        → IsConversion item.now to limit (take size room.new)) }
{
    let size = measure_quickly(plan, item, limit)?;
    if size as usize > IN_PLACE {
        return None;
    }
    pack_in_room(plan, item.copy(), size, room);
    Some(size as u8)
}

/// Room in which a short record may be made: zeros.
#[inline(always)]
pub fn empty_room() -> [u8; IN_PLACE]
    ensures { result ≡ replicate IN_PLACE 0 }
{
    [0; IN_PLACE]
}

// The same as `run`, with the place of a fault. Room for a fault is made of zeros where the function
// begins that calls what stands apart: with this one between, only where it is called.
#[inline(always)]
fn run_fully(alloc: Global, plan: &Plan, item: Checked, limit: u32) -> Result<Vec<u8>, RunFault>
    requires { IsPlanFrom plan.now item.layout }
    ensures packed { IfOk result (λ bytes. (to : Layout) → StandsFor plan.now item.entry.layout to
        → IsConversion item.entry to limit bytes.items) }
    ensures fault { IfErr result (λ fault. (to : Layout) → StandsFor plan.now item.entry.layout to
        → IsRunFault fault (convert to (value_of item.entry) limit)) }
{
    run_whole(alloc, plan, item, limit)
}

// The same, apart from its callers.
#[inline(never)]
fn run_whole(alloc: Global, plan: &Plan, item: Checked, limit: u32) -> Result<Vec<u8>, RunFault>
    requires { IsPlanFrom plan.now item.layout }
    ensures packed { IfOk result (λ bytes. (to : Layout) → StandsFor plan.now item.entry.layout to
        → IsConversion item.entry to limit bytes.items) }
    ensures fault { IfErr result (λ fault. (to : Layout) → StandsFor plan.now item.entry.layout to
        → IsRunFault fault (convert to (value_of item.entry) limit)) }
{
    match measure_fully(plan, item.copy(), limit) {
        Ok(size) => Ok(packed_apart(alloc, plan, item, size)?),
        Err(fault) => Err(RunFault::from(fault)),
    }
}

/// Bytes that have the converted value in the receiver's format: the record's own bytes, lent,
/// exactly where the two formats are equal, else the packed record. `Unfit`, `Large` and `Memory`
/// as `run` has them; so `Large` also where the formats are equal and the packed record would pass
/// the limit. The plan is one for records of this format.
#[inline(always)]
pub fn pass<'a>(
    alloc: Global,
    plan: &Plan,
    item: Checked<'a>,
    limit: u32,
) -> Result<CowSlice<'a, u8>, RunFault>
    requires { IsPlanFrom plan.now item.layout }
    ensures passed { IfOk result (λ bytes. (to : Layout) → StandsFor plan.now item.entry.layout to
        → IsPassed item.entry to limit bytes) }
    ensures fault { IfErr result (λ fault. (to : Layout) → StandsFor plan.now item.entry.layout to
        → IsRunFault fault (convert to (value_of item.entry) limit)) }
{
    match measure_quickly(plan, &item, limit) {
        Some(size) => {
            let bytes = item.bytes();
            Ok(handed_on(alloc, plan, item, bytes, size)?)
        }
        None => pass_fully(alloc, plan, item, limit),
    }
}

// The same as `pass`, with the place of a fault; between it and what stands apart, as `run_fully`.
#[inline(always)]
fn pass_fully<'a>(
    alloc: Global,
    plan: &Plan,
    item: Checked<'a>,
    limit: u32,
) -> Result<CowSlice<'a, u8>, RunFault>
    requires { IsPlanFrom plan.now item.layout }
    ensures passed { IfOk result (λ bytes. (to : Layout) → StandsFor plan.now item.entry.layout to
        → IsPassed item.entry to limit bytes) }
    ensures fault { IfErr result (λ fault. (to : Layout) → StandsFor plan.now item.entry.layout to
        → IsRunFault fault (convert to (value_of item.entry) limit)) }
{
    pass_whole(alloc, plan, item, limit)
}

// The same, apart from its callers.
#[inline(never)]
fn pass_whole<'a>(
    alloc: Global,
    plan: &Plan,
    item: Checked<'a>,
    limit: u32,
) -> Result<CowSlice<'a, u8>, RunFault>
    requires { IsPlanFrom plan.now item.layout }
    ensures passed { IfOk result (λ bytes. (to : Layout) → StandsFor plan.now item.entry.layout to
        → IsPassed item.entry to limit bytes) }
    ensures fault { IfErr result (λ fault. (to : Layout) → StandsFor plan.now item.entry.layout to
        → IsRunFault fault (convert to (value_of item.entry) limit)) }
{
    match measure_fully(plan, item.copy(), limit) {
        Ok(size) => {
            let bytes = item.bytes();
            Ok(handed_on(alloc, plan, item, bytes, size)?)
        }
        Err(fault) => Err(RunFault::from(fault)),
    }
}

// The record's own bytes, lent, where the formats are equal, else its packed conversion of this
// size.
#[inline(always)]
fn handed_on<'a>(
    alloc: Global,
    plan: &Plan,
    item: Checked<'a>,
    bytes: &'a [u8],
    size: u32,
) -> Result<CowSlice<'a, u8>, AllocError>
    requires own { bytes.now ≡ item.bytes }
    requires plan_from { IsPlanFrom plan.now item.layout }
    requires size { IsSizeOf plan.now item size }
    ensures { IfOk result (λ bytes. AtSize plan.now item.entry size (λ to limit.
        IsPassed item.entry to limit bytes)) }
{
    let _types = item.format().types();
    if plan.alike() {
        return Ok(CowSlice::Borrowed(bytes));
    }
    Ok(CowSlice::Owned(packed_apart(alloc, plan, item, size)?))
}

// The packed conversion, of this size.
#[inline(always)]
fn packed(alloc: Global, plan: &Plan, item: Checked, size: u32) -> Result<Vec<u8>, AllocError>
    requires plan_from { IsPlanFrom plan.now item.layout }
    requires size { IsSizeOf plan.now item size }
    ensures { IfOk result (λ bytes. AtSize plan.now item.entry size (λ to limit.
        IsConversion item.entry to limit bytes.items)) }
{
    let mut bytes = vec![in alloc; 0u8; size as usize]?;
    run_over(plan, item, &mut bytes, true);
    Ok(bytes)
}

// The same, in this room, which is empty.
#[inline(always)]
fn pack_in_room(plan: &Plan, item: Checked, size: u32, room: &mut [u8; IN_PLACE])
    requires plan_from { IsPlanFrom plan.now item.layout }
    requires size { IsSizeOf plan.now item size }
    requires within { size ≤ IN_PLACE }
    requires zeros { room.old ≡ replicate IN_PLACE 0 }
    ensures { AtSize plan.now item.entry size (λ to limit.
        IsConversion item.entry to limit (take size room.new)) }
{
    run_over(plan, item, &mut room[..size as usize], true);
}

// The same, where room for it is made only here.
#[inline(never)]
fn packed_apart(alloc: Global, plan: &Plan, item: Checked, size: u32) -> Result<Vec<u8>, AllocError>
    requires plan_from { IsPlanFrom plan.now item.layout }
    requires size { IsSizeOf plan.now item size }
    ensures { IfOk result (λ bytes. AtSize plan.now item.entry size (λ to limit.
        IsConversion item.entry to limit bytes.items)) }
{
    packed(alloc, plan, item, size)
}
