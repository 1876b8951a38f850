//! Running plans.

ghost use Rattle.std.specs.Prelude.{◌≡◌, ◌*◌, ◌^◌, ◌<◌, ◌≤◌, ℕ, IsTrue, length, replicate, IfOk, IfSome};
ghost use Rattle.std.specs.Prelude.{IfErr, Ok};
ghost use Rattle.evp_base.specs.Numbers.{is_width};
ghost use Rattle.evp_format.specs.Converting.{convert};
ghost use Rattle.evp_format.specs.Layout.{Layout};
ghost use Rattle.evp_format.specs.Viewing.{image_of};
ghost use Rattle.evp_plan.specs.Planned.{IsPlanFrom, StandsFor, measured_whole};
ghost use Rattle.evp_record.specs.Record.{IsRecord, record_of, value_of};
ghost use Rattle.evp_runner.specs.Outcome.{outcome};
ghost use Rattle.evp_runner.specs.Running.{IsSizeOf, AreConverted};
ghost use Rattle.evp_runner.specs.StepIn.{image_in};

use crate::ConvertFault;
use crate::filling::fill_numbers;
use crate::laying::lay;
use crate::measuring::{Measure, measure_record};
use crate::moving::{Move, move_record};
use crate::quick::quick_record;
use crate::sender::{Sender, are_bytes};
use crate::sizing::laid_size;
use evp_format::{Format, Place};
use evp_plan::Plan;
use evp_record::Checked;
use evp_wide::clear;

/// The packed size of a record in the receiver's format, in bytes, or the first fault with its
/// place there: `Unfit` and `Large` exactly as the conversion has them. The plan is one for records
/// of this format. Takes no memory. It calls itself once for each level of nested types, at most
/// 16.
#[inline(always)]
pub fn measure(plan: &Plan, item: Checked, limit: u32) -> Result<u32, ConvertFault>
    requires { IsPlanFrom plan.now item.layout }
    ensures value { (to : Layout) → StandsFor plan.now item.entry.layout to
        → result ≡ outcome (convert to (value_of item.entry) limit) }
    ensures size { IfOk result (λ size. IsSizeOf plan.now item.entry size) }
{
    match measure_quickly(plan, &item, limit) {
        Some(size) => Ok(size),
        None => measure_fully(plan, item, limit),
    }
}

/// The packed size, where it is easily seen that nothing is refused. No room for a fault is made.
#[inline(always)]
pub(crate) fn measure_quickly(plan: &Plan, item: &Checked, limit: u32) -> Option<u32>
    requires { IsPlanFrom plan.now item.now.layout }
    ensures value { IfSome result (λ size. (to : Layout) → StandsFor plan.now item.now.layout to
        → Ok size ≡ outcome (convert to (value_of item.now) limit)) }
    ensures size { IfSome result (λ size. IsSizeOf plan.now item.now size) }
{
    let _held = item.bytes();
    if let Some(size) = told_whole(plan, item, limit) {
        return Some(size);
    }
    let size = untold_whole(plan, item, limit)?;
    Some(size)
}

// The packed size, where the plan tests numbers alone, and windows tell that each of them fits. It is
// asked first: where it answers, nothing else is to be asked.
#[inline(always)]
fn told_whole(plan: &Plan, item: &Checked, limit: u32) -> Option<u32>
    requires { IsPlanFrom plan.now item.now.layout }
    ensures { IfSome result (λ size. Ok size
        ≡ outcome (measured_whole plan.now (image_of item.now.layout item.now.bytes) limit)) }
{
    if plan.fixed() > limit {
        return None;
    }
    if is_told(plan, item) {
        return Some(plan.fixed());
    }
    None
}

// The packed size, where another way shows easily that nothing is refused.
#[inline(always)]
fn untold_whole(plan: &Plan, item: &Checked, limit: u32) -> Option<u32>
    requires { IsPlanFrom plan.now item.now.layout }
    ensures { IfSome result (λ size. Ok size
        ≡ outcome (measured_whole plan.now (image_of item.now.layout item.now.bytes) limit)) }
{
    if let Some(size) = laid_whole(plan, item, limit) {
        return Some(size);
    }
    quick_whole(plan, item, limit)
}

// The packed size, where the record is made without a look at its steps, and its texts' ends stand
// near.
#[inline(always)]
fn laid_whole(plan: &Plan, item: &Checked, limit: u32) -> Option<u32>
    requires { IsPlanFrom plan.now item.now.layout }
    ensures { IfSome result (λ size. Ok size
        ≡ outcome (measured_whole plan.now (image_of item.now.layout item.now.bytes) limit)) }
{
    let _held = item.bytes();
    let sender = sender_of(item);
    let laid = plan.laid()?;
    let fixed = plan.fixed() as usize;
    let size = laid_size(laid.blocks(), sender.bytes, sender.order, fixed, limit)?;
    Some(size as u32)
}

// The packed size, where it is easily seen that nothing is refused: without a call where the plan
// can refuse nothing.
#[inline(always)]
fn quick_whole(plan: &Plan, item: &Checked, limit: u32) -> Option<u32>
    requires { IsPlanFrom plan.now item.now.layout }
    ensures { IfSome result (λ size. Ok size
        ≡ outcome (measured_whole plan.now (image_of item.now.layout item.now.bytes) limit)) }
{
    if plan.fixed() > limit {
        return None;
    }
    let tests = plan.quick();
    let list = tests.as_slice();
    if list.is_empty() {
        let bytes = item.bytes();
        are_bytes(bytes);
        return Some(plan.fixed());
    }
    tested_whole(plan, item.format(), item.bytes(), limit)
}

// Whether the plan tests numbers alone, and windows tell that each of them fits.
#[inline(always)]
fn is_told(plan: &Plan, item: &Checked) -> bool
    requires { IsPlanFrom plan.now item.now.layout }
    ensures { IsTrue result → (limit : ℕ) → plan.now.fixed ≤ limit → Ok plan.now.fixed
        ≡ outcome (measured_whole plan.now (image_of item.now.layout item.now.bytes) limit) }
{
    let _held = item.bytes();
    let sender = sender_of(item);
    let _tests = plan.quick();
    plan.is_told(sender.bytes)
}

// The packed size, where the tests of the plan easily show that nothing is refused. It takes the
// record's parts, as what stands apart does: so no caller has to hold a record in memory for it.
#[inline(never)]
fn tested_whole(plan: &Plan, format: &Format, bytes: &[u8], limit: u32) -> Option<u32>
    requires held { IsRecord (record_of format.now bytes.now) }
    requires plan_from { IsPlanFrom plan.now format.now }
    requires within { plan.now.fixed ≤ limit }
    ensures { IfSome result (λ size. Ok size
        ≡ outcome (measured_whole plan.now (image_of format.now bytes.now) limit)) }
{
    let sender = sender_by(format, bytes);
    let measure = Measure {
        plan,
        sender,
        limit,
    };
    match quick_record(&measure, 0, plan.fixed() as usize) {
        Some(size) => Some(size as u32),
        None => None,
    }
}

/// The same as `measure`, with the place of a fault.
#[inline(always)]
pub(crate) fn measure_fully(plan: &Plan, item: Checked, limit: u32) -> Result<u32, ConvertFault>
    requires { IsPlanFrom plan.now item.layout }
    ensures value { (to : Layout) → StandsFor plan.now item.entry.layout to
        → result ≡ outcome (convert to (value_of item.entry) limit) }
    ensures size { IfOk result (λ size. IsSizeOf plan.now item.entry size) }
{
    measure_whole(plan, item.format(), item.bytes(), limit)
}

// The packed size, or the first fault. Apart from its callers, since room for a fault is made of
// zeros first.
#[inline(never)]
fn measure_whole(
    plan: &Plan,
    format: &Format,
    bytes: &[u8],
    limit: u32,
) -> Result<u32, ConvertFault>
    requires held { IsRecord (record_of format.now bytes.now) }
    requires plan_from { IsPlanFrom plan.now format.now }
    ensures { result ≡ outcome (measured_whole plan.now (image_of format.now bytes.now) limit) }
{
    let fixed = plan.fixed();
    if fixed > limit {
        return Err(ConvertFault::Large(Place::root()));
    }
    let sender = sender_by(format, bytes);
    let measure = Measure {
        plan,
        sender,
        limit,
    };
    let lists = plan.table();
    let count = lists.len();
    let place = Place::root();
    let size = measure_record(&measure, count - 1, 0, &place, fixed as usize)?;
    Ok(size as u32)
}

// The record's bytes, and how its machine stores numbers.
#[inline(always)]
fn sender_of<'a>(item: &Checked<'a>) -> Sender<'a>
    ensures { image_in result ≡ image_of item.now.layout item.now.bytes }
{
    sender_by(item.format(), item.bytes())
}

// The same by the parts of the record.
#[inline(always)]
fn sender_by<'a>(format: &Format, bytes: &'a [u8]) -> Sender<'a>
    requires { IsRecord (record_of format.now bytes.now) }
    ensures { image_in result ≡ image_of format.now bytes.now }
{
    let _types = format.types();
    are_bytes(bytes);
    Sender {
        bytes,
        order: format.order(),
        pointer: format.pointer(),
    }
}

/// Writes the packed record of the receiver's format over all of `out`, whatever stood there: the
/// conversion, packed. `measure` answered the length of `out` for some limit. Takes no memory.
#[inline(always)]
pub fn run_into(plan: &Plan, item: Checked, out: &mut [u8])
    requires plan_from { IsPlanFrom plan.now item.layout }
    requires size { IsSizeOf plan.now item (length out.old) }
    ensures { AreConverted plan.now item.entry out.new }
{
    run_over(plan, item, out, false)
}

/// The same, where it may be known that `out` is zero.
#[inline(always)]
pub(crate) fn run_over(plan: &Plan, item: Checked, out: &mut [u8], is_zero: bool)
    requires plan_from { IsPlanFrom plan.now item.layout }
    requires size { IsSizeOf plan.now item (length out.old) }
    requires zero { IsTrue is_zero → out.old ≡ replicate (length out.old) 0 }
    ensures { AreConverted plan.now item.entry out.new }
{
    let _held = item.bytes();
    let sender = sender_of(&item);
    if let Some(moves) = plan.whole() {
        moves.run(out, 0, sender.bytes, 0);
        return;
    }
    run_apart(plan, item.format(), item.bytes(), out, is_zero)
}

// The same where gathers don't make all of it. Apart from its callers, which would grow too large to
// stand in theirs; it takes a record's parts, as `tested_whole` does.
#[inline(never)]
fn run_apart(plan: &Plan, format: &Format, bytes: &[u8], out: &mut [u8], is_zero: bool)
    requires held { IsRecord (record_of format.now bytes.now) }
    requires plan_from { IsPlanFrom plan.now format.now }
    requires size { IsSizeOf plan.now (record_of format.now bytes.now) (length out.old) }
    requires zero { IsTrue is_zero → out.old ≡ replicate (length out.old) 0 }
    ensures { AreConverted plan.now (record_of format.now bytes.now) out.new }
{
    if let Some(laid) = plan.laid() {
        let sender = sender_by(format, bytes);
        if lay(plan, laid, sender.bytes, sender.order, out) {
            return;
        }
        run_steps(plan, format, bytes, out, false);
        return;
    }
    run_steps(plan, format, bytes, out, is_zero)
}

// The same by the steps.
#[inline(never)]
fn run_steps(plan: &Plan, format: &Format, bytes: &[u8], out: &mut [u8], is_zero: bool)
    requires held { IsRecord (record_of format.now bytes.now) }
    requires plan_from { IsPlanFrom plan.now format.now }
    requires size { IsSizeOf plan.now (record_of format.now bytes.now) (length out.old) }
    requires zero { IsTrue is_zero → out.old ≡ replicate (length out.old) 0 }
    ensures { AreConverted plan.now (record_of format.now bytes.now) out.new }
{
    let sender = sender_by(format, bytes);
    let work = Move { plan, sender };
    let lists = plan.table();
    let count = lists.len();
    if fill_numbers(&work, count - 1, out) {
        return;
    }
    clear_out(out, is_zero);
    let fixed = plan.fixed() as usize;
    let _end = move_record(&work, count - 1, 0, out, 0, fixed);
}

// Zeros all of it, where it isn't zero yet.
#[inline(always)]
fn clear_out(out: &mut [u8], is_zero: bool)
    requires { IsTrue is_zero → out.old ≡ replicate (length out.old) 0 }
    ensures { out.new ≡ replicate (length out.old) 0 }
{
    if !is_zero {
        clear(out);
    }
}
