//! Terminals, filters and routers: where a record goes once it is converted.
ghost use Rattle.std.specs.Prelude.{◌≡◌, [], ◌∷◌, Some, None, slice_get};
ghost use Rattle.std.specs.Arc.{arc_value};
ghost use Rattle.evp_action.specs.Acting.{reason_of, then_number, filtered, routed};
ghost use Rattle.evp_action.specs.Acting.{receives, filters, routes};
ghost use Rattle.evp_action.specs.Converted.{CanAsk};
ghost use Rattle.evp_action.specs.MadeRecord.{record_in};
ghost use Rattle.evp_action.specs.Performed.{HasValue};
ghost use Rattle.evp_action.specs.Working.{IsAnswer, Works};
ghost use Rattle.evp_eval.specs.Value.{value as value_over};
ghost use Rattle.evp_format.specs.Datum.{Datum};
ghost use Rattle.evp_record.specs.Owned.{HasValueIn};

use crate::converting::Converter;
use crate::made::Made;
use crate::refusal::Refusal;
use crate::{Acted, Reason, To};
use evp_cache::CachePass;
use evp_eval::{Bound, EvalFault, eval};
use evp_format::Format;
use evp_plan::Builds;
use evp_record::Owned;
use evp_runner::empty_room;
use std::alloc::Global;
use std::sync::Arc;

// Receives the record in the format of this number.
pub(crate) fn receive(
    alloc: Global,
    converter: &Converter<'_>,
    pass: &mut CachePass,
    builds: &mut Builds,
    item: &Arc<Owned, Global>,
    format: u16,
) -> Result<Acted, Refusal>
    requires ask { CanAsk converter.now.cache.now converter.now.formats.now pass.old
        (arc_value item.now).format format }
    requires has { HasValueIn converter.now.formats.now (arc_value item.now) }
    ensures { Works converter.now.cache.now converter.now.formats.now (arc_value item.now)
        (receives converter.now.formats.now converter.now.limit format
        (arc_value item.now).format)
        (λ _. ((arc_value item.now).format, format) ∷ []) pass.old pass.new
        builds.old builds.new result }
{
    let mut room = empty_room();
    let made = converter.convert(alloc, pass, builds, item, format, &mut room)?;
    Ok(Acted::Arrived(made.into_arc(alloc)?))
}

// Sends the record on in the format of this number where the test isn't 0.
pub(crate) fn filter(
    alloc: Global,
    converter: &Converter<'_>,
    pass: &mut CachePass,
    builds: &mut Builds,
    item: &Arc<Owned, Global>,
    format: u16,
    test: &Bound,
) -> Result<Acted, Refusal>
    requires ask { CanAsk converter.now.cache.now converter.now.formats.now pass.old
        (arc_value item.now).format format }
    requires has { HasValueIn converter.now.formats.now (arc_value item.now) }
    requires bound { slice_get converter.now.formats.now format ≡ Some test.now.layout }
    ensures { Works converter.now.cache.now converter.now.formats.now (arc_value item.now)
        (filters converter.now.formats.now converter.now.limit format test.now
        (arc_value item.now).format)
        (λ _. ((arc_value item.now).format, format) ∷ []) pass.old pass.new
        builds.old builds.new result }
{
    let mut room = empty_room();
    let made = converter.convert(alloc, pass, builds, item, format, &mut room)?;
    filtered(alloc, converter.formats, test, made)
}

// Sends the record on in the format of this number, to the target that the expression gives.
pub(crate) fn route(
    alloc: Global,
    converter: &Converter<'_>,
    pass: &mut CachePass,
    builds: &mut Builds,
    item: &Arc<Owned, Global>,
    format: u16,
    targets: u16,
    choose: &Bound,
) -> Result<Acted, Refusal>
    requires ask { CanAsk converter.now.cache.now converter.now.formats.now pass.old
        (arc_value item.now).format format }
    requires has { HasValueIn converter.now.formats.now (arc_value item.now) }
    requires bound { slice_get converter.now.formats.now format ≡ Some choose.now.layout }
    ensures { Works converter.now.cache.now converter.now.formats.now (arc_value item.now)
        (routes converter.now.formats.now converter.now.limit format choose.now targets
        (arc_value item.now).format)
        (λ _. ((arc_value item.now).format, format) ∷ []) pass.old pass.new
        builds.old builds.new result }
{
    let mut room = empty_room();
    let made = converter.convert(alloc, pass, builds, item, format, &mut room)?;
    routed(alloc, converter.formats, targets, choose, made)
}

// Sends the record on where the test isn't 0.
#[inline(always)]
fn filtered(
    alloc: Global,
    formats: &[Format],
    test: &Bound,
    made: Made<'_>,
) -> Result<Acted, Refusal>
    requires bound { slice_get formats.now (record_in made).format ≡ Some test.now.layout }
    requires has { HasValueIn formats.now (record_in made) }
    ensures { (value : Datum) → HasValue formats.now (record_in made.entry) value
        → IsAnswer formats.now (then_number None (value_over test.now.tree value)
        (filtered (record_in made.entry).format value)) result }
{
    let number = match eval(test, made.checked(formats)) {
        Ok(number) => number,
        Err(fault) => return Ok(Acted::Refused(reason_of(None, fault))),
    };
    if number == 0 {
        return Ok(Acted::Dropped);
    }
    Ok(Acted::Sent(To::All, made.into_arc(alloc)?))
}

// Sends the record to the target at the position that the expression gives, where there is one.
#[inline(always)]
fn routed(
    alloc: Global,
    formats: &[Format],
    targets: u16,
    choose: &Bound,
    made: Made<'_>,
) -> Result<Acted, Refusal>
    requires bound { slice_get formats.now (record_in made).format ≡ Some choose.now.layout }
    requires has { HasValueIn formats.now (record_in made) }
    ensures { (value : Datum) → HasValue formats.now (record_in made.entry) value
        → IsAnswer formats.now (then_number None (value_over choose.now.tree value)
        (routed targets (record_in made.entry).format value)) result }
{
    let number = match eval(choose, made.checked(formats)) {
        Ok(number) => number,
        Err(fault) => return Ok(Acted::Refused(reason_of(None, fault))),
    };
    if number < 0 || number >= i128::from(targets) {
        return Ok(Acted::Dropped);
    }
    Ok(Acted::Sent(To::One(number as u16), made.into_arc(alloc)?))
}

// Why a record is refused where an expression has no value: that of the setting of this number, or
// of a filter or router.
pub(crate) fn reason_of(setting: Option<u16>, fault: EvalFault) -> Reason
    ensures { result ≡ reason_of setting fault }
{
    match fault {
        EvalFault::Overflow(at) => Reason::Overflow(setting, at),
        EvalFault::ZeroDivide(at) => Reason::ZeroDivide(setting, at),
        EvalFault::Index(at) => Reason::Index(setting, at),
    }
}
