//! What an action does with a record.
ghost use Rattle.std.specs.Prelude.{IfOk, if◌then◌else◌, is_err};
ghost use Rattle.std.specs.Arc.{arc_value};
ghost use Rattle.evp_action.specs.Acting.{act};
ghost use Rattle.evp_action.specs.Agreement.{Agrees};
ghost use Rattle.evp_action.specs.Asking.{pairs_of, Keeps, Asks, BuildsFor};
ghost use Rattle.evp_action.specs.Performed.{HasValue, IsActed};
ghost use Rattle.evp_action.specs.Working.{Works};
ghost use Rattle.evp_cache.specs.Known.{IsCacheOf, IsPassOf};
ghost use Rattle.evp_format.specs.Datum.{Datum};
ghost use Rattle.evp_record.specs.Owned.{HasValueIn};

use crate::converting::Converter;
use crate::deciding::{filter, receive, route};
use crate::refusal::Refusal;
use crate::transforming::transform;
use crate::{Acted, Action, To};
use evp_base::Memory;
use evp_cache::{CachePass, PlanCache};
use evp_format::Format;
use evp_plan::Builds;
use evp_record::Owned;
use std::alloc::Global;
use std::sync::Arc;

/// Does the action with the record, of a stone with so many targets. A split sends the record on as
/// it is. Every other action first converts it into its own format; a record whose format has that
/// number already is handed on and not copied. `limit` is the length of the longest packed record in
/// bytes. The first conversion, evaluation or store that fails refuses the record. `Memory` may come
/// at any time; the pass may then know more pairs, and one more plan may have been built.
///
/// The formats are those of the cache, of which the pass is one; the action agrees with them, and
/// the record has a value in its format.
#[inline(always)]
pub fn act(
    alloc: Global,
    action: &Action,
    targets: u16,
    formats: &[Format],
    limit: u32,
    cache: &PlanCache,
    pass: &mut CachePass,
    builds: &mut Builds,
    item: &Arc<Owned, Global>,
) -> Result<Acted, Memory>
    requires cache { IsCacheOf cache.now formats.now }
    requires pass { IsPassOf cache.now formats.now pass.old }
    requires agrees { Agrees formats.now cache.now.declared action.now }
    requires item { HasValueIn formats.now (arc_value item.now) }
    ensures acts { IfOk result (λ acted. (value : Datum)
        → HasValue formats.now (arc_value item.now) value
        → IsActed formats.now (act formats.now limit action.now targets (arc_value
        item.now).format value) acted) }
    ensures kept { Keeps cache.now formats.now pass.old pass.new }
    ensures asked { (value : Datum) → HasValue formats.now (arc_value item.now) value
        → Asks (pairs_of formats.now limit action.now (arc_value item.now).format value) pass.old
        pass.new }
    ensures builds { BuildsFor (if is_err result then 1 else 0) pass.old pass.new builds.old
        builds.new }
{
    let converter = Converter {
        formats,
        cache,
        limit,
    };
    match acted(alloc, action, targets, &converter, pass, builds, item) {
        Ok(acted) => Ok(acted),
        Err(Refusal::Cause(reason)) => Ok(Acted::Refused(reason)),
        Err(Refusal::Memory) => Err(Memory),
    }
}

// The same, where a refusal isn't an answer.
#[inline(always)]
fn acted(
    alloc: Global,
    action: &Action,
    targets: u16,
    converter: &Converter<'_>,
    pass: &mut CachePass,
    builds: &mut Builds,
    item: &Arc<Owned, Global>,
) -> Result<Acted, Refusal>
    requires cache { IsCacheOf converter.now.cache.now converter.now.formats.now }
    requires pass { IsPassOf converter.now.cache.now converter.now.formats.now pass.old }
    requires agrees { Agrees converter.now.formats.now converter.now.cache.now.declared action.now }
    requires item { HasValueIn converter.now.formats.now (arc_value item.now) }
    ensures { Works converter.now.cache.now converter.now.formats.now (arc_value item.now)
        (act converter.now.formats.now converter.now.limit action.now targets
        (arc_value item.now).format)
        (pairs_of converter.now.formats.now converter.now.limit action.now
        (arc_value item.now).format) pass.old pass.new builds.old builds.new result }
{
    match action {
        Action::Split => Ok(Acted::Sent(To::All, Arc::try_clone(item)?)),
        Action::Terminal { format } => receive(alloc, converter, pass, builds, item, *format),
        Action::Filter { format, test } => {
            filter(alloc, converter, pass, builds, item, *format, test)
        }
        Action::Router { format, choose } => {
            route(
                alloc, converter, pass, builds, item, *format, targets, choose,
            )
        }
        Action::Transform { format, into, set } => {
            let set = set.as_slice();
            transform(alloc, converter, pass, builds, item, *format, *into, set)
        }
    }
}
