//! What a stone does with one record.
ghost use Rattle.std.specs.Prelude.{◌≡◌, [], OnOk, OnErr, IfOk, if◌then◌else◌, is_err};
ghost use Rattle.std.specs.Arc.{arc_value};
ghost use Rattle.evp_stone.specs.Acted.{CanAct, Performs, Learns, IsActedOn};
ghost use Rattle.evp_stone.specs.Settling.{work_of, HasRoom};

use crate::entry::Entry;
use crate::route_work::RouteWork;
use crate::shared::{Learnt, Shared};
use evp_action::{Acted, act};
use evp_base::Memory;
use evp_record::Owned;
use std::alloc::Global;
use std::collections::VecDeque;
use std::sync::Arc;

/// The stone acts on a record of a route, and what came of it is settled. `Memory` leaves the route
/// and what waits as they were; the pass may then know more pairs, and one more plan may have been
/// built.
pub(crate) fn act_on(
    shared: &Shared<'_>,
    learnt: &mut Learnt,
    stone: u16,
    work: &mut RouteWork,
    waiting: &mut VecDeque<Entry>,
    index: u32,
    owned: &Arc<Owned, Global>,
) -> Result<(), Memory>
    requires can { CanAct shared.now.job.now shared.now.cache.now learnt.old.pass stone
        (arc_value owned.now) }
    requires none { waiting.old.items ≡ [] }
    requires room { HasRoom (work_of work.old) }
    ensures acted { OnOk result (IsActedOn shared.now.job.now stone (work_of work.old)
        (work_of work.new) (index, owned.now) waiting.new.items) }
    ensures err { OnErr result (work_of work.new ≡ work_of work.old) }
    ensures none { OnErr result (waiting.new.items ≡ []) }
    ensures learns { Learns shared.now.job.now shared.now.cache.now stone (arc_value owned.now)
        (if is_err result then 1 else 0) learnt.old.pass learnt.new.pass learnt.old.builds
        learnt.new.builds }
{
    let acted = perform(shared, learnt, stone, owned)?;
    work.settle(waiting, index, acted)?;
    Ok(())
}

// What the stone's action does with the record.
#[inline(always)]
fn perform(
    shared: &Shared<'_>,
    learnt: &mut Learnt,
    stone: u16,
    owned: &Arc<Owned, Global>,
) -> Result<Acted, Memory>
    requires { CanAct shared.now.job.now shared.now.cache.now learnt.old.pass stone
        (arc_value owned.now) }
    ensures performs { IfOk result (Performs shared.now.job.now stone (arc_value owned.now)) }
    ensures learns { Learns shared.now.job.now shared.now.cache.now stone (arc_value owned.now)
        (if is_err result then 1 else 0) learnt.old.pass learnt.new.pass learnt.old.builds
        learnt.new.builds }
{
    let parts = shared.job.parts();
    let its = &parts.stones[usize::from(stone)];
    act(
        learnt.alloc,
        &its.action,
        its.targets.as_slice().len() as u16,
        parts.formats.as_slice(),
        parts.limit,
        shared.cache,
        &mut learnt.pass,
        &mut learnt.builds,
        owned,
    )
}
