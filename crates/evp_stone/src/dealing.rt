//! What a stone does with the entry in hand, on the entry's route.
ghost use Rattle.std.specs.Prelude.{◌≡◌, ◌<◌, ℕ, [], true, false, length};
ghost use Rattle.evp_stone.specs.declared.entry.Entry.TheVariants.{Mark};
ghost use Rattle.evp_stone.specs.Dealing.{CanDeal, IsDealt, HasDealt};
ghost use Rattle.evp_stone.specs.JobShape.{JobShape};
ghost use Rattle.evp_stone.specs.Settling.{work_of, HasRoom};
ghost use Rattle.evp_stone.specs.State as state;

use crate::acting::act_on;
use crate::asking::is_frozen;
use crate::entry::Entry;
use crate::route_work::RouteWork;
use crate::shared::{Learnt, Shared};
use std::alloc::Global;
use std::collections::VecDeque;
use std::mem;

/// Deals with the entry in hand, or with the first record that is kept on its route. What is in
/// hand then; the entry is handed back where there is no memory.
pub(crate) fn deal(
    shared: &Shared<'_>,
    learnt: &mut Learnt,
    stone: u16,
    work: &mut RouteWork,
    waiting: &mut VecDeque<Entry>,
    entry: Entry,
) -> Result<Option<Entry>, Entry>
    requires can { CanDeal shared.now.job.now shared.now.cache.now learnt.old.pass stone
        (work_of work.old) entry }
    requires none { waiting.old.items ≡ [] }
    ensures { HasDealt shared.now.job.now shared.now.cache.now stone
        (state.is_frozen shared.now.job.now stone (length work.old.ended.items)) (work_of work.old)
        (work_of work.new) waiting.new.items entry learnt.old.pass learnt.new.pass
        learnt.old.builds learnt.new.builds result }
{
    if is_frozen(shared.job, stone, work.ended.len()) {
        return deal_frozen(learnt.alloc, work, waiting, entry);
    }
    if work.kept.is_empty() {
        return deal_new(shared, learnt, stone, work, waiting, entry);
    }
    deal_kept(shared, learnt, stone, work, waiting, entry)
}

// Keeps the record in hand, or ends the round.
fn deal_frozen(
    alloc: Global,
    work: &mut RouteWork,
    waiting: &mut VecDeque<Entry>,
    entry: Entry,
) -> Result<Option<Entry>, Entry>
    requires none { waiting.old.items ≡ [] }
    requires room { HasRoom (work_of work.old) }
    ensures { (job : JobShape) (stone : ℕ) → IsDealt job stone true (work_of work.old)
        (work_of work.new) waiting.new.items entry result }
{
    match entry {
        Entry::Item(route, position, index, owned) => match work.keep(index, owned) {
            Ok(()) => Ok(None),
            Err(owned) => Err(Entry::Item(route, position, index, owned)),
        },
        Entry::Mark(route, position, round) => {
            deal_mark(alloc, work, waiting, route, position, round)
        }
    }
}

// Acts on the record in hand, or ends the round.
fn deal_new(
    shared: &Shared<'_>,
    learnt: &mut Learnt,
    stone: u16,
    work: &mut RouteWork,
    waiting: &mut VecDeque<Entry>,
    entry: Entry,
) -> Result<Option<Entry>, Entry>
    requires can { CanDeal shared.now.job.now shared.now.cache.now learnt.old.pass stone
        (work_of work.old) entry }
    requires none { waiting.old.items ≡ [] }
    requires kept { work.old.kept.items ≡ [] }
    ensures { HasDealt shared.now.job.now shared.now.cache.now stone false (work_of work.old)
        (work_of work.new) waiting.new.items entry learnt.old.pass learnt.new.pass
        learnt.old.builds learnt.new.builds result }
{
    match entry {
        Entry::Item(route, position, index, owned) => {
            match act_on(shared, learnt, stone, work, waiting, index, &owned) {
                Ok(()) => Ok(None),
                Err(_) => Err(Entry::Item(route, position, index, owned)),
            }
        }
        Entry::Mark(route, position, round) => {
            deal_mark(learnt.alloc, work, waiting, route, position, round)
        }
    }
}

// Ends the round of the mark in hand.
#[inline(always)]
fn deal_mark(
    alloc: Global,
    work: &mut RouteWork,
    waiting: &mut VecDeque<Entry>,
    route: u16,
    position: u32,
    round: u32,
) -> Result<Option<Entry>, Entry>
    requires none { waiting.old.items ≡ [] }
    requires room { HasRoom (work_of work.old) }
    ensures { (job : JobShape) (stone : ℕ) → IsDealt job stone true (work_of work.old)
        (work_of work.new) waiting.new.items (Mark route position round) result }
{
    match work.end_round(alloc, waiting, round) {
        Ok(()) => Ok(None),
        Err(_) => Err(Entry::Mark(route, position, round)),
    }
}

// Acts on the first of the records that are kept. The entry stays in hand.
fn deal_kept(
    shared: &Shared<'_>,
    learnt: &mut Learnt,
    stone: u16,
    work: &mut RouteWork,
    waiting: &mut VecDeque<Entry>,
    entry: Entry,
) -> Result<Option<Entry>, Entry>
    requires can { CanDeal shared.now.job.now shared.now.cache.now learnt.old.pass stone
        (work_of work.old) entry }
    requires none { waiting.old.items ≡ [] }
    requires some { 0 < length work.old.kept.items }
    ensures { HasDealt shared.now.job.now shared.now.cache.now stone false (work_of work.old)
        (work_of work.new) waiting.new.items entry learnt.old.pass learnt.new.pass
        learnt.old.builds learnt.new.builds result }
{
    let Some((index, owned)) = work.kept.pop_front() else {
        unreachable!()
    };
    let others = mem::replace(&mut work.kept, VecDeque::new(learnt.alloc));
    match act_on(shared, learnt, stone, work, waiting, index, &owned) {
        Ok(()) => {
            work.kept = others;
            Ok(Some(entry))
        }
        Err(_) => {
            let mut kept = others;
            kept.push_front_reserved((index, owned));
            work.kept = kept;
            Err(entry)
        }
    }
}
