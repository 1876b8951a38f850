//! Where a stone sends on.
ghost use Rattle.std.specs.Prelude.{◌≡◌, ◌+◌, ◌<◌, ◌^◌, ◌++◌, [], ◌∷◌, OnOk, OnErr, IfOk};
ghost use Rattle.std.specs.List.{AllByRecursion};
ghost use Rattle.evp_action.specs.declared.acted.To.TheVariants.{One};
ghost use Rattle.evp_stone.specs.Lining.{IsAt, IsOf, AreLined, lengthened};
ghost use Rattle.evp_stone.specs.Turning.{everywhere};
ghost use Rattle.evp_stone.specs.Working.{outlet_of, outlets_of, sending_of, goes_by};

use crate::entry::Entry;
use evp_action::To;
use evp_record::Owned;
use std::alloc::{AllocError, Global};
use std::collections::VecDeque;
use std::sync::Arc;

/// The number of a longer route, and how many entries were lined up on it.
#[derive(Clone, Copy, Debug, Drop)]
pub(crate) struct Outlet {
    pub(crate) route: u16,
    pub(crate) lined: u32,
}

/// What is sent on: a record with its index, or the end of a round.
#[derive(Drop)]
pub(crate) enum Sending {
    Item(u32, Arc<Owned, Global>),
    End(u32),
}

impl Sending {
    // One more of it, of which another goes on.
    fn copied(&self) -> Result<Sending, AllocError>
        ensures { IfOk result (λ copy. sending_of copy ≡ sending_of self.now) }
    {
        match self {
            Sending::Item(index, owned) => Ok(Sending::Item(*index, Arc::try_clone(owned)?)),
            Sending::End(round) => Ok(Sending::End(*round)),
        }
    }

    // The next entry at an outlet.
    fn entry(self, outlet: Outlet) -> Entry
        ensures { IsAt (IsOf (sending_of self)) (outlet_of outlet) result }
    {
        match self {
            Sending::Item(index, owned) => Entry::Item(outlet.route, outlet.lined, index, owned),
            Sending::End(round) => Entry::Mark(outlet.route, outlet.lined, round),
        }
    }
}

// Lines up a copy at each of these outlets, behind those that wait.
fn push_copies(
    outlets: &[Outlet],
    waiting: &mut VecDeque<Entry>,
    sending: &Sending,
) -> Result<(), AllocError>
    requires { waiting.old.items ≡ [] }
    ensures { OnOk result (AreLined (IsOf (sending_of sending.now)) everywhere 0
        (outlets_of outlets.now) waiting.new.items) }
{
    for position in 0..outlets.len() {
        let copy = sending.copied()?;
        push(waiting, copy.entry(outlets[position]))?;
    }
    Ok(())
}

// An entry more waits.
#[inline(always)]
fn push(waiting: &mut VecDeque<Entry>, entry: Entry) -> Result<(), AllocError>
    ensures { OnOk result (waiting.new.items ≡ waiting.old.items ++ entry ∷ []) }
{
    waiting.reserve(1)?;
    waiting.push_back_reserved(entry);
    Ok(())
}

// Lines up an entry at each outlet, copies at all but the last.
#[inline(always)]
fn push_all(
    outlets: &[Outlet],
    waiting: &mut VecDeque<Entry>,
    sending: Sending,
) -> Result<(), AllocError>
    requires { waiting.old.items ≡ [] }
    ensures { OnOk result (AreLined (IsOf (sending_of sending)) everywhere 0
        (outlets_of outlets.now) waiting.new.items) }
{
    let Some((last, others)) = outlets.split_last() else {
        return Ok(());
    };
    push_copies(others, waiting, &sending)?;
    push(waiting, sending.entry(*last))
}

// Lines up an entry at the outlet of this position, if there is one.
#[inline(always)]
fn push_at(
    outlets: &[Outlet],
    waiting: &mut VecDeque<Entry>,
    position: u16,
    sending: Sending,
) -> Result<(), AllocError>
    requires { waiting.old.items ≡ [] }
    ensures { OnOk result (AreLined (IsOf (sending_of sending)) (goes_by (One position)) 0
        (outlets_of outlets.now) waiting.new.items) }
{
    let place = usize::from(position);
    if place >= outlets.len() {
        return Ok(());
    }
    push(waiting, sending.entry(outlets[place]))
}

/// Lines up an entry at each outlet where something goes. None waits where there is no memory.
#[inline(always)]
pub(crate) fn line_up(
    outlets: &[Outlet],
    waiting: &mut VecDeque<Entry>,
    to: To,
    sending: Sending,
) -> Result<(), AllocError>
    requires { waiting.old.items ≡ [] }
    ensures lined { OnOk result (AreLined (IsOf (sending_of sending)) (goes_by to) 0
        (outlets_of outlets.now) waiting.new.items) }
    ensures none { OnErr result (waiting.new.items ≡ []) }
{
    let pushed = push_to(outlets, waiting, to, sending);
    if pushed.is_err() {
        waiting.clear();
    }
    pushed
}

// Lines up an entry at each outlet where something goes.
#[inline(always)]
fn push_to(
    outlets: &[Outlet],
    waiting: &mut VecDeque<Entry>,
    to: To,
    sending: Sending,
) -> Result<(), AllocError>
    requires { waiting.old.items ≡ [] }
    ensures { OnOk result (AreLined (IsOf (sending_of sending)) (goes_by to) 0
        (outlets_of outlets.now) waiting.new.items) }
{
    match to {
        To::All => push_all(outlets, waiting, sending),
        To::One(position) => push_at(outlets, waiting, position, sending),
    }
}

/// Counts one entry more at each outlet where something goes.
pub(crate) fn lengthen(outlets: &mut [Outlet], to: To)
    requires { AllByRecursion (λ outlet. outlet.lined + 1 < 2 ^ 32) (outlets_of outlets.old) }
    ensures { outlets_of outlets.new ≡ lengthened (goes_by to) 0 (outlets_of outlets.old) }
{
    match to {
        To::All => lengthen_all(outlets),
        To::One(position) => lengthen_at(outlets, position),
    }
}

// Counts one entry more at each outlet.
fn lengthen_all(outlets: &mut [Outlet])
    requires { AllByRecursion (λ outlet. outlet.lined + 1 < 2 ^ 32) (outlets_of outlets.old) }
    ensures { outlets_of outlets.new ≡ lengthened everywhere 0 (outlets_of outlets.old) }
{
    for position in 0..outlets.len() {
        outlets[position].lined += 1;
    }
}

// Counts one entry more at the outlet of this position, if there is one.
fn lengthen_at(outlets: &mut [Outlet], position: u16)
    requires { AllByRecursion (λ outlet. outlet.lined + 1 < 2 ^ 32) (outlets_of outlets.old) }
    ensures { outlets_of outlets.new
        ≡ lengthened (goes_by (One position)) 0 (outlets_of outlets.old) }
{
    let place = usize::from(position);
    if place < outlets.len() {
        outlets[place].lined += 1;
    }
}
