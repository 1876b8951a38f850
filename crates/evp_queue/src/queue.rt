//! A stone's queue.
ghost use Rattle.std.specs.Prelude.{◌≡◌, ◌<◌, Some, true, false, IfOk, IfErr, IfSome, IfNone};
ghost use Rattle.crossbeam_queue.specs.Fifo.{Held};
ghost use Rattle.crossbeam_queue.specs.Passes.{view, IsPassOf};
ghost use Rattle.evp_queue.specs.Counts.{zeroed};
ghost use Rattle.evp_queue.specs.Rule.{progress, unopened, one_more, part_of, rest_of};
ghost use Rattle.evp_queue.specs.Rule.{IsOpen, IsNext, Seen};
ghost use Rattle.evp_queue.specs.Passes.{capacity_of, giver_of, taker_of, GivesTo, TakesFrom};
ghost use Rattle.evp_queue.specs.Passes.{counted};
ghost use Rattle.evp_queue.specs.declared.pass.Given.TheVariants.{Full};

use crate::pass::{GivePass, Given, TakePass, Unsplit};
use crate::placed::Placed;
use crate::progress::Progress;
use crate::rule::{Gives, Opening, Opens, Parts, Portion, Ring, Takes};
use crossbeam_queue::Pass;
use evp_base::Memory;
use std::alloc::Global;
use std::marker::Brand;
use std::sync::Wait;

/// A bounded queue of entries, for one taker and any number of givers, in any threads.
///
/// For each route of the queue, its entries in order stand for the route's flow from the taker's
/// count to the giver's, at every step.
#[derive(Drop)]
pub struct StoneQueue<E: Placed> {
    pub(crate) ring: Ring<E>,
}

impl<E: Placed> StoneQueue<E> {
    /// An empty queue of at most `capacity` entries for the flows of `whole`, with its two
    /// passes, which have all these routes. `whole` serves the contract alone.
    pub fn new<R: Wait>(
        _rt: &R,
        alloc: Global,
        capacity: u32,
        routes: &[u16],
        whole: &E::Whole,
    ) -> Result<(StoneQueue<E>, GivePass<E>, TakePass<E>), Memory>
        requires { 0 < capacity }
        ensures capacity { IfOk result (λ made. capacity_of made.0 ≡ capacity) }
        ensures give { IfOk result (λ made.
            GivesTo made.0 made.1 × (made.1.fulls ≡ 0)
            × (giver_of made.1 ≡ progress (Some whole.now) false (zeroed routes.now))) }
        ensures take { IfOk result (λ made.
            TakesFrom made.0 made.2 × (made.2.empties ≡ 0)
            × (taker_of made.2 ≡ progress (Some whole.now) true (zeroed routes.now))) }
    {
        let (ring, mut first) = Ring::ruled(alloc, capacity as usize)?;
        let second = opened::<E, Brand>(&ring, &mut first, routes, whole);
        let give = GivePass {
            pass: first,
            fulls: 0,
        };
        let take = TakePass {
            pass: second,
            empties: 0,
        };
        Ok((StoneQueue { ring }, give, take))
    }

    /// Splits a pass: the first of the two keeps those routes that are among `first`, and the
    /// second has the others. Their counts stay.
    pub fn split<R: Wait>(
        &self,
        _rt: &R,
        pass: GivePass<E>,
        first: &[u16],
    ) -> Result<(GivePass<E>, GivePass<E>), Unsplit<E>>
        requires { GivesTo self.now pass }
        ensures first { IfOk result (λ both.
            GivesTo self.now both.0 × (both.0.fulls ≡ pass.fulls)
            × (giver_of both.0 ≡ part_of first.now (giver_of pass))) }
        ensures others { IfOk result (λ both.
            GivesTo self.now both.1 × (both.1.fulls ≡ pass.fulls)
            × (giver_of both.1 ≡ rest_of first.now (giver_of pass))) }
        ensures back { IfErr result (λ unsplit. unsplit.pass ≡ pass) }
    {
        let GivePass { mut pass, fulls } = pass;
        let second = parted::<E, Brand>(&self.ring, &mut pass, first);
        let rest = GivePass {
            pass: second,
            fulls,
        };
        Ok((GivePass { pass, fulls }, rest))
    }

    /// Gives an entry, which is the next of its route. `Full` hands it back, and comes only where
    /// the queue was full at a step of this call. It takes no memory.
    #[inline(always)]
    pub fn give<R: Wait>(&self, rt: &R, pass: &mut GivePass<E>, entry: E) -> Result<(), Given<E>>
        requires queue { GivesTo self.now pass.old }
        requires next { IsNext E.route_of E.position_of E.flow E.stands_for (giver_of pass.old) entry }
        ensures queue { GivesTo self.now pass.new }
        ensures given { IfOk result (λ _.
            (giver_of pass.new ≡ one_more (E.route_of entry) (giver_of pass.old))
            × (pass.new.fulls ≡ pass.old.fulls)) }
        ensures full { IfErr result (λ given. (given ≡ Full entry)
            × (giver_of pass.new ≡ giver_of pass.old) × (pass.new.fulls ≡ counted pass.old.fulls)
            × Held (capacity_of self.now)
            (Seen E.route_of E.position_of E.flow E.stands_for (giver_of pass.old))) }
    {
        let Err(entry) = self.ring.try_push_as::<Gives<E>>(&mut pass.pass, entry) else {
            return Ok(());
        };
        match self.ring.push_as::<Gives<E>, R>(rt, &mut pass.pass, entry) {
            Ok(()) => Ok(()),
            Err(entry) => {
                pass.fulls = pass.fulls.saturating_add(1);
                Err(Given::Full(entry))
            }
        }
    }

    /// Takes an entry, which is the next of its route. None comes only where the queue was empty
    /// at a step of this call. It takes no memory.
    pub fn take<R: Wait>(&self, rt: &R, pass: &mut TakePass<E>) -> Option<E>
        requires { TakesFrom self.now pass.old }
        ensures queue { TakesFrom self.now pass.new }
        ensures taken { IfSome result (λ entry.
            IsNext E.route_of E.position_of E.flow E.stands_for (taker_of pass.old) entry
            × (taker_of pass.new ≡ one_more (E.route_of entry) (taker_of pass.old))
            × (pass.new.empties ≡ pass.old.empties)) }
        ensures empty { IfNone result ((taker_of pass.new ≡ taker_of pass.old)
            × (pass.new.empties ≡ counted pass.old.empties)
            × Held 0 (Seen E.route_of E.position_of E.flow E.stands_for (taker_of pass.old))) }
    {
        if let Some(entry) = self.ring.try_pop_as::<Takes<E>>(&mut pass.pass) {
            return Some(entry);
        }
        let answer = self.ring.pop_as::<Takes<E>, R>(rt, &mut pass.pass);
        if answer.is_none() {
            pass.empties = pass.empties.saturating_add(1);
        }
        answer
    }
}

// Opens the queue: its first pass becomes the give pass, and the answer is the take pass.
fn opened<E: Placed, K: Opening<E::Whole>>(
    ring: &Ring<E>,
    pass: &mut Pass<E, Progress<E::Whole>>,
    routes: &[u16],
    whole: &E::Whole,
) -> Pass<E, Progress<E::Whole>>
    requires queue { IsPassOf ring.now pass.old × (view pass.old ≡ unopened) }
    requires opening { (K.whole ≡ Some whole.now) × (K.routes ≡ routes.now) }
    ensures give { IsPassOf ring.now pass.new
        × (view pass.new ≡ progress (Some whole.now) false (zeroed routes.now)) }
    ensures take { IsPassOf ring.now result
        × (view result ≡ progress (Some whole.now) true (zeroed routes.now)) }
{
    ring.another::<Opens<K>>(pass)
}

// Leaves those routes that are among `first` in the pass, and answers a pass of the others.
fn parted<E: Placed, K: Portion>(
    ring: &Ring<E>,
    pass: &mut Pass<E, Progress<E::Whole>>,
    first: &[u16],
) -> Pass<E, Progress<E::Whole>>
    requires queue { IsPassOf ring.now pass.old × IsOpen (view pass.old)
        × ((view pass.old).takes ≡ false) }
    requires portion { K.routes ≡ first.now }
    ensures first { IsPassOf ring.now pass.new
        × (view pass.new ≡ part_of first.now (view pass.old)) }
    ensures others { IsPassOf ring.now result
        × (view result ≡ rest_of first.now (view pass.old)) }
{
    ring.another::<Parts<K>>(pass)
}
