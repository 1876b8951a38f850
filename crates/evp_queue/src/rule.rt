//! The rule of a stone's queue, and what each of its steps tells. These types are for the proofs
//! alone.
ghost use Rattle.std.specs.Prelude.{◌≡◌, List, ℕ, Option, None, [], true, false};
ghost use Rattle.evp_queue.specs.Counts.{zeroed};
ghost use Rattle.evp_queue.specs.Rule.{progress, unopened, one_more, part_of, rest_of};
ghost use Rattle.evp_queue.specs.Rule.{Ruled, Took, Seen};

use crate::placed::Placed;
use crate::progress::Progress;
use crossbeam_queue::RuledArrayQueue;
use crossbeam_queue::protocol::{Lesson, Outcome, Protocol, Split};
use std::marker::{Brand, PhantomData};

/// The queue of the kit under the rule.
pub(crate) type Ring<E> = RuledArrayQueue<E, Progress<<E as Placed>::Whole>, InFlow<E>>;

/// Each route's entries stand for its flow between the counts of the passes.
pub(crate) struct InFlow<E> {
    marker: PhantomData<E>,
}

impl<E: Placed> Protocol<E, Progress<E::Whole>> for InFlow<E> {
    ghost holds = { Ruled E.route_of E.position_of E.flow E.stands_for };

    ghost first = { unopened };
}

/// An entry is given.
pub(crate) struct Gives<E> {
    marker: PhantomData<E>,
}

impl<E: Placed> Outcome<E, Progress<E::Whole>> for Gives<E> {
    ghost then = { λ v entry w. w ≡ one_more (E.route_of entry) v };
}

impl<E: Placed> Lesson<E, Progress<E::Whole>> for Gives<E> {
    ghost fact = { Seen E.route_of E.position_of E.flow E.stands_for };
}

/// An entry is taken.
pub(crate) struct Takes<E> {
    marker: PhantomData<E>,
}

impl<E: Placed> Outcome<E, Progress<E::Whole>> for Takes<E> {
    ghost then = { Took E.route_of E.position_of E.flow E.stands_for };
}

impl<E: Placed> Lesson<E, Progress<E::Whole>> for Takes<E> {
    ghost fact = { Seen E.route_of E.position_of E.flow E.stands_for };
}

/// What a queue is opened with. Each call of a program picks it.
pub(crate) trait Opening<W> {
    ghost whole: { Option W };

    ghost routes: { List ℕ };
}

impl<W> Opening<W> for Brand {
    ghost whole = { None };

    ghost routes = { [] };
}

/// The first pass becomes the give pass, and the new one is the take pass.
pub(crate) struct Opens<K> {
    marker: PhantomData<K>,
}

impl<W, K: Opening<W>> Split<Progress<W>> for Opens<K> {
    ghost left = { λ _. progress K.whole false (zeroed K.routes) };

    ghost right = { λ _. progress K.whole true (zeroed K.routes) };
}

/// The routes that one of two passes gets. Each call of a program picks it.
pub(crate) trait Portion {
    ghost routes: { List ℕ };
}

impl Portion for Brand {
    ghost routes = { [] };
}

/// A give pass keeps the portion, and the new one gets the other routes.
pub(crate) struct Parts<K> {
    marker: PhantomData<K>,
}

impl<W, K: Portion> Split<Progress<W>> for Parts<K> {
    ghost left = { part_of K.routes };

    ghost right = { rest_of K.routes };
}
