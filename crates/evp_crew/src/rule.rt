//! The rule of a rota, and what each of its steps tells. These types are for the proofs alone.
ghost use Rattle.std.specs.Prelude.{◌≡◌, Option, None};
ghost use Rattle.evp_crew.specs.declared.three.Three.{Three as TheThree};
ghost use Rattle.evp_crew.specs.Rule.{Kept, Took, Seen};

use crate::seat::Seat;
use crate::three::Three;
use crossbeam_queue::RuledArrayQueue;
use crossbeam_queue::protocol::{Lesson, Outcome, Protocol, Split};
use std::marker::{Brand, PhantomData};

/// The queue of the kit under the rule.
pub(crate) type Ring = RuledArrayQueue<Seat, Option<Three>, OfThree>;

/// All seats are of one job, one cache and one crew.
pub(crate) struct OfThree;

impl Protocol<Seat, Option<Three>> for OfThree {
    ghost holds = { Kept };

    ghost first = { None };
}

/// A seat is put.
pub(crate) struct Puts;

impl Outcome<Seat, Option<Three>> for Puts {
    ghost then = { λ v seat w. w ≡ v };
}

impl Lesson<Seat, Option<Three>> for Puts {
    ghost fact = { Seen };
}

/// A seat is taken.
pub(crate) struct Takes;

impl Outcome<Seat, Option<Three>> for Takes {
    ghost then = { Took };
}

impl Lesson<Seat, Option<Three>> for Takes {
    ghost fact = { Seen };
}

/// What a rota is opened for. Each call of a program picks it.
pub(crate) trait Opening {
    ghost three: { Option TheThree };
}

impl Opening for Brand {
    ghost three = { None };
}

/// The rota is opened: its passes know whose seats it has.
pub(crate) struct Opens<K> {
    marker: PhantomData<K>,
}

impl<K: Opening> Split<Option<Three>> for Opens<K> {
    ghost left = { λ _. K.three };

    ghost right = { λ _. K.three };
}

/// One more pass.
pub(crate) struct Shares;

impl Split<Option<Three>> for Shares {
    ghost left = { λ v. v };

    ghost right = { λ v. v };
}
