//! Quick tests of a list of steps.

ghost use Rattle.std.specs.Prelude.{◌≡◌, ◌+◌, ◌≤◌, length, IsTrue, IfOk, IfSome};
ghost use Rattle.std.specs.List.{All};
ghost use Rattle.evp_plan.specs.Lanes.{AreLanesOf};
ghost use Rattle.evp_plan.specs.Quicks.{steps_in, words_in, has_words, have_words};
ghost use Rattle.evp_plan.specs.Quicks.{IsFit, IsInside, IsThere};

use crate::fill::{Lanes, Window};
use crate::fitting::{all_quick, words_in};
use crate::lane_tests::{have_fills, lanes_of};
use crate::{Quick, Step, Words};
use evp_base::{Memory, Order};
use std::alloc::Global;
use std::marker::Model;

/// The steps of a list that can refuse something or take a block, with quick tests.
#[derive(Debug, Drop)]
pub struct QuickTests {
    list: Vec<Quick>,
    // The words of all of them, by their bytes, so that no test asks for a size.
    ones: Vec<Words>,
    twos: Vec<Words>,
    fours: Vec<Words>,
    eights: Vec<Words>,
    // Whether all of them have words.
    numbers: bool,
    // Windows that tell their words, where there are such and not all are of numbers.
    lanes: Option<Lanes>,
}

impl Model for QuickTests {
    ghost use Rattle.std.specs.Prelude.{◌≡◌, List, IfSome};
    ghost use Rattle.std.specs.List.{All};
    ghost use Rattle.evp_plan.specs.declared.quick.Quick.{Quick};
    ghost use Rattle.evp_plan.specs.Lanes.{AreLanesOf};
    ghost use Rattle.evp_plan.specs.Quicks.{words_in, have_words, IsFit};

    ghost Value = { List Quick };

    ghost view = { λ t. t.list.items };

    ghost invariant = { λ t. All IsFit t.list.items
        × ((t.ones.items ≡ words_in 1 t.list.items)
        × ((t.twos.items ≡ words_in 2 t.list.items)
        × ((t.fours.items ≡ words_in 4 t.list.items)
        × ((t.eights.items ≡ words_in 8 t.list.items)
        × ((t.numbers ≡ have_words t.list.items)
        × IfSome t.lanes (λ lanes. AreLanesOf lanes.order t.list.items lanes.windows.items)))))) };
}

// Whether words of so many bytes, of each entry, stand in the record at `at`.
#[inline(always)]
fn all_there(words: &[Words], size: u32, bytes: &[u8], at: usize, order: Order) -> bool
    requires sized { All (λ entry. entry.size ≡ size) words.now }
    requires inside { All (IsInside at bytes.now) words.now }
    ensures { IsTrue result → All (IsThere at order bytes.now) words.now }
{
    for entry in words {
        if !entry.has_there(bytes, at, order, size) {
            return false;
        }
    }
    true
}

// Whether each of these has words.
fn have_words(tests: &[Quick]) -> bool
    ensures { result ≡ have_words tests.now }
{
    tests.iter().all(|test| has_words(test))
}

// Whether it has words.
fn has_words(test: &Quick) -> bool
    ensures { result ≡ has_words test.now.words }
{
    test.words.is_some()
}

// Windows that tell the words of tests that aren't all of numbers, where there are such.
fn mixed_lanes(alloc: Global, order: Order, tests: &[Quick]) -> Result<Option<Lanes>, Memory>
    ensures { IfOk result (λ made. IfSome made (λ lanes.
        AreLanesOf lanes.order tests.now lanes.windows.items)) }
{
    if have_words(tests) {
        return Ok(None);
    }
    lanes_of(alloc, order, tests, 1)
}

impl QuickTests {
    // Those of these steps, for senders of that order in the first place.
    pub(crate) fn of_steps(alloc: Global, order: Order, steps: &[Step]) -> Result<Self, Memory>
        ensures { IfOk result (λ tests. steps_in tests ≡ steps.now) }
    {
        let list = all_quick(alloc, steps)?;
        Ok(QuickTests {
            ones: words_in(alloc, 1, list.as_slice())?,
            twos: words_in(alloc, 2, list.as_slice())?,
            fours: words_in(alloc, 4, list.as_slice())?,
            eights: words_in(alloc, 8, list.as_slice())?,
            numbers: have_words(list.as_slice()),
            lanes: mixed_lanes(alloc, order, list.as_slice())?,
            list,
        })
    }

    /// The steps, in their order.
    pub fn as_slice(&self) -> &[Quick]
        ensures value { result.now ≡ self.now }
        ensures fit { All IsFit self.now }
    {
        self.list.as_slice()
    }

    /// Whether each of them is tested by words alone.
    pub fn are_numbers(&self) -> bool
        ensures { result ≡ have_words self.now }
    {
        self.numbers
    }

    /// Whether the words of each stand in the record at `at`. Takes no memory.
    #[inline(always)]
    pub fn all_there(&self, bytes: &[u8], at: usize, order: Order) -> bool
        requires { All (λ test. IfSome test.words (IsInside at bytes.now)) self.now }
        ensures { IsTrue result → All (λ test. IfSome test.words (IsThere at order bytes.now))
            self.now }
    {
        if let Some(windows) = self.mixed_for(order) {
            return have_fills(windows, bytes, at);
        }
        self.each_there(bytes, at, order)
    }

    // The windows that tell the words of senders of that order, where there are such beside other
    // tests.
    #[inline(always)]
    fn mixed_for(&self, order: Order) -> Option<&[Window]>
        ensures { IfSome result (λ windows. AreLanesOf order self.now windows.now) }
    {
        match &self.lanes {
            Some(lanes) if lanes.order == order => Some(lanes.windows.as_slice()),
            _ => None,
        }
    }

    // Whether the words of each stand in the record at `at`, one by one.
    #[inline(always)]
    fn each_there(&self, bytes: &[u8], at: usize, order: Order) -> bool
        requires { All (λ test. IfSome test.words (IsInside at bytes.now)) self.now }
        ensures { IsTrue result → All (λ test. IfSome test.words (IsThere at order bytes.now))
            self.now }
    {
        let ones = all_there(self.ones.as_slice(), 1, bytes, at, order);
        if !ones {
            return false;
        }
        let twos = all_there(self.twos.as_slice(), 2, bytes, at, order);
        if !twos {
            return false;
        }
        let fours = all_there(self.fours.as_slice(), 4, bytes, at, order);
        if !fours {
            return false;
        }
        all_there(self.eights.as_slice(), 8, bytes, at, order)
    }
}
