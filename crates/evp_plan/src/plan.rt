//! Plans.

ghost use Rattle.std.specs.Prelude.{◌≡◌, ◌<◌, ◌≤◌, [], length, get_or, IsTrue, IfOk, IfSome};
ghost use Rattle.evp_plan.specs.Cells.{IsMovesOf, IsWholeOf};
ghost use Rattle.evp_plan.specs.Laid.{IsLaidOf, IsLaidBetween};
ghost use Rattle.evp_plan.specs.Program.{IsOrdered, programs, last_steps};
ghost use Rattle.evp_plan.specs.Quiet.{tests_of};
ghost use Rattle.evp_plan.specs.Quicks.{steps_in};
ghost use Rattle.evp_plan.specs.Telling.{AreNumbersThere, AreTestsInside};

use crate::moves::{all_moves, whole_of};
use crate::quiet::tests_in;
use crate::told::{Told, told_of};
use crate::{Laid, Moves, QuickTests, Step, Steps};
use evp_base::{Memory, Order};
use evp_format::Format;
use std::alloc::Global;
use std::marker::Model;

/// The steps that make a record of one format from a record of another.
#[derive(Debug, Drop)]
pub struct Plan {
    order: Order,
    pointer: u8,
    fixed: u32,
    table: Vec<Steps>,
    alike: bool,
    // The order of the sender's bytes, the bytes of its pointers, and those of the fixed part of its
    // record.
    sender: Order,
    sender_pointer: u8,
    room: u32,
    // For each list of steps the moves, where gathers make all.
    moves: Vec<Option<Moves>>,
    // The moves for the last list that make all of the record, where gathers do.
    whole: Option<Moves>,
    // For each list of steps those that can refuse something or take a block.
    tests: Vec<Steps>,
    // Those of the last list, with quick tests.
    quick: QuickTests,
    // Windows that tell of these, where all are of numbers.
    told: Option<Told>,
    // What makes all of the record without a look at its steps, where it is so simple.
    laid: Option<Laid>,
}

impl Model for Plan {
    ghost use Rattle.std.specs.Prelude.{◌≡◌, ◌≤◌, true, length, IfSome};
    ghost use Rattle.evp_plan.specs.Planned.{Planned};
    ghost use Rattle.evp_plan.specs.Program.{IsOrdered, programs, last_steps};
    ghost use Rattle.evp_plan.specs.Cells.{AreMovesOf, IsWholeOf};
    ghost use Rattle.evp_plan.specs.Laid.{IsLaidOf, IsLaidBetween};
    ghost use Rattle.evp_plan.specs.Lanes.{windows_of, AreLanesOf};
    ghost use Rattle.evp_plan.specs.Quiet.{tests_in};
    ghost use Rattle.evp_plan.specs.Quicks.{steps_in, have_words};

    ghost Value = { Planned };

    ghost view = { λ p. record {
      sender = record { order = p.sender; pointer = p.sender_pointer };
      room = p.room;
      order = p.order;
      pointer = p.pointer;
      fixed = p.fixed;
      table = p.table.items;
      alike = p.alike;
    } };

    ghost invariant = { λ p. IsOrdered p.table.items × ((1 ≤ length p.table.items)
        × (AreMovesOf p.sender p.order p.table.items p.moves.items
        × (IfSome p.whole (λ moves. IsWholeOf p.sender p.order (last_steps p.table.items) moves
        × (length moves.cells ≡ p.fixed))
        × ((p.tests.items ≡ tests_in p.table.items)
        × ((steps_in p.quick ≡ last_steps p.tests.items)
        × (IfSome p.laid (λ laid. IsLaidOf p.sender p.order (programs p.table.items)
        (last_steps p.table.items) laid
        × IsLaidBetween p.room p.fixed p.sender_pointer p.pointer laid)
        × IfSome p.told (λ told. (have_words p.quick ≡ true)
        × AreLanesOf p.sender p.quick (windows_of told)))))))) };
}

// The last list of steps.
fn last_list(table: &[Steps]) -> &[Step]
    requires { 1 ≤ length table.now }
    ensures { result.now ≡ last_steps table.now }
{
    table[table.len() - 1].as_slice()
}

impl Plan {
    ghost use Rattle.evp_plan.specs.Planned.{planned_of};

    // The plan for a sender and a receiver of these formats, by its table.
    pub(crate) fn new(
        alloc: Global,
        from: &Format,
        to: &Format,
        table: Vec<Steps>,
        alike: bool,
    ) -> Result<Self, Memory>
        requires ordered { IsOrdered table.items }
        requires some { 1 ≤ length table.items }
        ensures { IfOk result (λ plan. plan ≡ planned_of from.now to.now table.items alike) }
    {
        let order = to.order();
        let sender = from.order();
        let room = from.root().length;
        let fixed = to.root().length;
        let last = last_list(table.as_slice());
        let moves = all_moves(alloc, order, sender, table.as_slice())?;
        let whole = whole_of(alloc, order, sender, last, fixed)?;
        let tests = tests_in(alloc, table.as_slice())?;
        let quick = QuickTests::of_steps(alloc, sender, last_list(tests.as_slice()))?;
        let told = told_of(alloc, sender, &quick)?;
        let laid = Laid::of_steps(alloc, from, to, last, last_list(tests.as_slice()))?;
        Ok(Plan {
            order,
            pointer: to.pointer(),
            fixed,
            table,
            alike,
            sender,
            sender_pointer: from.pointer(),
            room,
            moves,
            whole,
            tests,
            quick,
            told,
            laid,
        })
    }

    /// The order of the receiver's bytes.
    pub fn order(&self) -> Order
        ensures { result ≡ self.now.order }
    {
        self.order
    }

    /// Bytes of a receiver's pointer.
    pub fn pointer(&self) -> u8
        ensures { result ≡ self.now.pointer }
    {
        self.pointer
    }

    /// Bytes of the fixed part of the receiver's record.
    pub fn fixed(&self) -> u32
        ensures { result ≡ self.now.fixed }
    {
        self.fixed
    }

    /// Lists of steps, each behind those that it refers to. The last makes the record.
    pub fn table(&self) -> &[Steps]
        ensures value { result.now ≡ self.now.table }
        ensures ordered { IsOrdered self.now.table }
        ensures some { 1 ≤ length self.now.table }
    {
        self.table.as_slice()
    }

    /// The steps of the list of that number that can refuse something or take a block, in their
    /// order. What the list finds, it finds by these alone.
    pub fn tests(&self, number: usize) -> &[Step]
        requires { number < length self.now.table }
        ensures tests { result.now ≡ tests_of (programs self.now.table)
            (get_or self.now.table number []) }
        ensures ordered { IsOrdered self.now.table }
    {
        self.tests[number].as_slice()
    }

    /// The steps of the last list that can refuse something or take a block, in their order, with
    /// quick tests.
    pub fn quick(&self) -> &QuickTests
        ensures tests { steps_in result.now ≡ tests_of (programs self.now.table)
            (last_steps self.now.table) }
        ensures ordered { IsOrdered self.now.table }
        ensures some { 1 ≤ length self.now.table }
    {
        &self.quick
    }

    /// Whether each of these tests is of a number, and windows alone tell that its word in the
    /// sender's record, which begins with the first byte, is one that fits. Takes no memory.
    #[inline(always)]
    pub fn is_told(&self, bytes: &[u8]) -> bool
        requires { AreTestsInside self.now bytes.now }
        ensures { IsTrue result → AreNumbersThere self.now bytes.now }
    {
        let _tests = self.quick.as_slice();
        match &self.told {
            Some(told) => told.have_fills(bytes, 0),
            None => false,
        }
    }

    /// Whether the two formats are equal.
    pub fn alike(&self) -> bool
        ensures { result ≡ self.now.alike }
    {
        self.alike
    }

    /// The moves that make the records of the list of that number from a sender of this order,
    /// where
    /// gathers make all of them.
    pub fn moves(&self, number: usize, from: Order) -> Option<&Moves>
        ensures { IfSome result (λ moves. IsMovesOf from self.now.order
            (get_or self.now.table number []) moves.now) }
    {
        if self.sender != from || number >= self.moves.len() {
            return None;
        }
        match &self.moves[number] {
            Some(moves) => Some(moves),
            None => None,
        }
    }

    /// The moves that make all of the record, where gathers do: a cell for each byte of its fixed
    /// part.
    #[inline(always)]
    pub fn whole(&self) -> Option<&Moves>
        ensures moves { IfSome result (λ moves. IsWholeOf self.now.sender.order self.now.order
            (last_steps self.now.table) moves.now) }
        ensures fixed { IfSome result (λ moves. length moves.now.cells ≡ self.now.fixed) }
        ensures ordered { IsOrdered self.now.table }
        ensures some { 1 ≤ length self.now.table }
    {
        match &self.whole {
            Some(moves) => Some(moves),
            None => None,
        }
    }

    /// What makes all of the record without a look at its steps; none where it isn't so simple.
    #[inline(always)]
    pub fn laid(&self) -> Option<&Laid>
        ensures laid { IfSome result (λ laid. IsLaidOf self.now.sender.order self.now.order
            (programs self.now.table) (last_steps self.now.table) laid.now) }
        ensures between { IfSome result (λ laid. IsLaidBetween self.now.room self.now.fixed
            self.now.sender.pointer self.now.pointer laid.now) }
        ensures ordered { IsOrdered self.now.table }
        ensures some { 1 ≤ length self.now.table }
    {
        match &self.laid {
            Some(laid) => Some(laid),
            None => None,
        }
    }
}
