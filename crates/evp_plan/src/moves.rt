//! Moves of a record's bytes, sixteen at once.

ghost use Rattle.std.specs.Prelude.{◌≡◌, ◌+◌, ◌*◌, ◌≤◌, ◌<◌, ℕ, length, replicate, IfOk, IfSome};
ghost use Rattle.std.specs.List.{All};
ghost use Rattle.evp_plan.specs.Cells.{painted_at, painted_each, AreMovesWithin, IsMovesOf};
ghost use Rattle.evp_plan.specs.Cells.{IsWholeOf, AreMovesOf};
ghost use Rattle.evp_plan.specs.Laid.{AreCellsOf};

use crate::compiling::{MOST, are_same, end_of, filled, lay_all, lay_steps, reach_of};
use crate::fours::{are_only_fours, are_only_plain, both_of, fours_of, gathers_from, two_of};
use crate::gather::{Both, Four, Gather, Gathers, Two};
use crate::gathering::gathers_for;
use crate::running::{run_gathers_each, run_in_fours, run_rest, run_two};
use crate::running_pairs::{run_behind, run_both, run_pairs_each};
use crate::{Cell, Series, Step, Steps};
use evp_base::{Memory, Order};
use std::alloc::Global;
use std::marker::Model;

/// Moves that make the bytes of a receiver's record from those of a sender's.
#[derive(Debug, Drop)]
pub struct Moves {
    gathers: Gathers,
    // The plain gathers, as far as they go four at a time, and the rest of them.
    fours: Vec<Four>,
    rest: Vec<Gather>,
    // The plain gathers, where they are two.
    two: Option<Two>,
    // The pairs, where they are two and the last there is.
    both: Option<Both>,
    // Whether the plain gathers are all there is.
    only_plain: bool,
    // Whether the fours are.
    only_fours: bool,
    length: u32,
    reach: u32,
}

impl Model for Moves {
    ghost use Rattle.std.specs.Prelude.{◌≡◌, true, replicate, IfSome};
    ghost use Rattle.evp_plan.specs.declared.cell.Cell.TheVariants.{Keep};
    ghost use Rattle.evp_plan.specs.Cells.{Moving, AreWithin};
    ghost use Rattle.evp_plan.specs.Fours.{AreParted, AreOnlyPlain, AreOnlyFours, AreTwo};
    ghost use Rattle.evp_plan.specs.Pairs.{all_over, AreBoth};

    ghost Value = { Moving };

    ghost view = { λ m. record {
      cells = all_over m.gathers (replicate m.length Keep);
      reach = m.reach;
    } };

    ghost invariant = { λ m. AreWithin m.length m.reach m.gathers
        × (AreParted m.gathers.plain.items m.fours.items m.rest.items
        × ((m.only_plain ≡ true → AreOnlyPlain m.gathers)
        × ((m.only_fours ≡ true → AreOnlyFours m.gathers m.rest.items)
        × (IfSome m.two (AreTwo m.gathers.plain.items)
        × IfSome m.both (AreBoth m.gathers))))) };
}

impl Moves {
    /// How many bytes they make.
    pub fn length(&self) -> usize
        ensures { result ≡ length self.now.cells }
    {
        self.length as usize
    }

    /// How many bytes of the sender's record they read.
    #[inline(always)]
    pub fn reach(&self) -> usize
        ensures { result ≡ self.now.reach }
    {
        self.reach as usize
    }

    /// Makes the bytes of `out` from t on, from the sender's record at `at`. Takes no memory.
    #[inline(always)]
    pub fn run(&self, out: &mut [u8], t: usize, from: &[u8], at: usize)
        requires reach { at + self.now.reach ≤ length from.now }
        requires room { t + length self.now.cells ≤ length out.old }
        ensures made { out.new ≡ painted_at from.now at t self.now.cells out.old }
        ensures bytes { All (λ byte. byte < 256) from.now }
    {
        match &self.two {
            Some(two) => {
                run_two(two, out, t, from, at);
                if self.only_plain {
                    return;
                }
                if let Some(both) = &self.both {
                    run_both(both, out, t, from, at);
                    return;
                }
            }
            None => {
                run_in_fours(self.fours.as_slice(), out, t, from, at);
                if self.only_fours {
                    return;
                }
                run_rest(self.rest.as_slice(), out, t, from, at);
            }
        }
        run_behind(&self.gathers, out, t, from, at);
    }

    /// Makes the bytes of n records of `out`, each from one of the sender's records. Takes no memory.
    pub fn run_each(&self, out: &mut [u8], to: Series, from: &[u8], at: Series, n: usize)
        requires reach { (k : ℕ) → k < n
            → at.first + k * at.apart + self.now.reach ≤ length from.now }
        requires room { (k : ℕ) → k < n
            → to.first + k * to.apart + length self.now.cells ≤ length out.old }
        ensures { out.new ≡ painted_each from.now at.first at.apart to.first to.apart n
            self.now.cells out.old }
    {
        // where one record doesn't reach into the next, their order doesn't matter
        if to.apart >= self.length as usize {
            run_gathers_each(self.gathers.plain.as_slice(), true, out, to, from, at, n);
            run_pairs_each(self.gathers.pairs.as_slice(), out, to, from, at, n);
            run_gathers_each(self.gathers.mixed.as_slice(), false, out, to, from, at, n);
            return;
        }
        for k in 0..n {
            self.run(out, to.first + k * to.apart, from, at.first + k * at.apart);
        }
    }
}

// The moves that make what these steps make of so many cells of one kind, from a sender of that
// order whose record has at least so many bytes; none where gathers don't make all of it.
fn moves_over(
    alloc: Global,
    order: Order,
    from: Order,
    steps: &[Step],
    below: Cell,
    count: u32,
    room: u32,
) -> Result<Option<Moves>, Memory>
    ensures { IfOk result (λ made. IfSome made (AreMovesWithin from order steps.now
        (replicate count below) room)) }
{
    let reach = reach_of(steps).max(u64::from(room));
    if count > MOST || reach > u64::from(MOST) {
        return Ok(None);
    }
    let mut cells = filled(alloc, below, count as usize)?;
    if !lay_steps(alloc, order, from, steps, cells.as_mut_slice())? {
        return Ok(None);
    }
    let gathers = gathers_for(alloc, cells.as_slice(), reach as u32)?;
    let mut made = filled(alloc, Cell::Keep, count as usize)?;
    if !lay_all(alloc, &gathers, made.as_mut_slice())? {
        return Ok(None);
    }
    if !are_same(made.as_slice(), cells.as_slice()) {
        return Ok(None);
    }
    let fours = fours_of(alloc, gathers.plain.as_slice())?;
    let rest = gathers_from(alloc, gathers.plain.as_slice(), fours.len() * 4)?;
    let two = two_of(gathers.plain.as_slice());
    let both = both_of(&gathers);
    let only_plain = are_only_plain(&gathers);
    let only_fours = are_only_fours(&gathers, rest.as_slice());
    Ok(Some(Moves {
        gathers,
        fours,
        rest,
        two,
        both,
        only_plain,
        only_fours,
        length: count,
        reach: reach as u32,
    }))
}

// The moves that make what these steps make, from a sender of that order, and keep what stood
// between.
fn moves_of(
    alloc: Global,
    order: Order,
    from: Order,
    steps: &[Step],
) -> Result<Option<Moves>, Memory>
    ensures { IfOk result (λ made. IfSome made (IsMovesOf from order steps.now)) }
{
    let end = end_of(steps);
    if end > u64::from(MOST) {
        return Ok(None);
    }
    moves_over(alloc, order, from, steps, Cell::Keep, end as u32, 0)
}

// The moves that make all of a record of so many bytes by these steps, and zeros between: so many
// cells.
pub(crate) fn whole_of(
    alloc: Global,
    order: Order,
    from: Order,
    steps: &[Step],
    count: u32,
) -> Result<Option<Moves>, Memory>
    ensures { IfOk result (λ made. IfSome made (λ moves. IsWholeOf from order steps.now moves
        × (length moves.cells ≡ count))) }
{
    if end_of(steps) > u64::from(count) {
        return Ok(None);
    }
    moves_over(alloc, order, from, steps, Cell::Constant(0), count, 0)
}

// The same from a sender whose record has at least so many bytes.
pub(crate) fn whole_with(
    alloc: Global,
    order: Order,
    from: Order,
    steps: &[Step],
    count: u32,
    room: u32,
) -> Result<Option<Moves>, Memory>
    ensures cells { IfOk result (λ made. IfSome made (λ moves. AreCellsOf from order steps.now
        moves.cells)) }
    ensures length { IfOk result (λ made. IfSome made (λ moves. length moves.cells ≡ count)) }
{
    if end_of(steps) > u64::from(count) {
        return Ok(None);
    }
    moves_over(alloc, order, from, steps, Cell::Constant(0), count, room)
}

// The moves for each list of steps.
pub(crate) fn all_moves(
    alloc: Global,
    order: Order,
    from: Order,
    table: &[Steps],
) -> Result<Vec<Option<Moves>>, Memory>
    ensures { IfOk result (λ moves. AreMovesOf from order table.now moves.items) }
{
    let mut moves = Vec::with_capacity(alloc, table.len())?;
    for steps in table {
        moves.push(moves_of(alloc, order, from, steps.as_slice())?)?;
    }
    Ok(moves)
}
