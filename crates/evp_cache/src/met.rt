//! A pair of formats that a pass has met.
ghost use Rattle.std.specs.Prelude.{◌≡◌, ◌⊎◌, IfOk, IsTrue, Some, IsSome};
ghost use Rattle.evp_plan.specs.Counts.{raised};
ghost use Rattle.once_cell.specs.Once.{cell_name};
ghost use Rattle.evp_cache.specs.Finding.{IsFound, IsOf};
ghost use Rattle.evp_cache.specs.Met.{either, value_in, kept_of, IsMet};

use crate::kept::Kept;
use evp_base::Memory;
use evp_format::Format;
use evp_plan::Builds;
use once_cell::race::{Note, OnceBox};
use std::alloc::Global;

// Two formats and their numbers.
#[derive(Clone, Copy)]
pub(crate) struct Pair<'a> {
    pub(crate) from: u16,
    pub(crate) to: u16,
    pub(crate) sender: &'a Format,
    pub(crate) receiver: &'a Format,
}

// A pair that a pass has met, with a note of its cell. Where the cell is of other formats, the pass
// keeps what it found itself.
#[derive(Drop)]
pub(crate) struct Met {
    pub(crate) from: u16,
    pub(crate) to: u16,
    pub(crate) note: Note<Kept>,
    pub(crate) own: Option<Box<Kept>>,
}

// Meets a pair. What its cell keeps serves where it is of these formats; else the pair is built,
// and kept by the cell where that is empty.
pub(crate) fn meet(
    alloc: Global,
    cell: &OnceBox<Kept>,
    pair: &Pair<'_>,
    builds: &mut Builds,
) -> Result<Met, Memory>
    ensures met { IfOk result (λ met. IsMet pair.now.from pair.now.to (cell_name cell.now) met) }
    ensures kept { IfOk result (λ met.
        IsOf pair.now.sender.now pair.now.receiver.now (kept_of met)) }
    ensures builds { (builds.new ≡ builds.old) ⊎ (builds.new ≡ raised builds.old) }
{
    let mut note = cell.note();
    let own = if is_kept(cell, &mut note, pair) {
        None
    } else {
        build_once(alloc, cell, &mut note, pair, builds)?
    };
    Ok(Met {
        from: pair.from,
        to: pair.to,
        note,
        own,
    })
}

// Builds a pair for the cell. What was built comes back where the cell is of other formats.
fn build_once(
    alloc: Global,
    cell: &OnceBox<Kept>,
    note: &mut Note<Kept>,
    pair: &Pair<'_>,
    builds: &mut Builds,
) -> Result<Option<Box<Kept>>, Memory>
    requires { note.old.cell ≡ cell_name cell.now }
    ensures cell { note.new.cell ≡ note.old.cell }
    ensures kept { IfOk result (λ own. IsOf pair.now.sender.now pair.now.receiver.now
        (either (value_in own) note.new.known)) }
    ensures builds { builds.new ≡ raised builds.old }
{
    let built = Kept::built(alloc, pair.sender, pair.receiver, builds)?;
    match cell.set_as(Box::new(alloc, built)?, note) {
        Ok(()) => Ok(None),
        Err(built) => {
            if is_kept(cell, note, pair) {
                Ok(None)
            } else {
                Ok(Some(built))
            }
        }
    }
}

// Whether the cell keeps what was found for these formats.
fn is_kept(cell: &OnceBox<Kept>, note: &mut Note<Kept>, pair: &Pair<'_>) -> bool
    requires { note.old.cell ≡ cell_name cell.now }
    ensures cell { note.new.cell ≡ note.old.cell }
    ensures kept { IsTrue result → IsOf pair.now.sender.now pair.now.receiver.now note.new.known }
{
    match cell.get_as(note) {
        Some(kept) => kept.is_of(pair.sender, pair.receiver),
        None => false,
    }
}

// What the cell keeps, of which the note knows.
pub(crate) fn kept_in<'a>(cell: &'a OnceBox<Kept>, note: &mut Note<Kept>) -> &'a Kept
    requires cell { note.old.cell ≡ cell_name cell.now }
    requires known { IsSome note.old.known }
    ensures same { note.new ≡ note.old }
    ensures value { note.old.known ≡ Some result.now }
{
    match cell.get_as(note) {
        Some(kept) => kept,
        None => unreachable!(),
    }
}
