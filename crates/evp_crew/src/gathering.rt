//! The gathering of the seats that workers found closed.
ghost use Rattle.std.specs.Prelude.{◌≡◌, ◌++◌, ◌∷◌, [], List, length, IfOk, IfSome, OnOk};
ghost use Rattle.evp_crew.specs.declared.rota.Rota.{Rota};
ghost use Rattle.evp_crew.specs.declared.three.Three.{Three};
ghost use Rattle.evp_crew.specs.Carried.{AreSlots, AreFirst};
ghost use Rattle.evp_crew.specs.Done.{IsDone, AreDone};
ghost use Rattle.evp_crew.specs.Gathering.{AllWork};

use crate::seat::Seat;
use crate::seating::add;
use crate::worker::Worker;
use evp_base::Memory;
use std::alloc::Global;

/// The seats that these workers found closed, in the order of actors, or none where one of so many
/// is missing.
pub(crate) fn gathered(
    alloc: Global,
    count: usize,
    mut workers: Vec<Worker>,
) -> Result<Option<Vec<Seat>>, Memory>
    ensures { (rotas : List Rota) (three : Three) → AllWork rotas three workers.items
        → IfOk result (λ found. IfSome found (λ seats. AreFirst three count seats.items)) }
{
    let mut slots = no_seats(alloc, count)?;
    for _ in 0..workers.len() {
        if let Some(worker) = workers.pop() {
            place_all(slots.as_mut_slice(), worker.closed);
        }
    }
    all_of(alloc, slots)
}

// So many places without a seat.
fn no_seats(alloc: Global, count: usize) -> Result<Vec<Option<Seat>>, Memory>
    ensures long { IfOk result (λ slots. length slots.items ≡ count) }
    ensures none { (three : Three) → IfOk result (λ slots. AreSlots three slots.items) }
{
    let mut slots = Vec::with_capacity(alloc, count)?;
    for _ in 0..count {
        slots.push(None)?;
    }
    Ok(slots)
}

// Puts these seats at their places.
fn place_all(slots: &mut [Option<Seat>], mut seats: Vec<Seat>)
    ensures long { length slots.new ≡ length slots.old }
    ensures slots { (three : Three) → AreDone three seats.items → AreSlots three slots.old
        → AreSlots three slots.new }
{
    for _ in 0..seats.len() {
        if let Some(seat) = seats.pop() {
            place(slots, seat);
        }
    }
}

// Puts a seat at its place.
fn place(slots: &mut [Option<Seat>], seat: Seat)
    ensures long { length slots.new ≡ length slots.old }
    ensures slots { (three : Three) → IsDone three seat → AreSlots three slots.old
        → AreSlots three slots.new }
{
    let number = usize::from(seat.number());
    if number < slots.len() {
        slots[number] = Some(seat);
    }
}

// The seats of all places, or none where one is missing.
fn all_of(alloc: Global, mut slots: Vec<Option<Seat>>) -> Result<Option<Vec<Seat>>, Memory>
    ensures { (three : Three) → AreSlots three slots.items → IfOk result (λ found.
        IfSome found (λ seats. AreFirst three (length slots.items) seats.items)) }
{
    let mut seats = Vec::with_capacity(alloc, slots.len())?;
    for number in 0..slots.len() {
        let Some(seat) = slots[number].take() else {
            return Ok(None);
        };
        add(&mut seats, seat)?;
    }
    Ok(Some(seats))
}
