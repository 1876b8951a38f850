//! The rotas of a crew: one for all seats, or one for each.
ghost use Rattle.std.specs.Prelude.{◌≡◌, ◌+◌, ◌<◌, ◌++◌, ◌∷◌, [], Some, length, All};
ghost use Rattle.std.specs.Prelude.{IfOk, IfSome, IfNone, OnOk, false};
ghost use Rattle.crossbeam_queue.specs.Fifo.{Held};
ghost use Rattle.evp_crew.specs.Parting.{actors_of};
ghost use Rattle.evp_crew.specs.declared.three.Three.{Three};
ghost use Rattle.evp_crew.specs.Rota.{three, three_of, room_of, ServesIn, AreServing, IsServing};
ghost use Rattle.evp_crew.specs.Rule.{IsOfThree, IsServed, Seen};

use crate::crew::Crew;
use crate::rota::{Rota, RotaPass};
use crate::seat::Seat;
use crate::worker::{Desk, Office};
use evp_base::Memory;
use evp_cache::PlanCache;
use evp_stone::Job;
use std::alloc::Global;
use std::sync::Wait;

/// Where the seats stand that no worker holds.
#[derive(Clone, Copy)]
pub(crate) enum Order {
    // All in one rota, in the order of actors: the one that has stood there longest is the next.
    Queued,
    // Each in a rota of its own, so that a worker chooses.
    Chosen,
}

/// The rotas of a crew with its seats in them, and a desk at each rota. None where a seat was handed
/// back.
pub(crate) fn rotas_of<R: Wait>(
    order: Order,
    rt: &R,
    alloc: Global,
    job: &Job,
    cache: &PlanCache,
    crew: &Crew,
    seats: Vec<Seat>,
) -> Result<Option<(Vec<Rota>, Vec<Desk>)>, Memory>
    requires { All (IsOfThree (three job.now cache.now crew.now)) seats.items }
    ensures { IfOk result (λ found. IfSome found (λ made.
        AreServing (three job.now cache.now crew.now) made.0.items made.1.items)) }
{
    match order {
        Order::Queued => one_rota(rt, alloc, job, cache, crew, seats),
        Order::Chosen => a_rota_each(rt, alloc, job, cache, crew, seats),
    }
}

// One rota with all these seats.
fn one_rota<R: Wait>(
    rt: &R,
    alloc: Global,
    job: &Job,
    cache: &PlanCache,
    crew: &Crew,
    seats: Vec<Seat>,
) -> Result<Option<(Vec<Rota>, Vec<Desk>)>, Memory>
    requires { All (IsOfThree (three job.now cache.now crew.now)) seats.items }
    ensures serving { IfOk result (λ found. IfSome found (λ made.
        AreServing (three job.now cache.now crew.now) made.0.items made.1.items)) }
    ensures one { IfOk result (λ found. IfSome found (λ made. length made.0.items ≡ 1)) }
    ensures back { IfOk result (λ found. IfNone found (Held (actors_of job.now)
        (Seen (Some (three job.now cache.now crew.now))))) }
{
    let (rota, mut pass) = Rota::new(rt, alloc, job, cache, crew)?;
    if !put_all(rt, &rota, &mut pass, seats) {
        return Ok(None);
    }
    let mut rotas = Vec::with_capacity(alloc, 1)?;
    let mut desks = Vec::with_capacity(alloc, 1)?;
    add_rota(&mut rotas, &mut desks, rota, pass)?;
    Ok(Some((rotas, desks)))
}

// Puts seats into the rota. False where one was handed back.
fn put_all<R: Wait>(rt: &R, rota: &Rota, pass: &mut RotaPass, seats: Vec<Seat>) -> bool
    requires pass { ServesIn rota.now pass.old }
    requires seats { All (IsServed (three_of pass.old)) seats.items }
    ensures pass { ServesIn rota.now pass.new × (three_of pass.new ≡ three_of pass.old) }
    ensures back { result ≡ false → Held (room_of rota.now) (Seen (three_of pass.old)) }
{
    for seat in seats {
        if rota.put(rt, pass, seat).is_err() {
            return false;
        }
    }
    true
}

// A rota for each of these seats.
fn a_rota_each<R: Wait>(
    rt: &R,
    alloc: Global,
    job: &Job,
    cache: &PlanCache,
    crew: &Crew,
    seats: Vec<Seat>,
) -> Result<Option<(Vec<Rota>, Vec<Desk>)>, Memory>
    requires { All (IsOfThree (three job.now cache.now crew.now)) seats.items }
    ensures serving { IfOk result (λ found. IfSome found (λ made.
        AreServing (three job.now cache.now crew.now) made.0.items made.1.items)) }
    ensures each { IfOk result (λ found. IfSome found (λ made.
        length made.0.items ≡ length seats.items)) }
    ensures back { IfOk result (λ found. IfNone found
        (Held 1 (Seen (Some (three job.now cache.now crew.now))))) }
{
    let mut rotas = Vec::with_capacity(alloc, seats.len())?;
    let mut desks = Vec::with_capacity(alloc, seats.len())?;
    for seat in seats {
        let (rota, mut pass) = Rota::with_room(alloc, 1, job, cache, crew)?;
        if let Err(_seat) = rota.put(rt, &mut pass, seat) {
            return Ok(None);
        }
        add_rota(&mut rotas, &mut desks, rota, pass)?;
    }
    Ok(Some((rotas, desks)))
}

// Adds a rota, and a desk at it with this pass.
fn add_rota(
    rotas: &mut Vec<Rota>,
    desks: &mut Vec<Desk>,
    rota: Rota,
    pass: RotaPass,
) -> Result<(), Memory>
    ensures serving { OnOk result ((three : Three) → AreServing three rotas.old.items desks.old.items
        → IsServing three rota pass → AreServing three rotas.new.items desks.new.items) }
    ensures one { OnOk result (length rotas.new.items ≡ length rotas.old.items + 1) }
{
    add(rotas, rota)?;
    add(desks, desk_of(pass))?;
    Ok(())
}

// A pass of a rota whose seat isn't known to be closed.
fn desk_of(pass: RotaPass) -> Desk
    ensures { result.pass ≡ pass }
{
    Desk {
        pass,
        is_closed: false,
    }
}

/// Adds one at the end.
pub(crate) fn add<T: Drop>(list: &mut Vec<T>, one: T) -> Result<(), Memory>
    ensures { OnOk result (list.new.items ≡ list.old.items ++ one ∷ []) }
{
    Ok(list.push(one)?)
}

/// One more desk at each rota of an office.
pub(crate) fn more_desks<R: Wait>(
    rt: &R,
    alloc: Global,
    office: &Office<'_>,
    desks: &mut [Desk],
) -> Result<Vec<Desk>, Memory>
    requires { AreServing (three office.now.job.now office.now.cache.now office.now.crew.now)
        office.now.rotas.now desks.old }
    ensures kept { AreServing
        (three office.now.job.now office.now.cache.now office.now.crew.now)
        office.now.rotas.now desks.new }
    ensures more { IfOk result (λ more. AreServing
        (three office.now.job.now office.now.cache.now office.now.crew.now)
        office.now.rotas.now more.items) }
{
    let mut more = Vec::with_capacity(alloc, office.rotas.len())?;
    for place in 0..office.rotas.len() {
        let pass = office.rotas[place].split(rt, &mut desks[place].pass)?;
        add(&mut more, desk_of(pass))?;
    }
    Ok(more)
}
