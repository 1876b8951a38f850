//! Visits: the turns that a worker does with a seat between taking it out and putting it back.
ghost use Rattle.std.specs.Prelude.{◌≡◌};
ghost use Rattle.evp_stone.specs.Closed.{IsClosed};
ghost use Rattle.evp_crew.specs.Done.{IfClosed};
ghost use Rattle.evp_crew.specs.Rota.{three};
ghost use Rattle.evp_crew.specs.Rule.{IsOfThree};
ghost use Rattle.evp_crew.specs.Visit.{Sits};

use crate::gate::Gate;
use crate::passes::Passes;
use crate::port::CrewPort;
use crate::seat::{Equipped, Seat};
use crate::watch::Watch;
use crate::worker::Office;
use evp_stone::{Actor, Turn};
use std::mem;
use std::sync::Wait;

// How many turns a worker does with a seat before it puts it back.
const MOST_TURNS: u32 = 64;

// Does turns with a seat while they move, with the gate before each and a look at its actor behind
// them. It is one more in a row that moved nothing, or the row is at its end. The passes leave the
// seat for all these turns at once.
pub(crate) fn visit<R: Wait, G: Gate, W: Watch>(
    rt: &R,
    office: &Office<'_>,
    gate: &G,
    watch: &W,
    worker: u32,
    seat: &mut Seat,
    idle: &mut u32,
) -> Turn
    requires watch { W.is_for watch.now office.now.job.now }
    requires seat { IsOfThree
        (three office.now.job.now office.now.cache.now office.now.crew.now) seat.old }
    ensures of { IsOfThree
        (three office.now.job.now office.now.cache.now office.now.crew.now) seat.new }
    ensures closed { IfClosed result (IsClosed office.now.job.now seat.new.actor.role) }
{
    let number = seat.number;
    let Equipped { actor, passes } = &mut **seat.equipped;
    let none = Passes::none(passes.alloc);
    let mut port = CrewPort::new(rt, office.crew, office.job, mem::replace(passes, none));
    let turn = turns(office, gate, worker, number, actor, &mut port, idle);
    watch.look(office.job, actor);
    *passes = port.into_passes();
    turn
}

// Turns of an actor at its port while they move. It is one more in a row that moved nothing, or
// the row is at its end.
fn turns<R: Wait, G: Gate>(
    office: &Office<'_>,
    gate: &G,
    worker: u32,
    number: u16,
    actor: &mut Actor,
    port: &mut CrewPort<'_, R>,
    idle: &mut u32,
) -> Turn
    requires { Sits (three office.now.job.now office.now.cache.now office.now.crew.now)
        number actor.old port.old }
    ensures sits { Sits (three office.now.job.now office.now.cache.now office.now.crew.now)
        number actor.new port.new }
    ensures closed { IfClosed result (IsClosed office.now.job.now actor.new.role) }
{
    *idle = idle.saturating_add(1);
    for _ in 0..MOST_TURNS {
        let turn = turn(office, gate, worker, number, actor, port);
        if turn != Turn::Moved {
            return turn;
        }
        *idle = 0;
    }
    Turn::Moved
}

// One turn of an actor at its port, with the gate before it.
fn turn<R: Wait, G: Gate>(
    office: &Office<'_>,
    gate: &G,
    worker: u32,
    number: u16,
    actor: &mut Actor,
    port: &mut CrewPort<'_, R>,
) -> Turn
    requires { Sits (three office.now.job.now office.now.cache.now office.now.crew.now)
        number actor.old port.old }
    ensures sits { Sits (three office.now.job.now office.now.cache.now office.now.crew.now)
        number actor.new port.new }
    ensures closed { IfClosed result (IsClosed office.now.job.now actor.new.role) }
{
    gate.before(worker, u32::from(number));
    let turn = actor.turn(office.job, office.cache, port);
    let _passes = port.passes();
    turn
}
