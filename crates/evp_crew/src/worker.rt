//! Workers: each takes seats out of their rotas, does turns, and puts them back.
ghost use Rattle.std.specs.Prelude.{◌≡◌, ◌<◌, length};
ghost use Rattle.evp_crew.specs.Done.{WorksAt, GoesOnWith};
ghost use Rattle.evp_crew.specs.Rota.{three};
ghost use Rattle.evp_crew.specs.Rule.{IsOfThree};

use crate::course::Course;
use crate::crew::Crew;
use crate::gate::Gate;
use crate::rota::{Rota, RotaPass};
use crate::seat::Seat;
use crate::visiting::visit;
use crate::watch::Watch;
use evp_cache::PlanCache;
use evp_stone::{Job, Turn};
use std::sync::Wait;

/// What all workers share.
#[derive(Clone, Copy)]
pub(crate) struct Office<'a> {
    pub(crate) job: &'a Job,
    pub(crate) cache: &'a PlanCache,
    pub(crate) crew: &'a Crew,
    // One for all seats, or one for each by the numbers of actors.
    pub(crate) rotas: &'a [Rota],
    pub(crate) workers: u32,
}

/// A worker's pass of a rota, and whether it found the rota's only seat closed, so that it needn't
/// look again.
#[derive(Drop)]
pub(crate) struct Desk {
    pub(crate) pass: RotaPass,
    pub(crate) is_closed: bool,
}

/// A worker: its number, its passes of the rotas, and the seats that it found closed.
#[derive(Drop)]
pub(crate) struct Worker {
    pub(crate) number: u32,
    pub(crate) desks: Vec<Desk>,
    pub(crate) closed: Vec<Seat>,
}

/// What a worker does next.
#[derive(Drop)]
pub(crate) enum Next {
    // It takes a seat.
    Take,
    // It goes on with this one, from the rota of this number.
    Hold(usize, Seat),
    // It ends.
    End,
}

impl Worker {
    /// Works until it finds no seat in any rota or a turn finds no memory.
    pub(crate) fn work<R: Wait, G: Gate, W: Watch>(
        &mut self,
        rt: &R,
        office: &Office<'_>,
        gate: &G,
        watch: &W,
    )
        requires watch { W.is_for watch.now office.now.job.now }
        requires works { WorksAt office.now.rotas.now
            (three office.now.job.now office.now.cache.now office.now.crew.now) self.old }
        ensures { WorksAt office.now.rotas.now
            (three office.now.job.now office.now.cache.now office.now.crew.now) self.new }
    {
        let mut next = Next::Take;
        let mut course = Course::new(self.number, office.workers, office.rotas.len());
        for _ in rt.forever() {
            next = match next {
                Next::Take => self.take(rt, office, watch, &mut course),
                Next::Hold(number, seat) => {
                    self.serve(rt, office, gate, watch, number, seat, &mut course)
                }
                Next::End => return,
            };
        }
        unreachable!()
    }

    // Takes the next seat out of its rota, or ends where each is empty.
    fn take<R: Wait, W: Watch>(
        &mut self,
        rt: &R,
        office: &Office<'_>,
        watch: &W,
        course: &mut Course,
    ) -> Next
        requires { WorksAt office.now.rotas.now
            (three office.now.job.now office.now.cache.now office.now.crew.now) self.old }
        ensures works { WorksAt office.now.rotas.now
            (three office.now.job.now office.now.cache.now office.now.crew.now) self.new }
        ensures next { GoesOnWith office.now.rotas.now
            (three office.now.job.now office.now.cache.now office.now.crew.now) result }
    {
        pause(watch, course);
        let Some(number) = course.next(office.rotas.len()) else {
            return Next::End;
        };
        let desk = &mut self.desks[number];
        if !desk.is_closed {
            if let Some(seat) = office.rotas[number].take(rt, &mut desk.pass) {
                return Next::Hold(number, seat);
            }
        }
        course.missed(office.rotas.len());
        Next::Take
    }

    // Does turns with a seat and puts it back, or keeps it where it is closed.
    fn serve<R: Wait, G: Gate, W: Watch>(
        &mut self,
        rt: &R,
        office: &Office<'_>,
        gate: &G,
        watch: &W,
        number: usize,
        mut seat: Seat,
        course: &mut Course,
    ) -> Next
        requires watch { W.is_for watch.now office.now.job.now }
        requires works { WorksAt office.now.rotas.now
            (three office.now.job.now office.now.cache.now office.now.crew.now) self.old }
        requires seat { IsOfThree
            (three office.now.job.now office.now.cache.now office.now.crew.now) seat }
        requires number { number < length office.now.rotas.now }
        ensures works { WorksAt office.now.rotas.now
            (three office.now.job.now office.now.cache.now office.now.crew.now) self.new }
        ensures next { GoesOnWith office.now.rotas.now
            (three office.now.job.now office.now.cache.now office.now.crew.now) result }
    {
        let turn = visit(
            rt,
            office,
            gate,
            watch,
            self.number,
            &mut seat,
            &mut course.idle,
        );
        course.left(turn, office.rotas.len(), office.job.parts().sources.len());
        match turn {
            Turn::Closed => {
                let _number = seat.number();
                self.desks[number].is_closed = office.rotas.len() > 1;
                match self.closed.push(seat) {
                    Ok(()) => Next::Take,
                    Err(_) => Next::End,
                }
            }
            Turn::Memory => self.put_back(rt, office, number, seat, Next::End),
            Turn::Moved | Turn::Idle | Turn::Blocked(_) => {
                self.put_back(rt, office, number, seat, Next::Take)
            }
        }
    }

    // Puts a seat back into the rota of this number, and then does this, or goes on with the seat
    // where it is handed back.
    fn put_back<R: Wait>(
        &mut self,
        rt: &R,
        office: &Office<'_>,
        number: usize,
        seat: Seat,
        then: Next,
    ) -> Next
        requires works { WorksAt office.now.rotas.now
            (three office.now.job.now office.now.cache.now office.now.crew.now) self.old }
        requires seat { IsOfThree
            (three office.now.job.now office.now.cache.now office.now.crew.now) seat }
        requires number { number < length office.now.rotas.now }
        requires then { GoesOnWith office.now.rotas.now
            (three office.now.job.now office.now.cache.now office.now.crew.now) then }
        ensures works { WorksAt office.now.rotas.now
            (three office.now.job.now office.now.cache.now office.now.crew.now) self.new }
        ensures next { GoesOnWith office.now.rotas.now
            (three office.now.job.now office.now.cache.now office.now.crew.now) result }
    {
        match office.rotas[number].put(rt, &mut self.desks[number].pass, seat) {
            Ok(()) => then,
            Err(seat) => Next::Hold(number, seat),
        }
    }
}

// Lets the watch work where the turns that were done last moved nothing.
fn pause<W: Watch>(watch: &W, course: &Course) {
    if course.idle > 0 {
        watch.rest();
    }
}
