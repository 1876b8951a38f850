//! What goes through a queue: steps of one route, which count up from 0.

ghost use Rattle.std.specs.Prelude.{◌≡◌, ◌∷◌, [], IfOk, Some, false};
ghost use Rattle.evp_queue.specs.Rule.{progress};
ghost use Rattle.evp_queue.specs.Passes.{giver_of, GivesTo, TakesFrom};

use evp_base::Memory;
use evp_queue::{GivePass, Placed, StoneQueue, TakePass};
use std::alloc::Global;
use std::sync::Wait;

/// How many entries the queue holds at most.
const CAPACITY: u32 = 1024;

/// A step of the route.
#[derive(Clone, Copy)]
pub struct Step {
    pub position: u32,
}

/// How many steps the route has.
#[derive(Clone, Copy)]
pub struct Steps {
    pub number: u32,
}

impl Placed for Step {
    ghost use Rattle.std.specs.Prelude.{ℕ, ◌≡◌};
    ghost use Rattle.std.specs.List.{range_with_len};

    type Whole = Steps;

    ghost Fact = { ℕ };

    ghost flow = { λ steps route. range_with_len 0 steps.number };

    ghost stands_for = { λ step fact. step.position ≡ fact };

    ghost route_of = { λ step. 0 };

    ghost position_of = { λ step. step.position };

    fn route(&self) -> u16 {
        0
    }

    fn position(&self) -> u32 {
        self.position
    }
}

/// A queue with both ends.
#[derive(Drop)]
pub struct Ends {
    pub queue: StoneQueue<Step>,
    pub give: GivePass<Step>,
    pub take: TakePass<Step>,
}

/// A queue of 1,024 places for so many steps.
pub fn opened<R: Wait>(rt: &R, alloc: Global, number: u32) -> Result<Ends, Memory>
    ensures { IfOk result (λ ends. GivesTo ends.queue ends.give × TakesFrom ends.queue ends.take
        × (giver_of ends.give ≡ progress (Some (record { number = number })) false
        ((0, 0) ∷ []))) }
{
    let steps = Steps { number };
    let (queue, give, take) = StoneQueue::<Step>::new(rt, alloc, CAPACITY, &[0], &steps)?;
    Ok(Ends { queue, give, take })
}
