//! A queue with one thread: each step is given and taken at once.

ghost use Rattle.std.specs.Prelude.{◌≡◌, ◌∷◌, [], Some, false};
ghost use Rattle.evp_queue.specs.Rule.{progress};
ghost use Rattle.evp_queue.specs.Passes.{giver_of, GivesTo, TakesFrom};

use crate::step::{Ends, Step, opened};
use crate::workload::Workload;
use evp_queue::{GivePass, StoneQueue, TakePass};
use std::alloc::{AllocError, Global};
use std::sync::Wait;

/// Gives and takes so many steps by turns.
#[derive(Drop)]
pub struct Alone<'a, R> {
    pub rt: &'a R,
    pub alloc: Global,
    pub number: u32,
}

impl<'a, R: Wait> Workload for Alone<'a, R> {
    ghost use Rattle.std.specs.Prelude.{⊤};

    ghost ready = { λ _. ⊤ };

    fn name(&self) -> &'static str {
        "queue_alone"
    }

    fn records(&self) -> usize {
        self.number as usize
    }

    fn pass(&self, _out: &mut [u8]) -> u64 {
        match opened(self.rt, self.alloc, self.number) {
            Ok(ends) => {
                let Ends { queue, give, take } = ends;
                by_turns(self.rt, &queue, give, take, self.number)
            }
            Err(_) => 0,
        }
    }

    fn compared(&self, alloc: Global, out: &mut [u8]) -> Result<String, AllocError> {
        let came = self.pass(out);
        format!(in alloc; "{came} of {} steps come in order", self.number)
    }
}

// Gives and takes each step; answers how many came in order.
fn by_turns<R: Wait>(
    rt: &R,
    queue: &StoneQueue<Step>,
    mut give: GivePass<Step>,
    mut take: TakePass<Step>,
    number: u32,
) -> u64
    requires queue { GivesTo queue.now give × TakesFrom queue.now take }
    requires start { giver_of give ≡ progress (Some (record { number = number })) false
        ((0, 0) ∷ []) }
{
    let mut came = 0u64;
    for position in 0..number {
        match queue.give(rt, &mut give, Step { position }) {
            Ok(()) => {}
            Err(_) => return came,
        }
        if let Some(step) = queue.take(rt, &mut take) {
            if step.position == position {
                came = came.wrapping_add(1);
            }
        }
    }
    came
}
