//! A queue between two threads: one gives all steps, the other takes them.

ghost use Rattle.std.specs.Prelude.{◌≡◌, ◌∷◌, [], Some, false};
ghost use Rattle.evp_queue.specs.Rule.{progress, one_more, IsNext};
ghost use Rattle.evp_queue.specs.Passes.{giver_of, GivesTo, TakesFrom};

use crate::step::{Ends, Step, opened};
use anyhow::{Result, ensure};
use evp_base::Memory;
use evp_queue::{GivePass, Given, Placed, StoneQueue, TakePass};
use std::alloc::Global;
use std::sync::Wait;
use std::thread;
use std::thread::{Threads, join};
use std::time::{Clock, Instant};

/// How many steps go through the queue at a time.
const STEPS: u32 = 100_000;

/// How many times they do.
const TIMES: u32 = 40;

/// The workload's line: the best time of a step in nanoseconds, or how many steps come in order. An
/// error where a step doesn't come while it is timed, the clock fails or memory runs out.
pub fn line<R: Threads + Wait + Sync>(
    rt: &R,
    clock: &impl Clock,
    alloc: Global,
    timed: bool,
) -> Result<String> {
    if timed {
        let time = best_of_two(rt, clock, alloc)?;
        Ok(format!(in alloc; "queue_two {}.{:03}", time / 1000, time % 1000)?)
    } else {
        let came = carried(rt, alloc)?;
        Ok(format!(in alloc; "queue_two: {came} of {STEPS} steps come in order")?)
    }
}

// The best time of a step, in thousandths of a nanosecond, of many times with two threads. An error
// where a step doesn't come, the clock fails or memory runs out.
fn best_of_two<R: Threads + Wait + Sync>(
    rt: &R,
    clock: &impl Clock,
    alloc: Global,
) -> Result<u128> {
    let mut best = u128::MAX;
    for _ in 0..TIMES {
        let start = Instant::now(clock)?;
        let came = carried(rt, alloc)?;
        let took = start.elapsed(clock)?.as_nanos();
        ensure!(came == STEPS, "{came} steps came in order");
        best = best.min(took);
    }
    Ok(best.saturating_mul(1000) / u128::from(STEPS))
}

// Carries all steps once; answers how many came in order. `Memory` where memory ran out.
fn carried<R: Threads + Wait + Sync>(rt: &R, alloc: Global) -> Result<u32, Memory> {
    let Ends { queue, give, take } = opened(rt, alloc, STEPS)?;
    Ok(at_once(rt, &queue, give, take, STEPS))
}

// Gives and takes so many steps, each in a thread of its own; answers how many came in order.
fn at_once<R: Threads + Wait + Sync>(
    rt: &R,
    queue: &StoneQueue<Step>,
    give: GivePass<Step>,
    take: TakePass<Step>,
    number: u32,
) -> u32
    requires queue { GivesTo queue.now give × TakesFrom queue.now take }
    requires start { giver_of give ≡ progress (Some (record { number = number })) false
        ((0, 0) ∷ []) }
{
    let (_, came) = join(
        rt,
        move ||
            requires { GivesTo queue.now give
                × (giver_of give ≡ progress (Some (record { number = number })) false
                ((0, 0) ∷ [])) }
        { give_all(rt, queue, give, number) },
        move ||
            requires { TakesFrom queue.now take }
        { take_all(rt, queue, take, number) },
    );
    came
}

// Gives all steps.
fn give_all<R: Wait>(rt: &R, queue: &StoneQueue<Step>, mut pass: GivePass<Step>, number: u32)
    requires queue { GivesTo queue.now pass }
    requires start { giver_of pass ≡ progress (Some (record { number = number })) false
        ((0, 0) ∷ []) }
{
    for position in 0..number {
        give_again(rt, queue, &mut pass, Step { position });
    }
}

// Gives an entry, and tries again where the queue is full.
fn give_again<E: Placed + Drop, R: Wait>(
    rt: &R,
    queue: &StoneQueue<E>,
    pass: &mut GivePass<E>,
    mut entry: E,
)
    requires queue { GivesTo queue.now pass.old }
    requires next { IsNext E.route_of E.position_of E.flow E.stands_for (giver_of pass.old) entry }
    ensures queue { GivesTo queue.now pass.new }
    ensures given { giver_of pass.new
        ≡ one_more (E.route_of entry) (giver_of pass.old) }
{
    for _ in rt.forever() {
        match queue.give(rt, pass, entry) {
            Ok(()) => return,
            Err(Given::Full(back)) => entry = back,
            Err(Given::Memory(_)) => unreachable!(),
        }
        thread::yield_now();
    }
    unreachable!()
}

// Takes so many steps; answers how many came in order.
fn take_all<R: Wait>(rt: &R, queue: &StoneQueue<Step>, mut pass: TakePass<Step>, number: u32) -> u32
    requires { TakesFrom queue.now pass }
{
    let mut came = 0u32;
    let mut taken = 0u32;
    for _ in rt.forever() {
        if taken >= number {
            break;
        }
        match queue.take(rt, &mut pass) {
            None => thread::yield_now(),
            Some(step) => {
                if step.position == taken {
                    came = came.wrapping_add(1);
                }
                taken += 1;
            }
        }
    }
    came
}
