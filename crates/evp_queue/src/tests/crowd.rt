//! Four givers of three routes each and one taker, each in a thread of its own.
ghost use Rattle.std.specs.Prelude.{◌≡◌, ◌+◌, ◌<◌, Some, IfSome, false, [], ◌∷◌};
ghost use Rattle.std.specs.Thread.{IsSync};
ghost use Rattle.evp_queue.specs.Counts.{zeroed};
ghost use Rattle.evp_queue.specs.Rule.{progress, one_more, IsNext};
ghost use Rattle.evp_queue.specs.Passes.{giver_of, GivesTo, TakesFrom};

use crate::{GivePass, Given, Placed, StoneQueue, TakePass};
use evp_base::Memory;
use std::alloc::Global;
use std::sync::Wait;
use std::test::*;
use std::thread;
use std::thread::{Threads, join};

/// A step of a route, which counts up from 0.
#[derive(Clone, Copy)]
struct Step {
    route: u16,
    position: u32,
}

/// How many steps each route has.
#[derive(Clone, Copy)]
struct Steps {
    number: u32,
}

impl Placed for Step {
    ghost use Rattle.std.specs.Prelude.{ℕ, ◌≡◌};
    ghost use Rattle.std.specs.List.{range_with_len};

    type Whole = Steps;

    ghost Fact = { ℕ };

    ghost flow = { λ steps route. range_with_len 0 steps.number };

    ghost stands_for = { λ step fact. step.position ≡ fact };

    ghost route_of = { λ step. step.route };

    ghost position_of = { λ step. step.position };

    fn route(&self) -> u16 {
        self.route
    }

    fn position(&self) -> u32 {
        self.position
    }
}

/// Gives an entry, and tries again where the queue is full.
fn give_again<E: Placed + Drop, R: Wait>(
    rt: &R,
    queue: &StoneQueue<E>,
    pass: &mut GivePass<E>,
    mut entry: E,
)
    requires queue { GivesTo queue.now pass.old }
    requires next { IsNext E.route_of E.position_of E.flow E.stands_for (giver_of pass.old) entry }
    ensures queue { GivesTo queue.now pass.new }
    ensures given { giver_of pass.new
        ≡ one_more (E.route_of entry) (giver_of pass.old) }
{
    for _ in rt.forever() {
        match queue.give(rt, pass, entry) {
            Ok(()) => return,
            Err(Given::Full(back)) => entry = back,
            Err(Given::Memory(_)) => unreachable!(),
        }
        thread::yield_now();
    }
    unreachable!()
}

/// Gives all steps of three neighbouring routes, in turns.
fn give_all<R: Wait>(
    rt: &R,
    queue: &StoneQueue<Step>,
    mut pass: GivePass<Step>,
    first: u16,
    number: u32,
)
    requires queue { GivesTo queue.now pass }
    requires small { first < 100 }
    requires start { giver_of pass ≡ progress (Some (record { number = number })) false
        ((first, 0) ∷ (first + 1, 0) ∷ (first + 2, 0) ∷ []) }
{
    for position in 0..number {
        let route = first;
        give_again(rt, queue, &mut pass, Step { route, position });
        let route = first + 1;
        give_again(rt, queue, &mut pass, Step { route, position });
        let route = first + 2;
        give_again(rt, queue, &mut pass, Step { route, position });
    }
}

/// Takes so many steps, and answers for each route how many came in order.
fn take_all<R: Wait>(
    rt: &R,
    queue: &StoneQueue<Step>,
    mut pass: TakePass<Step>,
    number: u32,
) -> [u32; 12]
    requires { TakesFrom queue.now pass }
{
    let mut next = [0u32; 12];
    let mut taken = 0;
    for _ in rt.forever() {
        if taken >= number {
            break;
        }
        match queue.take(rt, &mut pass) {
            None => thread::yield_now(),
            Some(step) => {
                taken += 1;
                if let Some(seen) = next.get_mut(step.route as usize) {
                    if *seen == step.position {
                        *seen = seen.wrapping_add(1);
                    }
                }
            }
        }
    }
    next
}

/// Two givers of six neighbouring routes, each in a thread of its own.
fn give_both<R: Threads + Wait + Sync>(
    rt: &R,
    queue: &StoneQueue<Step>,
    one: GivePass<Step>,
    two: GivePass<Step>,
    first: u16,
    number: u32,
)
    requires queue { GivesTo queue.now one × GivesTo queue.now two }
    requires small { first < 50 }
    requires one { giver_of one ≡ progress (Some (record { number = number })) false
        ((first, 0) ∷ (first + 1, 0) ∷ (first + 2, 0) ∷ []) }
    requires two { giver_of two ≡ progress (Some (record { number = number })) false
        ((first + 3, 0) ∷ (first + 3 + 1, 0) ∷ (first + 3 + 2, 0) ∷ []) }
{
    join(
        rt,
        move ||
            requires { GivesTo queue.now one × (first < 50)
                × (giver_of one ≡ progress (Some (record { number = number })) false
                ((first, 0) ∷ (first + 1, 0) ∷ (first + 2, 0) ∷ [])) }
        { give_all(rt, queue, one, first, number) },
        move ||
            requires { GivesTo queue.now two × (first < 50)
                × (giver_of two ≡ progress (Some (record { number = number })) false
                ((first + 3, 0) ∷ (first + 3 + 1, 0) ∷ (first + 3 + 2, 0) ∷ [])) }
        { give_all(rt, queue, two, first + 3, number) },
    );
}

/// A pass of six neighbouring routes, split in two of three.
fn in_two<R: Wait>(
    rt: &R,
    queue: &StoneQueue<Step>,
    pass: GivePass<Step>,
    first: u16,
    number: u32,
) -> Option<(GivePass<Step>, GivePass<Step>)>
    requires queue { GivesTo queue.now pass }
    requires small { first < 50 }
    requires six { giver_of pass ≡ progress (Some (record { number = number })) false
        (zeroed (first ∷ (first + 1) ∷ (first + 2)
        ∷ (first + 3) ∷ (first + 3 + 1) ∷ (first + 3 + 2) ∷ [])) }
    ensures queue { IfSome result (λ two. GivesTo queue.now two.0 × GivesTo queue.now two.1) }
    ensures front { IfSome result (λ two. giver_of two.0
        ≡ progress (Some (record { number = number })) false
        ((first, 0) ∷ (first + 1, 0) ∷ (first + 2, 0) ∷ [])) }
    ensures back { IfSome result (λ two. giver_of two.1
        ≡ progress (Some (record { number = number })) false
        ((first + 3, 0) ∷ (first + 3 + 1, 0) ∷ (first + 3 + 2, 0) ∷ [])) }
{
    queue.split(rt, pass, &[first, first + 1, first + 2]).ok()
}

/// Two givers of three routes each.
fn give_six<R: Threads + Wait + Sync>(
    rt: &R,
    queue: &StoneQueue<Step>,
    pass: GivePass<Step>,
    first: u16,
    number: u32,
)
    requires queue { GivesTo queue.now pass }
    requires small { first < 50 }
    requires six { giver_of pass ≡ progress (Some (record { number = number })) false
        (zeroed (first ∷ (first + 1) ∷ (first + 2)
        ∷ (first + 3) ∷ (first + 3 + 1) ∷ (first + 3 + 2) ∷ [])) }
{
    if let Some((one, two)) = in_two(rt, queue, pass, first, number) {
        give_both(rt, queue, one, two, first, number);
    }
}

/// Carries so many steps on each of twelve routes, and answers how many of each came in order.
fn carried<R: Threads + Wait + Sync>(
    rt: &R,
    alloc: Global,
    capacity: u32,
    number: u32,
) -> Result<[u32; 12], Memory>
    requires { (0 < capacity) × (number < 100000) }
{
    let steps = Steps { number };
    let routes = [0, 1, 2, 3, 4, 5, 6, 7, 8, 9, 10, 11];
    let (queue, all, take) = StoneQueue::<Step>::new(rt, alloc, capacity, &routes, &steps)?;
    let Ok((front, back)) = queue.split(rt, all, &[0, 1, 2, 3, 4, 5]) else {
        return Err(Memory);
    };
    Ok(all_at_once(rt, &queue, front, back, take, number, number * 12))
}

/// Gives all and takes all, each pass in threads of its own.
fn all_at_once<R: Threads + Wait + Sync>(
    rt: &R,
    queue: &StoneQueue<Step>,
    front: GivePass<Step>,
    back: GivePass<Step>,
    take: TakePass<Step>,
    number: u32,
    total: u32,
) -> [u32; 12]
    requires queue { GivesTo queue.now front × GivesTo queue.now back × TakesFrom queue.now take }
    requires front { giver_of front ≡ progress (Some (record { number = number })) false
        (zeroed (0 ∷ 1 ∷ 2 ∷ 3 ∷ 4 ∷ 5 ∷ [])) }
    requires back { giver_of back ≡ progress (Some (record { number = number })) false
        (zeroed (6 ∷ 7 ∷ 8 ∷ 9 ∷ 10 ∷ 11 ∷ [])) }
{
    let (_, (_, next)) = join(
        rt,
        move ||
            requires { IsSync R.row × GivesTo queue.now front
                × (giver_of front ≡ progress (Some (record { number = number })) false
                (zeroed (0 ∷ 1 ∷ 2 ∷ 3 ∷ 4 ∷ 5 ∷ []))) }
        { give_six(rt, queue, front, 0, number) },
        move ||
            requires { IsSync R.row × GivesTo queue.now back × TakesFrom queue.now take
                × (giver_of back ≡ progress (Some (record { number = number })) false
                (zeroed (6 ∷ 7 ∷ 8 ∷ 9 ∷ 10 ∷ 11 ∷ []))) }
        { take_beside(rt, queue, back, take, number, total) },
    );
    next
}

/// Gives six routes and takes all.
fn take_beside<R: Threads + Wait + Sync>(
    rt: &R,
    queue: &StoneQueue<Step>,
    back: GivePass<Step>,
    take: TakePass<Step>,
    number: u32,
    total: u32,
) -> ((), [u32; 12])
    requires queue { GivesTo queue.now back × TakesFrom queue.now take }
    requires back { giver_of back ≡ progress (Some (record { number = number })) false
        (zeroed (6 ∷ 7 ∷ 8 ∷ 9 ∷ 10 ∷ 11 ∷ [])) }
{
    join(
        rt,
        move ||
            requires { IsSync R.row × GivesTo queue.now back
                × (giver_of back ≡ progress (Some (record { number = number })) false
                (zeroed (6 ∷ 7 ∷ 8 ∷ 9 ∷ 10 ∷ 11 ∷ []))) }
        { give_six(rt, queue, back, 6, number) },
        move ||
            requires { TakesFrom queue.now take }
        { take_all(rt, queue, take, total) },
    )
}

#[test]
fn each_route_in_order_and_once(rt: HostRuntime) -> Result<(), Fail> {
    for (capacity, number) in [(1, 50), (4096, 8334)] {
        assert_eq!(rt; carried(&rt, rt.alloc(), capacity, number)?, [number; 12]);
    }
    Ok(())
}
