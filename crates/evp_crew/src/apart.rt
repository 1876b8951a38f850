//! A call for each element of a list, in threads.
ghost use Rattle.std.specs.Fork.{AcceptsAt, ChangesAt, AcceptsEach, ChangesEach};
ghost use Rattle.std.specs.Thread.{IsSync, IsSend};
ghost use Rattle.evp_crew.specs.Apart.{AcceptsFrom, ChangesFrom};

use crate::seating::Order;
use std::thread;
use std::thread::Threads;

/// Calls `f(i, &mut all[i])` at each place, each in a thread of its own where one can be made: by
/// `for_each_mut` for seats that stand in one rota, else so that this thread begins all and only
/// waits, and none of them shares a processor with one that began it (docs/DECISIONS.md).
pub(crate) fn each_in<R: Threads + Sync, T: Send, F: Fn(usize, &mut T) + Sync>(
    order: Order,
    rt: &R,
    all: &mut [T],
    f: &F,
)
    requires { AcceptsEach F.Fn f.now all.old }
    ensures { ChangesEach F.Fn f.now all.old all.new }
{
    let threads = all.len().max(1);
    match order {
        Order::Queued => thread::for_each_mut(rt, all, threads, f),
        Order::Chosen => each_apart(rt, all, f),
    }
}

// The same, where this thread begins all of several.
fn each_apart<R: Threads + Sync, T: Send, F: Fn(usize, &mut T) + Sync>(rt: &R, all: &mut [T], f: &F)
    requires { AcceptsEach F.Fn f.now all.old }
    ensures { ChangesEach F.Fn f.now all.old all.new }
{
    if all.len() < 2 {
        in_turn(f, 0, all);
        return;
    }
    begin(rt, f, 0, all);
}

// Begins a thread for each of these, which are numbered from this on.
#[cycle(each)]
fn begin<R: Threads + Sync, T: Send, F: Fn(usize, &mut T) + Sync>(
    rt: &R,
    f: &F,
    from: usize,
    all: &mut [T],
)
    requires { AcceptsFrom F.Fn f.now from all.old }
    ensures { ChangesFrom F.Fn f.now from all.old all.new }
{
    if all.is_empty() {
        return;
    }
    let (first, others) = all.split_at_mut(1);
    beside(rt, f, from, first, from + 1, others);
}

// The first ones in a new thread, and the others beside it.
#[cycle(each)]
fn beside<R: Threads + Sync, T: Send, F: Fn(usize, &mut T) + Sync>(
    rt: &R,
    f: &F,
    from: usize,
    first: &mut [T],
    next: usize,
    others: &mut [T],
)
    requires first { AcceptsFrom F.Fn f.now from first.old }
    requires others { AcceptsFrom F.Fn f.now next others.old }
    ensures first { ChangesFrom F.Fn f.now from first.old first.new }
    ensures others { ChangesFrom F.Fn f.now next others.old others.new }
{
    let mut front = ||
        requires { IsSync F.row × IsSend T.row × AcceptsFrom F.Fn f.now from first.now }
        ensures { ChangesFrom F.Fn f.entry.now from first.entry.now first.exit.now }
    { in_turn(f, from, first) };
    let mut back = ||
        requires { IsSync R.row × IsSync F.row × IsSend T.row
            × AcceptsFrom F.Fn f.now next others.now }
        ensures { ChangesFrom F.Fn f.entry.now next others.entry.now others.exit.now }
    { begin(rt, f, next, others) };
    thread::join_mut(rt, &mut front, &mut back);
}

// Calls at each of these in turn.
fn in_turn<T, F: Fn(usize, &mut T)>(f: &F, from: usize, all: &mut [T])
    requires { AcceptsFrom F.Fn f.now from all.old }
    ensures { ChangesFrom F.Fn f.now from all.old all.new }
{
    for k in 0..all.len() {
        at_one(f, from + k, &mut all[k]);
    }
}

fn at_one<T, F: Fn(usize, &mut T)>(f: &F, i: usize, it: &mut T)
    requires { AcceptsAt F.Fn f.now i it.old }
    ensures { ChangesAt F.Fn f.now i it.old it.new }
{
    f(i, it);
}
