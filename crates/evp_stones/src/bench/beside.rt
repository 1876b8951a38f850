//! Two calls that may be made side by side.
ghost use denote.Param.Send.{IsSync, IsSend};

use std::thread;
use std::thread::Threads;

/// What both calls make: where `is_beside` holds each in a thread of its own, while this one waits.
/// The first thread that a thread begins is often put on that one's processor, where it would wait
/// for it otherwise.
pub(super) fn both<
    R: Threads + Sync,
    F: FnOnce() -> A + Send,
    G: FnOnce() -> B + Send,
    A: Send,
    B: Send,
>(rt: &R, is_beside: bool, first: F, second: G) -> (A, B)
    requires { F.pre first × G.pre second }
    ensures first { F.post first result.0 }
    ensures second { G.post second result.1 }
{
    if is_beside {
        return thread::join(
            rt,
            first,
            move || -> B
                requires { IsSync R.row × IsSend G.row × IsSend B.row × G.pre second }
                ensures { G.post second result }
            { apart(rt, second) },
        );
    }
    let first = first();
    (first, second())
}

// What the call makes, in a thread of its own, while this one waits.
fn apart<R: Threads, G: FnOnce() -> B + Send, B: Send>(rt: &R, call: G) -> B
    requires { G.pre call }
    ensures { G.post call result }
{
    let (made, ()) = thread::join(rt, call, || {});
    made
}
