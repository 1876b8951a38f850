//! The parting of a crew's give passes among the actors that give.
ghost use Rattle.std.specs.Prelude.{◌≡◌, ◌+◌, ◌<◌, length, IfOk, OnOk};
ghost use Rattle.evp_crew.specs.Parting.{actors_of, IsRest, AreRests, IsShare, AreShares};

use crate::crew::Crew;
use crate::ways::ways;
use evp_base::Memory;
use evp_queue::GivePass;
use evp_stone::{Entry, Job};
use std::alloc::Global;
use std::sync::Wait;

/// The passes by which an actor gives, by the numbers of stones, taken from what is left of the
/// stones' give passes.
pub(crate) fn shares<R: Wait>(
    rt: &R,
    alloc: Global,
    job: &Job,
    crew: &Crew,
    actor: usize,
    rests: &mut [Option<GivePass<Entry>>],
) -> Result<Vec<Option<GivePass<Entry>>>, Memory>
    requires actor { actor < actors_of job.now }
    requires rests { AreRests crew.now job.now actor rests.old }
    ensures rests { OnOk result (AreRests crew.now job.now (actor + 1) rests.new) }
    ensures shares { IfOk result (λ shares. AreShares crew.now job.now actor shares.items) }
{
    let _kept = job.parts();
    let mut shares = Vec::with_capacity(alloc, rests.len())?;
    for stone in 0..rests.len() {
        shares.push(share(rt, alloc, job, crew, actor, stone as u16, &mut rests[stone])?)?;
    }
    Ok(shares)
}

// The pass by which an actor gives to a stone, where it gives to it.
fn share<R: Wait>(
    rt: &R,
    alloc: Global,
    job: &Job,
    crew: &Crew,
    actor: usize,
    stone: u16,
    rest: &mut Option<GivePass<Entry>>,
) -> Result<Option<GivePass<Entry>>, Memory>
    requires { IsRest crew.now job.now actor stone rest.old }
    ensures rest { OnOk result (IsRest crew.now job.now (actor + 1) stone rest.new) }
    ensures share { IfOk result (IsShare crew.now job.now actor stone) }
{
    let mine = ways(alloc, job, Some(actor), stone)?;
    if mine.is_empty() {
        return Ok(None);
    }
    let Some(pass) = rest.take() else {
        unreachable!()
    };
    match crew.queues[usize::from(stone)].split(rt, pass, mine.as_slice()) {
        Ok((share, others)) => {
            *rest = Some(others);
            Ok(Some(share))
        }
        Err(_) => Err(Memory),
    }
}
