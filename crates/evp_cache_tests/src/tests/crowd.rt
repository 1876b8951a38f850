//! Eight passes of one cache, each in a thread of its own.
ghost use Rattle.std.specs.Prelude.{◌≡◌};
ghost use Rattle.evp_cache.specs.Known.{IsCacheOf};

use super::{Rounds, SMALL, WIDE, WIDE_FIRST, asked, formats};
use evp_base::Memory;
use evp_cache::PlanCache;
use evp_format::Format;
use std::alloc::Global;
use std::rt::HostRuntime;
use std::test::Fail;
use std::thread::{Threads, map_indices};

// What eight new passes are told that ask for the same pairs at once.
fn all_asked<R: Threads + Sync>(
    rt: &R,
    alloc: Global,
    cache: &PlanCache,
    formats: &[Format; 4],
) -> Result<Vec<Option<Rounds>>, Memory>
    requires whole { IsCacheOf cache.now formats.now }
    requires two { cache.now.declared ≡ 2 }
{
    let ask = |_: usize| -> Option<Rounds>
        requires { IsCacheOf cache.now formats.now × (cache.now.declared ≡ 2) }
    { asked(alloc, cache, formats).ok() };
    Ok(map_indices(rt, alloc, 8, &ask)?)
}

// Whether both rounds are told what is right, and the second builds nothing.
fn are_right(rounds: Rounds) -> bool {
    let Rounds {
        first,
        once,
        second,
        twice,
    } = rounds;
    first == WIDE_FIRST && second == WIDE_FIRST && once <= 8 && twice == once
}

// All are told the same, and each pair is built at most once by each. Then all cells are full.
#[test]
fn eight_at_once_are_told_the_same(rt: HostRuntime) -> Result<(), Fail> {
    let alloc = rt.alloc();
    let formats = formats(alloc, WIDE, SMALL)?;
    let cache = PlanCache::new(alloc, &formats, 2)?;
    for rounds in all_asked(&rt, alloc, &cache, &formats)? {
        let Some(rounds) = rounds else {
            return Err("memory".into());
        };
        assert!(rt; are_right(rounds));
    }
    let Rounds { first, once, .. } = asked(alloc, &cache, &formats)?;
    assert_eq!(rt; (first, once), (WIDE_FIRST, 0));
    Ok(())
}
