//! Passes of one cache, one after another.
use super::{Rounds, SMALL, SMALL_FIRST, WIDE, WIDE_FIRST, asked, formats};
use evp_cache::PlanCache;
use std::rt::HostRuntime;
use std::test::Fail;

// A pair is built by the first pass that asks for it, once, also where two formats are equal: a
// second pass finds what is stored, and a first finds it again.
#[test]
fn pairs_are_built_once(rt: HostRuntime) -> Result<(), Fail> {
    let alloc = rt.alloc();
    let formats = formats(alloc, WIDE, SMALL)?;
    let cache = PlanCache::new(alloc, &formats, 2)?;
    for builds in [8, 0] {
        let Rounds {
            first,
            once,
            second,
            twice,
        } = asked(alloc, &cache, &formats)?;
        assert_eq!(rt; (first, once), (WIDE_FIRST, builds));
        assert_eq!(rt; (second, twice), (WIDE_FIRST, builds));
    }
    Ok(())
}

// The cells of one cache, asked by passes of other formats: what is stored for others serves nobody,
// and stays.
#[test]
fn what_is_stored_for_other_formats_is_found_out(rt: HostRuntime) -> Result<(), Fail> {
    let alloc = rt.alloc();
    let (wide_first, small_first) = (formats(alloc, WIDE, SMALL)?, formats(alloc, SMALL, WIDE)?);
    let cache = PlanCache::new(alloc, &wide_first, 2)?;
    for builds in [8, 0] {
        let Rounds { second, twice, .. } = asked(alloc, &cache, &wide_first)?;
        assert_eq!(rt; (second, twice), (WIDE_FIRST, builds));
        let Rounds {
            first,
            once,
            second,
            twice,
        } = asked(alloc, &cache, &small_first)?;
        assert_eq!(rt; (first, once), (SMALL_FIRST, 8));
        assert_eq!(rt; (second, twice), (SMALL_FIRST, 8));
    }
    Ok(())
}
