//! Actions on records.

ghost use Rattle.std.specs.Prelude.{All};
ghost use Rattle.std.specs.Arc.{arc_value};
ghost use Rattle.evp_action.specs.Agreement.{Agrees};
ghost use Rattle.evp_cache.specs.Known.{IsCacheOf};
ghost use Rattle.evp_record.specs.Owned.{HasValueIn};

use crate::conversion::LIMIT;
use crate::workload::Workload;
use evp_action::{Acted, Action, act};
use evp_base::Memory;
use evp_cache::{CachePass, PlanCache};
use evp_format::Format;
use evp_plan::Builds;
use evp_record::Owned;
use std::alloc::{AllocError, Global};
use std::sync::Arc;

/// An action on records that were checked before, of a stone with three targets. Each pass over the
/// records has a pass of the cache of its own, which finds each stored plan once.
#[derive(Drop)]
pub struct Acts<'a> {
    pub name: &'static str,
    pub alloc: Global,
    pub action: &'a Action,
    pub formats: &'a [Format],
    pub cache: &'a PlanCache,
    pub items: &'a [Arc<Owned, Global>],
}

impl<'a> Workload for Acts<'a> {
    ghost use Rattle.std.specs.Prelude.{All};
    ghost use Rattle.std.specs.Arc.{arc_value};
    ghost use Rattle.evp_action.specs.Agreement.{Agrees};
    ghost use Rattle.evp_cache.specs.Known.{IsCacheOf};
    ghost use Rattle.evp_record.specs.Owned.{HasValueIn};

    ghost ready = { λ work. IsCacheOf work.cache.now work.formats.now
        × Agrees work.formats.now work.cache.now.declared work.action.now
        × All (λ item. HasValueIn work.formats.now (arc_value item)) work.items.now };

    fn name(&self) -> &'static str {
        self.name
    }

    fn records(&self) -> usize {
        self.items.len()
    }

    fn pass(&self, _out: &mut [u8]) -> u64 {
        through(
            self.alloc,
            self.action,
            self.formats,
            self.cache,
            self.items,
        )
    }

    fn compared(&self, alloc: Global, out: &mut [u8]) -> Result<String, AllocError> {
        let count = self.items.len();
        let came = self.pass(out);
        format!(in alloc; "{came} of {count} records come through")
    }
}

// Does the action with each record; answers how many came through.
fn through(
    alloc: Global,
    action: &Action,
    formats: &[Format],
    cache: &PlanCache,
    items: &[Arc<Owned, Global>],
) -> u64
    requires cache { IsCacheOf cache.now formats.now }
    requires agrees { Agrees formats.now cache.now.declared action.now }
    requires items { All (λ item. HasValueIn formats.now (arc_value item)) items.now }
{
    let Ok(mut pass) = CachePass::new(alloc, cache) else {
        return 0;
    };
    let mut builds = Builds::new();
    let mut came = 0u64;
    for item in items {
        let acted = act(
            alloc,
            action,
            3,
            formats,
            LIMIT,
            cache,
            &mut pass,
            &mut builds,
            item,
        );
        if is_through(&acted) {
            came = came.wrapping_add(1);
        }
    }
    came
}

// Whether a record was sent or received.
fn is_through(acted: &Result<Acted, Memory>) -> bool {
    match acted {
        Ok(Acted::Sent(_, _) | Acted::Arrived(_)) => true,
        Ok(Acted::Dropped | Acted::Refused(_)) | Err(_) => false,
    }
}
