//! What a cell keeps.
ghost use Rattle.std.specs.Prelude.{◌≡◌, IfOk, IsTrue};

use crate::Found;
use evp_base::Memory;
use evp_format::Format;
use evp_plan::{BuildFault, Builds, build};
use std::alloc::Global;
use std::marker::Model;

/// Two formats, and what was found for them.
#[derive(Drop)]
pub(crate) struct Kept {
    from: Format,
    to: Format,
    found: Found,
}

impl Model for Kept {
    ghost use Rattle.evp_cache.specs.Finding.{Finding, IsFound};

    ghost Value = { Finding };

    ghost view = { λ k. record { from = k.from; to = k.to; found = k.found } };

    ghost invariant = { λ k. IsFound k.from k.to k.found };
}

impl Kept {
    ghost use Rattle.std.specs.Prelude.{◌↔◌};
    ghost use Rattle.evp_plan.specs.Counts.{raised};
    ghost use Rattle.evp_cache.specs.Finding.{IsFound};

    // What a build finds for the two formats, with copies of them.
    pub(crate) fn built(
        alloc: Global,
        from: &Format,
        to: &Format,
        builds: &mut Builds,
    ) -> Result<Kept, Memory>
        ensures from { IfOk result (λ kept. kept.from ≡ from.now) }
        ensures to { IfOk result (λ kept. kept.to ≡ to.now) }
        ensures found { IfOk result (λ kept. IsFound from.now to.now kept.found) }
        ensures counted { builds.new ≡ raised builds.old }
    {
        let found = match build(alloc, from, to, builds) {
            Ok(plan) => Found::Plan(plan),
            Err(BuildFault::Clash(path)) => Found::Clash(path),
            Err(BuildFault::Memory) => return Err(Memory),
        };
        Ok(Kept {
            from: from.copy(alloc)?,
            to: to.copy(alloc)?,
            found,
        })
    }

    // Whether it is of these two formats; what was found is then right for them.
    pub(crate) fn is_of(&self, from: &Format, to: &Format) -> bool
        ensures { IsTrue result → IsFound from.now to.now self.now.found }
    {
        self.from == *from && self.to == *to
    }

    // What was found.
    pub(crate) fn found(&self) -> &Found
        ensures value { result.now ≡ self.now.found }
        ensures right { IsFound self.now.from self.now.to self.now.found }
    {
        &self.found
    }
}
