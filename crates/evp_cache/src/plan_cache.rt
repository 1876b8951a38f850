//! Plans for the pairs of formats, each set once.
ghost use Rattle.std.specs.Prelude.{◌≡◌, ◌+◌, ◌*◌, ◌<◌, ◌≤◌, IfOk, length};
ghost use Rattle.once_cell.specs.Once.{cell_name};
ghost use Rattle.evp_cache.specs.Known.{IsCacheOf, IsCellOf};

use crate::kept::Kept;
use evp_base::Memory;
use evp_format::Format;
use once_cell::race::OnceBox;
use std::alloc::Global;
use std::marker::Model;

/// For each pair of a format and a declared format a cell, which is set once, with what was found
/// for the pair.
#[derive(Drop)]
pub struct PlanCache {
    declared: u16,
    cells: Vec<OnceBox<Kept>>,
}

impl Model for PlanCache {
    ghost use Rattle.std.specs.Prelude.{map};
    ghost use Rattle.once_cell.specs.Once.{cell_name};
    ghost use Rattle.evp_cache.specs.Known.{Cells};

    ghost Value = { Cells };

    ghost view = { λ c. record { declared = c.declared; names = map cell_name c.cells.items } };
}

impl PlanCache {
    /// Empty cells for these formats, of which so many, the first, are declared: receivers.
    pub fn new(alloc: Global, formats: &[Format], declared: u16) -> Result<PlanCache, Memory>
        requires receivers { declared ≤ length formats.now }
        requires few { length formats.now ≤ 1024 }
        ensures declared { IfOk result (λ cache. cache.declared ≡ declared) }
        ensures whole { IfOk result (λ cache. IsCacheOf cache formats.now) }
    {
        let count = formats.len() * usize::from(declared);
        let mut cells = Vec::with_capacity(alloc, count)?;
        for _ in 0..count {
            cells.push(OnceBox::new(alloc))?;
        }
        Ok(PlanCache { declared, cells })
    }

    // The pair's cell.
    pub(crate) fn cell(&self, from: u16, to: u16) -> &OnceBox<Kept>
        requires { from * self.now.declared + to < length self.now.names }
        ensures { IsCellOf self.now from to (cell_name result.now) }
    {
        &self.cells[usize::from(from) * usize::from(self.declared) + usize::from(to)]
    }
}
