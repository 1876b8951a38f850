//! What one worker knows of a cache.
ghost use Rattle.std.specs.Prelude.{◌≡◌, ◌⊎◌, ◌<◌, ◌++◌, ◌∷◌, [], ⊤, ℕ, Some, None, length, IfOk};
ghost use Rattle.std.specs.Prelude.{slice_get, IfSome, IfNone, OnErr, IsOkAnd, IsSome, MatchResult};
ghost use mathlib.Core.Option.{none};
ghost use types.Logic.{sem};
ghost use denote.Follow.{follows_so};
ghost use Rattle.once_cell.specs.Once.{cell_name};
ghost use Rattle.evp_plan.specs.Counts.{raised};
ghost use Rattle.evp_cache.specs.Known.{Known, found_for, HasAt, IsMeeting, IsCacheOf, IsFoundFor};
ghost use Rattle.evp_cache.specs.Known.{IsPassOf, Learned};
ghost use Rattle.evp_cache.specs.Met.{kept_of, known_of};

use crate::kept::Kept;
use crate::met::{Met, Pair, kept_in, meet};
use crate::places::Places;
use crate::{Found, PlanCache};
use evp_base::Memory;
use evp_format::Format;
use evp_plan::Builds;
use once_cell::race::OnceBox;
use std::alloc::Global;
use std::marker::Model;

/// What one worker knows of a `PlanCache`: the pairs of formats that it has met, in the order in
/// which it met them, and what was found for each.
#[derive(Drop)]
pub struct CachePass {
    places: Places,
    met: Vec<Met>,
}

impl Model for CachePass {
    ghost use Rattle.std.specs.Prelude.{List, map, IsSome};
    ghost use Rattle.std.specs.List.{All};
    ghost use Rattle.evp_cache.specs.Known.{Known};
    ghost use Rattle.evp_cache.specs.Met.{kept_of, known_of};
    ghost use Rattle.evp_cache.specs.Places.{IsIndex};

    ghost Value = { List Known };

    ghost view = { λ p. map known_of p.met.items };

    ghost invariant = { λ p. IsIndex p.places (map known_of p.met.items)
        × All (λ met. IsSome (kept_of met)) p.met.items };
}

impl CachePass {
    ghost use Rattle.evp_cache.specs.contracts.cache_pass.CachePass.{the_row};
    ghost use Rattle.evp_cache.specs.declared.found.Found.{Found};

    /// A pass of this cache that knows no pair. Takes no memory.
    pub fn new(alloc: Global, _cache: &PlanCache) -> Result<CachePass, Memory>
        ensures { IfOk result (λ pass. pass ≡ []) }
    {
        Ok(CachePass {
            places: Places::new(alloc),
            met: Vec::new(alloc),
        })
    }

    /// What is found for the pair of these two formats.
    pub fn get<'a>(
        &'a mut self,
        alloc: Global,
        cache: &'a PlanCache,
        formats: &[Format],
        from: u16,
        to: u16,
        builds: &mut Builds,
    ) -> Result<&'a Found, Memory>
        requires whole { IsCacheOf cache.now formats.now }
        requires from { from < length formats.now }
        requires to { to < cache.now.declared }
        requires pass { IsPassOf cache.now formats.now self.old }
        ensures found { IfOk result (λ found. IsFoundFor formats.now from to found.now) }
        ensures again { (earlier : Found) → found_for self.old from to ≡ Some earlier
            → IsOkAnd result (λ found. found.now ≡ earlier) × (builds.new ≡ builds.old) }
        ensures builds { (builds.new ≡ builds.old) ⊎ (builds.new ≡ raised builds.old) }
        ensures* after { sem 𝓛 (follows_so the_row the_row self.entry.ghost_name none (λ _ _. ⊤)
            (λ after. IsPassOf cache.now formats.now after × MatchResult result
            (λ found. Learned self.old after from to found.now) (λ _. after ≡ self.old))) }
    {
        let pair = Pair {
            from,
            to,
            sender: &formats[usize::from(from)],
            receiver: &formats[usize::from(to)],
        };
        let cell = cache.cell(from, to);
        let place = self.placed(alloc, cell, &pair, builds)?;
        let shared = self.shared(place, cell);
        Ok(self.found(place, shared))
    }

    // The place of the pair, which is met where it wasn't before.
    fn placed(
        &mut self,
        alloc: Global,
        cell: &OnceBox<Kept>,
        pair: &Pair<'_>,
        builds: &mut Builds,
    ) -> Result<usize, Memory>
        ensures met { IfOk result (λ place. IsMeeting self.old self.new pair.now.from pair.now.to
            (cell_name cell.now) pair.now.sender.now pair.now.receiver.now place) }
        ensures err { OnErr result ((self.new ≡ self.old)
            × (found_for self.old pair.now.from pair.now.to ≡ None)) }
        ensures again { (found_for self.old pair.now.from pair.now.to ≡ None)
            ⊎ (builds.new ≡ builds.old) }
        ensures builds { (builds.new ≡ builds.old) ⊎ (builds.new ≡ raised builds.old) }
    {
        match self.place(pair.from, pair.to) {
            Some(place) => Ok(place),
            None => self.meet_first(alloc, cell, pair, builds),
        }
    }

    // Meets a pair that wasn't met before, and answers its place. Apart, since it is rare.
    #[inline(never)]
    fn meet_first(
        &mut self,
        alloc: Global,
        cell: &OnceBox<Kept>,
        pair: &Pair<'_>,
        builds: &mut Builds,
    ) -> Result<usize, Memory>
        requires new { found_for self.old pair.now.from pair.now.to ≡ None }
        ensures met { IfOk result (λ place. IsMeeting self.old self.new pair.now.from pair.now.to
            (cell_name cell.now) pair.now.sender.now pair.now.receiver.now place) }
        ensures err { OnErr result (self.new ≡ self.old) }
        ensures builds { (builds.new ≡ builds.old) ⊎ (builds.new ≡ raised builds.old) }
    {
        let met = meet(alloc, cell, pair, builds)?;
        Ok(self.learn(alloc, met)?)
    }

    // Where the pair is, by an index.
    fn place(&self, from: u16, to: u16) -> Option<usize>
        ensures none { IfNone result (found_for self.now from to ≡ None) }
        ensures some { IfSome result (λ place. HasAt self.now place from to) }
    {
        let place = self.places.at(from, to);
        if place == 0 {
            return None;
        }
        Some(place as usize - 1)
    }

    // Adds a pair that wasn't met before, and answers its place.
    fn learn(&mut self, alloc: Global, met: Met) -> Result<usize, Memory>
        requires new { found_for self.old met.from met.to ≡ None }
        requires kept { IsSome (kept_of met) }
        ensures place { IfOk result (λ place. place ≡ length self.old) }
        ensures learned { IfOk result (λ _. self.new ≡ self.old ++ known_of met ∷ []) }
        ensures err { OnErr result (self.new ≡ self.old) }
    {
        let place = self.met.len();
        if place >= u32::MAX as usize {
            return Err(Memory);
        }
        self.met.reserve(1)?;
        self.places.set(alloc, met.from, met.to, place as u32 + 1)?;
        self.met.push_reserved(met);
        Ok(place)
    }

    // What the pair's cell keeps for the pair at this place. None where the pass keeps it itself.
    fn shared<'a>(&mut self, place: usize, cell: &'a OnceBox<Kept>) -> Option<&'a Found>
        requires there { place < length self.old }
        requires cell { (k : Known) → slice_get self.old place ≡ Some k
            → IfSome k.cell (λ name. name ≡ cell_name cell.now) }
        ensures same { self.new ≡ self.old }
        ensures shared { IfSome result (λ found. (k : Known) → slice_get self.old place ≡ Some k
            → k.found ≡ found.now) }
        ensures own { IfNone result ((k : Known) → slice_get self.old place ≡ Some k
            → k.cell ≡ None) }
    {
        let met = &mut self.met[place];
        if met.own.is_some() {
            return None;
        }
        Some(kept_in(cell, &mut met.note).found())
    }

    // What was found for the pair at this place, where that is what the cell keeps, or none.
    fn found<'a>(&'a self, place: usize, shared: Option<&'a Found>) -> &'a Found
        requires there { place < length self.now }
        requires shared { IfSome shared (λ found. (k : Known) → slice_get self.now place ≡ Some k
            → k.found ≡ found.now) }
        requires own { IfNone shared ((k : Known) → slice_get self.now place ≡ Some k
            → k.cell ≡ None) }
        ensures { (k : Known) → slice_get self.now place ≡ Some k → result.now ≡ k.found }
    {
        if let Some(found) = shared {
            return found;
        }
        match &self.met[place].own {
            Some(kept) => kept.found(),
            None => unreachable!(),
        }
    }
}
