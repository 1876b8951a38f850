//! Where a pass has what it found for a pair.
ghost use Rattle.std.specs.Prelude.{◌≡◌, ◌+◌, ◌≤◌, ◌<◌, ◌==◌, ℕ, [], length, get_or};
ghost use Rattle.std.specs.Prelude.{if◌then◌else◌, OnOk, OnErr};
ghost use Rattle.evp_cache.specs.Places.{place_at, IsPlaced, AreAlike};

use std::alloc::{AllocError, Global};
use std::marker::Model;

// The places of one receiver's pairs, by the sender's number. A place is counted from 1, and 0
// where there is none.
#[derive(Drop)]
struct Row {
    places: Vec<u32>,
}

impl Model for Row {
    ghost use Rattle.std.specs.Prelude.{ℕ, List};

    ghost Value = { List ℕ };

    ghost view = { λ r. r.places.items };
}

impl Row {
    fn new(alloc: Global) -> Row
        ensures { result ≡ [] }
    {
        Row {
            places: Vec::new(alloc),
        }
    }

    fn at(&self, from: u16) -> u32
        ensures { result ≡ get_or self.now from 0 }
    {
        match self.places.get(usize::from(from)) {
            Some(place) => *place,
            None => 0,
        }
    }

    fn set(&mut self, from: u16, place: u32) -> Result<(), AllocError>
        ensures set { OnOk result ((k : ℕ) →
            get_or self.new k 0 ≡ (if k == from then place else get_or self.old k 0)) }
        ensures kept { OnErr result (self.new ≡ self.old) }
    {
        let index = usize::from(from);
        if self.places.len() <= index {
            self.places.resize(index + 1, 0)?;
        }
        self.places[index] = place;
        Ok(())
    }
}

// The places of all pairs: a row for each receiver up to the greatest that was met.
#[derive(Drop)]
pub(crate) struct Places {
    rows: Vec<Row>,
}

impl Model for Places {
    ghost use Rattle.std.specs.Prelude.{ℕ, List};

    ghost Value = { List (List ℕ) };

    ghost view = { λ p. p.rows.items };
}

impl Places {
    pub(crate) fn new(alloc: Global) -> Places
        ensures { result ≡ [] }
    {
        Places {
            rows: Vec::new(alloc),
        }
    }

    // The pair's place.
    pub(crate) fn at(&self, from: u16, to: u16) -> u32
        ensures { result ≡ place_at self.now from to }
    {
        match self.rows.get(usize::from(to)) {
            Some(row) => row.at(from),
            None => 0,
        }
    }

    // Gives the pair this place.
    pub(crate) fn set(
        &mut self,
        alloc: Global,
        from: u16,
        to: u16,
        place: u32,
    ) -> Result<(), AllocError>
        ensures set { OnOk result (IsPlaced self.old self.new from to place) }
        ensures kept { OnErr result (AreAlike self.old self.new) }
    {
        let index = usize::from(to);
        self.reach(alloc, index + 1)?;
        let row = &mut self.rows[index];
        row.set(from, place)
    }

    // Sees that there are at least so many rows.
    fn reach(&mut self, alloc: Global, count: usize) -> Result<(), AllocError>
        requires { count ≤ 65536 }
        ensures long { OnOk result (count ≤ length self.new) }
        ensures kept { AreAlike self.old self.new }
    {
        for _ in self.rows.len()..count {
            self.rows.push(Row::new(alloc))?;
        }
        Ok(())
    }
}
