//! Sources of a job.
ghost use Rattle.std.specs.Prelude.{◌≡◌, map};
ghost use Rattle.std.specs.Arc.{arc_value};

use evp_base::Name;
use evp_record::Owned;
use std::alloc::Global;
use std::marker::Model;
use std::sync::Arc;

/// The records of a source's file, in its order.
#[derive(Drop)]
pub struct Records {
    list: Vec<Arc<Owned, Global>>,
}

impl Model for Records {
    ghost use Rattle.std.specs.Prelude.{List, map};
    ghost use Rattle.std.specs.Arc.{arc_value};
    ghost use Rattle.evp_record.specs.OwnedBytes.{OwnedBytes};

    ghost Value = { List OwnedBytes };

    ghost view = { λ r. map (λ owned. arc_value owned) r.list.items };
}

impl Records {
    /// The records of a vector. Takes no memory.
    pub fn new(list: Vec<Arc<Owned, Global>>) -> Records
        ensures { result ≡ map (λ owned. arc_value owned) list.items }
    {
        Records { list }
    }

    /// The records.
    pub fn as_slice(&self) -> &[Arc<Owned, Global>]
        ensures { map (λ owned. arc_value owned) result.now ≡ self.now }
    {
        self.list.as_slice()
    }

    /// The vector. Takes no memory.
    pub fn into_vec(self) -> Vec<Arc<Owned, Global>>
        ensures { map (λ owned. arc_value owned) result.items ≡ self }
    {
        self.list
    }
}

/// A source: its name, the number of the stone to which it gives its records, and these.
#[derive(Drop)]
pub struct Source {
    pub name: Name,
    pub stone: u16,
    pub items: Records,
}
