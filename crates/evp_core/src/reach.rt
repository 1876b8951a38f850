//! What an actor reaches.
ghost use Rattle.std.specs.Prelude.{◌≡◌, ◌+◌, ◌<◌, length};
ghost use Rattle.evp_core.specs.Owned.{own_at};
ghost use Rattle.std.specs.Option.{ForSome};

use crate::lists::Lists;
use evp_queue::Given;
use evp_stone::{Entry, Port};

/// The lists as one actor reaches them: it takes from that of its stone, and gives to any.
#[derive(Drop)]
pub(crate) struct Reach<'a> {
    pub(crate) lists: Lists<'a>,
    // The actor's stone. A source takes from none.
    pub(crate) own: Option<u16>,
    // How often there was nothing to take, and how often there was no room.
    pub(crate) empties: u64,
    pub(crate) fulls: u64,
    // The stone that had no room last.
    pub(crate) full_at: u16,
    ghost known: { ForSome own (λ stone. stone < length lists.job.stones) },
}

impl<'a> Reach<'a> {
    /// Reaches these lists as a source.
    pub(crate) fn new(lists: Lists<'a>) -> Reach<'a>
        ensures { result.lists ≡ lists.entry }
    {
        Reach {
            lists,
            own: None,
            empties: 0,
            fulls: 0,
            full_at: 0,
        }
    }

    /// Reaches as the actor of this number, before its turn.
    pub(crate) fn begin(&mut self, number: u16)
        requires { number < length self.old.lists.job.sources + length self.old.lists.job.stones }
        ensures lists { self.new.lists ≡ self.old.lists }
        ensures own { self.new.own ≡ own_at (length self.old.lists.job.sources) number }
        ensures empties { self.new.empties ≡ 0 }
        ensures fulls { self.new.fulls ≡ 0 }
    {
        let sources = self.lists.job().parts().sources.len();
        self.own = own_stone(sources, number);
        self.empties = 0;
        self.fulls = 0;
        self.full_at = 0;
    }
}

// The stone of the actor of this number, where so many sources come first.
fn own_stone(sources: usize, number: u16) -> Option<u16>
    ensures { result ≡ own_at sources number }
{
    if usize::from(number) < sources {
        return None;
    }
    Some(number - sources as u16)
}

impl<'a> Port for Reach<'a> {
    ghost use Rattle.evp_core.specs.Reach as reach;

    ghost is_of = { reach.is_of };

    ghost taken = { reach.taken };

    ghost given = { reach.given };

    ghost empties = { reach.empties };

    ghost fulls = { reach.fulls };

    ghost moves = { reach.Moves };

    fn take(&mut self) -> Option<Entry> {
        if let Some(stone) = self.own {
            if let Some(entry) = self.lists.take(stone) {
                return Some(entry);
            }
        }
        self.empties = self.empties.saturating_add(1);
        None
    }

    fn give(&mut self, target: u16, entry: Entry) -> Result<(), Given<Entry>> {
        match self.lists.give(target, entry) {
            Ok(()) => Ok(()),
            Err(entry) => {
                self.fulls = self.fulls.saturating_add(1);
                self.full_at = target;
                Err(Given::Full(entry))
            }
        }
    }
}
