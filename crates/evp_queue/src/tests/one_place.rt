//! A queue of one place, for entries that are records or the ends of rounds.
ghost use Rattle.std.specs.Prelude.{◌≡◌, [], ◌∷◌, IfOk, Some, true, false};
ghost use Rattle.evp_queue.specs.declared.tests.one_place.Entry.TheVariants.{Item, Mark};
ghost use Rattle.std.specs.Arc.{arc_value};

use crate::{GivePass, Given, Placed, StoneQueue, TakePass};
use std::alloc::Global;
use std::sync::Arc;
use std::test::*;

/// A record's bytes.
#[derive(Drop)]
struct Owned {
    bytes: [u8; 2],
}

/// Route, position, then the record's index and the record, or the round.
#[derive(Drop)]
enum Entry {
    Item(u16, u32, u32, Arc<Owned, Global>),
    Mark(u16, u32, u32),
}

/// What a route carries.
enum Part {
    Record(u32, [u8; 2]),
    Round(u32),
}

/// A job of one record and one round.
#[derive(Drop)]
struct Job {
    index: u32,
    bytes: [u8; 2],
}

impl Placed for Entry {
    ghost use Rattle.std.specs.Prelude.{[], ◌∷◌, ◌≡◌};
    ghost use Rattle.std.specs.Arc.{arc_value};
    ghost use Rattle.evp_queue.specs.declared.tests.one_place.Part.{Part};
    ghost use Rattle.evp_queue.specs.declared.tests.one_place.Part.TheVariants.{Record, Round};
    ghost use Rattle.evp_queue.specs.declared.tests.one_place.Entry.TheVariants.{Item, Mark};

    type Whole = Job;

    ghost Fact = { Part };

    ghost flow = { λ job route. Record job.index job.bytes ∷ Round 0 ∷ [] };

    ghost stands_for = { λ entry part. elim entry [
      | Item r p i o ↦ elim part [ Record j b ↦ (i ≡ j) × ((arc_value o).bytes ≡ b) | Round k ↦ ⊥ ]
      | Mark r p n ↦ elim part [ Record j b ↦ ⊥ | Round k ↦ n ≡ k ]
    ] };

    ghost route_of = { elim [ Item r p i o ↦ r | Mark r p n ↦ r ] };

    ghost position_of = { elim [ Item r p i o ↦ p | Mark r p n ↦ p ] };

    fn route(&self) -> u16 {
        match self {
            Entry::Item(route, _, _, _) | Entry::Mark(route, _, _) => *route,
        }
    }

    fn position(&self) -> u32 {
        match self {
            Entry::Item(_, position, _, _) | Entry::Mark(_, position, _) => *position,
        }
    }
}

#[test]
fn an_item_and_a_mark(rt: HostRuntime) -> Result<(), Fail> {
    let job = Job {
        index: 3,
        bytes: [5, 6],
    };
    let alloc: Global = rt.alloc();
    let (queue, mut give, mut take) = StoneQueue::<Entry>::new(&rt, alloc, 1, &[0], &job)?;
    let owned = Arc::new(alloc, Owned { bytes: [5, 6] })?;
    let Ok(()) = queue.give(&rt, &mut give, Entry::Item(0, 0, 3, owned)) else {
        panic!(rt; "there is room for the item");
    };
    let Err(Given::Full(mark)) = queue.give(&rt, &mut give, Entry::Mark(0, 1, 0)) else {
        panic!(rt; "there is no room for the mark");
    };
    assert_eq!(rt; (mark.route(), mark.position(), give.fulls), (0, 1, 1));
    let Some(Entry::Item(0, 0, 3, taken)) = queue.take(&rt, &mut take) else {
        panic!(rt; "the item comes first");
    };
    assert_eq!(rt; taken.bytes, [5, 6]);
    let Ok(()) = queue.give(&rt, &mut give, mark) else {
        panic!(rt; "there is room for the mark");
    };
    let Some(Entry::Mark(0, 1, 0)) = queue.take(&rt, &mut take) else {
        panic!(rt; "the mark comes second");
    };
    assert!(rt; queue.take(&rt, &mut take).is_none());
    assert_eq!(rt; (give.fulls, take.empties), (1, 1));
    Ok(())
}
