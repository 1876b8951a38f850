//! The account of a stone's actor whose rounds have all ended, and those of the rounds so far.
ghost use Rattle.std.specs.Prelude.{◌≡◌, ◌≤◌, [], map, length, vec_len, vec_capacity, IfSome, IfNone};
ghost use Rattle.evp_stone.specs.Closing.{account_of, HasRoomFor};
ghost use Rattle.evp_stone.specs.Ended.{AreEnded, EndsAt};
ghost use Rattle.evp_stone.specs.Job.{IsJob};
ghost use Rattle.evp_stone.specs.JobShape.{JobShape};
ghost use Rattle.evp_stone.specs.Port.{Counting};
ghost use Rattle.evp_stone.specs.Seen.{seen};
ghost use Rattle.evp_stone.specs.State.{HasState};
ghost use Rattle.evp_stone.specs.Tallied.{IsAccount};
ghost use Rattle.evp_stone.specs.Turned.{HasEnded};

use crate::account::{Account, RoundAccount, RouteAccount};
use crate::route_work::RouteWork;
use crate::worker::Worker;

impl Worker {
    /// The account of the stone, with how many plans it built and how many of its turns found no
    /// memory. Takes no memory.
    pub(crate) fn account(self, builds: u64, starved: u64) -> Account
        requires { HasRoomFor self }
        ensures stone { result.stone ≡ (seen self).stone }
        ensures builds { result.builds ≡ builds }
        ensures starved { result.starved ≡ starved }
        ensures account { (job : JobShape) (taken given : Counting) → IsJob job
            → HasState job taken given (seen self) → HasEnded job (seen self)
            → IsAccount job result }
    {
        Account {
            stone: self.stone,
            routes: accounts(self.routes, self.room),
            builds,
            starved,
        }
    }

    /// The number of the route at a place, and the accounts of the rounds that it has ended; none
    /// behind the last route.
    pub(crate) fn ended(&self, place: usize) -> Option<(u16, &[RoundAccount])>
        ensures there { IfSome result (λ found.
            EndsAt (seen self.now).routes place found.0 found.1.now) }
        ensures behind { IfNone result (length (seen self.now).routes ≤ place) }
        ensures accounts { (job : JobShape) (taken given : Counting)
            → HasState job taken given (seen self.now)
            → IfSome result (λ found. AreEnded job found.0 found.1.now) }
    {
        let work = self.routes.as_slice().get(place)?;
        Some((work.route, work.ended.as_slice()))
    }
}

// The accounts of these routes, in the room for them.
fn accounts(works: Vec<RouteWork>, mut room: Vec<RouteAccount>) -> Vec<RouteAccount>
    requires none { room.items ≡ [] }
    requires enough { vec_len works ≤ vec_capacity room }
    ensures { result.items ≡ map account_of works.items }
{
    for work in works {
        room.push_reserved(account_of(work));
    }
    room
}

// The account of a route.
fn account_of(work: RouteWork) -> RouteAccount
    ensures { result ≡ account_of work }
{
    RouteAccount {
        route: work.route,
        rounds: work.ended,
    }
}
