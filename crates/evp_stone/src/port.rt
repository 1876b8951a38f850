//! Where an actor takes its entries from, and where it gives them.
ghost use Rattle.std.specs.Prelude.{◌≡◌, ℕ, ◌≤◌, Option, IfSome, IfNone, IfOk, IfErr};
ghost use Rattle.evp_stone.specs.JobShape.{JobShape};
ghost use Rattle.evp_stone.specs.Port.{IsNext, Taken, NoneTaken, Given as IsGiven, NotGiven};

use crate::entry::Entry;
use evp_queue::Given;

/// The queues of one actor: that of its stone, and those of the stones to which it gives.
pub trait Port {
    /// The flows are those of this job.
    ghost is_of: { Self → JobShape → Type 0 };

    /// How many entries were taken on a route; none where nothing is taken on it.
    ghost taken: { Self → ℕ → Option ℕ };

    /// How many entries were given on a route; none where nothing is given on it.
    ghost given: { Self → ℕ → Option ℕ };

    /// How often there was nothing to take.
    ghost empties: { Self → ℕ };

    /// How often there was no room at the stone of this number.
    ghost fulls: { Self → ℕ → ℕ };

    /// What else holds of a port before and behind each call: an implementation's own.
    ghost moves: { Self → Self → Type 0 };

    /// Takes an entry, the next of its route. None only where there was nothing to take.
    fn take(&mut self) -> Option<Entry>
        ensures moves { moves self.old self.new }
        ensures job { (job : JobShape) → is_of self.old job → is_of self.new job }
        ensures given { (route : ℕ) → given self.new route ≡ given self.old route }
        ensures fulls { (target : ℕ) → fulls self.old target ≤ fulls self.new target }
        ensures empties { empties self.old ≤ empties self.new }
        ensures taken { IfSome result
            (Taken (is_of self.old) (taken self.old) (taken self.new)) }
        ensures empty { IfNone result
            (NoneTaken (taken self.old) (taken self.new) (empties self.old) (empties self.new)) };

    /// Gives an entry, the next of its route, to the stone of this number. `Full` only where there
    /// was no room. An entry that isn't given is handed back.
    fn give(&mut self, target: u16, entry: Entry) -> Result<(), Given<Entry>>
        requires { IsNext (is_of self.old) (given self.old) target entry }
        ensures moves { moves self.old self.new }
        ensures job { (job : JobShape) → is_of self.old job → is_of self.new job }
        ensures taken { (route : ℕ) → taken self.new route ≡ taken self.old route }
        ensures fulls { (stone : ℕ) → fulls self.old stone ≤ fulls self.new stone }
        ensures empties { empties self.old ≤ empties self.new }
        ensures given { IfOk result (λ _. IsGiven (given self.old) (given self.new) entry) }
        ensures back { IfErr result (NotGiven (given self.old) (given self.new) target entry
            (fulls self.old target) (fulls self.new target)) };
}
