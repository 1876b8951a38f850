//! What an entry of a queue is.
ghost use Rattle.std.specs.Prelude.{◌≡◌, ℕ, List};

/// An entry, which has a place in the flow of its route.
///
/// What the entries belong to has for each route a flow: a list of facts. An entry stands for one
/// fact, that at its position in the flow of its route.
pub trait Placed {
    /// What the entries belong to.
    type Whole;

    /// What an entry stands for.
    ghost Fact: { Type 0 };

    /// The facts of a route, in order.
    ghost flow: { Self.Whole → ℕ → List Fact };

    /// The entry stands for the fact.
    ghost stands_for: { Self → Fact → Type 0 };

    ghost route_of: { Self → ℕ };

    ghost position_of: { Self → ℕ };

    /// The number of the entry's route.
    fn route(&self) -> u16
        ensures { result ≡ route_of self.now };

    /// The entry's place in the flow of its route, counted from 0.
    fn position(&self) -> u32
        ensures { result ≡ position_of self.now };
}
