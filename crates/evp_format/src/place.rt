//! Places in a record, by the numbers of fields and the indexes of elements.

ghost use Rattle.std.specs.Prelude.{◌≡◌, ◌↔◌, ◌<◌, [], ◌∷◌, ◌++◌, length, IsTrue};
ghost use Rattle.std.specs.Cmp.{partial_equiv_from_equiv};
ghost use Rattle.evp_format.specs.Sameness.{step_eq, steps_eq};
ghost use Rattle.evp_format.specs.Samenesses.{step_eq-equivalence, steps_eq-equivalence};

use std::fmt;
use std::marker::Model;

/// A step to a part of a record.
#[derive(Clone, Copy, Debug)]
pub enum PlaceStep {
    /// Into the field of this number of its type, from 0.
    At(u16),
    /// To the element of this index, from 0.
    Nth(u32),
}

impl PartialEq for PlaceStep {
    ghost eq = { step_eq };

    ghost laws = { partial_equiv_from_equiv step_eq-equivalence };

    fn eq(&self, other: &PlaceStep) -> bool
        ensures value { result ≡ step_eq self.now other.now }
        ensures same { IsTrue result ↔ (self.now ≡ other.now) }
    {
        match (self, other) {
            (PlaceStep::At(number), PlaceStep::At(other)) => number == other,
            (PlaceStep::Nth(index), PlaceStep::Nth(other)) => index == other,
            (PlaceStep::At(_), PlaceStep::Nth(_)) | (PlaceStep::Nth(_), PlaceStep::At(_)) => false,
        }
    }
}

impl Eq for PlaceStep {
    ghost laws = { step_eq-equivalence };
}

/// A place in a record: at most 32 steps from its root.
#[derive(Drop)]
pub struct Place {
    steps: [PlaceStep; 32],
    used: u8,
}

impl Model for Place {
    ghost use Rattle.std.specs.Prelude.{List, take, ◌≤◌};
    ghost use Rattle.evp_format.specs.declared.place.PlaceStep.{PlaceStep};

    ghost Value = { List PlaceStep };

    ghost view = { λ p. take p.used p.steps };

    ghost invariant = { λ p. p.used ≤ 32 };
}

impl Place {
    /// The record itself.
    pub fn root() -> Self
        ensures { result ≡ [] }
    {
        Place {
            steps: [PlaceStep::At(0); 32],
            used: 0,
        }
    }

    /// The place one step further. It has room for it.
    pub fn with(&self, step: PlaceStep) -> Self
        requires { length self.now < 32 }
        ensures { result ≡ self.now ++ step ∷ [] }
    {
        let mut steps = self.steps;
        steps[usize::from(self.used)] = step;
        Place {
            steps,
            used: self.used + 1,
        }
    }

    /// The steps from the root.
    pub fn steps(&self) -> &[PlaceStep]
        ensures { result.now ≡ self.now }
    {
        &self.steps[..usize::from(self.used)]
    }
}

impl fmt::Debug for Place {
    fn fmt<W: fmt::Write>(&self, f: &mut fmt::Formatter<W>) -> fmt::Result {
        write!(f, "{:?}", self.steps())
    }
}

impl PartialEq for Place {
    ghost eq = { steps_eq };

    ghost laws = { partial_equiv_from_equiv steps_eq-equivalence };

    fn eq(&self, other: &Place) -> bool
        ensures value { result ≡ steps_eq self.now other.now }
        ensures same { IsTrue result ↔ (self.now ≡ other.now) }
    {
        self.steps() == other.steps()
    }
}

impl Eq for Place {
    ghost laws = { steps_eq-equivalence };
}
