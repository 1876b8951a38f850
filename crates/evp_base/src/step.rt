//! One step of a path into a record.

ghost use Rattle.std.specs.Prelude.{◌≡◌, ◌↔◌, Some, IsTrue};
ghost use Rattle.std.specs.Fmt.{WritesOnOk};
ghost use Rattle.std.specs.Cmp.{partial_equiv_from_equiv};
ghost use Rattle.evp_base.specs.Path.{step_eq, step_text, joined_text};
ghost use Rattle.evp_base.specs.Equalities.{step_eq-equivalence};

use crate::Name;
use std::fmt;

/// A step from a record to its field of that name, or from an array to its element of that index,
/// counted from 0. Written as the name, or as the index in brackets.
#[derive(Clone, Copy, Debug)]
pub enum Step {
    /// To a record's field.
    Field(Name),
    /// To an array's element.
    Index(u32),
}

impl PartialEq for Step {
    ghost eq = { step_eq };

    ghost laws = { partial_equiv_from_equiv step_eq-equivalence };

    fn eq(&self, other: &Step) -> bool
        ensures value { result ≡ step_eq self.now other.now }
        ensures same { IsTrue result ↔ (self.now ≡ other.now) }
    {
        match (self, other) {
            (Step::Field(name), Step::Field(other)) => name == other,
            (Step::Index(index), Step::Index(other)) => index == other,
            (Step::Field(_), Step::Index(_)) | (Step::Index(_), Step::Field(_)) => false,
        }
    }
}

impl Eq for Step {
    ghost laws = { step_eq-equivalence };
}

impl fmt::Display for Step {
    ghost output = { λ step. Some (step_text step) };

    fn fmt<W: fmt::Write>(&self, f: &mut fmt::Formatter<W>) -> fmt::Result {
        match self {
            Step::Field(name) => write!(f, "{name}"),
            Step::Index(index) => write!(f, "[{index}]"),
        }
    }
}

/// A step behind others: a name has a `.` in front.
pub(crate) fn write_joined<W: fmt::Write>(f: &mut fmt::Formatter<W>, step: &Step) -> fmt::Result
    ensures { WritesOnOk W.write_str_gives f.old result (joined_text step.now) f.new }
{
    match step {
        Step::Field(name) => write!(f, ".{name}"),
        Step::Index(_) => write!(f, "{step}"),
    }
}
