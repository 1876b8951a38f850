//! Paths into records.

ghost use Rattle.std.specs.Prelude.{◌≡◌, Some, [], ◌∷◌, ◌++◌, OnOk, OnErr};
ghost use Rattle.std.specs.Fmt.{WritesOnOk};
ghost use Rattle.std.specs.List.{flat_map};
ghost use Rattle.evp_base.specs.Path.{joined_text};

use crate::step::write_joined;
use crate::{Memory, Step};
use std::alloc::{AllocError, Global};
use std::fmt;
use std::marker::Model;

/// The way from a record to one of its parts. Its text joins fields by `.` and puts indices in
/// brackets, as `a.b[3]`; the empty path, which is the record itself, is `.`.
#[derive(Debug, Drop)]
pub struct FieldPath {
    steps: Vec<Step>,
}

impl Model for FieldPath {
    ghost use Rattle.std.specs.Prelude.{List};
    ghost use Rattle.evp_base.specs.declared.step.Step.{Step};

    ghost Value = { List Step };

    ghost view = { λ path. path.steps.items };
}

impl FieldPath {
    /// The empty path. Takes no memory.
    pub fn new(alloc: Global) -> Self
        ensures { result ≡ [] }
    {
        FieldPath {
            steps: Vec::new(alloc),
        }
    }

    /// The path of these steps. Takes no memory.
    pub fn from_steps(steps: Vec<Step>) -> Self
        ensures { result ≡ steps.items }
    {
        FieldPath { steps }
    }

    /// The steps, the first first.
    pub fn steps(&self) -> &[Step]
        ensures { result.now ≡ self.now }
    {
        self.steps.as_slice()
    }

    /// The steps, as a vector. Takes no memory.
    pub fn into_steps(self) -> Vec<Step>
        ensures { result.items ≡ self }
    {
        self.steps
    }

    /// Adds a step at the end. `Memory` where the longer path found none; the path then stays as
    /// it was.
    pub fn push(&mut self, step: Step) -> Result<(), Memory>
        ensures ok { OnOk result (self.new ≡ self.old ++ step ∷ []) }
        ensures err { OnErr result (self.new ≡ self.old) }
    {
        self.steps.push(step)?;
        Ok(())
    }
}

impl Clone for FieldPath {
    ghost is_clone = { λ path copy. copy ≡ path };

    fn clone(&self) -> Result<Self, AllocError> {
        let alloc = *self.steps.allocator();
        Ok(FieldPath {
            steps: Vec::from_slice(alloc, self.steps.as_slice())?,
        })
    }
}

impl PartialEq for FieldPath {
    ghost use Rattle.std.specs.Prelude.{◌≡◌, ◌↔◌, IsTrue};
    ghost use Rattle.std.specs.Cmp.{partial_equiv_from_equiv};
    ghost use Rattle.evp_base.specs.Path.{path_eq};
    ghost use Rattle.evp_base.specs.Equalities.{path_eq-equivalence};

    ghost eq = { path_eq };

    ghost laws = { partial_equiv_from_equiv path_eq-equivalence };

    fn eq(&self, other: &FieldPath) -> bool
        ensures value { result ≡ path_eq self.now other.now }
        ensures same { IsTrue result ↔ (self.now ≡ other.now) }
    {
        self.steps.as_slice() == other.steps.as_slice()
    }
}

impl Eq for FieldPath {
    ghost use Rattle.evp_base.specs.Equalities.{path_eq-equivalence};

    ghost laws = { path_eq-equivalence };
}

impl fmt::Display for FieldPath {
    ghost use Rattle.evp_base.specs.Path.{path_text};

    ghost output = { λ path. Some (path_text path) };

    fn fmt<W: fmt::Write>(&self, f: &mut fmt::Formatter<W>) -> fmt::Result {
        let Some((first, others)) = self.steps.split_first() else {
            return f.write_str(".");
        };
        write!(f, "{first}")?;
        write_others(f, others)
    }
}

// Writes the steps behind the first.
fn write_others<W: fmt::Write>(f: &mut fmt::Formatter<W>, others: &[Step]) -> fmt::Result
    ensures { WritesOnOk W.write_str_gives f.old result (flat_map joined_text others.now) f.new }
{
    for step in others {
        write_joined(f, step)?;
    }
    Ok(())
}
