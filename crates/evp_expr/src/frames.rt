//! The frames that are open, the innermost last.

use crate::fault::ExprFault;
use crate::operator::Level;
use crate::state::{Frame, Pending};
use std::alloc::Global;
use std::marker::Model;

/// The levels that may be open at once.
const MAX_LEVELS: u32 = 64;

/// The frames that are open. Contracts see their list, the innermost first.
#[derive(Drop)]
pub struct Frames {
    frames: Vec<Frame>,
    depth: u32,
}

impl Model for Frames {
    ghost use Rattle.std.specs.Prelude.{◌≡◌, ◌≤◌, List, reverse};
    ghost use Rattle.evp_expr.specs.declared.state.Frame.{Frame};

    ghost Value = { List Frame };

    ghost use Rattle.evp_expr.specs.Levels.{levels};

    ghost view = { λ f. reverse f.frames.items };

    ghost invariant = { λ f. (f.depth ≡ levels (reverse f.frames.items)) × (f.depth ≤ 64) };
}

impl Frames {
    ghost use Rattle.std.specs.Prelude.{◌≡◌, ◌≤◌, ◌<◌, [], ◌∷◌, OnOk, MatchOption, true, None};
    ghost use Rattle.evp_expr.specs.declared.state.Frame.TheVariants.{Rung};
    ghost use Rattle.evp_expr.specs.Levels.{levels, opens_level};
    ghost use Rattle.evp_expr.specs.Steps.{above};
    ghost use Rattle.evp_expr.specs.Opening.{OpeningFault, MemoryAlone};

    /// No frames.
    pub fn new(alloc: Global) -> Frames
        ensures empty { result ≡ [] }
        ensures within { levels result ≤ 64 }
    {
        Frames {
            frames: Vec::new(alloc),
            depth: 0,
        }
    }

    /// Opens a level, for a token at this place. `Deep` where that would be the 65th.
    pub fn open(&mut self, at: u32, frame: Frame) -> Result<(), ExprFault>
        requires { opens_level frame ≡ true }
        ensures opened { OnOk result (self.new ≡ frame ∷ self.old) }
        ensures within { levels self.new ≤ 64 }
        ensures fault { OpeningFault at (frame ∷ self.old) result }
    {
        if self.depth == MAX_LEVELS {
            return Err(ExprFault::Deep(at));
        }
        self.frames.push(frame)?;
        self.depth += 1;
        Ok(())
    }

    /// Opens a phrase of this level, which counts as none.
    pub fn push_rung(&mut self, level: Level, pending: Option<Pending>) -> Result<(), ExprFault>
        ensures pushed { OnOk result (self.new ≡ Rung level pending ∷ self.old) }
        ensures within { levels self.new ≤ 64 }
        ensures fault { MemoryAlone result }
    {
        self.frames.push(Frame::Rung(level, pending))?;
        Ok(())
    }

    /// Opens the phrases of an operand of this level's operators.
    pub fn climb(&mut self, level: Level) -> Result<(), ExprFault>
        ensures climbed { OnOk result (self.new ≡ above level self.old) }
        ensures within { levels self.new ≤ 64 }
        ensures fault { MemoryAlone result }
    {
        let _ = &self.frames;
        match level {
            Level::Product => return Ok(()),
            Level::Sum => {}
            Level::Comparison => self.push_rung(Level::Sum, None)?,
            Level::Conjunction => {
                self.push_rung(Level::Comparison, None)?;
                self.push_rung(Level::Sum, None)?;
            }
            Level::Disjunction => {
                self.push_rung(Level::Conjunction, None)?;
                self.push_rung(Level::Comparison, None)?;
                self.push_rung(Level::Sum, None)?;
            }
        }
        self.push_rung(Level::Product, None)
    }

    /// Closes the innermost frame.
    pub fn pop(&mut self) -> Option<Frame>
        ensures popped { MatchOption result ((self.old ≡ []) × (self.new ≡ []))
            (λ frame. self.old ≡ frame ∷ self.new) }
        ensures within { levels self.new ≤ 64 }
    {
        let frame = self.frames.pop()?;
        if frame.opens_level() {
            self.depth -= 1;
        }
        Some(frame)
    }
}
