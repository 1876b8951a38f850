//! The parser's state: what is open while a text is read, and what is read next.

use crate::operator::{Level, Operator, Sign};
use crate::quoted_text::QuotedText;
use evp_base::Name;

/// An operator whose right operand is being read.
#[derive(Clone, Copy, Debug)]
pub struct Pending {
    /// The operator's place.
    pub at: u32,
    /// The operator.
    pub operator: Operator,
}

/// What is open around the operand that is being read, each until its end.
#[derive(Clone, Copy, Debug)]
pub enum Frame {
    /// A phrase of a level, with the operator before the operand, where there is one.
    Rung(Level, Option<Pending>),
    /// A sign before the operand.
    Sign(u32, Sign),
    /// `(`
    Group,
    /// `[` behind a path.
    Index(u32),
    /// `len(`
    Length,
    /// `same(`
    Same,
}

impl Frame {
    ghost use Rattle.std.specs.Prelude.{◌≡◌};
    ghost use Rattle.evp_expr.specs.Levels.{opens_level};

    /// Whether this is one of the levels that are counted.
    pub fn opens_level(&self) -> bool
        ensures { result ≡ opens_level self.now }
    {
        match self {
            Frame::Rung(_, _) => false,
            Frame::Sign(_, _) | Frame::Group | Frame::Index(_) | Frame::Length | Frame::Same =>
                true,
        }
    }
}

/// What is read next.
#[derive(Debug, Drop)]
pub enum Mode {
    /// An operand.
    Operand,
    /// The first name of a path in `len` or `same`.
    PathStart,
    /// The name behind a `.`.
    FieldName,
    /// What follows a name that begins an operand: the name may be a function's.
    AfterName(u32, Name),
    /// What follows a path.
    AfterPath,
    /// What follows an operand that nothing extends.
    AfterOperand,
    /// The text of `same`.
    TextOfSame,
    /// The `)` behind the text of `same`.
    EndOfSame(QuotedText),
}
