//! Why a text is no expression.

ghost use Rattle.std.specs.Prelude.{◌≡◌, Some};
ghost use Rattle.evp_expr.specs.declared.fault.ExprFault.TheVariants.{Memory};

use std::alloc::{AllocError, AllocFailed};
use std::error::Error;
use std::fmt;

/// Why a text is no expression. Places are offsets in bytes, from 0. Written as `token at 2`, with
/// the place, or as `long` or `memory`.
#[derive(Clone, Copy, Debug, PartialEq, Eq)]
pub enum ExprFault {
    /// Here stands no token: a character that none begins with, a word of more than 64 bytes, or
    /// the opening quote of a text that isn't closed.
    Token(u32),
    /// The token here, or the end of the text, can't follow what stands before it.
    Unexpected(u32),
    /// The token here opens the 65th level.
    Deep(u32),
    /// The text has more than 4,096 bytes.
    Long,
    /// The number here is above 2^127 - 1.
    Literal(u32),
    /// There is no memory for the tree.
    Memory,
}

impl fmt::Display for ExprFault {
    ghost use Rattle.evp_expr.specs.FaultText.{fault_text};

    ghost output = { λ fault. Some (fault_text fault) };

    fn fmt<W: fmt::Write>(&self, f: &mut fmt::Formatter<W>) -> fmt::Result {
        match self {
            ExprFault::Token(at) => write!(f, "token at {at}"),
            ExprFault::Unexpected(at) => write!(f, "unexpected at {at}"),
            ExprFault::Deep(at) => write!(f, "deep at {at}"),
            ExprFault::Long => f.write_str("long"),
            ExprFault::Literal(at) => write!(f, "literal at {at}"),
            ExprFault::Memory => f.write_str("memory"),
        }
    }
}

impl Error for ExprFault {}

impl From<AllocError> for ExprFault {
    ghost from_gives = { λ _ e. e ≡ Memory };

    fn from(_error: AllocError) -> ExprFault {
        ExprFault::Memory
    }
}

impl<T: Drop> From<AllocFailed<T>> for ExprFault {
    ghost from_gives = { λ _ e. e ≡ Memory };

    fn from(_error: AllocFailed<T>) -> ExprFault {
        ExprFault::Memory
    }
}
