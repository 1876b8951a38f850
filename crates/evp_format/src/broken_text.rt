//! The text of a record's fault.
ghost use Rattle.std.specs.Prelude.{Some};
ghost use Rattle.evp_format.specs.BrokenText.{broken_text};

use crate::Broken;
use evp_base::FieldPath;
use std::fmt;

/// A record's fault with the path of the part that is at fault, `fault.path(..)`, to be written as
/// `short record`, `negative count PATH`, `null list PATH`, `block place PATH` or `no end PATH`.
#[derive(Clone, Copy, Debug)]
pub struct BrokenText<'a> {
    /// What is wrong.
    pub fault: &'a Broken,
    /// Where, in the record's own format.
    pub path: &'a FieldPath,
}

impl<'a> fmt::Display for BrokenText<'a> {
    ghost output = { λ text. Some (broken_text text.fault.now text.path.now) };

    fn fmt<W: fmt::Write>(&self, f: &mut fmt::Formatter<W>) -> fmt::Result {
        match self.fault {
            Broken::ShortRecord => f.write_str("short record"),
            Broken::NegativeCount(_) => write!(f, "negative count {}", self.path),
            Broken::NullList(_) => write!(f, "null list {}", self.path),
            Broken::BlockPlace(_) => write!(f, "block place {}", self.path),
            Broken::NoEnd(_) => write!(f, "no end {}", self.path),
        }
    }
}
