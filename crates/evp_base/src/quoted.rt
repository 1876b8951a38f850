//! Texts in double quotes.

ghost use Rattle.std.specs.Prelude.{Some};
ghost use Rattle.std.specs.List.{flat_map};
ghost use Rattle.std.specs.Fmt.{WritesOnOk};
ghost use Rattle.evp_base.specs.Quoted.{escaped, quoted};

use crate::Escaped;
use std::fmt;

/// Bytes that are written as a text in double quotes, each as `Escaped` shows it:
/// `Quoted(b"a\"\n")` is `"a\"\x0a"`. It takes no memory.
#[derive(Clone, Copy, Debug)]
pub struct Quoted<'a>(pub &'a [u8]);

impl<'a> fmt::Display for Quoted<'a> {
    ghost output = { λ text. Some (quoted text.0.now) };

    fn fmt<W: fmt::Write>(&self, f: &mut fmt::Formatter<W>) -> fmt::Result {
        f.write_str("\"")?;
        write_escaped(f, self.0)?;
        f.write_str("\"")
    }
}

// Writes what stands between the quotes.
fn write_escaped<W: fmt::Write>(f: &mut fmt::Formatter<W>, bytes: &[u8]) -> fmt::Result
    ensures { WritesOnOk W.write_str_gives f.old result (flat_map escaped bytes.now) f.new }
{
    for byte in bytes {
        f.write_str(Escaped::new(*byte).as_str())?;
    }
    Ok(())
}
