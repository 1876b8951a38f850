//! The formats that stones may name.

ghost use Rattle.std.specs.Prelude.{◌≡◌, ◌≤◌, length};

use evp_base::Name;
use evp_file::KnownFormat;
use evp_format::Format;

/// The declared formats, by the same numbers as their names.
#[derive(Clone, Copy)]
pub(crate) struct Formats<'a> {
    pub names: &'a [Name],
    pub known: &'a [KnownFormat],
    ghost paired: { length names.now ≡ length known.now },
    ghost few: { length known.now ≤ 256 },
}

/// One of them: its number, and itself.
#[derive(Clone, Copy)]
pub(crate) struct Declared<'a> {
    pub number: u16,
    pub format: &'a Format,
}
