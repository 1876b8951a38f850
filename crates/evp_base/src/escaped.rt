//! A byte of a text in double quotes.

ghost use Rattle.std.specs.Prelude.{◌≡◌, ◌/◌, ◌<◌, false};
ghost use Rattle.std.specs.Fmt.{digit_glyph};
ghost use Rattle.std.specs.Str.{IsAscii};
ghost use Rattle.evp_base.specs.Quoted.{is_printable, escaped};

use std::marker::Model;

/// A byte as it stands between double quotes, 1 to 4 bytes of ASCII: from 0x20 to 0x7e as itself,
/// but `"` as `\"` and `\` as `\\`; every other byte as `\x` and two lower case hexadecimal
/// digits.
#[derive(Debug, Drop)]
pub struct Escaped {
    bytes: [u8; 4],
    used: usize,
}

impl Model for Escaped {
    ghost use Rattle.std.specs.Prelude.{ℕ, List, take};
    ghost use Rattle.evp_base.specs.Quoted.{IsKept};

    ghost Value = { List ℕ };

    ghost view = { λ e. take e.used e.bytes };

    ghost invariant = { λ e. IsKept e.used e.bytes };
}

impl Escaped {
    /// How the byte is shown. Takes no memory.
    pub fn new(byte: u8) -> Self
        ensures { result ≡ escaped byte }
    {
        let (bytes, used) = match byte {
            b'"' | b'\\' => ([b'\\', byte, 0, 0], 2),
            _ if is_printable(byte) => ([byte, 0, 0, 0], 1),
            _ => ([b'\\', b'x', digit(byte / 16), digit(byte % 16)], 4),
        };
        Escaped { bytes, used }
    }

    /// The bytes that show it, all ASCII.
    pub fn as_bytes(&self) -> &[u8]
        ensures value { result.now ≡ self.now }
        ensures ascii { IsAscii self.now }
    {
        &self.bytes[..self.used]
    }

    /// What shows it, as text.
    pub fn as_str(&self) -> &str
        ensures { result.now ≡ self.now }
    {
        match std::str::from_utf8(self.as_bytes()) {
            Ok(text) => text,
            Err(_) => unreachable!(),
        }
    }
}

// Whether the byte stands for itself: the blank, or one that ASCII has a glyph for.
fn is_printable(byte: u8) -> bool
    ensures { result ≡ is_printable byte }
{
    (b' '..=b'~').contains(&byte)
}

// The lower case hexadecimal digit.
fn digit(value: u8) -> u8
    requires { value < 16 }
    ensures { result ≡ digit_glyph false value }
{
    if value < 10 {
        b'0' + value
    } else {
        b'a' + (value - 10)
    }
}
