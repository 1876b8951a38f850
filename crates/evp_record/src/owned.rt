//! Records that own their bytes.

ghost use Rattle.std.specs.Prelude.{◌≡◌, ◌^◌, ◌<◌, Some, length, slice_get, vec_len};
ghost use Rattle.evp_record.specs.Owned.{owned_of, HasValueIn, value_in};
ghost use Rattle.evp_record.specs.Record.{record_of, value_of};

use crate::{Checked, KeptBytes};
use evp_format::Format;
use std::marker::Model;

/// A record's bytes, fewer than 2^32, and the number of their format in a list of formats.
#[derive(Debug, Drop)]
pub struct Owned {
    format: u16,
    bytes: KeptBytes,
}

impl Model for Owned {
    ghost use Rattle.std.specs.Prelude.{◌^◌, ◌<◌, length};
    ghost use Rattle.evp_record.specs.OwnedBytes.{OwnedBytes};

    ghost Value = { OwnedBytes };

    ghost view = { λ o. record { format = o.format; bytes = o.bytes } };

    ghost invariant = { λ o. length o.bytes < 2 ^ 32 };
}

impl Owned {
    /// These bytes, as a record of the format of this number. Takes no memory.
    pub fn new(format: u16, bytes: Vec<u8>) -> Self
        requires { length bytes.items < 2 ^ 32 }
        ensures { result ≡ owned_of format bytes.items }
    {
        Owned::kept(format, KeptBytes::of(bytes))
    }

    /// The same of bytes that may lie in the record itself.
    #[inline(always)]
    pub fn kept(format: u16, bytes: KeptBytes) -> Self
        requires { length bytes < 2 ^ 32 }
        ensures { result ≡ owned_of format bytes }
    {
        Owned { format, bytes }
    }

    /// The number of the format.
    pub fn format(&self) -> u16
        ensures { result ≡ self.now.format }
    {
        self.format
    }

    /// The record's bytes.
    pub fn bytes(&self) -> &[u8]
        ensures value { result.now ≡ self.now.bytes }
        ensures short { length self.now.bytes < 2 ^ 32 }
    {
        self.bytes.as_slice()
    }

    /// The record, for bytes that have a value in their format of these. Doesn't walk the bytes
    /// again, and takes no memory.
    pub fn checked<'a>(&'a self, formats: &'a [Format]) -> Checked<'a>
        requires { HasValueIn formats.now self.now }
        ensures format { slice_get formats.now self.now.format ≡ Some result.layout }
        ensures bytes { result.bytes ≡ self.now.bytes }
        ensures value { value_in formats.now self.now ≡ Some (value_of result) }
    {
        Checked::of_viewed(&formats[usize::from(self.format)], self.bytes.as_slice())
    }
}
