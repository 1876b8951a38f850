//! Records that aren't shared yet.

ghost use Rattle.std.specs.Prelude.{◌≡◌, ◌≤◌, Some, slice_get, take, IfOk};
ghost use Rattle.evp_record.specs.Owned.{owned_of, HasValueIn, value_in};
ghost use Rattle.evp_record.specs.Record.{value_of};

use crate::{Checked, IN_PLACE, KeptBytes, Owned};
use evp_base::Memory;
use evp_format::Format;
use std::alloc::Global;
use std::marker::Model;

/// A short record before it is shared: its bytes, which are the first so many of a room of the
/// caller's, and the number of their format in a list of formats. One that is only read or is
/// converted again takes no memory, and its bytes are never moved.
#[derive(Debug, Drop)]
pub struct Draft<'a> {
    format: u16,
    size: u8,
    room: &'a [u8; IN_PLACE],
}

impl<'a> Model for Draft<'a> {
    ghost use Rattle.std.specs.Prelude.{◌≤◌, take};
    ghost use Rattle.evp_record.specs.OwnedBytes.{OwnedBytes};

    ghost Value = { OwnedBytes };

    ghost view = { λ d. record { format = d.format; bytes = take d.size d.room.now } };

    ghost invariant = { λ d. d.size ≤ 72 };
}

impl<'a> Draft<'a> {
    /// The first so many bytes of this room, as a record of the format of this number. Takes no
    /// memory.
    #[inline(always)]
    pub fn new(format: u16, size: u8, room: &'a [u8; IN_PLACE]) -> Self
        requires { size ≤ IN_PLACE }
        ensures { result ≡ owned_of format (take size room.now) }
    {
        Draft { format, size, room }
    }

    /// The number of the format.
    #[inline(always)]
    pub fn format(&self) -> u16
        ensures { result ≡ self.now.format }
    {
        self.format
    }

    /// The record, for bytes that have a value in their format of these. Doesn't walk the bytes
    /// again, and takes no memory.
    #[inline(always)]
    pub fn checked<'b>(&'b self, formats: &'b [Format]) -> Checked<'b>
        requires { HasValueIn formats.now self.now }
        ensures format { slice_get formats.now self.now.format ≡ Some result.layout }
        ensures bytes { result.bytes ≡ self.now.bytes }
        ensures value { value_in formats.now self.now ≡ Some (value_of result) }
    {
        let bytes = &self.room[..usize::from(self.size)];
        Checked::of_viewed(&formats[usize::from(self.format)], bytes)
    }

    /// The same record, to be shared. Takes memory where its bytes are more than lie in a block
    /// that is shared.
    #[inline(always)]
    pub fn owned(self, alloc: Global) -> Result<Owned, Memory>
        ensures { IfOk result (λ owned. owned ≡ self.entry) }
    {
        let bytes = KeptBytes::of_room(alloc, self.room, usize::from(self.size))?;
        Ok(Owned::kept(self.format, bytes))
    }
}
