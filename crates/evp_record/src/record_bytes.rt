//! The bytes of records that are shared, where they lie.

ghost use Rattle.std.specs.Prelude.{◌≡◌, ◌≤◌, take, IfOk};

use evp_base::Memory;
use std::alloc::Global;
use std::marker::Model;

/// How many bytes of a record that isn't shared may lie in room of the caller's.
pub const IN_PLACE: usize = 72;

/// How many bytes of a record that is shared may lie in its own block of memory, which is 56 bytes
/// long by that.
pub const IN_BLOCK: usize = 38;

// Where the bytes lie: so many in the value itself, from an even place on, or apart from it.
#[derive(Debug, Drop)]
enum Held {
    Short(u8, [u8; IN_BLOCK]),
    Long(Vec<u8>),
}

/// The bytes of a record that is shared, or will be: with a short one they are one block of memory.
#[derive(Debug, Drop)]
pub struct KeptBytes {
    held: Held,
}

impl Model for KeptBytes {
    ghost use Rattle.std.specs.Prelude.{ℕ, List};
    ghost use Rattle.evp_record.specs.HeldBytes.{held_bytes, IsHeld};

    ghost Value = { List ℕ };

    ghost view = { λ b. held_bytes b.held };

    ghost invariant = { λ b. IsHeld b.held };
}

impl KeptBytes {
    /// These bytes. Takes no memory.
    #[inline(always)]
    pub fn of(bytes: Vec<u8>) -> Self
        ensures { result ≡ bytes.items }
    {
        KeptBytes {
            held: Held::Long(bytes),
        }
    }

    /// A copy of these bytes. Takes memory where they are more than lie in a block that is shared.
    #[inline(always)]
    pub fn copied(alloc: Global, bytes: &[u8]) -> Result<Self, Memory>
        ensures { IfOk result (λ copy. copy ≡ bytes.now) }
    {
        if bytes.len() > IN_BLOCK {
            return Ok(KeptBytes::of(Vec::from_slice(alloc, bytes)?));
        }
        let mut block = [0u8; IN_BLOCK];
        block[..bytes.len()].copy_from_slice(bytes);
        Ok(KeptBytes::in_block(block, bytes.len()))
    }

    /// A copy of the first so many bytes of this room. Takes memory where they are more than lie in
    /// a block that is shared.
    #[inline(always)]
    pub fn of_room(alloc: Global, room: &[u8; IN_PLACE], size: usize) -> Result<Self, Memory>
        requires { size ≤ IN_PLACE }
        ensures { IfOk result (λ copy. copy ≡ take size room.now) }
    {
        if size > IN_BLOCK {
            return Ok(KeptBytes::of(Vec::from_slice(alloc, &room[..size])?));
        }
        let mut block = [0u8; IN_BLOCK];
        block.copy_from_slice(&room[..IN_BLOCK]);
        Ok(KeptBytes::in_block(block, size))
    }

    /// The bytes.
    #[inline(always)]
    pub fn as_slice(&self) -> &[u8]
        ensures { result.now ≡ self.now }
    {
        match &self.held {
            Held::Short(size, bytes) => &bytes[..usize::from(*size)],
            Held::Long(bytes) => bytes.as_slice(),
        }
    }

    // The first so many of these bytes.
    #[inline(always)]
    fn in_block(bytes: [u8; IN_BLOCK], size: usize) -> Self
        requires { size ≤ IN_BLOCK }
        ensures { result ≡ take size bytes }
    {
        KeptBytes {
            held: Held::Short(size as u8, bytes),
        }
    }
}
