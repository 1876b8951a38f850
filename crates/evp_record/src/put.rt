//! Bytes put into a record that is being packed.

ghost use Rattle.std.specs.Prelude.{◌≡◌, ◌+◌, ◌≤◌, ◌^◌, ◌<◌, pos, length, IsTrue, OnOk};
ghost use Rattle.evp_base.specs.Numbers.{digits, is_width, FitsBytes};
ghost use Rattle.evp_format.specs.Bytes.{put_at, next_block};
ghost use Rattle.evp_record.specs.Onto.{grown};

use evp_base::{Memory, Order, put_number};

// The next multiple of 8 from there on.
pub(crate) fn next_block(size: usize) -> usize
    requires { size < 2 ^ 32 }
    ensures { result ≡ next_block size }
{
    (size + 7) / 8 * 8
}

// Zeros behind the bytes, up to that size.
pub(crate) fn grow(out: &mut Vec<u8>, size: usize) -> Result<(), Memory>
    requires { length out.old.items ≤ size }
    ensures { OnOk result (out.new.items ≡ grown out.old.items size) }
{
    out.resize(size, 0)?;
    Ok(())
}

// These bytes in the place of those from `at` on.
pub(crate) fn put_bytes(out: &mut Vec<u8>, at: usize, bytes: &[u8])
    requires { at + length bytes.now ≤ length out.old.items }
    ensures { out.new.items ≡ put_at at bytes.now out.old.items }
{
    out.as_mut_slice()[at..at + bytes.len()].copy_from_slice(bytes);
}

// The digits of a number in the place of the bytes from `at` on.
pub(crate) fn put_digits(out: &mut Vec<u8>, at: usize, order: Order, size: u32, number: i128)
    requires allowed { IsTrue (is_width size) }
    requires inside { at + size ≤ length out.old.items }
    requires fits { FitsBytes size number }
    ensures { out.new.items ≡ put_at at (digits order size number) out.old.items }
{
    let mut word = [0; 8];
    let word = &mut word[..size as usize];
    put_number(word, order, size, number);
    put_bytes(out, at, word);
}
