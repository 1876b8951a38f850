//! Bytes put into a record that is being packed.

ghost use Rattle.std.specs.Prelude.{◌≡◌, ◌+◌, ◌^◌, ◌<◌, ◌≤◌, pos, length, IsTrue};
ghost use Rattle.evp_base.specs.Numbers.{digits, is_width, FitsBytes};
ghost use Rattle.evp_format.specs.Bytes.{put_at};
ghost use Rattle.evp_profile.specs.Profile.{byte_order, pointer_size};

use evp_base::put_number;
use evp_profile::Profile;

// These bytes in the place of those from `at` on.
pub(crate) fn put_bytes(packed: &mut [u8], at: usize, bytes: &[u8])
    requires { at + length bytes.now ≤ length packed.old }
    ensures { packed.new ≡ put_at at bytes.now packed.old }
{
    packed[at..at + bytes.len()].copy_from_slice(bytes);
}

// The digits of a number in the place of the bytes from `at` on, in the order of this profile.
pub(crate) fn put_digits(packed: &mut [u8], profile: Profile, at: usize, size: u32, number: i128)
    requires allowed { IsTrue (is_width size) }
    requires inside { at + size ≤ length packed.old }
    requires fits { FitsBytes size number }
    ensures { packed.new ≡ put_at at (digits (byte_order profile) size number) packed.old }
{
    let mut word = [0; 8];
    let word = &mut word[..size as usize];
    put_number(word, profile.byte_order(), size, number);
    put_bytes(packed, at, word);
}

// The bytes of a pointer of this profile.
pub(crate) fn pointer_of(profile: Profile) -> usize
    ensures value { result ≡ pointer_size profile }
    ensures some { 4 ≤ result }
    ensures few { result ≤ 8 }
{
    usize::from(profile.pointer_size())
}

// The pointer to the block at `block`, or 0, in the place of the bytes from `at` on.
pub(crate) fn put_pointer(packed: &mut [u8], profile: Profile, at: usize, block: usize)
    requires inside { at + pointer_size profile ≤ length packed.old }
    requires near { block < 2 ^ 16 }
    ensures { packed.new
        ≡ put_at at (digits (byte_order profile) (pointer_size profile) (pos block)) packed.old }
{
    let size = pointer_of(profile) as u32;
    put_digits(packed, profile, at, size, block as i128);
}
