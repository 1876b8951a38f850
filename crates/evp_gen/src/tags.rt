//! The strings of the records.

ghost use Rattle.std.specs.Prelude.{◌≡◌, ◌+◌, ◌*◌, ◌%◌, ◌<◌, ◌≤◌, ◌∷◌, ◌++◌, [], length, nat_eq};
ghost use Rattle.std.specs.Fmt.{decimal};
ghost use Rattle.evp_format.specs.Bytes.{next_block, put_at};
ghost use Rattle.evp_format.specs.Packing.{put_pieces};
ghost use Rattle.evp_profile.specs.Profile.{pointer_size};
ghost use Rattle.evp_gen.specs.Packed.{fixed_size, tag_pieces};

use crate::put::{pointer_of, put_bytes, put_pointer};
use evp_profile::Profile;

// The size behind the block of the string `tag` of this record.
pub(crate) fn tag_end(profile: Profile, index: u32) -> usize
    ensures value { result ≡ (tag_pieces profile index).size }
    ensures grows { fixed_size profile ≤ result }
    ensures few { result ≤ 35 }
{
    let fixed = fixed_size(profile);
    if is_null(index) {
        return fixed;
    }
    next_block(fixed) + text_size(index % 100) + 1
}

// The string `tag`: its pointer, and its block where there is one.
pub(crate) fn put_tag(packed: &mut [u8], profile: Profile, index: u32)
    requires fixed { fixed_size profile ≤ length packed.old }
    requires inside { (tag_pieces profile index).size ≤ length packed.old }
    ensures { packed.new ≡ put_pieces (tag_pieces profile index).all packed.old }
{
    if is_null(index) {
        put_pointer(packed, profile, 8, 0);
        return;
    }
    let block = next_block(fixed_size(profile));
    put_pointer(packed, profile, 8, block);
    put_text(packed, block, (index % 100) as u8);
}

// Whether the string is null, as in every fifth record.
fn is_null(index: u32) -> bool
    ensures { result ≡ nat_eq (index % 5) 4 }
{
    index % 5 == 4
}

// The bytes of the fields.
pub(crate) fn fixed_size(profile: Profile) -> usize
    ensures value { result ≡ fixed_size profile }
    ensures few { result ≤ 32 }
{
    8 + 3 * pointer_of(profile)
}

// The next multiple of 8 from there on.
pub(crate) fn next_block(size: usize) -> usize
    requires { size ≤ 100 }
    ensures { result ≡ next_block size }
{
    (size + 7) / 8 * 8
}

// How many digits a number has.
fn text_size(number: u32) -> usize
    requires { number < 100 }
    ensures value { result ≡ length (decimal number) }
    ensures few { result ≤ 2 }
{
    if number < 10 { 1 } else { 2 }
}

// A number in decimal and a zero, from `at` on.
fn put_text(packed: &mut [u8], at: usize, number: u8)
    requires few { number < 100 }
    requires inside { at + length (decimal number) + 1 ≤ length packed.old }
    ensures { packed.new ≡ put_at at (decimal number ++ 0 ∷ []) packed.old }
{
    if number < 10 {
        put_bytes(packed, at, &[b'0' + number, 0]);
    } else {
        put_bytes(packed, at, &[b'0' + number / 10, b'0' + number % 10, 0]);
    }
}
