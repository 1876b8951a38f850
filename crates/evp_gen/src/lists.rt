//! The lists of the records.

ghost use Rattle.std.specs.Prelude.{◌≡◌, ◌+◌, ◌*◌, ◌%◌, ◌<◌, ◌≤◌, length, map};
ghost use Rattle.std.specs.List.{range_with_len};
ghost use Rattle.evp_format.specs.Bytes.{put_at};
ghost use Rattle.evp_format.specs.Packing.{put_pieces};
ghost use Rattle.evp_profile.specs.Profile.{pointer_size};
ghost use Rattle.evp_gen.specs.Packed.{element_number, element_piece, fixed_size, listed_pieces};

use crate::put::{pointer_of, put_digits, put_pointer};
use crate::tags::next_block;
use evp_profile::Profile;

// The size behind the block of the list `v` of this record, where the blocks before it end there.
pub(crate) fn list_end(profile: Profile, index: u32, before: usize) -> usize
    requires { before ≤ 35 }
    ensures value { result ≡ (listed_pieces profile index before).size }
    ensures grows { before ≤ result }
    ensures few { result ≤ 64 }
{
    let count = (index % 4) as usize;
    if count == 0 {
        return before;
    }
    next_block(before) + count * 2
}

// The list `v`: its pointer, and its block where there is one.
pub(crate) fn put_list(packed: &mut [u8], profile: Profile, index: u32, before: usize)
    requires index { index < 20000 }
    requires before { before ≤ 35 }
    requires fixed { fixed_size profile ≤ length packed.old }
    requires inside { (listed_pieces profile index before).size ≤ length packed.old }
    ensures { packed.new ≡ put_pieces (listed_pieces profile index before).all packed.old }
{
    let at = 8 + 2 * pointer_of(profile);
    if index % 4 == 0 {
        put_pointer(packed, profile, at, 0);
        return;
    }
    let block = next_block(before);
    put_pointer(packed, profile, at, block);
    put_elements(packed, profile, index, block);
}

// The elements of the list, the first at `block`.
fn put_elements(packed: &mut [u8], profile: Profile, index: u32, block: usize)
    requires index { index < 20000 }
    requires inside { block + index % 4 * 2 ≤ length packed.old }
    ensures { packed.new
        ≡ put_pieces (map (element_piece profile block index) (range_with_len 0 (index % 4)))
        packed.old }
{
    for k in 0..index % 4 {
        put_digits(
            packed,
            profile,
            block + k as usize * 2,
            2,
            element(index, k),
        );
    }
}

// Element k of the list.
fn element(index: u32, k: u32) -> i128
    requires index { index < 20000 }
    requires k { k < 4 }
    ensures { result ≡ element_number index k }
{
    i128::from((index + k) % 100) - 50
}
