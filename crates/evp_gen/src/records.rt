//! The records that the senders send.

ghost use Rattle.std.specs.Prelude.{◌≡◌, ◌+◌, ◌*◌, ◌%◌, ◌<◌, ◌≤◌, length, OnOk};
ghost use Rattle.evp_format.specs.Converting.{as_number};
ghost use Rattle.evp_format.specs.Packing.{pack, pieces_of, put_pieces};
ghost use Rattle.evp_gen.specs.Packed.{fixed_size, listed_pieces, tag_pieces};
ghost use Rattle.evp_gen.specs.Senders.{number_x, sent_layout, sent_record};

use crate::lists::{list_end, put_list};
use crate::put::{pointer_of, put_digits};
use crate::tags::{put_tag, tag_end};
use evp_base::Memory;
use evp_profile::Profile;

/// Packs record `index` of the sender of this number, whose machine has this profile, in the place
/// of what `packed` had.
pub(crate) fn pack_sent(
    packed: &mut Vec<u8>,
    profile: Profile,
    sender: u32,
    index: u32,
) -> Result<(), Memory>
    requires sender { sender < 4 }
    requires index { index < 20000 }
    ensures { OnOk result
        (packed.new.items ≡ pack (sent_layout profile) (sent_record sender index)) }
{
    let middle = tag_end(profile, index);
    let size = list_end(profile, index, middle);
    packed.clear();
    packed.resize(size, 0)?;
    fill(packed.as_mut_slice(), profile, sender, index, middle);
    Ok(())
}

// The parts of the record, where the block of its string ends in the middle.
fn fill(packed: &mut [u8], profile: Profile, sender: u32, index: u32, middle: usize)
    requires sender { sender < 4 }
    requires index { index < 20000 }
    requires middle { middle ≡ (tag_pieces profile index).size }
    requires low { fixed_size profile ≤ middle }
    requires near { middle ≤ 35 }
    requires high { middle ≤ length packed.old }
    requires whole { length packed.old ≡ (listed_pieces profile index middle).size }
    ensures { packed.new
        ≡ put_pieces (pieces_of (sent_layout profile) (sent_record sender index)).all packed.old }
{
    let behind = 8 + pointer_of(profile);
    put_digits(packed, profile, 0, 4, i128::from(index));
    put_digits(packed, profile, 4, 4, number_x(sender, index));
    put_tag(packed, profile, index);
    put_digits(packed, profile, behind, 4, i128::from(index % 4));
    put_list(packed, profile, index, middle);
}

// The number `x`.
fn number_x(sender: u32, index: u32) -> i128
    requires sender { sender < 4 }
    requires index { index < 20000 }
    ensures { result ≡ as_number (number_x sender index) }
{
    i128::from((37 * index + 11 * sender) % 1009) - 500
}
