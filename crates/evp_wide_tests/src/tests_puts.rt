ghost use Rattle.std.specs.Prelude.{◌≡◌, ◌<◌, ◌≤◌, length};

use evp_base::Order;
use evp_wide::{near_zero, put_signed, put_text};
use std::test::*;

// Where the only zero byte of fifty is found by a look from a place on.
fn near(place: usize, from: usize) -> Option<usize>
    requires { place < 50 }
{
    let mut bytes = [7; 50];
    bytes[place] = 0;
    near_zero(&bytes, from)
}

#[test]
fn a_near_zero_byte_is_found(rt: HostRuntime) -> Result<(), Fail> {
    assert_eq!(rt; near(1, 1), Some(0));
    assert_eq!(rt; near(16, 1), Some(15));
    assert_eq!(rt; near(17, 1), Some(16));
    assert_eq!(rt; near(32, 1), Some(31));
    assert_eq!(rt; near(33, 1), None);
    assert_eq!(rt; near(32, 33), None);
    // none is looked for where a null pointer leads
    assert_eq!(rt; near(0, 0), None);
    assert_eq!(rt; near(15, 0), None);
    // close to the end the windows overlap, or are the same
    assert_eq!(rt; near(49, 18), Some(31));
    assert_eq!(rt; near(49, 30), Some(19));
    assert_eq!(rt; near(49, 34), Some(15));
    assert_eq!(rt; near(49, 35), None);
    assert_eq!(rt; near(49, 60), None);
    assert_eq!(rt; near_zero(&[0; 15], 1), None);
    assert_eq!(rt; near_zero(&[0; 16], 1), None);
    assert_eq!(rt; near_zero(&[0; 17], 1), Some(0));
    Ok(())
}

// Writes a text of so many letters, in fifty bytes, behind three bytes and a gap of two.
fn write_text(out: &mut [u8], letters: usize) -> Option<usize>
    requires letters { letters < 49 }
    requires room { 3 ≤ length out.old }
    ensures { length out.new ≡ length out.old }
{
    let mut bytes = [7; 50];
    bytes[1 + letters] = 0;
    put_text(out, 3, 5, &bytes, 1)
}

#[test]
fn texts_are_put_behind_a_gap(rt: HostRuntime) -> Result<(), Fail> {
    let mut out = [0x11; 37];
    assert_eq!(rt; write_text(&mut out, 0), Some(0));
    assert_eq!(rt; &out[..6], [0x11, 0x11, 0x11, 0, 0, 0].as_slice());
    assert_eq!(rt; write_text(&mut out, 1), Some(1));
    assert_eq!(rt; &out[..7], [0x11, 0x11, 0x11, 0, 0, 7, 0].as_slice());
    assert_eq!(rt; write_text(&mut out, 15), Some(15));
    assert_eq!(rt; &out[18..21], [7, 7, 0].as_slice());
    assert_eq!(rt; write_text(&mut out, 16), Some(16));
    assert_eq!(rt; &out[18..22], [7, 7, 7, 0].as_slice());
    assert_eq!(rt; write_text(&mut out, 31), Some(31));
    assert_eq!(rt; &out[..6], [0x11, 0x11, 0x11, 0, 0, 7].as_slice());
    assert_eq!(rt; &out[33..], [7, 7, 7, 0].as_slice());
    Ok(())
}

#[test]
fn texts_want_room_for_both_windows(rt: HostRuntime) -> Result<(), Fail> {
    let mut out = [0x11; 36];
    assert_eq!(rt; write_text(&mut out, 1), None);
    assert_eq!(rt; out.as_slice(), [0x11; 36].as_slice());
    let mut long = [0x11; 50];
    assert_eq!(rt; write_text(&mut long, 32), None);
    assert_eq!(rt; long.as_slice(), [0x11; 50].as_slice());
    let mut none = [0x11; 4];
    assert_eq!(rt; write_text(&mut none, 1), None);
    // of the last sixteen bytes, with no gap
    let bytes = [
        1, 2, 3, 4, 5, 6, 7, 8, 9, 10, 11, 12, 13, 14, 15, 16, 17, 18, 0,
    ];
    let mut last = [0x11; 17];
    assert_eq!(rt; put_text(&mut last, 0, 0, &bytes, 3), Some(15));
    assert_eq!(rt; &last[..3], [4, 5, 6].as_slice());
    assert_eq!(rt; &last[13..], [17, 18, 0, 0x11].as_slice());
    assert_eq!(rt; put_text(&mut last, 0, 0, &bytes, 4), None);
    assert_eq!(rt; put_text(&mut last, 0, 0, &bytes, 0), None);
    Ok(())
}

#[test]
fn signed_numbers_are_put(rt: HostRuntime) -> Result<(), Fail> {
    // -5, -4 and so on up to 3 in two bytes, behind one byte
    let from = [
        9, 0xff, 0xfb, 0xff, 0xfc, 0xff, 0xfd, 0xff, 0xfe, 0xff, 0xff, 0, 0, 0, 1, 0, 2, 0, 3,
    ];
    let mut out = [0x11; 38];
    put_signed(&mut out, 1, 4, Order::Big, &from, 1, 2, Order::Big, 0);
    assert_eq!(rt; out.as_slice(), [0x11; 38].as_slice());
    put_signed(&mut out, 1, 4, Order::Big, &from, 1, 2, Order::Big, 3);
    assert_eq!(rt;
        &out[..14],
        [
            0x11, 0xff, 0xff, 0xff, 0xfb, 0xff, 0xff, 0xff, 0xfc, 0xff, 0xff, 0xff, 0xfd, 0x11,
        ]
        .as_slice()
    );
    put_signed(&mut out, 1, 4, Order::Little, &from, 1, 2, Order::Big, 4);
    assert_eq!(rt;
        &out[..18],
        [
            0x11, 0xfb, 0xff, 0xff, 0xff, 0xfc, 0xff, 0xff, 0xff, 0xfd, 0xff, 0xff, 0xff, 0xfe,
            0xff, 0xff, 0xff, 0x11,
        ]
        .as_slice()
    );
    put_signed(&mut out, 1, 4, Order::Big, &from, 1, 2, Order::Big, 9);
    assert_eq!(rt;
        &out[13..],
        [
            0xff, 0xff, 0xff, 0xfe, 0xff, 0xff, 0xff, 0xff, 0, 0, 0, 0, 0, 0, 0, 1, 0, 0, 0, 2, 0,
            0, 0, 3, 0x11,
        ]
        .as_slice()
    );
    Ok(())
}

#[test]
fn signed_numbers_become_words(rt: HostRuntime) -> Result<(), Fail> {
    // 258, -2, 3, -32_768 and 5 in two bytes, the lowest first
    let from = [2, 1, 0xfe, 0xff, 3, 0, 0, 0x80, 5, 0];
    let mut out = [0x11; 41];
    put_signed(&mut out, 0, 8, Order::Big, &from, 0, 2, Order::Little, 5);
    assert_eq!(rt; &out[..8], [0, 0, 0, 0, 0, 0, 1, 2].as_slice());
    assert_eq!(rt;
        &out[8..16],
        [0xff, 0xff, 0xff, 0xff, 0xff, 0xff, 0xff, 0xfe].as_slice()
    );
    assert_eq!(rt;
        &out[24..32],
        [0xff, 0xff, 0xff, 0xff, 0xff, 0xff, 0x80, 0].as_slice()
    );
    assert_eq!(rt; &out[32..], [0, 0, 0, 0, 0, 0, 0, 5, 0x11].as_slice());
    // as two numbers of four bytes: -130_814 and 3 - 2^31
    put_signed(&mut out, 1, 8, Order::Little, &from, 0, 4, Order::Little, 2);
    assert_eq!(rt;
        &out[..9],
        [0, 2, 1, 0xfe, 0xff, 0xff, 0xff, 0xff, 0xff].as_slice()
    );
    assert_eq!(rt;
        &out[9..17],
        [3, 0, 0, 0x80, 0xff, 0xff, 0xff, 0xff].as_slice()
    );
    // and as numbers of fewer bytes
    put_signed(&mut out, 0, 1, Order::Big, &from, 0, 2, Order::Little, 5);
    assert_eq!(rt; &out[..6], [2, 0xfe, 3, 0, 5, 0xff].as_slice());
    Ok(())
}
