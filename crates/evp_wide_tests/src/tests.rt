ghost use Rattle.std.specs.Prelude.{◌≡◌, ◌+◌, ◌%◌, ◌≤◌, ◌*◌, length};

use evp_base::{Kind, Order};
use evp_wide::{
    Blend, Differences, Mask, clear, counts_some, gather, gather_blend, gather_or, gather_signs,
    gather_two, gather_with_signs, get_count, get_word, put_front, put_word, rewrite,
    rewrite_number, swap2, swap4, swap8, widen_signed, widen_unsigned, zero_at,
};
use std::test::*;

#[test]
fn groups_are_reversed(rt: HostRuntime) -> Result<(), Fail> {
    let from = [1, 2, 3, 4, 5, 6, 7, 8];
    let mut out = [0xff; 8];
    swap2(&mut out, &from);
    assert_eq!(rt; out, [2, 1, 4, 3, 6, 5, 8, 7]);
    swap4(&mut out, &from);
    assert_eq!(rt; out, [4, 3, 2, 1, 8, 7, 6, 5]);
    swap8(&mut out, &from);
    assert_eq!(rt; out, [8, 7, 6, 5, 4, 3, 2, 1]);
    let mut none = [0u8; 0];
    swap8(&mut none, &[]);
    // 37 numbers: blocks of sixteen bytes, and one number behind them
    let mut long = [0u8; 148];
    let mut turned = [0xff; 148];
    for k in 0..37u8 {
        long[usize::from(k) * 4 + 3] = k + 1;
    }
    swap4(&mut turned, &long);
    for k in 0..37u8 {
        let at = usize::from(k) * 4;
        assert_eq!(rt;
            &turned[at..at + 4],
            [k + 1, 0, 0, 0].as_slice(),
            "number {k}"
        );
    }
    Ok(())
}

#[test]
fn numbers_keep_their_value(rt: HostRuntime) -> Result<(), Fail> {
    let mut out = [0xff; 4];
    widen_unsigned(&mut out, 2, Order::Big, &[0xff, 0x01], 1, Order::Big);
    assert_eq!(rt; out, [0x00, 0xff, 0x00, 0x01]);
    widen_unsigned(&mut out, 2, Order::Little, &[0xff, 0x01], 1, Order::Big);
    assert_eq!(rt; out, [0xff, 0x00, 0x01, 0x00]);
    widen_unsigned(&mut out, 4, Order::Big, &[0x34, 0x12], 2, Order::Little);
    assert_eq!(rt; out, [0x00, 0x00, 0x12, 0x34]);
    widen_unsigned(&mut out, 2, Order::Big, &[1, 2, 3, 4], 2, Order::Little);
    assert_eq!(rt; out, [2, 1, 4, 3]);
    widen_signed(&mut out, 4, Order::Little, &[0xff, 0xfe], 2, Order::Big);
    assert_eq!(rt; out, [0xfe, 0xff, 0xff, 0xff]);
    widen_signed(&mut out, 2, Order::Big, &[0x80, 0x7f], 1, Order::Big);
    assert_eq!(rt; out, [0xff, 0x80, 0x00, 0x7f]);
    let mut wide = [0xff; 160];
    let mut from = [0u8; 40];
    for k in 0..20u8 {
        from[usize::from(k) * 2] = k;
        from[usize::from(k) * 2 + 1] = 0x80;
    }
    widen_unsigned(&mut wide, 8, Order::Big, &from, 2, Order::Little);
    for k in 0..20u8 {
        let at = usize::from(k) * 8;
        assert_eq!(rt;
            &wide[at..at + 8],
            [0, 0, 0, 0, 0, 0, 0x80, k].as_slice(),
            "number {k}"
        );
    }
    Ok(())
}

#[test]
fn numbers_change_their_size(rt: HostRuntime) -> Result<(), Fail> {
    let mut out = [0xff; 4];
    // -2 and 258 in four bytes, as two bytes
    let wide = [0xff, 0xff, 0xff, 0xfe, 0, 0, 1, 2];
    rewrite(&mut out, 2, Order::Little, &wide, 4, Order::Big, Kind::Int);
    assert_eq!(rt; out, [0xfe, 0xff, 2, 1]);
    // any bits of a boolean are 1
    let truths = [0, 4, 0, 0];
    rewrite(
        &mut out,
        2,
        Order::Big,
        &truths,
        2,
        Order::Big,
        Kind::Boolean,
    );
    assert_eq!(rt; out, [0, 1, 0, 0]);
    rewrite_number(&mut out, Order::Big, &[0x80], Order::Big, Kind::Int);
    assert_eq!(rt; out, [0xff, 0xff, 0xff, 0x80]);
    put_word(&mut out, Order::Little, get_word(&wide, Order::Big));
    assert_eq!(rt; out, [2, 1, 0, 0]);
    Ok(())
}

#[test]
fn a_count_is_no_number_below_0(rt: HostRuntime) -> Result<(), Fail> {
    let bytes = [0x01, 0x80];
    assert_eq!(rt; get_count(&bytes, Order::Big, Kind::Int), Some(384));
    assert_eq!(rt; get_count(&bytes, Order::Little, Kind::Int), None);
    assert_eq!(rt;
        get_count(&bytes, Order::Little, Kind::Unsigned),
        Some(32_769)
    );
    assert_eq!(rt; get_count(&[7], Order::Little, Kind::Boolean), Some(1));
    // the words of 4 bytes that are counts of some elements
    assert_eq!(rt; counts_some(0), false);
    assert_eq!(rt; counts_some(1), true);
    assert_eq!(rt; counts_some(0x7fff_ffff), true);
    assert_eq!(rt; counts_some(0x8000_0000), false);
    Ok(())
}

#[test]
fn a_mask_picks_from_its_window(rt: HostRuntime) -> Result<(), Fail> {
    let from = [
        0, 1, 2, 3, 4, 5, 6, 7, 8, 9, 10, 11, 12, 13, 14, 15, 16, 17, 18, 19,
    ];
    let mask = Mask {
        places: [3, 2, 1, 0, 128, 4, 255, 15, 7, 6, 5, 4, 128, 128, 9, 8],
    };
    let mut out = [0xff; 20];
    gather(&mut out, 2, &from, 4, &mask);
    assert_eq!(rt;
        out,
        [
            0xff, 0xff, 7, 6, 5, 4, 0, 8, 0, 19, 11, 10, 9, 8, 0, 0, 13, 12, 0xff, 0xff,
        ]
    );
    gather_or(&mut out, 4, &from, 0, &mask, &[0x40; 16]);
    assert_eq!(rt; &out[4..8], [0x43, 0x42, 0x41, 0x40].as_slice());
    assert_eq!(rt; out[8], 0x40);
    let mut blend = Blend {
        mask,
        keep: [0; 16],
        constant: [0; 16],
    };
    blend.keep[4] = 0xff;
    blend.constant[6] = 7;
    let mut out = [0x11; 20];
    gather_blend(&mut out, 2, &from, 4, &blend);
    assert_eq!(rt;
        out,
        [
            0x11, 0x11, 7, 6, 5, 4, 0x11, 8, 7, 19, 11, 10, 9, 8, 0, 0, 13, 12, 0x11, 0x11,
        ]
    );
    Ok(())
}

#[test]
fn signs_fill_bytes(rt: HostRuntime) -> Result<(), Fail> {
    let from = [
        0x7f, 0x80, 0xff, 0, 4, 5, 6, 7, 8, 9, 10, 11, 12, 13, 14, 0x90,
    ];
    let mut blend = Blend {
        mask: Mask {
            places: [
                0, 1, 2, 3, 15, 1, 128, 255, 128, 128, 128, 128, 128, 128, 128, 128,
            ],
        },
        keep: [0; 16],
        constant: [0; 16],
    };
    blend.keep[7] = 0xff;
    blend.constant[8] = 7;
    let mut out = [0x11; 17];
    gather_signs(&mut out, 1, &from, 0, &blend);
    assert_eq!(rt;
        out,
        [
            0x11, 0, 0xff, 0xff, 0, 0xff, 0xff, 0, 0x11, 7, 0, 0, 0, 0, 0, 0, 0,
        ]
    );
    Ok(())
}

#[test]
fn two_windows_make_sixteen_bytes(rt: HostRuntime) -> Result<(), Fail> {
    let from = [
        0, 1, 2, 3, 4, 5, 6, 7, 8, 9, 10, 11, 12, 13, 14, 15, 16, 17, 18, 0x93,
    ];
    let mask = Mask {
        places: [
            0, 1, 128, 128, 2, 3, 255, 128, 15, 1, 128, 128, 128, 128, 128, 128,
        ],
    };
    let other = Mask {
        places: [
            128, 128, 15, 14, 128, 128, 0, 1, 128, 14, 255, 128, 128, 128, 128, 15,
        ],
    };
    let mut out = [0x11; 18];
    gather_two(&mut out, 1, &from, 0, &mask, 4, &other);
    assert_eq!(rt;
        out,
        [
            0x11, 0, 1, 0x93, 18, 2, 3, 4, 5, 15, 0x13, 0, 0, 0, 0, 0, 0x93, 0x11,
        ]
    );
    gather_with_signs(&mut out, 1, &from, 1, &mask, 4, &other);
    assert_eq!(rt;
        out,
        [
            0x11, 1, 2, 0xff, 0, 3, 4, 0, 0, 16, 2, 0, 0, 0, 0, 0, 0xff, 0x11,
        ]
    );
    Ok(())
}

// Whether the bytes that the one mask picks are the signs of those that the other picks.
fn are_fills(from: &[u8], at: usize, picks: &Mask, signs: &Mask) -> bool
    requires { at + 16 ≤ length from.now }
{
    Differences::between(from, at, picks, signs).are_none()
}

#[test]
fn fills_are_signs(rt: HostRuntime) -> Result<(), Fail> {
    // 127, -128, 128 and -129 in two bytes, the lowest first, and others
    let from = [
        0x7f, 0, 0x80, 0xff, 0x80, 0, 0x7f, 0xff, 0, 0, 0, 0, 0, 0, 0, 0, 0, 1, 0, 0,
    ];
    // 0 is the sign of 0
    let none = Mask { places: [128; 16] };
    assert!(rt; are_fills(&from, 2, &none, &none), "none");
    // in the sixth lane, the byte behind the window's first is the sign of that
    let picks = Mask {
        places: [
            128, 128, 128, 128, 128, 1, 128, 128, 128, 128, 128, 128, 128, 128, 128, 128,
        ],
    };
    let signs = Mask {
        places: [
            128, 128, 128, 128, 128, 0, 128, 128, 128, 128, 128, 128, 128, 128, 128, 128,
        ],
    };
    assert!(rt; are_fills(&from, 0, &picks, &signs), "127");
    assert!(rt; are_fills(&from, 2, &picks, &signs), "-128");
    assert!(rt; !are_fills(&from, 4, &picks, &signs), "128");
    assert!(rt; !are_fills(&from, 1, &picks, &signs), "0 and -128");
    // the window's last byte is 0
    let last = Mask {
        places: [
            128, 128, 128, 128, 128, 128, 128, 128, 128, 128, 128, 128, 128, 128, 128, 15,
        ],
    };
    assert!(rt; are_fills(&from, 1, &last, &none), "the last byte");
    assert!(rt; !are_fills(&from, 2, &last, &none), "another one");
    Ok(())
}

// The same of two windows, by one test.
fn are_both_fills(
    from: &[u8],
    at: usize,
    picks: &Mask,
    signs: &Mask,
    other_at: usize,
    other_picks: &Mask,
    other_signs: &Mask,
) -> bool
    requires window { at + 16 ≤ length from.now }
    requires other { other_at + 16 ≤ length from.now }
{
    let one = Differences::between(from, at, picks, signs);
    let two = Differences::between(from, other_at, other_picks, other_signs);
    one.with(two).are_none()
}

#[test]
fn fills_of_two_windows_are_signs(rt: HostRuntime) -> Result<(), Fail> {
    // 127 and 128 in two bytes, the lowest first
    let from = [
        0x7f, 0, 0x80, 0, 0, 0, 0, 0, 0, 0, 0, 0, 0, 0, 0, 0, 0, 1, 0, 0,
    ];
    // the byte behind the window's first is the sign of that
    let picks = Mask {
        places: [
            1, 128, 128, 128, 128, 128, 128, 128, 128, 128, 128, 128, 128, 128, 128, 128,
        ],
    };
    let signs = Mask {
        places: [
            0, 128, 128, 128, 128, 128, 128, 128, 128, 128, 128, 128, 128, 128, 128, 128,
        ],
    };
    // the window's last byte is 0
    let none = Mask { places: [128; 16] };
    let last = Mask {
        places: [
            128, 128, 128, 128, 128, 128, 128, 128, 128, 128, 128, 128, 128, 128, 128, 15,
        ],
    };
    let both = are_both_fills(&from, 0, &picks, &signs, 1, &last, &none);
    let second = are_both_fills(&from, 2, &picks, &signs, 1, &last, &none);
    let first = are_both_fills(&from, 0, &picks, &signs, 2, &last, &none);
    let neither = are_both_fills(&from, 2, &picks, &signs, 2, &last, &none);
    assert_eq!(rt; (both, second, first, neither), (true, false, false, false));
    Ok(())
}

#[test]
fn the_first_zero_byte_is_found(rt: HostRuntime) -> Result<(), Fail> {
    let mut bytes = [7; 40];
    assert_eq!(rt; zero_at(&bytes), None);
    bytes[39] = 0;
    assert_eq!(rt; zero_at(&bytes), Some(39));
    bytes[31] = 0;
    assert_eq!(rt; zero_at(&bytes), Some(31));
    bytes[16] = 0;
    assert_eq!(rt; zero_at(&bytes), Some(16));
    bytes[15] = 0;
    assert_eq!(rt; zero_at(&bytes), Some(15));
    assert_eq!(rt; zero_at(&bytes[..15]), None);
    bytes[0] = 0;
    assert_eq!(rt; zero_at(&bytes), Some(0));
    Ok(())
}

#[test]
fn few_bytes_are_written_and_cleared(rt: HostRuntime) -> Result<(), Fail> {
    let from = [
        1, 2, 3, 4, 5, 6, 7, 8, 9, 10, 11, 12, 13, 14, 15, 16, 17, 18, 19, 20,
    ];
    let mut out = [0xff; 22];
    put_front(&mut out, 2, &from, 3);
    assert_eq!(rt; &out[..6], [0xff, 0xff, 1, 2, 3, 0xff].as_slice());
    put_front(&mut out, 1, &from, 20);
    assert_eq!(rt;
        out,
        [
            0xff, 1, 2, 3, 4, 5, 6, 7, 8, 9, 10, 11, 12, 13, 14, 15, 16, 17, 18, 19, 20, 0xff,
        ]
    );
    clear(&mut out[1..21]);
    assert_eq!(rt; &out[..3], [0xff, 0, 0].as_slice());
    assert_eq!(rt; &out[19..], [0, 0, 0xff].as_slice());
    Ok(())
}
