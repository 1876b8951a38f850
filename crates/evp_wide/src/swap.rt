//! Groups of bytes reversed, as a number's bytes are between two orders.
ghost use Rattle.std.specs.Prelude.{◌≡◌, ◌%◌, length};
ghost use Rattle.evp_wide.specs.Elements.{swapped};

use crate::elements::move_elements;
use crate::mover::Mover;

/// Each two bytes of `from`, reversed. Takes no memory.
pub fn swap2(out: &mut [u8], from: &[u8])
    requires same { length out.old ≡ length from.now }
    requires whole { length from.now % 2 ≡ 0 }
    ensures { out.new ≡ swapped 2 from.now }
{
    let mover = Mover {
        out_size: 2,
        from_size: 2,
        count: 8,
        mask: [1, 0, 3, 2, 5, 4, 7, 6, 9, 8, 11, 10, 13, 12, 15, 14],
    };
    move_elements(out, from, &mover, from.len() / 2);
}

/// Each four bytes of `from`, reversed. Takes no memory.
pub fn swap4(out: &mut [u8], from: &[u8])
    requires same { length out.old ≡ length from.now }
    requires whole { length from.now % 4 ≡ 0 }
    ensures { out.new ≡ swapped 4 from.now }
{
    let mover = Mover {
        out_size: 4,
        from_size: 4,
        count: 4,
        mask: [3, 2, 1, 0, 7, 6, 5, 4, 11, 10, 9, 8, 15, 14, 13, 12],
    };
    move_elements(out, from, &mover, from.len() / 4);
}

/// Each eight bytes of `from`, reversed. Takes no memory.
pub fn swap8(out: &mut [u8], from: &[u8])
    requires same { length out.old ≡ length from.now }
    requires whole { length from.now % 8 ≡ 0 }
    ensures { out.new ≡ swapped 8 from.now }
{
    let mover = Mover {
        out_size: 8,
        from_size: 8,
        count: 2,
        mask: [7, 6, 5, 4, 3, 2, 1, 0, 15, 14, 13, 12, 11, 10, 9, 8],
    };
    move_elements(out, from, &mover, from.len() / 8);
}
