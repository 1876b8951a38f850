//! Numbers of one order and size written in another order and a size that is no less.
ghost use Rattle.std.specs.Prelude.{◌≡◌, ◌*◌, ◌/◌, ◌%◌, ◌≤◌, IsTrue, length};
ghost use Rattle.evp_base.specs.Numbers.{is_width};
ghost use Rattle.evp_base.specs.declared.kind.Kind.TheVariants.{Int, Unsigned};
ghost use Rattle.evp_wide.specs.Elements.{rewritten};

use crate::numbers::rewrite;
use evp_base::{Kind, Order};

/// Writes each unsigned number of `from`, of `from_size` bytes, as a number of `out_size` bytes.
/// Sizes are 1, 2, 4 or 8. Takes no memory.
pub fn widen_unsigned(
    out: &mut [u8],
    out_size: u32,
    out_order: Order,
    from: &[u8],
    from_size: u32,
    from_order: Order,
)
    requires sizes { IsTrue (is_width out_size) × IsTrue (is_width from_size)
        × (from_size ≤ out_size) }
    requires whole { length from.now % from_size ≡ 0 }
    requires out { length out.old ≡ length from.now / from_size * out_size }
    ensures { out.new ≡ rewritten Unsigned out_order out_size from_order from_size from.now }
{
    rewrite(
        out,
        out_size,
        out_order,
        from,
        from_size,
        from_order,
        Kind::Unsigned,
    );
}

/// Writes each signed number of `from`, of `from_size` bytes, as a number of `out_size` bytes.
/// Sizes are 1, 2, 4 or 8. Takes no memory.
pub fn widen_signed(
    out: &mut [u8],
    out_size: u32,
    out_order: Order,
    from: &[u8],
    from_size: u32,
    from_order: Order,
)
    requires sizes { IsTrue (is_width out_size) × IsTrue (is_width from_size)
        × (from_size ≤ out_size) }
    requires whole { length from.now % from_size ≡ 0 }
    requires out { length out.old ≡ length from.now / from_size * out_size }
    ensures { out.new ≡ rewritten Int out_order out_size from_order from_size from.now }
{
    rewrite(
        out,
        out_size,
        out_order,
        from,
        from_size,
        from_order,
        Kind::Int,
    );
}
