//! Numbers of one size, whatever their kind, in another order.
ghost use Rattle.std.specs.Prelude.{◌≡◌, ◌≢◌, ◌%◌, IsTrue, length};
ghost use Rattle.evp_base.specs.Numbers.{is_width, is_size_of};
ghost use Rattle.evp_base.specs.declared.kind.Kind.{Kind};
ghost use Rattle.evp_base.specs.declared.kind.Kind.TheVariants.{Boolean};
ghost use Rattle.evp_wide.specs.Elements.{AreReordered};

use crate::swap::{swap2, swap4, swap8};
use evp_base::Order;

/// Writes each number of `from` in the other order, or as it stands where the two are the same.
/// The numbers have `size` bytes, 1, 2, 4 or 8, and are of any kind but boolean. Takes no memory.
pub fn reorder(out: &mut [u8], out_order: Order, from: &[u8], from_order: Order, size: u32)
    requires width { IsTrue (is_width size) }
    requires same { length out.old ≡ length from.now }
    requires whole { length from.now % size ≡ 0 }
    ensures { AreReordered out_order from_order size from.now out.new }
{
    if size == 1 || out_order == from_order {
        out.copy_from_slice(from);
        return;
    }
    match size {
        2 => swap2(out, from),
        4 => swap4(out, from),
        _ => swap8(out, from),
    }
}
