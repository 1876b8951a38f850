//! Arrays of numbers written in another order and size.
ghost use Rattle.std.specs.Prelude.{◌≡◌, ◌*◌, ◌/◌, ◌%◌, IsTrue, length};
ghost use Rattle.evp_base.specs.Numbers.{is_width, is_size_of};
ghost use Rattle.std.specs.Prelude.{◌+◌, ◌≤◌};
ghost use Rattle.evp_wide.specs.Elements.{rewritten};
ghost use Rattle.evp_wide.specs.Zeros.{with_signed};

use crate::orders::reorder;
use crate::words::{get_signed, put_low, rewrite_number};
use evp_base::{Kind, Order};

/// Writes each number of `from`, of that kind and of `from_size` bytes, as a number of `out_size`
/// bytes: its lowest digits where it has more. Sizes are 1, 2, 4 or 8. Takes no memory.
pub fn rewrite(
    out: &mut [u8],
    out_size: u32,
    out_order: Order,
    from: &[u8],
    from_size: u32,
    from_order: Order,
    kind: Kind,
)
    requires width { IsTrue (is_width out_size) }
    requires size { IsTrue (is_size_of kind from_size) }
    requires whole { length from.now % from_size ≡ 0 }
    requires out { length out.old ≡ length from.now / from_size * out_size }
    ensures { out.new ≡ rewritten kind out_order out_size from_order from_size from.now }
{
    if out_size == from_size && kind != Kind::Boolean {
        reorder(out, out_order, from, from_order, from_size);
        return;
    }
    match from_size {
        1 => rewrite_from(out, out_size, out_order, from, 1, from_order, kind),
        2 => rewrite_from(out, out_size, out_order, from, 2, from_order, kind),
        4 => rewrite_from(out, out_size, out_order, from, 4, from_order, kind),
        _ => rewrite_from(out, out_size, out_order, from, 8, from_order, kind),
    }
}

// The same from a size that the compiler knows.
#[inline(always)]
fn rewrite_from(
    out: &mut [u8],
    out_size: u32,
    out_order: Order,
    from: &[u8],
    from_size: u32,
    from_order: Order,
    kind: Kind,
)
    requires out_width { IsTrue (is_width out_size) }
    requires from_width { IsTrue (is_width from_size) }
    requires whole { length from.now % from_size ≡ 0 }
    requires out { length out.old ≡ length from.now / from_size * out_size }
    ensures { out.new ≡ rewritten kind out_order out_size from_order from_size from.now }
{
    match out_size {
        1 => rewrite_kind(out, 1, out_order, from, from_size, from_order, kind),
        2 => rewrite_kind(out, 2, out_order, from, from_size, from_order, kind),
        4 => rewrite_kind(out, 4, out_order, from, from_size, from_order, kind),
        _ => rewrite_kind(out, 8, out_order, from, from_size, from_order, kind),
    }
}

// The same of a kind that the compiler knows, so that no number asks for it.
#[inline(always)]
fn rewrite_kind(
    out: &mut [u8],
    out_size: u32,
    out_order: Order,
    from: &[u8],
    from_size: u32,
    from_order: Order,
    kind: Kind,
)
    requires out_width { IsTrue (is_width out_size) }
    requires from_width { IsTrue (is_width from_size) }
    requires whole { length from.now % from_size ≡ 0 }
    requires out { length out.old ≡ length from.now / from_size * out_size }
    ensures { out.new ≡ rewritten kind out_order out_size from_order from_size from.now }
{
    match kind {
        Kind::Int | Kind::Enumeration => {
            rewrite_each(
                out,
                out_size,
                out_order,
                from,
                from_size,
                from_order,
                Kind::Int,
            );
        }
        Kind::Unsigned | Kind::Char => {
            rewrite_each(
                out,
                out_size,
                out_order,
                from,
                from_size,
                from_order,
                Kind::Unsigned,
            );
        }
        Kind::Boolean => {
            rewrite_each(
                out,
                out_size,
                out_order,
                from,
                from_size,
                from_order,
                Kind::Boolean,
            );
        }
    }
}

// The same number by number.
#[inline(always)]
fn rewrite_each(
    out: &mut [u8],
    out_size: u32,
    out_order: Order,
    from: &[u8],
    from_size: u32,
    from_order: Order,
    kind: Kind,
)
    requires out_width { IsTrue (is_width out_size) }
    requires from_width { IsTrue (is_width from_size) }
    requires whole { length from.now % from_size ≡ 0 }
    requires out { length out.old ≡ length from.now / from_size * out_size }
    ensures { out.new ≡ rewritten kind out_order out_size from_order from_size from.now }
{
    let to = out_size as usize;
    let width = from_size as usize;
    for element in 0..from.len() / width {
        rewrite_number(
            &mut out[element * to..element * to + to],
            out_order,
            &from[element * width..element * width + width],
            from_order,
            kind,
        );
    }
}

/// Writes n signed numbers of `width` bytes, the first at `at`, as numbers of `size` bytes, the
/// first at `to`: the lowest digits where there are more. Sizes are 1, 2, 4 or 8. Takes no memory.
#[inline(always)]
pub fn put_signed(
    out: &mut [u8],
    to: usize,
    size: usize,
    to_order: Order,
    from: &[u8],
    at: usize,
    width: usize,
    from_order: Order,
    n: usize,
)
    requires size { IsTrue (is_width size) }
    requires width { IsTrue (is_width width) }
    requires from { at + n * width ≤ length from.now }
    requires out { to + n * size ≤ length out.old }
    ensures { out.new ≡ with_signed to size to_order from.now at width from_order n out.old }
{
    let done = put_fours(out, to, size, to_order, from, at, width, from_order, n);
    put_few(
        out,
        to + done * size,
        size,
        to_order,
        from,
        at + done * width,
        width,
        from_order,
        n % 4,
    );
}

// The same of as many of them as are groups of four; answers how many those are. An odd group comes
// first, so that none is a loop's.
#[inline(always)]
fn put_fours(
    out: &mut [u8],
    to: usize,
    size: usize,
    to_order: Order,
    from: &[u8],
    at: usize,
    width: usize,
    from_order: Order,
    n: usize,
) -> usize
    requires size { IsTrue (is_width size) }
    requires width { IsTrue (is_width width) }
    requires from { at + n * width ≤ length from.now }
    requires out { to + n * size ≤ length out.old }
    ensures done { result ≡ n / 4 * 4 }
    ensures put { out.new
        ≡ with_signed to size to_order from.now at width from_order (n / 4 * 4) out.old }
{
    let odd = n / 4 % 2 * 4;
    if odd == 4 {
        put_four(out, to, size, to_order, from, at, width, from_order);
    }
    put_eights(
        out,
        to + odd * size,
        size,
        to_order,
        from,
        at + odd * width,
        width,
        from_order,
        n / 8,
    );
    n / 4 * 4
}

// The same of eight times so many numbers.
#[inline(always)]
fn put_eights(
    out: &mut [u8],
    to: usize,
    size: usize,
    to_order: Order,
    from: &[u8],
    at: usize,
    width: usize,
    from_order: Order,
    eights: usize,
)
    requires size { IsTrue (is_width size) }
    requires width { IsTrue (is_width width) }
    requires from { at + eights * 8 * width ≤ length from.now }
    requires out { to + eights * 8 * size ≤ length out.old }
    ensures { out.new
        ≡ with_signed to size to_order from.now at width from_order (eights * 8) out.old }
{
    for eight in 0..eights {
        put_eight(
            out,
            to + eight * 8 * size,
            size,
            to_order,
            from,
            at + eight * 8 * width,
            width,
            from_order,
        );
    }
}

// The same of eight numbers.
#[inline(always)]
fn put_eight(
    out: &mut [u8],
    to: usize,
    size: usize,
    to_order: Order,
    from: &[u8],
    at: usize,
    width: usize,
    from_order: Order,
)
    requires size { IsTrue (is_width size) }
    requires width { IsTrue (is_width width) }
    requires from { at + 8 * width ≤ length from.now }
    requires out { to + 8 * size ≤ length out.old }
    ensures { out.new ≡ with_signed to size to_order from.now at width from_order 8 out.old }
{
    put_four(out, to, size, to_order, from, at, width, from_order);
    put_four(
        out,
        to + 4 * size,
        size,
        to_order,
        from,
        at + 4 * width,
        width,
        from_order,
    );
}

// The same of four numbers, which are read before any is written. Its callers would grow too large
// to stand in theirs by all the sizes that it has, so that it is for the compiler to see which one
// is meant.
#[inline]
fn put_four(
    out: &mut [u8],
    to: usize,
    size: usize,
    to_order: Order,
    from: &[u8],
    at: usize,
    width: usize,
    from_order: Order,
)
    requires size { IsTrue (is_width size) }
    requires width { IsTrue (is_width width) }
    requires from { at + 4 * width ≤ length from.now }
    requires out { to + 4 * size ≤ length out.old }
    ensures { out.new ≡ with_signed to size to_order from.now at width from_order 4 out.old }
{
    let one = get_signed(from, at, width, from_order);
    let two = get_signed(from, at + width, width, from_order);
    let three = get_signed(from, at + 2 * width, width, from_order);
    let four = get_signed(from, at + 3 * width, width, from_order);
    put_low(out, to, size, to_order, one);
    put_low(out, to + size, size, to_order, two);
    put_low(out, to + 2 * size, size, to_order, three);
    put_low(out, to + 3 * size, size, to_order, four);
}

// The same one by one.
#[inline]
fn put_few(
    out: &mut [u8],
    to: usize,
    size: usize,
    to_order: Order,
    from: &[u8],
    at: usize,
    width: usize,
    from_order: Order,
    n: usize,
)
    requires size { IsTrue (is_width size) }
    requires width { IsTrue (is_width width) }
    requires from { at + n * width ≤ length from.now }
    requires out { to + n * size ≤ length out.old }
    ensures { out.new ≡ with_signed to size to_order from.now at width from_order n out.old }
{
    for k in 0..n {
        let word = get_signed(from, at + k * width, width, from_order);
        put_low(out, to + k * size, size, to_order, word);
    }
}
