//! Bytes and digits put on the output.

ghost use Rattle.std.specs.Prelude.{◌≡◌, ◌+◌, ◌*◌, ◌-◌, ◌%◌, ◌^◌, ◌<◌, ◌≤◌, ◌<ℤ◌, ◌-ℤ◌, ◌+ℤ◌};
ghost use Rattle.std.specs.Prelude.{pos, length, take, IsTrue};
ghost use Rattle.evp_base.specs.Numbers.{digits, residue, is_width};
ghost use Rattle.evp_format.specs.Bytes.{put_at};
ghost use Rattle.evp_plan.specs.declared.step.Origin.TheVariants.{Standing};
ghost use Rattle.evp_plan.specs.Ready.{IsOriginThere};
ghost use Rattle.evp_plan.specs.Standing.{origin_number};
ghost use Rattle.evp_runner.specs.StepIn.{image_in};

use crate::moving::Move;
use evp_base::{Order, put_number};
use evp_plan::{Origin, Source};
use evp_wide::{put_front, rewrite_number};

/// The first so many of these bytes in the place of those from t on.
#[inline(always)]
pub(crate) fn put_first(out: &mut [u8], t: usize, bytes: &[u8], count: usize)
    requires front { count ≤ length bytes.now }
    requires room { t + count ≤ length out.old }
    ensures { out.new ≡ put_at t (take count bytes.now) out.old }
{
    put_front(out, t, bytes, count);
}

// 2^(8 size).
fn modulus_of(size: u32) -> u128
    requires { IsTrue (is_width size) }
    ensures { result ≡ 2 ^ (8 * size) }
{
    match size {
        1 => 1 << 8,
        2 => 1 << 16,
        4 => 1 << 32,
        _ => 1 << 64,
    }
}

// How far the number is below -1.
fn distance(number: i128) -> u128
    requires { number <ℤ pos 0 }
    ensures { pos result ≡ pos 0 -ℤ (number +ℤ pos 1) }
{
    (-(number + 1)) as u128
}

// n modulo that; a division only where it is needed.
fn remainder(n: u128, modulus: u128) -> u128
    requires { 0 < modulus }
    ensures { result ≡ n % modulus }
{
    if n < modulus { n } else { n % modulus }
}

// The number modulo 2^(8 size).
fn low(number: i128, size: u32) -> u128
    requires { IsTrue (is_width size) }
    ensures value { result ≡ residue number (2 ^ (8 * size)) }
    ensures below { result < 2 ^ (8 * size) }
{
    let modulus = modulus_of(size);
    if number >= 0 {
        remainder(number as u128, modulus)
    } else {
        modulus - 1 - remainder(distance(number), modulus)
    }
}

/// The digits of a number in the place of the bytes from t on.
pub(crate) fn put_digits(out: &mut [u8], t: usize, order: Order, size: u32, number: i128)
    requires allowed { IsTrue (is_width size) }
    requires inside { t + size ≤ length out.old }
    ensures { out.new ≡ put_at t (digits order size number) out.old }
{
    let place = &mut out[t..t + size as usize];
    put_number(place, order, size, low(number, size) as i128);
}

/// The number that a receiver's field gets from the record at `at`, in the place of the bytes from
/// t on.
pub(crate) fn move_number(
    work: &Move,
    at: usize,
    origin: &Origin,
    out: &mut [u8],
    t: usize,
    size: u32,
)
    requires there { IsOriginThere (image_in work.now.sender) at origin.now }
    requires at_inside { at ≤ length work.now.sender.bytes.now }
    requires allowed { IsTrue (is_width size) }
    requires room { t + size ≤ length out.old }
    ensures { out.new ≡ put_at t (digits work.now.plan.now.order size
        (origin_number (image_in work.now.sender) at origin.now)) out.old }
{
    match origin {
        Origin::Standing(source) => move_standing(work, at, source, out, t, size),
        Origin::Stated(number) => put_digits(out, t, work.plan.order(), size, *number),
    }
}

// The same for a number that stands there: of sizes that the compiler knows, where they are the
// same.
#[inline(always)]
fn move_standing(work: &Move, at: usize, source: &Source, out: &mut [u8], t: usize, size: u32)
    requires there { IsOriginThere (image_in work.now.sender) at (Standing source.now) }
    requires at_inside { at ≤ length work.now.sender.bytes.now }
    requires allowed { IsTrue (is_width size) }
    requires room { t + size ≤ length out.old }
    ensures { out.new ≡ put_at t (digits work.now.plan.now.order size
        (origin_number (image_in work.now.sender) at (Standing source.now))) out.old }
{
    if size == source.size {
        match size {
            4 => move_sized(work, at, source, 4, out, t, 4),
            8 => move_sized(work, at, source, 8, out, t, 8),
            2 => move_sized(work, at, source, 2, out, t, 2),
            _ => move_sized(work, at, source, size, out, t, size),
        }
    } else {
        move_sized(work, at, source, source.size, out, t, size);
    }
}

// The same from a size and to a size.
#[inline(always)]
fn move_sized(
    work: &Move,
    at: usize,
    source: &Source,
    width: u32,
    out: &mut [u8],
    t: usize,
    size: u32,
)
    requires sized { width ≡ source.now.size }
    requires there { IsOriginThere (image_in work.now.sender) at (Standing source.now) }
    requires at_inside { at ≤ length work.now.sender.bytes.now }
    requires allowed { IsTrue (is_width size) }
    requires room { t + size ≤ length out.old }
    ensures { out.new ≡ put_at t (digits work.now.plan.now.order size
        (origin_number (image_in work.now.sender) at (Standing source.now))) out.old }
{
    let s = at + source.offset as usize;
    let bytes = work.sender.bytes;
    let from = &bytes[s..s + width as usize];
    let place = &mut out[t..t + size as usize];
    rewrite_number(
        place,
        work.plan.order(),
        from,
        work.sender.order,
        source.kind,
    );
}
