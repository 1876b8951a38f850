//! The words of a record: its numbers, pointers and the ends of its strings.

ghost use Rattle.std.specs.Prelude.{◌≡◌, ◌+◌, ◌≤◌, ◌<◌, ◌^◌, length, IsTrue, IfSome, option_map};
ghost use Rattle.evp_base.specs.Numbers.{number, is_size_of, InRange};
ghost use Rattle.evp_format.specs.Bytes.{bytes_at};
ghost use Rattle.evp_format.specs.Viewing.{pointer_at, image_of, until_zero};
ghost use Rattle.evp_format.specs.WellLaid.{IsWellLaid};
ghost use Rattle.evp_wide.specs.Counts.{natural};

use evp_base::{Kind, get_number};
use evp_format::Format;
use evp_wide::{get_count, zero_at as first_zero};

// The number that stands at `at`, of a size that the compiler knows.
#[inline(always)]
fn number_sized(format: &Format, bytes: &[u8], at: usize, kind: Kind, size: u32) -> i128
    requires allowed { IsTrue (is_size_of kind size) }
    requires inside { at + size ≤ length bytes.now }
    ensures value { result ≡ number format.now.order kind (bytes_at at size bytes.now) }
    ensures in_range { InRange kind size result }
{
    get_number(&bytes[at..at + size as usize], format.order(), kind, size)
}

// The number that stands at `at`.
#[inline(always)]
pub(crate) fn number_at(format: &Format, bytes: &[u8], at: usize, kind: Kind, size: u32) -> i128
    requires allowed { IsTrue (is_size_of kind size) }
    requires inside { at + size ≤ length bytes.now }
    ensures value { result ≡ number format.now.order kind (bytes_at at size bytes.now) }
    ensures in_range { InRange kind size result }
{
    match size {
        1 => number_sized(format, bytes, at, kind, 1),
        2 => number_sized(format, bytes, at, kind, 2),
        4 => number_sized(format, bytes, at, kind, 4),
        _ => number_sized(format, bytes, at, kind, 8),
    }
}

// The count that stands at `at`, of a size that the compiler knows.
#[inline(always)]
fn count_sized(format: &Format, bytes: &[u8], at: usize, kind: Kind, size: u32) -> Option<u64>
    requires allowed { IsTrue (is_size_of kind size) }
    requires inside { at + size ≤ length bytes.now }
    ensures { result ≡ natural (number format.now.order kind (bytes_at at size bytes.now)) }
{
    get_count(&bytes[at..at + size as usize], format.order(), kind)
}

// The number that stands at `at`, where it isn't below 0.
#[inline(always)]
pub(crate) fn count_at(
    format: &Format,
    bytes: &[u8],
    at: usize,
    kind: Kind,
    size: u32,
) -> Option<u64>
    requires allowed { IsTrue (is_size_of kind size) }
    requires inside { at + size ≤ length bytes.now }
    ensures { result ≡ natural (number format.now.order kind (bytes_at at size bytes.now)) }
{
    match size {
        1 => count_sized(format, bytes, at, kind, 1),
        2 => count_sized(format, bytes, at, kind, 2),
        4 => count_sized(format, bytes, at, kind, 4),
        _ => count_sized(format, bytes, at, kind, 8),
    }
}

// The pointer that stands at `at`.
pub(crate) fn pointer_at(format: &Format, bytes: &[u8], at: usize) -> usize
    requires laid { IsWellLaid format.now }
    requires inside { at + format.now.pointer ≤ length bytes.now }
    ensures { result ≡ pointer_at (image_of format.now bytes.now) at }
{
    let size = u32::from(format.pointer());
    number_at(format, bytes, at, Kind::Unsigned, size) as usize
}

// How many bytes stand before the first zero byte, where there is one.
#[inline(always)]
#[tactic(auto, using(crate::proofs::Zeros::zeros))]
pub(crate) fn zero_at(bytes: &[u8]) -> Option<usize>
    ensures value { result ≡ option_map length (until_zero bytes.now) }
    ensures within { IfSome result (λ n. n < length bytes.now) }
{
    first_zero(bytes)
}
