//! What stands in a sender's record, read at offsets.

ghost use Rattle.std.specs.Prelude.{◌≡◌, ◌+◌, ◌≤◌, ◌<◌, ◌^◌, pos, length, take, IsTrue};
ghost use Rattle.std.specs.Prelude.{IfSome, option_map};
ghost use Rattle.std.specs.Option.{option_copied};
ghost use Rattle.evp_base.specs.Numbers.{number, is_size_of, InRange};
ghost use Rattle.evp_format.specs.Bytes.{bytes_at};
ghost use Rattle.evp_format.specs.Viewing.{pointer_at, until_zero};
ghost use Rattle.evp_format.specs.Zero.{as_count};
ghost use Rattle.evp_plan.specs.declared.step.Origin.TheVariants.{Standing};
ghost use Rattle.evp_plan.specs.Ready.{IsOriginThere, IsTextBy, IsStartThere};
ghost use Rattle.evp_plan.specs.Standing.{origin_number, ended, text_by, run_count, run_start};
ghost use Rattle.evp_runner.specs.Pieces.{block_of};
ghost use Rattle.evp_runner.specs.StepIn.{image_in};

use crate::counts::count_in;
use crate::sender::Sender;
use evp_base::{Kind, get_number};
use evp_plan::{Origin, Run, Source};
use evp_wide::{get_count, get_word, zero_at as first_zero};

// The number of this kind that stands at s, of a size that the compiler knows.
#[inline(always)]
fn number_sized(sender: &Sender, s: usize, kind: Kind, size: u32) -> i128
    requires allowed { IsTrue (is_size_of kind size) }
    requires inside { s + size ≤ length sender.now.bytes.now }
    ensures value { result ≡ number sender.now.order kind (bytes_at s size sender.now.bytes.now) }
    ensures in_range { InRange kind size result }
{
    let bytes = sender.bytes;
    get_number(&bytes[s..s + size as usize], sender.order, kind, size)
}

// The number of this kind that stands at s.
#[inline(always)]
pub(crate) fn number_there(sender: &Sender, s: usize, kind: Kind, size: u32) -> i128
    requires allowed { IsTrue (is_size_of kind size) }
    requires inside { s + size ≤ length sender.now.bytes.now }
    ensures value { result ≡ number sender.now.order kind (bytes_at s size sender.now.bytes.now) }
    ensures in_range { InRange kind size result }
{
    match size {
        1 => number_sized(sender, s, kind, 1),
        2 => number_sized(sender, s, kind, 2),
        4 => number_sized(sender, s, kind, 4),
        _ => number_sized(sender, s, kind, 8),
    }
}

// The number that a receiver's field gets from the record at `at`.
pub(crate) fn number_from(sender: &Sender, at: usize, origin: &Origin) -> i128
    requires there { IsOriginThere (image_in sender.now) at origin.now }
    requires inside { at ≤ length sender.now.bytes.now }
    ensures { result ≡ origin_number (image_in sender.now) at origin.now }
{
    match origin {
        Origin::Standing(source) => {
            let s = at + source.offset as usize;
            number_there(sender, s, source.kind, source.size)
        }
        Origin::Stated(number) => *number,
    }
}

// The pointer that stands at s, of a size that the compiler knows.
#[inline(always)]
fn pointer_sized(sender: &Sender, s: usize, size: u8) -> usize
    requires sized { size ≡ sender.now.pointer }
    requires inside { s + sender.now.pointer ≤ length sender.now.bytes.now }
    ensures { result ≡ pointer_at (image_in sender.now) s }
{
    let bytes = sender.bytes;
    get_word(&bytes[s..s + size as usize], sender.order) as usize
}

// The pointer that stands at s.
#[inline(always)]
fn pointer_there(sender: &Sender, s: usize) -> usize
    requires { s + sender.now.pointer ≤ length sender.now.bytes.now }
    ensures { result ≡ pointer_at (image_in sender.now) s }
{
    match sender.pointer {
        8 => pointer_sized(sender, s, 8),
        4 => pointer_sized(sender, s, 4),
        _ => pointer_sized(sender, s, sender.pointer),
    }
}

// How many bytes stand before the first zero byte, where there is one.
#[inline(always)]
#[tactic(auto, using(crate::proofs::Zeros::zeros))]
fn zero_at(bytes: &[u8]) -> Option<usize>
    ensures value { result ≡ option_map length (until_zero bytes.now) }
    ensures within { IfSome result (λ n. n < length bytes.now) }
{
    first_zero(bytes)
}

// The bytes before the first zero byte, where there is one.
#[inline(always)]
fn text_in(bytes: &[u8]) -> Option<&[u8]>
    ensures value { option_copied result ≡ until_zero bytes.now }
    ensures within { IfSome result (λ text. length text.now ≤ length bytes.now) }
{
    match zero_at(bytes) {
        Some(length) => Some(&bytes[..length]),
        None => None,
    }
}

// The text whose pointer stands at s, without its zero byte, or none for null.
#[inline(always)]
pub(crate) fn text_there<'a>(sender: &Sender<'a>, s: usize) -> Option<&'a [u8]>
    requires { IsTextBy (image_in sender.now) s }
    ensures value { ended (option_copied result) ≡ text_by (image_in sender.now) s }
    ensures short { IfSome result (λ text. length text.now < 2 ^ 32) }
{
    let from = pointer_there(sender, s);
    if from == 0 {
        return None;
    }
    let bytes = sender.bytes;
    text_in(&bytes[from..])
}

// A number of elements; one below 0 stands for none.
#[inline(always)]
pub(crate) fn count_from(sender: &Sender, at: usize, origin: &Origin) -> u128
    requires there { IsOriginThere (image_in sender.now) at origin.now }
    requires inside { at ≤ length sender.now.bytes.now }
    ensures { result ≡ as_count (origin_number (image_in sender.now) at origin.now) }
{
    match origin {
        Origin::Standing(source) => u128::from(count_there(sender, at, source)),
        Origin::Stated(number) => if *number < 0 { 0 } else { *number as u128 },
    }
}

// The same for one that stands there, of a size that the compiler knows.
#[inline(always)]
fn count_sized(sender: &Sender, at: usize, source: &Source, size: u32) -> u64
    requires sized { size ≡ source.now.size }
    requires there { IsOriginThere (image_in sender.now) at (Standing source.now) }
    requires inside { at ≤ length sender.now.bytes.now }
    ensures { result
        ≡ as_count (origin_number (image_in sender.now) at (Standing source.now)) }
{
    let s = at + source.offset as usize;
    let bytes = sender.bytes;
    count_in(&bytes[s..s + size as usize], sender.order, source.kind)
}

// The same for one that stands there.
#[inline(always)]
fn count_there(sender: &Sender, at: usize, source: &Source) -> u64
    requires there { IsOriginThere (image_in sender.now) at (Standing source.now) }
    requires inside { at ≤ length sender.now.bytes.now }
    ensures { result
        ≡ as_count (origin_number (image_in sender.now) at (Standing source.now)) }
{
    match source.size {
        8 => count_sized(sender, at, source, 8),
        4 => count_sized(sender, at, source, 4),
        2 => count_sized(sender, at, source, 2),
        _ => count_sized(sender, at, source, source.size),
    }
}

// A number of elements that stands there, of a size that the compiler knows.
#[inline(always)]
fn wanted_sized(sender: &Sender, at: usize, source: &Source, size: u32) -> Option<u64>
    requires sized { size ≡ source.now.size }
    requires there { IsOriginThere (image_in sender.now) at (Standing source.now) }
    requires inside { at ≤ length sender.now.bytes.now }
    ensures { IfSome result (λ n. origin_number (image_in sender.now) at (Standing source.now)
        ≡ pos n) }
{
    let s = at + source.offset as usize;
    let bytes = sender.bytes;
    get_count(&bytes[s..s + size as usize], sender.order, source.kind)
}

// The same of any size.
#[inline(always)]
fn wanted_there(sender: &Sender, at: usize, source: &Source) -> Option<u64>
    requires there { IsOriginThere (image_in sender.now) at (Standing source.now) }
    requires inside { at ≤ length sender.now.bytes.now }
    ensures { IfSome result (λ n. origin_number (image_in sender.now) at (Standing source.now)
        ≡ pos n) }
{
    match source.size {
        8 => wanted_sized(sender, at, source, 8),
        4 => wanted_sized(sender, at, source, 4),
        2 => wanted_sized(sender, at, source, 2),
        _ => wanted_sized(sender, at, source, source.size),
    }
}

// A number of elements, where it is easily seen that it isn't below 0.
#[inline(always)]
pub(crate) fn wanted_from(sender: &Sender, at: usize, origin: &Origin) -> Option<u64>
    requires there { IsOriginThere (image_in sender.now) at origin.now }
    requires inside { at ≤ length sender.now.bytes.now }
    ensures { IfSome result (λ n. origin_number (image_in sender.now) at origin.now ≡ pos n) }
{
    match origin {
        Origin::Standing(source) => wanted_there(sender, at, source),
        Origin::Stated(number) => {
            if *number < 0 || *number > 0xffff_ffff {
                return None;
            }
            Some(*number as u64)
        }
    }
}

// How many elements the sender's array has.
#[inline(always)]
pub(crate) fn count_of(sender: &Sender, at: usize, run: &Run) -> u128
    requires there { IsOriginThere (image_in sender.now) at run.now.count }
    requires inside { at ≤ length sender.now.bytes.now }
    ensures { result ≡ run_count (image_in sender.now) at run.now }
{
    count_from(sender, at, &run.count)
}

// Where the first element of the sender's array stands.
pub(crate) fn start_of(sender: &Sender, at: usize, run: &Run) -> usize
    requires there { IsStartThere (image_in sender.now) run.now.pointed (at + run.now.offset) }
    requires inside { at ≤ length sender.now.bytes.now }
    ensures { result ≡ run_start (image_in sender.now) at run.now }
{
    let place = at + run.offset as usize;
    if run.pointed {
        pointer_there(sender, place)
    } else {
        place
    }
}

// The bytes from the text on whose pointer stands at s, and how many it has with its zero byte, or
// none for null.
#[inline(always)]
pub(crate) fn block_there<'a>(sender: &Sender<'a>, s: usize) -> Option<(&'a [u8], usize)>
    requires { IsTextBy (image_in sender.now) s }
    ensures value { option_map (λ block. take block.1 block.0.now) result
        ≡ block_of (text_by (image_in sender.now) s) }
    ensures within { IfSome result (λ block. block.1 ≤ length block.0.now) }
{
    let from = pointer_there(sender, s);
    if from == 0 {
        return None;
    }
    let bytes = sender.bytes;
    block_in(&bytes[from..])
}

// The bytes, and how many of them there are up to the first zero byte, where there is one.
#[inline(always)]
fn block_in(bytes: &[u8]) -> Option<(&[u8], usize)>
    ensures value { option_map (λ block. take block.1 block.0.now) result
        ≡ block_of (ended (until_zero bytes.now)) }
    ensures within { IfSome result (λ block. block.1 ≤ length block.0.now) }
{
    match zero_at(bytes) {
        Some(length) => Some((bytes, length + 1)),
        None => None,
    }
}
