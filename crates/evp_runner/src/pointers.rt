//! Pointers and texts put on the output.

ghost use Rattle.std.specs.Prelude.{◌≡◌, ◌+◌, ◌*◌, ◌≤◌, pos, length, Option, Some, None};
ghost use Rattle.evp_base.specs.Numbers.{digits};
ghost use Rattle.evp_format.specs.Bytes.{put_at};
ghost use Rattle.evp_format.specs.Packing.{pack_text};
ghost use Rattle.evp_plan.specs.Planned.{machine_in};
ghost use Rattle.evp_runner.specs.Pieces.{IsPut};
ghost use Rattle.evp_runner.specs.StepIn.{image_in, IsTextSource, text_source};

use crate::digits::put_first;
use crate::moving::Move;
use crate::reading::block_there;
use evp_wide::put_word;

// The pointer to the block at q, or 0, of a size that the compiler knows.
#[inline(always)]
fn put_pointer_sized(work: &Move, out: &mut [u8], t: usize, q: usize, size: u8)
    requires sized { size ≡ work.now.plan.now.pointer }
    requires inside { t + work.now.plan.now.pointer ≤ length out.old }
    ensures { out.new ≡ put_at t (digits work.now.plan.now.order work.now.plan.now.pointer (pos q))
        out.old }
{
    put_word(&mut out[t..t + size as usize], work.plan.order(), q as u64);
}

/// The pointer to the block at q, or 0.
#[inline(always)]
pub(crate) fn put_pointer(work: &Move, out: &mut [u8], t: usize, q: usize)
    requires inside { t + work.now.plan.now.pointer ≤ length out.old }
    ensures { out.new ≡ put_at t (digits work.now.plan.now.order work.now.plan.now.pointer (pos q))
        out.old }
{
    let size = work.plan.pointer();
    match size {
        8 => put_pointer_sized(work, out, t, q, 8),
        4 => put_pointer_sized(work, out, t, q, 4),
        _ => put_pointer_sized(work, out, t, q, size),
    }
}

/// The text whose pointer stands at s, or null; answers the size behind its block.
#[inline(always)]
pub(crate) fn move_text(
    work: &Move,
    s: Option<usize>,
    out: &mut [u8],
    t: usize,
    size: usize,
) -> usize
    requires there { IsTextSource (image_in work.now.sender) s }
    requires inside { t + work.now.plan.now.pointer ≤ length out.old }
    requires fits { (pack_text (machine_in work.now.plan.now) t (text_source (image_in work.now.sender) s)
        size).size ≤ length out.old }
    ensures { IsPut (pack_text (machine_in work.now.plan.now) t
        (text_source (image_in work.now.sender) s) size) result out.old out.new }
{
    let block = match s {
        None => None,
        Some(s) => block_there(&work.sender, s),
    };
    match block {
        None => {
            put_pointer(work, out, t, 0);
            size
        }
        Some((bytes, count)) => {
            let q = (size + 7) / 8 * 8;
            put_pointer(work, out, t, q);
            put_first(out, q, bytes, count);
            q + count
        }
    }
}
