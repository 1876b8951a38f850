//! Measuring the blocks of texts and arrays.

ghost use Rattle.std.specs.Prelude.{◌≡◌, ◌^◌, ◌<◌, ◌≤◌, [], ◌∷◌, ◌++◌, length, IfOk, IfSome, Some};
ghost use Rattle.evp_format.specs.Converting.{make_text};
ghost use Rattle.evp_plan.specs.Ready.{IsTextBy};
ghost use Rattle.evp_plan.specs.Standing.{text_by};
ghost use Rattle.evp_runner.specs.Outcome.{outcome, block_outcome, room_for};
ghost use Rattle.evp_runner.specs.StepIn.{image_in};

use crate::ConvertFault;
use crate::measuring::Measure;
use crate::reading::text_there;
use evp_format::{Place, PlaceStep};

// The size behind a block of k bytes, at the place one step further.
fn take_block(
    measure: &Measure,
    k: usize,
    size: usize,
    place: &Place,
    step: PlaceStep,
) -> Result<usize, ConvertFault>
    requires small { k ≤ 2 ^ 33 }
    requires size_small { size < 2 ^ 32 }
    requires room { length place.now < 32 }
    ensures value { result ≡ block_outcome measure.now.limit (place.now ++ step ∷ []) k size }
    ensures bound { IfOk result (λ n. n ≤ measure.now.limit) }
{
    let end = (size + 7) / 8 * 8 + k;
    if end > measure.limit as usize {
        return Err(ConvertFault::Large(place.with(step)));
    }
    Ok(end)
}

// The size behind the text whose pointer stands at s.
pub(crate) fn measure_text(
    measure: &Measure,
    s: usize,
    size: usize,
    place: &Place,
    step: PlaceStep,
) -> Result<usize, ConvertFault>
    requires there { IsTextBy (image_in measure.now.sender) s }
    requires size_small { size < 2 ^ 32 }
    requires room { length place.now < 32 }
    ensures value { result ≡ outcome (make_text measure.now.limit (place.now ++ step ∷ [])
        (Some (text_by (image_in measure.now.sender) s)) size) }
    ensures bound { IfOk result (λ n. n < 2 ^ 32) }
{
    match text_there(&measure.sender, s) {
        None => Ok(size),
        Some(bytes) => take_block(measure, bytes.len() + 1, size, place, step),
    }
}

// The size behind the block of n elements of this size, where the limit allows it.
pub(crate) fn take_elements(
    measure: &Measure,
    n: u128,
    element_size: u32,
    size: usize,
) -> Option<usize>
    requires some { 1 ≤ element_size }
    requires size_small { size < 2 ^ 32 }
    ensures value { result ≡ room_for measure.now.limit n element_size size }
    ensures bound { IfSome result (λ end. end < 2 ^ 32) }
    ensures few { IfSome result (λ _. n < 2 ^ 32) }
{
    if n == 0 {
        return Some(size);
    }
    if n > u128::from(measure.limit) {
        return None;
    }
    let end = (size + 7) / 8 * 8 + n as usize * element_size as usize;
    if end > measure.limit as usize {
        return None;
    }
    Some(end)
}
