//! Windows that tell of all numbers of a record.

ghost use Rattle.std.specs.Prelude.{◌≡◌, ◌≤◌, true, length, IsTrue, IfOk, IfSome};
ghost use Rattle.evp_plan.specs.Lanes.{windows_of, AreInside, AreLanesOf, HaveFills};
ghost use Rattle.evp_plan.specs.Quicks.{have_words};

use crate::QuickTests;
use crate::fill::Window;
use crate::lane_tests::{both_differences, have_few, lanes_of};
use evp_base::{Memory, Order};
use std::alloc::Global;

// Windows that tell of all numbers of a record whether they fit: four, and those behind them.
#[derive(Debug, Drop)]
pub(crate) struct Told {
    one: Window,
    two: Window,
    three: Window,
    four: Window,
    rest: Vec<Window>,
}

impl Told {
    // Whether all of them have their fills in the record at `at`. Takes no memory.
    #[inline(always)]
    pub(crate) fn have_fills(&self, bytes: &[u8], at: usize) -> bool
        requires { AreInside at bytes.now (windows_of self.now) }
        ensures { IsTrue result → HaveFills at bytes.now (windows_of self.now) }
    {
        let front = both_differences(&self.one, &self.two, bytes, at);
        let back = both_differences(&self.three, &self.four, bytes, at);
        have_few(self.rest.as_slice(), bytes, at, front.with(back))
    }
}

// These windows, the first four in place.
fn told_from(alloc: Global, windows: &[Window]) -> Result<Told, Memory>
    requires { 4 ≤ length windows.now }
    ensures { IfOk result (λ told. windows_of told ≡ windows.now) }
{
    Ok(Told {
        one: windows[0],
        two: windows[1],
        three: windows[2],
        four: windows[3],
        rest: Vec::from_slice(alloc, &windows[4..])?,
    })
}

// Windows that tell the words of these tests, of a sender of this order, where all are of numbers.
pub(crate) fn told_of(
    alloc: Global,
    order: Order,
    tests: &QuickTests,
) -> Result<Option<Told>, Memory>
    ensures { IfOk result (λ made. IfSome made (λ told. (have_words tests.now ≡ true)
        × AreLanesOf order tests.now (windows_of told))) }
{
    if !tests.are_numbers() {
        return Ok(None);
    }
    let Some(lanes) = lanes_of(alloc, order, tests.as_slice(), 4)? else {
        return Ok(None);
    };
    Ok(Some(told_from(alloc, lanes.windows.as_slice())?))
}
