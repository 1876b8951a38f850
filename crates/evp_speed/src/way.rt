//! Ways in which converted bytes come to be.

ghost use Rattle.evp_plan.specs.Planned.{IsPlanFrom};

use crate::conversion::LIMIT;
use evp_plan::Plan;
use evp_record::Checked;
use evp_runner::{measure, pass, run, run_into};
use std::alloc::Global;
use std::borrow::CowSlice;

/// How the converted bytes come to be. Each way is a type, so that a loop over records has the calls
/// of one way alone.
pub trait Way {
    /// The converted bytes, in `out` or in a buffer of their own, or lent. None where the record
    /// doesn't fit.
    fn convert<'b>(
        &self,
        alloc: Global,
        plan: &Plan,
        item: Checked<'b>,
        out: &'b mut [u8],
    ) -> Option<CowSlice<'b, u8>>
        requires { IsPlanFrom plan.now item.layout };
}

/// Measured, and written into a buffer that is used again.
#[derive(Drop)]
pub struct Reused;

impl Way for Reused {
    #[inline(always)]
    fn convert<'b>(
        &self,
        _alloc: Global,
        plan: &Plan,
        item: Checked<'b>,
        out: &'b mut [u8],
    ) -> Option<CowSlice<'b, u8>> {
        let size = measure(plan, item.copy(), LIMIT).ok()? as usize;
        if size > out.len() {
            return None;
        }
        let out = &mut out[..size];
        run_into(plan, item, out);
        Some(CowSlice::Borrowed(out))
    }
}

/// In a buffer of their own.
#[derive(Drop)]
pub struct Own;

impl Way for Own {
    #[inline(always)]
    fn convert<'b>(
        &self,
        alloc: Global,
        plan: &Plan,
        item: Checked<'b>,
        _out: &'b mut [u8],
    ) -> Option<CowSlice<'b, u8>> {
        match run(alloc, plan, item, LIMIT) {
            Ok(bytes) => Some(CowSlice::Owned(bytes)),
            Err(_) => None,
        }
    }
}

/// Lent, where the formats are equal.
#[derive(Drop)]
pub struct Lent;

impl Way for Lent {
    #[inline(always)]
    fn convert<'b>(
        &self,
        alloc: Global,
        plan: &Plan,
        item: Checked<'b>,
        _out: &'b mut [u8],
    ) -> Option<CowSlice<'b, u8>> {
        pass(alloc, plan, item, LIMIT).ok()
    }
}
