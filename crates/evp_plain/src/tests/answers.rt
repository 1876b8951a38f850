//! What comes of a record by a plan, by each of its calls, and without one.

ghost use Rattle.evp_plan.specs.Planned.{IsPlanFrom};

use super::bytes::{bytes_of, digits_of};
use crate::convert_plainly;
use evp_format::{Format, Place, path_of};
use evp_plan::{BuildFault, Builds, Plan, build};
use evp_record::{Checked, check, view};
use evp_runner::{ConvertFault, RunFault, measure, pass, run, run_into};
use evp_value::value_text;
use std::alloc::Global;
use std::borrow::CowSlice;
use std::test::Fail;

// A record that is to be converted by a plan.
#[derive(Drop)]
struct Trial<'a> {
    alloc: Global,
    plan: &'a Plan,
    item: Checked<'a>,
    to: &'a Format,
    limit: u32,
}

// The bytes of the converted record in hexadecimal digits, or the fault and its path; and whether
// `pass` lent the record's own bytes. An error where two calls don't agree.
pub(super) fn answer(
    alloc: Global,
    from: &Format,
    to: &Format,
    bytes: &[u8],
    limit: u32,
) -> Result<(String, bool), Fail> {
    if bytes.len() > 262_144 {
        return Err(Fail::new("too long"));
    }
    let Ok(item) = check(from, bytes) else {
        return Err(Fail::new("no record"));
    };
    let plain = match convert_plainly(alloc, item.copy(), to, limit) {
        Ok(bytes) => digits_of(alloc, &bytes)?,
        Err(fault) => format!(in alloc; "{fault}")?,
    };
    let mut builds = Builds::new();
    let (answer, lent) = match build(alloc, from, to, &mut builds) {
        Ok(plan) => by_plan(alloc, &plan, item, to, limit)?,
        Err(BuildFault::Clash(path)) => (format!(in alloc; "clash {path}")?, false),
        Err(BuildFault::Memory) => return Err(Fail::new("memory")),
    };
    agree(&plain, &answer)?;
    Ok((answer, lent))
}

// The same by a plan, by each of its calls.
fn by_plan(
    alloc: Global,
    plan: &Plan,
    item: Checked,
    to: &Format,
    limit: u32,
) -> Result<(String, bool), Fail>
    requires { IsPlanFrom plan.now item.layout }
{
    let trial = Trial {
        alloc,
        plan,
        item,
        to,
        limit,
    };
    let ran = trial.ran()?;
    agree(&ran, &trial.placed()?)?;
    let lent = trial.passed(&ran)?;
    Ok((ran, lent))
}

impl<'a> Trial<'a> {
    // By `run`.
    fn ran(&self) -> Result<String, Fail>
        requires { IsPlanFrom self.now.plan.now self.now.item.layout }
    {
        match run(self.alloc, self.plan, self.item.copy(), self.limit) {
            Ok(bytes) => Ok(digits_of(self.alloc, &bytes)?),
            Err(fault) => self.refused(&fault),
        }
    }

    // By `measure` and `run_into`, onto bytes 0xff.
    fn placed(&self) -> Result<String, Fail>
        requires { IsPlanFrom self.now.plan.now self.now.item.layout }
    {
        match measure(self.plan, self.item.copy(), self.limit) {
            Ok(size) => {
                let mut out = vec![in self.alloc; 0xffu8; size as usize]?;
                run_into(self.plan, self.item.copy(), &mut out);
                Ok(digits_of(self.alloc, &out)?)
            }
            Err(ConvertFault::Unfit(place)) => self.told("unfit", &place),
            Err(ConvertFault::Large(place)) => self.told("large", &place),
        }
    }

    // By `pass`, which has to agree with `run`: whether it lent the record's own bytes. These have
    // the value of the packed ones.
    fn passed(&self, ran: &str) -> Result<bool, Fail>
        requires { IsPlanFrom self.now.plan.now self.now.item.layout }
    {
        match pass(self.alloc, self.plan, self.item.copy(), self.limit) {
            Ok(CowSlice::Borrowed(bytes)) => {
                let own = self.value_of(bytes)?;
                let packed = bytes_of(self.alloc, ran)?;
                agree(&own, &self.value_of(&packed)?)?;
                Ok(true)
            }
            Ok(CowSlice::Owned(bytes)) => {
                agree(ran, &digits_of(self.alloc, &bytes)?)?;
                Ok(false)
            }
            Err(fault) => {
                agree(ran, &self.refused(&fault)?)?;
                Ok(false)
            }
        }
    }

    // The text of the value that bytes have in the receiver's format.
    fn value_of(&self, bytes: &[u8]) -> Result<String, Fail> {
        if bytes.len() > 262_144 {
            return Err(Fail::new("too long"));
        }
        let Ok(item) = check(self.to, bytes) else {
            return Err(Fail::new("no record of the receiver's"));
        };
        Ok(value_text(self.alloc, &view(self.alloc, item)?)?)
    }

    // A refusal, with its path.
    fn refused(&self, fault: &RunFault) -> Result<String, Fail> {
        match fault {
            RunFault::Unfit(place) => self.told("unfit", place),
            RunFault::Large(place) => self.told("large", place),
            RunFault::Memory => Err(Fail::new("memory")),
        }
    }

    fn told(&self, word: &str, place: &Place) -> Result<String, Fail> {
        let path = path_of(self.alloc, self.to, place)?;
        Ok(format!(in self.alloc; "{word} {path}")?)
    }
}

// An error where two texts differ.
fn agree(one: &str, other: &str) -> Result<(), Fail> {
    if one == other {
        return Ok(());
    }
    Err(Fail::new(format_args!("{one} but {other}")))
}
