//! Building plans.

ghost use Rattle.std.specs.Prelude.{◌≡◌, ◌*◌, ◌≤◌, suc, length, None, IfOk, IfErr};
ghost use Rattle.evp_format.specs.Clashing.{clash};
ghost use Rattle.evp_plan.specs.Building.{IsTable};
ghost use Rattle.evp_plan.specs.Counts.{raised};
ghost use Rattle.evp_plan.specs.Faults.{IsBuildFault};
ghost use Rattle.evp_plan.specs.Planned.{StandsFor};

use crate::table::table_of;
use crate::{BuildFault, Builds, Plan};
use evp_base::Memory;
use evp_format::{Format, clash_of};
use std::alloc::Global;

/// The plan for records of the first format that are to become records of the second: what its
/// steps find and write by a record's bytes is the conversion, packed. `Clash` with a path exactly
/// where the two formats clash, at the first field that has a partner of another class. The count
/// of plans rises by one, whatever the answer, and stays at its last value.
pub fn build(
    alloc: Global,
    from: &Format,
    to: &Format,
    builds: &mut Builds,
) -> Result<Plan, BuildFault>
    ensures plan { IfOk result (λ plan. StandsFor plan from.now to.now) }
    ensures fault { IfErr result (λ fault. IsBuildFault from.now to.now fault) }
    ensures counted { builds.new ≡ raised builds.old }
{
    builds.raise();
    match clash_of(alloc, from, to) {
        Ok(Some(path)) => Err(BuildFault::Clash(path)),
        Ok(None) => match plan_of(alloc, from, to) {
            Ok(plan) => Ok(plan),
            Err(Memory) => Err(BuildFault::Memory),
        },
        Err(Memory) => Err(BuildFault::Memory),
    }
}

// The plan for two formats that don't clash.
fn plan_of(alloc: Global, from: &Format, to: &Format) -> Result<Plan, Memory>
    requires { clash from.now to.now ≡ None }
    ensures { IfOk result (λ plan. StandsFor plan from.now to.now) }
{
    let _sender = from.types();
    let _receiver = to.types();
    let table = table_of(alloc, from, to)?;
    let alike = *from == *to;
    Plan::new(alloc, from, to, table, alike)
}
