//! The table of a plan: steps for each type of the receiver, from each type of the sender and from
//! none.

ghost use Rattle.std.specs.Prelude.{◌≡◌, ◌+◌, ◌*◌, ◌<◌, ◌≤◌, ℕ, suc, length, IfOk, OnOk};
ghost use Rattle.evp_plan.specs.Building.{IsTable, IsRow, IsTypeOf};

use crate::Steps;
use crate::matching::steps_of;
use evp_base::Memory;
use evp_format::{Field, Format};
use std::alloc::Global;

// The steps for each type of the receiver. A record that has no partner is made like one whose
// partner has no fields.
pub(crate) fn table_of(alloc: Global, from: &Format, to: &Format) -> Result<Vec<Steps>, Memory>
    ensures table { IfOk result (λ table. IsTable from.now to.now table.items) }
    ensures whole { IfOk result (λ table. length table.items
        ≡ length to.now.types * suc (length from.now.types)) }
{
    let mut table = Vec::new(alloc);
    for n in 0..to.types().len() {
        add_rows(alloc, from, to, n as u16, &mut table)?;
    }
    Ok(table)
}

// The steps for the type of that number.
fn add_rows(
    alloc: Global,
    from: &Format,
    to: &Format,
    n: u16,
    table: &mut Vec<Steps>,
) -> Result<(), Memory>
    requires there { n < length to.now.types }
    requires before { IsTable from.now to.now table.old.items }
    requires size { length table.old.items ≡ n * suc (length from.now.types) }
    ensures table { OnOk result (IsTable from.now to.now table.new.items) }
    ensures whole { OnOk result (length table.new.items ≡ suc n * suc (length from.now.types)) }
{
    let all = type_fields(to, n);
    let rows = from.types().len() as u32 + 1;
    for row in 0..rows {
        table.push(steps_of(alloc, rows, row_fields(from, row as u16), all)?)?;
    }
    Ok(())
}

// The fields of the receiver's type of that number.
fn type_fields(to: &Format, n: u16) -> &[Field]
    requires { n < length to.now.types }
    ensures type_of { IsTypeOf to.now n result.now }
    ensures few { length result.now ≤ 1024 }
{
    to.record_type(n).fields.as_slice()
}

// The fields of a row of the sender's: none, or those of the type of the number before.
fn row_fields(from: &Format, row: u16) -> &[Field]
    requires { row ≤ length from.now.types }
    ensures { IsRow from.now row result.now }
{
    if row == 0 {
        return &[];
    }
    from.record_type(row - 1).fields.as_slice()
}
