//! Conversion of a record by its value.

ghost use Rattle.std.specs.Prelude.{◌≡◌, IfOk, IfErr};
ghost use Rattle.evp_format.specs.Conversion.{conversion};
ghost use Rattle.evp_plain.specs.Packed.{IsPackedAnswer};
ghost use Rattle.evp_record.specs.Record.{value_of};
ghost use Rattle.evp_value.specs.SlowConversion.{IsSlowFault};

use evp_format::Format;
use evp_record::{Checked, pack, view};
use evp_value::{SlowFault, convert_value};
use std::alloc::Global;

/// The packed record of the receiver's format that a record is converted to, by its value: the
/// record's value, converted by name, and packed. The faults are those of `convert_value`.
pub fn convert_plainly(
    alloc: Global,
    item: Checked,
    to: &Format,
    limit: u32,
) -> Result<Vec<u8>, SlowFault>
    ensures packed { IfOk result (λ bytes. IsPackedAnswer to.now bytes.items
        (conversion item.entry.layout to.now (value_of item.entry) limit)) }
    ensures fault { IfErr result (λ fault. IsSlowFault fault
        (conversion item.entry.layout to.now (value_of item.entry) limit)) }
{
    let bytes = item.bytes();
    by_value(alloc, item, bytes, to, limit)
}

// The same, of a record of these bytes.
fn by_value(
    alloc: Global,
    item: Checked,
    bytes: &[u8],
    to: &Format,
    limit: u32,
) -> Result<Vec<u8>, SlowFault>
    requires { bytes.now ≡ item.bytes }
    ensures packed { IfOk result (λ bytes. IsPackedAnswer to.now bytes.items
        (conversion item.entry.layout to.now (value_of item.entry) limit)) }
    ensures fault { IfErr result (λ fault. IsSlowFault fault
        (conversion item.entry.layout to.now (value_of item.entry) limit)) }
{
    let from = item.format();
    let _sender = from.types();
    let _receiver = to.types();
    let value = view(alloc, item)?;
    let converted = convert_value(alloc, from, to, &value, limit)?;
    Ok(pack(alloc, to, &converted)?)
}
