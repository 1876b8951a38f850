//! Settings: numbers stored in the fields of a record that was converted.
ghost use Rattle.std.specs.Prelude.{◌≡◌, ◌↔◌, ◌≤◌, ◌^◌, IsTrue, [], ◌∷◌, IfErr, OnOk, length};
ghost use Rattle.std.specs.List.{All};
ghost use Rattle.evp_action.specs.Agreement.{IsSettable};
ghost use Rattle.evp_action.specs.Settings.{CanSet, AreSet, StopsBy, HasNumberSize};
ghost use Rattle.evp_action.specs.Storing.{IsPacked, IsPackedRecord};
ghost use Rattle.evp_format.specs.Datum.{Datum, Entries};
ghost use Rattle.evp_format.specs.WellLaid.{IsNumberIn};
ghost use Rattle.evp_record.specs.Record.{value_of};

use crate::deciding::reason_of;
use crate::refusal::Refusal;
use crate::storing::store;
use crate::{Reason, Setting};
use evp_base::{FieldPath, Step, fits};
use evp_eval::eval;
use evp_format::{Base, Field, Format};
use evp_record::Checked;
use std::alloc::Global;

// Stores the number of each setting, one after another: each expression sees the item.
pub(crate) fn set_fields(
    alloc: Global,
    item: &Checked<'_>,
    receiver: &Format,
    set: &[Setting],
    bytes: &mut [u8],
) -> Result<(), Refusal>
    requires settings { All (CanSet item.now.layout receiver.now) set.now }
    requires few { length set.now ≤ 2 ^ 16 }
    requires packed { IsPackedRecord receiver.now bytes.old }
    ensures set { OnOk result ((entries : Entries) → IsPacked receiver.now entries bytes.old
        → AreSet receiver.now 0 set.now (value_of item.now) entries bytes.new) }
    ensures cause { IfErr result (λ cause. (entries : Entries)
        → IsPacked receiver.now entries bytes.old
        → StopsBy receiver.now 0 set.now (value_of item.now) entries cause) }
{
    for (k, setting) in set.iter().enumerate() {
        set_field(alloc, item, receiver, k as u16, setting, bytes)?;
    }
    Ok(())
}

// Stores the number of the setting of this number.
fn set_field(
    alloc: Global,
    item: &Checked<'_>,
    receiver: &Format,
    k: u16,
    setting: &Setting,
    bytes: &mut [u8],
) -> Result<(), Refusal>
    requires can { CanSet item.now.layout receiver.now setting.now }
    requires packed { IsPackedRecord receiver.now bytes.old }
    ensures set { OnOk result ((entries : Entries) → IsPacked receiver.now entries bytes.old
        → AreSet receiver.now k (setting.now ∷ []) (value_of item.now) entries bytes.new) }
    ensures cause { IfErr result (λ cause. (entries : Entries)
        → IsPacked receiver.now entries bytes.old
        → StopsBy receiver.now k (setting.now ∷ []) (value_of item.now) entries cause) }
    ensures same_length { length bytes.new ≡ length bytes.old }
{
    let number = match eval(&setting.value, item.copy()) {
        Ok(number) => number,
        Err(fault) => return Err(Refusal::Cause(reason_of(Some(k), fault))),
    };
    let last = receiver.types().len() - 1;
    let field = receiver.field(last as u16, setting.field);
    if !holds(field, number) {
        let path = FieldPath::from_steps(vec![in alloc; Step::Field(field.name)]?);
        return Err(Refusal::Cause(Reason::Unfit(path)));
    }
    store(receiver, setting.field, number, bytes);
    Ok(())
}

// Whether the field is a number's, in whose range this one is.
fn holds(field: &Field, number: i128) -> bool
    requires { HasNumberSize field.now.base field.now.size }
    ensures { IsTrue result ↔ IsNumberIn field.now.base field.now.size number }
{
    match field.base {
        Base::Number(kind) => fits(kind, field.size, number),
        Base::Text | Base::Nested(_) => false,
    }
}
