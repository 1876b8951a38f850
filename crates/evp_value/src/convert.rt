//! Conversion by name, plainly.

ghost use Rattle.std.specs.Prelude.{◌≡◌, ℕ, Err};
ghost use Rattle.evp_format.specs.Conversion.{answer_of, conversion};
ghost use Rattle.evp_format.specs.Converting.{Made, convert};
ghost use Rattle.evp_format.specs.Datum.{Datum};
ghost use Rattle.evp_format.specs.ValueView.{datum_of};
ghost use Rattle.evp_value.specs.Making.{IsRefusal, IsMadeSomehow};
ghost use Rattle.evp_value.specs.SlowConversion.{IsSlowFault, Tells};

use crate::making::{Receiver, make_record};
use crate::refused::Refused;
use crate::slow_fault::SlowFault;
use evp_format::{Format, Place, Value, clash_of, path_of};
use std::alloc::Global;

/// The value of a record in `from`, as a value of `to` whose packed size is at most the limit: each
/// field of the receiver's takes the sender's value of that name, or its default. First comes
/// `Clash`, then `Large` at `.` where the receiver's length passes the limit; then in each record
/// the single number fields as listed, and all other fields as listed; in an array its length, its
/// block and its elements. The value is one of `from`; of any other the answer is what conversion
/// by name finds in it. It is slow: it looks for each name in each record. It calls itself once for
/// each level of nested types, at most 16.
pub fn convert_value(
    alloc: Global,
    from: &Format,
    to: &Format,
    value: &Value,
    limit: u32,
) -> Result<Value, SlowFault>
    ensures { Tells result (conversion from.now to.now (datum_of value.now) limit) }
{
    if let Some(path) = clash_of(alloc, from, to)? {
        return Err(SlowFault::Clash(path));
    }
    match made_value(alloc, to, value, limit) {
        Ok(made) => Ok(made),
        Err(refused) => Err(with_path(alloc, to, refused)),
    }
}

// What is made of the value for this format and limit.
fn made_value(alloc: Global, format: &Format, value: &Value, limit: u32) -> Result<Value, Refused>
    ensures { IsMadeSomehow result (convert format.now (datum_of value.now) limit) }
{
    let last = format.types().len() - 1;
    let length = format.types()[last].length;
    if length > limit {
        return Err(Refused::Large(Place::root()));
    }
    let to = Receiver {
        alloc,
        format,
        limit,
    };
    let mut size = length;
    make_record(&to, last, value.entries(), &Place::root(), &mut size)
}

// The refusal with the path of its place.
fn with_path(alloc: Global, format: &Format, refused: Refused) -> SlowFault
    ensures { (said : Made Datum) → IsRefusal refused said
        → IsSlowFault result (answer_of format.now said) }
{
    match refused {
        Refused::Unfit(place) => match path_of(alloc, format, &place) {
            Ok(path) => SlowFault::Unfit(path),
            Err(_) => SlowFault::Memory,
        },
        Refused::Large(place) => match path_of(alloc, format, &place) {
            Ok(path) => SlowFault::Large(path),
            Err(_) => SlowFault::Memory,
        },
        Refused::Memory => SlowFault::Memory,
    }
}
