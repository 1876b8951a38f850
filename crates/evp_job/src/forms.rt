//! The forms of JSON values in a job document.

ghost use Rattle.std.specs.Prelude.{◌≡◌, ◌^◌, ◌<◌, ◌≤◌, [], length, option_map, map, string_bytes};
ghost use Rattle.std.specs.Prelude.{IfOk};
ghost use Rattle.std.specs.List.{list_all, list_any};
ghost use Rattle.evp_format.specs.Bytes.{bytes_equal};
ghost use Rattle.serde_json.specs.View.{view, members_view};
ghost use Rattle.evp_job.specs.Forms.{misformed, whole_number, number_within, integer, text_in};
ghost use Rattle.evp_job.specs.Forms.{name_in, list_in, list_within, object_in, all_known};
ghost use Rattle.evp_job.specs.Forms.{no_others};
ghost use Rattle.evp_job.specs.Steps.{Says, Gives};

use crate::JobFault;
use evp_base::{FieldPath, Name};
use serde_json::{Map, Value};
use std::alloc::Global;

// What stands here isn't of its form.
pub(crate) fn misformed(alloc: Global) -> JobFault
    ensures { result ≡ misformed }
{
    JobFault::Member(FieldPath::new(alloc))
}

/// A whole number from 0 on, without fraction or exponent.
#[tactic(auto, unfolding(crate::specs::Forms::whole_number))]
pub(crate) fn whole_number(alloc: Global, value: Option<&Value>) -> Result<u64, JobFault>
    ensures { result ≡ whole_number (option_map (λ value. view value.now) value.entry) }
{
    match value.and_then(Value::as_u64) {
        Some(number) => Ok(number),
        None => Err(misformed(alloc)),
    }
}

/// One of this range.
#[tactic(auto, unfolding(crate::specs::Forms::number_within))]
pub(crate) fn number_within(
    alloc: Global,
    value: Option<&Value>,
    least: u64,
    greatest: u64,
) -> Result<u64, JobFault>
    ensures value { result ≡ number_within least greatest
        (option_map (λ value. view value.now) value.entry) }
    ensures inside { IfOk result (λ number. number ≤ greatest) }
{
    let number = whole_number(alloc, value)?;
    if number < least || greatest < number {
        return Err(JobFault::Limit(FieldPath::new(alloc), number));
    }
    Ok(number)
}

/// A whole number of 64 bits, signed or unsigned.
#[tactic(auto, unfolding(crate::specs::Forms::integer))]
pub(crate) fn integer(alloc: Global, value: Option<&Value>) -> Result<i128, JobFault>
    ensures { result ≡ integer (option_map (λ value. view value.now) value.entry) }
{
    let Some(value) = value else {
        return Err(misformed(alloc));
    };
    if let Some(number) = value.as_u64() {
        return Ok(i128::from(number));
    }
    match value.as_i64() {
        Some(number) => Ok(i128::from(number)),
        None => Err(misformed(alloc)),
    }
}

/// A text.
#[tactic(auto, unfolding(crate::specs::Forms::text_in))]
pub(crate) fn text<'a>(alloc: Global, value: Option<&'a Value>) -> Result<&'a str, JobFault>
    ensures { Says (λ text. text.now) result
        (text_in (option_map (λ value. view value.now) value.entry)) }
{
    match value.and_then(Value::as_str) {
        Some(text) => Ok(text),
        None => Err(misformed(alloc)),
    }
}

/// A name.
#[tactic(auto, unfolding(crate::specs::Forms::name_in))]
pub(crate) fn name(alloc: Global, value: Option<&Value>) -> Result<Name, JobFault>
    ensures { result ≡ name_in (option_map (λ value. view value.now) value.entry) }
{
    let text = text(alloc, value)?;
    match Name::read(text.as_bytes()) {
        Some(name) => Ok(name),
        None => Err(misformed(alloc)),
    }
}

/// A list. `Memory` where it has more values than a document of 2^31 bytes has.
#[tactic(auto, using(crate::proofs::Lowered::listed_items), unfolding(crate::specs::Forms::list_in))]
pub(crate) fn list<'a>(alloc: Global, value: Option<&'a Value>) -> Result<&'a [Value], JobFault>
    ensures value { Gives (λ values. map view values.now) result
        (list_in (option_map (λ value. view value.now) value.entry)) }
    ensures few { IfOk result (λ values. length values.now < 2 ^ 32) }
{
    let Some(values) = value.and_then(Value::as_array) else {
        return Err(misformed(alloc));
    };
    if values.len() > 4_294_967_295 {
        return Err(JobFault::Memory);
    }
    Ok(values.as_slice())
}

/// A list of so many values.
#[tactic(auto, unfolding(crate::specs::Forms::list_within))]
pub(crate) fn list_within<'a>(
    alloc: Global,
    value: Option<&'a Value>,
    least: usize,
    greatest: usize,
) -> Result<&'a [Value], JobFault>
    ensures value { Gives (λ values. map view values.now) result (list_within least greatest
        (option_map (λ value. view value.now) value.entry)) }
    ensures few { IfOk result (λ values. length values.now ≤ greatest) }
{
    let values = list(alloc, value)?;
    let count = values.len();
    if count < least || greatest < count {
        return Err(JobFault::Limit(FieldPath::new(alloc), count as u64));
    }
    Ok(values)
}

/// An object.
#[tactic(auto, unfolding(crate::specs::Forms::object_in))]
pub(crate) fn object(alloc: Global, value: &Value) -> Result<&Value, JobFault>
    ensures { Says (λ value. view value.now) result (object_in (view value.now)) }
{
    if value.is_object() {
        Ok(value)
    } else {
        Err(misformed(alloc))
    }
}

/// That an object has no other members than these.
#[tactic(auto, unfolding(crate::specs::Forms::no_others))]
pub(crate) fn no_others(alloc: Global, object: &Value, known: &[&[u8]]) -> Result<(), JobFault>
    ensures { result ≡ no_others (map (λ key. key.now) known.now) (view object.now) }
{
    match object.as_object() {
        Some(members) if !all_known(members, known) => Err(misformed(alloc)),
        _ => Ok(()),
    }
}

// Whether each member is one of these.
fn all_known(members: &Map<String, Value>, known: &[&[u8]]) -> bool
    ensures { result ≡ all_known (map (λ key. key.now) known.now)
        (members_view members.now.entries) }
{
    keys_known(members, known)
}

fn keys_known(members: &Map<String, Value>, known: &[&[u8]]) -> bool
    ensures { result ≡ list_all
        (λ key. list_any (λ name. bytes_equal (string_bytes key) name.now) known.now)
        (map (λ entry. entry.0) members.now.entries) }
{
    members.keys().all(|key| is_known(key.as_bytes(), known))
}

fn is_known(key: &[u8], known: &[&[u8]]) -> bool
    ensures { result ≡ list_any (λ name. bytes_equal key.now name.now) known.now }
{
    known.iter().any(|name| same_bytes(key, name))
}

// Whether the bytes are the same.
pub(crate) fn same_bytes(bytes: &[u8], other: &[u8]) -> bool
    ensures { result ≡ bytes_equal bytes.now other.now }
{
    bytes == other
}
