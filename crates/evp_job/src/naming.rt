//! Formats by the names that stones give.

ghost use Rattle.std.specs.Prelude.{◌≡◌, IsTrue, option_map};
ghost use Rattle.evp_base.specs.Name.{is_name};
ghost use Rattle.serde_json.specs.View.{view};
ghost use Rattle.evp_job.specs.KnownView.{formats_of, declared_of};
ghost use Rattle.evp_job.specs.Steps.{Gives};
ghost use Rattle.evp_job.specs.Stones.{named_from, declared_in, format_at};

use crate::JobFault;
use crate::forms::{same_bytes, text};
use crate::known::{Declared, Formats};
use crate::members::step_to;
use evp_base::FieldPath;
use serde_json::Value;
use std::alloc::Global;

/// The format that this member of an object names.
#[tactic(auto, using(crate::proofs::Lowered::under_err))]
pub(crate) fn format_at<'a>(
    alloc: Global,
    formats: &Formats<'a>,
    object: &Value,
    key: &str,
) -> Result<Declared<'a>, JobFault>
    requires { IsTrue (is_name key.now) }
    ensures { Gives (λ declared. declared_of declared) result
        (format_at key.now (formats_of formats.now) (view object.now)) }
{
    match declared(alloc, formats, object.get(key)) {
        Ok(declared) => Ok(declared),
        Err(fault) => Err(fault.under(step_to(key))),
    }
}

// The format whose name stands there.
#[tactic(auto, unfolding(crate::specs::Stones::declared_in))]
fn declared<'a>(
    alloc: Global,
    formats: &Formats<'a>,
    value: Option<&Value>,
) -> Result<Declared<'a>, JobFault>
    ensures { Gives (λ declared. declared_of declared) result
        (declared_in (formats_of formats.now) (option_map (λ value. view value.now) value.entry)) }
{
    let name = text(alloc, value)?;
    match find(formats, name.as_bytes()) {
        Some(declared) => Ok(declared),
        None => Err(JobFault::UnknownFormat(FieldPath::new(alloc))),
    }
}

// The format of this name.
fn find<'a>(formats: &Formats<'a>, name: &[u8]) -> Option<Declared<'a>>
    ensures { option_map (λ declared. declared_of declared) result
        ≡ named_from name.now 0 formats.now.names.now formats.now.known.now }
{
    let (names, known) = (formats.names, formats.known);
    for k in 0..known.len() {
        if same_bytes(name, names[k].as_bytes()) {
            return Some(Declared {
                number: k as u16,
                format: &known[k].format,
            });
        }
    }
    None
}
