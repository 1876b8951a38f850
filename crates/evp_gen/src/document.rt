//! The job document.

ghost use Rattle.std.specs.Prelude.{◌≡◌, ◌∷◌, [], Some, IfOk, IsUtf8};
ghost use Rattle.serde_json.specs.Read.{read};
ghost use Rattle.serde_json.specs.View.{view};
ghost use Rattle.serde_json.specs.Written.{compact_text};
ghost use Rattle.evp_gen.specs.Document.{round_value, rounds_value, source_value, sources_value};
ghost use Rattle.evp_gen.specs.Document.{job_value};

use crate::formats::formats;
use crate::stones::stones;
use evp_base::Memory;
use serde_json::{Value, json};
use std::alloc::{AllocError, Global};

/// The document as bytes.
pub(crate) fn document(alloc: Global, n: u32) -> Result<Vec<u8>, Memory>
    ensures text { IfOk result (λ bytes. IsUtf8 bytes.items) }
    ensures compact { IfOk result (λ bytes. bytes.items ≡ compact_text (job_value n)) }
    ensures value { IfOk result (λ bytes. read bytes.items ≡ Some (job_value n)) }
{
    let job = job(alloc, n)?;
    let bytes = job.to_vec(alloc)?;
    Ok(bytes)
}

// The document as a JSON value.
fn job(alloc: Global, n: u32) -> Result<Value, AllocError>
    ensures { IfOk result (λ value. view value ≡ job_value n) }
{
    let formats = formats(alloc)?;
    let sources = sources(alloc)?;
    let stones = stones(alloc)?;
    let rounds = rounds(alloc, u64::from(n))?;
    json!(in alloc; {
        "limit": 256u64,
        "queue": 16u64,
        "formats": formats,
        "sources": sources,
        "stones": stones,
        "rounds": rounds
    })
}

// The sources, each at the stone of its number.
fn sources(alloc: Global) -> Result<Value, AllocError>
    ensures { IfOk result (λ value. view value ≡ sources_value) }
{
    let a = source(alloc, "a", "a.ndr", 0)?;
    let b = source(alloc, "b", "b.ndr", 1)?;
    let c = source(alloc, "c", "c.ndr", 2)?;
    let d = source(alloc, "d", "d.ndr", 3)?;
    json!(in alloc; [a, b, c, d])
}

fn source(alloc: Global, name: &str, file: &str, stone: u64) -> Result<Value, AllocError>
    ensures { IfOk result (λ value. view value ≡ source_value name.now file.now stone) }
{
    json!(in alloc; {"name": name, "file": file, "stone": stone})
}

// The rounds, of which the last submits what the first three leave.
fn rounds(alloc: Global, n: u64) -> Result<Value, AllocError>
    ensures { IfOk result (λ value. view value ≡ rounds_value n) }
{
    let quarter = n / 4;
    let first = free_round(alloc, quarter)?;
    let second = frozen_round(alloc, quarter, 12)?;
    let third = frozen_round(alloc, quarter, 16)?;
    let last = frozen_round(alloc, n - 3 * quarter, 16)?;
    json!(in alloc; [first, second, third, last])
}

// A round in which nothing is frozen.
fn free_round(alloc: Global, each: u64) -> Result<Value, AllocError>
    ensures { IfOk result (λ value. view value ≡ round_value each []) }
{
    json!(in alloc; {"submit": [each, each, each, each], "frozen": []})
}

// A round in which one stone is frozen.
fn frozen_round(alloc: Global, each: u64, stone: u64) -> Result<Value, AllocError>
    ensures { IfOk result (λ value. view value ≡ round_value each (stone ∷ [])) }
{
    json!(in alloc; {"submit": [each, each, each, each], "frozen": [stone]})
}
