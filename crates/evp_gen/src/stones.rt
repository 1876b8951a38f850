//! The stones of the job: eight rows of four, one of each row for each sender.

ghost use Rattle.std.specs.Prelude.{◌≡◌, ◌+◌, ◌<◌, ◌∷◌, ◌++◌, [], map, codes, IfOk, OnOk};
ghost use Rattle.std.specs.Prelude.{string_bytes};
ghost use Rattle.std.specs.Fmt.{decimal};
ghost use Rattle.std.specs.List.{flat_map};
ghost use Rattle.serde_json.specs.View.{view};
ghost use Rattle.evp_gen.specs.Formats.{list_of};
ghost use Rattle.evp_gen.specs.Stones.{split_value, filter_value, router_value, transform_value};
ghost use Rattle.evp_gen.specs.Stones.{terminal_value, stone_value, row_values, stones_value};

use serde_json::{Value, json};
use std::alloc::{AllocError, Global};

/// A row of stones, by what they do.
#[derive(Clone, Copy)]
pub(crate) enum Row {
    /// Two copies of each record.
    Parting,
    /// A test of `x`.
    Thirds,
    /// `y` from `x`.
    Squares,
    /// One of four terminals, by `x`.
    Fifths,
    /// A test of `y`.
    Evens,
    /// Terminals behind the routers.
    Shorts,
    /// A copy for each of the last terminals.
    Sharing,
    /// Terminals behind the transforms.
    Ends,
}

/// The rows, from stone 0 on.
const ROWS: [Row; 8] = [
    Row::Parting,
    Row::Thirds,
    Row::Squares,
    Row::Fifths,
    Row::Evens,
    Row::Shorts,
    Row::Sharing,
    Row::Ends,
];

/// The stones, in the order of the document.
pub(crate) fn stones(alloc: Global) -> Result<Value, AllocError>
    ensures { IfOk result (λ value. view value ≡ stones_value) }
{
    stones_of(alloc, &ROWS)
}

// The stones of these rows.
fn stones_of(alloc: Global, rows: &[Row]) -> Result<Value, AllocError>
    ensures { IfOk result (λ value. view value ≡ list_of (flat_map row_values rows.now)) }
{
    let mut stones = Vec::new(alloc);
    for row in rows {
        push_row(&mut stones, alloc, *row)?;
    }
    Ok(Value::Array(stones))
}

// Adds a row's stones at the end.
fn push_row(stones: &mut Vec<Value>, alloc: Global, row: Row) -> Result<(), AllocError>
    ensures { OnOk result
        (map view stones.new.items ≡ map view stones.old.items ++ row_values row) }
{
    for k in 0..4 {
        let value = stone(alloc, row, k)?;
        push_value(stones, value)?;
    }
    Ok(())
}

// Adds a value at the end.
fn push_value(values: &mut Vec<Value>, value: Value) -> Result<(), AllocError>
    ensures { OnOk result
        (map view values.new.items ≡ map view values.old.items ++ view value ∷ []) }
{
    values.push(value)?;
    Ok(())
}

// Stone k of a row.
fn stone(alloc: Global, row: Row, k: u64) -> Result<Value, AllocError>
    requires { k < 4 }
    ensures { IfOk result (λ value. view value ≡ stone_value row k) }
{
    match row {
        Row::Parting => parting(alloc, k),
        Row::Thirds => filter(alloc, "wide", "x % 3 != 0", 12 + k),
        Row::Squares => squares(alloc, k),
        Row::Fifths => router(alloc),
        Row::Evens => filter(alloc, "calc", "y % 2 == 0", 24 + k),
        Row::Shorts => terminal(alloc, "short"),
        Row::Sharing => sharing(alloc),
        Row::Ends => terminal(alloc, if k < 2 { "full" } else { "tight" }),
    }
}

fn parting(alloc: Global, k: u64) -> Result<Value, AllocError>
    requires { k < 4 }
    ensures { IfOk result (λ value. view value ≡ split_value ((4 + k) ∷ (8 + k) ∷ [])) }
{
    let (first, second) = (4 + k, 8 + k);
    json!(in alloc; {"kind": "split", "targets": [first, second]})
}

fn sharing(alloc: Global) -> Result<Value, AllocError>
    ensures { IfOk result (λ value. view value ≡ split_value (28 ∷ 29 ∷ 30 ∷ 31 ∷ [])) }
{
    json!(in alloc; {"kind": "split", "targets": [28u64, 29u64, 30u64, 31u64]})
}

fn filter(alloc: Global, format: &str, expr: &str, target: u64) -> Result<Value, AllocError>
    ensures { IfOk result (λ value. view value ≡ filter_value format.now expr.now target) }
{
    json!(in alloc; {"kind": "filter", "format": format, "expr": expr, "target": target})
}

fn router(alloc: Global) -> Result<Value, AllocError>
    ensures { IfOk result (λ value. view value
        ≡ router_value (codes "wide") (codes "(x + 500) % 5") (20 ∷ 21 ∷ 22 ∷ 23 ∷ [])) }
{
    json!(in alloc; {
        "kind": "router",
        "format": "wide",
        "expr": "(x + 500) % 5",
        "targets": [20u64, 21u64, 22u64, 23u64]
    })
}

fn squares(alloc: Global, k: u64) -> Result<Value, AllocError>
    requires { k < 4 }
    ensures { IfOk result
        (λ value. view value ≡ transform_value (codes "x*x - " ++ decimal k) (16 + k)) }
{
    let text = format!(in alloc; "x*x - {k}")?;
    transform(alloc, text.as_str(), 16 + k)
}

fn transform(alloc: Global, expr: &str, target: u64) -> Result<Value, AllocError>
    ensures { IfOk result (λ value. view value ≡ transform_value expr.now target) }
{
    json!(in alloc; {
        "kind": "transform",
        "format": "wide",
        "into": "calc",
        "set": [["y", expr]],
        "target": target
    })
}

fn terminal(alloc: Global, format: &str) -> Result<Value, AllocError>
    ensures { IfOk result (λ value. view value ≡ terminal_value format.now) }
{
    json!(in alloc; {"kind": "terminal", "format": format})
}
