//! Values as text.

ghost use Rattle.std.specs.Prelude.{◌≡◌, ◌++◌, OnOk, IfOk, string_bytes, codes};
ghost use Rattle.evp_format.specs.ValueText.{value_text, elements_text, entries_text};
ghost use Rattle.evp_format.specs.ValueView.{datum_of, elements_of_values, entries_of_pairs};

use evp_base::{Memory, Name, Quoted};
use evp_format::Value;
use std::alloc::{AllocError, Global};

/// The text of a value, without blanks: numbers in decimal, null as `null`, texts in double quotes,
/// lists in brackets and records in braces as `name=value`. In a text the bytes 0x20 to 0x7e stand
/// for themselves, but `"` and `\` behind a `\`; every other byte is `\x` and two lower case
/// hexadecimal digits. It calls itself once for each level of the value.
pub fn value_text(alloc: Global, value: &Value) -> Result<String, Memory>
    ensures { IfOk result (λ text. string_bytes text ≡ value_text (datum_of value.now)) }
{
    let mut text = String::new(alloc);
    write_value(&mut text, value)?;
    Ok(text)
}

#[cycle(text)]
fn write_value(text: &mut String, value: &Value) -> Result<(), AllocError>
    ensures { OnOk result (string_bytes text.new ≡ string_bytes text.old
        ++ value_text (datum_of value.now)) }
{
    match value {
        Value::Num(number) => write!(text, "{number}"),
        Value::Null => text.push_str("null"),
        Value::Text(bytes) => write!(text, "{}", Quoted(bytes.as_slice())),
        Value::List(items) => write_elements(text, items.values.as_slice()),
        Value::Rec(members) => write_entries(text, members.pairs.as_slice()),
    }
}

// The elements of a list in brackets.
#[cycle(text)]
fn write_elements(text: &mut String, values: &[Value]) -> Result<(), AllocError>
    ensures { OnOk result (string_bytes text.new ≡ string_bytes text.old
        ++ (codes "[" ++ elements_text (elements_of_values values.now) ++ codes "]")) }
{
    text.push_str("[")?;
    for (k, value) in values.iter().enumerate() {
        if k > 0 {
            text.push_str(",")?;
        }
        write_value(text, value)?;
    }
    text.push_str("]")
}

// The fields of a record in braces.
#[cycle(text)]
fn write_entries(text: &mut String, pairs: &[(Name, Value)]) -> Result<(), AllocError>
    ensures { OnOk result (string_bytes text.new ≡ string_bytes text.old
        ++ (codes "{" ++ entries_text (entries_of_pairs pairs.now) ++ codes "}")) }
{
    text.push_str("{")?;
    for (k, pair) in pairs.iter().enumerate() {
        if k > 0 {
            text.push_str(",")?;
        }
        write_entry(text, &pair.0, &pair.1)?;
    }
    text.push_str("}")
}

// A field as `name=value`.
#[cycle(text)]
fn write_entry(text: &mut String, name: &Name, value: &Value) -> Result<(), AllocError>
    ensures { OnOk result (string_bytes text.new ≡ string_bytes text.old
        ++ (name.now ++ codes "=" ++ value_text (datum_of value.now))) }
{
    text.push_str(name.as_str())?;
    text.push_str("=")?;
    write_value(text, value)
}
