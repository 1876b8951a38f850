//! What transforms do with pairs and arrays: one setting or two, and what refuses.
ghost use Rattle.std.specs.Prelude.{◌≡◌, ◌≢◌, ◌<◌, ℕ, IfOk, IfSome, Some, IsTrue, slice_get};
ghost use Rattle.evp_action.specs.Agreement.{Agrees, IsSetting, IsSettable};
ghost use Rattle.evp_format.specs.declared.field.Field.{Field};
ghost use Rattle.evp_format.specs.declared.field.Shape.TheVariants.{Counted};

use crate::tests::{
    AGAIN, IN_LISTED, IN_PAIR, IN_SMALL, IN_SWAPPED, IN_TEXT, answer, bound, formats,
};
use evp_action::{Action, Setting};
use evp_format::{Base, Field, Format, Shape};
use std::alloc::Global;
use std::test::Fail;

// Whether the field of this number of the record is a single number, and no array's count.
fn is_settable(format: &Format, number: u16) -> bool
    ensures { IsTrue result → IsSettable format.now number }
{
    let fields = format.root().fields.as_slice();
    let Some(field) = fields.get(usize::from(number)) else {
        return false;
    };
    match field.shape {
        Shape::One => {}
        Shape::Fixed(_) | Shape::Counted(_) => return false,
    }
    match field.base {
        Base::Number(_) => counts_none(fields, number),
        Base::Text | Base::Nested(_) => false,
    }
}

// Whether no array's count is the field of this number.
fn counts_none(fields: &[Field], number: u16) -> bool
    ensures { IsTrue result → (k : ℕ) (other : Field) → slice_get fields.now k ≡ Some other
        → other.shape ≢ Counted number }
{
    for field in fields {
        match field.shape {
            Shape::Counted(count) => {
                if count == number {
                    return false;
                }
            }
            Shape::One | Shape::Fixed(_) => {}
        }
    }
    true
}

// The field of this number set to the expression over the first format, where it may be set.
fn setting(
    alloc: Global,
    formats: &[Format; 7],
    format: u16,
    into: u16,
    field: u16,
    text: &str,
) -> Result<Option<Setting>, Fail>
    requires format { format < 4 }
    requires into { into < 4 }
    ensures { IfOk result (λ found. IfSome found (λ s. IsSetting formats.now 4 format into s)) }
{
    let value = bound(alloc, formats, format, text)?;
    if !is_settable(&formats[usize::from(into)], field) {
        return Ok(None);
    }
    Ok(Some(Setting { field, value }))
}

// The transform with one setting.
fn with_one(
    alloc: Global,
    formats: &[Format; 7],
    format: u16,
    into: u16,
    field: u16,
    text: &str,
) -> Result<Option<Action>, Fail>
    requires format { format < 4 }
    requires into { into < 4 }
    ensures { IfOk result (λ found. IfSome found (λ action. Agrees formats.now 4 action)) }
{
    let Some(first) = setting(alloc, formats, format, into, field, text)? else {
        return Ok(None);
    };
    let set = vec![in alloc; first]?;
    Ok(Some(Action::Transform { format, into, set }))
}

// The transform of a pair into a pair with two settings, each a field and what it is set to.
fn with_two(
    alloc: Global,
    formats: &[Format; 7],
    one: (u16, &str),
    two: (u16, &str),
) -> Result<Option<Action>, Fail>
    ensures { IfOk result (λ found. IfSome found (λ action. Agrees formats.now 4 action)) }
{
    let Some(first) = setting(alloc, formats, IN_PAIR, IN_PAIR, one.0, one.1)? else {
        return Ok(None);
    };
    let Some(second) = setting(alloc, formats, IN_PAIR, IN_PAIR, two.0, two.1)? else {
        return Ok(None);
    };
    let set = vec![in alloc; first, second]?;
    Ok(Some(Action::Transform {
        format: IN_PAIR,
        into: IN_PAIR,
        set,
    }))
}

// What comes of a record, in words, where the transform's fields may be set.
fn come_of(
    alloc: Global,
    formats: &[Format; 7],
    action: &Option<Action>,
    from: u16,
    bytes: &[u8],
) -> Result<String, Fail>
    requires agrees { IfSome action.now (λ action. Agrees formats.now 4 action) }
{
    match action {
        Some(action) => answer(alloc, formats, action, 1, 4096, from, bytes),
        None => Ok(String::from_str(alloc, "not settable")?),
    }
}

// What comes of a record by a transform with one setting, where its formats are declared.
fn one_set(
    alloc: Global,
    formats: &[Format; 7],
    format: u16,
    into: u16,
    text: &str,
    from: u16,
    bytes: &[u8],
) -> Result<String, Fail> {
    if format >= 4 || into >= 4 {
        return Ok(String::from_str(alloc, "not declared")?);
    }
    let action = with_one(alloc, formats, format, into, 0, text)?;
    come_of(alloc, formats, &action, from, bytes)
}

// The numbers of a transform's formats, what the second's first field is set to, the number of a record's format,
// its bytes, and what a transform does.
const ONE_SET: [(u16, u16, &str, u16, &[u8], &str); 12] = [
    (
        IN_PAIR,
        IN_SMALL,
        "x*100",
        IN_PAIR,
        b"\x01\0\0\0\0\0\0\0",
        "all 1 [100]",
    ),
    (
        IN_PAIR,
        IN_SMALL,
        "x*100",
        IN_PAIR,
        b"\x02\0\0\0\0\0\0\0",
        "unfit x",
    ),
    // The second conversion refuses before any setting does.
    (
        IN_PAIR,
        IN_SMALL,
        "1/y",
        IN_PAIR,
        b"\x80\0\0\0\0\0\0\0",
        "unfit x",
    ),
    (
        IN_PAIR,
        IN_PAIR,
        "1/y",
        IN_PAIR,
        b"\x01\0\0\0\0\0\0\0",
        "zero divide Some(0) 1",
    ),
    (
        IN_PAIR,
        IN_PAIR,
        "x+y",
        IN_PAIR,
        b"\x01\0\0\0\x02\0\0\0",
        "all 0 [3, 0, 0, 0, 2, 0, 0, 0]",
    ),
    (
        IN_PAIR,
        IN_PAIR,
        "x+y",
        IN_SWAPPED,
        b"\0\0\0\x01\0\0\0\x02",
        "all 0 [3, 0, 0, 0, 2, 0, 0, 0]",
    ),
    (
        IN_PAIR,
        IN_PAIR,
        "170141183460469231731687303715884105727+y",
        IN_PAIR,
        b"\0\0\0\0\x01\0\0\0",
        "overflow Some(0) 39",
    ),
    (IN_PAIR, IN_PAIR, "x+y", IN_TEXT, b"\0\0\0\0", "clash x"),
    (
        IN_PAIR,
        IN_TEXT,
        "x",
        IN_PAIR,
        b"\x01\0\0\0\0\0\0\0",
        "not settable",
    ),
    (
        IN_PAIR,
        IN_LISTED,
        "x",
        IN_PAIR,
        b"\x01\0\0\0\0\0\0\0",
        "not settable",
    ),
    (
        IN_LISTED,
        IN_PAIR,
        "v[v[0]]",
        IN_LISTED,
        b"\x01\x05",
        "all 0 [5, 0, 0, 0, 0, 0, 0, 0]",
    ),
    (
        IN_LISTED,
        IN_PAIR,
        "v[v[0]]",
        IN_LISTED,
        b"\x02\x05",
        "index Some(0) 1",
    ),
];

#[test]
fn transforms_with_one_setting(rt: HostRuntime) -> Result<(), Fail> {
    let formats = formats(rt.alloc())?;
    for (format, into, text, from, bytes, want) in ONE_SET {
        let found = one_set(rt.alloc(), &formats, format, into, text, from, bytes)?;
        assert_eq!(rt; found.as_str(), want, "at {text} from {format} into {into}");
    }
    Ok(())
}

// Two fields of a pair and what they are set to, the number of a record's format, its bytes, and
// what a transform into a pair does.
type TwoSet = (
    (u16, &'static str),
    (u16, &'static str),
    u16,
    &'static [u8],
    &'static str,
);

const TWO_SET: [TwoSet; 5] = [
    // Each expression sees the record before any setting.
    (
        (0, "y"),
        (1, "x"),
        IN_PAIR,
        b"\x04\0\0\0\x01\0\0\0",
        "all 0 [1, 0, 0, 0, 4, 0, 0, 0]",
    ),
    (
        (0, "y"),
        (1, "x"),
        AGAIN,
        b"\x04\0\0\0\x01\0\0\0",
        "all 0 [1, 0, 0, 0, 4, 0, 0, 0]",
    ),
    // The later of two settings of a field stays.
    (
        (0, "7"),
        (0, "8"),
        IN_PAIR,
        b"\x04\0\0\0\x01\0\0\0",
        "all 0 [8, 0, 0, 0, 1, 0, 0, 0]",
    ),
    (
        (1, "y"),
        (0, "1/y"),
        IN_PAIR,
        b"\x01\0\0\0\0\0\0\0",
        "zero divide Some(1) 1",
    ),
    (
        (1, "y"),
        (2, "y"),
        IN_PAIR,
        b"\0\0\0\0\0\0\0\0",
        "not settable",
    ),
];

#[test]
fn transforms_with_two_settings(rt: HostRuntime) -> Result<(), Fail> {
    let formats = formats(rt.alloc())?;
    for (one, two, from, bytes, want) in TWO_SET {
        let action = with_two(rt.alloc(), &formats, one, two)?;
        let found = come_of(rt.alloc(), &formats, &action, from, bytes)?;
        assert_eq!(rt; found.as_str(), want, "at {} and {}", one.1, two.1);
    }
    Ok(())
}
