//! What each action does with records of formats that are its own, equal to it, or others.
ghost use Rattle.std.specs.Prelude.{◌≡◌, ◌<◌, IfOk, Some, length, slice_get};
ghost use Rattle.evp_action.specs.Agreement.{Agrees, Binds};
ghost use Rattle.evp_record.specs.Owned.{HasValueIn};

use evp_action::{Acted, Action, Reason, To, act};
use evp_base::Memory;
use evp_cache::{CachePass, PlanCache};
use evp_eval::{Bound, bind};
use evp_expr::parse;
use evp_format::{Format, LayoutFault, read_description};
use evp_plan::Builds;
use evp_record::{Owned, check};
use std::alloc::{AllocError, Global};
use std::sync::Arc;
use std::test::Fail;

// Little endian, pointers of 4 bytes: `x integer` and `y integer` of 4 bytes.
const PAIR: &[u8] = b"NDF1\0\x04\0\x01\x01p\0\0\0\x08\0\x02\
    \x01x\x07integer\0\0\0\x04\0\0\0\0\
    \x01y\x07integer\0\0\0\x04\0\0\0\x04";

// `x integer` of 1 byte.
const SMALL: &[u8] = b"NDF1\0\x04\0\x01\x01p\0\0\0\x01\0\x01\x01x\x07integer\0\0\0\x01\0\0\0\0";

// `v integer[2]` of 1 byte each.
const LISTED: &[u8] = b"NDF1\0\x04\0\x01\x01p\0\0\0\x02\0\x01\x01v\x0ainteger[2]\0\0\0\x01\0\0\0\0";

// `x string` with a pointer of 4 bytes.
const TEXT: &[u8] = b"NDF1\0\x04\0\x01\x01p\0\0\0\x04\0\x01\x01x\x06string\0\0\0\x04\0\0\0\0";

// Big endian: the two numbers of the pair.
const SWAPPED: &[u8] = b"NDF1\x01\x04\0\x01\x01p\0\0\0\x08\0\x02\
    \x01x\x07integer\0\0\0\x04\0\0\0\0\
    \x01y\x07integer\0\0\0\x04\0\0\0\x04";

// `x string` with a pointer of 8 bytes.
const WIDE_TEXT: &[u8] = b"NDF1\0\x08\0\x01\x01p\0\0\0\x08\0\x01\x01x\x06string\0\0\0\x08\0\0\0\0";

// The numbers of these formats. The first four are declared, and `AGAIN` is equal to `PAIR`.
pub(crate) const IN_PAIR: u16 = 0;

pub(crate) const IN_SMALL: u16 = 1;

pub(crate) const IN_LISTED: u16 = 2;

pub(crate) const IN_TEXT: u16 = 3;

pub(crate) const AGAIN: u16 = 4;

pub(crate) const IN_SWAPPED: u16 = 5;

const IN_WIDE_TEXT: u16 = 6;

pub(crate) fn formats(alloc: Global) -> Result<[Format; 7], LayoutFault> {
    Ok([
        read_description(alloc, PAIR)?,
        read_description(alloc, SMALL)?,
        read_description(alloc, LISTED)?,
        read_description(alloc, TEXT)?,
        read_description(alloc, PAIR)?,
        read_description(alloc, SWAPPED)?,
        read_description(alloc, WIDE_TEXT)?,
    ])
}

// A record: the number of its format, its bytes, and what comes of it.
type Row = (u16, &'static [u8], &'static str);

// What the action does with a record that has a value in its format.
fn acted(
    alloc: Global,
    formats: &[Format; 7],
    action: &Action,
    targets: u16,
    limit: u32,
    item: Owned,
) -> Result<Acted, Memory>
    requires agrees { Agrees formats.now 4 action.now }
    requires item { HasValueIn formats.now item }
{
    let cache = PlanCache::new(alloc, formats, 4)?;
    let mut pass = CachePass::new(alloc, &cache)?;
    let mut builds = Builds::new();
    let item = Arc::new(alloc, item)?;
    act(
        alloc,
        action,
        targets,
        formats,
        limit,
        &cache,
        &mut pass,
        &mut builds,
        &item,
    )
}

// What comes of a record, in words, where its bytes have a value in the format of this number.
pub(crate) fn answer(
    alloc: Global,
    formats: &[Format; 7],
    action: &Action,
    targets: u16,
    limit: u32,
    from: u16,
    bytes: &[u8],
) -> Result<String, Fail>
    requires agrees { Agrees formats.now 4 action.now }
{
    let Some(format) = formats.get(usize::from(from)) else {
        return Ok(String::from_str(alloc, "no format")?);
    };
    if bytes.len() > 1000 || check(format, bytes).is_err() {
        return Ok(String::from_str(alloc, "broken")?);
    }
    let item = Owned::new(from, Vec::from_slice(alloc, bytes)?);
    let acted = acted(alloc, formats, action, targets, limit, item)?;
    Ok(told(alloc, &acted)?)
}

// What was done, in words.
fn told(alloc: Global, acted: &Acted) -> Result<String, AllocError> {
    match acted {
        Acted::Sent(To::All, item) => sent(alloc, "all", item),
        Acted::Sent(To::One(k), item) => {
            let to = format!(in alloc; "to {k}")?;
            sent(alloc, to.as_str(), item)
        }
        Acted::Dropped => String::from_str(alloc, "dropped"),
        Acted::Arrived(item) => sent(alloc, "arrived", item),
        Acted::Refused(reason) => refused(alloc, reason),
    }
}

// The number of a record's format, and its bytes.
fn sent(alloc: Global, how: &str, item: &Owned) -> Result<String, AllocError> {
    format!(in alloc; "{how} {} {:?}", item.format(), item.bytes())
}

fn refused(alloc: Global, reason: &Reason) -> Result<String, AllocError> {
    match reason {
        Reason::Clash(path) => format!(in alloc; "clash {path}"),
        Reason::Unfit(path) => format!(in alloc; "unfit {path}"),
        Reason::Large(path) => format!(in alloc; "large {path}"),
        Reason::Overflow(setting, at) => format!(in alloc; "overflow {setting:?} {at}"),
        Reason::ZeroDivide(setting, at) => format!(in alloc; "zero divide {setting:?} {at}"),
        Reason::Index(setting, at) => format!(in alloc; "index {setting:?} {at}"),
    }
}

// The expression, bound to the format of this number.
pub(crate) fn bound(
    alloc: Global,
    formats: &[Format; 7],
    format: u16,
    text: &str,
) -> Result<Bound, Fail>
    requires format { format < 4 }
    ensures { IfOk result (λ bound. Binds formats.now 4 format bound) }
{
    let expr = parse(alloc, text)?;
    Ok(bind(alloc, &expr, &formats[usize::from(format)])?)
}

fn filter(alloc: Global, formats: &[Format; 7], format: u16, text: &str) -> Result<Action, Fail>
    requires format { format < 4 }
    ensures { IfOk result (λ action. Agrees formats.now 4 action) }
{
    let test = bound(alloc, formats, format, text)?;
    Ok(Action::Filter { format, test })
}

// An expression over the pair, the number of a record's format, its bytes, and what a filter does.
const FILTERED: [(&str, u16, &[u8], &str); 9] = [
    (
        "x/y > 1",
        IN_PAIR,
        b"\x03\0\0\0\0\0\0\0",
        "zero divide None 1",
    ),
    ("x/y > 1", IN_PAIR, b"\x01\0\0\0\x01\0\0\0", "dropped"),
    (
        "x/y > 1",
        IN_PAIR,
        b"\x04\0\0\0\x01\0\0\0",
        "all 0 [4, 0, 0, 0, 1, 0, 0, 0]",
    ),
    (
        "x/y > 1",
        AGAIN,
        b"\x04\0\0\0\x01\0\0\0",
        "all 0 [4, 0, 0, 0, 1, 0, 0, 0]",
    ),
    (
        "x/y > 1",
        IN_SWAPPED,
        b"\0\0\0\x04\0\0\0\x01",
        "all 0 [4, 0, 0, 0, 1, 0, 0, 0]",
    ),
    ("x", IN_PAIR, b"\0\0\0\0\x01\0\0\0", "dropped"),
    ("0-x", IN_SMALL, b"\x05", "all 0 [5, 0, 0, 0, 0, 0, 0, 0]"),
    (
        "170141183460469231731687303715884105727+x",
        IN_PAIR,
        b"\x01\0\0\0\0\0\0\0",
        "overflow None 39",
    ),
    ("x", IN_TEXT, b"\0\0\0\0", "clash x"),
];

#[test]
fn filters(rt: HostRuntime) -> Result<(), Fail> {
    let formats = formats(rt.alloc())?;
    for (text, from, bytes, want) in FILTERED {
        let action = filter(rt.alloc(), &formats, IN_PAIR, text)?;
        let found = answer(rt.alloc(), &formats, &action, 1, 4096, from, bytes)?;
        assert_eq!(rt; found.as_str(), want, "at {text}");
    }
    Ok(())
}

fn router(alloc: Global, formats: &[Format; 7], text: &str) -> Result<Action, Fail>
    ensures { IfOk result (λ action. Agrees formats.now 4 action) }
{
    let choose = bound(alloc, formats, IN_PAIR, text)?;
    Ok(Action::Router {
        format: IN_PAIR,
        choose,
    })
}

// What a router by `x` with two targets does.
const ROUTED: [Row; 7] = [
    (
        IN_PAIR,
        b"\x01\0\0\0\0\0\0\0",
        "to 1 0 [1, 0, 0, 0, 0, 0, 0, 0]",
    ),
    (
        IN_PAIR,
        b"\0\0\0\0\x07\0\0\0",
        "to 0 0 [0, 0, 0, 0, 7, 0, 0, 0]",
    ),
    (IN_PAIR, b"\x02\0\0\0\0\0\0\0", "dropped"),
    (IN_PAIR, b"\xff\xff\xff\xff\0\0\0\0", "dropped"),
    (
        AGAIN,
        b"\x01\0\0\0\0\0\0\0",
        "to 1 0 [1, 0, 0, 0, 0, 0, 0, 0]",
    ),
    (
        IN_SWAPPED,
        b"\0\0\0\x01\0\0\0\x02",
        "to 1 0 [1, 0, 0, 0, 2, 0, 0, 0]",
    ),
    (IN_TEXT, b"\0\0\0\0", "clash x"),
];

#[test]
fn routers(rt: HostRuntime) -> Result<(), Fail> {
    let formats = formats(rt.alloc())?;
    for (from, bytes, want) in ROUTED {
        let action = router(rt.alloc(), &formats, "x")?;
        let found = answer(rt.alloc(), &formats, &action, 2, 4096, from, bytes)?;
        assert_eq!(rt; found.as_str(), want, "at format {from}");
    }
    Ok(())
}

// What a split does.
const SPLIT: [Row; 3] = [
    (
        IN_PAIR,
        b"\x01\0\0\0\x01\0\0\0",
        "all 0 [1, 0, 0, 0, 1, 0, 0, 0]",
    ),
    (
        IN_SWAPPED,
        b"\0\0\0\x01\0\0\0\x01",
        "all 5 [0, 0, 0, 1, 0, 0, 0, 1]",
    ),
    (IN_TEXT, b"\x04\0\0\0\0", "all 3 [4, 0, 0, 0, 0]"),
];

#[test]
fn splits(rt: HostRuntime) -> Result<(), Fail> {
    let formats = formats(rt.alloc())?;
    for (from, bytes, want) in SPLIT {
        let found = answer(rt.alloc(), &formats, &Action::Split, 0, 4096, from, bytes)?;
        assert_eq!(rt; found.as_str(), want, "at format {from}");
    }
    Ok(())
}

// What is received of a record in the format of the number behind its own, where the longest record
// has so many bytes.
const RECEIVED: [(u16, u16, u32, &[u8], &str); 8] = [
    (
        IN_PAIR,
        IN_PAIR,
        4096,
        b"\x07\0\0\0\x09\0\0\0",
        "arrived 0 [7, 0, 0, 0, 9, 0, 0, 0]",
    ),
    (
        AGAIN,
        IN_PAIR,
        4096,
        b"\x07\0\0\0\x09\0\0\0",
        "arrived 0 [7, 0, 0, 0, 9, 0, 0, 0]",
    ),
    (
        IN_SWAPPED,
        IN_PAIR,
        4096,
        b"\0\0\0\x07\0\0\0\x09",
        "arrived 0 [7, 0, 0, 0, 9, 0, 0, 0]",
    ),
    (IN_TEXT, IN_PAIR, 4096, b"\0\0\0\0", "clash x"),
    (
        IN_PAIR,
        IN_SMALL,
        4096,
        b"\x7f\0\0\0\0\0\0\0",
        "arrived 1 [127]",
    ),
    (IN_PAIR, IN_SMALL, 4096, b"\x80\0\0\0\0\0\0\0", "unfit x"),
    (
        IN_WIDE_TEXT,
        IN_TEXT,
        11,
        b"\x08\0\0\0\0\0\0\0ab\0",
        "arrived 3 [8, 0, 0, 0, 0, 0, 0, 0, 97, 98, 0]",
    ),
    (
        IN_WIDE_TEXT,
        IN_TEXT,
        10,
        b"\x08\0\0\0\0\0\0\0ab\0",
        "large x",
    ),
];

#[test]
fn terminals(rt: HostRuntime) -> Result<(), Fail> {
    let formats = formats(rt.alloc())?;
    for (from, format, limit, bytes, want) in RECEIVED {
        let found = received(rt.alloc(), &formats, format, limit, from, bytes)?;
        assert_eq!(rt; found.as_str(), want, "at formats {from} and {format}");
    }
    Ok(())
}

// What is received, where the format is declared.
fn received(
    alloc: Global,
    formats: &[Format; 7],
    format: u16,
    limit: u32,
    from: u16,
    bytes: &[u8],
) -> Result<String, Fail> {
    if format >= 4 {
        return Ok(String::from_str(alloc, "not declared")?);
    }
    let action = terminal(formats, format);
    answer(alloc, formats, &action, 0, limit, from, bytes)
}

fn terminal(formats: &[Format; 7], format: u16) -> Action
    requires { format < 4 }
    ensures { Agrees formats.now 4 result }
{
    let _declared = format_of(formats, format);
    Action::Terminal { format }
}

// The format of this number.
fn format_of(formats: &[Format], number: u16) -> &Format
    requires { number < length formats.now }
    ensures { slice_get formats.now number ≡ Some result.now }
{
    &formats[usize::from(number)]
}
