//! Expressions over records: values, and each fault at its edge.

use crate::sample_records::{
    BIG, BIG_RECORD, DEEP, DEEP_RECORD, LIST, LIST_RECORD, LITTLE, LITTLE_RECORD, NESTED,
    NESTED_RECORD, TEXT, WORDS, WORDS_RECORD,
};
use evp_eval::{bind, eval};
use evp_expr::parse;
use evp_format::read_description;
use evp_record::check;
use std::alloc::Global;
use std::test::Fail;

// An expression over the list's record, and its value or fault.
const NUMBERS: [(&str, &str); 51] = [
    ("-7/2", "-3"),
    ("7 / -2", "-3"),
    ("-7%2", "-1"),
    ("7 % -2", "1"),
    ("0 && 1/0", "0"),
    ("1 || 1/0", "1"),
    ("2 && 3", "1"),
    ("0 || 0", "0"),
    ("1 && 1/0", "zero divide at 6"),
    ("0 || 1/0", "zero divide at 6"),
    ("1/0 && 0", "zero divide at 1"),
    ("1/0", "zero divide at 1"),
    ("5 % (n - 2)", "zero divide at 2"),
    (
        "170141183460469231731687303715884105727+1",
        "overflow at 39",
    ),
    (
        "(-170141183460469231731687303715884105727 - 1) / -1",
        "overflow at 47",
    ),
    ("(-170141183460469231731687303715884105727 - 1) % -1", "0"),
    (
        "-(-170141183460469231731687303715884105727 - 1)",
        "overflow at 0",
    ),
    (
        "170141183460469231731687303715884105727 * 2",
        "overflow at 40",
    ),
    (
        "-170141183460469231731687303715884105727 - 1",
        "-170141183460469231731687303715884105728",
    ),
    (
        "-170141183460469231731687303715884105727 - 2",
        "overflow at 41",
    ),
    (
        "170141183460469231731687303715884105726 + 1",
        "170141183460469231731687303715884105727",
    ),
    ("9223372036854775807 + 1", "9223372036854775808"),
    ("9223372036854775807 * 2", "18446744073709551614"),
    ("4294967296 * 4294967296", "18446744073709551616"),
    ("(-9223372036854775807 - 1) / -1", "9223372036854775808"),
    ("(-9223372036854775807 - 1) % -1", "0"),
    ("18446744073709551616 / 3", "6148914691236517205"),
    ("18446744073709551616 % 3", "1"),
    ("-18446744073709551617 / 4294967296", "-4294967296"),
    ("-18446744073709551617 % 4294967296", "-1"),
    ("n + (n * 3 - (n - (1 - n)))", "5"),
    ("(n + 1) * (n + 2) - (n - 5) * (n - 6)", "0"),
    ("a[n - 1] - a[a[0] - 5] * (n - a[1])", "26"),
    ("n == 2 && n - (1 - n) == 3", "1"),
    ("1 + (n || 1/0) + (n - 2 && 1/0)", "2"),
    ("!0 + !7", "1"),
    ("(1 < 2) + (2 <= 2) + (3 > 4) + (4 >= 5)", "2"),
    ("(1 == 1) + (1 != 1)", "1"),
    ("a[1]", "6"),
    ("a[0] + a[n - 1]", "11"),
    ("len(a)", "2"),
    ("a[2]", "index at 1"),
    ("a[0-1]", "index at 1"),
    ("a[1/0]", "zero divide at 3"),
    ("n % 3 != 0", "1"),
    ("b", "unknown at 0"),
    ("a", "not a number at 0"),
    ("len(n)", "not a list at 4"),
    ("same(n,\"x\")", "not a text at 5"),
    ("n[zz]", "not a list at 1"),
    ("a[1].k", "unknown at 5"),
];

// What opens a level, so many levels around 1, and the value. A level has two, three or five
// operands wait.
const LEVELS: [(&str, usize, &str); 8] = [
    ("1+1*(", 1, "2"),
    ("1+1*(", 3, "4"),
    ("1+1*(", 7, "8"),
    ("1+1*(", 15, "16"),
    ("1+1*(", 31, "32"),
    ("1+1*(", 63, "64"),
    ("1<1+1*(", 63, "1"),
    ("0||1&&1<1+1*(", 63, "1"),
];

// A description, a record of it, an expression, and its value or fault.
const RECORDS: [(&[u8], &[u8], &str, &str); 27] = [
    (TEXT, b"\0\0\0\0", "same(s,\"\")", "0"),
    (TEXT, b"\x04\0\0\0\0", "same(s,\"\")", "1"),
    (TEXT, b"\x04\0\0\0a\0", "same(s,\"\")", "0"),
    (TEXT, b"\x04\0\0\0\xc3\xa9\0", "same(s,\"\u{e9}\")", "1"),
    (TEXT, b"\x04\0\0\0\xc3\xa8\0", "same(s,\"\u{e9}\")", "0"),
    (TEXT, b"\0\0\0\0", "s", "not a number at 0"),
    (TEXT, b"\0\0\0\0", "len(s)", "not a list at 4"),
    (WORDS, WORDS_RECORD, "same(v[1],\"b\")", "1"),
    (WORDS, WORDS_RECORD, "same(v[0],\"b\")", "0"),
    (WORDS, WORDS_RECORD, "same(v[2],\"a\")", "index at 6"),
    (WORDS, WORDS_RECORD, "v[0]", "not a number at 0"),
    (WORDS, WORDS_RECORD, "v[zz]", "unknown at 2"),
    (WORDS, WORDS_RECORD, "1 + v[zz] + yy", "unknown at 6"),
    (NESTED, NESTED_RECORD, "o.k", "7"),
    (NESTED, NESTED_RECORD, "l[1].k", "2"),
    (NESTED, NESTED_RECORD, "l[l[0].k].k + o.k", "9"),
    (NESTED, NESTED_RECORD, "same(l[0].s,\"x\")", "1"),
    (NESTED, NESTED_RECORD, "same(l[1].s,\"\")", "0"),
    (NESTED, NESTED_RECORD, "o.k.z", "unknown at 4"),
    (NESTED, NESTED_RECORD, "o", "not a number at 0"),
    (NESTED, NESTED_RECORD, "len(l[0])", "not a list at 4"),
    (
        NESTED,
        NESTED_RECORD,
        "same(l[0].k,\"\")",
        "not a text at 5",
    ),
    (DEEP, DEEP_RECORD, "p.l[1].v[1].i.k", "7"),
    (DEEP, DEEP_RECORD, "p.l[0].v[0].i.k", "5"),
    (DEEP, DEEP_RECORD, "p.l[0].v[1].i.k", "index at 8"),
    (DEEP, DEEP_RECORD, "len(p.l[1].v) * 10 + len(p.l)", "22"),
    (LIST, LIST_RECORD, "len(a[1])", "not a list at 4"),
];

// A number of each kind and size, and its value in both orders: a boolean is 0 or 1.
const KINDS: [(&str, &str); 19] = [
    ("i8", "-2"),
    ("u8", "72623859790382856"),
    ("b8", "1"),
    ("e8", "-72057594037927936"),
    ("i4", "-2147483648"),
    ("u4", "4000000000"),
    ("b4", "0"),
    ("e4", "16909060"),
    ("i2", "-32767"),
    ("u2", "65281"),
    ("b2", "1"),
    ("e2", "-2"),
    ("i1", "-128"),
    ("u1", "200"),
    ("c1", "255"),
    ("b1", "1"),
    ("e1", "-1"),
    ("v[0]", "258"),
    ("v[1]", "-2"),
];

// The value of an expression over a record, or the text of its fault.
fn answer(alloc: Global, description: &[u8], bytes: &[u8], text: &str) -> Result<String, Fail> {
    let format = read_description(alloc, description)?;
    let expr = parse(alloc, text)?;
    let bound = match bind(alloc, &expr, &format) {
        Ok(bound) => bound,
        Err(fault) => return Ok(format!(in alloc; "{fault}")?),
    };
    if bytes.len() > 1000 {
        return Ok(String::from_str(alloc, "long")?);
    }
    let Ok(item) = check(&format, bytes) else {
        return Ok(String::from_str(alloc, "broken")?);
    };
    match eval(&bound, item) {
        Ok(number) => Ok(format!(in alloc; "{number}")?),
        Err(fault) => Ok(format!(in alloc; "{fault}")?),
    }
}

#[test]
fn values_and_faults_over_a_list(rt: HostRuntime) -> Result<(), Fail> {
    for (text, want) in NUMBERS {
        let found = answer(rt.alloc(), LIST, LIST_RECORD, text)?;
        assert_eq!(rt; found.as_str(), want, "at {text}");
    }
    Ok(())
}

#[test]
fn values_and_faults_over_records(rt: HostRuntime) -> Result<(), Fail> {
    for (description, bytes, text, want) in RECORDS {
        let found = answer(rt.alloc(), description, bytes, text)?;
        assert_eq!(rt; found.as_str(), want, "at {text}");
    }
    Ok(())
}

#[test]
fn each_kind_and_size_in_both_orders(rt: HostRuntime) -> Result<(), Fail> {
    for (text, want) in KINDS {
        let little = answer(rt.alloc(), LITTLE, LITTLE_RECORD, text)?;
        assert_eq!(rt; little.as_str(), want, "at {text}");
        let big = answer(rt.alloc(), BIG, BIG_RECORD, text)?;
        assert_eq!(rt; big.as_str(), want, "at {text}");
    }
    Ok(())
}

#[test]
fn long_chains_and_deep_parentheses(rt: HostRuntime) -> Result<(), Fail> {
    let alloc = rt.alloc();
    let mut chain = "1+".repeat(alloc, 2000)?;
    chain.push_str("n")?;
    let found = answer(alloc, LIST, LIST_RECORD, chain.as_str())?;
    assert_eq!(rt; found.as_str(), "2002");
    let mut nested = "(1+".repeat(alloc, 60)?;
    nested.push_str("n")?;
    nested.push_str(")".repeat(alloc, 60)?.as_str())?;
    let found = answer(alloc, LIST, LIST_RECORD, nested.as_str())?;
    assert_eq!(rt; found.as_str(), "62");
    Ok(())
}

#[test]
fn few_operands_and_many(rt: HostRuntime) -> Result<(), Fail> {
    let alloc = rt.alloc();
    for (opened, levels, want) in LEVELS {
        let mut text = opened.repeat(alloc, levels)?;
        text.push_str("1")?;
        text.push_str(")".repeat(alloc, levels)?.as_str())?;
        let found = answer(alloc, LIST, LIST_RECORD, text.as_str())?;
        assert_eq!(rt; found.as_str(), want, "at {text}");
    }
    Ok(())
}
