//! Conversions, whose answers were worked out by hand.
use crate::sample_formats::*;
use evp_base::Name;
use evp_format::{Items, Members, TextBytes, Value, read_description};
use evp_value::{convert_value, value_text};
use std::alloc::Global;
use std::test::Fail;

// A record of these numbers.
fn numbers(alloc: Global, fields: &[(&[u8], i128)]) -> Result<Value, Fail> {
    let mut pairs = Vec::new(alloc);
    for field in fields {
        pairs.push((Name::read(field.0).ok_or("no name")?, Value::Num(field.1)))?;
    }
    Ok(Value::Rec(Members { pairs }))
}

// A record of one or two values.
fn record(alloc: Global, name: &[u8], value: Value) -> Result<Value, Fail> {
    let pairs = vec![in alloc; (Name::read(name).ok_or("no name")?, value)]?;
    Ok(Value::Rec(Members { pairs }))
}

// `value` with the field of this name behind its others.
fn with(value: Value, name: &[u8], last: Value) -> Result<Value, Fail> {
    match value {
        Value::Rec(mut members) => {
            members
                .pairs
                .push((Name::read(name).ok_or("no name")?, last))?;
            Ok(Value::Rec(members))
        }
        other => Ok(other),
    }
}

fn pair(alloc: Global, first: Value, second: Value) -> Result<Value, Fail> {
    Ok(Value::List(Items {
        values: vec![in alloc; first, second]?,
    }))
}

fn text(alloc: Global, bytes: &[u8]) -> Result<Value, Fail> {
    let bytes = Vec::from_slice(alloc, bytes)?;
    Ok(Value::Text(TextBytes::read(bytes).ok_or("a zero byte")?))
}

// The text of what the value is converted to, or of the fault.
fn answer(
    alloc: Global,
    from: &[u8],
    to: &[u8],
    value: &Value,
    limit: u32,
) -> Result<String, Fail> {
    let from = read_description(alloc, from).ok().ok_or("sender")?;
    let to = read_description(alloc, to).ok().ok_or("receiver")?;
    match convert_value(alloc, &from, &to, value, limit) {
        Ok(value) => Ok(value_text(alloc, &value)?),
        Err(fault) => Ok(format!(in alloc; "{fault}")?),
    }
}

#[test]
fn records_of_one_number(rt: HostRuntime) -> Result<(), Fail> {
    let rows: [(&[u8], &[u8], &[u8], i128, u32, &str); 19] = [
        (SMALL, WIDE_UNSIGNED, b"x", -1, 4096, "unfit x"),
        (
            WIDE_UNSIGNED,
            WIDE,
            b"x",
            9223372036854775807,
            4096,
            "{x=9223372036854775807}",
        ),
        (
            WIDE_UNSIGNED,
            WIDE,
            b"x",
            9223372036854775808,
            4096,
            "unfit x",
        ),
        (SMALL, Y_AND_X, b"x", 7, 4096, "{y=0,x=7}"),
        (COUNT_ALONE, COUNTED_B, b"n", 3, 28, "{n=3,b=[0,0,0]}"),
        (COUNT_ALONE, COUNTED_B, b"n", 3, 27, "large b"),
        (COUNT_ALONE, COUNTED_B, b"n", -1, 4096, "unfit b"),
        (COUNT_ALONE, COUNTED_B, b"n", 1099511627776, 4096, "large b"),
        (SMALL, DEFAULTS, b"x", 7, 4096, "{y=-1,x=7}"),
        (
            SMALL,
            RECORDS_OF_DEFAULTS,
            b"x",
            7,
            4096,
            "{p=[{k=5},{k=5}]}",
        ),
        (
            COUNT_ALONE,
            LIST_WITH_A_NEW_FIELD,
            b"n",
            2,
            32,
            "{p=[{z=7,s=null,k=0},{z=7,s=null,k=0}],n=2}",
        ),
        (COUNT_ALONE, LIST_WITH_A_NEW_FIELD, b"n", 2, 31, "large p"),
        (
            COUNT_ALONE,
            LIST_WITH_A_NEW_FIELD,
            b"n",
            2147483647,
            262144,
            "large p",
        ),
        (
            COUNT_ALONE,
            LIST_WITH_A_NEW_FIELD,
            b"n",
            2147483648,
            262144,
            "unfit n",
        ),
        (
            COUNT_ALONE,
            DEFAULTS_AT_EVERY_DEPTH,
            b"n",
            5,
            56,
            "{p=[{q={k=-9,l=[],n=0},r=[{k=-9,l=[],n=0}],t=null},{q={k=-9,l=[],n=0},r=[{k=-9,l=[],n=0}],t=null}]}",
        ),
        (COUNT_ALONE, INNER_COUNT, b"n", 5, 12, "{p={k=-9,l=[],n=0}}"),
        (
            COUNT_ALONE,
            STRINGS_AND_A_DEFAULT,
            b"n",
            1,
            12,
            "{s=[null,null],d=4294967295}",
        ),
        (COUNT_ALONE, TEXT_BEFORE_COUNT, b"n", 1, 12, "{s=null,n=1}"),
        (
            COUNT_ALONE,
            RECORD_OF_DEFAULTS,
            b"n",
            127,
            16,
            "{p={s=null,d=-32768,u=[null]},n=127}",
        ),
    ];
    for (from, to, name, number, limit, wanted) in rows {
        let value = numbers(rt.alloc(), &[(name, number)])?;
        assert_eq!(rt;
            answer(rt.alloc(), from, to, &value, limit)?.as_str(),
            wanted
        );
    }
    Ok(())
}

#[test]
fn numbers_of_every_kind(rt: HostRuntime) -> Result<(), Fail> {
    let rows: [(&[u8], [i128; 4], &str); 17] = [
        (B_AS_SIGNED_BYTE, [1, 200, -1, 9223372036854775808], "{b=1}"),
        (
            C_AS_SIGNED_BYTE,
            [1, 200, -1, 9223372036854775808],
            "unfit c",
        ),
        (
            C_AS_ENUMERATION,
            [1, 200, -1, 9223372036854775808],
            "{c=200}",
        ),
        (C_AS_BOOLEAN, [1, 2, -1, 9223372036854775808], "unfit c"),
        (C_AS_WIDE_BOOLEAN, [1, 1, -1, 9223372036854775808], "{c=1}"),
        (I_AS_BOOLEAN, [1, 200, -1, 9223372036854775808], "unfit i"),
        (I_AS_CHAR, [1, 200, -1, 9223372036854775808], "unfit i"),
        (I_AS_CHAR, [1, 200, 255, 9223372036854775808], "{i=255}"),
        (I_AS_CHAR, [1, 200, 256, 9223372036854775808], "unfit i"),
        (U_AS_SIGNED, [1, 200, -1, 9223372036854775808], "unfit u"),
        (
            U_AS_SIGNED,
            [1, 200, -1, 9223372036854775807],
            "{u=9223372036854775807}",
        ),
        (
            U_AS_UNSIGNED,
            [1, 200, -1, 18446744073709551615],
            "{u=18446744073709551615}",
        ),
        (
            I_AS_WIDE_ENUMERATION,
            [1, 200, -9223372036854775808, 9223372036854775808],
            "{i=-9223372036854775808}",
        ),
        (
            I_AS_SIGNED_HALF,
            [1, 200, -32769, 9223372036854775808],
            "unfit i",
        ),
        (
            I_AS_SIGNED_HALF,
            [1, 200, -32768, 9223372036854775808],
            "{i=-32768}",
        ),
        (
            I_AS_ENUMERATION,
            [1, 200, 2147483648, 9223372036854775808],
            "unfit i",
        ),
        (I_AS_UNSIGNED, [1, 200, -1, 9223372036854775808], "unfit i"),
    ];
    for (to, [b, c, i, u], wanted) in rows {
        let value = numbers(rt.alloc(), &[(b"b", b), (b"c", c), (b"i", i), (b"u", u)])?;
        assert_eq!(rt;
            answer(rt.alloc(), EVERY_KIND, to, &value, 8)?.as_str(),
            wanted
        );
    }
    Ok(())
}

#[test]
fn lists_and_texts(rt: HostRuntime) -> Result<(), Fail> {
    let alloc = rt.alloc();
    let five_six = pair(alloc, Value::Num(5), Value::Num(6))?;
    let counted = with(record(alloc, b"a", five_six)?, b"n", Value::Num(2))?;
    let first = with(numbers(alloc, &[(b"k", 5)])?, b"s", Value::Null)?;
    let second = with(numbers(alloc, &[(b"k", 300)])?, b"s", text(alloc, b"a")?)?;
    let records = record(alloc, b"p", pair(alloc, first, second)?)?;
    let absent = record(alloc, b"a", Value::Null)?;
    let seven_nine = numbers(alloc, &[(b"x", 7), (b"z", 9)])?;
    let rows: [(&[u8], &[u8], &Value, u32, &str); 7] = [
        (X_AND_Z, Y_AND_X, &seven_nine, 4096, "{y=0,x=7}"),
        (
            ARRAY_AND_COUNT,
            COUNT_AND_ARRAY,
            &counted,
            24,
            "{n=2,a=[5,6]}",
        ),
        (ARRAY_AND_COUNT, COUNT_AND_ARRAY, &counted, 23, "large a"),
        (ARRAY_AND_COUNT, THREE_INSIDE, &counted, 4096, "unfit a"),
        (
            TWO_RECORDS,
            TWO_NARROW_RECORDS,
            &records,
            4096,
            "unfit p[1].k",
        ),
        (TWO_RECORDS, TWO_NARROW_RECORDS, &records, 15, "large ."),
        (STRING_A, NUMBER_A, &absent, 4096, "clash a"),
    ];
    for (from, to, value, limit, wanted) in rows {
        assert_eq!(rt; answer(alloc, from, to, value, limit)?.as_str(), wanted);
    }
    Ok(())
}
