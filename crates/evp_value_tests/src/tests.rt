use evp_base::Name;
use evp_format::{Items, Members, TextBytes, Value, read_description};
use evp_value::{value_text, zero_value};
use std::alloc::Global;
use std::test::Fail;

fn text(alloc: Global, bytes: &[u8]) -> Result<Value, Fail> {
    let text = TextBytes::read(Vec::from_slice(alloc, bytes)?).ok_or("a zero byte")?;
    Ok(Value::Text(text))
}

fn list(alloc: Global, first: Value, second: Value) -> Result<Value, Fail> {
    Ok(Value::List(Items {
        values: vec![in alloc; first, second]?,
    }))
}

fn record(alloc: Global, name: &[u8], value: Value) -> Result<Value, Fail> {
    let name = Name::read(name).ok_or("no name")?;
    Ok(Value::Rec(Members {
        pairs: vec![in alloc; (name, value)]?,
    }))
}

#[test]
fn numbers_of_every_size(rt: HostRuntime) -> Result<(), Fail> {
    let numbers = [
        (0, "0"),
        (-128, "-128"),
        (127, "127"),
        (255, "255"),
        (-32768, "-32768"),
        (32767, "32767"),
        (65535, "65535"),
        (-2147483648, "-2147483648"),
        (2147483647, "2147483647"),
        (4294967295, "4294967295"),
        (-9223372036854775808, "-9223372036854775808"),
        (9223372036854775807, "9223372036854775807"),
        (18446744073709551615, "18446744073709551615"),
    ];
    for (number, written) in numbers {
        let text = value_text(rt.alloc(), &Value::Num(number))?;
        assert_eq!(rt; text.as_str(), written);
    }
    Ok(())
}

#[test]
fn texts_are_escaped(rt: HostRuntime) -> Result<(), Fail> {
    let texts: [(&[u8], &str); 7] = [
        (b"", r#""""#),
        (b"ab", r#""ab""#),
        (b"\"", r#""\"""#),
        (b"\\", r#""\\""#),
        (b"\x01\x1f", r#""\x01\x1f""#),
        (b" ~", r#"" ~""#),
        (b"\x7f\x80\xff", r#""\x7f\x80\xff""#),
    ];
    for (bytes, written) in texts {
        let text = value_text(rt.alloc(), &text(rt.alloc(), bytes)?)?;
        assert_eq!(rt; text.as_str(), written);
    }
    Ok(())
}

#[test]
fn lists_and_records_nest(rt: HostRuntime) -> Result<(), Fail> {
    let alloc = rt.alloc();
    let inner = list(alloc, Value::Num(5), Value::Null)?;
    let value = list(alloc, record(alloc, b"a", inner)?, text(alloc, b"x")?)?;
    assert_eq!(rt;
        value_text(alloc, &value)?.as_str(),
        r#"[{a=[5,null]},"x"]"#
    );
    let empty = Value::List(Items {
        values: Vec::new(alloc),
    });
    assert_eq!(rt;
        value_text(alloc, &record(alloc, b"n_1", empty)?)?.as_str(),
        "{n_1=[]}"
    );
    Ok(())
}

// One string, `s`.
const TEXT: &[u8] = b"NDF1\0\x04\0\x01\x01p\0\0\0\x04\0\x01\x01s\x06string\0\0\0\x04\0\0\0\0";

// Two records `e` of a number `k` whose default is 5.
const FIVES: &[u8] = b"NDF2\0\x04\0\x02\x01e\0\0\0\x04\0\x01\
      \x01k\x07integer\0\0\0\x04\0\0\0\0\0\0\0\0\0\0\0\0\0\0\0\0\0\0\0\x05\x01r\0\0\0\x08\0\x01\
      \x01p\x04e[2]\0\0\0\x04\0\0\0\0\0\0\0\0\0\0\0\0\0\0\0\0\0\0\0\0";

#[test]
fn zeros_of_formats(rt: HostRuntime) -> Result<(), Fail> {
    let alloc = rt.alloc();
    for (description, written) in [(TEXT, "{s=null}"), (FIVES, "{p=[{k=5},{k=5}]}")] {
        let format = read_description(alloc, description)
            .ok()
            .ok_or("description")?;
        let text = value_text(alloc, &zero_value(alloc, &format)?)?;
        assert_eq!(rt; text.as_str(), written);
    }
    Ok(())
}
