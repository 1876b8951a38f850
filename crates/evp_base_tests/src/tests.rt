use evp_base::{
    Escaped, FieldPath, Kind, Memory, Name, Order, Quoted, Step, begins_name, continues_name, fits,
    get_number, put_number,
};
use std::test::Fail;

#[test]
fn numbers_of_records(rt: HostRuntime) {
    let minus_one = [0xff; 4];
    assert_eq!(rt; get_number(&minus_one, Order::Little, Kind::Int, 4), -1);
    let top_bit = [0x80, 0, 0, 0, 0, 0, 0, 0];
    assert_eq!(rt;
        get_number(&top_bit, Order::Big, Kind::Unsigned, 8),
        1 << 63
    );
    assert_eq!(rt; get_number(&top_bit, Order::Big, Kind::Int, 8), -(1 << 63));
    let sixth = [0, 0, 0, 0, 0, 1, 0, 0];
    assert_eq!(rt; get_number(&sixth, Order::Little, Kind::Int, 8), 1 << 40);
    assert_eq!(rt; get_number(&[2, 0], Order::Little, Kind::Boolean, 2), 1);
}

#[test]
fn bytes_of_numbers(rt: HostRuntime) {
    let mut word = [0; 4];
    put_number(&mut word, Order::Little, 4, 7);
    assert_eq!(rt; word, [7, 0, 0, 0]);
    put_number(&mut word, Order::Big, 4, -2);
    assert_eq!(rt; word, [0xff, 0xff, 0xff, 0xfe]);
    let mut byte = [0];
    put_number(&mut byte, Order::Big, 1, 255);
    assert_eq!(rt; byte, [255]);
}

#[test]
fn ranges_of_kinds(rt: HostRuntime) {
    assert!(rt; fits(Kind::Int, 1, -128) && !fits(Kind::Int, 1, 128));
    assert!(rt; fits(Kind::Unsigned, 8, (1 << 64) - 1) && !fits(Kind::Unsigned, 8, -1));
    assert!(rt;
        fits(Kind::Char, 1, 255) && fits(Kind::Boolean, 8, 1) && !fits(Kind::Boolean, 8, 2)
    );
}

#[test]
fn names_are_read(rt: HostRuntime) {
    for text in ["x", "_a9", "Reading_2"] {
        let name = Name::read(text.as_bytes());
        assert_eq!(rt;
            name.map(|name| name.as_str() == text),
            Some(true),
            "{text}"
        );
    }
    for text in ["", "9a", "a-b", "a b", "é"] {
        assert!(rt; Name::read(text.as_bytes()).is_none(), "{text}");
    }
    assert!(rt; Name::read(&[b'a'; 64]).is_some());
    assert!(rt; Name::read(&[b'a'; 65]).is_none());
}

#[test]
fn paths_are_written(rt: HostRuntime) -> Result<(), Fail> {
    let mut path = FieldPath::new(rt.alloc());
    assert_eq!(rt; path.to_string(rt.alloc())?.as_str(), ".");
    path.push(Step::Field(Name::read(b"p").ok_or("p")?))?;
    path.push(Step::Index(1))?;
    path.push(Step::Field(Name::read(b"k").ok_or("k")?))?;
    assert_eq!(rt; path.to_string(rt.alloc())?.as_str(), "p[1].k");
    assert!(rt; path.clone()? == path);
    let others = FieldPath::from_steps(path.into_steps());
    assert_eq!(rt; others.steps().len(), 3);
    assert_eq!(rt; format!(in rt.alloc(); "{Memory}")?.as_str(), "memory");
    Ok(())
}

#[test]
fn bytes_of_names(rt: HostRuntime) {
    for (byte, begins, continues) in [
        (b'A', true, true),
        (b'z', true, true),
        (b'_', true, true),
        (b'0', false, true),
        (b'9', false, true),
        (b'-', false, false),
        (b' ', false, false),
        (0xc3, false, false),
    ] {
        assert_eq!(rt; begins_name(byte), begins, "{byte}");
        assert_eq!(rt; continues_name(byte), continues, "{byte}");
    }
}

#[test]
fn texts_in_quotes(rt: HostRuntime) -> Result<(), Fail> {
    let rows: [(&[u8], &str); 6] = [
        (b"", "\"\""),
        (b"a.ndr", "\"a.ndr\""),
        (b" ~", "\" ~\""),
        (b"a\"b\\c", "\"a\\\"b\\\\c\""),
        (&[0, 9, 10, 31], "\"\\x00\\x09\\x0a\\x1f\""),
        (&[127, 171, 255], "\"\\x7f\\xab\\xff\""),
    ];
    for (bytes, text) in rows {
        let shown = Quoted(bytes).to_string(rt.alloc())?;
        assert_eq!(rt; shown.as_str(), text);
    }
    assert_eq!(rt; Escaped::new(b'"').as_str(), "\\\"");
    assert_eq!(rt; Escaped::new(0xab).as_bytes().len(), 4);
    Ok(())
}
