//! Worked texts: trees, and each fault at its edge.

use evp_expr::{ExprFault, Node, parse};
use std::alloc::{AllocError, Global};
use std::str;
use std::test::Fail;

/// A node with its place.
fn shown_node(alloc: Global, node: &Node) -> Result<String, AllocError> {
    match node {
        Node::Number(number) => format!(in alloc; "{number}"),
        Node::Name(at, name) => format!(in alloc; "{name}@{at}"),
        Node::Field(at, name) => format!(in alloc; ".{name}@{at}"),
        Node::Open(at) => format!(in alloc; "[@{at}"),
        Node::Index(at) => format!(in alloc; "]@{at}"),
        Node::Length => format!(in alloc; "len"),
        Node::Same(text) => {
            format!(in alloc;
                "same \"{}\"",
                str::from_utf8(text.as_bytes()).unwrap_or("?")
            )
        }
        Node::Signed(at, sign) => format!(in alloc; "{sign:?}@{at}"),
        Node::Shortcut(operator, count) => format!(in alloc; "{operator:?}+{count}"),
        Node::Joined(at, operator) => format!(in alloc; "{operator:?}@{at}"),
    }
}

/// The nodes of a copy of a text's tree, or its fault.
fn answer(alloc: Global, text: &str) -> Result<String, Fail> {
    match parse(alloc, text) {
        Ok(expr) => {
            let copied = expr.copy(alloc)?;
            let mut nodes = String::new(alloc);
            for node in copied.nodes() {
                nodes.push_str(shown_node(alloc, node)?.as_str())?;
                nodes.push_str(" ")?;
            }
            Ok(nodes)
        }
        Err(fault) => Ok(format!(in alloc; "{fault:?}")?),
    }
}

#[test]
fn texts_have_their_trees_and_faults(rt: HostRuntime) -> Result<(), Fail> {
    let cases = [
        ("-7/2", "7 Negate@0 2 Divide@2 "),
        ("-7%2", "7 Negate@0 2 Remainder@2 "),
        ("0 && 1/0", "0 And+3 1 0 Divide@6 And@2 "),
        (
            "a-b*c-d",
            "a@0 b@2 c@4 Multiply@3 Subtract@1 d@6 Subtract@5 ",
        ),
        ("a%b*c", "a@0 b@2 Remainder@1 c@4 Multiply@3 "),
        ("a||b&&!c", "a@0 Or+5 b@3 And+2 c@7 Not@6 And@4 Or@1 "),
        ("(1+2)\t*3", "1 2 Add@2 3 Multiply@6 "),
        ("a.b[1].c", "a@0 .b@2 [@3 1 ]@3 .c@7 "),
        ("len(x)", "x@4 len "),
        ("len", "len@0 "),
        ("len.len + same", "len@0 .len@4 same@10 Add@8 "),
        ("same(n,\"\")", "n@5 same \"\" "),
        ("same(a.b, \"é(\")", "a@5 .b@7 same \"é(\" "),
        ("007", "7 "),
        (
            "170141183460469231731687303715884105727+1",
            "170141183460469231731687303715884105727 1 Add@39 ",
        ),
        ("170141183460469231731687303715884105728", "Literal(0)"),
        (
            "( 99999999999999999999999999999999999999999 $",
            "Literal(2)",
        ),
        ("1<2<3", "Unexpected(3)"),
        ("x ==", "Unexpected(4)"),
        ("x $ 1", "Token(2)"),
        ("x = 1", "Token(2)"),
        ("a[1] \"no", "Token(5)"),
        ("\"a\\\"b\"", "Token(0)"),
        ("1x", "Unexpected(1)"),
        ("a[", "Unexpected(2)"),
        ("a.", "Unexpected(2)"),
        ("a b", "Unexpected(2)"),
        ("-", "Unexpected(1)"),
        ("()", "Unexpected(1)"),
        ("", "Unexpected(0)"),
        (" \t ", "Unexpected(3)"),
        ("a.len(x)", "Unexpected(5)"),
        ("len(len(x))", "Unexpected(7)"),
        ("same(\"x\",n)", "Unexpected(5)"),
        ("f(x)", "Unexpected(1)"),
        ("1)", "Unexpected(1)"),
    ];
    for (text, want) in cases {
        assert_eq!(rt; answer(rt.alloc(), text)?.as_str(), want, "at {text}");
    }
    Ok(())
}

/// So many openings, a number, and as many closings.
fn nested(alloc: Global, opening: &str, closing: &str, count: usize) -> Result<String, AllocError> {
    let mut text = opening.repeat(alloc, count)?;
    text.push_str("1")?;
    text.push_str(closing.repeat(alloc, count)?.as_str())?;
    Ok(text)
}

#[test]
fn levels_and_lengths_end_at_their_edges(rt: HostRuntime) -> Result<(), AllocError> {
    let alloc = rt.alloc();
    for (opening, closing) in [("(", ")"), ("a[", "]"), ("-", ""), ("!", "")] {
        let at = (65 * opening.len() - 1) as u32;
        assert!(rt;
            parse(alloc, nested(alloc, opening, closing, 64)?.as_str()).is_ok(),
            "{opening}"
        );
        assert_eq!(rt;
            parse(alloc, nested(alloc, opening, closing, 65)?.as_str()).err(),
            Some(ExprFault::Deep(at))
        );
    }
    let mixed = nested(alloc, "-(!a[", "])", 16)?;
    assert!(rt; parse(alloc, mixed.as_str()).is_ok());
    let chain = nested(alloc, "1+", "", 2000)?;
    assert!(rt; parse(alloc, chain.as_str()).is_ok());
    let spaces = " ".repeat(alloc, 4095)?;
    assert!(rt; parse(alloc, format!(in alloc; "1{spaces}")?.as_str()).is_ok());
    assert_eq!(rt;
        parse(alloc, format!(in alloc; "1{spaces} ")?.as_str()).err(),
        Some(ExprFault::Long)
    );
    let name = "n".repeat(alloc, 64)?;
    assert!(rt; parse(alloc, name.as_str()).is_ok());
    assert_eq!(rt;
        parse(alloc, format!(in alloc; "{name}n")?.as_str()).err(),
        Some(ExprFault::Token(0))
    );
    Ok(())
}
