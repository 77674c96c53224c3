//! Tokens and their faults.

use crate::tests::texts::many;
use qasm_tokens::{PlacedToken, TextTokens, Token, TokenFault, TokenSource};
use std::alloc::{AllocError, Global};
use std::process::Abort;
use std::test::Fail;

/// A text of 39 bytes.
const CIRCUIT: &[u8] = b"OPENQASM 2.0;\nqreg q[2];\nCX q[0],q[1];\n";

fn describe(out: &mut String, placed: &PlacedToken) -> Result<(), AllocError> {
    let at = placed.at;
    match &placed.token {
        Token::Keyword(keyword) => write!(out, "{at} {keyword:?} "),
        Token::Identifier(name) => {
            let name = str::from_utf8(name.bytes()).unwrap_or("?");
            write!(out, "{at} id {name} ")
        }
        Token::Integer(value) => write!(out, "{at} int {value} "),
        Token::Real(text) => {
            let text = str::from_utf8(text.bytes()).unwrap_or("?");
            write!(out, "{at} real {text} ")
        }
        Token::Text(text) => {
            let text = str::from_utf8(text.bytes()).unwrap_or("?");
            write!(out, "{at} text {text} ")
        }
        Token::Sign(sign) => write!(out, "{at} {sign:?} "),
    }
}

/// The tokens of a text, or its fault, in words.
fn described(alloc: Global, text: &[u8]) -> Result<String, Fail> {
    let mut out = String::new(alloc);
    let mut tokens = match TextTokens::new(alloc, text) {
        Ok(tokens) => tokens,
        Err(fault) => {
            write!(&mut out, "{fault:?}")?;
            return Ok(out);
        }
    };
    for _ in 0..text.len() {
        match tokens.next()? {
            Some(placed) => describe(&mut out, &placed)?,
            None => break,
        }
    }
    Ok(out)
}

fn reads_as(rt: &impl Abort, alloc: Global, table: &[(&[u8], &str)]) -> Result<(), Fail> {
    for (text, wanted) in table {
        let found = described(alloc, text)?;
        assert_eq!(rt; found.as_str(), *wanted);
    }
    Ok(())
}

#[test]
fn white_space_and_comments(rt: HostRuntime) -> Result<(), Fail> {
    let table: [(&[u8], &str); 6] = [
        (b"", ""),
        (b" \t\r\n", ""),
        (b"// to the end", ""),
        (b"q// \xff\0\"\r;\n;", "0 id q 10 Semicolon "),
        (b"2/ /3", "0 int 2 1 Slash 3 Slash 4 int 3 "),
        (b"//\n//\n\nq", "7 id q "),
    ];
    reads_as(&rt, rt.alloc(), &table)
}

#[test]
fn words_and_signs(rt: HostRuntime) -> Result<(), Fail> {
    let table: [(&[u8], &str); 10] = [
        (b"OPENQASM U CX", "0 OpenQasm 9 U 11 Cx "),
        (
            b"include qreg creg gate opaque",
            "0 Include 8 Qreg 13 Creg 18 Gate 23 Opaque ",
        ),
        (
            b"measure reset barrier if",
            "0 Measure 8 Reset 14 Barrier 22 If ",
        ),
        (
            b"pi sin cos tan exp ln sqrt",
            "0 Pi 3 Sin 7 Cos 11 Tan 15 Exp 19 Ln 22 Sqrt ",
        ),
        (
            b"q qreg1 q_A9 pis",
            "0 id q 2 id qreg1 8 id q_A9 13 id pis ",
        ),
        (
            b";,()[]{}",
            "0 Semicolon 1 Comma 2 LeftParenthesis 3 RightParenthesis 4 LeftBracket 5 RightBracket 6 LeftBrace 7 RightBrace ",
        ),
        (
            b"+-*/^->==",
            "0 Plus 1 Minus 2 Star 3 Slash 4 Caret 5 Arrow 7 Equals ",
        ),
        (b"--> -", "0 Minus 1 Arrow 4 Minus "),
        (
            b"include\"qelib1.inc\";",
            "0 Include 7 text qelib1.inc 19 Semicolon ",
        ),
        (b"\"\"\"//\"", "0 text  2 text // "),
    ];
    reads_as(&rt, rt.alloc(), &table)
}

#[test]
fn numbers(rt: HostRuntime) -> Result<(), Fail> {
    let table: [(&[u8], &str); 10] = [
        (
            b"0 00 0123 120",
            "0 int 0 2 int 0 3 int 0 5 int 0 6 int 123 10 int 120 ",
        ),
        (
            b"1e5 1. .5 1.e3 2.5E-10",
            "0 real 1e5 4 real 1. 7 real .5 10 real 1.e3 15 real 2.5E-10 ",
        ),
        (b"1e 1e+", "0 int 1 1 id e 3 int 1 4 id e 5 Plus "),
        (b"1.e 1.5e-", "0 real 1. 2 id e 4 real 1.5 7 id e 8 Minus "),
        (b"1.5.3 1..5", "0 real 1.5 3 real .3 6 real 1. 8 real .5 "),
        (b"00.5 0123e-4", "0 real 00.5 5 real 0123e-4 "),
        (b"1E+10q", "0 real 1E+10 5 id q "),
        (b"1e5e5", "0 real 1e5 3 id e5 "),
        (
            b"OPENQASM 2.0;\nqreg q[18446744073709551615];",
            "0 OpenQasm 9 real 2.0 12 Semicolon 14 Qreg 19 id q 20 LeftBracket 21 int 18446744073709551615 41 RightBracket 42 Semicolon ",
        ),
        (
            b"OPENQASM 2.0;\nqreg q[18446744073709551616];",
            "BigNumber { at: 21 }",
        ),
    ];
    reads_as(&rt, rt.alloc(), &table)
}

#[test]
fn places_without_a_token(rt: HostRuntime) -> Result<(), Fail> {
    let table: [(&[u8], &str); 14] = [
        (b"OPENQASM 2.0;\nqreg Q[1];", "Lex { at: 19 }"),
        (b"Openqasm", "Lex { at: 0 }"),
        (b"q UX", "Lex { at: 2 }"),
        (b"_q", "Lex { at: 0 }"),
        (b"q.", "Lex { at: 1 }"),
        (b".e3", "Lex { at: 0 }"),
        (b"a = b", "Lex { at: 2 }"),
        (b"===", "Lex { at: 2 }"),
        (b"q>", "Lex { at: 1 }"),
        (b"q \"a", "Lex { at: 2 }"),
        (b"\"a\n\"", "Lex { at: 0 }"),
        (b"caf\xc3\xa9", "Lex { at: 3 }"),
        (b"q\x0cq", "Lex { at: 1 }"),
        (b"99999999999999999999 !", "BigNumber { at: 0 }"),
    ];
    reads_as(&rt, rt.alloc(), &table)
}

#[test]
fn circuit_cut_to_each_length(rt: HostRuntime) -> Result<(), Fail> {
    for length in 0..=CIRCUIT.len() {
        let wanted = match length {
            1..=7 => Some(TokenFault::Lex { at: 0 }),
            26 => Some(TokenFault::Lex { at: 25 }),
            _ => None,
        };
        let found = TextTokens::new(rt.alloc(), &CIRCUIT[..length]).err();
        assert!(rt; found == wanted, "at {length}");
    }
    Ok(())
}

#[test]
fn at_most_64_bytes(rt: HostRuntime) -> Result<(), Fail> {
    let long = Some(TokenFault::LongWord { at: 0 });
    let table: [(&[u8], u8, &[u8], usize, Option<TokenFault>); 5] = [
        (b"", b'q', b"", 64, long),
        (b"1.", b'0', b"", 62, long),
        (b"\"", b'q', b"\"", 62, long),
        (b"1", b'0', b"", 18, None),
        (b"//", b'q', b"", 90, None),
    ];
    for (front, byte, end, count, fault) in table {
        let text = many(rt.alloc(), front, byte, count, end)?;
        assert!(rt;
            TextTokens::new(rt.alloc(), &text).is_ok(),
            "{count} of {byte}"
        );
        let longer = many(rt.alloc(), front, byte, count + 1, end)?;
        assert!(rt;
            TextTokens::new(rt.alloc(), &longer).err() == fault,
            "{count} of {byte}"
        );
    }
    let upper = many(rt.alloc(), b"", b'Q', 65, b"")?;
    assert!(rt; TextTokens::new(rt.alloc(), &upper).err() == Some(TokenFault::Lex { at: 0 }));
    let number = many(rt.alloc(), b"1", b'0', 80, b"")?;
    assert!(rt;
        TextTokens::new(rt.alloc(), &number).err() == Some(TokenFault::BigNumber { at: 0 })
    );
    Ok(())
}

#[test]
fn at_most_100_parentheses(rt: HostRuntime) -> Result<(), Fail> {
    let table: [(&[u8], &[u8], Option<TokenFault>); 9] = [
        (b"", b"", None),
        (b"", b"(", Some(TokenFault::Deep { at: 100 })),
        (b")))", b"(", Some(TokenFault::Deep { at: 103 })),
        (b"", b")(", None),
        (b"", b")((", Some(TokenFault::Deep { at: 102 })),
        (b"", b";(", None),
        (b"", b"{(", None),
        (b"(}", b"", None),
        (b"(]", b"", Some(TokenFault::Deep { at: 101 })),
    ];
    for (front, end, fault) in table {
        let text = many(rt.alloc(), front, b'(', 100, end)?;
        assert!(rt; TextTokens::new(rt.alloc(), &text).err() == fault);
    }
    Ok(())
}

#[test]
fn a_million_zeros(rt: HostRuntime) -> Result<(), Fail> {
    let text = many(rt.alloc(), b"", b'0', 1_000_000, b"x")?;
    assert!(rt; TextTokens::new(rt.alloc(), &text).is_ok());
    Ok(())
}
