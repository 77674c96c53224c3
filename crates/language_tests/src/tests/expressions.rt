//! Expressions of whole circuit files.

use qasm_read::{Exp, Placed, QasmFault, Qop, Statement, read};
use qc_base::NoMemory;
use std::alloc::Global;
use std::test::Fail;

/// Writes an expression with parentheses around each negation and each pair.
fn print(exp: &Exp, out: &mut Vec<u8>) -> Result<(), NoMemory> {
    match exp {
        Exp::Real(word) | Exp::Id(word) => out.extend_from_slice(word.bytes())?,
        Exp::Int(n) => {
            let digits = format!(in *out.allocator(); "{n}")?;
            out.extend_from_slice(digits.as_bytes())?;
        }
        Exp::Pi => out.extend_from_slice(b"pi")?,
        Exp::Neg(a) => {
            out.extend_from_slice(b"(-")?;
            print(a.get(), out)?;
            out.push(b')')?;
        }
        Exp::Bin(op, a, b) => {
            out.push(b'(')?;
            print(a.get(), out)?;
            out.extend_from_slice(op.sign())?;
            print(b.get(), out)?;
            out.push(b')')?;
        }
        Exp::Fun(f, a) => {
            out.extend_from_slice(f.word())?;
            out.push(b'(')?;
            print(a.get(), out)?;
            out.push(b')')?;
        }
    }
    Ok(())
}

/// The first expression of a file's only statement, from its byte 15 on, read and printed.
fn printed(alloc: Global, exp: &[u8]) -> Result<Vec<u8>, QasmFault> {
    let mut bytes = Vec::from_slice(alloc, b"OPENQASM 2.0;U(")?;
    bytes.extend_from_slice(exp)?;
    bytes.extend_from_slice(b",0,0) q;")?;
    let program = read(alloc, &bytes)?;
    let mut out = Vec::new(alloc);
    if let [
        Placed {
            statement: Statement::Apply {
                op: Qop::U { params, .. },
            },
            ..
        },
    ] = program.items()
    {
        if let [exp, _, _] = params.items() {
            print(exp, &mut out)?;
        }
    }
    Ok(out)
}

#[test]
fn operands_of_each_operator(rt: HostRuntime) -> Result<(), Fail> {
    let alloc = rt.alloc();
    let rows: [(&[u8], &[u8]); 16] = [
        (b"-2^2", b"(-(2^2))"),
        (b"2^-2^2", b"(2^(-(2^2)))"),
        (b"2^3^2", b"(2^(3^2))"),
        (b"1-2-3", b"((1-2)-3)"),
        (b"a-b+1", b"((a-b)+1)"),
        (b"2/3*4", b"((2/3)*4)"),
        (b"1-2*3", b"(1-(2*3))"),
        (b"(1-2)*3", b"((1-2)*3)"),
        (b"sin(-pi/2)", b"sin(((-pi)/2))"),
        (b"sin(a)^b", b"(sin(a)^b)"),
        (b"1e-05*pi/2", b"((1e-05*pi)/2)"),
        (b"-a+b", b"((-a)+b)"),
        (b"--a", b"(-(-a))"),
        (b"-a^b*1", b"((-(a^b))*1)"),
        (b"a+-b*1", b"(a+((-b)*1))"),
        (b"a^-b+pi", b"((a^(-b))+pi)"),
    ];
    for (exp, wanted) in rows {
        assert_eq!(rt; printed(alloc, exp)?.as_slice(), wanted);
    }
    Ok(())
}

#[test]
fn malformed_expressions(rt: HostRuntime) -> Result<(), Fail> {
    let alloc = rt.alloc();
    for exp in [b"a+".as_slice(), b"(a", b"a)"] {
        assert!(rt; matches!(printed(alloc, exp), Err(QasmFault::Statement { at: 13 })));
    }
    Ok(())
}

/// The name `a` with so many of these before it and after it.
fn surrounded(
    alloc: Global,
    before: &[u8],
    after: &[u8],
    count: usize,
) -> Result<Vec<u8>, NoMemory> {
    let mut text = before.repeat(alloc, count)?;
    text.push(b'a')?;
    text.extend_from_slice(&after.repeat(alloc, count)?)?;
    Ok(text)
}

#[test]
fn at_most_1000_nodes(rt: HostRuntime) -> Result<(), Fail> {
    let alloc = rt.alloc();
    for count in [900, 999] {
        let exp = surrounded(alloc, b"-", b"", count)?;
        let wanted = surrounded(alloc, b"(-", b")", count)?;
        assert!(rt; printed(alloc, &exp)? == wanted);
    }
    let exp = surrounded(alloc, b"-", b"", 1000)?;
    assert!(rt; matches!(printed(alloc, &exp), Err(QasmFault::Large { at: 15 })));
    Ok(())
}

#[test]
fn at_most_100_parentheses(rt: HostRuntime) -> Result<(), Fail> {
    let alloc = rt.alloc();
    // the statement's own parenthesis is one of them
    let exp = surrounded(alloc, b"(", b")", 99)?;
    assert_eq!(rt; printed(alloc, &exp)?.as_slice(), b"a".as_slice());
    let exp = surrounded(alloc, b"(", b")", 100)?;
    assert!(rt; matches!(printed(alloc, &exp), Err(QasmFault::Deep { at: 114 })));
    Ok(())
}
