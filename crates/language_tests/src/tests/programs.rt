//! Each kind of statement, whole and without its last token.

use crate::tests::texts::{file, many};
use qasm_read::{Program, QasmFault, Statement, read};
use std::alloc::Global;
use std::process::Abort;
use std::test::Fail;

/// Which statement it is, by a number of ours.
fn kind(program: &Program) -> Option<u8> {
    let placed = program.items().first()?;
    Some(match &placed.statement {
        Statement::Include { .. } => 0,
        Statement::Register { quantum: true, .. } => 1,
        Statement::Register { quantum: false, .. } => 2,
        Statement::Gate { .. } => 3,
        Statement::Opaque { .. } => 4,
        Statement::Apply { .. } => 5,
        Statement::Barrier { .. } => 6,
        Statement::If { .. } => 7,
    })
}

/// The program that a file with this text is.
fn program(alloc: Global, text: &[u8]) -> Result<Program, QasmFault> {
    read(alloc, &file(alloc, text)?)
}

/// The statement is read, and without its last token it isn't.
fn holds(alloc: Global, text: &[u8], wanted: u8) -> bool {
    let whole = match program(alloc, text) {
        Ok(program) => {
            kind(&program) == Some(wanted)
                && program.items().len() == 1
                && program
                    .items()
                    .first()
                    .is_some_and(|placed| placed.at == 14)
        }
        Err(_) => false,
    };
    let cut = match text.split_last() {
        Some((_, front)) => matches!(program(alloc, front), Err(QasmFault::Statement { at: 14 })),
        None => false,
    };
    whole && cut
}

fn all_hold(rt: &impl Abort, alloc: Global, rows: &[(&[u8], u8)]) {
    for (text, wanted) in rows {
        assert!(rt; holds(alloc, text, *wanted), "kind {wanted}");
    }
}

#[test]
fn includes_and_registers(rt: HostRuntime) {
    let rows: [(&[u8], u8); 3] = [
        (b"include \"qelib1.inc\";", 0),
        (b"qreg a[1];", 1),
        (b"creg a[1];", 2),
    ];
    all_hold(&rt, rt.alloc(), &rows);
}

#[test]
fn gates_with_and_without_a_body(rt: HostRuntime) {
    let rows: [(&[u8], u8); 2] = [
        (b"gate a(b) a,b { CX a,b; barrier a; }", 3),
        (b"opaque a() b;", 4),
    ];
    all_hold(&rt, rt.alloc(), &rows);
}

#[test]
fn barriers_and_conditions(rt: HostRuntime) {
    let rows: [(&[u8], u8); 2] = [(b"barrier a,b[1];", 6), (b"if(a==1) reset a;", 7)];
    all_hold(&rt, rt.alloc(), &rows);
}

#[test]
fn each_operation(rt: HostRuntime) {
    let rows: [(&[u8], u8); 6] = [
        (b"U(1,0.0) a;", 5),
        (b"CX a,b;", 5),
        (b"a b;", 5),
        (b"a() b;", 5),
        (b"measure a -> b;", 5),
        (b"reset a;", 5),
    ];
    all_hold(&rt, rt.alloc(), &rows);
}

#[test]
fn the_header(rt: HostRuntime) -> Result<(), Fail> {
    let alloc = rt.alloc();
    assert!(rt; read(alloc, b"OPENQASM 2.0;").is_ok_and(|program| program.items().is_empty()));
    assert!(rt; matches!(read(alloc, b"OPENQASM 3.0;"), Err(QasmFault::Header)));
    Ok(())
}

/// A large expression comes before a place where no statement begins, and only one of a whole statement.
#[test]
fn large(rt: HostRuntime) -> Result<(), Fail> {
    let alloc = rt.alloc();
    let cut = many(alloc, b"U(", b'-', 1000, b"b) a")?;
    assert!(rt; matches!(program(alloc, &cut), Err(QasmFault::Statement { at: 14 })));
    let whole = many(alloc, b"U(", b'-', 1000, b"b) a;->")?;
    assert!(rt; matches!(program(alloc, &whole), Err(QasmFault::Large { at: 16 })));
    Ok(())
}
