//! Whole circuit files.

use crate::tests::texts::file;
use qasm_read::{QasmFault, read};
use qc_base::NoMemory;
use std::alloc::Global;
use std::test::Fail;

/// Why a file with this text has no program.
fn fault(alloc: Global, text: &[u8]) -> Result<Option<QasmFault>, NoMemory> {
    Ok(read(alloc, &file(alloc, text)?).err())
}

#[test]
fn files_with_faults(rt: HostRuntime) -> Result<(), Fail> {
    let alloc = rt.alloc();
    let rows: [(&[u8], Option<QasmFault>); 6] = [
        (b"qreg Q[1];", Some(QasmFault::Lex { at: 19 })),
        (
            b"qreg q[18446744073709551616];",
            Some(QasmFault::BigNumber { at: 21 }),
        ),
        (
            b"qreg q[1]; U(0,0,0) q[0]",
            Some(QasmFault::Statement { at: 25 }),
        ),
        (
            b"qreg q[2];\nCX q[0],",
            Some(QasmFault::Statement { at: 25 }),
        ),
        (b"qreg q[1]; U(0,0,0) q[0]; // end", None),
        (b"", None),
    ];
    for (text, wanted) in rows {
        assert!(rt; fault(alloc, text)? == wanted);
    }
    assert!(rt; read(alloc, b"OPENQASM 3.0;").err() == Some(QasmFault::Header));
    assert!(rt; read(alloc, b"OPENQASM 2.0 ;").is_ok());
    Ok(())
}
