//! Circuits of files, and why a file has none.

use crate::tests::texts::file;
use circuit_core::{Circuit, push_op};
use gate_expand::{Counted, ExpandFault, expand};
use qasm_read::read;
use qc_base::NoMemory;
use std::alloc::Global;
use std::test::Fail;

/// The texts of a circuit's operations, a line each.
fn lines_of(alloc: Global, circuit: &Circuit) -> Result<Vec<u8>, NoMemory> {
    let mut lines = Vec::new(alloc);
    for op in circuit.ops() {
        push_op(&mut lines, circuit, op)?;
        lines.extend_from_slice(b"\n")?;
    }
    Ok(lines)
}

/// The operations that a file with this text makes.
fn made(alloc: Global, text: &[u8]) -> Result<Vec<u8>, Fail> {
    let program = read(alloc, &file(alloc, text)?)?;
    let circuit = expand(alloc, &program)?;
    Ok(lines_of(alloc, &circuit)?)
}

/// Why a file with this text has no circuit.
fn fault(alloc: Global, text: &[u8]) -> Result<Option<ExpandFault>, Fail> {
    let program = read(alloc, &file(alloc, text)?)?;
    Ok(expand(alloc, &program).err())
}

/// A gate of the library, applied to the first qubits.
fn library(alloc: Global, call: &[u8]) -> Result<Vec<u8>, Fail> {
    let mut text = Vec::from_slice(alloc, b"include \"qelib1.inc\"; qreg q[3]; ")?;
    text.extend_from_slice(call)?;
    made(alloc, &text)
}

#[test]
fn library_on_one_qubit(rt: HostRuntime) -> Result<(), Fail> {
    let alloc = rt.alloc();
    let rows: [(&[u8], &[u8]); 11] = [
        (b"u3(1,2,3) q[0];", b"U(1,2,3) q[0];\n"),
        (b"u2(1,2) q[0];", b"U((pi/2),1,2) q[0];\n"),
        (b"u1(1) q[0];", b"U(0,0,1) q[0];\n"),
        (b"id q[0];", b"U(0,0,0) q[0];\n"),
        (b"u(1,2,3) q[0];", b"U(1,2,3) q[0];\n"),
        (b"p(1) q[0];", b"U(0,0,1) q[0];\n"),
        (b"x q[0];", b"U(pi,0,pi) q[0];\n"),
        (b"y q[0];", b"U(pi,(pi/2),(pi/2)) q[0];\n"),
        (b"z q[0];", b"U(0,0,pi) q[0];\n"),
        (b"h q[0];", b"U((pi/2),0,pi) q[0];\n"),
        (b"s q[0];", b"U(0,0,(pi/2)) q[0];\n"),
    ];
    for (call, lines) in rows {
        assert!(rt; library(alloc, call)?.as_slice() == lines);
    }
    Ok(())
}

#[test]
fn library_on_one_qubit_more(rt: HostRuntime) -> Result<(), Fail> {
    let alloc = rt.alloc();
    let rows: [(&[u8], &[u8]); 8] = [
        (b"sdg q[0];", b"U(0,0,((-pi)/2)) q[0];\n"),
        (b"t q[0];", b"U(0,0,(pi/4)) q[0];\n"),
        (b"tdg q[0];", b"U(0,0,((-pi)/4)) q[0];\n"),
        (
            b"sx q[0];",
            b"U(0,0,((-pi)/2)) q[0];\nU((pi/2),0,pi) q[0];\nU(0,0,((-pi)/2)) q[0];\n",
        ),
        (
            b"sxdg q[0];",
            b"U(0,0,(pi/2)) q[0];\nU((pi/2),0,pi) q[0];\nU(0,0,(pi/2)) q[0];\n",
        ),
        (b"rx(1) q[0];", b"U(1,((-pi)/2),(pi/2)) q[0];\n"),
        (b"ry(1) q[0];", b"U(1,0,0) q[0];\n"),
        (b"rz(1) q[0];", b"U(0,0,1) q[0];\n"),
    ];
    for (call, lines) in rows {
        assert!(rt; library(alloc, call)?.as_slice() == lines);
    }
    Ok(())
}

#[test]
fn library_on_two_qubits(rt: HostRuntime) -> Result<(), Fail> {
    let alloc = rt.alloc();
    let rows: [(&[u8], &[u8]); 8] = [
        (b"cx q[0],q[1];", b"CX q[0],q[1];\n"),
        (
            b"cz q[0],q[1];",
            b"U((pi/2),0,pi) q[1];\nCX q[0],q[1];\nU((pi/2),0,pi) q[1];\n",
        ),
        (
            b"cy q[0],q[1];",
            b"U(0,0,((-pi)/2)) q[1];\nCX q[0],q[1];\nU(0,0,(pi/2)) q[1];\n",
        ),
        (
            b"ch q[0],q[1];",
            b"U((pi/2),0,pi) q[1];\nU(0,0,((-pi)/2)) q[1];\nCX q[0],q[1];\nU((pi/2),0,pi) q[1];\nU(0,0,(pi/4)) q[1];\nCX q[0],q[1];\nU(0,0,(pi/4)) q[1];\nU((pi/2),0,pi) q[1];\nU(0,0,(pi/2)) q[1];\nU(pi,0,pi) q[1];\nU(0,0,(pi/2)) q[0];\n",
        ),
        (
            b"swap q[0],q[1];",
            b"CX q[0],q[1];\nCX q[1],q[0];\nCX q[0],q[1];\n",
        ),
        (
            b"crx(1) q[0],q[1];",
            b"U(0,0,(pi/2)) q[1];\nCX q[0],q[1];\nU(((-1)/2),0,0) q[1];\nCX q[0],q[1];\nU((1/2),((-pi)/2),0) q[1];\n",
        ),
        (
            b"cry(1) q[0],q[1];",
            b"U((1/2),0,0) q[1];\nCX q[0],q[1];\nU(((-1)/2),0,0) q[1];\nCX q[0],q[1];\n",
        ),
        (
            b"crz(1) q[0],q[1];",
            b"U(0,0,(1/2)) q[1];\nCX q[0],q[1];\nU(0,0,((-1)/2)) q[1];\nCX q[0],q[1];\n",
        ),
    ];
    for (call, lines) in rows {
        assert!(rt; library(alloc, call)?.as_slice() == lines);
    }
    Ok(())
}

#[test]
fn library_on_three_qubits(rt: HostRuntime) -> Result<(), Fail> {
    let alloc = rt.alloc();
    let rows: [(&[u8], &[u8]); 2] = [
        (
            b"ccx q[0],q[1],q[2];",
            b"U((pi/2),0,pi) q[2];\nCX q[1],q[2];\nU(0,0,((-pi)/4)) q[2];\nCX q[0],q[2];\nU(0,0,(pi/4)) q[2];\nCX q[1],q[2];\nU(0,0,((-pi)/4)) q[2];\nCX q[0],q[2];\nU(0,0,(pi/4)) q[1];\nU(0,0,(pi/4)) q[2];\nU((pi/2),0,pi) q[2];\nCX q[0],q[1];\nU(0,0,(pi/4)) q[0];\nU(0,0,((-pi)/4)) q[1];\nCX q[0],q[1];\n",
        ),
        (
            b"cswap q[0],q[1],q[2];",
            b"CX q[2],q[1];\nU((pi/2),0,pi) q[2];\nCX q[1],q[2];\nU(0,0,((-pi)/4)) q[2];\nCX q[0],q[2];\nU(0,0,(pi/4)) q[2];\nCX q[1],q[2];\nU(0,0,((-pi)/4)) q[2];\nCX q[0],q[2];\nU(0,0,(pi/4)) q[1];\nU(0,0,(pi/4)) q[2];\nU((pi/2),0,pi) q[2];\nCX q[0],q[1];\nU(0,0,(pi/4)) q[0];\nU(0,0,((-pi)/4)) q[1];\nCX q[0],q[1];\nCX q[2],q[1];\n",
        ),
    ];
    for (call, lines) in rows {
        assert!(rt; library(alloc, call)?.as_slice() == lines);
    }
    Ok(())
}

#[test]
fn library_with_two_qubits_and_angles(rt: HostRuntime) -> Result<(), Fail> {
    let alloc = rt.alloc();
    let rows: [(&[u8], &[u8]); 5] = [
        (
            b"cu1(1) q[0],q[1];",
            b"U(0,0,(1/2)) q[0];\nCX q[0],q[1];\nU(0,0,((-1)/2)) q[1];\nCX q[0],q[1];\nU(0,0,(1/2)) q[1];\n",
        ),
        (
            b"cp(1) q[0],q[1];",
            b"U(0,0,(1/2)) q[0];\nCX q[0],q[1];\nU(0,0,((-1)/2)) q[1];\nCX q[0],q[1];\nU(0,0,(1/2)) q[1];\n",
        ),
        (
            b"cu3(1,2,3) q[0],q[1];",
            b"U(0,0,((3+2)/2)) q[0];\nU(0,0,((3-2)/2)) q[1];\nCX q[0],q[1];\nU(((-1)/2),0,((-(2+3))/2)) q[1];\nCX q[0],q[1];\nU((1/2),2,0) q[1];\n",
        ),
        (
            b"rxx(1) q[0],q[1];",
            b"U((pi/2),0,pi) q[0];\nU((pi/2),0,pi) q[1];\nCX q[0],q[1];\nU(0,0,1) q[1];\nCX q[0],q[1];\nU((pi/2),0,pi) q[1];\nU((pi/2),0,pi) q[0];\n",
        ),
        (
            b"rzz(1) q[0],q[1];",
            b"CX q[0],q[1];\nU(0,0,1) q[1];\nCX q[0],q[1];\n",
        ),
    ];
    for (call, lines) in rows {
        assert!(rt; library(alloc, call)?.as_slice() == lines);
    }
    Ok(())
}

#[test]
fn made_circuits(rt: HostRuntime) -> Result<(), Fail> {
    let alloc = rt.alloc();
    let rows: [(&[u8], &[u8]); 8] = [
        (
            b"include \"qelib1.inc\"; qreg q[1]; rz(1e-05*pi/2) q[0];",
            b"U(0,0,((1e-05*pi)/2)) q[0];\n",
        ),
        (
            b"qreg q[2]; qreg r[2]; CX q,r[1];",
            b"CX q[0],r[1];\nCX q[1],r[1];\n",
        ),
        (
            b"qreg q[2]; qreg r[1]; barrier r,q[1],q,r[0];",
            b"barrier r[0],q[1],q[0];\n",
        ),
        (
            b"qreg q[2]; creg c[2]; if(c==1) measure q[1] -> c[0]; measure q -> c;",
            b"if(c==1) measure q[1] -> c[0];\nmeasure q[0] -> c[0];\nmeasure q[1] -> c[1];\n",
        ),
        (
            b"gate g a,b { barrier b,a,b; CX b,a; } qreg q[2]; creg c[1]; if(c==2) g q[0],q[1];",
            b"barrier q[1],q[0];\nif(c==2) CX q[1],q[0];\n",
        ),
        (
            b"include \"qelib1.inc\"; gate a q { x q; } gate x q { U(7,0,0) q; } qreg q[1]; a q[0]; x q[0]; y q[0];",
            b"U(pi,0,pi) q[0];\nU(7,0,0) q[0];\nU(pi,(pi/2),(pi/2)) q[0];\n",
        ),
        (
            b"gate u1(t) q { U(t,0,0) q; } include \"qelib1.inc\"; include \"qelib1.inc\"; qreg q[1]; z q[0]; u1(5) q[0];",
            b"U(0,0,pi) q[0];\nU(5,0,0) q[0];\n",
        ),
        (
            b"opaque m(x) a,b; gate g(x,y) a,b { m(y-x) b,a; } qreg q[2]; g(1,2) q[0],q[1]; reset q;",
            b"m((2-1)) q[1],q[0];\nreset q[0];\nreset q[1];\n",
        ),
    ];
    for (text, lines) in rows {
        assert!(rt; made(alloc, text)?.as_slice() == lines);
    }
    Ok(())
}

#[test]
fn faults(rt: HostRuntime) -> Result<(), Fail> {
    let alloc = rt.alloc();
    let rows: [(&[u8], ExpandFault); 8] = [
        (b"include \"other.inc\";", ExpandFault::Include { at: 14 }),
        (b"qreg q[1]; h q[0];", ExpandFault::Undeclared { at: 25 }),
        (b"qreg q[1]; creg q[1];", ExpandFault::Redeclared { at: 25 }),
        (b"qreg q[1]; q q[0];", ExpandFault::Kind { at: 25 }),
        (b"qreg q[1]; U(0,0) q[0];", ExpandFault::Params { at: 25 }),
        (
            b"include \"qelib1.inc\"; qreg q[2]; h q[0],q[1];",
            ExpandFault::Args { at: 47 },
        ),
        (b"qreg q[1]; U(0,0,0) q[1];", ExpandFault::Index { at: 25 }),
        (b"qreg q[0];", ExpandFault::Zero { at: 14 }),
    ];
    for (text, cause) in rows {
        assert!(rt; fault(alloc, text)? == Some(cause));
    }
    Ok(())
}

#[test]
fn more_faults(rt: HostRuntime) -> Result<(), Fail> {
    let alloc = rt.alloc();
    let rows: [(&[u8], ExpandFault); 8] = [
        (
            b"qreg q[2]; qreg r[3]; CX q,r;",
            ExpandFault::Sizes { at: 36 },
        ),
        (
            b"qreg q[2]; CX q[0],q[0];",
            ExpandFault::Repeated { at: 25 },
        ),
        (
            b"qreg q[2]; creg c[2]; if(c==1) measure q -> c;",
            ExpandFault::SelfMeasure { at: 36 },
        ),
        (
            b"qreg q[3];\nopaque m a,b,c;\nm q[0],q[1],q[2];\n",
            ExpandFault::WideOp { at: 41 },
        ),
        (
            b"qreg q[129];",
            ExpandFault::TooMany {
                what: Counted::Qubits,
                at: 14,
            },
        ),
        (
            b"creg c[4097];",
            ExpandFault::TooMany {
                what: Counted::Bits,
                at: 14,
            },
        ),
        (
            b"opaque g a,b,c,d,e,f,g,h,i,j,k,l,m,n,o,p,q;",
            ExpandFault::TooMany {
                what: Counted::Formals,
                at: 14,
            },
        ),
        (
            b"opaque g a,b,a,d,e,f,g,h,i,j,k,l,m,n,o,p,q;",
            ExpandFault::Redeclared { at: 14 },
        ),
    ];
    for (text, cause) in rows {
        assert!(rt; fault(alloc, text)? == Some(cause));
    }
    Ok(())
}
