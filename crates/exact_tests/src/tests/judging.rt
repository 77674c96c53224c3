//! Texts of schedules and certificates, and how they are judged.

use circuit_core::Circuit;
use derivation_check::CertFault;
use qc_base::{MemShelf, NoMemory, OpId};
use samples::{ALL, circuit_of, cx, zones_apart};
use schedule_play::PlayFault;
use std::alloc::Global;
use std::process::Abort;
use std::test::Fail;
use step_rules::Rule;
use trap_model::Trap;
use verify_core::{CheckFault, VerifyFault, check, one_judgement, one_verification, verify};

// One zone with room for three ions.
fn one_zone(alloc: Global) -> Result<Trap, Fail> {
    zones_apart(alloc, &[(3, &ALL)])
}

// Two operations on a pair of qubits, of which the first has to come before the second.
fn ordered(alloc: Global) -> Result<Circuit, Fail> {
    circuit_of(alloc, 2, 0, Vec::from_array(alloc, [cx(0, 1), cx(1, 0)])?)
}

// A text with this body.
fn with_body(alloc: Global, body: &[u8]) -> Result<Vec<u8>, NoMemory> {
    let mut text = Vec::from_slice(alloc, b"qccd schedule 1\nplace A q[0] q[1]\n")?;
    text.extend_from_slice(body)?;
    Ok(text)
}

// Whether the text with each body has this fault.
fn faults(rt: &impl Abort, alloc: Global, rows: &[(&[u8], CheckFault)]) -> Result<(), Fail> {
    let trap = one_zone(alloc)?;
    let circuit = ordered(alloc)?;
    for (body, fault) in rows {
        let text = with_body(alloc, body)?;
        assert!(rt; check(alloc, &trap, &circuit, &text).err() == Some(*fault));
    }
    Ok(())
}

#[test]
fn a_legal_schedule(rt: HostRuntime) -> Result<(), Fail> {
    let alloc = rt.alloc();
    let trap = one_zone(alloc)?;
    let circuit = ordered(alloc)?;
    let body =
        b"steps 3\nstep 1\nop A 0 ions 0 1 : CX q[0],q[1];\nstep 2\nstep 3\nop A 1 ions 1 0 : CX q[1],q[0];\nend\n";
    let text = with_body(alloc, body)?;
    match check(alloc, &trap, &circuit, &text) {
        Ok(checked) => {
            assert!(rt; checked.placement.lists().len() == 1);
            assert!(rt; checked.schedule.steps().len() == 3);
        }
        Err(_) => assert!(rt; false),
    }
    one_judgement();
    Ok(())
}

#[test]
fn texts_with_a_bad_line(rt: HostRuntime) -> Result<(), Fail> {
    let rows: [(&[u8], CheckFault); 4] = [
        (b"", CheckFault::Text(3)),
        (b"steps 01\nend\n", CheckFault::Text(3)),
        (b"steps 1\nend\n", CheckFault::Text(4)),
        (b"steps 0\nend\n\n", CheckFault::Text(5)),
    ];
    faults(&rt, rt.alloc(), &rows)
}

#[test]
fn schedules_that_are_not_legal(rt: HostRuntime) -> Result<(), Fail> {
    let rows: [(&[u8], CheckFault); 3] = [
        (
            b"steps 1\nstep 1\nswap A 1\nend\n",
            CheckFault::Illegal(PlayFault::Broken {
                step: 1,
                action: 1,
                rule: Rule::Index,
            }),
        ),
        (
            b"steps 1\nstep 1\nop A 1 ions 1 0 : CX q[1],q[0];\nend\n",
            CheckFault::Illegal(PlayFault::Early {
                step: 1,
                op: OpId(1),
                needs: OpId(0),
            }),
        ),
        (
            b"steps 0\nend\n",
            CheckFault::Illegal(PlayFault::Missing { op: OpId(0) }),
        ),
    ];
    faults(&rt, rt.alloc(), &rows)
}

// What is answered of the schedule with this body, and of a certificate with these lines after its first.
fn verified(
    alloc: Global,
    circuit: &Circuit,
    body: &[u8],
    lines: &[u8],
    fails: Vec<u64>,
) -> Result<Result<u32, VerifyFault>, Fail> {
    let trap = one_zone(alloc)?;
    let text = with_body(alloc, body)?;
    let mut cert = Vec::from_slice(alloc, b"qccd certificate 1\n")?;
    cert.extend_from_slice(lines)?;
    let mut shelf = MemShelf::new(alloc, fails);
    shelf.add("c", &cert)?;
    one_verification();
    Ok(verify(alloc, &trap, circuit, &text, &mut shelf, "c"))
}

#[test]
fn one_operation_takes_a_step(rt: HostRuntime) -> Result<(), Fail> {
    let alloc = rt.alloc();
    let circuit = circuit_of(alloc, 2, 0, Vec::from_array(alloc, [cx(0, 1)])?)?;
    let body = b"steps 1\nstep 1\nop A 0 ions 0 1 : CX q[0],q[1];\nend\n";
    let rows: [(&[u8], Result<u32, VerifyFault>); 5] = [
        (b"encoding 1\nrefutes 0\n6 -5 0 5 4 0\n", Ok(1)),
        (
            b"encoding 1\nrefutes 0\n6 5 0 5 4 0\n",
            Err(VerifyFault::Cert(CertFault::Bad { n: 4 })),
        ),
        (
            b"encoding 1\nrefutes 0\n",
            Err(VerifyFault::Cert(CertFault::NotRefuting)),
        ),
        (
            b"encoding 1\nrefutes 1\n6 -5 0 5 4 0\n",
            Err(VerifyFault::Cert(CertFault::NotRefuting)),
        ),
        (
            b"encoding 1\nrefutes 0\n6 -5 0 5 4 0",
            Err(VerifyFault::Cert(CertFault::Line { n: 4 })),
        ),
    ];
    for (lines, answer) in &rows {
        assert!(rt; verified(alloc, &circuit, body, lines, Vec::new(alloc))? == *answer);
    }
    let lines = b"encoding 1\nrefutes 0\n6 -5 0 5 4 0\n";
    let fails = vec![in alloc; 1]?;
    assert!(rt; verified(alloc, &circuit, body, lines, fails)? == Err(VerifyFault::Failed));
    Ok(())
}

#[test]
fn no_operation_takes_no_step(rt: HostRuntime) -> Result<(), Fail> {
    let alloc = rt.alloc();
    let circuit = circuit_of(alloc, 2, 0, Vec::new(alloc))?;
    let rows: [(&[u8], Result<u32, VerifyFault>); 2] = [
        (b"encoding 2\nrefutes nothing\n", Ok(0)),
        (
            b"encoding 2\nrefutes nothing\n\n",
            Err(VerifyFault::Cert(CertFault::Line { n: 4 })),
        ),
    ];
    for (lines, answer) in &rows {
        assert!(rt;
            verified(alloc, &circuit, b"steps 0\nend\n", lines, Vec::new(alloc))? == *answer
        );
    }
    Ok(())
}
