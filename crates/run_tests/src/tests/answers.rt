//! Answers with their statuses and lines, and lines of all kinds of pieces.

use derivation_check::CertFault;
use placement::PlaceFault;
use qasm_read::QasmFault;
use qc_base::{MemSink, Name, NoMemory, OpId, PlaceId, Qubit};
use run_answers::{Answer, File, Large, Line, Names};
use samples::{ALL, circuit_of, zones_apart};
use schedule_play::PlayFault;
use std::alloc::Global;
use std::process::Abort;
use std::test::Fail;
use step_rules::{GivenFault, Rule};
use trap_model::{Counted, TrapFault};
use trap_read::{KeyAt, Section, TrapText};

/// Whether the line is this text.
fn reads(rt: &impl Abort, alloc: Global, line: &Line, text: &[u8]) -> Result<(), Fail> {
    let mut sink = MemSink::new(alloc, 7, 100, Vec::new(alloc))?;
    assert!(rt; line.write_to(&mut sink).is_ok());
    assert!(rt; sink.bytes() == text);
    Ok(())
}

/// Whether each answer has this status and this line.
fn answers(rt: &impl Abort, alloc: Global, rows: &[(Answer, u8, &[u8])]) -> Result<(), Fail> {
    for (answer, status, text) in rows {
        assert!(rt; answer.status() == *status);
        reads(rt, alloc, &answer.line(Names::none()), text)?;
    }
    Ok(())
}

#[test]
fn words_files_and_devices(rt: HostRuntime) -> Result<(), Fail> {
    let rows: [(Answer, u8, &[u8]); 8] = [
        (Answer::Ok, 0, b""),
        (Answer::Usage, 2, b"qccd: usage\n"),
        (
            Answer::ReadFault {
                file: File::Schedule,
            },
            3,
            b"qccd: cannot read schedule\n",
        ),
        (
            Answer::Long { file: File::Trap },
            3,
            b"qccd: trap is too long\n",
        ),
        (
            Answer::ReadFault {
                file: File::Certificate,
            },
            3,
            b"qccd: cannot read certificate\n",
        ),
        (Answer::Text { line: 6 }, 11, b"qccd: schedule line 6\n"),
        (Answer::WriteFault, 10, b"qccd: cannot write\n"),
        (Answer::NoMemory, 12, b"qccd: no memory\n"),
    ];
    answers(&rt, rt.alloc(), &rows)
}

#[test]
fn faults_of_a_circuit(rt: HostRuntime) -> Result<(), Fail> {
    let at = 25;
    let rows: [(Answer, u8, &[u8]); 7] = [
        (
            Answer::Qasm(QasmFault::Header),
            4,
            b"qccd: circuit: no header\n",
        ),
        (
            Answer::Qasm(QasmFault::Lex { at: u64::MAX }),
            4,
            b"qccd: circuit byte 18446744073709551615: no token\n",
        ),
        (
            Answer::Qasm(QasmFault::LongWord { at }),
            4,
            b"qccd: circuit byte 25: long word\n",
        ),
        (
            Answer::Qasm(QasmFault::BigNumber { at }),
            4,
            b"qccd: circuit byte 25: large number\n",
        ),
        (
            Answer::Qasm(QasmFault::Deep { at }),
            4,
            b"qccd: circuit byte 25: too deep\n",
        ),
        (
            Answer::Qasm(QasmFault::Statement { at }),
            4,
            b"qccd: circuit byte 25: no statement\n",
        ),
        (
            Answer::Qasm(QasmFault::Large { at }),
            4,
            b"qccd: circuit byte 25: large angle\n",
        ),
    ];
    answers(&rt, rt.alloc(), &rows)
}

#[test]
fn faults_of_a_schedule(rt: HostRuntime) -> Result<(), Fail> {
    let step = 3;
    let rows: [(Answer, u8, &[u8]); 5] = [
        (
            Answer::Illegal(PlayFault::Broken {
                step,
                action: 2,
                rule: Rule::NotAble,
            }),
            11,
            b"qccd: step 3 action 2: notable\n",
        ),
        (
            Answer::Illegal(PlayFault::Shared {
                step,
                first: 1,
                second: 2,
            }),
            11,
            b"qccd: step 3 actions 1 and 2 share\n",
        ),
        (
            Answer::Illegal(PlayFault::Early {
                step,
                op: OpId(1),
                needs: OpId(0),
            }),
            11,
            b"qccd: step 3 operation 1 before 0\n",
        ),
        (
            Answer::Illegal(PlayFault::Twice { step, op: OpId(7) }),
            11,
            b"qccd: step 3 operation 7 twice\n",
        ),
        (
            Answer::Illegal(PlayFault::Missing { op: OpId(0) }),
            11,
            b"qccd: operation 0 missing\n",
        ),
    ];
    answers(&rt, rt.alloc(), &rows)
}

#[test]
fn limits_and_searches(rt: HostRuntime) -> Result<(), Fail> {
    let rows: [(Answer, u8, &[u8]); 6] = [
        (
            Answer::TooLarge {
                what: Large::Ions,
                count: 17,
            },
            7,
            b"qccd: too large: 17 ions\n",
        ),
        (
            Answer::TooLarge {
                what: Large::Places,
                count: 49,
            },
            7,
            b"qccd: too large: 49 places\n",
        ),
        (
            Answer::TooLarge {
                what: Large::Operations,
                count: 201,
            },
            7,
            b"qccd: too large: 201 operations\n",
        ),
        (
            Answer::TooLarge {
                what: Large::Steps,
                count: u64::MAX,
            },
            7,
            b"qccd: too large: 18446744073709551615 steps\n",
        ),
        (
            Answer::NoneWithin { max: 0 },
            8,
            b"qccd: no schedule of at most 0 steps\n",
        ),
        (
            Answer::Budget { budget: 100_000 },
            9,
            b"qccd: budget of 100000 spent\n",
        ),
    ];
    answers(&rt, rt.alloc(), &rows)
}

#[test]
fn faults_of_a_certificate(rt: HostRuntime) -> Result<(), Fail> {
    let rows: [(Answer, u8, &[u8]); 4] = [
        (
            Answer::Cert(CertFault::Line { n: 2 }),
            11,
            b"qccd: certificate line 2\n",
        ),
        (
            Answer::Cert(CertFault::Bad { n: 4 }),
            11,
            b"qccd: certificate line 4 is no resolution\n",
        ),
        (
            Answer::Cert(CertFault::NotRefuting),
            11,
            b"qccd: certificate refutes nothing asked\n",
        ),
        (
            Answer::Cert(CertFault::Endless),
            11,
            b"qccd: certificate is endless\n",
        ),
    ];
    answers(&rt, rt.alloc(), &rows)
}

#[test]
fn names_are_cut_and_cleaned(rt: HostRuntime) -> Result<(), Fail> {
    let alloc = rt.alloc();
    let odd = Line::start(b"name ")
        .name(b"a\n~\x7f\xc3\xa9 ")
        .text(b" twice");
    reads(&rt, alloc, &odd, b"qccd: name a?~???  twice\n".as_slice())?;
    let long = vec![in alloc; b'z'; 65]?;
    let line = Line::empty().name(&long).number(0);
    let mut text = Vec::from_slice(alloc, b"qccd: ")?;
    text.extend_from_slice(&long[..64])?;
    text.extend_from_slice(b"0\n")?;
    reads(&rt, alloc, &line, &text)
}

#[test]
fn a_line_that_fails_in_its_middle(rt: HostRuntime) -> Result<(), Fail> {
    let alloc = rt.alloc();
    let mut sink = MemSink::new(alloc, 4, 100, vec![in alloc; 3]?)?;
    let answer = Answer::Text { line: 12 };
    assert!(rt; answer.line(Names::none()).write_to(&mut sink).is_err());
    assert!(rt; sink.bytes() == b"qccd: sche".as_slice());
    Ok(())
}

/// Whether the answer to a trap's file has this line.
fn says_of_trap(rt: &impl Abort, alloc: Global, fault: TrapText, text: &[u8]) -> Result<(), Fail> {
    let answer = Answer::Trap(fault);
    assert!(rt; answer.status() == 5);
    reads(rt, alloc, &answer.line(Names::none()), text)
}

fn key(alloc: Global, section: Section, row: u32, name: &[u8]) -> Result<KeyAt, NoMemory> {
    let key = Name::from_bytes(alloc, name)?;
    Ok(KeyAt { section, row, key })
}

#[test]
fn keys_of_a_trap(rt: HostRuntime) -> Result<(), Fail> {
    let alloc = rt.alloc();
    let fault = TrapText::Toml;
    says_of_trap(&rt, alloc, fault, b"qccd: trap: not TOML\n")?;
    let key_of_top = key(alloc, Section::Top, 0, b"zones")?;
    let fault = TrapText::Extra { key: key_of_top };
    says_of_trap(&rt, alloc, fault, b"qccd: trap: top key zones: unknown\n")?;
    let key_of_zone = key(alloc, Section::Zone, 1, b"capacity")?;
    let fault = TrapText::Kind { key: key_of_zone };
    let text = b"qccd: trap: zone 1 key capacity: wrong kind\n";
    says_of_trap(&rt, alloc, fault, text)?;
    let key_of_join = key(alloc, Section::Join, 2, b"ends")?;
    let fault = TrapText::Missing { key: key_of_join };
    says_of_trap(&rt, alloc, fault, b"qccd: trap: join 2 key ends: missing\n")?;
    let key_of_place = key(alloc, Section::Place, 0, b"B")?;
    let fault = TrapText::Range { key: key_of_place };
    says_of_trap(
        &rt,
        alloc,
        fault,
        b"qccd: trap: place key B: out of range\n",
    )
}

#[test]
fn parts_of_a_trap(rt: HostRuntime) -> Result<(), Fail> {
    let alloc = rt.alloc();
    let zone = Name::from_bytes(alloc, b"A")?;
    let fault = TrapText::Trap(TrapFault::Capacity { zone });
    says_of_trap(&rt, alloc, fault, b"qccd: trap: capacity of zone A\n")?;
    let name = Name::from_bytes(alloc, b"s")?;
    let fault = TrapText::Trap(TrapFault::Double { name });
    says_of_trap(&rt, alloc, fault, b"qccd: trap: name s twice\n")?;
    let what = Counted::Slots;
    let fault = TrapText::Trap(TrapFault::TooMany { what });
    says_of_trap(&rt, alloc, fault, b"qccd: trap: too many slots\n")?;
    let fault = TrapText::Trap(TrapFault::EndTaken { row: 3 });
    says_of_trap(&rt, alloc, fault, b"qccd: trap: join 3 taken\n")
}

/// Whether the answer to a placement has this line.
fn says_of_placement(
    rt: &impl Abort,
    alloc: Global,
    fault: PlaceFault,
    text: &[u8],
) -> Result<(), Fail> {
    let trap = zones_apart(alloc, &[(4, &ALL)])?;
    let circuit = circuit_of(alloc, 3, 0, Vec::new(alloc))?;
    let names = Names {
        circuit: Some(&circuit),
        trap: Some(&trap),
    };
    let answer = Answer::Place(fault);
    assert!(rt; answer.status() == 6);
    reads(rt, alloc, &answer.line(names), text)
}

#[test]
fn placements(rt: HostRuntime) -> Result<(), Fail> {
    let alloc = rt.alloc();
    let fault = PlaceFault::TooManyQubits { qubits: 5, room: 4 };
    let text = b"qccd: placement: 5 qubits, room for 4\n";
    says_of_placement(&rt, alloc, fault, text)?;
    let label = Name::from_bytes(alloc, b"r[0]\n")?;
    let zone = PlaceId(0);
    let fault = PlaceFault::UnknownQubit { zone, label };
    let text = b"qccd: placement: unknown qubit r[0]?\n";
    says_of_placement(&rt, alloc, fault, text)?;
    let fault = PlaceFault::Given(GivenFault::Repeated { qubit: Qubit(2) });
    says_of_placement(&rt, alloc, fault, b"qccd: placement: q[2] twice\n")?;
    let fault = PlaceFault::Given(GivenFault::Full { zone });
    says_of_placement(&rt, alloc, fault, b"qccd: placement: zone A full\n")
}
