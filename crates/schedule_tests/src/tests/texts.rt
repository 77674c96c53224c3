//! A text with every kind of line, and the first bad lines of others.

use crate::tests::actions::{cross, goes, merge, op, split, swap};
use crate::tests::places::placed;
use crate::tests::steps::{has_steps, schedule_of};
use circuit_core::{Angle, Angles, Circuit, Cond, Op};
use qc_base::{Bit, CregId, End, Name, NoMemory, Qubit};
use samples::{barrier, cx, reset, segment, zones_at_a_junction};
use schedule_text::{TextFault, print, read};
use std::alloc::Global;
use std::test::Fail;
use step_rules::{Action, Placement};
use trap_model::{Need, Trap};

// Zone A by segment s to junction J, and from there by segment t to zone B. The slots are s.0, s.1, t.0 and t.1.
fn trap_of(alloc: Global) -> Result<Trap, Fail> {
    let segments = [segment(alloc, b"s", 2, 2)?, segment(alloc, b"t", 2, 2)?];
    zones_at_a_junction(
        alloc,
        &[(4, &[Need::Two]), (4, &[Need::Two])],
        End::A,
        segments,
    )
}

// So many qubits, and two operations.
fn circuit_of(alloc: Global, qubits: u32) -> Result<Circuit, Fail> {
    let ops = Vec::from_array(alloc, [cx(0, 1), cx(2, 0)])?;
    samples::circuit_of(alloc, qubits, 0, ops)
}

const IF_THREE: Option<Cond> = Some(Cond {
    creg: CregId(0),
    value: 3,
});

// An operation of each kind, some with a condition.
fn circuit_of_all_kinds(alloc: Global) -> Result<Circuit, Fail> {
    let rotation = Op::U {
        theta: Angle::Pi,
        phi: Angle::Int(0),
        lambda: Angle::Int(4),
        qubit: Qubit(0),
        cond: None,
    };
    let opaque = Op::Opaque {
        name: Name::from_bytes(alloc, b"g")?,
        params: Angles::from_vec(Vec::from_array(alloc, [Angle::Int(2)])?),
        first: Qubit(0),
        second: Some(Qubit(2)),
        cond: IF_THREE,
    };
    let meeting = Op::Cx {
        control: Qubit(0),
        target: Qubit(1),
        cond: IF_THREE,
    };
    let reading = Op::Measure {
        qubit: Qubit(1),
        bit: Bit(1),
        cond: IF_THREE,
    };
    let both = barrier(alloc, &[0, 2])?;
    let ops = [rotation, opaque, meeting, reading, reset(2), both];
    samples::circuit_of(alloc, 3, 2, Vec::from_array(alloc, ops)?)
}

fn is_placed(placement: &Placement, zones: (&[Qubit], &[Qubit])) -> bool {
    match placement.lists() {
        [first, second] => first.items() == zones.0 && second.items() == zones.1,
        _ => false,
    }
}

// The ions 0 and 1 in A, and 2 in B.
const IN_A: [Qubit; 2] = [Qubit(2), Qubit(0)];

const IN_B: [Qubit; 1] = [Qubit(1)];

// The lines of the text of these.
const LINES: [&[u8]; 16] = [
    b"qccd schedule 1\n",
    b"place A q[2] q[0]\n",
    b"place B q[1]\n",
    b"steps 4\n",
    b"step 1\n",
    b"split A b 2\n",
    b"move s.0 s.1\n",
    b"step 2\n",
    b"cross J s.1 t.0\n",
    b"merge B a\n",
    b"step 3\n",
    b"step 4\n",
    b"swap A 0\n",
    b"op A 0 ions 1 2 : CX q[0],q[1];\n",
    b"op t.0 1 ions 0 1 : CX q[2],q[0];\n",
    b"end\n",
];

// The text with another line in place of the one with this number, from 1.
fn text_with(alloc: Global, number: usize, line: &[u8]) -> Result<Vec<u8>, NoMemory> {
    let mut text = Vec::new(alloc);
    let mut count = 0usize;
    for old in LINES {
        count = count.saturating_add(1);
        text.extend_from_slice(if count == number { line } else { old })?;
    }
    Ok(text)
}

#[test]
fn every_kind_of_line_is_printed_and_read(rt: HostRuntime) -> Result<(), Fail> {
    let alloc = rt.alloc();
    let trap = trap_of(alloc)?;
    let circuit = circuit_of(alloc, 3)?;
    let placement = placed(alloc, &trap, &circuit, &[&[2, 0], &[1]])?;
    let first = [split(0, End::B, 2), goes(2, 3)];
    let second = [cross(3, 4), merge(1, End::A)];
    let last = [swap(0, 0), op(0, 0), op(4, 1)];
    let steps: [&[Action]; 4] = [&first, &second, &[], &last];
    let schedule = schedule_of(&rt, alloc, &steps)?;
    let text = text_with(alloc, 0, b"")?;
    let printed = print(alloc, &trap, &circuit, &placement, &schedule)?;
    assert!(rt; printed.as_slice() == text.as_slice());
    let (placement, schedule) = read(alloc, &trap, &circuit, &text)?;
    assert!(rt; is_placed(&placement, (&IN_A, &IN_B)));
    assert!(rt; has_steps(&schedule, &steps));
    Ok(())
}

const ALL_KINDS_TEXT: &[u8] = b"qccd schedule 1
place A q[2] q[0]
place B q[1]
steps 1
step 1
op A 0 ions 1 : U(pi,0,4) q[0];
op A 1 ions 1 0 : if(c==3) g(2) q[0],q[2];
op A 2 ions 1 2 : if(c==3) CX q[0],q[1];
op A 3 ions 2 : if(c==3) measure q[1] -> c[1];
op A 4 ions 0 : reset q[2];
op A 5 ions 1 0 : barrier q[0],q[2];
end
";

#[test]
fn operations_of_all_kinds_are_printed_and_read(rt: HostRuntime) -> Result<(), Fail> {
    let alloc = rt.alloc();
    let trap = trap_of(alloc)?;
    let circuit = circuit_of_all_kinds(alloc)?;
    let placement = placed(alloc, &trap, &circuit, &[&[2, 0], &[1]])?;
    let actions = [0, 1, 2, 3, 4, 5].map(|number| op(0, number));
    let steps: [&[Action]; 1] = [&actions];
    let schedule = schedule_of(&rt, alloc, &steps)?;
    let printed = print(alloc, &trap, &circuit, &placement, &schedule)?;
    assert!(rt; printed.as_slice() == ALL_KINDS_TEXT);
    let (_, schedule) = read(alloc, &trap, &circuit, &printed)?;
    assert!(rt; has_steps(&schedule, &steps));
    Ok(())
}

// Whether the bytes have this first bad line.
fn is_bad_at(alloc: Global, trap: &Trap, circuit: &Circuit, bytes: &[u8], number: u64) -> bool {
    read(alloc, trap, circuit, bytes).err() == Some(TextFault::Line { number })
}

// A line's number, what is in its place, and the first bad line then.
const EDITS: [(usize, &[u8], u64); 44] = [
    (1, b"qccd schedule 2\n", 1),
    (1, b"qccd  schedule 1\n", 1),
    (2, b"place B q[2] q[0]\n", 2),
    (2, b"place A q[2] q[2]\n", 2),
    (2, b"place A q[2] q[3]\n", 2),
    (2, b"place A q[2] r[0]\n", 2),
    (2, b"place A q[2] q[00]\n", 2),
    (2, b"place A q[2]  q[0]\n", 2),
    (2, b"place A q[2]q[0]\n", 2),
    (2, b"place A q[2] q[0] \n", 2),
    (3, b"place B q[0]\n", 3),
    (3, b"place B\n", 3),
    (3, b"place B q[1]", 3),
    (4, b"steps 04\n", 4),
    (4, b"steps 3\n", 12),
    (4, b"steps 5\n", 16),
    (5, b"", 5),
    (5, b"step 2\n", 5),
    (5, b"step  1\n", 5),
    (6, b"Split A b 2\n", 6),
    (6, b"split C b 2\n", 6),
    (6, b"split A c 2\n", 6),
    (6, b"split A B 2\n", 6),
    (6, b"split A b 02\n", 6),
    (7, b"move s.0 s.2\n", 7),
    (7, b"move s.0 s.01\n", 7),
    (8, b"\n", 8),
    (9, b"cross B s.1 t.0\n", 9),
    (9, b"cross J s.1\n", 9),
    (10, b"merge B a\r\n", 10),
    (10, b"merge B a", 10),
    (11, b"step 4\n", 11),
    (13, b"swap A 4294967296\n", 13),
    (14, b"op A 2 ions 1 2 : CX q[0],q[1];\n", 14),
    (14, b"op A 0 ions 1 0 : CX q[0],q[1];\n", 14),
    (14, b"op A 0 ions 1 2 : CX q[0],q[2];\n", 14),
    (14, b"op A 0 ions 1 2  : CX q[0],q[1];\n", 14),
    (14, b"op A 0 ions 1 2 : CX q[0], q[1];\n", 14),
    (15, b"op t.0 0 ions 0 1 : CX q[2],q[0];\n", 15),
    (16, b"end", 16),
    (16, b"End\n", 16),
    (16, b"", 16),
    (16, b"end\n\n", 17),
    (16, b"end\nx", 17),
];

#[test]
fn texts_with_one_other_line(rt: HostRuntime) -> Result<(), Fail> {
    let alloc = rt.alloc();
    let trap = trap_of(alloc)?;
    let circuit = circuit_of(alloc, 3)?;
    for (line, with, number) in EDITS {
        let text = text_with(alloc, line, with)?;
        assert!(rt;
            is_bad_at(alloc, &trap, &circuit, &text, number),
            "{line} {number}"
        );
    }
    Ok(())
}

#[test]
fn texts_with_a_byte_less_or_another(rt: HostRuntime) -> Result<(), Fail> {
    let alloc = rt.alloc();
    let trap = trap_of(alloc)?;
    let circuit = circuit_of(alloc, 3)?;
    let text = text_with(alloc, 0, b"")?;
    let mut number = 1u64;
    for (at, byte) in text.iter().enumerate() {
        let mut less = text.clone()?;
        less.remove(at);
        assert!(rt; is_bad_at(alloc, &trap, &circuit, &less, number), "{at}");
        let mut other = text.clone()?;
        other[at] = 0;
        assert!(rt; is_bad_at(alloc, &trap, &circuit, &other, number), "{at}");
        if *byte == b'\n' {
            number = number.saturating_add(1);
        }
    }
    Ok(())
}

#[test]
fn texts_that_break_off(rt: HostRuntime) -> Result<(), Fail> {
    let alloc = rt.alloc();
    let trap = trap_of(alloc)?;
    let circuit = circuit_of(alloc, 3)?;
    let largest = b"qccd schedule 1\nplace A q[2] q[0]\nplace B q[1]\nsteps 18446744073709551615\n";
    let above = b"qccd schedule 1\nplace A q[2] q[0]\nplace B q[1]\nsteps 18446744073709551616\n";
    assert!(rt; is_bad_at(alloc, &trap, &circuit, largest, 5));
    assert!(rt; is_bad_at(alloc, &trap, &circuit, above, 4));
    assert!(rt; is_bad_at(alloc, &trap, &circuit, b"", 1));
    Ok(())
}

#[test]
fn qubits_that_fit_into_the_zones(rt: HostRuntime) -> Result<(), Fail> {
    let alloc = rt.alloc();
    let trap = trap_of(alloc)?;
    let six = circuit_of(alloc, 6)?;
    let nine = circuit_of(alloc, 9)?;
    let both = b"qccd schedule 1\nplace A q[0] q[1]\nplace B q[2] q[3] q[4] q[5]\nsteps 0\nend\n";
    let few = b"qccd schedule 1\nplace A q[0]\nplace B q[1] q[2] q[3] q[4] q[5]\nsteps 0\nend\n";
    let many = b"qccd schedule 1\nplace A q[0] q[1] q[2] q[3] q[4]\nplace B q[5]\nsteps 0\nend\n";
    assert!(rt; read(alloc, &trap, &six, both).is_ok());
    assert!(rt; is_bad_at(alloc, &trap, &six, few, 2));
    assert!(rt; is_bad_at(alloc, &trap, &six, many, 2));
    assert!(rt; is_bad_at(alloc, &trap, &nine, both, 1));
    Ok(())
}
