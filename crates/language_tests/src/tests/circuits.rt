//! How angles, operations and labels are written, and which operation has to come before which.

ghost use Rattle.std.specs.Prelude.{◌≡◌, ◌<◌, ◌≤◌, [], ◌∷◌, length, All, IfOk};
ghost use Rattle.circuit_core.specs.Angle.{nodes_of};
ghost use Rattle.circuit_core.specs.Circuit.{all_nodes};
ghost use Rattle.circuit_core.specs.Op.{HasSmallAngles, IsOp};

use circuit_core::{
    Angle, Angles, BinOp, Circuit, Cond, FunName, Nearest, Op, Qubits, Reg, forced, is_identifier,
    push_label, push_op, shares,
};
use qc_base::{Bit, CregId, Items, Name, NoMemory, OpId, Qubit};
use samples::{barrier, circuit_of, turn};
use sqlite_items::Boxed;
use std::alloc::Global;
use std::process::Abort;
use std::test::Fail;

/// Whether an angle is written so, and its copy too.
fn is_written(rt: &impl Abort, alloc: Global, angle: &Angle, text: &[u8]) -> Result<(), Fail>
    requires { nodes_of angle.now ≤ 1000 }
{
    let mut out = Vec::from_slice(alloc, b"U(")?;
    angle.copy(alloc)?.print(&mut out)?;
    assert!(rt; out.len() >= 2);
    assert!(rt; &out[2..] == text);
    Ok(())
}

/// sin(-pi/2).
fn sine(alloc: Global) -> Result<Angle, NoMemory>
    ensures { IfOk result (λ angle. nodes_of angle ≤ 1000) }
{
    let half = Angle::Bin(
        BinOp::Div,
        Boxed::new(alloc, Angle::Neg(Boxed::new(alloc, Angle::Pi)?))?,
        Boxed::new(alloc, Angle::Int(2))?,
    );
    Ok(Angle::Fun(FunName::Sin, Boxed::new(alloc, half)?))
}

/// 1e-05*pi/2.
fn product(alloc: Global) -> Result<Angle, NoMemory>
    ensures { IfOk result (λ angle. nodes_of angle ≤ 1000) }
{
    let small = Angle::Real(Name::from_bytes(alloc, b"1e-05")?);
    let product = Angle::Bin(
        BinOp::Mul,
        Boxed::new(alloc, small)?,
        Boxed::new(alloc, Angle::Pi)?,
    );
    Ok(Angle::Bin(
        BinOp::Div,
        Boxed::new(alloc, product)?,
        Boxed::new(alloc, Angle::Int(2))?,
    ))
}

#[test]
fn angles_are_written_with_all_parentheses(rt: HostRuntime) -> Result<(), Fail> {
    let alloc = rt.alloc();
    is_written(&rt, alloc, &sine(alloc)?, b"sin(((-pi)/2))")?;
    is_written(&rt, alloc, &product(alloc)?, b"((1e-05*pi)/2)")
}

#[test]
fn nodes_are_counted(rt: HostRuntime) -> Result<(), Fail> {
    assert!(rt; sine(rt.alloc())?.nodes() == 5);
    assert!(rt; product(rt.alloc())?.nodes() == 5);
    Ok(())
}

fn reg_of(alloc: Global, name: &[u8], size: u32) -> Result<Reg, NoMemory>
    ensures { IfOk result (λ reg. reg ≡ record { name = name.now; size = size }) }
{
    let name = Name::from_bytes(alloc, name)?;
    Ok(Reg { name, size })
}

/// Registers q of two qubits, r of one and c of two bits.
fn registers(alloc: Global) -> Result<Circuit, NoMemory> {
    let mut qregs = Vec::new(alloc);
    qregs.push(reg_of(alloc, b"q", 2)?)?;
    qregs.push(reg_of(alloc, b"r", 1)?)?;
    let mut cregs = Vec::new(alloc);
    cregs.push(reg_of(alloc, b"c", 2)?)?;
    Ok(Circuit::new(qregs, cregs, Vec::new(alloc)))
}

/// Whether an operation is written so, and its copy for the circuit's copy too.
fn is_op_written(
    rt: &impl Abort,
    alloc: Global,
    circuit: &Circuit,
    op: &Op,
    text: (&[u8], &[u8]),
) -> Result<(), Fail>
    requires { HasSmallAngles op.now }
{
    let mut wanted = Vec::from_slice(alloc, text.0)?;
    wanted.extend_from_slice(text.1)?;
    let mut written = Vec::new(alloc);
    push_op(&mut written, circuit, op)?;
    assert!(rt; written.as_slice() == wanted.as_slice());
    let mut copied = Vec::new(alloc);
    push_op(&mut copied, &circuit.copy(alloc)?, &op.copy(alloc)?)?;
    assert!(rt; copied.as_slice() == wanted.as_slice());
    Ok(())
}

/// Whether an operation of each kind but a barrier is written with that condition.
fn are_written(
    rt: &impl Abort,
    alloc: Global,
    circuit: &Circuit,
    cond: Option<Cond>,
    front: &[u8],
) -> Result<(), Fail> {
    let u = Op::U {
        theta: Angle::Pi,
        phi: Angle::Int(0),
        lambda: Angle::Real(Name::from_bytes(alloc, b".5")?),
        qubit: Qubit(0),
        cond,
    };
    is_op_written(rt, alloc, circuit, &u, (front, b"U(pi,0,.5) q[0];"))?;
    let cx = Op::Cx {
        control: Qubit(2),
        target: Qubit(1),
        cond,
    };
    is_op_written(rt, alloc, circuit, &cx, (front, b"CX r[0],q[1];"))?;
    let opaque = Op::Opaque {
        name: Name::from_bytes(alloc, b"ms")?,
        params: angles(alloc)?,
        first: Qubit(0),
        second: Some(Qubit(2)),
        cond,
    };
    is_op_written(rt, alloc, circuit, &opaque, (front, b"ms(pi,2) q[0],r[0];"))?;
    let plain = Op::Opaque {
        name: Name::from_bytes(alloc, b"idle")?,
        params: Items::from_vec(Vec::new(alloc)),
        first: Qubit(1),
        second: None,
        cond,
    };
    is_op_written(rt, alloc, circuit, &plain, (front, b"idle q[1];"))?;
    let measure = Op::Measure {
        qubit: Qubit(2),
        bit: Bit(1),
        cond,
    };
    is_op_written(
        rt,
        alloc,
        circuit,
        &measure,
        (front, b"measure r[0] -> c[1];"),
    )?;
    let reset = Op::Reset {
        qubit: Qubit(1),
        cond,
    };
    is_op_written(rt, alloc, circuit, &reset, (front, b"reset q[1];"))
}

/// pi and 2.
fn angles(alloc: Global) -> Result<Angles, NoMemory>
    ensures { IfOk result (λ angles. angles ≡ Angle.Pi ∷ Angle.Int 2 ∷ []) }
{
    let mut angles = Vec::new(alloc);
    angles.push(Angle::Pi)?;
    angles.push(Angle::Int(2))?;
    Ok(Items::from_vec(angles))
}

#[test]
fn operations_are_written_with_their_conditions(rt: HostRuntime) -> Result<(), Fail> {
    let alloc = rt.alloc();
    let circuit = registers(alloc)?;
    are_written(&rt, alloc, &circuit, None, b"")?;
    let cond = Cond {
        creg: CregId(0),
        value: 3,
    };
    are_written(&rt, alloc, &circuit, Some(cond), b"if(c==3) ")?;
    let qubits: Qubits = Items::from_vec(vec![in alloc; Qubit(2), Qubit(0), Qubit(1)]?);
    let barrier = Op::Barrier { qubits };
    is_op_written(
        &rt,
        alloc,
        &circuit,
        &barrier,
        (b"", b"barrier r[0],q[0],q[1];"),
    )
}

#[test]
fn labels_are_found_in_their_registers(rt: HostRuntime) -> Result<(), Fail> {
    let circuit = registers(rt.alloc())?;
    let labels: [&[u8]; 3] = [b"q[0]", b"q[1]", b"r[0]"];
    for (number, label) in (0..).zip(labels) {
        let mut out = Vec::new(rt.alloc());
        push_label(&mut out, circuit.qregs(), number)?;
        assert!(rt; out.as_slice() == label);
        assert!(rt; circuit.find(label) == Some(Qubit(number)));
    }
    for label in [b"q[2]".as_slice(), b"r[1]", b"q[00]", b"c[0]", b"q", b""] {
        assert!(rt; circuit.find(label).is_none());
    }
    Ok(())
}

/// A gate on qubit 0, two barriers that lead from there to qubit 2, and a gate on it.
fn barriers(alloc: Global) -> Result<Circuit, Fail> {
    let first = barrier(alloc, &[0, 1])?;
    let second = barrier(alloc, &[1, 2])?;
    let ops = Vec::from_array(alloc, [turn(0), first, second, turn(2)])?;
    circuit_of(alloc, 3, 0, ops)
}

#[test]
fn barriers_order_gates_on_other_qubits(rt: HostRuntime) -> Result<(), Fail> {
    let circuit = barriers(rt.alloc())?;
    assert!(rt; forced(&circuit, OpId(0), OpId(3)));
    assert!(rt; !forced(&circuit, OpId(3), OpId(0)));
    assert!(rt; !shares(&circuit, OpId(0), OpId(3)));
    assert!(rt; shares(&circuit, OpId(0), OpId(1)));
    assert!(rt; circuit.ops().len() == 4);
    let nearest = Nearest::new(rt.alloc(), &circuit)?;
    assert!(rt; nearest.of(OpId(0)).is_empty());
    assert!(rt; nearest.of(OpId(3)) == [OpId(2)].as_slice());
    Ok(())
}

/// A measurement into the second register of bits, a gate with a condition on the first, and a barrier.
fn mixed(alloc: Global) -> Result<Vec<Op>, NoMemory>
    ensures ops { IfOk result (λ ops. All (IsOp 3 3 2) ops.items) }
    ensures count { IfOk result (λ ops. length ops.items ≡ 3) }
    ensures nodes { IfOk result (λ ops. all_nodes ops.items ≡ 0) }
{
    let qubits: Qubits = Items::from_vec(vec![in alloc; Qubit(2), Qubit(0), Qubit(1)]?);
    let mut ops = Vec::new(alloc);
    ops.push(Op::Measure {
        qubit: Qubit(1),
        bit: Bit(2),
        cond: None,
    })?;
    ops.push(Op::Cx {
        control: Qubit(2),
        target: Qubit(0),
        cond: Some(Cond {
            creg: CregId(0),
            value: 3,
        }),
    })?;
    ops.push(Op::Barrier { qubits })?;
    Ok(ops)
}

/// These on registers q of three qubits, c of two bits and d of one.
fn conditioned(alloc: Global) -> Result<Circuit, NoMemory> {
    let ops = mixed(alloc)?;
    let qregs = Vec::from_array(alloc, [reg_of(alloc, b"q", 3)?])?;
    let cregs = Vec::from_array(alloc, [reg_of(alloc, b"c", 2)?, reg_of(alloc, b"d", 1)?])?;
    Ok(Circuit::new(qregs, cregs, ops))
}

/// Whether an operation acts on the qubits of these numbers, in order.
fn acts_on(rt: &impl Abort, op: &Op, numbers: &[u32]) {
    assert!(rt; op.width() == numbers.len());
    for (index, number) in numbers.iter().enumerate() {
        assert!(rt; op.qubit(index) == Qubit(*number));
    }
}

#[test]
fn parts_of_operations(rt: HostRuntime) -> Result<(), Fail> {
    let circuit = conditioned(rt.alloc())?;
    let cond = Cond {
        creg: CregId(0),
        value: 3,
    };
    let rows: [(&[u32], Option<Bit>, Option<Cond>, bool); 3] = [
        (&[1], Some(Bit(2)), None, false),
        (&[2, 0], None, Some(cond), false),
        (&[2, 0, 1], None, None, true),
    ];
    for (number, row) in (0..).zip(rows) {
        let Some(op) = circuit.op(OpId(number)) else {
            return Err(Fail::new("no operation"));
        };
        acts_on(&rt, op, row.0);
        assert!(rt; op.bit() == row.1);
        assert!(rt; op.cond() == row.2);
        assert!(rt; op.is_barrier() == row.3);
    }
    assert!(rt; circuit.op(OpId(3)).is_none());
    Ok(())
}

#[test]
fn bits_are_numbered_through_the_registers(rt: HostRuntime) -> Result<(), Fail> {
    let circuit = conditioned(rt.alloc())?;
    let rows: [(&[u8], u32, u32); 2] = [(b"c", 2, 0), (b"d", 1, 2)];
    assert!(rt; circuit.cregs().len() == rows.len());
    for (number, row) in (0..).zip(rows) {
        let Some(reg) = circuit.cregs().get(number as usize) else {
            return Err(Fail::new("no register"));
        };
        assert!(rt; reg.name.bytes() == row.0);
        assert!(rt; reg.size == row.1);
        assert!(rt; circuit.first_bit(CregId(number)) == row.2);
    }
    assert!(rt; circuit.bits() == 3);
    Ok(())
}

#[test]
fn names_of_registers_and_gates(rt: HostRuntime) -> Result<(), Fail> {
    let long = vec![in rt.alloc(); b'q'; 64]?;
    let longer = vec![in rt.alloc(); b'q'; 65]?;
    for name in [b"q".as_slice(), b"q_1Z", b"iff", long.as_slice()] {
        assert!(rt; is_identifier(name));
    }
    for name in [
        b"".as_slice(),
        b"Q",
        b"_q",
        b"1q",
        b"q-1",
        b"if",
        b"sqrt",
        longer.as_slice(),
    ] {
        assert!(rt; !is_identifier(name));
    }
    Ok(())
}
