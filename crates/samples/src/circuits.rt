//! Circuits.

ghost use Rattle.std.specs.Prelude.{◌≡◌, ◌≢◌, ◌≤◌, ◌<◌, length, IsTrue, All, AllPairs, IfOk};
ghost use Rattle.circuit_core.specs.Circuit.{nodes_in, all_nodes, qubit_count};
ghost use Rattle.circuit_core.specs.Op.{IsAngle, IsOp, angles_of};
ghost use Rattle.circuit_core.specs.Angle.{nodes_of};

use circuit_core::{Angle, Circuit, Op, Reg, is_identifier};
use qc_base::{Name, Qubit};
use std::alloc::Global;
use std::test::Fail;

fn are_below(qubits: &[Qubit], count: u32) -> bool
    ensures { IsTrue result → All (λ qubit. qubit.0 < count) qubits.now }
{
    qubits.iter().all(|qubit| qubit.0 < count)
}

fn is_absent(qubits: &[Qubit], qubit: Qubit) -> bool
    ensures { IsTrue result → All (λ other. other ≢ qubit) qubits.now }
{
    qubits.iter().all(|other| *other != qubit)
}

fn differ(qubits: &[Qubit]) -> bool
    ensures { IsTrue result → AllPairs (λ qubit other. qubit ≢ other) qubits.now }
{
    for k in 0..qubits.len() {
        if !is_absent(&qubits[..k], qubits[k]) {
            return false;
        }
    }
    true
}

fn is_leaf(angle: &Angle) -> bool
    ensures angle { IsTrue result → IsAngle angle.now }
    ensures nodes { IsTrue result → nodes_of angle.now ≡ 1 }
{
    matches!(angle, Angle::Int(_) | Angle::Pi)
}

fn are_few_leaves(angles: &[Angle]) -> bool
    ensures angles { IsTrue result → All IsAngle angles.now }
    ensures nodes { IsTrue result → nodes_in angles.now ≤ 1 }
    ensures few { IsTrue result → length angles.now ≤ 1 }
{
    match angles {
        [] => true,
        [angle] => is_leaf(angle),
        _ => false,
    }
}

// Whether it is an operation on so many qubits, bits and classical registers, with few nodes in its angles.
fn is_op(op: &Op, qubits: u32, bits: u32, cregs: u32) -> bool
    ensures op { IsTrue result → IsOp qubits bits cregs op.now }
    ensures nodes { IsTrue result → nodes_in (angles_of op.now) ≤ 3 }
{
    if let Some(cond) = op.cond() {
        if cond.creg.0 >= cregs {
            return false;
        }
    }
    match op {
        Op::U {
            theta,
            phi,
            lambda,
            qubit,
            ..
        } => {
            let theta = is_leaf(theta);
            let phi = is_leaf(phi);
            let lambda = is_leaf(lambda);
            theta && phi && lambda && qubit.0 < qubits
        }
        Op::Cx {
            control,
            target,
            ..
        } => control.0 < qubits && target.0 < qubits && control != target,
        Op::Opaque {
            name,
            params,
            first,
            second,
            ..
        } => {
            let named = is_identifier(name.bytes());
            let few = are_few_leaves(params.items());
            let below = match second {
                Some(second) => second.0 < qubits && first != second,
                None => true,
            };
            named && few && below && first.0 < qubits
        }
        Op::Measure { qubit, bit, .. } => qubit.0 < qubits && bit.0 < bits,
        Op::Reset { qubit, .. } => qubit.0 < qubits,
        Op::Barrier { qubits: list } => {
            let below = are_below(list.items(), qubits);
            let differ = differ(list.items());
            below && differ && !list.items().is_empty()
        }
    }
}

fn are_ops(ops: &[Op], qubits: u32, bits: u32, cregs: u32) -> bool
    ensures ops { IsTrue result → All (IsOp qubits bits cregs) ops.now }
    ensures nodes { IsTrue result → All (λ op. nodes_in (angles_of op) ≤ 3) ops.now }
{
    for op in ops {
        if !is_op(op, qubits, bits, cregs) {
            return false;
        }
    }
    true
}

#[tactic(auto, using(crate::proofs::Few::few_nodes, crate::proofs::Few::two_names))]
fn with_bits(alloc: Global, qubits: u32, bits: u32, ops: Vec<Op>) -> Result<Circuit, Fail>
    requires some_qubits { 1 ≤ qubits }
    requires few_qubits { qubits ≤ 128 }
    requires some_bits { 1 ≤ bits }
    requires few_bits { bits ≤ 4096 }
    requires few { length ops.items ≤ 1000 }
    requires ops { All (IsOp qubits bits 1) ops.items }
    requires nodes { All (λ op. nodes_in (angles_of op) ≤ 3) ops.items }
    ensures { IfOk result (λ circuit. qubit_count circuit ≡ qubits) }
{
    let qreg = Reg {
        name: Name::from_bytes(alloc, b"q")?,
        size: qubits,
    };
    let creg = Reg {
        name: Name::from_bytes(alloc, b"c")?,
        size: bits,
    };
    let qregs = Vec::from_array(alloc, [qreg])?;
    let cregs = Vec::from_array(alloc, [creg])?;
    Ok(Circuit::new(qregs, cregs, ops))
}

#[tactic(auto, using(crate::proofs::Few::few_nodes))]
fn without_bits(alloc: Global, qubits: u32, ops: Vec<Op>) -> Result<Circuit, Fail>
    requires some_qubits { 1 ≤ qubits }
    requires few_qubits { qubits ≤ 128 }
    requires few { length ops.items ≤ 1000 }
    requires ops { All (IsOp qubits 0 0) ops.items }
    requires nodes { All (λ op. nodes_in (angles_of op) ≤ 3) ops.items }
    ensures { IfOk result (λ circuit. qubit_count circuit ≡ qubits) }
{
    let name = Name::from_bytes(alloc, b"q")?;
    let qregs = Vec::from_array(alloc, [Reg { name, size: qubits }])?;
    Ok(Circuit::new(qregs, Vec::new(alloc), ops))
}

/// A register q of so many qubits, one c of so many bits where there are any, and these operations on
/// them. An angle is a whole number or pi.
pub fn circuit_of(alloc: Global, qubits: u32, bits: u32, ops: Vec<Op>) -> Result<Circuit, Fail>
    ensures { IfOk result (λ circuit. qubit_count circuit ≡ qubits) }
{
    if qubits == 0 || qubits > 128 || bits > 4096 || ops.len() > 1000 {
        return Err(Fail::new("too many or none"));
    }
    if bits == 0 && are_ops(ops.as_slice(), qubits, 0, 0) {
        return without_bits(alloc, qubits, ops);
    }
    if bits > 0 && are_ops(ops.as_slice(), qubits, bits, 1) {
        return with_bits(alloc, qubits, bits, ops);
    }
    Err(Fail::new("not an operation"))
}
