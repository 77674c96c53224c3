//! What an application makes, by a list of bodies that are not done yet, so that no depth of gates is a depth of calls.

ghost use Rattle.std.specs.Prelude.{◌≡◌, ◌+◌, ◌≤◌, [], ◌∷◌, ◌++◌, ◌<◌, ◌^◌, slice_get, All, IfOk, OnOk, OnSome};
ghost use Rattle.std.specs.Option.{option_copied};
ghost use Rattle.gate_names.specs.Causes.{Gives, Leaves};
ghost use Rattle.gate_expand.specs.Expansion.{op_of, op_made, qubits_at, application_made};
ghost use Rattle.gate_expand.specs.Angles.{IsSmall};
ghost use Rattle.gate_expand.specs.WorkList.{universal_of, body_of, entered_first, frames_made, LeavesWork, weight};

use crate::angles::put_all;
use crate::made::Made;
use circuit_core::{Angle, Cond, Op};
use gate_names::{Cause, Gate, Gates, Item, Term};
use qc_base::{Items, NoMemory, Qubit};
use std::alloc::Global;
use std::marker::Model;

/// A body that is not done yet: its gate, its next item, and the angles and qubits that it was applied to.
#[derive(Drop)]
struct Frame {
    gate: usize,
    next: usize,
    angles: Vec<Angle>,
    qubits: Vec<Qubit>,
}

impl Model for Frame {
    ghost use Rattle.std.specs.Prelude.{All};
    ghost use Rattle.circuit_core.specs.contracts.angle.Angle as angle;
    ghost use Rattle.gate_expand.specs.Angles.{IsSmall};
    ghost use Rattle.gate_expand.specs.WorkList.{FrameValue};
    ghost use Rattle.std.specs.Coded.{codes};

    ghost Value = { FrameValue };

    ghost coded = { Prim.hlevel (codes, angle.the_row.coded) };

    ghost view = { λ f. record { gate = f.gate; next = f.next; angles = f.angles.items; qubits = f.qubits.items } };

    ghost invariant = { λ f. All IsSmall f.angles.items };
}

/// The gate U with its three angles.
fn universal(angles: Vec<Angle>, qubit: Qubit, cond: Option<Cond>) -> Option<Op>
    ensures { result ≡ universal_of cond angles.items qubit }
{
    let mut angles = angles;
    let lambda = angles.pop()?;
    let phi = angles.pop()?;
    let theta = angles.pop()?;
    if !angles.is_empty() {
        return None;
    }
    Some(Op::U {
        theta,
        phi,
        lambda,
        qubit,
        cond,
    })
}

/// The operation of a gate without a body.
fn op_of(
    alloc: Global,
    cond: Option<Cond>,
    gate: &Gate,
    angles: Vec<Angle>,
    qubits: &[Qubit],
) -> Result<Option<Op>, Cause>
    ensures { Gives (λ op. op) result (op_of cond gate.now angles.items qubits.now) }
{
    match (gate, qubits) {
        (Gate::Universal, [qubit]) => Ok(universal(angles, *qubit, cond)),
        (Gate::ControlledNot, [control, target]) => Ok(Some(Op::Cx {
            control: *control,
            target: *target,
            cond,
        })),
        (Gate::Opaque { name, .. }, [first]) => Ok(Some(Op::Opaque {
            name: name.copy(alloc)?,
            params: Items::from_vec(angles),
            first: *first,
            second: None,
            cond,
        })),
        (Gate::Opaque { name, .. }, [first, second]) => Ok(Some(Op::Opaque {
            name: name.copy(alloc)?,
            params: Items::from_vec(angles),
            first: *first,
            second: Some(*second),
            cond,
        })),
        (Gate::Opaque { .. }, [_, _, _, ..]) => Err(Cause::WideOp),
        _ => Ok(None),
    }
}

/// The qubits at those positions.
fn qubits_at(alloc: Global, qubits: &[Qubit], positions: &[usize]) -> Result<Vec<Qubit>, NoMemory>
    ensures { IfOk result (λ picked. picked.items ≡ qubits_at qubits.now positions.now) }
{
    let mut picked = Vec::new(alloc);
    for k in positions {
        picked.push(match qubits.get(*k) {
            Some(qubit) => *qubit,
            None => Qubit(0),
        })?;
    }
    Ok(picked)
}

/// The item of that number of a gate's body.
fn item_at(gates: &[Gate], gate: usize, number: usize) -> Option<&Item>
    ensures item { option_copied result ≡ slice_get (body_of (slice_get gates.now gate)) number }
    ensures more { OnSome result (number + 1 < 2 ^ 64) }
{
    match gates.get(gate) {
        Some(Gate::Body { items, .. }) => items.items().get(number),
        _ => None,
    }
}

/// Makes the operation of a gate without a body.
#[tactic(auto, using(crate::proofs::Working::small_op))]
fn make_op(
    alloc: Global,
    cond: Option<Cond>,
    gate: &Gate,
    angles: Vec<Angle>,
    qubits: &[Qubit],
    made: &mut Made,
) -> Result<(), Cause>
    requires { All IsSmall angles.items }
    ensures { Leaves result made.new (op_made cond gate.now angles.items qubits.now made.old) }
{
    match op_of(alloc, cond, gate, angles, qubits)? {
        Some(op) => made.push(op),
        None => Ok(()),
    }
}

/// Performs the gate of a frame: makes its operation, or puts the frame on the list.
#[tactic(auto, using(crate::proofs::Working::entering))]
fn enter(
    alloc: Global,
    gates: &Gates,
    cond: Option<Cond>,
    frame: Frame,
    frames: &mut Vec<Frame>,
    made: &mut Made,
) -> Result<(), Cause>
    requires { frame.next ≡ 0 }
    ensures made { LeavesWork gates.now cond result frames.new.items made.new
        (entered_first gates.now cond frame frames.old.items made.old) }
    ensures ends { OnOk result (weight frames.new.items made.new ≤ weight frames.old.items made.old + 1) }
{
    let Some(gate) = gates.get(frame.gate) else {
        return Ok(());
    };
    if gate.has_body() {
        frames.push(frame)?;
        return Ok(());
    }
    let Frame { angles, qubits, .. } = frame;
    make_op(alloc, cond, gate, angles, &qubits, made)
}

/// Does the next item of a frame, and puts back what is left of it.
#[tactic(auto, using(crate::proofs::Working::stepping))]
fn step(
    alloc: Global,
    gates: &Gates,
    cond: Option<Cond>,
    frame: Frame,
    frames: &mut Vec<Frame>,
    made: &mut Made,
) -> Result<(), Cause>
    ensures made { LeavesWork gates.now cond result frames.new.items made.new
        (frames_made gates.now cond (frames.old.items ++ frame ∷ []) made.old) }
    ensures ends { OnOk result (weight frames.new.items made.new ≤ weight frames.old.items made.old) }
{
    let Some(item) = item_at(gates.items(), frame.gate, frame.next) else {
        return Ok(());
    };
    let mut frame = frame;
    frame.next += 1;
    match item {
        Item::Barrier { qubits } => {
            let qubits = Items::from_vec(qubits_at(alloc, &frame.qubits, qubits.items())?);
            made.push(Op::Barrier { qubits })?;
            frames.push(frame)?;
            Ok(())
        }
        Item::Call {
            gate,
            params,
            qubits,
        } => {
            made.count()?;
            let called = Frame {
                gate: *gate,
                next: 0,
                angles: put_all(alloc, params.items(), &frame.angles)?,
                qubits: qubits_at(alloc, &frame.qubits, qubits.items())?,
            };
            frames.push(frame)?;
            enter(alloc, gates, cond, called, frames, made)
        }
    }
}

/// Does what is left of all frames, the last one first.
fn run(
    alloc: Global,
    gates: &Gates,
    cond: Option<Cond>,
    frames: Vec<Frame>,
    made: &mut Made,
) -> Result<(), Cause>
    ensures { Leaves result made.new (frames_made gates.now cond frames.items made.old) }
{
    let mut frames = frames;
    while let Some(frame) = frames.pop() {
        step(alloc, gates, cond, frame, &mut frames, made)?;
    }
    Ok(())
}

/// Applies a gate in the file, to angles without parameters and to qubits.
#[tactic(auto, using(crate::proofs::Working::apply_enters))]
pub fn apply(
    alloc: Global,
    gates: &Gates,
    cond: Option<Cond>,
    gate: usize,
    params: &[Term],
    qubits: Vec<Qubit>,
    made: &mut Made,
) -> Result<(), Cause>
    ensures { Leaves result made.new (application_made gates.now cond gate params.now qubits.items made.old) }
{
    made.count()?;
    let frame = Frame {
        gate,
        next: 0,
        angles: put_all(alloc, params, &[])?,
        qubits,
    };
    let mut frames = Vec::new(alloc);
    enter(alloc, gates, cond, frame, &mut frames, made)?;
    run(alloc, gates, cond, frames, made)
}
