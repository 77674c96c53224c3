//! Tight schedules of short lists.

ghost use Rattle.std.specs.Prelude.{ℕ, ◌<◌, ◌↔◌, length, IsTrue, All, IfOk};
ghost use Rattle.step_rules.specs.Placement.{IsPlacement, start_of};
ghost use Rattle.step_rules.specs.Play.{AreInOrder, AreLegal, one_at_a_time};
ghost use Rattle.compact.specs.Orders.{IsPerformedAt, Precedes};
ghost use Rattle.circuit_core.specs.Order.{Forced};

use crate::tests::actions::{merge, op, split};
use crate::tests::ops::turn_if;
use crate::tests::places::placed;
use crate::tests::steps::has_steps;
use circuit_core::{Circuit, Op, forced};
use compact::tighten;
use qc_base::{End, NoMemory, OpId};
use samples::{ALL, barrier, cx, measure, turn, zones_at_a_slot};
use std::alloc::Global;
use std::process::Abort;
use std::test::Fail;
use step_rules::{Action, Config, Setting, enabled};
use trap_model::Trap;

// Zones A and B with room for six ions each, and a segment of one slot between them.
fn two_zones(alloc: Global) -> Result<Trap, Fail> {
    zones_at_a_slot(alloc, &[(6, &ALL), (6, &ALL)])
}

// An operation on eight qubits and eight bits: a gate on a qubit, a gate on a qubit and the next, a barrier on qubits 0
// and 4 or on all, a measurement of a qubit into a bit, and a gate on a qubit under a condition on the bits.
#[derive(Clone, Copy, Debug, PartialEq, Eq)]
enum Sort {
    Turn(u32),
    Pair(u32),
    Wall,
    WallOverAll,
    Read(u32, u32),
    When(u32),
}

// The operation of that sort.
fn op_of(alloc: Global, sort: Sort) -> Result<Op, NoMemory> {
    match sort {
        Sort::Turn(qubit) => Ok(turn(qubit)),
        Sort::Pair(qubit) => Ok(cx(qubit, qubit.saturating_add(1))),
        Sort::Wall => barrier(alloc, &[0, 4]),
        Sort::WallOverAll => barrier(alloc, &[0, 1, 2, 3, 4, 5, 6, 7]),
        Sort::Read(qubit, bit) => Ok(measure(qubit, bit)),
        Sort::When(qubit) => Ok(turn_if(qubit, 1)),
    }
}

// Eight qubits and a register of eight bits, and operations of these sorts on them.
fn circuit_of(alloc: Global, sorts: &[Sort]) -> Result<Circuit, Fail> {
    let mut ops = Vec::new(alloc);
    for sort in sorts {
        ops.push(op_of(alloc, *sort)?)?;
    }
    samples::circuit_of(alloc, 8, 8, ops)
}

// Whether each action passes its guards after those before it.
fn passes(alloc: Global, setting: &Setting, actions: &[Action]) -> Result<bool, NoMemory>
    requires { IsPlacement setting.now.trap setting.now.circuit setting.now.placement }
    ensures { IfOk result (λ holds. IsTrue holds
        → AreLegal setting.now (start_of setting.now.trap setting.now.placement) (one_at_a_time actions.now)) }
{
    let mut config = Config::start(alloc, setting.trap, setting.placement)?;
    for action in actions {
        if let Err(_rule) = enabled(
            setting.trap,
            setting.circuit,
            setting.placement,
            &config,
            action,
        ) {
            return Ok(false);
        }
        config.apply(setting.trap, action);
    }
    Ok(true)
}

// Whether the action performs what has to come before the operation.
fn comes_before(circuit: &Circuit, action: &Action, op: OpId) -> bool
    ensures { IsTrue result ↔ Precedes circuit.now op.0 action.now }
{
    match action {
        Action::Op { op: other, .. } => forced(circuit, *other, op),
        _ => false,
    }
}

// Whether no action of these performs what has to come before the operation.
fn none_before(circuit: &Circuit, op: OpId, rest: &[Action]) -> bool
    ensures { IsTrue result → All (λ action. Precedes circuit.now op.0 action → ⊥) rest.now }
{
    for action in rest {
        if comes_before(circuit, action, op) {
            return false;
        }
    }
    true
}

// Whether what has to come before the operation of that action is before it.
fn stands_well(circuit: &Circuit, actions: &[Action], place: usize) -> bool
    requires { place < length actions.now }
    ensures { IsTrue result → (i j p : ℕ) → Forced circuit.now i j → IsPerformedAt actions.now i p
        → IsPerformedAt actions.now j place → p < place }
{
    let Action::Op { op, .. } = actions[place] else {
        return true;
    };
    none_before(circuit, op, &actions[place..])
}

// Whether forced operations are in order.
fn in_order(circuit: &Circuit, actions: &[Action]) -> bool
    ensures { IsTrue result → AreInOrder circuit.now (one_at_a_time actions.now) }
{
    for place in 0..actions.len() {
        if !stands_well(circuit, actions, place) {
            return false;
        }
    }
    true
}

// Tightens the list and compares the steps.
fn tightens(
    rt: &impl Abort,
    alloc: Global,
    sorts: &[Sort],
    actions: &[Action],
    steps: &[&[Action]],
) -> Result<(), Fail> {
    let trap = two_zones(alloc)?;
    let circuit = circuit_of(alloc, sorts)?;
    let placement = placed(alloc, &trap, &circuit, &[&[0, 1, 2, 3], &[4, 5, 6, 7]])?;
    let setting = Setting {
        trap: &trap,
        circuit: &circuit,
        placement: &placement,
    };
    let legal = passes(alloc, &setting, actions)?;
    assert!(rt; legal);
    let ordered = in_order(&circuit, actions);
    assert!(rt; ordered);
    let schedule = tighten(alloc, &trap, &circuit, &placement, actions)?;
    assert!(rt; has_steps(&schedule, steps), "{schedule:?}");
    Ok(())
}

#[test]
fn no_action(rt: HostRuntime) -> Result<(), Fail> {
    tightens(&rt, rt.alloc(), &[], &[], &[])
}

#[test]
fn one_zone(rt: HostRuntime) -> Result<(), Fail> {
    let sorts = [Sort::Turn(0), Sort::Turn(1), Sort::Turn(2)];
    let actions = [op(0, 0), op(0, 1), op(0, 2)];
    let steps: [&[Action]; 3] = [&[op(0, 0)], &[op(0, 1)], &[op(0, 2)]];
    tightens(&rt, rt.alloc(), &sorts, &actions, &steps)
}

#[test]
fn zones_side_by_side(rt: HostRuntime) -> Result<(), Fail> {
    let sorts = [Sort::Turn(0), Sort::Turn(4)];
    let actions = [op(0, 0), op(1, 1)];
    let steps: [&[Action]; 1] = [&[op(0, 0), op(1, 1)]];
    tightens(&rt, rt.alloc(), &sorts, &actions, &steps)
}

#[test]
fn a_barrier_between_zones(rt: HostRuntime) -> Result<(), Fail> {
    let sorts = [Sort::Turn(0), Sort::Wall, Sort::Turn(4)];
    let actions = [op(0, 0), op(1, 2)];
    let steps: [&[Action]; 2] = [&[op(0, 0)], &[op(1, 2)]];
    tightens(&rt, rt.alloc(), &sorts, &actions, &steps)
}

#[test]
fn a_condition_across_zones(rt: HostRuntime) -> Result<(), Fail> {
    let sorts = [Sort::Read(0, 3), Sort::Turn(5), Sort::When(4)];
    let actions = [op(0, 0), op(1, 1), op(1, 2)];
    let steps: [&[Action]; 2] = [&[op(0, 0), op(1, 1)], &[op(1, 2)]];
    tightens(&rt, rt.alloc(), &sorts, &actions, &steps)
}

// What is performed twice comes after itself only by its zone, and what was left out forces nothing.
#[test]
fn operations_left_out(rt: HostRuntime) -> Result<(), Fail> {
    let sorts = [Sort::Turn(0), Sort::Pair(3), Sort::Turn(4)];
    let actions = [op(0, 0), op(0, 0), op(1, 2)];
    let steps: [&[Action]; 2] = [&[op(0, 0), op(1, 2)], &[op(0, 0)]];
    tightens(&rt, rt.alloc(), &sorts, &actions, &steps)
}

#[test]
fn eight_qubits_in_fifteen_steps(rt: HostRuntime) -> Result<(), Fail> {
    let sorts = [
        Sort::Turn(0),
        Sort::Pair(0),
        Sort::Pair(1),
        Sort::Pair(2),
        Sort::Pair(3),
        Sort::Pair(4),
        Sort::Pair(5),
        Sort::Pair(6),
        Sort::WallOverAll,
        Sort::Read(0, 0),
        Sort::Read(1, 1),
        Sort::Read(2, 2),
        Sort::Read(3, 3),
        Sort::Read(4, 4),
        Sort::Read(5, 5),
        Sort::Read(6, 6),
        Sort::Read(7, 7),
    ];
    let actions = [
        op(0, 0),
        op(0, 1),
        op(0, 2),
        op(0, 3),
        split(1, End::A, 1),
        merge(0, End::B),
        op(0, 4),
        split(0, End::B, 1),
        merge(1, End::A),
        op(1, 5),
        op(1, 6),
        op(1, 7),
        op(0, 9),
        op(0, 10),
        op(0, 11),
        op(0, 12),
        op(1, 13),
        op(1, 14),
        op(1, 15),
        op(1, 16),
    ];
    let steps: [&[Action]; 15] = [
        &[op(0, 0), split(1, End::A, 1)],
        &[op(0, 1)],
        &[op(0, 2)],
        &[op(0, 3)],
        &[merge(0, End::B)],
        &[op(0, 4)],
        &[split(0, End::B, 1)],
        &[merge(1, End::A)],
        &[op(1, 5)],
        &[op(1, 6)],
        &[op(1, 7)],
        &[op(0, 9), op(1, 13)],
        &[op(0, 10), op(1, 14)],
        &[op(0, 11), op(1, 15)],
        &[op(0, 12), op(1, 16)],
    ];
    tightens(&rt, rt.alloc(), &sorts, &actions, &steps)
}
