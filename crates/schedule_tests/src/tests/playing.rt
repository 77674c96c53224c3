//! Schedules that play, and the first fault of those that don't.

use crate::tests::actions::{cross, goes, merge, op, split};
use crate::tests::ops::turn_if;
use crate::tests::places::{compare, placed};
use crate::tests::steps::schedule_of;
use circuit_core::Circuit;
use qc_base::{End, Name, OpId};
use samples::{barrier, cx, join, segment, trap_of, turn, zones_at_a_junction, zones_of};
use schedule_play::{PlayFault, play};
use std::alloc::Global;
use std::process::Abort;
use std::test::Fail;
use step_rules::{Action, Rule};
use trap_model::{Need, Trap, TrapParts};

const ABLE: [Need; 2] = [Need::One, Need::Two];

// The qubits of zone A and those of zone B.
const PLACED: [&[u32]; 2] = [&[0, 1], &[2, 3]];

// Zone A by segment s to junction J, and from there by t.0, with room for two ions, to zone B. Each zone has
// room for three.
fn line(alloc: Global, slots: u32, load: u32) -> Result<Trap, Fail> {
    let segments = [
        segment(alloc, b"s", slots, load)?,
        segment(alloc, b"t", 1, 2)?,
    ];
    zones_at_a_junction(alloc, &[(3, &ABLE), (3, &ABLE)], End::A, segments)
}

// Junction J with four arms: by s.0 from zone A, by t.0 from zone B, and u.0 and v.0.
fn star(alloc: Global) -> Result<Trap, Fail> {
    let mut segments = Vec::new(alloc);
    for name in [b"s", b"t", b"u", b"v"] {
        segments.push(segment(alloc, name, 1, 2)?)?;
    }
    let mut joins = Vec::new(alloc);
    joins.push(join(alloc, (b"A", End::B), (b"s", Some(End::A)))?)?;
    joins.push(join(alloc, (b"B", End::B), (b"t", Some(End::A)))?)?;
    joins.push(join(alloc, (b"s", End::B), (b"J", None))?)?;
    joins.push(join(alloc, (b"t", End::B), (b"J", None))?)?;
    joins.push(join(alloc, (b"u", End::A), (b"J", None))?)?;
    joins.push(join(alloc, (b"v", End::A), (b"J", None))?)?;
    let parts = TrapParts {
        zones: zones_of(alloc, &[(3, &ABLE), (3, &ABLE)])?,
        segments,
        junctions: Vec::from_array(alloc, [Name::from_bytes(alloc, b"J")?])?,
        joins,
    };
    trap_of(alloc, parts)
}

// Four qubits, and CX on these pairs of them.
fn circuit_of(alloc: Global, pairs: &[(u32, u32)]) -> Result<Circuit, Fail> {
    let mut ops = Vec::new(alloc);
    for (control, target) in pairs {
        ops.push(cx(*control, *target))?;
    }
    samples::circuit_of(alloc, 4, 0, ops)
}

fn broken(step: u64, action: u64, rule: Rule) -> PlayFault {
    PlayFault::Broken { step, action, rule }
}

// Plays the steps and compares the fault.
fn stops(
    rt: &impl Abort,
    alloc: Global,
    trap: &Trap,
    pairs: &[(u32, u32)],
    steps: &[&[Action]],
    fault: PlayFault,
) -> Result<(), Fail> {
    let circuit = circuit_of(alloc, pairs)?;
    let placement = placed(alloc, trap, &circuit, &PLACED)?;
    let schedule = schedule_of(rt, alloc, steps)?;
    let found = play(alloc, trap, &circuit, &placement, &schedule).err();
    assert!(rt; found == Some(fault), "{found:?}");
    Ok(())
}

// Plays the steps to their end and compares where the ions are then.
fn plays(
    rt: &impl Abort,
    alloc: Global,
    trap: &Trap,
    pairs: &[(u32, u32)],
    steps: &[&[Action]],
    places: &[&[u32]],
) -> Result<(), Fail> {
    let circuit = circuit_of(alloc, pairs)?;
    let placement = placed(alloc, trap, &circuit, &PLACED)?;
    let schedule = schedule_of(rt, alloc, steps)?;
    let config = play(alloc, trap, &circuit, &placement, &schedule)?;
    compare(rt, trap, &config, places);
    Ok(())
}

#[test]
fn schedules_that_play(rt: HostRuntime) -> Result<(), Fail> {
    let alloc = rt.alloc();
    let trap = line(alloc, 1, 2)?;
    let start: [&[u32]; 4] = [&[0, 1], &[2, 3], &[], &[]];
    plays(&rt, alloc, &trap, &[], &[], &start)?;
    let back: [&[Action]; 3] = [&[op(0, 0)], &[split(0, End::B, 1)], &[merge(0, End::B)]];
    plays(&rt, alloc, &trap, &[(0, 1)], &back, &start)?;
    let side: [&[Action]; 2] = [&[op(1, 1), op(0, 0)], &[op(0, 2)]];
    let pairs = [(0, 1), (2, 3), (1, 0)];
    plays(&rt, alloc, &trap, &pairs, &side, &start)?;
    let over: [&[Action]; 5] = [
        &[op(0, 0)],
        &[split(0, End::B, 1)],
        &[cross(2, 3)],
        &[merge(1, End::A)],
        &[op(1, 1)],
    ];
    let pairs = [(0, 1), (1, 2)];
    let end: [&[u32]; 4] = [&[0], &[1, 2, 3], &[], &[]];
    plays(&rt, alloc, &trap, &pairs, &over, &end)
}

#[test]
fn broken_rules(rt: HostRuntime) -> Result<(), Fail> {
    let alloc = rt.alloc();
    let trap = line(alloc, 1, 2)?;
    let full: [&[Action]; 3] = [&[split(1, End::A, 2)], &[cross(3, 2)], &[merge(0, End::B)]];
    stops(&rt, alloc, &trap, &[], &full, broken(3, 1, Rule::Full))?;
    let none: [&[Action]; 1] = [&[split(0, End::B, 0)]];
    stops(&rt, alloc, &trap, &[], &none, broken(1, 1, Rule::Index))?;
    let three: [&[Action]; 1] = [&[op(1, 0), split(0, End::B, 3)]];
    let index = broken(1, 2, Rule::Index);
    stops(&rt, alloc, &trap, &[(2, 3)], &three, index)?;
    let narrow = line(alloc, 1, 1)?;
    let two: [&[Action]; 1] = [&[split(0, End::B, 2)]];
    stops(&rt, alloc, &narrow, &[], &two, broken(1, 1, Rule::Load))?;
    let row = line(alloc, 3, 2)?;
    let chain: [&[Action]; 4] = [
        &[split(0, End::B, 1)],
        &[goes(2, 3)],
        &[split(0, End::B, 1)],
        &[goes(3, 4), goes(2, 3)],
    ];
    stops(&rt, alloc, &row, &[], &chain, broken(4, 2, Rule::Occupied))
}

#[test]
fn shared_in_a_step(rt: HostRuntime) -> Result<(), Fail> {
    let alloc = rt.alloc();
    let trap = star(alloc)?;
    let crossings: [&[Action]; 2] = [
        &[split(0, End::B, 1), split(1, End::B, 1)],
        &[cross(2, 4), cross(3, 5)],
    ];
    let shared = PlayFault::Shared {
        step: 2,
        first: 1,
        second: 2,
    };
    stops(&rt, alloc, &trap, &[], &crossings, shared)?;
    let thrice: [&[Action]; 1] = [&[op(1, 1), op(0, 0), op(0, 2), op(0, 0)]];
    let shared = PlayFault::Shared {
        step: 1,
        first: 2,
        second: 3,
    };
    let pairs = [(0, 1), (2, 3), (1, 0)];
    stops(&rt, alloc, &trap, &pairs, &thrice, shared)
}

#[test]
fn operations_out_of_order(rt: HostRuntime) -> Result<(), Fail> {
    let alloc = rt.alloc();
    let trap = line(alloc, 1, 2)?;
    let pairs = [(2, 3), (0, 1), (1, 0), (0, 1), (3, 2)];
    let early: [&[Action]; 1] = [&[op(1, 0), op(0, 3)]];
    let fault = PlayFault::Early {
        step: 1,
        op: OpId(3),
        needs: OpId(1),
    };
    stops(&rt, alloc, &trap, &pairs, &early, fault)?;
    let later: [&[Action]; 2] = [&[op(1, 0), op(0, 1)], &[op(0, 3)]];
    let fault = PlayFault::Early {
        step: 2,
        op: OpId(3),
        needs: OpId(2),
    };
    stops(&rt, alloc, &trap, &pairs, &later, fault)?;
    let twice: [&[Action]; 2] = [&[op(1, 0), op(0, 1)], &[op(0, 2), op(1, 0)]];
    let fault = PlayFault::Twice {
        step: 2,
        op: OpId(0),
    };
    stops(&rt, alloc, &trap, &pairs, &twice, fault)?;
    let missing: [&[Action]; 2] = [&[op(0, 1), op(1, 0)], &[op(1, 4)]];
    let fault = PlayFault::Missing { op: OpId(2) };
    stops(&rt, alloc, &trap, &pairs, &missing, fault)
}

// A gate on qubit 0, two barriers that lead from there to qubit 2, and a gate on it.
fn barriers(alloc: Global) -> Result<Circuit, Fail> {
    let first = barrier(alloc, &[0, 1])?;
    let second = barrier(alloc, &[1, 2])?;
    let ops = Vec::from_array(alloc, [turn(0), first, second, turn(2)])?;
    samples::circuit_of(alloc, 4, 0, ops)
}

// Plays the steps of the circuit.
fn answer(
    rt: &impl Abort,
    alloc: Global,
    trap: &Trap,
    circuit: &Circuit,
    steps: &[&[Action]],
) -> Result<Option<PlayFault>, Fail> {
    let placement = placed(alloc, trap, circuit, &PLACED)?;
    let schedule = schedule_of(rt, alloc, steps)?;
    Ok(play(alloc, trap, circuit, &placement, &schedule).err())
}

#[test]
fn barriers_between_operations(rt: HostRuntime) -> Result<(), Fail> {
    let alloc = rt.alloc();
    let trap = line(alloc, 1, 2)?;
    let circuit = barriers(alloc)?;
    let last_first: [&[Action]; 1] = [&[op(1, 3)]];
    let early = PlayFault::Early {
        step: 1,
        op: OpId(3),
        needs: OpId(0),
    };
    assert!(rt; answer(&rt, alloc, &trap, &circuit, &last_first)? == Some(early));
    let together: [&[Action]; 1] = [&[op(0, 0), op(1, 3)]];
    assert!(rt; answer(&rt, alloc, &trap, &circuit, &together)? == Some(early));
    let in_order: [&[Action]; 2] = [&[op(0, 0)], &[op(1, 3)]];
    assert!(rt; answer(&rt, alloc, &trap, &circuit, &in_order)?.is_none());
    let performed: [&[Action]; 2] = [&[op(0, 0)], &[op(0, 1)]];
    let not_op = broken(2, 1, Rule::NotOp);
    assert!(rt; answer(&rt, alloc, &trap, &circuit, &performed)? == Some(not_op));
    let missing: [&[Action]; 1] = [&[op(0, 0)]];
    let fault = PlayFault::Missing { op: OpId(3) };
    assert!(rt; answer(&rt, alloc, &trap, &circuit, &missing)? == Some(fault));
    Ok(())
}

#[test]
fn conditions_on_4096_bits(rt: HostRuntime) -> Result<(), Fail> {
    let alloc = rt.alloc();
    let trap = line(alloc, 1, 2)?;
    let ops = Vec::from_array(alloc, [turn_if(0, 1), turn_if(2, 2)])?;
    let circuit = samples::circuit_of(alloc, 4, 4096, ops)?;
    let last_first: [&[Action]; 1] = [&[op(1, 1)]];
    let early = PlayFault::Early {
        step: 1,
        op: OpId(1),
        needs: OpId(0),
    };
    assert!(rt; answer(&rt, alloc, &trap, &circuit, &last_first)? == Some(early));
    let together: [&[Action]; 1] = [&[op(0, 0), op(1, 1)]];
    assert!(rt; answer(&rt, alloc, &trap, &circuit, &together)? == Some(early));
    let in_order: [&[Action]; 2] = [&[op(0, 0)], &[op(1, 1)]];
    assert!(rt; answer(&rt, alloc, &trap, &circuit, &in_order)?.is_none());
    Ok(())
}
