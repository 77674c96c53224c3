//! Searches in a trap of one zone, and in one of four zones around a junction.

use crate::tests::settings::placed;
use circuit_core::{Cond, Op};
use exact_search::{Count, ExactFault, Found, least};
use qc_base::{CregId, End, Name, Qubit};
use samples::{ALL, circuit_of, cx, join, measure, segment, trap_of, zones_apart, zones_of};
use std::alloc::Global;
use std::test::Fail;
use trap_model::{Trap, TrapParts};

// What the search for these operations on so many qubits, all in one zone, comes to.
fn search(
    alloc: Global,
    qubits: u32,
    ops: Vec<Op>,
    limits: (u64, u64),
) -> Result<Result<Found, ExactFault>, Fail> {
    let trap = zones_apart(alloc, &[(32, &ALL)])?;
    let circuit = circuit_of(alloc, qubits, 0, ops)?;
    let mut numbers = Vec::new(alloc);
    for number in 0..qubits {
        numbers.push(number)?;
    }
    let placement = placed(alloc, &trap, &circuit, &[numbers.as_slice()])?;
    let (max, budget) = limits;
    Ok(least(alloc, &trap, &circuit, &placement, max, budget))
}

// The search for one operation on two qubits.
fn search_pair(alloc: Global, max: u64, budget: u64) -> Result<Result<Found, ExactFault>, Fail> {
    search(alloc, 2, Vec::from_array(alloc, [cx(0, 1)])?, (max, budget))
}

fn is_least(found: &Result<Found, ExactFault>, steps: usize, shown: (u64, u64)) -> bool {
    match found {
        Ok(
            Found::Least {
                schedule,
                axioms,
                lines,
                ..
            },
        ) => schedule.steps().len() == steps && *axioms == shown.0 && *lines == shown.1,
        _ => false,
    }
}

fn is_none(found: &Result<Found, ExactFault>, shown: (u64, u64)) -> bool {
    match found {
        Ok(Found::NoneWithin { log, lines }) => log.axioms() == shown.0 && *lines == shown.1,
        _ => false,
    }
}

fn is_spent(found: &Result<Found, ExactFault>, left: u32, derived: u64) -> bool {
    match found {
        Ok(Found::Spent { log, bound }) => log.derived() == derived && *bound == left,
        _ => false,
    }
}

fn is_too_large(found: &Result<Found, ExactFault>, what: Count, count: u64) -> bool {
    match found {
        Err(fault) => *fault == ExactFault::TooLarge { what, count },
        _ => false,
    }
}

// Part 0 has five clauses: where the two ions are, which is nearer to end a, that the operation is not done,
// and that the goal needs it. One line refutes bound 0.
#[test]
fn one_operation(rt: HostRuntime) -> Result<(), Fail> {
    let alloc = rt.alloc();
    assert!(rt; is_least(&search_pair(alloc, 48, 100)?, 1, (5, 1)));
    assert!(rt; is_none(&search_pair(alloc, 0, 100)?, (5, 1)));
    assert!(rt; is_spent(&search_pair(alloc, 48, 0)?, 0, 0));
    Ok(())
}

#[test]
fn no_operation(rt: HostRuntime) -> Result<(), Fail> {
    let alloc = rt.alloc();
    let found = search(alloc, 1, Vec::new(alloc), (48, 1))?;
    assert!(rt; is_least(&found, 0, (0, 0)));
    Ok(())
}

#[test]
fn counts_above_their_limits(rt: HostRuntime) -> Result<(), Fail> {
    let alloc = rt.alloc();
    let ions = search(alloc, 17, Vec::new(alloc), (48, 1))?;
    assert!(rt; is_too_large(&ions, Count::Ions, 17));
    assert!(rt; is_too_large(&search_pair(alloc, 49, 1)?, Count::Max, 49));
    Ok(())
}

// Zones A to D for three ions each, of which A is able. A segment of one slot joins each with junction J.
fn star(alloc: Global) -> Result<Trap, Fail> {
    let arms: [(&[u8], &[u8]); 4] = [(b"A", b"a"), (b"B", b"b"), (b"C", b"c"), (b"D", b"d")];
    let mut segments = Vec::new(alloc);
    let mut joins = Vec::new(alloc);
    for (zone, arm) in arms {
        segments.push(segment(alloc, arm, 1, 1)?)?;
        joins.push(join(alloc, (zone, End::B), (arm, Some(End::A)))?)?;
        joins.push(join(alloc, (arm, End::B), (b"J", None))?)?;
    }
    let parts = TrapParts {
        zones: zones_of(alloc, &[(3, &ALL), (3, &[]), (3, &[]), (3, &[])])?,
        segments,
        junctions: Vec::from_array(alloc, [Name::from_bytes(alloc, b"J")?])?,
        joins,
    };
    trap_of(alloc, parts)
}

// Qubit 2 leaves B, while A turns its two; then it crosses the junction, and merges with them; the operation is last.
#[test]
fn a_junction_with_four_arms(rt: HostRuntime) -> Result<(), Fail> {
    let alloc = rt.alloc();
    let trap = star(alloc)?;
    let circuit = circuit_of(alloc, 3, 0, Vec::from_array(alloc, [cx(0, 2)])?)?;
    let placement = placed(alloc, &trap, &circuit, &[&[0, 1], &[2], &[], &[]])?;
    let found = least(alloc, &trap, &circuit, &placement, 48, 100000);
    assert!(rt; is_least(&found, 4, (2639, 4)));
    Ok(())
}

// The operation whose condition reads the bit comes after the measurement that writes it.
#[test]
fn a_measurement_and_a_condition(rt: HostRuntime) -> Result<(), Fail> {
    let alloc = rt.alloc();
    let reset = Op::Reset {
        qubit: Qubit(1),
        cond: Some(Cond {
            creg: CregId(0),
            value: 1,
        }),
    };
    let ops = Vec::from_array(alloc, [measure(0, 0), reset])?;
    let circuit = circuit_of(alloc, 2, 1, ops)?;
    let trap = zones_apart(alloc, &[(3, &ALL)])?;
    let placement = placed(alloc, &trap, &circuit, &[&[0, 1]])?;
    let found = least(alloc, &trap, &circuit, &placement, 48, 1000);
    assert!(rt; is_least(&found, 2, (33, 2)));
    Ok(())
}
