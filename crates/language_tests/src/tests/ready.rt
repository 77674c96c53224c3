//! Small circuits, an operation after another.

use circuit_core::{Circuit, Op};
use gate_order::Ready;
use qc_base::OpId;
use samples::{barrier, measure, reset};
use std::alloc::Global;
use std::process::Abort;
use std::test::Fail;

// Three qubits and one bit.
fn circuit_of(alloc: Global, ops: Vec<Op>) -> Result<Circuit, Fail> {
    samples::circuit_of(alloc, 3, 1, ops)
}

// Two readings into one bit, and a barrier between these and the end.
fn readings(alloc: Global) -> Result<Circuit, Fail> {
    let wall = barrier(alloc, &[1, 2])?;
    let ops = [measure(0, 0), measure(1, 0), reset(2), wall, reset(2)];
    circuit_of(alloc, Vec::from_array(alloc, ops)?)
}

// Two barriers at the start.
fn barriers(alloc: Global) -> Result<Circuit, Fail> {
    let first = barrier(alloc, &[0, 1])?;
    let second = barrier(alloc, &[1, 2])?;
    circuit_of(
        alloc,
        Vec::from_array(alloc, [first, second, reset(2), reset(0)])?,
    )
}

fn reads(ops: &[OpId], numbers: &[u32]) -> bool {
    ops.iter().map(|op| op.0).eq(numbers.iter().copied())
}

// Does the ready operation of that index.
fn perform(rt: &impl Abort, ready: &mut Ready<'_>, index: usize) {
    let waiting = ready.ready();
    assert!(rt; index < waiting.len());
    let op = waiting[index];
    ready.done(op);
}

#[test]
fn a_bit_and_a_barrier_order_operations(rt: HostRuntime) -> Result<(), Fail> {
    let circuit = readings(rt.alloc())?;
    let mut ready = Ready::new(rt.alloc(), &circuit)?;
    assert!(rt; reads(ready.ready(), &[0, 2]));
    perform(&rt, &mut ready, 1);
    assert!(rt; reads(ready.ready(), &[0]));
    perform(&rt, &mut ready, 0);
    assert!(rt; reads(ready.ready(), &[1]));
    perform(&rt, &mut ready, 0);
    assert!(rt; reads(ready.ready(), &[4]));
    perform(&rt, &mut ready, 0);
    assert!(rt; ready.ready().is_empty());
    Ok(())
}

#[test]
fn barriers_at_the_start_keep_nothing_back(rt: HostRuntime) -> Result<(), Fail> {
    let circuit = barriers(rt.alloc())?;
    let ready = Ready::new(rt.alloc(), &circuit)?;
    assert!(rt; reads(ready.ready(), &[2, 3]));
    let none = circuit_of(rt.alloc(), Vec::new(rt.alloc()))?;
    assert!(rt; Ready::new(rt.alloc(), &none)?.ready().is_empty());
    Ok(())
}
