//! What is said of a schedule that brings an ion from one zone to another.

use crate::tests::actions::{merge, op, split};
use crate::tests::places::placed;
use crate::tests::steps::schedule_of;
use qc_base::{End, NoMemory};
use samples::{ALL, circuit_of, zones_apart};
use schedule_report::{Counts, counts, least_line, legal_line, load_lines, report};
use std::alloc::Global;
use std::process::Abort;
use std::test::Fail;
use step_rules::{Action, Schedule, Setting};

// An ion of zone B comes into zone A, where an operation is performed.
fn three_steps(rt: &impl Abort, alloc: Global) -> Result<Schedule, NoMemory> {
    let steps: [&[Action]; 3] = [&[split(1, End::A, 1)], &[merge(0, End::B)], &[op(0, 0)]];
    schedule_of(rt, alloc, &steps)
}

#[test]
fn report_of_two_zones(rt: HostRuntime) -> Result<(), Fail> {
    let alloc = rt.alloc();
    let trap = zones_apart(alloc, &[(4, &ALL), (4, &ALL)])?;
    let circuit = circuit_of(alloc, 1, 0, Vec::new(alloc))?;
    let placement = placed(alloc, &trap, &circuit, &[&[0], &[]])?;
    let setting = Setting {
        trap: &trap,
        circuit: &circuit,
        placement: &placement,
    };
    let text = report(alloc, &setting, &three_steps(&rt, alloc)?)?;
    assert!(rt;
        text.as_slice()
            == b"steps 3\nsplit 1\nmove 0\ncross 0\nmerge 1\nswap 0\nop 1\nparallel 1\nzone A ops 1 swaps 0 out 0 in 1\nzone B ops 0 swaps 0 out 1 in 0\nstep 1 actions 1 ops 0\nstep 2 actions 1 ops 0\nstep 3 actions 1 ops 1\n".as_slice()
    );
    Ok(())
}

#[test]
fn lines_of_a_check_a_verification_and_a_load(rt: HostRuntime) -> Result<(), Fail> {
    let alloc = rt.alloc();
    let schedule = three_steps(&rt, alloc)?;
    let wanted = Counts {
        steps: 3,
        actions: 3,
        ops: 1,
    };
    assert!(rt; counts(&schedule) == wanted);
    let line = legal_line(alloc, &schedule)?;
    assert!(rt; line.as_slice() == b"legal steps 3 actions 3 operations 1\n".as_slice());
    let line = least_line(alloc, 3)?;
    assert!(rt; line.as_slice() == b"least steps 3\n".as_slice());
    let lines = load_lines(alloc, 7, 2_000, &schedule)?;
    assert!(rt; lines.as_slice() == b"load 7\noperations 2000\nsteps 3\nactions 3\n".as_slice());
    Ok(())
}
